ghost use Rattle.std.specs.Prelude.{◌≡◌, ◌≤◌};
ghost use Rattle.math_table.specs.Constructions.{variant_entry, part_entry};

use crate::words::Reader;
use face::{Fault, Part, Variant};

// Each reading asks for a place below 2^20, where no offset wraps.
impl Reader<'_> {
    // A variant of a face: glyph and advance.
    pub(crate) fn variant_at(&self, face: u8, place: u32) -> Result<Variant, Fault>
        requires { place ≤ 1048576 }
        ensures { result ≡ variant_entry self.now.table.now face self.now.key place }
    {
        let glyph = self.word(place)?;
        let advance = self.word(place + 2)?;
        Ok(Variant {
            face,
            glyph,
            advance: u32::from(advance),
        })
    }

    // A part of a face: glyph, start connector, end connector, full advance and flags.
    pub(crate) fn part_at(&self, face: u8, place: u32) -> Result<Part, Fault>
        requires { place ≤ 1048576 }
        ensures { result ≡ part_entry self.now.table.now face self.now.key place }
    {
        let glyph = self.word(place)?;
        let start = self.word(place + 2)?;
        let end = self.word(place + 4)?;
        let full = self.word(place + 6)?;
        let flags = self.word(place + 8)?;
        Ok(Part::new(
            face,
            glyph,
            u32::from(start),
            u32::from(end),
            u32::from(full),
            flags & 1 == 1,
        ))
    }
}
