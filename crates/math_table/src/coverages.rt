ghost use Rattle.std.specs.Prelude.{◌≡◌, ◌≤◌};
ghost use Rattle.std.specs.Option.{ok_or};
ghost use Rattle.face.specs.declared.faults.Cause.TheVariants.{CoverageFormat};
ghost use Rattle.math_table.specs.Coverages.{format_of, entry_size, entry_index, first_holding, coverage_index};

use crate::words::{Reader, fault};
use face::{Cause, Fault};

// What the entries of a coverage table are.
#[derive(Clone, Copy)]
enum Format {
    // Glyphs, in the order of their indexes.
    Glyphs = 1,
    // Ranges of glyphs: the first, the last, and the index of the first.
    Ranges = 2,
}

impl TryFrom<u16> for Format {
    type Error = Cause;

    ghost try_from_gives = { λ word format. format ≡ ok_or (format_of word) CoverageFormat };

    fn try_from(word: u16) -> Result<Format, Cause> {
        match word {
            1 => Ok(Format::Glyphs),
            2 => Ok(Format::Ranges),
            _ => Err(Cause::CoverageFormat),
        }
    }
}

impl Format {
    fn entry_size(self) -> u8
        ensures { result ≡ entry_size self }
    {
        match self {
            Format::Glyphs => 2,
            Format::Ranges => 6,
        }
    }

    // The index that the entry at `place` gives to the key's glyph, if it holds it.
    // As each reading does, it asks for a place below 2^20, where no offset wraps.
    fn index_at(self, reader: &Reader, place: u32, position: u32) -> Result<Option<u32>, Fault>
        requires { place ≤ 1048576 }
        ensures { result ≡ entry_index reader.now.table.now reader.now.key self place position }
    {
        let glyph = reader.key.glyph;
        let start = reader.word(place)?;
        Ok(match self {
            Format::Glyphs => (start == glyph).then_some(position),
            Format::Ranges => {
                let last = reader.word(place + 2)?;
                let first = reader.word(place + 4)?;
                (start..=last)
                    .contains(&glyph)
                    .then(|| u32::from(first) + u32::from(glyph - start))
            }
        })
    }

    // The index by the first of the entries that holds the glyph, sorted or not.
    #[tactic(auto, using(crate::proofs::Holding::holding_later))]
    fn first_holding(self, reader: &Reader, count: u16, first: u32) -> Result<Option<u32>, Fault>
        requires { first ≤ 262144 }
        ensures { result ≡ first_holding reader.now.table.now reader.now.key self count first 0 }
    {
        for position in 0..u32::from(count) {
            let place = first + u32::from(self.entry_size()) * position;
            if let Some(index) = self.index_at(reader, place, position)? {
                return Ok(Some(index));
            }
        }
        Ok(None)
    }
}

impl Reader<'_> {
    // The index of the key's glyph in the coverage table at `place`, if it is covered.
    pub(crate) fn coverage_index(&self, place: u32) -> Result<Option<u32>, Fault>
        requires { place ≤ 131070 }
        ensures { result ≡ coverage_index self.now.table.now self.now.key place }
    {
        let key = self.key;
        let format = Format::try_from(self.word(place)?).map_err(|cause| fault(cause, key, place))?;
        let count = self.word(place + 2)?;
        format.first_holding(self, count, place + 4)
    }
}
