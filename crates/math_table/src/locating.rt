ghost use Rattle.std.specs.Prelude.{◌≡◌};
ghost use Rattle.math_table.specs.MathVariants.{coverage_offset, count_offset, covered, skipped, construction_offset, located_from, located};

use crate::located::Located;
use crate::words::{Reader, fault};
use face::{Axis, Cause, Fault};

// Where MathVariants has, from its beginning, what belongs to an axis: the offset of a coverage table, and the count of
// construction offsets.
#[derive(Clone, Copy)]
struct AxisFields {
    coverage: u32,
    count: u32,
}

// The subtable MathVariants as it is read for a key.
#[derive(Clone, Copy)]
struct MathVariants<'a> {
    reader: Reader<'a>,
    // Where it begins.
    base: u16,
}

impl MathVariants<'_> {
    // Those of the key's axis.
    fn fields(&self) -> AxisFields
        ensures coverage { result.coverage ≡ coverage_offset self.now.reader.key.axis }
        ensures count { result.count ≡ count_offset self.now.reader.key.axis }
    {
        match self.reader.key.axis {
            Axis::Upright => AxisFields {
                coverage: 2,
                count: 6,
            },
            Axis::Level => AxisFields {
                coverage: 4,
                count: 8,
            },
        }
    }

    // The index of the key's glyph in the coverage of its axis.
    fn covered_index(&self) -> Result<Option<u32>, Fault>
        ensures { let r = self.now.reader in result ≡ covered r.table.now r.key self.now.base }
    {
        let base = u32::from(self.base);
        let offset = self.reader.word(base + self.fields().coverage)?;
        if offset == 0 {
            return Ok(None);
        }
        self.reader.coverage_index(base + u32::from(offset))
    }

    // How many construction offsets stand before those of the key's axis.
    fn offsets_before(&self) -> Result<u16, Fault>
        ensures { let r = self.now.reader in
            result ≡ skipped r.table.now r.key self.now.base r.key.axis }
    {
        match self.reader.key.axis {
            Axis::Upright => Ok(0),
            Axis::Level => self.reader.word(u32::from(self.base) + 6),
        }
    }

    // The construction offset at an index of the key's axis.
    fn construction_offset(&self, index: u32) -> Result<u16, Fault>
        ensures { let r = self.now.reader in
            result ≡ construction_offset r.table.now r.key self.now.base index }
    {
        let base = u32::from(self.base);
        let place = base + self.fields().count;
        let count = self.reader.word(place)?;
        if index >= u32::from(count) {
            return Err(fault(Cause::CoverageIndex, self.reader.key, place));
        }
        let before = self.offsets_before()?;
        self.reader
            .word(base + 10 + 2 * (u32::from(before) + index))
    }

    // The way to the key's construction.
    fn locate(&self) -> Result<Option<Located>, Fault>
        ensures { let r = self.now.reader in result ≡ located_from r.table.now r.key self.now.base }
    {
        let base = u32::from(self.base);
        let least = self.reader.word(base)?;
        let Some(index) = self.covered_index()? else {
            return Ok(None);
        };
        let offset = self.construction_offset(index)?;
        if offset == 0 {
            return Ok(None);
        }
        Ok(Some(Located {
            least,
            place: base + u32::from(offset),
        }))
    }
}

impl Reader<'_> {
    // The way from the header to the key's construction.
    pub(crate) fn locate(&self) -> Result<Option<Located>, Fault>
        ensures { result ≡ located self.now.table.now self.now.key }
    {
        if self.table.is_empty() {
            return Ok(None);
        }
        let base = self.word(8)?;
        if base == 0 {
            return Ok(None);
        }
        MathVariants {
            reader: *self,
            base,
        }
        .locate()
    }
}
