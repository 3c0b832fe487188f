ghost use Rattle.std.specs.Prelude.{◌≡◌, ℕ};
ghost use Rattle.face.specs.Meaning.{looked, variant_at, part_at};
ghost use Rattle.math_table.specs.Limits.{word_largest, bounded_math};
ghost use Rattle.math_table.specs.Making.{well_formed, Making, meant};
ghost use Rattle.math_table.specs.Reading.{LARGEST_WORD as the_largest_word};
ghost use Rattle.math_table.specs.Shapes.{shape_look, shape_variant, shape_part, found_variant, found_part};

use crate::found::Found;
use crate::shape::Shape;
use crate::words::Reader;
use face::{Face, Fault, Key, LARGEST, Look, Part, Variant};

// Every length in a table is a word, and this the largest.
const LARGEST_WORD: u32 = 65_535;

// A face over the bytes of a MATH table. Empty bytes know no key.
#[derive(Clone, Copy)]
pub struct MathTable<'a> {
    table: &'a [u8],
    // The number that its variants and parts carry.
    face: u8,
}

// Why no face is made.
#[derive(Clone, Copy, PartialEq, Eq, Debug)]
pub enum Refusal {
    // Has a table that is not empty ten bytes or more, and major version 1?
    Header = 14,
}

// Is the table empty, or has it ten bytes or more and major version 1?
fn well_formed(table: &[u8]) -> bool
    ensures { result ≡ well_formed table.now }
{
    match table {
        [] => true,
        [0, 1, ..] => table.len() >= 10,
        _ => false,
    }
}

impl<'a> MathTable<'a> {
    pub fn new(table: &'a [u8], face: u8) -> Result<MathTable<'a>, Refusal>
        ensures { Making table.now face result }
    {
        if well_formed(table) {
            Ok(MathTable { table, face })
        } else {
            Err(Refusal::Header)
        }
    }

    // The table as it is read for a key.
    fn reader(&self, key: Key) -> Reader<'a>
        ensures { result ≡ record { table = self.now.table; key = key } }
    {
        Reader {
            table: self.table,
            key,
        }
    }

    // Where the key's construction stands, if it has one: enough to answer every question.
    #[tactic(auto, using(crate::proofs::Agreeing::shape_answers))]
    fn shape(&self, key: Key) -> Result<Option<Shape>, Fault>
        ensures look { looked (meant self.now key) ≡ shape_look result }
        ensures variants { (i : ℕ) → variant_at (meant self.now key) i ≡ shape_variant self.now key result i }
        ensures parts { (i : ℕ) → part_at (meant self.now key) i ≡ shape_part self.now key result i }
    {
        self.reader(key).shape()
    }
}

impl<'a> Face for MathTable<'a> {
    type Found = Found;

    ghost meaning = { meant };

    ghost variants = { found_variant };

    ghost parts = { found_part };

    ghost reach = { λ s. the_largest_word };

    ghost largest = { λ s. word_largest };

    ghost bounded = { λ s key. bounded_math s.table.now s.face key };

    fn look(&self, key: Key) -> Result<Option<Look>, Fault> {
        Ok(
            self.shape(key)?.map(|shape| Look {
                limit: LARGEST,
                least: u32::from(shape.least),
                variants: shape.variants.count,
                parts: shape.parts.count,
            }),
        )
    }

    fn find(&self, key: Key) -> Option<Found> {
        let shape = self.shape(key).ok()??;
        Some(Found {
            key,
            variants: shape.variants,
            parts: shape.parts,
        })
    }

    fn variant_of(&self, found: Found, index: u16) -> Option<Variant> {
        let place = found.variants.place(4, index)?;
        self.reader(found.key).variant_at(self.face, place).ok()
    }

    fn part_of(&self, found: Found, index: u16) -> Option<Part> {
        let place = found.parts.place(10, index)?;
        self.reader(found.key).part_at(self.face, place).ok()
    }

    fn longest(&self) -> u32 {
        LARGEST_WORD
    }
}
