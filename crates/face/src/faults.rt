ghost use Rattle.std.specs.Prelude.{◌≡◌};
ghost use Rattle.face.specs.Faults.{Whole, passed_up, found};

use crate::keys::Key;

// The question that a face had to answer with no.
#[derive(Clone, Copy, PartialEq, Eq, Debug)]
pub enum Cause {
    // Is each word that is read inside the table?
    OutsideTable = 15,
    // Is the coverage format 1 or 2?
    CoverageFormat = 16,
    // Is the coverage index below the count of constructions?
    CoverageIndex = 17,
    // Is each scaled length at most the largest length?
    ScaledLength = 18,
}

// The layer that found the fault.
#[derive(Clone, Copy, PartialEq, Eq, Debug)]
pub enum Layer {
    Math = 0,
    Scale = 1,
}

// Why a face cannot say what it offers for a key.
#[derive(Clone, Copy, PartialEq, Eq, Debug)]
pub struct Fault {
    pub cause: Cause,
    pub layer: Layer,
    // Where: for a table the byte offset of the word, for a scale which length.
    pub place: u32,
    // The key's glyph.
    pub glyph: u16,
    // How many layers passed the fault up, at most 255.
    pub passed: u8,
}

impl Fault {
    // The fault of a key as a layer finds it, which none has passed up yet.
    pub fn new(layer: Layer, cause: Cause, key: Key, place: u32) -> Fault
        ensures { result ≡ found layer cause key place }
    {
        Fault {
            cause,
            layer,
            place,
            glyph: key.glyph,
            passed: 0,
        }
    }

    // The fault as one more layer passes it up: whole, and counted.
    pub fn passed_up(self) -> Fault
        ensures value { result ≡ passed_up self }
        ensures whole { Whole self result }
    {
        Fault {
            passed: self.passed.saturating_add(1),
            ..self
        }
    }
}
