ghost use Rattle.std.specs.Prelude.{◌≡◌};
ghost use Rattle.choice.specs.declared.signs.NoSign.TheVariants.{Missing as IsMissing, Faulty as IsFaulty};

use face::{Fault, Variant};

// A sign that is taken for a target.
#[derive(Clone, Copy, PartialEq, Eq, Debug)]
pub enum Sign {
    // A ready-made variant, by its index in the list.
    Variant {
        index: u16,
        variant: Variant,
    },
    // The parts stacked, each extender repeated, to a size, in so many pieces.
    Assembly {
        repeats: u32,
        size: u32,
        pieces: u32,
    },
}

// The number of the question about a key and a target that got a no.
#[derive(Clone, Copy, PartialEq, Eq, Debug)]
pub enum Missing {
    // Is the sign's key known?
    Unknown = 6,
    // Does a variant or a legal assembly fit?
    NothingFits = 8,
}

// Why there is no sign for a target.
#[derive(Clone, Copy, PartialEq, Eq, Debug)]
pub enum NoSign {
    // The key is unknown, or nothing fits.
    Missing(Missing),
    // The face cannot say what it offers for the key.
    Faulty(Fault),
}

// Both by hand: a derived conversion does not say which error it makes.
impl From<Missing> for NoSign {
    ghost from_gives = { λ missing e. e ≡ IsMissing missing };

    fn from(missing: Missing) -> NoSign {
        NoSign::Missing(missing)
    }
}

impl From<Fault> for NoSign {
    ghost from_gives = { λ fault e. e ≡ IsFaulty fault };

    fn from(fault: Fault) -> NoSign {
        NoSign::Faulty(fault)
    }
}
