ghost use Rattle.std.specs.Prelude.{◌≡◌};
ghost use Rattle.signs.specs.Piles.{piled};

use crate::fields::two_fields;
use text::number;
use thiserror::Error;

// What the layers of a pile are told: by how much it scales, and what it caps the limit to.
#[derive(Clone, Copy)]
pub(crate) struct Pile {
    pub(crate) scale: u32,
    pub(crate) cap: u32,
}

// What is wrong with a line that tells no pile.
#[derive(Debug, Drop, Error)]
pub(crate) enum BadPile {
    #[error("two fields are wanted, scale and cap, parted by a tab")]
    NotTwoFields,
    #[error("the scale is not a number from 0 to 4294967295")]
    NoScale,
    #[error("the cap is not a number from 0 to 4294967295")]
    NoCap,
}

// The pile that a line tells.
pub(crate) fn pile_of(line: &[u8]) -> Result<Pile, BadPile>
    ensures { result ≡ piled line.now }
{
    let (front, back) = two_fields(line).ok_or(BadPile::NotTwoFields)?;
    let scale = number(front).ok_or(BadPile::NoScale)?;
    let cap = number(back).ok_or(BadPile::NoCap)?;
    Ok(Pile { scale, cap })
}
