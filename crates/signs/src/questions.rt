ghost use Rattle.std.specs.Prelude.{◌≡◌, None, MatchOption};
ghost use Rattle.std.specs.Result.{result_ok};
ghost use Rattle.signs.specs.Questions.{asked};
ghost use Rattle.text.specs.Numbers.{numeral};

use crate::fields::two_fields;
use face::Key;
use text::number;
use thiserror::Error;

// What is wrong with a line that asks nothing.
#[derive(Debug, Drop, Error)]
pub(crate) enum BadQuestion {
    #[error("two fields are wanted, glyph and axis, parted by a tab")]
    NotTwoFields,
    #[error("the glyph is not a number from 0 to 65535")]
    NoGlyph,
    #[error("the axis is neither 0 (upright) nor 1 (level)")]
    NoAxis,
}

// The number in a field, as what it stands for.
fn number_as<T: TryFrom<u32>>(field: &[u8]) -> Option<T>
where
    T::Error: Drop,
    ensures { MatchOption (numeral field.now) (result ≡ None) (λ n. (r : _) × T.try_from_gives n r × (result ≡ result_ok r)) }
{
    T::try_from(number(field)?).ok()
}

// The key that a line asks about.
pub(crate) fn question(line: &[u8]) -> Result<Key, BadQuestion>
    ensures { result ≡ asked line.now }
{
    let (front, back) = two_fields(line).ok_or(BadQuestion::NotTwoFields)?;
    let glyph = number_as(front).ok_or(BadQuestion::NoGlyph)?;
    let axis = number_as(back).ok_or(BadQuestion::NoAxis)?;
    Ok(Key { glyph, axis })
}
