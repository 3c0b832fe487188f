// What the parts of a construction add up to.
mod repeated;
mod seeking;
mod tallying;

ghost use Rattle.choice.specs.Sums.{Small};

use crate::sums::Sums;

// What the parts add up to at no repeat, at one, and what each further repeat adds.
#[derive(Clone, Copy)]
pub(crate) struct Totals {
    least: u32,
    none: Sums,
    once: Sums,
    more: Sums,
    ghost once_small: { Small 65535 once },
    ghost more_small: { Small 65535 more },
}
