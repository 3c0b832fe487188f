ghost use Rattle.std.specs.Prelude.{◌≡◌};
ghost use Rattle.signs.specs.Refusals.{refusal_number};

use math_table::Refusal;
use thiserror::Error;

// Why the program itself refuses an input.
enum InputRefusal {
    // Has the input at most 65,536 bytes?
    TooLong = 13,
}

// An input that is refused.
#[derive(Debug, Drop, Error)]
pub(crate) enum Refused {
    #[error("{input}: refused with {}: more than 65536 bytes", self.number())]
    TooLong {
        input: &'static str,
    },
    #[error("{input}: refused with {}: not a MATH table of major version 1", self.number())]
    NoTable {
        input: &'static str,
        refusal: Refusal,
    },
}

impl Refused {
    // The number of the question that got a no.
    fn number(&self) -> u8
        ensures { result ≡ refusal_number self.now }
    {
        match self {
            Refused::TooLong { .. } => InputRefusal::TooLong as u8,
            Refused::NoTable { refusal, .. } => *refusal as u8,
        }
    }
}
