// One pass over the parts.
ghost use Rattle.std.specs.Prelude.{◌≡◌, ℕ, ◌+◌, List, ◌∷◌};
ghost use Rattle.face.specs.declared.parts.Part.{Part as ThePart};
ghost use Rattle.choice.specs.Tallying.{SmallTally, completed, no_parts};
ghost use Rattle.choice.specs.Totals.{Describes};

use super::Totals;
use crate::sums::Sums;
use face::{Face, Offer, Part};

// What the parts so far add up to.
#[derive(Clone, Copy)]
struct Tally {
    least: u32,
    none: Sums,
    once: Sums,
    more: Sums,
    // The latest part that is no extender, and the latest of all.
    fixed: Option<Part>,
    last: Option<Part>,
}

impl Tally {
    // No part yet.
    fn new(least: u32) -> Tally
        ensures { result ≡ no_parts least }
    {
        Tally {
            least,
            none: Sums::NONE,
            once: Sums::NONE,
            more: Sums::NONE,
            fixed: None,
            last: None,
        }
    }

    // One more part.
    fn and(self, part: Part) -> Tally
        requires { SmallTally 65534 self }
        ensures more { (ps : List ThePart) → completed result ps ≡ completed self (part ∷ ps) }
        ensures small { (n : ℕ) → SmallTally n self → SmallTally (n + 1) result }
    {
        let once = self.once.and(self.last, part, self.least);
        let last = Some(part);
        if part.extender {
            let more = self.more.and(last, part, self.least);
            Tally {
                once,
                more,
                last,
                ..self
            }
        } else {
            let none = self.none.and(self.fixed, part, self.least);
            Tally {
                none,
                once,
                fixed: last,
                last,
                ..self
            }
        }
    }
}

impl Totals {
    // The totals of what is offered.
    pub(crate) fn of<F: Face>(offer: &Offer<F>) -> Totals
        ensures { Describes result offer.now }
    {
        let mut tally = Tally::new(offer.look().least);
        for part in offer.entries::<Part>() {
            tally = tally.and(part);
        }
        let Tally {
            least,
            none,
            once,
            more,
            ..
        } = tally;
        Totals {
            least,
            none,
            once,
            more,
        }
    }
}
