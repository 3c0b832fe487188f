// The sums at any repeat count, and their span.
ghost use Rattle.std.specs.Prelude.{◌≡◌, ◌≤◌, MatchOption};
ghost use Rattle.face.specs.Meaning.{Construction};
ghost use Rattle.choice.specs.Spans.{span as legal_sizes};
ghost use Rattle.choice.specs.Sums.{grown};
ghost use Rattle.choice.specs.Totals.{Describes, SumsAt, NoneFrom};

use super::Totals;
use crate::sums::{MOST_PIECES, Sums};

impl Totals {
    // The sums at one repeat and so many further ones.
    fn repeated(self, times: u32) -> Sums
        requires { times ≤ 4095 }
        ensures { result ≡ grown self.once self.more times }
    {
        let more = self.more;
        Sums {
            pieces: self.once.pieces + times * more.pieces,
            full: self.once.full + u64::from(times) * more.full,
            mosts: self.once.mosts + u64::from(times) * more.mosts,
            roomy: self.once.roomy && (times == 0 || more.roomy),
        }
    }

    // What the pieces at a repeat count add up to; none where no assembly is legal, at it or at a higher one.
    #[tactic(auto, using(crate::proofs::Spanning::above_none, crate::proofs::Spanning::no_extender_none, crate::proofs::Spanning::more_at))]
    pub(super) fn at(self, repeats: u32) -> Option<Sums>
        ensures { MatchOption result (NoneFrom self repeats) (SumsAt self repeats) }
    {
        if repeats == 0 {
            return Some(self.none);
        }
        if repeats > MOST_PIECES || self.more.pieces == 0 {
            return None;
        }
        Some(self.repeated(repeats - 1))
    }

    // The smallest and the largest legal size at a repeat count; none where no assembly is legal.
    #[tactic(auto, using(crate::proofs::Spanning::span_at))]
    pub(crate) fn span(self, repeats: u32) -> Option<(u64, u64)>
        ensures { (c : Construction) → Describes self c → result ≡ legal_sizes c.least c.parts repeats }
    {
        self.at(repeats)?.span(self.least)
    }
}
