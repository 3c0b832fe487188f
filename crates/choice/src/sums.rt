// What pieces in a row add up to, and the sizes that such pieces can have.
ghost use Rattle.std.specs.Prelude.{◌≡◌, ℕ, ◌+◌};
ghost use Rattle.choice.specs.Sums.{Small, added, span_of_sums, past};

use crate::joints::most;
use face::Part;

// The most pieces of an assembly.
pub(crate) const MOST_PIECES: u32 = 4096;

// What pieces in a row add up to.
#[derive(Clone, Copy)]
pub(crate) struct Sums {
    pub(crate) pieces: u32,
    // Their full advances.
    pub(crate) full: u64,
    // The mosts of their joints.
    pub(crate) mosts: u64,
    // Does every joint leave room for the least overlap?
    pub(crate) roomy: bool,
}

impl Sums {
    // No piece.
    pub(crate) const NONE: Sums = Sums {
        pieces: 0,
        full: 0,
        mosts: 0,
        roomy: true,
    };

    // One more piece behind a former one, or behind none.
    pub(crate) fn and(self, former: Option<Part>, part: Part, least: u32) -> Sums
        requires { Small 65534 self }
        ensures sums { result ≡ added least self former part }
        ensures small { (n : ℕ) → Small n self → Small (n + 1) result }
    {
        let (most, fits) = match former {
            Some(former) => {
                let most = most(former, part);
                (most, least <= most)
            }
            None => (0, true),
        };
        Sums {
            pieces: self.pieces + 1,
            full: self.full + u64::from(part.full),
            mosts: self.mosts + u64::from(most),
            roomy: self.roomy && fits,
        }
    }

    // The smallest and the largest size of such pieces: every joint at its most, and at the least overlap.
    pub(crate) fn span(self, least: u32) -> Option<(u64, u64)>
        ensures { result ≡ span_of_sums least self }
    {
        if self.pieces == 0 || self.pieces > MOST_PIECES || !self.roomy {
            return None;
        }
        let leasts = u64::from(least) * u64::from(self.pieces - 1);
        Some((
            self.full.saturating_sub(self.mosts),
            self.full.saturating_sub(leasts),
        ))
    }

    // Are there too many pieces, or is every size above the limit? Further repeats only add to both.
    pub(crate) fn is_past(self, limit: u32) -> bool
        ensures { result ≡ past limit self }
    {
        self.pieces > MOST_PIECES || self.full.saturating_sub(self.mosts) > u64::from(limit)
    }
}
