// The search for the smallest repeat count at which an assembly fits.
ghost use Rattle.std.specs.Prelude.{◌≡◌};
ghost use Rattle.std.specs.Option.{option_map};
ghost use Rattle.face.specs.Meaning.{Construction};
ghost use Rattle.choice.specs.Choosing.{assembly, repeats as first_repeats};
ghost use Rattle.choice.specs.Totals.{Describes};

use super::Totals;
use crate::signs::Sign;
use crate::wanted::Wanted;

impl Totals {
    // The assembly at the smallest repeat count at which a legal one fits, with the smallest size there that fits.
    #[tactic(auto, using(crate::proofs::Stopping::ends_none, crate::proofs::Stopping::ends_found, crate::proofs::Stopping::goes_on))]
    pub(crate) fn seek(self, wanted: Wanted) -> Option<Sign>
        ensures { (c : Construction) → Describes self c → result ≡ option_map (assembly wanted.target c.parts) (first_repeats c.least wanted.limit wanted.target c.parts) }
    {
        let mut repeats = 0;
        loop {
            let Some(sums) = self.at(repeats) else {
                break None;
            };
            if sums.is_past(wanted.limit) {
                break None;
            }
            if let Some(size) = wanted.smallest_in(sums.span(self.least)) {
                let pieces = sums.pieces;
                break Some(Sign::Assembly {
                    repeats,
                    size,
                    pieces,
                });
            }
            repeats += 1;
        }
    }
}
