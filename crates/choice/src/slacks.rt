// The slacks of the joints of an assembly, one after the other.
ghost use Rattle.std.specs.Prelude.{◌≡◌, ◌≤◌, [], length};
ghost use Rattle.choice.specs.Assemblies.{mosts};
ghost use Rattle.choice.specs.Spreading.{slacks as the_slacks};

use crate::joints::most;
use crate::walks::Walk;
use arrayvec::ArrayVec;
use face::{Face, Part};

// The most joints of an assembly.
pub(crate) const MOST_JOINTS: usize = 4095;

// Notes the slacks of the joints of pieces in a row, in a list that has none yet. It is lent, since it is large to move.
pub(crate) fn note_slacks<F: Face>(
    walk: Walk<F>,
    least: u32,
    slacks: &mut ArrayVec<u32, MOST_JOINTS>,
)
    requires none { slacks.old.items ≡ [] }
    requires few { length (mosts walk) ≤ MOST_JOINTS }
    ensures { slacks.new.items ≡ the_slacks least (mosts walk.entry) }
{
    let mut former: Option<Part> = None;
    for part in walk {
        if let Some(former) = former {
            slacks.push(most(former, part).saturating_sub(least));
        }
        former = Some(part);
    }
}
