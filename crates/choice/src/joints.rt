// The joints of an assembly, stretched one after the other.
ghost use Rattle.std.specs.Prelude.{◌≡◌, List, ◌∷◌};
ghost use Rattle.face.specs.declared.parts.Part.{Part as ThePart};
ghost use Rattle.choice.specs.Assemblies.{most as the_most};
ghost use Rattle.choice.specs.Walking.{Overlaps, placed_by, unjoined};

use crate::placing::Piece;
use face::Part;

// By how much a part can overlap the one before it at the most.
pub(crate) fn most(former: Part, part: Part) -> u32
    ensures { result ≡ the_most former part }
{
    former.end.min(part.start)
}

// How the joints are stretched: each by the smaller of its slack and the level, and the first whose slack is above the
// level by one more, while units are lacking.
#[derive(Clone, Copy)]
pub(crate) struct Joints {
    least: u32,
    level: u32,
    lacking: u64,
    // The piece that the next one joins.
    former: Option<Part>,
}

impl Joints {
    // Before the first piece.
    pub(crate) fn new(least: u32, level: u32, lacking: u64) -> Joints
        ensures { result ≡ unjoined least level lacking }
    {
        Joints {
            least,
            level,
            lacking,
            former: None,
        }
    }

    // The overlap of the next joint, which can overlap by so much at the most.
    fn overlap(&mut self, most: u32) -> u32
        ensures { Overlaps self.old most result self.new }
    {
        let slack = most.saturating_sub(self.least);
        let more = u32::from(slack > self.level && self.lacking > 0);
        self.lacking -= u64::from(more);
        most - slack.min(self.level) - more
    }

    // The next piece, where it is placed.
    pub(crate) fn place(&mut self, part: Part) -> Piece
        ensures { (ps : List ThePart) → placed_by self.old (part ∷ ps) ≡ result ∷ placed_by self.new ps }
    {
        let (overlap, distance) = match self.former {
            None => (0, 0),
            Some(former) => {
                let overlap = self.overlap(most(former, part));
                (overlap, former.full - overlap)
            }
        };
        self.former = Some(part);
        Piece {
            face: part.face,
            glyph: part.glyph,
            overlap,
            distance,
        }
    }
}
