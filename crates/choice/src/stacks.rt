// The pieces of an assembly, where its joints place them.
ghost use Rattle.std.specs.Prelude.{◌≡◌, ◌≤◌, [], length, unwrap_or};
ghost use Rattle.std.specs.Iterator.{YieldsFirst, item_count};
ghost use Rattle.choice.specs.Assemblies.{mosts, pieces};
ghost use Rattle.choice.specs.Pieces.{assembled};
ghost use Rattle.choice.specs.Walking.{spread_over, excess_in};

use crate::joints::Joints;
use crate::levels::level_and_lacking;
use crate::placing::Piece;
use crate::slacks::{MOST_JOINTS, note_slacks};
use crate::totals::Totals;
use crate::walks::Walk;
use arrayvec::ArrayVec;
use face::{Face, Key, Offer};
use std::marker::Model;

// The pieces that are still to come. A contract sees them as that list.
#[derive(Drop)]
pub(crate) struct Stack<'a, F: Face> {
    walk: Walk<'a, F>,
    joints: Joints,
}

impl<'a, F: Face> Model for Stack<'a, F> {
    ghost use Rattle.std.specs.Prelude.{List};
    ghost use Rattle.choice.specs.declared.placing.Piece.{Piece as ThePiece};
    ghost use Rattle.choice.specs.Walking.{placed_by};

    ghost Value = { List ThePiece };

    ghost view = { λ s. placed_by s.joints s.walk };
}

// By how much a size is above the smallest of a span, if it lies in the span.
fn excess_in(span: Option<(u64, u64)>, size: u32) -> Option<u64>
    ensures { result ≡ excess_in span size }
{
    let (smallest, largest) = span?;
    let size = u64::from(size);
    size.checked_sub(smallest).filter(|_| size <= largest)
}

// The pieces of the assembly of a size at a repeat count, if a legal assembly of the key has that size.
pub(crate) fn stacked<F: Face>(face: &F, key: Key, repeats: u32, size: u32) -> Option<Stack<'_, F>>
    ensures { unwrap_or result [] ≡ assembled (F.Face.meaning face.now key) repeats size }
{
    let offer = Offer::of(face, key).ok()??;
    let excess = excess_in(Totals::of(&offer).span(repeats), size)?;
    Some(Stack::spread(&offer, repeats, excess))
}

impl<'a, F: Face> Stack<'a, F> {
    // The pieces at a repeat count, with an excess spread over their joints.
    fn spread(offer: &Offer<'a, F>, repeats: u32, excess: u64) -> Stack<'a, F>
        requires { length (mosts (pieces repeats offer.now.parts)) ≤ MOST_JOINTS }
        ensures { result ≡ spread_over offer.now.least offer.now.parts repeats excess }
    {
        let least = offer.look().least;
        let mut slacks = ArrayVec::new();
        note_slacks(Walk::along(offer, repeats), least, &mut slacks);
        let (level, lacking) = level_and_lacking(&slacks, excess);
        Stack {
            walk: Walk::along(offer, repeats),
            joints: Joints::new(least, level, lacking),
        }
    }
}

impl<'a, F: Face> Iterator for Stack<'a, F> {
    type Item = Piece;

    ghost next_gives = { YieldsFirst (λ s. s) };

    ghost remaining = { item_count (λ s. s) };

    fn next(&mut self) -> Option<Piece> {
        let part = self.walk.next()?;
        Some(self.joints.place(part))
    }
}
