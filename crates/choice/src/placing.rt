// The pieces of a sign that is taken.
ghost use Rattle.std.specs.Prelude.{◌≡◌};
ghost use Rattle.std.specs.Iterator.{YieldsFirst, item_count};
ghost use Rattle.choice.specs.Pieces.{pieces_of, ready_piece};

use crate::signs::Sign;
use crate::stacks::{Stack, stacked};
use face::{Face, Key, Variant};
use std::marker::Model;

// One piece of a sign.
#[derive(Clone, Copy, PartialEq, Eq, Debug)]
pub struct Piece {
    // The number of the face that has the glyph.
    pub face: u8,
    pub glyph: u16,
    // By how much it overlaps the piece before it: 0 for the first.
    pub overlap: u32,
    // How far it starts from the start of the piece before it: 0 for the first.
    pub distance: u32,
}

// The one piece of a variant.
impl From<Variant> for Piece {
    ghost from_gives = { λ variant piece. piece ≡ ready_piece variant };

    fn from(variant: Variant) -> Piece {
        Piece {
            face: variant.face,
            glyph: variant.glyph,
            overlap: 0,
            distance: 0,
        }
    }
}

// Where the pieces of a sign come from.
#[derive(Drop)]
enum Source<'a, F: Face> {
    // A ready-made piece, if it is still to come.
    Ready(Option<Piece>),
    Stacked(Stack<'a, F>),
}

// The pieces of a sign that are still to come, from the bottom or the left. A contract sees them as that list.
#[derive(Drop)]
pub struct Pieces<'a, F: Face> {
    source: Source<'a, F>,
}

impl<'a, F: Face> Model for Pieces<'a, F> {
    ghost use Rattle.std.specs.Prelude.{List};
    ghost use Rattle.choice.specs.declared.placing.Piece.{Piece as ThePiece};

    ghost Value = { List ThePiece };

    ghost use Rattle.choice.specs.Sources.{to_come};

    ghost view = { λ p. to_come p.source };
}

impl<'a, F: Face> Pieces<'a, F> {
    // Of a sign that the face takes for the key. An assembly that it does not have has no pieces.
    pub fn new(face: &'a F, key: Key, sign: Sign) -> Pieces<'a, F>
        ensures { result ≡ pieces_of (F.Face.meaning face.now key) sign }
    {
        let source = match sign {
            Sign::Variant { variant, .. } => Source::Ready(Some(variant.into())),
            Sign::Assembly { repeats, size, .. } => match stacked(face, key, repeats, size) {
                Some(stack) => Source::Stacked(stack),
                None => Source::Ready(None),
            },
        };
        Pieces { source }
    }
}

impl<'a, F: Face> Iterator for Pieces<'a, F> {
    type Item = Piece;

    ghost next_gives = { YieldsFirst (λ s. s) };

    ghost remaining = { item_count (λ s. s) };

    fn next(&mut self) -> Option<Piece> {
        match &mut self.source {
            Source::Ready(piece) => piece.take(),
            Source::Stacked(stack) => stack.next(),
        }
    }
}
