ghost use Rattle.std.specs.Prelude.{◌≡◌, ℕ, ◌<◌, List, [], ◌∷◌, length, IfSome, MatchOption};
ghost use Rattle.std.specs.Iterator.{YieldsFirstRef, item_count};
ghost use Rattle.std.specs.Option.{unwrap_or};
ghost use Rattle.text.specs.Cuts.{before, after};
ghost use Rattle.text.specs.Lines.{lines};

use crate::cuts::cut;
use std::marker::Model;

const LINE_FEED: u8 = b'\n';

// The first line, without its line feed, and the text after it; none in an empty text.
#[tactic(auto, using(crate::proofs::Parting::first_line, crate::proofs::Parting::rest_shorter))]
pub fn next_line(text: &[u8]) -> Option<(&[u8], &[u8])>
    ensures lines { MatchOption result (text.now ≡ []) (λ p. lines text.now ≡ p.0.now ∷ lines p.1.now) }
    ensures rest { IfSome result (λ p. p.1.now ≡ unwrap_or (after 10 text.now) []) }
    ensures shorter { IfSome result (λ p. length p.1.now < length text.now) }
{
    if text.is_empty() {
        return None;
    }
    let (line, rest) = cut(text, LINE_FEED);
    Some((line, rest.unwrap_or(&[])))
}

// The lines of a text, in turn: seen as the lines that are still to come.
#[derive(Drop)]
pub struct Lines<'a> {
    rest: &'a [u8],
}

impl<'a> Model for Lines<'a> {
    ghost Value = { List (List ℕ) };

    ghost view = { λ s. lines s.rest.now };
}

impl<'a> Lines<'a> {
    // All lines of a text.
    pub fn new(text: &'a [u8]) -> Lines<'a>
        ensures { result ≡ lines text.now }
    {
        Lines { rest: text }
    }
}

impl<'a> Iterator for Lines<'a> {
    type Item = &'a [u8];

    ghost next_gives = { YieldsFirstRef (λ s. s) };

    ghost remaining = { item_count (λ s. s) };

    fn next(&mut self) -> Option<&'a [u8]> {
        let (line, rest) = next_line(self.rest)?;
        self.rest = rest;
        Some(line)
    }
}
