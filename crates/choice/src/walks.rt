// A walk along the pieces of an assembly.
ghost use Rattle.std.specs.Prelude.{◌≡◌};
ghost use Rattle.std.specs.Iterator.{YieldsFirst, item_count};
ghost use Rattle.choice.specs.Assemblies.{copies as copies_of, pieces};

use face::{Entries, Face, Offer, Part};
use std::iter;
use std::iter::RepeatN;
use std::marker::Model;

// The pieces that are still to come. A contract sees them as that list.
#[derive(Drop)]
pub(crate) struct Walk<'a, F: Face> {
    // The parts that are still to come.
    parts: Entries<'a, F, Part>,
    // How often each extender stands in a row.
    repeats: u32,
    // The copies of the latest part that are still to come.
    row: Option<RepeatN<Part>>,
}

impl<'a, F: Face> Model for Walk<'a, F> {
    ghost use Rattle.std.specs.Prelude.{List, ◌++◌};
    ghost use Rattle.face.specs.declared.parts.Part.{Part as ThePart};
    ghost use Rattle.choice.specs.Assemblies.{pieces};
    ghost use Rattle.choice.specs.Walking.{standing};

    ghost Value = { List ThePart };

    ghost view = { λ w. standing w.row ++ pieces w.repeats w.parts };
}

// How often a part stands in a row.
fn copies(part: Part, repeats: u32) -> usize
    ensures { result ≡ copies_of repeats part }
{
    if part.extender { repeats as usize } else { 1 }
}

impl<'a, F: Face> Walk<'a, F> {
    // Along all pieces at a repeat count.
    pub(crate) fn along(offer: &Offer<'a, F>, repeats: u32) -> Walk<'a, F>
        ensures { result ≡ pieces repeats offer.now.parts }
    {
        Walk {
            parts: offer.entries(),
            repeats,
            row: None,
        }
    }
}

impl<'a, F: Face> Iterator for Walk<'a, F> {
    type Item = Part;

    ghost next_gives = { YieldsFirst (λ s. s) };

    ghost remaining = { item_count (λ s. s) };

    // Parts that stand no time are passed over.
    fn next(&mut self) -> Option<Part> {
        loop {
            if let Some(row) = &mut self.row
                && let Some(part) = row.next()
            {
                return Some(part);
            }
            let part = self.parts.next()?;
            self.row = Some(iter::repeat_n(part, copies(part, self.repeats)));
        }
    }
}
