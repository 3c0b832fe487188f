// The entries of a construction, one after the other.
ghost use Rattle.std.specs.Prelude.{◌≡◌, ℕ, List, length, drop};
ghost use Rattle.std.specs.Iterator.{YieldsFirst, item_count};
ghost use Rattle.std.specs.List.{slice_get};
ghost use Rattle.face.specs.Meaning.{Construction};

use crate::faces::Face;
use crate::offers::Offer;
use crate::parts::Part;
use crate::variants::Variant;
use std::marker::{Model, PhantomData};
use std::ops::Range;

// What a construction lists: variants, or parts.
pub trait Entry: Copy {
    // The list of these entries.
    ghost list: { Construction → List Self };

    // How many there are.
    fn count<F: Face>(offer: &Offer<F>) -> u16
        ensures { result ≡ length (list offer.now) };

    // The entry at an index, counted from 0.
    fn at<F: Face>(offer: &Offer<F>, index: u16) -> Option<Self>
        ensures { result ≡ slice_get (list offer.now) index };
}

impl Entry for Variant {
    ghost list = { λ c. c.variants };

    fn count<F: Face>(offer: &Offer<F>) -> u16 {
        offer.look().variants
    }

    fn at<F: Face>(offer: &Offer<F>, index: u16) -> Option<Variant> {
        offer.variant(index)
    }
}

impl Entry for Part {
    ghost list = { λ c. c.parts };

    fn count<F: Face>(offer: &Offer<F>) -> u16 {
        offer.look().parts
    }

    fn at<F: Face>(offer: &Offer<F>, index: u16) -> Option<Part> {
        offer.part(index)
    }
}

// The entries that are still to come. A contract sees them as that list.
#[derive(Drop)]
pub struct Entries<'a, F: Face, E: Entry> {
    offer: Offer<'a, F>,
    indexes: Range<u16>,
    kind: PhantomData<E>,
}

impl<'a, F: Face, E: Entry> Model for Entries<'a, F, E> {
    ghost Value = { List E };

    ghost view = { λ s. drop s.indexes.start (E.list s.offer) };

    ghost invariant = { λ s. s.indexes.end ≡ length (E.list s.offer) };
}

impl<'a, F: Face, E: Entry> Iterator for Entries<'a, F, E> {
    type Item = E;

    ghost next_gives = { YieldsFirst (λ s. s) };

    ghost remaining = { item_count (λ s. s) };

    fn next(&mut self) -> Option<E> {
        E::at(&self.offer, self.indexes.next()?)
    }
}

impl<'a, F: Face> Offer<'a, F> {
    // The variant, or the part, at an index, counted from 0.
    pub fn entry<E: Entry>(&self, index: u16) -> Option<E>
        ensures { result ≡ slice_get (E.list self.now) index }
    {
        E::at(self, index)
    }

    // All variants, or all parts, of the construction. They outlive the offer: both only lend the face.
    pub fn entries<E: Entry>(&self) -> Entries<'a, F, E>
        ensures { result ≡ E.list self.now }
    {
        Entries {
            offer: self.copied(),
            indexes: 0..E::count(self),
            kind: PhantomData,
        }
    }
}
