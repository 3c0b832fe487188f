ghost use Rattle.std.specs.Prelude.{◌≡◌};
ghost use Rattle.std.specs.List.{slice_get};
ghost use Rattle.face.specs.Finding.{told};
ghost use Rattle.face.specs.Meaning.{Construction, summary};
ghost use Rattle.face.specs.Offers.{constructed, offered, Reads};

use crate::faces::Face;
use crate::faults::Fault;
use crate::keys::Key;
use crate::known::Known;
use crate::looks::Look;
use crate::parts::Part;
use crate::variants::Variant;
use std::marker::Model;

// The construction of a key, as it is read in a face. A contract sees it as that construction.
#[derive(Drop)]
pub struct Offer<'a, F: Face> {
    face: &'a F,
    key: Key,
    look: Look,
    found: Option<F::Found>,
}

impl<'a, F: Face> Model for Offer<'a, F> {
    ghost Value = { Construction };

    ghost view = { λ s. constructed (F.Face.meaning s.face.now s.key) };

    ghost invariant = { λ s. Reads (F.Face.meaning s.face.now s.key) s.look (λ i. told (F.Face.variants s.face.now) i s.found) (λ i. told (F.Face.parts s.face.now) i s.found) };
}

impl<'a, F: Face> Known<'a, F> {
    // What the face offers for the key. It is searched for once: the entries are then told by what was found.
    pub fn offer(&self) -> Offer<'a, F>
        ensures { result ≡ self.now }
    {
        let &Known { face, key, look } = self;
        let found = face.find(key);
        Offer {
            face,
            key,
            look,
            found,
        }
    }
}

impl<'a, F: Face> Offer<'a, F> {
    // What the face offers for a key, if that is known.
    pub fn of(face: &'a F, key: Key) -> Result<Option<Offer<'a, F>>, Fault>
        ensures { result ≡ offered (F.Face.meaning face.now key) }
    {
        let Some(known) = Known::of(face, key)? else {
            return Ok(None);
        };
        Ok(Some(known.offer()))
    }

    // A copy by hand: a type with a lifetime cannot be `Copy`, and `clone` may fail for want of memory.
    pub(crate) fn copied(&self) -> Offer<'a, F>
        ensures { result ≡ self.now }
    {
        let &Offer {
            face,
            key,
            look,
            found,
        } = self;
        Offer {
            face,
            key,
            look,
            found,
        }
    }

    // The construction without its entries.
    pub fn look(&self) -> Look
        ensures { result ≡ summary self.now }
    {
        self.look
    }

    // The variant at an index, counted from 0.
    pub(crate) fn variant(&self, index: u16) -> Option<Variant>
        ensures { result ≡ slice_get self.now.variants index }
    {
        self.face.variant_of(self.found?, index)
    }

    // The part at an index, counted from 0.
    pub(crate) fn part(&self, index: u16) -> Option<Part>
        ensures { result ≡ slice_get self.now.parts index }
    {
        self.face.part_of(self.found?, index)
    }
}
