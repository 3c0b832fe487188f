ghost use Rattle.std.specs.Prelude.{◌≡◌};
ghost use Rattle.face.specs.Meaning.{summary};
ghost use Rattle.face.specs.Offers.{offered};

use crate::faces::Face;
use crate::faults::Fault;
use crate::keys::Key;
use crate::looks::Look;
use std::marker::Model;

// A key that a face knows, before it is searched for. A contract sees it as the key's construction.
#[derive(Drop)]
pub struct Known<'a, F: Face> {
    pub(crate) face: &'a F,
    pub(crate) key: Key,
    pub(crate) look: Look,
}

impl<'a, F: Face> Model for Known<'a, F> {
    ghost use Rattle.std.specs.Prelude.{◌≡◌, Ok, Some};
    ghost use Rattle.face.specs.Meaning.{Construction, looked};
    ghost use Rattle.face.specs.Offers.{constructed};

    ghost Value = { Construction };

    ghost view = { λ s. constructed (F.Face.meaning s.face.now s.key) };

    ghost invariant = { λ s. looked (F.Face.meaning s.face.now s.key) ≡ Ok (Some s.look) };
}

impl<'a, F: Face> Known<'a, F> {
    // The key, if the face knows it.
    pub fn of(face: &'a F, key: Key) -> Result<Option<Known<'a, F>>, Fault>
        ensures { result ≡ offered (F.Face.meaning face.now key) }
    {
        let Some(look) = face.look(key)? else {
            return Ok(None);
        };
        Ok(Some(Known { face, key, look }))
    }

    // The construction without its entries.
    pub fn look(&self) -> Look
        ensures { result ≡ summary self.now }
    {
        self.look
    }
}
