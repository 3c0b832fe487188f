ghost use Rattle.std.specs.Prelude.{◌≡◌, min};
ghost use Rattle.face.specs.Bounds.{LARGEST as the_largest};
ghost use Rattle.layers.specs.Layers.{capped};
ghost use Rattle.layers.specs.Limits.{bounded_capped};

use face::{Face, Fault, Key, LARGEST, Look, Part, Variant};

// Lowers the limit of a face where it is larger.
#[derive(Clone, Copy)]
pub struct Cap<F> {
    face: F,
    most: u32,
}

impl<F: Face> Cap<F> {
    // A limit above the largest length counts as that.
    pub fn new(face: F, most: u32) -> Cap<F>
        ensures face { result.face ≡ face }
        ensures most { result.most ≡ min most the_largest }
    {
        Cap {
            face,
            most: most.min(LARGEST),
        }
    }
}

impl<F: Face> Face for Cap<F> {
    type Found = F::Found;

    ghost meaning = { λ s key. capped s.most (F.Face.meaning s.face key) };

    ghost variants = { λ s found. F.Face.variants s.face found };

    ghost parts = { λ s found. F.Face.parts s.face found };

    ghost reach = { λ s. F.Face.reach s.face };

    ghost largest = { λ s. F.Face.largest s.face };

    ghost bounded = { λ s key. bounded_capped s.most (F.Face.reach s.face) (F.Face.meaning s.face key) (F.Face.bounded s.face key) };

    fn look(&self, key: Key) -> Result<Option<Look>, Fault> {
        let below = self.face.look(key).map_err(Fault::passed_up)?;
        Ok(below.map(|below| Look {
            limit: below.limit.min(self.most),
            ..below
        }))
    }

    // A cap changes no entry: they are told by what is found below.
    #[tactic(auto, using(crate::proofs::Entries::capped_variants, crate::proofs::Entries::capped_parts))]
    fn find(&self, key: Key) -> Option<F::Found> {
        self.face.find(key)
    }

    fn variant_of(&self, found: F::Found, index: u16) -> Option<Variant> {
        self.face.variant_of(found, index)
    }

    fn part_of(&self, found: F::Found, index: u16) -> Option<Part> {
        self.face.part_of(found, index)
    }

    fn longest(&self) -> u32 {
        self.face.longest()
    }
}
