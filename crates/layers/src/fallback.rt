ghost use Rattle.std.specs.Prelude.{max};
ghost use Rattle.layers.specs.Layers.{fallen_back};
ghost use Rattle.layers.specs.declared.fallback.FoundIn.TheVariants.{First, Second};
ghost use Rattle.layers.specs.Limits.{longer_largest, bounded_fallen_back};

use face::{Face, Fault, Key, Look, Part, Variant};

// Answers from its first face, and from its second where the first says unknown.
#[derive(Clone, Copy)]
pub struct Fallback<A, B> {
    pub first: A,
    pub second: B,
}

// Which face knows a key, and what it found there.
#[derive(Clone, Copy)]
pub enum FoundIn<A, B> {
    First(A),
    Second(B),
}

impl<A: Face, B: Face> Face for Fallback<A, B> {
    type Found = FoundIn<A::Found, B::Found>;

    ghost meaning = { λ s key. fallen_back (A.Face.meaning s.first key) (B.Face.meaning s.second key) };

    ghost variants = { λ s found. elim found [ First at ↦ A.Face.variants s.first at | Second at ↦ B.Face.variants s.second at ] };

    ghost parts = { λ s found. elim found [ First at ↦ A.Face.parts s.first at | Second at ↦ B.Face.parts s.second at ] };

    ghost reach = { λ s. max (A.Face.reach s.first) (B.Face.reach s.second) };

    ghost largest = { λ s. longer_largest (A.Face.reach s.first) (B.Face.reach s.second) (A.Face.largest s.first) (B.Face.largest s.second) };

    ghost bounded = { λ s key. bounded_fallen_back (A.Face.reach s.first) (B.Face.reach s.second) (A.Face.meaning s.first key) (B.Face.meaning s.second key) (A.Face.bounded s.first key) (B.Face.bounded s.second key) };

    // A fault of the first face is never hidden: it is passed up before the second is asked.
    fn look(&self, key: Key) -> Result<Option<Look>, Fault> {
        match self.first.look(key).map_err(Fault::passed_up)? {
            Some(look) => Ok(Some(look)),
            None => self.second.look(key).map_err(Fault::passed_up),
        }
    }

    fn find(&self, key: Key) -> Option<FoundIn<A::Found, B::Found>> {
        match self.first.look(key) {
            Ok(None) => Some(FoundIn::Second(self.second.find(key)?)),
            _ => Some(FoundIn::First(self.first.find(key)?)),
        }
    }

    fn variant_of(&self, found: FoundIn<A::Found, B::Found>, index: u16) -> Option<Variant> {
        match found {
            FoundIn::First(found) => self.first.variant_of(found, index),
            FoundIn::Second(found) => self.second.variant_of(found, index),
        }
    }

    fn part_of(&self, found: FoundIn<A::Found, B::Found>, index: u16) -> Option<Part> {
        match found {
            FoundIn::First(found) => self.first.part_of(found, index),
            FoundIn::Second(found) => self.second.part_of(found, index),
        }
    }

    fn longest(&self) -> u32 {
        self.first.longest().max(self.second.longest())
    }
}
