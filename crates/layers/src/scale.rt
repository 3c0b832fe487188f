mod judging;
mod products;

ghost use Rattle.std.specs.Prelude.{◌≡◌, min, max};
ghost use Rattle.std.specs.Option.{option_map};
ghost use Rattle.layers.specs.Answers.{times as product, variant_from, part_from};
ghost use Rattle.layers.specs.Limits.{times_largest, bounded_scaled};
ghost use Rattle.layers.specs.Scaling.{scaled};

use face::{Face, Fault, Key, Look, Part, Variant};

// The largest factor of a scale.
const MOST: u32 = 64;

// Multiplies every length of a face.
#[derive(Clone, Copy)]
pub struct Scale<F> {
    face: F,
    by: u32,
}

impl<F: Face> Scale<F> {
    // A factor below 1 counts as 1, and one above 64 as 64.
    pub fn new(face: F, factor: u32) -> Scale<F>
        ensures face { result.face ≡ face }
        ensures by { result.by ≡ max 1 (min factor 64) }
    {
        Scale {
            face,
            by: factor.clamp(1, MOST),
        }
    }
}

impl<F: Face> Face for Scale<F> {
    type Found = F::Found;

    ghost meaning = { λ s key. scaled s.by key (F.Face.meaning s.face key) };

    ghost variants = { λ s found i. option_map (variant_from s.by) (F.Face.variants s.face found i) };

    ghost parts = { λ s found i. option_map (part_from s.by) (F.Face.parts s.face found i) };

    ghost reach = { λ s. product s.by (F.Face.reach s.face) };

    ghost largest = { λ s. times_largest s.by (F.Face.reach s.face) };

    ghost bounded = { λ s key. bounded_scaled s.by (F.Face.reach s.face) key (F.Face.meaning s.face key) (F.Face.bounded s.face key) };

    fn look(&self, key: Key) -> Result<Option<Look>, Fault> {
        let below = self.judged(key)?;
        Ok(below.map(|below| self.scaled_look(below)))
    }

    fn find(&self, key: Key) -> Option<F::Found> {
        if self.scales(key) {
            self.face.find(key)
        } else {
            None
        }
    }

    fn variant_of(&self, found: F::Found, index: u16) -> Option<Variant> {
        self.face
            .variant_of(found, index)
            .map(|below| self.scaled_variant(below))
    }

    fn part_of(&self, found: F::Found, index: u16) -> Option<Part> {
        self.face
            .part_of(found, index)
            .map(|below| self.scaled_part(below))
    }

    fn longest(&self) -> u32 {
        self.times(self.face.longest())
    }
}
