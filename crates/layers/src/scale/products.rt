// What a scale makes of lengths, and of what has lengths.
ghost use Rattle.std.specs.Prelude.{◌≡◌, ◌*◌, nat_le};
ghost use Rattle.face.specs.Bounds.{LARGEST as the_largest};
ghost use Rattle.layers.specs.Answers.{times as product, look_from, variant_from, part_from};

use crate::scale::Scale;
use face::{Face, LARGEST, Look, Part, Variant};

impl<F: Face> Scale<F> {
    // Is a length times the factor at most the largest length?
    pub(super) fn fits(&self, length: u32) -> bool
        ensures { result ≡ nat_le (self.now.by * length) the_largest }
    {
        self.by.saturating_mul(length) <= LARGEST
    }

    // A length times the factor, and the largest length where that is longer.
    pub(super) fn times(&self, length: u32) -> u32
        ensures { result ≡ product self.now.by length }
    {
        self.by.saturating_mul(length).min(LARGEST)
    }

    // The limit and the least overlap are multiplied.
    pub(super) fn scaled_look(&self, below: Look) -> Look
        ensures { result ≡ look_from self.now.by below }
    {
        Look {
            limit: self.times(below.limit),
            least: self.times(below.least),
            ..below
        }
    }

    // The advance is multiplied.
    pub(super) fn scaled_variant(&self, below: Variant) -> Variant
        ensures { result ≡ variant_from self.now.by below }
    {
        Variant {
            advance: self.times(below.advance),
            ..below
        }
    }

    // The full advance and both connectors are multiplied.
    pub(super) fn scaled_part(&self, below: Part) -> Part
        ensures { result ≡ part_from self.now.by below }
    {
        Part::new(
            below.face,
            below.glyph,
            self.times(below.start),
            self.times(below.end),
            self.times(below.full),
            below.extender,
        )
    }
}
