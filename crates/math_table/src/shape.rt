use crate::runs::Run;
use std::marker::Model;

// A construction whose words are all inside the table.
#[derive(Drop)]
pub(crate) struct Shape {
    pub(crate) least: u16,
    pub(crate) variants: Run,
    pub(crate) parts: Run,
}

// Both runs begin so near to the table's beginning that 32 bits suffice for every offset in them.
impl Model for Shape {
    ghost use Rattle.std.specs.Prelude.{◌≤◌};
    ghost use Rattle.math_table.specs.Places.{Shape as TheShape};

    ghost Value = { TheShape };

    ghost view = { λ shape. record { least = shape.least; variants = shape.variants; parts = shape.parts } };

    ghost invariant = { λ shape. (shape.variants.first ≤ 262144) × (shape.parts.first ≤ 262144) };
}
