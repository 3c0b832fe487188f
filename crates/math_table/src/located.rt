use std::marker::Model;

// Where a key's construction begins, as a byte offset, and the least overlap.
#[derive(Clone, Copy)]
pub(crate) struct Located {
    pub(crate) least: u16,
    pub(crate) place: u32,
}

// Two words lead there: to MathVariants, and from it.
impl Model for Located {
    ghost use Rattle.std.specs.Prelude.{◌≤◌};
    ghost use Rattle.math_table.specs.Places.{Located as TheLocated};

    ghost Value = { TheLocated };

    ghost view = { λ located. record { least = located.least; place = located.place } };

    ghost invariant = { λ located. located.place ≤ 131070 };

    ghost inverse = { λ located. record { least = located.least; place = located.place } };
}
