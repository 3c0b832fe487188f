ghost use Rattle.std.specs.Prelude.{◌≤◌};

// A part that assemblies are stacked from. No connector is longer than the full advance.
#[derive(Clone, Copy, PartialEq, Eq, Debug)]
pub struct Part {
    // The number of the face that has the glyph.
    pub face: u8,
    pub glyph: u16,
    // The connector at its lower or left end: how far the part before may overlap it.
    pub start: u32,
    // The connector at its upper or right end.
    pub end: u32,
    // Its size along the axis, connectors included.
    pub full: u32,
    // May it be repeated?
    pub extender: bool,
    ghost starts: { start ≤ full },
    ghost ends: { end ≤ full },
}
