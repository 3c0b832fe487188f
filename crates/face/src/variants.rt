// A ready-made size of a sign.
#[derive(Clone, Copy, PartialEq, Eq, Debug)]
pub struct Variant {
    // The number of the face that has the glyph.
    pub face: u8,
    pub glyph: u16,
    // Its size along the axis.
    pub advance: u32,
}
