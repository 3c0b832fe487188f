ghost use Rattle.face.specs.Clamping.{Clamped};

use crate::parts::Part;

impl Part {
    // A part of any lengths: a connector above the full advance counts as the full advance.
    pub fn new(face: u8, glyph: u16, start: u32, end: u32, full: u32, extender: bool) -> Part
        ensures { Clamped face glyph start end full extender result }
    {
        Part {
            face,
            glyph,
            start: start.min(full),
            end: end.min(full),
            full,
            extender,
        }
    }
}
