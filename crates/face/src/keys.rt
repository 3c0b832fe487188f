ghost use Rattle.std.specs.Prelude.{Some};
ghost use Rattle.face.specs.Axes.{Numbered, axis_name};

use std::fmt;

// The direction in which a sign stretches.
#[derive(Clone, Copy, PartialEq, Eq, Debug)]
pub enum Axis {
    Upright = 0,
    Level = 1,
}

// A number that no axis has.
#[derive(Clone, Copy, PartialEq, Eq, Debug)]
pub struct NoAxis;

impl TryFrom<u32> for Axis {
    type Error = NoAxis;

    ghost try_from_gives = { Numbered };

    fn try_from(number: u32) -> Result<Axis, NoAxis> {
        match number {
            0 => Ok(Axis::Upright),
            1 => Ok(Axis::Level),
            _ => Err(NoAxis),
        }
    }
}

impl fmt::Display for Axis {
    ghost output = { λ axis. Some (axis_name axis) };

    fn fmt<W: fmt::Write>(&self, f: &mut fmt::Formatter<W>) -> fmt::Result {
        f.write_str(match self {
            Axis::Upright => "upright",
            Axis::Level => "level",
        })
    }
}

// What a face is asked about: a glyph, and the direction in which it is to stretch.
#[derive(Clone, Copy, PartialEq, Eq, Debug)]
pub struct Key {
    pub glyph: u16,
    pub axis: Axis,
}
