ghost use Rattle.std.specs.Iterator.{IsFinite};

use crate::questions::question;
use face::{Face, Fault, Key, Offer, Part, Variant};
use std::fmt::Display;
use std::io::Write;
use std::{fmt, io};
use text::Lines;

// A value in the words of an answer.
#[derive(Clone, Copy)]
struct Words<T>(T);

// An entry after its index.
impl Display for Words<(usize, Variant)> {
    fn fmt<W: fmt::Write>(&self, f: &mut fmt::Formatter<W>) -> fmt::Result {
        let Words((index, variant)) = self;
        write!(
            f,
            "  variant {index}: face {} glyph {} advance {}",
            variant.face, variant.glyph, variant.advance
        )
    }
}

impl Display for Words<(usize, Part)> {
    fn fmt<W: fmt::Write>(&self, f: &mut fmt::Formatter<W>) -> fmt::Result {
        let Words((index, part)) = self;
        let extender = if part.extender { " extender" } else { "" };
        write!(
            f,
            "  part {index}: face {} glyph {} start {} end {} full {}{extender}",
            part.face, part.glyph, part.start, part.end, part.full
        )
    }
}

impl Display for Words<Fault> {
    fn fmt<W: fmt::Write>(&self, f: &mut fmt::Formatter<W>) -> fmt::Result {
        let Words(fault) = self;
        write!(
            f,
            "cause {} layer {} place {} glyph {} passed {}",
            fault.cause as u8, fault.layer as u8, fault.place, fault.glyph, fault.passed
        )
    }
}

// Entries, one a line.
fn print_entries<W: Write, I: Iterator>(out: &mut W, entries: I) -> io::Result<()>
where
    I::Item: Display + Drop,
    requires can { I.can_next entries }
    requires ends { IsFinite (I.remaining entries) }
{
    for entry in entries {
        writeln!(out, "{entry}")?;
    }
    Ok(())
}

fn print_construction<W: Write, F: Face>(out: &mut W, offer: &Offer<F>) -> io::Result<()> {
    let look = offer.look();
    writeln!(out, "construction")?;
    writeln!(out, "  limit {}", look.limit)?;
    writeln!(out, "  least overlap {}", look.least)?;
    // Not `enumerate`, which asks for a bound on how many come.
    print_entries(out, (0usize..).zip(offer.entries::<Variant>()).map(Words))?;
    print_entries(out, (0usize..).zip(offer.entries::<Part>()).map(Words))
}

// What a face says of a key.
fn print_key<W: Write, F: Face>(out: &mut W, face: &F, key: Key) -> io::Result<()> {
    write!(out, "glyph {} {}: ", key.glyph, key.axis)?;
    match Offer::of(face, key) {
        Ok(None) => writeln!(out, "unknown"),
        Ok(Some(offer)) => print_construction(out, &offer),
        Err(fault) => writeln!(out, "fault {}", Words(fault)),
    }
}

// The answers to questions, one for each line. A bad line is told, and the rest goes on.
// The lines follow the first line, which asks nothing, so that they are counted from 2.
pub(crate) fn answer_lines<W: Write, F: Face>(
    out: &mut W,
    questions: Lines,
    face: &F,
) -> io::Result<()> {
    for (number, line) in (2usize..).zip(questions) {
        write!(out, "line {number}: ")?;
        match question(line) {
            Ok(key) => print_key(out, face, key)?,
            Err(bad) => writeln!(out, "{bad}")?,
        }
    }
    Ok(())
}
