// Prints what a font offers for a glyph.
#![tactic(auto)]

mod answers;
mod fields;
mod inputs;
pub mod laws;
mod piles;
mod questions;
mod refusals;
mod stops;

use answers::answer_lines;
use inputs::{read_lines, read_table};
use layers::{Cap, Fallback, Scale};
use math_table::MathTable;
use piles::pile_of;
use refusals::Refused;
use std::io::{BufWriter, Write};
use stops::Stop;
use text::Lines;

const FIRST_TABLE: &str = "face0.math";

const SECOND_TABLE: &str = "face1.math";

// A face from the bytes of a table, under its number.
fn table_face<'a>(
    input: &'static str,
    table: &'a [u8],
    number: u8,
) -> Result<MathTable<'a>, Refused> {
    MathTable::new(table, number).map_err(|refusal| Refused::NoTable { input, refusal })
}

fn run(rt: &HostRuntime) -> Result<(), Stop> {
    let first_bytes = read_table(rt, FIRST_TABLE)?;
    let second_bytes = read_table(rt, SECOND_TABLE)?;
    let text = read_lines(rt)?;
    let first = table_face(FIRST_TABLE, first_bytes.as_slice(), 0)?;
    let second = table_face(SECOND_TABLE, second_bytes.as_slice(), 1)?;
    let mut lines = Lines::new(text.as_slice());
    // An empty input has an empty first line.
    let pile = pile_of(lines.next().unwrap_or(&[]))?;
    let face = Cap::new(Scale::new(Fallback { first, second }, pile.scale), pile.cap);
    let mut out = BufWriter::new(rt.alloc(), rt.stdout())?;
    answer_lines(&mut out, lines, &face)?;
    out.flush()?;
    Ok(())
}

// A refusal is an answer, and so is what is wrong with the first line: it is printed, and the program ends as it should.
// An error fails it, and is told as it ends.
fn end_early(rt: &HostRuntime, stop: Stop) -> anyhow::Result<()> {
    match stop {
        Stop::Refused(_) | Stop::NoPile(_) => println!(rt; "{stop}")?,
        Stop::Unread { .. } | Stop::Unwritten(_) => return Err(stop.into()),
    }
    Ok(())
}

fn main(rt: HostRuntime) -> anyhow::Result<()> {
    run(&rt).or_else(|stop| end_early(&rt, stop))
}
