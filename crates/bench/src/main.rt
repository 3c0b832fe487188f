// Measures how the time to read all variants of a key through layers grows with their number.
// The sums of what was read go to standard output, the times to standard error.
#![tactic(auto)]

mod readings;
mod tables;

use anyhow::anyhow;
use face::{Axis, Key};
use layers::{Cap, Fallback, Scale};
use math_table::MathTable;
use readings::{shortest_reading, sum_by_index, sum_found_once};
use tables::{GLYPH, table_of};

const COUNTS: [u16; 4] = [1000, 2000, 4000, 8000];

// The only key that a table knows.
const KEY: Key = Key {
    glyph: GLYPH,
    axis: Axis::Upright,
};

const CAP: u32 = 30_000;

// The largest word times both factors is too long, so that the upper scale has to judge every length.
const SCALE: u32 = 5;

const UPPER_SCALE: u32 = 64;

// Tells what a way to read gives, and how long it takes.
fn measure<R: Fn() -> u64>(
    rt: &HostRuntime,
    variants: u16,
    name: &str,
    read: R,
) -> anyhow::Result<()>
    requires { R.IsAlwaysCallable read }
{
    let reading = shortest_reading(rt, read)?;
    println!(rt; "{variants} variants {name}: sum {}", reading.sum)?;
    let microseconds = reading.time.as_secs_f64() * 1e6;
    eprintln!(rt; "{variants} variants {name}: {microseconds:.1} microseconds")?;
    Ok(())
}

// Reads a table of this many variants. An empty table is asked first, so that the fallback has to ask both.
fn measure_all(rt: &HostRuntime, variants: u16) -> anyhow::Result<()> {
    let table = table_of(rt.alloc(), variants)?;
    let (Ok(first), Ok(second)) = (MathTable::new(&[], 0), MathTable::new(table.as_slice(), 1))
    else {
        return Err(anyhow!("no face is made of a table"));
    };
    let pile = Cap::new(Scale::new(Fallback { first, second }, SCALE), CAP);
    let judging = Scale::new(pile, UPPER_SCALE);
    measure(rt, variants, "by index", || sum_by_index(&pile, KEY))?;
    measure(rt, variants, "found once", || sum_found_once(&pile, KEY))?;
    measure(rt, variants, "found once and judged", || {
        sum_found_once(&judging, KEY)
    })
}

fn main(rt: HostRuntime) -> anyhow::Result<()> {
    for variants in COUNTS {
        measure_all(&rt, variants)?;
    }
    Ok(())
}
