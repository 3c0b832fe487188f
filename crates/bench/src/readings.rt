ghost use Rattle.std.specs.Iterator.{IsFinite};

use face::{Face, Key, Offer, Variant};
use std::io;
use std::time::{Duration, Instant};

// How often a key is read.
const TIMES: u16 = 200;

// What a reading gives, and how long it took.
#[derive(Clone, Copy)]
pub(crate) struct Reading {
    pub(crate) sum: u64,
    pub(crate) time: Duration,
}

fn sum_of_advances<I: Iterator<Item = Variant>>(variants: I) -> u64
    requires can { I.can_next variants }
    requires ends { IsFinite (I.remaining variants) }
{
    variants.fold(
        0,
        |sum: u64, variant| sum.saturating_add(u64::from(variant.advance)),
    )
}

// The sum of the advances of all variants of a key, each asked for by the key and its index.
pub(crate) fn sum_by_index<F: Face>(face: &F, key: Key) -> u64 {
    match face.look(key) {
        Ok(Some(look)) => {
            sum_of_advances((0..look.variants).filter_map(|index| face.variant(key, index)))
        }
        _ => 0,
    }
}

// The same sum, where the key is searched for once.
pub(crate) fn sum_found_once<F: Face>(face: &F, key: Key) -> u64 {
    match Offer::of(face, key) {
        Ok(Some(offer)) => sum_of_advances(offer.entries::<Variant>()),
        _ => 0,
    }
}

// The shortest of many readings: what else the machine does makes a time longer, and never shorter.
pub(crate) fn shortest_reading<R: Fn() -> u64>(rt: &HostRuntime, read: R) -> io::Result<Reading>
    requires { R.IsAlwaysCallable read }
{
    let mut shortest = Reading {
        sum: 0,
        time: Duration::MAX,
    };
    for _ in 0..TIMES {
        let start = Instant::now(rt)?;
        let sum = read();
        let time = start.elapsed(rt)?;
        if time < shortest.time {
            shortest = Reading { sum, time };
        }
    }
    Ok(shortest)
}
