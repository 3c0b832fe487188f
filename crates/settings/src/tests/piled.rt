use crate::sample::sample;
use crate::tests::described::described;
use crate::tests::even::{EVEN, EVEN_KEY};
use crate::tests::words::with_word;
use face::{Axis, Cause, Fault, Key, Layer};
use layers::{Cap, Fallback, Scale};
use math_table::MathTable;
use std::alloc::Global;
use std::test::Fail;

// What two tables answer, the second where the first knows nothing, under a scale by 2 and a cap of 30000.
fn piled(heap: Global, first: &[u8], second: &[u8], glyph: u16) -> Result<String, Fail> {
    let first = MathTable::new(first, 0)?;
    let second = MathTable::new(second, 1)?;
    let face = Cap::new(Scale::new(Fallback { first, second }, 2), 30000);
    let axis = Axis::Upright;
    described(heap, &face, Key { glyph, axis })
}

const OF_EVEN: &str =
    "limit 30000: 8192, v 40 8192, v 41 8192, p 50 8192 8192 8192, p 51 8192 8192 8192 x";

const OF_SAMPLE: &str =
    "limit 30000: 40, v 40 200, v 41 400, p 50 0 80 200, p 51 80 80 120 x, p 52 80 0 200";

// `cut` has a fault for glyph 40, and `other` knows glyph 41 in place of 40.
#[test]
fn the_second_answers_where_the_first_knows_nothing(rt: HostRuntime) -> Result<(), Fail> {
    let whole = sample();
    let cut = &whole[0..75];
    let other = with_word(*EVEN, 26, 41)?;
    for (first, second, glyph, text) in [
        (&EVEN[..], &whole[..], 40, OF_EVEN),
        (&other[..], &whole[..], 40, OF_SAMPLE),
        (&other[..], &whole[..], 41, OF_EVEN),
        (&other[..], &whole[..], 42, "unknown"),
        (cut, &whole[..], 40, "fault 15 at 74, passed 3"),
        (&other[..], cut, 40, "fault 15 at 74, passed 3"),
        (&whole[..], cut, 40, OF_SAMPLE),
    ] {
        let found = piled(rt.alloc(), first, second, glyph)?;
        assert_eq!(rt; found.as_str(), text);
    }
    Ok(())
}

#[test]
fn the_fault_of_a_scale_goes_up_too(rt: HostRuntime) -> Result<(), Fail> {
    let table = with_word(*EVEN, 38, 4097)?;
    let scale = Scale::new(Scale::new(MathTable::new(&table, 0)?, 64), 64);
    let found = described(rt.alloc(), &Cap::new(scale, 0), EVEN_KEY)?;
    assert_eq!(rt; found.as_str(), "fault 18 at 2, layer 1, passed 1");
    Ok(())
}

#[test]
fn layers_are_counted_as_far_as_255(rt: HostRuntime) {
    for (passed, counted) in [(0, 1), (253, 254), (254, 255), (255, 255)] {
        let fault = Fault {
            cause: Cause::ScaledLength,
            layer: Layer::Scale,
            place: 7,
            glyph: 40,
            passed,
        };
        assert_eq!(rt; fault.passed_up().passed, counted);
    }
}
