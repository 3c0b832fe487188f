use crate::tests::described::described;
use crate::tests::even::{EVEN, EVEN_KEY, even_text};
use crate::tests::words::with_word;
use layers::Scale;
use math_table::MathTable;
use std::alloc::Global;
use std::test::Fail;

#[test]
fn factors_from_1_to_64(rt: HostRuntime) -> Result<(), Fail> {
    let face = MathTable::new(EVEN, 0)?;
    for (factor, length) in [
        (0, 4096),
        (1, 4096),
        (2, 8192),
        (64, 262_144),
        (65, 262_144),
        (u32::MAX, 262_144),
    ] {
        let found = described(rt.alloc(), &Scale::new(face, factor), EVEN_KEY)?;
        assert_eq!(rt; found.as_str(), even_text(rt.alloc(), length)?.as_str());
    }
    Ok(())
}

// What a table answers under a scale by 64 over another.
fn scaled_by_4096(heap: Global, table: &[u8]) -> Result<String, Fail> {
    let face = Scale::new(Scale::new(MathTable::new(table, 0)?, 64), 64);
    described(heap, &face, EVEN_KEY)
}

// 4096 * 4096 is the largest length. Each length is made too long by itself, and then with all that come after it.
// `described` shows that such a key has no variant and no part.
#[test]
fn the_first_length_above_4096_is_the_fault(rt: HostRuntime) -> Result<(), Fail> {
    let found = scaled_by_4096(rt.alloc(), EVEN)?;
    assert_eq!(rt; found.as_str(), even_text(rt.alloc(), 16_777_216)?.as_str());
    let mut long_from_there = *EVEN;
    for (place, text) in [
        (62, "fault 18 at 4, layer 1"),
        (52, "fault 18 at 3, layer 1"),
        (38, "fault 18 at 2, layer 1"),
        (34, "fault 18 at 1, layer 1"),
        (10, "fault 18 at 0, layer 1"),
    ] {
        let long_there = with_word(*EVEN, place, 4097)?;
        assert_eq!(rt; scaled_by_4096(rt.alloc(), &long_there)?.as_str(), text);
        long_from_there = with_word(long_from_there, place, 65535)?;
        assert_eq!(rt;
            scaled_by_4096(rt.alloc(), &long_from_there)?.as_str(),
            text
        );
    }
    Ok(())
}
