use crate::sample::sample;
use crate::tests::described::described_table;
use face::{Axis, Key};
use std::test::Fail;

const KEY: Key = Key {
    glyph: 40,
    axis: Axis::Upright,
};

// For this key look reads the words at 8, 10, 12, 22, 24, 26, 16, 20, then those from 28 to 38, and from 44 to 74.
// So the first word that a cut takes away is the one at which it is made, but for two gaps.
fn first_outside(length: usize) -> usize {
    match length {
        14..=23 => 22,
        40..=45 => 44,
        _ => length / 2 * 2,
    }
}

#[test]
fn truncations(rt: HostRuntime) -> Result<(), Fail> {
    let table = sample();
    for length in 0..table.len() {
        let found = described_table(rt.alloc(), &table[0..length], KEY)?;
        let text = match length {
            0 => String::from_str(rt.alloc(), "unknown")?,
            1..=9 => String::from_str(rt.alloc(), "refused 14")?,
            _ => format!(in rt.alloc(); "fault 15 at {}", first_outside(length))?,
        };
        assert_eq!(rt; found.as_str(), text.as_str());
    }
    Ok(())
}
