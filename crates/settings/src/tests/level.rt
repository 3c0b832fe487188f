use crate::tests::described::described_table;
use face::{Axis, Key};
use std::test::Fail;

// A table of level constructions. At 0 the header; at 10 MathVariants, with least overlap 5, no upright coverage,
// counts 1 and 3, and at 20 the offset of the upright construction (0) and of three level ones (to 50, 0, to 54);
// at 28 a coverage of three ranges: one that begins above its end, 40 to 42 from index 0 on, 40 to 60 from index 1 on;
// at 50 a construction of nothing; at 54 one of a variant, glyph 99 of advance 7.
const TABLE: &[u8; 62] = b"\
    \x00\x01\x00\x00\x00\x00\x00\x00\x00\x0A\
    \x00\x05\x00\x00\x00\x12\x00\x01\x00\x03\
    \x00\x00\x00\x28\x00\x00\x00\x2C\
    \x00\x02\x00\x03\
    \x00\x32\x00\x28\x00\x07\
    \x00\x28\x00\x2A\x00\x00\
    \x00\x28\x00\x3C\x00\x01\
    \x00\x00\x00\x00\
    \x00\x00\x00\x01\x00\x63\x00\x07";

#[test]
fn ranges_and_level_offsets(rt: HostRuntime) -> Result<(), Fail> {
    let expected = [
        (62, 40, "5"),
        (62, 41, "unknown"),
        (62, 42, "5, v 99 7"),
        (62, 43, "fault 17 at 18"),
        (62, 50, "fault 17 at 18"),
        (62, 61, "unknown"),
        (48, 41, "unknown"),
        (48, 43, "fault 15 at 48"),
        (61, 42, "fault 15 at 60"),
    ];
    for (length, glyph, text) in expected {
        let table = TABLE.get(0..length).ok_or("too long a cut")?;
        let axis = Axis::Level;
        let found = described_table(rt.alloc(), table, Key { glyph, axis })?;
        assert_eq!(rt; found.as_str(), text);
    }
    let axis = Axis::Upright;
    let upright = described_table(rt.alloc(), TABLE, Key { glyph: 40, axis })?;
    assert_eq!(rt; upright.as_str(), "unknown");
    Ok(())
}
