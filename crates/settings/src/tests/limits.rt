use crate::tests::described::described;
use crate::tests::even::{EVEN, EVEN_KEY, even_text};
use layers::{Cap, Scale};
use math_table::MathTable;
use std::test::Fail;

#[test]
fn caps_lower_the_limit_and_scales_multiply_it(rt: HostRuntime) -> Result<(), Fail> {
    let face = MathTable::new(EVEN, 0)?;
    for (most, factor, limit, length) in [
        (0, 1, "limit 0: ", 4096),
        (210, 1, "limit 210: ", 4096),
        (16_777_215, 1, "limit 16777215: ", 4096),
        (16_777_216, 1, "", 4096),
        (16_777_217, 1, "", 4096),
        (u32::MAX, 1, "", 4096),
        (0, 3, "limit 0: ", 12_288),
        (210, 3, "limit 630: ", 12_288),
        (5_592_405, 3, "limit 16777215: ", 12_288),
        (5_592_406, 3, "", 12_288),
    ] {
        let scale = Scale::new(Cap::new(face, most), factor);
        let found = described(rt.alloc(), &scale, EVEN_KEY)?;
        let text = format!(in rt.alloc(); "{limit}{}", even_text(rt.alloc(), length)?)?;
        assert_eq!(rt; found.as_str(), text.as_str());
    }
    Ok(())
}
