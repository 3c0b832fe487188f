use crate::sample::sample;
use face::{Axis, Face, Key};
use layers::{Cap, Fallback, Scale};
use math_table::MathTable;
use std::test::Fail;

const KEY: Key = Key {
    glyph: 40,
    axis: Axis::Upright,
};

// What was found is passed by value for each entry, also where its type is known.
#[test]
fn what_was_found_tells_one_entry_after_the_other(rt: HostRuntime) -> Result<(), Fail> {
    let table = sample();
    let first = MathTable::new(&table, 0)?;
    let found = first.find(KEY).ok_or("unknown")?;
    for (index, advance) in [(0, 100), (1, 200)] {
        let variant = first.variant_of(found, index).ok_or("no variant")?;
        assert_eq!(rt; variant.advance, advance);
    }
    let second = MathTable::new(&[], 1)?;
    let pile = Cap::new(Scale::new(Fallback { first, second }, 2), 30000);
    let found = pile.find(KEY).ok_or("unknown")?;
    for (index, advance) in [(0, 200), (1, 400)] {
        let variant = pile.variant_of(found, index).ok_or("no variant")?;
        assert_eq!(rt; variant.advance, advance);
    }
    Ok(())
}
