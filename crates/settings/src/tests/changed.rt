use crate::sample::sample;
use crate::tests::described::described_table;
use crate::tests::words::with_word;
use face::{Axis, Key};
use std::alloc::Global;
use std::test::Fail;

const KEY: Key = Key {
    glyph: 40,
    axis: Axis::Upright,
};

// What the sample answers for glyph 40: the least overlap, two variants, three parts.
const ENTRIES: [&str; 6] = [
    "20",
    "v 40 100",
    "v 41 200",
    "p 50 0 40 100",
    "p 51 40 40 60 x",
    "p 52 40 0 100",
];

// What a change of one word makes of that.
#[derive(Clone, Copy)]
enum Expected {
    Same,
    // Another answer.
    Answer(&'static str),
    // Another entry, at an index.
    Entry(usize, &'static str),
    // No entries from one index to another.
    Without(usize, usize),
}

use Expected::{Answer, Entry, Same, Without};

// The word at a byte offset made 65535.
const LARGEST: [(usize, Expected); 38] = [
    (0, Answer("refused 14")),
    (2, Same),
    (4, Same),
    (6, Same),
    (8, Answer("fault 15 at 65535")),
    (10, Entry(0, "65535")),
    (12, Answer("fault 15 at 65545")),
    (14, Same),
    (16, Same),
    (18, Same),
    (20, Answer("fault 15 at 65545")),
    (22, Answer("fault 16 at 22")),
    (24, Same),
    (26, Answer("unknown")),
    (28, Answer("fault 15 at 65567")),
    (30, Answer("fault 15 at 76")),
    (32, Entry(1, "v 65535 100")),
    (34, Entry(1, "v 40 65535")),
    (36, Entry(2, "v 65535 200")),
    (38, Entry(2, "v 41 65535")),
    (40, Same),
    (42, Same),
    (44, Answer("fault 15 at 76")),
    (46, Entry(3, "p 65535 0 40 100")),
    (48, Entry(3, "p 50 100 40 100")),
    (50, Entry(3, "p 50 0 100 100")),
    (52, Entry(3, "p 50 0 40 65535")),
    (54, Entry(3, "p 50 0 40 100 x")),
    (56, Entry(4, "p 65535 40 40 60 x")),
    (58, Entry(4, "p 51 60 40 60 x")),
    (60, Entry(4, "p 51 40 60 60 x")),
    (62, Entry(4, "p 51 40 40 65535 x")),
    (64, Same),
    (66, Entry(5, "p 65535 40 0 100")),
    (68, Entry(5, "p 52 100 0 100")),
    (70, Entry(5, "p 52 40 100 100")),
    (72, Entry(5, "p 52 40 0 65535")),
    (74, Entry(5, "p 52 40 0 100 x")),
];

// The word at a byte offset made 0, where it is not 0 in the sample.
const ZERO: [(usize, Expected); 27] = [
    (0, Answer("refused 14")),
    (8, Answer("unknown")),
    (10, Entry(0, "0")),
    (12, Answer("unknown")),
    (16, Answer("fault 17 at 16")),
    (20, Answer("unknown")),
    (22, Answer("fault 16 at 22")),
    (24, Answer("unknown")),
    (26, Answer("unknown")),
    (28, Without(3, 5)),
    (30, Without(1, 2)),
    (32, Entry(1, "v 0 100")),
    (34, Entry(1, "v 40 0")),
    (36, Entry(2, "v 0 200")),
    (38, Entry(2, "v 41 0")),
    (44, Without(3, 5)),
    (46, Entry(3, "p 0 0 40 100")),
    (50, Entry(3, "p 50 0 0 100")),
    (52, Entry(3, "p 50 0 0 0")),
    (56, Entry(4, "p 0 40 40 60 x")),
    (58, Entry(4, "p 51 0 40 60 x")),
    (60, Entry(4, "p 51 40 0 60 x")),
    (62, Entry(4, "p 51 0 0 0 x")),
    (64, Entry(4, "p 51 40 40 60")),
    (66, Entry(5, "p 0 40 0 100")),
    (68, Entry(5, "p 52 0 0 100")),
    (72, Entry(5, "p 52 0 0 0")),
];

impl Expected {
    // What becomes of an entry.
    fn changed(self, index: usize, entry: &'static str) -> Option<&'static str> {
        match self {
            Entry(at, other) if at == index => Some(other),
            Without(first, last) if first <= index && index <= last => None,
            _ => Some(entry),
        }
    }
}

// The answer that is expected, in the words of `described_table`.
fn expected_text(heap: Global, expected: Expected) -> Result<String, Fail> {
    if let Answer(text) = expected {
        return Ok(String::from_str(heap, text)?);
    }
    let mut text = String::new(heap);
    let entries = ENTRIES.iter().enumerate();
    for entry in entries.filter_map(|(index, entry)| expected.changed(index, entry)) {
        if !text.is_empty() {
            text.push_str(", ")?;
        }
        text.push_str(entry)?;
    }
    Ok(text)
}

fn check_changes(heap: Global, word: u16, changes: &[(usize, Expected)]) -> Result<(), Fail> {
    for (place, expected) in changes {
        let table = with_word(sample(), *place, word)?;
        let found = described_table(heap, &table, KEY)?;
        let text = expected_text(heap, *expected)?;
        if found.as_str() != text.as_str() {
            return Err(Fail::new(format!(in heap; "at {place}: {found}, not {text}")?));
        }
    }
    Ok(())
}

#[test]
fn single_word_changes(rt: HostRuntime) -> Result<(), Fail> {
    check_changes(rt.alloc(), 65535, &LARGEST)?;
    check_changes(rt.alloc(), 0, &ZERO)
}
