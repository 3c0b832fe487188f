use face::{Axis, Key};
use std::alloc::{AllocError, Global};

// A table whose lengths are all 4096: at 10 the least overlap, at 34 and 38 the advances of two variants, at 52 and
// 62 the full advances of two parts, with their connectors before them.
pub const EVEN: &[u8; 66] = b"\
    \x00\x01\x00\x00\x00\x00\x00\x00\x00\x0A\
    \x10\x00\x00\x0C\x00\x00\x00\x01\x00\x00\x00\x12\
    \x00\x01\x00\x01\x00\x28\
    \x00\x0C\x00\x02\x00\x28\x10\x00\x00\x29\x10\x00\
    \x00\x00\x00\x00\x00\x02\
    \x00\x32\x10\x00\x10\x00\x10\x00\x00\x00\
    \x00\x33\x10\x00\x10\x00\x10\x00\x00\x01";

// The only key that it knows.
pub const EVEN_KEY: Key = Key {
    glyph: 40,
    axis: Axis::Upright,
};

// What it answers, in the words of `described`, where all its lengths are made another.
pub fn even_text(heap: Global, length: u32) -> Result<String, AllocError> {
    format!(in heap;
        "{length}, v 40 {length}, v 41 {length}, p 50 {length} {length} {length}, p 51 {length} {length} {length} x"
    )
}
