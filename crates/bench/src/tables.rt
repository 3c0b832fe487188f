ghost use Rattle.std.specs.Prelude.{◌≡◌, IfOk, vec_len};

use std::alloc::{AllocError, Global};

// The length of every table, in bytes: the largest that a program takes.
const SIZE: usize = 65_536;

// The only glyph that a table knows.
pub(crate) const GLYPH: u16 = 40;

// What stands before the variant count: the header, MathVariants at 10, an upright coverage of the glyph at 22, and
// its construction at 28, which has no parts.
const FRONT: &[u8; 30] = b"\
    \x00\x01\x00\x00\x00\x00\x00\x00\x00\x0A\
    \x00\x00\x00\x0C\x00\x00\x00\x01\x00\x00\x00\x12\
    \x00\x01\x00\x01\x00\x28\
    \x00\x00";

// A MATH table of the glyph with this many variants, of advances 1, 2, 3 and so on, and then zeros.
pub(crate) fn table_of(heap: Global, variants: u16) -> Result<Vec<u8>, AllocError>
    ensures { IfOk result (λ bytes. vec_len bytes ≡ 65536) }
{
    let mut bytes = FRONT.to_vec(heap)?;
    bytes.extend_from_slice(&variants.to_be_bytes())?;
    for advance in 1..=variants {
        bytes.extend_from_slice(&GLYPH.to_be_bytes())?;
        bytes.extend_from_slice(&advance.to_be_bytes())?;
    }
    bytes.resize(SIZE, 0)?;
    Ok(bytes)
}
