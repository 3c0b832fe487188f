ghost use Rattle.std.specs.Prelude.{◌≤◌, IfOk, vec_len};

use crate::refusals::Refused;
use crate::stops::Stop;
use std::alloc::Global;
use std::fs;
use std::io::{ErrorKind, Read};

// The most bytes of an input.
const MOST_BYTES: usize = 65_536;

// All bytes of an input. At most one more is read than it may have, so that none is read without end.
fn read_bounded<R: Read + Drop>(
    heap: Global,
    input: &'static str,
    source: R,
) -> Result<Vec<u8>, Stop>
    ensures { IfOk result (λ bytes. vec_len bytes ≤ 65536) }
{
    let mut bytes = Vec::new(heap);
    source
        .take(MOST_BYTES as u64 + 1)
        .read_to_end(&mut bytes)
        .map_err(|error| Stop::Unread { input, error })?;
    if bytes.len() > MOST_BYTES {
        return Err(Refused::TooLong { input }.into());
    }
    Ok(bytes)
}

// The bytes of a table in the current folder. A missing file is an empty table.
pub(crate) fn read_table(rt: &HostRuntime, input: &'static str) -> Result<Vec<u8>, Stop>
    ensures { IfOk result (λ bytes. vec_len bytes ≤ 65536) }
{
    match fs::open(rt, input) {
        Ok(file) => read_bounded(rt.alloc(), input, file),
        Err(error) if error.kind() == ErrorKind::NotFound => Ok(Vec::new(rt.alloc())),
        Err(error) => Err(Stop::Unread { input, error }),
    }
}

// The bytes of standard input.
pub(crate) fn read_lines(rt: &HostRuntime) -> Result<Vec<u8>, Stop>
    ensures { IfOk result (λ bytes. vec_len bytes ≤ 65536) }
{
    read_bounded(rt.alloc(), "standard input", rt.stdin())
}
