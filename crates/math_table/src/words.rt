ghost use Rattle.std.specs.Prelude.{◌≡◌, ◌+◌, ◌*◌, ◌≤◌};
ghost use Rattle.math_table.specs.Reading.{word_at, word, fault_at};
ghost use Rattle.math_table.specs.Shapes.{words_inside};

use face::{Cause, Fault, Key, Layer};

// The word that a table's tail begins with, the first byte the more significant.
fn first_word(tail: &[u8]) -> Option<u16>
    ensures { result ≡ word_at tail.now 0 }
{
    match tail {
        [hi, lo, _rest @ ..] => Some(u16::from_be_bytes([*hi, *lo])),
        _ => None,
    }
}

// What the table has from a byte offset on, nothing past its end: it begins with the word there.
fn tail_at(table: &[u8], place: u32) -> &[u8]
    ensures { word_at result.now 0 ≡ word_at table.now place }
{
    table.get(place as usize..).unwrap_or(&[])
}

// A fault of the table itself, at a byte offset.
// No method of the reader: a closure that calls one through a captured reader was not proved.
pub(crate) fn fault(cause: Cause, key: Key, place: u32) -> Fault
    ensures { result ≡ fault_at cause key place }
{
    Fault::new(Layer::Math, cause, key, place)
}

// A table as it is read for a key.
#[derive(Clone, Copy)]
pub(crate) struct Reader<'a> {
    pub(crate) table: &'a [u8],
    pub(crate) key: Key,
}

impl Reader<'_> {
    // The word at a byte offset.
    pub(crate) fn word(&self, place: u32) -> Result<u16, Fault>
        ensures { result ≡ word self.now.table.now self.now.key place }
    {
        let Reader { table, key } = *self;
        first_word(tail_at(table, place)).ok_or_else(|| fault(Cause::OutsideTable, key, place))
    }

    // Are so many words from `first` on inside the table? They lie side by side, so its length tells.
    // As each reading does, it asks for offsets below 2^20, where none wraps.
    #[tactic(auto, using(crate::proofs::SideBySide::told_by_length))]
    pub(crate) fn words_inside(&self, words: u32, first: u32) -> Result<(), Fault>
        requires { first + 2 * words ≤ 1048576 }
        ensures { result ≡ words_inside self.now.table.now self.now.key words first }
    {
        let whole = self.table.len().saturating_sub(first as usize) / 2;
        if words as usize <= whole {
            Ok(())
        } else {
            Err(fault(Cause::OutsideTable, self.key, first + 2 * whole as u32))
        }
    }
}
