ghost use Rattle.std.specs.Prelude.{◌≤◌};

use crate::runs::Run;
use face::Key;

// Where the entries of a key's construction stand: enough to tell them without searching the coverage again.
// Not the whole shape, since no entry is told by the least overlap. It is passed by value again and again, as what holds
// a type with a model cannot be: so its bounds are its own.
#[derive(Clone, Copy)]
pub struct Found {
    pub(crate) key: Key,
    pub(crate) variants: Run,
    pub(crate) parts: Run,
    // So near to the table's beginning that 32 bits suffice for every offset in them.
    ghost variants_near: { variants.first ≤ 262144 },
    ghost parts_near: { parts.first ≤ 262144 },
}
