ghost use Rattle.std.specs.Prelude.{◌≡◌, ◌≤◌};
ghost use Rattle.math_table.specs.Shapes.{place_of};

// Entries side by side: how many, and the byte offset of the first.
#[derive(Clone, Copy)]
pub(crate) struct Run {
    pub(crate) count: u16,
    pub(crate) first: u32,
}

impl Run {
    // Where the entry at an index begins, if the run has it and entries are of `size` bytes.
    pub(crate) fn place(self, size: u8, index: u16) -> Option<u32>
        requires { self.first ≤ 262144 }
        ensures { result ≡ place_of self size index }
    {
        (index < self.count).then(|| self.first + u32::from(size) * u32::from(index))
    }
}
