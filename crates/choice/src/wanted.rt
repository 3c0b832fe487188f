// The sizes that fit.
ghost use Rattle.std.specs.Prelude.{◌≡◌};
ghost use Rattle.choice.specs.Choosing.{fits};
ghost use Rattle.choice.specs.Sums.{fitting_size};

// Which sizes fit: those from the target to the limit.
#[derive(Clone, Copy)]
pub(crate) struct Wanted {
    pub(crate) target: u64,
    pub(crate) limit: u32,
}

impl Wanted {
    // Is a size at least the target, and at most the limit?
    pub(crate) fn fits(self, size: u32) -> bool
        ensures { result ≡ fits self.target self.limit size }
    {
        self.target <= u64::from(size) && size <= self.limit
    }

    // The smallest size of a span that fits.
    pub(crate) fn smallest_in(self, span: Option<(u64, u64)>) -> Option<u32>
        ensures { result ≡ fitting_size self.target self.limit span }
    {
        let (smallest, largest) = span?;
        let size = self.target.max(smallest);
        if size <= largest.min(u64::from(self.limit)) {
            Some(size as u32)
        } else {
            None
        }
    }
}
