//! Numbers at random by a fixed seed, so that each run of the program has the same ones.

/// A generator of numbers (xorshift).
#[derive(Drop)]
pub(crate) struct Random {
    state: u64,
}

impl Random {
    /// A generator with a fixed seed.
    pub(crate) fn new() -> Random {
        Random {
            state: 0x9e37_79b9_7f4a_7c15,
        }
    }

    fn next(&mut self) -> u64 {
        let mut state = self.state;
        state ^= state << 13u32;
        state ^= state >> 7u32;
        state ^= state << 17u32;
        self.state = state;
        state >> 33u32
    }

    /// A number below a bound; 0 where the bound is 0.
    pub(crate) fn below(&mut self, bound: usize) -> usize {
        let drawn = usize::try_from(self.next()).unwrap_or(0);
        drawn.checked_rem(bound).unwrap_or(0)
    }
}
