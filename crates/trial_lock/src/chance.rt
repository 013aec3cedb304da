//! Numbers by chance, the same for a seed in each run.

/// A sequence of them.
#[derive(Clone, Copy)]
pub(crate) struct Chance {
    thrown: u32,
}

impl Chance {
    /// The sequence of a seed and a number beside it.
    pub(crate) fn new(seed: u32, number: u32) -> Chance {
        let mut chance = Chance {
            thrown: seed.wrapping_mul(2_654_435_761).wrapping_add(number),
        };
        let _ = chance.below(1);
        chance
    }

    /// A number below another.
    pub(crate) fn below(&mut self, count: u32) -> i64 {
        self.thrown = self
            .thrown
            .wrapping_mul(1_664_525)
            .wrapping_add(1_013_904_223);
        i64::from((self.thrown >> 8).checked_rem(count).unwrap_or(0))
    }
}
