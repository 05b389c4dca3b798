//! A generator of random numbers, the same at each run.
ghost use Rattle.std.specs.Prelude.{◌<◌};

/// A xorshift generator. Its state is never 0 after one that is not.
#[derive(Clone, Copy, Debug, PartialEq, Eq)]
pub(crate) struct Dice {
    pub(crate) state: u64,
}

impl Dice {
    fn roll(&mut self) -> u64 {
        let mut x = self.state;
        x ^= x << 13;
        x ^= x >> 7;
        x ^= x << 17;
        self.state = x;
        x
    }

    /// A number below another.
    pub(crate) fn below(&mut self, limit: u64) -> u64
        requires { 0 < limit }
        ensures { result < limit }
    {
        (self.roll() >> 11) % limit
    }

    /// Yes once in `times` times.
    pub(crate) fn once_in(&mut self, times: u64) -> bool
        requires { 0 < times }
    {
        self.below(times) == 0
    }

    /// Mostly a small number, and now and then one of the largest.
    pub(crate) fn number(&mut self) -> u64 {
        let small = self.below(5);
        if self.once_in(8) {
            u64::MAX - small
        } else {
            small
        }
    }
}
