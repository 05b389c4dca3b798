//! Why a call of a search is refused.
ghost use Rattle.std.specs.Prelude.{◌≡◌};
ghost use Rattle.search.specs.Numbers.{number_of};

/// What keeps a call from doing what it is asked.
#[derive(Clone, Copy, Debug, PartialEq, Eq)]
pub enum Refusal {
    /// The rows in use exceed the stack, or their key bytes the key area.
    AreasTooShort = 13,
    /// There is no row for the next byte.
    StackFull = 14,
    /// There is no byte of the key area for the next byte.
    KeyAreaFull = 15,
    /// A sum of outputs passes 2^64 − 1.
    SumTooLarge = 16,
    /// A key is due, and the count can hold no more.
    CountFull = 17,
    /// No key stands.
    NoStandingKey = 18,
}

impl Refusal {
    /// The number of the refusal.
    pub fn number(self) -> u8
        ensures { result ≡ number_of self }
    {
        self as u8
    }
}
