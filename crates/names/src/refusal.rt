//! Why text and rows are no list of names.
ghost use Rattle.std.specs.Prelude.{◌≡◌};
ghost use Rattle.names.specs.Numbers.{number_of, carried_by};

/// What keeps text and rows from being a list; a name is given by its number, counted from 0.
#[derive(Clone, Copy, Debug, PartialEq, Eq)]
pub enum Refusal {
    /// There is no name, or there are more than 65,536.
    CountOutOfRange,
    /// That name exceeds 255 bytes or leaves the text.
    NameOutOfRange(u32),
    /// That name is not above the one before.
    NotRising(u32),
}

impl Refusal {
    /// The number of the refusal.
    pub fn number(self) -> u8
        ensures { result ≡ number_of self }
    {
        // no cast: two of the cases carry a name's number
        match self {
            Refusal::CountOutOfRange => 9,
            Refusal::NameOutOfRange(_) => 10,
            Refusal::NotRising(_) => 11,
        }
    }

    /// The number of the name that the refusal carries, or none.
    pub fn carried(self) -> Option<u32>
        ensures { result ≡ carried_by self }
    {
        match self {
            Refusal::CountOutOfRange => None,
            Refusal::NameOutOfRange(name) | Refusal::NotRising(name) => Some(name),
        }
    }
}
