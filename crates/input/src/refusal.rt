//! Why an input is not read.
ghost use Rattle.std.specs.Prelude.{◌≡◌};
ghost use Rattle.input.specs.Reading.{number_of};
ghost use Rattle.input.specs.declared.refusal.ReadError.TheVariants.{Refused, OutOfMemory};

use std::alloc::AllocFailed;

/// What keeps an input from being read.
#[derive(Clone, Copy, Debug, PartialEq, Eq)]
pub enum Refusal {
    /// It exceeds 65,535 bytes.
    InputTooLong,
    /// A line is empty, has an unknown first character, or is a shift that is no number.
    BadLine,
    /// It has a 1,025th name.
    TooManyNames,
}

impl Refusal {
    /// The number of the refusal.
    pub fn number(self) -> u8
        ensures { result ≡ number_of self }
    {
        // no cast: two of the cases share a number
        match self {
            Refusal::InputTooLong => 20,
            Refusal::BadLine => 19,
            Refusal::TooManyNames => 20,
        }
    }
}

/// Why there is nothing read: a refusal, or want of memory.
#[derive(Clone, Copy, Debug, PartialEq, Eq)]
pub enum ReadError {
    Refused(Refusal),
    OutOfMemory,
}

impl From<Refusal> for ReadError {
    ghost from_gives = { λ refusal e. e ≡ Refused refusal };

    fn from(refusal: Refusal) -> ReadError {
        ReadError::Refused(refusal)
    }
}

impl<T: Drop> From<AllocFailed<T>> for ReadError {
    ghost from_gives = { λ _ e. e ≡ OutOfMemory };

    fn from(_failed: AllocFailed<T>) -> ReadError {
        ReadError::OutOfMemory
    }
}
