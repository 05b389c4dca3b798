//! Why an account ends early.
ghost use Rattle.std.specs.Prelude.{◌≡◌};
ghost use Rattle.account.specs.declared.refusal.Refusal.TheVariants.{List as ListRefused, Shift as ShiftRefused, Search as SearchRefused};
ghost use Rattle.account.specs.declared.refusal.AccountError.TheVariants.{Refused, OutOfMemory};
ghost use Rattle.account.specs.Numbers.{number_of};
ghost use Rattle.account.specs.Errors.{error_of};

use graph::Unshifted;
use input::ReadError;
use list::List;
use search::Unopened;
use std::alloc::AllocError;
use std::io;

/// What keeps an account from being whole.
#[derive(Clone, Copy, Debug, PartialEq, Eq)]
pub(crate) enum Refusal {
    /// The input cannot be read.
    Input(input::Refusal),
    /// The names are no list.
    List(names::Refusal),
    /// The totals of the list cannot be raised.
    Shift(graph::Refusal),
    /// The search is not opened, or does not go on.
    Search(search::Refusal),
}

impl Refusal {
    /// The number of the refusal.
    pub(crate) fn number(self) -> u8
        ensures { result ≡ number_of self }
    {
        match self {
            Refusal::Input(refusal) => refusal.number(),
            Refusal::List(refusal) => refusal.number(),
            Refusal::Shift(refusal) => refusal.number(),
            Refusal::Search(refusal) => refusal.number(),
        }
    }
}

/// What ends an account before its last key: a refusal, or want of memory.
// No parameter of `ReadError` stands for it, since each conversion has to name a type of this crate.
#[derive(Clone, Copy, Debug, PartialEq, Eq)]
pub(crate) enum AccountError {
    Refused(Refusal),
    OutOfMemory,
}

impl From<Refusal> for AccountError {
    ghost from_gives = { λ refusal e. e ≡ Refused refusal };

    fn from(refusal: Refusal) -> AccountError {
        AccountError::Refused(refusal)
    }
}

impl From<names::Refusal> for AccountError {
    ghost from_gives = { λ refusal e. e ≡ Refused (ListRefused refusal) };

    fn from(refusal: names::Refusal) -> AccountError {
        AccountError::Refused(Refusal::List(refusal))
    }
}

impl From<ReadError> for AccountError {
    ghost from_gives = { λ error e. e ≡ error_of error };

    fn from(error: ReadError) -> AccountError {
        match error {
            ReadError::Refused(refusal) => AccountError::Refused(Refusal::Input(refusal)),
            ReadError::OutOfMemory => AccountError::OutOfMemory,
        }
    }
}

impl From<Unshifted<List>> for AccountError {
    ghost from_gives = { λ unshifted e. e ≡ Refused (ShiftRefused unshifted.refusal) };

    fn from(unshifted: Unshifted<List>) -> AccountError {
        AccountError::Refused(Refusal::Shift(unshifted.refusal))
    }
}

impl From<search::Refusal> for AccountError {
    ghost from_gives = { λ refusal e. e ≡ Refused (SearchRefused refusal) };

    fn from(refusal: search::Refusal) -> AccountError {
        AccountError::Refused(Refusal::Search(refusal))
    }
}

impl From<Unopened<'_>> for AccountError {
    ghost from_gives = { λ unopened e. e ≡ Refused (SearchRefused unopened.refusal) };

    fn from(unopened: Unopened<'_>) -> AccountError {
        AccountError::from(unopened.refusal)
    }
}

impl From<AllocError> for AccountError {
    ghost from_gives = { λ _ e. e ≡ OutOfMemory };

    fn from(_error: AllocError) -> AccountError {
        AccountError::OutOfMemory
    }
}

/// A line is written to a `Vec`, where nothing fails but for memory.
impl From<io::Error> for AccountError {
    ghost from_gives = { λ _ e. e ≡ OutOfMemory };

    fn from(_error: io::Error) -> AccountError {
        AccountError::OutOfMemory
    }
}
