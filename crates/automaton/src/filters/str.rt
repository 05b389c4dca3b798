//! A filter that matches the key equal to its bytes.
ghost use Rattle.std.specs.Prelude.{◌≡◌};
ghost use Rattle.filter.specs.Filter.{Lawful};
ghost use Rattle.filter.specs.Tables.{str_table};
ghost use Rattle.filter.specs.Meanings.{Means, EqualTo};
ghost use Rattle.filter.proofs.Lawful.{str_table_lawful};
ghost use Rattle.filter.proofs.StrMeaning.{str_table_means};

use crate::Automaton;

/// The key equal to these bytes. The state is the number of bytes that agreed, or `None` after one that did not.
#[derive(Clone, Copy, Debug, PartialEq, Eq)]
pub struct Str<'a> {
    pub(crate) bytes: &'a [u8],
}

impl<'a> Str<'a> {
    // both laws again, for this table, so that they can be read off the signature
    /// The filter that matches exactly these bytes.
    pub fn new(bytes: &'a [u8]) -> Str<'a>
        ensures holds { result.bytes.now ≡ bytes.now }
        ensures lawful { Lawful (str_table result.bytes.now) }
        ensures means { Means (str_table result.bytes.now) (EqualTo bytes.now) (EqualTo bytes.now) }
    {
        Str::holding(bytes)
    }

    // Apart from `new`, so that other bytes than these are refused here and not in a proof of the laws.
    fn holding(bytes: &'a [u8]) -> Str<'a>
        ensures { result.bytes.now ≡ bytes.now }
    {
        Str { bytes }
    }
}

impl Automaton for Str<'_> {
    type State = Option<usize>;

    ghost table = { λ f. str_table f.bytes.now };

    ghost matching = { λ f. EqualTo f.bytes.now };

    ghost accepting = { λ f. EqualTo f.bytes.now };

    ghost lawful = { λ f. str_table_lawful f.bytes.now };

    ghost means = { λ f. str_table_means f.bytes.now };

    fn start(&self) -> Option<usize> {
        Some(0)
    }

    fn is_match(&self, state: Option<usize>) -> bool {
        state == Some(self.bytes.len())
    }

    fn can_match(&self, state: Option<usize>) -> bool {
        state.is_some()
    }

    fn will_always_match(&self, _state: Option<usize>) -> bool {
        false
    }

    fn accept(&self, state: Option<usize>, byte: u8) -> Option<usize> {
        let position = state?;
        match self.bytes.get(position) {
            Some(next) if *next == byte => Some(position + 1),
            _ => None,
        }
    }

    fn accept_eof(&self, _state: Option<usize>) -> Option<Option<usize>> {
        None
    }
}
