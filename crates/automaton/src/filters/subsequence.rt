//! A filter that matches the keys that hold its bytes in order, with gaps.
ghost use Rattle.std.specs.Prelude.{◌≡◌};
ghost use Rattle.filter.specs.Filter.{Lawful};
ghost use Rattle.filter.specs.Tables.{subsequence_table};
ghost use Rattle.filter.specs.Meanings.{Means, SubsequenceOf};
ghost use Rattle.filter.proofs.Lawful.{subsequence_table_lawful};
ghost use Rattle.filter.proofs.SubsequenceMeaning.{subsequence_table_means};

use crate::Automaton;

/// The keys that hold these bytes in order, with gaps. The state is the number of bytes found.
#[derive(Clone, Copy, Debug, PartialEq, Eq)]
pub struct Subsequence<'a> {
    pub(crate) bytes: &'a [u8],
}

impl<'a> Subsequence<'a> {
    // both laws again, for this table, so that they can be read off the signature
    /// The filter that matches the keys that these bytes are a subsequence of.
    #[tactic(auto, using(filter::proofs::Lawful::subsequence_table_lawful, filter::proofs::SubsequenceMeaning::subsequence_table_means))]
    pub fn new(bytes: &'a [u8]) -> Subsequence<'a>
        ensures holds { result.bytes.now ≡ bytes.now }
        ensures lawful { Lawful (subsequence_table result.bytes.now) }
        ensures means { Means (subsequence_table result.bytes.now) (SubsequenceOf bytes.now) (SubsequenceOf bytes.now) }
    {
        Subsequence { bytes }
    }
}

impl Automaton for Subsequence<'_> {
    type State = usize;

    ghost table = { λ f. subsequence_table f.bytes.now };

    ghost matching = { λ f. SubsequenceOf f.bytes.now };

    ghost accepting = { λ f. SubsequenceOf f.bytes.now };

    ghost lawful = { λ f. subsequence_table_lawful f.bytes.now };

    ghost means = { λ f. subsequence_table_means f.bytes.now };

    fn start(&self) -> usize {
        0
    }

    fn is_match(&self, state: usize) -> bool {
        state == self.bytes.len()
    }

    fn can_match(&self, _state: usize) -> bool {
        true
    }

    fn will_always_match(&self, state: usize) -> bool {
        self.is_match(state)
    }

    fn accept(&self, state: usize, byte: u8) -> usize {
        match self.bytes.get(state) {
            Some(next) if *next == byte => state + 1,
            _ => state,
        }
    }

    fn accept_eof(&self, _state: usize) -> Option<usize> {
        None
    }
}
