//! A filter that matches every key.
ghost use Rattle.filter.specs.Tables.{always_match_table};
ghost use Rattle.filter.specs.Meanings.{AllKeys};
ghost use Rattle.filter.proofs.Lawful.{always_match_table_lawful};
ghost use Rattle.filter.proofs.CombinatorMeanings.{always_match_table_means};

use crate::Automaton;

/// Every key: for a place that takes a filter where none is wanted.
#[derive(Clone, Copy, Debug, PartialEq, Eq)]
pub struct AlwaysMatch;

impl Automaton for AlwaysMatch {
    type State = ();

    ghost table = { λ _. always_match_table };

    ghost matching = { λ _. AllKeys };

    ghost accepting = { λ _. AllKeys };

    ghost lawful = { λ _. always_match_table_lawful };

    ghost means = { λ _. always_match_table_means };

    fn start(&self) {}

    fn is_match(&self, _state: ()) -> bool {
        true
    }

    fn can_match(&self, _state: ()) -> bool {
        true
    }

    fn will_always_match(&self, _state: ()) -> bool {
        true
    }

    fn accept(&self, _state: (), _byte: u8) {}

    fn accept_eof(&self, _state: ()) -> Option<()> {
        None
    }
}
