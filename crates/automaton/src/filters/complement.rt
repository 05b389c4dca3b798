//! A filter that matches the keys that another does not.
ghost use Rattle.filter.specs.Tables.{complement_table};
ghost use Rattle.filter.specs.Meanings.{ComplementOf};
ghost use Rattle.filter.proofs.Lawful.{complement_table_lawful};
ghost use Rattle.filter.proofs.CombinatorMeanings.{complement_table_means};

use crate::Automaton;

/// The keys that the inner filter does not match.
#[derive(Clone, Copy, Debug, PartialEq, Eq, Drop)]
pub struct Complement<F> {
    pub(crate) filter: F,
}

impl<F: Automaton> Automaton for Complement<F> {
    type State = F::State;

    ghost table = { λ f. complement_table (F.table f.filter) };

    ghost matching = { λ f. ComplementOf (F.matching f.filter) };

    ghost accepting = { λ f. ComplementOf (F.matching f.filter) };

    ghost lawful = { λ f. complement_table_lawful _ (F.lawful f.filter) };

    ghost means = { λ f. complement_table_means _ _ _ (F.means f.filter) };

    fn start(&self) -> Self::State {
        self.filter.start()
    }

    fn is_match(&self, state: Self::State) -> bool {
        !self.filter.is_match(state)
    }

    fn can_match(&self, state: Self::State) -> bool {
        !self.filter.will_always_match(state)
    }

    fn will_always_match(&self, state: Self::State) -> bool {
        !self.filter.can_match(state)
    }

    fn accept(&self, state: Self::State, byte: u8) -> Self::State {
        self.filter.accept(state, byte)
    }

    fn accept_eof(&self, _state: Self::State) -> Option<Self::State> {
        None
    }
}
