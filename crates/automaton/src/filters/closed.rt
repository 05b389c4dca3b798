//! A filter that accepts the keys that another matches once "/" follows them.
ghost use Rattle.std.specs.Prelude.{◌≡◌};
ghost use Rattle.filter.specs.Filter.{Lawful};
ghost use Rattle.filter.specs.Tables.{closed_table};
ghost use Rattle.filter.specs.Meanings.{Means, FollowedBySlash};
ghost use Rattle.filter.proofs.Lawful.{closed_table_lawful};
ghost use Rattle.filter.proofs.CombinatorMeanings.{closed_table_means};

use crate::Automaton;

/// The inner filter with an end state: the one after "/".
#[derive(Clone, Copy, Debug, PartialEq, Eq, Drop)]
pub struct Closed<F> {
    pub(crate) filter: F,
}

impl<F: Automaton> Closed<F> {
    // both laws again, for this table, so that they can be read off the signature
    /// The filter that accepts the keys that the inner filter matches once "/" follows them.
    #[tactic(auto, using(filter::proofs::Lawful::closed_table_lawful))]
    pub fn new(filter: F) -> Closed<F>
        ensures holds { result.filter ≡ filter }
        ensures lawful { Lawful (closed_table (F.table result.filter)) }
        ensures means { Means (closed_table (F.table result.filter)) (F.matching filter) (FollowedBySlash (F.matching filter)) }
    {
        Closed { filter }
    }
}

impl<F: Automaton> Automaton for Closed<F> {
    type State = F::State;

    ghost table = { λ f. closed_table (F.table f.filter) };

    ghost matching = { λ f. F.matching f.filter };

    ghost accepting = { λ f. FollowedBySlash (F.matching f.filter) };

    ghost lawful = { λ f. closed_table_lawful _ (F.lawful f.filter) };

    ghost means = { λ f. closed_table_means _ _ _ (F.means f.filter) };

    fn start(&self) -> Self::State {
        self.filter.start()
    }

    fn is_match(&self, state: Self::State) -> bool {
        self.filter.is_match(state)
    }

    fn can_match(&self, state: Self::State) -> bool {
        self.filter.can_match(state)
    }

    fn will_always_match(&self, state: Self::State) -> bool {
        self.filter.will_always_match(state)
    }

    fn accept(&self, state: Self::State, byte: u8) -> Self::State {
        self.filter.accept(state, byte)
    }

    fn accept_eof(&self, state: Self::State) -> Option<Self::State> {
        Some(self.filter.accept(state, b'/'))
    }
}
