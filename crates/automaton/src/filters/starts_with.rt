//! A filter that matches the keys of which another matches some prefix.
ghost use Rattle.std.specs.Prelude.{◌≡◌};
ghost use Rattle.filter.specs.Tables.{starts_with_table, starts_with_state};
ghost use Rattle.filter.specs.Meanings.{StartingWith};
ghost use Rattle.filter.proofs.Lawful.{starts_with_table_lawful};
ghost use Rattle.filter.proofs.CombinatorMeanings.{starts_with_table_means};

use crate::{Automaton, StartsWithState};

/// The keys of which the inner filter matches some prefix.
#[derive(Clone, Copy, Debug, PartialEq, Eq, Drop)]
pub struct StartsWith<F> {
    pub(crate) filter: F,
}

impl<F: Automaton> StartsWith<F> {
    /// The state where the inner filter has come to this one.
    #[inline(always)]
    fn over(&self, inner: F::State) -> StartsWithState<F::State>
        ensures { result ≡ starts_with_state (F.table self.now.filter) inner }
    {
        if self.filter.is_match(inner) {
            StartsWithState::Done
        } else {
            StartsWithState::Running(inner)
        }
    }
}

impl<F: Automaton> Automaton for StartsWith<F> {
    type State = StartsWithState<F::State>;

    ghost table = { λ f. starts_with_table (F.table f.filter) };

    ghost matching = { λ f. StartingWith (F.matching f.filter) };

    ghost accepting = { λ f. StartingWith (F.matching f.filter) };

    ghost lawful = { λ f. starts_with_table_lawful _ (F.lawful f.filter) };

    ghost means = { λ f. starts_with_table_means _ _ _ (F.means f.filter) };

    fn start(&self) -> Self::State {
        self.over(self.filter.start())
    }

    fn is_match(&self, state: Self::State) -> bool {
        matches!(state, StartsWithState::Done)
    }

    fn can_match(&self, state: Self::State) -> bool {
        match state {
            StartsWithState::Done => true,
            StartsWithState::Running(inner) => self.filter.can_match(inner),
        }
    }

    fn will_always_match(&self, state: Self::State) -> bool {
        self.is_match(state)
    }

    fn accept(&self, state: Self::State, byte: u8) -> Self::State {
        match state {
            StartsWithState::Done => StartsWithState::Done,
            StartsWithState::Running(inner) => self.over(self.filter.accept(inner, byte)),
        }
    }

    fn accept_eof(&self, _state: Self::State) -> Option<Self::State> {
        None
    }
}
