//! A filter that matches the keys that two filters both match.
ghost use Rattle.filter.specs.Tables.{intersection_table};
ghost use Rattle.filter.specs.Meanings.{IntersectionOf};
ghost use Rattle.filter.proofs.Lawful.{intersection_table_lawful};
ghost use Rattle.filter.proofs.CombinatorMeanings.{intersection_table_means};

use crate::{Automaton, PairState};

/// The keys that the left filter and the right one match.
#[derive(Clone, Copy, Debug, PartialEq, Eq, Drop)]
pub struct Intersection<F, G> {
    pub(crate) left: F,
    pub(crate) right: G,
}

impl<F: Automaton, G: Automaton> Automaton for Intersection<F, G> {
    type State = PairState<F::State, G::State>;

    ghost table = { λ f. intersection_table (F.table f.left) (G.table f.right) };

    ghost matching = { λ f. IntersectionOf (F.matching f.left) (G.matching f.right) };

    ghost accepting = { λ f. IntersectionOf (F.matching f.left) (G.matching f.right) };

    ghost lawful = { λ f. intersection_table_lawful _ _ (F.lawful f.left) (G.lawful f.right) };

    ghost means = { λ f. intersection_table_means _ _ _ _ _ _ (F.means f.left) (G.means f.right) };

    fn start(&self) -> Self::State {
        PairState {
            left: self.left.start(),
            right: self.right.start(),
        }
    }

    fn is_match(&self, state: Self::State) -> bool {
        self.left.is_match(state.left) && self.right.is_match(state.right)
    }

    fn can_match(&self, state: Self::State) -> bool {
        self.left.can_match(state.left) && self.right.can_match(state.right)
    }

    fn will_always_match(&self, state: Self::State) -> bool {
        self.left.will_always_match(state.left) && self.right.will_always_match(state.right)
    }

    fn accept(&self, state: Self::State, byte: u8) -> Self::State {
        PairState {
            left: self.left.accept(state.left, byte),
            right: self.right.accept(state.right, byte),
        }
    }

    fn accept_eof(&self, _state: Self::State) -> Option<Self::State> {
        None
    }
}
