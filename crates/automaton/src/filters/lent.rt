//! A lent filter is a filter, with the same answers.
use crate::Automaton;

impl<F: Automaton> Automaton for &F {
    type State = F::State;

    ghost table = { λ f. F.table f.now };

    ghost matching = { λ f. F.matching f.now };

    ghost accepting = { λ f. F.accepting f.now };

    ghost lawful = { λ f. F.lawful f.now };

    ghost means = { λ f. F.means f.now };

    fn start(&self) -> Self::State {
        (**self).start()
    }

    fn is_match(&self, state: Self::State) -> bool {
        (**self).is_match(state)
    }

    fn can_match(&self, state: Self::State) -> bool {
        (**self).can_match(state)
    }

    fn will_always_match(&self, state: Self::State) -> bool {
        (**self).will_always_match(state)
    }

    fn accept(&self, state: Self::State, byte: u8) -> Self::State {
        (**self).accept(state, byte)
    }

    fn accept_eof(&self, state: Self::State) -> Option<Self::State> {
        (**self).accept_eof(state)
    }
}
