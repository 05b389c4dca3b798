//! A filter that counts the bytes that it reads.
use automaton::Automaton;
use std::cell::Cell;

/// A filter with the same answers, which counts the bytes that it accepts.
#[derive(Drop)]
pub(crate) struct Counted<'c, F> {
    pub(crate) filter: &'c F,
    pub(crate) bytes: &'c Cell<u64>,
}

impl<F: Automaton> Automaton for Counted<'_, F> {
    type State = F::State;

    ghost table = { λ f. F.table f.filter.now };

    ghost matching = { λ f. F.matching f.filter.now };

    ghost accepting = { λ f. F.accepting f.filter.now };

    ghost lawful = { λ f. F.lawful f.filter.now };

    ghost means = { λ f. F.means f.filter.now };

    fn start(&self) -> Self::State {
        self.filter.start()
    }

    fn is_match(&self, state: Self::State) -> bool {
        self.filter.is_match(state)
    }

    fn can_match(&self, state: Self::State) -> bool {
        self.filter.can_match(state)
    }

    fn will_always_match(&self, state: Self::State) -> bool {
        self.filter.will_always_match(state)
    }

    fn accept(&self, state: Self::State, byte: u8) -> Self::State {
        self.bytes.set(self.bytes.get().wrapping_add(1));
        self.filter.accept(state, byte)
    }

    fn accept_eof(&self, state: Self::State) -> Option<Self::State> {
        self.filter.accept_eof(state)
    }
}
