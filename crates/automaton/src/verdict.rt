//! The run of a filter over a key, and its verdict.
ghost use Rattle.std.specs.Prelude.{◌≡◌, Decides};
ghost use Rattle.filter.specs.Filter.{run, verdict_at, verdict};
ghost use Rattle.filter.specs.Meanings.{CannotMatchAfter, AlwaysMatchesAfter};

use crate::Automaton;

/// The state after the bytes of a key, and what it says of every key that begins with them.
pub fn run<F: Automaton>(filter: &F, key: &[u8]) -> F::State
    ensures answer { result ≡ run (F.table filter.now) (F.table filter.now).start key.now }
    ensures cannot_match { CannotMatchAfter (F.table filter.now) (F.matching filter.now) (F.accepting filter.now) key.now }
    ensures always_matches { AlwaysMatchesAfter (F.table filter.now) (F.matching filter.now) key.now }
{
    key.iter()
        .fold(filter.start(), |state, &byte| filter.accept(state, byte))
}

/// The verdict at a state: by the end state if the filter gives one, else by the state itself.
pub fn verdict_at<F: Automaton>(filter: &F, state: F::State) -> bool
    ensures { result ≡ verdict_at (F.table filter.now) state }
{
    filter.is_match(filter.accept_eof(state).unwrap_or(state))
}

/// The verdict on a key: yes exactly if the key is one that the filter means to accept.
pub fn accepts<F: Automaton>(filter: &F, key: &[u8]) -> bool
    ensures answer { result ≡ verdict (F.table filter.now) key.now }
    ensures meaning { Decides result (F.accepting filter.now key.now) }
{
    verdict_at(filter, run(filter, key))
}
