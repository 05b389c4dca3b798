//! The filter of the keys whose bytes have an even sum.
ghost use Rattle.own_graph.specs.EvenSum.{even_sum_table, HavingEvenSum};
ghost use Rattle.own_graph.specs.EvenSumLaws.{even_sum_table_is_lawful, even_sum_table_means};

use automaton::Automaton;

/// The keys whose bytes have an even sum: of the squares of a board, the dark ones.
#[derive(Clone, Copy, Debug, PartialEq, Eq)]
pub struct EvenSum;

impl Automaton for EvenSum {
    /// Whether the sum so far is even.
    type State = bool;

    ghost table = { λ _. even_sum_table };

    ghost matching = { λ _. HavingEvenSum };

    ghost accepting = { λ _. HavingEvenSum };

    ghost lawful = { λ _. even_sum_table_is_lawful };

    ghost means = { λ _. even_sum_table_means };

    fn start(&self) -> bool {
        true
    }

    fn is_match(&self, state: bool) -> bool {
        state
    }

    fn can_match(&self, _state: bool) -> bool {
        true
    }

    fn will_always_match(&self, _state: bool) -> bool {
        false
    }

    fn accept(&self, state: bool, byte: u8) -> bool {
        if byte % 2 == 0 { state } else { !state }
    }

    fn accept_eof(&self, _state: bool) -> Option<bool> {
        None
    }
}
