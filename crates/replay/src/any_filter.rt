//! A filter of any of the eight kinds, so that a filter read from a text has a type.
ghost use Rattle.std.specs.Prelude.{◌≡◌};
ghost use Rattle.replay.specs.AnyFilters.{any_table, any_matching, any_accepting};
ghost use Rattle.replay.specs.Laws.{any_lawful, any_means};

use automaton::{AlwaysMatch, Automaton, Closed, PairState, StartsWithState, Str, Subsequence};

/// A kind of filter that holds one other.
#[derive(Clone, Copy)]
pub(crate) enum OverOne {
    StartsWith,
    Complement,
    Closed,
}

/// A kind of filter that holds two others.
#[derive(Clone, Copy)]
pub(crate) enum OverTwo {
    Union,
    Intersection,
}

/// A filter of any kind over filters of one type; nested, it is a filter as deep as its type.
// the kinds that hold others are two cases: with a case for each, a nested type has more parts than the check takes
#[derive(Clone, Copy)]
pub(crate) enum AnyFilter<'w, F> {
    Str(&'w [u8]),
    Subsequence(&'w [u8]),
    AlwaysMatch,
    One(OverOne, F),
    Two(OverTwo, F, F),
}

/// The state of a filter of any kind; a state of another kind stays as it is, and never matches.
#[derive(Clone, Copy)]
pub(crate) enum AnyState<S> {
    OfStr(Option<usize>),
    OfSubsequence(usize),
    OfAlwaysMatch,
    OfStartsWith(StartsWithState<S>),
    OfPair(PairState<S, S>),
    OfInner(S),
}

macro_rules! ask {
    ($filter:expr, $state:expr, $question:ident) => {
        match ($filter, $state) {
            (AnyFilter::Str(bytes), AnyState::OfStr(state)) => Str::new(bytes).$question(state),
            (AnyFilter::Subsequence(bytes), AnyState::OfSubsequence(state)) => {
                Subsequence::new(bytes).$question(state)
            }
            (AnyFilter::AlwaysMatch, AnyState::OfAlwaysMatch) => AlwaysMatch.$question(()),
            (AnyFilter::One(OverOne::StartsWith, filter), AnyState::OfStartsWith(state)) => {
                filter.starts_with().$question(state)
            }
            (AnyFilter::Two(OverTwo::Union, left, right), AnyState::OfPair(state)) => {
                left.union(right).$question(state)
            }
            (AnyFilter::Two(OverTwo::Intersection, left, right), AnyState::OfPair(state)) => {
                left.intersection(right).$question(state)
            }
            (AnyFilter::One(OverOne::Complement, filter), AnyState::OfInner(state)) => {
                filter.complement().$question(state)
            }
            (AnyFilter::One(OverOne::Closed, filter), AnyState::OfInner(state)) => {
                Closed::new(filter).$question(state)
            }
            _ => false,
        }
    };
}

impl<F: Automaton> Automaton for AnyFilter<'_, F> {
    type State = AnyState<F::State>;

    ghost table = { λ f. any_table F.table f };

    ghost matching = { λ f. any_matching F.matching f };

    ghost accepting = { λ f. any_accepting F.matching f };

    ghost lawful = { λ f. any_lawful F.table F.lawful f };

    ghost means = { λ f. any_means F.table F.matching F.accepting F.means f };

    fn start(&self) -> Self::State {
        match self {
            AnyFilter::Str(bytes) => AnyState::OfStr(Str::new(bytes).start()),
            AnyFilter::Subsequence(bytes) => {
                AnyState::OfSubsequence(Subsequence::new(bytes).start())
            }
            AnyFilter::AlwaysMatch => AnyState::OfAlwaysMatch,
            AnyFilter::One(OverOne::StartsWith, filter) => AnyState::OfStartsWith(
                filter.starts_with().start(),
            ),
            AnyFilter::Two(OverTwo::Union, left, right) => AnyState::OfPair(
                left.union(right).start(),
            ),
            AnyFilter::Two(OverTwo::Intersection, left, right) => {
                AnyState::OfPair(left.intersection(right).start())
            }
            AnyFilter::One(OverOne::Complement, filter) => AnyState::OfInner(
                filter.complement().start(),
            ),
            AnyFilter::One(OverOne::Closed, filter) => AnyState::OfInner(Closed::new(
                filter,
            ).start()),
        }
    }

    fn is_match(&self, state: Self::State) -> bool {
        ask!(self, state, is_match)
    }

    fn can_match(&self, state: Self::State) -> bool {
        ask!(self, state, can_match)
    }

    fn will_always_match(&self, state: Self::State) -> bool {
        ask!(self, state, will_always_match)
    }

    fn accept(&self, state: Self::State, byte: u8) -> Self::State {
        match (self, state) {
            (AnyFilter::Str(bytes), AnyState::OfStr(state)) => {
                AnyState::OfStr(Str::new(bytes).accept(state, byte))
            }
            (AnyFilter::Subsequence(bytes), AnyState::OfSubsequence(state)) => {
                AnyState::OfSubsequence(Subsequence::new(bytes).accept(state, byte))
            }
            (AnyFilter::One(OverOne::StartsWith, filter), AnyState::OfStartsWith(state)) => {
                AnyState::OfStartsWith(filter.starts_with().accept(state, byte))
            }
            (AnyFilter::Two(OverTwo::Union, left, right), AnyState::OfPair(state)) => {
                AnyState::OfPair(left.union(right).accept(state, byte))
            }
            (AnyFilter::Two(OverTwo::Intersection, left, right), AnyState::OfPair(state)) => {
                AnyState::OfPair(left.intersection(right).accept(state, byte))
            }
            (AnyFilter::One(OverOne::Complement, filter), AnyState::OfInner(state)) => {
                AnyState::OfInner(filter.complement().accept(state, byte))
            }
            (AnyFilter::One(OverOne::Closed, filter), AnyState::OfInner(state)) => {
                AnyState::OfInner(Closed::new(filter).accept(state, byte))
            }
            // no step changes the state of `AlwaysMatch`
            _ => state,
        }
    }

    fn accept_eof(&self, state: Self::State) -> Option<Self::State> {
        match (self, state) {
            (AnyFilter::One(OverOne::Closed, filter), AnyState::OfInner(state)) => {
                Closed::new(filter).accept_eof(state).map(AnyState::OfInner)
            }
            // no other kind gives an end state
            _ => None,
        }
    }
}
