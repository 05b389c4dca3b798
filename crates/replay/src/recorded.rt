//! Filters and their states in the record's notation.
use crate::any_filter::{AnyFilter, AnyState, OverOne};
use crate::word::Word;
use automaton::{AlwaysMatch, Automaton, StartsWithState};
use std::alloc::AllocError;
use std::fmt::Write;

/// A filter that the record can name, and whose states it can show.
pub(crate) trait Recorded<'w>: Automaton + Copy {
    /// The filter that the first words say, and the words after them; or none.
    fn said(words: &'w [Word]) -> Option<(Self, &'w [Word])>;

    /// The filter that accepts every key.
    fn all() -> Self;

    /// A state, as the record shows it.
    fn show(&self, state: Self::State, text: &mut String) -> Result<(), AllocError>;
}

/// The innermost filter of a nested type.
impl<'w> Recorded<'w> for AlwaysMatch {
    fn said(words: &'w [Word]) -> Option<(AlwaysMatch, &'w [Word])> {
        match words.split_first()? {
            (Word::AlwaysMatch, rest) => Some((AlwaysMatch, rest)),
            _ => None,
        }
    }

    fn all() -> AlwaysMatch {
        AlwaysMatch
    }

    fn show(&self, _state: (), text: &mut String) -> Result<(), AllocError> {
        write!(text, "u")
    }
}

impl<'w, F: Recorded<'w>> Recorded<'w> for AnyFilter<'w, F> {
    fn said(words: &'w [Word]) -> Option<(AnyFilter<'w, F>, &'w [Word])> {
        let (word, rest) = words.split_first()?;
        match word {
            Word::Str(bytes) => Some((AnyFilter::Str(bytes.as_slice()), rest)),
            Word::Subsequence(bytes) => Some((AnyFilter::Subsequence(bytes.as_slice()), rest)),
            Word::AlwaysMatch => Some((AnyFilter::AlwaysMatch, rest)),
            Word::One(kind) => {
                let (filter, rest) = F::said(rest)?;
                Some((AnyFilter::One(*kind, filter), rest))
            }
            Word::Two(kind) => {
                let (left, rest) = F::said(rest)?;
                let (right, rest) = F::said(rest)?;
                Some((AnyFilter::Two(*kind, left, right), rest))
            }
        }
    }

    fn all() -> AnyFilter<'w, F> {
        AnyFilter::AlwaysMatch
    }

    fn show(&self, state: Self::State, text: &mut String) -> Result<(), AllocError> {
        match (self, state) {
            (_, AnyState::OfStr(None)) => write!(text, "none"),
            (_, AnyState::OfStr(Some(position))) => write!(text, "{position}"),
            (_, AnyState::OfSubsequence(found)) => write!(text, "{found}"),
            (_, AnyState::OfAlwaysMatch) => write!(text, "u"),
            (_, AnyState::OfStartsWith(StartsWithState::Done)) => write!(text, "done"),
            (AnyFilter::One(_, filter), AnyState::OfStartsWith(StartsWithState::Running(state))) =>
                {
                    write!(text, "run(")?;
                    filter.show(state, text)?;
                    write!(text, ")")
                }
            (AnyFilter::One(OverOne::Complement, filter), AnyState::OfInner(state)) => {
                write!(text, "not(")?;
                filter.show(state, text)?;
                write!(text, ")")
            }
            (AnyFilter::One(_, filter), AnyState::OfInner(state)) => filter.show(state, text),
            (AnyFilter::Two(_, left, right), AnyState::OfPair(states)) => {
                write!(text, "(")?;
                left.show(states.left, text)?;
                write!(text, ",")?;
                right.show(states.right, text)?;
                write!(text, ")")
            }
            // a state of another kind of filter
            _ => write!(text, "?"),
        }
    }
}

/// Filters nested up to four deep.
pub(crate) type FourDeep<'w> = AnyFilter<
    'w,
    AnyFilter<'w, AnyFilter<'w, AnyFilter<'w, AnyFilter<'w, AlwaysMatch>>>>,
>;
