//! What filters over keys answer: their tables, laws and meanings stand in `specs/`, the proofs in `proofs/`.
//! The code is the two state types of the combinators.
#![tactic(auto)]

ghost use Rattle.filter.specs.Theorems.{ClosedStrAcceptsKeyBeforeSlash, SubsequenceStateAboveLengthStays};

/// The state of `StartsWith`: some prefix has matched, or the inner filter still runs.
/// No `Option`: `None` would say "has matched" here, and says "can match no more" in the state of `Str`.
#[derive(Clone, Copy, Debug, PartialEq, Eq)]
pub enum StartsWithState<S> {
    Done,
    Running(S),
}

/// The states of the two filters of a `Union` or an `Intersection`.
#[derive(Clone, Copy, Debug, PartialEq, Eq)]
pub struct PairState<S, R> {
    pub left: S,
    pub right: R,
}

/// Theorem: a `Subsequence` state above the length stays, whatever bytes follow, and does not match.
#[tactic(auto, using(crate::proofs::Runs::subsequence_run_stays))]
pub fn subsequence_state_above_length_stays()
    ensures { SubsequenceStateAboveLengthStays }
{}

/// Theorem: `Closed` over `Str` of "a/" accepts "a", at position 1, and does not accept "a/".
pub fn closed_str_accepts_key_before_slash()
    ensures { ClosedStrAcceptsKeyBeforeSlash }
{}
