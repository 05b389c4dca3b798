//! The law of the search. Nothing here runs: the contract of each function is a theorem about the definitions of specs/,
//! for all graphs, all filters whose states are of the named types, and all histories.
#![tactic(auto)]

ghost use Rattle.law.specs.Calls.{AnswerDetermined, OpenReasonDetermined};
ghost use Rattle.law.specs.Theorems.{HandedOutIsFront, PlaceIsKept, Determined, Listable, AlwaysBounded, ExhaustedListsAll};
ghost use Rattle.law.specs.Theorems.{UnionAndIntersectionCount, ComplementCount, ResumedListsTheRest, CanBeExhausted};

/// A row of the stack: a node on the way, where to go on from it, the total so far and the state of the filter.
#[derive(Clone, Copy, Debug, PartialEq, Eq)]
pub struct Row<S> {
    pub node: u32,
    pub position: usize,
    pub total: u64,
    pub state: S,
}

/// Theorem: what a search has handed out is the front of its list, and the next answer is the next entry.
pub fn handed_out_is_front_of_list<S>()
    ensures { HandedOutIsFront S }
{}

/// Theorem: graph, filter and bounds have one list only.
pub fn list_is_determined<S>()
    ensures { Determined S }
{}

/// Theorem: areas that serve a search leave it at its place.
pub fn place_is_kept<S>()
    ensures { PlaceIsKept S }
{}

/// Theorem: the law of `next` leaves one answer to a call after a history, and one place to go on from.
pub fn answer_is_determined<S>()
    ensures { AnswerDetermined S }
{}

/// Theorem: the reasons for which an opening is refused leave one number.
pub fn refusal_of_an_opening_is_determined()
    ensures { OpenReasonDetermined }
{}

/// Theorem: every lawful graph has a list, whatever the filter and the bounds.
pub fn every_lawful_graph_has_a_list<S>()
    ensures { Listable S }
{}

/// Theorem: the looks that a call of `next` takes are bounded, whatever the search and the areas hold.
pub fn looks_are_bounded<S>()
    ensures { AlwaysBounded S }
{}

/// Theorem: an exhausted search has handed out the whole list, and counted it.
pub fn exhausted_search_lists_all<S>()
    ensures { ExhaustedListsAll S }
{}

/// Theorem: with areas that suffice and totals and a count that fit, every history can be gone on to the end.
pub fn search_can_be_exhausted<S>()
    ensures { CanBeExhausted S }
{}

/// Theorem: union and intersection of two filters without end states count as many as the two.
pub fn union_and_intersection_count<A, B>()
    ensures { UnionAndIntersectionCount A B }
{}

/// Theorem: a filter without end states and its complement count as many as the unfiltered search.
pub fn complement_count<A>()
    ensures { ComplementCount A }
{}

/// Theorem: a search above a handed-out key hands out exactly the rest.
pub fn resumed_search_lists_the_rest<S>()
    ensures { ResumedListsTheRest S }
{}
