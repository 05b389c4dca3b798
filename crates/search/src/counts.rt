//! What the counts of several exhausted searches say together.
ghost use Rattle.std.specs.Prelude.{◌≡◌, ◌+◌, ◌==◌};
ghost use Rattle.law.specs.Calls.{UnionLaw, ComplementLaw};
ghost use Rattle.search.specs.Views.{search_of, count_of};

use crate::search::Search;
use automaton::PairState;

fn together(left: u32, right: u32) -> u64
    ensures { result ≡ left + right }
{
    u64::from(left) + u64::from(right)
}

/// Whether the counts of a union and an intersection make up those of the one filter and of the other.
#[tactic(auto, using(law::proofs::Calls::union_law))]
pub fn union_agrees<S, R>(
    union: &Search<'_, PairState<S, R>>,
    intersection: &Search<'_, PairState<S, R>>,
    left: &Search<'_, S>,
    right: &Search<'_, R>,
) -> bool
    ensures answer { result ≡ (count_of union.now + count_of intersection.now == count_of left.now + count_of right.now) }
    ensures law { UnionLaw S R (search_of union.now) (search_of intersection.now) (search_of left.now) (search_of right.now) result }
{
    together(union.count, intersection.count) == together(left.count, right.count)
}

/// Whether the counts of a filter and of its complement make up that of the unfiltered search.
#[tactic(auto, using(law::proofs::Calls::complement_law))]
pub fn complement_agrees<S>(
    matching: &Search<'_, S>,
    others: &Search<'_, S>,
    unfiltered: &Search<'_, ()>,
) -> bool
    ensures answer { result ≡ (count_of matching.now + count_of others.now == count_of unfiltered.now) }
    ensures law { ComplementLaw S (search_of matching.now) (search_of others.now) (search_of unfiltered.now) result }
{
    together(matching.count, others.count) == u64::from(unfiltered.count)
}
