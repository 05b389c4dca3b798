//! Counting what a search lists, from the public clauses of its calls and the theorems of `law`.
ghost use Rattle.std.specs.Prelude.{IfOk, IfErr, length};
ghost use Rattle.law.specs.Open.{open_of};
ghost use Rattle.search.specs.Numbers.{number_of};
ghost use Rattle.search.specs.Queries.{bounds_of};
ghost use Rattle.own_graph.specs.Counting.{Counts, counted_by, CountsList, CannotCount, CountDetermined};

use automaton::Automaton;
use graph::Graph;
use search::{Query, Refusal, Row};

/// The number of accepted keys within the bounds of a query, over any graph and any filter.
/// Refused as `Query::open` (14 to 16), or as the first `Search::next` that is refused (14 to 17). Rows and key bytes are left as
/// the last of these calls leaves them.
pub fn count_listed<G: Graph, A: Automaton>(
    query: Query<'_>,
    graph: &G,
    filter: &A,
    rows: &mut [Row<A::State>],
    key_area: &mut [u8],
) -> Result<u32, Refusal>
    ensures run { let b = bounds_of query.entry in
        let o = open_of (G.table graph.now) (A.table filter.now) b.lower b.upper rows.old key_area.old in
        Counts (G.table graph.now) (A.table filter.now) o (counted_by result) rows.new key_area.new }
    ensures counted { let b = bounds_of query.entry in
        IfOk result (CountsList (G.table graph.now) (A.table filter.now) b.lower b.upper (length rows.old) (length key_area.old)) }
    ensures refused { let b = bounds_of query.entry in
        IfErr result (λ e. CannotCount (G.table graph.now) (A.table filter.now) b.lower b.upper (length rows.old) (length key_area.old) (number_of e)) }
{
    let mut search = match query.open(graph, filter, rows, key_area) {
        Ok(search) => search,
        Err(unopened) => return Err(unopened.refusal),
    };
    'keys: while search.next(graph, filter, rows, key_area)?.is_some() {}
    Ok(search.close())
}

/// Theorem: a count has one number or one refusal, by the numbers of rows and key bytes alone.
#[tactic(auto, using(crate::proofs::OneCount::count_determined))]
pub fn count_is_determined<S>()
    ensures { CountDetermined S }
{}
