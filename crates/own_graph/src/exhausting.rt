//! Callers that rest on the law of the search: counts of several searches, and a search that goes on where another stands.
ghost use Rattle.std.specs.Prelude.{◌≡◌, IfOk, true};
ghost use Rattle.law.specs.Theorems.{GivesNoEndState};
ghost use Rattle.law.specs.Calls.{Opened};
ghost use Rattle.search.specs.Queries.{bounds_of};
ghost use Rattle.search.specs.Views.{search_of, view_of};
ghost use Rattle.own_graph.specs.Exhausting.{IsExhausted, CountsAll};

use automaton::{AlwaysMatch, Automaton, PairState};
use graph::Graph;
use search::{Query, Refusal, Row, Search, complement_agrees, union_agrees};

/// A search called until its end.
pub(crate) fn exhaust<'b, G: Graph, A: Automaton>(
    query: Query<'b>,
    graph: &G,
    filter: &A,
    rows: &mut [Row<A::State>],
    key_area: &mut [u8],
) -> Result<Search<'b, A::State>, Refusal>
    ensures { let b = bounds_of query.entry in
        IfOk result (λ s. IsExhausted (G.table graph.now) (A.table filter.now) b.lower b.upper (search_of s)) }
{
    let mut search = opened(query, graph, filter, rows, key_area)?;
    'keys: while search.next(graph, filter, rows, key_area)?.is_some() {}
    Ok(search)
}

/// Whether the counts of either, both, the one and the other agree: they do, where the filters give no end state.
pub(crate) fn unions_agree<G: Graph, A: Automaton, B: Automaton>(
    graph: &G,
    one: &A,
    other: &B,
    lower: &[u8],
    one_rows: &mut [Row<A::State>],
    other_rows: &mut [Row<B::State>],
    rows: &mut [Row<PairState<A::State, B::State>>],
    key_area: &mut [u8],
) -> Result<bool, Refusal>
    ensures { IfOk result (λ r. GivesNoEndState (A.table one.now) → GivesNoEndState (B.table other.now) → r ≡ true) }
{
    let left = exhaust(Query::new().gt(lower), graph, one, one_rows, key_area)?;
    let right = exhaust(Query::new().gt(lower), graph, other, other_rows, key_area)?;
    let either = one.union(other);
    let both = one.intersection(other);
    let union = exhaust(Query::new().gt(lower), graph, &either, rows, key_area)?;
    let intersection = exhaust(Query::new().gt(lower), graph, &both, rows, key_area)?;
    Ok(union_agrees(&union, &intersection, &left, &right))
}

/// Whether the counts of a filter, of its complement and of the unfiltered search agree: they do, where the filter gives no end state.
pub(crate) fn complements_agree<G: Graph, A: Automaton>(
    graph: &G,
    filter: &A,
    upper: &[u8],
    rows: &mut [Row<A::State>],
    unfiltered_rows: &mut [Row<()>],
    key_area: &mut [u8],
) -> Result<bool, Refusal>
    ensures { IfOk result (λ r. GivesNoEndState (A.table filter.now) → r ≡ true) }
{
    let matching = exhaust(Query::new().le(upper), graph, filter, rows, key_area)?;
    let complement = filter.complement();
    let others = exhaust(Query::new().le(upper), graph, &complement, rows, key_area)?;
    let unfiltered = exhaust(
        Query::new().le(upper),
        graph,
        &AlwaysMatch,
        unfiltered_rows,
        key_area,
    )?;
    Ok(complement_agrees(&matching, &others, &unfiltered))
}

fn opened<'b, G: Graph, A: Automaton>(
    query: Query<'b>,
    graph: &G,
    filter: &A,
    rows: &mut [Row<A::State>],
    key_area: &mut [u8],
) -> Result<Search<'b, A::State>, Refusal>
    ensures { let b = bounds_of query.entry in
        IfOk result (λ s. Opened (G.table graph.now) (A.table filter.now) b.lower b.upper (view_of s rows.new key_area.new)) }
{
    match query.open(graph, filter, rows, key_area) {
        Ok(search) => Ok(search),
        Err(unopened) => Err(unopened.refusal),
    }
}

/// The count of all keys by a first search that stops at its first key, and one above that key.
pub(crate) fn count_by_two<G: Graph, A: Automaton>(
    graph: &G,
    filter: &A,
    rows: &mut [Row<A::State>],
    key_area: &mut [u8],
    more_rows: &mut [Row<A::State>],
    more_key_area: &mut [u8],
) -> Result<Option<u64>, Refusal>
    ensures { IfOk result (CountsAll (G.table graph.now) (A.table filter.now)) }
{
    let mut first = opened(Query::new(), graph, filter, rows, key_area)?;
    if first.next(graph, filter, rows, key_area)?.is_none() {
        return Ok(None);
    }
    let key = first.key(rows, key_area)?;
    let second = exhaust(
        Query::new().gt(key),
        graph,
        filter,
        more_rows,
        more_key_area,
    )?;
    Ok(Some(u64::from(first.close()) + u64::from(second.close())))
}
