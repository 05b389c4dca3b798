//! What the calls of a search answer, printed.
use automaton::Automaton;
use graph::Graph;
use search::{Query, Row, Search};
use std::fmt::Debug;
use std::io;

/// More calls of `next` than any search here takes.
const CALLS: usize = 9;

/// Prints the standing key, or why there is none.
pub(crate) fn show_key<S>(
    rt: &HostRuntime,
    search: &Search<'_, S>,
    rows: &[Row<S>],
    key_area: &[u8],
) -> io::Result<()> {
    match search.key(rows, key_area) {
        Ok(key) => print!(rt; "\"{}\"", key.escape_ascii()),
        Err(refusal) => print!(rt; "key refused {}", refusal.number()),
    }
}

/// Prints what a call of `next` answers, and says whether it was a key.
pub(crate) fn show_next<G: Graph, A: Automaton>(
    rt: &HostRuntime,
    graph: &G,
    filter: &A,
    search: &mut Search<'_, A::State>,
    rows: &mut [Row<A::State>],
    key_area: &mut [u8],
) -> io::Result<bool>
where
    A::State: Debug,
{
    match search.next(graph, filter, rows, key_area) {
        Ok(Some((length, total, state))) => {
            show_key(rt, search, rows, key_area)?;
            print!(rt; " {length} {total} {state:?}, ")?;
            Ok(true)
        }
        Ok(None) => {
            print!(rt; "end, ")?;
            Ok(false)
        }
        Err(refusal) => {
            print!(rt; "refused {}, ", refusal.number())?;
            Ok(false)
        }
    }
}

/// Prints all that a search still hands out, up to the end or the first refusal.
pub(crate) fn show_rest<G: Graph, A: Automaton>(
    rt: &HostRuntime,
    graph: &G,
    filter: &A,
    search: &mut Search<'_, A::State>,
    rows: &mut [Row<A::State>],
    key_area: &mut [u8],
) -> io::Result<()>
where
    A::State: Debug,
{
    for _ in 0..CALLS {
        if !show_next(rt, graph, filter, search, rows, key_area)? {
            return Ok(());
        }
    }
    print!(rt; "too many, ")
}

/// A row that holds nothing yet.
pub(crate) fn blank<S>(state: S) -> Row<S> {
    Row {
        node: 0,
        position: 0,
        total: 0,
        state,
    }
}

/// Prints a line of what a query hands out, with areas that suffice.
pub(crate) fn show<G: Graph, A: Automaton>(
    rt: &HostRuntime,
    title: &str,
    query: Query<'_>,
    graph: &G,
    filter: &A,
) -> io::Result<()>
where
    A::State: Debug,
{
    print!(rt; "{title}: ")?;
    let mut rows = vec![in rt.alloc(); blank(filter.start()); 9]?;
    let mut key_area = [0; 8];
    let rows = rows.as_mut_slice();
    match query.open(graph, filter, rows, &mut key_area) {
        Ok(mut search) => {
            show_rest(rt, graph, filter, &mut search, rows, &mut key_area)?;
            println!(rt; "count {}", search.close())
        }
        Err(unopened) => println!(rt; "refused {}", unopened.refusal.number()),
    }
}
