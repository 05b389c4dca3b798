//! What the counts of several searches say together.
use crate::showing::blank;
use automaton::{AlwaysMatch, Automaton, Closed, PairState, Str, Subsequence};
use list::List;
use search::{Query, Search, complement_agrees, union_agrees};
use std::io;

/// A search after `calls` calls of `next`, or none if it was not opened or a call was refused.
fn called<'b, A: Automaton>(
    rt: &HostRuntime,
    query: Query<'b>,
    list: &List,
    filter: &A,
    calls: usize,
) -> io::Result<Option<Search<'b, A::State>>> {
    let mut rows = vec![in rt.alloc(); blank(filter.start()); 3]?;
    let mut key_area = [0; 2];
    let rows = rows.as_mut_slice();
    let Ok(mut search) = query.open(list, filter, rows, &mut key_area) else {
        return Ok(None);
    };
    for _ in 0..calls {
        if search.next(list, filter, rows, &mut key_area).is_err() {
            return Ok(None);
        }
    }
    Ok(Some(search))
}

/// The counts of two filters, of the one or the other, and of both.
fn show_union<S, R>(
    rt: &HostRuntime,
    union: Option<Search<'_, PairState<S, R>>>,
    both: Option<Search<'_, PairState<S, R>>>,
    one: Option<Search<'_, S>>,
    other: Option<Search<'_, R>>,
) -> io::Result<()> {
    let (Some(union), Some(both), Some(one), Some(other)) = (union, both, one, other) else {
        return println!(rt; "no searches");
    };
    let agrees = union_agrees(&union, &both, &one, &other);
    print!(rt; "union {}, intersection {}, ", union.close(), both.close())?;
    println!(rt;
        "one {}, other {}, agrees {agrees}",
        one.close(),
        other.close()
    )
}

/// The counts of a filter, of its complement, and of no filter.
fn show_complement<S>(
    rt: &HostRuntime,
    matching: Option<Search<'_, S>>,
    others: Option<Search<'_, S>>,
    all: Option<Search<'_, ()>>,
) -> io::Result<()> {
    let (Some(matching), Some(others), Some(all)) = (matching, others, all) else {
        return println!(rt; "no searches");
    };
    let agrees = complement_agrees(&matching, &others, &all);
    print!(rt;
        "matching {}, others {}, ",
        matching.close(),
        others.close()
    )?;
    println!(rt; "all {}, agrees {agrees}", all.close())
}

/// Two filters without end states, of which the union may not be exhausted.
fn show_endless(rt: &HostRuntime, list: &List, calls: usize) -> io::Result<()> {
    let (one, other) = (Str::new(b"ab"), Subsequence::new(b"b"));
    show_union(
        rt,
        called(rt, Query::new(), list, &one.union(other), calls)?,
        called(rt, Query::new(), list, &one.intersection(other), 5)?,
        called(rt, Query::new(), list, &one, 5)?,
        called(rt, Query::new(), list, &other, 5)?,
    )?;
    show_complement(
        rt,
        called(rt, Query::new(), list, &one, 5)?,
        called(rt, Query::new(), list, &one.complement(), 5)?,
        called(rt, Query::new(), list, &AlwaysMatch, calls)?,
    )
}

/// A filter with end states, for which the combinators do not ask.
fn show_closed(rt: &HostRuntime, list: &List) -> io::Result<()> {
    let closed = Closed::new(Str::new(b"a/"));
    show_union(
        rt,
        called(rt, Query::new(), list, &closed.union(closed), 5)?,
        called(rt, Query::new(), list, &closed.intersection(closed), 5)?,
        called(rt, Query::new(), list, &closed, 5)?,
        called(rt, Query::new(), list, &closed, 5)?,
    )?;
    show_complement(
        rt,
        called(rt, Query::new(), list, &closed, 5)?,
        called(rt, Query::new(), list, &closed.complement(), 5)?,
        called(rt, Query::new(), list, &AlwaysMatch, 5)?,
    )
}

pub(crate) fn show_counts(rt: &HostRuntime, list: &List) -> io::Result<()> {
    show_endless(rt, list, 5)?;
    show_endless(rt, list, 1)?;
    show_closed(rt, list)
}
