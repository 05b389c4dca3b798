//! What is asked for, as a graph, a filter and a query.
ghost use Rattle.std.specs.Prelude.{◌≡◌, length};
ghost use Rattle.bound.specs.Value.{value_of};
ghost use Rattle.search.specs.Queries.{bounds_of};
ghost use Rattle.account.specs.Steps.{OpensList, ShiftsList};

use crate::refusal::AccountError;
use automaton::{
    Automaton, Intersection, PairState, StartsWith, StartsWithState, Str, Subsequence,
};
use bound::Bound;
use graph::Shift;
use list::List;
use names::Name;
use search::{Query, Row};
use std::alloc::Global;

/// A name has at most so many bytes.
pub(crate) const BYTES: usize = 255;

/// A name of so many bytes has a prefix more.
const ROWS: usize = 256;

/// The filter of the names with a prefix and a subsequence.
pub(crate) type Filter<'a> = Intersection<StartsWith<Str<'a>>, Subsequence<'a>>;

/// The states of that filter.
pub(crate) type State = PairState<StartsWithState<Option<usize>>, usize>;

/// The list of the names that rows cut out of a text, which is copied.
pub(crate) fn list_of(heap: Global, text: &[u8], rows: Vec<Name>) -> Result<List, AccountError>
    ensures { OpensList text.now rows.items result }
{
    Ok(List::open(Vec::from_slice(heap, text)?, rows)?)
}

/// The list with its totals raised by a number: its first total is 0, so that the sum fits.
pub(crate) fn shifted(list: List, by: u64) -> Result<Shift<List>, AccountError>
    ensures { ShiftsList list by result }
{
    Ok(Shift::new(list, by)?)
}

/// The names that begin with the prefix and hold the bytes of the subsequence in order.
pub(crate) fn filter_of<'a>(prefix: &'a [u8], subsequence: &'a [u8]) -> Filter<'a>
    ensures prefix { result.left.filter.bytes.now ≡ prefix.now }
    ensures subsequence { result.right.bytes.now ≡ subsequence.now }
{
    Str::new(prefix)
        .starts_with()
        .intersection(Subsequence::new(subsequence))
}

/// The query of the names within the bounds.
pub(crate) fn query_of<'a>(lower: Bound<'a>, upper: Bound<'a>) -> Query<'a>
    ensures { bounds_of result ≡ record { lower = value_of lower.entry; upper = value_of upper.entry } }
{
    let query = Query::new();
    let query = match lower {
        Bound::Unbounded => query,
        Bound::Included(bytes) => query.ge(bytes),
        Bound::Excluded(bytes) => query.gt(bytes),
    };
    match upper {
        Bound::Unbounded => query,
        Bound::Included(bytes) => query.le(bytes),
        Bound::Excluded(bytes) => query.lt(bytes),
    }
}

/// A row for each prefix of a name of 255 bytes, whatever it holds: a search writes it first.
pub(crate) fn rows_for(filter: &Filter<'_>) -> [Row<State>; ROWS]
    ensures { length result ≡ 256 }
{
    [Row {
        node: 0,
        position: 0,
        total: 0,
        state: filter.start(),
    }; ROWS]
}
