//! The lines of an account: the keys of a search, and the last line.
ghost use Rattle.search.specs.Queries.{bounds_of};
ghost use Rattle.account.specs.Tables.{graph_table, filter_table};
ghost use Rattle.account.specs.Steps.{Tells};

use crate::asked::{BYTES, Filter, rows_for};
use crate::printing::{push_end_line, push_key_line};
use crate::refusal::AccountError;
use graph::Shift;
use list::List;
use search::Query;

/// Adds the lines of all keys of a search and the last line.
pub(crate) fn push_lines(
    out: &mut Vec<u8>,
    query: Query<'_>,
    graph: &Shift<List>,
    filter: &Filter<'_>,
) -> Result<(), AccountError>
    ensures { Tells (graph_table graph.now) (filter_table filter.now) (bounds_of query.entry) result out.old.items out.new.items }
{
    // rows and key bytes enough for a name of 255 bytes
    let mut rows = rows_for(filter);
    let mut key_area = [0; BYTES];
    let mut search = query.open(graph, filter, &mut rows, &mut key_area)?;
    while let Some((length, total, _)) = search.next(graph, filter, &mut rows, &mut key_area)? {
        push_key_line(out, total, &key_area[..length])?;
    }
    push_end_line(out, search.close())?;
    Ok(())
}
