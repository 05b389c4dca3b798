//! A case, run through a graph: the answers of the search, as the record writes them.
use crate::areas::{Areas, Growth, MOST_GROWTH, Room, depth};
use crate::case::{Answers, Case};
use crate::notation::write_bytes;
use crate::recorded::Recorded;
use graph::Graph;
use search::{Item, Query, Refusal, Row, Search, Unopened};
use std::alloc::{AllocError, Global};
use std::fmt::Write;

/// A case with the graph, the filter and the room that it is run with, and the filter that accepts every key.
// one type for both filters: a search is asked with the one and then with the other
#[derive(Drop)]
pub(crate) struct Run<'r, G, F> {
    pub(crate) heap: Global,
    pub(crate) graph: &'r G,
    pub(crate) filter: &'r F,
    pub(crate) all: &'r F,
    pub(crate) room: Room,
    pub(crate) case: &'r Case,
}

impl<'r, 'w, G: Graph, F: Recorded<'w>> Run<'r, G, F> {
    fn areas(&self) -> Result<Areas<F::State>, AllocError> {
        let blank = Row {
            node: self.graph.root(),
            position: 0,
            total: 0,
            state: self.filter.start(),
        };
        Areas::new(self.heap, self.room, blank)
    }

    fn try_open(
        &self,
        query: Query<'r>,
        areas: &mut Areas<F::State>,
    ) -> Result<Search<'r, F::State>, Unopened<'r>> {
        query.open(
            self.graph,
            self.filter,
            areas.rows.as_mut_slice(),
            areas.key_area.as_mut_slice(),
        )
    }

    /// The opened search. A query that is handed back is tried again as often as the areas grow.
    fn open(
        &self,
        with_upper: bool,
        areas: &mut Areas<F::State>,
    ) -> Result<Result<Search<'r, F::State>, Refusal>, AllocError> {
        let mut query = self.case.query(with_upper);
        for _ in 0..MOST_GROWTH {
            match self.try_open(query, areas) {
                Ok(search) => return Ok(Ok(search)),
                Err(unopened) => {
                    if !areas.grow(unopened.refusal)? {
                        return Ok(Err(unopened.refusal));
                    }
                    query = unopened.query;
                }
            }
        }
        let opened = self.try_open(query, areas);
        Ok(opened.map_err(|unopened| unopened.refusal))
    }

    fn try_next(
        &self,
        search: &mut Search<'r, F::State>,
        filter: &F,
        areas: &mut Areas<F::State>,
    ) -> Result<Option<Item<F::State>>, Refusal> {
        search.next(
            self.graph,
            filter,
            areas.rows.as_mut_slice(),
            areas.key_area.as_mut_slice(),
        )
    }

    /// The next key, or the end. A refused call is tried again as often as the areas grow.
    fn next(
        &self,
        search: &mut Search<'r, F::State>,
        filter: &F,
        areas: &mut Areas<F::State>,
    ) -> Result<Result<Option<Item<F::State>>, Refusal>, AllocError> {
        let mut answer = self.try_next(search, filter, areas);
        for _ in 0..MOST_GROWTH {
            match answer {
                Err(refusal) if areas.grow(refusal)? => {
                    answer = self.try_next(search, filter, areas);
                }
                _ => break,
            }
        }
        Ok(answer)
    }

    /// The total that waits after `calls` calls of `next`: a second search, with no upper bound, hands it out first
    /// under the filter that accepts every key.
    fn waiting(&self, calls: usize) -> Result<Option<u64>, AllocError> {
        let mut areas = self.areas()?;
        let Ok(mut search) = self.open(false, &mut areas)? else {
            return Ok(None);
        };
        for _ in 0..calls {
            let _ = self.next(&mut search, self.filter, &mut areas)?;
        }
        Ok(match self.next(&mut search, self.all, &mut areas)? {
            Ok(Some((0, total, _))) => Some(total),
            _ => None,
        })
    }

    fn write_rows(&self, text: &mut String, rows: &[Row<F::State>]) -> Result<(), AllocError> {
        if rows.is_empty() {
            return write!(text, "-");
        }
        for (number, row) in rows.iter().enumerate() {
            if number > 0 {
                write!(text, "|")?;
            }
            write!(text, "{}:{}:", row.position, row.total)?;
            self.filter.show(row.state, text)?;
        }
        Ok(())
    }

    /// The rest of a line: in a case with rows, what stands in the areas after `calls` calls of `next`.
    fn end_line(
        &self,
        text: &mut String,
        search: &Search<'r, F::State>,
        areas: &Areas<F::State>,
        calls: usize,
    ) -> Result<(), AllocError> {
        if self.case.with_rows {
            let depth = depth(search, areas);
            write!(text, " depth={depth} key=")?;
            let bytes = areas.key_area.as_slice().get(..depth.saturating_sub(1));
            write_bytes(text, bytes.unwrap_or(b""))?;
            match self.waiting(calls)? {
                Some(total) => write!(text, " waiting={total} rows=")?,
                None => write!(text, " waiting=- rows=")?,
            }
            self.write_rows(text, areas.rows.as_slice().get(..depth).unwrap_or(&[]))?;
        }
        text.push('\n')
    }

    /// A key that was handed out: what `key` gives, the total and the state.
    fn write_key(
        &self,
        text: &mut String,
        key: Result<&[u8], Refusal>,
        total: u64,
        state: F::State,
    ) -> Result<(), AllocError> {
        match key {
            Ok(key) => write_bytes(text, key)?,
            Err(refusal) => write!(text, "refused {}", refusal.number())?,
        }
        write!(text, " {total} ")?;
        self.filter.show(state, text)
    }

    /// The word before an answer, in a case with rows.
    pub(crate) fn write_word(&self, text: &mut String) -> Result<(), AllocError> {
        if self.case.with_rows {
            write!(text, "next ")?;
        }
        Ok(())
    }

    /// The answer to a call of `next`, and whether it is a key.
    fn write_answer(
        &self,
        text: &mut String,
        search: &mut Search<'r, F::State>,
        areas: &mut Areas<F::State>,
    ) -> Result<bool, AllocError> {
        match self.next(search, self.filter, areas)? {
            Ok(Some((length, total, state))) => {
                self.write_word(text)?;
                let key = search.key(areas.rows.as_slice(), areas.key_area.as_slice());
                if key.map(|key| key.len()) != Ok(length) {
                    write!(text, "of length {length} ")?;
                }
                self.write_key(text, key, total, state)?;
                Ok(true)
            }
            Ok(None) => {
                if self.case.with_rows {
                    write!(text, "next end")?;
                }
                Ok(false)
            }
            Err(refusal) => {
                write!(text, "refused {}", refusal.number())?;
                Ok(false)
            }
        }
    }

    /// All answers of the search, the opening's rows first, and how its areas grew.
    pub(crate) fn answers(&self) -> Result<(Answers, Growth), AllocError> {
        let mut text = String::new(self.heap);
        let mut areas = self.areas()?;
        let mut search = match self.open(true, &mut areas)? {
            Ok(search) => search,
            Err(refusal) => {
                writeln!(text, "refused {}", refusal.number())?;
                return Ok((Answers { text, count: 0 }, areas.growth));
            }
        };
        if self.case.with_rows {
            write!(text, "open")?;
            self.end_line(&mut text, &search, &areas, 0)?;
        }
        // a search that goes on for longer than the record differs from it
        for calls in 1..=self.case.most_calls() {
            let goes_on = self.write_answer(&mut text, &mut search, &mut areas)?;
            if goes_on || self.case.with_rows {
                self.end_line(&mut text, &search, &areas, calls)?;
            }
            if !goes_on {
                break;
            }
        }
        for _ in 0..2 {
            if !matches!(self.next(&mut search, self.filter, &mut areas)?, Ok(None)) {
                writeln!(text, "more after the end")?;
            }
        }
        let count = search.close();
        Ok((Answers { text, count }, areas.growth))
    }
}
