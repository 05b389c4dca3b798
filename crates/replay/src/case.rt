//! A recorded case: what was searched, and what the original answered.
use crate::notation::{read_bytes, read_packed};
use crate::word::{Word, read_words};
use anyhow::{Context, bail};
use bound::{Bound, within};
use names::Name;
use search::Query;
use std::alloc::{AllocError, Global};

/// A call that sets a bound.
#[derive(Clone, Copy)]
enum Call {
    Ge,
    Gt,
    Le,
    Lt,
}

/// A call that sets a bound, and its bytes.
#[derive(Drop)]
struct BoundCall {
    call: Call,
    bytes: Vec<u8>,
}

/// The names of a list, as it is opened.
#[derive(Drop)]
pub(crate) struct Names {
    pub(crate) text: Vec<u8>,
    pub(crate) rows: Vec<Name>,
}

/// What is searched: the bytes of a catalogue, and the names, where a list of them answers the same.
#[derive(Drop)]
pub(crate) struct Graphs {
    pub(crate) catalogue: Vec<u8>,
    pub(crate) names: Option<Names>,
}

/// Lines of answers, and the count at the end.
#[derive(PartialEq, Drop)]
pub(crate) struct Answers {
    pub(crate) text: String,
    pub(crate) count: u32,
}

/// A case, but for what is searched.
#[derive(Drop)]
pub(crate) struct Case {
    /// What the record says of it, to be shown.
    pub(crate) head: String,
    /// Whether the record has the rows beside the answers.
    pub(crate) with_rows: bool,
    pub(crate) words: Vec<Word>,
    // in the order in which they were set
    bounds: Vec<BoundCall>,
    /// What the original answered.
    pub(crate) answers: Answers,
}

fn read_bounds(heap: Global, text: &str) -> anyhow::Result<Vec<BoundCall>> {
    let mut bounds = Vec::new(heap);
    if text == "-" {
        return Ok(bounds);
    }
    for bound in text.split(',') {
        let (call, bytes) = bound.split_once(':').context("a bound without bytes")?;
        let call = match call {
            "ge" => Call::Ge,
            "gt" => Call::Gt,
            "le" => Call::Le,
            "lt" => Call::Lt,
            _ => bail!("no bound: {call}"),
        };
        let bytes = read_bytes(heap, bytes)?;
        bounds.push(BoundCall { call, bytes })?;
    }
    Ok(bounds)
}

/// The names one after the other in a text, and where each stands in it.
fn read_names(heap: Global, text: &str) -> anyhow::Result<Option<Names>> {
    if text == "-" {
        return Ok(None);
    }
    let mut names = Names {
        text: Vec::new(heap),
        rows: Vec::new(heap),
    };
    for name in text.split(',') {
        let bytes = read_bytes(heap, name)?;
        let place = u32::try_from(names.text.len())?;
        let length = u32::try_from(bytes.len())?;
        names.text.extend_from_slice(bytes.as_slice())?;
        names.rows.push(Name { place, length })?;
    }
    Ok(Some(names))
}

/// A case by its first line, with no answers yet, and what is searched.
pub(crate) fn read_case(heap: Global, head: &str) -> anyhow::Result<(Case, Graphs)> {
    let short = "a case has five parts";
    let (verb, rest) = head.split_once(' ').context(short)?;
    let (catalogue, rest) = rest.split_once(' ').context(short)?;
    let (names, rest) = rest.split_once(' ').context(short)?;
    let (bounds, filter) = rest.split_once(' ').context(short)?;
    let case = Case {
        head: String::from_str(heap, head)?,
        with_rows: verb == "rows",
        words: read_words(heap, filter)?,
        bounds: read_bounds(heap, bounds)?,
        answers: Answers {
            text: String::new(heap),
            count: 0,
        },
    };
    let graphs = Graphs {
        catalogue: read_packed(heap, catalogue)?,
        names: read_names(heap, names)?,
    };
    Ok((case, graphs))
}

impl Case {
    /// One line more of the original's answers.
    pub(crate) fn add_answer(&mut self, line: &str) -> Result<(), AllocError> {
        self.answers.text.push_str(line)?;
        self.answers.text.push('\n')
    }

    /// In a case with rows, the line of the opening, and the lines after it.
    pub(crate) fn opening_and_rest(&self) -> (&str, &str) {
        let text = self.answers.text.as_str();
        match text.split_once('\n') {
            Some(parts) if self.with_rows => parts,
            _ => ("", text),
        }
    }

    /// A call of `next` for each line of the record, and one more.
    pub(crate) fn most_calls(&self) -> usize {
        let lines = self.answers.text.as_str().lines();
        lines.count().saturating_add(1)
    }

    /// The query with its bounds, or with the lower ones alone.
    pub(crate) fn query(&self, with_upper: bool) -> Query<'_> {
        let mut query = Query::new();
        for BoundCall { call, bytes } in &self.bounds {
            let bytes = bytes.as_slice();
            query = match call {
                Call::Ge => query.ge(bytes),
                Call::Gt => query.gt(bytes),
                Call::Le if with_upper => query.le(bytes),
                Call::Lt if with_upper => query.lt(bytes),
                _ => query,
            };
        }
        query
    }

    /// Whether the bounds let the empty key in.
    pub(crate) fn lets_empty_key_in(&self) -> bool {
        let mut lower = Bound::Unbounded;
        let mut upper = Bound::Unbounded;
        for BoundCall { call, bytes } in &self.bounds {
            let bytes = bytes.as_slice();
            match call {
                Call::Ge => lower = Bound::Included(bytes),
                Call::Gt => lower = Bound::Excluded(bytes),
                Call::Le => upper = Bound::Included(bytes),
                Call::Lt => upper = Bound::Excluded(bytes),
            }
        }
        within(lower, upper, b"")
    }
}
