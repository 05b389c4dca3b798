//! What an input asks for.
use anyhow::{anyhow, bail};
use std::alloc::Global;

/// The kind of graph that is searched.
#[derive(Clone, Copy)]
pub(crate) enum Kind {
    List,
    Catalogue,
}

/// A graph, how it is searched, and how often.
#[derive(Drop)]
pub(crate) struct Task<'i> {
    pub(crate) kind: Kind,
    /// How often the time of each search is taken; at 0 no time is.
    pub(crate) rounds: u32,
    pub(crate) prefix: &'i [u8],
    pub(crate) subsequence: &'i [u8],
    /// The lower bounds of the openings.
    pub(crate) bounds: Vec<&'i [u8]>,
    /// The names, a line for each, or the bytes of the catalogue.
    pub(crate) graph: &'i [u8],
}

/// A line, and what follows it.
#[derive(Clone, Copy)]
struct Cut<'i> {
    line: &'i [u8],
    rest: &'i [u8],
}

/// The first line of a text and the rest of it.
fn cut_line(text: &[u8]) -> anyhow::Result<Cut<'_>> {
    let Some(end) = text.iter().position(|byte| *byte == b'\n') else {
        bail!("a line that no line feed ends");
    };
    Ok(Cut {
        line: &text[..end],
        rest: &text[end + 1..],
    })
}

/// The kind of graph that a word names.
fn kind_of(word: &str) -> anyhow::Result<Kind> {
    match word {
        "list" => Ok(Kind::List),
        "catalogue" => Ok(Kind::Catalogue),
        _ => bail!("no kind of graph: {word:?}"),
    }
}

/// What the first line says.
#[derive(Clone, Copy)]
struct First {
    kind: Kind,
    rounds: u32,
    bytes: usize,
}

impl First {
    fn read(line: &[u8]) -> anyhow::Result<First> {
        let mut words = str::from_utf8(line)?.split(' ');
        let (Some(kind), Some(rounds), Some(bytes)) = (words.next(), words.next(), words.next())
        else {
            bail!("a first line of fewer than three words");
        };
        Ok(First {
            kind: kind_of(kind)?,
            rounds: rounds.parse()?,
            bytes: bytes.parse()?,
        })
    }
}

impl<'i> Task<'i> {
    /// Takes in a line behind the first; whether more lines follow.
    fn take(&mut self, line: &'i [u8]) -> anyhow::Result<bool> {
        match line {
            [] => return Ok(false),
            [b'P', prefix @ ..] => self.prefix = prefix,
            [b'S', subsequence @ ..] => self.subsequence = subsequence,
            [b'G', bound @ ..] => self.bounds.push(bound)?,
            _ => bail!("a line that says nothing"),
        }
        Ok(true)
    }

    /// The lines of a task up to the empty one, and what follows them.
    fn read_lines(&mut self, text: &'i [u8]) -> anyhow::Result<&'i [u8]> {
        let mut text = text;
        for _ in 0..u64::MAX {
            let Cut { line, rest } = cut_line(text)?;
            text = rest;
            if !self.take(line)? {
                break;
            }
        }
        Ok(text)
    }

    /// Takes a task off an input: kind of graph, rounds and bytes of the graph, then lines by their first character up to an empty one, then the graph.
    pub(crate) fn read(heap: Global, input: &mut &'i [u8]) -> anyhow::Result<Task<'i>> {
        let Cut { line, rest } = cut_line(*input)?;
        let First {
            kind,
            rounds,
            bytes,
        } = First::read(line)?;
        let mut task = Task {
            kind,
            rounds,
            prefix: b"",
            subsequence: b"",
            bounds: Vec::new(heap),
            graph: b"",
        };
        let rest = task.read_lines(rest)?;
        let (graph, rest) = rest
            .split_at_checked(bytes)
            .ok_or_else(|| anyhow!("a graph that is cut off"))?;
        task.graph = graph;
        *input = rest;
        Ok(task)
    }
}
