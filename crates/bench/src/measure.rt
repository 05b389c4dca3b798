//! The searches that are measured.
use crate::areas::Areas;
use crate::counted::Counted;
use crate::task::Task;
use anyhow::anyhow;
use automaton::{AlwaysMatch, Automaton, Str, Subsequence};
use graph::Graph;
use search::{Query, Refusal};
use std::cell::Cell;
use std::time::{Duration, Instant};

/// How many keys were handed out, and the sum of their lengths and totals, by which two runs can be compared.
#[derive(Clone, Copy)]
pub(crate) struct Found {
    keys: u64,
    sum: u64,
}

impl Found {
    const NOTHING: Found = Found { keys: 0, sum: 0 };

    fn add(&mut self, length: usize, total: u64) {
        self.keys = self.keys.wrapping_add(1);
        self.sum = self.sum.wrapping_add(total).wrapping_add(length as u64);
    }
}

/// Hands out all keys that a filter accepts.
fn exhaust<G: Graph, A: Automaton>(
    graph: &G,
    filter: &A,
    areas: &mut Areas<A::State>,
) -> Result<Found, Refusal> {
    let rows = areas.rows.as_mut_slice();
    let key_area = areas.key_area.as_mut_slice();
    let mut search = match Query::new().open(graph, filter, rows, key_area) {
        Ok(search) => search,
        Err(unopened) => return Err(unopened.refusal),
    };
    let mut found = Found::NOTHING;
    for _ in 0..u64::MAX {
        let Some((_, total, _)) = search.next(graph, filter, rows, key_area)? else {
            break;
        };
        // the key itself is read, as the stream of the original hands it out
        found.add(search.key(rows, key_area)?.len(), total);
    }
    Ok(found)
}

/// Opens a search at a lower bound, and adds the first key that it hands out.
fn open_at<G: Graph>(
    graph: &G,
    bound: &[u8],
    areas: &mut Areas<()>,
    found: &mut Found,
) -> Result<(), Refusal> {
    let rows = areas.rows.as_mut_slice();
    let key_area = areas.key_area.as_mut_slice();
    let mut search = match Query::new()
        .ge(bound)
        .open(graph, &AlwaysMatch, rows, key_area)
    {
        Ok(search) => search,
        Err(unopened) => return Err(unopened.refusal),
    };
    if let Some((length, total, ())) = search.next(graph, &AlwaysMatch, rows, key_area)? {
        found.add(length, total);
    }
    Ok(())
}

/// Opens a search at each of the lower bounds.
fn open_each<G: Graph>(
    graph: &G,
    bounds: &[&[u8]],
    areas: &mut Areas<()>,
) -> Result<Found, Refusal> {
    let mut found = Found::NOTHING;
    for bound in bounds {
        open_at(graph, bound, areas, &mut found)?;
    }
    Ok(found)
}

/// A graph, and what is done with it.
#[derive(Drop)]
pub(crate) struct Bench<'b, G> {
    rt: HostRuntime,
    task: &'b Task<'b>,
    graph: &'b G,
}

impl<'b, G: Graph> Bench<'b, G> {
    pub(crate) fn new(rt: HostRuntime, task: &'b Task<'b>, graph: &'b G) -> Bench<'b, G> {
        Bench { rt, task, graph }
    }

    /// Searches once for each round and prints the rest of the line: what was found and, where there were rounds, the shortest time.
    fn rounds<W: FnMut() -> Result<Found, Refusal>>(&self, mut search: W) -> anyhow::Result<()>
        requires { W.IsAlwaysCallable search }
    {
        let rt = self.rt;
        let mut best = None;
        let mut found = search().map_err(refused)?;
        for _ in 0..self.task.rounds {
            let start = Instant::now(&rt)?;
            found = search().map_err(refused)?;
            let time = start.elapsed(&rt)?;
            best = Some(best.map_or(time, |best: Duration| best.min(time)));
        }
        print!(rt; "keys {} sum {}", found.keys, found.sum)?;
        match best {
            Some(best) => println!(rt; " ns {}", best.as_nanos())?,
            None => println!(rt)?,
        }
        Ok(())
    }

    /// The looks of an exhausted search without an upper bound: one that writes each row but the root's, and one that removes each row.
    fn looks<A: Automaton>(&self, filter: &A) -> anyhow::Result<u64> {
        let bytes = Cell::new(0);
        let counted = Counted {
            filter,
            bytes: &bytes,
        };
        let mut areas = Areas::new(self.rt.alloc(), filter.start())?;
        exhaust(self.graph, &counted, &mut areas).map_err(refused)?;
        Ok(bytes.get().wrapping_mul(2).wrapping_add(1))
    }

    /// The line of a search under a filter.
    fn search<A: Automaton + Drop>(&self, name: &str, filter: A) -> anyhow::Result<()> {
        let looks = self.looks(&filter)?;
        print!(self.rt; "{name} looks {looks} ")?;
        let mut areas = Areas::new(self.rt.alloc(), filter.start())?;
        self.rounds(|| exhaust(self.graph, &filter, &mut areas))
    }

    /// The line of the openings.
    fn openings(&self) -> anyhow::Result<()> {
        let bounds = self.task.bounds.as_slice();
        print!(self.rt; "openings bounds {} ", bounds.len())?;
        let mut areas = Areas::new(self.rt.alloc(), ())?;
        self.rounds(|| open_each(self.graph, bounds, &mut areas))
    }

    /// A line for each search: without a filter, under each, under both, and the openings.
    pub(crate) fn all(&self) -> anyhow::Result<()> {
        let prefix = Str::new(self.task.prefix).starts_with();
        let subsequence = Subsequence::new(self.task.subsequence);
        self.search("all", AlwaysMatch)?;
        self.search("prefix", prefix)?;
        self.search("subsequence", subsequence)?;
        self.search("both", prefix.intersection(subsequence))?;
        self.openings()
    }
}

/// The text of a refusal.
fn refused(refusal: Refusal) -> anyhow::Error {
    anyhow!("refused {}", refusal.number())
}
