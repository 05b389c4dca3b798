//! Searches lists and catalogues as often as its input asks, and prints what was found, and how long it took.
#![tactic(auto)]

mod areas;
mod counted;
mod measure;
mod task;

use anyhow::bail;
use catalogue::Catalogue;
use list::List;
use measure::Bench;
use names::Name;
use std::alloc::Global;
use std::io::Read;
use task::{Kind, Task};

/// The rows of the names that a text holds, a line for each.
fn rows_of(heap: Global, text: &[u8]) -> anyhow::Result<Vec<Name>> {
    let mut rows = Vec::new(heap);
    // counted beside the lines: the library's pieces say no place
    let mut place = 0u32;
    for line in text.split_inclusive(|byte| *byte == b'\n') {
        let name = line.strip_suffix(b"\n").unwrap_or(line);
        let length = u32::try_from(name.len())?;
        rows.push(Name { place, length })?;
        place = place.wrapping_add(u32::try_from(line.len())?);
    }
    Ok(rows)
}

/// Opens the graph of a task and searches it.
fn open(rt: HostRuntime, task: &Task<'_>) -> anyhow::Result<()> {
    let bytes = task.graph.to_vec(rt.alloc())?;
    match task.kind {
        Kind::List => {
            println!(rt; "list")?;
            match List::open(bytes, rows_of(rt.alloc(), task.graph)?) {
                Ok(list) => Bench::new(rt, task, &list).all(),
                Err(refusal) => bail!("refused {}", refusal.number()),
            }
        }
        Kind::Catalogue => {
            println!(rt; "catalogue")?;
            match Catalogue::open(bytes) {
                Ok(catalogue) => Bench::new(rt, task, &catalogue).all(),
                Err(refusal) => bail!("refused {}", refusal.number()),
            }
        }
    }
}

fn main(rt: HostRuntime) -> anyhow::Result<()> {
    let mut input = Vec::new(rt.alloc());
    rt.stdin().read_to_end(&mut input)?;
    let mut rest = input.as_slice();
    for _ in 0..u64::MAX {
        if rest.is_empty() {
            break;
        }
        let task = Task::read(rt.alloc(), &mut rest)?;
        open(rt, &task)?;
    }
    Ok(())
}
