//! Asks lists of names all questions, and prints what they answered, as counts and a digest.
#![tactic(auto)]

mod answers;
mod asked;
mod digest;
mod names_read;

use anyhow::{Result, anyhow};
use asked::Asked;
use list::{List, Parts};
use names_read::NamesRead;
use std::io::{BufRead, BufReader};

/// Opens a list of the names, asks it all, and prints the rest of its line.
fn show(rt: HostRuntime, names: &NamesRead) -> Result<()> {
    let count = u32::try_from(names.rows.len())?;
    let text = names.text.as_slice().to_vec(rt.alloc())?;
    let rows = names.rows.as_slice().to_vec(rt.alloc())?;
    let list = List::open(text, rows).map_err(|refusal| anyhow!("refused {}", refusal.number()))?;
    print!(rt; "names {count}, ")?;
    Asked::all(&list, count, names.longest).print(&rt)?;
    let Parts { text, rows } = list.into_parts();
    if text.as_slice() == names.text.as_slice() && rows.as_slice() == names.rows.as_slice() {
        println!(rt; ", given back")?;
    } else {
        println!(rt; ", not given back")?;
    }
    Ok(())
}

fn main(rt: HostRuntime) -> Result<()> {
    let mut names = NamesRead::new(rt.alloc());
    for line in BufReader::new(rt.alloc(), rt.stdin())?.lines(rt.alloc()) {
        let line = line?;
        let line = line.as_str();
        if let Some(title) = line.strip_prefix("> ") {
            print!(rt; "{title}: ")?;
        } else if line.is_empty() {
            show(rt, &names)?;
            names = NamesRead::new(rt.alloc());
        } else {
            names.add(rt.alloc(), line)?;
        }
    }
    Ok(())
}
