//! Calls searches with work areas of random contents, damaged and cut short between calls, and
//! counts what comes of it.
#![tactic(auto)]

mod areas;
mod dice;
mod digest;
mod drawn;
mod graphs;
mod round;
mod tally;

use dice::Dice;
use graphs::Graphs;
use round::Trial;
use std::alloc::AllocError;
use std::io;
use tally::Tally;

/// How many searches are opened or refused.
const ROUNDS: u32 = 40_000;

/// Where the generator begins.
const SEED: u64 = 0x9e37_79b9_7f4a_7c15;

fn run(trial: &mut Trial, graphs: &Graphs) -> Result<(), AllocError> {
    for _ in 0..ROUNDS {
        match trial.dice.below(5) {
            0 => trial.over(&graphs.short)?,
            1 => trial.over(&graphs.long)?,
            2 => trial.over(&graphs.shifted)?,
            3 => trial.over(&graphs.fork)?,
            _ => trial.over(&graphs.large)?,
        }
    }
    Ok(())
}

fn main(rt: HostRuntime) -> io::Result<()> {
    let Some(graphs) = Graphs::open(rt.alloc())? else {
        return println!(rt; "no graphs");
    };
    let mut trial = Trial {
        heap: rt.alloc(),
        dice: Dice { state: SEED },
        tally: Tally::new(),
    };
    run(&mut trial, &graphs)?;
    trial.tally.print(&rt)
}
