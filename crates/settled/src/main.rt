//! Runs searches whose answers are known beforehand, and prints a line for each.
#![tactic(auto)]

mod areas;
mod bounds;
mod counts;
mod filters;
mod graphs;
mod openings;
mod showing;
mod sums;

use graphs::four_names;
use std::io;

fn main(rt: HostRuntime) -> io::Result<()> {
    let Some(list) = four_names(rt.alloc())? else {
        return println!(rt; "no list");
    };
    bounds::show_bounds(&rt, &list)?;
    filters::show_filters(&rt, &list)?;
    counts::show_counts(&rt, &list)?;
    areas::show_areas(&rt, &list)?;
    openings::show_openings(&rt, &list)?;
    sums::show_sums(&rt, list)
}
