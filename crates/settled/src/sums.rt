//! Shifts, and totals about the largest.
use crate::graphs::leaf;
use crate::showing::show;
use automaton::{AlwaysMatch, Str};
use graph::{Graph, Shift};
use list::List;
use search::Query;
use std::io;

/// A graph of the key "" alone.
fn show_leaf(rt: &HostRuntime, by: u64) -> io::Result<()> {
    let Some(leaf) = leaf(rt.alloc())? else {
        return println!(rt; "no catalogue");
    };
    let Ok(shift) = Shift::new(leaf, by) else {
        return println!(rt; "not shifted");
    };
    show(rt, "leaf", Query::new(), &shift, &AlwaysMatch)?;
    show(
        rt,
        "leaf gt \"\"",
        Query::new().gt(b""),
        &shift,
        &AlwaysMatch,
    )
}

pub(crate) fn show_sums(rt: &HostRuntime, list: List) -> io::Result<()> {
    let Ok(shift) = Shift::new(list, 100) else {
        return println!(rt; "not shifted");
    };
    show(
        rt,
        "shifted Str \"ab\"",
        Query::new(),
        &shift,
        &Str::new(b"ab"),
    )?;
    let Ok(shift) = Shift::new(shift, u64::MAX - 101) else {
        return println!(rt; "not shifted");
    };
    show(
        rt,
        "shifted to 2^64 - 2",
        Query::new(),
        &shift,
        &AlwaysMatch,
    )?;
    show(
        rt,
        "shifted to 2^64 - 2, ge \"b\"",
        Query::new().ge(b"b"),
        &shift,
        &AlwaysMatch,
    )?;
    show_leaf(rt, u64::MAX - 7)?;
    show_leaf(rt, u64::MAX - 6)
}
