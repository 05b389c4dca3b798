//! Prints the table of the list "", "a", "ab", "b", alone and shifted, and how text and rows are refused.
#![tactic(auto)]

use graph::{Graph, Shift, Transition};
use list::List;
use names::{Name, Refusal};
use std::io;

/// The total of a key, or none where the bytes are no key.
fn total<G: Graph>(graph: &G, key: &[u8]) -> Option<u64> {
    let mut node = graph.root();
    let mut total = graph.first_total();
    for byte in key {
        let position = graph.find_input(node, *byte)?;
        let transition = graph.transition(node, position)?;
        node = transition.target;
        total = total.checked_add(transition.output)?;
    }
    if graph.is_final(node) {
        total.checked_add(graph.final_output(node))
    } else {
        None
    }
}

// the handle beside what is shown, as the library hands it to whatever prints
fn show_total<G: Graph>(rt: &HostRuntime, graph: &G, key: &str) -> io::Result<()> {
    match total(graph, key.as_bytes()) {
        Some(total) => println!(rt; "key \"{key}\": {total}"),
        None => println!(rt; "key \"{key}\": none"),
    }
}

// printed here: a `Display` would be public in another crate for this program alone
fn show_transition(rt: &HostRuntime, transition: Transition) -> io::Result<()> {
    let Transition {
        byte,
        output,
        target,
    } = transition;
    println!(rt; "  byte {byte} output {output} target {target}")
}

fn show_node<G: Graph>(rt: &HostRuntime, graph: &G, node: u32) -> io::Result<()> {
    let word = if graph.is_final(node) {
        "final"
    } else {
        "not final"
    };
    let output = graph.final_output(node);
    let len = graph.len(node);
    println!(rt; "node {node}: {word}, {output}, transitions {len}")?;
    // by position, as a graph answers
    for transition in (0..len).filter_map(|position| graph.transition(node, position)) {
        show_transition(rt, transition)?;
    }
    Ok(())
}

// printed here, as a transition is
fn show_refusal(rt: &HostRuntime, refusal: Refusal) -> io::Result<()> {
    match refusal.carried() {
        Some(name) => println!(rt; "refused {} at name {name}", refusal.number()),
        None => println!(rt; "refused {}", refusal.number()),
    }
}

/// Opens a list of rows over the text "aabb", and says whether it is one.
fn show_opening(rt: &HostRuntime, rows: &[Name]) -> io::Result<()> {
    match List::open(b"aabb".to_vec(rt.alloc())?, rows.to_vec(rt.alloc())?) {
        Ok(list) => println!(rt; "opened with {} names", list.count()),
        Err(refusal) => show_refusal(rt, refusal),
    }
}

fn row(place: u32, length: u32) -> Name {
    Name { place, length }
}

fn show_list(rt: &HostRuntime, list: &List) -> io::Result<()> {
    println!(rt; "root {}", list.root())?;
    println!(rt; "first total {}", list.first_total())?;
    for node in [0, 257, 514, 769, 1, 256, 513, 1024] {
        show_node(rt, list, node)?;
    }
    for key in ["", "a", "ab", "b", "aa", "c"] {
        show_total(rt, list, key)?;
    }
    Ok(())
}

/// Shifts a list by 100, and then by a number that takes the first total to 2^64.
fn show_shifts(rt: &HostRuntime, list: List) -> io::Result<()> {
    let Ok(shift) = Shift::new(list, 100) else {
        return println!(rt; "not shifted");
    };
    show_total(rt, &shift, "ab")?;
    let Err(unshifted) = Shift::new(shift, u64::MAX - 99) else {
        return println!(rt; "shifted again");
    };
    println!(rt; "refused {}", unshifted.refusal.number())?;
    show_total(rt, &unshifted.graph, "ab")
}

fn main(rt: HostRuntime) -> io::Result<()> {
    let names = [row(0, 0), row(0, 1), row(1, 2), row(3, 1)];
    match List::open(b"aabb".to_vec(rt.alloc())?, names.to_vec(rt.alloc())?) {
        Ok(list) => {
            show_list(&rt, &list)?;
            show_shifts(&rt, list)?;
        }
        Err(refusal) => show_refusal(&rt, refusal)?,
    }
    show_opening(&rt, &[])?;
    show_opening(&rt, &[row(0, 1), row(3, 2)])?;
    show_opening(&rt, &[row(3, 1), row(0, 1), row(0, 256)])?;
    show_opening(&rt, &[row(0, 1), row(1, 1)])?;
    show_opening(&rt, &[row(0, 1), row(0, 4)])
}
