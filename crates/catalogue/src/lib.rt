//! A catalogue: a file of nodes and transitions, opened into a lawful graph.
#![tactic(auto)]

mod catalogue;
mod checking;
mod entry;
mod graph_impl;
mod open;
mod read;
mod refusal;

pub use catalogue::Catalogue;
pub use checking::check;
pub use refusal::Refusal;
