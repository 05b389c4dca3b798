//! A list of names as a graph of their prefixes.
#![tactic(auto)]

mod groups;
mod list;
mod marks;
mod opening;
mod prefix;
mod questions;

pub use list::List;
pub use opening::Parts;
