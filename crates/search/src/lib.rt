//! The filtered search: all accepted keys of a graph within bounds, in rising order, one at each call.
#![tactic(auto)]

mod counts;
mod look;
mod next;
mod opening;
mod query;
mod refusal;
mod search;
#[cfg(test)]
mod tests;

pub use bound::Bound;
pub use counts::{complement_agrees, union_agrees};
pub use law::Row;
pub use query::{Query, Unopened};
pub use refusal::Refusal;
pub use search::{Item, Search};
