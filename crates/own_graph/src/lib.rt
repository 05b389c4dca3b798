//! A graph and a filter of one's own, and a caller that counts what a search over any of them lists.
#![tactic(auto)]

mod board;
mod counting;
mod even_sum;
mod exhausting;
#[cfg(test)]
mod tests;

pub use board::Board;
pub use counting::{count_is_determined, count_listed};
pub use even_sum::EvenSum;
