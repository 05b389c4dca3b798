//! Names cut out of a text, and what keeps them from being a list.
#![tactic(auto)]

mod checking;
mod name;
mod refusal;

pub use checking::check;
pub use name::Name;
pub use refusal::Refusal;
