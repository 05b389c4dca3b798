//! The input of a listing: its lines, and what they ask for.
#![tactic(auto)]

mod input;
mod kind;
mod number;
mod reading;
mod refusal;

pub use input::Input;
pub use kind::Kind;
pub use number::read_number;
pub use reading::read;
pub use refusal::{ReadError, Refusal};
