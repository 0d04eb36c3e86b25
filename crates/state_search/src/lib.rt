//! States by which compiled code is verified, found from the code alone.
#![tactic(auto)]

mod frames;
mod place_states;
mod registers;

pub use crate::place_states::list_code;
