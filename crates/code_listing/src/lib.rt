//! The listing of code: a text that has all of it but the pool's terms, its first three atoms and
//! the variables of ranges, with the state of each place.
#![tactic(auto)]

mod instruction;
mod listed_code;
mod names;
mod numbers;
mod slots;
mod states;
mod words;
mod write;

pub use crate::listed_code::Listed;
pub use crate::states::{PlaceState, Slot};
pub use crate::write::write_listing;
