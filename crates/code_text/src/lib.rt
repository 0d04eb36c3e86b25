//! Whether code is verified by the states of its places.
#![tactic(auto)]

mod crossings;
mod entry_states;
mod least_place;
mod owners;
mod place_predecessors;
mod places;
mod reference_checks;
mod verification;

pub use crate::verification::{VerifyFault, verify};
pub use code_listing::{Listed, PlaceState, Slot, write_listing};
