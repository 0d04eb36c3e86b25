//! Code from its listing: what a text tells is looked at, verified and made ready to run, or the
//! text is refused with the line at fault.
#![tactic(auto)]

mod counts;
mod fault;
pub mod laws;
mod loaded_code;
mod number_checks;
mod ranges;
mod slots;

pub use crate::fault::LoadFault;
pub use crate::loaded_code::load;
pub use code_text::{Listed, PlaceState, Slot, VerifyFault, verify, write_listing};
