//! What instructions need of the states of their places, and where they lead.
#![tactic(auto)]

pub mod laws;
mod state_transfer;
mod successor_places;

pub use crate::state_transfer::{registers_of, set_of};
pub use crate::successor_places::{goes_on, leads, named_by, put_named, rows_of, table_at};
