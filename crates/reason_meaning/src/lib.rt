//! Why a query has no answer: what a reason is, what is told of it, and the laws of both.
#![tactic(auto)]

pub mod laws;
mod status;

pub use crate::status::Status;
