//! What texts, terms and ranges are, the laws of these, and the constants and flat types that programs and definitions share.
#![tactic(auto)]

pub mod check_laws;
mod flat_range;
pub mod grammar_laws;
mod operand_counts;
pub mod range_laws;
mod range_node;

pub use flat_range::FlatRange;
pub use range_node::{Feature, Need, Offence, RangeNode};
use std::alloc::{AllocError, AllocFailed};
use thiserror::Error;

/// The greatest number of the universe, and the value of `infinity` in ranges.
pub const INFINITY: u32 = 268_435_455;

/// Memory was wanting. The error of a call that has no other.
#[derive(Clone, Copy, Debug, PartialEq, Eq, Drop, Error)]
#[error("out of memory")]
pub struct NoMemory;

impl From<AllocError> for NoMemory {
    fn from(_error: AllocError) -> NoMemory {
        NoMemory
    }
}

impl<T: Drop> From<AllocFailed<T>> for NoMemory {
    fn from(_error: AllocFailed<T>) -> NoMemory {
        NoMemory
    }
}
