//! What a machine over code is: when it is safe, what it stands for, and the small steps that all instructions share.
#![tactic(auto)]

mod cell_equations;
mod instruction_outcomes;

pub use crate::cell_equations::equate;
pub use crate::instruction_outcomes::{Went, behind, next_if, on_if};
