//! The machine that runs the queries of an area of code: Warren's machine with constraints, over a heap and a store that propagates.
#![tactic(auto)]

mod goals;
mod labels;
mod machine;
mod run;
mod silent_steps;
mod start;
mod steps;
mod uncounted_instructions;

pub use crate::machine::Machine;
