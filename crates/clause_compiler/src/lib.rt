//! The code of a program.
#![tactic(auto)]

mod choices;
mod groups;
mod keys;
mod program;
mod ranges;
mod sections;
mod tables;

pub use crate::program::compile;
