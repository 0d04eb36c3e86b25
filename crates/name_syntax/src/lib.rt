//! What names are made of, and which names are operators.
#![tactic(auto)]

pub mod characters;
pub mod operators;
