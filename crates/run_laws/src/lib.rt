//! Laws of runs and of whole texts.
#![tactic(auto)]

pub mod laws;
