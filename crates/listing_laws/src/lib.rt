//! Two areas of code with the same listing stand for the same programs.
#![tactic(auto)]

pub mod laws;
