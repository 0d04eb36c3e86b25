//! What a search for the best leaf finds in a machine's store is the best leaf of the branch that the machine stands for.
#![tactic(auto)]

pub mod laws;
