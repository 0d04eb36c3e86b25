//! What the parts of a machine's state stand for: heaps, environments, continuations and choice points as frames and branches.
#![tactic(auto)]

pub mod laws;
