//! What the state of a machine over verified code stands for, and what each instruction's step keeps of it: the definitions, and their laws.
#![tactic(auto)]

pub mod laws;
