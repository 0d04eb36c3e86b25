//! Instructions of a Warren machine with constraints, code that is safe to run, and what code
//! stands for (Warren 1983, Ait-Kaci 1991).
#![tactic(auto)]

mod area;
mod instruction;
pub mod laws;
mod parts;
mod sorted_tables;

pub use crate::area::CodeArea;
pub use crate::instruction::{Code, Key, Register};
pub use crate::parts::{CodeParts, Entry, QueryEntry};
