//! A branch of a search: a heap of cells and a store of domains, marked and taken back together.
#![tactic(auto)]

mod bounds;
mod cell_looks;
mod cells;
mod codes;
mod constraints;
mod heap_facts;
mod open_vars;
mod posting;
mod posting_lists;
mod shown_terms;
mod state;
mod step;
mod store_variables;

pub use crate::state::BranchState;
pub use crate::step::Step;
