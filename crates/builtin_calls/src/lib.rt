//! What the built-in predicates ask of terms on a heap: values, identity and types.
//!
//! Terms are read through the sets of a store. A variable of the store whose set has one value counts as that integer.
#![tactic(auto)]

mod cell_views;
mod evaluation;
mod identity;
mod operations;
mod type_tests;

pub use evaluation::{EvalFault, eval};
pub use identity::same;
pub use type_tests::{TypeTest, type_test};
