//! The code of a clause and of a query, and the laws of pieces of code from which it is proved.
#![tactic(auto)]

mod argument_homes;
mod clause;
mod frameless_clauses;
mod goals;
mod heads;
pub mod laws;
mod levels;
mod needs;
mod open_sides;
mod predicates;
mod query;
mod terms;

pub use crate::clause::compile_clause;
pub use crate::needs::level_needs;
pub use crate::predicates::{Predicates, predicates_of};
pub use crate::query::compile_query;
