//! What a text is warned of: variables that occur once; numbers, ranges and sums that goals lose silently; tests and negations of
//! variables that have only a domain; clauses of one predicate that don't stand together, or stand in two files; predicates that no
//! query reaches.
#![tactic(auto)]

mod calls;
mod clauses;
mod files;
mod losses;
mod occurrences;
mod open_variables;
mod parts;
mod predicates;
mod ranges;
mod reach;
mod roles;
mod singleton_variables;
mod terms;
mod unreached_predicates;
mod warnings;

pub use crate::terms::Functor;
pub use crate::warnings::warnings_of;
use term_pool::AtomId;

/// What a warning says.
#[derive(Clone, Copy)]
pub enum Concern {
    /// The variable of this name occurs once in its clause.
    Single(AtomId),
    /// The clauses of this predicate don't stand together.
    Apart(Functor),
    /// This predicate has clauses in two files.
    TwoFiles(Functor),
    /// No query reaches this predicate.
    Unreached(Functor),
    /// A number below 0 bounds a range, or a variable is compared with it.
    BelowZero,
    /// A range ends below its first number.
    EmptyRange,
    /// A side of `=` is arithmetic.
    Unevaluated,
    /// The arithmetic test needs the value of the variable of this name, which has only a domain.
    OpenTest(AtomId),
    /// `\+` stands over the variable of this name, which has only a domain.
    OpenNegation(AtomId),
}

/// A warning, and its place in the text, in bytes.
#[derive(Clone, Copy)]
pub struct Warning {
    pub place: usize,
    pub concern: Concern,
}
