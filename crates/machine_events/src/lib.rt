//! What a machine says while it runs a query.
#![tactic(auto)]

use domain_ranges::Domain;
use fd_model::kinds::QueryFault;
use term_pool::{Pool, TermId};

/// Terms as they are seen, in a pool of their own. A variable of theirs that is constrained has its number and its domain in `sets`.
#[derive(Drop)]
pub struct Shown {
    pub pool: Pool,
    pub terms: Vec<TermId>,
    pub sets: Vec<(u64, Domain)>,
}

/// An event of a run.
#[derive(Drop)]
pub enum MachineEvent {
    /// The term that a goal writes.
    Write(Shown),
    /// A newline that a goal writes.
    Newline,
    /// The terms of the query's shown variables, in their order.
    Answer(Shown),
    End,
    Budget,
    Limit,
    Fault(QueryFault),
}

/// The budget of a query in reductions, how many answers it may give, and the numbers of its variables.
#[derive(Clone, Copy)]
pub struct Limits {
    pub steps: u64,
    pub answers: Option<u64>,
    /// The greatest number that a variable may have.
    pub infinity: u32,
}
