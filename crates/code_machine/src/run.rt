//! A run of a query: where it stands, and what it may still spend.

use code_areas::Areas;
use code_goals::ValuesLeft;
use fd_model::kinds::QueryFault;
use term_instructions::Scratch;

/// The values that a labelling is still to try, of the choice point with so many older ones.
#[derive(Drop)]
pub(crate) struct Label {
    pub point: usize,
    pub values: ValuesLeft,
}

/// How a run ended.
#[derive(Clone, Copy)]
pub(crate) enum Ending {
    End,
    Budget,
    Limit,
    Fault(QueryFault),
}

/// Where a run stands: at a place of the code, on its way back to the newest choice point, or at its end.
#[derive(Clone, Copy)]
pub(crate) enum Stage {
    Going(usize),
    Returning,
    Ended(Ending),
}

/// What a step says. The terms that it shows are read where the event is made.
#[derive(Clone, Copy)]
pub(crate) enum Saying {
    /// The term in the first register, at the place behind a goal.
    Term(usize),
    Newline,
    /// The answer at a place.
    Answer(usize),
    Ended(Ending),
}

/// A run without its code and its branch. `labels` has the newest last.
#[derive(Drop)]
pub(crate) struct Run {
    pub query: usize,
    pub areas: Areas,
    pub labels: Vec<Label>,
    pub stage: Stage,
    pub scratch: Scratch,
    pub budget: u64,
    pub limit: Option<u64>,
    pub spent: u64,
}
