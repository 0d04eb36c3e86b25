//! How the posting of a range ended.

ghost use Rattle.std.specs.Prelude.{◌≡◌};
ghost use Rattle.branch_state.specs.Ranges.{kept_step};

use fd_model::kinds::QueryFault;

/// How the posting of a range ended.
#[derive(Clone, Copy)]
pub enum Step {
    /// What is posted has a model.
    Kept,
    /// It has none.
    Failed,
    /// The goal is an error, and the branch is as it was.
    Fault(QueryFault),
}

/// Whether what is posted has a model, as a step.
pub(crate) fn step_of(kept: bool) -> Step
    ensures { result ≡ kept_step kept }
{
    if kept { Step::Kept } else { Step::Failed }
}
