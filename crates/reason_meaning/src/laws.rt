//! The laws of outcomes and reasons, each the contract of a function that does nothing.

ghost use Rattle.reason_meaning.specs.Laws.{FlatOutcomes, FlatReasons, KeptPrograms, OneOutcome, SameClauses};
ghost use Rattle.reason_meaning.specs.ToldLaws.{FlatTold, LookedAt, OneGoalEach};

use fd_model::labelling_laws::flat_events;
use fd_model::laws::one_run;

/// Of a flat query without some of its goals: where it has no answer no assignment satisfies the others, and an answer is one that does.
pub fn flat_outcomes()
    ensures { FlatOutcomes }
{
    flat_events();
}

/// The goals of a reason in a flat query can't hold together, and those without any single one can.
pub fn flat_reasons()
    ensures { FlatReasons }
{
    flat_outcomes();
}

/// A query without some of its goals has one outcome.
pub fn one_outcome()
    ensures { OneOutcome }
{
    one_run();
}

/// What becomes of a query doesn't depend on the other queries of its program.
pub fn same_clauses()
    ensures { SameClauses }
{}

/// What is told of a flat query can't hold together, and without any single goal of it the others can.
pub fn flat_told()
    ensures { FlatTold }
{
    flat_reasons();
}

/// A program without some goals of a query can run, and names no other variables.
pub fn kept_programs()
    ensures { KeptPrograms }
{}

/// A flat query is flat as it is looked at, also where it asks for the best cost.
pub fn looked_at_flat()
    ensures { LookedAt }
{}

/// Each of the terms that commas separate in a body is one goal of its query.
pub fn one_goal_each()
    ensures { OneGoalEach }
{}
