//! The laws of texts and of runs, each the contract of a function that does nothing.

ghost use Rattle.run_laws.specs.Laws.{AnyOutput, AnyRuns, FlatTexts, SmallConstraints};

use fd_model::labelling_laws::flat_verdict;
use fd_model::laws::scoped_program;

/// No constraint of an accepted text has more occurrences of variables than the text has bytes.
pub fn small_constraints()
    ensures { SmallConstraints }
{}

/// The output of an accepted text has the lines of each flat query, however many variables its constraints have.
pub fn flat_texts()
    ensures { FlatTexts }
{
    flat_verdict();
}

/// Whichever most general unifier each step of a run takes, its events and the number of its reductions are the same.
pub fn any_runs()
    ensures { AnyRuns }
{}

/// So is what the queries of an accepted text write.
pub fn any_output()
    ensures { AnyOutput }
{
    scoped_program();
}
