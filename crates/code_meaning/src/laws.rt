//! The laws of a machine's steps, each the contract of a function that does nothing.

ghost use Rattle.code_meaning.specs.Laws.{HeadsAreMatched, CallsReturn, ClausesAreEntered, CallsTryClauses, ChoicesComeBack, CutsAreTaken, AnswersAreTold, QueriesStart, RangesArePosted, StoresFail};

/// What the get group makes of a clause's head keeps what the machine stands for.
pub fn heads_are_matched()
    ensures { HeadsAreMatched }
{}

/// So do a call and the return from it.
pub fn calls_return()
    ensures { CallsReturn }
{}

/// A clause that is tried is entered on its own branch.
pub fn clauses_are_entered()
    ensures { ClausesAreEntered }
{}

/// A call stands for the branches that the program gives, by the clauses that the predicate's code tries.
pub fn calls_try_clauses()
    ensures { CallsTryClauses }
{}

/// What a choice leaves to be tried is gone on with when the machine comes back.
pub fn choices_come_back()
    ensures { ChoicesComeBack }
{}

/// Levels are kept in slots, tests leave their other way, and a cut drops the choice points above a level.
pub fn cuts_are_taken()
    ensures { CutsAreTaken }
{}

/// The end of a query tells the answer of its branch.
pub fn answers_are_told()
    ensures { AnswersAreTold }
{}

/// A new machine stands for the run of its query.
pub fn queries_start()
    ensures { QueriesStart }
{}

/// A goal that posts a range gives its fault or posts the range.
pub fn ranges_are_posted()
    ensures { RangesArePosted }
{}

/// A store that fails sends the machine back.
pub fn stores_fail()
    ensures { StoresFail }
{}
