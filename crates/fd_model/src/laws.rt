//! The laws of families, ranges and runs, each the contract of a function that does nothing.

ghost use Rattle.fd_model.specs.Bounds.{BoundedModels};
ghost use Rattle.fd_model.specs.Laws.{EveryOrder, GreatestFamily, Intervals, OneRun, SameTexts, UnifiableConsistent};
ghost use Rattle.fd_model.specs.ProgramLaws.{ScopedProgram};

/// The union of all closed families is a closed family, and contains each.
pub fn greatest_family()
    ensures { GreatestFamily }
{}

/// Whatever the order of activations, and wherever no activation narrows further, the family is that of the domains.
pub fn every_order()
    ensures { EveryOrder }
{}

/// A store of the whole universe that bounds each variable has the models in which no number is beyond the bound.
pub fn bounded_models()
    ensures { BoundedModels }
{}

/// The domain of a variable with constant intervals alone is their intersection.
pub fn intervals()
    ensures { Intervals }
{}

/// Each runnable query has exactly one run.
pub fn one_run()
    ensures { OneRun }
{}

/// The program of an accepted text names no variable beyond those that its clauses and queries have.
pub fn scoped_program()
    ensures { ScopedProgram }
{}

/// A branch whose equations have any unifier, and whose constrained variables each have a value, is consistent.
pub fn unifiable_consistent()
    ensures { UnifiableConsistent }
{}

/// All most general unifiers give the same texts.
pub fn same_texts()
    ensures { SameTexts }
{}
