//! The laws of the frames, each the contract of a function that does nothing.

ghost use Rattle.branch_lemmas.specs.Laws.{UnifiedIsGeneral, FullNames};

/// What a unification of two cells leaves is what the machine relation asks of a unification.
pub fn unified_is_general()
    ensures { UnifiedIsGeneral }
{}

/// All atoms have names that are told apart, and those of a pool have their own.
pub fn full_names()
    ensures { FullNames }
{}
