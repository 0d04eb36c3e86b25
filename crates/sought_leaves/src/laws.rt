//! The law of searches, the contract of a function that does nothing.

ghost use Rattle.sought_leaves.specs.Laws.{SearchesAgree};

/// What a search finds over the posted ranges of a store is what the labelling's best leaf is in the branch.
pub fn searches_agree()
    ensures { SearchesAgree }
{}
