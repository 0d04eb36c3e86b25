//! The laws of leaves of posted lists, each the contract of a function that does nothing.

ghost use Rattle.fd_model.specs.PostedLaws.{BestCost, FirstOfBest, KeptAreLeaves, LeavesAreKept, LeavesInOrder, OneSought};

/// A search for the least or the greatest cost has one answer.
pub fn one_sought()
    ensures { OneSought }
{}

/// Whatever assignment keeps the posted ranges, in some leaf the members have its values.
pub fn kept_are_leaves()
    ensures { KeptAreLeaves }
{}

/// In each leaf of a labelling that gives all constrained variables their values the members have those of an assignment that keeps the
/// posted ranges.
pub fn leaves_are_kept()
    ensures { LeavesAreKept }
{}

/// What such a search finds has the best cost of all assignments that keep the posted ranges, and nothing is found where there is none.
pub fn best_cost()
    ensures { BestCost }
{}

/// No two leaves have the same values of the members, and where the leftmost is taken first the values rise.
pub fn leaves_in_order()
    ensures { LeavesInOrder }
{}

/// What is found comes before all other assignments that keep the posted ranges and have its cost.
pub fn first_of_best()
    ensures { FirstOfBest }
{}
