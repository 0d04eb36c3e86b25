//! The laws of code, each the contract of a function that does nothing.

ghost use Rattle.wam_code.specs.Laws.{PlacesFollowRules, ChoicesFollowRules, StepsAreSafe, WorkFalls, QueriesAreApart};

/// A place stands for what the rule of its instruction says, and for nothing else.
pub fn places_follow_rules()
    ensures { PlacesFollowRules }
{}

/// A place before a clause stands for the clauses that the rule of its instruction says, and for no
/// others.
pub fn choices_follow_rules()
    ensures { ChoicesFollowRules }
{}

/// In verified code a place that is reached with what its state says finds what it needs, and so do
/// the places that it leads to.
pub fn steps_are_safe()
    ensures { StepsAreSafe }
{}

/// Instructions that spend no reduction come to an end.
pub fn work_falls()
    ensures { WorkFalls }
{}

/// In verified code a query's places lead to its own, where it answers, and other places never do.
pub fn queries_are_apart()
    ensures { QueriesAreApart }
{}
