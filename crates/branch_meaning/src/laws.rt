//! The laws of the machine relation, each the contract of a function that does nothing.

ghost use Rattle.branch_meaning.specs.Laws.{PostsAreEquations};

/// The posts for touched values and pairs say what the touches say as equations, wherever no set is empty.
pub fn posts_are_equations()
    ensures { PostsAreEquations }
{}
