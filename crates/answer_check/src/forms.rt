//! The names of the goals of a flat query.

ghost use Rattle.std.specs.Prelude.{◌≡◌};
ghost use Rattle.fd_model.specs.Forms.{form_named as named};
ghost use Rattle.answer_check.specs.Forms.{flat_form};

use fd_model::kinds::{ConstraintKind, Order, Relation};

/// What a goal of a flat query is.
#[derive(Clone, Copy)]
pub(crate) enum GoalKind {
    /// `T in R`.
    Posting,
    /// A constraint by its kind.
    Constraint(ConstraintKind),
    /// The labelling of a list.
    Labelling(Order),
}

fn unary(name: &str) -> Option<GoalKind>
    ensures { result ≡ flat_form (named name.now 1) }
{
    match name {
        "fd_all_different" => Some(GoalKind::Constraint(ConstraintKind::AllDifferent)),
        "fd_labeling" => Some(GoalKind::Labelling(Order::Leftmost)),
        "fd_labelingff" => Some(GoalKind::Labelling(Order::FirstFail)),
        _ => None,
    }
}

fn binary(name: &str) -> Option<GoalKind>
    ensures { result ≡ flat_form (named name.now 2) }
{
    match name {
        "in" => Some(GoalKind::Posting),
        "#=" => Some(GoalKind::Constraint(ConstraintKind::Compare(Relation::Equal))),
        "#\\=" => Some(GoalKind::Constraint(ConstraintKind::Compare(Relation::Differ))),
        "#<" => Some(GoalKind::Constraint(ConstraintKind::Compare(Relation::Less))),
        "#=<" => Some(GoalKind::Constraint(ConstraintKind::Compare(Relation::AtMost))),
        "#>" => Some(GoalKind::Constraint(ConstraintKind::Compare(Relation::Greater))),
        "#>=" => Some(GoalKind::Constraint(ConstraintKind::Compare(Relation::AtLeast))),
        _ => None,
    }
}

fn ternary(name: &str) -> Option<GoalKind>
    ensures { result ≡ flat_form (named name.now 3) }
{
    match name {
        "fd_element" => Some(GoalKind::Constraint(ConstraintKind::Element)),
        "fd_atmost" => Some(GoalKind::Constraint(ConstraintKind::Atmost)),
        _ => None,
    }
}

/// The form of the goals with the name and so many arguments, if a flat query may have them.
pub(crate) fn form_named(name: &str, arity: usize) -> Option<GoalKind>
    ensures { result ≡ flat_form (named name.now arity) }
{
    match arity {
        1 => unary(name),
        2 => binary(name),
        3 => ternary(name),
        _ => None,
    }
}
