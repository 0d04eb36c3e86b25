//! The names of the goals that belong to the language.

ghost use Rattle.std.specs.Prelude.{◌≡◌, option_map};
ghost use Rattle.fd_model.specs.Forms.{built_in_names, form_named as form_of_name, is_named, joining_names, reserved_names};
ghost use Rattle.clause_check.specs.Forms.{binary_from, form_seen};

use fd_model::kinds::{BuiltinKind, ConstraintKind, Order, Relation};

/// What a goal of the language is.
#[derive(Clone, Copy)]
pub(crate) enum GoalKind {
    Truth,
    Failure,
    Cut,
    Unification,
    Posting,
    Constraint(ConstraintKind),
    Labelling(Order),
    /// The least cost of a labelling, or the greatest.
    Optimum(bool),
    Builtin(BuiltinKind),
}

/// Whether neither heads nor goals may have the name.
pub(crate) fn is_reserved(name: &str) -> bool
    ensures { result ≡ is_named reserved_names name.now }
{
    matches!(name, "[]" | "{}" | ".")
}

/// Whether the goals with the name and so many arguments are made of bodies.
fn is_joining(name: &str, arity: usize) -> bool
    ensures { result ≡ is_named (joining_names arity) name.now }
{
    match arity {
        1 => name == "\\+",
        2 => matches!(name, "," | ";" | "->"),
        _ => false,
    }
}

/// Whether the name with so many arguments is that of a control or a built-in form.
pub(crate) fn is_built_in(name: &str, arity: usize) -> bool
    ensures { result ≡ is_named (built_in_names arity) name.now }
{
    is_joining(name, arity) || form_named(name, arity).is_some()
}

/// The form of the goals with the name and so many arguments, if they belong to the language.
pub(crate) fn form_named(name: &str, arity: usize) -> Option<GoalKind>
    ensures { option_map form_seen result ≡ form_of_name name.now arity }
{
    match arity {
        0 => nullary(name),
        1 => unary(name),
        2 => binary(name),
        3 => ternary(name),
        _ => None,
    }
}

fn nullary(name: &str) -> Option<GoalKind>
    ensures { option_map form_seen result ≡ form_of_name name.now 0 }
{
    match name {
        "true" => Some(GoalKind::Truth),
        "fail" | "false" => Some(GoalKind::Failure),
        "!" => Some(GoalKind::Cut),
        "nl" => Some(GoalKind::Builtin(BuiltinKind::Nl)),
        _ => None,
    }
}

fn unary(name: &str) -> Option<GoalKind>
    ensures { option_map form_seen result ≡ form_of_name name.now 1 }
{
    match name {
        "var" => Some(GoalKind::Builtin(BuiltinKind::Var)),
        "nonvar" => Some(GoalKind::Builtin(BuiltinKind::Nonvar)),
        "integer" => Some(GoalKind::Builtin(BuiltinKind::Integer)),
        "atom" => Some(GoalKind::Builtin(BuiltinKind::Atom)),
        "atomic" => Some(GoalKind::Builtin(BuiltinKind::Atomic)),
        "compound" => Some(GoalKind::Builtin(BuiltinKind::Compound)),
        "write" => Some(GoalKind::Builtin(BuiltinKind::Write)),
        "fd_all_different" => Some(GoalKind::Constraint(ConstraintKind::AllDifferent)),
        "fd_labeling" => Some(GoalKind::Labelling(Order::Leftmost)),
        "fd_labelingff" => Some(GoalKind::Labelling(Order::FirstFail)),
        _ => None,
    }
}

fn binary(name: &str) -> Option<GoalKind>
    ensures { option_map form_seen result ≡ form_of_name name.now 2 }
{
    match name {
        "=" => Some(GoalKind::Unification),
        "==" => Some(GoalKind::Builtin(BuiltinKind::Same)),
        "\\==" => Some(GoalKind::Builtin(BuiltinKind::NotSame)),
        "is" => Some(GoalKind::Builtin(BuiltinKind::Is)),
        _ => binary_from_comparisons(name),
    }
}

/// The form of the goals with the name and two arguments, by the rows from the comparisons of numbers on.
fn binary_from_comparisons(name: &str) -> Option<GoalKind>
    ensures { option_map form_seen result ≡ binary_from 4 name.now }
{
    match name {
        "=:=" => Some(GoalKind::Builtin(BuiltinKind::NumEqual)),
        "=\\=" => Some(GoalKind::Builtin(BuiltinKind::NumDiffer)),
        "<" => Some(GoalKind::Builtin(BuiltinKind::NumLess)),
        "=<" => Some(GoalKind::Builtin(BuiltinKind::NumAtMost)),
        ">" => Some(GoalKind::Builtin(BuiltinKind::NumGreater)),
        ">=" => Some(GoalKind::Builtin(BuiltinKind::NumAtLeast)),
        _ => binary_from_constraints(name),
    }
}

/// The form of the goals with the name and two arguments, by the rows from the constraints on.
fn binary_from_constraints(name: &str) -> Option<GoalKind>
    ensures { option_map form_seen result ≡ binary_from 10 name.now }
{
    match name {
        "in" => Some(GoalKind::Posting),
        "#=" => Some(GoalKind::Constraint(ConstraintKind::Compare(Relation::Equal))),
        "#\\=" => Some(GoalKind::Constraint(ConstraintKind::Compare(Relation::Differ))),
        "#<" => Some(GoalKind::Constraint(ConstraintKind::Compare(Relation::Less))),
        "#=<" => Some(GoalKind::Constraint(ConstraintKind::Compare(Relation::AtMost))),
        "#>" => Some(GoalKind::Constraint(ConstraintKind::Compare(Relation::Greater))),
        "#>=" => Some(GoalKind::Constraint(ConstraintKind::Compare(Relation::AtLeast))),
        "#<=>" => Some(GoalKind::Constraint(ConstraintKind::Reified)),
        "fd_not" => Some(GoalKind::Constraint(ConstraintKind::Not)),
        _ => domain_reader(name),
    }
}

/// The form of the goals with the name and two arguments that read a domain or ask for a cost, by the last rows.
fn domain_reader(name: &str) -> Option<GoalKind>
    ensures { option_map form_seen result ≡ binary_from 19 name.now }
{
    match name {
        "fd_min" => Some(GoalKind::Builtin(BuiltinKind::FdMin)),
        "fd_max" => Some(GoalKind::Builtin(BuiltinKind::FdMax)),
        "fd_size" => Some(GoalKind::Builtin(BuiltinKind::FdSize)),
        "fd_dom" => Some(GoalKind::Builtin(BuiltinKind::FdDom)),
        "fd_minimize" => Some(GoalKind::Optimum(true)),
        "fd_maximize" => Some(GoalKind::Optimum(false)),
        _ => None,
    }
}

fn ternary(name: &str) -> Option<GoalKind>
    ensures { option_map form_seen result ≡ form_of_name name.now 3 }
{
    match name {
        "fd_element" => Some(GoalKind::Constraint(ConstraintKind::Element)),
        "fd_atmost" => Some(GoalKind::Constraint(ConstraintKind::Atmost)),
        "fd_and" => Some(GoalKind::Constraint(ConstraintKind::And)),
        "fd_or" => Some(GoalKind::Constraint(ConstraintKind::Or)),
        _ => None,
    }
}
