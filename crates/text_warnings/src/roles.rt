//! What goals do with their variables.

ghost use Rattle.std.specs.Prelude.{◌≡◌, ◌<◌, length};
ghost use Rattle.fd_model.specs.Forms.{is_named};
ghost use Rattle.fd_model.specs.Refusals.{functor_of as functor_of_term};
ghost use Rattle.term_pool.specs.PlacedTerms.{placed_of};
ghost use Rattle.text_warnings.specs.OpenVariables.{comparing_names, is_negation, is_tying, tying_names};
ghost use Rattle.text_warnings.specs.OpenViews.{one_part_role, two_parts_role, IsRoleOf};
ghost use Rattle.text_warnings.specs.TermParts.{parts_of as parts_in};

use crate::parts::{Parts, parts_of};
use crate::terms::{Functor, functor_of};
use term_pool::{Pool, TermId};

/// What a goal does.
#[derive(Clone, Copy)]
pub(crate) enum Role {
    /// It constrains its variables.
    Ties,
    /// It is an equation.
    Equates,
    /// It compares two values.
    Compares,
    /// It may give each of its variables a value.
    Gives,
    /// It gives the first term the value of the second one.
    Evaluates(TermId, TermId),
    /// It negates a goal.
    Negates(TermId),
}

/// Whether a goal with this name and so many arguments only constrains its variables.
fn is_tying_name(name: &str, arity: usize) -> bool
    ensures { result ≡ is_named (tying_names arity) name.now }
{
    match arity {
        1 => name == "fd_all_different",
        2 => matches!(
            name,
            "in" | "#\\=" | "#<" | "#=<" | "#>" | "#>=" | "#<=>" | "fd_not"
        ),
        3 => matches!(name, "fd_element" | "fd_atmost" | "fd_and" | "fd_or"),
        _ => false,
    }
}

/// Whether the goal only constrains its variables.
fn is_tying(pool: &Pool, goal: TermId) -> bool
    requires { goal.number < length pool.now.entries }
    ensures { result ≡ is_tying (functor_of_term (placed_of pool.now goal)) }
{
    match functor_of(pool, goal) {
        Some(Functor { name, arity }) => is_tying_name(pool.name_of(name), arity),
        None => false,
    }
}

/// Whether a goal of two arguments with this name compares two values.
fn is_comparing(name: &str) -> bool
    ensures { result ≡ is_named comparing_names name.now }
{
    matches!(name, "=:=" | "=\\=" | "<" | "=<" | ">" | ">=")
}

/// Whether the term is a negation.
pub(crate) fn is_negation(pool: &Pool, t: TermId) -> bool
    requires { t.number < length pool.now.entries }
    ensures { result ≡ is_negation (parts_in (placed_of pool.now t)) }
{
    match parts_of(pool, t) {
        Parts::One(name, _) => pool.name_of(name) == "\\+",
        Parts::Two(..) | Parts::Other => false,
    }
}

/// What a goal of two arguments with this name does, where it isn't a constraint.
fn two_parts_role(name: &str, left: TermId, right: TermId) -> Role
    ensures { result ≡ two_parts_role name.now left right }
{
    if name == "#=" {
        Role::Equates
    } else if is_comparing(name) {
        Role::Compares
    } else if name == "is" {
        Role::Evaluates(left, right)
    } else {
        Role::Gives
    }
}

/// What a goal of one argument with this name does, where it isn't a constraint.
fn one_part_role(name: &str, inner: TermId) -> Role
    ensures { result ≡ one_part_role name.now inner }
{
    if name == "\\+" {
        Role::Negates(inner)
    } else {
        Role::Gives
    }
}

/// What the goal does.
pub(crate) fn role_of(pool: &Pool, goal: TermId) -> Role
    requires { goal.number < length pool.now.entries }
    ensures { IsRoleOf pool.now goal result }
{
    if is_tying(pool, goal) {
        return Role::Ties;
    }
    match parts_of(pool, goal) {
        Parts::One(name, inner) => one_part_role(pool.name_of(name), inner),
        Parts::Two(name, left, right) => two_parts_role(pool.name_of(name), left, right),
        Parts::Other => Role::Gives,
    }
}
