//! Terms by their names and parts, and the integers and variables among them.

ghost use Rattle.std.specs.Prelude.{◌≡◌, ◌<◌, length};
ghost use Rattle.term_pool.specs.PlacedTerms.{placed_of};
ghost use Rattle.text_warnings.specs.PartViews.{ArePartsOf};
ghost use Rattle.text_warnings.specs.TermParts.{integer_of, is_variable};

use crate::terms::look;
use term_pool::{AtomId, Node, Pool, TermId};

/// A term by its name and its parts.
#[derive(Clone, Copy)]
pub(crate) enum Parts {
    /// A compound term of one part.
    One(AtomId, TermId),
    /// A compound term of two parts.
    Two(AtomId, TermId, TermId),
    /// Any other term.
    Other,
}

/// The name and the parts of the term.
pub(crate) fn parts_of(pool: &Pool, t: TermId) -> Parts
    requires { t.number < length pool.now.entries }
    ensures { ArePartsOf pool.now t result }
{
    match look(pool, t) {
        Node::Comp(name, &[inner]) => Parts::One(name, inner),
        Node::Comp(name, &[left, right]) => Parts::Two(name, left, right),
        _ => Parts::Other,
    }
}

/// The integer that the term is, if it is one.
pub(crate) fn integer_of(pool: &Pool, t: TermId) -> Option<i64>
    requires { t.number < length pool.now.entries }
    ensures { result ≡ integer_of (placed_of pool.now t) }
{
    match look(pool, t) {
        Node::Int(integer) => Some(integer),
        Node::Var(_) | Node::Atom(_) | Node::Comp(..) => None,
    }
}

/// Whether the term is a variable.
pub(crate) fn is_variable(pool: &Pool, t: TermId) -> bool
    requires { t.number < length pool.now.entries }
    ensures { result ≡ is_variable (placed_of pool.now t) }
{
    match look(pool, t) {
        Node::Var(_) => true,
        Node::Int(_) | Node::Atom(_) | Node::Comp(..) => false,
    }
}
