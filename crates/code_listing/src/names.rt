//! The names of goals.

ghost use Rattle.std.specs.Prelude.{◌≡◌, ◌++◌, OnOk};
ghost use Rattle.code_listing.specs.Names as names;

use crate::numbers::put_number;
use fd_language::NoMemory;
use fd_model::kinds::{BuiltinKind, ConstraintKind, Order, Relation};
use std::alloc::Global;
use term_writer::write_atom;

/// The name of a relation.
fn relation_name(relation: Relation) -> &'static str
    ensures { result.now ≡ names.relation_name relation }
{
    match relation {
        Relation::Equal => "#=",
        Relation::Differ => "#\\=",
        Relation::Less => "#<",
        Relation::AtMost => "#=<",
        Relation::Greater => "#>",
        Relation::AtLeast => "#>=",
    }
}

/// The name of a kind of constraint.
fn constraint_name(kind: ConstraintKind) -> &'static str
    ensures { result.now ≡ names.constraint_name kind }
{
    match kind {
        ConstraintKind::Compare(relation) => relation_name(relation),
        ConstraintKind::AllDifferent => "fd_all_different",
        ConstraintKind::Element => "fd_element",
        ConstraintKind::Atmost => "fd_atmost",
        ConstraintKind::And => "fd_and",
        ConstraintKind::Or => "fd_or",
        ConstraintKind::Not => "fd_not",
        ConstraintKind::Reified => "#<=>",
    }
}

/// The name of a kind of built-in goal.
fn builtin_name(kind: BuiltinKind) -> &'static str
    ensures { result.now ≡ names.builtin_name kind }
{
    match kind {
        BuiltinKind::True => "true",
        BuiltinKind::Fail => "fail",
        BuiltinKind::False => "false",
        BuiltinKind::Unify => "=",
        BuiltinKind::Same => "==",
        BuiltinKind::NotSame => "\\==",
        BuiltinKind::Is => "is",
        BuiltinKind::NumEqual => "=:=",
        BuiltinKind::NumDiffer => "=\\=",
        BuiltinKind::NumLess => "<",
        BuiltinKind::NumAtMost => "=<",
        BuiltinKind::NumGreater => ">",
        BuiltinKind::NumAtLeast => ">=",
        BuiltinKind::Var => "var",
        BuiltinKind::Nonvar => "nonvar",
        BuiltinKind::Integer => "integer",
        BuiltinKind::Atom => "atom",
        BuiltinKind::Atomic => "atomic",
        BuiltinKind::Compound => "compound",
        BuiltinKind::Write => "write",
        BuiltinKind::Nl => "nl",
        BuiltinKind::FdMin => "fd_min",
        BuiltinKind::FdMax => "fd_max",
        BuiltinKind::FdSize => "fd_size",
        BuiltinKind::FdDom => "fd_dom",
    }
}

/// Appends a name as an atom is written, and a number of arguments.
fn put_functor(alloc: Global, text: &mut Vec<u8>, name: &str, arity: usize) -> Result<(), NoMemory>
    ensures { OnOk result (text.new.items
        ≡ text.old.items ++ names.functor_word name.now arity) }
{
    write_atom(alloc, name, false, text)?;
    text.push(b'/')?;
    put_number(text, arity)
}

/// Appends the word of a constraint.
pub(crate) fn put_constraint(
    alloc: Global,
    text: &mut Vec<u8>,
    kind: ConstraintKind,
) -> Result<(), NoMemory>
    ensures { OnOk result (text.new.items ≡ text.old.items ++ names.constraint_word kind) }
{
    put_functor(alloc, text, constraint_name(kind), kind.arity())
}

/// Appends the word of a built-in goal.
pub(crate) fn put_builtin(
    alloc: Global,
    text: &mut Vec<u8>,
    kind: BuiltinKind,
) -> Result<(), NoMemory>
    ensures { OnOk result (text.new.items ≡ text.old.items ++ names.builtin_word kind) }
{
    put_functor(alloc, text, builtin_name(kind), kind.arity())
}

/// The word of an order.
pub(crate) fn order_word(order: Order) -> &'static [u8]
    ensures { result.now ≡ names.order_word order }
{
    match order {
        Order::Leftmost => b"leftmost",
        Order::FirstFail => b"firstfail",
    }
}

/// The word of the cost that is wanted: the least, or the greatest.
pub(crate) fn aim_word(least: bool) -> &'static [u8]
    ensures { result.now ≡ names.aim_word least }
{
    if least { b"least" } else { b"greatest" }
}
