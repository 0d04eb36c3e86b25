//! What the first argument of a clause's head shows.

ghost use Rattle.std.specs.Prelude.{◌≡◌, ◌<◌, All, IfOk, is_some, length};
ghost use Rattle.std.specs.List.{list_any};
ghost use Rattle.clause_compiler.specs.Keys.{is_switched, key_of, kind_numbers, may_be, term_key};

use clause_check::Program;
use fd_language::NoMemory;
use std::alloc::Global;
use term_pool::{Node, Pool, TermId};
use wam_code::Key;

/// What a first argument may be that is no variable.
#[derive(Clone, Copy)]
pub(crate) enum Kind {
    Atom,
    Integer,
    Structure,
}

/// The key of a term, unless it is a variable.
fn key_of_term(pool: &Pool, t: TermId) -> Option<Key>
    requires { t.number < length pool.now.entries }
    ensures { result ≡ term_key pool.now t }
{
    match pool.view(t) {
        Node::Atom(name) => Some(Key::Atom(name)),
        Node::Int(value) => Some(Key::Int(value)),
        Node::Comp(name, parts) if parts.len() <= 255 => {
            Some(Key::Struct(name, parts.len() as u8))
        }
        Node::Comp(_, _) | Node::Var(_) => None,
    }
}

/// The key of the first argument of the clause's head, unless it is a variable or there is none.
pub(crate) fn first_key(program: &Program, clause: usize) -> Option<Key>
    requires { clause < length program.now.clauses }
    ensures { result ≡ key_of program.now clause }
{
    match program.pool().view(program.head(clause)) {
        Node::Comp(_, parts) if !parts.is_empty() => key_of_term(program.pool(), parts[0]),
        _ => None,
    }
}

/// Whether a first argument of the kind may fit where the key stands.
fn may_fit(kind: Kind, key: Option<Key>) -> bool
    ensures { result ≡ may_be kind key }
{
    match (kind, key) {
        (_, None) => true,
        (Kind::Atom, Some(Key::Atom(_))) => true,
        (Kind::Integer, Some(Key::Int(_))) => true,
        (Kind::Structure, Some(Key::Struct(_, _))) => true,
        _ => false,
    }
}

/// Those of the clauses that may fit a first argument of the kind. The error is want of memory.
pub(crate) fn clauses_of_kind(
    alloc: Global,
    program: &Program,
    clauses: &[usize],
    kind: Kind,
) -> Result<Vec<usize>, NoMemory>
    requires clauses { All (λ c. c < length program.now.clauses) clauses.now }
    ensures { IfOk result (λ v. v.items ≡ kind_numbers program.now kind clauses.now) }
{
    let mut own = Vec::new(alloc);
    for i in 0..clauses.len() {
        if may_fit(kind, first_key(program, clauses[i])) {
            own.push(clauses[i])?;
        }
    }
    Ok(own)
}

/// Whether the first argument of one of the clauses has a key.
fn has_key(program: &Program, clauses: &[usize]) -> bool
    requires clauses { All (λ c. c < length program.now.clauses) clauses.now }
    ensures { result ≡ list_any (λ n. is_some (key_of program.now n)) clauses.now }
{
    for i in 0..clauses.len() {
        if first_key(program, clauses[i]).is_some() {
            return true;
        }
    }
    false
}

/// Whether the first argument tells clauses with so many arguments apart: there are two or more,
/// and in one of them it has a key.
pub(crate) fn are_told_apart(program: &Program, clauses: &[usize], arity: usize) -> bool
    requires clauses { All (λ c. c < length program.now.clauses) clauses.now }
    ensures { result ≡ is_switched program.now arity clauses.now }
{
    arity >= 1 && clauses.len() >= 2 && has_key(program, clauses)
}
