//! Clauses by the keys of their first arguments.

ghost use Rattle.std.specs.Prelude.{◌≡◌, ◌++◌, ℕ, ◌<◌, ◌∷◌, [], All, IfOk, IfSome, IsTrue, List, OnOk, Some, is_some, length};
ghost use Rattle.clause_check.specs.Programs.{FlatProgram};
ghost use Rattle.clause_compiler.specs.Keys.{have_keys, is_tabled, key_of};
ghost use Rattle.clause_compiler.specs.ClauseKeys.{AreKeyed, label};

use crate::keys::first_key;
use clause_check::Program;
use fd_language::NoMemory;
use indexmap::IndexSet;
use std::alloc::Global;
use term_pool::AtomId;
use wam_code::Key;

/// A key, as it is looked up and sorted: atoms by their numbers, integers by value, structures by
/// their names' numbers and then by how many arguments they have.
#[derive(Clone, Copy, PartialEq, Eq, PartialOrd, Ord, Hash, Drop)]
pub(crate) enum Label {
    Atom(AtomId),
    Integer(i64),
    Structure(AtomId, u8),
}

/// Each key once, with the clauses that have it, by their numbers.
#[derive(Drop)]
pub(crate) struct Keyed {
    labels: IndexSet<Label>,
    pub(crate) keys: Vec<Key>,
    pub(crate) lists: Vec<Vec<usize>>,
}

/// The label of a key.
pub(crate) fn label_of(key: Key) -> Label
    ensures { result ≡ label key }
{
    match key {
        Key::Atom(name) => Label::Atom(name),
        Key::Int(value) => Label::Integer(value),
        Key::Struct(name, arity) => Label::Structure(name, arity),
    }
}

/// Adds a clause with this key. The error is want of memory.
fn add(alloc: Global, keyed: &mut Keyed, key: Key, clause: usize) -> Result<(), NoMemory>
    requires { length keyed.old.lists.items ≡ length keyed.old.labels.keys }
    ensures { OnOk result ((p : FlatProgram) (ns : List ℕ) → key_of p clause ≡ Some key
        → AreKeyed p ns keyed.old → AreKeyed p (ns ++ clause ∷ []) keyed.new) }
{
    let (n, is_new) = keyed.labels.insert_full(label_of(key))?;
    if is_new {
        let mut list = Vec::new(alloc);
        list.push(clause)?;
        keyed.keys.push(key)?;
        keyed.lists.push(list)?;
    } else {
        keyed.lists[n].push(clause)?;
    }
    Ok(())
}

/// Adds the clauses by their keys, up to the first that has none; gives whether each has one. The
/// error is want of memory.
fn add_all(
    alloc: Global,
    program: &Program,
    clauses: &[usize],
    keyed: &mut Keyed,
) -> Result<bool, NoMemory>
    requires clauses { All (λ c. c < length program.now.clauses) clauses.now }
    requires none { AreKeyed program.now [] keyed.old }
    ensures each { IfOk result (λ b. b ≡ have_keys program.now clauses.now) }
    ensures keyed { IfOk result (λ b. IsTrue b → AreKeyed program.now clauses.now keyed.new) }
{
    for i in 0..clauses.len() {
        match first_key(program, clauses[i]) {
            Some(key) => add(alloc, keyed, key, clauses[i])?,
            None => return Ok(false),
        }
    }
    Ok(true)
}

/// The clauses by their keys, if these tell them apart: there are two or more, and each has one.
/// The error is want of memory.
pub(crate) fn keyed_of(
    alloc: Global,
    program: &Program,
    clauses: &[usize],
) -> Result<Option<Keyed>, NoMemory>
    requires clauses { All (λ c. c < length program.now.clauses) clauses.now }
    ensures keyed { IfOk result (λ o. IfSome o (AreKeyed program.now clauses.now)) }
    ensures some { IfOk result (λ o. is_some o ≡ is_tabled program.now clauses.now) }
{
    if clauses.len() < 2 {
        return Ok(None);
    }
    let mut keyed = Keyed {
        labels: IndexSet::new(alloc),
        keys: Vec::new(alloc),
        lists: Vec::new(alloc),
    };
    if add_all(alloc, program, clauses, &mut keyed)? {
        Ok(Some(keyed))
    } else {
        Ok(None)
    }
}
