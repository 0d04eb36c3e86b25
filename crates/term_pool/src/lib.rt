//! Terms in flat vectors, with interned atoms.
//!
//! A pool numbers its atoms and its terms, each from 0. A term's parts have smaller numbers than it has, so a walk from a term to
//! its parts ends.
#![tactic(auto)]

ghost use Rattle.std.specs.Prelude.{◌≡◌, ◌<◌, ◌++◌, [], ◌∷◌, length, map, string_bytes, slice_get, Some, Ok, IsTrue, IsOk, IfOk, OnOk, OnErr};
ghost use Rattle.std.specs.List.{list_any};
ghost use Rattle.std.specs.Str.{bytes_eq};
ghost use Rattle.term_pool.specs.declared.AtomId.{AtomId as AtomNumber};
ghost use Rattle.term_pool.specs.Contents.{Contents, first_names, atom_name, shape_at, place_at, interned};
ghost use Rattle.term_pool.specs.Terms.{term_of, shape_term, KeepsTerms, Extends};
ghost use Rattle.term_pool.specs.PoolInvariant.{IsPool, IsWithin, HasMachineNumbers, shape_of};
ghost use Rattle.term_pool.specs.PoolFields.{stored_shape, HasParts, Grows};

use fd_language::NoMemory;
use indexmap::IndexSet;
use std::alloc::{AllocError, Global};
use std::marker::Model;

/// An atom of a pool.
#[derive(Clone, Copy, Debug, PartialEq, Eq, PartialOrd, Ord, Hash)]
pub struct AtomId {
    /// Its number, from 0 in the order in which the atoms came.
    pub number: usize,
}

/// A term of a pool.
#[derive(Clone, Copy, PartialEq, Eq, Hash)]
pub struct TermId {
    /// Its number, from 0 in the order in which the terms came.
    pub number: usize,
}

/// The atom `[]`, the empty list, in every pool.
pub const NIL: AtomId = AtomId { number: 0 };

/// The atom `.`, the name of a list's cells, in every pool.
pub const CONS: AtomId = AtomId { number: 1 };

/// The atom `..`, the name of intervals, in every pool.
pub const SPAN: AtomId = AtomId { number: 2 };

/// What a term is at its top.
#[derive(Clone, Copy)]
pub enum Node<'p> {
    /// A variable, by its number.
    Var(u64),
    /// An integer.
    Int(i64),
    /// An atom.
    Atom(AtomId),
    /// A compound term: the atom that names it, and its parts.
    Comp(AtomId, &'p [TermId]),
}

/// A node whose parts are `count` ids from `first` on in the pool's list of parts.
#[derive(Clone, Copy)]
enum Stored {
    Var(u64),
    Int(i64),
    Atom(AtomId),
    Comp(AtomId, usize, usize),
}

/// A node and its place in the text, in bytes.
#[derive(Clone, Copy)]
struct Placed {
    node: Stored,
    place: usize,
}

/// Terms and atoms, each found by its number.
#[derive(Drop)]
pub struct Pool {
    atoms: IndexSet<String>,
    nodes: Vec<Placed>,
    parts: Vec<TermId>,
}

impl Model for Pool {
    ghost use Rattle.term_pool.specs.Contents.{Contents};

    ghost Value = { Contents };

    ghost use Rattle.std.specs.Prelude.{map, string_bytes};
    ghost use Rattle.term_pool.specs.PoolFields.{entries_of, AreStored};

    ghost view = { λ p. record {
      names = map string_bytes p.atoms.keys;
      entries = entries_of
          p.parts.items p.nodes.items;
    } };

    ghost invariant = { λ p. AreStored (map string_bytes p.atoms.keys) p.parts.items
        p.nodes.items };
}

/// The number of a name, which is added where it is not there.
fn intern(atoms: &mut IndexSet<String>, text: &str) -> Result<AtomId, NoMemory>
    ensures known { IsTrue (list_any (bytes_eq text.now) (map string_bytes atoms.old.keys))
        → IsOk result }
    ensures stands { IfOk result (λ a. slice_get (map string_bytes atoms.new.keys) a.number
        ≡ Some text.now) }
    ensures names { OnOk result (map string_bytes atoms.new.keys ≡ interned
        (map string_bytes atoms.old.keys) text.now) }
    ensures err { OnErr result (map string_bytes atoms.new.keys ≡ map string_bytes atoms.old.keys) }
{
    if let Some(number) = atoms.get_index_of(text) {
        return Ok(AtomId { number });
    }
    let name = String::from_str(*atoms.allocator(), text)?;
    let (number, _) = atoms.insert_full(name)?;
    Ok(AtomId { number })
}

/// Puts the names of `NIL`, `CONS` and `SPAN` into the empty set.
fn intern_first(atoms: &mut IndexSet<String>) -> Result<(), NoMemory>
    requires { atoms.now.keys ≡ [] }
    ensures { OnOk result (map string_bytes atoms.new.keys ≡ first_names) }
{
    intern(atoms, "[]")?;
    intern(atoms, ".")?;
    intern(atoms, "..")?;
    Ok(())
}

/// Puts a node's parts behind the others.
fn store(parts: &mut Vec<TermId>, node: Node<'_>) -> Result<Stored, AllocError>
    ensures grows { Grows parts.old.items parts.new.items }
    ensures shape { IfOk result (λ s. stored_shape parts.new.items s ≡ shape_of node.entry) }
    ensures parts { IfOk result (HasParts (length parts.new.items)) }
    ensures machine { HasMachineNumbers (shape_of node.entry) }
{
    match node {
        Node::Var(variable) => Ok(Stored::Var(variable)),
        Node::Int(integer) => Ok(Stored::Int(integer)),
        Node::Atom(atom) => Ok(Stored::Atom(atom)),
        Node::Comp(name, ids) => {
            let first = parts.len();
            parts.extend_from_slice(ids)?;
            Ok(Stored::Comp(name, first, ids.len()))
        }
    }
}

/// The node that was stored.
fn node_of(parts: &[TermId], stored: Stored) -> Node<'_>
    requires { HasParts (length parts.now) stored }
    ensures { shape_of result ≡ stored_shape parts.now stored }
{
    match stored {
        Stored::Var(variable) => Node::Var(variable),
        Stored::Int(integer) => Node::Int(integer),
        Stored::Atom(atom) => Node::Atom(atom),
        Stored::Comp(name, first, count) => Node::Comp(name, &parts[first..first + count]),
    }
}

impl Pool {
    /// A pool with no terms and the three atoms `NIL`, `CONS` and `SPAN`. The error is want of memory.
    pub fn new(alloc: Global) -> Result<Pool, NoMemory>
        ensures empty { IfOk result (λ p. p ≡ record { names = first_names; entries = [] }) }
        ensures valid { IfOk result IsPool }
    {
        let mut atoms = IndexSet::new(alloc);
        intern_first(&mut atoms)?;
        Ok(Pool {
            atoms,
            nodes: Vec::new(alloc),
            parts: Vec::new(alloc),
        })
    }

    /// The number of atoms.
    pub fn atoms(&self) -> usize
        ensures count { result ≡ length self.now.names }
        ensures valid { IsPool self.now }
    {
        self.atoms.len()
    }

    /// The atom with this name, which is added behind the others where it is not there. A name that is there takes no memory. The
    /// error is want of memory, and the pool is then as before.
    pub fn atom(&mut self, text: &str) -> Result<AtomId, NoMemory>
        ensures own { IfOk result (λ a. a.number < length self.new.names) }
        ensures name { IfOk result (λ a. atom_name self.new a ≡ text.now) }
        ensures known { (a : AtomNumber) → a.number < length self.old.names → atom_name self.old a
            ≡ text.now → result ≡ Ok a }
        ensures names { OnOk result
            (self.new ≡ record self.old { names = interned self.old.names text.now }) }
        ensures err { OnErr result (self.new ≡ self.old) }
        ensures kept { KeepsTerms self.old self.new }
        ensures extends { Extends self.old self.new }
        ensures valid { IsPool self.new }
    {
        intern(&mut self.atoms, text)
    }

    /// The name of an atom of this pool.
    pub fn name_of(&self, a: AtomId) -> &str
        requires { a.number < length self.now.names }
        ensures name { result.now ≡ atom_name self.now a }
        ensures valid { IsPool self.now }
    {
        self.atoms[a.number].as_str()
    }

    /// A new term, behind the others, with its place in the text in bytes. The ids in the node are of this pool. The error is want
    /// of memory, and the pool is then as before.
    pub fn add(&mut self, node: Node<'_>, place: usize) -> Result<TermId, NoMemory>
        requires { IsWithin (length self.old.names) (length self.old.entries) (shape_of node) }
        ensures id { IfOk result (λ t. t.number ≡ length self.old.entries) }
        ensures added { OnOk result
            (self.new ≡ record self.old {
              entries = self.old.entries ++ record
                  { shape = shape_of node.entry; place = place } ∷ [];
            }) }
        ensures term { IfOk result (λ t. term_of self.new t ≡ shape_term self.old
            (shape_of node.entry)) }
        ensures err { OnErr result (self.new ≡ self.old) }
        ensures kept { KeepsTerms self.old self.new }
        ensures extends { Extends self.old self.new }
        ensures valid { IsPool self.new }
    {
        let number = self.nodes.len();
        let node = store(&mut self.parts, node)?;
        self.nodes.push(Placed { node, place })?;
        Ok(TermId { number })
    }

    /// What a term of this pool is at its top. Its parts have smaller numbers.
    pub fn view(&self, t: TermId) -> Node<'_>
        requires { t.number < length self.now.entries }
        ensures shape { shape_at self.now t ≡ Some (shape_of result) }
        ensures within { IsWithin (length self.now.names) t.number (shape_of result) }
        ensures term { term_of self.now t ≡ shape_term self.now (shape_of result) }
        ensures valid { IsPool self.now }
    {
        node_of(&self.parts, self.nodes[t.number].node)
    }

    /// The place of a term of this pool in the text, in bytes.
    pub fn place(&self, t: TermId) -> usize
        requires { t.number < length self.now.entries }
        ensures place { place_at self.now t ≡ Some result }
        ensures valid { IsPool self.now }
    {
        self.nodes[t.number].place
    }
}
