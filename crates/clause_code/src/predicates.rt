//! The predicates of a program, by their numbers.

ghost use Rattle.std.specs.Prelude.{◌≡◌, ◌+◌, ◌<◌, ℕ, Some, length, slice_get, IfOk, IfSome, IfNone, OnOk};
ghost use Rattle.term_pool.specs.Terms.{term_of};
ghost use Rattle.term_pool.specs.PoolInvariant.{IsPool};
ghost use Rattle.clause_check.specs.Programs.{program_in};
ghost use Rattle.clause_code.specs.CodablePrograms.{IsCodable};
ghost use Rattle.clause_code.specs.Pieces.{Predicate};
ghost use Rattle.clause_code.specs.declared.predicates.Functor.{Functor};
ghost use Rattle.clause_code.specs.Predicates.{ArePredicates, IsCallOfOne, IsNumberOf, HasFunctor, Gathered, predicate_at};

use clause_check::{FlatGoal, Program};
use fd_language::NoMemory;
use indexmap::IndexSet;
use std::alloc::Global;
use std::marker::Model;
use term_pool::{AtomId, Node, Pool, TermId};

/// A name, and the number of its arguments.
#[derive(Clone, Copy, PartialEq, Eq, Hash, Drop)]
struct Functor {
    name: AtomId,
    arity: usize,
}

/// The predicates that a program names, each with its number from 0.
#[derive(Drop)]
pub struct Predicates {
    functors: IndexSet<Functor>,
}

impl Model for Predicates {
    ghost use Rattle.std.specs.Prelude.{List, map};
    ghost use Rattle.clause_code.specs.Pieces.{Predicate};
    ghost use Rattle.clause_code.specs.Predicates.{predicate_in};

    ghost Value = { List Predicate };

    ghost view = { λ p. map predicate_in p.functors.keys };
}

impl Predicates {
    /// How many there are.
    pub fn len(&self) -> usize
        ensures { result ≡ length self.now }
    {
        self.functors.len()
    }

    /// The number of the predicate with this name and so many arguments.
    pub fn number_of(&self, name: AtomId, arity: usize) -> Option<usize>
        ensures found { IfSome result (λ n. slice_get self.now n
            ≡ Some (record { name = name; arity = arity })) }
        ensures none { IfNone result ((n : ℕ) → slice_get self.now n
            ≡ Some (record { name = name; arity = arity }) → ⊥) }
    {
        self.functors.get_index_of(&Functor { name, arity })
    }

    /// The number of the predicate that a user goal calls.
    pub(crate) fn number_of_goal(&self, pool: &Pool, t: TermId) -> usize
        requires own { t.number < length pool.now.entries }
        requires one { IsCallOfOne pool.now self.now (term_of pool.now t) }
        ensures { IsNumberOf pool.now self.now (term_of pool.now t) result }
    {
        let functor = functor_of(pool, t).unwrap();
        self.number_of(functor.name, functor.arity).unwrap()
    }

    /// The name of the predicate with this number.
    pub fn name(&self, n: usize) -> AtomId
        requires { n < length self.now }
        ensures { result ≡ (predicate_at self.now n).name }
    {
        self.functors.get_index(n).unwrap().name
    }

    /// How many arguments the predicate with this number has.
    pub fn arity(&self, n: usize) -> usize
        requires { n < length self.now }
        ensures { result ≡ (predicate_at self.now n).arity }
    {
        self.functors.get_index(n).unwrap().arity
    }
}

/// The functor of a head or of a user goal, which has 1 to 255 arguments if it is compound.
fn functor_of(pool: &Pool, t: TermId) -> Option<Functor>
    requires { t.number < length pool.now.entries }
    ensures found { IfSome result (HasFunctor pool.now (term_of pool.now t)) }
    ensures none { IfNone result ((f : Functor) → HasFunctor pool.now (term_of pool.now t) f → ⊥) }
    ensures valid { IsPool pool.now }
{
    match pool.view(t) {
        Node::Atom(name) => Some(Functor { name, arity: 0 }),
        Node::Comp(name, parts) if 1 <= parts.len() && parts.len() <= 255 => Some(Functor {
            name,
            arity: parts.len(),
        }),
        _ => None,
    }
}

/// Adds the functor of the goal i, if it is a user goal and its functor isn't there. No goal of a text is without one.
fn add_call(functors: &mut IndexSet<Functor>, program: &Program, i: usize) -> Result<(), NoMemory>
    requires { i < length program.now.goals }
    ensures { OnOk result ((heads : ℕ) → Gathered program.now heads i functors.old.keys
        → Gathered program.now heads (i + 1) functors.new.keys) }
{
    if let FlatGoal::Call(t) = program.goal(i) {
        let functor = functor_of(program.pool(), t).ok_or(NoMemory)?;
        functors.insert_full(functor)?;
    }
    Ok(())
}

/// The functors of the clauses' heads.
fn functors_of_heads(alloc: Global, program: &Program) -> Result<IndexSet<Functor>, NoMemory>
    ensures { IfOk result (λ s. Gathered program.now (length program.now.clauses) 0 s.keys) }
{
    program.known();
    let mut functors = IndexSet::new(alloc);
    for clause in 0..program.clauses() {
        let functor = functor_of(program.pool(), program.head(clause)).unwrap();
        functors.insert_full(functor)?;
    }
    Ok(functors)
}

/// The predicates of a program: each functor of a head or of a user goal has one number. The error is want of memory.
pub fn predicates_of(alloc: Global, program: &Program) -> Result<Predicates, NoMemory>
    requires { IsCodable (program_in program.now) }
    ensures { IfOk result (ArePredicates program.now) }
{
    let mut functors = functors_of_heads(alloc, program)?;
    for i in 0..program.goals() {
        add_call(&mut functors, program, i)?;
    }
    Ok(Predicates { functors })
}
