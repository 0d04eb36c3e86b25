//! The predicates that no query reaches.

ghost use Rattle.std.specs.Prelude.{◌≡◌, ◌++◌, [], map, All, OnOk};
ghost use Rattle.term_reader.specs.Sentences.{sentences_of, AreOwn};
ghost use Rattle.text_warnings.specs.Graphs.{is_missed, is_reached, unreached_among, unreached_at, AddsUnreached, AreKeys, AreNames, AreReached};
ghost use Rattle.text_warnings.specs.WarningViews.{clause_in, AddsPredicates, IsOwn};
ghost use Rattle.text_warnings.specs.Clauses.{clauses_in};

use crate::calls::{edges_of, starts_of};
use crate::clauses::{Clause, clauses_of, query_bodies};
use crate::files::is_last;
use crate::predicates::{collect, open_files};
use crate::reach::reach;
use crate::terms::Functor;
use crate::{Concern, Warning};
use fd_language::NoMemory;
use indexmap::IndexSet;
use std::alloc::Global;
use term_reader::Sentences;

/// Whether the predicate has a number among the reached ones.
fn is_reached(functors: &IndexSet<Functor>, reached: &IndexSet<usize>, functor: Functor) -> bool
    ensures { result ≡ is_reached functors.now.keys reached.now.keys functor }
{
    match functors.get_index_of(&functor) {
        Some(number) => reached.contains(&number),
        None => false,
    }
}

/// Whether the clause is of the last file, and of a predicate that isn't among the reached ones.
fn is_missed(
    functors: &IndexSet<Functor>,
    reached: &IndexSet<usize>,
    starts: &[usize],
    clause: Clause,
) -> bool
    ensures { result ≡ is_missed starts.now functors.now.keys reached.now.keys clause }
{
    !is_reached(functors, reached, clause.functor) && is_last(starts, clause.place)
}

/// Warns of the predicates that aren't reached, each at its first clause, where that is of the last file.
fn put_unreached(
    functors: &IndexSet<Functor>,
    reached: &IndexSet<usize>,
    starts: &[usize],
    first: &[Clause],
    warnings: &mut Vec<Warning>,
) -> Result<(), NoMemory>
    ensures { OnOk result (warnings.new.items ≡ warnings.old.items ++ map unreached_at
        (unreached_among starts.now functors.now.keys reached.now.keys first.now)) }
{
    for clause in first {
        if is_missed(functors, reached, starts, *clause) {
            let Clause { functor, place, .. } = *clause;
            let concern = Concern::Unreached(functor);
            warnings.push(Warning { place, concern })?;
        }
    }
    Ok(())
}

/// Puts the numbers of the predicates that a query reaches into the empty set.
fn reach_all(
    alloc: Global,
    sentences: &Sentences,
    clauses: &[Clause],
    functors: &IndexSet<Functor>,
    reached: &mut IndexSet<usize>,
) -> Result<(), NoMemory>
    requires own { AreOwn sentences.now }
    requires names { AreNames sentences.now.pool functors.now.keys }
    requires clauses { All (IsOwn sentences.now.pool) clauses.now }
    requires none { reached.old.keys ≡ [] }
    ensures { OnOk result (AreReached sentences.now functors.now.keys clauses.now
        reached.new.keys) }
{
    let pool = &sentences.pool;
    let bodies = query_bodies(alloc, sentences)?;
    let starts = starts_of(alloc, pool, functors, &bodies)?;
    let edges = edges_of(alloc, pool, functors, clauses)?;
    reach(&starts, &edges, reached)
}

/// Warns of the predicates that no query reaches, each at its first clause, where that is of the last file.
fn put_by(
    alloc: Global,
    sentences: &Sentences,
    starts: &[usize],
    clauses: &[Clause],
    functors: &IndexSet<Functor>,
    first: &[Clause],
    warnings: &mut Vec<Warning>,
) -> Result<(), NoMemory>
    requires own { AreOwn sentences.now }
    requires clauses { All (IsOwn sentences.now.pool) clauses.now }
    requires functors { AreKeys clauses.now functors.now.keys }
    ensures { OnOk result (AddsUnreached starts.now sentences.now clauses.now functors.now.keys
        first.now warnings.old.items warnings.new.items) }
{
    let mut reached = IndexSet::new(alloc);
    reach_all(alloc, sentences, clauses, functors, &mut reached)?;
    put_unreached(functors, &reached, starts, first, warnings)
}

/// Warns of the clauses that don't stand together, of predicates in two files, and of the predicates that no query reaches. The set and
/// `first` are empty: room.
fn put_found(
    alloc: Global,
    sentences: &Sentences,
    starts: &[usize],
    clauses: &[Clause],
    functors: &mut IndexSet<Functor>,
    first: &mut Vec<Clause>,
    warnings: &mut Vec<Warning>,
) -> Result<(), NoMemory>
    requires own { AreOwn sentences.now }
    requires clauses { All (IsOwn sentences.now.pool) clauses.now }
    requires kept { map (clause_in sentences.now.pool) clauses.now
        ≡ clauses_in (sentences_of sentences.now) }
    requires functors { functors.old.keys ≡ [] }
    requires first { first.old.items ≡ [] }
    ensures { OnOk result (AddsPredicates starts.now sentences.now warnings.old.items
        warnings.new.items) }
{
    let mut known = IndexSet::new(alloc);
    let mut opening = Vec::new(alloc);
    open_files(starts, clauses, &mut known, &mut opening, warnings)?;
    collect(&opening, functors, first, warnings)?;
    put_by(alloc, sentences, starts, clauses, functors, first, warnings)
}

/// Warns of the clauses that don't stand together, of predicates in two files, and of the predicates that no query reaches.
pub(crate) fn put_predicates(
    alloc: Global,
    sentences: &Sentences,
    starts: &[usize],
    warnings: &mut Vec<Warning>,
) -> Result<(), NoMemory>
    requires { AreOwn sentences.now }
    ensures { OnOk result (AddsPredicates starts.now sentences.now warnings.old.items
        warnings.new.items) }
{
    let clauses = clauses_of(alloc, sentences)?;
    let mut functors = IndexSet::new(alloc);
    let mut first = Vec::new(alloc);
    put_found(
        alloc,
        sentences,
        starts,
        &clauses,
        &mut functors,
        &mut first,
        warnings,
    )
}
