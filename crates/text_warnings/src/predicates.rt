//! The predicates of a text, each with its first clause, in each file and in the text, and the clauses that don't stand where those of
//! their predicate do.

ghost use Rattle.std.specs.Prelude.{◌≡◌, ◌++◌, ◌&&◌, [], ◌∷◌, map, not, OnOk, if◌then◌else◌};
ghost use Rattle.std.specs.List.{list_any};
ghost use Rattle.indexmap.specs.IndexSet.{insert_key};
ghost use Rattle.text_warnings.specs.Graphs.{apart_at, filed_at, firsts, file_firsts, repeated, resumed, two_at, AreKeys};
ghost use Rattle.text_warnings.specs.Terms.{is_after, same_filed, same_numbers};

use crate::clauses::Clause;
use crate::files::file_of;
use crate::terms::{Filed, Functor};
use crate::{Concern, Warning};
use fd_language::NoMemory;
use indexmap::IndexSet;

/// Whether the clause before is of this predicate, in this file.
fn is_after(before: Option<Filed>, filed: Filed) -> bool
    ensures { result ≡ is_after before filed }
{
    match before {
        Some(other) => filed == other,
        None => false,
    }
}

/// The predicate of the clause in its file.
fn filed_at(starts: &[usize], clause: Clause) -> Filed
    ensures { result ≡ filed_at starts.now clause }
{
    Filed {
        file: file_of(starts, clause.place),
        functor: clause.functor,
    }
}

/// Notes one more clause of this predicate in its file, behind those of which the last one is of `before`.
fn add(
    clause: Clause,
    filed: Filed,
    before: Option<Filed>,
    known: &mut IndexSet<Filed>,
    opening: &mut Vec<Clause>,
    warnings: &mut Vec<Warning>,
) -> Result<(), NoMemory>
    ensures known { OnOk result (known.new.keys ≡ insert_key same_filed known.old.keys filed) }
    ensures opening { OnOk result (opening.new.items ≡ opening.old.items ++ (if list_any (same_filed
        filed) known.old.keys then [] else clause ∷ [])) }
    ensures apart { OnOk result (warnings.new.items ≡ warnings.old.items ++ (if list_any
        (same_filed filed) known.old.keys && not (is_after before filed)
        then apart_at clause ∷ [] else [])) }
{
    let Clause { functor, place, .. } = clause;
    let (_, is_new) = known.insert_full(filed)?;
    if is_new {
        opening.push(clause)?;
        return Ok(());
    }
    if !is_after(before, filed) {
        let concern = Concern::Apart(functor);
        warnings.push(Warning { place, concern })?;
    }
    Ok(())
}

/// Puts the first clause of each predicate in each file into `opening`, and warns of each clause whose predicate has an earlier one in
/// its file, but not right before it. The set is empty: room.
pub(crate) fn open_files(
    starts: &[usize],
    clauses: &[Clause],
    known: &mut IndexSet<Filed>,
    opening: &mut Vec<Clause>,
    warnings: &mut Vec<Warning>,
) -> Result<(), NoMemory>
    requires known { known.old.keys ≡ [] }
    requires opening { opening.old.items ≡ [] }
    ensures opening { OnOk result (opening.new.items ≡ file_firsts starts.now clauses.now) }
    ensures apart { OnOk result (warnings.new.items ≡ warnings.old.items
        ++ map apart_at (resumed starts.now clauses.now)) }
{
    let mut before = None;
    for clause in clauses {
        let filed = filed_at(starts, *clause);
        add(*clause, filed, before, known, opening, warnings)?;
        before = Some(filed);
    }
    Ok(())
}

/// Notes the first clause of a predicate in one more file.
fn add_opening(
    clause: Clause,
    functors: &mut IndexSet<Functor>,
    first: &mut Vec<Clause>,
    warnings: &mut Vec<Warning>,
) -> Result<(), NoMemory>
    ensures functors { OnOk result (functors.new.keys ≡ insert_key same_numbers functors.old.keys
        clause.functor) }
    ensures first { OnOk result (first.new.items ≡ first.old.items ++ (if list_any (same_numbers
        clause.functor) functors.old.keys then [] else clause ∷ [])) }
    ensures repeated { OnOk result (warnings.new.items ≡ warnings.old.items ++ (if list_any
        (same_numbers clause.functor) functors.old.keys then two_at clause ∷ [] else [])) }
{
    let Clause { functor, place, .. } = clause;
    let (_, is_new) = functors.insert_full(functor)?;
    if is_new {
        first.push(clause)?;
    } else {
        let concern = Concern::TwoFiles(functor);
        warnings.push(Warning { place, concern })?;
    }
    Ok(())
}

/// Puts the functors of these clauses into the empty set, the first clause of each into `first`, and warns of each other clause: it is
/// the first of its predicate in a later file.
pub(crate) fn collect(
    clauses: &[Clause],
    functors: &mut IndexSet<Functor>,
    first: &mut Vec<Clause>,
    warnings: &mut Vec<Warning>,
) -> Result<(), NoMemory>
    requires functors { functors.old.keys ≡ [] }
    requires first { first.old.items ≡ [] }
    ensures first { OnOk result (first.new.items ≡ firsts clauses.now) }
    ensures functors { OnOk result (AreKeys clauses.now functors.new.keys) }
    ensures repeated { OnOk result (warnings.new.items ≡ warnings.old.items
        ++ map two_at (repeated clauses.now)) }
{
    for clause in clauses {
        add_opening(*clause, functors, first, warnings)?;
    }
    Ok(())
}
