//! What bodies call, by the numbers of the predicates.

ghost use Rattle.std.specs.Prelude.{◌≡◌, ◌++◌, ◌<◌, length, map, All, IfOk, OnOk};
ghost use Rattle.std.specs.List.{flat_map};
ghost use Rattle.std.specs.Option.{option_to_list};
ghost use Rattle.fd_model.specs.Refusals.{functor_of as functor_of_term};
ghost use Rattle.term_pool.specs.PlacedTerms.{placed_of};
ghost use Rattle.text_warnings.specs.Clauses.{calls_of};
ghost use Rattle.text_warnings.specs.Graphs.{items_of, numbers_in, AddsEdges, AreEdges, AreEmpty, AreNames};
ghost use Rattle.text_warnings.specs.WarningViews.{IsOwn};

use crate::clauses::Clause;
use crate::terms::{Body, Functor, body_form, functor_of};
use fd_language::NoMemory;
use indexmap::IndexSet;
use std::alloc::Global;
use term_pool::{Pool, TermId};

/// The number of the predicate that the goal calls, where it is one of these.
fn number_of(pool: &Pool, functors: &IndexSet<Functor>, goal: TermId) -> Option<usize>
    requires names { AreNames pool.now functors.now.keys }
    requires goal { goal.number < length pool.now.entries }
    ensures { option_to_list result ≡ numbers_in pool.now functors.now.keys (option_to_list
        (functor_of_term (placed_of pool.now goal))) }
{
    let functor = functor_of(pool, goal)?;
    functors.get_index_of(&functor)
}

/// Appends the number of the predicate that the goal calls, where it is one of these.
fn put_number(
    pool: &Pool,
    functors: &IndexSet<Functor>,
    goal: TermId,
    calls: &mut Vec<usize>,
) -> Result<(), NoMemory>
    requires names { AreNames pool.now functors.now.keys }
    requires goal { goal.number < length pool.now.entries }
    ensures { OnOk result (calls.new.items ≡ calls.old.items ++ numbers_in pool.now
        functors.now.keys (option_to_list (functor_of_term (placed_of pool.now goal)))) }
{
    match number_of(pool, functors, goal) {
        Some(number) => Ok(calls.push(number)?),
        None => Ok(()),
    }
}

/// Appends the numbers of the predicates that the body calls, in the order of the text. `ahead` is room for terms that wait.
fn put_calls(
    pool: &Pool,
    functors: &IndexSet<Functor>,
    body: TermId,
    ahead: &mut Vec<TermId>,
    calls: &mut Vec<usize>,
) -> Result<(), NoMemory>
    requires names { AreNames pool.now functors.now.keys }
    requires body { body.number < length pool.now.entries }
    ensures { OnOk result (calls.new.items ≡ calls.old.items ++ numbers_in pool.now
        functors.now.keys (calls_of (placed_of pool.now body))) }
{
    ahead.clear();
    ahead.push(body)?;
    while let Some(next) = ahead.pop() {
        match body_form(pool, next) {
            Body::Both(left, right) => {
                ahead.push(right)?;
                ahead.push(left)?;
            }
            Body::Inner(inner) => ahead.push(inner)?,
            Body::Goal => put_number(pool, functors, next, calls)?,
        }
    }
    Ok(())
}

/// So many lists with no number.
fn no_edges(alloc: Global, count: usize) -> Result<Vec<Vec<usize>>, NoMemory>
    ensures count { IfOk result (λ v. length v.items ≡ count) }
    ensures empty { IfOk result (λ v. AreEmpty (map items_of v.items)) }
{
    let mut edges = Vec::with_capacity(alloc, count)?;
    for _number in 0..count {
        edges.push(Vec::new(alloc))?;
    }
    Ok(edges)
}

/// Appends what the clause calls to the list of its predicate. `ahead` is room for terms that wait.
fn add_edges(
    pool: &Pool,
    functors: &IndexSet<Functor>,
    clause: Clause,
    ahead: &mut Vec<TermId>,
    edges: &mut Vec<Vec<usize>>,
) -> Result<(), NoMemory>
    requires names { AreNames pool.now functors.now.keys }
    requires own { IsOwn pool.now clause }
    requires count { length edges.old.items ≡ length functors.now.keys }
    ensures { OnOk result (AddsEdges pool.now functors.now.keys clause (map items_of edges.old.items)
        (map items_of edges.new.items)) }
{
    let Some(body) = clause.body else {
        return Ok(());
    };
    let Some(number) = functors.get_index_of(&clause.functor) else {
        return Ok(());
    };
    put_calls(pool, functors, body, ahead, &mut edges[number])
}

/// For each predicate, by its number, the numbers of those that its clauses call.
pub(crate) fn edges_of(
    alloc: Global,
    pool: &Pool,
    functors: &IndexSet<Functor>,
    clauses: &[Clause],
) -> Result<Vec<Vec<usize>>, NoMemory>
    requires names { AreNames pool.now functors.now.keys }
    requires own { All (IsOwn pool.now) clauses.now }
    ensures { IfOk result (λ v. AreEdges pool.now functors.now.keys clauses.now
        (map items_of v.items)) }
{
    let mut edges = no_edges(alloc, functors.len())?;
    let mut ahead = Vec::new(alloc);
    for clause in clauses {
        add_edges(pool, functors, *clause, &mut ahead, &mut edges)?;
    }
    Ok(edges)
}

/// The numbers of the predicates that the queries with these bodies call.
pub(crate) fn starts_of(
    alloc: Global,
    pool: &Pool,
    functors: &IndexSet<Functor>,
    bodies: &[TermId],
) -> Result<Vec<usize>, NoMemory>
    requires names { AreNames pool.now functors.now.keys }
    requires own { All (λ b. b.number < length pool.now.entries) bodies.now }
    ensures { IfOk result (λ v. v.items ≡ numbers_in pool.now functors.now.keys
        (flat_map (λ b. calls_of (placed_of pool.now b)) bodies.now)) }
{
    let mut starts = Vec::new(alloc);
    let mut ahead = Vec::new(alloc);
    for body in bodies {
        put_calls(pool, functors, *body, &mut ahead, &mut starts)?;
    }
    Ok(starts)
}
