//! Terms that a branch shows.

ghost use Rattle.std.specs.Prelude.{◌≡◌, ◌<◌, ◌++◌, ◌∷◌, [], ℕ, List, length, map, reverse, All, MatchOption, IfOk, OnOk};
ghost use Rattle.fd_language.specs.Variables.{distinct};
ghost use Rattle.heap_cells.specs.Atoms.{HasAtomsBelow};
ghost use Rattle.heap_cells.specs.SeenTerms.{seen_term, HasLinksBelow};
ghost use Rattle.range_code.specs.Frames.{family_of};
ghost use Rattle.term_pool.specs.Contents.{name_in};
ghost use Rattle.term_pool.specs.Terms.{term_of as pool_term};
ghost use Rattle.branch_state.specs.ShownTerms.{open_set, with_sets, variables_at, IsShown, AreShowable, AreGathered};

use crate::heap_facts::know;
use domain_ranges::Domain;
use fd_language::NoMemory;
use heap_cells::{Cell, Heap, Seen};
use heap_terms::read_back;
use indexmap::IndexSet;
use machine_events::Shown;
use propagate_queue::{Agenda, Store};
use std::alloc::{AllocError, Global};
use term_pool::{Node, Pool, TermId};

/// Reads cells back into a pool, one after the other.
fn read_cells<A: Agenda + Drop>(
    alloc: Global,
    heap: &Heap,
    store: &Store<A>,
    from: &Pool,
    cells: &[Cell],
    pool: &mut Pool,
) -> Result<Vec<TermId>, NoMemory>
    requires atoms { HasAtomsBelow (length from.now.names) heap.now.now }
    requires cells { AreShowable (length from.now.names) heap.now.now cells.now }
    requires linked { HasLinksBelow (length store.now.current.sets) heap.now.now }
    ensures own { IfOk result (λ v. All (λ t. t.number < length pool.new.entries) v.items) }
    ensures terms { IfOk result (λ v. map (pool_term pool.new) v.items
        ≡ map (seen_term (name_in from.now.names) heap.now.now
        (family_of store.now.current.sets)) cells.now) }
{
    let mut terms = Vec::with_capacity(alloc, cells.len())?;
    for cell in cells {
        terms.push(read_back(heap, alloc, from, *cell, store, pool)?)?;
    }
    Ok(terms)
}

/// Puts terms behind those ahead, so that the first of them is the next.
fn look_into(ahead: &mut Vec<TermId>, terms: &[TermId]) -> Result<(), AllocError>
    ensures { OnOk result (ahead.new.items ≡ ahead.old.items ++ reverse terms.now) }
{
    for i in (0..terms.len()).rev() {
        ahead.push(terms[i])?;
    }
    Ok(())
}

/// The variables of terms, where each occurs.
fn variables_of(alloc: Global, pool: &Pool, terms: &[TermId]) -> Result<Vec<u64>, NoMemory>
    requires { All (λ t. t.number < length pool.now.entries) terms.now }
    ensures { IfOk result (λ v. v.items ≡ variables_at pool.now terms.now) }
{
    let mut found = Vec::new(alloc);
    let mut ahead = Vec::new(alloc);
    look_into(&mut ahead, terms)?;
    while let Some(next) = ahead.pop() {
        match pool.view(next) {
            Node::Var(x) => found.push(x)?,
            Node::Comp(_, parts) => look_into(&mut ahead, parts)?,
            _ => {}
        }
    }
    Ok(found)
}

/// The domain of a variable of the heap that is the store's and has several values.
fn open_domain<'s, A: Agenda + Drop>(
    heap: &Heap,
    store: &'s Store<A>,
    i: usize,
) -> Option<&'s Domain>
    requires { HasLinksBelow (length store.now.current.sets) heap.now.now }
    ensures { MatchOption result (open_set heap.now.now store.now.current.sets i ≡ None)
        (λ d. open_set heap.now.now store.now.current.sets i ≡ Some d.now) }
{
    if !heap.has(Cell::Ref(i)) {
        return None;
    }
    let Seen::Constrained(j, k) = heap.deref(Cell::Ref(i)) else {
        return None;
    };
    if j != i {
        return None;
    }
    let domain = store.domain(k);
    if domain.only_value().is_some() {
        return None;
    }
    Some(domain)
}

/// Adds the domain of a variable that wasn't seen before.
fn add_set<A: Agenda + Drop>(
    heap: &Heap,
    store: &Store<A>,
    variable: u64,
    seen: &mut IndexSet<u64>,
    sets: &mut Vec<(u64, Domain)>,
) -> Result<(), NoMemory>
    requires { HasLinksBelow (length store.now.current.sets) heap.now.now }
    ensures { OnOk result ((xs : List ℕ) → AreGathered (open_set heap.now.now
        store.now.current.sets) xs seen.old.keys sets.old.items → AreGathered
        (open_set heap.now.now store.now.current.sets) (xs ++ variable ∷ []) seen.new.keys
        sets.new.items) }
{
    if seen.insert(variable)? {
        if let Some(domain) = open_domain(heap, store, variable as usize) {
            sets.push((variable, domain.copy()?))?;
        }
    }
    Ok(())
}

/// The domains of the variables, each once.
fn sets_of<A: Agenda + Drop>(
    alloc: Global,
    heap: &Heap,
    store: &Store<A>,
    variables: &[u64],
) -> Result<Vec<(u64, Domain)>, NoMemory>
    requires { HasLinksBelow (length store.now.current.sets) heap.now.now }
    ensures { IfOk result (λ v. v.items ≡ with_sets (open_set heap.now.now
        store.now.current.sets) (distinct variables.now)) }
{
    let mut seen = IndexSet::new(alloc);
    let mut sets = Vec::new(alloc);
    for variable in variables {
        add_set(heap, store, *variable, &mut seen, &mut sets)?;
    }
    Ok(sets)
}

/// What a heap and a store show of cells. `from` has the atoms that they name.
pub(crate) fn show_cells<A: Agenda + Drop>(
    alloc: Global,
    heap: &Heap,
    store: &Store<A>,
    from: &Pool,
    cells: &[Cell],
) -> Result<Shown, NoMemory>
    requires atoms { HasAtomsBelow (length from.now.names) heap.now.now }
    requires cells { AreShowable (length from.now.names) heap.now.now cells.now }
    requires linked { HasLinksBelow (length store.now.current.sets) heap.now.now }
    ensures { IfOk result (IsShown from.now.names heap.now.now store.now.current.sets cells.now) }
{
    know(heap);
    let mut pool = Pool::new(alloc)?;
    let terms = read_cells(alloc, heap, store, from, cells, &mut pool)?;
    let variables = variables_of(alloc, &pool, &terms)?;
    let sets = sets_of(alloc, heap, store, &variables)?;
    Ok(Shown { pool, terms, sets })
}
