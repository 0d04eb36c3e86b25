//! Constraints on terms of the heap: their ranges on variables of the store.

ghost use Rattle.std.specs.Prelude.{◌≡◌, ◌<◌, ◌≤◌, ◌-◌, None, Some, length, All, IfOk, OnErr, OnOk};
ghost use Rattle.fd_language.specs.declared.TheConstants.{INFINITY};
ghost use Rattle.fd_model.specs.ConstraintExpansion.{expand as expanded, arguments as arguments_of};
ghost use Rattle.heap_cells.specs.Cells.{IsOf, with_now};
ghost use Rattle.heap_cells.specs.Atoms.{IsAtomBelow, HasAtomsBelow};
ghost use Rattle.heap_cells.specs.HeapInvariant.{IsHeap};
ghost use Rattle.heap_cells.specs.SeenTerms.{seen_term, HasLinksBelow};
ghost use Rattle.range_code.specs.Frames.{family_of};
ghost use Rattle.term_pool.specs.Contents.{name_in};
ghost use Rattle.term_pool.specs.Terms.{term_of as pool_term, terms_by};
ghost use Rattle.term_pool.specs.PoolInvariant.{IsPool};
ghost use Rattle.constraint_expand.specs.Faults.{fault_of as expansion_fault};
ghost use Rattle.constraint_expand.specs.Views.{Expands};
ghost use Rattle.branch_state.specs.Constraints.{firsts, store_variable, row_touches, with_variables, with_integers, AreFrom, AreOpen, AreLinked, AreWords, IsRowOf};
ghost use Rattle.branch_state.specs.LinkedRows.{IsRowReady};
ghost use Rattle.branch_state.specs.StoreVariables.{OwnLinks, with_level_sets};

use crate::posting_lists::{Recent, list_ranges, variable_of};
use constraint_expand::{ExpandFault, Expansion, ListCause, expand};
use fd_language::NoMemory;
use fd_model::kinds::{ConstraintKind, QueryFault};
use heap_cells::{Cell, Heap};
use heap_terms::read_back;
use linear_forms::LinearFault;
use propagate_queue::{Agenda, Instance, Store};
use std::alloc::Global;
use term_pool::{Node, Pool, TermId};
use unify_core::Touch;

/// No memory holds so many variables or terms.
const LIMIT: usize = 1 << 60;

/// A pool with so many terms isn't kept for another goal.
const MANY: usize = 1000;

/// What a constraint posts: ranges, and variables of the store that get integers.
#[derive(Drop)]
pub(crate) struct Listed {
    pub list: Vec<Instance>,
    pub fixed: Vec<Touch>,
}

/// The fault of a constraint. The error is want of memory.
pub(crate) fn fault_of(fault: ExpandFault) -> Result<QueryFault, NoMemory>
    ensures fault { IfOk result (λ q. expansion_fault fault ≡ Some q) }
    ensures memory { OnErr result (expansion_fault fault ≡ None) }
{
    match fault {
        ExpandFault::Linear(LinearFault::Nonlinear) => Ok(QueryFault::Nonlinear),
        ExpandFault::Linear(LinearFault::NotANumber) => Ok(QueryFault::BadType),
        ExpandFault::Linear(LinearFault::Overflow) => Ok(QueryFault::Evaluation),
        ExpandFault::BadList(ListCause::Unbound) => Ok(QueryFault::Instantiation),
        ExpandFault::BadList(ListCause::Wrong) => Ok(QueryFault::BadType),
        ExpandFault::Linear(LinearFault::NoMemory) | ExpandFault::NoMemory => Err(NoMemory),
    }
}

/// The arguments of a term.
fn arguments(pool: &Pool, t: TermId) -> &[TermId]
    requires own { t.number < length pool.now.entries }
    ensures own { All (λ s. s.number < length pool.now.entries) result.now }
    ensures earlier { All (λ s. s.number < t.number) result.now }
    ensures terms { terms_by (pool_term pool.now) result.now ≡ arguments_of (pool_term pool.now t) }
    ensures valid { IsPool pool.now }
{
    match pool.view(t) {
        Node::Comp(_, parts) => parts,
        _ => &[],
    }
}

/// What a constraint becomes whose goal is this term. Fresh variables are those from `fresh` on.
fn expand_read(
    alloc: Global,
    terms: &Pool,
    kind: ConstraintKind,
    goal: TermId,
    fresh: usize,
) -> Result<Expansion, ExpandFault>
    requires own { goal.number < length terms.now.entries }
    ensures row { Expands (expanded INFINITY kind (arguments_of (pool_term terms.now goal)) fresh)
        result }
    ensures words { IfOk result (λ x. AreWords x.equated) }
{
    if fresh >= LIMIT || goal.number >= LIMIT {
        return Err(ExpandFault::NoMemory);
    }
    expand(alloc, terms, kind, arguments(terms, goal), fresh as u64)
}

/// What a constraint becomes whose goal is the term of a cell, as the heap and the store show it. Fresh variables are the next of the
/// heap. `kept` is the pool of an earlier goal, which is used again.
pub(crate) fn expand_goal<A: Agenda + Drop>(
    alloc: Global,
    heap: &Heap,
    store: &Store<A>,
    from: &Pool,
    kind: ConstraintKind,
    goal: Cell,
    kept: &mut Option<Pool>,
) -> Result<Expansion, ExpandFault>
    requires own { IsOf heap.now.now goal }
    requires atoms { HasAtomsBelow (length from.now.names) heap.now.now }
    requires atom { IsAtomBelow (length from.now.names) goal }
    requires linked { HasLinksBelow (length store.now.current.sets) heap.now.now }
    ensures row { Expands (expanded INFINITY kind (arguments_of (seen_term
        (name_in from.now.names) heap.now.now (family_of store.now.current.sets) goal))
        (length heap.now.now.slots)) result }
    ensures words { IfOk result (λ x. AreWords x.equated) }
{
    let mut terms = match kept.take() {
        Some(terms) => terms,
        None => Pool::new(alloc)?,
    };
    let goal = read_back(heap, alloc, from, goal, store, &mut terms)?;
    let expanded = expand_read(alloc, &terms, kind, goal, heap.variable_count());
    *kept = (goal.number < MANY).then_some(terms);
    expanded
}

/// Gives the heap new variables, from a number on that is the next up to another.
fn add_variables(heap: &mut Heap, from: u64, to: u64) -> Result<(), NoMemory>
    ensures added { OnOk result (heap.new
        ≡ with_now heap.old (with_variables (to - from) heap.old.now)) }
    ensures below { heap.new.below ≡ heap.old.below }
{
    for _ in from..to {
        heap.new_var()?;
    }
    Ok(())
}

/// Variables of the store that get integers.
fn touches(alloc: Global, heap: &Heap, equated: &[(u64, i64)]) -> Result<Vec<Touch>, NoMemory>
    requires linked { AreLinked heap.now.now (firsts equated.now) }
    requires words { AreWords equated.now }
    ensures { IfOk result (λ ts. ts.items ≡ row_touches (store_variable heap.now.now) equated.now) }
{
    let mut fixed = Vec::with_capacity(alloc, equated.len())?;
    for pair in equated {
        fixed.push(Touch::Value(variable_of(heap, pair.0), pair.1))?;
    }
    Ok(fixed)
}

/// Binds variables of the heap to integers.
fn bind_all(heap: &mut Heap, from: usize, equated: &[(u64, i64)]) -> Result<(), NoMemory>
    requires valid { IsHeap heap.old.now }
    requires words { AreWords equated.now }
    requires numbers { AreFrom from equated.now }
    requires unbound { AreOpen from equated.now heap.old.now }
    ensures bound { OnOk result (heap.new
        ≡ with_now heap.old (with_integers equated.now heap.old.now)) }
    ensures below { heap.new.below ≡ heap.old.below }
{
    for pair in equated {
        heap.bind(pair.0 as usize, Cell::Int(pair.1))?;
    }
    Ok(())
}

/// Binds the equated variables of a constraint, and gives what the store is told of them. The error is want of memory; the heap is then to
/// be given up.
fn equate(
    alloc: Global,
    heap: &mut Heap,
    from: usize,
    equated: &[(u64, i64)],
) -> Result<Vec<Touch>, NoMemory>
    requires valid { IsHeap heap.old.now }
    requires linked { AreLinked heap.old.now (firsts equated.now) }
    requires words { AreWords equated.now }
    requires numbers { AreFrom from equated.now }
    requires unbound { AreOpen from equated.now heap.old.now }
    ensures fixed { IfOk result (λ ts. ts.items
        ≡ row_touches (store_variable heap.old.now) equated.now) }
    ensures bound { OnOk result (heap.new
        ≡ with_now heap.old (with_integers equated.now heap.old.now)) }
    ensures below { heap.new.below ≡ heap.old.below }
{
    let fixed = touches(alloc, heap, equated)?;
    bind_all(heap, from, equated)?;
    Ok(fixed)
}

/// Links what a constraint becomes, and binds the equated variables. The error is want of memory; heap and store are then to be given up.
fn link_row<A: Agenda + Drop>(
    alloc: Global,
    heap: &mut Heap,
    store: &mut Store<A>,
    recent: &mut Recent,
    expansion: &mut Expansion,
) -> Result<Listed, NoMemory>
    requires links { OwnLinks (length store.old.current.sets) heap.old.now }
    requires words { AreWords expansion.old.equated }
    requires row { IsRowOf heap.old.now expansion.old }
    ensures store { OnOk result (store.new ≡ with_level_sets store.old store.new.current.sets) }
    ensures below { heap.new.below ≡ heap.old.below }
    ensures ready { IfOk result (λ listed. IsRowReady heap.old.now store.old.current.sets
        expansion.old heap.new.now store.new.current.sets listed.list.items listed.fixed.items) }
{
    let fresh = heap.variable_count();
    add_variables(heap, fresh as u64, expansion.added())?;
    let list = list_ranges(alloc, heap, store, recent, expansion)?;
    let fixed = equate(alloc, heap, fresh, expansion.equated())?;
    Ok(Listed { list, fixed })
}

/// Links what a constraint becomes, and binds the equated variables. The error is want of memory; heap and store are then to be given up.
pub(crate) fn prepare_row<A: Agenda + Drop>(
    alloc: Global,
    heap: &mut Heap,
    store: &mut Store<A>,
    recent: &mut Recent,
    expansion: Expansion,
) -> Result<Listed, NoMemory>
    requires links { OwnLinks (length store.old.current.sets) heap.old.now }
    requires words { AreWords expansion.equated }
    requires row { IsRowOf heap.old.now expansion }
    ensures store { OnOk result (store.new ≡ with_level_sets store.old store.new.current.sets) }
    ensures below { heap.new.below ≡ heap.old.below }
    ensures ready { IfOk result (λ listed. IsRowReady heap.old.now store.old.current.sets
        expansion heap.new.now store.new.current.sets listed.list.items listed.fixed.items) }
{
    let mut expansion = expansion;
    link_row(alloc, heap, store, recent, &mut expansion)
}
