//! The terms of a heap's cells, as terms of a pool.
//!
//! The walk doesn't recur: a stack of tasks stands over a stack of results, and a compound term is made of the last results once its
//! parts are there.
#![tactic(auto)]

ghost use Rattle.std.specs.Prelude.{◌≡◌, ◌<◌, ◌≤◌, ◌++◌, length, map, reverse, IfOk, OnOk, All};
ghost use Rattle.term_pool.specs.Contents.{name_in};
ghost use Rattle.term_pool.specs.Terms.{term_of as pool_term, shape_term, Extends, KeepsTerms as KeepsPoolTerms};
ghost use Rattle.term_pool.specs.PoolInvariant.{IsWithin, shape_of};
ghost use Rattle.domain_ranges.specs.Views.{family_of};
ghost use Rattle.fd_language.specs.SingleValues.{value_in};
ghost use Rattle.heap_cells.specs.Cells.{IsOf};
ghost use Rattle.heap_cells.specs.Atoms.{HasAtomsBelow, IsAtomBelow};
ghost use Rattle.heap_cells.specs.SeenTerms.{seen_term, HasLinksBelow};
ghost use Rattle.heap_terms.specs.declared.ReadTask.TheVariants as reading;
ghost use Rattle.heap_terms.specs.CellReads.{VisitsCell, AddsTerm, MakesTerm, PlacesAtZero};

use domain_ranges::{Domain, View};
use fd_language::NoMemory;
use heap_cells::{Cell, Heap, Seen};
use std::alloc::{AllocError, Global};
use term_pool::{AtomId, Node, Pool, TermId};

/// What is still to be done for a term: a cell to be looked at, or a compound term to be made of the last terms.
#[derive(Clone, Copy)]
enum ReadTask {
    Visit(Cell),
    Make(AtomId, usize),
}

/// Puts cells to be looked at behind the tasks, so that the first of them is the next. The error is want of memory.
fn visit_cells(tasks: &mut Vec<ReadTask>, cells: &[Cell]) -> Result<(), AllocError>
    ensures { OnOk result (tasks.new.items
        ≡ tasks.old.items ++ reverse (map reading.Visit cells.now)) }
{
    for i in (0..cells.len()).rev() {
        tasks.push(ReadTask::Visit(cells[i]))?;
    }
    Ok(())
}

/// Adds a term to the pool and to those that are done. The error is want of memory.
fn add_leaf(pool: &mut Pool, node: Node<'_>, done: &mut Vec<TermId>) -> Result<(), NoMemory>
    requires { IsWithin (length pool.old.names) (length pool.old.entries) (shape_of node) }
    ensures added { OnOk result (AddsTerm (shape_term pool.old (shape_of node.entry))
        done.old.items pool.new done.new.items) }
    ensures extends { Extends pool.old pool.new }
    ensures kept { KeepsPoolTerms pool.old pool.new }
    ensures places { PlacesAtZero pool.old pool.new }
{
    let t = pool.add(node, 0)?;
    done.push(t)?;
    Ok(())
}

/// Adds the term of a variable of the store, whose number in the heap is `i`, to the pool and to those that are done. The error is
/// want of memory.
fn add_linked(
    domain: &Domain,
    i: usize,
    pool: &mut Pool,
    done: &mut Vec<TermId>,
) -> Result<(), NoMemory>
    ensures added { OnOk result (AddsTerm (value_in domain.now i) done.old.items pool.new
        done.new.items) }
    ensures extends { Extends pool.old pool.new }
    ensures kept { KeepsPoolTerms pool.old pool.new }
    ensures places { PlacesAtZero pool.old pool.new }
{
    match domain.only_value() {
        Some(value) => add_leaf(pool, Node::Int(i64::from(value)), done),
        None => add_leaf(pool, Node::Var(i as u64), done),
    }
}

/// Looks at a cell: its term, or the tasks of a compound term. The error is want of memory.
fn visit_cell<V: View>(
    heap: &Heap,
    from: &Pool,
    c: Cell,
    view: &V,
    pool: &mut Pool,
    tasks: &mut Vec<ReadTask>,
    done: &mut Vec<TermId>,
) -> Result<(), NoMemory>
    requires own { IsOf heap.now.now c }
    requires atoms { HasAtomsBelow (length from.now.names) heap.now.now }
    requires atom { IsAtomBelow (length from.now.names) c }
    requires linked { HasLinksBelow (length (V.sets view.now)) heap.now.now }
    ensures read { OnOk result (VisitsCell from.now.names heap.now.now (V.sets view.now) c
        tasks.old.items done.old.items pool.new tasks.new.items done.new.items) }
    ensures extends { Extends pool.old pool.new }
    ensures kept { KeepsPoolTerms pool.old pool.new }
    ensures places { PlacesAtZero pool.old pool.new }
{
    match heap.deref(c) {
        Seen::Open(i) => add_leaf(pool, Node::Var(i as u64), done),
        Seen::Constrained(i, k) => add_linked(view.domain(k), i, pool, done),
        Seen::Int(z) => add_leaf(pool, Node::Int(z), done),
        Seen::Atom(a) => {
            let a = pool.atom(from.name_of(a))?;
            add_leaf(pool, Node::Atom(a), done)
        }
        Seen::Struct(f, args) => {
            tasks.push(ReadTask::Make(f, args.len()))?;
            visit_cells(tasks, args)?;
            Ok(())
        }
    }
}

/// Makes a compound term of the last `count` terms, which it takes the place of. The error is want of memory.
fn make_term(
    from: &Pool,
    f: AtomId,
    count: usize,
    pool: &mut Pool,
    done: &mut Vec<TermId>,
) -> Result<(), NoMemory>
    requires name { f.number < length from.now.names }
    requires there { count ≤ length done.old.items }
    requires own { All (λ t. t.number < length pool.old.entries) done.old.items }
    ensures made { OnOk result (MakesTerm from.now.names f count pool.old done.old.items pool.new
        done.new.items) }
    ensures extends { Extends pool.old pool.new }
    ensures kept { KeepsPoolTerms pool.old pool.new }
    ensures places { PlacesAtZero pool.old pool.new }
{
    let f = pool.atom(from.name_of(f))?;
    let first = done.len() - count;
    let t = pool.add(Node::Comp(f, &done[first..]), 0)?;
    done.truncate(first);
    done.push(t)?;
    Ok(())
}

/// Reads the term of a cell into another pool, as the sets of the view show it: a variable of the store with one value is that
/// integer. `from` is the pool that the heap's atoms are of; they go into `pool` by their names. A variable keeps its number in the
/// heap, and each new term has the place 0. The heap stays as it is. The error is want of memory; each earlier id of `pool` then has
/// its atom or term still, and some new ones may stand behind them.
pub fn read_back<V: View>(
    heap: &Heap,
    alloc: Global,
    from: &Pool,
    c: Cell,
    view: &V,
    pool: &mut Pool,
) -> Result<TermId, NoMemory>
    requires own { IsOf heap.now.now c }
    requires atoms { HasAtomsBelow (length from.now.names) heap.now.now }
    requires atom { IsAtomBelow (length from.now.names) c }
    requires linked { HasLinksBelow (length (V.sets view.now)) heap.now.now }
    ensures own { IfOk result (λ t. t.number < length pool.new.entries) }
    ensures term { IfOk result (λ t. pool_term pool.new t
        ≡ seen_term (name_in from.now.names) heap.now.now (family_of (V.sets view.now)) c) }
    ensures extends { Extends pool.old pool.new }
    ensures kept { KeepsPoolTerms pool.old pool.new }
    ensures places { PlacesAtZero pool.old pool.new }
{
    let mut tasks = Vec::new(alloc);
    let mut done = Vec::new(alloc);
    tasks.push(ReadTask::Visit(c))?;
    while let Some(task) = tasks.pop() {
        match task {
            ReadTask::Visit(next) => {
                visit_cell(heap, from, next, view, pool, &mut tasks, &mut done)?
            }
            ReadTask::Make(f, count) => make_term(from, f, count, pool, &mut done)?,
        }
    }
    Ok(done[0])
}
