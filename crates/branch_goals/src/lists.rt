//! Lists of a heap, as the sets of a store show them.

ghost use Rattle.std.specs.Prelude.{◌≡◌, ◌<◌, length, IfOk};
ghost use Rattle.heap_cells.specs.Cells.{IsOf};
ghost use Rattle.heap_cells.specs.Terms.{Naming};
ghost use Rattle.heap_cells.specs.SeenTerms.{HasLinksBelow};
ghost use Rattle.branch_goals.specs.Lists.{IsListNaming, IsNode, IsVariableNode, IsAtomNode, IsCompoundNode, IsMemberOf, IsListRead, HasNoEmpty};

use domain_ranges::{Domain, View};
use fd_language::NoMemory;
use fd_model::kinds::QueryFault;
use heap_cells::{Cell, Heap, Seen};
use label_search::Member;
use std::alloc::Global;
use term_pool::{AtomId, CONS, NIL};

/// A cell as a node of a list.
#[derive(Clone, Copy)]
pub(crate) enum ListNode {
    /// A member, and the list behind it.
    Pair(Cell, Cell),
    /// The end.
    Empty,
    /// No list, with the fault that this is.
    Broken(QueryFault),
}

/// The members of a list, with the cell of each.
#[derive(Drop)]
pub(crate) struct Members {
    pub cells: Vec<Cell>,
    pub members: Vec<Member>,
}

/// What a cell is as a node of a list.
pub(crate) fn node_at<V: View>(heap: &Heap, view: &V, at: Cell) -> ListNode
    requires own { IsOf heap.now.now at }
    requires linked { HasLinksBelow (length (V.sets view.now)) heap.now.now }
    ensures { (name : Naming) → IsListNaming name
        → IsNode name heap.now.now (V.sets view.now) at result }
{
    match heap.deref(at) {
        Seen::Open(_) => ListNode::Broken(QueryFault::Instantiation),
        Seen::Constrained(_, k) => variable_node(view.domain(k)),
        Seen::Int(_) => ListNode::Broken(QueryFault::BadType),
        Seen::Atom(a) => atom_node(a),
        Seen::Struct(f, args) => compound_node(f, args),
    }
}

/// A variable with this domain as a node of a list.
fn variable_node(domain: &Domain) -> ListNode
    ensures { IsVariableNode domain.now result }
{
    match domain.only_value() {
        Some(_) => ListNode::Broken(QueryFault::BadType),
        None => ListNode::Broken(QueryFault::Instantiation),
    }
}

/// An atom as a node of a list.
fn atom_node(a: AtomId) -> ListNode
    ensures { IsAtomNode a result }
{
    if a == NIL {
        ListNode::Empty
    } else {
        ListNode::Broken(QueryFault::BadType)
    }
}

/// A compound term as a node of a list.
fn compound_node(f: AtomId, args: &[Cell]) -> ListNode
    ensures { IsCompoundNode f args.now result }
{
    if f == CONS && args.len() == 2 {
        ListNode::Pair(args[0], args[1])
    } else {
        ListNode::Broken(QueryFault::BadType)
    }
}

/// What a cell is as a member of a list. An atom and a compound term are none.
pub(crate) fn member_at<V: View>(heap: &Heap, view: &V, at: Cell) -> Result<Member, QueryFault>
    requires own { IsOf heap.now.now at }
    requires linked { HasLinksBelow (length (V.sets view.now)) heap.now.now }
    requires some { HasNoEmpty (V.sets view.now) }
    ensures { (name : Naming) → IsMemberOf name heap.now.now (V.sets view.now) at result }
{
    match heap.deref(at) {
        Seen::Open(_) => Ok(Member::Free),
        Seen::Constrained(_, k) => match view.domain(k).only_value() {
            Some(value) => Ok(Member::Fixed(i64::from(value))),
            None => Ok(Member::Var(k)),
        },
        Seen::Int(z) => Ok(Member::Fixed(z)),
        _ => Err(QueryFault::BadType),
    }
}

/// How many members take memory at once.
const USUAL_LENGTH: usize = 16;

/// The members of the list in a cell, or the first fault from the front on. The outer error is want of memory.
pub(crate) fn read_members<V: View>(
    alloc: Global,
    heap: &Heap,
    view: &V,
    list: Cell,
) -> Result<Result<Members, QueryFault>, NoMemory>
    requires own { IsOf heap.now.now list }
    requires linked { HasLinksBelow (length (V.sets view.now)) heap.now.now }
    requires some { HasNoEmpty (V.sets view.now) }
    ensures { IfOk result (λ r. (name : Naming) → IsListNaming name
        → IsListRead name heap.now.now (V.sets view.now) list r) }
{
    let mut cells = Vec::with_capacity(alloc, USUAL_LENGTH)?;
    let mut members = Vec::with_capacity(alloc, USUAL_LENGTH)?;
    let mut at = list;
    'walking: loop {
        match node_at(heap, view, at) {
            ListNode::Pair(head, tail) => {
                let member = match member_at(heap, view, head) {
                    Ok(member) => member,
                    Err(fault) => return Ok(Err(fault)),
                };
                cells.push(head)?;
                members.push(member)?;
                at = tail;
            }
            ListNode::Empty => return Ok(Ok(Members { cells, members })),
            ListNode::Broken(fault) => return Ok(Err(fault)),
        }
    }
}
