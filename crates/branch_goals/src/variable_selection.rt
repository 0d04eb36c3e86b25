//! The member that a labelling takes of a list, with nothing kept of the others.

ghost use Rattle.std.specs.Prelude.{◌≡◌, ◌≤◌, ◌++◌, ◌∷◌, [], List, ℕ, length};
ghost use Rattle.fd_language.specs.declared.TheConstants.{INFINITY as TOP};
ghost use Rattle.fd_model.specs.Members as seen;
ghost use Rattle.heap_cells.specs.Cells.{Cells, IsOf};
ghost use Rattle.heap_cells.specs.SeenTerms.{HasLinksBelow};
ghost use Rattle.heap_cells.specs.Terms.{Naming};
ghost use Rattle.label_search.specs.Picks.{IsThere};
ghost use Rattle.branch_goals.specs.Lists.{IsListNaming, IsMemberAt, HasNoEmpty};
ghost use Rattle.branch_goals.specs.VariableSelection.{betters, open_count, IsFound, Takes};

use crate::lists::{ListNode, member_at, node_at};
use domain_ranges::View;
use fd_model::kinds::{Order, QueryFault};
use heap_cells::{Cell, Heap};
use label_search::Member;

/// The cell of a member that is taken, and how many values the member has.
#[derive(Clone, Copy)]
pub(crate) struct Taken {
    pub cell: Cell,
    pub count: u32,
}

/// How many values an open member has. An integer is none.
fn count_of<V: View>(member: Member, view: &V, infinity: u32) -> Option<u32>
    requires most { infinity ≤ TOP }
    requires there { IsThere (length (V.sets view.now)) member }
    ensures { result ≡ open_count infinity (V.sets view.now) member }
{
    match member {
        Member::Fixed(_) => None,
        Member::Var(k) => Some(view.domain(k).size()),
        Member::Free => Some(infinity + 1),
    }
}

/// Whether a member with so many values is taken in place of the one before.
fn is_better(order: Order, before: Option<Taken>, count: u32) -> bool
    ensures { result ≡ betters order before count }
{
    match before {
        None => true,
        Some(taken) => match order {
            Order::Leftmost => false,
            Order::FirstFail => count < taken.count,
        },
    }
}

/// What is taken where one member more is walked, which is in a cell.
fn take_member<V: View>(
    order: Order,
    before: Option<Taken>,
    cell: Cell,
    member: Member,
    view: &V,
    infinity: u32,
) -> Option<Taken>
    requires most { infinity ≤ TOP }
    requires there { IsThere (length (V.sets view.now)) member }
    ensures { (name : Naming) (h : Cells) (ss : List seen.Member) (s : seen.Member)
        → IsOf h cell → IsMemberAt name h (V.sets view.now) cell member s
        → Takes infinity name h (V.sets view.now) order ss before
        → Takes infinity name h (V.sets view.now) order (ss ++ s ∷ []) result }
{
    if let (Order::Leftmost, Some(_)) = (order, before) {
        return before;
    }
    let Some(count) = count_of(member, view, infinity) else {
        return before;
    };
    if is_better(order, before, count) {
        return Some(Taken { cell, count });
    }
    before
}

/// The member that a labelling takes of the list in a cell, or the list's first fault from the front on. No memory.
pub(crate) fn find_member<V: View>(
    heap: &Heap,
    view: &V,
    infinity: u32,
    order: Order,
    list: Cell,
) -> Result<Option<Taken>, QueryFault>
    requires most { infinity ≤ TOP }
    requires own { IsOf heap.now.now list }
    requires linked { HasLinksBelow (length (V.sets view.now)) heap.now.now }
    requires some { HasNoEmpty (V.sets view.now) }
    ensures { (name : Naming) → IsListNaming name
        → IsFound infinity name heap.now.now (V.sets view.now) order list result }
{
    let mut at = list;
    let mut taken = None;
    'walking: loop {
        match node_at(heap, view, at) {
            ListNode::Pair(head, tail) => {
                let member = member_at(heap, view, head)?;
                taken = take_member(order, taken, head, member, view, infinity);
                at = tail;
            }
            ListNode::Empty => return Ok(taken),
            ListNode::Broken(fault) => return Err(fault),
        }
    }
}
