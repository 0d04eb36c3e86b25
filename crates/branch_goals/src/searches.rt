//! The best leaf of a labelling.

ghost use Rattle.std.specs.Prelude.{◌≡◌, ◌++◌, ◌≤◌, ◌^◌, ◌∷◌, [], List, ℕ, suc, true, false, length, take, IfOk, OnOk, MatchOption, MatchResult};
ghost use Rattle.fd_language.specs.Family.{has};
ghost use Rattle.fd_model.specs.Members as seen;
ghost use Rattle.heap_cells.specs.Cells.{IsOf};
ghost use Rattle.heap_cells.specs.Terms.{Naming};
ghost use Rattle.heap_cells.specs.SeenTerms.{HasLinksBelow};
ghost use Rattle.branch_state.specs.States.{IsSound, IsCell};
ghost use Rattle.branch_goals.specs.Lists.{IsListNaming, IsMemberAt, AreMembersAt, HasNoEmpty};
ghost use Rattle.branch_goals.specs.Searches.{Seeks, Numbers, IsNamed, IsCostIn, IsPrepared, firsts, own_by, seconds};

use crate::labelling::variable_of;
use crate::lists::{Members, member_at, read_members};
use branch_state::BranchState;
use domain_ranges::View;
use fd_language::NoMemory;
use fd_model::kinds::{Order, QueryFault};
use heap_cells::{Cell, Heap};
use label_search::Member;
use propagate_queue::Agenda;
use std::alloc::Global;

/// What a search for the best leaf of a labelling comes to.
#[derive(Drop)]
pub enum Sought {
    /// There is no leaf.
    Nothing,
    /// The open members' variables of the heap, by their numbers, each with its value in the first best leaf.
    Leaf(Vec<(usize, u32)>),
    /// The argument is no list of variables and integers, or the cost is no integer and no member.
    Fault(QueryFault),
}

/// The members of a list as the store has them for a search.
#[derive(Drop)]
pub(crate) struct Named {
    /// Integers, and variables of the store.
    pub members: Vec<Member>,
    /// The open members: the variable of the heap, and that of the store.
    pub open_ones: Vec<(usize, usize)>,
    /// The next new variable of the store.
    pub next: usize,
}

/// What a search is begun with.
#[derive(Drop)]
pub(crate) struct Prepared {
    pub named: Named,
    pub cost: Member,
}

/// The variable of the store that a variable of the heap has among these.
fn number_of(open_ones: &[(usize, usize)], variable: usize) -> Option<usize>
    ensures { MatchOption result (has (firsts open_ones.now) variable ≡ false)
        (λ k. (has (firsts open_ones.now) variable ≡ true)
        × (k ≡ own_by open_ones.now variable)) }
{
    for (own, number) in open_ones {
        if *own == variable {
            return Some(*number);
        }
    }
    None
}

/// The variable of the store of an open member in a variable of the heap. An integer has none.
fn number_for(member: Member, variable: usize, named: &mut Named) -> Result<Option<usize>, NoMemory>
    ensures { MatchResult result
        (λ number. Numbers member variable named.old number named.new)
        (λ _. 2 ^ 64 ≤ suc named.old.next) }
{
    match member {
        Member::Fixed(_) => Ok(None),
        Member::Var(number) => Ok(Some(number)),
        Member::Free => match number_of(&named.open_ones, variable) {
            Some(number) => Ok(Some(number)),
            None => {
                let number = named.next;
                named.next = number.checked_add(1).ok_or(NoMemory)?;
                Ok(Some(number))
            }
        },
    }
}

/// Names one member more, which is in a cell.
fn name_member(heap: &Heap, member: Member, cell: Cell, named: &mut Named) -> Result<(), NoMemory>
    requires { IsOf heap.now.now cell }
    ensures { OnOk result ((name : Naming) (sets : List (List ℕ)) (ms : List seen.Member)
        (m : seen.Member) → IsMemberAt name heap.now.now sets cell member m
        → IsNamed name heap.now.now (length sets) ms named.old
        → IsNamed name heap.now.now (length sets) (ms ++ m ∷ []) named.new) }
{
    let variable = variable_of(heap, cell);
    match number_for(member, variable, named)? {
        None => named.members.push(member)?,
        Some(number) => {
            named.members.push(Member::Var(number))?;
            named.open_ones.push((variable, number))?;
        }
    }
    Ok(())
}

/// The members of a list as the store has them for a search. It has `vars` variables of its own.
fn name_members(alloc: Global, heap: &Heap, vars: usize, list: &Members) -> Result<Named, NoMemory>
    requires { (name : Naming) × (sets : List (List ℕ)) × (ms : List seen.Member)
        × AreMembersAt name heap.now.now sets list.now.cells.items list.now.members.items ms }
    ensures { IfOk result (λ named. (name : Naming) (sets : List (List ℕ))
        (ms : List seen.Member) → vars ≡ length sets
        → AreMembersAt name heap.now.now sets list.now.cells.items list.now.members.items ms
        → IsNamed name heap.now.now (length sets) ms named) }
{
    let mut named = Named {
        members: Vec::with_capacity(alloc, list.members.len())?,
        open_ones: Vec::with_capacity(alloc, list.members.len())?,
        next: vars,
    };
    for (i, member) in list.members.iter().enumerate() {
        name_member(heap, *member, list.cells[i], &mut named)?;
    }
    Ok(named)
}

/// The cost in a cell: an integer, or an open member, as the store has it.
fn cost_in<V: View>(heap: &Heap, view: &V, named: &Named, cost: Cell) -> Result<Member, QueryFault>
    requires own { IsOf heap.now.now cost }
    requires linked { HasLinksBelow (length (V.sets view.now)) heap.now.now }
    requires some { HasNoEmpty (V.sets view.now) }
    ensures { (name : Naming) (ms : List seen.Member)
        → IsNamed name heap.now.now (length (V.sets view.now)) ms named.now
        → IsCostIn name heap.now.now (V.sets view.now) ms named.now cost result }
{
    let member = member_at(heap, view, cost)?;
    match member {
        Member::Fixed(_) => Ok(member),
        _ => match number_of(&named.open_ones, variable_of(heap, cost)) {
            Some(number) => Ok(Member::Var(number)),
            None => Err(QueryFault::Parameter),
        },
    }
}

/// What a search for the best leaf is begun with, or the first fault of the list and the cost. The outer error is want of memory.
fn prepare<A: Agenda + Drop>(
    alloc: Global,
    branch: &BranchState<A>,
    list: Cell,
    cost: Cell,
) -> Result<Result<Prepared, QueryFault>, NoMemory>
    requires sound { IsSound branch.now }
    requires list { IsCell branch.now list }
    requires cost { IsCell branch.now cost }
    ensures { IfOk result (λ r. (name : Naming) → IsListNaming name
        → IsPrepared name branch.now list cost r) }
{
    let heap = branch.heap();
    let store = branch.store();
    store.known();
    let list = match read_members(alloc, heap, store, list)? {
        Ok(list) => list,
        Err(fault) => return Ok(Err(fault)),
    };
    let named = name_members(alloc, heap, store.vars(), &list)?;
    match cost_in(heap, store, &named, cost) {
        Ok(cost) => Ok(Ok(Prepared { named, cost })),
        Err(fault) => Ok(Err(fault)),
    }
}

/// The heap's variables with the values that were found.
fn with_values(
    alloc: Global,
    open_ones: &[(usize, usize)],
    values: &[u32],
) -> Result<Vec<(usize, u32)>, NoMemory>
    requires { length open_ones.now ≡ length values.now }
    ensures firsts { IfOk result (λ ps. firsts ps.items ≡ firsts open_ones.now) }
    ensures seconds { IfOk result (λ ps. seconds ps.items ≡ values.now) }
{
    let mut pairs = Vec::with_capacity(alloc, values.len())?;
    for (i, value) in values.iter().enumerate() {
        pairs.push((open_ones[i].0, *value))?;
    }
    Ok(pairs)
}

/// Searches for the first leaf with the least cost, or the greatest, of the labelling of the list in a cell. The list is read as a
/// labelling reads it; the cost in another cell is an integer or an open member. The branch is then as it was. After an error it isn't
/// used any more.
pub fn seek<A: Agenda + Drop>(
    alloc: Global,
    branch: &mut BranchState<A>,
    order: Order,
    least: bool,
    list: Cell,
    cost: Cell,
) -> Result<Sought, NoMemory>
    requires sound { IsSound branch.old }
    requires list { IsCell branch.old list }
    requires cost { IsCell branch.old cost }
    ensures found { IfOk result (λ found. (name : Naming) → IsListNaming name
        → Seeks name branch.old order least list cost found) }
    ensures same { OnOk result (branch.new ≡ branch.old) }
{
    let Prepared { named, cost } = match prepare(alloc, branch, list, cost)? {
        Ok(prepared) => prepared,
        Err(fault) => return Ok(Sought::Fault(fault)),
    };
    let store = branch.store();
    store.known();
    let added = named.next - store.vars();
    match branch.best_leaf(added, order, &named.members, cost, least)? {
        Some(values) => Ok(Sought::Leaf(with_values(alloc, &named.open_ones, &values)?)),
        None => Ok(Sought::Nothing),
    }
}
