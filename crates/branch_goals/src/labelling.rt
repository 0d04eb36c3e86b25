//! What a labelling takes.

ghost use Rattle.std.specs.Prelude.{◌≡◌, ◌<◌, IfOk};
ghost use Rattle.heap_cells.specs.Cells.{IsOf};
ghost use Rattle.heap_cells.specs.Terms.{Naming};
ghost use Rattle.branch_state.specs.States.{IsSound, IsCell};
ghost use Rattle.branch_goals.specs.Lists.{IsListNaming};
ghost use Rattle.branch_goals.specs.Labels.{Labels, IsVariableOf};

use crate::variable_selection::find_member;
use branch_state::BranchState;
use fd_model::kinds::{Order, QueryFault};
use heap_cells::{Cell, Heap, Seen};
use propagate_queue::Agenda;

/// What a labelling does.
#[derive(Clone, Copy)]
pub enum Labelling {
    /// No member is open.
    Done,
    /// The variable of the heap, by its number, that is taken next.
    Takes(usize),
    /// The argument is no list of variables and integers.
    Fault(QueryFault),
}

/// The variable that a cell comes to. Cells of other terms have the number 0.
pub(crate) fn variable_of(heap: &Heap, c: Cell) -> usize
    requires { IsOf heap.now.now c }
    ensures { (name : Naming) → IsVariableOf name heap.now.now c result }
{
    match heap.deref(c) {
        Seen::Open(i) => i,
        Seen::Constrained(i, _) => i,
        _ => 0,
    }
}

/// What the labelling of the list in a cell does: by `Leftmost` it takes the first open member, by `FirstFail` the first of those
/// with the fewest values. A variable of the store with one value counts as that integer, and a variable that the store doesn't have
/// has all values from 0 to the greatest. No memory.
pub fn label<A: Agenda + Drop>(branch: &BranchState<A>, order: Order, list: Cell) -> Labelling
    requires sound { IsSound branch.now }
    requires list { IsCell branch.now list }
    ensures { (name : Naming) → IsListNaming name → Labels name branch.now order list result }
{
    let heap = branch.heap();
    let store = branch.store();
    store.known();
    match find_member(heap, store, branch.infinity(), order, list) {
        Err(fault) => Labelling::Fault(fault),
        Ok(Some(taken)) => Labelling::Takes(variable_of(heap, taken.cell)),
        Ok(None) => Labelling::Done,
    }
}
