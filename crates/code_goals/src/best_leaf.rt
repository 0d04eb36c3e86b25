//! The best leaf of a labelling.

ghost use Rattle.std.specs.Prelude.{◌≡◌, ◌<◌, IfOk, OnOk};
ghost use Rattle.branch_state.specs.States.{IsCell, IsSameBelow};
ghost use Rattle.wam_code.specs.declared.instruction.Code.TheVariants as step;
ghost use Rattle.wam_code.specs.Area.{Holds};
ghost use Rattle.code_areas.specs.Areas.{cell_at};
ghost use Rattle.code_safety.specs.Safety.{IsSafe};
ghost use Rattle.code_goals.specs.BestLeaf.{value_for, IsSafeLed, LeadsOnce, LeadsTo};
ghost use Rattle.code_goals.specs.GoalOutcomes.{IsSafeNext, LeadsNext, Takes};

use crate::goal_outcomes::{Next, pool_of};
use branch_goals::{Labelling, Sought, label, seek};
use branch_state::BranchState;
use code_areas::Areas;
use code_safety::{behind, equate};
use fd_language::NoMemory;
use fd_model::kinds::Order;
use heap_cells::Cell;
use propagate_queue::Agenda;
use unify_core::Touch;
use wam_code::CodeArea;

/// The value beside a variable, at its first place.
fn value_for(values: &[(usize, u32)], variable: usize) -> u32
    ensures { result ≡ value_for values.now variable }
{
    for value in values {
        if value.0 == variable {
            return value.1;
        }
    }
    0
}

/// Takes a step of the labelling at a place to the leaf in which the variables have these values: the variable that is taken gets its own.
/// The result is where the machine goes, if it goes on, or back, and `None` where more is to be taken. `touches` is lent for what the
/// store is told. The error is want of memory.
fn lead_once<A: Agenda + Drop>(
    code: &CodeArea,
    at: usize,
    order: Order,
    least: bool,
    list: Cell,
    values: &[(usize, u32)],
    branch: &mut BranchState<A>,
    areas: &Areas,
    touches: &mut Vec<Touch>,
) -> Result<Option<Next>, NoMemory>
    requires safe { IsSafe code.now branch.old at 0 areas.now }
    requires holds { Holds code.now at (step.Best order least) }
    requires list { cell_at areas.now.registers 1 ≡ Some list }
    ensures safe { IfOk result (IsSafeLed code.now branch.new at areas.now) }
    ensures same { OnOk result (IsSameBelow branch.old branch.new) }
    ensures leads { IfOk result (LeadsOnce code.now branch.old at areas.now order least values.now
        branch.new) }
{
    pool_of(code);
    match label(branch, order, list) {
        Labelling::Done => Ok(Some(Next::On(behind(code, at)))),
        Labelling::Fault(fault) => Ok(Some(Next::Fault(fault))),
        Labelling::Takes(variable) => {
            let number = Cell::Int(i64::from(value_for(values, variable)));
            if equate(branch, Cell::Ref(variable), number, touches)? {
                Ok(None)
            } else {
                Ok(Some(Next::Back))
            }
        }
    }
}

/// Goes to the leaf in which the variables have these values. `touches` is lent for what the store is told. The error is want of memory.
fn lead<A: Agenda + Drop>(
    code: &CodeArea,
    at: usize,
    order: Order,
    least: bool,
    list: Cell,
    values: &[(usize, u32)],
    branch: &mut BranchState<A>,
    areas: &Areas,
    touches: &mut Vec<Touch>,
) -> Result<Next, NoMemory>
    requires safe { IsSafe code.now branch.old at 0 areas.now }
    requires holds { Holds code.now at (step.Best order least) }
    requires list { cell_at areas.now.registers 1 ≡ Some list }
    ensures safe { IfOk result (IsSafeNext code.now branch.new areas.now) }
    ensures next { IfOk result (LeadsNext at) }
    ensures same { OnOk result (IsSameBelow branch.old branch.new) }
    ensures leads { IfOk result (LeadsTo code.now branch.old at areas.now order least values.now
        branch.new) }
{
    for _ in 0..values.len() + 1 {
        let next = lead_once(code, at, order, least, list, values, branch, areas, touches)?;
        if let Some(next) = next {
            return Ok(next);
        }
    }
    Ok(Next::Back)
}

/// Takes the search for the best leaf at a place, whose list and cost are in the first two registers, and goes on in that leaf. The machine
/// goes back where there is none; then the current pair of the branch is to be given up. `touches` is lent for what the store is told. The
/// error is want of memory.
pub fn take_best<A: Agenda + Drop>(
    code: &CodeArea,
    at: usize,
    order: Order,
    least: bool,
    branch: &mut BranchState<A>,
    areas: &Areas,
    touches: &mut Vec<Touch>,
) -> Result<Next, NoMemory>
    requires safe { IsSafe code.now branch.old at 0 areas.now }
    requires holds { Holds code.now at (step.Best order least) }
    ensures safe { IfOk result (IsSafeNext code.now branch.new areas.now) }
    ensures takes { IfOk result (Takes code.now branch.old at areas.now branch.new) }
    ensures leads { IfOk result (LeadsNext at) }
    ensures same { OnOk result (IsSameBelow branch.old branch.new) }
{
    pool_of(code);
    let alloc = *touches.allocator();
    let list = areas.register(1);
    let cost = areas.register(2);
    match seek(alloc, branch, order, least, list, cost)? {
        Sought::Fault(fault) => Ok(Next::Fault(fault)),
        Sought::Nothing => Ok(Next::Back),
        Sought::Leaf(values) => {
            lead(
                code, at, order, least, list, &values, branch, areas, touches,
            )
        }
    }
}
