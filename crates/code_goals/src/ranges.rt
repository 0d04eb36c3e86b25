//! Ranges.

ghost use Rattle.std.specs.Prelude.{◌≡◌, ◌≤◌, length, drop, IfOk, OnOk};
ghost use Rattle.branch_state.specs.States.{IsSameBelow};
ghost use Rattle.code_safety.specs.Safety.{IsSafe};
ghost use Rattle.code_goals.specs.Posting.{PostsAt};
ghost use Rattle.code_goals.specs.GoalOutcomes.{IsSafeNext, LeadsNext, Takes};

use crate::constraints::gather;
use crate::goal_outcomes::Next;
use branch_state::{BranchState, Step};
use code_areas::Areas;
use code_safety::behind;
use fd_language::NoMemory;
use heap_cells::Cell;
use propagate_queue::Agenda;
use range_code::RangeCode;
use std::rc::Rc;
use wam_code::CodeArea;

/// The cells behind the first one.
fn behind_first(cells: &[Cell]) -> &[Cell]
    requires { 1 ≤ length cells.now }
    ensures { result.now ≡ drop 1 cells.now }
{
    &cells[1..]
}

/// Posts the range at a place: its target is in the first register, and its variables are in those behind, `count` registers in all;
/// `cells` is lent for them. After a way back the current pair of the branch is to be given up. The error is want of memory.
pub fn take_post<A: Agenda + Drop>(
    code: &CodeArea,
    at: usize,
    range: &Rc<RangeCode>,
    count: usize,
    branch: &mut BranchState<A>,
    areas: &Areas,
    cells: &mut Vec<Cell>,
) -> Result<Next, NoMemory>
    requires safe { IsSafe code.now branch.old at 0 areas.now }
    requires holds { PostsAt code.now at range.now.value count }
    ensures safe { IfOk result (IsSafeNext code.now branch.new areas.now) }
    ensures takes { IfOk result (Takes code.now branch.old at areas.now branch.new) }
    ensures leads { IfOk result (LeadsNext at) }
    ensures same { OnOk result (IsSameBelow branch.old branch.new) }
{
    gather(areas, count, cells)?;
    let target = areas.register(1);
    match branch.post_cells(range, target, behind_first(cells))? {
        Step::Kept => Ok(Next::On(behind(code, at))),
        Step::Failed => Ok(Next::Back),
        Step::Fault(fault) => Ok(Next::Fault(fault)),
    }
}
