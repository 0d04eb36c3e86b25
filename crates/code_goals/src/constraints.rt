//! Constraints.

ghost use Rattle.std.specs.Prelude.{◌≡◌, IfOk, OnOk};
ghost use Rattle.branch_lemmas.specs.Frames.{IsGrown};
ghost use Rattle.branch_state.specs.States.{IsCell, IsSameBelow, with_heap};
ghost use Rattle.wam_code.specs.declared.instruction.Code.TheVariants as step;
ghost use Rattle.wam_code.specs.Area.{Holds};
ghost use Rattle.wam_code.specs.Arities.{constraint_arity};
ghost use Rattle.code_safety.specs.Safety.{IsSafe};
ghost use Rattle.code_goals.specs.Arguments.{HasArguments, IsGathered, IsGoal};
ghost use Rattle.code_goals.specs.GoalOutcomes.{IsSafeNext, LeadsNext, Takes};

use crate::goal_outcomes::{Next, pool_of};
use branch_state::{BranchState, Step};
use code_areas::Areas;
use code_safety::behind;
use fd_language::NoMemory;
use fd_model::kinds::ConstraintKind;
use heap_cells::Cell;
use propagate_queue::Agenda;
use term_pool::CONS;
use wam_code::CodeArea;

/// Puts the cells of the first `count` registers into `cells`, in place of what is there. The error is want of memory.
pub(crate) fn gather(areas: &Areas, count: usize, cells: &mut Vec<Cell>) -> Result<(), NoMemory>
    requires { HasArguments count areas.now }
    ensures { OnOk result (IsGathered areas.now count cells.new.items) }
{
    cells.clear();
    for i in 0..count {
        cells.push(areas.register(i + 1))?;
    }
    Ok(())
}

/// The goal of the arguments, as a new compound term of the heap. The error is want of memory.
fn goal_of<A: Agenda + Drop>(
    code: &CodeArea,
    at: usize,
    kind: ConstraintKind,
    branch: &mut BranchState<A>,
    areas: &Areas,
    cells: &mut Vec<Cell>,
) -> Result<Cell, NoMemory>
    requires safe { IsSafe code.now branch.old at 0 areas.now }
    requires holds { Holds code.now at (step.Constrain kind) }
    ensures own { IfOk result (IsCell branch.new) }
    ensures goal { IfOk result (IsGoal code.now branch.new areas.now (constraint_arity kind)) }
    ensures grown { OnOk result (IsGrown branch.old.heaps.now branch.new.heaps.now) }
    ensures heap { OnOk result (branch.new ≡ with_heap branch.old branch.new.heaps.now) }
    ensures safe { OnOk result (IsSafe code.now branch.new at 0 areas.now) }
{
    pool_of(code);
    gather(areas, kind.arity(), cells)?;
    branch.compound(CONS, cells)
}

/// Takes the constraint at a place, whose arguments are in the first registers; `cells` is lent for them. After a way back the current
/// pair of the branch is to be given up. The error is want of memory.
pub fn take_constraint<A: Agenda + Drop>(
    code: &CodeArea,
    at: usize,
    kind: ConstraintKind,
    branch: &mut BranchState<A>,
    areas: &Areas,
    cells: &mut Vec<Cell>,
) -> Result<Next, NoMemory>
    requires safe { IsSafe code.now branch.old at 0 areas.now }
    requires holds { Holds code.now at (step.Constrain kind) }
    ensures safe { IfOk result (IsSafeNext code.now branch.new areas.now) }
    ensures takes { IfOk result (Takes code.now branch.old at areas.now branch.new) }
    ensures leads { IfOk result (LeadsNext at) }
    ensures same { OnOk result (IsSameBelow branch.old branch.new) }
{
    let goal = goal_of(code, at, kind, branch, areas, cells)?;
    match branch.constrain(code.pool(), kind, goal)? {
        Step::Kept => Ok(Next::On(behind(code, at))),
        Step::Failed => Ok(Next::Back),
        Step::Fault(fault) => Ok(Next::Fault(fault)),
    }
}
