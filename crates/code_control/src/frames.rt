//! Frames come and go.

ghost use Rattle.std.specs.Prelude.{◌≡◌, ◌<◌, IfOk, OnOk};
ghost use Rattle.wam_code.specs.declared.instruction.Code.TheVariants as step;
ghost use Rattle.wam_code.specs.Area.{Holds};
ghost use Rattle.code_safety.specs.Machine.{IsSameBehind};
ghost use Rattle.code_safety.specs.Queries.{KeepsQuery};
ghost use Rattle.code_safety.specs.Safety.{IsSafe};
ghost use Rattle.code_safety.specs.RemainingEvents.{KeepsRunning};
ghost use Rattle.code_safety.specs.Work.{work_at};

use branch_state::BranchState;
use code_areas::Areas;
use code_safety::behind;
use fd_language::NoMemory;
use propagate_queue::Agenda;
use wam_code::CodeArea;

/// Begins a frame of `n` slots, of which none is set. The result is the next place; the error is want of memory.
#[inline(always)]
pub fn allocate<A: Agenda + Drop>(
    code: &CodeArea,
    at: usize,
    n: usize,
    branch: &BranchState<A>,
    areas: &mut Areas,
) -> Result<usize, NoMemory>
    requires safe { IsSafe code.now branch.now at 0 areas.old }
    requires holds { Holds code.now at (step.Allocate n) }
    ensures safe { IfOk result (λ to. IsSafe code.now branch.now to 0 areas.new) }
    ensures runs { IfOk result (λ to. KeepsRunning code.now branch.now at areas.old branch.now to
        areas.new) }
    ensures falls { IfOk result (λ to. work_at code.now to areas.new
        < work_at code.now at areas.old) }
    ensures query { IfOk result (λ to. KeepsQuery code.now at areas.old to areas.new) }
    ensures same { OnOk result (IsSameBehind areas.old areas.new) }
{
    areas.allocate(n)?;
    Ok(behind(code, at))
}

/// Gives the current frame up. The result is the next place. No memory.
#[inline(always)]
pub fn deallocate<A: Agenda + Drop>(
    code: &CodeArea,
    at: usize,
    branch: &BranchState<A>,
    areas: &mut Areas,
) -> usize
    requires safe { IsSafe code.now branch.now at 0 areas.old }
    requires holds { Holds code.now at step.Deallocate }
    ensures safe { IsSafe code.now branch.now result 0 areas.new }
    ensures runs { KeepsRunning code.now branch.now at areas.old branch.now result areas.new }
    ensures falls { work_at code.now result areas.new < work_at code.now at areas.old }
    ensures query { KeepsQuery code.now at areas.old result areas.new }
    ensures same { IsSameBehind areas.old areas.new }
{
    areas.deallocate();
    behind(code, at)
}
