//! Predicates are called and return.

ghost use Rattle.std.specs.Prelude.{◌≡◌, ◌<◌, ◌≤◌, IfOk, OnOk};
ghost use Rattle.wam_code.specs.declared.instruction.Code.TheVariants as step;
ghost use Rattle.wam_code.specs.Area.{Holds};
ghost use Rattle.code_safety.specs.Machine.{IsSameBehind};
ghost use Rattle.code_safety.specs.Queries.{KeepsQuery};
ghost use Rattle.code_safety.specs.Safety.{IsSafe};
ghost use Rattle.code_safety.specs.RemainingEvents.{KeepsRunning, Calls};
ghost use Rattle.code_safety.specs.Work.{work_at, most_work};
ghost use Rattle.code_control.specs.JumpTargets.{BeginsAt};

use crate::places::entry_of;
use branch_state::BranchState;
use code_areas::Areas;
use code_safety::behind;
use fd_language::NoMemory;
use propagate_queue::Agenda;
use wam_code::CodeArea;

/// Calls the predicate with the number `e`: the place behind becomes the newest continuation, with the slots of the frame, the number of
/// choice points is noted, and the registers of the arguments are kept alone. The result is where the predicate begins; the error is
/// want of memory.
#[inline(always)]
pub fn call<A: Agenda + Drop>(
    code: &CodeArea,
    at: usize,
    e: usize,
    branch: &BranchState<A>,
    areas: &mut Areas,
) -> Result<usize, NoMemory>
    requires safe { IsSafe code.now branch.now at 0 areas.old }
    requires holds { Holds code.now at (step.Call e) }
    ensures safe { IfOk result (λ to. IsSafe code.now branch.now to 0 areas.new) }
    ensures runs { IfOk result (λ to. Calls code.now branch.now at areas.old branch.now to
        areas.new) }
    ensures most { IfOk result (λ to. work_at code.now to areas.new
        ≤ most_work code.now (work_at code.now at areas.old)) }
    ensures query { IfOk result (λ to. KeepsQuery code.now at areas.old to areas.new) }
    ensures same { OnOk result (areas.new.points ≡ areas.old.points) }
    ensures place { IfOk result (BeginsAt code.now e) }
{
    areas.call(behind(code, at))?;
    areas.note();
    let entry = entry_of(code, e);
    areas.keep_registers(entry.arity as usize + 1);
    Ok(entry.at)
}

/// Calls the predicate with the number `e` as the clause's last goal: the number of choice points is noted, and the registers of the
/// arguments are kept alone. The result is where it begins. No memory.
#[inline(always)]
pub fn execute<A: Agenda + Drop>(
    code: &CodeArea,
    at: usize,
    e: usize,
    branch: &BranchState<A>,
    areas: &mut Areas,
) -> usize
    requires safe { IsSafe code.now branch.now at 0 areas.old }
    requires holds { Holds code.now at (step.Execute e) }
    ensures safe { IsSafe code.now branch.now result 0 areas.new }
    ensures runs { Calls code.now branch.now at areas.old branch.now result areas.new }
    ensures most { work_at code.now result areas.new
        ≤ most_work code.now (work_at code.now at areas.old) }
    ensures query { KeepsQuery code.now at areas.old result areas.new }
    ensures same { IsSameBehind areas.old areas.new }
    ensures place { BeginsAt code.now e result }
{
    areas.note();
    let entry = entry_of(code, e);
    areas.keep_registers(entry.arity as usize + 1);
    entry.at
}

/// Ends a clause. The result is the place of the newest continuation, whose slots are the current ones then; the error is want of memory.
#[inline(always)]
pub fn proceed<A: Agenda + Drop>(
    code: &CodeArea,
    at: usize,
    branch: &BranchState<A>,
    areas: &mut Areas,
) -> Result<usize, NoMemory>
    requires safe { IsSafe code.now branch.now at 0 areas.old }
    requires holds { Holds code.now at step.Proceed }
    ensures safe { IfOk result (λ to. IsSafe code.now branch.now to 0 areas.new) }
    ensures runs { IfOk result (λ to. KeepsRunning code.now branch.now at areas.old branch.now to
        areas.new) }
    ensures falls { IfOk result (λ to. work_at code.now to areas.new
        < work_at code.now at areas.old) }
    ensures query { IfOk result (λ to. KeepsQuery code.now at areas.old to areas.new) }
    ensures same { OnOk result (areas.new.points ≡ areas.old.points) }
{
    areas.proceed()
}
