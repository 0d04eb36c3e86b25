//! Choices: places to come back to are left, and gone back to. Each instruction has a function, also where it does next to nothing, as
//! `jump` and `fail_now`: so each has a contract of one form, by which the machine's step is proved.

ghost use Rattle.std.specs.Prelude.{◌≡◌, ◌<◌, ◌∷◌, length, IfOk, OnOk};
ghost use Rattle.wam_code.specs.declared.instruction.Code.TheVariants as step;
ghost use Rattle.wam_code.specs.Area.{Holds};
ghost use Rattle.branch_state.specs.States.{with_pair, IsSound, IsUndone};
ghost use Rattle.code_safety.specs.Queries.{KeepsQuery};
ghost use Rattle.code_safety.specs.Safety.{IsSafe, IsSafeBack};
ghost use Rattle.code_safety.specs.Choices.{point_of};
ghost use Rattle.code_safety.specs.RemainingEvents.{KeepsRunning, GoesBack, SplitsAt, Resumes};
ghost use Rattle.code_safety.specs.Work.{work_at, work_back};

use branch_state::BranchState;
use code_areas::Areas;
use code_safety::behind;
use fd_language::NoMemory;
use propagate_queue::Agenda;
use wam_code::CodeArea;

/// Leaves a choice point, to come back to at `place` with all that is current. The error is want of memory.
pub(crate) fn leave_choice<A: Agenda + Drop>(
    place: usize,
    branch: &mut BranchState<A>,
    areas: &mut Areas,
) -> Result<(), NoMemory>
    requires sound { IsSound branch.old }
    ensures pair { OnOk result (branch.new ≡ with_pair branch.old) }
    ensures sound { OnOk result (IsSound branch.new) }
    ensures point { OnOk result (areas.new
        ≡ record areas.old { points = point_of areas.old place ∷ areas.old.points }) }
{
    branch.mark()?;
    areas.push_point(place)
}

/// Takes the goals behind, and later those at `to`. The result is the next place; the error is want of memory.
#[inline]
pub fn either<A: Agenda + Drop>(
    code: &CodeArea,
    at: usize,
    to: usize,
    branch: &mut BranchState<A>,
    areas: &mut Areas,
) -> Result<usize, NoMemory>
    requires safe { IsSafe code.now branch.old at 0 areas.old }
    requires holds { Holds code.now at (step.Either to) }
    ensures safe { IfOk result (λ next. IsSafe code.now branch.new next 0 areas.new) }
    ensures runs { IfOk result (λ next. SplitsAt code.now branch.old at areas.old branch.new next
        areas.new to) }
    ensures falls { IfOk result (λ next. work_at code.now next areas.new
        < work_at code.now at areas.old) }
    ensures query { IfOk result (λ next. KeepsQuery code.now at areas.old next areas.new) }
    ensures other { OnOk result (KeepsQuery code.now at areas.old to areas.old) }
    ensures pair { OnOk result (branch.new ≡ with_pair branch.old) }
    ensures point { OnOk result (areas.new.points ≡ point_of areas.old to ∷ areas.old.points) }
{
    leave_choice(to, branch, areas)?;
    Ok(behind(code, at))
}

/// The next place is `to`. No memory.
#[inline]
pub fn jump<A: Agenda + Drop>(
    code: &CodeArea,
    at: usize,
    to: usize,
    branch: &BranchState<A>,
    areas: &Areas,
) -> usize
    requires safe { IsSafe code.now branch.now at 0 areas.now }
    requires holds { Holds code.now at (step.Jump to) }
    ensures safe { IsSafe code.now branch.now result 0 areas.now }
    ensures runs { KeepsRunning code.now branch.now at areas.now branch.now result areas.now }
    ensures falls { work_at code.now result areas.now < work_at code.now at areas.now }
    ensures query { KeepsQuery code.now at areas.now result areas.now }
    ensures place { result ≡ to }
{
    to
}

/// No clause fits: the machine is to go back, and does nothing here. No memory.
#[inline]
pub fn fail_now<A: Agenda + Drop>(
    code: &CodeArea,
    at: usize,
    branch: &BranchState<A>,
    areas: &Areas,
)
    requires safe { IsSafe code.now branch.now at 0 areas.now }
    requires holds { Holds code.now at step.FailNow }
    ensures safe { IsSafeBack code.now branch.now areas.now }
    ensures runs { GoesBack code.now branch.now at areas.now branch.now areas.now }
    ensures falls { work_back code.now areas.now < work_at code.now at areas.now }
{}

/// Goes back to the newest choice point, which is gone then with the current pair of the branch. The result is its place. No memory.
pub fn go_back<A: Agenda + Drop>(
    code: &CodeArea,
    branch: &mut BranchState<A>,
    areas: &mut Areas,
) -> usize
    requires safe { IsSafeBack code.now branch.old areas.old }
    requires some { 0 < length areas.old.points }
    ensures safe { IsSafe code.now branch.new result 0 areas.new }
    ensures runs { Resumes code.now branch.old areas.old branch.new result areas.new }
    ensures work { work_at code.now result areas.new ≡ work_back code.now areas.old }
    ensures branch { IsUndone branch.old branch.new }
    ensures points { areas.old.points ≡ point_of areas.new result ∷ areas.new.points }
{
    branch.undo();
    areas.pop_point()
}
