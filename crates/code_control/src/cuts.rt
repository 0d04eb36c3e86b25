//! Levels of the search, tests, and cuts.

ghost use Rattle.std.specs.Prelude.{◌≡◌, ◌-◌, ◌<◌, ◌≤◌, ◌^◌, ◌∷◌, suc, length, drop, slice_set, IfOk, OnOk, MatchResult};
ghost use Rattle.branch_meaning.specs.RemainingEvents.{oldest};
ghost use Rattle.wam_code.specs.declared.instruction.Code.TheVariants as step;
ghost use Rattle.wam_code.specs.Area.{Holds};
ghost use Rattle.branch_state.specs.States.{IsSound, with_pair, without_pairs};
ghost use Rattle.code_areas.specs.Areas.{level};
ghost use Rattle.code_safety.specs.Choices.{point_of};
ghost use Rattle.code_safety.specs.Machine.{IsSameBehind, IsSlot};
ghost use Rattle.code_safety.specs.Queries.{KeepsQuery};
ghost use Rattle.code_safety.specs.Safety.{IsSafe};
ghost use Rattle.code_safety.specs.RemainingEvents.{KeepsRunning, SplitsAt, TestsAt, CutsAt};
ghost use Rattle.code_safety.specs.Work.{work_at};

use crate::choices::leave_choice;
use branch_state::BranchState;
use code_areas::Areas;
use code_safety::behind;
use fd_language::NoMemory;
use propagate_queue::Agenda;
use wam_code::CodeArea;

/// Puts the number of choice points that the call has noted into the slot `n`. The result is the next place. No memory.
#[inline]
pub fn level<A: Agenda + Drop>(
    code: &CodeArea,
    at: usize,
    n: usize,
    branch: &BranchState<A>,
    areas: &mut Areas,
) -> usize
    requires safe { IsSafe code.now branch.now at 0 areas.old }
    requires holds { Holds code.now at (step.Level n) }
    ensures safe { IsSafe code.now branch.now result 0 areas.new }
    ensures runs { KeepsRunning code.now branch.now at areas.old branch.now result areas.new }
    ensures falls { work_at code.now result areas.new < work_at code.now at areas.old }
    ensures query { KeepsQuery code.now at areas.old result areas.new }
    ensures same { IsSameBehind areas.old areas.new }
{
    areas.set_level(n - 1, areas.noted());
    behind(code, at)
}

/// Begins a test without another way: the slot `n` takes the number of choice points. The result is the next place. No memory.
#[inline]
pub fn test_only<A: Agenda + Drop>(
    code: &CodeArea,
    at: usize,
    n: usize,
    branch: &BranchState<A>,
    areas: &mut Areas,
) -> usize
    requires safe { IsSafe code.now branch.now at 0 areas.old }
    requires holds { Holds code.now at (step.TestOnly n) }
    ensures safe { IsSafe code.now branch.now result 0 areas.new }
    ensures runs { TestsAt code.now branch.now at areas.old branch.now result areas.new }
    ensures falls { work_at code.now result areas.new < work_at code.now at areas.old }
    ensures query { KeepsQuery code.now at areas.old result areas.new }
    ensures same { IsSameBehind areas.old areas.new }
{
    areas.set_level(n - 1, areas.points());
    behind(code, at)
}

/// Puts the number of choice points into the slot `n`, and one more into the slot `m`. The error is want of memory.
#[inline]
fn set_levels(n: usize, m: usize, areas: &mut Areas) -> Result<(), NoMemory>
    requires first { IsSlot n areas.old.slots }
    requires second { IsSlot m areas.old.slots }
    ensures { MatchResult result
        (λ _. areas.new ≡ record areas.old {
          slots = slice_set
              (slice_set areas.old.slots (n - 1) (level (length areas.old.points)))
              (m - 1) (level (suc (length areas.old.points)));
        })
        (λ _. 2 ^ 64 ≤ suc (length areas.old.points)) }
{
    let points = areas.points();
    let inside = points.checked_add(1).ok_or(NoMemory)?;
    areas.set_level(n - 1, points);
    areas.set_level(m - 1, inside);
    Ok(())
}

/// Begins a test, and leaves a choice point for its other way, which is at `to`: the slot `n` takes the number of choice points of
/// before, and the slot `m` that with the new one. The result is the next place; the error is want of memory.
#[inline]
pub fn enter_test<A: Agenda + Drop>(
    code: &CodeArea,
    at: usize,
    n: usize,
    m: usize,
    to: usize,
    branch: &mut BranchState<A>,
    areas: &mut Areas,
) -> Result<usize, NoMemory>
    requires safe { IsSafe code.now branch.old at 0 areas.old }
    requires holds { Holds code.now at (step.EnterTest n m to) }
    ensures safe { IfOk result (λ next. IsSafe code.now branch.new next 0 areas.new) }
    ensures runs { IfOk result (λ next. SplitsAt code.now branch.old at areas.old branch.new next
        areas.new to) }
    ensures falls { IfOk result (λ next. work_at code.now next areas.new
        < work_at code.now at areas.old) }
    ensures query { IfOk result (λ next. KeepsQuery code.now at areas.old next areas.new) }
    ensures other { OnOk result (KeepsQuery code.now at areas.old to areas.new) }
    ensures pair { OnOk result (branch.new ≡ with_pair branch.old) }
    ensures point { OnOk result (areas.new.points ≡ point_of areas.new to ∷ areas.old.points) }
{
    set_levels(n, m, areas)?;
    leave_choice(to, branch, areas)?;
    Ok(behind(code, at))
}

/// Drops the choice points above the oldest `kept` ones, and the pairs of the branch that were kept for them. No memory.
#[inline]
fn drop_above<A: Agenda + Drop>(kept: usize, branch: &mut BranchState<A>, areas: &mut Areas)
    requires sound { IsSound branch.old }
    requires marked { length areas.old.points < length branch.old.heaps.below }
    ensures pairs { branch.new ≡ without_pairs branch.old (length areas.old.points - kept) }
    ensures sound { IsSound branch.new }
    ensures points { areas.new ≡ record areas.old {
      points = drop (length areas.old.points - kept) areas.old.points;
    } }
{
    let points = areas.points();
    if kept < points {
        branch.drop_marks(points - kept);
        areas.drop_points(kept);
    }
}

/// Drops the choice points above the number in the slot `n`, and the pairs of the branch that were kept for them. The result is the next
/// place. No memory.
#[inline]
pub fn cut_to<A: Agenda + Drop>(
    code: &CodeArea,
    at: usize,
    n: usize,
    branch: &mut BranchState<A>,
    areas: &mut Areas,
) -> usize
    requires safe { IsSafe code.now branch.old at 0 areas.old }
    requires holds { Holds code.now at (step.CutTo n) }
    ensures safe { IsSafe code.now branch.new result 0 areas.new }
    ensures runs { CutsAt code.now branch.old at areas.old branch.new result areas.new }
    ensures falls { work_at code.now result areas.new < work_at code.now at areas.old }
    ensures query { KeepsQuery code.now at areas.old result areas.new }
    ensures pairs { branch.new
        ≡ without_pairs branch.old (length areas.old.points - length areas.new.points) }
    ensures points { areas.new.points ≡ oldest (length areas.new.points) areas.old.points }
{
    let kept = areas.level(n - 1);
    drop_above(kept, branch, areas);
    behind(code, at)
}
