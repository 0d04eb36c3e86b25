//! Choice points that are gone back to: one stays while a later clause may match.

ghost use Rattle.std.specs.Prelude.{◌<◌, length};
ghost use Rattle.branch_state.specs.States.{IsSoundBelow};
ghost use Rattle.code_safety.specs.Safety.{IsSafe, IsSafeBack};
ghost use Rattle.code_control.specs.RetriedChoices.{IsUndoneAgain, KeepsPoint, TriesAgain};

use crate::choices::go_back;
use crate::clause_selection::{Tried, next_choice, tried_at};
use branch_state::BranchState;
use code_areas::Areas;
use propagate_queue::Agenda;
use wam_code::CodeArea;

/// Makes the pair below the current one, of which a copy stays below. No memory.
#[inline]
fn undo_again<A: Agenda + Drop>(branch: &mut BranchState<A>)
    requires sound { IsSoundBelow branch.old }
    requires marked { 1 < length branch.old.heaps.below }
    ensures { IsUndoneAgain branch.old branch.new }
{
    branch.reset_to_mark();
}

/// Keeps the newest choice point for the first choice from the place `other` on whose clause may match, or takes it away where none may,
/// with the pair of the branch that was kept for it. No memory.
#[inline]
fn keep_point<A: Agenda + Drop>(
    code: &CodeArea,
    other: usize,
    branch: &mut BranchState<A>,
    areas: &mut Areas,
)
    requires safe { IsSafe code.now branch.old other 0 areas.old }
    requires some { 0 < length areas.old.points }
    ensures { KeepsPoint code.now branch.old other areas.old branch.new areas.new }
{
    match next_choice(code, other, branch, areas) {
        Some(later) => areas.set_point_place(later),
        None => {
            branch.drop_marks(1);
            areas.drop_points(areas.points() - 1);
        }
    }
}

/// Goes back to the newest choice point, and takes the choice at its place: the point stays while a later clause may match, and is gone
/// with the last one, or where no choice stands there. The result is the next place. No memory.
pub fn try_again<A: Agenda + Drop>(
    code: &CodeArea,
    branch: &mut BranchState<A>,
    areas: &mut Areas,
) -> usize
    requires safe { IsSafeBack code.now branch.old areas.old }
    requires some { 0 < length areas.old.points }
    ensures { TriesAgain code.now branch.old areas.old branch.new areas.new result }
{
    match tried_at(code, areas.point_place()) {
        Tried::Both(to, other) => {
            undo_again(branch);
            areas.restore_point();
            keep_point(code, other, branch, areas);
            to
        }
        Tried::Last(to) => {
            go_back(code, branch, areas);
            to
        }
        Tried::Other => go_back(code, branch, areas),
    }
}
