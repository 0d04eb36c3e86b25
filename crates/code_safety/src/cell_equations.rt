//! Cells made equal.

ghost use Rattle.std.specs.Prelude.{◌≡◌, IfOk, OnOk};
ghost use Rattle.branch_state.specs.States.{IsCell, IsSameBelow, IsSound};
ghost use Rattle.code_safety.specs.CellEquations.{Equates};

use branch_state::BranchState;
use fd_language::NoMemory;
use heap_cells::Cell;
use propagate_queue::Agenda;
use unify_core::Touch;

/// Makes two cells equal, and tells the store. `false` comes exactly where that has no model. The error is want of memory.
pub fn equate<A: Agenda + Drop>(
    branch: &mut BranchState<A>,
    a: Cell,
    b: Cell,
    touches: &mut Vec<Touch>,
) -> Result<bool, NoMemory>
    requires sound { IsSound branch.old }
    requires own_a { IsCell branch.old a }
    requires own_b { IsCell branch.old b }
    ensures equates { IfOk result (Equates branch.old a b branch.new) }
    ensures same { OnOk result (IsSameBelow branch.old branch.new) }
{
    touches.clear();
    if !branch.unify(a, b, touches)? {
        return Ok(false);
    }
    branch.post_touches(touches)
}
