//! The get group: a clause's head is matched with the arguments in the registers.

ghost use Rattle.std.specs.Prelude.{◌≡◌, IfOk, OnOk};
ghost use Rattle.branch_state.specs.States.{IsSameBelow};
ghost use Rattle.wam_code.specs.declared.instruction.Code.TheVariants as step;
ghost use Rattle.wam_code.specs.Area.{Holds};
ghost use Rattle.code_safety.specs.Machine.{IsSameBehind};
ghost use Rattle.code_safety.specs.Safety.{IsSafe, IsSafeThen};
ghost use Rattle.code_safety.specs.RepresentedBranch.{KeepsStanding};
ghost use Rattle.code_safety.specs.Work.{LeadsOn};

use crate::registers::{read, write};
use branch_state::BranchState;
use code_areas::Areas;
use code_safety::{Went, behind, equate, next_if};
use fd_language::NoMemory;
use heap_cells::Cell;
use propagate_queue::Agenda;
use term_pool::AtomId;
use unify_core::Touch;
use wam_code::{CodeArea, Register};

/// A head's argument that is a variable met first: the register takes the argument's cell. The
/// result is the next place; the error is want of memory.
#[inline(always)]
pub fn get_variable<A: Agenda + Drop>(
    code: &CodeArea,
    at: usize,
    r: Register,
    a: usize,
    branch: &BranchState<A>,
    areas: &mut Areas,
) -> Result<Went, NoMemory>
    requires safe { IsSafe code.now branch.now at 0 areas.old }
    requires holds { Holds code.now at (step.GetVariable r a) }
    ensures safe { IfOk result (IsSafeThen code.now branch.now areas.new) }
    ensures stands { IfOk result (KeepsStanding code.now branch.now at areas.old branch.now
        areas.new) }
    ensures leads { IfOk result (LeadsOn code.now at) }
    ensures same { OnOk result (IsSameBehind areas.old areas.new) }
{
    let cell = areas.register(a);
    write(areas, r, cell)?;
    Ok(Went::On(behind(code, at)))
}

/// Makes an argument equal to what the register holds, and tells the store; `touches` is lent for
/// that. The result is the next place, or back where they can't be equal; the error is want of
/// memory.
#[inline(always)]
pub fn get_value<A: Agenda + Drop>(
    code: &CodeArea,
    at: usize,
    r: Register,
    a: usize,
    branch: &mut BranchState<A>,
    areas: &Areas,
    touches: &mut Vec<Touch>,
) -> Result<Went, NoMemory>
    requires safe { IsSafe code.now branch.old at 0 areas.now }
    requires holds { Holds code.now at (step.GetValue r a) }
    ensures safe { IfOk result (IsSafeThen code.now branch.new areas.now) }
    ensures stands { IfOk result (KeepsStanding code.now branch.old at areas.now branch.new
        areas.now) }
    ensures leads { IfOk result (LeadsOn code.now at) }
    ensures same { OnOk result (IsSameBelow branch.old branch.new) }
{
    let argument = areas.register(a);
    let held = read(areas, r);
    let equal = equate(branch, argument, held, touches)?;
    Ok(next_if(code, at, equal))
}

/// Makes an argument equal to an atom, as `get_value` does.
#[inline(always)]
pub fn get_constant<A: Agenda + Drop>(
    code: &CodeArea,
    at: usize,
    c: AtomId,
    a: usize,
    branch: &mut BranchState<A>,
    areas: &Areas,
    touches: &mut Vec<Touch>,
) -> Result<Went, NoMemory>
    requires safe { IsSafe code.now branch.old at 0 areas.now }
    requires holds { Holds code.now at (step.GetConstant c a) }
    ensures safe { IfOk result (IsSafeThen code.now branch.new areas.now) }
    ensures stands { IfOk result (KeepsStanding code.now branch.old at areas.now branch.new
        areas.now) }
    ensures leads { IfOk result (LeadsOn code.now at) }
    ensures same { OnOk result (IsSameBelow branch.old branch.new) }
{
    let argument = areas.register(a);
    let equal = equate(branch, argument, Cell::Atom(c), touches)?;
    Ok(next_if(code, at, equal))
}

/// Makes an argument equal to an integer, as `get_value` does.
#[inline(always)]
pub fn get_integer<A: Agenda + Drop>(
    code: &CodeArea,
    at: usize,
    z: i64,
    a: usize,
    branch: &mut BranchState<A>,
    areas: &Areas,
    touches: &mut Vec<Touch>,
) -> Result<Went, NoMemory>
    requires safe { IsSafe code.now branch.old at 0 areas.now }
    requires holds { Holds code.now at (step.GetInteger z a) }
    ensures safe { IfOk result (IsSafeThen code.now branch.new areas.now) }
    ensures stands { IfOk result (KeepsStanding code.now branch.old at areas.now branch.new
        areas.now) }
    ensures leads { IfOk result (LeadsOn code.now at) }
    ensures same { OnOk result (IsSameBelow branch.old branch.new) }
{
    let argument = areas.register(a);
    let equal = equate(branch, argument, Cell::Int(z), touches)?;
    Ok(next_if(code, at, equal))
}
