//! The put group: a goal's arguments are put into the registers.

ghost use Rattle.std.specs.Prelude.{◌≡◌, IfOk, OnOk};
ghost use Rattle.branch_state.specs.States.{IsSameBelow};
ghost use Rattle.wam_code.specs.declared.instruction.Code.TheVariants as step;
ghost use Rattle.wam_code.specs.Area.{Holds};
ghost use Rattle.code_safety.specs.Machine.{IsSameBehind};
ghost use Rattle.code_safety.specs.Safety.{IsSafe, IsSafeThen};
ghost use Rattle.code_safety.specs.RepresentedBranch.{KeepsStanding};
ghost use Rattle.code_safety.specs.Work.{LeadsOn};

use crate::registers::{read, write};
use branch_state::BranchState;
use code_areas::Areas;
use code_safety::{Went, behind};
use fd_language::NoMemory;
use heap_cells::Cell;
use propagate_queue::Agenda;
use term_pool::AtomId;
use wam_code::{CodeArea, Register};

/// A goal's argument that is a new variable, which both registers take. The result is the next
/// place; the error is want of memory.
#[inline(always)]
pub fn put_variable<A: Agenda + Drop>(
    code: &CodeArea,
    at: usize,
    r: Register,
    a: usize,
    branch: &mut BranchState<A>,
    areas: &mut Areas,
) -> Result<Went, NoMemory>
    requires safe { IsSafe code.now branch.old at 0 areas.old }
    requires holds { Holds code.now at (step.PutVariable r a) }
    ensures safe { IfOk result (IsSafeThen code.now branch.new areas.new) }
    ensures stands { IfOk result (KeepsStanding code.now branch.old at areas.old branch.new
        areas.new) }
    ensures leads { IfOk result (LeadsOn code.now at) }
    ensures behind { OnOk result (IsSameBehind areas.old areas.new) }
    ensures below { OnOk result (IsSameBelow branch.old branch.new) }
{
    let cell = branch.new_var()?;
    write(areas, r, cell)?;
    write(areas, Register::X(a), cell)?;
    Ok(Went::On(behind(code, at)))
}

/// A goal's argument is what a register holds. The result is the next place; the error is want of
/// memory.
#[inline(always)]
pub fn put_value<A: Agenda + Drop>(
    code: &CodeArea,
    at: usize,
    r: Register,
    a: usize,
    branch: &BranchState<A>,
    areas: &mut Areas,
) -> Result<Went, NoMemory>
    requires safe { IsSafe code.now branch.now at 0 areas.old }
    requires holds { Holds code.now at (step.PutValue r a) }
    ensures safe { IfOk result (IsSafeThen code.now branch.now areas.new) }
    ensures stands { IfOk result (KeepsStanding code.now branch.now at areas.old branch.now
        areas.new) }
    ensures leads { IfOk result (LeadsOn code.now at) }
    ensures same { OnOk result (IsSameBehind areas.old areas.new) }
{
    let cell = read(areas, r);
    write(areas, Register::X(a), cell)?;
    Ok(Went::On(behind(code, at)))
}

/// A goal's argument is an atom, as in `put_value`.
#[inline(always)]
pub fn put_constant<A: Agenda + Drop>(
    code: &CodeArea,
    at: usize,
    c: AtomId,
    a: usize,
    branch: &BranchState<A>,
    areas: &mut Areas,
) -> Result<Went, NoMemory>
    requires safe { IsSafe code.now branch.now at 0 areas.old }
    requires holds { Holds code.now at (step.PutConstant c a) }
    ensures safe { IfOk result (IsSafeThen code.now branch.now areas.new) }
    ensures stands { IfOk result (KeepsStanding code.now branch.now at areas.old branch.now
        areas.new) }
    ensures leads { IfOk result (LeadsOn code.now at) }
    ensures same { OnOk result (IsSameBehind areas.old areas.new) }
{
    write(areas, Register::X(a), Cell::Atom(c))?;
    Ok(Went::On(behind(code, at)))
}

/// A goal's argument is an integer, as in `put_value`.
#[inline(always)]
pub fn put_integer<A: Agenda + Drop>(
    code: &CodeArea,
    at: usize,
    z: i64,
    a: usize,
    branch: &BranchState<A>,
    areas: &mut Areas,
) -> Result<Went, NoMemory>
    requires safe { IsSafe code.now branch.now at 0 areas.old }
    requires holds { Holds code.now at (step.PutInteger z a) }
    ensures safe { IfOk result (IsSafeThen code.now branch.now areas.new) }
    ensures stands { IfOk result (KeepsStanding code.now branch.now at areas.old branch.now
        areas.new) }
    ensures leads { IfOk result (LeadsOn code.now at) }
    ensures same { OnOk result (IsSameBehind areas.old areas.new) }
{
    write(areas, Register::X(a), Cell::Int(z))?;
    Ok(Went::On(behind(code, at)))
}
