//! Instructions that spend no reduction.

ghost use Rattle.std.specs.Prelude.{IfOk};
ghost use Rattle.wam_code.specs.declared.instruction.Code.TheVariants as step;
ghost use Rattle.wam_code.specs.Area.{Holds};
ghost use Rattle.code_safety.specs.Safety.{IsSafe};
ghost use Rattle.code_machine.specs.Instructions.{IsChoice};
ghost use Rattle.code_machine.specs.Steps.{Moves, TakesTerm};

use branch_state::BranchState;
use code_areas::Areas;
use code_control::{
    allocate, choose, deallocate, fail_now, jump, level, proceed, switch_on_constant,
    switch_on_integer, switch_on_structure, switch_on_term,
};
use code_safety::Went;
use fd_language::NoMemory;
use propagate_queue::Agenda;
use term_instructions::{
    Scratch, get_constant, get_integer, get_pair, get_structure, get_value, get_variable,
    put_constant, put_integer, put_structure, put_value, put_variable,
};
use wam_code::{Code, CodeArea};

/// Takes a switch by kinds, and with it a structure of two arguments that the code asks for where it leads, if the first argument is one,
/// and both go into registers that are met first. Gives where that leads; the error is want of memory.
#[inline(always)]
fn take_switch<A: Agenda + Drop>(
    code: &CodeArea,
    at: usize,
    arms: (usize, usize, usize, usize),
    branch: &BranchState<A>,
    areas: &mut Areas,
) -> Result<Went, NoMemory>
    requires safe { IsSafe code.now branch.now at 0 areas.old }
    requires holds { Holds code.now at (step.SwitchOnTerm arms.0 arms.1 arms.2 arms.3) }
    ensures { IfOk result (Moves code.now branch.now at areas.old branch.now areas.new) }
{
    let (v, c, i, s) = arms;
    let (to, seen) = switch_on_term(code, at, v, c, i, s, branch, areas);
    match get_pair(code, to, seen, branch, areas)? {
        Some(next) => Ok(Went::On(next)),
        None => Ok(Went::On(to)),
    }
}

/// Takes an instruction of a clause's terms or of its frame, a level, a jump, or a switch by kinds, and gives where it leads, or nothing
/// where it is another one; `scratch` is lent. The error is want of memory.
#[inline(always)]
pub(crate) fn take_term<A: Agenda + Drop>(
    code: &CodeArea,
    at: usize,
    instruction: &Code,
    branch: &mut BranchState<A>,
    areas: &mut Areas,
    scratch: &mut Scratch,
) -> Result<Option<Went>, NoMemory>
    requires safe { IsSafe code.now branch.old at 0 areas.old }
    requires holds { Holds code.now at instruction.now }
    ensures { IfOk result (TakesTerm code.now at instruction.now branch.old areas.old branch.new
        areas.new) }
{
    match *instruction {
        Code::GetVariable(r, a) => Ok(Some(get_variable(code, at, r, a, branch, areas)?)),
        Code::GetValue(r, a) => {
            Ok(Some(get_value(code, at, r, a, branch, areas, &mut scratch.touches)?))
        }
        Code::GetConstant(c, a) => {
            Ok(Some(get_constant(code, at, c, a, branch, areas, &mut scratch.touches)?))
        }
        Code::GetInteger(z, a) => {
            Ok(Some(get_integer(code, at, z, a, branch, areas, &mut scratch.touches)?))
        }
        Code::GetStructure(f, n, a) => {
            Ok(Some(get_structure(code, at, (f, n), a, branch, areas, scratch)?))
        }
        Code::PutVariable(r, a) => Ok(Some(put_variable(code, at, r, a, branch, areas)?)),
        Code::PutValue(r, a) => Ok(Some(put_value(code, at, r, a, branch, areas)?)),
        Code::PutConstant(c, a) => Ok(Some(put_constant(code, at, c, a, branch, areas)?)),
        Code::PutInteger(z, a) => Ok(Some(put_integer(code, at, z, a, branch, areas)?)),
        Code::PutStructure(f, n, a) => {
            Ok(Some(put_structure(code, at, (f, n), a, branch, areas, &mut scratch.cells)?))
        }
        Code::Allocate(n) => Ok(Some(Went::On(allocate(code, at, n, branch, areas)?))),
        Code::Deallocate => Ok(Some(Went::On(deallocate(code, at, branch, areas)))),
        Code::Proceed => Ok(Some(Went::On(proceed(code, at, branch, areas)?))),
        Code::Level(n) => Ok(Some(Went::On(level(code, at, n, branch, areas)))),
        Code::Jump(to) => Ok(Some(Went::On(jump(code, at, to, branch, areas)))),
        Code::SwitchOnTerm(v, c, i, s) => {
            Ok(Some(take_switch(code, at, (v, c, i, s), branch, areas)?))
        }
        _ => Ok(None),
    }
}

/// Takes a choice or a switch by keys, and gives where it leads. The error is want of memory.
#[inline(always)]
pub(crate) fn take_choice<A: Agenda + Drop>(
    code: &CodeArea,
    at: usize,
    instruction: Code,
    branch: &mut BranchState<A>,
    areas: &mut Areas,
) -> Result<Went, NoMemory>
    requires safe { IsSafe code.now branch.old at 0 areas.old }
    requires holds { Holds code.now at instruction }
    requires choice { IsChoice instruction }
    ensures { IfOk result (Moves code.now branch.old at areas.old branch.new areas.new) }
{
    match instruction {
        Code::FailNow => {
            fail_now(code, at, branch, areas);
            Ok(Went::Back)
        }
        Code::TryMeElse(_)
        | Code::RetryMeElse(_)
        | Code::TrustMe
        | Code::Try(_)
        | Code::Retry(_)
        | Code::Trust(_) => choose(code, at, instruction, branch, areas),
        Code::SwitchOnConstant(t) => Ok(switch_on_constant(code, at, t, branch, areas)),
        Code::SwitchOnInteger(t) => Ok(switch_on_integer(code, at, t, branch, areas)),
        Code::SwitchOnStructure(t) => Ok(switch_on_structure(code, at, t, branch, areas)),
        _ => unreachable!(),
    }
}
