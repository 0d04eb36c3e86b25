//! Structures of two arguments that are there.

ghost use Rattle.std.specs.Prelude.{◌<◌, length, IfOk, IfSome};
ghost use Rattle.wam_code.specs.declared.instruction.Code.TheVariants as step;
ghost use Rattle.wam_code.specs.Area.{Holds};
ghost use Rattle.code_safety.specs.Safety.{IsSafe, FirstIsSeen};
ghost use Rattle.term_instructions.specs.Pairs.{IsPairAt, GetsPair};

use crate::registers::write;
use branch_state::BranchState;
use code_areas::Areas;
use code_safety::behind;
use fd_language::NoMemory;
use heap_cells::Seen;
use propagate_queue::Agenda;
use term_pool::AtomId;
use wam_code::{Code, CodeArea, Register};

/// The register that the instruction at a place gives for an argument that is met first, if it does.
#[inline(always)]
fn variable_at(code: &CodeArea, at: usize) -> Option<Register>
    ensures { IfSome result (λ r. Holds code.now at (step.UnifyVariable r)) }
{
    match code.parts().code.get(at) {
        Some(Code::UnifyVariable(r)) => Some(*r),
        _ => None,
    }
}

/// The registers for both arguments, where the code at a place asks the first argument for a
/// structure of two with the name, and gives registers for them that are met first.
#[inline(always)]
fn pair_at(code: &CodeArea, at: usize, name: AtomId) -> Option<(Register, Register)>
    requires { at < length code.now.code }
    ensures { IfSome result (λ rs. IsPairAt code.now at name rs.0 rs.1) }
{
    match code.parts().code[at] {
        Code::GetStructure(f, n, a) if f == name && n == 2 && a == 1 => {}
        _ => return None,
    }
    let from = behind(code, at);
    let first = variable_at(code, from)?;
    let second = variable_at(code, behind(code, from))?;
    Some((first, second))
}

/// Reads a structure of two arguments, which the first argument is seen to be, where the code at a
/// place asks for it, and gives registers for both arguments that are met first. The result is the
/// place behind them; `None` comes with nothing changed. The error is want of memory.
#[inline(always)]
pub fn get_pair<A: Agenda + Drop>(
    code: &CodeArea,
    at: usize,
    seen: Seen<'_>,
    branch: &BranchState<A>,
    areas: &mut Areas,
) -> Result<Option<usize>, NoMemory>
    requires safe { IsSafe code.now branch.now at 0 areas.old }
    requires seen { FirstIsSeen branch.now areas.old seen }
    ensures { IfOk result (GetsPair code.now branch.now at areas.old areas.new) }
{
    let Seen::Struct(name, args) = seen else {
        return Ok(None);
    };
    if args.len() != 2 {
        return Ok(None);
    }
    let Some((first, second)) = pair_at(code, at, name) else {
        return Ok(None);
    };
    write(areas, first, args[0])?;
    write(areas, second, args[1])?;
    let last = behind(code, behind(code, at));
    Ok(Some(behind(code, last)))
}
