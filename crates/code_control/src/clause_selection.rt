//! What a choice tries: clauses that can't match are left out, and so is the choice point before none but such clauses.

ghost use Rattle.std.specs.Prelude.{◌≡◌, ◌↔◌, ◌<◌, length, true, false, IsTrue, IfOk, IfSome};
ghost use Rattle.wam_code.specs.Area.{Holds};
ghost use Rattle.code_safety.specs.Safety.{IsSafe, IsSafeThen};
ghost use Rattle.code_safety.specs.Work.{work_at, work_then};
ghost use Rattle.code_control.specs.ClauseSelection.{asked_by, first_of, IsTried, IsChoice, IsNewChoice, AsksFirst, Meets, IsRuledOut, MayMatch, MayMatchThen, MayMatchFrom, IsLater, LeavesOut, Chooses};

use crate::choices::leave_choice;
use crate::rows::is_key_of;
use branch_state::BranchState;
use code_areas::Areas;
use code_safety::{Went, behind};
use fd_language::NoMemory;
use heap_cells::Seen;
use propagate_queue::Agenda;
use wam_code::{Code, CodeArea, Key};

/// What a choice tries.
#[derive(Clone, Copy)]
pub(crate) enum Tried {
    /// The clause at a place, and later those at another one.
    Both(usize, usize),
    /// The clause at a place, which is the last one.
    Last(usize),
    /// No choice stands there.
    Other,
}

/// What the choice at a place tries.
#[inline(always)]
pub(crate) fn tried_at(code: &CodeArea, at: usize) -> Tried
    requires { at < length code.now.code }
    ensures { IsTried code.now at result }
{
    match *code.code_at(at) {
        Code::TryMeElse(other) | Code::RetryMeElse(other) => Tried::Both(behind(code, at), other),
        Code::Try(to) | Code::Retry(to) => Tried::Both(to, behind(code, at)),
        Code::TrustMe => Tried::Last(behind(code, at)),
        Code::Trust(to) => Tried::Last(to),
        _ => Tried::Other,
    }
}

/// The argument that an instruction asks for a name, a number or a structure, and the key of that, or nothing where it is another one.
#[inline(always)]
fn asked_by(instruction: &Code) -> Option<(usize, Key)>
    ensures { result ≡ asked_by instruction.now }
{
    match *instruction {
        Code::GetConstant(c, a) => Some((a, Key::Atom(c))),
        Code::GetInteger(z, a) => Some((a, Key::Int(z))),
        Code::GetStructure(f, n, a) => Some((a, Key::Struct(f, n))),
        _ => None,
    }
}

/// The argument that a clause's head asks first for a name, a number or a structure, and the key of that, or nothing where the head
/// begins otherwise.
#[inline(always)]
fn first_asked<A: Agenda + Drop>(
    code: &CodeArea,
    at: usize,
    branch: &BranchState<A>,
    areas: &Areas,
) -> Option<(usize, Key)>
    requires { IsSafe code.now branch.now at 0 areas.now }
    ensures { AsksFirst code.now at result }
{
    let first = code.code_at(at);
    match *first {
        Code::Allocate(_) => asked_by(code.code_at(behind(code, at))),
        _ => asked_by(first),
    }
}

/// Whether what is seen at the top of a term may be made equal to a term with the key.
#[inline(always)]
fn meets(seen: Seen<'_>, key: Key) -> bool
    ensures { IsTrue result ↔ Meets seen.entry key }
{
    match seen {
        Seen::Open(_) | Seen::Constrained(_, _) => true,
        _ => is_key_of(seen, key),
    }
}

/// Whether the clause at a place can't match, by what its head asks first. No memory.
#[inline(always)]
fn is_ruled_out<A: Agenda + Drop>(
    code: &CodeArea,
    at: usize,
    branch: &BranchState<A>,
    areas: &Areas,
) -> bool
    requires { IsSafe code.now branch.now at 0 areas.now }
    ensures out { result ≡ true → IsRuledOut code.now branch.now at areas.now }
    ensures may { result ≡ false → MayMatch code.now branch.now at areas.now }
{
    match first_asked(code, at, branch, areas) {
        Some((argument, key)) => !meets(branch.heap().deref(areas.register(argument)), key),
        None => false,
    }
}

/// The place of the clause that a choice at a place tries first.
#[inline(always)]
fn first_of(tried: Tried, at: usize) -> usize
    ensures { result ≡ first_of tried at }
{
    match tried {
        Tried::Both(to, _) | Tried::Last(to) => to,
        Tried::Other => at,
    }
}

/// From a place on, that of the first choice whose clause may match, or none where no clause may. No memory.
pub(crate) fn next_choice<A: Agenda + Drop>(
    code: &CodeArea,
    from: usize,
    branch: &BranchState<A>,
    areas: &Areas,
) -> Option<usize>
    requires { IsSafe code.now branch.now from 0 areas.now }
    ensures out { LeavesOut code.now branch.now from areas.now result }
    ensures may { IfSome result (λ at. MayMatchFrom code.now branch.now at areas.now) }
    ensures later { IfSome result (λ at. IsLater code.now branch.now from at areas.now) }
{
    let mut at = from;
    'looking: loop {
        let tried = tried_at(code, at);
        if !is_ruled_out(code, first_of(tried, at), branch, areas) {
            return Some(at);
        }
        match tried {
            Tried::Both(_, other) => at = other,
            Tried::Last(_) => return None,
            Tried::Other => return None,
        }
    }
}

/// The choice to begin with: at a new one the first that `next_choice` finds, and else the one at the place, since the choice point that
/// led there was left for a clause that may match. No memory.
#[inline(always)]
fn first_choice<A: Agenda + Drop>(
    code: &CodeArea,
    at: usize,
    instruction: Code,
    branch: &BranchState<A>,
    areas: &Areas,
) -> Option<usize>
    requires { IsSafe code.now branch.now at 0 areas.now }
    ensures out { LeavesOut code.now branch.now at areas.now result }
    ensures may { IsNewChoice instruction
        → IfSome result (λ first. MayMatchFrom code.now branch.now first areas.now) }
    ensures later { IfSome result (λ first. IsLater code.now branch.now at first areas.now) }
{
    match instruction {
        Code::Try(_) | Code::TryMeElse(_) => next_choice(code, at, branch, areas),
        _ => Some(at),
    }
}

/// Takes a choice: a clause is tried, at a new choice the first that may match, and later, from a new choice point, those behind it, if
/// any of them may. The machine goes back where none may. The error is want of memory.
#[inline(always)]
pub fn choose<A: Agenda + Drop>(
    code: &CodeArea,
    at: usize,
    instruction: Code,
    branch: &mut BranchState<A>,
    areas: &mut Areas,
) -> Result<Went, NoMemory>
    requires safe { IsSafe code.now branch.old at 0 areas.old }
    requires holds { Holds code.now at instruction }
    requires choice { IsChoice instruction }
    ensures safe { IfOk result (IsSafeThen code.now branch.new areas.new) }
    ensures chooses { IfOk result (Chooses code.now branch.old at areas.old branch.new areas.new) }
    ensures fits { IsNewChoice instruction
        → IfOk result (MayMatchThen code.now branch.old areas.old) }
    ensures falls { IfOk result (λ went. work_then code.now areas.new went
        < work_at code.now at areas.old) }
{
    let Some(first) = first_choice(code, at, instruction, branch, areas) else {
        return Ok(Went::Back);
    };
    match tried_at(code, first) {
        Tried::Both(to, other) => {
            if let Some(later) = next_choice(code, other, branch, areas) {
                leave_choice(later, branch, areas)?;
            }
            Ok(Went::On(to))
        }
        Tried::Last(to) => Ok(Went::On(to)),
        Tried::Other => Ok(Went::On(first)),
    }
}
