//! Switches: what the first argument shows decides which clauses are tried.

ghost use Rattle.std.specs.Prelude.{◌≡◌, ◌<◌, ◌≤◌};
ghost use Rattle.wam_code.specs.declared.instruction.Code.TheVariants as step;
ghost use Rattle.wam_code.specs.Area.{Holds, table_at};
ghost use Rattle.code_safety.specs.Queries.{KeepsQuery, KeepsQueryThen};
ghost use Rattle.code_safety.specs.Safety.{IsSafe, IsSafeThen, FirstIsSeen};
ghost use Rattle.code_control.specs.JumpTargets.{IsPastJump, ArgumentShows};
ghost use Rattle.code_control.specs.Rows.{Finds, place_for};
ghost use Rattle.code_safety.specs.RemainingEvents.{KeepsRunning, RunsThen};
ghost use Rattle.code_safety.specs.Work.{work_at, work_then};

use crate::choices::jump;
use crate::rows::find_row;
use branch_state::BranchState;
use code_areas::Areas;
use code_safety::Went;
use heap_cells::Seen;
use propagate_queue::Agenda;
use wam_code::{Code, CodeArea};

/// What is seen of the first argument. No memory.
#[inline(always)]
fn first_seen<'a, A: Agenda + Drop>(
    code: &CodeArea,
    at: usize,
    v: usize,
    c: usize,
    i: usize,
    s: usize,
    branch: &'a BranchState<A>,
    areas: &Areas,
) -> Seen<'a>
    requires safe { IsSafe code.now branch.now at 0 areas.now }
    requires holds { Holds code.now at (step.SwitchOnTerm v c i s) }
    ensures { FirstIsSeen branch.now areas.now result }
{
    branch.heap().deref(areas.register(1))
}

/// The place of the four that is for what is seen of the first argument. No memory.
#[inline(always)]
fn arm_for<A: Agenda + Drop>(
    code: &CodeArea,
    at: usize,
    v: usize,
    c: usize,
    i: usize,
    s: usize,
    seen: Seen<'_>,
    branch: &BranchState<A>,
    areas: &Areas,
) -> usize
    requires safe { IsSafe code.now branch.now at 0 areas.now }
    requires holds { Holds code.now at (step.SwitchOnTerm v c i s) }
    requires seen { FirstIsSeen branch.now areas.now seen }
    ensures safe { IsSafe code.now branch.now result 0 areas.now }
    ensures runs { KeepsRunning code.now branch.now at areas.now branch.now result areas.now }
    ensures falls { work_at code.now result areas.now < work_at code.now at areas.now }
    ensures query { KeepsQuery code.now at areas.now result areas.now }
    ensures place { ArgumentShows branch.now areas.now 1 (λ x. place_for x v c i s ≡ result) }
{
    place_for(seen, v, c, i, s)
}

/// Where the jump at a place leads, or the place where none stands there. No memory.
#[inline(always)]
fn past_jump<A: Agenda + Drop>(
    code: &CodeArea,
    at: usize,
    branch: &BranchState<A>,
    areas: &Areas,
) -> usize
    requires { IsSafe code.now branch.now at 0 areas.now }
    ensures safe { IsSafe code.now branch.now result 0 areas.now }
    ensures runs { KeepsRunning code.now branch.now at areas.now branch.now result areas.now }
    ensures stays { work_at code.now result areas.now ≤ work_at code.now at areas.now }
    ensures query { KeepsQuery code.now at areas.now result areas.now }
    ensures place { IsPastJump code.now at result }
{
    match *code.code_at(at) {
        Code::Jump(to) => jump(code, at, to, branch, areas),
        _ => at,
    }
}

/// Goes on at `v` where the first argument is a variable, at `c` where it is an atom, at `i` where it is an integer, and at `s` where it is
/// a structure; where a jump stands there, where that leads. The result is that place, and what is seen of the first argument. No memory.
#[inline(always)]
pub fn switch_on_term<'a, A: Agenda + Drop>(
    code: &CodeArea,
    at: usize,
    v: usize,
    c: usize,
    i: usize,
    s: usize,
    branch: &'a BranchState<A>,
    areas: &Areas,
) -> (usize, Seen<'a>)
    requires safe { IsSafe code.now branch.now at 0 areas.now }
    requires holds { Holds code.now at (step.SwitchOnTerm v c i s) }
    ensures safe { IsSafe code.now branch.now result.0 0 areas.now }
    ensures runs { KeepsRunning code.now branch.now at areas.now branch.now result.0 areas.now }
    ensures falls { work_at code.now result.0 areas.now < work_at code.now at areas.now }
    ensures query { KeepsQuery code.now at areas.now result.0 areas.now }
    ensures place { ArgumentShows branch.now areas.now 1
        (λ x. IsPastJump code.now (place_for x v c i s) result.0) }
    ensures seen { FirstIsSeen branch.now areas.now result.1 }
{
    let seen = first_seen(code, at, v, c, i, s, branch, areas);
    let arm = arm_for(code, at, v, c, i, s, seen, branch, areas);
    (past_jump(code, arm, branch, areas), seen)
}

/// The place for a variable, an atom, an integer or a structure.
#[inline(always)]
fn place_for(seen: Seen<'_>, v: usize, c: usize, i: usize, s: usize) -> usize
    ensures { result ≡ place_for seen.entry v c i s }
{
    match seen {
        Seen::Open(_) | Seen::Constrained(_, _) => v,
        Seen::Atom(_) => c,
        Seen::Int(_) => i,
        Seen::Struct(_, _) => s,
    }
}

/// Goes on where the row leads, of the table with this number, whose key is the first argument, or back where there is none. No memory.
#[inline(always)]
pub fn switch_on_constant<A: Agenda + Drop>(
    code: &CodeArea,
    at: usize,
    table: usize,
    branch: &BranchState<A>,
    areas: &Areas,
) -> Went
    requires safe { IsSafe code.now branch.now at 0 areas.now }
    requires holds { Holds code.now at (step.SwitchOnConstant table) }
    ensures safe { IsSafeThen code.now branch.now areas.now result }
    ensures runs { RunsThen code.now branch.now at areas.now branch.now areas.now result }
    ensures falls { work_then code.now areas.now result < work_at code.now at areas.now }
    ensures query { KeepsQueryThen code.now at areas.now areas.now result }
    ensures row { ArgumentShows branch.now areas.now 1
        (λ x. Finds x (table_at code.now table) result) }
{
    find_row(code, table, branch.heap().deref(areas.register(1)))
}

/// The same for an integer.
#[inline(always)]
pub fn switch_on_integer<A: Agenda + Drop>(
    code: &CodeArea,
    at: usize,
    table: usize,
    branch: &BranchState<A>,
    areas: &Areas,
) -> Went
    requires safe { IsSafe code.now branch.now at 0 areas.now }
    requires holds { Holds code.now at (step.SwitchOnInteger table) }
    ensures safe { IsSafeThen code.now branch.now areas.now result }
    ensures runs { RunsThen code.now branch.now at areas.now branch.now areas.now result }
    ensures falls { work_then code.now areas.now result < work_at code.now at areas.now }
    ensures query { KeepsQueryThen code.now at areas.now areas.now result }
    ensures row { ArgumentShows branch.now areas.now 1
        (λ x. Finds x (table_at code.now table) result) }
{
    find_row(code, table, branch.heap().deref(areas.register(1)))
}

/// The same for a structure, by its name and the number of its arguments.
#[inline(always)]
pub fn switch_on_structure<A: Agenda + Drop>(
    code: &CodeArea,
    at: usize,
    table: usize,
    branch: &BranchState<A>,
    areas: &Areas,
) -> Went
    requires safe { IsSafe code.now branch.now at 0 areas.now }
    requires holds { Holds code.now at (step.SwitchOnStructure table) }
    ensures safe { IsSafeThen code.now branch.now areas.now result }
    ensures runs { RunsThen code.now branch.now at areas.now branch.now areas.now result }
    ensures falls { work_then code.now areas.now result < work_at code.now at areas.now }
    ensures query { KeepsQueryThen code.now at areas.now areas.now result }
    ensures row { ArgumentShows branch.now areas.now 1
        (λ x. Finds x (table_at code.now table) result) }
{
    find_row(code, table, branch.heap().deref(areas.register(1)))
}
