//! Built-in goals.

ghost use Rattle.std.specs.Prelude.{◌≡◌, IfOk, OnOk};
ghost use Rattle.fd_model.specs.declared.kinds.BuiltinKind.TheVariants as kinds;
ghost use Rattle.branch_lemmas.specs.Frames.{IsGrown};
ghost use Rattle.branch_state.specs.States.{IsSameBelow, with_heap};
ghost use Rattle.wam_code.specs.declared.instruction.Code.TheVariants as step;
ghost use Rattle.wam_code.specs.Arities.{builtin_arity};
ghost use Rattle.wam_code.specs.Area.{Holds};
ghost use Rattle.code_safety.specs.Safety.{IsSafe};
ghost use Rattle.code_goals.specs.Arguments.{HasArguments};
ghost use Rattle.code_goals.specs.Builtins.{ComesTo, IsFound, IsSecond, IsSilent, has_one_argument};
ghost use Rattle.code_goals.specs.GoalOutcomes.{IsSafeNext, LeadsNext, SaysNothing, Takes};

use crate::goal_outcomes::{Next, next_if, pool_of};
use branch_goals::{Found, find};
use branch_state::BranchState;
use code_areas::Areas;
use code_safety::{behind, equate};
use fd_language::NoMemory;
use fd_model::kinds::BuiltinKind;
use heap_cells::Cell;
use propagate_queue::Agenda;
use std::alloc::Global;
use unify_core::Touch;
use wam_code::CodeArea;

/// Takes `S = T`, as `take_silent` does.
fn take_unify<A: Agenda + Drop>(
    code: &CodeArea,
    at: usize,
    branch: &mut BranchState<A>,
    areas: &Areas,
    touches: &mut Vec<Touch>,
) -> Result<Next, NoMemory>
    requires safe { IsSafe code.now branch.old at 0 areas.now }
    requires holds { Holds code.now at (step.Builtin kinds.Unify) }
    ensures safe { IfOk result (IsSafeNext code.now branch.new areas.now) }
    ensures takes { IfOk result (Takes code.now branch.old at areas.now branch.new) }
    ensures leads { IfOk result (LeadsNext at) }
    ensures silent { IfOk result SaysNothing }
    ensures same { OnOk result (IsSameBelow branch.old branch.new) }
{
    pool_of(code);
    let left = areas.register(1);
    let right = areas.register(2);
    let equal = equate(branch, left, right, touches)?;
    Ok(next_if(code, at, equal))
}

/// Whether a goal that is found has one argument.
fn has_one(kind: BuiltinKind) -> bool
    ensures { result ≡ has_one_argument kind }
{
    match kind {
        BuiltinKind::Var
        | BuiltinKind::Nonvar
        | BuiltinKind::Integer
        | BuiltinKind::Atom
        | BuiltinKind::Atomic
        | BuiltinKind::Compound => true,
        _ => false,
    }
}

/// The second cell of a goal that is found: of a goal with one argument it is the first one too.
fn second_of(kind: BuiltinKind, first: Cell, areas: &Areas) -> Cell
    requires found { IsFound kind }
    requires there { HasArguments (builtin_arity kind) areas.now }
    ensures { IsSecond kind areas.now first result }
{
    if has_one(kind) {
        first
    } else {
        areas.register(2)
    }
}

/// What a goal comes to. The heap may get new compound terms. The error is want of memory.
fn find_goal<A: Agenda + Drop>(
    alloc: Global,
    code: &CodeArea,
    at: usize,
    kind: BuiltinKind,
    branch: &mut BranchState<A>,
    areas: &Areas,
) -> Result<Found, NoMemory>
    requires safe { IsSafe code.now branch.old at 0 areas.now }
    requires holds { Holds code.now at (step.Builtin kind) }
    requires found { IsFound kind }
    ensures comes { IfOk result (ComesTo code.now branch.new areas.now kind) }
    ensures grown { OnOk result (IsGrown branch.old.heaps.now branch.new.heaps.now) }
    ensures heap { OnOk result (branch.new ≡ with_heap branch.old branch.new.heaps.now) }
    ensures safe { OnOk result (IsSafe code.now branch.new at 0 areas.now) }
{
    let pool = pool_of(code);
    let first = areas.register(1);
    let second = second_of(kind, first, areas);
    find(alloc, branch, pool, kind, first, second)
}

/// Does what a goal comes to. The error is want of memory.
fn act_on<A: Agenda + Drop>(
    code: &CodeArea,
    at: usize,
    goal: (BuiltinKind, Found),
    branch: &mut BranchState<A>,
    areas: &Areas,
    touches: &mut Vec<Touch>,
) -> Result<Next, NoMemory>
    requires safe { IsSafe code.now branch.old at 0 areas.now }
    requires holds { Holds code.now at (step.Builtin goal.0) }
    requires found { IsFound goal.0 }
    requires comes { ComesTo code.now branch.old areas.now goal.0 goal.1 }
    ensures safe { IfOk result (IsSafeNext code.now branch.new areas.now) }
    ensures takes { IfOk result (Takes code.now branch.old at areas.now branch.new) }
    ensures leads { IfOk result (LeadsNext at) }
    ensures silent { IfOk result SaysNothing }
    ensures same { OnOk result (IsSameBelow branch.old branch.new) }
{
    pool_of(code);
    match goal.1 {
        Found::Fault(fault) => Ok(Next::Fault(fault)),
        Found::Decided(holds) => Ok(next_if(code, at, holds)),
        Found::Equal(left, right) => {
            let equal = equate(branch, left, right, touches)?;
            Ok(next_if(code, at, equal))
        }
    }
}

/// Takes a goal that comes to something by the terms of its arguments, as `take_silent` does.
fn take_found<A: Agenda + Drop>(
    code: &CodeArea,
    at: usize,
    kind: BuiltinKind,
    branch: &mut BranchState<A>,
    areas: &Areas,
    touches: &mut Vec<Touch>,
) -> Result<Next, NoMemory>
    requires safe { IsSafe code.now branch.old at 0 areas.now }
    requires holds { Holds code.now at (step.Builtin kind) }
    requires found { IsFound kind }
    ensures safe { IfOk result (IsSafeNext code.now branch.new areas.now) }
    ensures takes { IfOk result (Takes code.now branch.old at areas.now branch.new) }
    ensures leads { IfOk result (LeadsNext at) }
    ensures silent { IfOk result SaysNothing }
    ensures same { OnOk result (IsSameBelow branch.old branch.new) }
{
    let alloc = *touches.allocator();
    let found = find_goal(alloc, code, at, kind, branch, areas)?;
    act_on(code, at, (kind, found), branch, areas, touches)
}

/// Takes the built-in goal at a place as `take_builtin` does, where it says nothing: it is neither `write` nor `nl`.
#[inline(never)]
pub fn take_silent<A: Agenda + Drop>(
    code: &CodeArea,
    at: usize,
    kind: BuiltinKind,
    branch: &mut BranchState<A>,
    areas: &Areas,
    touches: &mut Vec<Touch>,
) -> Result<Next, NoMemory>
    requires safe { IsSafe code.now branch.old at 0 areas.now }
    requires holds { Holds code.now at (step.Builtin kind) }
    requires silent { IsSilent kind }
    ensures safe { IfOk result (IsSafeNext code.now branch.new areas.now) }
    ensures takes { IfOk result (Takes code.now branch.old at areas.now branch.new) }
    ensures leads { IfOk result (LeadsNext at) }
    ensures silent { IfOk result SaysNothing }
    ensures same { OnOk result (IsSameBelow branch.old branch.new) }
{
    match kind {
        BuiltinKind::True => Ok(Next::On(behind(code, at))),
        BuiltinKind::Fail | BuiltinKind::False => Ok(Next::Back),
        BuiltinKind::Unify => take_unify(code, at, branch, areas, touches),
        BuiltinKind::Write | BuiltinKind::Nl => unreachable!(),
        _ => take_found(code, at, kind, branch, areas, touches),
    }
}

/// Takes the built-in goal at a place, whose arguments are in the first registers; `touches` is lent for what the store is told. After a
/// way back the current pair of the branch is to be given up. The error is want of memory.
pub fn take_builtin<A: Agenda + Drop>(
    code: &CodeArea,
    at: usize,
    kind: BuiltinKind,
    branch: &mut BranchState<A>,
    areas: &Areas,
    touches: &mut Vec<Touch>,
) -> Result<Next, NoMemory>
    requires safe { IsSafe code.now branch.old at 0 areas.now }
    requires holds { Holds code.now at (step.Builtin kind) }
    ensures safe { IfOk result (IsSafeNext code.now branch.new areas.now) }
    ensures takes { IfOk result (Takes code.now branch.old at areas.now branch.new) }
    ensures leads { IfOk result (LeadsNext at) }
    ensures same { OnOk result (IsSameBelow branch.old branch.new) }
{
    match kind {
        BuiltinKind::Nl => Ok(Next::Newline(behind(code, at))),
        BuiltinKind::Write => Ok(Next::Write(behind(code, at))),
        _ => take_silent(code, at, kind, branch, areas, touches),
    }
}
