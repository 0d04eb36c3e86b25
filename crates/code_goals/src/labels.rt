//! Labellings.

ghost use Rattle.std.specs.Prelude.{◌≡◌, ◌<◌, ◌≤◌, length, IfOk};
ghost use Rattle.fd_language.specs.declared.TheConstants.{INFINITY};
ghost use Rattle.fd_language.specs.Family.{IsRising, universe};
ghost use Rattle.branch_goals.specs.Labels.{values_of};
ghost use Rattle.branch_state.specs.States.{IsSound};
ghost use Rattle.wam_code.specs.declared.instruction.Code.TheVariants as step;
ghost use Rattle.wam_code.specs.Area.{Holds};
ghost use Rattle.code_safety.specs.Safety.{IsSafe};
ghost use Rattle.code_goals.specs.Values.{BringsMost, IsOpen, IsOpenAt, IsSafeLabelled, IsTried, KeepsValues, Labels, LeadsLabelled};

use crate::goal_outcomes::{Next, pool_of};
use branch_goals::{Labelling, label};
use branch_state::BranchState;
use code_areas::Areas;
use code_safety::{Went, behind, equate, on_if};
use domain_ranges::{Domain, View};
use fd_language::NoMemory;
use fd_model::kinds::Order;
use heap_cells::{Cell, Seen};
use propagate_queue::Agenda;
use std::alloc::Global;
use unify_core::Touch;
use wam_code::CodeArea;

/// The values of a variable of the heap from a number on, which a labelling is still to try.
#[derive(Drop)]
pub struct ValuesLeft {
    pub variable: usize,
    pub values: Domain,
    pub from: u32,
}

/// A value that was tried: where the machine goes, and the values that are left for the new choice point, or `None` where there is
/// none.
#[derive(Drop)]
pub struct Tried {
    pub went: Went,
    pub left: Option<ValuesLeft>,
}

/// What a labelling did.
#[derive(Drop)]
pub enum Labelled {
    /// It was taken.
    Took(Next),
    /// It tries the values of a variable.
    Tries(Tried),
}

/// The numbers from 0 to `infinity`.
fn numbers_to(alloc: Global, infinity: u32) -> Domain
    requires { infinity ≤ INFINITY }
    ensures { result ≡ universe infinity }
{
    let mut all = Domain::full(alloc);
    all.set_interval(0, infinity);
    all
}

/// The values of an open variable of the heap: all that a variable may have where the store doesn't have it. The error is want of
/// memory.
fn values<A: Agenda + Drop>(
    alloc: Global,
    branch: &BranchState<A>,
    variable: usize,
) -> Result<Domain, NoMemory>
    requires sound { IsSound branch.now }
    requires own { variable < length branch.now.heaps.now.slots }
    requires variable { IsOpenAt branch.now.heaps.now variable }
    ensures values { IfOk result (λ d. d ≡ values_of branch.now variable) }
    ensures rising { IfOk result (λ d. IsRising 0 INFINITY d) }
{
    let all = match branch.heap().deref(Cell::Ref(variable)) {
        Seen::Constrained(_, k) => branch.store().domain(k).copy()?,
        _ => numbers_to(alloc, branch.infinity()),
    };
    all.rises();
    Ok(all)
}

/// Makes a choice point for values, if any is left. The error is want of memory.
fn keep_values<A: Agenda + Drop>(
    at: usize,
    left: ValuesLeft,
    branch: &mut BranchState<A>,
    areas: &mut Areas,
) -> Result<Option<ValuesLeft>, NoMemory>
    requires { IsSound branch.old }
    ensures { IfOk result (KeepsValues branch.old at areas.old left branch.new areas.new) }
{
    match left.values.next_from(left.from) {
        None => Ok(None),
        Some(_) => {
            branch.mark()?;
            areas.push_point(at)?;
            Ok(Some(left))
        }
    }
}

/// Tries the least of the values that are left for the labelling at a place, whose choice point is gone; those behind it stay with a new
/// one, if there are any. Where none is left the machine goes back. `touches` is lent for what the store is told. The error is want of memory.
pub fn try_value<A: Agenda + Drop>(
    code: &CodeArea,
    at: usize,
    left: ValuesLeft,
    branch: &mut BranchState<A>,
    areas: &mut Areas,
    touches: &mut Vec<Touch>,
) -> Result<Tried, NoMemory>
    requires safe { IsSafe code.now branch.old at 0 areas.old }
    requires opened { IsOpen code.now branch.old.heaps.now left }
    ensures { IfOk result (IsTried code.now branch.old at areas.old left branch.new areas.new) }
{
    pool_of(code);
    let variable = left.variable;
    let Some(value) = left.values.next_from(left.from) else {
        return Ok(Tried {
            went: Went::Back,
            left: None,
        });
    };
    let others = ValuesLeft {
        variable,
        values: left.values,
        from: value + 1,
    };
    let kept = keep_values(at, others, branch, areas)?;
    let number = Cell::Int(i64::from(value));
    let equal = equate(branch, Cell::Ref(variable), number, touches)?;
    Ok(Tried {
        went: on_if(at, equal),
        left: kept,
    })
}

/// Takes the labelling at a place, whose list is in the first register: where a member is open, it tries the least of the values of the
/// one that the order takes. `touches` is lent for what the store is told. The error is want of memory.
pub fn take_label<A: Agenda + Drop>(
    code: &CodeArea,
    at: usize,
    order: Order,
    branch: &mut BranchState<A>,
    areas: &mut Areas,
    touches: &mut Vec<Touch>,
) -> Result<Labelled, NoMemory>
    requires safe { IsSafe code.now branch.old at 0 areas.old }
    requires holds { Holds code.now at (step.Label order) }
    ensures safe { IfOk result (IsSafeLabelled code.now branch.new areas.new) }
    ensures labels { IfOk result (Labels code.now branch.old at areas.old branch.new areas.new) }
    ensures leads { IfOk result (LeadsLabelled at) }
    ensures most { IfOk result (BringsMost code.now at areas.old areas.new) }
{
    pool_of(code);
    let alloc = *touches.allocator();
    let list = areas.register(1);
    match label(branch, order, list) {
        Labelling::Done => Ok(Labelled::Took(Next::On(behind(code, at)))),
        Labelling::Fault(fault) => Ok(Labelled::Took(Next::Fault(fault))),
        Labelling::Takes(variable) => {
            let values = values(alloc, branch, variable)?;
            let all = ValuesLeft {
                variable,
                values,
                from: 0,
            };
            let tried = try_value(code, at, all, branch, areas, touches)?;
            Ok(Labelled::Tries(tried))
        }
    }
}
