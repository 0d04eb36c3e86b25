//! Goals, each of which spends a reduction.

ghost use Rattle.std.specs.Prelude.{◌≡◌, ◌<◌, length, reverse, IfOk, OnOk};
ghost use Rattle.wam_code.specs.declared.instruction.Code.TheVariants as step;
ghost use Rattle.branch_state.specs.States.{IsSameBelow};
ghost use Rattle.wam_code.specs.Area.{Holds};
ghost use Rattle.code_safety.specs.Safety.{IsSafe};
ghost use Rattle.code_goals.specs.Builtins.{IsSilent};
ghost use Rattle.code_goals.specs.GoalOutcomes.{IsSafeNext, LeadsNext, SaysNothing, Takes};
ghost use Rattle.code_machine.specs.Labels.{AreLabels};
ghost use Rattle.code_machine.specs.Instructions.{IsCall, IsGoal};
ghost use Rattle.code_goals.specs.declared.goal_outcomes.Next.TheVariants as next;
ghost use Rattle.code_machine.specs.Steps.{next_of, Spends};

use crate::labels::{drop_labels, keep_values};
use crate::run::Label;
use branch_state::BranchState;
use code_areas::Areas;
use code_control::{call, cut_to, either, enter_test, execute, test_only};
use code_goals::{
    Labelled, Next, take_best, take_builtin, take_constraint, take_label, take_post, take_silent,
};
use code_safety::Went;
use fd_language::NoMemory;
use fd_model::kinds::{BuiltinKind, Order};
use propagate_queue::Agenda;
use term_instructions::Scratch;
use unify_core::Touch;
use wam_code::{Code, CodeArea};

/// Where a labelling leads that has tried a value.
fn next_of(went: Went) -> Next
    ensures { result ≡ next_of went }
{
    match went {
        Went::On(to) => Next::On(to),
        Went::Back => Next::Back,
    }
}

/// Takes the labelling at a place, as `take_goal` does.
fn take_labelling<A: Agenda + Drop>(
    code: &CodeArea,
    at: usize,
    order: Order,
    branch: &mut BranchState<A>,
    areas: &mut Areas,
    labels: &mut Vec<Label>,
    scratch: &mut Scratch,
) -> Result<Next, NoMemory>
    requires safe { IsSafe code.now branch.old at 0 areas.old }
    requires labels { AreLabels code.now areas.old.points branch.old.heaps.below
        (reverse labels.old.items) }
    requires holds { Holds code.now at (step.Label order) }
    ensures { IfOk result (Spends code.now branch.old at areas.old (reverse labels.old.items)
        branch.new areas.new (reverse labels.new.items)) }
{
    let point = areas.points();
    match take_label(code, at, order, branch, areas, &mut scratch.touches)? {
        Labelled::Took(next) => Ok(next),
        Labelled::Tries(tried) => {
            keep_values(labels, point, tried.left)?;
            Ok(next_of(tried.went))
        }
    }
}

/// Posts the range at a place, which has this number there, as `take_goal` does.
fn post<A: Agenda + Drop>(
    code: &CodeArea,
    at: usize,
    range: usize,
    count: usize,
    branch: &mut BranchState<A>,
    areas: &Areas,
    scratch: &mut Scratch,
) -> Result<Next, NoMemory>
    requires safe { IsSafe code.now branch.old at 0 areas.now }
    requires holds { Holds code.now at (step.PostRange range count) }
    requires there { range < length code.now.ranges }
    ensures safe { IfOk result (IsSafeNext code.now branch.new areas.now) }
    ensures takes { IfOk result (Takes code.now branch.old at areas.now branch.new) }
    ensures leads { IfOk result (LeadsNext at) }
    ensures same { OnOk result (IsSameBelow branch.old branch.new) }
{
    take_post(
        code,
        at,
        code.range(range),
        count,
        branch,
        areas,
        &mut scratch.cells,
    )
}

/// Takes the cut at a place, to the level in the slot `n`, and gives the next place. What is left for the choice points that it drops is
/// dropped too. No memory.
#[inline]
fn take_cut<A: Agenda + Drop>(
    code: &CodeArea,
    at: usize,
    n: usize,
    branch: &mut BranchState<A>,
    areas: &mut Areas,
    labels: &mut Vec<Label>,
) -> usize
    requires safe { IsSafe code.now branch.old at 0 areas.old }
    requires labels { AreLabels code.now areas.old.points branch.old.heaps.below
        (reverse labels.old.items) }
    requires holds { Holds code.now at (step.CutTo n) }
    ensures { Spends code.now branch.old at areas.old (reverse labels.old.items) branch.new areas.new
        (reverse labels.new.items) (next.On result) }
{
    let to = cut_to(code, at, n, branch, areas);
    drop_labels(labels, areas.points());
    to
}

/// Takes the call, the disjunction, the test or the cut at a place, and gives the place where it leads. The error is want of memory.
#[inline(always)]
pub(crate) fn take_call<A: Agenda + Drop>(
    code: &CodeArea,
    at: usize,
    instruction: Code,
    branch: &mut BranchState<A>,
    areas: &mut Areas,
    labels: &mut Vec<Label>,
) -> Result<usize, NoMemory>
    requires safe { IsSafe code.now branch.old at 0 areas.old }
    requires labels { AreLabels code.now areas.old.points branch.old.heaps.below
        (reverse labels.old.items) }
    requires holds { Holds code.now at instruction }
    requires call { IsCall instruction }
    ensures { IfOk result (λ to. Spends code.now branch.old at areas.old (reverse labels.old.items)
        branch.new areas.new (reverse labels.new.items) (next.On to)) }
{
    match instruction {
        Code::Call(e) => call(code, at, e, branch, areas),
        Code::Execute(e) => Ok(execute(code, at, e, branch, areas)),
        Code::Either(to) => either(code, at, to, branch, areas),
        Code::TestOnly(n) => Ok(test_only(code, at, n, branch, areas)),
        Code::EnterTest(n, m, to) => enter_test(code, at, n, m, to, branch, areas),
        Code::CutTo(n) => Ok(take_cut(code, at, n, branch, areas, labels)),
        _ => unreachable!(),
    }
}

/// Takes the built-in goal at a place as `take_goal` does, where it says nothing.
#[inline(always)]
pub(crate) fn take_quietly<A: Agenda + Drop>(
    code: &CodeArea,
    at: usize,
    kind: BuiltinKind,
    branch: &mut BranchState<A>,
    areas: &Areas,
    labels: &Vec<Label>,
    touches: &mut Vec<Touch>,
) -> Result<Next, NoMemory>
    requires safe { IsSafe code.now branch.old at 0 areas.now }
    requires labels { AreLabels code.now areas.now.points branch.old.heaps.below
        (reverse labels.now.items) }
    requires holds { Holds code.now at (step.Builtin kind) }
    requires silent { IsSilent kind }
    ensures spends { IfOk result (Spends code.now branch.old at areas.now (reverse labels.now.items)
        branch.new areas.now (reverse labels.now.items)) }
    ensures silent { IfOk result SaysNothing }
{
    take_silent(code, at, kind, branch, areas, touches)
}

/// Takes the goal at a place, whose arguments are in the first registers; `scratch` is lent. After a way back the current pair of the
/// branch is to be given up. The error is want of memory.
pub(crate) fn take_goal<A: Agenda + Drop>(
    code: &CodeArea,
    at: usize,
    instruction: Code,
    branch: &mut BranchState<A>,
    areas: &mut Areas,
    labels: &mut Vec<Label>,
    scratch: &mut Scratch,
) -> Result<Next, NoMemory>
    requires safe { IsSafe code.now branch.old at 0 areas.old }
    requires labels { AreLabels code.now areas.old.points branch.old.heaps.below
        (reverse labels.old.items) }
    requires holds { Holds code.now at instruction }
    requires goal { IsGoal instruction }
    ensures { IfOk result (Spends code.now branch.old at areas.old (reverse labels.old.items)
        branch.new areas.new (reverse labels.new.items)) }
{
    match instruction {
        Code::Builtin(kind) => { take_builtin(code, at, kind, branch, areas, &mut scratch.touches) }
        Code::Constrain(kind) => {
            take_constraint(code, at, kind, branch, areas, &mut scratch.cells)
        }
        Code::Label(order) => take_labelling(code, at, order, branch, areas, labels, scratch),
        Code::Best(order, least) => {
            take_best(code, at, order, least, branch, areas, &mut scratch.touches)
        }
        Code::PostRange(range, count) => post(code, at, range, count, branch, areas, scratch),
        _ => unreachable!(),
    }
}
