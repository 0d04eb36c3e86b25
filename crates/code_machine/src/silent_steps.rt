//! Steps that say nothing. An instruction is matched in groups, first those of terms, then calls and choices, then goals, since the prover
//! takes a wide match badly: where a group doesn't have it, the place is put back, and the next group matches it again.

ghost use Rattle.std.specs.Prelude.{◌≡◌, ◌<◌, reverse, length, true, false, IfOk, OnOk};
ghost use Rattle.wam_code.specs.declared.instruction.Code.TheVariants as step;
ghost use Rattle.wam_code.specs.Area.{Holds};
ghost use Rattle.code_safety.specs.Safety.{IsSafeBack};
ghost use Rattle.code_goals.specs.Builtins.{IsSilent};
ghost use Rattle.code_machine.specs.declared.run.Stage.TheVariants as stage;
ghost use Rattle.code_machine.specs.Labels.{AreLabels};
ghost use Rattle.code_machine.specs.States.{state_at, state_of, IsMachine, IsQuiet, IsToSay, MaySay, StillRuns, WalksOn};
ghost use Rattle.code_machine.specs.Instructions.{IsCall, IsOther};
ghost use Rattle.code_machine.specs.Steps.{stage_of, ComesBack, IsTaken};

use crate::goals::{take_call, take_quietly};
use crate::labels::{has_values, keep_values, take_values};
use crate::run::{Ending, Label, Run, Stage};
use crate::uncounted_instructions::{take_choice, take_term};
use branch_state::BranchState;
use code_areas::Areas;
use code_control::{go_back, try_again};
use code_goals::{Next, try_value};
use code_safety::Went;
use fd_language::NoMemory;
use fd_model::kinds::BuiltinKind;
use propagate_queue::Agenda;
use term_instructions::Scratch;
use wam_code::{Code, CodeArea};

/// The stage where an instruction leads.
fn stage_of(went: Went) -> Stage
    ensures { result ≡ stage_of went }
{
    match went {
        Went::On(to) => Stage::Going(to),
        Went::Back => Stage::Returning,
    }
}

/// Stays at a place whose instruction may say something.
#[inline(always)]
fn stay<A: Agenda + Drop>(
    code: &CodeArea,
    at: usize,
    instruction: Code,
    branch: &BranchState<A>,
    run: &mut Run,
) -> Option<Went>
    requires machine { IsMachine (state_at code.now branch.now run.old (stage.Going at)) }
    requires holds { Holds code.now at instruction }
    requires says { MaySay run.old.budget instruction }
    ensures { IsTaken code.now at branch.now run.old branch.now run.new result }
{
    run.stage = Stage::Going(at);
    None
}

/// Takes a call, a disjunction, a test or a cut, if a reduction is left for it, and gives where it leads. The error is want of memory.
#[inline(always)]
fn call_on<A: Agenda + Drop>(
    code: &CodeArea,
    at: usize,
    instruction: Code,
    branch: &mut BranchState<A>,
    run: &mut Run,
) -> Result<Option<Went>, NoMemory>
    requires machine { IsMachine (state_at code.now branch.old run.old (stage.Going at)) }
    requires holds { Holds code.now at instruction }
    requires call { IsCall instruction }
    ensures { IfOk result (IsTaken code.now at branch.old run.old branch.new run.new) }
{
    if run.budget == 0 {
        return Ok(stay(code, at, instruction, branch, run));
    }
    run.budget -= 1;
    run.spent += 1;
    let to = take_call(
        code,
        at,
        instruction,
        branch,
        &mut run.areas,
        &mut run.labels,
    )?;
    Ok(Some(Went::On(to)))
}

/// Takes a built-in goal that says nothing, if a reduction is left for it, and gives where it leads; a fault ends the run. The error is want
/// of memory.
#[inline(always)]
fn builtin_on<A: Agenda + Drop>(
    code: &CodeArea,
    at: usize,
    kind: BuiltinKind,
    branch: &mut BranchState<A>,
    run: &mut Run,
) -> Result<Option<Went>, NoMemory>
    requires machine { IsMachine (state_at code.now branch.old run.old (stage.Going at)) }
    requires holds { Holds code.now at (step.Builtin kind) }
    requires silent { IsSilent kind }
    ensures { IfOk result (IsTaken code.now at branch.old run.old branch.new run.new) }
{
    if run.budget == 0 {
        return Ok(stay(code, at, Code::Builtin(kind), branch, run));
    }
    run.budget -= 1;
    run.spent += 1;
    let touches = &mut run.scratch.touches;
    let next = take_quietly(code, at, kind, branch, &run.areas, &run.labels, touches)?;
    match next {
        Next::On(to) => Ok(Some(Went::On(to))),
        Next::Back => Ok(Some(Went::Back)),
        Next::Fault(fault) => {
            run.stage = Stage::Ended(Ending::Fault(fault));
            Ok(None)
        }
        Next::Write(_) | Next::Newline(_) => unreachable!(),
    }
}

/// Takes an instruction that `take_term` doesn't take, unless it may say something, and gives where it leads. The error
/// is want of memory.
#[inline(always)]
fn other_on<A: Agenda + Drop>(
    code: &CodeArea,
    at: usize,
    instruction: &Code,
    branch: &mut BranchState<A>,
    run: &mut Run,
) -> Result<Option<Went>, NoMemory>
    requires machine { IsMachine (state_at code.now branch.old run.old (stage.Going at)) }
    requires holds { Holds code.now at instruction.now }
    requires other { IsOther instruction.now }
    ensures { IfOk result (IsTaken code.now at branch.old run.old branch.new run.new) }
{
    match *instruction {
        Code::Call(_)
        | Code::Execute(_)
        | Code::Either(_)
        | Code::TestOnly(_)
        | Code::EnterTest(_, _, _)
        | Code::CutTo(_) => call_on(code, at, *instruction, branch, run),
        Code::AnswerNow
        | Code::Builtin(BuiltinKind::Write | BuiltinKind::Nl)
        | Code::Constrain(_)
        | Code::Label(_)
        | Code::Best(_, _)
        | Code::PostRange(_, _) => Ok(stay(code, at, *instruction, branch, run)),
        Code::Builtin(kind) => builtin_on(code, at, kind, branch, run),
        _ => {
            let went = take_choice(code, at, *instruction, branch, &mut run.areas)?;
            Ok(Some(went))
        }
    }
}

/// Takes the instruction at a place, unless it may say something, and gives where it leads. The error is want of memory.
#[inline(always)]
fn walk_at<A: Agenda + Drop>(
    code: &CodeArea,
    at: usize,
    branch: &mut BranchState<A>,
    run: &mut Run,
) -> Result<Option<Went>, NoMemory>
    requires machine { IsMachine (state_at code.now branch.old run.old (stage.Going at)) }
    ensures { IfOk result (IsTaken code.now at branch.old run.old branch.new run.new) }
{
    let instruction = code.code_at(at);
    let taken = take_term(
        code,
        at,
        instruction,
        branch,
        &mut run.areas,
        &mut run.scratch,
    )?;
    match taken {
        Some(went) => Ok(Some(went)),
        None => other_on(code, at, instruction, branch, run),
    }
}

/// Goes on from a place until something may have to be said, or the way leads back; gives whether it does. The error is want of memory.
fn walk_from<A: Agenda + Drop>(
    code: &CodeArea,
    from: usize,
    branch: &mut BranchState<A>,
    run: &mut Run,
) -> Result<bool, NoMemory>
    requires { IsMachine (state_at code.now branch.old run.old (stage.Going from)) }
    ensures { IfOk result (WalksOn (state_at code.now branch.old run.old (stage.Going from))
        (state_of code.now branch.new run.new false)) }
{
    let mut at = from;
    'going: loop {
        match walk_at(code, at, branch, run)? {
            Some(Went::On(to)) => at = to,
            Some(Went::Back) => {
                run.stage = Stage::Returning;
                return Ok(true);
            }
            None => return Ok(false),
        }
    }
}

/// Goes back to the newest choice point, and tries the least of the values of a labelling that it has. Gives where that leads; the error
/// is want of memory.
fn come_to_values<A: Agenda + Drop>(
    code: &CodeArea,
    branch: &mut BranchState<A>,
    areas: &mut Areas,
    labels: &mut Vec<Label>,
    scratch: &mut Scratch,
) -> Result<Went, NoMemory>
    requires safe { IsSafeBack code.now branch.old areas.old }
    requires labels { AreLabels code.now areas.old.points branch.old.heaps.below
        (reverse labels.old.items) }
    requires some { 0 < length areas.old.points }
    ensures { IfOk result (ComesBack code.now branch.old areas.old (reverse labels.old.items)
        branch.new areas.new (reverse labels.new.items)) }
{
    let at = go_back(code, branch, areas);
    let point = areas.points();
    match take_values(labels, point) {
        None => Ok(Went::On(at)),
        Some(values) => {
            let tried = try_value(code, at, values, branch, areas, &mut scratch.touches)?;
            keep_values(labels, point, tried.left)?;
            Ok(tried.went)
        }
    }
}

/// Goes back to the newest choice point. Where it has values of a labelling, the least of them is tried, and else its choice is taken.
/// Gives where that leads; the error is want of memory.
#[inline(never)]
fn come_back<A: Agenda + Drop>(
    code: &CodeArea,
    branch: &mut BranchState<A>,
    areas: &mut Areas,
    labels: &mut Vec<Label>,
    scratch: &mut Scratch,
) -> Result<Went, NoMemory>
    requires safe { IsSafeBack code.now branch.old areas.old }
    requires labels { AreLabels code.now areas.old.points branch.old.heaps.below
        (reverse labels.old.items) }
    requires some { 0 < length areas.old.points }
    ensures { IfOk result (ComesBack code.now branch.old areas.old (reverse labels.old.items)
        branch.new areas.new (reverse labels.new.items)) }
{
    if has_values(labels, areas.points() - 1) {
        return come_to_values(code, branch, areas, labels, scratch);
    }
    Ok(Went::On(try_again(code, branch, areas)))
}

/// Goes back to the newest choice point of a run.
fn resume<A: Agenda + Drop>(
    code: &CodeArea,
    branch: &mut BranchState<A>,
    run: &mut Run,
) -> Result<(), NoMemory>
    requires machine { IsMachine (state_of code.now branch.old run.old false) }
    requires stage { run.old.stage ≡ stage.Returning }
    requires some { 0 < length run.old.areas.points }
    ensures machine { OnOk result (IsMachine (state_of code.now branch.new run.new false)) }
    ensures same { OnOk result (run.new.query ≡ run.old.query) }
    ensures quiet { OnOk result (IsQuiet (state_of code.now branch.old run.old false)
        (state_of code.now branch.new run.new false)) }
{
    let went = come_back(
        code,
        branch,
        &mut run.areas,
        &mut run.labels,
        &mut run.scratch,
    )?;
    run.stage = stage_of(went);
    Ok(())
}

/// Goes on, or back to the newest choice point, with nothing to be said. Gives whether the run is to go on so: else something may have to
/// be said. The error is want of memory.
fn walk_on<A: Agenda + Drop>(
    code: &CodeArea,
    branch: &mut BranchState<A>,
    run: &mut Run,
) -> Result<bool, NoMemory>
    requires { IsMachine (state_of code.now branch.old run.old false) }
    ensures { IfOk result (WalksOn (state_of code.now branch.old run.old false)
        (state_of code.now branch.new run.new false)) }
{
    match run.stage {
        Stage::Going(at) => walk_from(code, at, branch, run),
        Stage::Returning => {
            if run.areas.points() == 0 {
                return Ok(false);
            }
            resume(code, branch, run)?;
            Ok(true)
        }
        Stage::Ended(_) => Ok(false),
    }
}

/// Goes on, and back, until something may have to be said: no event is carried here. The error is want of memory.
pub(crate) fn walk<A: Agenda + Drop>(
    code: &CodeArea,
    branch: &mut BranchState<A>,
    run: &mut Run,
) -> Result<(), NoMemory>
    requires { IsMachine (state_of code.now branch.old run.old false) }
    ensures runs { OnOk result (StillRuns (state_of code.now branch.old run.old false)
        (state_of code.now branch.new run.new false)) }
    ensures says { OnOk result (IsToSay (state_of code.now branch.new run.new false)) }
{
    'walking: loop {
        if !walk_on(code, branch, run)? {
            return Ok(());
        }
    }
}
