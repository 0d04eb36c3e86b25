//! The steps of a run, up to the next event.

ghost use Rattle.std.specs.Prelude.{◌≡◌, length, false, IfOk, OnOk};
ghost use Rattle.wam_code.specs.Area.{Holds};
ghost use Rattle.wam_code.specs.declared.instruction.Code.TheVariants as code_step;
ghost use Rattle.code_machine.specs.declared.run.Stage.TheVariants as stage;
ghost use Rattle.code_machine.specs.States.{state_of, behind_answer, last_event, one_fewer, IsEvent, IsMachine, IsStep, IsToSay, MaySay, MayShow, Says, Tells};
ghost use Rattle.code_machine.specs.Instructions.{IsCall, IsGoal};
ghost use Rattle.code_machine.specs.Steps.{saying_next, stage_next};

use crate::goals::take_goal;
use crate::run::{Ending, Run, Saying, Stage};
use crate::silent_steps::walk;
use branch_state::BranchState;
use code_goals::{Next, show_answer, show_written};
use fd_language::NoMemory;
use machine_events::MachineEvent;
use propagate_queue::Agenda;
use std::alloc::Global;
use wam_code::{Code, CodeArea};

/// Where the run is after an answer, with so many answers still allowed before it.
fn stage_behind(limit: Option<u64>) -> Stage
    ensures { result ≡ behind_answer limit }
{
    if limit == Some(1) {
        Stage::Ended(Ending::Limit)
    } else {
        Stage::Returning
    }
}

/// One answer less.
fn fewer(limit: Option<u64>) -> Option<u64>
    ensures { result ≡ one_fewer limit }
{
    match limit {
        Some(answers) => Some(answers.saturating_sub(1)),
        None => None,
    }
}

/// The event of an end.
fn said(ending: Ending) -> MachineEvent
    ensures { result ≡ last_event ending }
{
    match ending {
        Ending::End => MachineEvent::End,
        Ending::Budget => MachineEvent::Budget,
        Ending::Limit => MachineEvent::Limit,
        Ending::Fault(fault) => MachineEvent::Fault(fault),
    }
}

/// The stage behind a goal, and what the goal says.
fn outcome(next: Next) -> (Stage, Option<Saying>)
    ensures stage { result.0 ≡ stage_next next }
    ensures saying { result.1 ≡ saying_next next }
{
    match next {
        Next::On(to) => (Stage::Going(to), None),
        Next::Back => (Stage::Returning, None),
        Next::Fault(fault) => {
            let ending = Ending::Fault(fault);
            (Stage::Ended(ending), Some(Saying::Ended(ending)))
        }
        Next::Write(to) => (Stage::Going(to), Some(Saying::Term(to))),
        Next::Newline(to) => (Stage::Going(to), Some(Saying::Newline)),
    }
}

/// The answer at a place, which is one of the run's query: no other query's code is reached.
fn answer<A: Agenda + Drop>(
    code: &CodeArea,
    at: usize,
    branch: &BranchState<A>,
    run: &mut Run,
) -> Saying
    requires machine { IsMachine (state_of code.now branch.now run.old false) }
    requires stage { run.old.stage ≡ stage.Going at }
    requires holds { Holds code.now at code_step.AnswerNow }
    ensures machine { IsMachine (state_of code.now branch.now run.new false) }
    ensures same { run.new.query ≡ run.old.query }
    ensures tells { Tells (state_of code.now branch.now run.old false) result
        (state_of code.now branch.now run.new false) }
{
    run.stage = stage_behind(run.limit);
    run.limit = fewer(run.limit);
    Saying::Answer(at)
}

/// Takes the goal at a place, for a reduction, and gives what it says.
fn reduce<A: Agenda + Drop>(
    code: &CodeArea,
    at: usize,
    instruction: Code,
    branch: &mut BranchState<A>,
    run: &mut Run,
) -> Result<Option<Saying>, NoMemory>
    requires machine { IsMachine (state_of code.now branch.old run.old false) }
    requires stage { run.old.stage ≡ stage.Going at }
    requires holds { Holds code.now at instruction }
    requires goal { IsGoal instruction }
    ensures machine { OnOk result (IsMachine (state_of code.now branch.new run.new false)) }
    ensures same { OnOk result (run.new.query ≡ run.old.query) }
    ensures step { IfOk result (λ o. IsStep (state_of code.now branch.old run.old false) o
        (state_of code.now branch.new run.new false)) }
{
    if run.budget == 0 {
        run.stage = Stage::Ended(Ending::Budget);
        return Ok(Some(Saying::Ended(Ending::Budget)));
    }
    run.budget -= 1;
    run.spent += 1;
    let next = take_goal(
        code,
        at,
        instruction,
        branch,
        &mut run.areas,
        &mut run.labels,
        &mut run.scratch,
    )?;
    let (stage, saying) = outcome(next);
    run.stage = stage;
    Ok(saying)
}

/// The end of a run that comes to a call, a disjunction, a test or a cut with no reduction left.
fn stop<A: Agenda + Drop>(
    code: &CodeArea,
    at: usize,
    instruction: Code,
    branch: &BranchState<A>,
    run: &mut Run,
) -> Saying
    requires machine { IsMachine (state_of code.now branch.now run.old false) }
    requires stage { run.old.stage ≡ stage.Going at }
    requires holds { Holds code.now at instruction }
    requires call { IsCall instruction }
    requires none { run.old.budget ≡ 0 }
    ensures machine { IsMachine (state_of code.now branch.now run.new false) }
    ensures same { run.new.query ≡ run.old.query }
    ensures tells { Tells (state_of code.now branch.now run.old false) result
        (state_of code.now branch.now run.new false) }
{
    run.stage = Stage::Ended(Ending::Budget);
    Saying::Ended(Ending::Budget)
}

/// Takes an instruction that may say something.
fn speak<A: Agenda + Drop>(
    code: &CodeArea,
    at: usize,
    instruction: Code,
    branch: &mut BranchState<A>,
    run: &mut Run,
) -> Result<Option<Saying>, NoMemory>
    requires machine { IsMachine (state_of code.now branch.old run.old false) }
    requires stage { run.old.stage ≡ stage.Going at }
    requires holds { Holds code.now at instruction }
    requires says { MaySay run.old.budget instruction }
    ensures machine { OnOk result (IsMachine (state_of code.now branch.new run.new false)) }
    ensures same { OnOk result (run.new.query ≡ run.old.query) }
    ensures step { IfOk result (λ o. IsStep (state_of code.now branch.old run.old false) o
        (state_of code.now branch.new run.new false)) }
{
    match instruction {
        Code::AnswerNow => Ok(Some(answer(code, at, branch, run))),
        Code::Call(_)
        | Code::Execute(_)
        | Code::Either(_)
        | Code::TestOnly(_)
        | Code::EnterTest(_, _, _)
        | Code::CutTo(_) => Ok(Some(stop(code, at, instruction, branch, run))),
        Code::Builtin(_)
        | Code::Constrain(_)
        | Code::Label(_)
        | Code::Best(_, _)
        | Code::PostRange(_, _) => reduce(code, at, instruction, branch, run),
        _ => unreachable!(),
    }
}

/// The end of a run that has no choice point left on its way back.
fn end<A: Agenda + Drop>(code: &CodeArea, branch: &BranchState<A>, run: &mut Run) -> Saying
    requires machine { IsMachine (state_of code.now branch.now run.old false) }
    requires stage { run.old.stage ≡ stage.Returning }
    requires none { length run.old.areas.points ≡ 0 }
    ensures machine { IsMachine (state_of code.now branch.now run.new false) }
    ensures same { run.new.query ≡ run.old.query }
    ensures tells { Tells (state_of code.now branch.now run.old false) result
        (state_of code.now branch.now run.new false) }
{
    run.stage = Stage::Ended(Ending::End);
    Saying::Ended(Ending::End)
}

/// Takes a step where something may have to be said.
fn step<A: Agenda + Drop>(
    code: &CodeArea,
    branch: &mut BranchState<A>,
    run: &mut Run,
) -> Result<Option<Saying>, NoMemory>
    requires machine { IsMachine (state_of code.now branch.old run.old false) }
    requires says { IsToSay (state_of code.now branch.old run.old false) }
    ensures machine { OnOk result (IsMachine (state_of code.now branch.new run.new false)) }
    ensures same { OnOk result (run.new.query ≡ run.old.query) }
    ensures step { IfOk result (λ o. IsStep (state_of code.now branch.old run.old false) o
        (state_of code.now branch.new run.new false)) }
{
    match run.stage {
        Stage::Going(at) => {
            let instruction = *code.code_at(at);
            speak(code, at, instruction, branch, run)
        }
        Stage::Returning => Ok(Some(end(code, branch, run))),
        Stage::Ended(ending) => Ok(Some(Saying::Ended(ending))),
    }
}

/// The event of what was said. The error is want of memory.
fn make_event<A: Agenda + Drop>(
    alloc: Global,
    code: &CodeArea,
    saying: Saying,
    branch: &BranchState<A>,
    run: &Run,
) -> Result<MachineEvent, NoMemory>
    requires { MayShow (state_of code.now branch.now run.now false) saying }
    ensures { IfOk result (IsEvent (state_of code.now branch.now run.now false) saying) }
{
    match saying {
        Saying::Term(to) => {
            let shown = show_written(code, to, branch, &run.areas)?;
            Ok(MachineEvent::Write(shown))
        }
        Saying::Newline => Ok(MachineEvent::Newline),
        Saying::Answer(at) => {
            let shown = show_answer(alloc, code, at, run.query, branch, &run.areas)?;
            Ok(MachineEvent::Answer(shown))
        }
        Saying::Ended(ending) => Ok(said(ending)),
    }
}

/// Goes to the next event.
pub(crate) fn run_on<A: Agenda + Drop>(
    alloc: Global,
    code: &CodeArea,
    branch: &mut BranchState<A>,
    run: &mut Run,
) -> Result<MachineEvent, NoMemory>
    requires { IsMachine (state_of code.now branch.old run.old false) }
    ensures machine { OnOk result (IsMachine (state_of code.now branch.new run.new false)) }
    ensures same { OnOk result (run.new.query ≡ run.old.query) }
    ensures says { IfOk result (λ e. Says (state_of code.now branch.old run.old false) e
        (state_of code.now branch.new run.new false)) }
{
    'going: loop {
        walk(code, branch, run)?;
        if let Some(saying) = step(code, branch, run)? {
            return make_event(alloc, code, saying, branch, run);
        }
    }
}
