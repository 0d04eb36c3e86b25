//! The summary of a generated text's run.

ghost use Rattle.std.specs.Prelude.{◌≡◌, ◌+◌, ◌<◌, ◌≤◌, ◌^◌, ◌∷◌, [], ℕ, true, List, length, IfOk, OnErr};
ghost use Rattle.fd_language.specs.Term.{Name};
ghost use Rattle.fd_language.specs.declared.TheConstants.{INFINITY as TOP};
ghost use Rattle.fd_model.specs.Generator.{count_answers, queens_text as queens_bytes};
ghost use Rattle.fd_model.specs.Goal.{Event, Query, start_of};
ghost use Rattle.fd_model.specs.Goal as model;
ghost use Rattle.fd_model.specs.Output.{IsSummary};
ghost use Rattle.fd_model.specs.Run.{IsLimit, Run};
ghost use Rattle.fd_model.specs.Verdict.{IsVerdict, accepted};
ghost use Rattle.answer_text.specs.Events.{is_fixed};
ghost use Rattle.command_words.specs.Words.{asked};
ghost use Rattle.machine_events.specs.Events.{event_of};
ghost use Rattle.code_machine.specs.States.{StandsFor};
ghost use Rattle.byte_ports.specs.Ends.{sink_at};
ghost use Rattle.text_output.specs.Endings.{Ending, IsRunOf};
ghost use Rattle.byte_ports.specs.Lines.{lines_of};
ghost use Rattle.text_output.specs.Pieces.{HandedEnding};
ghost use Rattle.run_summary.specs.Summaries.{IsTally};

use crate::queens::queens_text;
use answer_text::summary_text;
use byte_ports::Sink;
use clause_check::Program;
use clause_compiler::compile;
use code_machine::Machine;
use command_words::{AgendaName, Options};
use fd_language::NoMemory;
use fd_model::Status;
use machine_events::{Limits, MachineEvent};
use propagate_queue::{Agenda, Cheapest, Fifo};
use std::alloc::Global;
use std::rc::Rc;
use text_output::{ending, put_last};
use text_verdict::{Verdict, judge_text};

/// How a run went: its answers, its reductions, whether it was stopped, and its last event.
#[derive(Drop)]
pub(crate) struct Tally {
    answers: u64,
    spent: u64,
    stopped: bool,
    last: MachineEvent,
}

/// How many answers an event is.
fn answers_in(event: &MachineEvent) -> u64
    ensures { (names : List Name) → count_answers (event_of names event.now ∷ []) ≡ result }
{
    match event {
        MachineEvent::Answer(_) => 1,
        _ => 0,
    }
}

/// The count of answers with those of one event more. More than can be counted are want of memory.
fn counted(answers: u64, more: u64) -> Result<u64, NoMemory>
    ensures sum { IfOk result (λ n. n ≡ answers + more) }
    ensures memory { OnErr result (2 ^ 64 ≤ answers + more) }
{
    answers.checked_add(more).ok_or(NoMemory)
}

/// Runs a machine to its last event. More answers than can be counted are want of memory.
fn count_events<A: Agenda + Drop>(machine: &mut Machine<A>) -> Result<Tally, NoMemory>
    ensures last { IfOk result (λ t. is_fixed t.last ≡ true) }
    ensures whole { (es : List Event) (r : ℕ) → StandsFor machine.old es r → IfOk result
        (IsTally es r) }
{
    let mut answers: u64 = 0;
    'events: loop {
        let event = machine.next()?;
        if let Some(stopped) = ending(&event) {
            return Ok(Tally {
                answers,
                spent: machine.spent(),
                stopped,
                last: event,
            });
        }
        answers = counted(answers, answers_in(&event))?;
    }
}

/// Runs the first query of a program, whose machine has this agenda.
fn count_query<A: Agenda + Drop>(
    alloc: Global,
    program: Program,
    options: Options,
    agenda: A,
) -> Result<Tally, NoMemory>
    requires query { 0 < length program.queries }
    requires limit { IsLimit options.answers }
    requires infinity { (1 ≤ options.infinity) × (options.infinity ≤ TOP) }
    ensures last { IfOk result (λ t. is_fixed t.last ≡ true) }
    ensures whole { (es : List Event) (r : ℕ)
        → IsRunOf options.infinity program 0 options.steps options.answers es r
        → IfOk result (IsTally es r) }
{
    let limits = Limits {
        steps: options.steps,
        answers: options.answers,
        infinity: options.infinity,
    };
    program.known();
    let code = compile(alloc, program)?;
    let mut machine = Machine::new(alloc, Rc::new(alloc, code)?, 0, limits, agenda)?;
    count_events(&mut machine)
}

/// Runs the first query of a program.
fn count_program(alloc: Global, program: Program, options: Options) -> Result<Tally, NoMemory>
    requires query { 0 < length program.queries }
    requires limit { IsLimit options.answers }
    requires infinity { (1 ≤ options.infinity) × (options.infinity ≤ TOP) }
    ensures last { IfOk result (λ t. is_fixed t.last ≡ true) }
    ensures whole { (es : List Event) (r : ℕ)
        → IsRunOf options.infinity program 0 options.steps options.answers es r
        → IfOk result (IsTally es r) }
{
    match options.agenda {
        AgendaName::Fifo => count_query(alloc, program, options, Fifo::new(alloc)),
        AgendaName::Cheapest => count_query(alloc, program, options, Cheapest::new(alloc)),
    }
}

/// Runs the query of the text for so many queens, which is never refused.
fn count_queens(alloc: Global, size: u32, options: Options) -> Result<Tally, NoMemory>
    requires least { 4 ≤ size }
    requires most { size ≤ 12 }
    requires limit { IsLimit options.answers }
    requires infinity { (1 ≤ options.infinity) × (options.infinity ≤ TOP) }
    ensures last { IfOk result (λ t. is_fixed t.last ≡ true) }
    ensures whole { (program : model.Program) (query : Query) (es : List Event) (r : ℕ)
        → IsVerdict TOP options.infinity (queens_bytes size) (accepted program)
        → program.queries ≡ query ∷ []
        → Run TOP options.infinity program query options.steps options.answers
        (start_of query ∷ []) es r
        → IfOk result (IsTally es r) }
{
    let text = queens_text(alloc, size)?;
    match judge_text(alloc, text.as_bytes(), options.infinity)? {
        Verdict::Accepted(program) => count_program(alloc, program, options),
        Verdict::Refused { .. } => unreachable!(),
    }
}

/// The summary of the run of the text for so many queens, and its status.
fn summary(alloc: Global, size: u32, options: Options) -> Result<(Vec<u8>, Status), NoMemory>
    requires least { 4 ≤ size }
    requires most { size ≤ 12 }
    requires limit { IsLimit options.answers }
    requires infinity { (1 ≤ options.infinity) × (options.infinity ≤ TOP) }
    ensures { (out : List ℕ) (st : Status) → IsSummary TOP size (asked options) out st
        → IfOk result (λ s. (s.0.items ≡ out) × (s.1 ≡ st)) }
{
    let tally = count_queens(alloc, size, options)?;
    let text = summary_text(alloc, size, tally.answers, tally.spent, &tally.last)?;
    let status = if tally.stopped {
        Status::Stopped
    } else {
        Status::Done
    };
    Ok((text, status))
}

/// Writes the summary of the run of the text for so many queens, and gives its status.
pub fn put_summary<K: Sink>(alloc: Global, size: u32, options: Options, sink: &mut K) -> Status
    requires least { 4 ≤ size }
    requires most { size ≤ 12 }
    requires limit { IsLimit options.answers }
    requires infinity { (1 ≤ options.infinity) × (options.infinity ≤ TOP) }
    ensures output { (out : List ℕ) (st : Status) → IsSummary TOP size (asked options) out st
        → Ending (sink_at (K.written sink.old) (K.faults sink.old)) (sink_at (K.written sink.new)
        (K.faults sink.new)) result st out }

    // Each line was handed over as a piece.
    ensures pieces { (out : List ℕ) (st : Status) → IsSummary TOP size (asked options) out st
        → HandedEnding (K.handed sink.old) (K.handed sink.new) result (lines_of out) }
{
    match summary(alloc, size, options) {
        Ok((text, status)) => put_last(sink, &text, status),
        Err(NoMemory) => Status::NoMemory,
    }
}
