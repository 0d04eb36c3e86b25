//! The output of a text, written line by line, each as one piece: its refusal, or the events of its queries.

ghost use Rattle.std.specs.Prelude.{◌≡◌, ◌<◌, ◌≤◌, ◌∷◌, [], ℕ, Bool, List, length, map, All, IfOk, IsOkUnless};
ghost use Rattle.fd_language.specs.declared.TheConstants.{INFINITY as TOP};
ghost use Rattle.fd_model.specs.Goal.{Event, Program as AnyProgram};
ghost use Rattle.fd_model.specs.Run.{IsLimit};
ghost use Rattle.fd_model.specs.Lines.{event_bytes};
ghost use Rattle.machine_events.specs.Events.{HasTerms, event_of};
ghost use Rattle.fd_model.specs.Output.{Queries, VerdictOutput, is_stop, stop_status};
ghost use Rattle.term_pool.specs.Contents.{atom_name};
ghost use Rattle.clause_check.specs.Programs.{program_in};
ghost use Rattle.code_machine.specs.States.{StandsFor, names_of};
ghost use Rattle.byte_ports.specs.Ends.{sink_at};
ghost use Rattle.byte_ports.specs.Lines.{lines_of};
ghost use Rattle.text_output.specs.Endings.{limits_of, Ending, HasLast, IsEnding, IsNew, IsRunBy, LastBy, LastFrom, RunsProgram, WroteOutput};
ghost use Rattle.text_output.specs.Pieces.{sink_seen, Gave, HandedEnding, QueryPieces, VerdictPieces};
ghost use Rattle.text_verdict.specs.Verdicts.{verdict_of, HasNames};

use crate::fault::Fault;
use answer_text::{event_text, query_text, refusal_text};
use byte_ports::{Sink, first_line, write_all};
use clause_check::Program;
use clause_compiler::compile;
use code_machine::Machine;
use command_words::{AgendaName, Options};
use fd_language::NoMemory;
use fd_model::Status;
use machine_events::{Limits, MachineEvent};
use propagate_queue::{Agenda, Cheapest, Fifo};
use std::alloc::Global;
use std::rc::Rc;
use term_pool::{AtomId, Pool};
use text_verdict::Verdict;
use wam_code::CodeArea;

/// Writes the last lines of an output. Takes no memory.
pub fn put_last<K: Sink>(sink: &mut K, lines: &[u8], status: Status) -> Status
    ensures ending { WroteOutput (sink_at (K.written sink.old) (K.faults sink.old))
        (sink_at (K.written sink.new) (K.faults sink.new)) result status lines.now }

    // Each line was handed over as a piece.
    ensures pieces { HandedEnding (K.handed sink.old) (K.handed sink.new) result
        (lines_of lines.now) }
{
    match put_lines(sink, lines) {
        Ok(()) => status,
        Err(fault) => fault.status(),
    }
}

/// Writes lines, each as a piece of its own.
fn put_lines<K: Sink>(sink: &mut K, lines: &[u8]) -> Result<(), Fault>
    ensures gave { Gave
        (sink_seen (K.written sink.old) (K.faults sink.old) (K.handed sink.old))
        (sink_seen (K.written sink.new) (K.faults sink.new) (K.handed sink.new))
        result (lines_of lines.now) }
    ensures fault { IsOkUnless result Fault.WriteFault }
{
    let mut left = lines;
    'lines: while !left.is_empty() {
        let line = first_line(left);
        put_line(sink, line)?;
        left = &left[line.len()..];
    }
    Ok(())
}

/// Writes a line.
fn put_line<K: Sink>(sink: &mut K, line: &[u8]) -> Result<(), Fault>
    ensures gave { Gave
        (sink_seen (K.written sink.old) (K.faults sink.old) (K.handed sink.old))
        (sink_seen (K.written sink.new) (K.faults sink.new) (K.handed sink.new))
        result (line.now ∷ []) }
    ensures fault { IsOkUnless result Fault.WriteFault }
{
    Ok(write_all(sink, line)?)
}

/// Whether an event is the last one, and then whether it stops its query.
pub fn ending(event: &MachineEvent) -> Option<bool>
    ensures { IsEnding event.now result }
{
    match event {
        MachineEvent::Write(_) | MachineEvent::Newline | MachineEvent::Answer(_) => None,
        MachineEvent::End | MachineEvent::Limit => Some(false),
        MachineEvent::Budget | MachineEvent::Fault(_) => Some(true),
    }
}

/// Writes the text of an event, and says how the event ends a run, if it does.
fn put_text<K: Sink>(text: &[u8], event: &MachineEvent, sink: &mut K) -> Result<Option<bool>, Fault>
    ensures gave { Gave
        (sink_seen (K.written sink.old) (K.faults sink.old) (K.handed sink.old))
        (sink_seen (K.written sink.new) (K.faults sink.new) (K.handed sink.new))
        result (text.now ∷ []) }
    ensures ending { IfOk result (IsEnding event.now) }
{
    put_line(sink, text)?;
    Ok(ending(event))
}

/// Writes the line or the text of an event, and says how it ends a run, if it does.
fn put_borrowed<K: Sink>(
    alloc: Global,
    pool: &Pool,
    names: &[AtomId],
    event: &MachineEvent,
    sink: &mut K,
) -> Result<Option<bool>, Fault>
    requires names { All (λ a. a.number < length pool.now.names) names.now }
    requires terms { HasTerms (length names.now) event.now }
    ensures gave { Gave
        (sink_seen (K.written sink.old) (K.faults sink.old) (K.handed sink.old))
        (sink_seen (K.written sink.new) (K.faults sink.new) (K.handed sink.new))
        result (event_bytes (event_of (map (atom_name pool.now) names.now) event.now) ∷ []) }
    ensures ending { IfOk result (IsEnding event.now) }
{
    let text = event_text(alloc, pool, names, event)?;
    put_text(&text, event, sink)
}

/// Writes the line or the text of an event, and says how it ends a run, if it does.
fn put_event<K: Sink>(
    alloc: Global,
    pool: &Pool,
    names: &[AtomId],
    event: MachineEvent,
    sink: &mut K,
) -> Result<Option<bool>, Fault>
    requires names { All (λ a. a.number < length pool.now.names) names.now }
    requires terms { HasTerms (length names.now) event }
    ensures gave { Gave
        (sink_seen (K.written sink.old) (K.faults sink.old) (K.handed sink.old))
        (sink_seen (K.written sink.new) (K.faults sink.new) (K.handed sink.new))
        result (event_bytes (event_of (map (atom_name pool.now) names.now) event) ∷ []) }
    ensures ending { IfOk result (IsEnding event) }
{
    put_borrowed(alloc, pool, names, &event, sink)
}

/// Writes the lines of the events of a machine, and tells whether its query was stopped. The names are those of the query's shown
/// variables.
fn put_events<A: Agenda + Drop, K: Sink>(
    alloc: Global,
    pool: &Pool,
    names: &[AtomId],
    machine: &mut Machine<A>,
    sink: &mut K,
) -> Result<bool, Fault>
    requires names { All (λ a. a.number < length pool.now.names) names.now }
    requires own { map (atom_name pool.now) names.now ≡ names_of machine.old }
    ensures gave { (es : List Event) (r : ℕ) → StandsFor machine.old es r → Gave
        (sink_seen (K.written sink.old) (K.faults sink.old) (K.handed sink.old))
        (sink_seen (K.written sink.new) (K.faults sink.new) (K.handed sink.new))
        result (map event_bytes es) }
    ensures stopped { (es : List Event) (r : ℕ) → StandsFor machine.old es r → IfOk result
        (λ stopped. stopped ≡ is_stop es) }
    ensures front { (pieces : List (List ℕ)) × Gave
        (sink_seen (K.written sink.old) (K.faults sink.old) (K.handed sink.old))
        (sink_seen (K.written sink.new) (K.faults sink.new) (K.handed sink.new))
        result pieces }
    ensures last { IfOk result (LastFrom machine.old) }
{
    'events: loop {
        let event = machine.next()?;
        if let Some(stopped) = put_event(alloc, pool, names, event, sink)? {
            return Ok(stopped);
        }
    }
}

/// The machine of a query, with this agenda.
fn machine_for<A: Agenda + Drop>(
    alloc: Global,
    code: &Rc<CodeArea>,
    query: usize,
    options: Options,
    agenda: A,
) -> Result<Machine<A>, NoMemory>
    requires query { query < length code.now.value.queries }
    requires limit { IsLimit options.answers }
    requires infinity { (1 ≤ options.infinity) × (options.infinity ≤ TOP) }
    ensures { IfOk result (IsNew code.now.value query (limits_of options)) }
{
    let limits = Limits {
        steps: options.steps,
        answers: options.answers,
        infinity: options.infinity,
    };
    let shared = Rc::clone(code)?;
    Machine::new(alloc, shared, query, limits, agenda)
}

/// Writes the lines of the events of a query whose machine has this agenda, and tells whether the query was stopped.
fn put_run<A: Agenda + Drop, K: Sink>(
    alloc: Global,
    code: &Rc<CodeArea>,
    query: usize,
    options: Options,
    agenda: A,
    sink: &mut K,
) -> Result<bool, Fault>
    requires query { query < length code.now.value.queries }
    requires limit { IsLimit options.answers }
    requires infinity { (1 ≤ options.infinity) × (options.infinity ≤ TOP) }
    ensures gave { (es : List Event) (r : ℕ)
        → IsRunBy options.infinity code.now.value query options.steps options.answers es r
        → Gave
        (sink_seen (K.written sink.old) (K.faults sink.old) (K.handed sink.old))
        (sink_seen (K.written sink.new) (K.faults sink.new) (K.handed sink.new))
        result (map event_bytes es) }
    ensures stopped { (es : List Event) (r : ℕ)
        → IsRunBy options.infinity code.now.value query options.steps options.answers es r
        → IfOk result (λ stopped. stopped ≡ is_stop es) }
    ensures front { (pieces : List (List ℕ)) × Gave
        (sink_seen (K.written sink.old) (K.faults sink.old) (K.handed sink.old))
        (sink_seen (K.written sink.new) (K.faults sink.new) (K.handed sink.new))
        result pieces }
    ensures last { IfOk result (LastBy code.now.value query (limits_of options)) }
{
    let mut machine = machine_for(alloc, code, query, options, agenda)?;
    let parts = code.parts();
    put_events(
        alloc,
        &parts.pool,
        &parts.queries[query].names,
        &mut machine,
        sink,
    )
}

/// Writes the lines of a query's events, and tells whether the query was stopped.
fn put_query<K: Sink>(
    alloc: Global,
    code: &Rc<CodeArea>,
    query: usize,
    options: Options,
    sink: &mut K,
) -> Result<bool, Fault>
    requires query { query < length code.now.value.queries }
    requires limit { IsLimit options.answers }
    requires infinity { (1 ≤ options.infinity) × (options.infinity ≤ TOP) }
    ensures gave { (es : List Event) (r : ℕ)
        → IsRunBy options.infinity code.now.value query options.steps options.answers es r
        → Gave
        (sink_seen (K.written sink.old) (K.faults sink.old) (K.handed sink.old))
        (sink_seen (K.written sink.new) (K.faults sink.new) (K.handed sink.new))
        result (map event_bytes es) }
    ensures stopped { (es : List Event) (r : ℕ)
        → IsRunBy options.infinity code.now.value query options.steps options.answers es r
        → IfOk result (λ stopped. stopped ≡ is_stop es) }
    ensures front { (pieces : List (List ℕ)) × Gave
        (sink_seen (K.written sink.old) (K.faults sink.old) (K.handed sink.old))
        (sink_seen (K.written sink.new) (K.faults sink.new) (K.handed sink.new))
        result pieces }
    ensures last { IfOk result (LastBy code.now.value query (limits_of options)) }
{
    match options.agenda {
        AgendaName::Fifo => put_run(alloc, code, query, options, Fifo::new(alloc), sink),
        AgendaName::Cheapest => put_run(alloc, code, query, options, Cheapest::new(alloc), sink),
    }
}

/// Writes the lines of the queries of code, and tells whether one of them was stopped.
fn put_queries<K: Sink>(
    alloc: Global,
    code: CodeArea,
    options: Options,
    sink: &mut K,
) -> Result<bool, Fault>
    requires limit { IsLimit options.answers }
    requires infinity { (1 ≤ options.infinity) × (options.infinity ≤ TOP) }
    ensures gave { (prog : AnyProgram) (pieces : List (List ℕ)) (stop : Bool)
        → RunsProgram code prog
        → QueryPieces TOP options.infinity prog options.steps options.answers 1 prog.queries pieces
        stop
        → Gave
        (sink_seen (K.written sink.old) (K.faults sink.old) (K.handed sink.old))
        (sink_seen (K.written sink.new) (K.faults sink.new) (K.handed sink.new))
        result pieces }
    ensures stopped { (prog : AnyProgram) (pieces : List (List ℕ)) (stop : Bool)
        → RunsProgram code prog
        → QueryPieces TOP options.infinity prog options.steps options.answers 1 prog.queries pieces
        stop
        → IfOk result (λ stopped. stopped ≡ stop) }
    ensures front { (pieces : List (List ℕ)) × Gave
        (sink_seen (K.written sink.old) (K.faults sink.old) (K.handed sink.old))
        (sink_seen (K.written sink.new) (K.faults sink.new) (K.handed sink.new))
        result pieces }
    ensures last { IfOk result (HasLast code (limits_of options)) }
{
    let count = code.queries();
    let shared = Rc::new(alloc, code)?;
    let mut stopped = false;
    for query in 0..count {
        put_line(sink, &query_text(alloc, query + 1)?)?;
        if put_query(alloc, &shared, query, options, sink)? {
            stopped = true;
        }
    }
    Ok(stopped)
}

/// Writes the output of the queries of code with these options, and gives its status. Where the code stands for a program, that is the
/// output of the program's queries.
pub fn answer_code<K: Sink>(alloc: Global, code: CodeArea, options: Options, sink: &mut K) -> Status
    requires limit { IsLimit options.answers }
    requires infinity { (1 ≤ options.infinity) × (options.infinity ≤ TOP) }
    ensures output { (prog : AnyProgram) (out : List ℕ) (stop : Bool) → RunsProgram code prog
        → Queries TOP options.infinity prog options.steps options.answers 1 prog.queries out stop
        → Ending (sink_at (K.written sink.old) (K.faults sink.old)) (sink_at (K.written sink.new)
        (K.faults sink.new)) result (stop_status stop) out }
    ensures pieces { (prog : AnyProgram) (pieces : List (List ℕ)) (stop : Bool)
        → RunsProgram code prog
        → QueryPieces TOP options.infinity prog options.steps options.answers 1 prog.queries pieces
        stop
        → HandedEnding (K.handed sink.old) (K.handed sink.new) result pieces }
    ensures front { (out : List ℕ) × (stop : Bool)
        × Ending (sink_at (K.written sink.old) (K.faults sink.old)) (sink_at (K.written sink.new)
        (K.faults sink.new)) result (stop_status stop) out }
    ensures last { (stop : Bool) → result ≡ stop_status stop
        → HasLast code (limits_of options) stop }
{
    match put_queries(alloc, code, options, sink) {
        Ok(true) => Status::Stopped,
        Ok(false) => Status::Done,
        Err(fault) => fault.status(),
    }
}

/// Writes the output of a program's queries, and gives its status.
fn answer_program<K: Sink>(
    alloc: Global,
    program: Program,
    options: Options,
    sink: &mut K,
) -> Status
    requires limit { IsLimit options.answers }
    requires infinity { (1 ≤ options.infinity) × (options.infinity ≤ TOP) }
    ensures output { (out : List ℕ) (stop : Bool)
        → Queries TOP options.infinity (program_in program) options.steps options.answers 1
        (program_in program).queries out stop
        → Ending (sink_at (K.written sink.old) (K.faults sink.old)) (sink_at (K.written sink.new)
        (K.faults sink.new)) result (stop_status stop) out }
    ensures pieces { (pieces : List (List ℕ)) (stop : Bool)
        → QueryPieces TOP options.infinity (program_in program) options.steps options.answers 1
        (program_in program).queries pieces stop
        → HandedEnding (K.handed sink.old) (K.handed sink.new) result pieces }
{
    program.known();
    match compile(alloc, program) {
        Ok(code) => answer_code(alloc, code, options, sink),
        Err(NoMemory) => Status::NoMemory,
    }
}

/// Writes the output of a text with this verdict, and gives its status.
fn put_output<K: Sink>(alloc: Global, verdict: Verdict, options: Options, sink: &mut K) -> Status
    requires names { HasNames verdict }
    requires limit { IsLimit options.answers }
    requires infinity { (1 ≤ options.infinity) × (options.infinity ≤ TOP) }
    ensures output { (out : List ℕ) (st : Status)
        → VerdictOutput TOP options.infinity (verdict_of verdict) options.steps options.answers
        out st
        → Ending (sink_at (K.written sink.old) (K.faults sink.old)) (sink_at (K.written sink.new)
        (K.faults sink.new)) result st out }
    ensures pieces { (pieces : List (List ℕ))
        → VerdictPieces TOP options.infinity (verdict_of verdict) options.steps options.answers
        pieces
        → HandedEnding (K.handed sink.old) (K.handed sink.new) result pieces }
{
    match verdict {
        Verdict::Accepted(program) => answer_program(alloc, program, options, sink),
        Verdict::Refused {
            place,
            reason,
            pool,
        } => match refusal_text(alloc, place, &reason, &pool) {
            Ok(line) => put_last(sink, &line, Status::Refused),
            Err(NoMemory) => Status::NoMemory,
        },
    }
}

/// Writes the output of a text, where memory sufficed for its verdict.
pub fn answer<K: Sink>(
    alloc: Global,
    verdict: Result<Verdict, NoMemory>,
    options: Options,
    sink: &mut K,
) -> Status
    requires names { IfOk verdict HasNames }
    requires limit { IsLimit options.answers }
    requires infinity { (1 ≤ options.infinity) × (options.infinity ≤ TOP) }
    ensures output { (out : List ℕ) (st : Status)
        → IfOk verdict (λ v. VerdictOutput TOP options.infinity (verdict_of v)
        options.steps options.answers out st)
        → Ending (sink_at (K.written sink.old) (K.faults sink.old)) (sink_at (K.written sink.new)
        (K.faults sink.new)) result st out }
    ensures pieces { (pieces : List (List ℕ))
        → IfOk verdict (λ v. VerdictPieces TOP options.infinity (verdict_of v) options.steps
        options.answers pieces)
        → HandedEnding (K.handed sink.old) (K.handed sink.new) result pieces }
{
    match verdict {
        Ok(verdict) => put_output(alloc, verdict, options, sink),
        Err(NoMemory) => Status::NoMemory,
    }
}
