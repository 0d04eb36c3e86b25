//! What is written for words and a text.

ghost use Rattle.std.specs.Prelude.{◌≡◌, ◌⊎◌, ◌≤◌, List, length, map, string_bytes, IfOk};
ghost use Rattle.fd_language.specs.Term.{Name};
ghost use Rattle.fd_model.specs.Output.{refusal};
ghost use Rattle.fd_model.specs.Verdict.{accepted};
ghost use Rattle.answer_text.specs.Reasons.{reason_text, IsReasonIn};
ghost use Rattle.byte_ports.specs.Ends.{ends, sink_at};
ghost use Rattle.clause_check.specs.Programs.{program_in};
ghost use Rattle.text_output.specs.Endings.{Ending, RunsProgram, WroteOutput};
ghost use Rattle.clpcode.specs.Headline.{Answers, Headline, IsListing, ListsVerdict, Lists, RefusesFault, Refuses, Runs};
ghost use Rattle.clpcode.specs.Lines.{refusal_line as line_of, usage as usage_line};
ghost use Rattle.clpcode.specs.Parts.{IsShort};
ghost use Rattle.clpcode.specs.Words.{task_of as their_task};
ghost use Rattle.code_listing.specs.Sheets.{Listed as AnyListed};

use crate::command::{Task, task_of};
use answer_text::Reason;
use byte_ports::{MAX_TEXT, ReadTextFault, Sink, Source, read_text};
use clause_check::Program;
use clause_compiler::compile;
use code_text::write_listing;
use command_words::{AgendaName, Options};
use fd_language::{INFINITY, NoMemory};
use fd_model::Status;
use held_code::hold;
use itoa::Buffer;
use listing_loader::{LoadFault, load};
use state_search::list_code;
use std::alloc::Global;
use term_pool::Pool;
use text_output::{answer, answer_code, put_last};
use text_verdict::{Verdict, judge_text, refused};

/// The line that refused words have.
const USAGE: &[u8] = b"usage: clpcode list|load\n";

/// What the queries of a listing may take, as those of a text without words.
const OPTIONS: Options = Options {
    steps: 1_000_000,
    answers: None,
    agenda: AgendaName::Fifo,
    infinity: INFINITY,
    generate: None,
};

/// The listing of a program's code. It is want of memory too where no states are found by which the code is verified.
fn listing_of(alloc: Global, program: Program) -> Result<Vec<u8>, NoMemory>
    ensures { IfOk result (λ text. (l : AnyListed) × IsListing text.items l
        × RunsProgram l.area (program_in program)) }
{
    program.known();
    let area = compile(alloc, program)?;
    match list_code(alloc, area)? {
        Some(code) => {
            hold(&code);
            write_listing(alloc, &code)
        }
        None => Err(NoMemory),
    }
}

/// Writes the listing of a program's code.
fn list_program<K: Sink>(alloc: Global, program: Program, sink: &mut K) -> Status
    ensures { IsShort (sink_at (K.written sink.old) (K.faults sink.old)) (sink_at (K.written
        sink.new) (K.faults sink.new)) result
        ⊎ ListsVerdict (Ending (sink_at (K.written sink.old) (K.faults sink.old)) (sink_at (K.written
        sink.new) (K.faults sink.new)) result) (accepted (program_in program)) }
{
    match listing_of(alloc, program) {
        Ok(text) => put_last(sink, &text, Status::Done),
        Err(NoMemory) => Status::NoMemory,
    }
}

/// Writes the line of a text that is refused.
fn refuse_text<K: Sink>(
    alloc: Global,
    place: usize,
    reason: Reason,
    pool: Pool,
    sink: &mut K,
) -> Status
    requires { IsReasonIn pool reason }
    ensures { Ending (sink_at (K.written sink.old) (K.faults sink.old)) (sink_at (K.written
        sink.new) (K.faults sink.new)) result Status.Refused
        (refusal place (reason_text pool reason)) }
{
    let verdict = Verdict::Refused {
        place,
        reason,
        pool,
    };
    answer(alloc, Ok(verdict), OPTIONS, sink)
}

/// Writes the listing of a text's code, or the text's refusal.
fn list_text<K: Sink>(alloc: Global, text: &[u8], sink: &mut K) -> Status
    requires { length text.now ≤ MAX_TEXT }
    ensures { IsShort (sink_at (K.written sink.old) (K.faults sink.old)) (sink_at (K.written
        sink.new) (K.faults sink.new)) result
        ⊎ Lists (Ending (sink_at (K.written sink.old) (K.faults sink.old)) (sink_at (K.written
        sink.new) (K.faults sink.new)) result) text.now }
{
    match judge_text(alloc, text, INFINITY) {
        Ok(Verdict::Accepted(program)) => list_program(alloc, program, sink),
        Ok(
            Verdict::Refused {
                place,
                reason,
                pool,
            },
        ) => refuse_text(alloc, place, reason, pool, sink),
        Err(NoMemory) => Status::NoMemory,
    }
}

/// The line of a listing that is refused.
fn refusal_line(alloc: Global, line: usize, reason: &[u8]) -> Result<Vec<u8>, NoMemory>
    ensures { IfOk result (λ text. text.items ≡ line_of line reason.now) }
{
    let mut buffer = Buffer::new();
    let mut text = Vec::from_slice(alloc, b"refused at line ")?;
    text.extend_from_slice(buffer.format(line).as_bytes())?;
    text.extend_from_slice(b": ")?;
    text.extend_from_slice(reason)?;
    text.push(b'\n')?;
    Ok(text)
}

/// Writes the line of a listing that is refused.
fn put_refusal<K: Sink>(alloc: Global, line: usize, reason: &[u8], sink: &mut K) -> Status
    ensures { Ending (sink_at (K.written sink.old) (K.faults sink.old)) (sink_at (K.written
        sink.new) (K.faults sink.new)) result Status.Refused (line_of line reason.now) }
{
    match refusal_line(alloc, line, reason) {
        Ok(text) => put_last(sink, &text, Status::Refused),
        Err(NoMemory) => Status::NoMemory,
    }
}

/// Writes why a text is no listing.
fn refuse<K: Sink>(alloc: Global, fault: LoadFault, sink: &mut K) -> Status
    ensures { IsShort (sink_at (K.written sink.old) (K.faults sink.old)) (sink_at (K.written
        sink.new) (K.faults sink.new)) result
        ⊎ RefusesFault (Ending (sink_at (K.written sink.old) (K.faults sink.old)) (sink_at (K.written
        sink.new) (K.faults sink.new)) result) fault }
{
    match fault {
        LoadFault::BadLine { line } => put_refusal(alloc, line, b"bad line", sink),
        LoadFault::BadNumber { line } => put_refusal(alloc, line, b"bad number", sink),
        LoadFault::BadRange { line } => put_refusal(alloc, line, b"bad range", sink),
        LoadFault::NotVerified { line } => put_refusal(alloc, line, b"not verified", sink),
        LoadFault::NoMemory => Status::NoMemory,
    }
}

/// Writes the output of the queries of a listing, or why the text is none.
fn load_text<K: Sink>(alloc: Global, text: &[u8], sink: &mut K) -> Status
    ensures { IsShort (sink_at (K.written sink.old) (K.faults sink.old)) (sink_at (K.written
        sink.new) (K.faults sink.new)) result
        ⊎ (Refuses (Ending (sink_at (K.written sink.old) (K.faults sink.old)) (sink_at (K.written
        sink.new) (K.faults sink.new)) result) text.now
        ⊎ Runs (Ending (sink_at (K.written sink.old) (K.faults sink.old)) (sink_at (K.written
        sink.new) (K.faults sink.new)) result) result text.now) }
{
    match load(alloc, text) {
        Ok(code) => {
            hold(&code);
            answer_code(alloc, code.into_area(), OPTIONS, sink)
        }
        Err(fault) => refuse(alloc, fault, sink),
    }
}

/// Writes what is asked for of a text.
fn answer_text<K: Sink>(alloc: Global, task: Task, text: &[u8], sink: &mut K) -> Status
    requires { length text.now ≤ MAX_TEXT }
    ensures { IsShort (sink_at (K.written sink.old) (K.faults sink.old)) (sink_at (K.written
        sink.new) (K.faults sink.new)) result
        ⊎ Answers task (Ending (sink_at (K.written sink.old) (K.faults sink.old)) (sink_at
        (K.written sink.new) (K.faults sink.new)) result) result text.now }
{
    match task {
        Task::List => list_text(alloc, text, sink),
        Task::Load => load_text(alloc, text, sink),
    }
}

/// Writes what is asked for of the text that the source gives, and tells how the run ended.
fn answer_source<S: Source, K: Sink>(
    alloc: Global,
    task: Task,
    source: &mut S,
    sink: &mut K,
) -> Status
    ensures { (words : List Name) → their_task words ≡ Some task → Headline words
        (ends (S.left source.old) (K.written sink.old) (S.faults source.old) (K.faults sink.old))
        (ends (S.left source.new) (K.written sink.new) (S.faults source.new) (K.faults sink.new))
        result }
{
    match read_text(alloc, source) {
        Ok(text) => answer_text(alloc, task, &text, sink),
        Err(ReadTextFault::ReadFault) => Status::ReadFault,
        Err(ReadTextFault::TooLarge) => {
            answer(
                alloc,
                refused(alloc, MAX_TEXT, Reason::TooLarge),
                OPTIONS,
                sink,
            )
        }
        Err(ReadTextFault::NoMemory) => Status::NoMemory,
    }
}

/// Writes what the words ask for, and tells how the run ended.
///
/// `words` are the command line without the program's own name. The one word `list` asks for the listing of the code of the text
/// that the source gives, and the one word `load` for the output of the queries of the listing that it gives, each with the limits of
/// a text's queries without words. Other words leave the source as it was. Otherwise it is read to its end, in bytes, and whether
/// the text is refused is settled before the first byte is written. The status says which case it was: see `Status`.
pub fn run_code<S: Source, K: Sink>(
    alloc: Global,
    words: &[String],
    source: &mut S,
    sink: &mut K,
) -> Status
    ensures headline { Headline (map string_bytes words.now)
        (ends (S.left source.old) (K.written sink.old) (S.faults source.old) (K.faults sink.old))
        (ends (S.left source.new) (K.written sink.new) (S.faults source.new) (K.faults sink.new))
        result }
    ensures untouched { their_task (map string_bytes words.now) ≡ None → source.new ≡ source.old }
    ensures usage { their_task (map string_bytes words.now) ≡ None
        → WroteOutput (sink_at (K.written sink.old) (K.faults sink.old))
        (sink_at (K.written sink.new) (K.faults sink.new)) result Status.Usage usage_line }
{
    match task_of(words) {
        None => put_last(sink, USAGE, Status::Usage),
        Some(task) => answer_source(alloc, task, source, sink),
    }
}
