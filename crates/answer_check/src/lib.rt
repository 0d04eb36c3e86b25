//! Listed answers checked by plain arithmetic: which constraints of a written query each of them satisfies.
#![tactic(auto)]

ghost use Rattle.std.specs.Prelude.{◌≡◌, ◌≤◌, ℕ, List, [], length, drop, map, string_bytes, MatchResult};
ghost use Rattle.byte_ports.specs.Ends.{ends, sink_at};
ghost use Rattle.answer_check.specs.Headline.{Ending, Headline};
ghost use Rattle.answer_check.specs.Inputs.{CanTell, Checks, JudgesInput, JudgesText, Lists, PutsRefusal, Reads, Stops};
ghost use Rattle.byte_ports.specs.Lines.{lines_of};
ghost use Rattle.answer_check.specs.Refusals.{reason_text};

mod answers;
mod checks;
mod forms;
mod goals;
pub mod laws;
mod listed_answers;
mod members;
mod operand_stack;
mod outcome;
mod parts;
mod query;
mod report;
mod sides;
mod terms;

use crate::answers::read_answers;
use crate::listed_answers::Listed;
pub use crate::outcome::CheckStatus;
use crate::outcome::{Reason, Stop};
use crate::parts::{QUERY_LINE, query_place};
use crate::query::read_query;
use crate::report::put_report;
use byte_ports::{MAX_TEXT, ReadTextFault, Sink, Source, read_text, write_all};
use std::alloc::Global;

/// The line that says how the program is called.
const USAGE: &[u8] = b"usage: clpcheck\n";

/// Writes the whole output, and gives its status. No memory.
fn put_last<K: Sink>(sink: &mut K, piece: &[u8], status: CheckStatus) -> CheckStatus
    ensures ending { Ending (sink_at (K.written sink.old) (K.faults sink.old))
        (sink_at (K.written sink.new) (K.faults sink.new))
        result status piece.now }
    ensures memory { result ≡ CheckStatus.NoMemory → status ≡ CheckStatus.NoMemory }
{
    match write_all(sink, piece) {
        Ok(()) => status,
        Err(_) => CheckStatus::WriteFault,
    }
}

/// Writes the line that says where and why the input is refused.
fn put_refusal<K: Sink>(alloc: Global, sink: &mut K, place: usize, reason: Reason) -> CheckStatus
    ensures { PutsRefusal (sink_at (K.written sink.old) (K.faults sink.old))
        (sink_at (K.written sink.new) (K.faults sink.new))
        result place (reason_text reason) }
{
    let words = reason.words();
    match format!(in alloc; "refused at {place}: {words}\n") {
        Ok(line) => put_last(sink, line.as_bytes(), CheckStatus::Refused),
        Err(_) => CheckStatus::NoMemory,
    }
}

/// The query and the answers in the two parts of an input.
fn read_parts(alloc: Global, text: &str, input: &[u8], from: usize) -> Result<Listed, Stop>
    requires text { length text.now ≤ MAX_TEXT }
    requires from { from ≤ length input.now }
    ensures { let judges = JudgesText text.now from (lines_of (drop from input.now)) in
        MatchResult result (Lists judges) (Stops judges) }
{
    let query = read_query(alloc, text)?;
    let answers = read_answers(alloc, &query, input, from)?;
    Ok(Listed { query, answers })
}

/// The query and the answers in an input that is UTF-8.
fn read_listed(alloc: Global, input: &str) -> Result<Listed, Stop>
    requires { length input.now ≤ MAX_TEXT }
    ensures { MatchResult result (Lists (JudgesInput input.now)) (Stops (JudgesInput input.now)) }
{
    let bytes = input.as_bytes();
    match query_place(bytes) {
        Some(at) => read_parts(alloc, &input[..at], bytes, at + QUERY_LINE.len()),
        None => Err(Stop::Refused {
            place: bytes.len(),
            reason: Reason::NoAnswers,
        }),
    }
}

/// The query and the answers in an input, which is let go before anything is written.
fn read_input(alloc: Global, input: Vec<u8>) -> Result<Listed, Stop>
    requires { length input.items ≤ MAX_TEXT }
    ensures { Reads input.items result }
{
    match std::str::from_utf8(&input) {
        Ok(text) => read_listed(alloc, text),
        Err(error) => Err(Stop::Refused {
            place: error.valid_up_to(),
            reason: Reason::NotUtf8,
        }),
    }
}

/// Writes what is to be said of what was read, and gives its status.
fn put_checked<K: Sink>(alloc: Global, sink: &mut K, read: Result<Listed, Stop>) -> CheckStatus
    requires { CanTell read }
    ensures { (input : List ℕ) → Reads input read → Checks
        (sink_at (K.written sink.old) (K.faults sink.old))
        (sink_at (K.written sink.new) (K.faults sink.new))
        result input }
{
    match read {
        Ok(listed) => match put_report(alloc, sink, &listed.query, &listed.answers) {
            Ok(status) => status,
            Err(fault) => fault.status(),
        },
        Err(Stop::Refused { place, reason }) => put_refusal(alloc, sink, place, reason),
        Err(Stop::NoMemory) => CheckStatus::NoMemory,
    }
}

/// Says of each answer that is listed for a query whether it satisfies the query's constraints, and which it breaks first.
///
/// The source gives a query's text and behind it what `clpfd` wrote for it. The query is flat: constraints, and then one labelling of all
/// its variables. With words the usage line is written and the source isn't touched. The status says which case it was: see
/// `CheckStatus`.
pub fn check_answers<S: Source, K: Sink>(
    alloc: Global,
    words: &[String],
    source: &mut S,
    sink: &mut K,
) -> CheckStatus
    ensures headline { Headline (map string_bytes words.now)
        (ends (S.left source.old) (K.written sink.old) (S.faults source.old) (K.faults sink.old))
        (ends (S.left source.new) (K.written sink.new) (S.faults source.new) (K.faults sink.new))
        result }
    ensures untouched { (words.now ≡ [] → ⊥) → source.new ≡ source.old }
    ensures memory { (words.now ≡ [] → ⊥) → result ≡ CheckStatus.NoMemory → ⊥ }
{
    if !words.is_empty() {
        return put_last(sink, USAGE, CheckStatus::Usage);
    }
    match read_text(alloc, source) {
        Ok(input) => put_checked(alloc, sink, read_input(alloc, input)),
        Err(ReadTextFault::ReadFault) => CheckStatus::ReadFault,
        Err(ReadTextFault::TooLarge) => put_refusal(alloc, sink, MAX_TEXT, Reason::TooLarge),
        Err(ReadTextFault::NoMemory) => CheckStatus::NoMemory,
    }
}
