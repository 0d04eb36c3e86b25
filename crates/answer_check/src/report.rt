//! What is written of the answers.

ghost use Rattle.byte_ports.specs.Ends.{sink_at};
ghost use Rattle.std.specs.Prelude.{◌≡◌, ◌≤◌, ◌++◌, ◌&&◌, ℕ, List, All, IsTrue, ◌↔◌, IfOk, OnOk, decimal};
ghost use Rattle.fd_language.specs.declared.TheConstants.{INFINITY};
ghost use Rattle.fd_model.specs.Answers.{Precedes};
ghost use Rattle.answer_check.specs.Checks.{CanCheck};
ghost use Rattle.answer_check.specs.FlatForm.{FlatQuery as Flat};
ghost use Rattle.answer_check.specs.Judgement.{answer_line, good_status, values_of};
ghost use Rattle.answer_check.specs.Queries.{IsQuery};
ghost use Rattle.answer_check.specs.Reports.{Flushes, IsFalling, PutsLines, PutsOrder, PutsReport};
ghost use Rattle.answer_check.specs.Rows.{AreRows, Keeps};

use crate::checks::Scratch;
use crate::listed_answers::Answers;
use crate::members::value;
use crate::outcome::{CheckStatus, Fault};
use crate::query::FlatQuery;
use byte_ports::{Sink, WriteFault, write_all};
use fd_language::NoMemory;
use fd_model::kinds::Order;
use itoa::Buffer;
use std::alloc::Global;

/// The last lines of the answers, which still wait, and whether all answers are right.
#[derive(Drop)]
struct Lines {
    text: Vec<u8>,
    are_good: bool,
}

/// How many bytes are written at once, or a few more.
const ENOUGH: usize = 65_536;

/// Puts a number in decimal.
fn put_number(text: &mut Vec<u8>, number: usize) -> Result<(), NoMemory>
    ensures { OnOk result (text.new.items ≡ text.old.items ++ decimal number) }
{
    let mut buffer = Buffer::new();
    text.extend_from_slice(buffer.format(number).as_bytes())?;
    Ok(())
}

/// Puts the line of an answer, with the goal that it breaks first.
fn put_answer(text: &mut Vec<u8>, number: usize, broken: Option<usize>) -> Result<(), NoMemory>
    ensures { OnOk result (text.new.items ≡ text.old.items ++ answer_line number broken) }
{
    text.extend_from_slice(b"answer ")?;
    put_number(text, number)?;
    match broken {
        None => text.extend_from_slice(b": yes\n")?,
        Some(goal) => {
            text.extend_from_slice(b": no ")?;
            put_number(text, goal)?;
            text.extend_from_slice(b"\n")?;
        }
    }
    Ok(())
}

/// Whether the values of the variables in an answer come before those in another one, in lexicographic order.
fn precedes(labelled: &[u64], before: &[u32], behind: &[u32]) -> bool
    ensures { IsTrue result
        ↔ Precedes (values_of labelled.now before.now) (values_of labelled.now behind.now) }
{
    for variable in labelled {
        let (first, second) = (value(before, *variable), value(behind, *variable));
        if first != second {
            return first < second;
        }
    }
    false
}

/// The number of the first answer that doesn't come behind the one before it, counted from 1.
fn first_falling(labelled: &[u64], answers: &Answers) -> Option<usize>
    ensures { (nss : List (List ℕ)) → Keeps answers.now.variables nss answers.now
        → IsFalling labelled.now nss result }
{
    for number in 1..answers.count() {
        if !precedes(labelled, answers.row(number - 1), answers.row(number)) {
            return Some(number + 1);
        }
    }
    None
}

/// Puts the line of the order, and tells whether the order is right.
fn put_order(
    text: &mut Vec<u8>,
    order: Order,
    labelled: &[u64],
    answers: &Answers,
) -> Result<bool, NoMemory>
    ensures { (nss : List (List ℕ)) → Keeps answers.now.variables nss answers.now
        → IfOk result (PutsOrder order labelled.now nss text.old.items text.new.items) }
{
    match order {
        Order::FirstFail => {
            text.extend_from_slice(b"order: free\n")?;
            Ok(true)
        }
        Order::Leftmost => match first_falling(labelled, answers) {
            None => {
                text.extend_from_slice(b"order: rising\n")?;
                Ok(true)
            }
            Some(number) => {
                text.extend_from_slice(b"order: not rising at ")?;
                put_number(text, number)?;
                text.extend_from_slice(b"\n")?;
                Ok(false)
            }
        },
    }
}

/// Writes the text that waits, if there is enough of it.
fn flush<K: Sink>(sink: &mut K, text: &mut Vec<u8>) -> Result<(), WriteFault>
    ensures { Flushes (sink_at (K.written sink.old) (K.faults sink.old))
        (sink_at (K.written sink.new) (K.faults sink.new))
        text.old.items text.new.items result }
{
    if text.len() >= ENOUGH {
        write_all(sink, text.as_slice())?;
        text.clear();
    }
    Ok(())
}

/// Writes the lines of the answers to a query, but for the last ones, which still wait.
fn put_lines<K: Sink>(
    alloc: Global,
    sink: &mut K,
    query: &FlatQuery,
    answers: &Answers,
) -> Result<Lines, Fault>
    requires safe { All CanCheck query.now.goals.constraints.items }
    requires values { All (λ n. n ≤ INFINITY) answers.now.values.items }
    ensures { (f : Flat) (nss : List (List ℕ)) → IsQuery f query.now
        → Keeps f.query.variables nss answers.now → PutsLines f.constraints nss
        (sink_at (K.written sink.old) (K.faults sink.old))
        (sink_at (K.written sink.new) (K.faults sink.new)) result }
{
    let mut scratch = Scratch::new(alloc);
    let mut text = Vec::new(alloc);
    let mut are_good = true;
    for number in 0..answers.count() {
        let broken = scratch.first_broken(&query.goals.constraints, answers.row(number))?;
        put_answer(&mut text, number + 1, broken)?;
        are_good = are_good && broken.is_none();
        flush(sink, &mut text)?;
    }
    Ok(Lines { text, are_good })
}

/// The status of answers that are all right or not, in order or not.
fn status_of(are_good: bool, is_in_order: bool) -> CheckStatus
    ensures { result ≡ good_status (are_good && is_in_order) }
{
    if are_good && is_in_order {
        CheckStatus::Good
    } else {
        CheckStatus::Bad
    }
}

/// Writes the report on the answers to a query, and gives its status.
pub(crate) fn put_report<K: Sink>(
    alloc: Global,
    sink: &mut K,
    query: &FlatQuery,
    answers: &Answers,
) -> Result<CheckStatus, Fault>
    requires safe { All CanCheck query.now.goals.constraints.items }
    requires values { All (λ n. n ≤ INFINITY) answers.now.values.items }
    ensures { (f : Flat) (nss : List (List ℕ)) → IsQuery f query.now
        → Keeps f.query.variables nss answers.now → PutsReport f nss
        (sink_at (K.written sink.old) (K.faults sink.old))
        (sink_at (K.written sink.new) (K.faults sink.new)) result }
{
    let Lines { mut text, are_good } = put_lines(alloc, sink, query, answers)?;
    let goals = &query.goals;
    let is_in_order = put_order(&mut text, goals.order, &goals.labelled, answers)?;
    write_all(sink, &text)?;
    Ok(status_of(are_good, is_in_order))
}
