//! The answers that are listed for a query.

ghost use Rattle.std.specs.Prelude.{◌≡◌, ◌<◌, ◌≤◌, length, drop, map, All, IfOk, MatchResult, option_map};
ghost use Rattle.std.specs.Option.{option_copied};
ghost use Rattle.term_pool.specs.Contents.{atom_name};
ghost use Rattle.answer_check.specs.declared.outcome.Reason.TheVariants as reason;
ghost use Rattle.answer_check.specs.declared.outcome.Stop.TheVariants as stop;
ghost use Rattle.answer_check.specs.AnswerLines.{is_last_line};
ghost use Rattle.answer_check.specs.FlatForm.{FlatQuery as Flat};
ghost use Rattle.byte_ports.specs.Lines.{lines_of};
ghost use Rattle.answer_check.specs.Queries.{IsQuery};
ghost use Rattle.answer_check.specs.Rows.{answer_in, behind, digits_of, number_in, value_in, FindsRows, IsRead, StopsRows};

use crate::listed_answers::Answers;
use crate::outcome::{Reason, Stop};
use crate::query::FlatQuery;
use byte_ports::first_line;
use fd_language::{INFINITY, NoMemory};
use itoa::Buffer;
use std::alloc::Global;
use term_pool::{AtomId, Pool};

/// The line of an answer to a query without variables.
const TRUE_LINE: &[u8] = b"true\n";

/// The lines that end the answers.
const END_LINE: &[u8] = b"end\n";

const BUDGET_LINE: &[u8] = b"budget\n";

const LIMIT_LINE: &[u8] = b"limit\n";

/// The end of a line.
const NEWLINE: &[u8] = b"\n";

/// What stands behind a front.
fn behind<'a>(front: &[u8], bytes: &'a [u8]) -> Option<&'a [u8]>
    ensures { option_copied result ≡ behind front.entry.now bytes.entry.now }
{
    bytes.strip_prefix(front)
}

/// The number that these bytes write in decimal, where it is one of the universe.
fn number_in(bytes: &[u8]) -> Option<u32>
    ensures { result ≡ number_in bytes.now }
{
    let Ok(text) = std::str::from_utf8(bytes) else {
        return None;
    };
    let Ok(number) = text.parse::<u32>() else {
        return None;
    };
    let mut buffer = Buffer::new();
    let is_spelled_so = buffer.format(number).as_bytes() == bytes;
    (is_spelled_so && number <= INFINITY).then_some(number)
}

/// The digits that bytes begin with.
fn digits_of(bytes: &[u8]) -> &[u8]
    ensures { result.now ≡ digits_of bytes.now }
{
    for (at, byte) in bytes.iter().enumerate() {
        if !byte.is_ascii_digit() {
            return &bytes[..at];
        }
    }
    bytes
}

/// The number that a variable with this name is given in front of the bytes, and what stands behind it.
fn read_value<'a>(between: &[u8], name: &str, bytes: &'a [u8]) -> Option<(u32, &'a [u8])>
    ensures { option_map (λ v. (v.0, v.1.now)) result
        ≡ value_in between.entry.now name.entry.now bytes.entry.now }
{
    let named = behind(between, bytes)?;
    let equals = behind(name.as_bytes(), named)?;
    let rest = behind(b" = ", equals)?;
    let digits = digits_of(rest);
    let number = number_in(digits)?;
    Some((number, &rest[digits.len()..]))
}

/// Puts the values that a line gives the variables behind the others. Tells whether the line is an answer.
fn read_answer(
    pool: &Pool,
    names: &[AtomId],
    line: &[u8],
    values: &mut Vec<u32>,
) -> Result<bool, NoMemory>
    requires { All (λ a. a.number < length pool.now.names) names.now }
    ensures { IfOk result (IsRead (answer_in (map (atom_name pool.now) names.now) line.now)
        values.old.items values.new.items) }
{
    if names.is_empty() {
        return Ok(line == TRUE_LINE);
    }
    let mut rest = line;
    let mut between: &[u8] = b"";
    for name in names {
        let Some((number, behind)) = read_value(between, pool.name_of(*name), rest) else {
            return Ok(false);
        };
        values.push(number)?;
        rest = behind;
        between = b", ";
    }
    Ok(rest == NEWLINE)
}

/// Whether the line is one that ends the answers.
fn is_last_line(line: &[u8]) -> bool
    ensures { result ≡ is_last_line line.now }
{
    line == END_LINE || line == BUDGET_LINE || line == LIMIT_LINE
}

/// The refusal of a line.
fn bad_answer(place: usize) -> Stop
    ensures { result ≡ stop.Refused place reason.BadAnswer }
{
    Stop::Refused {
        place,
        reason: Reason::BadAnswer,
    }
}

/// The answers that stand in the input from a place on, up to the line that ends them.
pub(crate) fn read_answers(
    alloc: Global,
    query: &FlatQuery,
    input: &[u8],
    from: usize,
) -> Result<Answers, Stop>
    requires from { from ≤ length input.now }
    requires names { All (λ a. a.number < length query.now.pool.names) query.now.names.items }
    ensures { (f : Flat) → IsQuery f query.now → MatchResult result
        (FindsRows f.query from (lines_of (drop from input.now)))
        (StopsRows f.query from (lines_of (drop from input.now))) }
{
    let variables = query.names.len();
    let mut values = Vec::new(alloc);
    let mut count = 0;
    let mut at = from;
    while at < input.len() {
        let line = first_line(&input[at..]);
        let behind = at + line.len();
        if is_last_line(line) {
            if behind < input.len() {
                return Err(bad_answer(behind));
            }
            return Ok(Answers {
                values,
                variables,
                count,
            });
        }
        if !read_answer(&query.pool, &query.names, line, &mut values)? {
            return Err(bad_answer(at));
        }
        count += 1;
        at = behind;
    }
    Err(bad_answer(at))
}
