//! The bytes that a run writes: the lines of refusals, of queries and of their events.
#![tactic(auto)]

ghost use Rattle.std.specs.Prelude.{◌≡◌, ◌++◌, ◌<◌, true, All, List, length, map, codes, decimal, is_some, IfOk, IfSome};
ghost use Rattle.fd_language.specs.Term.{Name};
ghost use Rattle.fd_model.specs.Lines.{event_bytes, fault_name, line};
ghost use Rattle.fd_model.specs.Output.{refusal};
ghost use Rattle.term_pool.specs.Contents.{atom_name};
ghost use Rattle.machine_events.specs.Events.{event_of, HasTerms};
ghost use Rattle.answer_text.specs.Events.{is_fixed};
ghost use Rattle.answer_text.specs.Reasons.{reason_text, IsReasonIn};

mod answer;
mod domains;
mod numbers;
mod reason;
mod variables;

use crate::answer::{answer_line, written_text};
use crate::numbers::{put_count, put_number};
pub use crate::reason::Reason;
use crate::reason::put_reason;
use fd_language::NoMemory;
use fd_model::kinds::QueryFault;
use machine_events::MachineEvent;
use std::alloc::Global;
use term_pool::{AtomId, Pool};

/// The line that refused words have.
pub const USAGE: &[u8] =
    b"usage: clpfd [--steps N] [--answers K] [--agenda fifo|cheapest] [--infinity M] [--gen N]\n";

/// The line of a refusal: its place in bytes of the text, and its reason. Names in the reason are atoms of the pool.
pub fn refusal_text(
    alloc: Global,
    place: usize,
    r: &Reason,
    pool: &Pool,
) -> Result<Vec<u8>, NoMemory>
    requires { IsReasonIn pool.now r.now }
    ensures { IfOk result (λ text. text.items ≡ refusal place (reason_text pool.now r.now)) }
{
    let mut text = Vec::from_slice(alloc, b"refused at ")?;
    put_number(&mut text, place as u64)?;
    text.extend_from_slice(b": ")?;
    put_reason(alloc, &mut text, pool, r)?;
    text.push(b'\n')?;
    Ok(text)
}

/// The line before the events of the n-th query, where the first one has the number 1.
pub fn query_text(alloc: Global, n: usize) -> Result<Vec<u8>, NoMemory>
    ensures { IfOk result (λ text. text.items ≡ line (codes "query " ++ decimal n)) }
{
    let mut text = Vec::new(alloc);
    put_count(&mut text, b"query ", n as u64)?;
    Ok(text)
}

/// The line of a fault.
fn fault_line(fault: QueryFault) -> &'static [u8]
    ensures { result.now ≡ line (codes "error: " ++ fault_name fault) }
{
    match fault {
        QueryFault::Instantiation => b"error: instantiation\n",
        QueryFault::BadType => b"error: type\n",
        QueryFault::Parameter => b"error: parameter\n",
        QueryFault::Evaluation => b"error: evaluation\n",
        QueryFault::Nonlinear => b"error: nonlinear\n",
    }
}

/// The bytes of an event that shows no term; none for another.
pub fn fixed_text(event: &MachineEvent) -> Option<&'static [u8]>
    ensures text { IfSome result (λ text. (names : List Name) →
        text.now ≡ event_bytes (event_of names event.now)) }
    ensures there { is_some result ≡ is_fixed event.now }
{
    match event {
        MachineEvent::Write(_) => None,
        MachineEvent::Newline => Some(b"\n"),
        MachineEvent::Answer(_) => None,
        MachineEvent::End => Some(b"end\n"),
        MachineEvent::Budget => Some(b"budget\n"),
        MachineEvent::Limit => Some(b"limit\n"),
        MachineEvent::Fault(fault) => Some(fault_line(*fault)),
    }
}

/// The bytes of an event of a query whose shown variables have these names: a line, or what a goal writes. The names are atoms of
/// the pool.
pub fn event_text(
    alloc: Global,
    pool: &Pool,
    names: &[AtomId],
    event: &MachineEvent,
) -> Result<Vec<u8>, NoMemory>
    requires names { All (λ a. a.number < length pool.now.names) names.now }
    requires terms { HasTerms (length names.now) event.now }
    ensures { IfOk result (λ text. text.items
        ≡ event_bytes (event_of (map (atom_name pool.now) names.now) event.now)) }
{
    match event {
        MachineEvent::Write(shown) => written_text(alloc, shown),
        MachineEvent::Answer(shown) => answer_line(alloc, pool, names, shown),
        fixed => Ok(Vec::from_slice(alloc, fixed_text(fixed).unwrap())?),
    }
}

/// The summary of a run of the text for so many queens: its size, its answers, its reductions, and the line of its last event.
pub fn summary_text(
    alloc: Global,
    size: u32,
    answers: u64,
    spent: u64,
    last: &MachineEvent,
) -> Result<Vec<u8>, NoMemory>
    requires last { is_fixed last.now ≡ true }
    ensures { IfOk result (λ text. (names : List Name) → text.items
        ≡ line (codes "gen " ++ decimal size)
        ++ (line (codes "answers " ++ decimal answers)
        ++ (line (codes "reductions " ++ decimal spent)
        ++ event_bytes (event_of names last.now)))) }
{
    let mut text = Vec::new(alloc);
    put_count(&mut text, b"gen ", u64::from(size))?;
    put_count(&mut text, b"answers ", answers)?;
    put_count(&mut text, b"reductions ", spent)?;
    text.extend_from_slice(fixed_text(last).unwrap())?;
    Ok(text)
}
