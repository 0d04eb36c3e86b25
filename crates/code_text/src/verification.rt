//! Whether code is verified by the states of its places.

ghost use Rattle.std.specs.Prelude.{◌≡◌, ◌⊎◌, ◌↔◌, ◌<◌, ◌-◌, ℕ, length, map, min, slice_get, IsTrue, IfOk, IfErr, OnOk, MatchOption};
ghost use Rattle.wam_code.specs.declared.instruction.Code.TheVariants.{AnswerNow};
ghost use Rattle.wam_code.specs.Area.{Span, Holds, HasQuery, area_of, span_of};
ghost use Rattle.wam_code.specs.Effect.{is_cell};
ghost use Rattle.wam_code.specs.VerifiedCode.{IsVerifiedBy};
ghost use Rattle.code_text.specs.LocalConditions.{AreAloneTold, AreAnswersTold, AreCells, AreFirstCounts, FitsAlone, IsAnswerTold};
ghost use Rattle.code_flow.specs.PlaceConditions.{AreShown, FitsAt, FitsEntry, IsFirstFailing, ShowsAt};
ghost use Rattle.code_text.specs.Owners.{AreOwners};
ghost use Rattle.code_text.specs.Places.{AreSpansTold, HasAllKeys, IsEntryTold};
ghost use Rattle.code_listing.specs.States.{slot_of, state_of, states_of};
ghost use Rattle.code_text.specs.FaultPlaces.{IsTold, TellsFaults};
ghost use Rattle.code_text.specs.Verdict.{IsVerifyFault};

use crate::crossings::tell_all_crossings;
use crate::entry_states::{begins, first_counts};
use crate::least_place::First;
use crate::owners::{begins_of, owner_at, owners_of, query_at, tell_owner};
use crate::place_predecessors::reach_of;
use crate::places::{is_answer, tell_places};
use crate::reference_checks::{has_atom, has_atoms, has_keys};
use code_flow::{registers_of, table_at};
use code_listing::{PlaceState, Slot};
use fd_language::NoMemory;
use std::alloc::Global;
use thiserror::Error;
use wam_code::{CodeParts, Entry, QueryEntry};

/// Why code isn't verified.
#[derive(Clone, Copy, Debug, PartialEq, Eq, Drop, Error)]
pub enum VerifyFault {
    /// A condition fails at the place, and none at a place before it.
    #[error("not verified at {place}")]
    NotVerified { place: usize },
    /// Memory was wanting.
    #[error("out of memory")]
    NoMemory,
}

impl From<NoMemory> for VerifyFault {
    fn from(_error: NoMemory) -> VerifyFault
        ensures { result ≡ VerifyFault.NoMemory }
    {
        VerifyFault::NoMemory
    }
}

/// Tells where there are fewer or more states than places.
fn tell_lengths(parts: &CodeParts, states: &[PlaceState], first: &mut First)
    ensures found { (length (states_of states.now) ≡ length (area_of parts.now).code)
        ⊎ IsTold first.new.place
        (min (length (states_of states.now)) (length (area_of parts.now).code)) }
    ensures tells { TellsFaults (area_of parts.now) (states_of states.now)
        first.old.place first.new.place }
{
    let places = parts.code.len();
    if states.len() != places {
        first.tell(states.len().min(places));
    }
}

/// Whether the conditions on a predicate hold.
fn fits_entry(
    parts: &CodeParts,
    states: &[PlaceState],
    counts: &[Option<usize>],
    entry: Entry,
) -> bool
    requires { AreFirstCounts (states_of states.now) counts.now }
    ensures { IsTrue result ↔ FitsEntry (area_of parts.now) (states_of states.now) entry }
{
    if !begins(states, counts, entry.at, entry.arity as usize) {
        return false;
    }
    has_atom(parts, entry.name)
}

/// Tells the predicate where its conditions don't hold, and the query that it begins in.
fn tell_entry(
    parts: &CodeParts,
    states: &[PlaceState],
    counts: &[Option<usize>],
    owners: &[Option<usize>],
    number: usize,
    first: &mut First,
)
    requires counts { AreFirstCounts (states_of states.now) counts.now }
    requires number { number < length (area_of parts.now).entries }
    requires owners { AreOwners (area_of parts.now) (length (area_of parts.now).code)
        first.old.place owners.now }
    ensures found { IsEntryTold (area_of parts.now) (states_of states.now) owners.now
        first.new.place number }
    ensures tells { TellsFaults (area_of parts.now) (states_of states.now)
        first.old.place first.new.place }
{
    let entry = parts.entries[number];
    tell_owner(parts, owner_at(owners, entry.at), first);
    if !fits_entry(parts, states, counts, entry) {
        first.tell(entry.at);
    }
}

/// Tells the predicates whose conditions don't hold, and the queries that they begin in.
fn tell_entries(
    parts: &CodeParts,
    states: &[PlaceState],
    counts: &[Option<usize>],
    owners: &[Option<usize>],
    first: &mut First,
)
    requires counts { AreFirstCounts (states_of states.now) counts.now }
    requires owners { AreOwners (area_of parts.now) (length (area_of parts.now).code)
        first.old.place owners.now }
    ensures found { (number : ℕ) → number < length (area_of parts.now).entries
        → IsEntryTold (area_of parts.now) (states_of states.now) owners.now
        first.new.place number }
    ensures tells { TellsFaults (area_of parts.now) (states_of states.now)
        first.old.place first.new.place }
{
    for number in 0..parts.entries.len() {
        tell_entry(parts, states, counts, owners, number, first);
    }
}

/// Whether a slot is there and is a cell.
fn holds_cell(slots: &[Slot], index: usize) -> bool
    ensures { result ≡ is_cell (slice_get (map slot_of slots.now) index) }
{
    if index >= slots.len() {
        return false;
    }
    match slots[index] {
        Slot::Cell => true,
        _ => false,
    }
}

/// Whether so many slots are cells, from the first on.
fn are_cells(slots: &[Slot], count: usize) -> bool
    ensures { IsTrue result ↔ AreCells count (map slot_of slots.now) }
{
    for index in 0..count {
        if !holds_cell(slots, index) {
            return false;
        }
    }
    true
}

/// Whether an answer may show so many slots.
fn are_shown(state: &PlaceState, count: usize) -> bool
    ensures { IsTrue result ↔ AreShown count (state_of state.now) }
{
    match &state.frame {
        None => count == 0,
        Some(slots) => are_cells(slots, count),
    }
}

/// Whether a place may show so many slots.
fn shows_at(states: &[PlaceState], at: usize, count: usize) -> bool
    ensures { IsTrue result ↔ ShowsAt (states_of states.now) at count }
{
    if at >= states.len() {
        return true;
    }
    are_shown(&states[at], count)
}

/// Whether a place answers.
fn answers(parts: &CodeParts, at: usize) -> bool
    ensures { IsTrue result ↔ Holds (area_of parts.now) at AnswerNow }
{
    if at >= parts.code.len() {
        return false;
    }
    is_answer(parts.code[at])
}

/// Whether the conditions on a query that look at no other code hold.
fn fits_alone(
    parts: &CodeParts,
    states: &[PlaceState],
    counts: &[Option<usize>],
    query: &QueryEntry,
) -> bool
    requires { AreFirstCounts (states_of states.now) counts.now }
    ensures { IsTrue result
        ↔ FitsAlone (area_of parts.now) (states_of states.now) (span_of query.now) }
{
    if query.at >= query.end {
        return false;
    }
    if query.end > parts.code.len() {
        return false;
    }
    if !answers(parts, query.end - 1) {
        return false;
    }
    if !begins(states, counts, query.at, 0) {
        return false;
    }
    has_atoms(parts, &query.names)
}

/// Tells the query whose conditions don't hold.
fn tell_query(
    parts: &CodeParts,
    states: &[PlaceState],
    counts: &[Option<usize>],
    number: usize,
    first: &mut First,
)
    requires { AreFirstCounts (states_of states.now) counts.now }
    ensures found { (q : Span) → HasQuery (area_of parts.now) number q
        → FitsAlone (area_of parts.now) (states_of states.now) q ⊎ IsTold first.new.place q.at }
    ensures tells { TellsFaults (area_of parts.now) (states_of states.now)
        first.old.place first.new.place }
{
    match query_at(parts, number) {
        None => {}
        Some(query) => {
            if !fits_alone(parts, states, counts, query) {
                first.tell(query.at);
            }
        }
    }
}

/// Tells the queries whose conditions don't hold.
fn tell_queries(
    parts: &CodeParts,
    states: &[PlaceState],
    counts: &[Option<usize>],
    first: &mut First,
)
    requires { AreFirstCounts (states_of states.now) counts.now }
    ensures found { AreAloneTold (area_of parts.now) (states_of states.now) first.new.place }
    ensures tells { TellsFaults (area_of parts.now) (states_of states.now)
        first.old.place first.new.place }
{
    for number in 0..parts.queries.len() {
        tell_query(parts, states, counts, number, first);
    }
}

/// Tells the answer of a query, where it may not show the query's names.
fn tell_shown(parts: &CodeParts, states: &[PlaceState], query: &QueryEntry, first: &mut First)
    ensures found { IsAnswerTold (area_of parts.now) (states_of states.now) first.new.place
        (span_of query.now) }
    ensures tells { (number : ℕ) → HasQuery (area_of parts.now) number (span_of query.now)
        → TellsFaults (area_of parts.now) (states_of states.now)
        first.old.place first.new.place }
{
    if query.at >= query.end {
        return;
    }
    let last = query.end - 1;
    if !answers(parts, last) {
        return;
    }
    if !shows_at(states, last, query.names.len()) {
        first.tell(last);
    }
}

/// Tells the answer of the query with this number, where it may not show the query's names.
fn tell_answer(parts: &CodeParts, states: &[PlaceState], number: usize, first: &mut First)
    ensures found { (q : Span) → HasQuery (area_of parts.now) number q
        → IsAnswerTold (area_of parts.now) (states_of states.now) first.new.place q }
    ensures tells { TellsFaults (area_of parts.now) (states_of states.now)
        first.old.place first.new.place }
{
    match query_at(parts, number) {
        None => {}
        Some(query) => tell_shown(parts, states, query, first),
    }
}

/// Tells the answers that may not show their queries' names.
fn tell_answers(parts: &CodeParts, states: &[PlaceState], first: &mut First)
    ensures found { AreAnswersTold (area_of parts.now) (states_of states.now) first.new.place }
    ensures tells { TellsFaults (area_of parts.now) (states_of states.now)
        first.old.place first.new.place }
{
    for number in 0..parts.queries.len() {
        tell_answer(parts, states, number, first);
    }
}

/// Whether the keys of all tables are there.
fn has_all_keys(parts: &CodeParts) -> bool
    ensures { IsTrue result ↔ HasAllKeys (area_of parts.now) }
{
    for index in 0..parts.tables.len() {
        if !has_keys(parts, table_at(parts, index)) {
            return false;
        }
    }
    true
}

/// Tells the end of the code where a key of a table isn't there.
fn tell_tables(parts: &CodeParts, states: &[PlaceState], first: &mut First)
    ensures found { HasAllKeys (area_of parts.now)
        ⊎ IsTold first.new.place (length (area_of parts.now).code) }
    ensures tells { TellsFaults (area_of parts.now) (states_of states.now)
        first.old.place first.new.place }
{
    if !has_all_keys(parts) {
        first.tell(parts.code.len());
    }
}

/// Tells the places of conditions that look at more than one place.
fn tell_spans(
    alloc: Global,
    parts: &CodeParts,
    states: &[PlaceState],
    first: &mut First,
) -> Result<(), NoMemory>
    ensures found { OnOk result
        (AreSpansTold (area_of parts.now) (states_of states.now) first.new.place) }
    ensures tells { OnOk result (TellsFaults (area_of parts.now) (states_of states.now)
        first.old.place first.new.place) }
{
    let counts = first_counts(alloc, states)?;
    let begins = begins_of(alloc, parts, first)?;
    let owners = owners_of(alloc, parts, &begins, first)?;
    tell_entries(parts, states, &counts, &owners, first);
    tell_all_crossings(alloc, parts, &owners, first)?;
    tell_answers(parts, states, first);
    tell_queries(parts, states, &counts, first);
    Ok(())
}

/// The smallest place at which a condition fails.
fn first_failing(
    alloc: Global,
    parts: &CodeParts,
    states: &[PlaceState],
) -> Result<Option<usize>, NoMemory>
    ensures { IfOk result (λ o. MatchOption o
        ((at : ℕ) → FitsAt (area_of parts.now) (states_of states.now) at)
        (IsFirstFailing (area_of parts.now) (states_of states.now))) }
{
    let mut first = First::new();
    tell_lengths(parts, states, &mut first);
    tell_tables(parts, states, &mut first);
    tell_spans(alloc, parts, states, &mut first)?;
    let reach = reach_of(alloc, parts)?;
    let registers = registers_of(alloc, states)?;
    tell_places(alloc, parts, states, &registers, &reach, &mut first)?;
    Ok(first.place)
}

/// Whether the code is verified by these states, or the smallest place at which a condition fails.
pub fn verify(alloc: Global, parts: &CodeParts, states: &[PlaceState]) -> Result<(), VerifyFault>
    ensures ok { OnOk result (IsVerifiedBy (area_of parts.now) (states_of states.now)) }
    ensures fault { IfErr result
        (IsVerifyFault (area_of parts.now) (states_of states.now)) }
{
    let Ok(found) = first_failing(alloc, parts, states) else {
        return Err(VerifyFault::NoMemory);
    };
    match found {
        None => Ok(()),
        Some(place) => Err(VerifyFault::NotVerified { place }),
    }
}
