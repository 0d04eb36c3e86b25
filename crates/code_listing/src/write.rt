//! The lines of a listing.

ghost use Rattle.std.specs.Prelude.{◌≡◌, ◌++◌, ◌<◌, ◌≤◌, [], ◌∷◌, List, map, drop, length, slice_index_or, codes, decimal, All, IfOk, OnOk};
ghost use Rattle.fd_language.specs.TermTexts.{Quoted, atom_text};
ghost use Rattle.fd_language.specs.PostfixRanges.{nodes_of};
ghost use Rattle.range_code.specs.Slots.{in_slots};
ghost use Rattle.term_pool.specs.PoolInvariant.{IsPool};
ghost use Rattle.wam_code.specs.Area.{span_of, Holds};
ghost use Rattle.wam_code.specs.VerifiedCode.{IsThere};
ghost use Rattle.code_listing.specs.Words.{words, more_words, line_bytes};
ghost use Rattle.code_listing.specs.Texts as texts;
ghost use Rattle.code_listing.specs.Listing.{counted, places_text, table_of as its_table, listing};
ghost use Rattle.code_listing.specs.States.{slot_of, state_of, states_of};

use crate::instruction::put_instruction;
use crate::listed_code::Listed;
use crate::numbers::put_number;
use crate::slots::slot_nodes;
use crate::states::{PlaceState, Slot};
use crate::words::{put_nodes, put_number_word, put_state_registers};
use fd_language::NoMemory;
use range_code::RangeCode;
use std::alloc::Global;
use std::rc::Rc;
use term_pool::{AtomId, Pool};
use term_writer::write_atom;
use wam_code::{Code, CodeArea, Entry, Key, QueryEntry};

/// Appends a line that says what the lines behind it are, and how many.
fn put_count(text: &mut Vec<u8>, name: &[u8], count: usize) -> Result<(), NoMemory>
    ensures { OnOk result (text.new.items ≡ text.old.items
        ++ line_bytes (words (name.now ∷ decimal count ∷ []) ∷ [])) }
{
    text.extend_from_slice(name)?;
    put_number_word(text, count)?;
    text.push(b'\n')?;
    Ok(())
}

/// Appends the line of an atom.
fn put_atom(alloc: Global, text: &mut Vec<u8>, name: &str) -> Result<(), NoMemory>
    ensures { OnOk result (text.new.items ≡ text.old.items
        ++ (atom_text Quoted name.now ++ codes "\n")) }
{
    write_atom(alloc, name, false, text)?;
    text.push(b'\n')?;
    Ok(())
}

/// Appends the lines of the atoms behind the first three.
fn put_atoms(alloc: Global, text: &mut Vec<u8>, pool: &Pool) -> Result<(), NoMemory>
    ensures { OnOk result (text.new.items ≡ text.old.items
        ++ line_bytes (counted (codes "atoms") (map (atom_text Quoted) (drop 3 pool.now.names)))) }
{
    let count = pool.atoms();
    put_count(text, b"atoms", count - 3)?;
    for number in 3..count {
        put_atom(alloc, text, pool.name_of(AtomId { number }))?;
    }
    Ok(())
}

/// Appends the line of a range.
fn put_range(alloc: Global, text: &mut Vec<u8>, range: &RangeCode) -> Result<(), NoMemory>
    ensures { OnOk result (text.new.items ≡ text.old.items
        ++ (texts.nodes_text (nodes_of (in_slots range.now)) ++ codes "\n")) }
{
    let nodes = slot_nodes(alloc, range)?;
    put_nodes(text, &nodes)?;
    text.push(b'\n')?;
    Ok(())
}

/// Appends the lines of ranges.
fn put_ranges(alloc: Global, text: &mut Vec<u8>, ranges: &[Rc<RangeCode>]) -> Result<(), NoMemory>
    ensures { OnOk result (text.new.items ≡ text.old.items
        ++ line_bytes (counted (codes "ranges") (map texts.nodes_text
        (map (λ r. nodes_of (in_slots r)) (map (λ r. r.value) ranges.now))))) }
{
    put_count(text, b"ranges", ranges.len())?;
    for (index, range) in ranges.iter().enumerate() {
        put_range(alloc, text, range)?;
    }
    Ok(())
}

/// Appends the line of a predicate.
fn put_entry(text: &mut Vec<u8>, entry: &Entry) -> Result<(), NoMemory>
    ensures { OnOk result (text.new.items ≡ text.old.items
        ++ (texts.entry_text entry.now ++ codes "\n")) }
{
    put_number(text, entry.name.number)?;
    put_number_word(text, entry.arity as usize)?;
    put_number_word(text, entry.at)?;
    text.push(b'\n')?;
    Ok(())
}

/// Appends the lines of predicates.
fn put_entries(text: &mut Vec<u8>, entries: &[Entry]) -> Result<(), NoMemory>
    ensures { OnOk result (text.new.items ≡ text.old.items
        ++ line_bytes (counted (codes "entries") (map texts.entry_text entries.now))) }
{
    put_count(text, b"entries", entries.len())?;
    for (index, entry) in entries.iter().enumerate() {
        put_entry(text, entry)?;
    }
    Ok(())
}

/// Appends the numbers of atoms, each behind a space.
fn put_names(text: &mut Vec<u8>, names: &[AtomId]) -> Result<(), NoMemory>
    ensures { OnOk result (text.new.items ≡ text.old.items
        ++ more_words (map texts.atom_number names.now)) }
{
    for (index, name) in names.iter().enumerate() {
        put_number_word(text, name.number)?;
    }
    Ok(())
}

/// Appends the line of a query.
fn put_query(text: &mut Vec<u8>, query: &QueryEntry) -> Result<(), NoMemory>
    ensures { OnOk result (text.new.items ≡ text.old.items
        ++ (texts.span_text (span_of query.now) ++ codes "\n")) }
{
    put_number(text, query.at)?;
    put_number_word(text, query.end)?;
    put_names(text, &query.names)?;
    text.push(b'\n')?;
    Ok(())
}

/// Appends the lines of queries.
fn put_queries(text: &mut Vec<u8>, queries: &[QueryEntry]) -> Result<(), NoMemory>
    ensures { OnOk result (text.new.items ≡ text.old.items
        ++ line_bytes (counted (codes "queries") (map texts.span_text
        (map span_of queries.now)))) }
{
    put_count(text, b"queries", queries.len())?;
    for (index, query) in queries.iter().enumerate() {
        put_query(text, query)?;
    }
    Ok(())
}

/// The letter of a slot.
fn slot_letter(slot: Slot) -> u8
    ensures { result ≡ texts.slot_letter (slot_of slot) }
{
    match slot {
        Slot::Unset => b'u',
        Slot::Cell => b'c',
        Slot::Level => b'l',
    }
}

/// Appends the letters of slots.
fn put_slots(text: &mut Vec<u8>, slots: &[Slot]) -> Result<(), NoMemory>
    ensures { OnOk result (text.new.items ≡ text.old.items
        ++ map texts.slot_letter (map slot_of slots.now)) }
{
    for (index, slot) in slots.iter().enumerate() {
        text.push(slot_letter(*slot))?;
    }
    Ok(())
}

/// Appends a frame's slots behind a space.
fn put_frame(text: &mut Vec<u8>, state: &PlaceState) -> Result<(), NoMemory>
    ensures { OnOk result (text.new.items ≡ text.old.items
        ++ (codes " " ++ texts.frame_word (state_of state.now).frame)) }
{
    text.push(b' ')?;
    match &state.frame {
        None => text.push(b'-')?,
        Some(slots) if slots.is_empty() => text.push(b'.')?,
        Some(slots) => put_slots(text, slots)?,
    }
    Ok(())
}

/// Appends a place's state.
fn put_state(text: &mut Vec<u8>, state: &PlaceState) -> Result<(), NoMemory>
    ensures { let s = state_of state.now in OnOk result (text.new.items ≡ text.old.items
        ++ words (texts.registers_word s.regs ∷ texts.frame_word s.frame ∷ decimal s.owed ∷ [])) }
{
    put_state_registers(text, &state.regs)?;
    put_frame(text, state)?;
    put_number_word(text, state.owed)
}

/// The table of a switch, and none of another instruction.
fn table_of(area: &CodeArea, code: Code) -> &[(Key, usize)]
    requires { IsThere area.now code }
    ensures { result.now ≡ its_table area.now.tables code }
{
    match code {
        Code::SwitchOnConstant(t) => area.table(t),
        Code::SwitchOnInteger(t) => area.table(t),
        Code::SwitchOnStructure(t) => area.table(t),
        _ => &[],
    }
}

/// Appends the line of a place.
fn put_place(
    alloc: Global,
    text: &mut Vec<u8>,
    area: &CodeArea,
    code: Code,
    state: &PlaceState,
) -> Result<(), NoMemory>
    requires { IsThere area.now code }
    ensures { OnOk result (text.new.items ≡ text.old.items
        ++ (texts.place_text (its_table area.now.tables code) (state_of state.now) code
        ++ codes "\n")) }
{
    put_state(text, state)?;
    put_instruction(alloc, text, table_of(area, code), code)?;
    text.push(b'\n')?;
    Ok(())
}

/// Appends the lines of places.
fn put_places(
    alloc: Global,
    text: &mut Vec<u8>,
    area: &CodeArea,
    states: &[PlaceState],
) -> Result<(), NoMemory>
    requires { length states.now ≡ length area.now.code }
    ensures { OnOk result (text.new.items ≡ text.old.items
        ++ line_bytes (counted (codes "code")
        (places_text area.now.tables (states_of states.now) area.now.code))) }
{
    put_count(text, b"code", states.len())?;
    for (index, state) in states.iter().enumerate() {
        put_place(alloc, text, area, *area.code_at(index), state)?;
    }
    Ok(())
}

/// Appends the first line.
fn put_header(text: &mut Vec<u8>) -> Result<(), NoMemory>
    ensures { OnOk result
        (text.new.items ≡ text.old.items ++ line_bytes (codes "clpfd code 1" ∷ [])) }
{
    text.extend_from_slice(b"clpfd code 1\n")?;
    Ok(())
}

/// Appends the listing.
fn put_listing(alloc: Global, text: &mut Vec<u8>, code: &Listed) -> Result<(), NoMemory>
    ensures { OnOk result (text.new.items ≡ text.old.items
        ++ listing code.now.area code.now.states) }
{
    let area = code.area();
    let parts = area.parts();
    put_header(text)?;
    put_atoms(alloc, text, &parts.pool)?;
    put_ranges(alloc, text, &parts.ranges)?;
    put_entries(text, &parts.entries)?;
    put_queries(text, &parts.queries)?;
    put_places(alloc, text, area, code.states())?;
    Ok(())
}

/// The listing of code with the states of its places.
pub fn write_listing(alloc: Global, code: &Listed) -> Result<Vec<u8>, NoMemory>
    ensures { IfOk result (λ text. text.items ≡ listing code.now.area code.now.states) }
{
    let mut text = Vec::new(alloc);
    put_listing(alloc, &mut text, code)?;
    Ok(text)
}
