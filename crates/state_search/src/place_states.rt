//! Code with states that are found.

ghost use Rattle.std.specs.Prelude.{◌≡◌, ◌↔◌, length, IsTrue, IfOk, MatchOption};
ghost use Rattle.std.specs.Option.{option_to_list};
ghost use Rattle.wam_code.specs.Area.{area_of};
ghost use Rattle.wam_code.specs.VerifiedCode.{IsVerifiedBy};
ghost use Rattle.code_listing.specs.Sheets.{AreNamedInOrder, HasOrderedTables, switch_table};
ghost use Rattle.code_listing.specs.States.{states_of};

use crate::frames::frames_of;
use crate::registers::registers_of;
use code_text::{Listed, PlaceState, VerifyFault, verify};
use fd_language::NoMemory;
use std::alloc::Global;
use wam_code::{Code, CodeArea, CodeParts};

/// The number of a switch's table.
fn table_number(code: Code) -> Option<usize>
    ensures { option_to_list result ≡ switch_table code }
{
    match code {
        Code::SwitchOnConstant(table) => Some(table),
        Code::SwitchOnInteger(table) => Some(table),
        Code::SwitchOnStructure(table) => Some(table),
        _ => None,
    }
}

/// Whether each table is named by one switch, in the order of their numbers.
fn are_in_order(parts: &CodeParts) -> bool
    ensures { IsTrue result
        ↔ AreNamedInOrder (area_of parts.now).code (length (area_of parts.now).tables) }
{
    let mut next = 0;
    for at in 0..parts.code.len() {
        let Some(table) = table_number(parts.code[at]) else {
            continue;
        };
        if table != next {
            return false;
        }
        next += 1;
    }
    next == parts.tables.len()
}

/// How many arguments are owed before the instruction, where so many are owed behind it.
fn owed_before(code: Code, behind: usize) -> usize {
    match code {
        Code::UnifyVariable(_) => behind.saturating_add(1),
        Code::UnifyValue(_) => behind.saturating_add(1),
        Code::UnifyConstant(_) => behind.saturating_add(1),
        Code::UnifyInteger(_) => behind.saturating_add(1),
        Code::UnifyVoid(count) => behind.saturating_add(count),
        _ => 0,
    }
}

/// How many arguments of a structure are owed at each place, from the last place on.
fn owed_from_last(alloc: Global, parts: &CodeParts) -> Result<Vec<usize>, NoMemory> {
    let mut all = Vec::with_capacity(alloc, parts.code.len())?;
    let mut owed = 0;
    for at in (0..parts.code.len()).rev() {
        owed = owed_before(parts.code[at], owed);
        all.push(owed)?;
    }
    Ok(all)
}

/// States of the places of code. Where any states verify it that have no frame at a place to which
/// none leads, these do.
fn find_states(alloc: Global, parts: &CodeParts) -> Result<Vec<PlaceState>, NoMemory> {
    let mut states = Vec::with_capacity(alloc, parts.code.len())?;
    let mut owed = owed_from_last(alloc, parts)?;
    let frames = frames_of(alloc, parts)?;
    for (regs, frame) in registers_of(alloc, parts)?.into_iter().zip(frames) {
        let owed = owed.pop().unwrap_or(0);
        states.push(PlaceState {
            regs,
            frame: frame.into_slots(),
            owed,
        })?;
    }
    Ok(states)
}

/// States that verify the code, where they are found and its tables are in the order of their
/// switches.
fn verified_states(alloc: Global, area: &CodeArea) -> Result<Option<Vec<PlaceState>>, NoMemory>
    ensures verified { IfOk result (λ o. MatchOption o (Unit {0})
        (λ states. IsVerifiedBy area.now (states_of states.items))) }
    ensures tables { IfOk result (λ o. MatchOption o (Unit {0})
        (λ states. HasOrderedTables area.now)) }
{
    let parts = area.parts();
    if !area.has_rising_tables() || !are_in_order(parts) {
        return Ok(None);
    }
    let states = find_states(alloc, parts)?;
    match verify(alloc, parts, &states) {
        Ok(()) => Ok(Some(states)),
        Err(VerifyFault::NotVerified { .. }) => Ok(None),
        Err(VerifyFault::NoMemory) => Err(NoMemory),
    }
}

/// The code with states of its places, where states are found by which it is verified and its
/// tables are in the order of their switches.
pub fn list_code(alloc: Global, area: CodeArea) -> Result<Option<Listed>, NoMemory>
    ensures { IfOk result (λ o. MatchOption o (Unit {0}) (λ l. l.area ≡ area)) }
{
    match verified_states(alloc, &area)? {
        None => Ok(None),
        Some(states) => Ok(Some(Listed::from_verified(area, states))),
    }
}
