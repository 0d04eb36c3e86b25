//! Where instructions lead.

ghost use Rattle.std.specs.Prelude.{◌≡◌, ◌↔◌, ◌<◌, ◌≤◌, ◌+◌, ◌++◌, ℕ, suc, [], ◌∷◌, Some, length, replicate, slice_index_or, IsTrue, IfOk, OnOk, MatchOption};
ghost use Rattle.fd_language.specs.Family.{has};
ghost use Rattle.wam_code.specs.declared.instruction.Code.{Code as AnyCode};
ghost use Rattle.wam_code.specs.declared.instruction.Code.TheVariants.{Allocate};
ghost use Rattle.wam_code.specs.Area.{State, Unset, Holds, HasState, area_of};
ghost use Rattle.wam_code.specs.VerifiedCode as verified;
ghost use Rattle.wam_code.specs.VerifiedCode.{arms};
ghost use Rattle.code_flow.specs.StateTransfer.{changed, needs as its_needs};
ghost use Rattle.code_flow.specs.Successors.{direct, AreRegisters, CoversAt, HandsOn, IsHandedOn, LeadsOn};
ghost use Rattle.code_listing.specs.Listing as listing;
ghost use Rattle.code_listing.specs.States.{state_of, states_of};

use crate::state_transfer::{Handed, each_once};
use code_listing::PlaceState;
use fd_language::NoMemory;
use std::alloc::Global;
use wam_code::{Code, CodeParts, Key};

/// The table with this number, or none.
pub fn table_at(parts: &CodeParts, table: usize) -> &[(Key, usize)]
    ensures { result.now ≡ slice_index_or (area_of parts.now).tables table [] }
{
    if table < parts.tables.len() {
        &parts.tables[table]
    } else {
        &[]
    }
}

/// The rows of a switch, and none of another instruction.
pub fn rows_of(parts: &CodeParts, code: Code) -> &[(Key, usize)]
    ensures { result.now ≡ listing.table_of (area_of parts.now).tables code }
{
    match code {
        Code::SwitchOnConstant(t) => table_at(parts, t),
        Code::SwitchOnInteger(t) => table_at(parts, t),
        Code::SwitchOnStructure(t) => table_at(parts, t),
        _ => &[],
    }
}

/// Puts a place behind the others.
fn put_place(named: &mut Vec<usize>, to: usize) -> Result<(), NoMemory>
    ensures { OnOk result (named.new.items ≡ named.old.items ++ to ∷ []) }
{
    named.push(to)?;
    Ok(())
}

/// Puts four places behind the others.
fn put_four(named: &mut Vec<usize>, v: usize, c: usize, i: usize, s: usize) -> Result<(), NoMemory>
    ensures { OnOk result (named.new.items ≡ named.old.items ++ v ∷ c ∷ i ∷ s ∷ []) }
{
    named.push(v)?;
    named.push(c)?;
    named.push(i)?;
    named.push(s)?;
    Ok(())
}

/// Puts the places that an instruction names by itself behind the others.
fn put_direct(named: &mut Vec<usize>, code: Code) -> Result<(), NoMemory>
    ensures { OnOk result (named.new.items ≡ named.old.items ++ direct code) }
{
    match code {
        Code::Jump(to) => put_place(named, to),
        Code::TryMeElse(to) => put_place(named, to),
        Code::RetryMeElse(to) => put_place(named, to),
        Code::Try(to) => put_place(named, to),
        Code::Retry(to) => put_place(named, to),
        Code::Trust(to) => put_place(named, to),
        Code::Either(to) => put_place(named, to),
        Code::EnterTest(_, _, to) => put_place(named, to),
        Code::SwitchOnTerm(v, c, i, s) => put_four(named, v, c, i, s),
        _ => Ok(()),
    }
}

/// Puts the places of a table's rows behind the others.
fn put_arms(named: &mut Vec<usize>, rows: &[(Key, usize)]) -> Result<(), NoMemory>
    ensures { OnOk result (named.new.items ≡ named.old.items ++ arms rows.now) }
{
    for (index, row) in rows.iter().enumerate() {
        put_place(named, row.1)?;
    }
    Ok(())
}

/// Puts the places that an instruction names behind the others.
pub fn put_named(named: &mut Vec<usize>, parts: &CodeParts, code: Code) -> Result<(), NoMemory>
    ensures { OnOk result (named.new.items
        ≡ named.old.items ++ verified.named (area_of parts.now) code) }
{
    put_direct(named, code)?;
    put_arms(named, rows_of(parts, code))?;
    Ok(())
}

/// The places that an instruction names.
pub fn named_by(alloc: Global, parts: &CodeParts, code: Code) -> Result<Vec<usize>, NoMemory>
    ensures { IfOk result (λ v. v.items ≡ verified.named (area_of parts.now) code) }
{
    let mut named = Vec::new(alloc);
    put_named(&mut named, parts, code)?;
    Ok(named)
}

/// The places that an instruction names, each of them once.
fn named_once(alloc: Global, parts: &CodeParts, code: Code) -> Result<Vec<usize>, NoMemory>
    ensures { IfOk result (λ v. (to : ℕ) → has v.items to
        ≡ has (verified.named (area_of parts.now) code) to) }
{
    let named = named_by(alloc, parts, code)?;
    each_once(alloc, &named)
}

/// Whether an instruction hands its state to the next place.
pub fn goes_on(code: Code) -> bool
    ensures { result ≡ verified.goes_on code }
{
    match code {
        Code::Execute(_) => false,
        Code::Proceed => false,
        Code::FailNow => false,
        Code::AnswerNow => false,
        Code::Jump(_) => false,
        Code::Trust(_) => false,
        Code::SwitchOnTerm(..) => false,
        Code::SwitchOnConstant(_) => false,
        Code::SwitchOnInteger(_) => false,
        Code::SwitchOnStructure(_) => false,
        _ => true,
    }
}

/// Whether the next place has a state, and no frame of so many slots.
fn lacks_room(states: &[PlaceState], at: usize, count: usize) -> bool
    ensures { IsTrue result → (t : State) → t.frame ≡ Some (replicate count Unset)
        → ¬ CoversAt (states_of states.now) t (suc at) }
{
    if at >= states.len() || at + 1 >= states.len() {
        return false;
    }
    match &states[at + 1].frame {
        None => true,
        Some(slots) => slots.len() != count,
    }
}

/// Whether an instruction makes a frame that can't be the next place's.
fn makes_too_much(states: &[PlaceState], at: usize, code: Code) -> bool
    ensures next { IsTrue result → (s : State)
        → ¬ CoversAt (states_of states.now) (changed code s) (suc at) }
    ensures goes_on { IsTrue result → IsTrue (verified.goes_on code) }
{
    match code {
        Code::Allocate(count) => lacks_room(states, at, count),
        _ => false,
    }
}

/// Whether a state covers that of a place, where the place has one.
fn hands(handed: &Handed, states: &[PlaceState], registers: &[Vec<usize>], to: usize) -> bool
    requires { AreRegisters states.now registers.now }
    ensures { IsTrue result ↔ CoversAt (states_of states.now) handed.now to }
{
    if to < states.len() {
        handed.covers(&states[to], &registers[to])
    } else {
        true
    }
}

/// Whether a state covers those of these places.
fn hands_all(
    handed: &Handed,
    states: &[PlaceState],
    registers: &[Vec<usize>],
    named: &[usize],
) -> bool
    requires { AreRegisters states.now registers.now }
    ensures { IsTrue result ↔ ((to : ℕ) → IsTrue (has named.now to)
        → CoversAt (states_of states.now) handed.now to) }
{
    for (index, to) in named.iter().enumerate() {
        if !hands(handed, states, registers, *to) {
            return false;
        }
    }
    true
}

/// Whether a state covers those of the places that the instruction names.
fn hands_named(
    alloc: Global,
    parts: &CodeParts,
    states: &[PlaceState],
    registers: &[Vec<usize>],
    code: Code,
    handed: &Handed,
) -> Result<bool, NoMemory>
    requires { AreRegisters states.now registers.now }
    ensures { IfOk result (λ b. IsTrue b
        ↔ ((to : ℕ) → IsTrue (has (verified.named (area_of parts.now) code) to)
        → CoversAt (states_of states.now) handed.now to)) }
{
    let named = named_once(alloc, parts, code)?;
    let found = hands_all(handed, states, registers, &named);
    Ok(found)
}

/// Whether a state covers those of the places that the instruction leads to.
fn hands_on(
    alloc: Global,
    parts: &CodeParts,
    states: &[PlaceState],
    registers: &[Vec<usize>],
    at: usize,
    code: Code,
    handed: &Handed,
) -> Result<bool, NoMemory>
    requires registers { AreRegisters states.now registers.now }
    requires within { at < length states.now }
    ensures { IfOk result (λ b. IsTrue b
        ↔ HandsOn (area_of parts.now) (states_of states.now) at code handed.now) }
{
    if goes_on(code) && !hands(handed, states, registers, at + 1) {
        return Ok(false);
    }
    let found = hands_named(alloc, parts, states, registers, code, handed)?;
    Ok(found)
}

/// The state that an instruction hands on, where it finds what it needs and there is room for it.
fn step(
    alloc: Global,
    parts: &CodeParts,
    states: &[PlaceState],
    at: usize,
    code: Code,
    state: &PlaceState,
) -> Result<Option<Handed>, NoMemory>
    ensures { IfOk result (λ o. MatchOption o
        (¬ LeadsOn (area_of parts.now) (states_of states.now) at code (state_of state.now))
        (IsHandedOn (area_of parts.now).entries code (state_of state.now))) }
{
    let mut handed = Handed::from_state(alloc, state)?;
    if !handed.needs(&parts.entries, code) {
        return Ok(None);
    }
    if makes_too_much(states, at, code) {
        return Ok(None);
    }
    handed.change(alloc, code)?;
    Ok(Some(handed))
}

/// Whether an instruction makes a frame for a next place that has no state.
fn makes_unseen(states: &[PlaceState], at: usize, code: Code) -> bool
    requires { at < length states.now }
    ensures past { IsTrue result → length states.now ≤ at + 1 }
    ensures makes { IsTrue result → (count : ℕ) × (code ≡ Allocate count) }
{
    match code {
        Code::Allocate(_) => at + 1 >= states.len(),
        _ => false,
    }
}

/// Whether an instruction finds what it needs in the state of its place.
fn finds(alloc: Global, parts: &CodeParts, code: Code, state: &PlaceState) -> Result<bool, NoMemory>
    ensures { IfOk result
        (λ b. b ≡ its_needs (area_of parts.now).entries code (state_of state.now)) }
{
    let handed = Handed::from_state(alloc, state)?;
    Ok(handed.needs(&parts.entries, code))
}

/// Whether an instruction finds what it needs in the state of its place, and hands on what covers
/// the states of the places that it leads to, of those that have one.
fn leads_from(
    alloc: Global,
    parts: &CodeParts,
    states: &[PlaceState],
    registers: &[Vec<usize>],
    at: usize,
    code: Code,
    state: &PlaceState,
) -> Result<bool, NoMemory>
    requires registers { AreRegisters states.now registers.now }
    requires within { at < length states.now }
    ensures { IfOk result (λ b. IsTrue b
        ↔ LeadsOn (area_of parts.now) (states_of states.now) at code (state_of state.now)) }
{
    if makes_unseen(states, at, code) {
        let is_found = finds(alloc, parts, code, state)?;
        return Ok(is_found);
    }
    match step(alloc, parts, states, at, code, state)? {
        None => Ok(false),
        Some(handed) => {
            let found = hands_on(alloc, parts, states, registers, at, code, &handed)?;
            Ok(found)
        }
    }
}

/// Whether the place's instruction finds what it needs in its state, where it has one, and hands on
/// what covers the states of the places that it leads to, of those that have one. Their registers
/// are these.
pub fn leads(
    alloc: Global,
    parts: &CodeParts,
    states: &[PlaceState],
    registers: &[Vec<usize>],
    at: usize,
) -> Result<bool, NoMemory>
    requires registers { AreRegisters states.now registers.now }
    requires within { at < length (area_of parts.now).code }
    ensures { IfOk result (λ b. IsTrue b ↔ ((i : AnyCode) (s : State)
        → Holds (area_of parts.now) at i → HasState (states_of states.now) at s
        → LeadsOn (area_of parts.now) (states_of states.now) at i s)) }
{
    if at < states.len() {
        let found = leads_from(
            alloc,
            parts,
            states,
            registers,
            at,
            parts.code[at],
            &states[at],
        )?;
        Ok(found)
    } else {
        Ok(true)
    }
}
