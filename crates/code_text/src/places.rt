//! The conditions of the code's places.

ghost use Rattle.std.specs.Prelude.{◌≡◌, ◌⊎◌, ◌<◌, ◌+◌, ◌↔◌, ℕ, length, suc, true, false, IsTrue, IfOk, OnOk, Some};
ghost use Rattle.fd_language.specs.Family.{has};
ghost use Rattle.wam_code.specs.declared.instruction.Code.{Code as AnyCode};
ghost use Rattle.wam_code.specs.declared.instruction.Code.TheVariants.{AnswerNow};
ghost use Rattle.wam_code.specs.Area.{Holds, area_of};
ghost use Rattle.wam_code.specs.VerifiedCode as verified;
ghost use Rattle.wam_code.specs.VerifiedCode.{HoldsOne};
ghost use Rattle.code_flow.specs.Successors.{AreRegisters};
ghost use Rattle.code_flow.specs.PlaceConditions.{FitsInstruction, FitsBefore, IsLast};
ghost use Rattle.code_text.specs.Places.{FitsPlace, LiesAhead, HasChoices, FitsOther, FitsBehind};
ghost use Rattle.code_text.specs.Predecessors as reached;
ghost use Rattle.code_text.specs.Predecessors.{IsReach, namers_at};
ghost use Rattle.code_listing.specs.States.{states_of};
ghost use Rattle.code_text.specs.FaultPlaces.{IsTold, TellsFaults};

use crate::least_place::First;
use crate::place_predecessors::{Namers, Reach, other_of};
use crate::reference_checks::{has_keys, is_there};
use code_flow::{goes_on, leads, named_by, rows_of};
use code_listing::PlaceState;
use fd_language::NoMemory;
use std::alloc::Global;
use wam_code::{Code, CodeParts};

/// Whether the instruction is RetryMeElse or TrustMe.
fn is_other(code: Code) -> bool
    ensures { result ≡ verified.is_other code }
{
    match code {
        Code::RetryMeElse(_) => true,
        Code::TrustMe => true,
        _ => false,
    }
}

/// Whether the instruction is Try or Retry.
fn is_before(code: Code) -> bool
    ensures { result ≡ verified.is_before code }
{
    match code {
        Code::Try(_) => true,
        Code::Retry(_) => true,
        _ => false,
    }
}

/// Whether the instruction is Retry or Trust.
fn is_behind(code: Code) -> bool
    ensures { result ≡ verified.is_behind code }
{
    match code {
        Code::Retry(_) => true,
        Code::Trust(_) => true,
        _ => false,
    }
}

/// Whether another part of a choice begins at a place.
fn holds_other(parts: &CodeParts, at: usize) -> bool
    ensures { IsTrue result ↔ HoldsOne (area_of parts.now) verified.is_other at }
{
    if at < parts.code.len() {
        is_other(parts.code[at])
    } else {
        false
    }
}

/// Whether Try or Retry stands at a place.
fn holds_before(parts: &CodeParts, at: usize) -> bool
    ensures { IsTrue result ↔ HoldsOne (area_of parts.now) verified.is_before at }
{
    if at < parts.code.len() {
        is_before(parts.code[at])
    } else {
        false
    }
}

/// Whether Retry or Trust stands at a place.
fn holds_behind(parts: &CodeParts, at: usize) -> bool
    ensures { IsTrue result ↔ HoldsOne (area_of parts.now) verified.is_behind at }
{
    if at < parts.code.len() {
        is_behind(parts.code[at])
    } else {
        false
    }
}

/// Whether an instruction that hands its state to the next place stands at a place.
fn holds_going_on(parts: &CodeParts, at: usize) -> bool
    ensures { IsTrue result ↔ HoldsOne (area_of parts.now) verified.goes_on at }
{
    if at < parts.code.len() {
        goes_on(parts.code[at])
    } else {
        false
    }
}

/// Whether these places are behind a place and in the code.
fn are_ahead(named: &[usize], at: usize, end: usize) -> bool
    ensures { IsTrue result ↔ ((to : ℕ) → IsTrue (has named.now to) → (at < to) × (to < end)) }
{
    for (index, to) in named.iter().enumerate() {
        if *to <= at {
            return false;
        }
        if *to >= end {
            return false;
        }
    }
    true
}

/// Whether another place follows, where the instruction falls into it.
fn has_next(parts: &CodeParts, at: usize, code: Code) -> bool
    requires { at < length (area_of parts.now).code }
    ensures { IsTrue result ↔ (IsTrue (verified.goes_on code)
        → at + 1 < length (area_of parts.now).code) }
{
    if goes_on(code) {
        at + 1 < parts.code.len()
    } else {
        true
    }
}

/// Whether what the instruction leads to is there, and lies ahead where it is named.
fn lies_ahead(alloc: Global, parts: &CodeParts, at: usize) -> Result<bool, NoMemory>
    requires { at < length (area_of parts.now).code }
    ensures { IfOk result (λ b. IsTrue b ↔ LiesAhead (area_of parts.now) at) }
{
    let code = parts.code[at];
    if !has_next(parts, at, code) {
        return Ok(false);
    }
    let named = named_by(alloc, parts, code)?;
    let is_ahead = are_ahead(&named, at, parts.code.len());
    Ok(is_ahead)
}

/// Whether the other part of a choice is there, where the instruction names one.
fn has_other(parts: &CodeParts, code: Code) -> bool
    ensures { IsTrue result ↔ ((to : ℕ) → reached.other_of code ≡ Some to
        → HoldsOne (area_of parts.now) verified.is_other to) }
{
    match other_of(code) {
        None => true,
        Some(to) => holds_other(parts, to),
    }
}

/// Whether Retry or Trust stands at the next place, where Try or Retry stands at the place.
fn has_behind(parts: &CodeParts, at: usize) -> bool
    requires { at < length (area_of parts.now).code }
    ensures { IsTrue result ↔ (HoldsOne (area_of parts.now) verified.is_before at
        → HoldsOne (area_of parts.now) verified.is_behind (at + 1)) }
{
    if holds_before(parts, at) {
        holds_behind(parts, at + 1)
    } else {
        true
    }
}

/// Whether the choices that the instruction names or stands before are there.
fn has_choices(parts: &CodeParts, at: usize) -> bool
    requires { at < length (area_of parts.now).code }
    ensures { IsTrue result ↔ HasChoices (area_of parts.now) at }
{
    if !has_other(parts, parts.code[at]) {
        return false;
    }
    has_behind(parts, at)
}

/// Whether the place before falls into the place.
fn falls_from_before(parts: &CodeParts, at: usize) -> bool
    ensures { IsTrue result ↔ ((from : ℕ) × verified.Falls (area_of parts.now) from at) }
{
    if at > 0 {
        holds_going_on(parts, at - 1)
    } else {
        false
    }
}

/// Whether Try or Retry stands before the place.
fn stands_behind(parts: &CodeParts, at: usize) -> bool
    ensures { IsTrue result ↔ ((from : ℕ) × (at ≡ suc from)
        × HoldsOne (area_of parts.now) verified.is_before from) }
{
    if at > 0 {
        holds_before(parts, at - 1)
    } else {
        false
    }
}

/// Whether one instruction names the place.
fn has_one(namers: Namers) -> bool
    ensures { IsTrue result ↔ (namers ≡ Namers.One) }
{
    match namers {
        Namers::One => true,
        _ => false,
    }
}

/// Whether none does.
fn has_none(namers: Namers) -> bool
    ensures { IsTrue result ↔ (namers ≡ Namers.Nobody) }
{
    match namers {
        Namers::Nobody => true,
        _ => false,
    }
}

/// How many instructions name the place as the other part of a choice.
fn namers_of(reach: &Reach, at: usize) -> Namers
    ensures { result ≡ namers_at reach.now.namers.items at }
{
    if at < reach.namers.len() {
        reach.namers[at]
    } else {
        Namers::Nobody
    }
}

/// Whether no predicate and no query begins at the place.
fn is_no_start(parts: &CodeParts, reach: &Reach, at: usize) -> bool
    requires { IsReach (area_of parts.now) reach.now }
    ensures { IsTrue result ↔ verified.IsNoStart (area_of parts.now) at }
{
    !reach.starts.contains(&at)
}

/// Whether the place where another part of a choice begins is reached from the part before it
/// alone.
fn fits_other(parts: &CodeParts, reach: &Reach, at: usize) -> bool
    requires within { at < length (area_of parts.now).code }
    requires reach { IsReach (area_of parts.now) reach.now }
    ensures { IsTrue result ↔ FitsOther (area_of parts.now) at }
{
    if !has_one(namers_of(reach, at)) {
        return false;
    }
    if reach.plain.contains(&at) {
        return false;
    }
    if falls_from_before(parts, at) {
        return false;
    }
    is_no_start(parts, reach, at)
}

/// The same of Retry and Trust.
fn fits_behind(parts: &CodeParts, reach: &Reach, at: usize) -> bool
    requires within { at < length (area_of parts.now).code }
    requires reach { IsReach (area_of parts.now) reach.now }
    ensures { IsTrue result ↔ FitsBehind (area_of parts.now) at }
{
    if !stands_behind(parts, at) {
        return false;
    }
    if !has_none(namers_of(reach, at)) {
        return false;
    }
    if reach.plain.contains(&at) {
        return false;
    }
    is_no_start(parts, reach, at)
}

/// Whether the place is named, fallen into and preceded as it may be.
fn fits_before(parts: &CodeParts, reach: &Reach, at: usize) -> bool
    requires within { at < length (area_of parts.now).code }
    requires reach { IsReach (area_of parts.now) reach.now }
    ensures { IsTrue result ↔ FitsBefore (area_of parts.now) at }
{
    if holds_other(parts, at) {
        fits_other(parts, reach, at)
    } else if holds_behind(parts, at) {
        fits_behind(parts, reach, at)
    } else {
        true
    }
}

/// Whether the instruction is an answer.
pub(crate) fn is_answer(code: Code) -> bool
    ensures { IsTrue result ↔ (code ≡ AnswerNow) }
{
    match code {
        Code::AnswerNow => true,
        _ => false,
    }
}

/// Whether the place is the last one of a query.
fn is_last(parts: &CodeParts, reach: &Reach, at: usize) -> bool
    requires within { at < length (area_of parts.now).code }
    requires reach { IsReach (area_of parts.now) reach.now }
    ensures { IsTrue result ↔ IsLast (area_of parts.now) at }
{
    reach.ends.contains(&(at + 1))
}

/// Whether the place is the last one of a query, where it answers.
fn fits_answer(parts: &CodeParts, reach: &Reach, at: usize) -> bool
    requires within { at < length (area_of parts.now).code }
    requires reach { IsReach (area_of parts.now) reach.now }
    ensures { IsTrue result
        ↔ (Holds (area_of parts.now) at AnswerNow → IsLast (area_of parts.now) at) }
{
    if is_answer(parts.code[at]) {
        is_last(parts, reach, at)
    } else {
        true
    }
}

/// Whether the place's own instruction meets its conditions.
fn fits_instruction(
    alloc: Global,
    parts: &CodeParts,
    states: &[PlaceState],
    registers: &[Vec<usize>],
    at: usize,
) -> Result<bool, NoMemory>
    requires registers { AreRegisters states.now registers.now }
    requires within { at < length (area_of parts.now).code }
    ensures { IfOk result (λ b. IsTrue b ↔ ((i : AnyCode) → Holds (area_of parts.now) at i
        → FitsInstruction (area_of parts.now) (states_of states.now) at i)) }
{
    let code = parts.code[at];
    if !is_there(parts, code) {
        return Ok(false);
    }
    if !has_keys(parts, rows_of(parts, code)) {
        return Ok(false);
    }
    if !has_choices(parts, at) {
        return Ok(false);
    }
    let is_ahead = lies_ahead(alloc, parts, at)?;
    if !is_ahead {
        return Ok(false);
    }
    let is_led = leads(alloc, parts, states, registers, at)?;
    Ok(is_led)
}

/// Whether the place meets its conditions.
fn fits_place(
    alloc: Global,
    parts: &CodeParts,
    states: &[PlaceState],
    registers: &[Vec<usize>],
    reach: &Reach,
    at: usize,
) -> Result<bool, NoMemory>
    requires registers { AreRegisters states.now registers.now }
    requires within { at < length (area_of parts.now).code }
    requires reach { IsReach (area_of parts.now) reach.now }
    ensures { IfOk result
        (λ b. IsTrue b ↔ FitsPlace (area_of parts.now) (states_of states.now) at) }
{
    if !fits_before(parts, reach, at) {
        return Ok(false);
    }
    if !fits_answer(parts, reach, at) {
        return Ok(false);
    }
    let is_right = fits_instruction(alloc, parts, states, registers, at)?;
    Ok(is_right)
}

/// Tells a place that doesn't meet its conditions.
fn tell_place(
    alloc: Global,
    parts: &CodeParts,
    states: &[PlaceState],
    registers: &[Vec<usize>],
    reach: &Reach,
    at: usize,
    first: &mut First,
) -> Result<(), NoMemory>
    requires registers { AreRegisters states.now registers.now }
    requires within { at < length (area_of parts.now).code }
    requires reach { IsReach (area_of parts.now) reach.now }
    ensures found { OnOk result (FitsPlace (area_of parts.now) (states_of states.now) at
        ⊎ IsTold first.new.place at) }
    ensures tells { TellsFaults (area_of parts.now) (states_of states.now)
        first.old.place first.new.place }
{
    let is_right = fits_place(alloc, parts, states, registers, reach, at)?;
    if !is_right {
        first.tell(at);
    }
    Ok(())
}

/// Tells the places that don't meet their conditions.
pub(crate) fn tell_places(
    alloc: Global,
    parts: &CodeParts,
    states: &[PlaceState],
    registers: &[Vec<usize>],
    reach: &Reach,
    first: &mut First,
) -> Result<(), NoMemory>
    requires registers { AreRegisters states.now registers.now }
    requires reach { IsReach (area_of parts.now) reach.now }
    ensures found { OnOk result ((at : ℕ) → at < length (area_of parts.now).code
        → FitsPlace (area_of parts.now) (states_of states.now) at ⊎ IsTold first.new.place at) }
    ensures tells { OnOk result (TellsFaults (area_of parts.now) (states_of states.now)
        first.old.place first.new.place) }
{
    for at in 0..parts.code.len() {
        tell_place(alloc, parts, states, registers, reach, at, first)?;
    }
    Ok(())
}
