//! States with which predicates and queries begin.

ghost use Rattle.std.specs.Prelude.{◌≡◌, ◌<◌, ◌≤◌, ◌+◌, ◌^◌, ◌↔◌, ℕ, true, None, IsTrue, IfOk};
ghost use Rattle.fd_language.specs.Family.{has};
ghost use Rattle.wam_code.specs.VerifiedCode.{BeginsWith};
ghost use Rattle.code_text.specs.LocalConditions.{IsFirstCount, AreFirstCounts};
ghost use Rattle.code_listing.specs.States.{state_of, states_of};

use crate::owners::{is_same, owner_at};
use code_flow::set_of;
use code_listing::PlaceState;
use fd_language::NoMemory;
use indexmap::IndexSet;
use std::alloc::Global;

/// How many numbers from 1 on are in the set, up to 255.
fn count_from_one(set: &IndexSet<usize>) -> usize
    ensures within { result < 2 ^ 8 }
    ensures there { (n : ℕ) → 1 ≤ n → n ≤ result → IsTrue (has set.now.keys n) }
    ensures next { result < 255 → IsTrue (has set.now.keys (result + 1)) → ⊥ }
{
    for count in 0..255 {
        if !set.contains(&(count + 1)) {
            return count;
        }
    }
    255
}

/// Whether all numbers are from 1 to this one.
fn are_up_to(numbers: &[usize], count: usize) -> bool
    ensures { IsTrue result
        ↔ ((n : ℕ) → has numbers.now n ≡ true → (1 ≤ n) × (n ≤ count)) }
{
    for (index, number) in numbers.iter().enumerate() {
        if *number == 0 {
            return false;
        }
        if *number > count {
            return false;
        }
    }
    true
}

/// Whether all registers of a state are from 1 to this one.
fn has_up_to(state: &PlaceState, count: usize) -> bool
    ensures { IsTrue result ↔ ((n : ℕ) → has (state_of state.now).regs n ≡ true
        → (1 ≤ n) × (n ≤ count)) }
{
    are_up_to(&state.regs, count)
}

/// The registers of a state in a set.
fn register_set(alloc: Global, state: &PlaceState) -> Result<IndexSet<usize>, NoMemory>
    ensures { IfOk result (λ s. (n : ℕ) → has s.keys n ≡ has (state_of state.now).regs n) }
{
    set_of(alloc, &state.regs)
}

/// Whether nothing is owed, and there is no frame.
fn is_bare(state: &PlaceState) -> bool
    ensures { IsTrue result
        ↔ ((state_of state.now).frame ≡ None) × ((state_of state.now).owed ≡ 0) }
{
    state.frame.is_none() && state.owed == 0
}

/// The number of arguments of a predicate whose code may begin with the state.
fn first_count(alloc: Global, state: &PlaceState) -> Result<Option<usize>, NoMemory>
    ensures { IfOk result (IsFirstCount (state_of state.now)) }
{
    if !is_bare(state) {
        return Ok(None);
    }
    let set = register_set(alloc, state)?;
    let count = count_from_one(&set);
    if has_up_to(state, count) {
        Ok(Some(count))
    } else {
        Ok(None)
    }
}

/// The same of each state.
pub(crate) fn first_counts(
    alloc: Global,
    states: &[PlaceState],
) -> Result<Vec<Option<usize>>, NoMemory>
    ensures { IfOk result (λ v. AreFirstCounts (states_of states.now) v.items) }
{
    let mut counts = Vec::with_capacity(alloc, states.len())?;
    for at in 0..states.len() {
        let count = first_count(alloc, &states[at])?;
        counts.push(count)?;
    }
    Ok(counts)
}

/// Whether the state of a place is one with which a predicate of so many arguments begins.
pub(crate) fn begins(
    states: &[PlaceState],
    counts: &[Option<usize>],
    at: usize,
    count: usize,
) -> bool
    requires counts { AreFirstCounts (states_of states.now) counts.now }
    requires small { count < 2 ^ 8 }
    ensures { IsTrue result ↔ BeginsWith (states_of states.now) at count }
{
    if at < states.len() {
        is_same(owner_at(counts, at), Some(count))
    } else {
        false
    }
}
