//! Instructions that leave or enter queries.

ghost use Rattle.std.specs.Prelude.{◌≡◌, ◌+◌, ◌<◌, ℕ, List, length, IsTrue, OnOk};
ghost use Rattle.fd_language.specs.Family.{has};
ghost use Rattle.wam_code.specs.Area.{State, area_of};
ghost use Rattle.wam_code.specs.VerifiedCode.{goes_on as its_goes_on};
ghost use Rattle.code_text.specs.FaultPlaces.{Tells, TellsFaults};
ghost use Rattle.code_text.specs.Owners.{owner_at as its_owner, AreOwners, IsCrossing, AreCrossings, IsOwnersPlace, IsOwnerTold, IsCrossed, leaves};

use crate::least_place::First;
use crate::owners::{is_same, owner_at, tell_owner};
use code_flow::{goes_on, named_by};
use fd_language::NoMemory;
use std::alloc::Global;
use wam_code::{Code, CodeParts};

/// Tells each query that one of two places is in and the other isn't.
fn tell_crossing(
    parts: &CodeParts,
    owners: &[Option<usize>],
    at: usize,
    to: usize,
    first: &mut First,
)
    ensures crossing { IsCrossing (area_of parts.now) owners.now first.new.place at to }
    ensures tells { Tells (IsCrossed (area_of parts.now) owners.now at to)
        first.old.place first.new.place }
{
    let from = owner_at(owners, at);
    let into = owner_at(owners, to);
    if !is_same(from, into) {
        tell_owner(parts, from, first);
        tell_owner(parts, into, first);
    }
}

/// Tells each query that only one of a place and of those that it names is in.
fn tell_named(
    parts: &CodeParts,
    owners: &[Option<usize>],
    at: usize,
    named: &[usize],
    first: &mut First,
)
    ensures crossings { (to : ℕ) → IsTrue (has named.now to)
        → IsCrossing (area_of parts.now) owners.now first.new.place at to }
    ensures tells { Tells (λ p. (to : ℕ) × IsTrue (has named.now to)
        × IsCrossed (area_of parts.now) owners.now at to p) first.old.place first.new.place }
{
    for (index, to) in named.iter().enumerate() {
        tell_crossing(parts, owners, at, *to, first);
    }
}

/// Tells the query that an instruction falls out of or into.
fn tell_fallen(
    parts: &CodeParts,
    owners: &[Option<usize>],
    at: usize,
    code: Code,
    first: &mut First,
)
    requires { at < length (area_of parts.now).code }
    ensures crossing { IsTrue (its_goes_on code)
        → IsCrossing (area_of parts.now) owners.now first.new.place at (at + 1) }
    ensures tells { Tells (λ p. IsTrue (its_goes_on code)
        × IsCrossed (area_of parts.now) owners.now at (at + 1) p)
        first.old.place first.new.place }
{
    if goes_on(code) {
        tell_crossing(parts, owners, at, at + 1, first);
    }
}

/// Whether an instruction leaves for what called it, or for another predicate.
fn is_leaving(code: Code) -> bool
    ensures { result ≡ leaves code }
{
    match code {
        Code::Proceed => true,
        Code::Execute(_) => true,
        _ => false,
    }
}

/// Tells the query that an instruction returns from.
fn tell_leaving(
    parts: &CodeParts,
    owners: &[Option<usize>],
    at: usize,
    code: Code,
    first: &mut First,
)
    ensures told { IsTrue (leaves code)
        → IsOwnerTold (area_of parts.now) (its_owner owners.now at) first.new.place }
    ensures tells { Tells (λ p. IsTrue (leaves code)
        × IsOwnersPlace (area_of parts.now) (its_owner owners.now at) p)
        first.old.place first.new.place }
{
    if is_leaving(code) {
        tell_owner(parts, owner_at(owners, at), first);
    }
}

/// Tells each query that the instruction at a place leaves or enters, or that it returns from.
fn tell_crossings(
    alloc: Global,
    parts: &CodeParts,
    owners: &[Option<usize>],
    at: usize,
    first: &mut First,
) -> Result<(), NoMemory>
    requires { at < length (area_of parts.now).code }
    ensures crossings { OnOk result
        (AreCrossings (area_of parts.now) owners.now first.new.place at) }
    ensures tells { (ss : List State)
        → AreOwners (area_of parts.now) (length (area_of parts.now).code)
        first.old.place owners.now
        → OnOk result (TellsFaults (area_of parts.now) ss first.old.place first.new.place) }
{
    let code = parts.code[at];
    let named = named_by(alloc, parts, code)?;
    tell_named(parts, owners, at, &named, first);
    tell_fallen(parts, owners, at, code, first);
    tell_leaving(parts, owners, at, code, first);
    Ok(())
}

/// Tells each query that an instruction leaves, enters or returns from.
pub(crate) fn tell_all_crossings(
    alloc: Global,
    parts: &CodeParts,
    owners: &[Option<usize>],
    first: &mut First,
) -> Result<(), NoMemory>
    requires { AreOwners (area_of parts.now) (length (area_of parts.now).code)
        first.old.place owners.now }
    ensures crossings { OnOk result ((at : ℕ) → at < length (area_of parts.now).code
        → AreCrossings (area_of parts.now) owners.now first.new.place at) }
    ensures tells { OnOk result ((ss : List State)
        → TellsFaults (area_of parts.now) ss first.old.place first.new.place) }
{
    for at in 0..parts.code.len() {
        tell_crossings(alloc, parts, owners, at, first)?;
    }
    Ok(())
}
