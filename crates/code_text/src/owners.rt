//! The query that each place is in.

ghost use Rattle.std.specs.Prelude.{◌≡◌, ◌↔◌, ◌+◌, ℕ, List, None, Some, length, replicate, IsTrue, IfOk, MatchOption};
ghost use Rattle.wam_code.specs.Area.{State, Span, HasQuery, area_of, span_of};
ghost use Rattle.code_text.specs.FaultPlaces.{IsTold, Tells, TellsFaults};
ghost use Rattle.code_text.specs.Owners.{owner_at as its_owner, AreBegins, AreOwners, GoesOn, IsOwnersPlace, IsOwnerTold};

use crate::least_place::First;
use fd_language::NoMemory;
use std::alloc::Global;
use wam_code::{CodeParts, QueryEntry};

/// The number of the query that the place is in.
pub(crate) fn owner_at(owners: &[Option<usize>], place: usize) -> Option<usize>
    ensures { result ≡ its_owner owners.now place }
{
    if place < owners.len() {
        owners[place]
    } else {
        None
    }
}

/// Whether the place is in no query.
fn is_free(owners: &[Option<usize>], place: usize) -> bool
    ensures { IsTrue result ↔ (its_owner owners.now place ≡ None) }
{
    is_same(owner_at(owners, place), None)
}

/// Whether two owners are the same.
pub(crate) fn is_same(one: Option<usize>, two: Option<usize>) -> bool
    ensures { IsTrue result ↔ (one ≡ two) }
{
    match (one, two) {
        (None, None) => true,
        (Some(number), Some(other)) => number == other,
        _ => false,
    }
}

/// The query with this number.
pub(crate) fn query_at(parts: &CodeParts, number: usize) -> Option<&QueryEntry>
    ensures { MatchOption result ((q : Span) → ¬ HasQuery (area_of parts.now) number q)
        (λ q. HasQuery (area_of parts.now) number (span_of q.now)) }
{
    if number < parts.queries.len() {
        Some(&parts.queries[number])
    } else {
        None
    }
}

/// Tells where the query with this number begins.
fn tell_number(parts: &CodeParts, number: usize, first: &mut First)
    ensures told { (q : Span) → HasQuery (area_of parts.now) number q
        → IsTold first.new.place q.at }
    ensures tells { Tells (λ p. (q : Span) × HasQuery (area_of parts.now) number q × (p ≡ q.at))
        first.old.place first.new.place }
{
    match query_at(parts, number) {
        None => {}
        Some(query) => first.tell(query.at),
    }
}

/// Tells where the query begins that the owner is, if there is one.
pub(crate) fn tell_owner(parts: &CodeParts, owner: Option<usize>, first: &mut First)
    ensures told { IsOwnerTold (area_of parts.now) owner first.new.place }
    ensures tells { Tells (IsOwnersPlace (area_of parts.now) owner)
        first.old.place first.new.place }
{
    match owner {
        None => {}
        Some(number) => tell_number(parts, number, first),
    }
}

/// No query at all.
fn no_owners(alloc: Global, count: usize) -> Result<Vec<Option<usize>>, NoMemory>
    ensures { IfOk result (λ v. v.items ≡ replicate count None) }
{
    Ok(vec![in alloc; None; count]?)
}

/// Notes where a query begins.
fn put_query(
    parts: &CodeParts,
    begins: &mut Vec<Option<usize>>,
    number: usize,
    query: &QueryEntry,
    first: &mut First,
)
    requires size { length begins.old.items ≡ length (area_of parts.now).code }
    requires query { HasQuery (area_of parts.now) number (span_of query.now) }
    ensures begins { AreBegins (area_of parts.now) number first.old.place begins.old.items
        → AreBegins (area_of parts.now) (number + 1) first.new.place begins.new.items }
    ensures tells { (ss : List State)
        → AreBegins (area_of parts.now) number first.old.place begins.old.items
        → TellsFaults (area_of parts.now) ss first.old.place first.new.place }
    ensures len { length begins.new.items ≡ length begins.old.items }
{
    if query.at >= query.end {
        return;
    }
    if query.at >= begins.len() {
        return;
    }
    if !is_free(begins, query.at) {
        first.tell(query.at);
        return;
    }
    begins[query.at] = Some(number);
}

/// Notes where the query with this number begins.
fn put_begin(parts: &CodeParts, begins: &mut Vec<Option<usize>>, number: usize, first: &mut First)
    requires { length begins.old.items ≡ length (area_of parts.now).code }
    ensures begins { AreBegins (area_of parts.now) number first.old.place begins.old.items
        → AreBegins (area_of parts.now) (number + 1) first.new.place begins.new.items }
    ensures tells { (ss : List State)
        → AreBegins (area_of parts.now) number first.old.place begins.old.items
        → TellsFaults (area_of parts.now) ss first.old.place first.new.place }
    ensures len { length begins.new.items ≡ length begins.old.items }
{
    match query_at(parts, number) {
        None => {}
        Some(query) => put_query(parts, begins, number, query, first),
    }
}

/// Where queries begin. Where two begin at one place, that is told.
pub(crate) fn begins_of(
    alloc: Global,
    parts: &CodeParts,
    first: &mut First,
) -> Result<Vec<Option<usize>>, NoMemory>
    ensures begins { IfOk result (λ v. AreBegins (area_of parts.now)
        (length (area_of parts.now).queries) first.new.place v.items) }
    ensures tells { (ss : List State)
        → TellsFaults (area_of parts.now) ss first.old.place first.new.place }
    ensures len { IfOk result (λ v. length v.items ≡ length (area_of parts.now).code) }
{
    let mut begins = no_owners(alloc, parts.code.len())?;
    for number in 0..parts.queries.len() {
        put_begin(parts, &mut begins, number, first);
    }
    Ok(begins)
}

/// The query that goes on from the place before, where it does.
fn going_on(parts: &CodeParts, last: Option<usize>, at: usize) -> Option<usize>
    ensures { GoesOn (area_of parts.now) last at result }
{
    match last {
        None => None,
        Some(number) => match query_at(parts, number) {
            None => None,
            Some(query) => { if at < query.end { Some(number) } else { None } }
        },
    }
}

/// The query that a place is in: one that begins there, and else the one that goes on. Where both
/// are there, the one that goes on is told.
fn owner_of(
    parts: &CodeParts,
    begun: Option<usize>,
    stays: Option<usize>,
    first: &mut First,
) -> Option<usize>
    ensures begun { (n : ℕ) → begun ≡ Some n → result ≡ Some n }
    ensures stays { begun ≡ None → result ≡ stays }
    ensures told { (n : ℕ) → begun ≡ Some n
        → IsOwnerTold (area_of parts.now) stays first.new.place }
    ensures tells { Tells (λ p. ((n : ℕ) × (begun ≡ Some n))
        × IsOwnersPlace (area_of parts.now) stays p) first.old.place first.new.place }
{
    match begun {
        None => stays,
        Some(number) => {
            tell_owner(parts, stays, first);
            Some(number)
        }
    }
}

/// The query that each place is in. Where queries share a place, they are told.
pub(crate) fn owners_of(
    alloc: Global,
    parts: &CodeParts,
    begins: &[Option<usize>],
    first: &mut First,
) -> Result<Vec<Option<usize>>, NoMemory>
    requires begins { AreBegins (area_of parts.now) (length (area_of parts.now).queries)
        first.old.place begins.now }
    requires size { length begins.now ≡ length (area_of parts.now).code }
    ensures owners { IfOk result
        (λ v. AreOwners (area_of parts.now) (length begins.now) first.new.place v.items) }
    ensures tells { IfOk result (λ v. (ss : List State)
        → TellsFaults (area_of parts.now) ss first.old.place first.new.place) }
{
    let mut owners = Vec::with_capacity(alloc, begins.len())?;
    let mut last = None;
    for at in 0..begins.len() {
        let stays = going_on(parts, last, at);
        let begun = owner_at(begins, at);
        last = owner_of(parts, begun, stays, first);
        owners.push(last)?;
    }
    Ok(owners)
}
