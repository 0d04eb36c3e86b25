//! How places are reached.

ghost use Rattle.std.specs.Prelude.{◌≡◌, ◌+◌, ◌<◌, ◌↔◌, ◌++◌, ℕ, nat_lt, length, filter, map, replicate, IsTrue, IfOk, OnOk};
ghost use Rattle.fd_language.specs.Family.{has};
ghost use Rattle.wam_code.specs.Area.{area_of};
ghost use Rattle.code_text.specs.Predecessors as reached;
ghost use Rattle.code_text.specs.Predecessors.{AreNamers, IsNamedPlainly, IsReach, namers_at, with_one};

use code_flow::{put_named, set_of};
use fd_language::NoMemory;
use indexmap::IndexSet;
use std::alloc::Global;
use wam_code::{Code, CodeParts};

/// How many instructions name a place as the other part of a choice.
#[derive(Clone, Copy)]
pub(crate) enum Namers {
    Nobody,
    One,
    More,
}

/// How the places of code are reached.
#[derive(Drop)]
pub(crate) struct Reach {
    /// For each place, how many instructions name it as the other part of a choice.
    pub namers: Vec<Namers>,
    /// The places that are named in another way.
    pub plain: IndexSet<usize>,
    /// The places where predicates and queries begin.
    pub starts: IndexSet<usize>,
    /// The places behind queries that aren't empty.
    pub ends: IndexSet<usize>,
}

/// The other part of a choice that an instruction names.
pub(crate) fn other_of(code: Code) -> Option<usize>
    ensures { result ≡ reached.other_of code }
{
    match code {
        Code::TryMeElse(to) => Some(to),
        Code::RetryMeElse(to) => Some(to),
        _ => None,
    }
}

/// One more of them.
fn one_more(namers: Namers) -> Namers
    ensures { result ≡ with_one namers }
{
    match namers {
        Namers::Nobody => Namers::One,
        Namers::One => Namers::More,
        Namers::More => Namers::More,
    }
}

/// Notes what the instruction at a place names as the other part of a choice.
fn put_other(parts: &CodeParts, namers: &mut [Namers], at: usize)
    requires { at < length (area_of parts.now).code }
    ensures { (p : ℕ) → p < length namers.old
        → AreNamers (area_of parts.now) at p (namers_at namers.old p)
        → AreNamers (area_of parts.now) (at + 1) p (namers_at namers.new p) }
{
    match other_of(parts.code[at]) {
        None => {}
        Some(to) => {
            if to < namers.len() {
                namers[to] = one_more(namers[to]);
            }
        }
    }
}

/// No place is named.
fn no_namers(alloc: Global, count: usize) -> Result<Vec<Namers>, NoMemory>
    ensures { IfOk result (λ v. v.items ≡ replicate count Namers.Nobody) }
{
    Ok(vec![in alloc; Namers::Nobody; count]?)
}

/// How many instructions name each place as the other part of a choice.
fn namers_of(alloc: Global, parts: &CodeParts) -> Result<Vec<Namers>, NoMemory>
    ensures { IfOk result (λ v. (p : ℕ) → p < length (area_of parts.now).code → AreNamers
        (area_of parts.now) (length (area_of parts.now).code) p (namers_at v.items p)) }
{
    let mut namers = no_namers(alloc, parts.code.len())?;
    for at in 0..parts.code.len() {
        put_other(parts, &mut namers, at);
    }
    Ok(namers)
}

/// Puts what the instruction at a place names in another way behind the others.
fn put_plain(parts: &CodeParts, named: &mut Vec<usize>, at: usize) -> Result<(), NoMemory>
    requires { at < length (area_of parts.now).code }
    ensures { OnOk result ((p : ℕ)
        → (IsTrue (has named.old.items p) ↔ IsNamedPlainly (area_of parts.now) at p)
        → IsTrue (has named.new.items p) ↔ IsNamedPlainly (area_of parts.now) (at + 1) p) }
{
    let code = parts.code[at];
    match other_of(code) {
        None => {
            put_named(named, parts, code)?;
            Ok(())
        }
        Some(_) => Ok(()),
    }
}

/// The places that are named in another way.
fn plain_places(alloc: Global, parts: &CodeParts) -> Result<Vec<usize>, NoMemory>
    ensures { IfOk result (λ v. (p : ℕ) → IsTrue (has v.items p)
        ↔ IsNamedPlainly (area_of parts.now) (length (area_of parts.now).code) p) }
{
    let mut named = Vec::new(alloc);
    for at in 0..parts.code.len() {
        put_plain(parts, &mut named, at)?;
    }
    Ok(named)
}

/// Where predicates begin.
fn entry_places(alloc: Global, parts: &CodeParts) -> Result<Vec<usize>, NoMemory>
    ensures { IfOk result (λ v. v.items ≡ map (λ e. e.at) (area_of parts.now).entries) }
{
    Ok(parts.entries.iter().map(|entry| entry.at).collect(alloc)?)
}

/// Where queries begin.
fn query_places(alloc: Global, parts: &CodeParts) -> Result<Vec<usize>, NoMemory>
    ensures { IfOk result (λ v. v.items ≡ map (λ q. q.at) parts.now.queries.items) }
{
    Ok(parts.queries.iter().map(|query| query.at).collect(alloc)?)
}

/// The places behind queries that aren't empty.
fn query_ends(alloc: Global, parts: &CodeParts) -> Result<Vec<usize>, NoMemory>
    ensures { IfOk result (λ v. v.items
        ≡ map (λ q. q.end) (filter (λ q. nat_lt q.at q.end) parts.now.queries.items)) }
{
    Ok(
        parts
            .queries
            .iter()
            .filter(|query| query.at < query.end)
            .map(|query| query.end)
            .collect(alloc)?,
    )
}

/// The places where predicates and queries begin.
fn starts_of(alloc: Global, parts: &CodeParts) -> Result<Vec<usize>, NoMemory>
    ensures { IfOk result (λ v. v.items ≡ map (λ e. e.at) (area_of parts.now).entries
        ++ map (λ q. q.at) parts.now.queries.items) }
{
    let mut places = entry_places(alloc, parts)?;
    let queries = query_places(alloc, parts)?;
    places.extend_from_slice(&queries)?;
    Ok(places)
}

/// How the places of code are reached.
pub(crate) fn reach_of(alloc: Global, parts: &CodeParts) -> Result<Reach, NoMemory>
    ensures { IfOk result (IsReach (area_of parts.now)) }
{
    let namers = namers_of(alloc, parts)?;
    let plain_named = plain_places(alloc, parts)?;
    let plain = set_of(alloc, &plain_named)?;
    let begun = starts_of(alloc, parts)?;
    let starts = set_of(alloc, &begun)?;
    let ended = query_ends(alloc, parts)?;
    let ends = set_of(alloc, &ended)?;
    Ok(Reach {
        namers,
        plain,
        starts,
        ends,
    })
}
