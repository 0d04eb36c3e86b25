//! Each parameter with its strongest need.

ghost use Rattle.std.specs.Prelude.{◌≡◌, ℕ, [], ◌∷◌, ◌++◌, reverse, IfOk, OnOk, map, nat_eq, nat_lt, if◌then◌else◌};
ghost use Rattle.std.specs.List.{position_or_len};
ghost use Rattle.fd_language.specs.Needs.{stronger as stronger_of};
ghost use Rattle.monotone_check.specs.PlaceNeeds.{told, raise};
ghost use Rattle.monotone_check.specs.JoinedNeeds.{put, put_all};

use crate::parameter_places::Asked;
use fd_language::{Need, NoMemory};
use indexmap::IndexSet;
use std::alloc::Global;

fn stronger(a: Need, b: Need) -> Need
    ensures { result ≡ stronger_of a b }
{
    match (a, b) {
        (Need::Divisor, _) | (_, Need::Divisor) => Need::Divisor,
        (Need::Natural, _) | (_, Need::Natural) => Need::Natural,
        (Need::Whole, Need::Whole) => Need::Whole,
    }
}

/// What a place asks for, where a natural term that ends there or behind begins at `lowest`.
fn need_at(need: Need, lowest: usize, number: usize) -> Need
    ensures { result ≡ (if nat_lt number lowest then need else raise need) }
{
    if number < lowest {
        need
    } else {
        stronger(need, Need::Natural)
    }
}

/// What is asked at each place, the last place first.
fn settled(alloc: Global, places: &[Asked]) -> Result<Vec<(u64, Need)>, NoMemory>
    ensures { IfOk result (λ v. v.items ≡ reverse (told 0 places.now)) }
{
    let mut asked = Vec::new(alloc);
    let mut lowest = places.len();
    let mut number = places.len();
    while number > 0 {
        number -= 1;
        let place = places[number];
        lowest = lowest.min(place.floor);
        asked.push((place.variable, need_at(place.need, lowest, number)))?;
    }
    Ok(asked)
}

/// One more place of the parameter with this number among those that were met.
fn join(
    needs: &mut Vec<(u64, Need)>,
    number: usize,
    variable: u64,
    need: Need,
) -> Result<(), NoMemory>
    ensures { OnOk result (number ≡ position_or_len (nat_eq variable)
        (map (λ d. d.0) needs.old.items) → needs.new.items ≡ put needs.old.items variable need) }
{
    if number < needs.len() {
        let found = needs[number];
        needs[number] = (found.0, stronger(found.1, need));
    } else {
        needs.push((variable, need))?;
    }
    Ok(())
}

/// Each parameter once, in the order of its first place, with the strongest need.
pub(crate) fn gather(alloc: Global, places: &[Asked]) -> Result<Vec<(u64, Need)>, NoMemory>
    ensures { IfOk result (λ v. v.items ≡ put_all [] (told 0 places.now)) }
{
    let asked = settled(alloc, places)?;
    let mut variables = IndexSet::new(alloc);
    let mut needs: Vec<(u64, Need)> = Vec::new(alloc);
    let mut left = asked.len();
    while left > 0 {
        left -= 1;
        let (variable, need) = asked[left];
        let (number, _) = variables.insert_full(variable)?;
        join(&mut needs, number, variable, need)?;
    }
    Ok(needs)
}
