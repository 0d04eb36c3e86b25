//! Whether a sheet names only what is there, line by line.

ghost use Rattle.std.specs.Prelude.{◌≡◌, ◌<◌, ◌++◌, [], None, not, length, map, string_bytes, IfOk, MatchOption};
ghost use Rattle.std.specs.List.{position};
ghost use Rattle.term_pool.specs.Contents.{Contents, first_names};
ghost use Rattle.wam_code.specs.Area.{span_of};
ghost use Rattle.code_listing.specs.Listing.{table_of};
ghost use Rattle.listing_reader.specs.Sheets.{sheet_in};
ghost use Rattle.listing_loader.specs.Marks as marks;
ghost use Rattle.listing_loader.specs.Marks.{atom_marks, counts_of, entry_mark, query_mark, instruction_mark, number_marks, AreRight, IsFirstWrong};

use crate::counts::Counts;
use crate::slots::has_slots_in_order;
use fd_language::{NoMemory, RangeNode};
use listing_reader::Sheet;
use term_pool::Pool;
use wam_code::{Code, Entry, Key, QueryEntry};

/// Puts the atoms into the pool. Gives the number of the first that is there already.
fn put_atoms(pool: &mut Pool, atoms: &[String]) -> Result<Option<usize>, NoMemory>
    ensures found { IfOk result (λ o. o
        ≡ position not (atom_marks pool.old.names (map string_bytes atoms.now))) }
    ensures within { IfOk result (λ o. MatchOption o (Unit {0}) (λ k. k < length atoms.now)) }
    ensures put { IfOk result (λ o. MatchOption o (pool.new ≡ record pool.old
        { names = pool.old.names ++ map string_bytes atoms.now }) (λ _. Unit {0})) }
{
    for (index, name) in atoms.iter().enumerate() {
        let before = pool.atoms();
        pool.atom(name.as_str())?;
        if pool.atoms() == before {
            return Ok(Some(index));
        }
    }
    Ok(None)
}

/// The number of the first range whose slots are out of order.
fn first_range(ranges: &[Vec<RangeNode>]) -> Option<usize>
    ensures { result ≡ position (λ r. not (marks.has_slots_in_order r.items)) ranges.now }
{
    ranges.iter().position(|nodes| !has_slots_in_order(nodes))
}

/// The number of the first predicate that names what isn't there.
fn first_entry(counts: Counts, entries: &[Entry]) -> Option<usize>
    ensures { result ≡ position (λ e. not (entry_mark counts e)) entries.now }
{
    entries.iter().position(|entry| !counts.has_entry(*entry))
}

/// The number of the first query that does.
fn first_query(counts: Counts, queries: &[QueryEntry]) -> Option<usize>
    ensures { result ≡ position (λ q. not (query_mark counts (span_of q))) queries.now }
{
    queries.iter().position(|query| !counts.has_query(query))
}

/// The first place that does, or whose table has its keys out of order.
fn first_place(counts: Counts, tables: &[Vec<(Key, usize)>], code: &[Code]) -> Option<usize>
    ensures { result ≡ position (λ i. not (instruction_mark counts
        (table_of (map (λ t. t.items) tables.now) i) i)) code.now }
{
    code.iter()
        .position(|instruction| !counts.has_place(tables, *instruction))
}

/// What is there.
fn counts_in(sheet: &Sheet) -> Counts
    ensures { result ≡ counts_of (sheet_in sheet.now) }
{
    Counts {
        atoms: 3 + sheet.atoms.len(),
        ranges: sheet.ranges.len(),
        entries: sheet.entries.len(),
        places: sheet.code.len(),
    }
}

/// The first line behind the atoms that isn't right in what it names, where the atoms are.
fn first_behind(sheet: &Sheet) -> Option<usize>
    ensures { None ≡ position not (atom_marks first_names (sheet_in sheet.now).atoms)
        → MatchOption result (AreRight (number_marks (sheet_in sheet.now)))
        (IsFirstWrong (number_marks (sheet_in sheet.now))) }
{
    let counts = counts_in(sheet);
    let ranges = 4 + sheet.atoms.len();
    if let Some(number) = first_range(&sheet.ranges) {
        return Some(ranges + number);
    }
    let entries = ranges + sheet.ranges.len() + 1;
    if let Some(number) = first_entry(counts, &sheet.entries) {
        return Some(entries + number);
    }
    let queries = entries + sheet.entries.len() + 1;
    if let Some(number) = first_query(counts, &sheet.queries) {
        return Some(queries + number);
    }
    let places = queries + sheet.queries.len() + 1;
    if let Some(number) = first_place(counts, &sheet.tables, &sheet.code) {
        return Some(places + number);
    }
    None
}

/// The first line that isn't right in what it names. The atoms go into the pool, which has the
/// first three.
pub(crate) fn first_wrong(pool: &mut Pool, sheet: &Sheet) -> Result<Option<usize>, NoMemory>
    requires { pool.old ≡ record { names = first_names; entries = [] } }
    ensures found { IfOk result (λ o. MatchOption o (AreRight (number_marks (sheet_in sheet.now)))
        (IsFirstWrong (number_marks (sheet_in sheet.now)))) }
    ensures put { IfOk result (λ o. MatchOption o (pool.new ≡ record
        { names = first_names ++ (sheet_in sheet.now).atoms; entries = [] }) (λ _. Unit {0})) }
{
    match put_atoms(pool, &sheet.atoms)? {
        Some(number) => Ok(Some(3 + number)),
        None => Ok(first_behind(sheet)),
    }
}
