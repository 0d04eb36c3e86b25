//! The sheet that a text tells.

ghost use Rattle.std.specs.Prelude.{◌≡◌, ◌↔◌, ◌∷◌, [], ◌+◌, ◌<◌, ◌≤◌, ◌^◌, ℕ, List, IfErr, IfOk, IsTrue, length, map, MatchOption, MatchResult, OnOk, string_bytes};
ghost use Rattle.wam_code.specs.Area.{span_of};
ghost use Rattle.code_listing.specs.Listing.{Sheet as Seen};
ghost use Rattle.listing_reader.specs.Lines.{GoesOn, IsLeft};
ghost use Rattle.listing_reader.specs.Places.{place_in};
ghost use Rattle.listing_reader.specs.Sections.{FromAtoms, FromEntries, FromQueries, FromRanges, HasNoFirst, IsListing, IsPlaces, TellsAtoms, TellsEntries, TellsPlaces, TellsQueries, TellsRanges, first_line};
ghost use Rattle.listing_reader.specs.Sheets.{sheet_in};
ghost use Rattle.listing_reader.specs.LineContents.{TellsAll, TellsBehind, TellsListing, sheet_of_all};
ghost use Rattle.listing_reader.specs.SheetTexts.{IsSheetFault, OneSheet, Tells};

use crate::fault::{SheetFault, or_bad_line};
use crate::places::{Place, apart};
use crate::sections::{read_atoms, read_entries, read_places, read_queries, read_ranges};
use crate::sheet::Sheet;
use crate::split::split_ended;
use fd_language::RangeNode;
use std::alloc::Global;
use term_writer::laws::quoted_is_read;
use wam_code::{Entry, QueryEntry};

/// Refuses more lines than so many, and a last line that isn't ended. So many lines stand before
/// them, and this behind the last newline.
fn check_end(lines: &[&[u8]], size: usize, at: usize, rest: &[u8]) -> Result<(), SheetFault>
    requires room { at + size + 1 < 2 ^ 64 }
    ensures ended { OnOk result ((length lines.now ≤ size) × (rest.now ≡ [])) }
    ensures fault { IfErr result (λ e. GoesOn size lines.now rest.now
        × (e ≡ SheetFault.BadLine (at + size + 1))) }
{
    if size < lines.len() || !rest.is_empty() {
        return Err(SheetFault::BadLine {
            line: at + size + 1,
        });
    }
    Ok(())
}

/// The places, behind which nothing stands. So many lines stand before them, and this behind the
/// last newline.
fn from_places(
    alloc: Global,
    lines: &[&[u8]],
    at: usize,
    rest: &[u8],
) -> Result<Vec<Place>, SheetFault>
    requires room { at + length lines.now < 2 ^ 63 }
    ensures told { IfOk result (λ v. TellsPlaces (map place_in v.items)
        (map (λ w. w.now) lines.now) × (rest.now ≡ [])) }
    ensures fault { IfErr result (λ e. IsLeft IsPlaces
        (map (λ w. w.now) lines.now) rest.now at e) }
{
    let places = read_places(alloc, lines, at)?;
    let size = places.len() + 1;
    check_end(lines, size, at, rest)?;
    Ok(places)
}

/// The queries and what stands behind them.
fn from_queries(
    alloc: Global,
    lines: &[&[u8]],
    at: usize,
    rest: &[u8],
) -> Result<(Vec<QueryEntry>, Vec<Place>), SheetFault>
    requires room { at + length lines.now < 2 ^ 63 }
    ensures told { IfOk result (λ v. TellsQueries (map span_of v.0.items) (map place_in v.1.items)
        (map (λ w. w.now) lines.now) × (rest.now ≡ [])) }
    ensures fault { IfErr result (λ e. IsLeft FromQueries
        (map (λ w. w.now) lines.now) rest.now at e) }
{
    let queries = read_queries(alloc, lines, at)?;
    let size = queries.len() + 1;
    let places = from_places(alloc, &lines[size..], at + size, rest)?;
    Ok((queries, places))
}

/// The predicates and what stands behind them.
fn from_entries(
    alloc: Global,
    lines: &[&[u8]],
    at: usize,
    rest: &[u8],
) -> Result<(Vec<Entry>, Vec<QueryEntry>, Vec<Place>), SheetFault>
    requires room { at + length lines.now < 2 ^ 63 }
    ensures told { IfOk result (λ v. TellsEntries v.0.items (map span_of v.1.items)
        (map place_in v.2.items) (map (λ w. w.now) lines.now) × (rest.now ≡ [])) }
    ensures fault { IfErr result (λ e. IsLeft FromEntries
        (map (λ w. w.now) lines.now) rest.now at e) }
{
    let entries = read_entries(alloc, lines, at)?;
    let size = entries.len() + 1;
    let (queries, places) = from_queries(alloc, &lines[size..], at + size, rest)?;
    Ok((entries, queries, places))
}

/// What stands behind the atoms of a listing.
#[derive(Drop)]
pub(crate) struct Behind {
    pub ranges: Vec<Vec<RangeNode>>,
    pub entries: Vec<Entry>,
    pub queries: Vec<QueryEntry>,
    pub places: Vec<Place>,
}

/// The ranges and what stands behind them.
fn from_ranges(alloc: Global, lines: &[&[u8]], at: usize, rest: &[u8]) -> Result<Behind, SheetFault>
    requires room { at + length lines.now < 2 ^ 63 }
    ensures told { IfOk result (λ v. TellsBehind v (map (λ w. w.now) lines.now)
        × (rest.now ≡ [])) }
    ensures fault { IfErr result (λ e. IsLeft FromRanges
        (map (λ w. w.now) lines.now) rest.now at e) }
{
    let ranges = read_ranges(alloc, lines, at)?;
    let size = ranges.len() + 1;
    let (entries, queries, places) = from_entries(alloc, &lines[size..], at + size, rest)?;
    Ok(Behind {
        ranges,
        entries,
        queries,
        places,
    })
}

/// The atoms and what stands behind them.
fn from_atoms(
    alloc: Global,
    lines: &[&[u8]],
    at: usize,
    rest: &[u8],
) -> Result<(Vec<String>, Behind), SheetFault>
    requires room { at + length lines.now < 2 ^ 63 }
    ensures told { IfOk result (λ v. TellsAll (map string_bytes v.0.items) v.1
        (map (λ w. w.now) lines.now) × (rest.now ≡ [])) }
    ensures fault { IfErr result (λ e. IsLeft FromAtoms
        (map (λ w. w.now) lines.now) rest.now at e) }
{
    let atoms = read_atoms(alloc, lines, at)?;
    let size = atoms.len() + 1;
    let behind = from_ranges(alloc, &lines[size..], at + size, rest)?;
    Ok((atoms, behind))
}

/// Whether a line is the first of every listing.
fn is_first_line(line: &[u8]) -> bool
    ensures { IsTrue result ↔ (line.now ≡ first_line) }
{
    line == b"clpfd code 1".as_slice()
}

/// The lines behind the first of every listing, if the lines begin with it.
fn behind_first<'l, 't>(lines: &'l [&'t [u8]]) -> Option<&'l [&'t [u8]]>
    ensures { MatchOption result (HasNoFirst (map (λ w. w.now) lines.now))
        (λ later. map (λ w. w.now) lines.now ≡ first_line ∷ map (λ w. w.now) later.now) }
{
    let [first, later @ ..] = lines else {
        return None;
    };
    if is_first_line(first) {
        Some(later)
    } else {
        None
    }
}

/// All that the lines of a listing tell.
fn from_first(
    alloc: Global,
    lines: &[&[u8]],
    rest: &[u8],
) -> Result<(Vec<String>, Behind), SheetFault>
    requires room { length lines.now < 2 ^ 63 }
    ensures told { IfOk result (λ v. TellsListing (map string_bytes v.0.items) v.1
        (map (λ w. w.now) lines.now) × (rest.now ≡ [])) }
    ensures fault { IfErr result (λ e. IsLeft IsListing
        (map (λ w. w.now) lines.now) rest.now 0 e) }
{
    let later = or_bad_line(behind_first(lines), 1)?;
    let (atoms, behind) = from_atoms(alloc, later, 1, rest)?;
    Ok((atoms, behind))
}

/// The sheet of what was read.
fn sheet_from(alloc: Global, atoms: Vec<String>, behind: Behind) -> Result<Sheet, SheetFault>
    ensures sheet { IfOk result (λ s. sheet_in s
        ≡ sheet_of_all (map string_bytes atoms.items) behind) }
    ensures fault { IfErr result (λ e. e ≡ SheetFault.NoMemory) }
{
    let parts = apart(alloc, behind.places)?;
    Ok(Sheet {
        atoms,
        ranges: behind.ranges,
        entries: behind.entries,
        queries: behind.queries,
        tables: parts.tables,
        states: parts.states,
        code: parts.code,
    })
}

/// No two sheets have one text.
pub fn one_sheet()
    ensures { OneSheet }
{
    quoted_is_read();
}

/// The sheet that a text tells, or the first line with which no sheet goes on.
pub fn read_sheet(alloc: Global, text: &[u8]) -> Result<Sheet, SheetFault>
    ensures sheet { IfOk result (λ s. Tells text.now (sheet_in s)) }
    ensures fault { IfErr result (λ e. IsSheetFault text.now e) }
    ensures known { (s : Seen) → Tells text.now s → MatchResult result
        (λ t. sheet_in t ≡ s) (λ e. e ≡ SheetFault.NoMemory) }
{
    one_sheet();
    let (lines, rest) = split_ended(alloc, text, b'\n')?;
    let (atoms, behind) = from_first(alloc, &lines, rest)?;
    let sheet = sheet_from(alloc, atoms, behind)?;
    Ok(sheet)
}
