//! The sections of a listing, line by line.

ghost use Rattle.std.specs.Prelude.{◌≡◌, [], ◌∷◌, ◌+◌, ◌<◌, ◌^◌, ℕ, List, All, codes, false, IfErr, IfOk, IsUtf8, length, map, MatchOption, string_bytes};
ghost use Rattle.fd_language.specs.TermTexts.{Quoted, atom_text};
ghost use Rattle.wam_code.specs.Area.{span_of};
ghost use Rattle.code_listing.specs.Texts.{entry_text, nodes_text, span_text};
ghost use Rattle.listing_reader.specs.NumberBounds.{HasSize, IsNumber, IsSmallEntry, IsSmallSpan};
ghost use Rattle.listing_reader.specs.Lines.{HasHeader, HasNoHeader, HasSection, IsStop, header};
ghost use Rattle.listing_reader.specs.Lists.{FitsPlace, placed_text};
ghost use Rattle.listing_reader.specs.Places.{place_in};
ghost use Rattle.listing_reader.specs.Reading.{Reads, has_byte};
ghost use Rattle.listing_reader.specs.Sections.{IsAtoms, IsEntries, IsPlaces, IsQueries, IsRanges};

use crate::fault::{SheetFault, or_bad_line};
use crate::places::Place;
use crate::read_lines::{read_atom, read_entry, read_place, read_query, read_range};
use crate::read_words::read_number;
use crate::split::cut_once;
use fd_language::RangeNode;
use std::alloc::Global;
use wam_code::{Entry, QueryEntry};

/// The number of lines that a line announces under a name.
fn read_count(line: &[u8], name: &[u8]) -> Option<usize>
    requires { has_byte 32 name.now ≡ false }
    ensures { Reads IsNumber (header name.now) line.now result }
{
    let Some((word, digits)) = cut_once(line, b' ') else {
        return None;
    };
    if word != name {
        return None;
    }
    let Some(number) = read_number(digits) else {
        return None;
    };
    Some(number)
}

/// The number of lines that the first line announces under a name, and the lines behind it.
fn announced<'l, 't>(lines: &'l [&'t [u8]], name: &[u8]) -> Option<(usize, &'l [&'t [u8]])>
    requires { has_byte 32 name.now ≡ false }
    ensures { MatchOption result (HasNoHeader name.now (map (λ w. w.now) lines.now))
        (λ x. HasHeader name.now (map (λ w. w.now) lines.now) x.0 (map (λ w. w.now) x.1.now)) }
{
    let [first, behind @ ..] = lines else {
        return None;
    };
    let Some(count) = read_count(first, name) else {
        return None;
    };
    Some((count, behind))
}

/// The first of the lines, and those behind it.
#[inline]
fn next_line<'l, 't>(lines: &'l [&'t [u8]]) -> Option<(&'t [u8], &'l [&'t [u8]])>
    ensures { MatchOption result (map (λ w. w.now) lines.now ≡ [])
        (λ x. map (λ w. w.now) lines.now ≡ x.0.now ∷ map (λ w. w.now) x.1.now) }
{
    let [first, behind @ ..] = lines else {
        return None;
    };
    Some((*first, behind))
}

/// The section of atoms. So many lines stand before it.
pub(crate) fn read_atoms(
    alloc: Global,
    lines: &[&[u8]],
    at: usize,
) -> Result<Vec<String>, SheetFault>
    requires room { at + length lines.now < 2 ^ 63 }
    ensures told { IfOk result (λ v. HasSection (codes "atoms") IsUtf8 (atom_text Quoted)
        (map (λ w. w.now) lines.now) (map string_bytes v.items)) }
    ensures fault { IfErr result (λ e. IsStop IsAtoms (map (λ w. w.now) lines.now) at e) }
{
    let (count, behind) = or_bad_line(announced(lines, b"atoms"), at + 1)?;
    let mut names = Vec::new(alloc);
    let mut rest = behind;
    for index in 0..count {
        let number = at + index + 2;
        let (line, later) = or_bad_line(next_line(rest), number)?;
        let name = or_bad_line(read_atom(alloc, line)?, number)?;
        names.push(name)?;
        rest = later;
    }
    Ok(names)
}

/// The section of ranges. So many lines stand before it.
pub(crate) fn read_ranges(
    alloc: Global,
    lines: &[&[u8]],
    at: usize,
) -> Result<Vec<Vec<RangeNode>>, SheetFault>
    requires room { at + length lines.now < 2 ^ 63 }
    ensures told { IfOk result (λ v. HasSection (codes "ranges") (All HasSize) nodes_text
        (map (λ w. w.now) lines.now) (map (λ r. r.items) v.items)) }
    ensures fault { IfErr result (λ e. IsStop IsRanges (map (λ w. w.now) lines.now) at e) }
{
    let (count, behind) = or_bad_line(announced(lines, b"ranges"), at + 1)?;
    let mut ranges = Vec::new(alloc);
    let mut rest = behind;
    for index in 0..count {
        let number = at + index + 2;
        let (line, later) = or_bad_line(next_line(rest), number)?;
        let nodes = or_bad_line(read_range(alloc, line)?, number)?;
        ranges.push(nodes)?;
        rest = later;
    }
    Ok(ranges)
}

/// The section of entries. So many lines stand before it.
pub(crate) fn read_entries(
    alloc: Global,
    lines: &[&[u8]],
    at: usize,
) -> Result<Vec<Entry>, SheetFault>
    requires room { at + length lines.now < 2 ^ 63 }
    ensures told { IfOk result (λ v. HasSection (codes "entries") IsSmallEntry entry_text
        (map (λ w. w.now) lines.now) v.items) }
    ensures fault { IfErr result (λ e. IsStop IsEntries (map (λ w. w.now) lines.now) at e) }
{
    let (count, behind) = or_bad_line(announced(lines, b"entries"), at + 1)?;
    let mut entries = Vec::new(alloc);
    let mut rest = behind;
    for index in 0..count {
        let number = at + index + 2;
        let (line, later) = or_bad_line(next_line(rest), number)?;
        let entry = or_bad_line(read_entry(alloc, line)?, number)?;
        entries.push(entry)?;
        rest = later;
    }
    Ok(entries)
}

/// The section of queries. So many lines stand before it.
pub(crate) fn read_queries(
    alloc: Global,
    lines: &[&[u8]],
    at: usize,
) -> Result<Vec<QueryEntry>, SheetFault>
    requires room { at + length lines.now < 2 ^ 63 }
    ensures told { IfOk result (λ v. HasSection (codes "queries") IsSmallSpan span_text
        (map (λ w. w.now) lines.now) (map span_of v.items)) }
    ensures fault { IfErr result (λ e. IsStop IsQueries (map (λ w. w.now) lines.now) at e) }
{
    let (count, behind) = or_bad_line(announced(lines, b"queries"), at + 1)?;
    let mut queries = Vec::new(alloc);
    let mut rest = behind;
    for index in 0..count {
        let number = at + index + 2;
        let (line, later) = or_bad_line(next_line(rest), number)?;
        let query = or_bad_line(read_query(alloc, line)?, number)?;
        queries.push(query)?;
        rest = later;
    }
    Ok(queries)
}

/// The section of places. So many lines stand before it.
pub(crate) fn read_places(
    alloc: Global,
    lines: &[&[u8]],
    at: usize,
) -> Result<Vec<Place>, SheetFault>
    requires room { at + length lines.now < 2 ^ 63 }
    ensures told { IfOk result (λ v. HasSection (codes "code") FitsPlace placed_text
        (map (λ w. w.now) lines.now) (map place_in v.items)) }
    ensures fault { IfErr result (λ e. IsStop IsPlaces (map (λ w. w.now) lines.now) at e) }
{
    let (count, behind) = or_bad_line(announced(lines, b"code"), at + 1)?;
    let mut places = Vec::new(alloc);
    let mut rest = behind;
    for index in 0..count {
        let number = at + index + 2;
        let (line, later) = or_bad_line(next_line(rest), number)?;
        let place = or_bad_line(read_place(alloc, line)?, number)?;
        places.push(place)?;
        rest = later;
    }
    Ok(places)
}
