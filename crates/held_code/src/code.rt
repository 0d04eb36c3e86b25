//! The numbers of code.

ghost use Rattle.std.specs.Prelude.{All, length, map};
ghost use Rattle.wam_code.specs.Area.{span_of};
ghost use Rattle.listing_reader.specs.NumberBounds.{IsNumber, IsSmallKey, IsSmallCode, IsSmallEntry, IsSmallSpan};

use term_pool::AtomId;
use wam_code::{Code, Entry, Key, QueryEntry};

/// Those of an instruction.
fn hold_instruction(code: Code)
    ensures { IsSmallCode code }
{}

/// Those of instructions.
pub(crate) fn hold_code(codes: &[Code])
    ensures numbers { All IsSmallCode codes.now }
    ensures count { IsNumber (length codes.now) }
{
    for code in codes {
        hold_instruction(*code);
    }
}

/// Those of a predicate.
fn hold_entry(entry: Entry)
    ensures { IsSmallEntry entry }
{}

/// Those of predicates.
pub(crate) fn hold_entries(entries: &[Entry])
    ensures numbers { All IsSmallEntry entries.now }
    ensures count { IsNumber (length entries.now) }
{
    for entry in entries {
        hold_entry(*entry);
    }
}

/// An atom's.
fn hold_name(name: AtomId)
    ensures { IsNumber name.number }
{}

/// Those of atoms.
fn hold_names(names: &[AtomId])
    ensures { All (λ c. IsNumber c.number) names.now }
{
    for name in names {
        hold_name(*name);
    }
}

/// A place, or how many there are of something.
pub(crate) fn hold_place(place: usize)
    ensures { IsNumber place }
{}

/// Those of a query.
fn hold_query(query: &QueryEntry)
    ensures { IsSmallSpan (span_of query.now) }
{
    hold_place(query.at);
    hold_place(query.end);
    hold_names(&query.names);
}

/// Those of queries.
pub(crate) fn hold_queries(queries: &[QueryEntry])
    ensures numbers { All IsSmallSpan (map span_of queries.now) }
    ensures count { IsNumber (length (map span_of queries.now)) }
{
    for (index, query) in queries.iter().enumerate() {
        hold_query(query);
    }
}

/// Those of a row of a table.
fn hold_row(row: (Key, usize))
    ensures { IsSmallKey row.0 × IsNumber row.1 }
{}

/// Those of a table.
fn hold_table(table: &[(Key, usize)])
    ensures { All (λ row. IsSmallKey row.0 × IsNumber row.1) table.now }
{
    for row in table {
        hold_row(*row);
    }
}

/// Those of tables.
pub(crate) fn hold_tables(tables: &[Vec<(Key, usize)>])
    ensures { All (All (λ row. IsSmallKey row.0 × IsNumber row.1)) (map (λ t. t.items) tables.now) }
{
    for (index, table) in tables.iter().enumerate() {
        hold_table(table);
    }
}
