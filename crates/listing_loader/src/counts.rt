//! Whether what a line names is there.

ghost use Rattle.std.specs.Prelude.{◌≡◌, ◌↔◌, IsTrue, [], map, slice_index_or};
ghost use Rattle.std.specs.List.{list_all};
ghost use Rattle.wam_code.specs.Area.{span_of};
ghost use Rattle.wam_code.specs.Keys.{Rises};
ghost use Rattle.code_listing.specs.Listing as listing;
ghost use Rattle.listing_loader.specs.Marks as marks;

use term_pool::AtomId;
use wam_code::{Code, Entry, Key, QueryEntry};

/// So many atoms, ranges, predicates and places are there.
#[derive(Clone, Copy)]
pub(crate) struct Counts {
    pub atoms: usize,
    pub ranges: usize,
    pub entries: usize,
    pub places: usize,
}

/// Whether each key of a table is below the next.
fn rises(table: &[(Key, usize)]) -> bool
    ensures { IsTrue result ↔ Rises table.now }
{
    for i in 1..table.len() {
        if !table[i - 1].0.is_below(table[i].0) {
            return false;
        }
    }
    true
}

/// The table with this number, or none.
fn table_at(tables: &[Vec<(Key, usize)>], table: usize) -> &[(Key, usize)]
    ensures { result.now ≡ slice_index_or (map (λ t. t.items) tables.now) table [] }
{
    if table < tables.len() {
        &tables[table]
    } else {
        &[]
    }
}

/// The rows of a switch, and none of another instruction.
fn rows_of(tables: &[Vec<(Key, usize)>], code: Code) -> &[(Key, usize)]
    ensures { result.now ≡ listing.table_of (map (λ t. t.items) tables.now) code }
{
    match code {
        Code::SwitchOnConstant(t) => table_at(tables, t),
        Code::SwitchOnInteger(t) => table_at(tables, t),
        Code::SwitchOnStructure(t) => table_at(tables, t),
        _ => &[],
    }
}

impl Counts {
    /// Whether the atom is there.
    fn has_atom(self, atom: AtomId) -> bool
        ensures { result ≡ marks.has_atom self atom }
    {
        atom.number < self.atoms
    }

    /// Whether all these atoms are.
    fn has_atoms(self, atoms: &[AtomId]) -> bool
        ensures { result ≡ list_all (marks.has_atom self) atoms.now }
    {
        atoms.iter().all(|atom| self.has_atom(*atom))
    }

    /// Whether the predicate's name and place are.
    pub(crate) fn has_entry(self, entry: Entry) -> bool
        ensures { result ≡ marks.entry_mark self entry }
    {
        self.has_atom(entry.name) && entry.at < self.places
    }

    /// Whether the query's places and names are. It may end with the code.
    pub(crate) fn has_query(self, query: &QueryEntry) -> bool
        ensures { result ≡ marks.query_mark self (span_of query.now) }
    {
        query.at < self.places && query.end <= self.places && self.has_atoms(&query.names)
    }

    /// Whether the atom of the key is.
    fn has_key(self, key: Key) -> bool
        ensures { result ≡ marks.has_key self key }
    {
        match key {
            Key::Atom(atom) => self.has_atom(atom),
            Key::Int(_) => true,
            Key::Struct(name, _) => self.has_atom(name),
        }
    }

    /// Whether the row's key and place are.
    fn has_row(self, row: (Key, usize)) -> bool
        ensures { result ≡ marks.has_row self row }
    {
        self.has_key(row.0) && row.1 < self.places
    }

    /// Whether those of all rows are.
    fn has_rows(self, rows: &[(Key, usize)]) -> bool
        ensures { result ≡ list_all (marks.has_row self) rows.now }
    {
        rows.iter().all(|row| self.has_row(*row))
    }

    /// Whether the keys of a table rise, and what it names is there.
    fn has_table(self, table: &[(Key, usize)]) -> bool
        ensures { result ≡ marks.table_mark self table.now }
    {
        rises(table) && self.has_rows(table)
    }

    /// Whether what the instruction names is there, where a switch has this table.
    fn has_code(self, table: &[(Key, usize)], code: Code) -> bool
        ensures { result ≡ marks.instruction_mark self table.now code }
    {
        match code {
            Code::GetConstant(atom, _) => self.has_atom(atom),
            Code::GetStructure(name, _, _) => self.has_atom(name),
            Code::UnifyConstant(atom) => self.has_atom(atom),
            Code::PutConstant(atom, _) => self.has_atom(atom),
            Code::PutStructure(name, _, _) => self.has_atom(name),
            Code::Call(entry) => entry < self.entries,
            Code::Execute(entry) => entry < self.entries,
            Code::Jump(to) => to < self.places,
            Code::TryMeElse(to) => to < self.places,
            Code::RetryMeElse(to) => to < self.places,
            Code::Try(to) => to < self.places,
            Code::Retry(to) => to < self.places,
            Code::Trust(to) => to < self.places,
            Code::SwitchOnTerm(v, c, i, s) => {
                v < self.places && c < self.places && i < self.places && s < self.places
            }
            Code::SwitchOnConstant(_) => self.has_table(table),
            Code::SwitchOnInteger(_) => self.has_table(table),
            Code::SwitchOnStructure(_) => self.has_table(table),
            Code::Either(to) => to < self.places,
            Code::EnterTest(_, _, to) => to < self.places,
            Code::PostRange(range, _) => range < self.ranges,
            _ => true,
        }
    }

    /// Whether what the instruction names is there, by the tables of the switches.
    pub(crate) fn has_place(self, tables: &[Vec<(Key, usize)>], code: Code) -> bool
        ensures { result ≡ marks.instruction_mark self
            (listing.table_of (map (λ t. t.items) tables.now) code) code }
    {
        self.has_code(rows_of(tables, code), code)
    }
}
