//! Whether what code names is there.

ghost use Rattle.std.specs.Prelude.{◌≡◌, ◌<◌, ◌↔◌, suc, length, IsTrue, All};
ghost use Rattle.range_code.specs.Slots.{slots_of};
ghost use Rattle.wam_code.specs.Area.{area_of};
ghost use Rattle.wam_code.specs.VerifiedCode as verified;
ghost use Rattle.wam_code.specs.VerifiedCode.{IsAtom, IsKey, IsTable, IsRange, IsThere};
ghost use Rattle.code_listing.specs.Sheets.{fits_switch as its_keys};

use code_flow::table_at;
use range_code::RangeCode;
use term_pool::AtomId;
use wam_code::{Code, CodeParts, Key};

/// Whether the atom is one of the pool's.
pub(crate) fn has_atom(parts: &CodeParts, atom: AtomId) -> bool
    ensures { IsTrue result ↔ IsAtom (area_of parts.now) atom }
{
    atom.number < parts.pool.atoms()
}

/// Whether these atoms are.
pub(crate) fn has_atoms(parts: &CodeParts, atoms: &[AtomId]) -> bool
    ensures { IsTrue result ↔ All (λ c. IsAtom (area_of parts.now) c) atoms.now }
{
    for (index, atom) in atoms.iter().enumerate() {
        if !has_atom(parts, *atom) {
            return false;
        }
    }
    true
}

/// Whether the atom of a key is.
fn has_key(parts: &CodeParts, key: Key) -> bool
    ensures { IsTrue result ↔ IsKey (area_of parts.now) key }
{
    match key {
        Key::Atom(atom) => has_atom(parts, atom),
        Key::Int(_) => true,
        Key::Struct(name, _) => has_atom(parts, name),
    }
}

/// Whether those of rows are.
pub(crate) fn has_keys(parts: &CodeParts, rows: &[(Key, usize)]) -> bool
    ensures { IsTrue result ↔ All (λ row. IsKey (area_of parts.now) row.0) rows.now }
{
    for (index, row) in rows.iter().enumerate() {
        if !has_key(parts, row.0) {
            return false;
        }
    }
    true
}

/// Whether a switch may have the key.
fn fits_switch(code: Code, key: Key) -> bool
    ensures { result ≡ its_keys code key }
{
    match code {
        Code::SwitchOnConstant(_) => matches!(key, Key::Atom(_)),
        Code::SwitchOnInteger(_) => matches!(key, Key::Int(_)),
        Code::SwitchOnStructure(_) => matches!(key, Key::Struct(..)),
        _ => true,
    }
}

/// Whether a switch may have the keys of these rows.
fn fits_rows(rows: &[(Key, usize)], code: Code) -> bool
    ensures { IsTrue result ↔ All (λ row. IsTrue (its_keys code row.0)) rows.now }
{
    for (index, row) in rows.iter().enumerate() {
        if !fits_switch(code, row.0) {
            return false;
        }
    }
    true
}

/// Whether the table is there, and the switch may have its keys.
fn has_table(parts: &CodeParts, code: Code, table: usize) -> bool
    ensures { IsTrue result ↔ IsTable (area_of parts.now) (its_keys code) table }
{
    if table >= parts.tables.len() {
        return false;
    }
    fits_rows(table_at(parts, table), code)
}

/// Whether so many registers have a range's target and its slots.
fn has_slots(range: &RangeCode, count: usize) -> bool
    ensures { IsTrue result ↔ (count ≡ suc (length (slots_of range.now))) }
{
    if count == 0 {
        return false;
    }
    count - 1 == range.slots().len()
}

/// Whether the range is there, and so many registers have its target and its slots.
fn has_range(parts: &CodeParts, range: usize, count: usize) -> bool
    ensures { IsTrue result ↔ IsRange (area_of parts.now) range count }
{
    if range >= parts.ranges.len() {
        return false;
    }
    has_slots(&parts.ranges[range], count)
}

/// Whether what an instruction names is there.
pub(crate) fn is_there(parts: &CodeParts, code: Code) -> bool
    ensures { IsTrue result ↔ IsThere (area_of parts.now) code }
{
    match code {
        Code::GetConstant(atom, _) => has_atom(parts, atom),
        Code::GetStructure(atom, _, _) => has_atom(parts, atom),
        Code::UnifyConstant(atom) => has_atom(parts, atom),
        Code::PutConstant(atom, _) => has_atom(parts, atom),
        Code::PutStructure(atom, _, _) => has_atom(parts, atom),
        Code::Call(entry) => entry < parts.entries.len(),
        Code::Execute(entry) => entry < parts.entries.len(),
        Code::SwitchOnConstant(table) => has_table(parts, code, table),
        Code::SwitchOnInteger(table) => has_table(parts, code, table),
        Code::SwitchOnStructure(table) => has_table(parts, code, table),
        Code::PostRange(range, count) => has_range(parts, range, count),
        _ => true,
    }
}
