//! The choices before the clauses of a predicate.

ghost use Rattle.std.specs.Prelude.{◌≡◌, ℕ, true, List, [], ◌<◌, ◌≤◌, ◌++◌, length, map, take, drop, IfOk, OnOk, All};
ghost use Rattle.clause_code.specs.Predicates.{Appends, ArePredicates};
ghost use Rattle.clause_code.specs.ClauseChoices.{list_of};
ghost use Rattle.clause_compiler.specs.Groups.{AreGroups};
ghost use Rattle.clause_compiler.specs.Sections.{ArePut, IsChoiceOf, IsListIn, IsNumbered, its_entry, its_row, placed_code};
ghost use Rattle.clause_compiler.specs.Keys.{is_tabled, kind_numbers};
ghost use Rattle.clause_compiler.specs.Listing.{listed_at};
ghost use Rattle.clause_check.specs.Programs.{FlatProgram};
ghost use Rattle.clause_compiler.specs.ClauseKeys.{AreKeyed};
ghost use Rattle.clause_compiler.specs.Parts.{tables_in};
ghost use Rattle.clause_compiler.specs.Switches.{AreChoicesBy, AreKeysIn, AreRising, IsSwitchCode, PutsKind, switch_on, TablesGrow};

use crate::keys::{Kind, are_told_apart, clauses_of_kind};
use crate::tables::{Keyed, keyed_of, label_of};
use clause_check::Program;
use clause_code::Predicates;
use fd_language::NoMemory;
use std::alloc::Global;
use wam_code::{Code, Entry, Key};

/// The choice of the i-th of so many clauses, whose number is given.
fn choice_of(count: usize, i: usize, clause: usize) -> Code
    requires { i < count }
    ensures { result ≡ listed_at count i clause }
{
    if count == 1 {
        Code::Jump(clause)
    } else if i == 0 {
        Code::Try(clause)
    } else if count - i == 1 {
        Code::Trust(clause)
    } else {
        Code::Retry(clause)
    }
}

/// Puts the choices of these clauses behind the code, by their numbers. The error is want of
/// memory.
fn put_list(clauses: &[usize], code: &mut Vec<Code>) -> Result<(), NoMemory>
    ensures { OnOk result (code.new.items ≡ code.old.items ++ list_of clauses.now) }
{
    if clauses.is_empty() {
        code.push(Code::FailNow)?;
        return Ok(());
    }
    for i in 0..clauses.len() {
        code.push(choice_of(clauses.len(), i, clauses[i]))?;
    }
    Ok(())
}

/// Puts the choices of each of the lists behind each other. Gives each key with the place of its
/// list. The error is want of memory.
fn put_rows(
    alloc: Global,
    keys: &[Key],
    lists: &[Vec<usize>],
    code: &mut Vec<Code>,
) -> Result<Vec<(Key, usize)>, NoMemory>
    requires { length keys.now ≡ length lists.now }
    ensures { IfOk result (λ v. ArePut (its_row keys.now) (IsListIn (map (λ l. l.items) lists.now))
        (length keys.now) code.old.items code.new.items v.items) }
{
    let mut rows = Vec::with_capacity(alloc, keys.len())?;
    for i in 0..keys.len() {
        rows.push((keys[i], code.len()))?;
        put_list(&lists[i], code)?;
    }
    Ok(rows)
}

/// The switch of the kind with a table.
fn switch_of(kind: Kind, table: usize) -> Code
    ensures { result ≡ switch_on kind table }
{
    match kind {
        Kind::Atom => Code::SwitchOnConstant(table),
        Kind::Integer => Code::SwitchOnInteger(table),
        Kind::Structure => Code::SwitchOnStructure(table),
    }
}

/// Puts a switch of the kind by these keys behind the code, with a table of its own in rising order
/// of the keys, and behind it the choices of each key's clauses. The error is want of memory.
fn put_table(
    alloc: Global,
    kind: Kind,
    keyed: &Keyed,
    code: &mut Vec<Code>,
    tables: &mut Vec<Vec<(Key, usize)>>,
) -> Result<(), NoMemory>
    requires { length keyed.now.keys.items ≡ length keyed.now.lists.items }
    ensures { OnOk result ((p : FlatProgram) (ns : List ℕ)
        → is_tabled p (kind_numbers p kind ns) ≡ true
        → AreKeyed p (kind_numbers p kind ns) keyed.now
        → PutsKind p (tables_in tables.new) kind ns code.old.items code.new.items
        × TablesGrow p ns (tables_in tables.old) (tables_in tables.new)) }
{
    code.push(switch_of(kind, tables.len()))?;
    let mut rows = put_rows(alloc, &keyed.keys, &keyed.lists, code)?;
    rows.sort_unstable_by_key(|row| label_of(row.0));
    tables.push(rows)?;
    Ok(())
}

/// Puts the choices of those clauses behind the code that may fit a first argument of the kind: by
/// their keys, where these tell them apart. The error is want of memory.
fn put_kind(
    alloc: Global,
    program: &Program,
    clauses: &[usize],
    kind: Kind,
    code: &mut Vec<Code>,
    tables: &mut Vec<Vec<(Key, usize)>>,
) -> Result<(), NoMemory>
    requires clauses { All (λ c. c < length program.now.clauses) clauses.now }
    ensures code { OnOk result (PutsKind program.now (tables_in tables.new) kind clauses.now
        code.old.items code.new.items) }
    ensures tables { OnOk result (TablesGrow program.now clauses.now
        (tables_in tables.old) (tables_in tables.new)) }
{
    let own = clauses_of_kind(alloc, program, clauses, kind)?;
    match keyed_of(alloc, program, &own)? {
        Some(keyed) => put_table(alloc, kind, &keyed, code, tables),
        None => put_list(&own, code),
    }
}

/// Puts a switch by the first argument behind the code, and behind it the choices of all these
/// clauses, and those for each kind of argument. The error is want of memory.
fn put_switch(
    alloc: Global,
    program: &Program,
    clauses: &[usize],
    code: &mut Vec<Code>,
    tables: &mut Vec<Vec<(Key, usize)>>,
) -> Result<(), NoMemory>
    requires clauses { All (λ c. c < length program.now.clauses) clauses.now }
    ensures code { OnOk result (Appends code.old.items code.new.items
        (IsSwitchCode program.now (tables_in tables.new) clauses.now (length code.old.items))) }
    ensures tables { OnOk result (TablesGrow program.now clauses.now
        (tables_in tables.old) (tables_in tables.new)) }
{
    let at = code.len();
    code.push(Code::FailNow)?;
    let all = code.len();
    put_list(clauses, code)?;
    let atoms = code.len();
    put_kind(alloc, program, clauses, Kind::Atom, code, tables)?;
    let integers = code.len();
    put_kind(alloc, program, clauses, Kind::Integer, code, tables)?;
    let structures = code.len();
    put_kind(alloc, program, clauses, Kind::Structure, code, tables)?;
    code[at] = Code::SwitchOnTerm(all, atoms, integers, structures);
    Ok(())
}

/// Puts the choices of a predicate with so many arguments behind the code: a switch, where the
/// first argument tells its clauses apart, and else a list. The error is want of memory.
fn put_predicate(
    alloc: Global,
    program: &Program,
    clauses: &[usize],
    arity: usize,
    code: &mut Vec<Code>,
    tables: &mut Vec<Vec<(Key, usize)>>,
) -> Result<(), NoMemory>
    requires clauses { All (λ c. c < length program.now.clauses) clauses.now }
    ensures code { OnOk result (Appends code.old.items code.new.items
        (AreChoicesBy program.now (tables_in tables.new) clauses.now arity
        (length code.old.items))) }
    ensures tables { OnOk result (TablesGrow program.now clauses.now
        (tables_in tables.old) (tables_in tables.new)) }
{
    if are_told_apart(program, clauses, arity) {
        put_switch(alloc, program, clauses, code, tables)
    } else {
        put_list(clauses, code)
    }
}

/// Puts the choices of each predicate behind each other, by the numbers of its clauses, where
/// `groups` has these. Gives the predicates with the places of their code. The error is want of
/// memory.
pub(crate) fn put_choices(
    alloc: Global,
    program: &Program,
    predicates: &Predicates,
    groups: &[Vec<usize>],
    code: &mut Vec<Code>,
    tables: &mut Vec<Vec<(Key, usize)>>,
) -> Result<Vec<Entry>, NoMemory>
    requires predicates { ArePredicates program.now predicates.now }
    requires groups { AreGroups program.now predicates.now (length program.now.clauses)
        (map (λ g. g.items) groups.now) }
    requires tables { tables.old.items ≡ [] }
    ensures choices { IfOk result (λ v. ArePut (its_entry predicates.now)
        (IsChoiceOf program.now (tables_in tables.new) predicates.now)
        (length predicates.now) code.old.items code.new.items v.items) }
    ensures keys { OnOk result (AreKeysIn program.now (tables_in tables.new)) }
    ensures rising { OnOk result (AreRising (tables_in tables.new)) }
{
    let mut entries = Vec::with_capacity(alloc, predicates.len())?;
    for n in 0..predicates.len() {
        let at = code.len();
        let arity = predicates.arity(n);
        put_predicate(alloc, program, &groups[n], arity, code, tables)?;
        entries.push(Entry {
            name: predicates.name(n),
            arity: arity as u8,
            at,
        })?;
    }
    Ok(entries)
}

/// The instruction with the place of its clause in place of the clause's number.
fn placed(code: Code, places: &[usize]) -> Code
    requires { IsNumbered (length places.now) code }
    ensures { result ≡ placed_code places.now code }
{
    match code {
        Code::Jump(clause) => Code::Jump(places[clause]),
        Code::Try(clause) => Code::Try(places[clause]),
        Code::Retry(clause) => Code::Retry(places[clause]),
        Code::Trust(clause) => Code::Trust(places[clause]),
        other => other,
    }
}

/// Puts the places of clauses in place of their numbers, in the first `count` instructions.
pub(crate) fn place_choices(code: &mut Vec<Code>, count: usize, places: &[usize])
    requires count { count ≤ length code.old.items }
    requires numbered { All (IsNumbered (length places.now)) (take count code.old.items) }
    ensures { code.new.items
        ≡ map (placed_code places.now) (take count code.old.items) ++ drop count code.old.items }
{
    for i in 0..count {
        code[i] = placed(code[i], places);
    }
}
