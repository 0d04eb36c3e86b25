//! Rows of a switch's table.

ghost use Rattle.std.specs.Prelude.{◌≡◌, ◌↔◌, ◌<◌, length, IsTrue};
ghost use Rattle.wam_code.specs.Area.{table_at};
ghost use Rattle.wam_code.specs.Keys.{Rises};
ghost use Rattle.code_control.specs.Rows.{IsKeyBelow, IsKeyOf, Finds};

use code_safety::Went;
use heap_cells::Seen;
use wam_code::{CodeArea, Key};

/// Whether a key is what is seen at the top of a term.
#[inline]
pub(crate) fn is_key_of(seen: Seen<'_>, key: Key) -> bool
    ensures { IsTrue result ↔ IsKeyOf seen.entry key }
{
    match (seen, key) {
        (Seen::Atom(a), Key::Atom(b)) => b == a,
        (Seen::Int(y), Key::Int(z)) => z == y,
        (Seen::Struct(f, args), Key::Struct(g, n)) => g == f && n as usize == args.len(),
        _ => false,
    }
}

/// Whether a key is below that of what is seen at the top of a term.
#[inline]
fn is_key_below(seen: Seen<'_>, key: Key) -> bool
    ensures { IsTrue result ↔ IsKeyBelow seen.entry key }
{
    match (seen, key) {
        (Seen::Atom(a), Key::Atom(b)) => b.number < a.number,
        (Seen::Int(y), Key::Int(z)) => z < y,
        (Seen::Struct(f, args), Key::Struct(g, n)) => {
            if g.number == f.number {
                (n as usize) < args.len()
            } else {
                g.number < f.number
            }
        }
        _ => false,
    }
}

/// Where the first row leads whose key is what is seen, or back where there is none. Each row is looked at.
fn find_by_rows(seen: Seen<'_>, table: &[(Key, usize)]) -> Went
    ensures { Finds seen.entry table.now result }
{
    for row in table {
        if is_key_of(seen, row.0) {
            return Went::On(row.1);
        }
    }
    Went::Back
}

/// The same by halves, where the keys rise.
fn find_by_halves(seen: Seen<'_>, table: &[(Key, usize)]) -> Went
    requires { Rises table.now }
    ensures { Finds seen.entry table.now result }
{
    let mut low = 0;
    let mut high = table.len();
    'halving: while low < high {
        let middle = low + (high - low) / 2;
        let (key, to) = table[middle];
        if is_key_of(seen, key) {
            return Went::On(to);
        }
        if is_key_below(seen, key) {
            low = middle + 1;
        } else {
            high = middle;
        }
    }
    Went::Back
}

/// Where the first row leads, of the table with this number, whose key is what is seen, or back where there is none.
#[inline]
pub(crate) fn find_row(code: &CodeArea, t: usize, seen: Seen<'_>) -> Went
    requires { t < length code.now.tables }
    ensures { Finds seen.entry (table_at code.now t) result }
{
    let table = code.table(t);
    if table.len() > 4 && code.has_rising_tables() {
        return find_by_halves(seen, table);
    }
    find_by_rows(seen, table)
}
