//! Whether tables can be searched by halves.

ghost use Rattle.std.specs.Prelude.{◌↔◌, IsTrue};
ghost use Rattle.wam_code.specs.Area.{area_of};
ghost use Rattle.wam_code.specs.Keys.{Rises, HasRisingTables};

use crate::instruction::Key;
use crate::parts::CodeParts;

/// Whether each key of the table is below the next. No memory.
fn rises(table: &[(Key, usize)]) -> bool
    ensures { IsTrue result ↔ Rises table.now }
{
    for i in 1..table.len() {
        if !table[i - 1].0.is_below(table[i].0) {
            return false;
        }
    }
    true
}

/// Whether the keys of every table rise. No memory.
pub(crate) fn have_rising_tables(parts: &CodeParts) -> bool
    ensures { IsTrue result ↔ HasRisingTables (area_of parts.now) }
{
    for t in 0..parts.tables.len() {
        if !rises(&parts.tables[t]) {
            return false;
        }
    }
    true
}
