//! Places with their states, and the tables that their switches name.

ghost use Rattle.std.specs.Prelude.{◌≡◌, [], ◌++◌, IfOk, OnOk, length, map};
ghost use Rattle.listing_reader.specs.TableNumbers.{numbered, tables_with};
ghost use Rattle.listing_reader.specs.Places.{AreParts, place_in};

use code_listing::PlaceState;
use fd_language::NoMemory;
use std::alloc::Global;
use wam_code::{Code, Key};

/// A place: its state, its instruction, and the rows of a switch, whose table has no number yet.
#[derive(Drop)]
pub(crate) struct Place {
    pub state: PlaceState,
    pub code: Code,
    pub rows: Vec<(Key, usize)>,
}

/// Places apart, with tables numbered in the order of their switches.
#[derive(Drop)]
pub(crate) struct Parts {
    pub tables: Vec<Vec<(Key, usize)>>,
    pub states: Vec<PlaceState>,
    pub code: Vec<Code>,
}

/// The instruction with the number of its table, which goes behind the others.
fn number_table(
    tables: &mut Vec<Vec<(Key, usize)>>,
    code: Code,
    rows: Vec<(Key, usize)>,
) -> Result<Code, NoMemory>
    ensures code { IfOk result (λ c. c ≡ numbered (length tables.old.items) code) }
    ensures tables { OnOk result (map (λ t. t.items) tables.new.items
        ≡ map (λ t. t.items) tables.old.items ++ tables_with code rows.items []) }
{
    let number = tables.len();
    match code {
        Code::SwitchOnConstant(_) => {
            tables.push(rows)?;
            Ok(Code::SwitchOnConstant(number))
        }
        Code::SwitchOnInteger(_) => {
            tables.push(rows)?;
            Ok(Code::SwitchOnInteger(number))
        }
        Code::SwitchOnStructure(_) => {
            tables.push(rows)?;
            Ok(Code::SwitchOnStructure(number))
        }
        other => Ok(other),
    }
}

/// The parts of places, in their order.
pub(crate) fn apart(alloc: Global, places: Vec<Place>) -> Result<Parts, NoMemory>
    ensures { IfOk result (λ parts. AreParts (map place_in places.items) parts) }
{
    let mut tables = Vec::new(alloc);
    let mut states = Vec::new(alloc);
    let mut code = Vec::new(alloc);
    for place in places {
        let Place {
            state,
            code: bare,
            rows,
        } = place;
        let instruction = number_table(&mut tables, bare, rows)?;
        states.push(state)?;
        code.push(instruction)?;
    }
    Ok(Parts {
        tables,
        states,
        code,
    })
}
