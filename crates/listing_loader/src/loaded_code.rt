//! The code that a text tells.

ghost use Rattle.std.specs.Prelude.{◌≡◌, ◌++◌, ◌<◌, ◌^◌, [], map, IfOk, IfErr, OnOk, MatchResult};
ghost use Rattle.term_pool.specs.Contents.{first_names};
ghost use Rattle.code_listing.specs.Listing.{listing, IsSameCode};
ghost use Rattle.code_listing.specs.Sheets.{Listed as Seen, IsSheet, area_in};
ghost use Rattle.listing_reader.specs.Sheets.{sheet_in};
ghost use Rattle.listing_loader.specs.Marks.{number_marks, AreRight, place_line};
ghost use Rattle.listing_loader.specs.LoadedCode.{IsLoadFault, IsSheetRefusal, AreRanges, IsHeld, IsGood};

use crate::fault::LoadFault;
use crate::number_checks::first_wrong;
use crate::ranges::ranges_of;
use code_flow::laws::places_decide;
use code_listing::Listed;
use code_text::{VerifyFault, verify};
use listing_reader::{Sheet, SheetFault, read_sheet};
use range_code::RangeCode;
use std::alloc::Global;
use std::rc::Rc;
use term_pool::Pool;
use wam_code::{CodeArea, CodeParts};

/// The pool of a sheet's atoms, where all lines are right in what they name.
fn pool_of(alloc: Global, sheet: &Sheet) -> Result<Pool, LoadFault>
    ensures pool { IfOk result (λ p. p
        ≡ record { names = first_names ++ (sheet_in sheet.now).atoms; entries = [] }) }
    ensures right { OnOk result (AreRight (number_marks (sheet_in sheet.now))) }
    ensures fault { IfErr result (IsSheetRefusal (sheet_in sheet.now)) }
{
    let mut pool = Pool::new(alloc)?;
    match first_wrong(&mut pool, sheet)? {
        Some(line) => Err(LoadFault::BadNumber { line }),
        None => Ok(pool),
    }
}

/// The line of a sheet's first place.
fn first_line(sheet: &Sheet) -> usize
    ensures line { result ≡ place_line (sheet_in sheet.now) 0 }
    ensures small { result < 2 ^ 63 }
{
    let atoms = sheet.atoms.as_slice().len();
    let ranges = sheet.ranges.as_slice().len();
    let entries = sheet.entries.as_slice().len();
    let queries = sheet.queries.as_slice().len();
    7 + atoms + ranges + entries + queries
}

/// The code of a sheet with these atoms and ranges, where it is verified by its states.
fn code_of(
    alloc: Global,
    pool: Pool,
    ranges: Vec<Rc<RangeCode>>,
    sheet: Sheet,
) -> Result<Listed, LoadFault>
    requires sheet { IsSheet (sheet_in sheet) }
    requires right { AreRight (number_marks (sheet_in sheet)) }
    requires pool { pool ≡ record { names = first_names ++ (sheet_in sheet).atoms; entries = [] } }
    requires ranges { AreRanges (sheet_in sheet) (map (λ r. r.value) ranges.items) }
    ensures code { IfOk result (λ l. l
        ≡ record { area = area_in (sheet_in sheet); states = (sheet_in sheet).states }) }
    ensures fault { IfErr result (IsSheetRefusal (sheet_in sheet)) }
{
    let first = first_line(&sheet);
    let Sheet {
        atoms: _,
        ranges: _,
        entries,
        queries,
        tables,
        states,
        code,
    } = sheet;
    let parts = CodeParts {
        pool,
        code,
        tables,
        ranges,
        entries,
        queries,
    };
    match verify(alloc, &parts, &states) {
        Ok(()) => {
            let area = CodeArea::from_verified(parts);
            Ok(Listed::from_verified(area, states))
        }
        Err(VerifyFault::NotVerified { place }) => {
            let line = first + place;
            Err(LoadFault::NotVerified { line })
        }
        Err(VerifyFault::NoMemory) => Err(LoadFault::NoMemory),
    }
}

/// The code that a sheet tells, or what it is refused for.
fn load_sheet(alloc: Global, sheet: Sheet) -> Result<Listed, LoadFault>
    requires { IsSheet (sheet_in sheet) }
    ensures code { IfOk result (λ l. l
        ≡ record { area = area_in (sheet_in sheet); states = (sheet_in sheet).states }) }
    ensures good { OnOk result (IsGood (sheet_in sheet)) }
    ensures fault { IfErr result (IsSheetRefusal (sheet_in sheet)) }
{
    let pool = pool_of(alloc, &sheet)?;
    let ranges = ranges_of(alloc, &sheet)?;
    code_of(alloc, pool, ranges, sheet)
}

/// The code whose listing the text is, with the states of its places. The errors say in which line
/// the text is no listing.
pub fn load(alloc: Global, text: &[u8]) -> Result<Listed, LoadFault>
    ensures listing { IfOk result (λ l. listing l.area l.states ≡ text.now) }
    ensures fault { IfErr result (λ e. IsLoadFault text.now e) }
    ensures known { (l : Seen) → IsHeld l → listing l.area l.states ≡ text.now → MatchResult result
        (λ m. IsSameCode l.area m.area × (m.states ≡ l.states)) (λ e. e ≡ LoadFault.NoMemory) }
{
    places_decide();
    match read_sheet(alloc, text) {
        Ok(sheet) => load_sheet(alloc, sheet),
        Err(SheetFault::BadLine { line }) => Err(LoadFault::BadLine { line }),
        Err(SheetFault::NoMemory) => Err(LoadFault::NoMemory),
    }
}
