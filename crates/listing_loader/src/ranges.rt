//! The ranges of a sheet, made ready to be posted.

ghost use Rattle.std.specs.Prelude.{◌≡◌, map, Option, None, IsTrue, IfOk, IfErr, OnErr, OnOk, MatchOption};
ghost use Rattle.fd_language.specs.declared.range_node.Offence.{Offence};
ghost use Rattle.fd_language.specs.PostfixRanges.{spelled_range};
ghost use Rattle.fd_language.specs.RangeVerdict.{is_accepted};
ghost use Rattle.monotone_check.specs.Faults.{IsFaultOf};
ghost use Rattle.listing_reader.specs.Sheets.{sheet_in};
ghost use Rattle.listing_loader.specs.Marks.{number_marks, AreRight, IsGoodRange};
ghost use Rattle.listing_loader.specs.LoadedCode.{IsSheetRefusal, AreRanges};

use crate::fault::LoadFault;
use fd_language::{FlatRange, INFINITY, NoMemory, RangeNode};
use listing_reader::Sheet;
use monotone_check::{CheckFault, check};
use range_code::{RangeCode, compile_range};
use std::alloc::Global;
use std::rc::Rc;

/// Nothing, where the check refuses a range and memory wasn't wanting.
fn refused(fault: CheckFault) -> Result<(), NoMemory>
    ensures offence { OnOk result ((o : Option Offence) → IsFaultOf o fault → ¬ (o ≡ None)) }
    ensures memory { OnErr result (fault ≡ CheckFault.NoMemory) }
{
    match fault {
        CheckFault::NotMonotone { .. } => Ok(()),
        CheckFault::NotNatural { .. } => Ok(()),
        CheckFault::BadDivisor { .. } => Ok(()),
        CheckFault::TooWide { .. } => Ok(()),
        CheckFault::NoMemory => Err(NoMemory),
    }
}

/// The range, ready to be posted. `None` where it can't be.
fn checked_range(alloc: Global, range: FlatRange) -> Result<Option<RangeCode>, NoMemory>
    ensures { IfOk result (λ o. MatchOption o (¬ IsTrue (is_accepted INFINITY range))
        (λ r. IsTrue (is_accepted INFINITY range) × (r ≡ range))) }
{
    let places = vec![in alloc; 0; range.nodes().len()]?;
    match check(alloc, range, &places) {
        Ok(checked) => Ok(Some(compile_range(alloc, &checked)?)),
        Err(fault) => {
            refused(fault)?;
            Ok(None)
        }
    }
}

/// The range that nodes spell, ready to be posted. `None` where they spell none, or one that can't
/// be posted.
fn range_of(alloc: Global, nodes: &[RangeNode]) -> Result<Option<RangeCode>, NoMemory>
    ensures { IfOk result (λ o. MatchOption o (¬ IsGoodRange nodes.now)
        (λ r. IsGoodRange nodes.now × (r ≡ spelled_range nodes.now))) }
{
    let copy = Vec::from_slice(alloc, nodes)?;
    match FlatRange::from_nodes(copy) {
        Some(range) => checked_range(alloc, range),
        None => Ok(None),
    }
}

/// The ranges of a sheet, or the line of the first that can't be posted.
pub(crate) fn ranges_of(alloc: Global, sheet: &Sheet) -> Result<Vec<Rc<RangeCode>>, LoadFault>
    requires { AreRight (number_marks (sheet_in sheet.now)) }
    ensures ranges { IfOk result (λ v. AreRanges (sheet_in sheet.now) (map (λ r. r.value) v.items)) }
    ensures fault { IfErr result (IsSheetRefusal (sheet_in sheet.now)) }
{
    let first = 4 + sheet.atoms.len();
    let mut ranges = Vec::new(alloc);
    for (index, nodes) in sheet.ranges.iter().enumerate() {
        let Some(range) = range_of(alloc, nodes)? else {
            return Err(LoadFault::BadRange {
                line: first + index,
            });
        };
        ranges.push(Rc::new(alloc, range)?)?;
    }
    Ok(ranges)
}
