//! The ranges of `in` goals.

ghost use Rattle.std.specs.Prelude.{◌<◌, length};
ghost use Rattle.term_pool.specs.PlacedTerms.{placed_of};
ghost use Rattle.clause_check.specs.Causes.{IsOffence, IsUnspelled};
ghost use Rattle.clause_check.specs.GoalRecords.{IsRangeOf};

use crate::faults::{Cause, Fault};
use monotone_check::{CheckFault, Checked, check};
use range_terms::{RangeFault, read_range};
use std::alloc::Global;
use term_pool::{Pool, TermId};

/// The refusal of a term that spells no range.
fn unspelled(fault: RangeFault) -> Fault
    ensures { IsUnspelled fault result }
{
    match fault {
        RangeFault::NotARange { place } => Fault::Refused {
            place,
            cause: Cause::NotARange,
        },
        RangeFault::NoMemory => Fault::NoMemory,
    }
}

/// The refusal of a range that the check doesn't accept.
fn offence(fault: CheckFault) -> Fault
    ensures { IsOffence fault result }
{
    let place = match fault {
        CheckFault::NotMonotone { place }
        | CheckFault::NotNatural { place }
        | CheckFault::BadDivisor { place }
        | CheckFault::TooWide { place } => place,
        CheckFault::NoMemory => return Fault::NoMemory,
    };
    Fault::Refused {
        place,
        cause: Cause::Check(fault),
    }
}

/// The range that a term spells, where the check accepts it. `infinity` is the number that the word is read as.
pub(crate) fn accepted_range(
    alloc: Global,
    pool: &Pool,
    t: TermId,
    infinity: u32,
) -> Result<Checked, Fault>
    requires { t.number < length pool.now.entries }
    ensures { IsRangeOf infinity pool.now (placed_of pool.now t) result }
{
    let source = match read_range(alloc, pool, t, infinity) {
        Ok(source) => source,
        Err(fault) => return Err(unspelled(fault)),
    };
    match check(alloc, source.range, &source.places) {
        Ok(checked) => Ok(checked),
        Err(fault) => Err(offence(fault)),
    }
}
