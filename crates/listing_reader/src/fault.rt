//! Why a text is no listing.

ghost use Rattle.std.specs.Prelude.{◌≡◌, None, Some, IfErr, IfOk};
ghost use Rattle.listing_reader.specs.declared.fault.SheetFault.TheVariants.{BadLine, NoMemory};

use fd_language::NoMemory;
use std::alloc::{AllocError, AllocFailed};
use thiserror::Error;

/// Why a text is no listing. Lines are numbered from 1.
#[derive(Clone, Copy, Debug, PartialEq, Eq, Drop, Error)]
pub enum SheetFault {
    /// The first line that isn't of its form, is missing, or is one too many.
    #[error("bad line {line}")]
    BadLine { line: usize },
    /// Memory was wanting.
    #[error("out of memory")]
    NoMemory,
}

impl From<NoMemory> for SheetFault {
    ghost from_gives = { λ _ fault. fault ≡ NoMemory };

    fn from(_error: NoMemory) -> SheetFault {
        SheetFault::NoMemory
    }
}

impl From<AllocError> for SheetFault {
    ghost from_gives = { λ _ fault. fault ≡ NoMemory };

    fn from(_error: AllocError) -> SheetFault {
        SheetFault::NoMemory
    }
}

impl<T: Drop> From<AllocFailed<T>> for SheetFault {
    ghost from_gives = { λ _ fault. fault ≡ NoMemory };

    fn from(_error: AllocFailed<T>) -> SheetFault {
        SheetFault::NoMemory
    }
}

/// What was found, if anything was. Else this line is a bad one.
#[inline]
pub(crate) fn or_bad_line<T>(found: Option<T>, line: usize) -> Result<T, SheetFault>
    ensures found { IfOk result (λ x. found ≡ Some x) }
    ensures fault { IfErr result (λ e. (found ≡ None) × (e ≡ BadLine line)) }
{
    found.ok_or(SheetFault::BadLine { line })
}
