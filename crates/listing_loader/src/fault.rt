//! Why a text is no listing of code.

ghost use Rattle.std.specs.Prelude.{◌≡◌};
ghost use Rattle.listing_loader.specs.declared.fault.LoadFault.TheVariants as Told;

use fd_language::NoMemory;
use std::alloc::{AllocError, AllocFailed};
use thiserror::Error;

/// Why a text is no listing of code. Lines are numbered from 1.
#[derive(Clone, Copy, Debug, PartialEq, Eq, Drop, Error)]
pub enum LoadFault {
    /// The first line that isn't of its form, is missing, or is one too many.
    #[error("bad line {line}")]
    BadLine { line: usize },
    /// The first line that repeats an atom, has slots or keys out of order, or names what isn't
    /// there.
    #[error("bad number in line {line}")]
    BadNumber { line: usize },
    /// The first range that its nodes don't spell, or that can't be posted.
    #[error("bad range in line {line}")]
    BadRange { line: usize },
    /// The smallest place at which the code isn't verified by its states.
    #[error("not verified in line {line}")]
    NotVerified { line: usize },
    /// Memory was wanting.
    #[error("out of memory")]
    NoMemory,
}

impl From<NoMemory> for LoadFault {
    ghost from_gives = { λ _ fault. fault ≡ Told.NoMemory };

    fn from(_error: NoMemory) -> LoadFault {
        LoadFault::NoMemory
    }
}

impl From<AllocError> for LoadFault {
    ghost from_gives = { λ _ fault. fault ≡ Told.NoMemory };

    fn from(_error: AllocError) -> LoadFault {
        LoadFault::NoMemory
    }
}

impl<T: Drop> From<AllocFailed<T>> for LoadFault {
    ghost from_gives = { λ _ fault. fault ≡ Told.NoMemory };

    fn from(_error: AllocFailed<T>) -> LoadFault {
        LoadFault::NoMemory
    }
}
