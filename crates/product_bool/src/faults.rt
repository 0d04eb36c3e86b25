//! Why a constraint is not split.

ghost use Rattle.std.specs.Prelude.{◌≡◌};
ghost use Rattle.product_bool.specs.declared.faults.SplitFault.TheVariants.{BadArgument, NoMemory};
ghost use Rattle.product_bool.specs.Faults.{outer, IsOrOverflow};

use fd_language::NoMemory;
use fd_model::kinds::ListCause;
use linear_forms::LinearFault;
use std::alloc::{AllocError, AllocFailed};
use thiserror::Error;

/// Why a constraint is not split.
#[derive(Debug, Drop, Error)]
pub enum SplitFault {
    /// A side of a comparison is not linear, or too wide. Its want of memory is `NoMemory`.
    #[error("{0}")]
    Linear(LinearFault),
    /// An argument is open or does not fit.
    #[error("an argument that does not fit")]
    BadArgument(ListCause),
    /// Memory was wanting.
    #[error("out of memory")]
    NoMemory,
}

impl From<NoMemory> for SplitFault {
    ghost from_gives = { λ _ fault. fault ≡ NoMemory };

    fn from(_error: NoMemory) -> SplitFault {
        SplitFault::NoMemory
    }
}

impl From<AllocError> for SplitFault {
    ghost from_gives = { λ _ fault. fault ≡ NoMemory };

    fn from(_error: AllocError) -> SplitFault {
        SplitFault::NoMemory
    }
}

impl<T: Drop> From<AllocFailed<T>> for SplitFault {
    ghost from_gives = { λ _ fault. fault ≡ NoMemory };

    fn from(_error: AllocFailed<T>) -> SplitFault {
        SplitFault::NoMemory
    }
}

impl From<ListCause> for SplitFault {
    ghost from_gives = { λ cause fault. fault ≡ BadArgument cause };

    fn from(cause: ListCause) -> SplitFault {
        SplitFault::BadArgument(cause)
    }
}

impl From<LinearFault> for SplitFault {
    ghost from_gives = { λ fault own. own ≡ outer fault };

    fn from(fault: LinearFault) -> SplitFault {
        match fault {
            LinearFault::NoMemory => SplitFault::NoMemory,
            LinearFault::Nonlinear => SplitFault::Linear(LinearFault::Nonlinear),
            LinearFault::NotANumber => SplitFault::Linear(LinearFault::NotANumber),
            LinearFault::Overflow => SplitFault::Linear(LinearFault::Overflow),
        }
    }
}

/// What there is, or an overflow where there is nothing. No memory.
#[inline]
pub(crate) fn or_overflow<T>(found: Option<T>) -> Result<T, SplitFault>
    ensures { IsOrOverflow found result }
{
    match found {
        Some(value) => Ok(value),
        None => Err(SplitFault::Linear(LinearFault::Overflow)),
    }
}
