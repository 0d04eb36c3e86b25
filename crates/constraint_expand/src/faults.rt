//! Why a constraint has no ranges.

ghost use Rattle.std.specs.Prelude.{◌≡◌};
ghost use Rattle.constraint_expand.specs.declared.faults.ExpandFault.TheVariants.{BadList, NoMemory};
ghost use Rattle.constraint_expand.specs.Faults.{outer, from_split};

use fd_language::NoMemory;
pub use fd_model::kinds::ListCause;
use linear_forms::LinearFault;
use product_bool::SplitFault;
use std::alloc::{AllocError, AllocFailed};
use thiserror::Error;

/// Why a constraint has no ranges.
#[derive(Debug, Drop, Error)]
pub enum ExpandFault {
    /// A side of a comparison is not linear, or too wide. Its want of memory is `NoMemory`.
    #[error("{0}")]
    Linear(LinearFault),
    /// A list, a member or a number is open or no number.
    #[error("a list that does not fit")]
    BadList(ListCause),
    /// Memory was wanting.
    #[error("out of memory")]
    NoMemory,
}

impl From<NoMemory> for ExpandFault {
    ghost from_gives = { λ _ fault. fault ≡ NoMemory };

    fn from(_error: NoMemory) -> ExpandFault {
        ExpandFault::NoMemory
    }
}

impl From<AllocError> for ExpandFault {
    ghost from_gives = { λ _ fault. fault ≡ NoMemory };

    fn from(_error: AllocError) -> ExpandFault {
        ExpandFault::NoMemory
    }
}

impl<T: Drop> From<AllocFailed<T>> for ExpandFault {
    ghost from_gives = { λ _ fault. fault ≡ NoMemory };

    fn from(_error: AllocFailed<T>) -> ExpandFault {
        ExpandFault::NoMemory
    }
}

impl From<ListCause> for ExpandFault {
    ghost from_gives = { λ cause fault. fault ≡ BadList cause };

    fn from(cause: ListCause) -> ExpandFault {
        ExpandFault::BadList(cause)
    }
}

impl From<LinearFault> for ExpandFault {
    ghost from_gives = { λ fault own. own ≡ outer fault };

    fn from(fault: LinearFault) -> ExpandFault {
        match fault {
            LinearFault::NoMemory => ExpandFault::NoMemory,
            LinearFault::Nonlinear => ExpandFault::Linear(LinearFault::Nonlinear),
            LinearFault::NotANumber => ExpandFault::Linear(LinearFault::NotANumber),
            LinearFault::Overflow => ExpandFault::Linear(LinearFault::Overflow),
        }
    }
}

impl From<SplitFault> for ExpandFault {
    ghost from_gives = { λ fault own. own ≡ from_split fault };

    fn from(fault: SplitFault) -> ExpandFault {
        match fault {
            SplitFault::Linear(linear) => ExpandFault::from(linear),
            SplitFault::BadArgument(cause) => ExpandFault::BadList(cause),
            SplitFault::NoMemory => ExpandFault::NoMemory,
        }
    }
}
