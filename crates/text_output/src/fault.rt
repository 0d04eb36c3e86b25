//! What cuts the writing of an output short.

ghost use Rattle.text_output.specs.declared.fault.Fault.TheVariants.{WriteFault, NoMemory};
ghost use Rattle.std.specs.Prelude.{◌≡◌};
ghost use Rattle.text_output.specs.Endings.{fault_status};

use byte_ports::WriteFault;
use fd_language::NoMemory;
use fd_model::Status;
use std::alloc::{AllocError, AllocFailed};
use thiserror::Error;

/// Why an output was not written whole.
#[derive(Clone, Copy, Debug, Drop, Error)]
pub enum Fault {
    /// A write failed, and the sink counted it.
    #[error("a write failed")]
    WriteFault,
    /// Memory was wanting.
    #[error("out of memory")]
    NoMemory,
}

impl Fault {
    /// The status of a run that was cut short.
    pub fn status(self) -> Status
        ensures { result ≡ fault_status self }
    {
        match self {
            Fault::WriteFault => Status::WriteFault,
            Fault::NoMemory => Status::NoMemory,
        }
    }
}

impl From<WriteFault> for Fault {
    ghost from_gives = { λ _ fault. fault ≡ WriteFault };

    fn from(_fault: WriteFault) -> Fault {
        Fault::WriteFault
    }
}

impl From<NoMemory> for Fault {
    ghost from_gives = { λ _ fault. fault ≡ NoMemory };

    fn from(_fault: NoMemory) -> Fault {
        Fault::NoMemory
    }
}

impl From<AllocError> for Fault {
    ghost from_gives = { λ _ fault. fault ≡ NoMemory };

    fn from(_error: AllocError) -> Fault {
        Fault::NoMemory
    }
}

impl<T: Drop> From<AllocFailed<T>> for Fault {
    ghost from_gives = { λ _ fault. fault ≡ NoMemory };

    fn from(_error: AllocFailed<T>) -> Fault {
        Fault::NoMemory
    }
}
