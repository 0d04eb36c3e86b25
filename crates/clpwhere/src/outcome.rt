//! How a run ends, and what cuts it short.

ghost use Rattle.std.specs.Prelude.{◌≡◌};
ghost use Rattle.clpwhere.specs.Endings.{fault_status, status_number};
ghost use Rattle.clpwhere.specs.declared.outcome.Fault.TheVariants as fault;

use byte_ports::WriteFault;
use fd_language::NoMemory;
use std::alloc::{AllocError, AllocFailed};
use thiserror::Error;

/// How a run ended.
#[derive(Clone, Copy, Debug, PartialEq, Eq)]
pub enum Status {
    /// Every line passed through, the text has no warning, or the lines that were asked for were written.
    Done,
    /// The text has warnings, which were written.
    Warned,
    /// The words aren't accepted; the usage line was written.
    Usage,
    /// The input told a refusal, which was explained; or a text that was to be looked through isn't read as sentences.
    Refused,
    /// The text's file can't be read; the line that says so was written.
    Unreadable,
    /// A read of the input failed, and the source counted it.
    ReadFault,
    /// A write failed, and the sink counted it.
    WriteFault,
    /// Memory was wanting.
    NoMemory,
}

impl Status {
    /// The number with which the program ends.
    pub fn number(self) -> u8
        ensures { result ≡ status_number self }
    {
        match self {
            Status::Done => 0,
            Status::Warned => 1,
            Status::Usage => 2,
            Status::Refused => 3,
            Status::Unreadable => 4,
            Status::ReadFault => 5,
            Status::WriteFault => 6,
            Status::NoMemory => 7,
        }
    }
}

/// Why a run was cut short.
#[derive(Clone, Copy, Debug, Drop, Error)]
pub(crate) enum Fault {
    /// A read failed, and the source counted it.
    #[error("a read failed")]
    ReadFault,
    /// A write failed, and the sink counted it.
    #[error("a write failed")]
    WriteFault,
    /// Memory was wanting.
    #[error("out of memory")]
    NoMemory,
}

impl Fault {
    /// The status of a run that was cut short.
    pub fn status(self) -> Status
        ensures { result ≡ fault_status self }
    {
        match self {
            Fault::ReadFault => Status::ReadFault,
            Fault::WriteFault => Status::WriteFault,
            Fault::NoMemory => Status::NoMemory,
        }
    }
}

impl From<WriteFault> for Fault {
    ghost from_gives = { λ _ e. e ≡ fault.WriteFault };

    fn from(_fault: WriteFault) -> Fault {
        Fault::WriteFault
    }
}

impl From<NoMemory> for Fault {
    ghost from_gives = { λ _ e. e ≡ fault.NoMemory };

    fn from(_fault: NoMemory) -> Fault {
        Fault::NoMemory
    }
}

impl From<AllocError> for Fault {
    ghost from_gives = { λ _ e. e ≡ fault.NoMemory };

    fn from(_error: AllocError) -> Fault {
        Fault::NoMemory
    }
}

impl<T: Drop> From<AllocFailed<T>> for Fault {
    ghost from_gives = { λ _ e. e ≡ fault.NoMemory };

    fn from(_error: AllocFailed<T>) -> Fault {
        Fault::NoMemory
    }
}
