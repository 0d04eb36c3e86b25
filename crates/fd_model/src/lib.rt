//! What a text means when it runs: families closed under what is posted, branches, runs, lines and outputs, and their laws.
#![tactic(auto)]

ghost use Rattle.std.specs.Prelude.{◌≡◌};
ghost use Rattle.fd_model.specs.Output.{status_number};

pub mod kinds;
pub mod labelling_laws;
pub mod laws;
pub mod posted_laws;
pub mod rewriting_laws;

pub use fd_language::{Feature, FlatRange, INFINITY, Need, NoMemory, Offence, RangeNode};

/// How a run of the program ends.
#[derive(Clone, Copy, Debug, PartialEq, Eq)]
pub enum Status {
    Done,
    Usage,
    Refused,
    Stopped,
    ReadFault,
    WriteFault,
    NoMemory,
}

impl Status {
    /// The exit status of the process.
    pub fn number(self) -> u8
        ensures { result ≡ status_number self }
    {
        match self {
            Status::Done => 0,
            Status::Usage => 2,
            Status::Refused => 3,
            Status::Stopped => 4,
            Status::ReadFault => 5,
            Status::WriteFault => 6,
            Status::NoMemory => 7,
        }
    }
}
