//! How a run ends that tells reasons.

ghost use Rattle.std.specs.Prelude.{◌≡◌};
ghost use Rattle.reason_meaning.specs.Output.{status_number};

/// How a run of the program ends that tells why queries have no answer.
#[derive(Clone, Copy, Debug, PartialEq, Eq)]
pub enum Status {
    /// Each query that was looked at has an answer.
    Answered,
    /// A reason was told, and each other query has an answer.
    Explained,
    Usage,
    Refused,
    /// Of some query it isn't known.
    Unknown,
    ReadFault,
    WriteFault,
    NoMemory,
}

impl Status {
    /// The exit status of the process.
    pub fn number(self) -> u8
        ensures { result ≡ status_number self }
    {
        match self {
            Status::Answered => 0,
            Status::Explained => 1,
            Status::Usage => 2,
            Status::Refused => 3,
            Status::Unknown => 4,
            Status::ReadFault => 5,
            Status::WriteFault => 6,
            Status::NoMemory => 7,
        }
    }
}
