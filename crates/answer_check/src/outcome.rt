//! How a check ends, and why an input is refused.

ghost use Rattle.std.specs.Prelude.{◌≡◌};
ghost use Rattle.char_tokens.specs.Views.{cause_of};
ghost use Rattle.fd_model.specs.Verdict.{cause_name};
ghost use Rattle.answer_check.specs.Faults.{fault_status};
ghost use Rattle.answer_check.specs.Headline.{status_number};
ghost use Rattle.answer_check.specs.declared.outcome.Fault.TheVariants as fault;
ghost use Rattle.answer_check.specs.Refusals.{reason_text};
ghost use Rattle.answer_check.specs.declared.outcome.Stop.TheVariants as stop;

use byte_ports::WriteFault;
use char_tokens::TokenCause;
use fd_language::NoMemory;
use std::alloc::{AllocError, AllocFailed};
use thiserror::Error;

/// How a check ended.
#[derive(Clone, Copy, Debug, PartialEq, Eq)]
pub enum CheckStatus {
    /// Every answer satisfies every constraint, and they rise where they have to.
    Good,
    /// Some answer breaks a constraint, or they don't rise.
    Bad,
    /// There are words; the usage line was written.
    Usage,
    /// The input is no query of the form with its answers; the line that says where and why was written.
    Refused,
    /// A read of the input failed, and the source counted it.
    ReadFault,
    /// A write failed, and the sink counted it.
    WriteFault,
    /// Memory was wanting.
    NoMemory,
}

impl CheckStatus {
    /// The number with which the program ends.
    pub fn number(self) -> u8
        ensures { result ≡ status_number self }
    {
        match self {
            CheckStatus::Good => 0,
            CheckStatus::Bad => 1,
            CheckStatus::Usage => 2,
            CheckStatus::Refused => 3,
            CheckStatus::ReadFault => 5,
            CheckStatus::WriteFault => 6,
            CheckStatus::NoMemory => 7,
        }
    }
}

/// Why an input is refused, in the order in which the reasons are looked at.
#[derive(Clone, Copy, Debug)]
pub(crate) enum Reason {
    /// It has too many bytes.
    TooLarge,
    /// Its bytes are not UTF-8.
    NotUtf8,
    /// No line of it is `query 1`.
    NoAnswers,
    /// A fault of the tokens of the text.
    Token(TokenCause),
    /// The grammar doesn't go on there.
    Syntax,
    /// Too many brackets are open.
    TooDeep,
    /// The text is no query of the flat form.
    NotFlat,
    /// A line is no answer, or stands where none may.
    BadAnswer,
}

/// How the fault of a token is told.
fn token_words(cause: TokenCause) -> &'static str
    ensures { result.now ≡ cause_name (cause_of cause) }
{
    match cause {
        TokenCause::BadCharacter => "bad character",
        TokenCause::OpenQuote => "open quote",
        TokenCause::OpenComment => "open comment",
        TokenCause::BadEscape => "bad escape",
        TokenCause::IntegerTooWide => "integer too wide",
        TokenCause::FloatOut => "float",
        TokenCause::StringOut => "string",
    }
}

impl Reason {
    /// How it is told.
    pub fn words(self) -> &'static str
        ensures { result.now ≡ reason_text self }
    {
        match self {
            Reason::TooLarge => "too large",
            Reason::NotUtf8 => "not UTF-8",
            Reason::NoAnswers => "no answers",
            Reason::Token(cause) => token_words(cause),
            Reason::Syntax => "syntax",
            Reason::TooDeep => "too deep",
            Reason::NotFlat => "not flat",
            Reason::BadAnswer => "bad answer",
        }
    }
}

/// What ends the writing of a report early.
#[derive(Clone, Copy, Debug, Drop, Error)]
pub(crate) enum Fault {
    /// A write failed, and the sink counted it.
    #[error("a write failed")]
    WriteFault,
    /// Memory was wanting.
    #[error("out of memory")]
    NoMemory,
}

impl Fault {
    /// How the check ends.
    pub fn status(self) -> CheckStatus
        ensures { result ≡ fault_status self }
    {
        match self {
            Fault::WriteFault => CheckStatus::WriteFault,
            Fault::NoMemory => CheckStatus::NoMemory,
        }
    }
}

impl From<WriteFault> for Fault {
    ghost from_gives = { λ _ e. e ≡ fault.WriteFault };

    fn from(_fault: WriteFault) -> Fault {
        Fault::WriteFault
    }
}

impl From<NoMemory> for Fault {
    ghost from_gives = { λ _ e. e ≡ fault.NoMemory };

    fn from(_fault: NoMemory) -> Fault {
        Fault::NoMemory
    }
}

/// What stops a check before it says anything of answers.
#[derive(Debug, Drop, Error)]
pub(crate) enum Stop {
    /// The input is refused, at a place in bytes.
    #[error("refused at {place}")]
    Refused { place: usize, reason: Reason },
    /// Memory was wanting.
    #[error("out of memory")]
    NoMemory,
}

impl From<NoMemory> for Stop {
    ghost from_gives = { λ _ e. e ≡ stop.NoMemory };

    fn from(_fault: NoMemory) -> Stop {
        Stop::NoMemory
    }
}

impl From<AllocError> for Stop {
    ghost from_gives = { λ _ e. e ≡ stop.NoMemory };

    fn from(_error: AllocError) -> Stop {
        Stop::NoMemory
    }
}

impl<T: Drop> From<AllocFailed<T>> for Stop {
    ghost from_gives = { λ _ e. e ≡ stop.NoMemory };

    fn from(_error: AllocFailed<T>) -> Stop {
        Stop::NoMemory
    }
}
