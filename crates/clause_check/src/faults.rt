//! Why the sentences of a text have no program.

ghost use Rattle.std.specs.Prelude.{◌≡◌, ◌<◌, Some, length};
ghost use Rattle.fd_language.specs.PlacedTerm.{place};
ghost use Rattle.fd_model.specs.Refusals.{refused_at};
ghost use Rattle.term_pool.specs.PlacedTerms.{placed_of};
ghost use Rattle.clause_check.specs.Causes.{cause_text, with_pool as told_with, IsCauseAt, RefusedBy};
ghost use Rattle.clause_check.specs.declared.faults.Fault.TheVariants as faults;

use fd_language::NoMemory;
use monotone_check::CheckFault;
use std::alloc::AllocFailed;
use term_pool::{AtomId, Pool, TermId};

/// Why a sentence is refused.
#[derive(Drop)]
pub enum Cause {
    /// A head is a variable, an integer, or has a name that no head may have; or a sentence `:- B` has none.
    BadHead,
    /// A goal is a variable, an integer, or has a name that no goal may have.
    BadGoal,
    /// The name of a goal is neither built in nor that of a head in the text.
    Unknown { name: AtomId, arity: usize },
    /// A head has the name of a control or built-in form.
    Redefines { name: AtomId, arity: usize },
    /// A compound term has more than 255 arguments.
    ArityOver255,
    /// The term on the right of `in` spells no range.
    NotARange,
    /// The range is not accepted.
    Check(CheckFault),
}

/// Why a text has no program.
#[derive(Drop)]
pub enum ProgramFault {
    /// The first refusal in the text: its place in bytes, its cause, and the pool of the text, whose atoms the cause names.
    At {
        place: usize,
        cause: Cause,
        pool: Pool,
    },
    /// Memory was wanting.
    NoMemory,
}

/// The same without the pool.
#[derive(Drop)]
pub(crate) enum Fault {
    Refused { place: usize, cause: Cause },
    NoMemory,
}

impl From<NoMemory> for Fault {
    ghost from_gives = { λ _ fault. fault ≡ faults.NoMemory };

    fn from(_error: NoMemory) -> Fault {
        Fault::NoMemory
    }
}

impl<T: Drop> From<AllocFailed<T>> for Fault {
    ghost from_gives = { λ _ fault. fault ≡ faults.NoMemory };

    fn from(_error: AllocFailed<T>) -> Fault {
        Fault::NoMemory
    }
}

/// The refusal of a term.
pub(crate) fn refused(pool: &Pool, t: TermId, cause: Cause) -> Fault
    requires term { t.number < length pool.now.entries }
    requires cause { IsCauseAt pool.now (place (placed_of pool.now t)) cause }
    ensures fault { RefusedBy pool.now (Some (refused_at (place (placed_of pool.now t))
        (cause_text pool.now cause))) result }
    ensures memory { result ≡ faults.NoMemory → ⊥ }
{
    Fault::Refused {
        place: pool.place(t),
        cause,
    }
}

/// The same fault with the pool of the text.
pub(crate) fn with_pool(fault: Fault, pool: Pool) -> ProgramFault
    ensures { result ≡ told_with pool fault }
{
    match fault {
        Fault::Refused { place, cause } => ProgramFault::At { place, cause, pool },
        Fault::NoMemory => ProgramFault::NoMemory,
    }
}
