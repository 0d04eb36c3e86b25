//! What a text is: a program, or refused at a place for a reason.

ghost use Rattle.std.specs.Prelude.{◌≡◌, ◌≤◌, ℕ, length, IfOk};
ghost use Rattle.fd_language.specs.Reading as Reading;
ghost use Rattle.fd_language.specs.declared.TheConstants.{INFINITY as TOP};
ghost use Rattle.fd_model.specs.Verdict as Verdicts;
ghost use Rattle.fd_model.specs.Verdict.{reading_verdict};
ghost use Rattle.answer_text.specs.Reasons.{reason_text, IsReasonIn};
ghost use Rattle.char_tokens.specs.Views.{cause_of};
ghost use Rattle.clause_check.specs.Causes.{cause_text, check_text, IsCauseAt, IsCheckedAt};
ghost use Rattle.term_pool.specs.Contents.{Contents};
ghost use Rattle.term_reader.specs.GivenParts.{HaveParts};
ghost use Rattle.term_reader.specs.VariableNames.{HaveNames};
ghost use Rattle.term_reader.specs.Sentences.{sentences_of, AreOwn, IsFaultFor};
ghost use Rattle.text_verdict.specs.Verdicts.{Is, IsVerdictOn};

use answer_text::Reason;
use byte_ports::MAX_TEXT;
use char_tokens::{TokenCause, TokenFault};
use clause_check::{Cause, Program, ProgramFault, check_program};
use fd_language::NoMemory;
use monotone_check::CheckFault;
use std::alloc::Global;
use term_pool::Pool;
use term_reader::{ReaderFault, Sentences, read_sentences};

/// What a text is.
#[derive(Drop)]
pub enum Verdict {
    /// Accepted: its program.
    Accepted(Program),
    /// Refused: the place in bytes and the reason, whose names are atoms of the pool.
    Refused {
        place: usize,
        reason: Reason,
        pool: Pool,
    },
}

/// The refusal of a text that has no names yet.
pub fn refused(alloc: Global, place: usize, reason: Reason) -> Result<Verdict, NoMemory>
    ensures { IfOk result (λ v. (pool : Contents) × (v ≡ Verdict.Refused place reason pool)) }
{
    let pool = Pool::new(alloc)?;
    Ok(Verdict::Refused {
        place,
        reason,
        pool,
    })
}

/// What a text of bytes is. `infinity` is the number that the word is read as, the greatest that a variable may have.
pub fn judge_text(alloc: Global, text: &[u8], infinity: u32) -> Result<Verdict, NoMemory>
    requires size { length text.now ≤ MAX_TEXT }
    requires infinity { (1 ≤ infinity) × (infinity ≤ TOP) }
    ensures { IfOk result (IsVerdictOn infinity text.now) }
{
    match std::str::from_utf8(text) {
        Ok(text) => judge_characters(alloc, text, infinity),
        Err(error) => refused(alloc, error.valid_up_to(), Reason::NotUtf8),
    }
}

/// What a text of characters is.
fn judge_characters(alloc: Global, text: &str, infinity: u32) -> Result<Verdict, NoMemory>
    requires size { length text.now ≤ MAX_TEXT }
    requires infinity { (1 ≤ infinity) × (infinity ≤ TOP) }
    ensures { IfOk result (IsVerdictOn infinity text.now) }
{
    match read_sentences(alloc, text) {
        Ok(sentences) => judge_sentences(alloc, sentences, infinity),
        Err(fault) => judge_fault(alloc, fault),
    }
}

/// What a text is that has no sentences.
fn judge_fault(alloc: Global, fault: ReaderFault) -> Result<Verdict, NoMemory>
    ensures { (N : ℕ) (r : Reading.Reading) → IsFaultFor r fault → IfOk result (Is (reading_verdict
        TOP N r)) }
{
    match fault {
        ReaderFault::Token(TokenFault::At { place, cause }) => {
            refused(alloc, place, token_reason(cause))
        }
        ReaderFault::Token(TokenFault::NoMemory) | ReaderFault::NoMemory => Err(NoMemory),
        ReaderFault::Syntax { place } => refused(alloc, place, Reason::Syntax),
        ReaderFault::TooDeep { place } => refused(alloc, place, Reason::TooDeep),
    }
}

/// The reason that a fault of the tokens has.
fn token_reason(cause: TokenCause) -> Reason
    ensures { (c : Contents) → IsReasonIn c result × (reason_text c result ≡ Verdicts.cause_name
        (cause_of cause)) }
{
    match cause {
        TokenCause::BadCharacter => Reason::BadCharacter,
        TokenCause::OpenQuote => Reason::OpenQuote,
        TokenCause::OpenComment => Reason::OpenComment,
        TokenCause::BadEscape => Reason::BadEscape,
        TokenCause::IntegerTooWide => Reason::IntegerTooWide,
        TokenCause::FloatOut => Reason::FloatOut,
        TokenCause::StringOut => Reason::StringOut,
    }
}

/// What a text of sentences is.
fn judge_sentences(alloc: Global, sentences: Sentences, infinity: u32) -> Result<Verdict, NoMemory>
    requires infinity { (1 ≤ infinity) × (infinity ≤ TOP) }
    requires own { AreOwn sentences }
    requires names { HaveNames sentences }
    requires parts { HaveParts sentences }
    ensures { IfOk result (Is (reading_verdict TOP infinity (Reading.sentences
        (sentences_of sentences)))) }
{
    match check_program(alloc, sentences, infinity) {
        Ok(program) => Ok(Verdict::Accepted(program)),
        Err(ProgramFault::At { place, cause, pool }) => Ok(Verdict::Refused {
            place,
            reason: sentence_reason(&cause),
            pool,
        }),
        Err(ProgramFault::NoMemory) => Err(NoMemory),
    }
}

/// The reason that the refusal of a sentence has. Want of memory is no cause of one.
fn sentence_reason(cause: &Cause) -> Reason
    ensures { (c : Contents) (p : ℕ) → IsCauseAt c p cause.now → IsReasonIn c result × (reason_text
        c result ≡ cause_text c cause.now) }
{
    match cause {
        Cause::BadHead => Reason::BadHead,
        Cause::BadGoal => Reason::BadGoal,
        Cause::Unknown { name, arity } => Reason::Unknown {
            name: *name,
            arity: *arity,
        },
        Cause::Redefines { name, arity } => Reason::Redefines {
            name: *name,
            arity: *arity,
        },
        Cause::ArityOver255 => Reason::ArityOver255,
        Cause::NotARange => Reason::NotARange,
        Cause::Check(fault) => range_reason(fault),
    }
}

/// The reason that the refusal of a range has. Want of memory is no cause of one.
fn range_reason(fault: &CheckFault) -> Reason
    ensures { (c : Contents) (p : ℕ) → IsCheckedAt p fault.now → IsReasonIn c result × (reason_text
        c result ≡ check_text fault.now) }
{
    match fault {
        CheckFault::NotMonotone { .. } => Reason::NotMonotone,
        CheckFault::NotNatural { .. } => Reason::NotNatural,
        CheckFault::BadDivisor { .. } => Reason::BadDivisor,
        CheckFault::TooWide { .. } | CheckFault::NoMemory => Reason::TooWide,
    }
}
