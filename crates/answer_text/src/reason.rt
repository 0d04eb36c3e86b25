//! Why a text is refused.

ghost use Rattle.std.specs.Prelude.{◌≡◌, ◌++◌, ◌<◌, length, OnOk};
ghost use Rattle.fd_model.specs.Refusals.{functor, functor_name};
ghost use Rattle.term_pool.specs.Contents.{atom_name};
ghost use Rattle.answer_text.specs.Reasons.{reason_text, reason_words, IsReasonIn};

use crate::numbers::put_number;
use fd_language::NoMemory;
use std::alloc::Global;
use term_pool::{AtomId, Pool};
use term_writer::write_atom;

/// Why a text is refused.
#[derive(Clone, Copy)]
pub enum Reason {
    /// It has too many bytes.
    TooLarge,
    /// Its bytes are not UTF-8.
    NotUtf8,
    /// A character starts no token.
    BadCharacter,
    /// A quote isn't closed.
    OpenQuote,
    /// A comment isn't closed.
    OpenComment,
    /// An escape in a quoted name spells no character.
    BadEscape,
    /// An integer has more than 63 bits.
    IntegerTooWide,
    /// A number with a fraction.
    FloatOut,
    /// A double-quoted text.
    StringOut,
    /// The grammar doesn't go on here.
    Syntax,
    /// Too many brackets are open.
    TooDeep,
    /// A head is a variable, an integer, or has a name that no head may have; or a sentence `:- B` has none.
    BadHead,
    /// A goal is a variable, an integer, or has a name that no goal may have.
    BadGoal,
    /// A compound term has too many arguments.
    ArityOver255,
    /// The name of a goal is neither built in nor that of a head.
    Unknown { name: AtomId, arity: usize },
    /// A head has the name of a control or built-in form.
    Redefines { name: AtomId, arity: usize },
    /// The term on the right of `in` spells no range.
    NotARange,
    /// The range can grow when domains shrink.
    NotMonotone,
    /// A difference or a literal below 0 where a natural number is asked for.
    NotNatural,
    /// A literal divisor below 1, or one of a pointwise quotient that is neither a literal nor a parameter.
    BadDivisor,
    /// Values over the limit of 126 bits.
    TooWide,
}

/// The text of a reason, without the functor that follows it in some.
fn reason_name(reason: &Reason) -> &'static str
    ensures { result.now ≡ reason_words reason.now }
{
    match reason {
        Reason::TooLarge => "too large",
        Reason::NotUtf8 => "not UTF-8",
        Reason::BadCharacter => "bad character",
        Reason::OpenQuote => "open quote",
        Reason::OpenComment => "open comment",
        Reason::BadEscape => "bad escape",
        Reason::IntegerTooWide => "integer too wide",
        Reason::FloatOut => "float",
        Reason::StringOut => "string",
        Reason::Syntax => "syntax",
        Reason::TooDeep => "too deep",
        Reason::BadHead => "bad head",
        Reason::BadGoal => "bad goal",
        Reason::ArityOver255 => "arity over 255",
        Reason::Unknown { .. } => "unknown ",
        Reason::Redefines { .. } => "redefines ",
        Reason::NotARange => "not a range",
        Reason::NotMonotone => "not monotone",
        Reason::NotNatural => "not natural",
        Reason::BadDivisor => "bad divisor",
        Reason::TooWide => "too wide",
    }
}

/// Appends a name and the number of its arguments, `name/arity`.
fn put_functor(
    alloc: Global,
    text: &mut Vec<u8>,
    pool: &Pool,
    name: AtomId,
    arity: usize,
) -> Result<(), NoMemory>
    requires { name.number < length pool.now.names }
    ensures { OnOk result (text.new.items ≡ text.old.items ++ functor_name
        (functor (atom_name pool.now name) arity)) }
{
    write_atom(alloc, pool.name_of(name), true, text)?;
    text.push(b'/')?;
    put_number(text, arity as u64)?;
    Ok(())
}

/// Appends the text of a reason.
pub(crate) fn put_reason(
    alloc: Global,
    text: &mut Vec<u8>,
    pool: &Pool,
    reason: &Reason,
) -> Result<(), NoMemory>
    requires { IsReasonIn pool.now reason.now }
    ensures { OnOk result (text.new.items ≡ text.old.items ++ reason_text pool.now reason.now) }
{
    text.extend_from_slice(reason_name(reason).as_bytes())?;
    if let Reason::Unknown { name, arity } | Reason::Redefines { name, arity } = reason {
        put_functor(alloc, text, pool, *name, *arity)?;
    }
    Ok(())
}
