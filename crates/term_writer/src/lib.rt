//! The text of terms and atoms, with lists and operators as they are read.
#![tactic(auto)]

ghost use Rattle.std.specs.Prelude.{◌≡◌, ◌<◌, ◌++◌, length, OnOk, OnErr};
ghost use Rattle.fd_language.specs.TermTexts as Writing;
ghost use Rattle.term_pool.specs.Terms.{term_of};
ghost use Rattle.term_writer.specs.Views.{mode_of, name_text, text_of};

mod atoms;
pub mod laws;
mod names;
mod pieces;
mod terms;

use fd_language::NoMemory;
use std::alloc::Global;
use term_pool::{Pool, TermId};

/// How atoms are written.
#[derive(Clone, Copy)]
pub enum Mode {
    /// In quotes where a bare one would not be read back as the same atom.
    Quoted,
    /// Without quotes.
    Plain,
}

/// A variable's text.
#[derive(Drop)]
pub struct VarText {
    /// The variable's number.
    pub var: u64,
    /// The bytes that are written for it.
    pub text: Vec<u8>,
}

/// Appends a term's text. `limit` is the greatest priority that is written without parentheses.
///
/// Operators are those of ISO/IEC 13211-1 and a few more. A variable without an entry in `vars` is written as no byte; where it
/// has several, the first holds. What mode `Quoted` writes is read as the same term: `laws::written_is_read`.
pub fn write_term(
    alloc: Global,
    pool: &Pool,
    t: TermId,
    mode: Mode,
    vars: &[VarText],
    limit: u32,
    out: &mut Vec<u8>,
) -> Result<(), NoMemory>
    requires { t.number < length pool.now.entries }
    ensures text { OnOk result (out.new.items ≡ out.old.items ++ Writing.term_text (mode_of mode)
        (text_of vars.now) limit (term_of pool.now t)) }
    ensures err { OnErr result (out.new.items ≡ out.old.items) }
{
    let mut text = Vec::new(alloc);
    terms::append_term(alloc, pool, t, mode, vars, limit, &mut text)?;
    out.extend_from_slice(&text)?;
    Ok(())
}

/// Appends an atom's text in mode `Quoted`. `before` says that the name stands before `(`.
pub fn write_atom(
    alloc: Global,
    name: &str,
    before: bool,
    out: &mut Vec<u8>,
) -> Result<(), NoMemory>
    ensures text { OnOk result (out.new.items ≡ out.old.items ++ name_text Writing.Quoted before
        name.now) }
    ensures err { OnErr result (out.new.items ≡ out.old.items) }
{
    let mut text = Vec::new(alloc);
    atoms::append_name(&mut text, Mode::Quoted, name, before)?;
    out.extend_from_slice(&text)?;
    Ok(())
}
