//! All warnings of a text.

ghost use Rattle.std.specs.Prelude.{map, All, IfOk, OnOk};
ghost use Rattle.term_reader.specs.Sentences.{sentences_of, AreOwn};
ghost use Rattle.text_warnings.specs.WarningViews.{warning_in, AddsAll, IsWarningWithin};
ghost use Rattle.text_warnings.specs.Warnings.{AreWarnings};

use crate::Warning;
use crate::losses::put_losses;
use crate::open_variables::put_open_variables;
use crate::singleton_variables::put_singles;
use crate::unreached_predicates::put_predicates;
use fd_language::NoMemory;
use std::alloc::Global;
use term_reader::Sentences;

/// Warns of all, each kind in the order of the text.
fn put_all(
    alloc: Global,
    sentences: &Sentences,
    starts: &[usize],
    warnings: &mut Vec<Warning>,
) -> Result<(), NoMemory>
    requires { AreOwn sentences.now }
    ensures { OnOk result (AddsAll starts.now sentences.now warnings.old.items warnings.new.items) }
{
    put_singles(alloc, sentences, warnings)?;
    put_losses(alloc, sentences, warnings)?;
    put_open_variables(alloc, sentences, warnings)?;
    put_predicates(alloc, sentences, starts, warnings)
}

/// The warnings of a text whose further files begin at these places, in the order of their places. At one place they come in this
/// order: a variable that occurs once, what a goal loses, a variable that has only a domain, clauses that don't stand together, a
/// predicate in two files, a predicate that isn't reached. The error is out of memory.
pub fn warnings_of(
    alloc: Global,
    sentences: &Sentences,
    starts: &[usize],
) -> Result<Vec<Warning>, NoMemory>
    requires { AreOwn sentences.now }
    ensures warnings { IfOk result (λ ws. AreWarnings starts.now (sentences_of
        sentences.now) (map (warning_in sentences.now.pool) ws.items)) }
    ensures own { IfOk result (λ ws. All (IsWarningWithin sentences.now.pool) ws.items) }
{
    let mut warnings = Vec::new(alloc);
    put_all(alloc, sentences, starts, &mut warnings)?;
    warnings.sort_by_key(|warning| warning.place)?;
    Ok(warnings)
}
