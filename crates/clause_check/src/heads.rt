//! The functors that the heads of a text have.

ghost use Rattle.std.specs.Prelude.{◌≡◌, ◌<◌, [], length, OnOk};
ghost use Rattle.fd_model.specs.Refusals.{form_of, head_in};
ghost use Rattle.term_pool.specs.PlacedTerms.{placed_of};
ghost use Rattle.term_reader.specs.Sentences.{AreOwn};
ghost use Rattle.clause_check.specs.Heads.{AreHeads};
ghost use Rattle.clause_check.specs.Terms.{IsFunctor};

use crate::terms::{Functor, SentenceForm, functor_of, sentence_form};
use fd_language::NoMemory;
use indexmap::IndexSet;
use term_pool::{Pool, TermId};
use term_reader::Sentences;

/// The functor of the sentence's head.
fn head_functor(pool: &Pool, t: TermId) -> Option<Functor>
    requires { t.number < length pool.now.entries }
    ensures { IsFunctor pool.now (head_in (form_of (placed_of pool.now t))) result }
{
    match sentence_form(pool, t) {
        SentenceForm::Clause(head, _) | SentenceForm::Fact(head) => functor_of(pool, head),
        SentenceForm::Query(_) | SentenceForm::Directive => None,
    }
}

/// Puts the functors of the heads of all sentences into the empty set.
pub(crate) fn collect_heads(
    sentences: &Sentences,
    heads: &mut IndexSet<Functor>,
) -> Result<(), NoMemory>
    requires own { AreOwn sentences.now }
    requires none { heads.now.keys ≡ [] }
    ensures { OnOk result (AreHeads sentences.now heads.new.keys) }
{
    for sentence in &sentences.list {
        if let Some(functor) = head_functor(&sentences.pool, sentence.term) {
            heads.insert(functor)?;
        }
    }
    Ok(())
}
