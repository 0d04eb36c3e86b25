//! The clauses of a text, and the bodies of its queries.

ghost use Rattle.std.specs.Prelude.{◌≡◌, ◌<◌, length, map, All, IfOk};
ghost use Rattle.std.specs.List.{flat_map};
ghost use Rattle.fd_language.specs.PlacedTerm.{place as place_of};
ghost use Rattle.fd_model.specs.Refusals.{form_of, functor_of as functor_of_term};
ghost use Rattle.term_pool.specs.PlacedTerms.{placed_of};
ghost use Rattle.term_reader.specs.Sentences.{sentences_of, AreOwn};
ghost use Rattle.text_warnings.specs.Clauses.{calls_of, clause_headed as made_of, clauses_by, clauses_in, query_calls, query_calls_by};
ghost use Rattle.text_warnings.specs.WarningViews.{body_calls, clause_in, clauses_kept, IsBodyWithin, IsOwn, IsOwnIf};

use crate::terms::{Functor, SentenceForm, functor_of, sentence_form};
use fd_language::NoMemory;
use std::alloc::Global;
use term_pool::{Pool, TermId};
use term_reader::Sentences;

/// A clause: its predicate, the place of its head, and its body where it has one.
#[derive(Clone, Copy)]
pub(crate) struct Clause {
    pub functor: Functor,
    pub place: usize,
    pub body: Option<TermId>,
}

/// The clause with this head and this body, where the head is an atom or a compound term.
fn clause_headed(pool: &Pool, head: TermId, body: Option<TermId>) -> Option<Clause>
    requires head { head.number < length pool.now.entries }
    requires body { IsBodyWithin pool.now body }
    ensures own { IsOwnIf pool.now result }
    ensures kept { made_of (functor_of_term (placed_of pool.now head)) (place_of
        (placed_of pool.now head)) (body_calls pool.now body) ≡ clauses_kept pool.now result }
{
    let functor = functor_of(pool, head)?;
    let place = pool.place(head);
    Some(Clause {
        functor,
        place,
        body,
    })
}

/// The clause that the sentence is, if it is one.
fn clause_of(pool: &Pool, t: TermId) -> Option<Clause>
    requires { t.number < length pool.now.entries }
    ensures own { IsOwnIf pool.now result }
    ensures kept { clauses_by (form_of (placed_of pool.now t)) ≡ clauses_kept pool.now result }
{
    match sentence_form(pool, t) {
        SentenceForm::Clause(head, body) => clause_headed(pool, head, Some(body)),
        SentenceForm::Fact(head) => clause_headed(pool, head, None),
        SentenceForm::Query(_) | SentenceForm::Directive => None,
    }
}

/// The body of the query that the sentence is, if it is one.
fn query_body(pool: &Pool, t: TermId) -> Option<TermId>
    requires { t.number < length pool.now.entries }
    ensures own { IsBodyWithin pool.now result }
    ensures kept { query_calls_by (form_of (placed_of pool.now t)) ≡ body_calls pool.now result }
{
    match sentence_form(pool, t) {
        SentenceForm::Query(body) => Some(body),
        SentenceForm::Clause(..) | SentenceForm::Directive | SentenceForm::Fact(_) => None,
    }
}

/// The clauses of a text, in its order.
pub(crate) fn clauses_of(alloc: Global, sentences: &Sentences) -> Result<Vec<Clause>, NoMemory>
    requires { AreOwn sentences.now }
    ensures own { IfOk result (λ ks. All (IsOwn sentences.now.pool) ks.items) }
    ensures kept { IfOk result (λ ks. map (clause_in sentences.now.pool) ks.items
        ≡ clauses_in (sentences_of sentences.now)) }
{
    let mut clauses = Vec::new(alloc);
    for sentence in &sentences.list {
        if let Some(clause) = clause_of(&sentences.pool, sentence.term) {
            clauses.push(clause)?;
        }
    }
    Ok(clauses)
}

/// The bodies of a text's queries, in its order.
pub(crate) fn query_bodies(alloc: Global, sentences: &Sentences) -> Result<Vec<TermId>, NoMemory>
    requires { AreOwn sentences.now }
    ensures own { IfOk result (λ bs. All (λ b. b.number < length sentences.now.pool.entries)
        bs.items) }
    ensures kept { IfOk result (λ bs. flat_map (λ b. calls_of (placed_of sentences.now.pool b))
        bs.items ≡ query_calls (sentences_of sentences.now)) }
{
    let mut bodies = Vec::new(alloc);
    for sentence in &sentences.list {
        if let Some(body) = query_body(&sentences.pool, sentence.term) {
            bodies.push(body)?;
        }
    }
    Ok(bodies)
}
