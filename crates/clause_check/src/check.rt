//! The sentences of a text, checked from the first to the last.

ghost use Rattle.std.specs.Prelude.{◌≡◌, ℕ, ◌<◌, [], length, All, IfOk, IfErr, OnOk};
ghost use Rattle.term_pool.specs.Contents.{Contents};
ghost use Rattle.term_reader.specs.Sentences.{AreOwn, IsSentence};
ghost use Rattle.clause_check.specs.GoalStores.{IsStore};
ghost use Rattle.clause_check.specs.Heads.{AreHeads};
ghost use Rattle.clause_check.specs.Parts.{AddsAs, AddsSentence, AreShown, KeepsSentences};
ghost use Rattle.clause_check.specs.PartVerdicts.{AcceptsText, IsHeadCause, RefusesAs, RefusesSentence, RefusesText};
ghost use Rattle.clause_check.specs.declared.terms.SentenceForm.TheVariants.{Query, Clause, Fact};

use crate::arities::{refuse_wide, wide_place};
use crate::faults::{Cause, Fault, refused};
use crate::forms::{is_built_in, is_reserved};
use crate::goals::GoalStore;
use crate::heads::collect_heads;
use crate::program::{FlatClause, Part, QueryParts};
use crate::terms::{Functor, SentenceForm, functor_of, sentence_form};
use fd_language::NoMemory;
use indexmap::IndexSet;
use std::alloc::Global;
use term_pool::{AtomId, Pool, TermId};
use term_reader::{Sentence, Sentences};

/// The variables of a query that answers show.
#[derive(Drop)]
struct ShownVariables {
    names: Vec<AtomId>,
    numbers: Vec<u64>,
}

/// The clauses and the queries of sentences, and the goals that they name.
#[derive(Drop)]
pub(crate) struct Parts {
    pub store: GoalStore,
    pub clauses: Vec<FlatClause>,
    pub queries: Vec<QueryParts>,
}

/// Why the head of a clause or a fact is refused.
fn head_cause(pool: &Pool, head: TermId) -> Option<Cause>
    requires { head.number < length pool.now.entries }
    ensures { IsHeadCause pool.now head result }
{
    let Some(Functor { name, arity }) = functor_of(pool, head) else {
        return Some(Cause::BadHead);
    };
    let text = pool.name_of(name);
    if is_reserved(text) {
        return Some(Cause::BadHead);
    }
    if is_built_in(text, arity) {
        return Some(Cause::Redefines { name, arity });
    }
    None
}

/// Those of a query's variables whose names don't begin with `_`. `names` has the names of all, by their numbers.
fn shown_variables(alloc: Global, pool: &Pool, names: &[AtomId]) -> Result<ShownVariables, NoMemory>
    requires { All (λ a. a.number < length pool.now.names) names.now }
    ensures { IfOk result (λ shown. AreShown pool.now names.now shown.names.items
        shown.numbers.items) }
{
    let mut shown = ShownVariables {
        names: Vec::new(alloc),
        numbers: Vec::new(alloc),
    };
    for (number, name) in names.iter().enumerate() {
        if !pool.name_of(*name).starts_with('_') {
            shown.names.push(*name)?;
            shown.numbers.push(number as u64)?;
        }
    }
    Ok(shown)
}

impl Parts {
    fn new(alloc: Global) -> Parts
        ensures { (N : ℕ) (c : Contents) → KeepsSentences N c result [] }
    {
        Parts {
            store: GoalStore::new(alloc),
            clauses: Vec::new(alloc),
            queries: Vec::new(alloc),
        }
    }

    /// Adds the query with this body.
    fn add_query(
        &mut self,
        alloc: Global,
        sentences: &Sentences,
        heads: &IndexSet<Functor>,
        infinity: u32,
        sentence: &Sentence,
        body: TermId,
    ) -> Result<(), Fault>
        requires own { AreOwn sentences.now }
        requires heads { AreHeads sentences.now heads.now.keys }
        requires store { IsStore sentences.now.pool self.old.store }
        requires sentence { IsSentence sentences.now.pool sentence.now }
        requires body { body.number < length sentences.now.pool.entries }
        ensures added { OnOk result (AddsAs infinity sentences.now self.old self.new sentence.now
            (Query body)) }
        ensures fault { IfErr result (RefusesAs infinity sentences.now sentence.now (Query body)) }
    {
        let goals = self
            .store
            .read_body(alloc, sentences, heads, infinity, body)?;
        let shown = shown_variables(alloc, &sentences.pool, &sentence.names)?;
        self.queries.push(QueryParts {
            variables: sentence.names.len(),
            names: shown.names,
            shown: shown.numbers,
            goals,
        })?;
        Ok(())
    }

    /// Adds the clause with this head and this body.
    fn add_clause(
        &mut self,
        alloc: Global,
        sentences: &Sentences,
        heads: &IndexSet<Functor>,
        infinity: u32,
        sentence: &Sentence,
        head: TermId,
        body: TermId,
    ) -> Result<(), Fault>
        requires own { AreOwn sentences.now }
        requires heads { AreHeads sentences.now heads.now.keys }
        requires store { IsStore sentences.now.pool self.old.store }
        requires head { head.number < length sentences.now.pool.entries }
        requires body { body.number < length sentences.now.pool.entries }
        ensures added { OnOk result (AddsAs infinity sentences.now self.old self.new sentence.now
            (Clause head body)) }
        ensures fault { IfErr result (RefusesAs infinity sentences.now sentence.now (Clause head body)) }
    {
        if let Some(cause) = head_cause(&sentences.pool, head) {
            return Err(refused(&sentences.pool, head, cause));
        }
        let body = self
            .store
            .read_body(alloc, sentences, heads, infinity, body)?;
        self.clauses.push(FlatClause {
            variables: sentence.names.len(),
            head,
            body,
        })?;
        Ok(())
    }

    /// Adds the fact.
    fn add_fact(
        &mut self,
        sentences: &Sentences,
        sentence: &Sentence,
        head: TermId,
    ) -> Result<(), Fault>
        requires store { IsStore sentences.now.pool self.old.store }
        requires head { head.number < length sentences.now.pool.entries }
        ensures added { OnOk result ((N : ℕ) → AddsAs N sentences.now self.old self.new
            sentence.now (Fact head)) }
        ensures fault { IfErr result (λ e. (N : ℕ) → RefusesAs N sentences.now sentence.now
            (Fact head) e) }
    {
        if let Some(cause) = head_cause(&sentences.pool, head) {
            return Err(refused(&sentences.pool, head, cause));
        }
        let end = self.store.goals.len();
        self.clauses.push(FlatClause {
            variables: sentence.names.len(),
            head,
            body: Part { from: end, to: end },
        })?;
        Ok(())
    }

    /// Adds what the sentences give, up to the first that is refused. `ahead` is room for terms that wait.
    fn add_sentences(
        &mut self,
        alloc: Global,
        sentences: &Sentences,
        heads: &IndexSet<Functor>,
        infinity: u32,
        ahead: &mut Vec<TermId>,
    ) -> Result<(), Fault>
        requires own { AreOwn sentences.now }
        requires heads { AreHeads sentences.now heads.now.keys }
        requires nothing { KeepsSentences infinity sentences.now.pool self.old [] }
        ensures accepted { OnOk result (AcceptsText infinity sentences.now) }
        ensures stands { OnOk result
            (KeepsSentences infinity sentences.now.pool self.new sentences.now.list.items) }
        ensures fault { IfErr result (RefusesText infinity sentences.now) }
    {
        for sentence in &sentences.list {
            self.add_sentence(alloc, sentences, heads, infinity, sentence, ahead)?;
        }
        Ok(())
    }

    /// Adds a sentence.
    fn add_sentence(
        &mut self,
        alloc: Global,
        sentences: &Sentences,
        heads: &IndexSet<Functor>,
        infinity: u32,
        sentence: &Sentence,
        ahead: &mut Vec<TermId>,
    ) -> Result<(), Fault>
        requires own { AreOwn sentences.now }
        requires heads { AreHeads sentences.now heads.now.keys }
        requires store { IsStore sentences.now.pool self.old.store }
        requires sentence { IsSentence sentences.now.pool sentence.now }
        ensures added { OnOk result (AddsSentence infinity sentences.now self.old self.new sentence.now) }
        ensures fault { IfErr result (RefusesSentence infinity sentences.now sentence.now) }
    {
        let pool = &sentences.pool;
        let wide = wide_place(pool, sentence.term, ahead)?;
        refuse_wide(wide)?;
        match sentence_form(pool, sentence.term) {
            SentenceForm::Query(body) => {
                self.add_query(alloc, sentences, heads, infinity, sentence, body)
            }
            SentenceForm::Clause(head, body) => {
                self.add_clause(alloc, sentences, heads, infinity, sentence, head, body)
            }
            SentenceForm::Directive => Err(refused(pool, sentence.term, Cause::BadHead)),
            SentenceForm::Fact(head) => self.add_fact(sentences, sentence, head),
        }
    }
}

/// The clauses and the queries of a text, or the first refusal in it. `heads` is the empty set: room for the functors of the heads.
fn check_by(
    alloc: Global,
    sentences: &Sentences,
    heads: &mut IndexSet<Functor>,
    infinity: u32,
) -> Result<Parts, Fault>
    requires own { AreOwn sentences.now }
    requires none { heads.now.keys ≡ [] }
    ensures accepted { IfOk result (λ p. AcceptsText infinity sentences.now) }
    ensures stands { IfOk result (λ p. KeepsSentences infinity sentences.now.pool p sentences.now.list.items) }
    ensures fault { IfErr result (RefusesText infinity sentences.now) }
{
    collect_heads(sentences, heads)?;
    let mut parts = Parts::new(alloc);
    let mut ahead = Vec::new(alloc);
    parts.add_sentences(alloc, sentences, heads, infinity, &mut ahead)?;
    Ok(parts)
}

/// The clauses and the queries of a text, or the first refusal in it.
pub(crate) fn check_sentences(
    alloc: Global,
    sentences: &Sentences,
    infinity: u32,
) -> Result<Parts, Fault>
    requires { AreOwn sentences.now }
    ensures accepted { IfOk result (λ p. AcceptsText infinity sentences.now) }
    ensures stands { IfOk result (λ p. KeepsSentences infinity sentences.now.pool p sentences.now.list.items) }
    ensures fault { IfErr result (RefusesText infinity sentences.now) }
{
    let mut heads = IndexSet::new(alloc);
    check_by(alloc, sentences, &mut heads, infinity)
}
