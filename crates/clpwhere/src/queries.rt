//! The queries of a text, and their places.

ghost use Rattle.std.specs.Prelude.{◌≡◌, ◌<◌, [], length, IfOk};
ghost use Rattle.term_pool.specs.PlacedTerms.{placed_of};
ghost use Rattle.term_reader.specs.Sentences.{sentences_of, AreOwn};
ghost use Rattle.clpwhere.specs.FaultLines.{query_place};
ghost use Rattle.clpwhere.specs.Parts.{with_queries};
ghost use Rattle.clpwhere.specs.Queries.{is_query, query_places, AreQueries};

use crate::text::NamedText;
use crate::warnings::{Unread, read_bytes};
use fd_language::NoMemory;
use std::alloc::Global;
use std::marker::Model;
use term_pool::{Node, Pool, TermId};
use term_reader::Sentences;

/// A text with the places of its queries. Without these no fault is placed. Contracts see both.
#[derive(Drop)]
pub struct QueriedText {
    text: NamedText,
    queries: Vec<usize>,
}

impl Model for QueriedText {
    ghost use Rattle.clpwhere.specs.Parts.{QueriedParts};

    ghost Value = { QueriedParts };

    ghost view = { λ s. record { text = s.text; queries = s.queries.items } };
}

impl QueriedText {
    /// A text with these places of queries, in bytes.
    pub fn new(text: NamedText, queries: Vec<usize>) -> QueriedText
        ensures { result ≡ with_queries text queries.items }
    {
        QueriedText { text, queries }
    }

    /// The text.
    pub fn text(&self) -> &NamedText
        ensures { result.now ≡ self.now.text }
    {
        &self.text
    }

    /// The place of the query with this number; the first has the number 1.
    pub fn place_of(&self, query: u64) -> Option<usize>
        ensures { result ≡ query_place self.now.queries query }
    {
        let before = query.checked_sub(1)?;
        self.queries.get(before as usize).copied()
    }
}

/// Whether the term is `?- B`.
fn is_query(pool: &Pool, term: TermId) -> bool
    requires { term.number < length pool.now.entries }
    ensures { result ≡ is_query (placed_of pool.now term) }
{
    match pool.view(term) {
        Node::Var(_) | Node::Int(_) | Node::Atom(_) => false,
        Node::Comp(name, &[_]) => pool.name_of(name) == "?-",
        Node::Comp(..) => false,
    }
}

/// The places of the queries among sentences, in the order of the text.
fn query_places(alloc: Global, sentences: &Sentences) -> Result<Vec<usize>, NoMemory>
    requires { AreOwn sentences.now }
    ensures { IfOk result (λ places. places.items ≡ query_places (sentences_of sentences.now)) }
{
    let mut places = Vec::new(alloc);
    for sentence in &sentences.list {
        if is_query(&sentences.pool, sentence.term) {
            places.push(sentences.pool.place(sentence.term))?;
        }
    }
    Ok(places)
}

/// The places of the queries of a text. One that isn't read as sentences has none.
fn queries_of(alloc: Global, bytes: &[u8]) -> Result<Vec<usize>, NoMemory>
    ensures { IfOk result (λ places. AreQueries bytes.now places.items) }
{
    match read_bytes(alloc, bytes) {
        Ok(sentences) => query_places(alloc, &sentences),
        Err(Unread::Refused { .. }) => Ok(Vec::new(alloc)),
        Err(Unread::NoMemory) => Err(NoMemory),
    }
}

/// A text with its queries.
pub fn with_queries(alloc: Global, text: NamedText) -> Result<QueriedText, NoMemory>
    ensures text { IfOk result (λ t. t.text ≡ text) }
    ensures queries { IfOk result (λ t. AreQueries text.bytes t.queries) }
{
    let queries = queries_of(alloc, text.bytes())?;
    Ok(QueriedText::new(text, queries))
}
