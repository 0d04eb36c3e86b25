//! The flat query that a text is.

ghost use Rattle.std.specs.Prelude.{◌≡◌, ◌⊎◌, ◌<◌, ◌≤◌, length, map, not, All, IfOk, MatchResult, Some};
ghost use Rattle.std.specs.List.{list_all};
ghost use Rattle.char_tokens.specs.declared.token.TokenFault.TheVariants as token;
ghost use Rattle.fd_language.specs.Reading.{Reading};
ghost use Rattle.fd_language.specs.Spelling.{least_place};
ghost use Rattle.fd_model.specs.Queries.{is_shown};
ghost use Rattle.fd_model.specs.Refusals.{form_of};
ghost use Rattle.term_pool.specs.Contents.{atom_name};
ghost use Rattle.term_pool.specs.PlacedTerms.{placed_of};
ghost use Rattle.term_reader.specs.declared.reader.ReaderFault.TheVariants as reader;
ghost use Rattle.term_reader.specs.Sentences.{sentence_of, sentences_of, AreOwn, IsFaultFor, IsSentence};
ghost use Rattle.answer_check.specs.FlatForm.{first_hidden, flat_by, flat_query, hidden_places, name_at};
ghost use Rattle.answer_check.specs.Goals.{StopsAt};
ghost use Rattle.answer_check.specs.Queries.{lesser, FindsFlat, FindsQuery, ReadsQuery, StopsQuery, StopsReading};
ghost use Rattle.answer_check.specs.declared.outcome.Reason.TheVariants as reason;
ghost use Rattle.answer_check.specs.declared.outcome.Stop.TheVariants as stop;

use crate::goals::{Goals, not_flat_text, read_goals};
use crate::outcome::{Reason, Stop};
use crate::terms::{body_of, look};
use byte_ports::MAX_TEXT;
use char_tokens::TokenFault;
use fd_language::{INFINITY, NoMemory};
use std::alloc::Global;
use term_pool::{AtomId, Node, Pool, TermId};
use term_reader::{ReaderFault, Sentence, Sentences, read_sentences};

/// A flat query, with the names of its variables by their numbers.
#[derive(Drop)]
pub(crate) struct FlatQuery {
    pub pool: Pool,
    pub names: Vec<AtomId>,
    pub goals: Goals,
}

/// The refusal of a text that is no list of sentences.
fn unread(fault: ReaderFault) -> Stop
    ensures fault { (r : Reading) → IsFaultFor r fault → StopsReading r result }
    ensures memory { result ≡ stop.NoMemory
        → (fault ≡ reader.NoMemory) ⊎ (fault ≡ reader.Token token.NoMemory) }
{
    match fault {
        ReaderFault::Token(TokenFault::At { place, cause }) => Stop::Refused {
            place,
            reason: Reason::Token(cause),
        },
        ReaderFault::Syntax { place } => Stop::Refused {
            place,
            reason: Reason::Syntax,
        },
        ReaderFault::TooDeep { place } => Stop::Refused {
            place,
            reason: Reason::TooDeep,
        },
        ReaderFault::Token(TokenFault::NoMemory) | ReaderFault::NoMemory => Stop::NoMemory,
    }
}

/// Whether answers don't show a variable with this name.
fn is_hidden_name(pool: &Pool, name: AtomId) -> bool
    requires { name.number < length pool.now.names }
    ensures { result ≡ not (is_shown (atom_name pool.now name)) }
{
    matches!(pool.name_of(name).as_bytes(), [b'_', ..])
}

/// Whether answers don't show a variable.
fn is_hidden(pool: &Pool, names: &[AtomId], variable: u64) -> bool
    requires { All (λ a. a.number < length pool.now.names) names.now }
    ensures { result ≡ not (is_shown (name_at (map (atom_name pool.now) names.now) variable)) }
{
    match names.get(variable as usize) {
        Some(name) => is_hidden_name(pool, *name),
        None => false,
    }
}

/// Whether answers show the variables with these names.
fn are_shown(pool: &Pool, names: &[AtomId]) -> bool
    requires { All (λ a. a.number < length pool.now.names) names.now }
    ensures { result ≡ list_all is_shown (map (atom_name pool.now) names.now) }
{
    for name in names {
        if is_hidden_name(pool, *name) {
            return false;
        }
    }
    true
}

/// The smaller of two places, where the first may not be there.
fn smaller(least: Option<usize>, place: usize) -> Option<usize>
    ensures { result ≡ Some (lesser least place) }
{
    match least {
        Some(other) => Some(other.min(place)),
        None => Some(place),
    }
}

/// The place of the first variable whose name begins with `_`.
fn hidden_place(
    alloc: Global,
    pool: &Pool,
    names: &[AtomId],
    t: TermId,
) -> Result<Option<usize>, NoMemory>
    requires term { t.number < length pool.now.entries }
    requires names { All (λ a. a.number < length pool.now.names) names.now }
    ensures { IfOk result (λ o. o ≡ least_place (hidden_places
        (map (atom_name pool.now) names.now) (placed_of pool.now t))) }
{
    let mut least: Option<usize> = None;
    let mut ahead = vec![in alloc; t]?;
    while let Some(next) = ahead.pop() {
        match look(pool, next) {
            Node::Var(variable) => {
                if is_hidden(pool, names, variable) {
                    least = smaller(least, pool.place(next));
                }
            }
            Node::Comp(_, parts) => ahead.extend_from_slice(parts)?,
            Node::Int(_) | Node::Atom(_) => {}
        }
    }
    Ok(least)
}

/// The refusal of a sentence in which a variable's name begins with `_`.
fn with_hidden(alloc: Global, pool: &Pool, sentence: &Sentence) -> Result<usize, NoMemory>
    requires { IsSentence pool.now sentence.now }
    ensures { IfOk result (λ p. p ≡ first_hidden (sentence_of pool.now sentence.now)) }
{
    let place = hidden_place(alloc, pool, &sentence.names, sentence.term)?;
    Ok(place.unwrap_or(0))
}

/// The goals of the flat query that a sentence is.
fn read_sentence(alloc: Global, pool: &Pool, sentence: &Sentence) -> Result<Goals, Stop>
    requires { IsSentence pool.now sentence.now }
    ensures { let found = flat_by INFINITY (sentence_of pool.now sentence.now)
        (form_of (placed_of pool.now sentence.now.term)) in
        MatchResult result (FindsFlat found) (StopsAt found reason.NotFlat) }
{
    let Some(body) = body_of(pool, sentence.term) else {
        return Err(not_flat_text());
    };
    let goals = read_goals(alloc, pool, body, sentence.names.len())?;
    if are_shown(pool, &sentence.names) {
        return Ok(goals);
    }
    Err(Stop::Refused {
        place: with_hidden(alloc, pool, sentence)?,
        reason: Reason::NotFlat,
    })
}

/// The flat query that sentences are.
fn read_one(alloc: Global, sentences: Sentences) -> Result<FlatQuery, Stop>
    requires { AreOwn sentences }
    ensures { let found = flat_query INFINITY (sentences_of sentences) in
        MatchResult result (FindsQuery found) (StopsAt found reason.NotFlat) }
{
    let Sentences { pool, mut list } = sentences;
    let Some(sentence) = list.pop() else {
        return Err(not_flat_text());
    };
    if !list.is_empty() {
        return Err(not_flat_text());
    }
    let goals = read_sentence(alloc, &pool, &sentence)?;
    Ok(FlatQuery {
        pool,
        names: sentence.names,
        goals,
    })
}

/// The flat query that a text is.
pub(crate) fn read_query(alloc: Global, text: &str) -> Result<FlatQuery, Stop>
    requires { length text.now ≤ MAX_TEXT }
    ensures { MatchResult result (ReadsQuery text.now) (StopsQuery text.now) }
{
    match read_sentences(alloc, text) {
        Ok(sentences) => read_one(alloc, sentences),
        Err(fault) => Err(unread(fault)),
    }
}
