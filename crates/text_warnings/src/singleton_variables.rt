//! Variables that occur once in a clause.

ghost use Rattle.std.specs.Prelude.{◌≡◌, ◌<◌, length, map, All, IfSome, OnOk, slice_index_or, slice_set};
ghost use Rattle.std.specs.Option.{option_to_list};
ghost use Rattle.fd_language.specs.PlacedTerm.{PlacedTerm};
ghost use Rattle.term_pool.specs.Contents.{atom_name};
ghost use Rattle.term_pool.specs.PlacedTerms.{placed_of};
ghost use Rattle.term_reader.specs.Sentences.{sentence_of, sentences_of, AreOwn, IsSentence};
ghost use Rattle.text_warnings.specs.OccurrenceCounts.{joined, single_met, AreMet, AreMetIn};
ghost use Rattle.text_warnings.specs.WarningViews.{warning_in, Adds, IsWarningWithin};
ghost use Rattle.text_warnings.specs.Warnings.{singles, singles_from, singles_in};
ghost use Rattle.text_warnings.specs.declared.singleton_variables.Met.TheVariants.{Never, Once};

use crate::terms::{SentenceForm, look, sentence_form};
use crate::{Concern, Warning};
use fd_language::NoMemory;
use std::alloc::Global;
use term_pool::{AtomId, Node, Pool, TermId};
use term_reader::{Sentence, Sentences};

/// How often a variable was met, and its place where that is once.
#[derive(Clone, Copy)]
enum Met {
    Never,
    Once(usize),
    Often,
}

/// The same with one place more.
fn met_again(met: Met, place: usize) -> Met
    ensures { result ≡ joined met (Once place) }
{
    match met {
        Met::Never => Met::Once(place),
        Met::Once(_) | Met::Often => Met::Often,
    }
}

/// Notes one more place of the variable with the number n, where it is one of these.
fn note(met: &mut [Met], n: u64, place: usize)
    ensures { met.new ≡ slice_set met.old n (joined (slice_index_or met.old n Never) (Once place)) }
{
    let n = n as usize;
    if n < met.len() {
        met[n] = met_again(met[n], place);
    }
}

/// Notes the places of the term's variables. `ahead` is room for terms that wait.
fn note_variables(
    pool: &Pool,
    t: TermId,
    ahead: &mut Vec<TermId>,
    met: &mut [Met],
) -> Result<(), NoMemory>
    requires { t.number < length pool.now.entries }
    ensures { OnOk result (AreMet (placed_of pool.now t) met.old met.new) }
{
    ahead.clear();
    ahead.push(t)?;
    while let Some(next) = ahead.pop() {
        match look(pool, next) {
            Node::Var(n) => note(met, n, pool.place(next)),
            Node::Comp(_, parts) => ahead.extend_from_slice(parts)?,
            Node::Int(_) | Node::Atom(_) => {}
        }
    }
    Ok(())
}

/// The warning of a variable with this name that was met so often, if there is one.
fn single_warning(pool: &Pool, name: AtomId, met: Met) -> Option<Warning>
    requires { name.number < length pool.now.names }
    ensures within { IfSome result (IsWarningWithin pool.now) }
    ensures is { map (warning_in pool.now) (option_to_list result) ≡ single_met
        (atom_name pool.now name) met }
{
    let Met::Once(place) = met else {
        return None;
    };
    if pool.name_of(name).starts_with('_') {
        return None;
    }
    let concern = Concern::Single(name);
    Some(Warning { place, concern })
}

/// Warns of the variables that were met once and whose names don't begin with `_`. `names` has the name of each by its number.
fn put_met(
    pool: &Pool,
    names: &[AtomId],
    met: &[Met],
    warnings: &mut Vec<Warning>,
) -> Result<(), NoMemory>
    requires long { length met.now ≡ length names.now }
    requires own { All (λ a. a.number < length pool.now.names) names.now }
    ensures { OnOk result ((t : PlacedTerm) → AreMetIn t met.now → Adds pool.now
        (singles_from 0 (map (atom_name pool.now) names.now) t) warnings.old.items
        warnings.new.items) }
{
    for n in 0..names.len() {
        if let Some(warning) = single_warning(pool, names[n], met[n]) {
            warnings.push(warning)?;
        }
    }
    Ok(())
}

/// Warns of the sentence's variables that occur once, where it is no query. `ahead` and `met` are room.
fn put_singles_of(
    pool: &Pool,
    sentence: &Sentence,
    ahead: &mut Vec<TermId>,
    met: &mut Vec<Met>,
    warnings: &mut Vec<Warning>,
) -> Result<(), NoMemory>
    requires { IsSentence pool.now sentence.now }
    ensures { OnOk result (Adds pool.now (singles_in (sentence_of pool.now sentence.now))
        warnings.old.items warnings.new.items) }
{
    if let SentenceForm::Query(_) = sentence_form(pool, sentence.term) {
        return Ok(());
    }
    met.clear();
    met.resize(sentence.names.len(), Met::Never)?;
    note_variables(pool, sentence.term, ahead, met)?;
    put_met(pool, &sentence.names, met, warnings)
}

/// Warns of each variable that occurs once in a clause, clause by clause.
pub(crate) fn put_singles(
    alloc: Global,
    sentences: &Sentences,
    warnings: &mut Vec<Warning>,
) -> Result<(), NoMemory>
    requires { AreOwn sentences.now }
    ensures { OnOk result (Adds sentences.now.pool (singles (sentences_of sentences.now))
        warnings.old.items warnings.new.items) }
{
    let mut ahead = Vec::new(alloc);
    let mut met = Vec::new(alloc);
    for sentence in &sentences.list {
        put_singles_of(&sentences.pool, sentence, &mut ahead, &mut met, warnings)?;
    }
    Ok(())
}
