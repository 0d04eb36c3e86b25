//! The line of an answer, and the text of a written term.

ghost use Rattle.std.specs.Prelude.{◌≡◌, ◌<◌, ◌++◌, ℕ, List, [], length, map, codes, All, IfOk, OnOk};
ghost use Rattle.fd_language.specs.Term.{as_terms};
ghost use Rattle.fd_model.specs.Lines.{equals_text, joined, line};
ghost use Rattle.machine_events.specs.Events.{ShowsTerms, shown_line, terms_in, variable_text, written_term};
ghost use Rattle.fd_language.specs.Variables.{variables_of, distinct};
ghost use Rattle.fd_language.specs.TermTexts.{Plain, Quoted, term_text};
ghost use Rattle.term_pool.specs.Contents.{atom_name};
ghost use Rattle.term_pool.specs.Terms.{term_of};
ghost use Rattle.answer_text.specs.Pieces.{inserted, separator_at};
ghost use Rattle.answer_text.specs.Variables.{open_by, HasSets, set_by};

use crate::domains::put_separator;
use crate::variables::{sets_of, texts_of};
use domain_ranges::Domain;
use fd_language::NoMemory;
use indexmap::{IndexMap, IndexSet};
use machine_events::Shown;
use std::alloc::Global;
use term_pool::{AtomId, Pool, TermId};
use term_writer::{Mode, write_term};

/// Appends what stands before the term of the entry of this index: its name and ` = `.
fn put_name(text: &mut Vec<u8>, index: usize, name: &str) -> Result<(), NoMemory>
    ensures { OnOk result (text.new.items ≡ text.old.items
        ++ (separator_at index (codes ", ") ++ (name.now ++ codes " = "))) }
{
    put_separator(text, index, b", ")?;
    text.extend_from_slice(name.as_bytes())?;
    text.extend_from_slice(b" = ")?;
    Ok(())
}

/// Appends a term, where the terms before it have met the variables of `numbers`.
fn put_term(
    alloc: Global,
    text: &mut Vec<u8>,
    pool: &Pool,
    t: TermId,
    sets: &IndexMap<u64, &Domain>,
    numbers: &mut IndexSet<u64>,
) -> Result<(), NoMemory>
    requires { t.number < length pool.now.entries }
    ensures numbers { OnOk result (numbers.new.keys
        ≡ inserted numbers.old.keys (variables_of (term_of pool.now t))) }
    ensures text { OnOk result ((more : List ℕ) → text.new.items ≡ text.old.items
        ++ term_text Quoted (open_by (set_by sets.now) (numbers.new.keys ++ more)) 699
        (term_of pool.now t)) }
{
    let texts = texts_of(alloc, pool, t, sets, numbers)?;
    write_term(alloc, pool, t, Mode::Quoted, &texts, 699, text)
}

/// Appends the entries `Name = Term` joined by `, `, where the map has the sets of the variables and no variable was met.
fn put_entries_by(
    alloc: Global,
    text: &mut Vec<u8>,
    pool: &Pool,
    names: &[AtomId],
    shown: &Shown,
    sets: &IndexMap<u64, &Domain>,
    numbers: &mut IndexSet<u64>,
) -> Result<(), NoMemory>
    requires names { All (λ a. a.number < length pool.now.names) names.now }
    requires terms { ShowsTerms (length names.now) shown.now }
    requires sets { HasSets shown.now.sets.items sets.now }
    requires numbers { numbers.now.keys ≡ [] }
    ensures { let ts = terms_in shown.now in OnOk result (text.new.items ≡ text.old.items
        ++ joined (codes ", ") (equals_text (variable_text shown.now (as_terms ts))
        (map (atom_name pool.now) names.now) ts)) }
{
    for (index, term) in shown.terms.iter().enumerate() {
        put_name(text, index, pool.name_of(names[index]))?;
        put_term(alloc, text, &shown.pool, *term, sets, numbers)?;
    }
    Ok(())
}

/// Appends the entries `Name = Term` joined by `, `.
fn put_entries(
    alloc: Global,
    text: &mut Vec<u8>,
    pool: &Pool,
    names: &[AtomId],
    shown: &Shown,
) -> Result<(), NoMemory>
    requires names { All (λ a. a.number < length pool.now.names) names.now }
    requires terms { ShowsTerms (length names.now) shown.now }
    ensures { let ts = terms_in shown.now in OnOk result (text.new.items ≡ text.old.items
        ++ joined (codes ", ") (equals_text (variable_text shown.now (as_terms ts))
        (map (atom_name pool.now) names.now) ts)) }
{
    let sets = sets_of(alloc, &shown.sets)?;
    let mut numbers = IndexSet::new(alloc);
    put_entries_by(alloc, text, pool, names, shown, &sets, &mut numbers)
}

/// The line of an answer.
pub(crate) fn answer_line(
    alloc: Global,
    pool: &Pool,
    names: &[AtomId],
    shown: &Shown,
) -> Result<Vec<u8>, NoMemory>
    requires names { All (λ a. a.number < length pool.now.names) names.now }
    requires terms { ShowsTerms (length names.now) shown.now }
    ensures { IfOk result (λ text. text.items
        ≡ line (shown_line (map (atom_name pool.now) names.now) shown.now)) }
{
    if names.is_empty() {
        return Ok(Vec::from_slice(alloc, b"true\n")?);
    }
    let mut text = Vec::new(alloc);
    put_entries(alloc, &mut text, pool, names, shown)?;
    text.push(b'\n')?;
    Ok(text)
}

/// The text of a term, not quoted, where the map has the sets of its variables and none of them was met.
fn plain_text(
    alloc: Global,
    pool: &Pool,
    t: TermId,
    sets: &IndexMap<u64, &Domain>,
    numbers: &mut IndexSet<u64>,
) -> Result<Vec<u8>, NoMemory>
    requires term { t.number < length pool.now.entries }
    requires numbers { numbers.now.keys ≡ [] }
    ensures { let u = term_of pool.now t in IfOk result (λ text. text.items
        ≡ term_text Plain (open_by (set_by sets.now) (distinct (variables_of u))) 1200 u) }
{
    let texts = texts_of(alloc, pool, t, sets, numbers)?;
    let mut text = Vec::new(alloc);
    write_term(alloc, pool, t, Mode::Plain, &texts, 1200, &mut text)?;
    Ok(text)
}

/// The text of a written term.
pub(crate) fn written_text(alloc: Global, shown: &Shown) -> Result<Vec<u8>, NoMemory>
    requires { ShowsTerms 1 shown.now }
    ensures { IfOk result (λ text. text.items ≡ written_term shown.now) }
{
    let sets = sets_of(alloc, &shown.sets)?;
    let mut numbers = IndexSet::new(alloc);
    plain_text(alloc, &shown.pool, shown.terms[0], &sets, &mut numbers)
}
