//! The rows of switches.

ghost use Rattle.std.specs.Prelude.{◌≡◌, All, IfOk, map};
ghost use Rattle.code_listing.specs.Texts.{key_text, row_word};
ghost use Rattle.listing_reader.specs.declared.forms.Kind.TheVariants as kind;
ghost use Rattle.listing_reader.specs.Lists.{FitsKey, FitsRow, names_words, rows_words};
ghost use Rattle.listing_reader.specs.Operands.{IsSmallAtom};
ghost use Rattle.listing_reader.specs.Reading.{Reads, ReadsAs};

use crate::forms::Kind;
use crate::read_operands::read_atom_number;
use crate::read_words::{read_arity, read_integer, read_number};
use crate::split::cut_once;
use fd_language::NoMemory;
use std::alloc::Global;
use term_pool::AtomId;
use wam_code::Key;

/// The key of a structure that a text writes.
fn read_structure(text: &[u8]) -> Option<Key>
    ensures { Reads (FitsKey kind.Structures) key_text text.now result }
{
    let Some((name, digits)) = cut_once(text, b'/') else {
        return None;
    };
    let Some(functor) = read_atom_number(name) else {
        return None;
    };
    let Some(arity) = read_arity(digits) else {
        return None;
    };
    Some(Key::Struct(functor, arity))
}

/// The key of this kind that a text writes.
fn read_key(kind: Kind, text: &[u8]) -> Option<Key>
    ensures { Reads (FitsKey kind) key_text text.now result }
{
    match kind {
        Kind::Atoms => {
            let Some(atom) = read_atom_number(text) else {
                return None;
            };
            Some(Key::Atom(atom))
        }
        Kind::Integers => {
            let Some(integer) = read_integer(text) else {
                return None;
            };
            Some(Key::Int(integer))
        }
        Kind::Structures => read_structure(text),
    }
}

/// The row with a key of this kind that a word writes.
fn read_row(kind: Kind, word: &[u8]) -> Option<(Key, usize)>
    ensures { Reads (FitsRow kind) row_word word.now result }
{
    let Some((text, digits)) = cut_once(word, b':') else {
        return None;
    };
    let Some(key) = read_key(kind, text) else {
        return None;
    };
    let Some(place) = read_number(digits) else {
        return None;
    };
    Some((key, place))
}

/// The rows with keys of this kind that words write.
pub(crate) fn read_rows(
    alloc: Global,
    kind: Kind,
    words: &[&[u8]],
) -> Result<Option<Vec<(Key, usize)>>, NoMemory>
    ensures { IfOk result (λ r. ReadsAs (λ v. v.items) (All (FitsRow kind)) rows_words
        (map (λ w. w.now) words.now) r) }
{
    let mut rows = Vec::new(alloc);
    for word in words {
        let Some(row) = read_row(kind, word) else {
            return Ok(None);
        };
        rows.push(row)?;
    }
    Ok(Some(rows))
}

/// The atoms whose numbers words write.
pub(crate) fn read_names(alloc: Global, words: &[&[u8]]) -> Result<Option<Vec<AtomId>>, NoMemory>
    ensures { IfOk result (λ r. ReadsAs (λ v. v.items) (All IsSmallAtom) names_words
        (map (λ w. w.now) words.now) r) }
{
    let mut names = Vec::new(alloc);
    for word in words {
        let Some(name) = read_atom_number(word) else {
            return Ok(None);
        };
        names.push(name)?;
    }
    Ok(Some(names))
}
