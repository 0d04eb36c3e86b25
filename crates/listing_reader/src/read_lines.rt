//! What lines tell.

ghost use Rattle.std.specs.Prelude.{◌≡◌, ◌∷◌, All, IfOk, IsUtf8, map, MatchOption, string_bytes};
ghost use Rattle.fd_language.specs.TermTexts.{Quoted, atom_text};
ghost use Rattle.wam_code.specs.Area.{span_of};
ghost use Rattle.code_listing.specs.Texts.{entry_text, nodes_text, span_text};
ghost use Rattle.listing_reader.specs.Atoms.{written_name};
ghost use Rattle.listing_reader.specs.declared.forms.Operation.TheVariants as form;
ghost use Rattle.listing_reader.specs.NumberBounds.{HasSize, IsSmallEntry, IsSmallSpan};
ghost use Rattle.listing_reader.specs.Forms.{FitsInstruction, ReadsPlain, form_name, instruction_text, switch_code};
ghost use Rattle.listing_reader.specs.Lists.{FitsPlace, entry_words, place_words, placed_text, span_words};
ghost use Rattle.listing_reader.specs.Places.{place_in};
ghost use Rattle.listing_reader.specs.Reading.{Reads, ReadsAs};

use crate::forms::{Kind, Operation, read_form};
use crate::places::Place;
use crate::read_nodes::read_nodes;
use crate::read_operands::{
    lone_code, read_atom_number, read_one, read_switch_on_term, read_three, read_two,
};
use crate::read_rows::{read_names, read_rows};
use crate::read_states::read_state;
use crate::read_words::{read_arity, read_number};
use crate::split::split_at_each;
use fd_language::{NoMemory, RangeNode};
use std::alloc::Global;
use term_writer::laws::quoted_is_read;
use term_writer::write_atom;
use wam_code::{Code, Entry, Key, QueryEntry};

/// The name that a line would write bare or in quotes.
fn unquoted_name(alloc: Global, line: &[u8]) -> Result<Option<String>, NoMemory>
    ensures { IfOk result (λ r. MatchOption r (¬ IsUtf8 line.now)
        (λ name. string_bytes name ≡ written_name line.now)) }
{
    let Ok(text) = std::str::from_utf8(line) else {
        return Ok(None);
    };
    if let [b'\'', ..] = line {
        let name = char_tokens::unquote(alloc, text)?;
        return Ok(Some(name));
    }
    let name = String::from_str(alloc, text)?;
    Ok(Some(name))
}

/// The name of the atom that a line writes.
pub(crate) fn read_atom(alloc: Global, line: &[u8]) -> Result<Option<String>, NoMemory>
    ensures { IfOk result (λ r. ReadsAs string_bytes IsUtf8 (atom_text Quoted) line.now r) }
{
    quoted_is_read();
    let Some(name) = unquoted_name(alloc, line)? else {
        return Ok(None);
    };
    let mut spelled = Vec::new(alloc);
    write_atom(alloc, name.as_str(), false, &mut spelled)?;
    if spelled.as_slice() == line {
        return Ok(Some(name));
    }
    Ok(None)
}

/// The nodes of the range that a line writes.
pub(crate) fn read_range(alloc: Global, line: &[u8]) -> Result<Option<Vec<RangeNode>>, NoMemory>
    ensures { IfOk result (λ r. ReadsAs (λ v. v.items) (All HasSize) nodes_text line.now r) }
{
    if line.is_empty() {
        return Ok(Some(Vec::new(alloc)));
    }
    let words = split_at_each(alloc, line, b' ')?;
    let nodes = read_nodes(alloc, &words)?;
    Ok(nodes)
}

/// The predicate that words write.
fn read_entry_words(words: &[&[u8]]) -> Option<Entry>
    ensures { Reads IsSmallEntry entry_words (map (λ w. w.now) words.now) result }
{
    let [name, count, place] = words else {
        return None;
    };
    let (Some(name), Some(arity)) = (read_atom_number(name), read_arity(count)) else {
        return None;
    };
    let Some(at) = read_number(place) else {
        return None;
    };
    Some(Entry { name, arity, at })
}

/// The predicate that a line writes.
pub(crate) fn read_entry(alloc: Global, line: &[u8]) -> Result<Option<Entry>, NoMemory>
    ensures { IfOk result (λ r. Reads IsSmallEntry entry_text line.now r) }
{
    let words = split_at_each(alloc, line, b' ')?;
    Ok(read_entry_words(&words))
}

/// The query that words write.
fn read_query_words(alloc: Global, words: &[&[u8]]) -> Result<Option<QueryEntry>, NoMemory>
    ensures { IfOk result (λ r. ReadsAs span_of IsSmallSpan span_words
        (map (λ w. w.now) words.now) r) }
{
    let [first, last, shown @ ..] = words else {
        return Ok(None);
    };
    let (Some(at), Some(end)) = (read_number(first), read_number(last)) else {
        return Ok(None);
    };
    let Some(names) = read_names(alloc, shown)? else {
        return Ok(None);
    };
    Ok(Some(QueryEntry { at, end, names }))
}

/// The query that a line writes.
pub(crate) fn read_query(alloc: Global, line: &[u8]) -> Result<Option<QueryEntry>, NoMemory>
    ensures { IfOk result (λ r. ReadsAs span_of IsSmallSpan span_text line.now r) }
{
    let words = split_at_each(alloc, line, b' ')?;
    let query = read_query_words(alloc, &words)?;
    Ok(query)
}

/// The switch with keys of this kind.
fn switch_code(kind: Kind) -> Code
    ensures { result ≡ switch_code kind }
{
    match kind {
        Kind::Atoms => Code::SwitchOnConstant(0),
        Kind::Integers => Code::SwitchOnInteger(0),
        Kind::Structures => Code::SwitchOnStructure(0),
    }
}

/// The instruction of this form that has no rows.
fn read_plain(form: Operation, operands: &[&[u8]]) -> Option<Code>
    ensures { ReadsPlain form (map (λ w. w.now) operands.now) result }
{
    match (form, operands) {
        (Operation::Lone(lone), []) => Some(lone_code(lone)),
        (Operation::One(one), [first]) => read_one(one, first),
        (Operation::Two(two), [first, second]) => read_two(two, first, second),
        (Operation::Three(three), [first, second, third]) => read_three(
            three, first, second, third,
        ),
        (Operation::SwitchOnTerm, [v, c, i, s]) => read_switch_on_term(v, c, i, s),
        _ => None,
    }
}

/// The switch with keys of this kind and the rows that operands write.
fn read_switch(
    alloc: Global,
    kind: Kind,
    operands: &[&[u8]],
) -> Result<Option<(Code, Vec<(Key, usize)>)>, NoMemory>
    ensures { IfOk result (λ r. ReadsAs (λ x. (x.0, x.1.items)) FitsInstruction instruction_text
        (form_name (form.Switch kind) ∷ map (λ w. w.now) operands.now) r) }
{
    let Some(rows) = read_rows(alloc, kind, operands)? else {
        return Ok(None);
    };
    Ok(Some((switch_code(kind), rows)))
}

/// The instruction of this form with operands, without the number of a table, and the rows of a
/// switch.
fn read_form_operands(
    alloc: Global,
    form: Operation,
    operands: &[&[u8]],
) -> Result<Option<(Code, Vec<(Key, usize)>)>, NoMemory>
    ensures { IfOk result (λ r. ReadsAs (λ x. (x.0, x.1.items)) FitsInstruction instruction_text
        (form_name form ∷ map (λ w. w.now) operands.now) r) }
{
    if let Operation::Switch(kind) = form {
        let read = read_switch(alloc, kind, operands)?;
        return Ok(read);
    }
    let Some(code) = read_plain(form, operands) else {
        return Ok(None);
    };
    Ok(Some((code, Vec::new(alloc))))
}

/// The instruction of a name and operands.
fn read_named(
    alloc: Global,
    name: &[u8],
    operands: &[&[u8]],
) -> Result<Option<(Code, Vec<(Key, usize)>)>, NoMemory>
    ensures { IfOk result (λ r. ReadsAs (λ x. (x.0, x.1.items)) FitsInstruction instruction_text
        (name.now ∷ map (λ w. w.now) operands.now) r) }
{
    let Some(form) = read_form(name) else {
        return Ok(None);
    };
    let read = read_form_operands(alloc, form, operands)?;
    Ok(read)
}

/// The instruction that words write.
fn read_instruction(
    alloc: Global,
    words: &[&[u8]],
) -> Result<Option<(Code, Vec<(Key, usize)>)>, NoMemory>
    ensures { IfOk result (λ r. ReadsAs (λ x. (x.0, x.1.items)) FitsInstruction instruction_text
        (map (λ w. w.now) words.now) r) }
{
    let [name, operands @ ..] = words else {
        return Ok(None);
    };
    let read = read_named(alloc, name, operands)?;
    Ok(read)
}

/// The place that words write.
fn read_place_words(alloc: Global, words: &[&[u8]]) -> Result<Option<Place>, NoMemory>
    ensures { IfOk result (λ r. ReadsAs place_in FitsPlace place_words
        (map (λ w. w.now) words.now) r) }
{
    let [registers, slots, count, instruction @ ..] = words else {
        return Ok(None);
    };
    let Some((code, rows)) = read_instruction(alloc, instruction)? else {
        return Ok(None);
    };
    let Some(state) = read_state(alloc, registers, slots, count)? else {
        return Ok(None);
    };
    Ok(Some(Place { state, code, rows }))
}

/// The place that a line writes.
pub(crate) fn read_place(alloc: Global, line: &[u8]) -> Result<Option<Place>, NoMemory>
    ensures { IfOk result (λ r. ReadsAs place_in FitsPlace placed_text line.now r) }
{
    let words = split_at_each(alloc, line, b' ')?;
    let place = read_place_words(alloc, &words)?;
    Ok(place)
}
