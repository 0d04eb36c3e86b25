//! What is written of a line.

ghost use Rattle.std.specs.Prelude.{◌≡◌, ◌≤◌, ◌++◌, IfErr, IfOk, OnOk, string_bytes};
ghost use Rattle.byte_ports.specs.Ends.{sink_at};
ghost use Rattle.clpwhere.specs.Endings.{Wrote};
ghost use Rattle.clpwhere.specs.declared.outcome.Fault.TheVariants as fault;
ghost use Rattle.clpwhere.specs.MarkedLines.{caret_lines, explained, is_explained, marked_line, place_line, shown_place, told_at};
ghost use Rattle.clpwhere.specs.Places.{characters, cut_mark, shown_before, shown_character, shown_characters, shown_from};
ghost use Rattle.clpwhere.specs.PlacedLines.{IsLineOf};
ghost use Rattle.clpwhere.specs.Numbers.{last_place};
ghost use Rattle.clpwhere.specs.Refusals.{seen};
ghost use Rattle.clpwhere.specs.PlacedFaults.{told_fault};

use crate::before_place::{Before, read_before};
use crate::faults::{PlacedFault, fault_sentence, fault_words, placed_fault};
use crate::outcome::Fault;
use crate::placed_line::{PlacedLine, line_of};
use crate::queries::QueriedText;
use crate::reason::Reason;
use crate::refusal::{Refusal, refusal_of};
use crate::sentences::reason_sentence;
use crate::text::{NamedText, before_byte};
use byte_ports::{Sink, write_all};
use fd_language::NoMemory;
use std::alloc::Global;
use unicode_width::UnicodeWidthStr;

/// The most characters that are shown on either side of a place.
const SHOWN_LIMIT: usize = 60;

/// What stands for the characters that aren't shown.
fn cut_mark(count: usize) -> &'static str
    ensures { result.now ≡ cut_mark count }
{
    if count > SHOWN_LIMIT { "..." } else { "" }
}

/// A character as it is shown.
fn shown_character(character: char) -> char
    ensures { result ≡ shown_character character }
{
    if character.is_control() {
        ' '
    } else {
        character
    }
}

/// Appends characters as they are shown.
fn put_shown(shown: &mut String, characters: &[char]) -> Result<(), NoMemory>
    ensures { OnOk result
        (string_bytes shown.new ≡ string_bytes shown.old ++ shown_characters characters.now) }
{
    for character in characters {
        shown.push(shown_character(*character))?;
    }
    Ok(())
}

/// Bytes as characters; each sequence that isn't UTF-8 is the one character U+FFFD.
pub(crate) fn characters(alloc: Global, bytes: &[u8]) -> Result<Vec<char>, NoMemory>
    ensures { IfOk result (λ cs. cs.items ≡ characters bytes.now) }
{
    let text = String::from_utf8_lossy(alloc, bytes)?;
    Ok(text.as_str().chars().collect(alloc)?)
}

/// The last of the characters before a place.
fn shown_before(alloc: Global, characters: &[char]) -> Result<String, NoMemory>
    ensures { IfOk result (λ shown. string_bytes shown ≡ shown_before characters.now) }
{
    let start = characters.len().saturating_sub(SHOWN_LIMIT);
    let mut shown = String::from_str(alloc, cut_mark(characters.len()))?;
    put_shown(&mut shown, &characters[start..])?;
    Ok(shown)
}

/// The first of the characters from a place on.
fn shown_from(alloc: Global, characters: &[char]) -> Result<String, NoMemory>
    ensures { IfOk result (λ shown. string_bytes shown ≡ shown_from characters.now) }
{
    let end = SHOWN_LIMIT.min(characters.len());
    let mut shown = String::new(alloc);
    put_shown(&mut shown, &characters[..end])?;
    shown.push_str(cut_mark(characters.len()))?;
    Ok(shown)
}

/// Appends the lines that show a place: the characters before it in its line and those from it on, and a caret below it.
fn put_shown_lines(
    alloc: Global,
    out: &mut Vec<u8>,
    before: &[char],
    from: &[char],
) -> Result<(), NoMemory>
    ensures { OnOk result (out.new.items ≡ out.old.items
        ++ caret_lines (shown_before before.now) (shown_from from.now)) }
{
    let shown = shown_before(alloc, before)?;
    let rest = shown_from(alloc, from)?;
    let indent = vec![in alloc; b' '; shown.as_str().width()]?;
    out.extend_from_slice(shown.as_bytes())?;
    out.extend_from_slice(rest.as_bytes())?;
    out.extend_from_slice(b"\n")?;
    out.extend_from_slice(&indent)?;
    out.extend_from_slice(b"^\n")?;
    Ok(())
}

/// Words with the line and the column of a place.
pub(crate) fn place_line(
    alloc: Global,
    text: &NamedText,
    place: usize,
    line: &PlacedLine,
    words: &[u8],
) -> Result<Vec<u8>, NoMemory>
    requires { IsLineOf text.now.bytes place line.now }
    ensures { IfOk result (λ out. out.items ≡ place_line text.now place words.now) }
{
    let name = text.name();
    let number = line.number;
    let column = 1 + line.at;
    let head = format!(in alloc; "{name}:{number}:{column}: ")?;
    let mut out = Vec::from_slice(alloc, head.as_bytes())?;
    out.extend_from_slice(words)?;
    out.extend_from_slice(b"\n")?;
    Ok(out)
}

/// Words at a place with its line, shown and explained by a sentence, in four lines.
pub(crate) fn told_at(
    alloc: Global,
    text: &NamedText,
    place: usize,
    line: &PlacedLine,
    words: &[u8],
    sentence: &str,
) -> Result<Vec<u8>, NoMemory>
    requires { IsLineOf text.now.bytes place line.now }
    ensures { IfOk result (λ out. out.items ≡ told_at text.now place words.now sentence.now) }
{
    let mut out = place_line(alloc, text, place, line, words)?;
    let (before, from) = line.characters.split_at(line.at);
    put_shown_lines(alloc, &mut out, before, from)?;
    out.extend_from_slice(sentence.as_bytes())?;
    out.extend_from_slice(b"\n")?;
    Ok(out)
}

/// The place that is shown, by what is read before it.
fn shown_place(reason: Reason, before: Before, place: usize) -> usize
    ensures { result ≡ shown_place reason before place }
{
    match (reason, before) {
        (Reason::Syntax, Before::End(at)) => at,
        _ => place,
    }
}

/// The explanation of a refusal.
fn explained(alloc: Global, text: &NamedText, refusal: &Refusal<'_>) -> Result<Vec<u8>, NoMemory>
    requires { refusal.now.place ≤ last_place }
    ensures { IfOk result (λ out. out.items ≡ explained text.now (seen refusal.now)) }
{
    let before = read_before(text.bytes(), refusal.place);
    let rest = text.behind(refusal.place);
    let sentence = reason_sentence(refusal.reason, refusal.words, before, rest);
    let place = shown_place(refusal.reason, before, refusal.place);
    let line = line_of(alloc, text, place, text.line(place))?;
    told_at(alloc, text, place, &line, refusal.words, sentence)
}

/// Writes a piece.
fn put<K: Sink>(sink: &mut K, piece: &[u8]) -> Result<(), Fault>
    ensures wrote { Wrote (sink_at (K.written sink.old) (K.faults sink.old))
        (sink_at (K.written sink.new) (K.faults sink.new))
        result piece.now }
    ensures memory { IfErr result (λ e. e ≡ fault.WriteFault) }
{
    Ok(write_all(sink, piece)?)
}

/// The line of a fault, without its newline, and below it the place of its query.
fn told_fault(
    alloc: Global,
    text: &NamedText,
    words: &[u8],
    found: PlacedFault,
) -> Result<Vec<u8>, NoMemory>
    ensures { IfOk result (λ out. out.items ≡ told_fault text.now words.now found) }
{
    let line = line_of(alloc, text, found.place, text.line(found.place))?;
    let said = fault_words(alloc, found.query, found.fault)?;
    let sentence = fault_sentence(found.fault);
    let told = told_at(alloc, text, found.place, &line, said.as_bytes(), sentence)?;
    let mut out = Vec::from_slice(alloc, words)?;
    out.extend_from_slice(b"\n")?;
    out.extend_from_slice(&told)?;
    Ok(out)
}

/// Writes what becomes of a line that belongs to the query with this number, and tells whether it was explained.
pub(crate) fn put_line<K: Sink>(
    alloc: Global,
    text: &QueriedText,
    query: Option<u64>,
    line: &[u8],
    sink: &mut K,
) -> Result<bool, Fault>
    ensures wrote { Wrote (sink_at (K.written sink.old) (K.faults sink.old))
        (sink_at (K.written sink.new) (K.faults sink.new))
        result (marked_line text.now query line.now) }
    ensures told { IfOk result (λ told. told ≡ is_explained text.now query line.now) }
{
    let words = before_byte(line, b'\n');
    if let Some(refusal) = refusal_of(words) {
        put(sink, &explained(alloc, text.text(), &refusal)?)?;
        return Ok(true);
    }
    if let Some(found) = placed_fault(text, query, words) {
        put(sink, &told_fault(alloc, text.text(), words, found)?)?;
        return Ok(true);
    }
    put(sink, line)?;
    Ok(false)
}
