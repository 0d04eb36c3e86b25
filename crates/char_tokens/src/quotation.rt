//! Quoted atoms, and the characters that they spell.

ghost use Rattle.std.specs.Prelude.{true, ◌≡◌, ◌+◌, ◌*◌, ◌^◌, ◌<◌, ◌≤◌, ◌++◌, ◌∷◌, [], IfOk, OnOk, if◌then◌else◌};
ghost use Rattle.std.specs.Str.{chars, IsUtf8, encode_utf8_all};
ghost use Rattle.std.specs.String.{string_bytes};
ghost use Rattle.fd_language.specs.Characters as Characters;
ghost use Rattle.fd_language.specs.Tokens as Tokens;
ghost use Rattle.char_tokens.specs.Views as Views;

use crate::front::Front;
use crate::token::{Kind, TokenCause};
use fd_language::NoMemory;
use name_syntax::characters::first_char;
use std::alloc::Global;

/// Where a reader stands inside a quoted atom. Places are in bytes from its beginning.
#[derive(Clone, Copy)]
pub(crate) enum Inside {
    /// Between two characters.
    Between,
    /// Behind a quote, which ends the atom unless another quote follows.
    AfterQuote,
    /// Behind a backslash at the place.
    AfterBackslash(usize),
    /// Behind `\x` and hexadecimal digits, with the place of the backslash.
    AfterDigits { from: usize, count: u32, value: u32 },
}

/// What one more character does.
#[derive(Clone, Copy)]
pub(crate) enum Step {
    Stays(Inside),
    /// The atom has ended before the character.
    Ends,
    /// The fault, and its place in bytes from the beginning of the atom.
    Offends(TokenCause, usize),
}

fn is_escape(c: char) -> bool
    ensures { result ≡ Tokens.is_escape c }
{
    match c {
        '\\' | '\'' | '"' | 'n' | 't' | 'r' => true,
        _ => false,
    }
}

/// The character that one of `\ ' " n t r` stands for behind a backslash.
fn escaped(c: char) -> char
    ensures { result ≡ Tokens.escaped c }
{
    match c {
        'n' => '\n',
        't' => '\t',
        'r' => '\r',
        _ => c,
    }
}

/// The character that the digits of `\x` name, where `c` ends them.
fn named(count: u32, value: u32, c: char) -> Option<char>
    ensures { Views.characters result ≡ (if Tokens.names_character count value c then value ∷ []
        else []) }
{
    if c == '\\' && 0 < count {
        char::from_u32(value)
    } else {
        None
    }
}

/// One more character behind `\x` and its digits.
fn past_digits(from: usize, count: u32, value: u32, n: usize, c: char) -> Step
    requires from { from ≤ n }
    requires digits { (count ≤ 6) × (value < 16 ^ count) }
    ensures step { Views.step_is n result ≡ Tokens.inside (Tokens.AfterDigits from count value)
        n c }
    ensures bounded { Views.IsBounded n result }
{
    if let Some(digit) = c.to_digit(16) {
        if count < 6 {
            return Step::Stays(Inside::AfterDigits {
                from,
                count: count + 1,
                value: value * 16 + digit,
            });
        }
    }
    match named(count, value, c) {
        Some(_) => Step::Stays(Inside::Between),
        None => Step::Offends(TokenCause::BadEscape, from),
    }
}

/// One more character, which stands so many bytes from the beginning of the atom.
fn past(place: Inside, n: usize, c: char) -> Step
    requires { Views.IsHeld n place }
    ensures step { Views.step_is n result ≡ Tokens.inside (Views.inside_of place) n c }
    ensures bounded { Views.IsBounded n result }
{
    match place {
        Inside::Between => match c {
            '\'' => Step::Stays(Inside::AfterQuote),
            '\\' => Step::Stays(Inside::AfterBackslash(n)),
            '\n' => Step::Offends(TokenCause::OpenQuote, 0),
            _ => Step::Stays(Inside::Between),
        },
        Inside::AfterQuote => match c {
            '\'' => Step::Stays(Inside::Between),
            _ => Step::Ends,
        },
        Inside::AfterBackslash(from) => {
            if is_escape(c) {
                Step::Stays(Inside::Between)
            } else if c == 'x' {
                Step::Stays(Inside::AfterDigits {
                    from,
                    count: 0,
                    value: 0,
                })
            } else {
                Step::Offends(TokenCause::BadEscape, from)
            }
        }
        Inside::AfterDigits { from, count, value } => past_digits(from, count, value, n, c),
    }
}

/// What stands at the front of a text that ends inside or behind a quoted atom, after so many bytes.
fn end(place: Inside, n: usize) -> Front
    ensures { Views.front_is result ≡ Tokens.quoted_end (Views.inside_of place) n }
{
    match place {
        Inside::Between => Front::Offends(TokenCause::OpenQuote, 0),
        Inside::AfterQuote => Front::Token(Kind::Quoted, n),
        Inside::AfterBackslash(from) => Front::Offends(TokenCause::BadEscape, from),
        Inside::AfterDigits {
            from,
            count: _,
            value: _,
        } => Front::Offends(TokenCause::BadEscape, from),
    }
}

/// The quoted atom at the front of a text that begins with a quote, and the text behind it. `behind` is the text behind the quote.
pub(crate) fn quoted<'t>(text: &'t str, behind: &'t str) -> (Front, &'t str)
    requires { text.now ≡ 39 ∷ behind.now }
    ensures front { Views.front_is result.0 ≡ Tokens.quoted_front Tokens.Between 1
        (chars behind.now) }
    ensures behind { Views.IsBehind text.now result.0 result.1.now }
    ensures text { IsUtf8 result.1.now }
{
    let mut place = Inside::Between;
    let mut size = 1;
    let mut rest = behind;
    while let Some((c, later)) = first_char(rest) {
        match past(place, size, c) {
            Step::Stays(next) => place = next,
            Step::Ends => return (Front::Token(Kind::Quoted, size), rest),
            Step::Offends(cause, at) => return (Front::Offends(cause, at), rest),
        }
        size += c.len_utf8();
        rest = later;
    }
    (end(place, size), rest)
}

/// The character that is spelled once `c` is read.
fn spelled(place: Inside, c: char) -> Option<char>
    ensures { Views.characters result ≡ Tokens.spells (Views.inside_of place) c }
{
    match place {
        Inside::Between => match c {
            '\'' | '\\' | '\n' => None,
            _ => Some(c),
        },
        Inside::AfterQuote => { if c == '\'' { Some(c) } else { None } }
        Inside::AfterBackslash(_) => { if is_escape(c) { Some(escaped(c)) } else { None } }
        Inside::AfterDigits {
            from: _,
            count,
            value,
        } => named(count, value, c),
    }
}

/// Appends the character, if there is one.
fn append(text: &mut String, character: Option<char>) -> Result<(), NoMemory>
    ensures { OnOk result (string_bytes text.new ≡ string_bytes text.old ++ encode_utf8_all
        (Views.characters character)) }
{
    if let Some(c) = character {
        text.push(c)?;
    }
    Ok(())
}

/// The text behind the first character.
fn behind_first(text: &str) -> &str
    ensures characters { chars result.now ≡ Characters.tail (chars text.now) }
    ensures text { IsUtf8 result.now }
{
    match first_char(text) {
        None => text,
        Some((_, behind)) => behind,
    }
}

/// The characters that a quoted atom spells. `text` is that of a `Quoted` token, with its quotes. Of another text it gives what stands behind the first character, read so as far as it can be.
pub fn unquote(alloc: Global, text: &str) -> Result<String, NoMemory>
    ensures { IfOk result (λ s. string_bytes s ≡ Tokens.unquoted text.now) }
{
    let mut spelling = String::new(alloc);
    let mut rest = behind_first(text);
    let mut place = Inside::Between;
    while let Some((c, behind)) = first_char(rest) {
        append(&mut spelling, spelled(place, c))?;
        match past(place, 0, c) {
            Step::Stays(next) => place = next,
            Step::Ends => return Ok(spelling),
            Step::Offends(_, _) => return Ok(spelling),
        }
        rest = behind;
    }
    Ok(spelling)
}
