//! Atoms, in quotes where they must be.

ghost use Rattle.std.specs.Prelude.{false, ◌≡◌, ◌<◌, [], ◌∷◌, ◌++◌, ◌||◌, ◌&&◌, not, nat_lt, nat_eq, if◌then◌else◌, codes, OnOk, IfSome, IfNone};
ghost use Rattle.std.specs.Fmt.{digits, digit_glyph};
ghost use Rattle.std.specs.List.{list_all};
ghost use Rattle.std.specs.Str.{bytes_eq, chars};
ghost use Rattle.fd_language.specs.Characters as Characters;
ghost use Rattle.fd_language.specs.Operators as Operators;
ghost use Rattle.fd_language.specs.TermTexts as Writing;
ghost use Rattle.unicode_ident.specs.Ident as Ident;
ghost use Rattle.term_writer.specs.Pieces.{joined};
ghost use Rattle.term_writer.specs.Views.{mode_of, name_text};

use crate::Mode;
use fd_language::NoMemory;
use name_syntax::characters::{begins_word, continues_word, first_char, is_symbol};
use name_syntax::operators::is_operator;

fn ends_with_symbol(text: &[u8]) -> bool
    ensures { result ≡ Writing.ends_with_symbol text.now }
{
    match text.last() {
        None => false,
        Some(byte) => is_symbol(char::from(*byte)),
    }
}

fn starts_with_symbol(text: &[u8]) -> bool
    ensures { result ≡ Writing.starts_with_symbol text.now }
{
    match text.first() {
        None => false,
        Some(byte) => is_symbol(char::from(*byte)),
    }
}

/// Appends a token, with a space before it where two symbol characters would touch.
pub(crate) fn append(text: &mut Vec<u8>, token: &[u8]) -> Result<(), NoMemory>
    ensures { OnOk result (text.new.items ≡ joined text.old.items token.now) }
{
    if ends_with_symbol(text) && starts_with_symbol(token) {
        text.push(b' ')?;
    }
    text.extend_from_slice(token)?;
    Ok(())
}

fn continues(text: &str) -> bool
    ensures { result ≡ list_all Ident.is_xid_continue (chars text.now) }
{
    for c in text.chars() {
        if !continues_word(c) {
            return false;
        }
    }
    true
}

/// Whether it is a word of letters.
#[tactic(auto, using(crate::proofs::Words::word_begins))]
pub(crate) fn is_letter_word(name: &str) -> bool
    ensures { result ≡ Writing.is_letter_word name.now }
{
    match first_char(name) {
        None => false,
        Some((first, behind)) => begins_word(first) && continues(behind),
    }
}

fn are_symbols(name: &[u8]) -> bool
    ensures { result ≡ list_all Characters.is_symbol name.now }
{
    for byte in name {
        if !is_symbol(char::from(*byte)) {
            return false;
        }
    }
    true
}

fn starts_comment(name: &[u8]) -> bool
    ensures { result ≡ Writing.is_comment_start name.now }
{
    matches!(name, [b'/', b'*', ..])
}

/// Whether it is a word of symbols that can stand bare.
fn is_symbol_word(name: &str) -> bool
    ensures { result ≡ Writing.is_symbol_word name.now }
{
    !name.is_empty()
        && are_symbols(name.as_bytes())
        && name != "."
        && !starts_comment(name.as_bytes())
}

/// Whether an atom stands without quotes.
fn is_bare(name: &str) -> bool
    ensures { result ≡ Writing.is_bare name.now }
{
    (is_letter_word(name) || is_symbol_word(name)) && !is_operator(name)
        || name == "[]"
        || name == "{}"
        || name == "!"
}

/// Whether a name stands without quotes before `(`.
fn is_bare_functor(name: &str) -> bool
    ensures { result ≡ (Writing.is_bare name.now || (Operators.is_operator name.now && not
        (bytes_eq name.now (codes ",")))) }
{
    is_bare(name) || is_operator(name) && name != ","
}

/// The digit of a number below 16.
fn hex_digit(value: u8) -> u8
    requires { value < 16 }
    ensures { result ≡ digit_glyph false value }
{
    if value < 10 {
        b'0' + value
    } else {
        b'a' + (value - 10)
    }
}

/// Appends a byte in hexadecimal digits.
#[tactic(auto, using(std::proofs::lemmas::Fmt::hex_one_digit, std::proofs::lemmas::Fmt::hex_two_digits))]
fn append_hex(byte: u8, text: &mut Vec<u8>) -> Result<(), NoMemory>
    ensures { OnOk result (text.new.items ≡ text.old.items ++ digits 16 false byte) }
{
    if byte < 16 {
        text.push(hex_digit(byte))?;
    } else {
        text.extend_from_slice(&[hex_digit(byte / 16), hex_digit(byte % 16)])?;
    }
    Ok(())
}

/// Appends the escape of a byte by its number.
fn append_code(byte: u8, text: &mut Vec<u8>) -> Result<(), NoMemory>
    ensures { OnOk result (text.new.items ≡ text.old.items ++
        (codes "\\x" ++ (digits 16 false byte ++ codes "\\"))) }
{
    text.extend_from_slice(b"\\x")?;
    append_hex(byte, text)?;
    text.push(b'\\')?;
    Ok(())
}

/// The escape of a byte by one sign, if it has one.
fn escape_of(byte: u8) -> Option<&'static [u8]>
    ensures sign { IfSome result (λ escape. escape.now ≡ Writing.quoted_byte byte) }
    ensures other { IfNone result (Writing.quoted_byte byte ≡ (if nat_lt byte 32 || nat_eq byte 127
        then codes "\\x" ++ (digits 16 false byte ++ codes "\\") else byte ∷ [])) }
{
    match byte {
        b'\\' => Some(b"\\\\"),
        b'\'' => Some(b"\\'"),
        b'\n' => Some(b"\\n"),
        b'\t' => Some(b"\\t"),
        b'\r' => Some(b"\\r"),
        _ => None,
    }
}

/// Appends a byte as it stands between quotes.
fn append_escaped(byte: u8, text: &mut Vec<u8>) -> Result<(), NoMemory>
    ensures { OnOk result (text.new.items ≡ text.old.items ++ Writing.quoted_byte byte) }
{
    match escape_of(byte) {
        Some(escape) => text.extend_from_slice(escape)?,
        None => if byte < 32 || byte == 127 {
            append_code(byte, text)?;
        } else {
            text.push(byte)?;
        },
    }
    Ok(())
}

/// Appends a name in quotes.
fn append_quoted(name: &[u8], text: &mut Vec<u8>) -> Result<(), NoMemory>
    ensures { OnOk result (text.new.items ≡ text.old.items ++ Writing.quoted_name name.now) }
{
    text.push(b'\'')?;
    for byte in name {
        append_escaped(*byte, text)?;
    }
    text.push(b'\'')?;
    Ok(())
}

/// Whether a name stands without quotes. `before` says that it stands before `(`.
fn stands_bare(mode: Mode, name: &str, before: bool) -> bool
    ensures { name_text (mode_of mode) before name.now
        ≡ (if result then name.now else Writing.quoted_name name.now) }
{
    match mode {
        Mode::Plain => true,
        Mode::Quoted => if before {
            is_bare_functor(name)
        } else {
            is_bare(name)
        },
    }
}

/// Appends an atom, or where `before` holds a name before `(`.
pub(crate) fn append_name(
    text: &mut Vec<u8>,
    mode: Mode,
    name: &str,
    before: bool,
) -> Result<(), NoMemory>
    ensures { OnOk result (text.new.items ≡ joined text.old.items
        (name_text (mode_of mode) before name.now)) }
{
    if stands_bare(mode, name, before) {
        return append(text, name.as_bytes());
    }
    append_quoted(name.as_bytes(), text)?;
    Ok(())
}
