//! Integers.

ghost use Rattle.std.specs.Prelude.{ℕ, true, false, ◌≡◌, ◌==◌, ◌&&◌, ◌<◌, ◌+◌, ◌≤◌, ◌∷◌, ◌++◌, length, drop, MatchOption, IfSome, encode_utf8};
ghost use Rattle.std.specs.Char.{len_utf8};
ghost use Rattle.std.specs.Str.{chars, IsUtf8};
ghost use Rattle.fd_language.specs.Characters as Characters;
ghost use Rattle.fd_language.specs.Tokens as Tokens;
ghost use Rattle.char_tokens.specs.Views as Views;

use crate::front::Front;
use crate::token::{Kind, TokenCause};
use name_syntax::characters::{first_char, starts_with};

/// The number behind one more digit, where it is an integer.
fn next_integer(value: Option<u64>, base: u32, digit: u32) -> Option<u64>
    requires base { base ≤ 16 }
    requires digit { digit < 16 }
    requires value { IfSome value (λ v. v ≤ Tokens.greatest_integer) }
    ensures { result ≡ Views.next_integer base value digit }
{
    let value = value?;
    let next = value as u128 * base as u128 + digit as u128;
    if next > i64::MAX as u128 {
        return None;
    }
    Some(next as u64)
}

/// The digits at the front of a text: their size in bytes, the number that they spell, where it is an integer, and the text behind them.
fn digits(base: u32, text: &str) -> (usize, Option<u64>, &str)
    requires low { 2 ≤ base }
    requires high { base ≤ 16 }
    ensures size { result.0 ≡ Characters.run_size (Characters.is_digit_of base) (chars text.now) }
    ensures value { result.1 ≡ Views.integer_of (Characters.digits_value base 0 (chars text.now)) }
    ensures past { chars result.2.now ≡ Characters.past_run (Characters.is_digit_of base)
        (chars text.now) }
    ensures rest { result.2.now ≡ drop result.0 text.now }
    ensures within { result.0 ≤ length text.now }
    ensures text { IsUtf8 result.2.now }
{
    let mut size = 0;
    let mut value = Some(0);
    let mut rest = text;
    while let Some((c, behind)) = first_char(rest) {
        let Some(digit) = c.to_digit(base) else {
            break;
        };
        value = next_integer(value, base, digit);
        size += c.len_utf8();
        rest = behind;
    }
    (size, value, rest)
}

/// The base that a letter behind `0` names.
fn base_of(letter: char) -> Option<u32>
    ensures { MatchOption result (Tokens.base_of letter ≡ 0)
        (λ base. (Tokens.base_of letter ≡ base) × (2 ≤ base) × (base ≤ 16) × (letter < 128)) }
{
    match letter {
        'x' => Some(16),
        'o' => Some(8),
        'b' => Some(2),
        _ => None,
    }
}

fn starts_with_digit(base: u32, text: &str) -> bool
    requires low { 2 ≤ base }
    requires high { base ≤ 16 }
    ensures { result ≡ Characters.starts_with_digit_of base (chars text.now) }
{
    match first_char(text) {
        None => false,
        Some((c, _)) => c.is_digit(base),
    }
}

/// The base that the first character names, and the text behind it, where that begins with a digit of the base.
fn base(text: &str) -> Option<(u32, &str)>
    ensures { MatchOption result (Tokens.has_base (chars text.now) ≡ false)
        (λ r. Views.IsBased text.now r.0 r.1.now) }
{
    let (letter, behind) = first_char(text)?;
    let base = base_of(letter)?;
    if starts_with_digit(base, behind) {
        Some((base, behind))
    } else {
        None
    }
}

/// Whether a text begins with a dot and a decimal digit.
fn has_fraction(text: &str) -> bool
    ensures { result ≡ Tokens.has_fraction (chars text.now) }
{
    match first_char(text) {
        None => false,
        Some((c, behind)) => c == '.' && starts_with_digit(10, behind),
    }
}

/// An integer of so many bytes, or that its number is too wide.
fn number(value: Option<u64>, size: usize) -> Front
    requires { IfSome value (λ v. v ≤ Tokens.greatest_integer) }
    ensures { (v : ℕ) → value ≡ Views.integer_of v → Views.front_is result
        ≡ Tokens.number_front v size }
{
    match value {
        Some(value) => Front::Token(Kind::Integer(value as i64), size),
        None => Front::Offends(TokenCause::IntegerTooWide, 0),
    }
}

/// The number at the front of a text whose first character is a decimal digit, and the text behind it.
pub(crate) fn integer<'t>(text: &'t str, c: char, behind: &'t str) -> (Front, &'t str)
    requires split { text.now ≡ encode_utf8 c ++ behind.now }
    requires digit { Characters.is_digit_of 10 c ≡ true }
    ensures front { Views.front_is result.0 ≡ Tokens.integer_front c (chars behind.now) }
    ensures behind { Views.IsBehind text.now result.0 result.1.now }
    ensures text { IsUtf8 result.1.now }
{
    if c == '0' {
        if let Some((base, rest)) = base(behind) {
            let (size, value, rest) = digits(base, rest);
            return (number(value, 2 + size), rest);
        }
    }
    decimal(text, c, behind)
}

/// Whether the integer `0` and a quote stand here, which no token may follow.
fn is_character_code(c: char, behind: &str) -> bool
    ensures { result ≡ (c == 48 && Characters.starts_with 39 (chars behind.now)) }
{
    c == '0' && starts_with('\'', behind)
}

/// The decimal number at the front of a text whose first character is a digit, and the text behind it.
fn decimal<'t>(text: &'t str, c: char, behind: &'t str) -> (Front, &'t str)
    requires split { text.now ≡ encode_utf8 c ++ behind.now }
    requires digit { Characters.is_digit_of 10 c ≡ true }
    ensures front { Views.front_is result.0 ≡ Tokens.decimal_front c (chars behind.now) }
    ensures behind { Views.IsBehind text.now result.0 result.1.now }
    ensures text { IsUtf8 result.1.now }
{
    let (size, value, rest) = digits(10, text);
    if has_fraction(rest) {
        return (Front::Offends(TokenCause::FloatOut, 0), rest);
    }
    if is_character_code(c, behind) {
        return (Front::Offends(TokenCause::BadCharacter, 1), rest);
    }
    (number(value, size), rest)
}
