//! The form of words that are accepted.

ghost use Rattle.std.specs.Prelude.{◌≡◌, is_some, map, string_bytes};
ghost use Rattle.command_words.specs.Words as form;

use crate::AgendaName;
use fd_language::INFINITY;

/// The number that decimal digits without a sign and without a leading zero write, where it lies in the range.
pub(crate) fn number(text: &str, low: u64, high: u64) -> Option<u64>
    ensures { result ≡ form.number_in low high text.now }
{
    let [b'1'..=b'9', ..] = text.as_bytes() else {
        return None;
    };
    let n = text.parse().ok()?;
    (low..=high).contains(&n).then_some(n)
}

/// The number of a limit.
pub(crate) fn limit(text: &str) -> Option<u64>
    ensures { result ≡ form.limit_in text.now }
{
    number(text, 1, 1_000_000_000_000)
}

/// The greatest number that a variable may have.
pub(crate) fn infinity(text: &str) -> Option<u32>
    ensures { result ≡ form.infinity_in text.now }
{
    u32::try_from(number(text, 1, u64::from(INFINITY))?).ok()
}

/// The size of a generated text.
pub(crate) fn size(text: &str) -> Option<u32>
    ensures { result ≡ form.size_in text.now }
{
    u32::try_from(number(text, 4, 12)?).ok()
}

/// The agenda of a name.
pub(crate) fn agenda(text: &str) -> Option<AgendaName>
    ensures { result ≡ form.agenda_in text.now }
{
    match text {
        "fifo" => Some(AgendaName::Fifo),
        "cheapest" => Some(AgendaName::Cheapest),
        _ => None,
    }
}

/// Whether a name is an option's, and a value is one of that option.
fn is_choice(name: &str, value: &str) -> bool
    ensures { result ≡ form.is_choice name.now value.now }
{
    match name {
        "--steps" | "--answers" => limit(value).is_some(),
        "--agenda" => agenda(value).is_some(),
        "--infinity" => infinity(value).is_some(),
        "--gen" => size(value).is_some(),
        _ => false,
    }
}

/// Whether a name stands in front of a value.
fn is_named(name: &str, words: &[String]) -> bool
    ensures { result ≡ is_some (form.value_behind name.now (map string_bytes words.now)) }
{
    let mut left = words;
    while let [word, _, rest @ ..] = left {
        if word.as_str() == name {
            return true;
        }
        left = rest;
    }
    false
}

/// Whether words are pairs of an option's name and a value of it, each option once.
pub(crate) fn has_form(words: &[String]) -> bool
    ensures { result ≡ form.has_form (map string_bytes words.now) }
{
    let mut left = words;
    while let [name, value, rest @ ..] = left {
        let name = name.as_str();
        if !is_choice(name, value.as_str()) || is_named(name, rest) {
            return false;
        }
        left = rest;
    }
    left.is_empty()
}
