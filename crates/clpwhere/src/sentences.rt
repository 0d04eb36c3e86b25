//! The sentences that explain refusals.

ghost use Rattle.std.specs.Prelude.{◌≡◌};
ghost use Rattle.clpwhere.specs.Sentences.{bad_character_sentence, not_a_range_sentence, reason_sentence, syntax_sentence, unknown_name, unknown_sentence};

use crate::before_place::Before;
use crate::foreign_names::{ForeignName, foreign_name};
use crate::foreign_words::ForeignWord;
use crate::functors::name_part;
use crate::reason::Reason;
use crate::refusal::behind;

/// That on a character that starts no token, by the bytes from it on.
fn bad_character_sentence(rest: &[u8]) -> &'static str
    ensures { result.now ≡ bad_character_sentence rest.now }
{
    if rest.starts_with(b"\xef\xbb\xbf") {
        "This is a byte order mark, which shows nothing and starts no token: save the text without it."
    } else {
        "No token starts with this character."
    }
}

/// That on a place where the grammar doesn't go on, by the bytes from it on.
fn syntax_sentence(before: Before, rest: &[u8]) -> &'static str
    ensures { result.now ≡ syntax_sentence before rest.now }
{
    if rest.starts_with(b"!=") {
        ForeignWord::ExclaimedUnequal.sentence()
    } else {
        before.sentence()
    }
}

/// That on a part that fits nowhere in a range, by the bytes from it on.
fn not_a_range_sentence(rest: &[u8]) -> &'static str
    ensures { result.now ≡ not_a_range_sentence rest.now }
{
    if rest.starts_with(b",") || rest.starts_with(b"[") {
        "A range has no lists and no commas: the numbers 1, 2 and 5 are written {1}:{2}:{5}, or 1..2:{5}."
    } else {
        "This part fits nowhere in a range."
    }
}

/// The name of another system's predicate in the words of an unknown goal.
fn unknown_name(words: &[u8]) -> Option<ForeignName>
    ensures { result ≡ unknown_name words.now }
{
    foreign_name(name_part(behind(b"unknown ", words)?))
}

/// That on a goal whose name nothing has.
fn unknown_sentence(words: &[u8]) -> &'static str
    ensures { result.now ≡ unknown_sentence words.now }
{
    match unknown_name(words) {
        Some(name) => name.sentence(),
        None =>
            "No clause of the text has this name with this number of arguments, and the language has no such form.",
    }
}

/// The sentence that explains a reason: by its words, by what is read before its place, and by the bytes from it on.
pub(crate) fn reason_sentence(
    reason: Reason,
    words: &[u8],
    before: Before,
    rest: &[u8],
) -> &'static str
    ensures { result.now ≡ reason_sentence reason words.now before rest.now }
{
    match reason {
        Reason::TooLarge => "A text has at most 16777216 bytes.",
        Reason::NotUtf8 => "The bytes from here on begin no character of UTF-8.",
        Reason::BadCharacter => bad_character_sentence(rest),
        Reason::OpenQuote => "This quoted name isn't closed on its line.",
        Reason::OpenComment => "This comment has no */ that closes it.",
        Reason::BadEscape => "This backslash starts no escape that a quoted name may have.",
        Reason::IntegerTooWide => "The greatest integer is 9223372036854775807.",
        Reason::FloatOut => "Numbers are integers: none has a fraction.",
        Reason::StringOut =>
            "Texts in double quotes aren't part of the language; a name may stand in single quotes.",
        Reason::Syntax => syntax_sentence(before, rest),
        Reason::TooDeep => "At most 1000 brackets may be open at once.",
        Reason::ArityOver255 => "A compound term has at most 255 arguments.",
        Reason::BadHead =>
            "A clause begins with a name, or with a name and its arguments. A sentence that begins with :- is a directive, and there are none: leave out what loads a library, and ask a query with ?-.",
        Reason::Redefines => "A clause can't redefine a form of the language.",
        Reason::BadGoal =>
            "A goal is a name or a name with arguments, and no variable, number or list; that of fd_minimize and fd_maximize is a labelling.",
        Reason::Unknown => unknown_sentence(words),
        Reason::NotARange => not_a_range_sentence(rest),
        Reason::TooWide => "A value could become wider than 126 bits here.",
        Reason::NotMonotone =>
            "The range could grow when a domain shrinks: turn this part round, or use the variable in one way only.",
        Reason::NotNatural =>
            "A product or quotient of terms that change needs natural terms, which have no difference and no number below 0.",
        Reason::BadDivisor =>
            "A literal divisor is at least 1, and that of a whole range is a literal or one parameter.",
    }
}
