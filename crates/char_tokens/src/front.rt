//! What a text begins with.

ghost use Rattle.std.specs.Prelude.{◌≡◌, ◌++◌, encode_utf8};
ghost use Rattle.std.specs.Str.{chars, IsUtf8};
ghost use Rattle.fd_language.specs.Tokens as Tokens;
ghost use Rattle.char_tokens.specs.Views as Views;

use crate::characters::{Class, ends_stop, run_behind};
use crate::comment::comment;
use crate::number::integer;
use crate::quotation::quoted;
use crate::token::{Kind, TokenCause};
use name_syntax::characters::{
    begins_variable, begins_word, first_char, is_layout, is_punct, is_solo, is_symbol, starts_with,
};

/// What a text begins with: nothing, layout or a comment, a token, or a fault. Sizes are in bytes; a fault is placed so many bytes behind the beginning.
#[derive(Clone, Copy)]
pub(crate) enum Front {
    Ends,
    Gap(usize),
    Token(Kind, usize),
    Offends(TokenCause, usize),
}

/// What the text begins with, and the text behind it.
#[tactic(auto, unfolding(fd_language::specs::Tokens::front_of))]
pub(crate) fn front_of(text: &str) -> (Front, &str)
    ensures front { Views.front_is result.0 ≡ Tokens.front_of text.now }
    ensures behind { Views.IsBehind text.now result.0 result.1.now }
    ensures text { IsUtf8 result.1.now }
{
    match first_char(text) {
        None => (Front::Ends, text),
        Some((c, behind)) => front_at(text, c, behind),
    }
}

/// How a text is read whose first character is known.
#[derive(Clone, Copy)]
enum Lead {
    /// A layout character.
    Layout,
    /// A comment up to the end of the line.
    Line,
    Digit,
    /// A token of the character and the run of the class behind it.
    Run(Kind, Class),
    Comment,
    /// A token of the character alone.
    Alone(Kind),
    Quote,
    Offends(TokenCause),
}

/// How a text of this first character, with this text behind it, is read.
fn lead_of(c: char, behind: &str) -> Lead
    ensures { result ≡ Views.lead_of c (chars behind.now) }
{
    if is_layout(c) {
        return Lead::Layout;
    }
    if c == '%' {
        return Lead::Line;
    }
    if c.is_digit(10) {
        return Lead::Digit;
    }
    if begins_variable(c) {
        return Lead::Run(Kind::Variable, Class::Continue);
    }
    if begins_word(c) {
        return Lead::Run(Kind::Word, Class::Continue);
    }
    if c == '/' && starts_with('*', behind) {
        return Lead::Comment;
    }
    if c == '.' && ends_stop(behind) {
        return Lead::Alone(Kind::Stop);
    }
    if is_symbol(c) {
        return Lead::Run(Kind::Word, Class::Symbol);
    }
    if is_solo(c) {
        return Lead::Alone(Kind::Word);
    }
    if is_punct(c) {
        return Lead::Alone(Kind::Punct);
    }
    match c {
        '\'' => Lead::Quote,
        '"' => Lead::Offends(TokenCause::StringOut),
        _ => Lead::Offends(TokenCause::BadCharacter),
    }
}

/// What a text of this first character begins with, and the text behind it.
fn front_at<'t>(text: &'t str, c: char, behind: &'t str) -> (Front, &'t str)
    requires { text.now ≡ encode_utf8 c ++ behind.now }
    ensures front { Views.front_is result.0 ≡ Tokens.front_at c (chars behind.now) }
    ensures behind { Views.IsBehind text.now result.0 result.1.now }
    ensures text { IsUtf8 result.1.now }
{
    match lead_of(c, behind) {
        Lead::Layout => (Front::Gap(c.len_utf8()), behind),
        Lead::Line => {
            let (size, rest) = run_behind(Class::Line, text, c, behind);
            (Front::Gap(size), rest)
        }
        Lead::Digit => integer(text, c, behind),
        Lead::Run(kind, class) => {
            let (size, rest) = run_behind(class, text, c, behind);
            (Front::Token(kind, size), rest)
        }
        Lead::Comment => comment(text, behind),
        Lead::Alone(kind) => (Front::Token(kind, c.len_utf8()), behind),
        Lead::Quote => quoted(text, behind),
        Lead::Offends(cause) => (Front::Offends(cause, 0), behind),
    }
}
