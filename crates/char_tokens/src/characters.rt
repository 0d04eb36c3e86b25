//! The longest run of characters of a class.

ghost use Rattle.std.specs.Prelude.{◌≡◌, ◌<◌, ◌+◌, ◌≤◌, ◌∷◌, ◌++◌, [], length, drop, encode_utf8};
ghost use Rattle.std.specs.Char.{len_utf8};
ghost use Rattle.std.specs.Str.{chars, IsUtf8};
ghost use Rattle.fd_language.specs.Characters as Characters;
ghost use Rattle.fd_language.specs.Tokens as Tokens;
ghost use Rattle.char_tokens.specs.Views as Views;

use name_syntax::characters::{continues_word, first_char, is_layout, is_symbol};

/// Whether a dot that stands before the text is a stop.
pub(crate) fn ends_stop(text: &str) -> bool
    ensures { result ≡ Tokens.ends_stop (chars text.now) }
{
    match first_char(text) {
        None => true,
        Some((c, _)) => is_layout(c) || c == '%',
    }
}

/// The characters of a run.
#[derive(Clone, Copy)]
pub(crate) enum Class {
    /// What continues a word of letters or a variable.
    Continue,
    /// Symbol characters.
    Symbol,
    /// All up to the end of the line.
    Line,
}

fn passes(class: Class, c: char) -> bool
    ensures { result ≡ Views.passes class c }
{
    match class {
        Class::Continue => continues_word(c),
        Class::Symbol => is_symbol(c),
        Class::Line => c != '\n',
    }
}

/// The bytes of the longest run of the class at the front, and the text behind it.
fn run<'t>(class: Class, text: &'t str) -> (usize, &'t str)
    ensures size { result.0 ≡ Characters.run_size (Views.passes class) (chars text.now) }
    ensures rest { result.1.now ≡ drop result.0 text.now }
    ensures within { result.0 ≤ length text.now }
    ensures text { IsUtf8 result.1.now }
{
    let mut size = 0;
    let mut rest = text;
    while let Some((c, behind)) = first_char(rest) {
        if !passes(class, c) {
            break;
        }
        size += c.len_utf8();
        rest = behind;
    }
    (size, rest)
}

/// The bytes of a character and of the run behind it, and the text behind that run.
pub(crate) fn run_behind<'t>(
    class: Class,
    text: &'t str,
    c: char,
    behind: &'t str,
) -> (usize, &'t str)
    requires { text.now ≡ encode_utf8 c ++ behind.now }
    ensures size { result.0 ≡ len_utf8 c + Characters.run_size (Views.passes class)
        (chars behind.now) }
    ensures within { result.0 ≤ length text.now }
    ensures text { IsUtf8 result.1.now }
    ensures rest { result.1.now ≡ drop result.0 text.now }
{
    let (more, rest) = run(class, behind);
    (c.len_utf8() + more, rest)
}
