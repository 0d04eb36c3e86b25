//! Comments between `/*` and `*/`.

ghost use Rattle.std.specs.Prelude.{true, ◌≡◌, ◌==◌, ◌&&◌, ◌++◌, ◌∷◌};
ghost use Rattle.std.specs.Str.{chars, IsUtf8};
ghost use Rattle.fd_language.specs.Characters as Characters;
ghost use Rattle.fd_language.specs.Tokens as Tokens;
ghost use Rattle.char_tokens.specs.Views as Views;

use crate::front::Front;
use crate::token::TokenCause;
use name_syntax::characters::{first_char, starts_with};

/// Whether a comment ends with this character and the next.
fn closes(c: char, behind: &str) -> bool
    ensures { result ≡ (c == 42 && Characters.starts_with 47 (chars behind.now)) }
{
    c == '*' && starts_with('/', behind)
}

/// The comment at the front of a text that begins with `/*`, and the text behind it. `behind` is the text behind the `/`.
pub(crate) fn comment<'t>(text: &'t str, behind: &'t str) -> (Front, &'t str)
    requires slash { text.now ≡ 47 ∷ behind.now }
    requires star { Characters.starts_with 42 (chars behind.now) ≡ true }
    ensures front { Views.front_is result.0 ≡ Tokens.comment_front 2
        (Characters.tail (chars behind.now)) }
    ensures behind { Views.IsBehind text.now result.0 result.1.now }
    ensures text { IsUtf8 result.1.now }
{
    let mut size = 2;
    let mut rest = &behind[1..];
    while let Some((c, later)) = first_char(rest) {
        if closes(c, later) {
            return (Front::Gap(size + 2), &later[1..]);
        }
        size += c.len_utf8();
        rest = later;
    }
    (Front::Offends(TokenCause::OpenComment, 0), rest)
}
