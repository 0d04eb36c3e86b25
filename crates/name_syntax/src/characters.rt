//! Characters by what they may begin.

ghost use Rattle.std.specs.Prelude.{◌≡◌, ◌∷◌, ◌++◌, ◌&&◌, not, [], MatchOption, encode_utf8};
ghost use Rattle.std.specs.Char.{IsScalar};
ghost use Rattle.std.specs.Str.{chars};
ghost use Rattle.fd_language.specs.Characters as Characters;
ghost use Rattle.unicode_ident.specs.Ident as Ident;

/// The first character, and the text behind it.
pub fn first_char(text: &str) -> Option<(char, &str)>
    ensures split { MatchOption result (text.now ≡ []) (λ r. IsScalar r.0
        × (text.now ≡ encode_utf8 r.0 ++ r.1.now)) }
    ensures characters { MatchOption result (chars text.now ≡ []) (λ r. chars text.now
        ≡ r.0 ∷ chars r.1.now) }
{
    let mut characters = text.chars();
    match characters.next() {
        None => None,
        Some(c) => Some((c, characters.as_str())),
    }
}

/// Whether the first character is the given one.
pub fn starts_with(character: char, text: &str) -> bool
    ensures { result ≡ Characters.starts_with character (chars text.now) }
{
    match first_char(text) {
        None => false,
        Some((c, _)) => c == character,
    }
}

/// Whether it is a space, a tab, a newline, a vertical tab, a form feed or a carriage return.
pub fn is_layout(c: char) -> bool
    ensures { result ≡ Characters.is_layout c }
{
    c == ' ' || ('\t' <= c && c <= '\r')
}

/// Whether it is one of `# $ & * + - . / : < = > ? @ ^ ~ \`, of which a word of symbols is made.
#[tactic(auto, unfolding(fd_language::specs::Characters::is_symbol))]
pub fn is_symbol(c: char) -> bool
    ensures { result ≡ Characters.is_symbol c }
{
    match c {
        '#'
        | '$'
        | '&'
        | '*'
        | '+'
        | '-'
        | '.'
        | '/'
        | ':'
        | '<'
        | '='
        | '>'
        | '?'
        | '@'
        | '^'
        | '~'
        | '\\' => true,
        _ => false,
    }
}

/// Whether it is a word alone: `!` or `;`.
pub fn is_solo(c: char) -> bool
    ensures { result ≡ Characters.is_solo c }
{
    c == '!' || c == ';'
}

/// Whether it is one of `( ) [ ] { } , |`.
#[tactic(auto, unfolding(fd_language::specs::Characters::is_punct))]
pub fn is_punct(c: char) -> bool
    ensures { result ≡ Characters.is_punct c }
{
    match c {
        '(' | ')' | '[' | ']' | '{' | '}' | ',' | '|' => true,
        _ => false,
    }
}

/// Whether it begins a variable: `_`, or a letter from `A` to `Z`.
#[inline]
#[tactic(auto, unfolding(fd_language::specs::Characters::begins_variable))]
pub fn begins_variable(c: char) -> bool
    ensures { result ≡ Characters.begins_variable c }
{
    c == '_' || c.is_ascii_uppercase()
}

/// Whether it begins a word of letters: a letter that begins no variable.
#[inline]
pub fn begins_word(c: char) -> bool
    ensures { result ≡ (not (Characters.begins_variable c) && Ident.is_xid_start c) }
{
    !begins_variable(c) && unicode_ident::is_xid_start(c)
}

/// Whether it continues a word of letters or a variable.
#[inline]
pub fn continues_word(c: char) -> bool
    ensures { result ≡ Ident.is_xid_continue c }
{
    unicode_ident::is_xid_continue(c)
}
