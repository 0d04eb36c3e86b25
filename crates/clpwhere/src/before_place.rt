//! What is read of a text before a place, and at it.

ghost use Rattle.std.specs.Prelude.{◌≡◌, ◌≤◌, ◌+◌, length};
ghost use Rattle.char_tokens.specs.Views.{kind_of};
ghost use Rattle.clpwhere.specs.BeforePlace.{at_end, at_token, behind_token, is_closing, or_foreign, read_token, read_before, read_in};
ghost use Rattle.clpwhere.specs.Numbers.{last_place};
ghost use Rattle.clpwhere.specs.Sentences.{before_sentence};

use crate::foreign_words::{ForeignWord, foreign_word};
use char_tokens::{Kind, Scanner};

/// What is read before a place.
#[derive(Clone, Copy, Debug, PartialEq, Eq)]
pub(crate) enum Before {
    /// A whole term ends there.
    WholeTerm,
    /// No term has begun: it is the begin of a sentence, or stands behind an opening bracket, a comma or a bar.
    NoTerm,
    /// A name without quotes, which is an operator or a whole term; or the place isn't that of a token.
    Unclear,
    /// A word of another system, which is the token before the place or the one at it.
    Foreign(ForeignWord),
    /// The text ends at the place. Its last token ends at the place that is told here.
    End(usize),
}

/// What is read of the tokens before a place.
#[derive(Clone, Copy)]
struct Passed {
    /// What is read behind the last of them.
    before: Before,
    /// Where it ends.
    end: usize,
}

impl Before {
    /// The sentence on a place where the grammar doesn't go on.
    pub fn sentence(self) -> &'static str
        ensures { result.now ≡ before_sentence self }
    {
        match self {
            Before::WholeTerm =>
                "A whole term ends just before this place, which wants an operator, a comma, a bar, a closing bracket or the full stop that fits there. Often a comma or the full stop is missing just before it.",
            Before::NoTerm =>
                "This place wants a term: a name, a variable, a number or an opening bracket.",
            Before::Unclear =>
                "Behind an operator this place wants a term, and behind a whole term an operator, a comma, a bar, a closing bracket or the full stop. Often a comma or the full stop is missing just before it.",
            Before::Foreign(word) => word.sentence(),
            Before::End(_) =>
                "The text ends here, and its last sentence doesn't: often a closing bracket or the full stop is missing.",
        }
    }

    /// This, or the word of another system where a token is one.
    fn or_foreign(self, text: &str) -> Before
        ensures { result ≡ or_foreign text.now self }
    {
        match foreign_word(text.as_bytes()) {
            Some(word) => Before::Foreign(word),
            None => self,
        }
    }
}

impl Passed {
    /// What is read before a place, where the next token stands at `at`.
    fn at_token(self, place: usize, at: usize, text: &str) -> Before
        ensures { result ≡ at_token place at text.now self }
    {
        if at == place {
            self.before.or_foreign(text)
        } else {
            Before::Unclear
        }
    }

    /// What is read before a place, where there is no other token in a text of `size` bytes.
    fn at_end(self, place: usize, size: usize) -> Before
        ensures { result ≡ at_end place size self }
    {
        if size == place {
            Before::End(self.end)
        } else {
            Before::Unclear
        }
    }
}

/// Whether a token of punctuation closes a bracket.
fn is_closing(text: &str) -> bool
    ensures { result ≡ is_closing text.now }
{
    text == ")" || text == "]" || text == "}"
}

/// What is read where this token is the last one.
fn behind_token(kind: Kind, text: &str) -> Before
    ensures { result ≡ behind_token (kind_of kind) text.now }
{
    match kind {
        Kind::Word => Before::Unclear.or_foreign(text),
        Kind::Quoted | Kind::Variable | Kind::Integer(_) => Before::WholeTerm,
        Kind::Punct if is_closing(text) => Before::WholeTerm,
        Kind::Punct | Kind::Stop => Before::NoTerm,
    }
}

/// The same, with the place at which the token ends.
fn read_token(kind: Kind, text: &str, at: usize) -> Passed
    requires { at + length text.now ≤ 18446744073709551615 }
    ensures { result ≡ read_token (kind_of kind) text.now at }
{
    Passed {
        before: behind_token(kind, text),
        end: at + text.len(),
    }
}

/// What is read of a text in UTF-8 before a place.
fn read_in(text: &str, place: usize) -> Before
    requires { place ≤ last_place }
    ensures { result ≡ read_in text.now place }
{
    let mut scanner = Scanner::new(text);
    let mut last = Passed {
        before: Before::NoTerm,
        end: 0,
    };
    loop {
        match scanner.next_token() {
            Ok(Some(token)) if token.place < place => {
                last = read_token(token.kind, token.text, token.place);
            }
            Ok(Some(token)) => return last.at_token(place, token.place, token.text),
            Ok(None) => return last.at_end(place, text.len()),
            Err(_) => return Before::Unclear,
        }
    }
}

/// What is read of a text of bytes before a place.
pub(crate) fn read_before(text: &[u8], place: usize) -> Before
    requires { place ≤ last_place }
    ensures { result ≡ read_before text.now place }
{
    match std::str::from_utf8(text) {
        Ok(text) => read_in(text, place),
        Err(_) => Before::Unclear,
    }
}
