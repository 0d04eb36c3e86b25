//! What a text is made of.

ghost use Rattle.std.specs.Prelude.{◌≡◌};
ghost use Rattle.char_tokens.specs.declared.token.TokenFault.TheVariants.{NoMemory};

use std::alloc::AllocFailed;
use thiserror::Error;

/// The kind of a token.
#[derive(Clone, Copy, PartialEq, Eq)]
pub enum Kind {
    /// A word of letters, a word of symbol characters, `!` or `;`.
    Word,
    /// A quoted atom: `unquote` gives the characters that it spells.
    Quoted,
    /// `_` or a capital, and what continues it.
    Variable,
    /// An integer, which has no sign, with its value.
    Integer(i64),
    /// One of `( ) [ ] { } , |`.
    Punct,
    /// The dot that ends a sentence.
    Stop,
}

/// A token of a text.
#[derive(Clone, Copy)]
pub struct Token<'t> {
    /// What it is.
    pub kind: Kind,
    /// The token as it stands in the text.
    pub text: &'t str,
    /// Where it begins, in bytes.
    pub place: usize,
    /// No layout and no comment stands before it.
    pub tight: bool,
}

/// Why a text has no tokens.
#[derive(Clone, Copy, Debug)]
pub enum TokenCause {
    /// No token can start with the character, or it is a quote directly behind the integer `0`.
    BadCharacter,
    /// A quoted atom isn't closed on its line. The place is its opening quote.
    OpenQuote,
    /// A comment isn't closed. The place is its opening.
    OpenComment,
    /// A backslash in a quoted atom starts no escape.
    BadEscape,
    /// The number is over 9,223,372,036,854,775,807. The place is its first digit.
    IntegerTooWide,
    /// Decimal digits, a dot and a decimal digit. The place is the first digit.
    FloatOut,
    /// A double quote where a token could start.
    StringOut,
}

/// Why a text gives no list of tokens.
#[derive(Debug, Drop, Error)]
pub enum TokenFault {
    /// The first fault of the text, with its place in bytes.
    #[error("{cause:?} at byte {place}")]
    At { place: usize, cause: TokenCause },
    /// Memory was wanting.
    #[error("out of memory")]
    NoMemory,
}

impl<T: Drop> From<AllocFailed<T>> for TokenFault {
    ghost from_gives = { λ _ e. e ≡ NoMemory };

    fn from(_error: AllocFailed<T>) -> TokenFault {
        TokenFault::NoMemory
    }
}
