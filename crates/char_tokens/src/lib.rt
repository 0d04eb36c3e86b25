//! The tokens of a text of clauses, with their places in bytes.
#![tactic(auto)]

ghost use Rattle.fd_language.specs.QuotedAtoms.{QuotedAtoms};
ghost use Rattle.fd_language.specs.Tokens.{OneVerdict};

mod characters;
mod comment;
mod front;
mod number;
mod quotation;
mod scanner;
mod token;

pub use quotation::unquote;
pub use scanner::{Scanner, tokens};
pub use token::{Kind, Token, TokenCause, TokenFault};

/// Each text has either exactly one list of tokens or exactly one first fault.
pub fn one_verdict()
    ensures { OneVerdict }
{}

/// A quoted atom stands at the front of a text exactly where the text begins with a quote, pieces that each spell a character, and a quote that no other one follows; and it spells what its pieces spell.
pub fn quoted_atoms()
    ensures { QuotedAtoms }
{}
