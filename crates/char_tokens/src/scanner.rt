//! The tokens of a text, one after the other.

ghost use Rattle.std.specs.Prelude.{◌≡◌, ◌≤◌, ◌+◌, [], List, ℕ, length, true, IfOk, IfErr, OnErr, MatchResult, MatchOption, IfSome};
ghost use Rattle.std.specs.Str.{IsUtf8};
ghost use Rattle.fd_language.specs.TokenSlices.{AreSlices};
ghost use Rattle.fd_language.specs.Tokens as Tokens;
ghost use Rattle.char_tokens.specs.Views.{lexeme_of, lexemes, IsFaultIn, IsFaultAt};
ghost use Rattle.char_tokens.specs.NextTokens.{AreTokens, HasRead, IsFirstFault, IsNext, Refuses};

use crate::front::{Front, front_of};
use crate::token::{Token, TokenFault};
use std::alloc::Global;
use std::marker::Model;

/// The first token of a text that begins at this place, and the text behind it; `None` where only layout and comments are.
fn first_token(text: &str, from: usize) -> Result<Option<(Token<'_>, &str)>, TokenFault>
    requires { from + length text.now ≤ 9223372036854775807 }
    ensures found { IfOk result (λ o. MatchOption o (Tokens.HasTokens from true text.now [])
        (λ r. IsNext (record { bytes = text.now; place = from })
        (record { bytes = r.1.now; place = r.0.place + length r.0.text.now }) (lexeme_of r.0))) }
    ensures text { IfOk result (λ o. IfSome o (λ r. IsUtf8 r.1.now)) }
    ensures within { IfOk result
        (λ o. IfSome o (λ r. r.0.place + length r.0.text.now + length r.1.now ≤ from +
        length text.now)) }
    ensures fault { IfErr result (Refuses (record { bytes = text.now; place = from })) }
{
    let mut rest = text;
    let mut place = from;
    let mut tight = true;
    loop {
        let (front, behind) = front_of(rest);
        match front {
            Front::Ends => return Ok(None),
            Front::Offends(cause, n) => return Err(TokenFault::At {
                place: place + n,
                cause,
            }),
            Front::Gap(size) => {
                place += size;
                tight = false;
                rest = behind;
            }
            Front::Token(kind, size) => {
                let token = Token {
                    kind,
                    text: &rest[..size],
                    place,
                    tight,
                };
                return Ok(Some((token, behind)));
            }
        }
    }
}

/// Reads a text token by token, and takes no memory for it.
#[derive(Drop)]
pub struct Scanner<'t> {
    rest: &'t str,
    place: usize,
}

impl<'t> Model for Scanner<'t> {
    ghost use Rattle.std.specs.Prelude.{◌+◌, ◌≤◌, length};
    ghost use Rattle.char_tokens.specs.UnreadText.{Left};

    ghost Value = { Left };

    ghost view = { λ s. record { bytes = s.rest.now; place = s.place } };

    ghost invariant = { λ s. s.place + length s.rest.now ≤ 9223372036854775807 };
}

impl<'t> Scanner<'t> {
    /// At the beginning of a text in UTF-8.
    pub fn new(text: &'t str) -> Scanner<'t>
        ensures { result ≡ record { bytes = text.now; place = 0 } }
    {
        Scanner {
            rest: text,
            place: 0,
        }
    }

    /// The next token, with its place in bytes; `None` at the end. A fault before it is the error, which is never want of memory. Behind the end or a fault the scanner stays, so the next call gives the same.
    pub fn next_token(&mut self) -> Result<Option<Token<'t>>, TokenFault>
        ensures read { IfOk result (HasRead self.old self.new) }
        ensures fault { IfErr result (Refuses self.old) }
        ensures stays { OnErr result (self.new ≡ self.old) }
    {
        match first_token(self.rest, self.place) {
            Ok(Some((token, rest))) => {
                self.rest = rest;
                self.place = token.place + token.text.len();
                Ok(Some(token))
            }
            Ok(None) => Ok(None),
            Err(fault) => Err(fault),
        }
    }

    /// Reads on to the end, and keeps nothing. The first fault of what is left is the error, which is never want of memory.
    pub fn finish(self) -> Result<(), TokenFault>
        ensures tokens { IfOk result (λ _. AreTokens self.entry) }
        ensures fault { IfErr result (IsFirstFault self.entry) }
    {
        let mut scanner = self;
        while scanner.next_token()?.is_some() {}
        Ok(())
    }
}

/// The tokens of a text in UTF-8, or its first fault, with places in bytes.
///
/// The tokens are a part of those of ISO/IEC 13211-1, 6.4: there are no floating point numbers, no character codes behind `0'`, no strings in double quotes and no atoms over several lines; these are faults. Letters past ASCII start words, and `unicode_ident` says which characters continue a word or a variable. Both are this project's own.
pub fn tokens(alloc: Global, text: &str) -> Result<Vec<Token<'_>>, TokenFault>
    ensures found { IfOk result (λ v. Tokens.TokensOf text.now (lexemes v.items)) }
    ensures slices { IfOk result (λ v. AreSlices text.now 0 (lexemes v.items)) }
    ensures fault { IfErr result (IsFaultIn text.now) }
    ensures only_these { (ts : List Tokens.Lexeme) → Tokens.TokensOf text.now ts
        → MatchResult result (λ v. lexemes v.items ≡ ts) (λ e. e ≡ TokenFault.NoMemory) }
    ensures only_this { (cause : Tokens.Cause) (place : ℕ) → Tokens.FaultOf text.now cause place
        → MatchResult result (λ _. ⊥) (IsFaultAt cause place) }
{
    let mut found = Vec::new(alloc);
    let mut scanner = Scanner::new(text);
    while let Some(token) = scanner.next_token()? {
        found.push(token)?;
    }
    Ok(found)
}
