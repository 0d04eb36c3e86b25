//! The tokens of the grammar, from those of the text.

ghost use Rattle.std.specs.Prelude.{◌≡◌, ◌<◌, ℕ, [], ◌∷◌, Option, IfOk};
ghost use Rattle.fd_language.specs.Tokens as Tokens;
ghost use Rattle.fd_language.specs.Terminals as Terminals;
ghost use Rattle.fd_language.specs.Reading.{punct_terminal, word_terminal};
ghost use Rattle.term_pool.specs.Contents.{Contents};
ghost use Rattle.term_pool.specs.PoolInvariant.{IsPool};
ghost use Rattle.char_tokens.specs.Views.{lexeme_of};
ghost use Rattle.term_reader.specs.View.{terminal_at, IsTerminal};
ghost use Rattle.term_reader.specs.GrammarTokens.{AreVariables, HasNatural, Sees, Knows};

use crate::parser::Terminal;
use crate::variables::Variables;
use char_tokens::{Kind, Token, unquote};
use fd_language::NoMemory;
use name_syntax::operators::roles_of;
use std::alloc::Global;
use term_pool::{AtomId, Pool};

/// One of `( ) [ ] { } , |`.
fn punct(text: &str, tight: bool) -> Terminal
    ensures is { (c : Contents) (p : ℕ) → terminal_at c p result ≡ punct_terminal p tight text.now }
    ensures own { (c : Contents) → IsTerminal c result }
{
    match text.as_bytes().first() {
        Some(b'(') => Terminal::Open { tight },
        Some(b')') => Terminal::Close,
        Some(b'[') => Terminal::OpenList,
        Some(b']') => Terminal::CloseList,
        Some(b'{') => Terminal::OpenCurly,
        Some(b'}') => Terminal::CloseCurly,
        Some(b',') => Terminal::Comma,
        _ => Terminal::Bar,
    }
}

/// A word that is an operator, or a name.
fn word(pool: &mut Pool, text: &str) -> Result<Terminal, NoMemory>
    requires { IsPool pool.old }
    ensures { IfOk result (λ x. Knows pool.old pool.new (λ p. word_terminal p text.now) x) }
{
    let name = pool.atom(text)?;
    let roles = roles_of(text);
    if roles.is_operator() {
        Ok(Terminal::OperatorWord { name, roles })
    } else {
        Ok(Terminal::Name(name))
    }
}

/// What a quoted atom spells.
fn quoted(alloc: Global, pool: &mut Pool, text: &str) -> Result<Terminal, NoMemory>
    requires { IsPool pool.old }
    ensures { IfOk result (λ x. Knows pool.old pool.new
        (λ p. Terminals.name p (Tokens.unquoted text.now)) x) }
{
    let spelling = unquote(alloc, text)?;
    let name = pool.atom(spelling.as_str())?;
    Ok(Terminal::Name(name))
}

/// The token as the grammar sees it; `None` of a stop.
pub(crate) fn terminal(
    alloc: Global,
    pool: &mut Pool,
    variables: &mut Variables,
    token: Token<'_>,
) -> Result<Option<Terminal>, NoMemory>
    requires pool { IsPool pool.old }
    requires variables { AreVariables pool.old variables.old }
    requires natural { HasNatural (lexeme_of token) }
    ensures { IfOk result (Sees pool.old pool.new variables.old variables.new
        (lexeme_of token.entry)) }
{
    match token.kind {
        Kind::Word => {
            let seen = word(pool, token.text)?;
            Ok(Some(seen))
        }
        Kind::Quoted => {
            let seen = quoted(alloc, pool, token.text)?;
            Ok(Some(seen))
        }
        Kind::Variable => {
            let name = pool.atom(token.text)?;
            let number = variables.number(name)?;
            Ok(Some(Terminal::Variable(number as u64)))
        }
        Kind::Integer(value) => Ok(Some(Terminal::Integer {
            tight: token.tight,
            value,
        })),
        Kind::Punct => Ok(Some(punct(token.text, token.tight))),
        Kind::Stop => Ok(None),
    }
}
