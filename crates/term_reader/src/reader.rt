//! Sentences read from a text, token by token.

ghost use Rattle.std.specs.Prelude.{◌≡◌, ◌≤◌, [], List, IfOk, IfErr, OnOk, IsTrue};
ghost use Rattle.fd_language.specs.Tokens.{Lexeme};
ghost use Rattle.fd_language.specs.Reading.{terminal_of, IsSentences};
ghost use Rattle.fd_language.specs.GrammarFaults.{open_behind, deepest};
ghost use Rattle.fd_language.specs.Term.{Name};
ghost use Rattle.char_tokens.specs.Views.{lexeme_of};
ghost use Rattle.term_reader.specs.declared.reader.ReaderFault.TheVariants as faults;
ghost use Rattle.term_reader.specs.GrammarTokens.{HasNatural};
ghost use Rattle.term_reader.specs.Sentences.{HasRead, HasReadText, IsReader, IsStop, Took, AreOwn, IsFaultOf, fault_of, sentences_of};

use crate::parser::Parser;
use crate::terminals::terminal;
use crate::variables::Variables;
use char_tokens::{Kind, Scanner, Token, TokenFault};
use fd_language::NoMemory;
use std::alloc::Global;
use term_pool::{AtomId, Pool, TermId};
use thiserror::Error;

/// A sentence.
#[derive(Drop)]
pub struct Sentence {
    pub term: TermId,
    /// The names of the sentence's variables, by their numbers. Each `_` has a number of its own.
    pub names: Vec<AtomId>,
}

/// The sentences of a text, with the pool of their terms and names. The place of a term is that of its principal token, in bytes.
#[derive(Drop)]
pub struct Sentences {
    pub pool: Pool,
    pub list: Vec<Sentence>,
}

/// Why a text is no list of sentences. Places are in bytes.
#[derive(Debug, Drop, Error)]
pub enum ReaderFault {
    /// The text has no tokens.
    #[error("{0}")]
    Token(TokenFault),
    /// The place of the first token with which the tokens begin no sentences, or the size of a text whose last sentence isn't ended.
    #[error("syntax at byte {place}")]
    Syntax { place: usize },
    /// The place of the first bracket at which more than 1,000 are open.
    #[error("too deep at byte {place}")]
    TooDeep { place: usize },
    #[error("out of memory")]
    NoMemory,
}

impl From<TokenFault> for ReaderFault {
    ghost from_gives = { λ t e. e ≡ fault_of t };

    fn from(fault: TokenFault) -> ReaderFault {
        match fault {
            TokenFault::At { place, cause } => ReaderFault::Token(TokenFault::At { place, cause }),
            TokenFault::NoMemory => ReaderFault::NoMemory,
        }
    }
}

impl From<NoMemory> for ReaderFault {
    ghost from_gives = { λ _ e. e ≡ faults.NoMemory };

    fn from(_error: NoMemory) -> ReaderFault {
        ReaderFault::NoMemory
    }
}

/// The greatest number of brackets that may be open at one place.
const DEEPEST: usize = 1000;

/// What is read so far.
#[derive(Drop)]
struct Reader {
    parser: Parser,
    variables: Variables,
    list: Vec<Sentence>,
}

/// The brackets that are open behind a token, where `depth` were open before it.
fn depth_behind(depth: usize, token: Token<'_>) -> usize
    requires { depth ≤ deepest }
    ensures { (names : List Name) → result ≡ open_behind depth
        (terminal_of names (lexeme_of token.entry)) }
{
    if token.kind != Kind::Punct {
        return depth;
    }
    match token.text.as_bytes().first() {
        Some(b'(' | b'[' | b'{') => depth + 1,
        Some(b')' | b']' | b'}') => depth.saturating_sub(1),
        _ => depth,
    }
}

impl Reader {
    fn new(alloc: Global) -> Result<Reader, NoMemory>
        ensures whole { IfOk result IsReader }
        ensures begins { IfOk result (HasRead []) }
    {
        let mut parser = Parser::new(alloc)?;
        let anonymous = parser.pool.atom("_")?;
        Ok(Reader {
            parser,
            variables: Variables::new(alloc, anonymous),
            list: Vec::new(alloc),
        })
    }

    /// Reads the stop behind a sentence; false where it can't stand there.
    fn end(&mut self, alloc: Global) -> Result<bool, NoMemory>
        requires { IsReader self.old }
        ensures whole { IfOk result (λ b. IsTrue b → IsReader self.new) }
        ensures took { IfOk result (λ b. (ls : List Lexeme) (l : Lexeme) → IsStop l
            → HasRead ls self.old → Took b ls l self.new) }
    {
        let Some(term) = self.parser.stop()? else {
            return Ok(false);
        };
        let names = self.variables.take(alloc);
        self.list.push(Sentence { term, names })?;
        Ok(true)
    }

    /// Reads a token; false where it can't stand there.
    fn read(&mut self, alloc: Global, token: Token<'_>) -> Result<bool, NoMemory>
        requires whole { IsReader self.old }
        requires natural { HasNatural (lexeme_of token) }
        ensures whole { IfOk result (λ b. IsTrue b → IsReader self.new) }
        ensures took { IfOk result (λ b. (ls : List Lexeme) → HasRead ls self.old → Took b ls
            (lexeme_of token.entry) self.new) }
    {
        match terminal(alloc, &mut self.parser.pool, &mut self.variables, token)? {
            Some(seen) => self.parser.step(seen, token.place),
            None => self.end(alloc),
        }
    }

    /// Reads all tokens of a text. A fault of the tokens comes before those of the grammar, so behind one of these the tokens are read to the end.
    fn read_all(&mut self, alloc: Global, text: &str) -> Result<(), ReaderFault>
        requires whole { IsReader self.old }
        requires begins { HasRead [] self.old }
        ensures read { OnOk result (HasReadText text.now self.new) }
        ensures fault { IfErr result (IsFaultOf text.now) }
    {
        let mut scanner = Scanner::new(text);
        let mut depth = 0;
        while let Some(token) = scanner.next_token()? {
            if !self.read(alloc, token)? {
                scanner.finish()?;
                return Err(ReaderFault::Syntax { place: token.place });
            }
            depth = depth_behind(depth, token);
            if depth > DEEPEST {
                scanner.finish()?;
                return Err(ReaderFault::TooDeep { place: token.place });
            }
        }
        Ok(())
    }

    /// The sentences of a text of which all tokens are read, unless the last sentence isn't ended.
    fn into_sentences(self, text: &str) -> Result<Sentences, ReaderFault>
        requires { HasReadText text.now self }
        ensures found { IfOk result (λ s. IsSentences text.now (sentences_of s)) }
        ensures own { IfOk result AreOwn }
        ensures fault { IfErr result (IsFaultOf text.now) }
        ensures memory { IfErr result (λ e. e ≡ faults.NoMemory → ⊥) }
    {
        if !self.parser.is_between() {
            return Err(ReaderFault::Syntax { place: text.len() });
        }
        let parser = self.parser;
        let list = self.list;
        Ok(Sentences {
            pool: parser.into_pool(),
            list,
        })
    }
}

/// The sentences of a text, or its first fault.
pub(crate) fn read_text(alloc: Global, text: &str) -> Result<Sentences, ReaderFault>
    ensures found { IfOk result (λ s. IsSentences text.now (sentences_of s)) }
    ensures own { IfOk result AreOwn }
    ensures fault { IfErr result (IsFaultOf text.now) }
{
    let mut reader = Reader::new(alloc)?;
    reader.read_all(alloc, text)?;
    reader.into_sentences(text)
}
