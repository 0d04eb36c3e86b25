//! Terms read from text: sentences in the grammar of ISO/IEC 13211-1, with this project's operators.
#![tactic(auto)]

ghost use Rattle.std.specs.Prelude.{◌≡◌, ℕ, IfOk, IfErr, MatchResult};
ghost use Rattle.fd_language.specs.Reading.{Reading, IsReading, sentences};
ghost use Rattle.term_reader.specs.GivenParts.{HaveParts};
ghost use Rattle.term_reader.specs.VariableNames.{HaveNames};
ghost use Rattle.term_reader.specs.Sentences.{sentences_of, AreOwn, IsFaultOf, IsFaultFor};

pub mod laws;
mod parser;
mod reader;
mod terminals;
mod variables;

use crate::reader::read_text;
pub use reader::{ReaderFault, Sentence, Sentences};
use std::alloc::Global;

/// The sentences of a text, or its first fault.
pub fn read_sentences(alloc: Global, text: &str) -> Result<Sentences, ReaderFault>
    ensures found { IfOk result (λ s. IsReading text.now (sentences (sentences_of s))) }
    ensures own { IfOk result AreOwn }
    ensures names { IfOk result HaveNames }
    ensures parts { IfOk result HaveParts }
    ensures fault { IfErr result (IsFaultOf text.now) }
    ensures only { (v : Reading) → IsReading text.now v → MatchResult result
        (λ s. v ≡ sentences (sentences_of s)) (IsFaultFor v) }
{
    read_text(alloc, text)
}
