//! The top level: for words and a text its whole output, written to a sink.
#![tactic(auto)]

ghost use Rattle.std.specs.Prelude.{◌≡◌, ◌≤◌, ℕ, List, Some, None, false, map, string_bytes};
ghost use Rattle.fd_language.specs.declared.TheConstants.{INFINITY};
ghost use Rattle.fd_model.specs.Run.{IsLimit};
ghost use Rattle.command_words.specs.Words.{asked, options_of};
ghost use Rattle.byte_ports.specs.Ends.{ends};
ghost use Rattle.top_level.specs.Headline.{Headline, reads_source};

pub mod laws;

use answer_text::{Reason, USAGE};
use byte_ports::{MAX_TEXT, ReadTextFault, Sink, Source, read_text};
pub use command_words::{AgendaName, Options, WordsFault, read_words};
pub use fd_model::Status;
use run_summary::put_summary;
pub use run_summary::queens_text;
use std::alloc::Global;
use text_output::{answer, put_last};
use text_verdict::{judge_text, refused};

/// Writes the output of the text that the source gives, and tells how the run ended.
fn answer_source<S: Source, K: Sink>(
    alloc: Global,
    options: Options,
    source: &mut S,
    sink: &mut K,
) -> Status
    requires limit { IsLimit options.answers }
    requires infinity { (1 ≤ options.infinity) × (options.infinity ≤ INFINITY) }
    requires size { options.generate ≡ None }
    ensures { (words : List (List ℕ)) → options_of words ≡ Some (asked options)
        → Headline words
        (ends (S.left source.old) (K.written sink.old) (S.faults source.old) (K.faults sink.old))
        (ends (S.left source.new) (K.written sink.new) (S.faults source.new) (K.faults sink.new))
        (K.handed sink.old) (K.handed sink.new) result }
{
    match read_text(alloc, source) {
        Ok(text) => {
            let verdict = judge_text(alloc, &text, options.infinity);
            drop(text);
            answer(alloc, verdict, options, sink)
        }
        Err(ReadTextFault::ReadFault) => Status::ReadFault,
        Err(ReadTextFault::TooLarge) => {
            answer(
                alloc,
                refused(alloc, MAX_TEXT, Reason::TooLarge),
                options,
                sink,
            )
        }
        Err(ReadTextFault::NoMemory) => Status::NoMemory,
    }
}

/// Writes the output of the words and of the text that the source gives, and tells how the run ended.
///
/// `words` are the command line without the program's own name; `read_words` says which are accepted. Where they ask for
/// a generated text (`--gen`), its run is summed up in four lines, and the source isn't touched; nor is it where the
/// words are refused. Else it is read to its end, in bytes, and what the text is, a program or refused, is settled before
/// the first byte is written. The status says which case it was: see `Status`.
///
/// Each line, and the text of each `write`, is one piece for the sink.
pub fn run<S: Source, K: Sink>(
    alloc: Global,
    words: &[String],
    source: &mut S,
    sink: &mut K,
) -> Status
    ensures headline { Headline (map string_bytes words.now)
        (ends (S.left source.old) (K.written sink.old) (S.faults source.old) (K.faults sink.old))
        (ends (S.left source.new) (K.written sink.new) (S.faults source.new) (K.faults sink.new))
        (K.handed sink.old) (K.handed sink.new) result }
    ensures untouched { reads_source (options_of (map string_bytes words.now)) ≡ false
        → source.new ≡ source.old }
{
    match read_words(alloc, words) {
        Ok(options) => match options.generate {
            Some(size) => put_summary(alloc, size, options, sink),
            None => answer_source(alloc, options, source, sink),
        },
        Err(WordsFault::Usage) => put_last(sink, USAGE, Status::Usage),
        Err(WordsFault::NoMemory) => Status::NoMemory,
    }
}
