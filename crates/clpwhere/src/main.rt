//! Explains the refusals that `clpfd` writes, by the text that it read.
#![tactic(auto)]

ghost use Rattle.std.specs.Prelude.{◌≡◌, ◌≢◌, drop, IfOk, string_bytes};
ghost use Rattle.std.specs.Vec.Iter.{into_iter_items};
ghost use Rattle.byte_ports.specs.Ends.{ends, sink_at};
ghost use Rattle.clpwhere.specs.declared.outcome.Status.TheVariants as ended;
ghost use Rattle.clpwhere.specs.Endings.{Ending};
ghost use Rattle.clpwhere.specs.Headline.{unreadable, Headline, NeedsNoInput, NeedsNoMemory};

mod before_place;
mod command;
mod copy;
mod explanations;
mod faults;
mod files;
mod foreign_names;
mod foreign_words;
mod functors;
pub mod laws;
mod outcome;
mod placed_line;
mod queries;
mod reason;
mod refusal;
mod sentences;
mod text;
mod warnings;

use crate::command::check_memory;
pub use crate::command::{Asked, Wanted, read_wanted};
use crate::copy::copy_input;
pub use crate::outcome::Status;
pub use crate::queries::{QueriedText, with_queries};
pub use crate::text::NamedText;
pub use crate::warnings::warn;
use byte_ports::{ReaderSource, Sink, Source, WriterSink, write_all};
use fd_language::NoMemory;
use std::alloc::Global;
use std::env;
use std::env::{Args, Env};
use std::process::ExitCode;

/// Writes the last piece of an output.
fn put_last<K: Sink>(sink: &mut K, piece: &[u8], status: Status) -> Status
    ensures wrote { Ending (sink_at (K.written sink.old) (K.faults sink.old))
        (sink_at (K.written sink.new) (K.faults sink.new))
        result status piece.now }
    ensures memory { result ≡ ended.NoMemory → status ≡ ended.NoMemory }
{
    match write_all(sink, piece) {
        Ok(()) => status,
        Err(_) => Status::WriteFault,
    }
}

/// The line that says that a file can't be read.
fn unreadable(alloc: Global, name: &str) -> Result<String, NoMemory>
    ensures { IfOk result (λ line. string_bytes line ≡ unreadable name.now) }
{
    Ok(format!(in alloc; "{name} can't be read\n")?)
}

/// Writes what the words ask for, and tells how the run ended.
///
/// Of an input that `clpfd` wrote each line that tells a refusal becomes its explanation by the text. Below each line that tells a
/// fault the place of its query is told, where the text's queries are given. Every other line stays as it is. The input is read in pieces, and each line is written when it was read whole. Without a text the source is left as it was.
/// The status says which case it was: see `Status`.
pub fn run<S: Source, K: Sink>(alloc: Global, asked: &Asked, source: &mut S, sink: &mut K) -> Status
    ensures headline { Headline asked.now
        (ends (S.left source.old) (K.written sink.old) (S.faults source.old) (K.faults sink.old))
        (ends (S.left source.new) (K.written sink.new) (S.faults source.new) (K.faults sink.new))
        result }
    ensures untouched { NeedsNoInput asked.now → source.new ≡ source.old }
    ensures memory { NeedsNoMemory asked.now → result ≢ ended.NoMemory }
{
    match asked {
        Asked::Usage => put_last(
            sink,
            b"usage: clpwhere [--warn FILE ..|[--faults] FILE]\n",
            Status::Usage,
        ),
        Asked::Help => put_last(
            sink,
            b"usage: clpwhere [--warn FILE ..|[--faults] FILE]\nclpwhere FILE reads from its input what clpfd wrote, and explains each refusal in it by the text in the file.\nclpwhere --faults FILE tells below each fault in it the place of the query too.\nclpwhere --warn FILE .. warns of what often is a mistake in the text that the files make together.\nclpwhere --version writes the version.\n",
            Status::Done,
        ),
        Asked::Version => put_last(sink, b"clpwhere 1.0\n", Status::Done),
        Asked::Unreadable(name) => match unreadable(alloc, name.as_str()) {
            Ok(line) => put_last(sink, line.as_bytes(), Status::Unreadable),
            Err(NoMemory) => Status::NoMemory,
        },
        Asked::Text(text) => match copy_input(alloc, text, source, sink) {
            Ok(true) => Status::Refused,
            Ok(false) => Status::Done,
            Err(fault) => fault.status(),
        },
    }
}

/// The words behind the first, which is the program's own name.
fn behind_name(alloc: Global, mut all: Args) -> Result<Vec<String>, NoMemory>
    ensures { IfOk result (λ words. words.items ≡ drop 1 (into_iter_items all)) }
{
    let _name = all.next();
    let mut words = Vec::new(alloc);
    for word in all {
        words.push(word)?;
    }
    Ok(words)
}

/// The words of the command line without the program's own name. Where a word isn't UTF-8 there are none.
fn words<R: Env + AllocGlobal>(rt: &R) -> Result<Vec<String>, NoMemory> {
    match env::args(rt) {
        Ok(all) => behind_name(rt.alloc(), all),
        Err(error) => {
            check_memory(&error)?;
            Ok(Vec::new(rt.alloc()))
        }
    }
}

/// Runs over standard input and output, and ends with the status's number.
fn main(rt: HostRuntime) -> ExitCode {
    let Ok(wanted) = words(&rt).and_then(|words| read_wanted(&rt, &words)) else {
        return ExitCode::from(Status::NoMemory.number());
    };
    let mut sink = WriterSink::new(rt.stdout());
    let status = match wanted {
        Wanted::Explanations(asked) => {
            let mut source = ReaderSource::new(rt.stdin());
            run(rt.alloc(), &asked, &mut source, &mut sink)
        }
        Wanted::Warnings(files) => warn(rt.alloc(), &files, &mut sink),
    };
    ExitCode::from(status.number())
}

#[cfg(test)]
mod tests;
