//! The program of listings: it writes the listing of a text's code, or runs the queries of a listing.
#![tactic(auto)]

ghost use Rattle.std.specs.Prelude.{◌≡◌, drop, IfOk};
ghost use Rattle.std.specs.Vec.Iter.{into_iter_items};

mod command;
mod run;
#[cfg(test)]
mod tests;

pub use crate::command::{Task, task_of};
pub use crate::run::run_code;
use byte_ports::{ReaderSource, WriterSink};
use fd_language::NoMemory;
pub use fd_model::Status;
use std::alloc::Global;
use std::env;
use std::env::{Args, Env};
use std::io::ErrorKind;
use std::process::ExitCode;

/// The words behind the first, which is the program's own name.
fn behind_name(alloc: Global, mut all: Args) -> Result<Vec<String>, NoMemory>
    ensures { IfOk result (λ words. words.items ≡ drop 1 (into_iter_items all)) }
{
    let _name = all.next();
    let mut words = Vec::new(alloc);
    for word in all {
        words.push(word)?;
    }
    Ok(words)
}

/// The words of the command line without the program's own name. Where a word isn't UTF-8 they are the one word `?`.
fn words<R: Env + AllocGlobal>(rt: &R) -> Result<Vec<String>, NoMemory> {
    match env::args(rt) {
        Ok(all) => behind_name(rt.alloc(), all),
        Err(error) if error.kind() == ErrorKind::OutOfMemory => Err(NoMemory),
        Err(_) => Ok(vec![in rt.alloc(); String::from_str(rt.alloc(), "?")?]?),
    }
}

/// Runs over standard input and output, and ends with the status's number.
fn main(rt: HostRuntime) -> ExitCode {
    let Ok(words) = words(&rt) else {
        return ExitCode::from(Status::NoMemory.number());
    };
    let mut source = ReaderSource::new(rt.stdin());
    let mut sink = WriterSink::new(rt.stdout());
    let status = run_code(rt.alloc(), &words, &mut source, &mut sink);
    ExitCode::from(status.number())
}
