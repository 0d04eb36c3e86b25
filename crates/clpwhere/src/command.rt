//! What the words of the command line ask for.

ghost use Rattle.std.specs.Prelude.{◌≡◌, ◌≢◌, map, string_bytes, IfOk, OnErr, OnOk, MatchResult};
ghost use Rattle.std.specs.List.{list_all, Contains};
ghost use Rattle.std.specs.IoError.{error_kind};
ghost use Rattle.std.specs.declared.io.ErrorKind.TheVariants as kind;
ghost use Rattle.clpwhere.specs.Words.{are_file_names, is_file_name, of_one_word, of_two_words, request_of, seen_request, IsWantedBy};

use crate::queries::{QueriedText, with_queries};
use crate::text::NamedText;
use fd_language::NoMemory;
use std::alloc::Global;
use std::fs;
use std::io::{Error, ErrorKind};
use std::rt::Files;

/// What the words ask for, where it isn't warnings of a text.
#[derive(Drop)]
pub enum Asked {
    /// Nothing that is known: the usage line is written.
    Usage,
    /// Some lines on the words.
    Help,
    /// The program's name and version.
    Version,
    /// The text of a file, by its name, that can't be read.
    Unreadable(String),
    /// To explain refusals of this text, and faults where its queries are given.
    Text(QueriedText),
}

/// What the words ask for.
#[derive(Drop)]
pub enum Wanted {
    /// Explanations, or the line that says why there are none.
    Explanations(Asked),
    /// Warnings of the text that these files make.
    Warnings(Vec<NamedText>),
}

/// What the words ask for, by their form.
#[derive(Clone, Copy)]
enum Request<'a> {
    Usage,
    Help,
    Version,
    /// Explanations of refusals by the text of this file.
    Explain(&'a String),
    /// Explanations of faults too.
    Faults(&'a String),
    /// Warnings of the text that these files make.
    Warn(&'a [String]),
}

/// Whether a word names a file.
fn is_file_name(word: &str) -> bool
    ensures { result ≡ is_file_name word.now }
{
    !word.starts_with('-')
}

/// Whether each of the words names a file.
fn all_file_names(words: &[String]) -> bool
    ensures { result ≡ list_all (λ w. is_file_name (string_bytes w)) words.now }
{
    words.iter().all(|word| is_file_name(word.as_str()))
}

/// Whether words name files, one at least.
fn are_file_names(words: &[String]) -> bool
    ensures { result ≡ are_file_names (map string_bytes words.now) }
{
    if words.is_empty() {
        return false;
    }
    all_file_names(words)
}

/// What one word asks for.
fn of_one_word(word: &String) -> Request<'_>
    ensures { seen_request result ≡ of_one_word (string_bytes word.entry.now) }
{
    if word.as_str() == "--help" {
        return Request::Help;
    }
    if word.as_str() == "--version" {
        return Request::Version;
    }
    if is_file_name(word.as_str()) {
        return Request::Explain(word);
    }
    Request::Usage
}

/// What two words ask for.
fn of_two_words<'a>(word: &str, second: &'a String) -> Request<'a>
    ensures { seen_request result ≡ of_two_words word.now (string_bytes second.entry.now) }
{
    if word == "--faults" && is_file_name(second.as_str()) {
        Request::Faults(second)
    } else {
        Request::Usage
    }
}

/// What the words ask for.
fn request_of(words: &[String]) -> Request<'_>
    ensures { seen_request result ≡ request_of (map string_bytes words.entry.now) }
{
    let [first, rest @ ..] = words else {
        return Request::Usage;
    };
    if first.as_str() == "--warn" && are_file_names(rest) {
        return Request::Warn(rest);
    }
    match rest {
        [] => of_one_word(first),
        [second] => of_two_words(first.as_str(), second),
        [_, _, ..] => Request::Usage,
    }
}

/// Answers want of memory where an error of std is that.
pub(crate) fn check_memory(error: &Error) -> Result<(), NoMemory>
    ensures wanting { OnErr result (error_kind error.now ≡ kind.OutOfMemory) }
    ensures other { OnOk result (error_kind error.now ≢ kind.OutOfMemory) }
{
    match error.kind() {
        ErrorKind::OutOfMemory => Err(NoMemory),
        _ => Ok(()),
    }
}

/// The text of the file with this name, or the name where the file can't be read.
fn read_file<R: Files + AllocGlobal>(
    rt: &R,
    word: &str,
) -> Result<Result<NamedText, String>, NoMemory>
    ensures { IfOk result (λ r. MatchResult r (λ text. text.name ≡ word.now)
        (λ name. string_bytes name ≡ word.now)) }
{
    let name = String::from_str(rt.alloc(), word)?;
    match fs::read(rt, name.as_str()) {
        Ok(bytes) => Ok(Ok(NamedText::new(name, bytes))),
        Err(error) => {
            check_memory(&error)?;
            Ok(Err(name))
        }
    }
}

/// The texts of the files with these names, or the name of one that can't be read.
fn read_files<R: Files + AllocGlobal>(
    rt: &R,
    names: &[String],
) -> Result<Result<Vec<NamedText>, String>, NoMemory>
    ensures { IfOk result (λ r. MatchResult r
        (λ files. map (λ f. f.name) files.items ≡ map string_bytes names.now)
        (λ name. Contains (map string_bytes names.now) (string_bytes name))) }
{
    let mut files = Vec::new(rt.alloc());
    for name in names {
        match read_file(rt, name.as_str())? {
            Ok(file) => files.push(file)?,
            Err(name) => return Ok(Err(name)),
        }
    }
    Ok(Ok(files))
}

/// What the words ask for, without the program's own name: explanations by the text of a file, warnings of files, or some lines alone.
pub fn read_wanted<R: Files + AllocGlobal>(rt: &R, words: &[String]) -> Result<Wanted, NoMemory>
    ensures { IfOk result (IsWantedBy (map string_bytes words.now)) }
{
    match request_of(words) {
        Request::Usage => Ok(Wanted::Explanations(Asked::Usage)),
        Request::Help => Ok(Wanted::Explanations(Asked::Help)),
        Request::Version => Ok(Wanted::Explanations(Asked::Version)),
        Request::Explain(word) => match read_file(rt, word.as_str())? {
            Ok(text) => {
                let text = QueriedText::new(text, Vec::new(rt.alloc()));
                Ok(Wanted::Explanations(Asked::Text(text)))
            }
            Err(name) => Ok(Wanted::Explanations(Asked::Unreadable(name))),
        },
        Request::Faults(word) => match read_file(rt, word.as_str())? {
            Ok(text) => {
                let text = with_queries(rt.alloc(), text)?;
                Ok(Wanted::Explanations(Asked::Text(text)))
            }
            Err(name) => Ok(Wanted::Explanations(Asked::Unreadable(name))),
        },
        Request::Warn(names) => match read_files(rt, names)? {
            Ok(files) => Ok(Wanted::Warnings(files)),
            Err(name) => Ok(Wanted::Explanations(Asked::Unreadable(name))),
        },
    }
}
