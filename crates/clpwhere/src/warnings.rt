//! Warnings of a text.

ghost use Rattle.std.specs.Prelude.{◌≡◌, ◌⊎◌, ◌++◌, ◌<◌, ℕ, List, length, map, All, IfOk, IfErr, OnOk};
ghost use Rattle.std.specs.List.Sorted.{IsNonDecreasingBy};
ghost use Rattle.byte_ports.specs.Ends.{sink_at};
ghost use Rattle.char_tokens.specs.Views.{cause_of};
ghost use Rattle.char_tokens.specs.declared.token.TokenFault.TheVariants as token;
ghost use Rattle.fd_language.specs.Reading.{IsReading, sentences};
ghost use Rattle.fd_model.specs.Refusals.{functor_name, refused_at};
ghost use Rattle.fd_model.specs.Verdict.{cause_name};
ghost use Rattle.term_pool.specs.Contents.{Contents};
ghost use Rattle.term_reader.specs.Sentences.{sentences_of, AreOwn, IsFaultOf};
ghost use Rattle.term_reader.specs.declared.reader.ReaderFault.TheVariants as reader;
ghost use Rattle.text_warnings.specs.WarningViews.{concern_in, warning_in, IsConcernWithin, IsWarningWithin};
ghost use Rattle.text_warnings.specs.Terms.{functor_in};
ghost use Rattle.clpwhere.specs.declared.warnings.Unread.TheVariants as unread;
ghost use Rattle.clpwhere.specs.Headline.{WarnEnds, WroteOutput};
ghost use Rattle.clpwhere.specs.Cursors.{first_file, IsCursor};
ghost use Rattle.clpwhere.specs.Files.{begins, joined};
ghost use Rattle.clpwhere.specs.Faults.{IsGrammarFault, IsUnreadBy};
ghost use Rattle.clpwhere.specs.WarnedLines.{concern_sentence, refused_line, told_concern, warned_lines, warned_words, IsReadAs, IsWarned};

use crate::explanations::{place_line, told_at};
use crate::files::{Cursor, files_from, join};
use crate::outcome::Status;
use crate::placed_line::line_of;
use crate::text::NamedText;
use byte_ports::{MAX_TEXT, Sink, write_all};
use char_tokens::{TokenCause, TokenFault};
use fd_language::NoMemory;
use itoa::Buffer;
use std::alloc::Global;
use term_pool::Pool;
use term_reader::{ReaderFault, Sentences, read_sentences};
use term_writer::write_atom;
use text_warnings::{Concern, Functor, Warning, warnings_of};

/// Why a text isn't read as sentences.
#[derive(Drop)]
pub(crate) enum Unread {
    /// The place in bytes, and the reason.
    Refused { place: usize, reason: &'static str },
    /// Memory was wanting.
    NoMemory,
}

/// The reason of a fault of the tokens.
fn token_reason(cause: TokenCause) -> &'static str
    ensures { result.now ≡ cause_name (cause_of cause) }
{
    match cause {
        TokenCause::BadCharacter => "bad character",
        TokenCause::OpenQuote => "open quote",
        TokenCause::OpenComment => "open comment",
        TokenCause::BadEscape => "bad escape",
        TokenCause::IntegerTooWide => "integer too wide",
        TokenCause::FloatOut => "float",
        TokenCause::StringOut => "string",
    }
}

/// Why a text isn't read whose tokens have this fault.
fn token_unread(fault: TokenFault) -> Unread
    ensures fault { (text : List ℕ) → IsFaultOf text (reader.Token fault)
        → IsGrammarFault text result }
    ensures memory { result ≡ unread.NoMemory → fault ≡ token.NoMemory }
{
    match fault {
        TokenFault::At { place, cause } => Unread::Refused {
            place,
            reason: token_reason(cause),
        },
        TokenFault::NoMemory => Unread::NoMemory,
    }
}

/// Why a text of characters isn't read, by its first fault.
fn why_unread(fault: ReaderFault) -> Unread
    ensures fault { (text : List ℕ) → IsFaultOf text fault → IsGrammarFault text result }
    ensures memory { result ≡ unread.NoMemory
        → (fault ≡ reader.NoMemory) ⊎ (fault ≡ reader.Token token.NoMemory) }
{
    match fault {
        ReaderFault::Token(inner) => token_unread(inner),
        ReaderFault::Syntax { place } => Unread::Refused {
            place,
            reason: "syntax",
        },
        ReaderFault::TooDeep { place } => Unread::Refused {
            place,
            reason: "too deep",
        },
        ReaderFault::NoMemory => Unread::NoMemory,
    }
}

/// The sentences of a text of characters.
fn read_text(alloc: Global, text: &str) -> Result<Sentences, Unread>
    ensures read { IfOk result (λ s. IsReading text.now (sentences (sentences_of s))) }
    ensures own { IfOk result AreOwn }
    ensures fault { IfErr result (IsGrammarFault text.now) }
{
    match read_sentences(alloc, text) {
        Ok(sentences) => Ok(sentences),
        Err(fault) => Err(why_unread(fault)),
    }
}

/// The sentences of a text of bytes.
pub(crate) fn read_bytes(alloc: Global, bytes: &[u8]) -> Result<Sentences, Unread>
    ensures read { IfOk result (λ s. IsReadAs bytes.now (sentences_of s)) }
    ensures own { IfOk result AreOwn }
    ensures fault { IfErr result (IsUnreadBy bytes.now) }
{
    if bytes.len() > MAX_TEXT {
        return Err(Unread::Refused {
            place: MAX_TEXT,
            reason: "too large",
        });
    }
    match std::str::from_utf8(bytes) {
        Ok(text) => read_text(alloc, text),
        Err(error) => Err(Unread::Refused {
            place: error.valid_up_to(),
            reason: "not UTF-8",
        }),
    }
}

/// Appends a name and the number of its arguments.
fn put_functor(
    alloc: Global,
    pool: &Pool,
    functor: Functor,
    out: &mut Vec<u8>,
) -> Result<(), NoMemory>
    requires { functor.name.number < length pool.now.names }
    ensures { OnOk result (out.new.items ≡ out.old.items ++ functor_name
        (functor_in pool.now functor)) }
{
    write_atom(alloc, pool.name_of(functor.name), true, out)?;
    out.extend_from_slice(b"/")?;
    let mut buffer = Buffer::new();
    out.extend_from_slice(buffer.format(functor.arity as u64).as_bytes())?;
    Ok(())
}

/// What a warning says.
fn words_of(alloc: Global, pool: &Pool, concern: Concern) -> Result<Vec<u8>, NoMemory>
    requires { IsConcernWithin pool.now concern }
    ensures { IfOk result (λ out. out.items ≡ warned_words (concern_in pool.now concern)) }
{
    let mut out = Vec::from_slice(alloc, b"warning: ")?;
    match concern {
        Concern::Single(name) => {
            out.extend_from_slice(pool.name_of(name).as_bytes())?;
            out.extend_from_slice(b" occurs once")?;
        }
        Concern::Apart(functor) => {
            out.extend_from_slice(b"the clauses of ")?;
            put_functor(alloc, pool, functor, &mut out)?;
            out.extend_from_slice(b" don't stand together")?;
        }
        Concern::TwoFiles(functor) => {
            put_functor(alloc, pool, functor, &mut out)?;
            out.extend_from_slice(b" has clauses in two files")?;
        }
        Concern::Unreached(functor) => {
            out.extend_from_slice(b"no query reaches ")?;
            put_functor(alloc, pool, functor, &mut out)?;
        }
        Concern::BelowZero => out.extend_from_slice(b"a number below 0")?,
        Concern::EmptyRange => out.extend_from_slice(b"an empty range")?,
        Concern::Unevaluated => out.extend_from_slice(b"= doesn't compute")?,
        Concern::OpenTest(name) => {
            out.extend_from_slice(pool.name_of(name).as_bytes())?;
            out.extend_from_slice(b" has only a domain here")?;
        }
        Concern::OpenNegation(name) => {
            out.extend_from_slice(b"\\+ over ")?;
            out.extend_from_slice(pool.name_of(name).as_bytes())?;
            out.extend_from_slice(b", which has only a domain")?;
        }
    }
    Ok(out)
}

/// The sentence that explains it.
fn sentence_of(concern: Concern) -> &'static str
    ensures { (c : Contents) → result.now ≡ concern_sentence (concern_in c concern) }
{
    match concern {
        Concern::Single(_) => {
            "This variable stands in no other place of its clause: is it spelled right? A name that begins with _ may occur once."
        }
        Concern::Apart(_) => {
            "This clause belongs to those of its predicate above, and clauses of other predicates stand between them."
        }
        Concern::TwoFiles(_) => {
            "An earlier file has clauses of this predicate too: those of both belong to it, in the order of the files."
        }
        Concern::Unreached(_) => {
            "No query of the text calls this predicate, and no clause that a query reaches does."
        }
        Concern::BelowZero => {
            "Variables have the numbers 0 to 268435455: those below 0 are lost here, or there is no answer."
        }
        Concern::EmptyRange => {
            "The first number of this range is over its last one, so it has no number at all."
        }
        Concern::Unevaluated => {
            "The sign = makes both sides one term and computes nothing: of numbers write #= as a constraint, or is for a value."
        }
        Concern::OpenTest(_) => {
            "An arithmetic test needs the value of the variable: write it as a constraint, as #>, or label first."
        }
        Concern::OpenNegation(_) => {
            "\\+ asks whether the goal has no answer at all, and doesn't hold where some value of the variable makes it true: write the opposite constraint, as #\\=."
        }
    }
}

/// A warning in four lines, at the place of a cursor.
fn told(alloc: Global, at: &Cursor<'_>, pool: &Pool, concern: Concern) -> Result<Vec<u8>, NoMemory>
    requires own { IsConcernWithin pool.now concern }
    requires cursor { IsCursor at.now }
    ensures { IfOk result (λ out. out.items ≡ told_concern (concern_in pool.now concern)
        (first_file at.now.files.now) at.now.place) }
{
    let words = words_of(alloc, pool, concern)?;
    let sentence = sentence_of(concern);
    told_at(alloc, &at.files[0], at.place, &at.line, &words, sentence)
}

/// Appends warnings, whose places rise.
fn put_told(
    alloc: Global,
    files: &[NamedText],
    pool: &Pool,
    warnings: &[Warning],
    out: &mut Vec<u8>,
) -> Result<(), NoMemory>
    requires own { All (IsWarningWithin pool.now) warnings.now }
    requires rising { IsNonDecreasingBy (λ w. w.place) warnings.now }
    ensures { OnOk result (out.new.items ≡ out.old.items ++ warned_lines files.now
        (map (warning_in pool.now) warnings.now)) }
{
    if files.is_empty() {
        return Ok(());
    }
    let mut at = Cursor::new(alloc, files)?;
    for warning in warnings {
        at.move_to(alloc, warning.place)?;
        let lines = told(alloc, &at, pool, warning.concern)?;
        out.extend_from_slice(&lines)?;
    }
    Ok(())
}

/// What is written of files whose text is read as these sentences, and the status.
fn warned_text(
    alloc: Global,
    files: &[NamedText],
    starts: &[usize],
    sentences: &Sentences,
) -> Result<(Vec<u8>, Status), NoMemory>
    requires starts { starts.now ≡ begins files.now }
    requires own { AreOwn sentences.now }
    requires read { IsReadAs (joined files.now) (sentences_of sentences.now) }
    ensures { IfOk result (λ r. IsWarned files.now r.0.items r.1) }
{
    let warnings = warnings_of(alloc, sentences, starts)?;
    let mut out = Vec::new(alloc);
    put_told(alloc, files, &sentences.pool, &warnings, &mut out)?;
    if warnings.is_empty() {
        Ok((out, Status::Done))
    } else {
        Ok((out, Status::Warned))
    }
}

/// The one line of files whose text isn't read as sentences.
fn refused_line(
    alloc: Global,
    files: &[NamedText],
    place: usize,
    reason: &str,
) -> Result<Vec<u8>, NoMemory>
    ensures { IfOk result (λ out. out.items ≡ refused_line files.now
        (refused_at place reason.now)) }
{
    let (rest, begin) = files_from(files, 0, place);
    let Some(file) = rest.first() else {
        return Ok(Vec::new(alloc));
    };
    let words = format!(in alloc; "refused: {reason}")?;
    let line = line_of(alloc, file, place - begin, file.line(place - begin))?;
    place_line(alloc, file, place - begin, &line, words.as_bytes())
}

/// What is written of files that are looked through, and the status.
fn look_through(alloc: Global, files: &[NamedText]) -> Result<(Vec<u8>, Status), NoMemory>
    ensures { IfOk result (λ r. IsWarned files.now r.0.items r.1) }
{
    let whole = join(alloc, files)?;
    match read_bytes(alloc, &whole.bytes) {
        Ok(sentences) => warned_text(alloc, files, &whole.begins, &sentences),
        Err(Unread::Refused { place, reason }) => {
            Ok((refused_line(alloc, files, place, reason)?, Status::Refused))
        }
        Err(Unread::NoMemory) => Err(NoMemory),
    }
}

/// Writes an output whole, and tells its status.
fn put_output<K: Sink>(sink: &mut K, out: &[u8], status: Status) -> Status
    ensures { WroteOutput (sink_at (K.written sink.old) (K.faults sink.old))
        (sink_at (K.written sink.new) (K.faults sink.new))
        result status out.now }
{
    match write_all(sink, out) {
        Ok(()) => status,
        Err(_) => Status::WriteFault,
    }
}

/// Writes the warnings of the text that files make together, in the order of their places, or the one line of a text that isn't read
/// as sentences. Each place is told by its file.
///
/// The status is `Done` where there is no warning, `Warned` where there are some, `Refused` for a text that isn't read, and tells a
/// write fault or want of memory, which leaves the sink as it was.
pub fn warn<K: Sink>(alloc: Global, files: &[NamedText], sink: &mut K) -> Status
    ensures { WarnEnds files.now (sink_at (K.written sink.old) (K.faults sink.old))
        (sink_at (K.written sink.new) (K.faults sink.new))
        result }
{
    match look_through(alloc, files) {
        Ok((out, status)) => put_output(sink, &out, status),
        Err(NoMemory) => Status::NoMemory,
    }
}
