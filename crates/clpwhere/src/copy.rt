//! The whole input, line by line.

ghost use Rattle.std.specs.Prelude.{◌≡◌, ◌<◌, [], ◌∷◌, ◌++◌, length, IfOk};
ghost use Rattle.byte_ports.specs.Ends.{ends, sink_at};
ghost use Rattle.clpwhere.specs.Endings.{CopyEnds, Fed, IsOpen, Wrote};
ghost use Rattle.clpwhere.specs.QueriedLines.{marked_from, tells_from};

use crate::explanations::put_line;
use crate::faults::query_after;
use crate::outcome::Fault;
use crate::queries::QueriedText;
use byte_ports::{Sink, Source};
use std::alloc::Global;

/// The most bytes that one call of a source is asked for.
const CHUNK: usize = 65_536;

/// A line that isn't whole yet.
#[derive(Drop)]
struct OpenLine {
    bytes: Vec<u8>,
    /// The number of the query that it belongs to.
    query: Option<u64>,
}

/// Takes a byte behind an open line, and writes what becomes of the line where the byte ends it. Tells whether the line was
/// explained.
fn feed_byte<K: Sink>(
    alloc: Global,
    text: &QueriedText,
    line: &mut OpenLine,
    byte: u8,
    sink: &mut K,
) -> Result<bool, Fault>
    requires { IsOpen line.old.bytes.items }
    ensures { Fed text.now
        (sink_at (K.written sink.old) (K.faults sink.old))
        (sink_at (K.written sink.new) (K.faults sink.new))
        line.old.query (line.old.bytes.items ++ byte ∷ [])
        line.new.query line.new.bytes.items result }
{
    line.bytes.push(byte)?;
    if byte != b'\n' {
        return Ok(false);
    }
    let is_told = put_line(alloc, text, line.query, &line.bytes, sink)?;
    line.query = query_after(line.query, &line.bytes);
    line.bytes.clear();
    Ok(is_told)
}

/// Takes bytes behind an open line, and writes what becomes of each line that they end. Tells whether one of these was
/// explained.
fn feed<K: Sink>(
    alloc: Global,
    text: &QueriedText,
    line: &mut OpenLine,
    bytes: &[u8],
    sink: &mut K,
) -> Result<bool, Fault>
    requires { IsOpen line.old.bytes.items }
    ensures { Fed text.now
        (sink_at (K.written sink.old) (K.faults sink.old))
        (sink_at (K.written sink.new) (K.faults sink.new))
        line.old.query (line.old.bytes.items ++ bytes.now)
        line.new.query line.new.bytes.items result }
{
    let mut is_told = false;
    for byte in bytes {
        is_told |= feed_byte(alloc, text, line, *byte, sink)?;
    }
    Ok(is_told)
}

/// Writes what becomes of the last line, which has no newline, and tells whether it was explained.
fn finish<K: Sink>(
    alloc: Global,
    text: &QueriedText,
    line: &OpenLine,
    sink: &mut K,
) -> Result<bool, Fault>
    requires { IsOpen line.now.bytes.items }
    ensures wrote { Wrote (sink_at (K.written sink.old) (K.faults sink.old))
        (sink_at (K.written sink.new) (K.faults sink.new))
        result (marked_from text.now line.now.query line.now.bytes.items) }
    ensures told { IfOk result (λ told. told ≡ tells_from text.now line.now.query
        line.now.bytes.items) }
{
    if line.bytes.is_empty() {
        return Ok(false);
    }
    put_line(alloc, text, line.query, &line.bytes, sink)
}

/// Reads the input to its end, and writes what becomes of its lines. Tells whether one of them was explained.
pub(crate) fn copy_input<S: Source, K: Sink>(
    alloc: Global,
    text: &QueriedText,
    source: &mut S,
    sink: &mut K,
) -> Result<bool, Fault>
    ensures { CopyEnds text.now
        (ends (S.left source.old) (K.written sink.old) (S.faults source.old) (K.faults sink.old))
        (ends (S.left source.new) (K.written sink.new) (S.faults source.new) (K.faults sink.new))
        result }
{
    let mut buffer = vec![in alloc; 0u8; CHUNK]?;
    copy_through(alloc, text, source, sink, buffer.as_mut_slice())
}

/// Does it by calls of the source for as many bytes as the buffer holds. After 2^64 - 1 calls it answers want of memory.
fn copy_through<S: Source, K: Sink>(
    alloc: Global,
    text: &QueriedText,
    source: &mut S,
    sink: &mut K,
    buffer: &mut [u8],
) -> Result<bool, Fault>
    requires { 0 < length buffer.old }
    ensures { CopyEnds text.now
        (ends (S.left source.old) (K.written sink.old) (S.faults source.old) (K.faults sink.old))
        (ends (S.left source.new) (K.written sink.new) (S.faults source.new) (K.faults sink.new))
        result }
{
    let mut line = OpenLine {
        bytes: Vec::new(alloc),
        query: None,
    };
    let mut is_told = false;
    'reading: for _ in 0..u64::MAX {
        match source.read(buffer) {
            Ok(0) => return Ok(is_told | finish(alloc, text, &line, sink)?),
            Ok(count) => is_told |= feed(alloc, text, &mut line, &buffer[..count], sink)?,
            Err(_) => return Err(Fault::ReadFault),
        }
    }
    Err(Fault::NoMemory)
}
