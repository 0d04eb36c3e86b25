//! Sources and sinks, and the loops that read a whole text and write a whole piece.

ghost use Rattle.std.specs.Prelude.{◌≡◌, ◌+◌, ◌<◌, ◌≤◌, ◌∷◌, ℕ, List, [], Option, length, take, IfOk, IsOk, OnOk, OnErr, IsErr, IsErrOf};
ghost use Rattle.byte_ports.specs.Ports.{Took, IsAtEnd, ReadJust, ReadWithin, Put, PutPart, Rose, Handed, HandedOne};
ghost use Rattle.byte_ports.specs.declared.ports.ReadTextFault.TheVariants.{NoMemory};

use std::alloc::{AllocError, Global};
use thiserror::Error;

/// A call of a source or a sink that failed. It moved no byte, and raised the count of faults by
/// one, unless that stood at its last value.
#[derive(Clone, Copy, Debug, PartialEq, Eq, Drop, Error)]
#[error("the call failed")]
pub struct Failed;

/// Where bytes come from.
///
/// A source may tell the bytes that it has left, as one in memory does, or tell none, as one
/// over a file does. What it tells after a call it told before it. Its count of faults is the number
/// of its failed calls, as far as 64 bits hold it: a call that fails raises it by one, or leaves it
/// at its last value, and a call that succeeds leaves it as it was.
pub trait Source {
    /// The bytes not yet read, where they are told.
    ghost left: { Self → Option (List ℕ) };

    /// How many calls have failed, and at most 2^64 - 1.
    ghost faults: { Self → ℕ };

    /// Fills a front of `buf` with the next bytes, and gives how many. 0 for a buffer that is not
    /// empty is the end of the input. A call that fails takes no byte, and raises the count of
    /// faults by one, unless that stands at its last value, 2^64 - 1.
    fn read(&mut self, buf: &mut [u8]) -> Result<usize, Failed>
        ensures within { IfOk result (λ n. n ≤ length buf.new) }
        ensures bytes { IfOk result (λ n. Took (left self.old) (left self.new) (take n buf.new)) }
        ensures end { IfOk result (λ n. n ≡ 0 → 0 < length buf.new → IsAtEnd (left self.new)) }
        ensures err { OnErr result (Took (left self.old) (left self.new) []) }
        ensures ok { OnOk result (faults self.new ≡ faults self.old) }
        ensures later { faults self.old ≤ faults self.new }
        ensures cause { OnErr result (Rose (faults self.old) (faults self.new)) };
}

/// Where bytes go.
///
/// A sink may tell the bytes that it has taken, as one in memory does, or tell none, as one
/// over a file does, and it may tell the pieces that it was handed. What it tells after a call it
/// told before it. Its count of faults is the number of its failed calls, as far as 64 bits hold it:
/// a call that fails raises it by one, or leaves it at its last value, and a call that succeeds
/// leaves it as it was.
pub trait Sink {
    /// The bytes taken, where they are told.
    ghost written: { Self → Option (List ℕ) };

    /// The pieces that the calls were handed, one a call, where they are told.
    ghost handed: { Self → Option (List (List ℕ)) };

    /// How many calls have failed, and at most 2^64 - 1.
    ghost faults: { Self → ℕ };

    /// Takes bytes from the front of `piece`, and gives how many: at least one, unless the piece
    /// is empty. A call that fails takes no byte, and raises the count of faults by one, unless that
    /// stands at its last value, 2^64 - 1.
    fn write(&mut self, piece: &[u8]) -> Result<usize, Failed>
        ensures within { IfOk result (λ n. n ≤ length piece.now) }
        ensures some { IfOk result (λ n. 0 < length piece.now → 0 < n) }
        ensures bytes { IfOk result
            (λ n. Put (written self.old) (written self.new) (take n piece.now)) }
        ensures err { OnErr result (Put (written self.old) (written self.new) []) }
        ensures handed { HandedOne (handed self.old) (handed self.new) piece.now }
        ensures ok { OnOk result (faults self.new ≡ faults self.old) }
        ensures later { faults self.old ≤ faults self.new }
        ensures cause { OnErr result (Rose (faults self.old) (faults self.new)) };
}

/// A piece that was not written whole: one call of the sink failed, the last one. A front of the
/// piece was written, and the sink's count of faults is one more, unless it stood at its last value.
#[derive(Clone, Copy, Debug, PartialEq, Eq, Drop, Error)]
#[error("writing failed")]
pub struct WriteFault;

/// Writes the whole piece, by as many calls of the sink as it wants: the first one is handed the
/// whole piece, and each later one the end of it that isn't taken yet. Where the sink fails, a front
/// of the piece was written, and no further call is made. An empty piece makes no call. Takes no
/// memory.
pub fn write_all<K: Sink>(sink: &mut K, piece: &[u8]) -> Result<(), WriteFault>
    ensures ok { OnOk result (Put (K.written sink.old) (K.written sink.new) piece.now) }
    ensures err { OnErr result (PutPart (K.written sink.old) (K.written sink.new) piece.now) }
    ensures empty { piece.now ≡ [] → IsOk result × (sink.new ≡ sink.old) }

    // The piece was handed over as one, whole or cut short.
    ensures handed { Handed (K.handed sink.old) (K.handed sink.new) (piece.now ∷ []) }

    // The count of faults never falls. `WriteFault` raises it by one, and comes wherever it rose.
    ensures later { K.faults sink.old ≤ K.faults sink.new }
    ensures cause { OnErr result (Rose (K.faults sink.old) (K.faults sink.new)) }
    ensures told { K.faults sink.old < K.faults sink.new → IsErr result }
{
    let mut done = 0;
    while done < piece.len() {
        match sink.write(&piece[done..]) {
            Ok(n) => done += n,
            Err(_) => return Err(WriteFault),
        }
    }
    Ok(())
}

/// The greatest length of a text, in bytes.
pub const MAX_TEXT: usize = 16_777_216;

/// The most bytes that one call of a source is asked for.
const CHUNK: usize = 65_536;

/// Why a text was not read to its end. The bytes that were taken are lost.
#[derive(Clone, Copy, Debug, PartialEq, Eq, Drop, Error)]
pub enum ReadTextFault {
    /// A call of the source failed, the last one. The source's count of faults is one more, unless
    /// it stood at its last value.
    #[error("reading failed")]
    ReadFault,

    /// The source gave `MAX_TEXT` bytes and one more. No call failed.
    #[error("the text has more than 16777216 bytes")]
    TooLarge,

    /// Memory was wanting. No call of the source failed.
    #[error("out of memory")]
    NoMemory,
}

impl From<AllocError> for ReadTextFault {
    ghost from_gives = { λ _ e. e ≡ NoMemory };

    fn from(_error: AllocError) -> ReadTextFault {
        ReadTextFault::NoMemory
    }
}

/// Reads the bytes of a text to the end of the input. `TooLarge` comes as soon as the byte behind
/// the first `MAX_TEXT` was read, so the call also returns on a source without end; no byte behind
/// that one is taken. After each error the bytes that were taken are a front of those that were left.
pub fn read_text<S: Source>(alloc: Global, src: &mut S) -> Result<Vec<u8>, ReadTextFault>
    // What was read stood in front of what is left.
    ensures ok { IfOk result (λ text. Took (S.left src.old) (S.left src.new) text.items) }
    ensures end { OnOk result (IsAtEnd (S.left src.new)) }
    ensures size { IfOk result (λ text. length text.items ≤ MAX_TEXT) }

    // `TooLarge` comes exactly where more than `MAX_TEXT` bytes were taken: one more.
    ensures large { IsErrOf result ReadTextFault.TooLarge
        → ReadJust (S.left src.old) (S.left src.new) (MAX_TEXT + 1) }
    ensures fault { IsErrOf result ReadTextFault.ReadFault
        → ReadWithin (S.left src.old) (S.left src.new) MAX_TEXT }
    ensures memory { IsErrOf result ReadTextFault.NoMemory
        → ReadWithin (S.left src.old) (S.left src.new) MAX_TEXT }

    // The count of faults never falls. `ReadFault` raises it by one, and comes wherever it rose.
    ensures later { S.faults src.old ≤ S.faults src.new }
    ensures cause { IsErrOf result ReadTextFault.ReadFault
        → Rose (S.faults src.old) (S.faults src.new) }
    ensures told { S.faults src.old < S.faults src.new
        → IsErrOf result ReadTextFault.ReadFault }
{
    let mut buf = zeroes(alloc, CHUNK)?;
    read_through(alloc, src, buf.as_mut_slice())
}

/// So many bytes 0.
fn zeroes(alloc: Global, count: usize) -> Result<Vec<u8>, AllocError>
    ensures { IfOk result (λ bytes. length bytes.items ≡ count) }
{
    vec![in alloc; 0u8; count]
}

/// Reads a text as `read_text` does, by calls for at most as many bytes as `buf` holds, and for none behind the first that is
/// too many.
fn read_through<S: Source>(
    alloc: Global,
    src: &mut S,
    buf: &mut [u8],
) -> Result<Vec<u8>, ReadTextFault>
    requires { 0 < length buf.old }
    ensures ok { IfOk result (λ text. Took (S.left src.old) (S.left src.new) text.items) }
    ensures end { OnOk result (IsAtEnd (S.left src.new)) }
    ensures size { IfOk result (λ text. length text.items ≤ MAX_TEXT) }
    ensures large { IsErrOf result ReadTextFault.TooLarge
        → ReadJust (S.left src.old) (S.left src.new) (MAX_TEXT + 1) }
    ensures fault { IsErrOf result ReadTextFault.ReadFault
        → ReadWithin (S.left src.old) (S.left src.new) MAX_TEXT }
    ensures memory { IsErrOf result ReadTextFault.NoMemory
        → ReadWithin (S.left src.old) (S.left src.new) MAX_TEXT }
    ensures later { S.faults src.old ≤ S.faults src.new }
    ensures cause { IsErrOf result ReadTextFault.ReadFault
        → Rose (S.faults src.old) (S.faults src.new) }
    ensures told { S.faults src.old < S.faults src.new
        → IsErrOf result ReadTextFault.ReadFault }
{
    let mut text: Vec<u8> = Vec::new(alloc);
    'reading: loop {
        let wanted = buf.len().min(MAX_TEXT + 1 - text.len());
        let chunk = &mut buf[..wanted];
        match src.read(chunk) {
            Ok(0) => return Ok(text),
            Ok(n) if n > MAX_TEXT - text.len() => return Err(ReadTextFault::TooLarge),
            Ok(n) => text.extend_from_slice(&chunk[..n])?,
            Err(_) => return Err(ReadTextFault::ReadFault),
        }
    }
}
