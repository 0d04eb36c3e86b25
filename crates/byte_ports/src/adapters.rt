//! Std's readers and writers as sources and sinks.

ghost use Rattle.std.specs.Prelude.{◌≡◌, ◌<◌, ◌≤◌, None, length, IfOk, OnOk, OnErr, IsErr};
ghost use Rattle.std.specs.Io.KnownBytes.{ReadConsumes, WriteAppends};
ghost use Rattle.byte_ports.specs.Parts.{AdapterParts};
ghost use Rattle.byte_ports.specs.Ports.{Rose};

use crate::ports::{Failed, Sink, Source};
use std::io::{self, Read, Write};
use std::marker::Model;

/// A source over a reader of std. It tells no bytes. Contracts see the reader, and how many of its
/// calls failed; the count stands still at its last value, 2^64 - 1.
#[derive(Drop)]
pub struct ReaderSource<R> {
    inner: R,
    faults: u64,
}

impl<R> Model for ReaderSource<R> {
    ghost use Rattle.byte_ports.specs.Parts.{AdapterParts};

    ghost Value = { AdapterParts R };

    ghost view = { λ s. record { inner = s.inner; faults = s.faults } };
}

impl<R: Read> ReaderSource<R> {
    /// A source over this reader. No call has failed yet.
    pub fn new(inner: R) -> ReaderSource<R>
        ensures { result ≡ record { inner = inner; faults = 0 } }
    {
        ReaderSource { inner, faults: 0 }
    }
}

/// What a source answers where its reader gave `answer`: a count of bytes is handed on, 0 at the end of the input too, and only an error
/// is a fault, which raises the count by one.
fn count_fault(answer: io::Result<usize>, faults: &mut u64) -> Result<usize, Failed>
    ensures ok { IfOk answer (λ n. (result ≡ Ok n) × (faults.new ≡ faults.old)) }
    ensures err { OnErr answer (IsErr result × Rose faults.old faults.new) }
    ensures later { faults.old ≤ faults.new }
{
    match answer {
        Ok(n) => Ok(n),
        Err(_) => {
            *faults = faults.saturating_add(1);
            Err(Failed)
        }
    }
}

impl<R: Read> Source for ReaderSource<R> {
    ghost left = { λ _. None };

    ghost faults = { λ s. s.faults };

    /// Fails exactly where the reader does, and then raises the count by one.
    fn read(&mut self, buf: &mut [u8]) -> Result<usize, Failed>
        ensures within { IfOk result (λ n. n ≤ length buf.new) }
        ensures ok { OnOk result (self.new.faults ≡ self.old.faults) }
        ensures later { self.old.faults ≤ self.new.faults }
        ensures cause { OnErr result (Rose self.old.faults self.new.faults) }
        ensures bytes { ReadConsumes (R.remaining self.old.inner) (R.remaining self.new.inner)
            result buf.new }
    {
        count_fault(self.inner.read(buf), &mut self.faults)
    }
}

/// A sink over a writer of std. It tells no bytes. Contracts see the writer, and how many of its
/// calls failed; the count stands still at its last value, 2^64 - 1.
#[derive(Drop)]
pub struct WriterSink<W> {
    inner: W,
    faults: u64,
}

impl<W> Model for WriterSink<W> {
    ghost use Rattle.byte_ports.specs.Parts.{AdapterParts};

    ghost Value = { AdapterParts W };

    ghost view = { λ s. record { inner = s.inner; faults = s.faults } };
}

impl<W: Write> WriterSink<W> {
    /// A sink over this writer. No call has failed yet.
    pub fn new(inner: W) -> WriterSink<W>
        ensures { result ≡ record { inner = inner; faults = 0 } }
    {
        WriterSink { inner, faults: 0 }
    }
}

impl<W: Write> Sink for WriterSink<W> {
    ghost written = { λ _. None };

    ghost handed = { λ _. None };

    ghost faults = { λ s. s.faults };

    /// Fails where the writer does, and where it takes no byte of a piece that is not empty, and
    /// then raises the count by one.
    fn write(&mut self, piece: &[u8]) -> Result<usize, Failed>
        ensures within { IfOk result (λ n. n ≤ length piece.now) }
        ensures some { IfOk result (λ n. 0 < length piece.now → 0 < n) }
        ensures ok { OnOk result (self.new.faults ≡ self.old.faults) }
        ensures later { self.old.faults ≤ self.new.faults }
        ensures cause { OnErr result (Rose self.old.faults self.new.faults) }
        ensures bytes { WriteAppends (W.contents self.old.inner) (W.contents self.new.inner)
            result piece.now }
    {
        match self.inner.write(piece) {
            Ok(n) if n > 0 || piece.is_empty() => Ok(n),
            _ => {
                self.faults = self.faults.saturating_add(1);
                Err(Failed)
            }
        }
    }
}
