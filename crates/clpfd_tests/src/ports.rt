//! What no clause says: that the calls succeed with ample memory, and how std's readers and writers are used.

ghost use Rattle.std.specs.Prelude.{None};

use crate::assertions::same;
use byte_ports::{
    Failed, MemorySink, MemorySource, ReadTextFault, ReaderSource, Sink, SmallSink, SmallSource,
    Source, SureSink, SureSource, WriterSink, read_text, write_all,
};
use std::alloc::Global;
use std::io;
use std::io::{ErrorKind, Read, Write};
use std::process::Abort;
use std::test::Fail;

/// The bytes that a source gives, or none where it fails.
fn taken<S: Source>(alloc: Global, source: &mut S) -> Option<Vec<u8>> {
    read_text(alloc, source).ok()
}

/// The fault of a source that is read.
fn fault<S: Source>(alloc: Global, source: &mut S) -> Option<ReadTextFault> {
    read_text(alloc, source).err()
}

/// Whether a piece is written whole.
fn put<S: Sink>(sink: &mut S, piece: &str) -> bool {
    write_all(sink, piece.as_bytes()).is_ok()
}

/// Refuses a source that doesn't give the text.
fn gives<S: Source>(rt: &impl Abort, source: &mut S, text: &Vec<u8>) {
    let found = taken(*text.allocator(), source);
    same(rt, found.as_ref(), Some(text), "the text");
}

#[test]
fn reads_a_text_from_each_source(rt: HostRuntime) -> Result<(), Fail> {
    let text = Vec::from_slice(rt.alloc(), b"?- X in 1..5.")?;
    gives(&rt, &mut ReaderSource::new(text.as_slice()), &text);
    gives(&rt, &mut SureSource::new(text.clone()?), &text);
    Ok(())
}

#[test]
fn a_source_in_memory_fails_once_and_then_ends(rt: HostRuntime) -> Result<(), Fail> {
    let text = Vec::from_slice(rt.alloc(), b"?- X in 1..5.")?;
    let mut memory = MemorySource::new(text.clone()?, vec![in rt.alloc(); 3]?);
    gives(&rt, &mut memory, &text);
    let next = (memory.read(&mut [0; 1]), memory.read(&mut [0; 1]));
    same(&rt, next, (Err(Failed), Ok(0)), "the next two calls");
    Ok(())
}

/// What the calls give where the second fails.
const READS: &[Result<usize, Failed>] = &[Ok(1), Err(Failed), Ok(1), Ok(1), Ok(0)];

#[test]
fn a_small_source_gives_a_byte_a_call(rt: HostRuntime) -> Result<(), Fail> {
    let text = Vec::from_slice(rt.alloc(), b"abc")?;
    let mut source = SmallSource::new(text, vec![in rt.alloc(); 2]?);
    for want in READS {
        let found = source.read(&mut [0; 2]);
        same(&rt, found, *want, "a call");
    }
    Ok(())
}

#[test]
fn a_failed_first_read_is_a_read_fault(rt: HostRuntime) -> Result<(), Fail> {
    let mut memory = MemorySource::new(vec![in rt.alloc(); b'a']?, vec![in rt.alloc(); 1]?);
    let found = fault(rt.alloc(), &mut memory);
    same(&rt, found, Some(ReadTextFault::ReadFault), "the fault");
    let mut reader = ReaderSource::new(Broken);
    let found = fault(rt.alloc(), &mut reader);
    same(&rt, found, Some(ReadTextFault::ReadFault), "the fault");
    Ok(())
}

#[test]
fn an_endless_source_is_too_large(rt: HostRuntime) {
    let found = fault(rt.alloc(), &mut Endless);
    same(&rt, found, Some(ReadTextFault::TooLarge), "the fault");
}

#[test]
fn writes_to_a_vector(rt: HostRuntime) -> Result<(), Fail> {
    let mut bytes = vec![in rt.alloc(); b'a']?;
    let mut writer = WriterSink::new(&mut bytes);
    let written = (put(&mut writer, "bcd"), put(&mut writer, "e"));
    same(&rt, written, (true, true), "both pieces");
    same(&rt, bytes.as_slice(), b"abcde".as_slice(), "the bytes");
    Ok(())
}

#[test]
fn a_writer_that_takes_nothing_fails(rt: HostRuntime) {
    let mut full = WriterSink::new(Broken);
    let written = (put(&mut full, "a"), put(&mut full, ""));
    same(&rt, written, (false, true), "both pieces");
}

/// Pieces, whether each is written whole, and the sink's bytes behind it.
type Writes = &'static [(&'static str, bool, &'static str)];

/// The third call fails, and then the room of 6 is too small.
const WRITES: Writes = &[
    ("abc", true, "abc"),
    ("de", true, "abcde"),
    ("f", false, "abcde"),
    ("fg", false, "abcde"),
    ("f", true, "abcdef"),
];

#[test]
fn a_failed_write_leaves_what_was_written(rt: HostRuntime) -> Result<(), Fail> {
    let mut sink = MemorySink::new(rt.alloc(), 6, vec![in rt.alloc(); 3]?)?;
    for (piece, whole, after) in WRITES {
        let written = put(&mut sink, piece);
        same(&rt, written, *whole, piece);
        same(&rt, sink.bytes(), after.as_bytes(), piece);
    }
    Ok(())
}

/// The fourth call fails, and then there is no room behind 5 bytes.
const SMALL_WRITES: Writes = &[
    ("ab", true, "ab"),
    ("cd", false, "abc"),
    ("def", false, "abcde"),
    ("", true, "abcde"),
];

#[test]
fn a_small_sink_takes_a_byte_a_call(rt: HostRuntime) -> Result<(), Fail> {
    let mut sink = SmallSink::new(rt.alloc(), 5, vec![in rt.alloc(); 4]?)?;
    for (piece, whole, after) in SMALL_WRITES {
        let written = put(&mut sink, piece);
        same(&rt, written, *whole, piece);
        same(&rt, sink.bytes(), after.as_bytes(), piece);
    }
    Ok(())
}

/// Pieces, and the bytes that a sink of room 3 tells behind each.
const SURE_WRITES: &[(&str, Option<&str>)] = &[("abc", Some("abc")), ("d", None), ("", None)];

#[test]
fn a_sure_sink_tells_nothing_past_its_room(rt: HostRuntime) -> Result<(), Fail> {
    let mut sink = SureSink::new(rt.alloc(), 3)?;
    for (piece, after) in SURE_WRITES {
        let written = put(&mut sink, piece);
        same(&rt, written, true, piece);
        let told = sink.bytes();
        same(&rt, told, after.map(|text| text.as_bytes()), piece);
    }
    Ok(())
}

#[test]
fn a_read_that_fails_once_is_not_tried_again(rt: HostRuntime) -> Result<(), Fail> {
    let mut reader = FailsOnce::at(2);
    let mut source = ReaderSource::new(&mut reader);
    let found = fault(rt.alloc(), &mut source);
    same(&rt, found, Some(ReadTextFault::ReadFault), "the fault");
    same(&rt, reader.calls, 2, "the failed call was the last one");
    Ok(())
}

#[test]
fn the_end_of_the_input_is_no_fault(rt: HostRuntime) -> Result<(), Fail> {
    let mut reader = FailsOnce::at(0);
    let mut source = ReaderSource::new(&mut reader);
    let found = taken(rt.alloc(), &mut source).map(|text| text.len());
    same(&rt, found, Some(3), "the length");
    let next = source.read(&mut [0; 1]);
    same(&rt, next, Ok(0), "the next call");
    same(&rt, reader.calls, 5, "three bytes, and the end twice");
    Ok(())
}

#[test]
fn a_write_that_fails_once_is_not_tried_again(rt: HostRuntime) {
    let mut writer = FailsOnce::at(3);
    let mut sink = WriterSink::new(&mut writer);
    let written = put(&mut sink, "abcde");
    same(&rt, written, false, "the write");
    same(&rt, writer.calls, 3, "the failed call was the last one");
}

// A source without end.
#[derive(Drop)]
struct Endless;

impl Source for Endless {
    ghost left = { λ _. None };

    ghost faults = { λ _. 0 };

    fn read(&mut self, buf: &mut [u8]) -> Result<usize, Failed> {
        buf.fill(b'a');
        Ok(buf.len())
    }
}

// A reader that fails, and a writer that takes nothing.
#[derive(Drop)]
struct Broken;

impl Read for Broken {
    fn read(&mut self, _buf: &mut [u8]) -> io::Result<usize> {
        Err(io::Error::from(ErrorKind::BrokenPipe))
    }
}

impl Write for Broken {
    fn write(&mut self, _buf: &[u8]) -> io::Result<usize> {
        Ok(0)
    }

    fn flush(&mut self) -> io::Result<()> {
        Ok(())
    }
}

// A reader of three bytes and a writer, one byte a call, where the call of one number fails.
#[derive(Drop)]
struct FailsOnce {
    calls: usize,
    failing: usize,
}

impl FailsOnce {
    fn at(failing: usize) -> FailsOnce {
        FailsOnce { calls: 0, failing }
    }

    fn call(&mut self) -> io::Result<()> {
        self.calls = self.calls.saturating_add(1);
        if self.calls == self.failing {
            return Err(io::Error::from(ErrorKind::BrokenPipe));
        }
        Ok(())
    }
}

impl Read for FailsOnce {
    fn read(&mut self, buf: &mut [u8]) -> io::Result<usize> {
        self.call()?;
        if self.calls > 3 || buf.is_empty() {
            return Ok(0);
        }
        buf[0] = b'a';
        Ok(1)
    }
}

impl Write for FailsOnce {
    fn write(&mut self, buf: &[u8]) -> io::Result<usize> {
        self.call()?;
        Ok(buf.len().min(1))
    }

    fn flush(&mut self) -> io::Result<()> {
        Ok(())
    }
}
