//! A source and a sink in memory that move one byte a call, with calls that are to fail.

ghost use Rattle.std.specs.Prelude.{◌≡◌, ◌↔◌, ◌⊎◌, ◌-◌, ◌<◌, ◌≤◌, [], ◌++◌, Some, None, length, take, drop, min, IfOk, IsErr, OnOk, OnErr};
ghost use Rattle.byte_ports.specs.Parts.{MemorySourceParts, MemorySinkParts, FailsNext, unused, called, failed};
ghost use Rattle.byte_ports.specs.Ports.{Rose};

use crate::memory::{MemorySink, MemorySource};
use crate::ports::{Failed, Sink, Source};
use fd_language::NoMemory;
use std::alloc::Global;
use std::marker::Model;

/// A source of given bytes that gives at most one a call, and whose calls of given numbers fail.
#[derive(Drop)]
pub struct SmallSource {
    inside: MemorySource,
}

impl Model for SmallSource {
    ghost use Rattle.byte_ports.specs.Parts.{MemorySourceParts};

    ghost Value = { MemorySourceParts };

    ghost view = { λ s. s.inside };
}

impl SmallSource {
    /// A source of these bytes. Calls are numbered from 1, and a call whose number is in
    /// `failing` fails.
    pub fn new(bytes: Vec<u8>, failing: Vec<u64>) -> SmallSource
        ensures { result ≡ record { left = bytes.items; plan = unused failing.items } }
    {
        SmallSource {
            inside: MemorySource::new(bytes, failing),
        }
    }
}

impl Source for SmallSource {
    ghost left = { λ s. Some s.left };

    ghost faults = { λ s. s.plan.faults };

    fn read(&mut self, buf: &mut [u8]) -> Result<usize, Failed>
        ensures fails { IsErr result ↔ FailsNext self.old.plan }
        ensures refused { OnErr result
            (self.new ≡ record self.old { plan = failed self.old.plan }) }
        ensures count { IfOk result
            (λ n. n ≡ min 1 (min (length buf.new) (length self.old.left))) }
        ensures given { OnOk result
            (self.new ≡ record {
              left = drop (min 1 (length buf.new)) self.old.left;
              plan = called self.old.plan;
            }) }
        ensures bytes { IfOk result (λ n. self.old.left ≡ take n buf.new ++ self.new.left) }
        ensures later { self.old.plan.faults ≤ self.new.plan.faults }
        ensures cause { OnErr result (Rose self.old.plan.faults self.new.plan.faults) }
    {
        let most = buf.len().min(1);
        self.inside.read(&mut buf[..most])
    }
}

/// A sink that keeps the bytes that it takes, at most one a call, and whose calls of given numbers
/// fail.
#[derive(Drop)]
pub struct SmallSink {
    inside: MemorySink,
}

impl Model for SmallSink {
    ghost use Rattle.byte_ports.specs.Parts.{MemorySinkParts};

    ghost Value = { MemorySinkParts };

    ghost view = { λ s. s.inside };
}

impl SmallSink {
    /// An empty sink with room for so many bytes, which are reserved here. Calls are numbered from
    /// 1. A call fails whose number is in `failing`, or which finds no room for the first byte of
    /// its piece. Each other call takes that byte, if there is one.
    pub fn new(alloc: Global, room: usize, failing: Vec<u64>) -> Result<SmallSink, NoMemory>
        ensures { IfOk result
            (λ s. s ≡ record { written = []; room = room; plan = unused failing.items }) }
    {
        let inside = MemorySink::new(alloc, room, failing)?;
        Ok(SmallSink { inside })
    }

    /// The bytes taken.
    pub fn bytes(&self) -> &[u8]
        ensures { result.now ≡ self.now.written }
    {
        self.inside.bytes()
    }
}

impl Sink for SmallSink {
    ghost written = { λ s. Some s.written };

    ghost handed = { λ _. None };

    ghost faults = { λ s. s.plan.faults };

    fn write(&mut self, piece: &[u8]) -> Result<usize, Failed>
        ensures fails { IsErr result
            ↔ (FailsNext self.old.plan ⊎ (self.old.room < min 1 (length piece.now))) }
        ensures refused { OnErr result
            (self.new ≡ record self.old { plan = failed self.old.plan }) }
        ensures count { IfOk result (λ n. n ≡ min 1 (length piece.now)) }
        ensures taken { OnOk result
            (self.new ≡ record {
              written = self.old.written ++ take 1 piece.now;
              room = self.old.room - min 1 (length piece.now);
              plan = called self.old.plan;
            }) }
        ensures later { self.old.plan.faults ≤ self.new.plan.faults }
        ensures cause { OnErr result (Rose self.old.plan.faults self.new.plan.faults) }
    {
        let most = piece.len().min(1);
        self.inside.write(&piece[..most])
    }
}
