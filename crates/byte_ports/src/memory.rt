//! A source and a sink in memory, with calls that are to fail.

ghost use Rattle.std.specs.Prelude.{◌≡◌, ◌↔◌, ◌⊎◌, ◌-◌, ◌<◌, ◌≤◌, [], ◌++◌, Some, None, length, take, drop, min, IfOk, IsErr, OnOk, OnErr};
ghost use Rattle.byte_ports.specs.Parts.{MemorySourceParts, MemorySinkParts, FailsNext, unused, called, failed};
ghost use Rattle.byte_ports.specs.Ports.{Rose};

use crate::byte_buffer::Shelf;
use crate::fault_plan::Plan;
use crate::infallible_ports::SureSource;
use crate::ports::{Failed, Sink, Source};
use fd_language::NoMemory;
use std::alloc::Global;
use std::marker::Model;

/// A source of given bytes, whose calls of given numbers fail.
#[derive(Drop)]
pub struct MemorySource {
    bytes: SureSource,
    plan: Plan,
}

impl Model for MemorySource {
    ghost use Rattle.byte_ports.specs.Parts.{MemorySourceParts};

    ghost Value = { MemorySourceParts };

    ghost view = { λ s. record { left = s.bytes; plan = s.plan } };
}

impl MemorySource {
    /// A source of these bytes. Calls are numbered from 1, and a call whose number is in
    /// `failing` fails.
    pub fn new(bytes: Vec<u8>, failing: Vec<u64>) -> MemorySource
        ensures { result ≡ record { left = bytes.items; plan = unused failing.items } }
    {
        MemorySource {
            bytes: SureSource::new(bytes),
            plan: Plan::new(failing),
        }
    }
}

impl Source for MemorySource {
    ghost left = { λ s. Some s.left };

    ghost faults = { λ s. s.plan.faults };

    fn read(&mut self, buf: &mut [u8]) -> Result<usize, Failed>
        ensures fails { IsErr result ↔ FailsNext self.old.plan }
        ensures refused { OnErr result
            (self.new ≡ record self.old { plan = failed self.old.plan }) }
        ensures count { IfOk result (λ n. n ≡ min (length buf.new) (length self.old.left)) }
        ensures given { OnOk result
            (self.new ≡ record {
              left = drop (length buf.new) self.old.left;
              plan = called self.old.plan;
            }) }
        ensures bytes { IfOk result (λ n. self.old.left ≡ take n buf.new ++ self.new.left) }
        ensures later { self.old.plan.faults ≤ self.new.plan.faults }
        ensures cause { OnErr result (Rose self.old.plan.faults self.new.plan.faults) }
    {
        if self.plan.next_fails() {
            self.plan.raise();
            return Err(Failed);
        }
        self.bytes.read(buf)
    }
}

/// A sink that keeps the bytes that it takes, and whose calls of given numbers fail.
#[derive(Drop)]
pub struct MemorySink {
    kept: Shelf,
    plan: Plan,
}

impl Model for MemorySink {
    ghost use Rattle.byte_ports.specs.Parts.{MemorySinkParts};

    ghost Value = { MemorySinkParts };

    ghost view = { λ s. record { written = s.kept.bytes; room = s.kept.room; plan = s.plan } };
}

impl MemorySink {
    /// An empty sink with room for so many bytes, which are reserved here. Calls are numbered from
    /// 1. A call fails whose number is in `failing`, or whose piece does not fit in the room that
    /// is left. Each other call takes its whole piece.
    pub fn new(alloc: Global, room: usize, failing: Vec<u64>) -> Result<MemorySink, NoMemory>
        ensures { IfOk result
            (λ s. s ≡ record { written = []; room = room; plan = unused failing.items }) }
    {
        let kept = Shelf::new(alloc, room)?;
        let plan = Plan::new(failing);
        Ok(MemorySink { kept, plan })
    }

    /// The bytes taken.
    pub fn bytes(&self) -> &[u8]
        ensures { result.now ≡ self.now.written }
    {
        self.kept.bytes()
    }
}

impl Sink for MemorySink {
    ghost written = { λ s. Some s.written };

    ghost handed = { λ _. None };

    ghost faults = { λ s. s.plan.faults };

    fn write(&mut self, piece: &[u8]) -> Result<usize, Failed>
        ensures fails { IsErr result
            ↔ (FailsNext self.old.plan ⊎ (self.old.room < length piece.now)) }
        ensures refused { OnErr result
            (self.new ≡ record self.old { plan = failed self.old.plan }) }
        ensures whole { IfOk result (λ n. n ≡ length piece.now) }
        ensures taken { OnOk result
            (self.new ≡ record {
              written = self.old.written ++ piece.now;
              room = self.old.room - length piece.now;
              plan = called self.old.plan;
            }) }
        ensures later { self.old.plan.faults ≤ self.new.plan.faults }
        ensures cause { OnErr result (Rose self.old.plan.faults self.new.plan.faults) }
    {
        let is_planned = self.plan.next_fails();
        if is_planned || self.kept.room() < piece.len() {
            self.plan.raise();
            return Err(Failed);
        }
        self.kept.put(piece);
        Ok(piece.len())
    }
}
