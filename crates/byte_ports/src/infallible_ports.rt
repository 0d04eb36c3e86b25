//! A source and a sink that never fail.

ghost use Rattle.std.specs.Prelude.{◌≡◌, ◌-◌, ◌≤◌, ◌<◌, [], ◌++◌, Some, None, Ok, length, take, drop, min, IfOk, MatchOption, IfSome};
ghost use Rattle.byte_ports.specs.Parts.{SureSinkParts};

use crate::byte_buffer::Shelf;
use crate::ports::{Failed, Sink, Source};
use fd_language::NoMemory;
use std::alloc::Global;
use std::marker::Model;

/// A source of given bytes that never fails. Contracts see it as the bytes that are left.
#[derive(Drop)]
pub struct SureSource {
    bytes: Vec<u8>,
    at: usize,
}

impl Model for SureSource {
    ghost use Rattle.std.specs.Prelude.{◌≤◌, ℕ, List, drop, vec_len};

    ghost Value = { List ℕ };

    ghost view = { λ s. drop s.at s.bytes.items };

    ghost invariant = { λ s. s.at ≤ vec_len s.bytes };
}

impl SureSource {
    /// A source of these bytes.
    pub fn new(bytes: Vec<u8>) -> SureSource
        ensures { result ≡ bytes.items }
    {
        SureSource { bytes, at: 0 }
    }
}

impl Source for SureSource {
    ghost left = { λ s. Some s };

    ghost faults = { λ _. 0 };

    fn read(&mut self, buf: &mut [u8]) -> Result<usize, Failed>
        ensures count { result ≡ Ok (min (length buf.new) (length self.old)) }
        ensures rest { self.new ≡ drop (length buf.new) self.old }
        ensures bytes { IfOk result (λ n. self.old ≡ take n buf.new ++ self.new) }
    {
        let n = buf.len().min(self.bytes.len() - self.at);
        buf[..n].copy_from_slice(&self.bytes[self.at..self.at + n]);
        self.at += n;
        Ok(n)
    }
}

/// A sink that never fails.
///
/// It tells its bytes while they fit in the room. From the first piece that does not fit it takes
/// each piece, keeps nothing and tells no bytes.
#[derive(Drop)]
pub struct SureSink {
    kept: Shelf,
    is_told: bool,
}

impl Model for SureSink {
    ghost use Rattle.std.specs.Prelude.{if◌then◌else◌, Some, None};
    ghost use Rattle.byte_ports.specs.Parts.{SureSinkParts};

    ghost Value = { SureSinkParts };

    ghost view = { λ s. record {
      written = (if s.is_told then Some s.kept.bytes else None);
      room = s.kept.room;
    } };
}

impl SureSink {
    /// An empty sink with room for so many bytes, which are reserved here.
    pub fn new(alloc: Global, room: usize) -> Result<SureSink, NoMemory>
        ensures { IfOk result (λ s. s ≡ record { written = Some []; room = room }) }
    {
        let kept = Shelf::new(alloc, room)?;
        Ok(SureSink {
            kept,
            is_told: true,
        })
    }

    /// The bytes taken, or `None` once a piece did not fit.
    pub fn bytes(&self) -> Option<&[u8]>
        ensures { MatchOption result (self.now.written ≡ None)
            (λ bytes. self.now.written ≡ Some bytes.now) }
    {
        if self.is_told {
            Some(self.kept.bytes())
        } else {
            None
        }
    }
}

impl Sink for SureSink {
    ghost written = { λ s. s.written };

    ghost handed = { λ _. None };

    ghost faults = { λ _. 0 };

    fn write(&mut self, piece: &[u8]) -> Result<usize, Failed>
        ensures whole { result ≡ Ok (length piece.now) }
        ensures fits { length piece.now ≤ self.old.room
            → IfSome self.old.written (λ bytes. self.new ≡ record {
              written = Some (bytes ++ piece.now);
              room = self.old.room - length piece.now;
            }) }
        ensures overflows { self.old.room < length piece.now → self.new.written ≡ None }
        ensures stays { self.old.written ≡ None → self.new.written ≡ None }
    {
        if self.is_told && piece.len() <= self.kept.room() {
            self.kept.put(piece);
        } else {
            self.is_told = false;
        }
        Ok(piece.len())
    }
}
