//! Bytes with room for a given number more.

ghost use Rattle.std.specs.Prelude.{◌≡◌, ◌+◌, ◌-◌, ◌≤◌, [], ◌++◌, length, IfOk};

use fd_language::NoMemory;
use std::alloc::Global;
use std::marker::Model;

#[derive(Drop)]
pub(crate) struct Shelf {
    bytes: Vec<u8>,
    room: usize,
}

impl Model for Shelf {
    ghost use Rattle.std.specs.Prelude.{◌+◌, ◌≤◌, vec_len, vec_capacity};
    ghost use Rattle.byte_ports.specs.Parts.{ShelfParts};

    ghost Value = { ShelfParts };

    ghost view = { λ s. record { bytes = s.bytes.items; room = s.room } };

    ghost invariant = { λ s. vec_len s.bytes + s.room ≤ vec_capacity s.bytes };
}

impl Shelf {
    /// No bytes, and room for as many as are given.
    pub(crate) fn new(alloc: Global, room: usize) -> Result<Shelf, NoMemory>
        ensures { IfOk result (λ s. s ≡ record { bytes = []; room = room }) }
    {
        let bytes = Vec::with_capacity(alloc, room)?;
        Ok(Shelf { bytes, room })
    }

    /// The bytes.
    pub(crate) fn bytes(&self) -> &[u8]
        ensures { result.now ≡ self.now.bytes }
    {
        self.bytes.as_slice()
    }

    /// How many bytes there is room for.
    pub(crate) fn room(&self) -> usize
        ensures { result ≡ self.now.room }
    {
        self.room
    }

    /// Puts the piece behind the bytes. Takes no memory.
    pub(crate) fn put(&mut self, piece: &[u8])
        requires { length piece.now ≤ self.old.room }
        ensures { self.new ≡
            record {
              bytes = self.old.bytes ++ piece.now;
              room = self.old.room -
                  length piece.now;
            } }
    {
        self.room -= piece.len();
        self.bytes.extend_from_slice(piece).unwrap();
    }
}
