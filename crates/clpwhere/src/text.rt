//! A text, and the places in it.

ghost use Rattle.std.specs.Prelude.{◌≡◌, ◌≤◌, ◌==◌, take, drop, length, count_by, string_bytes};
ghost use Rattle.std.specs.List.{after_last, before_first};
ghost use Rattle.std.specs.Str.{is_utf8};
ghost use Rattle.byte_ports.specs.Lines.{is_newline};
ghost use Rattle.clpwhere.specs.Places.{line_number, before_place, from_place};

use memchr::{memchr, memrchr};
use std::marker::Model;

/// A text with the name of its file. Contracts see both.
#[derive(Drop)]
pub struct NamedText {
    name: String,
    bytes: Vec<u8>,
}

impl Model for NamedText {
    ghost use Rattle.std.specs.Prelude.{string_bytes};
    ghost use Rattle.clpwhere.specs.Parts.{TextParts};

    ghost Value = { TextParts };

    ghost view = { λ s. record { name = string_bytes s.name; bytes = s.bytes.items } };
}

/// What stands before the first byte of this value, or all where there is none.
pub(crate) fn before_byte(bytes: &[u8], byte: u8) -> &[u8]
    ensures { result.now ≡ before_first (λ b. b == byte) bytes.now }
{
    match memchr(byte, bytes) {
        Some(at) => &bytes[..at],
        None => bytes,
    }
}

/// What stands behind the last byte of this value, or all where there is none.
pub(crate) fn behind_byte(bytes: &[u8], byte: u8) -> &[u8]
    ensures { result.now ≡ after_last (λ b. b == byte) bytes.now }
{
    match memrchr(byte, bytes) {
        Some(at) => &bytes[at + 1..],
        None => bytes,
    }
}

/// Whether bytes are UTF-8.
pub(crate) fn is_text(bytes: &[u8]) -> bool
    ensures { result ≡ is_utf8 bytes.now }
{
    match std::str::from_utf8(bytes) {
        Ok(_) => true,
        Err(_) => false,
    }
}

/// How many newlines there are.
pub(crate) fn newlines(bytes: &[u8]) -> usize
    ensures value { result ≡ count_by is_newline bytes.now }
    ensures bound { result ≤ length bytes.now }
{
    bytes.iter().filter(|b| **b == b'\n').count()
}

impl NamedText {
    /// A text of these bytes, from a file of this name.
    pub fn new(name: String, bytes: Vec<u8>) -> NamedText
        ensures { result ≡ record { name = string_bytes name; bytes = bytes.items } }
    {
        NamedText { name, bytes }
    }

    /// The name of its file.
    pub fn name(&self) -> &str
        ensures { result.now ≡ self.now.name }
    {
        self.name.as_str()
    }

    /// Its bytes.
    pub fn bytes(&self) -> &[u8]
        ensures { result.now ≡ self.now.bytes }
    {
        &self.bytes
    }

    /// The bytes before a place; a place past the end is the end.
    fn before(&self, place: usize) -> &[u8]
        ensures { result.now ≡ take place self.now.bytes }
    {
        &self.bytes[..place.min(self.bytes.len())]
    }

    /// The bytes from a place on; a place past the end is the end.
    pub fn behind(&self, place: usize) -> &[u8]
        ensures { result.now ≡ drop place self.now.bytes }
    {
        &self.bytes[place.min(self.bytes.len())..]
    }

    /// The number of the place's line.
    pub fn line(&self, place: usize) -> usize
        ensures { result ≡ line_number self.now.bytes place }
    {
        1 + newlines(self.before(place))
    }

    /// The number of the place's line, where `line` is that of a place before it.
    pub fn line_behind(&self, from: usize, line: usize, place: usize) -> usize
        requires order { from ≤ place }
        requires line { line ≡ line_number self.now.bytes from }
        ensures { result ≡ line_number self.now.bytes place }
    {
        let before = self.before(place);
        line + newlines(&before[from.min(before.len())..])
    }

    /// What stands in the place's line before it.
    pub fn before_place(&self, place: usize) -> &[u8]
        ensures { result.now ≡ before_place self.now.bytes place }
    {
        behind_byte(self.before(place), b'\n')
    }

    /// What stands in the place's line from it on.
    pub fn from_place(&self, place: usize) -> &[u8]
        ensures { result.now ≡ from_place self.now.bytes place }
    {
        before_byte(self.behind(place), b'\n')
    }
}
