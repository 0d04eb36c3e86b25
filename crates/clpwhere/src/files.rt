//! Files whose texts are put together, and the places in them.

ghost use Rattle.std.specs.Prelude.{◌≡◌, ◌≤◌, ◌<◌, ◌+◌, length, IfOk, OnOk};
ghost use Rattle.clpwhere.specs.Cursors.{Entered, IsBehind, IsCursor, Moved};
ghost use Rattle.clpwhere.specs.Files.{begins, joined};

use crate::placed_line::{PlacedLine, line_of};
use crate::text::NamedText;
use fd_language::NoMemory;
use std::alloc::Global;

/// The text that files make.
#[derive(Drop)]
pub(crate) struct Joined {
    /// Its bytes.
    pub bytes: Vec<u8>,
    /// Where each file begins.
    pub begins: Vec<usize>,
}

/// Puts the texts of files together.
pub(crate) fn join(alloc: Global, files: &[NamedText]) -> Result<Joined, NoMemory>
    ensures bytes { IfOk result (λ j. j.bytes.items ≡ joined files.now) }
    ensures begins { IfOk result (λ j. j.begins.items ≡ begins files.now) }
{
    let mut bytes = Vec::new(alloc);
    let mut begins = Vec::new(alloc);
    for file in files {
        begins.push(bytes.len())?;
        bytes.extend_from_slice(file.bytes())?;
    }
    Ok(Joined { bytes, begins })
}

/// The files from that of a place on, and where the first of them begins; the given ones begin at `begin`.
pub(crate) fn files_from(files: &[NamedText], begin: usize, place: usize) -> (&[NamedText], usize)
    requires { begin ≤ place }
    ensures { IsBehind files.entry.now begin place result.0.now result.1 }
{
    let mut rest = files;
    let mut at = begin;
    'skipping: loop {
        let [file, further @ ..] = rest else {
            return (rest, at);
        };
        let size = file.bytes().len();
        if further.is_empty() || place - at < size {
            return (rest, at);
        }
        at += size;
        rest = further;
    }
}

/// A place in files that are put together.
#[derive(Drop)]
pub(crate) struct Cursor<'f> {
    /// The files from that of the place on.
    pub files: &'f [NamedText],
    /// Where the first of them begins.
    pub begin: usize,
    /// The place in it.
    pub place: usize,
    /// Its line.
    pub line: PlacedLine,
}

impl<'f> Cursor<'f> {
    /// At the beginning of files.
    pub fn new(alloc: Global, files: &'f [NamedText]) -> Result<Cursor<'f>, NoMemory>
        requires { 0 < length files.now }
        ensures { IfOk result (λ c. IsCursor c × (c.files.now ≡ files.now) × (c.begin + c.place ≡ 0)) }
    {
        Ok(Cursor {
            files,
            begin: 0,
            place: 0,
            line: line_of(alloc, &files[0], 0, 1)?,
        })
    }

    /// Goes on to the beginning of the first of these files, where they are fewer than its own; else they are the same.
    fn enter(&mut self, alloc: Global, files: &'f [NamedText], begin: usize) -> Result<(), NoMemory>
        requires cursor { IsCursor self.old }
        requires some { 0 < length files.now }
        requires same { length files.now ≡ length self.old.files.now
            → (files.now ≡ self.old.files.now) × (begin ≡ self.old.begin) }
        ensures { OnOk result (Entered self.old self.new files.now begin) }
    {
        if files.len() == self.files.len() {
            return Ok(());
        }
        self.line = line_of(alloc, &files[0], 0, 1)?;
        self.files = files;
        self.begin = begin;
        self.place = 0;
        Ok(())
    }

    /// Goes on to a later place.
    pub fn move_to(&mut self, alloc: Global, to: usize) -> Result<(), NoMemory>
        requires cursor { IsCursor self.old }
        requires order { self.old.begin + self.old.place ≤ to }
        ensures { OnOk result (Moved self.old self.new to) }
    {
        let (files, begin) = files_from(self.files, self.begin, to);
        self.enter(alloc, files, begin)?;
        self.line.move_to(alloc, &files[0], self.place, to - begin)?;
        self.place = to - begin;
        Ok(())
    }
}
