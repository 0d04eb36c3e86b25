//! A line of a text, with a place in it.

ghost use Rattle.std.specs.Prelude.{◌≡◌, ◌≤◌, ◌&&◌, IfOk, IfSome, OnOk};
ghost use Rattle.std.specs.Str.{is_utf8};
ghost use Rattle.clpwhere.specs.PlacedLines.{IsLineOf, IsPart};
ghost use Rattle.clpwhere.specs.Places.{line_number};

use crate::explanations::characters;
use crate::text::{NamedText, is_text, newlines};
use fd_language::NoMemory;
use std::alloc::Global;

/// The line of a place.
#[derive(Drop)]
pub(crate) struct PlacedLine {
    /// Its number.
    pub number: usize,
    /// Its characters.
    pub characters: Vec<char>,
    /// How many of them stand before the place.
    pub at: usize,
    /// Whether the bytes before the place and those from it on are known to be UTF-8.
    pub is_text: bool,
}

/// Whether both are UTF-8.
fn are_text(before: &[u8], from: &[u8]) -> bool
    ensures { result ≡ (is_utf8 before.now && is_utf8 from.now) }
{
    is_text(before) && is_text(from)
}

/// The line of a place; `number` is its number.
pub(crate) fn line_of(
    alloc: Global,
    text: &NamedText,
    place: usize,
    number: usize,
) -> Result<PlacedLine, NoMemory>
    requires { number ≡ line_number text.now.bytes place }
    ensures { IfOk result (IsLineOf text.now.bytes place) }
{
    let before = text.before_place(place);
    let from = text.from_place(place);
    let mut all = characters(alloc, before)?;
    let at = all.len();
    let rest = characters(alloc, from)?;
    all.extend_from_slice(&rest)?;
    Ok(PlacedLine {
        number,
        characters: all,
        at,
        is_text: are_text(before, from),
    })
}

impl PlacedLine {
    /// What stands between two places, where both lie in its line and it is UTF-8 so far.
    fn part<'t>(&self, text: &'t NamedText, from: usize, place: usize) -> Option<&'t [u8]>
        requires { from ≤ place }
        ensures { IfSome result (λ p. IsPart text.entry.now.bytes from place self.now p.now) }
    {
        let bytes = text.bytes();
        if !self.is_text {
            return None;
        }
        if bytes.len() < place {
            return None;
        }
        let part = &bytes[from..place];
        if newlines(part) != 0 {
            return None;
        }
        if !is_text(part) {
            return None;
        }
        Some(part)
    }

    /// Goes on to a later place of the text. In one line it looks at nothing but what stands between the two places.
    pub fn move_to(
        &mut self,
        alloc: Global,
        text: &NamedText,
        from: usize,
        place: usize,
    ) -> Result<(), NoMemory>
        requires order { from ≤ place }
        requires line { IsLineOf text.now.bytes from self.old }
        ensures { OnOk result (IsLineOf text.now.bytes place self.new) }
    {
        let Some(part) = self.part(text, from, place) else {
            let number = text.line_behind(from, self.number, place);
            *self = line_of(alloc, text, place, number)?;
            return Ok(());
        };
        let more = characters(alloc, part)?;
        self.at += more.len();
        Ok(())
    }
}
