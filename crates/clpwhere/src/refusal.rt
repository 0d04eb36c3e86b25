//! The lines that tell a refusal.

ghost use Rattle.std.specs.Prelude.{◌≡◌, option_map};
ghost use Rattle.std.specs.Option.{option_copied};
ghost use Rattle.clpwhere.specs.Numbers.{behind, place_in};
ghost use Rattle.clpwhere.specs.Refusals.{refusal_of, seen};

use crate::reason::{Reason, reason_of};
use crate::text::before_byte;
use itoa::Buffer;

/// A refusal that a line tells.
#[derive(Clone, Copy)]
pub(crate) struct Refusal<'a> {
    /// The place of a byte, counted from 0.
    pub place: usize,
    /// The words of the reason, as they stand in the line.
    pub words: &'a [u8],
    /// The reason.
    pub reason: Reason,
}

/// The greatest place of a refusal.
const LAST_PLACE: u64 = 16_777_216;

/// The place that these bytes write in decimal.
pub(crate) fn place_in(bytes: &[u8]) -> Option<u64>
    ensures { result ≡ place_in bytes.now }
{
    let Ok(text) = std::str::from_utf8(bytes) else {
        return None;
    };
    let Ok(place) = text.parse::<u64>() else {
        return None;
    };
    let mut buffer = Buffer::new();
    let is_spelled_so = buffer.format(place).as_bytes() == bytes;
    (is_spelled_so && place <= LAST_PLACE).then_some(place)
}

/// What stands behind a front.
pub(crate) fn behind<'a>(front: &[u8], bytes: &'a [u8]) -> Option<&'a [u8]>
    ensures { option_copied result ≡ behind front.entry.now bytes.entry.now }
{
    bytes.strip_prefix(front)
}

/// The refusal that a line without its newline tells.
pub(crate) fn refusal_of(line: &[u8]) -> Option<Refusal<'_>>
    ensures { option_map seen result ≡ refusal_of line.entry.now }
{
    let rest = behind(b"refused at ", line)?;
    let digits = before_byte(rest, b':');
    let place = place_in(digits)?;
    let words = behind(b": ", &rest[digits.len()..])?;
    let reason = reason_of(words)?;
    Some(Refusal {
        place: place as usize,
        words,
        reason,
    })
}
