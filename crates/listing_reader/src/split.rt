//! What stands between separators.

ghost use Rattle.std.specs.Prelude.{◌≡◌, [], ◌∷◌, ◌++◌, false, map, IfOk, MatchOption};
ghost use Rattle.listing_reader.specs.Reading.{has_byte, split};

use fd_language::NoMemory;
use memchr::memchr;
use std::alloc::Global;

/// The texts that a separator ends, and the one behind the last separator.
pub(crate) fn split_ended<'t>(
    alloc: Global,
    text: &'t [u8],
    separator: u8,
) -> Result<(Vec<&'t [u8]>, &'t [u8]), NoMemory>
    ensures { IfOk result (λ r. split separator text.now
        ≡ map (λ w. w.now) r.0.items ++ r.1.now ∷ []) }
{
    let mut found = Vec::new(alloc);
    let mut rest = text;
    while let Some(at) = memchr(separator, rest) {
        found.push(&rest[..at])?;
        rest = &rest[at + 1..];
    }
    Ok((found, rest))
}

/// The texts between the separators of a text.
pub(crate) fn split_at_each<'t>(
    alloc: Global,
    text: &'t [u8],
    separator: u8,
) -> Result<Vec<&'t [u8]>, NoMemory>
    ensures { IfOk result (λ found. map (λ w. w.now) found.items ≡ split separator text.now) }
{
    let (mut found, rest) = split_ended(alloc, text, separator)?;
    found.push(rest)?;
    Ok(found)
}

/// What stands before the first separator of a text, and what stands behind it.
pub(crate) fn cut_once(text: &[u8], separator: u8) -> Option<(&[u8], &[u8])>
    ensures { MatchOption result (has_byte separator text.now ≡ false)
        (λ parts. (text.now ≡ parts.0.now ++ separator ∷ parts.1.now)
        × (has_byte separator parts.0.now ≡ false)) }
{
    let Some(at) = memchr(separator, text) else {
        return None;
    };
    Some((&text[..at], &text[at + 1..]))
}
