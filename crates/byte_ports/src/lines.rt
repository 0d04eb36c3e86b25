//! The lines of a text of bytes.

ghost use Rattle.std.specs.Prelude.{◌≡◌, ◌<◌, ◌≤◌, length};
ghost use Rattle.byte_ports.specs.Lines.{first_line};

use memchr::memchr;

/// The first line of a text, with the newline that ends it if there is one. No memory.
pub fn first_line(text: &[u8]) -> &[u8]
    ensures line { result.now ≡ first_line text.now }
    ensures within { length result.now ≤ length text.now }
    ensures some { 0 < length text.now → 0 < length result.now }
{
    match memchr(b'\n', text) {
        Some(at) => &text[..at + 1],
        None => text,
    }
}
