//! Numbers in decimal.

ghost use Rattle.std.specs.Prelude.{◌≡◌, ◌++◌, decimal, OnOk};
ghost use Rattle.fd_model.specs.Lines.{line};

use fd_language::NoMemory;
use itoa::Buffer;

/// Appends a number.
pub(crate) fn put_number(text: &mut Vec<u8>, number: u64) -> Result<(), NoMemory>
    ensures { OnOk result (text.new.items ≡ text.old.items ++ decimal number) }
{
    let mut buffer = Buffer::new();
    text.extend_from_slice(buffer.format(number).as_bytes())?;
    Ok(())
}

/// Appends a line of words and a number.
pub(crate) fn put_count(text: &mut Vec<u8>, words: &[u8], number: u64) -> Result<(), NoMemory>
    ensures { OnOk result (text.new.items
        ≡ text.old.items ++ line (words.now ++ decimal number)) }
{
    text.extend_from_slice(words)?;
    put_number(text, number)?;
    text.push(b'\n')?;
    Ok(())
}
