//! Numbers in decimal.

ghost use Rattle.std.specs.Prelude.{◌≡◌, ◌++◌, decimal, OnOk};
ghost use Rattle.std.specs.Fmt.{signed_decimal};

use fd_language::NoMemory;
use itoa::Buffer;

/// Appends a number.
pub(crate) fn put_number(text: &mut Vec<u8>, number: usize) -> Result<(), NoMemory>
    ensures { OnOk result (text.new.items ≡ text.old.items ++ decimal number) }
{
    let mut buffer = Buffer::new();
    text.extend_from_slice(buffer.format(number).as_bytes())?;
    Ok(())
}

/// Appends an integer.
pub(crate) fn put_integer(text: &mut Vec<u8>, integer: i64) -> Result<(), NoMemory>
    ensures { OnOk result (text.new.items ≡ text.old.items ++ signed_decimal integer) }
{
    let mut buffer = Buffer::new();
    text.extend_from_slice(buffer.format(integer).as_bytes())?;
    Ok(())
}
