//! What the words of a line write.

ghost use Rattle.std.specs.Prelude.{◌≡◌, decimal};
ghost use Rattle.std.specs.Fmt.{signed_decimal};
ghost use Rattle.listing_reader.specs.NumberBounds.{IsArity, IsInteger, IsNumber, IsSmall};
ghost use Rattle.listing_reader.specs.Reading.{Reads};
ghost use Rattle.code_listing.specs.Texts.{argument_word, register_word, slot_word};

use itoa::Buffer;
use wam_code::Register;

/// The number that a word writes.
pub(crate) fn read_number(word: &[u8]) -> Option<usize>
    ensures { Reads IsNumber decimal word.now result }
{
    let Ok(text) = std::str::from_utf8(word) else {
        return None;
    };
    let Ok(number) = text.parse::<usize>() else {
        return None;
    };
    let mut buffer = Buffer::new();
    if buffer.format(number).as_bytes() == word {
        Some(number)
    } else {
        None
    }
}

/// The number of arguments that a word writes.
pub(crate) fn read_arity(word: &[u8]) -> Option<u8>
    ensures { Reads IsArity decimal word.now result }
{
    let Some(number) = read_number(word) else {
        return None;
    };
    if number < 256 {
        Some(number as u8)
    } else {
        None
    }
}

/// The integer that a word writes.
pub(crate) fn read_integer(word: &[u8]) -> Option<i64>
    ensures { Reads IsInteger signed_decimal word.now result }
{
    let Ok(text) = std::str::from_utf8(word) else {
        return None;
    };
    let Ok(integer) = text.parse::<i64>() else {
        return None;
    };
    let mut buffer = Buffer::new();
    if buffer.format(integer).as_bytes() == word {
        Some(integer)
    } else {
        None
    }
}

/// The register that a word writes.
pub(crate) fn read_register(word: &[u8]) -> Option<Register>
    ensures { Reads IsSmall register_word word.now result }
{
    match word {
        [b'x', digits @ ..] => {
            let Some(number) = read_number(digits) else {
                return None;
            };
            Some(Register::X(number))
        }
        [b'y', digits @ ..] => {
            let Some(number) = read_number(digits) else {
                return None;
            };
            Some(Register::Y(number))
        }
        _ => None,
    }
}

/// The number of the argument register that a word writes.
pub(crate) fn read_argument(word: &[u8]) -> Option<usize>
    ensures { Reads IsNumber argument_word word.now result }
{
    let [b'x', digits @ ..] = word else {
        return None;
    };
    read_number(digits)
}

/// The number of the slot that a word writes.
pub(crate) fn read_slot(word: &[u8]) -> Option<usize>
    ensures { Reads IsNumber slot_word word.now result }
{
    let [b'y', digits @ ..] = word else {
        return None;
    };
    read_number(digits)
}
