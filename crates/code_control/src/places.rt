//! Places of code.

ghost use Rattle.std.specs.Prelude.{◌<◌, length};
ghost use Rattle.wam_code.specs.Area.{HasEntry};

use wam_code::{CodeArea, Entry};

/// The predicate with this number.
#[inline(always)]
pub(crate) fn entry_of(code: &CodeArea, e: usize) -> Entry
    requires { e < length code.now.entries }
    ensures { HasEntry code.now e result }
{
    code.parts().entries[e]
}
