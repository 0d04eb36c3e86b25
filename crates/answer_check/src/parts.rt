//! The two parts of an input.

ghost use Rattle.std.specs.Prelude.{◌≡◌, None, MatchOption};
ghost use Rattle.answer_check.specs.Parts.{parts_of};
ghost use Rattle.answer_check.specs.InputSplit.{IsSplitAt};

use byte_ports::first_line;

/// The line that begins the second part.
pub(crate) const QUERY_LINE: &[u8] = b"query 1\n";

/// The place of the first line that begins the second part.
pub(crate) fn query_place(input: &[u8]) -> Option<usize>
    ensures { MatchOption result (parts_of input.now ≡ None) (IsSplitAt input.now) }
{
    let mut at = 0;
    while at < input.len() {
        let line = first_line(&input[at..]);
        if line == QUERY_LINE {
            return Some(at);
        }
        at += line.len();
    }
    None
}
