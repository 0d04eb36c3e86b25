//! Compound terms with too many arguments.

ghost use Rattle.std.specs.Prelude.{◌≡◌, ◌<◌, None, Some, length, IfErr, IfOk, OnOk};
ghost use Rattle.term_pool.specs.PlacedTerms.{placed_of};
ghost use Rattle.clause_check.specs.Causes.{IsWideRefusal};
ghost use Rattle.clause_check.specs.Terms.{lesser, IsWidePlace};

use crate::faults::{Cause, Fault};
use crate::terms::look;
use fd_language::NoMemory;
use term_pool::{Node, Pool, TermId};

/// The most arguments that a compound term of a text may have.
const MOST_ARGUMENTS: usize = 255;

/// The smallest place of a compound term with too many arguments.
pub(crate) fn wide_place(
    pool: &Pool,
    t: TermId,
    ahead: &mut Vec<TermId>,
) -> Result<Option<usize>, NoMemory>
    requires { t.number < length pool.now.entries }
    ensures { IfOk result (IsWidePlace (placed_of pool.now t)) }
{
    let mut least: Option<usize> = None;
    ahead.clear();
    ahead.push(t)?;
    while let Some(next) = ahead.pop() {
        if let Node::Comp(_, parts) = look(pool, next) {
            if parts.len() > MOST_ARGUMENTS {
                least = smaller(least, pool.place(next));
            }
            ahead.extend_from_slice(parts)?;
        }
    }
    Ok(least)
}

/// Refuses a sentence by the smallest place of a compound term with too many arguments, if it has one.
pub(crate) fn refuse_wide(place: Option<usize>) -> Result<(), Fault>
    ensures narrow { OnOk result (place ≡ None) }
    ensures fault { IfErr result (IsWideRefusal place) }
{
    match place {
        None => Ok(()),
        Some(place) => Err(Fault::Refused {
            place,
            cause: Cause::ArityOver255,
        }),
    }
}

/// The smaller of two places, where the first may not be there.
fn smaller(least: Option<usize>, place: usize) -> Option<usize>
    ensures { result ≡ Some (lesser least place) }
{
    match least {
        Some(other) => Some(other.min(place)),
        None => Some(place),
    }
}
