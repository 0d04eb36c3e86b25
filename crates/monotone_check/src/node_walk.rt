//! The check of a whole range, node by node.

ghost use Rattle.std.specs.Prelude.{◌≡◌, ℕ, ◌-◌, length, slice_index, IfOk};
ghost use Rattle.fd_language.specs.PostfixRanges.{spelled_range, IsSpelled};
ghost use Rattle.fd_language.specs.RangeVerdict.{range_size};
ghost use Rattle.monotone_check.specs.Summary.{IsRange};

use crate::pending_checks::Pending;
use crate::summary::RangeCheck;
use fd_language::{INFINITY, NoMemory, RangeNode};
use std::alloc::Global;

/// What is kept of the range that the nodes spell.
pub(crate) fn summarize(
    alloc: Global,
    nodes: &[RangeNode],
    places: &[usize],
) -> Result<RangeCheck, NoMemory>
    requires spelled { IsSpelled nodes.now }
    requires placed { length places.now ≡ length nodes.now }
    ensures { IfOk result (λ s. IsRange INFINITY (λ n. slice_index places.now n)
        (range_size (spelled_range nodes.now) - 1) (spelled_range nodes.now) s) }
{
    let mut pending = Pending::new(alloc);
    for (number, node) in nodes.iter().enumerate() {
        pending.take(*node, places[number])?;
    }
    Ok(pending.ranges.pop().unwrap())
}
