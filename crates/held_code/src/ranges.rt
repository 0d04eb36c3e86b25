//! The numbers of ranges.

ghost use Rattle.std.specs.Prelude.{All, IsTrue, length, map};
ghost use Rattle.fd_language.specs.declared.TheConstants.{INFINITY};
ghost use Rattle.fd_language.specs.PostfixRanges.{nodes_of};
ghost use Rattle.fd_language.specs.RangeVerdict.{is_accepted};
ghost use Rattle.range_code.specs.Slots.{in_slots};
ghost use Rattle.listing_reader.specs.NumberBounds.{HasSize, IsNumber};

use fd_language::RangeNode;
use range_code::RangeCode;
use std::rc::Rc;

/// That of a node.
fn hold_node(node: RangeNode)
    ensures { HasSize node }
{}

/// Those of nodes.
fn hold_nodes(nodes: &[RangeNode])
    ensures { All HasSize nodes.now }
{
    for node in nodes {
        hold_node(*node);
    }
}

/// How many slots there are.
fn hold_slots(slots: &[u64])
    ensures { IsNumber (length slots.now) }
{}

/// Those of a range in slots, which can be posted.
fn hold_range(range: &RangeCode)
    ensures nodes { All HasSize (nodes_of (in_slots range.now)) }
    ensures accepted { IsTrue (is_accepted INFINITY range.now) }
{
    hold_nodes(range.range().nodes());
    hold_slots(range.slots());
    let _features = range.features();
}

/// Those of ranges.
pub(crate) fn hold_ranges(ranges: &[Rc<RangeCode>])
    ensures nodes { All (All HasSize) (map (λ r. nodes_of (in_slots r))
        (map (λ r. r.value) ranges.now)) }
    ensures accepted { All (λ r. IsTrue (is_accepted INFINITY r)) (map (λ r. r.value) ranges.now) }
    ensures count { IsNumber (length (map (λ r. nodes_of (in_slots r))
        (map (λ r. r.value) ranges.now))) }
{
    for (index, range) in ranges.iter().enumerate() {
        hold_range(range);
    }
}
