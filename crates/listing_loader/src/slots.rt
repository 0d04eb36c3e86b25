//! Whether the slots of a range are in order.

ghost use Rattle.std.specs.Prelude.{◌≡◌, ◌<◌, ◌^◌};
ghost use Rattle.range_code.specs.Nodes.{node_variable};
ghost use Rattle.listing_loader.specs.Marks as marks;
ghost use Rattle.listing_loader.specs.Slots.{met_behind};

use fd_language::RangeNode;

/// The slot of a node, where it names one.
fn slot_of(node: RangeNode) -> Option<u64>
    ensures { result ≡ node_variable node }
{
    match node {
        RangeNode::Param(slot) => Some(slot),
        RangeNode::Min(slot) => Some(slot),
        RangeNode::Max(slot) => Some(slot),
        RangeNode::Val(slot) => Some(slot),
        RangeNode::Dom(slot) => Some(slot),
        _ => None,
    }
}

/// How many slots are met behind a node, where so many were met before. `None` where its slot is
/// out of order.
fn meet(met: u64, node: RangeNode) -> Option<u64>
    requires { met < 2 ^ 63 }
    ensures { result ≡ met_behind met (node_variable node) }
{
    match slot_of(node) {
        None => Some(met),
        Some(slot) => {
            if slot < met {
                return Some(met);
            }
            if slot == met {
                return Some(met + 1);
            }
            None
        }
    }
}

/// Whether slots are numbered from 0 by first occurrence.
pub(crate) fn has_slots_in_order(nodes: &[RangeNode]) -> bool
    ensures { result ≡ marks.has_slots_in_order nodes.now }
{
    let mut met = 0;
    for (index, node) in nodes.iter().enumerate() {
        let Some(more) = meet(met, *node) else {
            return false;
        };
        met = more;
    }
    true
}
