//! Ranges as they are posted.

ghost use Rattle.std.specs.Prelude.{◌≡◌, ◌++◌, [], ◌∷◌, IsTrue, OnOk};
ghost use Rattle.fd_language.specs.PostfixRanges.{nodes_of, spelled_range};
ghost use Rattle.fd_language.specs.RangeVerdict.{is_accepted};
ghost use Rattle.fd_model.specs.BooleanRows.{bit as bit_row};
ghost use Rattle.fd_model.specs.ProductRows.{product as product_row};
ghost use Rattle.product_bool.specs.Posts.{Posts};

use fd_language::{FlatRange, INFINITY, NoMemory, RangeNode};
use monotone_check::Checked;
use std::alloc::Global;

/// Posts the range of the nodes on a variable, behind the others. The check accepts the range.
pub(crate) fn post(
    list: &mut Vec<(u64, Checked)>,
    target: u64,
    nodes: Vec<RangeNode>,
) -> Result<(), NoMemory>
    requires spelled { nodes_of (spelled_range nodes.items) ≡ nodes.items }
    requires accepted { IsTrue (is_accepted INFINITY (spelled_range nodes.items)) }
    ensures { OnOk result
        (list.new.items ≡ list.old.items ++ (target, spelled_range nodes.items) ∷ []) }
{
    let range = FlatRange::from_nodes(nodes).unwrap();
    list.push((target, Checked::from_accepted(range)))?;
    Ok(())
}

/// Posts that a variable is 0 or 1.
pub(crate) fn post_bit(
    alloc: Global,
    list: &mut Vec<(u64, Checked)>,
    target: u64,
) -> Result<(), NoMemory>
    ensures { OnOk result (Posts (bit_row target ∷ []) list.old.items list.new.items) }
{
    let nodes = Vec::from_slice(
        alloc,
        &[RangeNode::Int(0), RangeNode::Int(1), RangeNode::Span],
    )?;
    post(list, target, nodes)
}

/// Posts that a variable is between the least and the greatest product of two.
pub(crate) fn post_product(
    alloc: Global,
    list: &mut Vec<(u64, Checked)>,
    target: u64,
    left: u64,
    right: u64,
) -> Result<(), NoMemory>
    ensures { OnOk result (Posts
        (record { target = target; range = product_row left right } ∷ [])
        list.old.items list.new.items) }
{
    let nodes = Vec::from_slice(
        alloc,
        &[
            RangeNode::Min(left),
            RangeNode::Min(right),
            RangeNode::Mul,
            RangeNode::Max(left),
            RangeNode::Max(right),
            RangeNode::Mul,
            RangeNode::Span,
        ],
    )?;
    post(list, target, nodes)
}
