//! Ranges that differ only in the names of their variables.

ghost use Rattle.std.specs.Prelude.{◌≡◌, ◌↔◌, IsTrue};

use fd_language::{Need, RangeNode};

/// Whether the nodes are the same.
fn is_same_node(a: RangeNode, b: RangeNode) -> bool
    ensures { IsTrue result ↔ (a ≡ b) }
{
    a == b
}

fn is_same_need(a: Option<Need>, b: Option<Need>) -> bool
    ensures { IsTrue result ↔ (a ≡ b) }
{
    match (a, b) {
        (None, None) => true,
        (Some(a), Some(b)) => a == b,
        _ => false,
    }
}

/// Whether the lists of nodes are the same.
pub(crate) fn are_same_nodes(a: &[RangeNode], b: &[RangeNode]) -> bool
    ensures { IsTrue result ↔ (a.now ≡ b.now) }
{
    if a.len() != b.len() {
        return false;
    }
    for (i, node) in a.iter().enumerate() {
        if !is_same_node(*node, b[i]) {
            return false;
        }
    }
    true
}

/// Whether the lists of needs are the same.
pub(crate) fn are_same_needs(a: &[Option<Need>], b: &[Option<Need>]) -> bool
    ensures { IsTrue result ↔ (a.now ≡ b.now) }
{
    if a.len() != b.len() {
        return false;
    }
    for (i, need) in a.iter().enumerate() {
        if !is_same_need(*need, b[i]) {
            return false;
        }
    }
    true
}
