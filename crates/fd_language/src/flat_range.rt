//! A range as a list of nodes.

ghost use Rattle.std.specs.Prelude.{◌≡◌, MatchOption};
ghost use Rattle.fd_language.specs.PostfixRanges.{nodes_of, IsSpelled};

use crate::operand_counts::spells_range;
use crate::range_node::RangeNode;
use std::marker::Model;

/// A range as its nodes in postfix order. The list spells exactly one range.
#[derive(Drop)]
pub struct FlatRange {
    nodes: Vec<RangeNode>,
}

impl Model for FlatRange {
    ghost use Rattle.std.specs.Prelude.{◌≡◌};
    ghost use Rattle.fd_language.specs.Range.{Range};
    ghost use Rattle.std.specs.Coded.{code_by, coded_list};
    ghost use Rattle.fd_language.specs.contracts.range_node.RangeNode as node;
    ghost use Rattle.fd_language.specs.PostfixRanges.{nodes_of, spelled_range, spelled_range-nodes};

    ghost Value = { Range };

    ghost coded = { code_by _ (coded_list node.the_row.coded) nodes_of spelled_range spelled_range-nodes };

    ghost view = { λ f. spelled_range f.nodes.items };

    ghost invariant = { λ f. nodes_of (spelled_range f.nodes.items) ≡ f.nodes.items };
}

impl FlatRange {
    /// The range that the nodes spell in postfix order. `None` where they spell none.
    pub fn from_nodes(nodes: Vec<RangeNode>) -> Option<FlatRange>
        ensures { MatchOption result (IsSpelled nodes.items → ⊥) (λ f. nodes_of f ≡ nodes.items) }
    {
        if spells_range(&nodes) {
            Some(FlatRange { nodes })
        } else {
            None
        }
    }

    /// The nodes in postfix order.
    pub fn nodes(&self) -> &[RangeNode]
        ensures { result.now ≡ nodes_of self.now }
    {
        &self.nodes
    }
}
