//! The nodes of a range, with its slots in place of its variables.

ghost use Rattle.std.specs.Prelude.{◌≡◌, ◌++◌, ℕ, List, nat_eq, map, IfOk, OnOk};
ghost use Rattle.std.specs.List.{position_or_len};
ghost use Rattle.std.specs.Option.{option_to_list};
ghost use Rattle.fd_language.specs.PostfixRanges.{nodes_of};
ghost use Rattle.fd_language.specs.Needs.{once};
ghost use Rattle.range_code.specs.Nodes.{node_variable, node_variables, rename_node};
ghost use Rattle.range_code.specs.Slots.{in_slots};

use fd_language::{NoMemory, RangeNode};
use indexmap::IndexSet;
use range_code::RangeCode;
use std::alloc::Global;

/// The variable of a node, where it names one.
pub(crate) fn variable_of(node: RangeNode) -> Option<u64>
    ensures { result ≡ node_variable node }
{
    match node {
        RangeNode::Param(variable) => Some(variable),
        RangeNode::Min(variable) => Some(variable),
        RangeNode::Max(variable) => Some(variable),
        RangeNode::Val(variable) => Some(variable),
        RangeNode::Dom(variable) => Some(variable),
        _ => None,
    }
}

/// Puts the variable of a node with the others.
fn put_variable(met: &mut IndexSet<u64>, node: RangeNode) -> Result<(), NoMemory>
    ensures { OnOk result ((xs : List ℕ) → met.old.keys ≡ once xs
        → met.new.keys ≡ once (xs ++ option_to_list (node_variable node))) }
{
    match variable_of(node) {
        Some(variable) => {
            met.insert(variable)?;
            Ok(())
        }
        None => Ok(()),
    }
}

/// The variables of nodes, in the order of first occurrence.
fn variables_of(alloc: Global, nodes: &[RangeNode]) -> Result<IndexSet<u64>, NoMemory>
    ensures { IfOk result (λ met. met.keys ≡ once (node_variables nodes.now)) }
{
    let mut met = IndexSet::new(alloc);
    for node in nodes {
        put_variable(&mut met, *node)?;
    }
    Ok(met)
}

/// The slot of a variable.
fn slot_of(met: &IndexSet<u64>, variable: u64) -> u64
    ensures { result ≡ position_or_len (nat_eq variable) met.now.keys }
{
    match met.get_index_of(&variable) {
        Some(slot) => slot as u64,
        None => met.len() as u64,
    }
}

/// The node with its variable's slot in place of the variable.
fn in_slot(met: &IndexSet<u64>, node: RangeNode) -> RangeNode
    ensures { result ≡ rename_node (λ y. position_or_len (nat_eq y) met.now.keys) node }
{
    match node {
        RangeNode::Param(variable) => RangeNode::Param(slot_of(met, variable)),
        RangeNode::Min(variable) => RangeNode::Min(slot_of(met, variable)),
        RangeNode::Max(variable) => RangeNode::Max(slot_of(met, variable)),
        RangeNode::Val(variable) => RangeNode::Val(slot_of(met, variable)),
        RangeNode::Dom(variable) => RangeNode::Dom(slot_of(met, variable)),
        _ => node,
    }
}

/// The nodes with slots in place of variables.
fn put_in_slots(
    alloc: Global,
    nodes: &[RangeNode],
    met: &IndexSet<u64>,
) -> Result<Vec<RangeNode>, NoMemory>
    ensures { IfOk result
        (λ v. v.items ≡ map (rename_node (λ y. position_or_len (nat_eq y) met.now.keys))
        nodes.now) }
{
    let mut named = Vec::with_capacity(alloc, nodes.len())?;
    for node in nodes {
        named.push(in_slot(met, *node))?;
    }
    Ok(named)
}

/// The nodes of a range, with its slots in place of its variables.
pub(crate) fn slot_nodes(alloc: Global, range: &RangeCode) -> Result<Vec<RangeNode>, NoMemory>
    ensures { IfOk result (λ v. v.items ≡ nodes_of (in_slots range.now)) }
{
    let nodes = range.range().nodes();
    let met = variables_of(alloc, nodes)?;
    let named = put_in_slots(alloc, nodes, &met)?;
    Ok(named)
}
