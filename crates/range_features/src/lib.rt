//! What a range reads of its variables.
#![tactic(auto)]

ghost use Rattle.std.specs.Prelude.{◌≡◌, ℕ, ◌||◌, not, nat_eq, IfOk, OnOk};
ghost use Rattle.std.specs.List.{list_any};
ghost use Rattle.std.specs.Option.{option_to_list};
ghost use Rattle.fd_language.specs.declared.range_node.Feature.{Feature as Read};
ghost use Rattle.fd_language.specs.Range.{from_node};
ghost use Rattle.fd_language.specs.Features.{feature_at, is_same_pair, each_once, node_features as read_by, features_of};
ghost use Rattle.range_features.specs.MetPairs.{sees, Meets};

use fd_language::{Feature, FlatRange, NoMemory, RangeNode};
use std::alloc::Global;
use std::collections::HashSet;

/// The variables that were met, by what is read of them.
#[derive(Drop)]
struct Seen {
    min: HashSet<u64>,
    max: HashSet<u64>,
    val: HashSet<u64>,
    dom: HashSet<u64>,
}

/// A variable, and whether it is new. Then it is met.
fn meet(variables: &mut HashSet<u64>, variable: u64) -> Result<bool, NoMemory>
    ensures new { IfOk result (λ new. new ≡ not (list_any (nat_eq variable) variables.old.keys)) }
    ensures seen { OnOk result ((z : ℕ) → list_any (nat_eq z) variables.new.keys
        ≡ (nat_eq z variable || list_any (nat_eq z) variables.old.keys)) }
{
    Ok(variables.insert(variable)?)
}

impl Seen {
    /// Whether what is read of the variable is new. Then it is met.
    fn add(&mut self, variable: u64, feature: Feature) -> Result<bool, NoMemory>
        ensures new { IfOk result (λ new. new ≡ not (sees self.old (variable, feature))) }
        ensures seen { OnOk result ((e : ℕ × Read) → sees self.new e
            ≡ (sees self.old e || is_same_pair e (variable, feature))) }
    {
        match feature {
            Feature::Min => meet(&mut self.min, variable),
            Feature::Max => meet(&mut self.max, variable),
            Feature::Val => meet(&mut self.val, variable),
            Feature::Dom => meet(&mut self.dom, variable),
        }
    }
}

/// What a node reads of a variable.
fn read_of(node: RangeNode) -> Option<(u64, Feature)>
    ensures { option_to_list result ≡ from_node feature_at node }
{
    match node {
        RangeNode::Min(variable) => Some((variable, Feature::Min)),
        RangeNode::Max(variable) => Some((variable, Feature::Max)),
        RangeNode::Val(variable) => Some((variable, Feature::Val)),
        RangeNode::Dom(variable) => Some((variable, Feature::Dom)),
        _ => None,
    }
}

/// Adds what the node reads, where it is new.
fn take(seen: &mut Seen, found: &mut Vec<(u64, Feature)>, node: RangeNode) -> Result<(), NoMemory>
    ensures { OnOk result (Meets node seen.old found.old.items seen.new found.new.items) }
{
    if let Some((variable, feature)) = read_of(node) {
        if seen.add(variable, feature)? {
            found.push((variable, feature))?;
        }
    }
    Ok(())
}

/// The variables that the nodes of a range read by `min`, `max`, `val` and `dom`, each with what is read of it. Each pair comes once, in
/// the order of first occurrence. The error is want of memory.
pub fn node_features(alloc: Global, nodes: &[RangeNode]) -> Result<Vec<(u64, Feature)>, NoMemory>
    ensures { IfOk result (λ v. v.items ≡ each_once (read_by nodes.now)) }
{
    let mut seen = Seen {
        min: HashSet::new(alloc),
        max: HashSet::new(alloc),
        val: HashSet::new(alloc),
        dom: HashSet::new(alloc),
    };
    let mut found = Vec::new(alloc);
    for node in nodes {
        take(&mut seen, &mut found, *node)?;
    }
    Ok(found)
}

/// The same of a range.
pub fn features(alloc: Global, range: &FlatRange) -> Result<Vec<(u64, Feature)>, NoMemory>
    ensures { IfOk result (λ v. v.items ≡ features_of range.now) }
{
    node_features(alloc, range.nodes())
}
