//! Ranges made ready: slots in place of variables, what is read of them, and what they need.

ghost use Rattle.std.specs.Prelude.{◌≡◌, ◌<◌, ◌-◌, ◌^◌, ◌||◌, ℕ, nat_eq, List, [], ◌∷◌, ◌++◌, map, filter, IfOk, OnOk};
ghost use Rattle.std.specs.List.{list_any, position_or_len};
ghost use Rattle.std.specs.Option.{option_to_list};
ghost use Rattle.indexmap.specs.IndexMap.{get};
ghost use Rattle.fd_language.specs.declared.range_node.Feature.TheVariants as Told;
ghost use Rattle.fd_language.specs.Features.{each_once, is_same_feature, is_same_pair, node_features as read_by};
ghost use Rattle.range_code.specs.Nodes.{node_variable, node_variables, rename_node};
ghost use Rattle.range_code.specs.ParameterNeeds.{need_in};
ghost use Rattle.fd_language.specs.Family.{count_up};
ghost use Rattle.range_code.specs.ValSlots.{has_pair};
ghost use Rattle.range_code.specs.Heights.{values_after, sets_after, tallest};
ghost use Rattle.range_code.specs.Pieces.{piece_node};
ghost use Rattle.range_code.specs.SlotNumbering.{IsNumbered};
ghost use Rattle.fd_language.specs.Needs.{once, needs as asked_by};

use crate::fold::Piece;
use fd_language::{Feature, FlatRange, Need, NoMemory, RangeNode};
use indexmap::{IndexMap, IndexSet};
use monotone_check::{Checked, needs};
use range_features::node_features;
use std::alloc::Global;
use std::collections::HashSet;

/// The variables of a range by their slots, and the slots by their variables.
#[derive(Drop)]
pub(crate) struct Numbered {
    pub slots: Vec<u64>,
    pub numbers: IndexSet<u64>,
}

/// The variables of nodes by their slots, and the nodes with slots in place of variables.
#[derive(Drop)]
pub(crate) struct Slotted {
    pub slots: Vec<u64>,
    pub nodes: Vec<RangeNode>,
}

/// What nodes read of their slots: the pairs of a slot and a feature, and the slots that are read by val.
#[derive(Drop)]
pub(crate) struct Reads {
    pub features: Vec<(usize, Feature)>,
    pub vals: Vec<usize>,
}

/// The same range once more.
pub(crate) fn copy_range(alloc: Global, range: &FlatRange) -> Result<FlatRange, NoMemory>
    ensures { IfOk result (λ copy. copy ≡ range.now) }
{
    let nodes = Vec::from_slice(alloc, range.nodes())?;
    Ok(FlatRange::from_nodes(nodes).unwrap())
}

fn variable_of(node: RangeNode) -> Option<u64>
    ensures { result ≡ node_variable node }
{
    match node {
        RangeNode::Param(variable) => Some(variable),
        RangeNode::Min(variable) => Some(variable),
        RangeNode::Max(variable) => Some(variable),
        RangeNode::Val(variable) => Some(variable),
        RangeNode::Dom(variable) => Some(variable),
        _ => None,
    }
}

impl Numbered {
    fn new(alloc: Global) -> Numbered
        ensures { IsNumbered [] result }
    {
        Numbered {
            slots: Vec::new(alloc),
            numbers: IndexSet::new(alloc),
        }
    }

    /// Gives the variable a slot, if it has none.
    fn add(&mut self, variable: u64) -> Result<(), NoMemory>
        ensures { OnOk result ((xs : List ℕ) → IsNumbered xs self.old → IsNumbered
            (xs ++ variable ∷ []) self.new) }
    {
        if self.numbers.insert(variable)? {
            self.slots.push(variable)?;
        }
        Ok(())
    }

    /// Gives the node's variable a slot.
    fn add_node(&mut self, node: RangeNode) -> Result<(), NoMemory>
        ensures { OnOk result ((xs : List ℕ) → IsNumbered xs self.old → IsNumbered
            (xs ++ option_to_list (node_variable node)) self.new) }
    {
        match variable_of(node) {
            Some(variable) => self.add(variable),
            None => Ok(()),
        }
    }
}

/// Gives each variable of the nodes a slot, in the order of first occurrence.
fn number_variables(alloc: Global, nodes: &[RangeNode]) -> Result<Numbered, NoMemory>
    ensures { IfOk result (IsNumbered (node_variables nodes.now)) }
{
    let mut numbered = Numbered::new(alloc);
    for node in nodes {
        numbered.add_node(*node)?;
    }
    Ok(numbered)
}

fn slot(numbers: &IndexSet<u64>, variable: u64) -> u64
    ensures { result ≡ position_or_len (nat_eq variable) numbers.now.keys }
{
    match numbers.get_index_of(&variable) {
        Some(slot) => slot as u64,
        None => numbers.len() as u64,
    }
}

/// The node with its variable's slot in place of the variable.
fn name_slot(node: RangeNode, numbers: &IndexSet<u64>) -> RangeNode
    ensures { result ≡ rename_node (λ y. position_or_len (nat_eq y) numbers.now.keys) node }
{
    match node {
        RangeNode::Param(variable) => RangeNode::Param(slot(numbers, variable)),
        RangeNode::Min(variable) => RangeNode::Min(slot(numbers, variable)),
        RangeNode::Max(variable) => RangeNode::Max(slot(numbers, variable)),
        RangeNode::Val(variable) => RangeNode::Val(slot(numbers, variable)),
        RangeNode::Dom(variable) => RangeNode::Dom(slot(numbers, variable)),
        _ => node,
    }
}

/// The nodes with slots in place of variables.
fn name_slots(
    alloc: Global,
    nodes: &[RangeNode],
    numbers: &IndexSet<u64>,
) -> Result<Vec<RangeNode>, NoMemory>
    ensures { IfOk result
        (λ v. v.items ≡ map (rename_node (λ y. position_or_len (nat_eq y) numbers.now.keys))
        nodes.now) }
{
    let mut named = Vec::with_capacity(alloc, nodes.len())?;
    for node in nodes {
        named.push(name_slot(*node, numbers))?;
    }
    Ok(named)
}

/// The nodes with slots in place of variables, and the variables of the slots.
pub(crate) fn put_in_slots(alloc: Global, nodes: &[RangeNode]) -> Result<Slotted, NoMemory>
    ensures slots { IfOk result (λ put. put.slots.items ≡ once (node_variables nodes.now)) }
    ensures nodes { IfOk result (λ put. put.nodes.items
        ≡ map (rename_node (λ y. position_or_len (nat_eq y) put.slots.items)) nodes.now) }
{
    let numbered = number_variables(alloc, nodes)?;
    let named = name_slots(alloc, nodes, &numbered.numbers)?;
    Ok(Slotted {
        slots: numbered.slots,
        nodes: named,
    })
}

/// The pairs with slots as numbers of a list's places.
fn by_slot(alloc: Global, pairs: &[(u64, Feature)]) -> Result<Vec<(usize, Feature)>, NoMemory>
    ensures { IfOk result (λ v. v.items ≡ pairs.now) }
{
    let mut slots = Vec::with_capacity(alloc, pairs.len())?;
    for (slot, feature) in pairs {
        slots.push((*slot as usize, *feature))?;
    }
    Ok(slots)
}

/// What the nodes read, each pair of a slot and a feature once, in the order of first occurrence.
fn read_slots(alloc: Global, nodes: &[RangeNode]) -> Result<Vec<(usize, Feature)>, NoMemory>
    ensures { IfOk result (λ v. v.items ≡ each_once (read_by nodes.now)) }
{
    let pairs = node_features(alloc, nodes)?;
    by_slot(alloc, &pairs)
}

fn is_same(a: Feature, b: Feature) -> bool
    ensures { result ≡ is_same_feature a b }
{
    match a {
        Feature::Min => matches!(b, Feature::Min),
        Feature::Max => matches!(b, Feature::Max),
        Feature::Val => matches!(b, Feature::Val),
        Feature::Dom => matches!(b, Feature::Dom),
    }
}

/// Adds the slot of a pair, where the feature is the wanted one.
fn meet(
    met: &mut HashSet<usize>,
    slot: usize,
    feature: Feature,
    wanted: Feature,
) -> Result<(), NoMemory>
    ensures { OnOk result ((z : ℕ) → list_any (nat_eq z) met.new.keys
        ≡ (is_same_pair (z, wanted) (slot, feature) || list_any (nat_eq z) met.old.keys)) }
{
    if is_same(wanted, feature) {
        met.insert(slot)?;
    }
    Ok(())
}

/// The slots that are read with the feature.
fn slots_with(
    alloc: Global,
    features: &[(usize, Feature)],
    wanted: Feature,
) -> Result<HashSet<usize>, NoMemory>
    ensures { IfOk result (λ s. (z : ℕ) → list_any (nat_eq z) s.keys ≡ has_pair features.now
        (z, wanted)) }
{
    let mut met = HashSet::new(alloc);
    for (slot, feature) in features {
        meet(&mut met, *slot, *feature, wanted)?;
    }
    Ok(met)
}

/// The slots below the number that are read by val.
fn vals_of(alloc: Global, val: &HashSet<usize>, count: usize) -> Result<Vec<usize>, NoMemory>
    ensures { IfOk result (λ v. v.items ≡ filter (λ s. list_any (nat_eq s) val.now.keys)
        (count_up 0 count)) }
{
    let mut vals = Vec::new(alloc);
    for slot in 0..count {
        if val.contains(&slot) {
            vals.push(slot)?;
        }
    }
    Ok(vals)
}

/// The slots below the number that are read by val.
fn read_vals(
    alloc: Global,
    features: &[(usize, Feature)],
    count: usize,
) -> Result<Vec<usize>, NoMemory>
    ensures { IfOk result (λ v. v.items ≡ filter (λ s. has_pair features.now (s, Told.Val))
        (count_up 0 count)) }
{
    let val = slots_with(alloc, features, Feature::Val)?;
    vals_of(alloc, &val, count)
}

/// What the nodes read of so many slots.
pub(crate) fn reads_of(alloc: Global, nodes: &[RangeNode], count: usize) -> Result<Reads, NoMemory>
    ensures features { IfOk result (λ reads. reads.features.items
        ≡ each_once (read_by nodes.now)) }
    ensures vals { IfOk result (λ reads. reads.vals.items
        ≡ filter (λ s. has_pair reads.features.items (s, Told.Val)) (count_up 0 count)) }
{
    let features = read_slots(alloc, nodes)?;
    let vals = read_vals(alloc, &features, count)?;
    Ok(Reads { features, vals })
}

/// How many values wait behind the piece, where so many wait before it.
fn values_behind(piece: Piece, n: usize) -> usize
    requires { n < 2 ^ 64 - 1 }
    ensures { result ≡ values_after (piece_node piece) n }
{
    let node = match piece {
        Piece::Literal(_) => return n + 1,
        Piece::Other(node) => node,
    };
    match node {
        RangeNode::Int(_)
        | RangeNode::Infinity
        | RangeNode::Param(_)
        | RangeNode::Min(_)
        | RangeNode::Max(_)
        | RangeNode::Val(_) => n + 1,
        RangeNode::Span => n.saturating_sub(2),
        RangeNode::Dom(_) | RangeNode::Union | RangeNode::Inter | RangeNode::Outside => n,
        _ => n.saturating_sub(1),
    }
}

/// How many sets wait behind the piece, where so many wait before it.
fn sets_behind(piece: Piece, n: usize) -> usize
    requires { n < 2 ^ 64 - 1 }
    ensures { result ≡ sets_after (piece_node piece) n }
{
    match piece {
        Piece::Other(RangeNode::Span | RangeNode::One | RangeNode::Dom(_)) => n + 1,
        Piece::Other(RangeNode::Union | RangeNode::Inter) => n.saturating_sub(1),
        _ => n,
    }
}

/// The greatest number of values, or of sets, that wait while the pieces are evaluated.
pub(crate) fn height_of(pieces: &[Piece]) -> usize
    ensures { result ≡ tallest (map piece_node pieces.now) }
{
    let mut values: usize = 0;
    let mut sets: usize = 0;
    let mut height: usize = 0;
    for piece in pieces {
        values = values_behind(*piece, values);
        sets = sets_behind(*piece, sets);
        height = height.max(values).max(sets);
    }
    height
}

/// The needs by their parameters.
fn needs_by_variable(alloc: Global, needs: &[(u64, Need)]) -> Result<IndexMap<u64, Need>, NoMemory>
    ensures { IfOk result (λ m. (y : ℕ) → get nat_eq m y ≡ need_in needs.now y) }
{
    let mut found = IndexMap::new(alloc);
    for (variable, need) in needs {
        found.insert(*variable, *need)?;
    }
    Ok(found)
}

/// The need of each variable that the table has, in the order of the slots.
fn needs_found(
    alloc: Global,
    slots: &[u64],
    found: &IndexMap<u64, Need>,
) -> Result<Vec<Option<Need>>, NoMemory>
    ensures { IfOk result (λ v. v.items ≡ map (get nat_eq found.now) slots.now) }
{
    let mut by_slot = Vec::with_capacity(alloc, slots.len())?;
    for variable in slots {
        by_slot.push(found.get(variable).copied())?;
    }
    Ok(by_slot)
}

/// The need of each variable that has one.
fn slot_needs_of(
    alloc: Global,
    slots: &[u64],
    needs: &[(u64, Need)],
) -> Result<Vec<Option<Need>>, NoMemory>
    ensures { IfOk result (λ v. v.items ≡ map (need_in needs.now) slots.now) }
{
    let found = needs_by_variable(alloc, needs)?;
    needs_found(alloc, slots, &found)
}

/// What the range needs of the variables of its slots.
pub(crate) fn needs_of_slots(
    alloc: Global,
    c: &Checked,
    slots: &[u64],
) -> Result<Vec<Option<Need>>, NoMemory>
    ensures { IfOk result (λ v. v.items ≡ map (need_in (asked_by c.now)) slots.now) }
{
    let asked = needs(alloc, c)?;
    slot_needs_of(alloc, slots, &asked)
}
