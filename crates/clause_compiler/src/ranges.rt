//! The ranges of a program, compiled: equal ones have one code.

ghost use Rattle.std.specs.Prelude.{◌≡◌, ◌↔◌, IsTrue, map, nat_eq, option_map, IfOk, OnOk, Some};
ghost use Rattle.indexmap.specs.IndexMap.{get};

use clause_check::Program;
use fd_language::{FlatRange, NoMemory, RangeNode};
use indexmap::IndexMap;
use monotone_check::Checked;
use range_code::{RangeCode, compile_range};
use std::alloc::Global;
use std::hash::{FoldHasher, Hasher};
use std::rc::Rc;

/// A number for what the node is, and what it holds.
fn told_apart(node: RangeNode) -> (u8, u64) {
    match node {
        RangeNode::Int(value) => (0, value.cast_unsigned()),
        RangeNode::Infinity => (1, 0),
        RangeNode::Param(variable) => (2, variable),
        RangeNode::Min(variable) => (3, variable),
        RangeNode::Max(variable) => (4, variable),
        RangeNode::Val(variable) => (5, variable),
        RangeNode::Dom(variable) => (6, variable),
        RangeNode::Add => (7, 0),
        RangeNode::Sub => (8, 0),
        RangeNode::Mul => (9, 0),
        RangeNode::DivDown => (10, 0),
        RangeNode::DivUp => (11, 0),
        RangeNode::Span => (12, 0),
        RangeNode::One => (13, 0),
        RangeNode::Union => (14, 0),
        RangeNode::Inter => (15, 0),
        RangeNode::Outside => (16, 0),
        RangeNode::Plus => (17, 0),
        RangeNode::Minus => (18, 0),
        RangeNode::Times => (19, 0),
        RangeNode::Over => (20, 0),
    }
}

/// A number for the nodes, which is seldom that of others.
fn hash_of(nodes: &[RangeNode]) -> u64 {
    let mut state = FoldHasher::default();
    for node in nodes {
        let (what, held) = told_apart(*node);
        state.write_u8(what);
        state.write_u64(held);
    }
    state.finish()
}

/// Whether the nodes are the same.
fn is_same_node(a: RangeNode, b: RangeNode) -> bool
    ensures { IsTrue result ↔ (a ≡ b) }
{
    a == b
}

/// Whether the lists of nodes are the same.
fn are_same_nodes(a: &[RangeNode], b: &[RangeNode]) -> bool
    ensures { IsTrue result ↔ (a.now ≡ b.now) }
{
    if a.len() != b.len() {
        return false;
    }
    for (i, node) in a.iter().enumerate() {
        if !is_same_node(*node, b[i]) {
            return false;
        }
    }
    true
}

/// Whether the ranges are the same, with the same variables.
fn are_same(a: &FlatRange, b: &FlatRange) -> bool
    ensures { IsTrue result ↔ (a.now ≡ b.now) }
{
    are_same_nodes(a.nodes(), b.nodes())
}

/// The code of the range: that of an earlier one, if `known` has it under the hash, and else a new
/// one, which `known` has from now on. The error is want of memory.
fn code_of(
    alloc: Global,
    range: &Checked,
    hash: u64,
    known: &mut IndexMap<u64, Rc<RangeCode>>,
) -> Result<Rc<RangeCode>, NoMemory>
    ensures same { IfOk result (λ code. code.value ≡ range.now) }
    ensures known { OnOk result (option_map (λ code. code.value) (get nat_eq known.new hash)
        ≡ Some range.now) }
{
    if let Some(code) = known.get(&hash) {
        if are_same(code.range(), range.range()) {
            return Ok(code.clone()?);
        }
    }
    let code = Rc::new(alloc, compile_range(alloc, range)?)?;
    known.insert(hash, code.clone()?)?;
    Ok(code)
}

/// The ranges of a program, compiled. The error is want of memory.
pub(crate) fn ranges_of(alloc: Global, program: &Program) -> Result<Vec<Rc<RangeCode>>, NoMemory>
    ensures { IfOk result (λ v. map (λ r. r.value) v.items ≡ program.now.ranges) }
{
    let mut known = IndexMap::new(alloc);
    let mut ranges = Vec::with_capacity(alloc, program.ranges())?;
    for range in 0..program.ranges() {
        let checked = program.range(range);
        let hash = hash_of(checked.range().nodes());
        ranges.push(code_of(alloc, checked, hash, &mut known)?)?;
    }
    Ok(ranges)
}
