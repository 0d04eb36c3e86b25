//! Literals folded: a term made of integers, `infinity`, `+`, `-` and `*` becomes one integer.

ghost use Rattle.std.specs.Prelude.{◌≡◌, [], reverse, fold, IfOk, OnOk};
ghost use Rattle.range_code.specs.Pieces.{combined as combined_as, joined, taken as taken_behind, top_literal, under_literal};

use fd_language::{INFINITY, NoMemory, RangeNode};
use std::alloc::Global;

/// A literal by its value, or a node that belongs to none.
#[derive(Clone, Copy)]
pub(crate) enum Piece {
    Literal(i128),
    Other(RangeNode),
}

/// The sum, difference or product of two literals. The values of an accepted range need fewer than 128 bits, so nothing wraps.
fn combined(node: RangeNode, a: i128, b: i128) -> i128
    ensures { result ≡ combined_as node a b }
{
    match node {
        RangeNode::Add => a.wrapping_add(b),
        RangeNode::Sub => a.wrapping_sub(b),
        RangeNode::Mul => a.wrapping_mul(b),
        _ => 0,
    }
}

/// Takes the last piece away, where it is a literal.
fn pop_literal(pieces: &mut Vec<Piece>) -> Result<Option<i128>, NoMemory>
    ensures value { IfOk result (λ o. o ≡ top_literal (reverse pieces.old.items)) }
    ensures left { OnOk result (reverse pieces.new.items
        ≡ under_literal (reverse pieces.old.items)) }
{
    match pieces.pop() {
        Some(Piece::Literal(value)) => Ok(Some(value)),
        Some(Piece::Other(node)) => {
            pieces.push(Piece::Other(node))?;
            Ok(None)
        }
        None => Ok(None),
    }
}

/// Takes an operator of terms: that of two literals is a literal.
fn add_operator(pieces: &mut Vec<Piece>, node: RangeNode) -> Result<(), NoMemory>
    ensures { OnOk result (reverse pieces.new.items ≡ joined node (reverse pieces.old.items)) }
{
    if let Some(b) = pop_literal(pieces)? {
        if let Some(a) = pop_literal(pieces)? {
            pieces.push(Piece::Literal(combined(node, a, b)))?;
            return Ok(());
        }
        pieces.push(Piece::Literal(b))?;
    }
    pieces.push(Piece::Other(node))?;
    Ok(())
}

/// Takes one more node.
fn add_node(pieces: &mut Vec<Piece>, node: RangeNode) -> Result<(), NoMemory>
    ensures { OnOk result (reverse pieces.new.items
        ≡ taken_behind (reverse pieces.old.items) node) }
{
    match node {
        RangeNode::Int(value) => pieces.push(Piece::Literal(value as i128))?,
        RangeNode::Infinity => pieces.push(Piece::Literal(INFINITY as i128))?,
        RangeNode::Add | RangeNode::Sub | RangeNode::Mul => add_operator(pieces, node)?,
        _ => pieces.push(Piece::Other(node))?,
    }
    Ok(())
}

/// The pieces of a range, each literal as one: the largest terms that are literals.
pub(crate) fn fold_literals(alloc: Global, nodes: &[RangeNode]) -> Result<Vec<Piece>, NoMemory>
    ensures { IfOk result (λ pieces. reverse pieces.items ≡ fold taken_behind [] nodes.now) }
{
    let mut pieces = Vec::new(alloc);
    for node in nodes {
        add_node(&mut pieces, *node)?;
    }
    Ok(pieces)
}
