//! The nodes of ranges.

ghost use Rattle.std.specs.Prelude.{◌≡◌, ◌<◌, ◌≤◌, All, drop, length, map, IfOk, MatchOption};
ghost use Rattle.listing_reader.specs.NumberBounds.{HasSize};
ghost use Rattle.listing_reader.specs.Nodes.{HasNoNode, HasNode, IsAnyForm, lone_node, node_name, nodes_words, slot_node};
ghost use Rattle.listing_reader.specs.Reading.{Reads, ReadsAs};

use crate::read_words::{read_integer, read_number};
use fd_language::{NoMemory, RangeNode};
use std::alloc::Global;

/// A node without an operand.
#[derive(Clone, Copy)]
enum LoneNode {
    Infinity,
    Add,
    Sub,
    Mul,
    DivDown,
    DivUp,
    Span,
    One,
    Union,
    Inter,
    Outside,
    Plus,
    Minus,
    Times,
    Over,
}

/// A node whose operand is a slot.
#[derive(Clone, Copy)]
enum SlotNode {
    Param,
    Min,
    Max,
    Val,
    Dom,
}

/// A node without its operand.
#[derive(Clone, Copy)]
enum NodeForm {
    Integer,
    Lone(LoneNode),
    Slot(SlotNode),
}

/// All forms.
const NODE_FORMS: [NodeForm; 21] = [
    NodeForm::Integer,
    NodeForm::Lone(LoneNode::Infinity),
    NodeForm::Lone(LoneNode::Add),
    NodeForm::Lone(LoneNode::Sub),
    NodeForm::Lone(LoneNode::Mul),
    NodeForm::Lone(LoneNode::DivDown),
    NodeForm::Lone(LoneNode::DivUp),
    NodeForm::Lone(LoneNode::Span),
    NodeForm::Lone(LoneNode::One),
    NodeForm::Lone(LoneNode::Union),
    NodeForm::Lone(LoneNode::Inter),
    NodeForm::Lone(LoneNode::Outside),
    NodeForm::Lone(LoneNode::Plus),
    NodeForm::Lone(LoneNode::Minus),
    NodeForm::Lone(LoneNode::Times),
    NodeForm::Lone(LoneNode::Over),
    NodeForm::Slot(SlotNode::Param),
    NodeForm::Slot(SlotNode::Min),
    NodeForm::Slot(SlotNode::Max),
    NodeForm::Slot(SlotNode::Val),
    NodeForm::Slot(SlotNode::Dom),
];

/// The name with which a line writes a node.
fn node_name(form: NodeForm) -> &'static [u8]
    ensures { result.now ≡ node_name form }
{
    match form {
        NodeForm::Integer => b"i",
        NodeForm::Lone(LoneNode::Infinity) => b"inf",
        NodeForm::Lone(LoneNode::Add) => b"add",
        NodeForm::Lone(LoneNode::Sub) => b"sub",
        NodeForm::Lone(LoneNode::Mul) => b"mul",
        NodeForm::Lone(LoneNode::DivDown) => b"down",
        NodeForm::Lone(LoneNode::DivUp) => b"up",
        NodeForm::Lone(LoneNode::Span) => b"span",
        NodeForm::Lone(LoneNode::One) => b"one",
        NodeForm::Lone(LoneNode::Union) => b"union",
        NodeForm::Lone(LoneNode::Inter) => b"inter",
        NodeForm::Lone(LoneNode::Outside) => b"outside",
        NodeForm::Lone(LoneNode::Plus) => b"plus",
        NodeForm::Lone(LoneNode::Minus) => b"minus",
        NodeForm::Lone(LoneNode::Times) => b"times",
        NodeForm::Lone(LoneNode::Over) => b"over",
        NodeForm::Slot(SlotNode::Param) => b"p",
        NodeForm::Slot(SlotNode::Min) => b"min",
        NodeForm::Slot(SlotNode::Max) => b"max",
        NodeForm::Slot(SlotNode::Val) => b"val",
        NodeForm::Slot(SlotNode::Dom) => b"dom",
    }
}

/// The form whose name a word is.
fn read_node_form(word: &[u8]) -> Option<NodeForm>
    ensures { Reads IsAnyForm node_name word.now result }
{
    for form in NODE_FORMS {
        if node_name(form) == word {
            return Some(form);
        }
    }
    None
}

/// The node of a form without an operand.
fn lone_node(form: LoneNode) -> RangeNode
    ensures { result ≡ lone_node form }
{
    match form {
        LoneNode::Infinity => RangeNode::Infinity,
        LoneNode::Add => RangeNode::Add,
        LoneNode::Sub => RangeNode::Sub,
        LoneNode::Mul => RangeNode::Mul,
        LoneNode::DivDown => RangeNode::DivDown,
        LoneNode::DivUp => RangeNode::DivUp,
        LoneNode::Span => RangeNode::Span,
        LoneNode::One => RangeNode::One,
        LoneNode::Union => RangeNode::Union,
        LoneNode::Inter => RangeNode::Inter,
        LoneNode::Outside => RangeNode::Outside,
        LoneNode::Plus => RangeNode::Plus,
        LoneNode::Minus => RangeNode::Minus,
        LoneNode::Times => RangeNode::Times,
        LoneNode::Over => RangeNode::Over,
    }
}

/// The node of a form with a slot.
fn slot_node(form: SlotNode, slot: u64) -> RangeNode
    ensures { result ≡ slot_node form slot }
{
    match form {
        SlotNode::Param => RangeNode::Param(slot),
        SlotNode::Min => RangeNode::Min(slot),
        SlotNode::Max => RangeNode::Max(slot),
        SlotNode::Val => RangeNode::Val(slot),
        SlotNode::Dom => RangeNode::Dom(slot),
    }
}

/// The node with which words begin, and how many words it has.
fn next_node(words: &[&[u8]]) -> Option<(RangeNode, usize)>
    ensures { MatchOption result (HasNoNode (map (λ w. w.now) words.now))
        (λ x. HasNode (map (λ w. w.now) words.now) x.0 (map (λ w. w.now) (drop x.1 words.now))
        × (x.1 ≤ length words.now) × (0 < x.1)) }
{
    let [name, behind @ ..] = words else {
        return None;
    };
    let Some(form) = read_node_form(name) else {
        return None;
    };
    match form {
        NodeForm::Lone(lone) => Some((lone_node(lone), 1)),
        NodeForm::Integer => {
            let [operand, ..] = behind else {
                return None;
            };
            let Some(integer) = read_integer(operand) else {
                return None;
            };
            Some((RangeNode::Int(integer), 2))
        }
        NodeForm::Slot(slotted) => {
            let [operand, ..] = behind else {
                return None;
            };
            let Some(slot) = read_number(operand) else {
                return None;
            };
            Some((slot_node(slotted, slot as u64), 2))
        }
    }
}

/// The nodes that words write.
pub(crate) fn read_nodes(alloc: Global, words: &[&[u8]]) -> Result<Option<Vec<RangeNode>>, NoMemory>
    ensures { IfOk result (λ r. ReadsAs (λ v. v.items) (All HasSize) nodes_words
        (map (λ w. w.now) words.now) r) }
{
    let mut nodes = Vec::new(alloc);
    let mut rest = words;
    while !rest.is_empty() {
        let Some((node, size)) = next_node(rest) else {
            return Ok(None);
        };
        nodes.push(node)?;
        rest = &rest[size..];
    }
    Ok(Some(nodes))
}
