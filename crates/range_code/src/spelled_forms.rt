//! The forms of ranges that all their nodes tell: those of a counter, of the variable whose number is counted, and of the products and
//! the quotients of two variables.

ghost use Rattle.std.specs.Prelude.{◌≡◌, IfSome};
ghost use Rattle.fd_language.specs.PostfixRanges.{nodes_of};
ghost use Rattle.fd_language.specs.Range.{Range};
ghost use Rattle.range_code.specs.Forms.{IsEvaluation, IsShifted};
ghost use Rattle.range_code.specs.SpelledRanges.{counter_range, counted_range, products_range, quotients_range, disjunction_range};

use crate::form::Evaluation;
use crate::renamed_ranges::are_same_nodes;
use fd_language::{INFINITY, RangeNode};

/// The nodes of the counter of a number in a slot.
fn counter_nodes(value: i64, slot: u64) -> [RangeNode; 16]
    ensures { result ≡ nodes_of (counter_range value slot) }
{
    use RangeNode::*;
    [
        Int(value),
        One,
        Dom(slot),
        Inter,
        Int(0),
        Times,
        Int(1),
        Plus,
        Int(value),
        One,
        Outside,
        Dom(slot),
        Inter,
        Int(0),
        Times,
        Union,
    ]
}

/// The nodes of the variable whose number is counted in a slot.
fn counted_nodes(value: i64, slot: u64) -> [RangeNode; 35]
    ensures { result ≡ nodes_of (counted_range value slot) }
{
    use RangeNode::*;
    [
        Int(value),
        Int(value),
        Max(slot),
        Int(1),
        Sub,
        Infinity,
        Int(1),
        Add,
        Mul,
        Add,
        Span,
        Int(value),
        Int(1),
        Add,
        Min(slot),
        Infinity,
        Int(1),
        Add,
        Mul,
        Add,
        Infinity,
        Span,
        Union,
        Int(0),
        Int(value),
        Int(1),
        Sub,
        Min(slot),
        Infinity,
        Int(1),
        Add,
        Mul,
        Sub,
        Span,
        Union,
    ]
}

/// The form of a counter's range.
fn counter_form(nodes: &[RangeNode]) -> Option<Evaluation>
    ensures form { IfSome result
        (λ form. (r : Range) → nodes.now ≡ nodes_of r → IsEvaluation r form) }
    ensures unshifted { IfSome result (λ form. IsShifted form → ⊥) }
{
    let [first, _, third, ..] = nodes else {
        return None;
    };
    let RangeNode::Int(value) = *first else {
        return None;
    };
    let RangeNode::Dom(slot) = *third else {
        return None;
    };
    if !are_same_nodes(nodes, &counter_nodes(value, slot)) {
        return None;
    }
    Some(Evaluation::Counter(value, slot as usize))
}

/// The form of a counted variable's range, for a number of the universe.
fn counted_form(nodes: &[RangeNode]) -> Option<Evaluation>
    ensures form { IfSome result
        (λ form. (r : Range) → nodes.now ≡ nodes_of r → IsEvaluation r form) }
    ensures unshifted { IfSome result (λ form. IsShifted form → ⊥) }
{
    let [first, _, third, ..] = nodes else {
        return None;
    };
    let RangeNode::Int(value) = *first else {
        return None;
    };
    let RangeNode::Max(slot) = *third else {
        return None;
    };
    if value < 0 || value > INFINITY as i64 {
        return None;
    }
    if !are_same_nodes(nodes, &counted_nodes(value, slot)) {
        return None;
    }
    Some(Evaluation::Counted(value, slot as usize))
}

/// The nodes of the products of two slots.
fn products_nodes(one: u64, other: u64) -> [RangeNode; 7]
    ensures { result ≡ nodes_of (products_range one other) }
{
    use RangeNode::*;
    [Min(one), Min(other), Mul, Max(one), Max(other), Mul, Span]
}

/// The nodes of the quotients of two slots.
fn quotients_nodes(one: u64, other: u64) -> [RangeNode; 7]
    ensures { result ≡ nodes_of (quotients_range one other) }
{
    use RangeNode::*;
    [
        Min(one),
        Max(other),
        DivUp,
        Max(one),
        Min(other),
        DivDown,
        Span,
    ]
}

/// The form of the range of all products of two variables.
fn products_form(nodes: &[RangeNode]) -> Option<Evaluation>
    ensures form { IfSome result
        (λ form. (r : Range) → nodes.now ≡ nodes_of r → IsEvaluation r form) }
    ensures unshifted { IfSome result (λ form. IsShifted form → ⊥) }
{
    let [first, second, ..] = nodes else {
        return None;
    };
    let RangeNode::Min(one) = *first else {
        return None;
    };
    let RangeNode::Min(other) = *second else {
        return None;
    };
    if !are_same_nodes(nodes, &products_nodes(one, other)) {
        return None;
    }
    Some(Evaluation::Products(one as usize, other as usize))
}

/// The form of the range of all quotients of two variables.
fn quotients_form(nodes: &[RangeNode]) -> Option<Evaluation>
    ensures form { IfSome result
        (λ form. (r : Range) → nodes.now ≡ nodes_of r → IsEvaluation r form) }
    ensures unshifted { IfSome result (λ form. IsShifted form → ⊥) }
{
    let [first, second, ..] = nodes else {
        return None;
    };
    let RangeNode::Min(one) = *first else {
        return None;
    };
    let RangeNode::Max(other) = *second else {
        return None;
    };
    if !are_same_nodes(nodes, &quotients_nodes(one, other)) {
        return None;
    }
    Some(Evaluation::Quotients(one as usize, other as usize))
}

/// The nodes of what tells of the disjunction of two slots.
fn disjunction_nodes(one: u64, other: u64) -> [RangeNode; 13]
    ensures { result ≡ nodes_of (disjunction_range one other) }
{
    use RangeNode::*;
    [
        Min(one),
        Min(other),
        Add,
        Int(2),
        DivUp,
        Max(one),
        Max(other),
        Add,
        Span,
        Int(0),
        Int(1),
        Span,
        Inter,
    ]
}

/// The form of the range that tells of the disjunction of two variables.
fn disjunction_form(nodes: &[RangeNode]) -> Option<Evaluation>
    ensures form { IfSome result
        (λ form. (r : Range) → nodes.now ≡ nodes_of r → IsEvaluation r form) }
    ensures unshifted { IfSome result (λ form. IsShifted form → ⊥) }
{
    let [first, second, ..] = nodes else {
        return None;
    };
    let RangeNode::Min(one) = *first else {
        return None;
    };
    let RangeNode::Min(other) = *second else {
        return None;
    };
    if !are_same_nodes(nodes, &disjunction_nodes(one, other)) {
        return None;
    }
    Some(Evaluation::Disjunction(one as usize, other as usize))
}

/// The form of a range that all its nodes tell.
pub(crate) fn spelled_form(nodes: &[RangeNode]) -> Option<Evaluation>
    ensures form { IfSome result
        (λ form. (r : Range) → nodes.now ≡ nodes_of r → IsEvaluation r form) }
    ensures unshifted { IfSome result (λ form. IsShifted form → ⊥) }
{
    if let Some(form) = counter_form(nodes) {
        return Some(form);
    }
    if let Some(form) = counted_form(nodes) {
        return Some(form);
    }
    if let Some(form) = products_form(nodes) {
        return Some(form);
    }
    if let Some(form) = quotients_form(nodes) {
        return Some(form);
    }
    disjunction_form(nodes)
}
