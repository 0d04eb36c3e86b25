//! The nodes that the names of operators spell.

ghost use Rattle.std.specs.Prelude.{◌≡◌};
ghost use Rattle.range_terms.specs.Names.{operator_with, range_operator_of, term_operator_of, feature_of};

use crate::forms::Position;
use fd_language::RangeNode;

/// An operator of two operands that gives a range, with the positions of its operands.
#[derive(Clone, Copy)]
pub(crate) struct RangeOperator {
    pub node: RangeNode,
    pub left: Position,
    pub right: Position,
}

/// The operator of this name that gives a range.
pub(crate) fn range_operator(name: &str) -> Option<RangeOperator>
    ensures { result ≡ range_operator_of name.now }
{
    match name {
        ".." => operator(RangeNode::Span, Position::Term, Position::Term),
        ":" => operator(RangeNode::Union, Position::Range, Position::Range),
        "&" => operator(RangeNode::Inter, Position::Range, Position::Range),
        "+" => operator(RangeNode::Plus, Position::Range, Position::Constant),
        "-" => operator(RangeNode::Minus, Position::Range, Position::Constant),
        "*" => operator(RangeNode::Times, Position::Range, Position::Constant),
        "/" => operator(RangeNode::Over, Position::Range, Position::Constant),
        _ => None,
    }
}

/// An operator with the positions of its operands.
fn operator(node: RangeNode, left: Position, right: Position) -> Option<RangeOperator>
    ensures { result ≡ operator_with node left right }
{
    Some(RangeOperator { node, left, right })
}

/// The operator of this name between two terms.
pub(crate) fn term_operator(name: &str) -> Option<RangeNode>
    ensures { result ≡ term_operator_of name.now }
{
    match name {
        "+" => Some(RangeNode::Add),
        "-" => Some(RangeNode::Sub),
        "*" => Some(RangeNode::Mul),
        "/<" => Some(RangeNode::DivDown),
        "/>" => Some(RangeNode::DivUp),
        _ => None,
    }
}

/// What a term of this name reads of a variable.
pub(crate) fn feature(name: &str, variable: u64) -> Option<RangeNode>
    ensures { result ≡ feature_of name.now variable }
{
    match name {
        "min" => Some(RangeNode::Min(variable)),
        "max" => Some(RangeNode::Max(variable)),
        "val" => Some(RangeNode::Val(variable)),
        _ => None,
    }
}
