//! What a term is read as in its position.

ghost use Rattle.std.specs.Prelude.{◌≡◌, ℕ, ◌<◌, [], ◌∷◌, length, All, Some, MatchOption};
ghost use Rattle.fd_language.specs.PlacedTerm.{var, comp, one, two};
ghost use Rattle.fd_language.specs.Spelling.{read_dom};
ghost use Rattle.term_pool.specs.Contents.{Contents, Shape, shape_at, place_at, parts_of};
ghost use Rattle.term_pool.specs.PlacedTerms.{placed_of, parts_by};
ghost use Rattle.range_terms.specs.TermNodes.{Wanted, wanted, of_range};
ghost use Rattle.range_terms.specs.Forms.{IsRangeForm, IsNoVariable, IsOfTerms, IsNumber, of_operand};
ghost use Rattle.range_terms.specs.declared.forms.Position.TheVariants as place_in;

use crate::names::{feature, range_operator, term_operator};
use fd_language::RangeNode;
use term_pool::{Node, Pool, TermId};

/// Where a term stands in a range.
#[derive(Clone, Copy)]
pub(crate) enum Position {
    /// Where a range is wanted.
    Range,
    /// Where a number is wanted.
    Term,
    /// Where a number is wanted that no domain changes.
    Constant,
}

/// A part of a term, in its position.
#[derive(Clone, Copy)]
pub(crate) struct Operand {
    pub term: TermId,
    pub position: Position,
}

/// What a term is read as.
#[derive(Clone, Copy)]
pub(crate) enum RangeForm {
    /// A node alone.
    Leaf(RangeNode),
    /// A node behind those of its operand.
    Unary(RangeNode, Operand),
    /// A node behind those of its two operands.
    Binary(RangeNode, Operand, Operand),
    /// It fits nowhere.
    Misfit,
}

/// The number of a term that is a variable.
fn variable_of(pool: &Pool, t: TermId) -> Option<u64>
    requires { t.number < length pool.now.entries }
    ensures { MatchOption result (IsNoVariable (placed_of pool.now t))
        (λ x. (q : ℕ) × (placed_of pool.now t ≡ var x q)) }
{
    match pool.view(t) {
        Node::Var(variable) => Some(variable),
        Node::Int(_) => None,
        Node::Atom(_) => None,
        Node::Comp(_, _) => None,
    }
}

/// `dom` of a variable.
fn domain_form(pool: &Pool, only: TermId) -> RangeForm
    requires { only.number < length pool.now.entries }
    ensures { (N p : ℕ) → IsRangeForm N pool.now (of_range (read_dom (placed_of pool.now only) p)) p
        (only ∷ []) result }
{
    match variable_of(pool, only) {
        Some(variable) => RangeForm::Leaf(RangeNode::Dom(variable)),
        None => RangeForm::Misfit,
    }
}

/// A range with one part.
fn single_range_form(pool: &Pool, name: &str, only: TermId) -> RangeForm
    requires { only.number < length pool.now.entries }
    ensures { (N p : ℕ) → IsRangeForm N pool.now
        (wanted N place_in.Range (comp name.now p (one (placed_of pool.now only)))) p
        (only ∷ []) result }
{
    if name == "{}" {
        let operand = Operand {
            term: only,
            position: Position::Term,
        };
        RangeForm::Unary(RangeNode::One, operand)
    } else if name == "-" {
        let operand = Operand {
            term: only,
            position: Position::Range,
        };
        RangeForm::Unary(RangeNode::Outside, operand)
    } else if name == "dom" {
        domain_form(pool, only)
    } else {
        RangeForm::Misfit
    }
}

/// A range with two parts.
fn double_range_form(pool: &Pool, name: &str, first: TermId, second: TermId) -> RangeForm
    ensures { (N p : ℕ) → IsRangeForm N pool.now
        (wanted N place_in.Range (comp name.now p (two (placed_of pool.now first)
        (placed_of pool.now second)))) p (first ∷ second ∷ []) result }
{
    match range_operator(name) {
        Some(operator) => RangeForm::Binary(
            operator.node,
            Operand {
                term: first,
                position: operator.left,
            },
            Operand {
                term: second,
                position: operator.right,
            },
        ),
        None => RangeForm::Misfit,
    }
}

/// `min`, `max` or `val` of a variable.
fn feature_form(pool: &Pool, name: &str, only: TermId) -> RangeForm
    requires { only.number < length pool.now.entries }
    ensures { (N p : ℕ) → IsRangeForm N pool.now
        (wanted N place_in.Term (comp name.now p (one (placed_of pool.now only)))) p
        (only ∷ []) result }
{
    match variable_of(pool, only) {
        Some(variable) => match feature(name, variable) {
            Some(node) => RangeForm::Leaf(node),
            None => RangeForm::Misfit,
        },
        None => RangeForm::Misfit,
    }
}

/// An operator between two terms.
fn operation_form(
    pool: &Pool,
    name: &str,
    first: TermId,
    second: TermId,
    position: Position,
) -> RangeForm
    requires { IsOfTerms position }
    ensures { (N p : ℕ) → IsRangeForm N pool.now
        (wanted N position (comp name.now p (two (placed_of pool.now first)
        (placed_of pool.now second)))) p (first ∷ second ∷ []) result }
{
    match term_operator(name) {
        Some(node) => RangeForm::Binary(
            node,
            Operand {
                term: first,
                position,
            },
            Operand {
                term: second,
                position,
            },
        ),
        None => RangeForm::Misfit,
    }
}

/// A compound where a range is wanted.
fn range_form(pool: &Pool, name: &str, parts: &[TermId]) -> RangeForm
    requires { All (λ t. t.number < length pool.now.entries) parts.now }
    ensures { (N p : ℕ) → IsRangeForm N pool.now
        (wanted N place_in.Range (comp name.now p (parts_by (placed_of pool.now) parts.now))) p
        parts.now result }
{
    match parts {
        [only] => single_range_form(pool, name, *only),
        [first, second] => double_range_form(pool, name, *first, *second),
        [] => RangeForm::Misfit,
        [_, _, _, ..] => RangeForm::Misfit,
    }
}

/// A compound where a number is wanted.
fn term_form(pool: &Pool, name: &str, parts: &[TermId]) -> RangeForm
    requires { All (λ t. t.number < length pool.now.entries) parts.now }
    ensures { (N p : ℕ) → IsRangeForm N pool.now
        (wanted N place_in.Term (comp name.now p (parts_by (placed_of pool.now) parts.now))) p
        parts.now result }
{
    match parts {
        [only] => feature_form(pool, name, *only),
        [first, second] => operation_form(pool, name, *first, *second, Position::Term),
        [] => RangeForm::Misfit,
        [_, _, _, ..] => RangeForm::Misfit,
    }
}

/// A compound where a number is wanted that no domain changes.
fn constant_form(pool: &Pool, name: &str, parts: &[TermId]) -> RangeForm
    ensures { (N p : ℕ) → IsRangeForm N pool.now (wanted N place_in.Constant
        (comp name.now p (parts_by (placed_of pool.now) parts.now))) p parts.now result }
{
    match parts {
        [first, second] => operation_form(pool, name, *first, *second, Position::Constant),
        [] => RangeForm::Misfit,
        [_] => RangeForm::Misfit,
        [_, _, _, ..] => RangeForm::Misfit,
    }
}

/// A compound in its position.
fn compound_form(pool: &Pool, name: &str, parts: &[TermId], position: Position) -> RangeForm
    requires { All (λ t. t.number < length pool.now.entries) parts.now }
    ensures { (N p : ℕ) → IsRangeForm N pool.now
        (wanted N position (comp name.now p (parts_by (placed_of pool.now) parts.now))) p parts.now
        result }
{
    match position {
        Position::Range => range_form(pool, name, parts),
        Position::Term => term_form(pool, name, parts),
        Position::Constant => constant_form(pool, name, parts),
    }
}

/// A number, which fits where one is wanted.
fn number_form(node: RangeNode, position: Position) -> RangeForm
    ensures { (N : ℕ) (c : Contents) (w : Wanted) (p : ℕ) → IsNumber position node p w
        → IsRangeForm N c w p [] result }
{
    match position {
        Position::Range => RangeForm::Misfit,
        Position::Term | Position::Constant => RangeForm::Leaf(node),
    }
}

/// What the operand is read as.
pub(crate) fn form_of(pool: &Pool, operand: Operand, infinity: u32) -> RangeForm
    requires { operand.term.number < length pool.now.entries }
    ensures { (s : Shape) (p : ℕ) → shape_at pool.now operand.term ≡ Some s
        → place_at pool.now operand.term ≡ Some p
        → IsRangeForm infinity pool.now (of_operand infinity pool.now operand) p (parts_of s)
        result }
{
    match pool.view(operand.term) {
        Node::Var(variable) => number_form(RangeNode::Param(variable), operand.position),
        Node::Int(integer) => number_form(RangeNode::Int(integer), operand.position),
        Node::Atom(atom) => if pool.name_of(atom) == "infinity" {
            number_form(RangeNode::Int(i64::from(infinity)), operand.position)
        } else {
            RangeForm::Misfit
        },
        Node::Comp(atom, parts) => {
            compound_form(pool, pool.name_of(atom), parts, operand.position)
        }
    }
}
