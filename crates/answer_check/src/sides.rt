//! The sides of comparisons, as nodes in postfix order.

ghost use Rattle.std.specs.Prelude.{◌≡◌, ◌<◌, [], ◌∷◌, length, IfOk};
ghost use Rattle.fd_language.specs.PostfixRanges.{expr_nodes};
ghost use Rattle.fd_language.specs.Range.{Expr};
ghost use Rattle.term_pool.specs.Terms.{term_of};
ghost use Rattle.answer_check.specs.declared.sides.Task.TheVariants as task;
ghost use Rattle.answer_check.specs.Sides.{alone, interval_in, joined, joined_width, narrowed, operator_in, sides_in, width_by, Applies, Holds, IsDone, IsOf, IsOperator};

use fd_language::{FlatRange, INFINITY, NoMemory, RangeNode};
use std::alloc::Global;
use term_pool::{Node, Pool, TermId};

/// What is still to be done.
#[derive(Clone, Copy)]
enum Task {
    /// The nodes of a term are to be put.
    Spell(TermId),
    /// The node of an operator is to be put, whose operands stand before it.
    Put(RangeNode),
}

/// What is known of a term whose nodes are put.
#[derive(Clone, Copy)]
struct Width {
    /// The greatest magnitude that it may have.
    most: u64,
    /// Whether no variable stands in it.
    is_ground: bool,
}

/// The nodes that are put, and the terms that they are, the last one last.
#[derive(Drop)]
struct Spelling {
    nodes: Vec<RangeNode>,
    widths: Vec<Width>,
}

/// The greatest width of a flat term.
const MOST: u64 = i64::MAX as u64 - 1;

/// A width, where it is one of a flat term.
fn narrow(most: u64, is_ground: bool) -> Option<Width>
    ensures { result ≡ narrowed most is_ground }
{
    (most <= MOST).then_some(Width { most, is_ground })
}

/// The width of an operator of two flat terms, where its term is flat.
fn joined(node: RangeNode, left: Width, right: Width) -> Option<Width>
    ensures { result ≡ joined_width node left right }
{
    let is_ground = left.is_ground && right.is_ground;
    match node {
        RangeNode::Mul if left.is_ground || right.is_ground => {
            narrow(left.most.checked_mul(right.most)?, is_ground)
        }
        RangeNode::Mul => None,
        _ => narrow(left.most.checked_add(right.most)?, is_ground),
    }
}

/// The operator of two terms by its name.
fn operator_named(name: &str) -> Option<RangeNode>
    ensures { result ≡ operator_in name.now }
{
    match name {
        "+" => Some(RangeNode::Add),
        "-" => Some(RangeNode::Sub),
        "*" => Some(RangeNode::Mul),
        _ => None,
    }
}

impl Spelling {
    /// Nothing is spelled.
    fn new(alloc: Global) -> Spelling
        ensures { Holds result [] }
    {
        Spelling {
            nodes: Vec::new(alloc),
            widths: Vec::new(alloc),
        }
    }

    /// Puts a node that stands alone. Tells whether its term is flat.
    fn put_alone(&mut self, node: RangeNode, most: u64, is_ground: bool) -> Result<bool, NoMemory>
        ensures { (e : Expr) → expr_nodes e [] ≡ node ∷ [] → width_by e ≡
            record { most = most; is_ground = is_ground } → IfOk result
            (Applies (alone e) self.old self.new) }
    {
        let Some(width) = narrow(most, is_ground) else {
            return Ok(false);
        };
        self.nodes.push(node)?;
        self.widths.push(width)?;
        Ok(true)
    }

    /// Puts the node of an operator behind its operands. Tells whether its term is flat.
    fn put_operator(&mut self, node: RangeNode) -> Result<bool, NoMemory>
        requires { IsOperator node }
        ensures { IfOk result (Applies (joined node) self.old self.new) }
    {
        let Some(right) = self.widths.pop() else {
            return Ok(false);
        };
        let Some(left) = self.widths.pop() else {
            return Ok(false);
        };
        let Some(width) = joined(node, left, right) else {
            return Ok(false);
        };
        self.nodes.push(node)?;
        self.widths.push(width)?;
        Ok(true)
    }

    /// Puts a variable or an integer, and leaves another term to tasks. Tells whether the term may be flat.
    fn spell(&mut self, pool: &Pool, t: TermId, ahead: &mut Vec<Task>) -> Result<bool, NoMemory>
        requires { t.number < length pool.now.entries }
        ensures { IfOk result (IsDone pool.now (task.Spell t) self.old ahead.old.items
            self.new ahead.new.items) }
    {
        match pool.view(t) {
            Node::Var(variable) => self.put_alone(RangeNode::Val(variable), INFINITY as u64, false),
            Node::Int(integer) => {
                self.put_alone(RangeNode::Int(integer), integer.unsigned_abs(), true)
            }
            Node::Comp(name, &[only]) if pool.name_of(name) == "-" => {
                ahead.extend_from_slice(&[Task::Put(RangeNode::Sub), Task::Spell(only)])?;
                self.put_alone(RangeNode::Int(0), 0, true)
            }
            Node::Comp(name, &[left, right]) => {
                let Some(node) = operator_named(pool.name_of(name)) else {
                    return Ok(false);
                };
                ahead.extend_from_slice(&[Task::Put(node), Task::Spell(right), Task::Spell(left)])?;
                Ok(true)
            }
            _ => Ok(false),
        }
    }

    /// Does a task. Tells whether its term may be flat.
    fn take(&mut self, pool: &Pool, task: Task, ahead: &mut Vec<Task>) -> Result<bool, NoMemory>
        requires { IsOf pool.now task }
        ensures { IfOk result (IsDone pool.now task self.old ahead.old.items
            self.new ahead.new.items) }
    {
        match task {
            Task::Spell(t) => self.spell(pool, t, ahead),
            Task::Put(node) => self.put_operator(node),
        }
    }
}

/// The interval between two terms that are spelled, where their difference is flat.
fn interval_of(mut made: Spelling) -> Result<Option<FlatRange>, NoMemory>
    ensures { (d e : Expr) → Holds made (e ∷ d ∷ []) → IfOk result (λ o. o ≡ interval_in d e) }
{
    let Some(right) = made.widths.pop() else {
        return Ok(None);
    };
    let Some(left) = made.widths.pop() else {
        return Ok(None);
    };
    if joined(RangeNode::Sub, left, right).is_none() {
        return Ok(None);
    }
    made.nodes.push(RangeNode::Span)?;
    Ok(FlatRange::from_nodes(made.nodes))
}

/// The interval between the sides of a comparison that are flat, and whose difference is.
pub(crate) fn sides_of(
    alloc: Global,
    pool: &Pool,
    left: TermId,
    right: TermId,
) -> Result<Option<FlatRange>, NoMemory>
    requires left { left.number < length pool.now.entries }
    requires right { right.number < length pool.now.entries }
    ensures { IfOk result (λ o. o ≡ sides_in (term_of pool.now left) (term_of pool.now right)) }
{
    let mut made = Spelling::new(alloc);
    let mut ahead = Vec::new(alloc);
    ahead.extend_from_slice(&[Task::Spell(right), Task::Spell(left)])?;
    while let Some(task) = ahead.pop() {
        if !made.take(pool, task, &mut ahead)? {
            return Ok(None);
        }
    }
    interval_of(made)
}
