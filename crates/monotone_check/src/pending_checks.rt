//! The terms and ranges that wait for their operators.

ghost use Rattle.std.specs.Prelude.{◌≡◌, ℕ, List, [], ◌∷◌, ◌++◌, Some, IfOk};
ghost use Rattle.fd_language.specs.declared.range_node.RangeNode.{RangeNode as Spelled};
ghost use Rattle.fd_language.specs.Range.{Range, Expr};
ghost use Rattle.fd_language.specs.PostfixRanges.{built};
ghost use Rattle.monotone_check.specs.PendingChecks.{IsPending, Follows};
ghost use Rattle.monotone_check.specs.Steps.{PushesLeaf, PushesOperated, PushesSpan, PushesSingle, PushesDomain, PushesCombined, PushesComplement, PushesPointwise};

use crate::summary::{
    RangeCheck, TermCheck, combined, complement, domain, leaf, operate, pointwise, single, span,
};
use fd_language::{INFINITY, NoMemory, RangeNode};
use std::alloc::Global;

/// What is kept of the ranges and terms that wait for their operators, the last one last. The nodes spell a range, so an operator's
/// operands are always there.
#[derive(Drop)]
pub(crate) struct Pending {
    pub ranges: Vec<RangeCheck>,
    pub terms: Vec<TermCheck>,
}

impl Pending {
    /// Neither a range nor a term waits. The allocator gives memory for those to come.
    pub(crate) fn new(alloc: Global) -> Pending
        ensures ranges { result.ranges.items ≡ [] }
        ensures terms { result.terms.items ≡ [] }
    {
        Pending {
            ranges: Vec::new(alloc),
            terms: Vec::new(alloc),
        }
    }

    fn take_leaf(&mut self, node: RangeNode, place: usize) -> Result<(), NoMemory>
        ensures { IfOk result (λ _. PushesLeaf node place self.old self.new) }
    {
        self.terms.push(leaf(node, place))?;
        Ok(())
    }

    fn take_operator(&mut self, node: RangeNode, place: usize) -> Result<(), NoMemory>
        ensures { IfOk result (λ _. PushesOperated node place self.old self.new) }
    {
        if let Some(b) = self.terms.pop() {
            if let Some(a) = self.terms.pop() {
                self.terms.push(operate(node, a, b, place))?;
            }
        }
        Ok(())
    }

    fn take_span(&mut self) -> Result<(), NoMemory>
        ensures { IfOk result (λ _. PushesSpan self.old self.new) }
    {
        if let Some(b) = self.terms.pop() {
            if let Some(a) = self.terms.pop() {
                self.ranges.push(span(a, b))?;
            }
        }
        Ok(())
    }

    fn take_single(&mut self) -> Result<(), NoMemory>
        ensures { IfOk result (λ _. PushesSingle self.old self.new) }
    {
        if let Some(a) = self.terms.pop() {
            self.ranges.push(single(a))?;
        }
        Ok(())
    }

    fn take_domain(&mut self, place: usize) -> Result<(), NoMemory>
        ensures { IfOk result (λ _. PushesDomain place self.old self.new) }
    {
        self.ranges.push(domain(place))?;
        Ok(())
    }

    fn take_combined(&mut self) -> Result<(), NoMemory>
        ensures { IfOk result (λ _. PushesCombined self.old self.new) }
    {
        if let Some(q) = self.ranges.pop() {
            if let Some(r) = self.ranges.pop() {
                self.ranges.push(combined(r, q))?;
            }
        }
        Ok(())
    }

    fn take_complement(&mut self) -> Result<(), NoMemory>
        ensures { IfOk result (λ _. PushesComplement self.old self.new) }
    {
        if let Some(r) = self.ranges.pop() {
            self.ranges.push(complement(r))?;
        }
        Ok(())
    }

    fn take_pointwise(&mut self, node: RangeNode, place: usize) -> Result<(), NoMemory>
        ensures { IfOk result (λ _. PushesPointwise node place self.old self.new) }
    {
        if let Some(c) = self.terms.pop() {
            if let Some(r) = self.ranges.pop() {
                self.ranges.push(pointwise(node, r, c, place))?;
            }
        }
        Ok(())
    }

    /// Takes the node's operands and puts what is kept of its term or range.
    pub(crate) fn take(&mut self, node: RangeNode, place: usize) -> Result<(), NoMemory>
        ensures { IfOk result (λ _. (at : ℕ → ℕ) (n : ℕ) (ns : List Spelled) (rs : List Range)
            (ts : List Expr) → at n ≡ place → IsPending INFINITY at n rs ts self.old
            → Follows INFINITY at n ns (built (node ∷ ns) rs ts) self.new) }
    {
        match node {
            RangeNode::Int(_)
            | RangeNode::Infinity
            | RangeNode::Param(_)
            | RangeNode::Min(_)
            | RangeNode::Max(_)
            | RangeNode::Val(_) => self.take_leaf(node, place),
            RangeNode::Add
            | RangeNode::Sub
            | RangeNode::Mul
            | RangeNode::DivDown
            | RangeNode::DivUp => self.take_operator(node, place),
            RangeNode::Span => self.take_span(),
            RangeNode::One => self.take_single(),
            RangeNode::Dom(_) => self.take_domain(place),
            RangeNode::Union | RangeNode::Inter => self.take_combined(),
            RangeNode::Outside => self.take_complement(),
            RangeNode::Plus | RangeNode::Minus | RangeNode::Times | RangeNode::Over => {
                self.take_pointwise(node, place)
            }
        }
    }
}
