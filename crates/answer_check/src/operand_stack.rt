//! The numbers and truths that wait for their operators.

ghost use Rattle.std.specs.Prelude.{◌≡◌, ◌≤◌, ℕ, ℤ, pos, ◌≤ℤ◌, ◌&&◌, not, List, [], ◌∷◌, ◌++◌, Bool, length, int_le, IfOk, OnOk};
ghost use Rattle.std.specs.Ordering.{int_eq};
ghost use Rattle.fd_language.specs.PostfixRanges.{nodes_of};
ghost use Rattle.fd_language.specs.Range.{div_down, div_up};
ghost use Rattle.answer_check.specs.AnswerLines.{assigned};
ghost use Rattle.answer_check.specs.OperandStack.{IsLimited, operated, CanOperate, both_by, CanTake, IsTaken, IsAt, RangeFits, is_in, PushesNumber, PushesTruth, TakesTerms, TakesEnds, TakesOne, TakesRanges, TakesRange};

use crate::members::value;
use fd_language::{FlatRange, INFINITY, NoMemory, RangeNode};
use std::alloc::Global;

/// The values of the terms that wait for their operators, and of the ranges whether a number is in them, the last one on top. The
/// nodes spell a range, so an operator's operands are always there.
#[derive(Drop)]
pub(crate) struct Work {
    numbers: Vec<i128>,
    truths: Vec<bool>,
}

/// The quotient rounded down. Nothing is divided by 0: the quotient is then the greater of the dividend and `INFINITY`.
fn divide_down(a: i128, b: i128) -> i128
    requires { pos 0 ≤ℤ b }
    ensures { result ≡ div_down INFINITY a b }
{
    if b == 0 {
        a.max(INFINITY as i128)
    } else {
        a.div_euclid(b)
    }
}

/// The quotient rounded up. By 0 it is 0 for 0, and else the greater of the dividend and `INFINITY`.
fn divide_up(a: i128, b: i128) -> i128
    requires limited { IsLimited a }
    requires natural { pos 0 ≤ℤ b }
    ensures { result ≡ div_up INFINITY a b }
{
    if b != 0 {
        -(-a).div_euclid(b)
    } else if a == 0 {
        0
    } else {
        a.max(INFINITY as i128)
    }
}

/// The value of an operator of two terms.
fn operate(node: RangeNode, a: i128, b: i128) -> i128
    requires { CanOperate node a b }
    ensures { result ≡ operated node a b }
{
    match node {
        RangeNode::Add => a + b,
        RangeNode::Sub => a - b,
        RangeNode::Mul => a * b,
        RangeNode::DivDown => divide_down(a, b),
        RangeNode::DivUp => divide_up(a, b),
        _ => 0,
    }
}

impl Work {
    /// Nothing that waits.
    pub fn new(alloc: Global) -> Work
        ensures numbers { result.numbers.items ≡ [] }
        ensures truths { result.truths.items ≡ [] }
    {
        Work {
            numbers: Vec::new(alloc),
            truths: Vec::new(alloc),
        }
    }

    /// Takes away all that waits.
    fn clear(&mut self)
        ensures numbers { self.new.numbers.items ≡ [] }
        ensures truths { self.new.truths.items ≡ [] }
    {
        self.numbers.clear();
        self.truths.clear();
    }

    /// A number waits.
    fn push_number(&mut self, number: i128) -> Result<(), NoMemory>
        ensures { OnOk result (PushesNumber number self.old self.new) }
    {
        self.numbers.push(number)?;
        Ok(())
    }

    /// A truth waits.
    fn push_truth(&mut self, truth: bool) -> Result<(), NoMemory>
        ensures { OnOk result (PushesTruth truth self.old self.new) }
    {
        self.truths.push(truth)?;
        Ok(())
    }

    /// Takes the last number away, if there is one.
    pub fn pop_number(&mut self) -> i128
        ensures taken { (front : List ℤ) (x : ℤ) → self.old.numbers.items ≡ front ++ x ∷ []
            → (result ≡ x) × (self.new.numbers.items ≡ front) }
        ensures truths { self.new.truths.items ≡ self.old.truths.items }
    {
        self.numbers.pop().unwrap_or(0)
    }

    /// Takes the last truth away, if there is one.
    fn pop_truth(&mut self) -> bool
        ensures taken { (front : List Bool) (x : Bool) → self.old.truths.items ≡ front ++ x ∷ []
            → (result ≡ x) × (self.new.truths.items ≡ front) }
        ensures numbers { self.new.numbers.items ≡ self.old.numbers.items }
    {
        self.truths.pop().unwrap_or(false)
    }

    /// An operator of terms takes the last two.
    fn take_terms(&mut self, node: RangeNode) -> Result<(), NoMemory>
        requires { CanTake node self.old }
        ensures { OnOk result (TakesTerms node self.old self.new) }
    {
        if let Some(b) = self.numbers.pop() {
            if let Some(a) = self.numbers.pop() {
                self.numbers.push(operate(node, a, b))?;
            }
        }
        Ok(())
    }

    /// An interval takes the last two terms.
    fn take_span(&mut self, number: u32) -> Result<(), NoMemory>
        ensures { OnOk result (TakesEnds (λ low high. int_le low (pos number) && int_le
            (pos number) high) self.old self.new) }
    {
        let high = self.pop_number();
        let low = self.pop_number();
        let number = number as i128;
        self.truths.push(low <= number && number <= high)?;
        Ok(())
    }

    /// A single number takes the last term.
    fn take_single(&mut self, number: u32) -> Result<(), NoMemory>
        ensures { OnOk result (TakesOne (λ only. int_eq only (pos number)) self.old self.new) }
    {
        let only = self.pop_number();
        self.truths.push(only == number as i128)?;
        Ok(())
    }

    /// An operator of two ranges takes the last two truths.
    fn take_ranges(&mut self, node: RangeNode) -> Result<(), NoMemory>
        ensures { OnOk result (TakesRanges (both_by node) self.old self.new) }
    {
        let second = self.pop_truth();
        let first = self.pop_truth();
        let both = match node {
            RangeNode::Union => first || second,
            _ => first && second,
        };
        self.truths.push(both)?;
        Ok(())
    }

    /// The complement takes the last truth.
    fn take_outside(&mut self) -> Result<(), NoMemory>
        ensures { OnOk result (TakesRange not self.old self.new) }
    {
        let inside = self.pop_truth();
        self.truths.push(!inside)?;
        Ok(())
    }

    /// Takes the operands of a node, and puts its value or its truth for a number in their place.
    fn take(&mut self, node: RangeNode, values: &[u32], number: u32) -> Result<(), NoMemory>
        requires { CanTake node self.old }
        ensures { OnOk result (IsTaken (assigned values.now) number node self.old self.new) }
    {
        match node {
            RangeNode::Int(integer) => self.push_number(integer as i128),
            RangeNode::Infinity => self.push_number(INFINITY as i128),
            RangeNode::Min(y) | RangeNode::Max(y) | RangeNode::Val(y) => {
                self.push_number(value(values, y) as i128)
            }
            RangeNode::Add
            | RangeNode::Sub
            | RangeNode::Mul
            | RangeNode::DivDown
            | RangeNode::DivUp => self.take_terms(node),
            RangeNode::Span => self.take_span(number),
            RangeNode::One => self.take_single(number),
            RangeNode::Dom(y) => self.push_truth(value(values, y) == number),
            RangeNode::Union | RangeNode::Inter => self.take_ranges(node),
            RangeNode::Outside => self.take_outside(),
            RangeNode::Param(_)
            | RangeNode::Plus
            | RangeNode::Minus
            | RangeNode::Times
            | RangeNode::Over => Ok(()),
        }
    }

    /// Takes the first so many nodes of a range one by one, from nothing on.
    pub fn run(
        &mut self,
        range: &FlatRange,
        count: usize,
        values: &[u32],
        number: u32,
    ) -> Result<(), NoMemory>
        requires count { count ≤ length (nodes_of range.now) }
        requires fits { RangeFits (assigned values.now) range.now }
        ensures { OnOk result (IsAt (assigned values.now) number range.now count self.new) }
    {
        self.clear();
        let nodes = range.nodes();
        for at in 0..count {
            self.take(nodes[at], values, number)?;
        }
        Ok(())
    }

    /// Whether a number is in the range.
    pub fn is_inside(
        &mut self,
        range: &FlatRange,
        values: &[u32],
        number: u32,
    ) -> Result<bool, NoMemory>
        requires { RangeFits (assigned values.now) range.now }
        ensures { IfOk result (λ b. b ≡ is_in (assigned values.now) number range.now) }
    {
        self.run(range, range.nodes().len(), values, number)?;
        Ok(self.pop_truth())
    }
}
