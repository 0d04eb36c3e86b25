//! The values and sets that wait for their operators.

ghost use Rattle.std.specs.Prelude.{◌≡◌, ◌<◌, ◌≤◌, ◌-◌, ℕ, ℤ, suc, List, [], ◌∷◌, ◌++◌, pos, ◌≤ℤ◌, length, filter, IfOk, IsOkAnd, OnOk, vec_len, vec_capacity};
ghost use Rattle.fd_language.specs.Family.{has, IsRising};
ghost use Rattle.fd_language.specs.Range.{div_down, div_up};
ghost use Rattle.range_code.specs.Work.{IsLimited, operated, CanOperate, CanTakeTerms, CanMove, CanTakeRange};
ghost use Rattle.range_code.specs.Steps.{PushesValue, PushesSet, Operates, Spans, Singles, Joins, Meets, Complements, moved, Moves};
ghost use Rattle.range_code.specs.Heights.{Counts, KeepsRoom};
ghost use Rattle.range_code.specs.Instructions.{operator_of};

use crate::instr::RangeInstr;
use domain_ranges::{Domain, SetStack};
use fd_language::{INFINITY, NoMemory};
use std::alloc::Global;

/// The values of the terms and the sets of the ranges that wait for their operators, the last one on top. The nodes spell a range, so
/// an operator's operands are always there.
#[derive(Drop)]
pub(crate) struct Work {
    pub alloc: Global,
    pub values: Vec<i128>,
    pub sets: SetStack,
}

/// The quotient rounded down. Nothing is divided by 0: the quotient is then the greater of the dividend and `INFINITY`.
#[inline(never)]
fn divide_down(a: i128, b: i128) -> i128
    requires { pos 0 ≤ℤ b }
    ensures { result ≡ div_down INFINITY a b }
{
    if b == 0 {
        a.max(INFINITY as i128)
    } else {
        a.div_euclid(b)
    }
}

/// The quotient rounded up. By 0 it is 0 for 0, and else the greater of the dividend and `INFINITY`.
#[inline(never)]
fn divide_up(a: i128, b: i128) -> i128
    requires limited { IsLimited a }
    requires natural { pos 0 ≤ℤ b }
    ensures { result ≡ div_up INFINITY a b }
{
    if b != 0 {
        -(-a).div_euclid(b)
    } else if a == 0 {
        0
    } else {
        a.max(INFINITY as i128)
    }
}

/// The value of an operator of two terms.
#[inline(always)]
fn operate(instr: RangeInstr, a: i128, b: i128) -> i128
    requires { CanOperate (operator_of instr) a b }
    ensures { result ≡ operated (operator_of instr) a b }
{
    match instr {
        RangeInstr::Add => a + b,
        RangeInstr::Sub => a - b,
        RangeInstr::Mul => a * b,
        RangeInstr::DivDown => divide_down(a, b),
        RangeInstr::DivUp => divide_up(a, b),
        _ => 0,
    }
}

/// The set of a pointwise operator of a set and an integer.
fn move_set(alloc: Global, instr: RangeInstr, r: &Domain, c: i128) -> Result<Domain, NoMemory>
    requires { CanMove (operator_of instr) c }
    ensures { IfOk result (λ d. d ≡ moved (operator_of instr) r.now c) }
{
    match instr {
        RangeInstr::Plus => r.shift(c),
        RangeInstr::Minus => r.shift(-c),
        RangeInstr::Times => r.scale(c),
        RangeInstr::Over => r.quotient(c),
        _ => Ok(Domain::empty(alloc)),
    }
}

/// A set waits, if it could be made. There is room.
#[inline(always)]
fn push_made(sets: &mut SetStack, made: Result<Domain, NoMemory>) -> Result<(), NoMemory>
    requires { length sets.old.sets < sets.old.room }
    ensures pushed { OnOk result (IsOkAnd made (λ d. sets.new.sets ≡ d ∷ sets.old.sets)) }
    ensures room { sets.new.room ≡ sets.old.room }
{
    sets.push(&made?)
}

impl Work {
    /// Nothing that waits.
    pub(crate) fn new(alloc: Global) -> Work
        ensures values { result.values.items ≡ [] }
        ensures sets { result.sets.sets ≡ [] }
    {
        Work {
            alloc,
            values: Vec::new(alloc),
            sets: SetStack::new(alloc),
        }
    }

    /// Takes away all that waits.
    pub(crate) fn clear(&mut self)
        ensures values { self.new.values.items ≡ [] }
        ensures len { vec_len self.new.values ≡ 0 }
        ensures sets { self.new.sets.sets ≡ [] }
        ensures room { KeepsRoom self.old self.new }
    {
        self.values.clear();
        self.sets.clear();
    }

    /// Takes away all that waits, and makes room for so many values and sets.
    pub(crate) fn reserve(&mut self, height: usize) -> Result<(), NoMemory>
        ensures values { self.new.values.items ≡ [] }
        ensures len { vec_len self.new.values ≡ 0 }
        ensures sets { self.new.sets.sets ≡ [] }
        ensures value_kept { vec_capacity self.old.values ≤ vec_capacity self.new.values }
        ensures set_kept { self.old.sets.room ≤ self.new.sets.room }
        ensures value_room { OnOk result (height ≤ vec_capacity self.new.values) }
        ensures set_room { OnOk result (height ≤ self.new.sets.room) }
    {
        self.clear();
        self.values.reserve(height)?;
        self.sets.reserve(height)?;
        Ok(())
    }

    /// An empty set waits, and nothing else does. There is room.
    pub(crate) fn begin_set(&mut self) -> Result<(), NoMemory>
        requires { 1 ≤ self.old.sets.room }
        ensures begun { OnOk result (self.new.sets.sets ≡ [] ∷ []) }
        ensures room { KeepsRoom self.old self.new }
    {
        self.clear();
        self.sets.push(&Domain::empty(self.alloc))
    }

    /// A term waits. There is room.
    #[inline(always)]
    pub(crate) fn push_value(&mut self, value: i128)
        requires { vec_len self.old.values < vec_capacity self.old.values }
        ensures pushed { PushesValue value self.old self.new }
        ensures counted { Counts suc (λ n. n) self.old self.new }
        ensures room { KeepsRoom self.old self.new }
    {
        self.values.push_reserved(value);
    }

    /// The domain of a variable waits. There is room.
    #[inline(never)]
    pub(crate) fn push_domain(&mut self, domain: &Domain) -> Result<(), NoMemory>
        requires { length self.old.sets.sets < self.old.sets.room }
        ensures pushed { OnOk result (PushesSet domain.now self.old self.new) }
        ensures rising { IsRising 0 INFINITY domain.now }
        ensures counted { OnOk result (Counts (λ n. n) suc self.old self.new) }
        ensures room { KeepsRoom self.old self.new }
    {
        self.sets.push(domain)
    }

    /// Takes the last term away, if there is one.
    #[inline(always)]
    pub(crate) fn pop_value(&mut self) -> i128
        ensures taken { (front : List ℤ) (a : ℤ) → self.old.values.items ≡ front ++ a ∷ []
            → (result ≡ a) × (self.new.values.items ≡ front) }
        ensures room { KeepsRoom self.old self.new }
    {
        self.values.pop().unwrap_or(0)
    }

    /// Takes the last set away, if there is one.
    pub(crate) fn pop_set(&mut self) -> Result<Domain, NoMemory>
        ensures taken { IfOk result (λ d. (r : List ℕ) (rest : List (List ℕ)) → self.old.sets.sets
            ≡ r ∷ rest → d ≡ r) }
        ensures room { KeepsRoom self.old self.new }
    {
        match self.sets.pop()? {
            Some(set) => Ok(set),
            None => Ok(Domain::empty(self.alloc)),
        }
    }

    /// An operator of terms takes the last two.
    #[inline(always)]
    pub(crate) fn take_terms(&mut self, instr: RangeInstr)
        requires { CanTakeTerms (operator_of instr) self.old }
        ensures taken { Operates (operator_of instr) self.old self.new }
        ensures counted { Counts (λ n. n - 1) (λ n. n) self.old self.new }
        ensures room { KeepsRoom self.old self.new }
    {
        if let Some(b) = self.values.pop() {
            if let Some(a) = self.values.pop() {
                self.values.push_reserved(operate(instr, a, b));
            }
        }
    }

    /// An interval takes the last two terms. There is room.
    #[inline(never)]
    pub(crate) fn take_span(&mut self) -> Result<(), NoMemory>
        requires { length self.old.sets.sets < self.old.sets.room }
        ensures taken { OnOk result (Spans self.old self.new) }
        ensures counted { OnOk result (Counts (λ n. n - 2) suc self.old self.new) }
        ensures room { KeepsRoom self.old self.new }
    {
        if let Some(b) = self.values.pop() {
            if let Some(a) = self.values.pop() {
                self.sets.push_interval(a, b)?;
            }
        }
        Ok(())
    }

    /// A single number takes the last term. There is room.
    #[inline(never)]
    pub(crate) fn take_single(&mut self) -> Result<(), NoMemory>
        requires { length self.old.sets.sets < self.old.sets.room }
        ensures taken { OnOk result (Singles self.old self.new) }
        ensures counted { OnOk result (Counts (λ n. n - 1) suc self.old self.new) }
        ensures room { KeepsRoom self.old self.new }
    {
        if let Some(a) = self.values.pop() {
            self.sets.push_interval(a, a)?;
        }
        Ok(())
    }

    /// The union takes the last two sets.
    pub(crate) fn take_union(&mut self)
        ensures taken { Joins self.old self.new }
        ensures counted { Counts (λ n. n) (λ n. n - 1) self.old self.new }
        ensures room { KeepsRoom self.old self.new }
    {
        self.sets.unite();
    }

    /// The intersection takes the last two sets.
    #[inline(never)]
    pub(crate) fn take_both(&mut self) -> Result<(), NoMemory>
        ensures taken { OnOk result (Meets self.old self.new) }
        ensures counted { OnOk result (Counts (λ n. n) (λ n. n - 1) self.old self.new) }
        ensures room { KeepsRoom self.old self.new }
    {
        match self.sets.pop()? {
            Some(q) => self.keep_shared(&q),
            None => Ok(()),
        }
    }

    /// The last set keeps the members that the other set has too.
    #[inline]
    fn keep_shared(&mut self, q: &Domain) -> Result<(), NoMemory>
        ensures kept { OnOk result ((rest : List (List ℕ)) (r : List ℕ)
            → self.old.sets.sets ≡ r ∷ rest → self.new.sets.sets ≡ filter (has q.now) r ∷ rest) }
        ensures values { self.new.values ≡ self.old.values }
        ensures fewer { OnOk result
            (length self.new.sets.sets ≤ length self.old.sets.sets) }
        ensures room { self.new.sets.room ≡ self.old.sets.room }
    {
        match self.sets.pop()? {
            Some(r) => push_made(&mut self.sets, r.intersect(q)),
            None => Ok(()),
        }
    }

    /// The complement takes the last set.
    #[inline(never)]
    pub(crate) fn take_outside(&mut self) -> Result<(), NoMemory>
        ensures taken { OnOk result (Complements self.old self.new) }
        ensures counted { OnOk result (Counts (λ n. n) (λ n. n) self.old self.new) }
        ensures room { KeepsRoom self.old self.new }
    {
        match self.sets.pop()? {
            Some(r) => push_made(&mut self.sets, r.complement()),
            None => Ok(()),
        }
    }

    /// A pointwise operator takes the last term and the last set.
    #[inline(never)]
    pub(crate) fn take_range(&mut self, instr: RangeInstr) -> Result<(), NoMemory>
        requires { CanTakeRange (operator_of instr) self.old }
        ensures taken { OnOk result (Moves (operator_of instr) self.old self.new) }
        ensures counted { OnOk result (Counts (λ n. n - 1) (λ n. n) self.old self.new) }
        ensures room { KeepsRoom self.old self.new }
    {
        match self.values.pop() {
            Some(c) => self.move_last(instr, c),
            None => Ok(()),
        }
    }

    /// A pointwise operator of the last set and a number takes the set.
    #[inline]
    fn move_last(&mut self, instr: RangeInstr, c: i128) -> Result<(), NoMemory>
        requires { CanMove (operator_of instr) c }
        ensures moved { OnOk result ((rest : List (List ℕ)) (r : List ℕ) → self.old.sets.sets
            ≡ r ∷ rest → self.new.sets.sets ≡ moved (operator_of instr) r c ∷ rest) }
        ensures values { self.new.values ≡ self.old.values }
        ensures fewer { OnOk result
            (length self.new.sets.sets ≤ length self.old.sets.sets) }
        ensures room { self.new.sets.room ≡ self.old.sets.room }
    {
        match self.sets.pop()? {
            Some(r) => push_made(&mut self.sets, move_set(self.alloc, instr, &r, c)),
            None => Ok(()),
        }
    }
}
