//! What the constraints say of an answer.

ghost use Rattle.std.specs.Ordering.{int_eq};
ghost use Rattle.std.specs.Prelude.{◌≤ℤ◌, ◌≡◌, ◌≤◌, ◌-◌, ◌↔◌, ℕ, ℤ, pos, Bool, true, All, IsTrue, IfOk, MatchOption, suc};
ghost use Rattle.fd_language.specs.PostfixRanges.{nodes_of};
ghost use Rattle.fd_model.specs.Satisfaction.{AreDifferent, AreNumbers, Holds, IsElement, IsNumber, occurrences};
ghost use Rattle.answer_check.specs.AnswerLines.{assigned};
ghost use Rattle.answer_check.specs.Checks.{AreAllDifferent, AreFirstBroken, CanCheck, EndsFit, EndsHold, HasAtMost, HasElement, IsInside, Meets};
ghost use Rattle.answer_check.specs.Members.{worth_of, worths_of};
ghost use Rattle.answer_check.specs.OperandStack.{RangeFits};

use crate::goals::Constraint;
use crate::members::Member;
use crate::operand_stack::Work;
use fd_language::{FlatRange, INFINITY, NoMemory};
use fd_model::kinds::Relation;
use indexmap::IndexSet;
use monotone_check::Checked;
use std::alloc::Global;

/// What is used again from one answer to the next.
#[derive(Drop)]
pub(crate) struct Scratch {
    work: Work,
    seen: IndexSet<i64>,
}

/// The number of the universe that an integer is.
fn number_of(integer: i64) -> Option<u32>
    ensures { MatchOption result (IsNumber INFINITY integer → ⊥)
        (λ n. (n ≤ INFINITY) × (integer ≡ pos n)) }
{
    if 0 <= integer && integer <= INFINITY as i64 {
        Some(integer as u32)
    } else {
        None
    }
}

/// Whether an integer is a number of the universe.
fn is_number(integer: i64) -> bool
    ensures { IsTrue result ↔ IsNumber INFINITY integer }
{
    number_of(integer).is_some()
}

/// Whether two integers are the same.
fn is_same(left: i64, right: i64) -> bool
    ensures { result ≡ int_eq left right }
{
    left == right
}

/// Whether a number is at most an integer.
fn is_at_most(number: usize, integer: i64) -> bool
    ensures { IsTrue result ↔ (pos number ≤ℤ integer) }
{
    integer >= 0 && number <= integer as usize
}

/// Whether each member is a number of the universe.
fn are_numbers(members: &[Member], values: &[u32]) -> bool
    ensures { IsTrue result ↔ AreNumbers INFINITY (worths_of (assigned values.now) members.now) }
{
    for member in members {
        if !is_number(member.worth(values)) {
            return false;
        }
    }
    true
}

/// How many members are this integer.
fn occurrences(members: &[Member], values: &[u32], integer: i64) -> usize
    ensures { result ≡ occurrences (worths_of (assigned values.now) members.now) integer }
{
    let mut count = 0;
    for member in members {
        if is_same(member.worth(values), integer) {
            count += 1;
        }
    }
    count
}

/// What a relation says of two numbers.
fn holds(relation: Relation, left: i128, right: i128) -> bool
    ensures { IsTrue result ↔ Holds relation left right }
{
    match relation {
        Relation::Equal => left == right,
        Relation::Differ => left != right,
        Relation::Less => left < right,
        Relation::AtMost => left <= right,
        Relation::Greater => right < left,
        Relation::AtLeast => right <= left,
    }
}

/// Whether the element with an index, counted from 1, is this integer.
fn is_element(members: &[Member], values: &[u32], index: u32, integer: i64) -> bool
    ensures { IsTrue result
        ↔ IsElement 1 (worths_of (assigned values.now) members.now) (pos index) integer }
{
    if index == 0 {
        return false;
    }
    match members.get(index as usize - 1) {
        Some(member) => is_same(integer, member.worth(values)),
        None => false,
    }
}

/// Whether the index and the element are numbers of the universe, and the element has that index, counted from 1.
fn has_element(members: &[Member], values: &[u32], index: Member, element: Member) -> bool
    ensures { IsTrue result ↔ HasElement (assigned values.now) index members.now element }
{
    let integer = element.worth(values);
    match number_of(index.worth(values)) {
        Some(number) => is_number(integer) && is_element(members, values, number, integer),
        None => false,
    }
}

/// Whether the members are numbers of the universe, of which at most so many are this integer.
fn has_at_most(members: &[Member], values: &[u32], most: Member, integer: Member) -> bool
    ensures { IsTrue result ↔ HasAtMost (assigned values.now) most members.now integer }
{
    let count = occurrences(members, values, integer.worth(values));
    are_numbers(members, values) && is_at_most(count, most.worth(values))
}

impl Scratch {
    /// Nothing is seen.
    pub fn new(alloc: Global) -> Scratch {
        Scratch {
            work: Work::new(alloc),
            seen: IndexSet::new(alloc),
        }
    }

    /// Whether the target lies in the range.
    fn is_in_range(
        &mut self,
        target: Member,
        range: &Checked,
        values: &[u32],
    ) -> Result<bool, NoMemory>
        requires { RangeFits (assigned values.now) range.now }
        ensures { IfOk result (λ b. IsTrue b
            ↔ IsInside (assigned values.now) (worth_of (assigned values.now) target) range.now) }
    {
        match number_of(target.worth(values)) {
            Some(number) => self.work.is_inside(range.range(), values, number),
            None => Ok(false),
        }
    }

    /// Whether the relation holds of the two sides.
    fn compares(
        &mut self,
        relation: Relation,
        sides: &FlatRange,
        values: &[u32],
    ) -> Result<bool, NoMemory>
        requires { EndsFit (assigned values.now) sides.now }
        ensures { IfOk result (λ b. IsTrue b
            ↔ EndsHold (assigned values.now) relation sides.now) }
    {
        self.work.run(sides, sides.nodes().len() - 1, values, 0)?;
        let right = self.work.pop_number();
        let left = self.work.pop_number();
        Ok(holds(relation, left, right))
    }

    /// Whether the members are pairwise different.
    fn are_different(&mut self, members: &[Member], values: &[u32]) -> Result<bool, NoMemory>
        ensures { IfOk result (λ b. IsTrue b
            ↔ AreDifferent (worths_of (assigned values.now) members.now)) }
    {
        self.seen.clear();
        for member in members {
            if !self.seen.insert(member.worth(values))? {
                return Ok(false);
            }
        }
        Ok(true)
    }

    /// Whether the members are numbers of the universe, and pairwise different.
    fn is_all_different(&mut self, members: &[Member], values: &[u32]) -> Result<bool, NoMemory>
        ensures { IfOk result (λ b. IsTrue b
            ↔ AreAllDifferent (assigned values.now) members.now) }
    {
        if !are_numbers(members, values) {
            return Ok(false);
        }
        self.are_different(members, values)
    }

    /// Whether the answer with these values satisfies the constraint.
    pub fn is_satisfied(
        &mut self,
        constraint: &Constraint,
        values: &[u32],
    ) -> Result<bool, NoMemory>
        requires values { All (λ n. n ≤ INFINITY) values.now }
        requires safe { CanCheck constraint.now }
        ensures { IfOk result (λ b. IsTrue b ↔ Meets (assigned values.now) constraint.now) }
    {
        match constraint {
            Constraint::Post(target, range) => self.is_in_range(*target, range, values),
            Constraint::Compare(relation, sides) => self.compares(*relation, sides, values),
            Constraint::AllDifferent(members) => self.is_all_different(members, values),
            Constraint::Element(index, members, element) => {
                Ok(has_element(members, values, *index, *element))
            }
            Constraint::Atmost(most, members, integer) => {
                Ok(has_at_most(members, values, *most, *integer))
            }
        }
    }

    /// The number of the first constraint that the answer breaks, counted from 1.
    pub fn first_broken(
        &mut self,
        constraints: &[Constraint],
        values: &[u32],
    ) -> Result<Option<usize>, NoMemory>
        requires values { All (λ n. n ≤ INFINITY) values.now }
        requires safe { All CanCheck constraints.now }
        ensures { IfOk result (AreFirstBroken (assigned values.now) 1 constraints.now) }
    {
        for (number, constraint) in constraints.iter().enumerate() {
            if !self.is_satisfied(constraint, values)? {
                return Ok(Some(number + 1));
            }
        }
        Ok(None)
    }
}
