//! Sets of numbers from 0 to INFINITY, as lists of intervals.
#![tactic(auto)]

ghost use Rattle.std.specs.Prelude.{◌≡◌, ◌<◌, ◌≤◌, ◌&&◌, ◌||◌, not, nat_le, ◌^◌, neg_ℤ, ◌≤ℤ◌, ◌<ℤ◌, ◌⊎◌, ◌+◌, ◌↔◌, if◌then◌else◌, ℕ, List, [], ◌∷◌, length, slice_index_or, filter, pos, int_le, IfOk, OnOk, OnErr, MatchOption, IsTrue, IfSome, OnSome, false};
ghost use Rattle.domain_ranges.specs.Spans.{IsSpans, members, interval_count, has_int, meet};
ghost use Rattle.domain_ranges.specs.Sets.{is_shifted, is_scaled, is_quotient};
ghost use Rattle.domain_ranges.specs.Narrowing.{between, all_but, IsNarrowed, IsLeft, IsInterval, IsPart, IsMembership};
ghost use Rattle.fd_language.specs.Family.{has, universe, IsRising, IsSubset};
ghost use Rattle.fd_language.specs.Range.{least, greatest, is_none_left};
ghost use Rattle.fd_language.specs.SingleValues.{only};

mod intervals;
mod set_stack;

use fd_language::{INFINITY, NoMemory};
pub use set_stack::SetStack;
use smallvec::SmallVec;
use std::alloc::Global;
use std::marker::Model;

/// A set of numbers from 0 to `INFINITY`: the values that a variable may have.
///
/// It is held as a strictly rising list of intervals that neither overlap nor touch, with the ends beside it. The first four
/// intervals take no memory of their own. A call that makes a set gives `NoMemory` only where the set has more than two intervals.
#[derive(Drop)]
pub struct Domain {
    ends: (u32, u32),
    list: SmallVec<(u32, u32), 4>,
}

impl Model for Domain {
    ghost use Rattle.std.specs.Prelude.{ℕ, List};
    ghost use Rattle.fd_language.specs.declared.TheConstants.{INFINITY};
    ghost use Rattle.domain_ranges.specs.Spans.{members, AreWithEnds};

    ghost Value = { List ℕ };

    ghost view = { λ d. members d.list.items };

    ghost invariant = { λ d. AreWithEnds d.list.items d.ends };
}

/// What is left of a set of values.
#[derive(Drop)]
pub enum Narrowed {
    /// All of it.
    Same,
    /// Nothing.
    Empty,
    /// Some members, fewer than before.
    Changed(Domain),
}

/// What the numbers of an interval leave of a set that isn't empty, as far as its ends tell.
#[derive(Clone, Copy)]
pub enum Part {
    /// All of it.
    All,
    /// Nothing.
    Nothing,
    /// Not all of it: its members from the first to the second number are left. Of an interval these are all numbers between the two.
    Within(u32, u32),
}

/// How a number stands to a set.
#[derive(Clone, Copy)]
pub enum Membership {
    /// It is no member.
    Outside,
    /// It is the only member.
    Alone,
    /// It is this member, and there are others.
    Among(u32),
}

/// What has a domain for each variable number below some bound.
pub trait View {
    /// The sets of the variables, by their numbers.
    ghost sets: { Self → List (List ℕ) };

    /// The domain of the variable `k`, which is below the number of the sets.
    fn domain(&self, k: usize) -> &Domain
        requires { k < length (sets self.now) }
        ensures { result.now ≡ slice_index_or (sets self.now) k (universe INFINITY) };
}

impl Domain {
    /// The set of all numbers from 0 to `INFINITY`.
    pub fn full(alloc: Global) -> Domain
        ensures { result ≡ universe INFINITY }
    {
        Domain::of_span(alloc, (0, INFINITY))
    }

    /// The empty set.
    pub fn empty(alloc: Global) -> Domain
        ensures { result ≡ [] }
    {
        Domain {
            ends: (0, 0),
            list: SmallVec::new(alloc),
        }
    }

    /// The numbers from `lo` to `hi`, both included, that are in 0 to `INFINITY`.
    pub fn interval(alloc: Global, lo: i128, hi: i128) -> Domain
        ensures { result
            ≡ filter (λ n. int_le lo (pos n) && int_le (pos n) hi) (universe INFINITY) }
    {
        match intervals::cut(lo, hi) {
            Some(span) => Domain::of_span(alloc, span),
            None => Domain::empty(alloc),
        }
    }

    /// The same set once more.
    #[inline(always)]
    pub fn copy(&self) -> Result<Domain, NoMemory>
        ensures set { IfOk result (λ copy. copy ≡ self.now) }
        ensures rising { IsRising 0 INFINITY self.now }
        ensures no_memory { OnErr result (2 < interval_count self.now) }
    {
        if !self.is_interval() {
            return self.copy_apart();
        }
        self.rises();
        Ok(Domain::of_span(*self.list.allocator(), self.ends))
    }

    /// The same of a set of any intervals.
    #[inline(never)]
    fn copy_apart(&self) -> Result<Domain, NoMemory>
        ensures set { IfOk result (λ copy. copy ≡ self.now) }
        ensures rising { IsRising 0 INFINITY self.now }
        ensures no_memory { OnErr result (2 < interval_count self.now) }
    {
        let list = SmallVec::from_slice(*self.list.allocator(), self.spans())?;
        Ok(Domain::of_list(list))
    }

    /// The same set once more, with room for one more interval where it has more than two.
    #[inline]
    pub fn copy_with_room(&self) -> Result<Domain, NoMemory>
        ensures set { IfOk result (λ copy. copy ≡ self.now) }
        ensures no_memory { OnErr result (2 < interval_count self.now) }
    {
        let spans = self.spans();
        if spans.len() <= 2 {
            return self.copy();
        }
        let room = spans.len().saturating_add(1);
        let mut list = SmallVec::with_capacity(*self.list.allocator(), room)?;
        list.extend_from_slice(spans)?;
        Ok(Domain::of_list(list))
    }

    /// The numbers in both sets.
    pub fn intersect(&self, other: &Domain) -> Result<Domain, NoMemory>
        ensures set { IfOk result (λ both. both ≡ filter (has other.now) self.now) }
        ensures rising { IsRising 0 INFINITY (filter (has other.now) self.now) }
        ensures operand { IsRising 0 INFINITY self.now }
        ensures no_memory { OnErr result (2 < interval_count (filter (has other.now) self.now)) }
    {
        let list = intervals::meet_all(*self.list.allocator(), self.spans(), other.spans())?;
        Ok(Domain::of_list(list))
    }

    /// The numbers in one of the two sets, or in both.
    pub fn union(&self, other: &Domain) -> Result<Domain, NoMemory>
        ensures set { IfOk result (λ either. either
            ≡ filter (λ n. has self.now n || has other.now n) (universe INFINITY)) }
        ensures no_memory { OnErr result (2 < interval_count
            (filter (λ n. has self.now n || has other.now n) (universe INFINITY))) }
    {
        let list = intervals::join_all(*self.list.allocator(), self.spans(), other.spans())?;
        Ok(Domain::of_list(list))
    }

    /// The numbers from 0 to `INFINITY` that are not in the set.
    pub fn complement(&self) -> Result<Domain, NoMemory>
        ensures set { IfOk result (λ others. others
            ≡ filter (λ n. not (has self.now n)) (universe INFINITY)) }
        ensures no_memory { OnErr result (2 < interval_count
            (filter (λ n. not (has self.now n)) (universe INFINITY))) }
    {
        let list = intervals::gaps(*self.list.allocator(), self.spans())?;
        Ok(Domain::of_list(list))
    }

    /// The members plus `c`, as far as they are in 0 to `INFINITY`: the range `r + c` of Codognet and Diaz (1996).
    /// The magnitude of `c` is below 2 to the power of 126.
    pub fn shift(&self, c: i128) -> Result<Domain, NoMemory>
        requires low { neg_ℤ (pos (2 ^ 126)) <ℤ c }
        requires high { c <ℤ pos (2 ^ 126) }
        ensures set { IfOk result (λ moved. moved
            ≡ filter (is_shifted INFINITY self.now c) (universe INFINITY)) }
        ensures no_memory { OnErr result
            (2 < interval_count (filter (is_shifted INFINITY self.now c) (universe INFINITY))) }
    {
        let list = intervals::shift_all(*self.list.allocator(), self.spans(), c)?;
        Ok(Domain::of_list(list))
    }

    /// The members times `c`, as far as they are in 0 to `INFINITY`: the range `r * c`.
    pub fn scale(&self, c: i128) -> Result<Domain, NoMemory>
        ensures set { IfOk result (λ multiples. multiples
            ≡ filter (is_scaled INFINITY self.now c) (universe INFINITY)) }
        ensures no_memory { OnErr result
            (2 < interval_count (filter (is_scaled INFINITY self.now c) (universe INFINITY))) }
    {
        let alloc = *self.list.allocator();
        let spans = self.spans();
        if c < 0 {
            return Ok(Domain::zero_if(alloc, intervals::contains(spans, 0)));
        }
        if c == 0 {
            return Ok(Domain::zero_if(alloc, !spans.is_empty()));
        }
        if c == 1 {
            return self.copy();
        }
        let list = intervals::scale_all(alloc, spans, factor(c))?;
        Ok(Domain::of_list(list))
    }

    /// The numbers from 0 to `INFINITY` whose product with `c` is a member: the range `r / c`. `c` is at least 1.
    pub fn quotient(&self, c: i128) -> Result<Domain, NoMemory>
        requires { pos 1 ≤ℤ c }
        ensures set { IfOk result (λ quotients. quotients
            ≡ filter (is_quotient INFINITY self.now c) (universe INFINITY)) }
        ensures no_memory { OnErr result
            (2 < interval_count (filter (is_quotient INFINITY self.now c) (universe INFINITY))) }
    {
        let list = intervals::divide_all(*self.list.allocator(), self.spans(), factor(c))?;
        Ok(Domain::of_list(list))
    }

    /// Whether each member is a member of the other set.
    pub fn is_inside(&self, other: &Domain) -> bool
        ensures inside { IsTrue result → IsSubset self.now other.now }
        ensures outside { result ≡ false
            → (n : ℕ) × IsTrue (has self.now n) × (has other.now n ≡ false) }
    {
        intervals::is_inside(self.spans(), other.spans())
    }

    /// What is left of the set among the members of the other one. Where that is all, nothing is made.
    /// `NoMemory` comes only where some members are left, in more than two intervals.
    pub fn narrowed_by(&self, other: &Domain) -> Result<Narrowed, NoMemory>
        ensures narrowed { IfOk result (IsNarrowed self.now other.now) }
        ensures no_memory { OnErr result (2 < interval_count (filter (has other.now) self.now)) }
    {
        if self.is_inside(other) {
            return Ok(Narrowed::Same);
        }
        let left = self.intersect(other)?;
        match left.min() {
            None => Ok(Narrowed::Empty),
            Some(_) => Ok(Narrowed::Changed(left)),
        }
    }

    /// What is left of the set among the numbers from `lo` to `hi`, both included. Where that is all, nothing is made.
    /// `NoMemory` comes only where some members are left, in more than two intervals.
    #[inline(always)]
    pub fn narrowed_to(&self, lo: i128, hi: i128) -> Result<Narrowed, NoMemory>
        ensures narrowed { IfOk result (IsNarrowed self.now (between lo hi)) }
        ensures no_memory { OnErr result
            (2 < interval_count (filter (has (between lo hi)) self.now)) }
    {
        let Some(bounds) = intervals::cut(lo, hi) else {
            return Ok(Narrowed::Empty);
        };
        if !self.is_cut(bounds) {
            return Ok(Narrowed::Same);
        }
        let spans = self.spans();
        if spans.len() == 1 {
            return Ok(narrow_one(*self.list.allocator(), spans[0], bounds));
        }
        let list = intervals::meet_all(*self.list.allocator(), spans, &[bounds])?;
        let left = Domain::of_list(list);
        match left.min() {
            None => Ok(Narrowed::Empty),
            Some(_) => Ok(Narrowed::Changed(left)),
        }
    }

    /// The same where 64 bits hold the bounds. Of an interval the ends alone are looked at.
    #[inline(always)]
    pub fn narrowed_between(&self, lo: i64, hi: i64) -> Result<Narrowed, NoMemory>
        ensures narrowed { IfOk result (IsNarrowed self.now (between lo hi)) }
        ensures no_memory { OnErr result
            (2 < interval_count (filter (has (between lo hi)) self.now)) }
    {
        if !self.is_interval() {
            return self.narrowed_to(lo as i128, hi as i128);
        }
        match self.part_between(lo, hi) {
            Part::All => Ok(Narrowed::Same),
            Part::Nothing => Ok(Narrowed::Empty),
            Part::Within(low, high) => {
                let left = Domain::of_span(*self.list.allocator(), (low, high));
                Ok(Narrowed::Changed(left))
            }
        }
    }

    /// What the numbers from `lo` to `hi`, both included, leave of the set, which isn't empty. Nothing is made.
    #[inline(always)]
    pub fn part_between(&self, lo: i64, hi: i64) -> Part
        requires { is_none_left self.now ≡ false }
        ensures { IsPart self.now (between lo hi) result }
    {
        let (least, greatest) = self.ends;
        if lo > least as i64 {
            let high = hi.min(greatest as i64);
            if lo <= high {
                Part::Within(lo as u32, high as u32)
            } else {
                Part::Nothing
            }
        } else if hi >= greatest as i64 {
            Part::All
        } else if hi >= least as i64 {
            Part::Within(least, hi as u32)
        } else {
            Part::Nothing
        }
    }

    /// Whether the set is the interval between its ends.
    #[inline(always)]
    pub fn is_interval(&self) -> bool
        ensures { IsTrue result ↔ IsInterval self.now }
    {
        self.list.len() == 1
    }

    /// The set becomes that of the numbers from `low` to `high`, in place where it was an interval.
    #[inline(always)]
    pub fn set_interval(&mut self, low: u32, high: u32)
        requires order { low ≤ high }
        requires high { high ≤ INFINITY }
        ensures { self.new ≡ members ((low, high) ∷ []) }
    {
        if self.list.len() == 1 {
            let spans = self.list.as_mut_slice();
            spans[0] = (low, high);
            self.ends = (low, high);
        } else {
            let alloc = *self.list.allocator();
            *self = Domain::of_span(alloc, (low, high));
        }
    }

    /// Whether `n` is a member, and the only one.
    #[inline(always)]
    pub fn membership(&self, n: i64) -> Membership
        ensures membership { IsMembership self.now n result }
        ensures rising { IsRising 0 INFINITY self.now }
    {
        let (least, greatest) = self.ends;
        if n < least as i64 || n > greatest as i64 {
            return Membership::Outside;
        }
        if !self.is_interval() && !intervals::contains(self.spans(), n as u32) {
            return Membership::Outside;
        }
        if least == greatest {
            Membership::Alone
        } else {
            Membership::Among(n as u32)
        }
    }

    /// Takes out the member `n`, which isn't the only one. After `NoMemory` the set is as it was; it comes only where the others stand
    /// in more than two intervals.
    #[inline(always)]
    pub fn leave_out(&mut self, n: u32) -> Result<(), NoMemory>
        requires member { IsTrue (has self.old n) }
        requires others { least self.old < greatest self.old }
        ensures left { OnOk result (self.new ≡ filter (has (all_but (pos n))) self.old) }
        ensures some { OnOk result (is_none_left self.new ≡ false) }
        ensures unchanged { OnErr result (self.new ≡ self.old) }
        ensures no_memory { OnErr result
            (2 < interval_count (filter (has (all_but (pos n))) self.old)) }
    {
        if !self.is_interval() {
            return self.leave_out_apart(n);
        }
        self.rises();
        *self = self.interval_without(n);
        Ok(())
    }

    /// The same of a set of any intervals.
    #[inline(never)]
    fn leave_out_apart(&mut self, n: u32) -> Result<(), NoMemory>
        requires member { IsTrue (has self.old n) }
        requires others { least self.old < greatest self.old }
        ensures left { OnOk result (self.new ≡ filter (has (all_but (pos n))) self.old) }
        ensures some { OnOk result (is_none_left self.new ≡ false) }
        ensures unchanged { OnErr result (self.new ≡ self.old) }
        ensures no_memory { OnErr result
            (2 < interval_count (filter (has (all_but (pos n))) self.old)) }
    {
        self.list.capacity();
        intervals::leave_out(&mut self.list, n)?;
        self.ends = intervals::ends(self.list.as_slice());
        Ok(())
    }

    /// What is left of the set without the number `n`. Where that is all, nothing is made.
    /// `NoMemory` comes only where the others stand in more than two intervals.
    #[inline(always)]
    pub fn narrowed_without(&self, n: i64) -> Result<Narrowed, NoMemory>
        ensures narrowed { IfOk result (IsNarrowed self.now (all_but n)) }
        ensures no_memory { OnErr result (2 < interval_count (filter (has (all_but n)) self.now)) }
    {
        if !self.is_interval() {
            return self.left_without(n);
        }
        match self.membership(n) {
            Membership::Outside => Ok(Narrowed::Same),
            Membership::Alone => Ok(Narrowed::Empty),
            Membership::Among(member) => Ok(Narrowed::Changed(self.interval_without(member))),
        }
    }

    /// The interval without the member `n`, which isn't the only one.
    #[inline(always)]
    fn interval_without(&self, n: u32) -> Domain
        requires interval { IsInterval self.now }
        requires member { IsTrue (has self.now n) }
        requires others { least self.now < greatest self.now }
        ensures { result ≡ filter (has (all_but (pos n))) self.now }
    {
        let alloc = *self.list.allocator();
        let (least, greatest) = self.ends;
        if n == least {
            Domain::of_span(alloc, (least + 1, greatest))
        } else if n == greatest {
            Domain::of_span(alloc, (least, greatest - 1))
        } else {
            Domain::of_pair(alloc, (least, n - 1), (n + 1, greatest))
        }
    }

    /// The same, wherever the number stands.
    #[inline(always)]
    fn left_without(&self, n: i64) -> Result<Narrowed, NoMemory>
        ensures narrowed { IfOk result (IsNarrowed self.now (all_but n)) }
        ensures no_memory { OnErr result (2 < interval_count (filter (has (all_but n)) self.now)) }
    {
        if !self.contains(n as i128) {
            return Ok(Narrowed::Same);
        }
        let list = intervals::without(*self.list.allocator(), self.spans(), n as u32)?;
        let left = Domain::of_list(list);
        match left.min() {
            None => Ok(Narrowed::Empty),
            Some(_) => Ok(Narrowed::Changed(left)),
        }
    }

    /// The least member that is at least `n`, and `None` where there is none.
    pub fn next_from(&self, n: u32) -> Option<u32>
        ensures least { MatchOption result (filter (λ k. nat_le n k) self.now ≡ [])
            (λ m. m ≡ least (filter (λ k. nat_le n k) self.now)) }
        ensures from { IfSome result (λ m. n ≤ m) }
        ensures member { IfSome result (λ m. IsTrue (has self.now m)) }
        ensures rising { IsRising 0 INFINITY self.now }
    {
        intervals::next_from(self.spans(), n)
    }

    /// The least member, and `None` where there is none.
    pub fn min(&self) -> Option<u32>
        ensures least { MatchOption result (self.now ≡ []) (λ n. n ≡ least self.now) }
        ensures some { OnSome result (is_none_left self.now ≡ false) }
        ensures member { IfSome result (λ n. IsTrue (has self.now n)) }
        ensures rising { IsRising 0 INFINITY self.now }
    {
        match self.spans() {
            [] => None,
            [first, ..] => Some(first.0),
        }
    }

    /// The greatest member, and `None` where there is none.
    pub fn max(&self) -> Option<u32>
        ensures greatest { MatchOption result (self.now ≡ []) (λ n. n ≡ greatest self.now) }
        ensures some { OnSome result (is_none_left self.now ≡ false) }
        ensures member { IfSome result (λ n. IsTrue (has self.now n)) }
        ensures rising { IsRising 0 INFINITY self.now }
    {
        match self.spans() {
            [] => None,
            [.., last] => Some(last.1),
        }
    }

    /// The least and the greatest member, and `None` where there is none.
    #[inline(always)]
    pub fn bounds(&self) -> Option<(u32, u32)>
        ensures least { MatchOption result (self.now ≡ []) (λ b. b.0 ≡ least self.now) }
        ensures greatest { IfSome result (λ b. b.1 ≡ greatest self.now) }
        ensures some { OnSome result (is_none_left self.now ≡ false) }
        ensures members { IfSome result
            (λ b. IsTrue (has self.now b.0) × IsTrue (has self.now b.1)) }
        ensures rising { IsRising 0 INFINITY self.now }
    {
        let spans = self.spans();
        match spans {
            [] => None,
            [first, ..] => Some((first.0, spans[spans.len() - 1].1)),
        }
    }

    /// The only member, and `None` where there is none or there are several.
    pub fn only_value(&self) -> Option<u32>
        ensures { result ≡ only self.now }
    {
        let least = self.min();
        if least == self.max() { least } else { None }
    }

    /// How many members the set has.
    pub fn size(&self) -> u32
        ensures size { result ≡ length self.now }
        ensures rising { IsRising 0 INFINITY self.now }
    {
        intervals::count(self.spans())
    }

    /// Whether `n` is a member.
    pub fn contains(&self, n: i128) -> bool
        ensures member { result ≡ has_int self.now n }
        ensures rising { IsRising 0 INFINITY self.now }
    {
        let spans = self.spans();
        n >= 0 && n <= INFINITY as i128 && intervals::contains(spans, n as u32)
    }

    /// The intervals, each with its least and its greatest number, in rising order.
    pub fn spans(&self) -> &[(u32, u32)]
        ensures members { members result.now ≡ self.now }
        ensures spans { IsSpans 0 INFINITY result.now }
        ensures rising { IsRising 0 INFINITY self.now }
    {
        self.list.as_slice()
    }

    /// Does nothing. A contract learns that the members rise.
    pub fn rises(&self)
        ensures { IsRising 0 INFINITY self.now }
    {
        self.spans();
    }

    /// The set of 0 alone, or the empty set.
    fn zero_if(alloc: Global, there: bool) -> Domain
        ensures { result ≡ members (if there then (0, 0) ∷ [] else []) }
    {
        if there {
            Domain::of_span(alloc, (0, 0))
        } else {
            Domain::empty(alloc)
        }
    }

    /// The numbers of the intervals.
    fn of_list(list: SmallVec<(u32, u32), 4>) -> Domain
        requires { IsSpans 0 INFINITY list.items }
        ensures { result ≡ members list.items }
    {
        let ends = intervals::ends(list.as_slice());
        Domain { ends, list }
    }

    /// Whether some member is below or above the bounds.
    #[inline(always)]
    fn is_cut(&self, bounds: (u32, u32)) -> bool
        requires order { bounds.0 ≤ bounds.1 }
        requires high { bounds.1 ≤ INFINITY }
        ensures no { result ≡ false → IsSubset self.now (members (bounds ∷ [])) }
        ensures yes { IsTrue result → (n : ℕ) × IsTrue (has self.now n)
            × (has (members (bounds ∷ [])) n ≡ false) }
    {
        let (least, greatest) = self.ends;
        if bounds.0 <= least && greatest <= bounds.1 {
            return false;
        }
        !self.spans().is_empty()
    }

    /// The least member, and 0 where there is none.
    #[inline(always)]
    pub fn least(&self) -> u32
        ensures least { result ≡ least self.now }
        ensures rising { IsRising 0 INFINITY self.now }
    {
        self.ends.0
    }

    /// The greatest member, and 0 where there is none.
    #[inline(always)]
    pub fn greatest(&self) -> u32
        ensures greatest { result ≡ greatest self.now }
        ensures rising { IsRising 0 INFINITY self.now }
    {
        self.ends.1
    }

    /// The numbers of two intervals, the second of which begins past the first one and doesn't touch it.
    #[inline(always)]
    fn of_pair(alloc: Global, first: (u32, u32), second: (u32, u32)) -> Domain
        requires first { first.0 ≤ first.1 }
        requires apart { first.1 + 2 ≤ second.0 }
        requires second { second.0 ≤ second.1 }
        requires high { second.1 ≤ INFINITY }
        ensures { result ≡ members (first ∷ second ∷ []) }
    {
        Domain {
            ends: (first.0, second.1),
            list: SmallVec::from_buf_and_len(alloc, [first, second, (0, 0), (0, 0)], 2),
        }
    }

    /// The numbers of one interval.
    #[inline(always)]
    pub fn of_span(alloc: Global, span: (u32, u32)) -> Domain
        requires order { span.0 ≤ span.1 }
        requires high { span.1 ≤ INFINITY }
        ensures { result ≡ members (span ∷ []) }
    {
        let mut list = SmallVec::new(alloc);
        list.push_reserved(span);
        Domain { ends: span, list }
    }
}

/// What is left of an interval among the numbers between the bounds, which isn't all.
#[inline(always)]
fn narrow_one(alloc: Global, span: (u32, u32), bounds: (u32, u32)) -> Narrowed
    requires { span.1 ≤ INFINITY }
    ensures { IsLeft (meet span bounds) result }
{
    let low = span.0.max(bounds.0);
    let high = span.1.min(bounds.1);
    if low <= high {
        Narrowed::Changed(Domain::of_span(alloc, (low, high)))
    } else {
        Narrowed::Empty
    }
}

/// A number that as a factor or a divisor does what `c` does to the numbers up to `INFINITY`.
fn factor(c: i128) -> u32
    requires { pos 1 ≤ℤ c }
    ensures same { (pos result ≡ c) ⊎ ((pos INFINITY <ℤ c) × (INFINITY < result)) }
    ensures positive { 1 ≤ result }
    ensures several { pos 2 ≤ℤ c → 2 ≤ result }
{
    if c > INFINITY as i128 {
        INFINITY + 1
    } else {
        c as u32
    }
}
