//! Lists of intervals that rise and don't touch.

ghost use Rattle.std.specs.Prelude.{◌≡◌, ◌<◌, ◌≤◌, ◌+◌, ◌&&◌, ◌||◌, not, ◌==◌, ◌*◌, ◌^◌, ◌<ℤ◌, neg_ℤ, IsTrue, IsSome, ℕ, false, [], ◌∷◌, ◌++◌, length, pos, int_le, nat_le, slice_index_or, slice_set, max, min, filter, IfSome, IfNone, IfOk, OnOk, OnErr};
ghost use Rattle.domain_ranges.specs.Spans.{Span, within, IsSpans, AreWithEnds, members, interval_count, meet, listed, written, joined, gap, parted, shifted, scaled};
ghost use Rattle.fd_language.specs.Family.{universe};
ghost use Rattle.domain_ranges.specs.StackedSets.{numbers, AreIntervals, AreRising};

use fd_language::{INFINITY, NoMemory};
use smallvec::SmallVec;
use std::alloc::Global;

/// The interval of the numbers from `lo` to `hi` that are in 0 to `INFINITY`, if there are any.
#[inline(always)]
pub(crate) fn cut(lo: i128, hi: i128) -> Option<(u32, u32)>
    ensures none { IfNone result ((n : ℕ)
        → n ≤ INFINITY → (int_le lo (pos n) && int_le (pos n) hi) ≡ false) }
    ensures order { IfSome result (λ s. s.0 ≤ s.1) }
    ensures high { IfSome result (λ s. s.1 ≤ INFINITY) }
    ensures same { IfSome result (λ s. (n : ℕ) → n ≤ INFINITY
        → (nat_le s.0 n && nat_le n s.1) ≡ (int_le lo (pos n) && int_le (pos n) hi)) }
{
    let low = lo.max(0);
    let high = hi.min(INFINITY as i128);
    if low <= high {
        Some((low as u32, high as u32))
    } else {
        None
    }
}

/// How many numbers are in the intervals.
pub(crate) fn count(spans: &[(u32, u32)]) -> u32
    requires { IsSpans 0 INFINITY spans.now }
    ensures { result ≡ length (members spans.now) }
{
    let mut count = 0;
    for span in spans {
        count += span.1 + 1 - span.0;
    }
    count
}

/// The place of the first interval that doesn't end below `n`, and the number of intervals where each does.
pub(crate) fn place_from(spans: &[(u32, u32)], n: u32) -> usize
    requires { IsSpans 0 INFINITY spans.now }
    ensures place { result ≤ length spans.now }
    ensures before { (k : ℕ) (d : Span) → k < result → (slice_index_or spans.now k d).1 < n }
    ensures after { (k : ℕ) (d : Span) → result ≤ k → k < length spans.now
        → n ≤ (slice_index_or spans.now k d).1 }
{
    spans.partition_point(|span| span.1 < n)
}

/// Whether the number is in one of the intervals.
#[inline(never)]
pub(crate) fn contains(spans: &[(u32, u32)], n: u32) -> bool
    requires { IsSpans 0 INFINITY spans.now }
    ensures { result ≡ within spans.now n }
{
    let place = place_from(spans, n);
    place < spans.len() && spans[place].0 <= n
}

/// Whether each number of the first intervals is in the second ones.
pub(crate) fn is_inside(a: &[(u32, u32)], b: &[(u32, u32)]) -> bool
    requires first { IsSpans 0 INFINITY a.now }
    requires second { IsSpans 0 INFINITY b.now }
    ensures inside { IsTrue result
        → (n : ℕ) → IsTrue (within a.now n) → IsTrue (within b.now n) }
    ensures outside { result ≡ false
        → (n : ℕ) × IsTrue (within a.now n) × (within b.now n ≡ false) }
{
    let mut i = 0;
    let mut j = 0;
    'comparing: while i < a.len() {
        if j >= b.len() {
            return false;
        }
        if b[j].1 < a[i].0 {
            j += 1;
        } else if b[j].0 <= a[i].0 && a[i].1 <= b[j].1 {
            i += 1;
        } else {
            return false;
        }
    }
    true
}

/// The least and the greatest number of the intervals, and 0 where there is none.
pub(crate) fn ends(spans: &[(u32, u32)]) -> (u32, u32)
    requires { IsSpans 0 INFINITY spans.now }
    ensures { AreWithEnds spans.now result }
{
    match spans {
        [] => (0, 0),
        [first, ..] => (first.0, spans[spans.len() - 1].1),
    }
}

/// Puts the interval behind the list.
fn push(list: &mut SmallVec<(u32, u32), 4>, span: (u32, u32)) -> Result<(), NoMemory>
    requires { 2 ≤ list.old.capacity }
    ensures ok { OnOk result (list.new.items ≡ list.old.items ++ span ∷ []) }
    ensures unchanged { OnErr result (list.new.items ≡ list.old.items) }
    ensures capacity { 2 ≤ list.new.capacity }
    ensures no_memory { OnErr result (2 ≤ length list.old.items) }
{
    list.push(span)?;
    Ok(())
}

/// Puts the numbers that are in both intervals behind the list.
fn push_meet(
    list: &mut SmallVec<(u32, u32), 4>,
    a: (u32, u32),
    b: (u32, u32),
) -> Result<(), NoMemory>
    requires { 2 ≤ list.old.capacity }
    ensures ok { OnOk result (list.new.items ≡ list.old.items ++ meet a b) }
    ensures capacity { 2 ≤ list.new.capacity }
    ensures no_memory { OnErr result ((2 ≤ length list.old.items) × (max a.0 b.0 ≤ min a.1 b.1)) }
{
    let low = a.0.max(b.0);
    let high = a.1.min(b.1);
    if low <= high {
        push(list, (low, high))?;
    }
    Ok(())
}

/// The numbers in both of two lists of intervals.
#[inline(never)]
pub(crate) fn meet_all(
    alloc: Global,
    a: &[(u32, u32)],
    b: &[(u32, u32)],
) -> Result<SmallVec<(u32, u32), 4>, NoMemory>
    requires first { IsSpans 0 INFINITY a.now }
    requires second { IsSpans 0 INFINITY b.now }
    ensures spans { IfOk result (λ list. IsSpans 0 INFINITY list.items) }
    ensures set { IfOk result (λ list. members list.items
        ≡ filter (λ n. within a.now n && within b.now n) (universe INFINITY)) }
    ensures no_memory { OnErr result (2 < interval_count
        (filter (λ n. within a.now n && within b.now n) (universe INFINITY))) }
{
    let mut list = SmallVec::new(alloc);
    let mut i = 0;
    let mut j = 0;
    'meeting: while i < a.len() && j < b.len() {
        push_meet(&mut list, a[i], b[j])?;
        if a[i].1 < b[j].1 {
            i += 1;
        } else {
            j += 1;
        }
    }
    Ok(list)
}

/// The numbers of the intervals but `n`.
#[inline(never)]
pub(crate) fn without(
    alloc: Global,
    spans: &[(u32, u32)],
    n: u32,
) -> Result<SmallVec<(u32, u32), 4>, NoMemory>
    requires list { IsSpans 0 INFINITY spans.now }
    requires number { n ≤ INFINITY }
    ensures spans { IfOk result (λ list. IsSpans 0 INFINITY list.items) }
    ensures set { IfOk result (λ list. members list.items
        ≡ filter (λ k. within spans.now k && not (k == n)) (universe INFINITY)) }
    ensures no_memory { OnErr result (2 < interval_count
        (filter (λ k. within spans.now k && not (k == n)) (universe INFINITY))) }
{
    let mut list = SmallVec::new(alloc);
    for span in spans {
        if n < span.0 || span.1 < n {
            push(&mut list, *span)?;
        } else {
            push_gap(&mut list, span.0, n)?;
            push_gap(&mut list, n + 1, span.1 + 1)?;
        }
    }
    Ok(list)
}

/// Writes an interval at a place.
#[inline(always)]
fn write(list: &mut SmallVec<(u32, u32), 4>, place: usize, span: (u32, u32))
    requires { place < length list.old.items }
    ensures { list.new.items ≡ slice_set list.old.items place span }
{
    let spans = list.as_mut_slice();
    spans[place] = span;
}

/// Parts the interval at a place by a number that it has: it loses an end, goes, or becomes two.
/// After `NoMemory` the list is as it was.
fn part(list: &mut SmallVec<(u32, u32), 4>, place: usize, n: u32) -> Result<(), NoMemory>
    requires capacity { 2 ≤ list.old.capacity }
    requires place { place < length list.old.items }
    requires low { (slice_index_or list.old.items place (0, 0)).0 ≤ n }
    requires high { n ≤ (slice_index_or list.old.items place (0, 0)).1 }
    requires fits { n ≤ INFINITY }
    ensures parted { OnOk result (list.new.items ≡ parted list.old.items place n) }
    ensures unchanged { OnErr result (list.new.items ≡ list.old.items) }
    ensures no_memory { OnErr result (2 < length (parted list.old.items place n)) }
{
    let (low, high) = list.as_slice()[place];
    if low == high {
        let _span = list.remove(place);
    } else if n == low {
        write(list, place, (n + 1, high));
    } else if n == high {
        write(list, place, (low, n - 1));
    } else {
        list.insert(place + 1, (n + 1, high))?;
        write(list, place, (low, n - 1));
    }
    Ok(())
}

/// Takes a number out of the intervals, one of which has it. After `NoMemory` they are as they were.
pub(crate) fn leave_out(list: &mut SmallVec<(u32, u32), 4>, n: u32) -> Result<(), NoMemory>
    requires capacity { 2 ≤ list.old.capacity }
    requires spans { IsSpans 0 INFINITY list.old.items }
    requires member { IsTrue (within list.old.items n) }
    ensures spans { OnOk result (IsSpans 0 INFINITY list.new.items) }
    ensures set { OnOk result (members list.new.items
        ≡ filter (λ k. within list.old.items k && not (k == n)) (universe INFINITY)) }
    ensures unchanged { OnErr result (list.new.items ≡ list.old.items) }
    ensures no_memory { OnErr result (2 < interval_count
        (filter (λ k. within list.old.items k && not (k == n)) (universe INFINITY))) }
{
    let place = place_from(list.as_slice(), n);
    part(list, place, n)
}

/// Puts `last` behind the list, unless `next`, which begins no earlier, touches it. What the list may then end with.
fn join(
    list: &mut SmallVec<(u32, u32), 4>,
    last: Option<(u32, u32)>,
    next: (u32, u32),
) -> Result<(u32, u32), NoMemory>
    requires capacity { 2 ≤ list.old.capacity }
    requires high { IfSome last (λ s. s.1 ≤ INFINITY) }
    ensures written { OnOk result (list.new.items ≡ list.old.items ++ written last next) }
    ensures joined { IfOk result (λ now. now ≡ joined last next) }
    ensures unchanged { OnErr result (list.new.items ≡ list.old.items) }
    ensures capacity { 2 ≤ list.new.capacity }
    ensures no_memory { OnErr result (2 ≤ length list.old.items) }
    ensures apart { OnErr result (IfSome last (λ s. s.1 + 1 < next.0)) }
    ensures open { OnErr result (IsSome last) }
{
    let Some(last) = last else {
        return Ok(next);
    };
    if next.0 <= last.1 + 1 {
        return Ok((last.0, last.1.max(next.1)));
    }
    push(list, last)?;
    Ok(next)
}

/// The list with the interval that it may end with.
fn close(
    mut list: SmallVec<(u32, u32), 4>,
    last: Option<(u32, u32)>,
) -> Result<SmallVec<(u32, u32), 4>, NoMemory>
    requires capacity { 2 ≤ list.capacity }
    ensures all { IfOk result (λ whole. whole.items ≡ list.items ++ listed last) }
    ensures no_memory { OnErr result (2 ≤ length list.items) }
    ensures open { OnErr result (IsSome last) }
{
    if let Some(last) = last {
        push(&mut list, last)?;
    }
    Ok(list)
}

/// Whether the interval at `i` of `a` begins no later than that at `j` of `b`, or `b` has none there.
fn is_first(a: &[(u32, u32)], i: usize, b: &[(u32, u32)], j: usize) -> bool
    ensures yes { IsTrue result → i < length a.now }
    ensures earlier { IsTrue result → j < length b.now
        → (slice_index_or a.now i (0, 0)).0 ≤ (slice_index_or b.now j (0, 0)).0 }
    ensures no { result ≡ false → i < length a.now → j < length b.now }
    ensures later { result ≡ false → i < length a.now
        → (slice_index_or b.now j (0, 0)).0 ≤ (slice_index_or a.now i (0, 0)).0 }
{
    i < a.len() && (j >= b.len() || a[i].0 <= b[j].0)
}

/// The numbers in one of two lists of intervals.
pub(crate) fn join_all(
    alloc: Global,
    a: &[(u32, u32)],
    b: &[(u32, u32)],
) -> Result<SmallVec<(u32, u32), 4>, NoMemory>
    requires first { IsSpans 0 INFINITY a.now }
    requires second { IsSpans 0 INFINITY b.now }
    ensures spans { IfOk result (λ list. IsSpans 0 INFINITY list.items) }
    ensures set { IfOk result (λ list. members list.items
        ≡ filter (λ n. within a.now n || within b.now n) (universe INFINITY)) }
    ensures no_memory { OnErr result (2 < interval_count
        (filter (λ n. within a.now n || within b.now n) (universe INFINITY))) }
{
    let mut list = SmallVec::new(alloc);
    let mut last = None;
    let mut i = 0;
    let mut j = 0;
    'joining: while i < a.len() || j < b.len() {
        if is_first(a, i, b, j) {
            last = Some(join(&mut list, last, a[i])?);
            i += 1;
        } else {
            last = Some(join(&mut list, last, b[j])?);
            j += 1;
        }
    }
    close(list, last)
}

/// Whether the intervals rise, with a gap between each and the next.
fn is_apart(spans: &[(u32, u32)]) -> bool
    requires { AreIntervals spans.now }
    ensures { IsTrue result → IsSpans 0 INFINITY spans.now }
{
    let mut from = 0;
    for span in spans {
        if span.0 < from {
            return false;
        }
        from = span.1 + 2;
    }
    true
}

/// Whether the intervals begin in rising order.
fn is_rising(spans: &[(u32, u32)]) -> bool
    ensures { IsTrue result → AreRising 0 spans.now }
{
    let mut from = 0;
    for span in spans {
        if span.0 < from {
            return false;
        }
        from = span.0;
    }
    true
}

/// The numbers of intervals that begin in rising order.
fn join_rising(alloc: Global, spans: &[(u32, u32)]) -> Result<SmallVec<(u32, u32), 4>, NoMemory>
    requires intervals { AreIntervals spans.now }
    requires rising { AreRising 0 spans.now }
    ensures spans { IfOk result (λ list. IsSpans 0 INFINITY list.items) }
    ensures set { IfOk result (λ list. members list.items ≡ numbers spans.now) }
{
    let mut list = SmallVec::new(alloc);
    let mut last = None;
    for span in spans {
        last = Some(join(&mut list, last, *span)?);
    }
    close(list, last)
}

/// The numbers of intervals that stand in any order. One pass is made where they begin in rising order.
pub(crate) fn settled(
    alloc: Global,
    spans: &[(u32, u32)],
) -> Result<SmallVec<(u32, u32), 4>, NoMemory>
    requires { AreIntervals spans.now }
    ensures spans { IfOk result (λ list. IsSpans 0 INFINITY list.items) }
    ensures set { IfOk result (λ list. members list.items ≡ numbers spans.now) }
{
    if is_apart(spans) {
        return Ok(SmallVec::from_slice(alloc, spans)?);
    }
    if is_rising(spans) {
        return join_rising(alloc, spans);
    }
    let mut sorted = Vec::from_slice(alloc, spans)?;
    sorted.sort_unstable_by_key(|span| span.0);
    join_rising(alloc, &sorted)
}

/// Puts the numbers from `from` on and below `to` behind the list, if there are any.
fn push_gap(list: &mut SmallVec<(u32, u32), 4>, from: u32, to: u32) -> Result<(), NoMemory>
    requires { 2 ≤ list.old.capacity }
    ensures ok { OnOk result (list.new.items ≡ list.old.items ++ gap from to) }
    ensures capacity { 2 ≤ list.new.capacity }
    ensures no_memory { OnErr result (2 ≤ length list.old.items) }
    ensures some { OnErr result (from < to) }
{
    if from < to {
        push(list, (from, to - 1))?;
    }
    Ok(())
}

/// The numbers from 0 to `INFINITY` that are in none of the intervals.
pub(crate) fn gaps(alloc: Global, spans: &[(u32, u32)]) -> Result<SmallVec<(u32, u32), 4>, NoMemory>
    requires { IsSpans 0 INFINITY spans.now }
    ensures spans { IfOk result (λ list. IsSpans 0 INFINITY list.items) }
    ensures set { IfOk result (λ list. members list.items
        ≡ filter (λ n. not (within spans.now n)) (universe INFINITY)) }
    ensures no_memory { OnErr result (2 < interval_count
        (filter (λ n. not (within spans.now n)) (universe INFINITY))) }
{
    let mut list = SmallVec::new(alloc);
    let mut next = 0;
    for span in spans {
        push_gap(&mut list, next, span.0)?;
        next = span.1 + 1;
    }
    push_gap(&mut list, next, INFINITY + 1)?;
    Ok(list)
}

/// The numbers of the intervals plus `c`.
pub(crate) fn shift_all(
    alloc: Global,
    spans: &[(u32, u32)],
    c: i128,
) -> Result<SmallVec<(u32, u32), 4>, NoMemory>
    requires list { IsSpans 0 INFINITY spans.now }
    requires low { neg_ℤ (pos (2 ^ 126)) <ℤ c }
    requires high { c <ℤ pos (2 ^ 126) }
    ensures spans { IfOk result (λ list. IsSpans 0 INFINITY list.items) }
    ensures set { IfOk result (λ list. members list.items
        ≡ filter (shifted spans.now c) (universe INFINITY)) }
    ensures no_memory { OnErr result
        (2 < interval_count (filter (shifted spans.now c) (universe INFINITY))) }
{
    let mut list = SmallVec::new(alloc);
    for span in spans {
        if let Some(moved) = cut(span.0 as i128 + c, span.1 as i128 + c) {
            push(&mut list, moved)?;
        }
    }
    Ok(list)
}

/// The numbers of the intervals times `c`, each an interval of its own.
pub(crate) fn scale_all(
    alloc: Global,
    spans: &[(u32, u32)],
    c: u32,
) -> Result<SmallVec<(u32, u32), 4>, NoMemory>
    requires list { IsSpans 0 INFINITY spans.now }
    requires factor { 2 ≤ c }
    ensures spans { IfOk result (λ list. IsSpans 0 INFINITY list.items) }
    ensures set { IfOk result (λ list. members list.items
        ≡ filter (scaled spans.now c) (universe INFINITY)) }
    ensures no_memory { OnErr result
        (2 < interval_count (filter (scaled spans.now c) (universe INFINITY))) }
{
    let mut list = SmallVec::new(alloc);
    let limit = INFINITY / c;
    let mut next = 0;
    let mut i = 0;
    'scaling: while i < spans.len() {
        let member = spans[i].0.max(next);
        if member > limit {
            break;
        }
        push(&mut list, (member * c, member * c))?;
        next = member + 1;
        if member == spans[i].1 {
            i += 1;
        }
    }
    Ok(list)
}

/// The numbers whose product with `c` is in the intervals.
pub(crate) fn divide_all(
    alloc: Global,
    spans: &[(u32, u32)],
    c: u32,
) -> Result<SmallVec<(u32, u32), 4>, NoMemory>
    requires list { IsSpans 0 INFINITY spans.now }
    requires divisor { 1 ≤ c }
    ensures spans { IfOk result (λ list. IsSpans 0 INFINITY list.items) }
    ensures set { IfOk result (λ list. members list.items
        ≡ filter (λ n. within spans.now (n * c)) (universe INFINITY)) }
    ensures no_memory { OnErr result (2 < interval_count
        (filter (λ n. within spans.now (n * c)) (universe INFINITY))) }
{
    let mut list = SmallVec::new(alloc);
    let mut last = None;
    for span in spans {
        let low = span.0.div_ceil(c);
        let high = span.1 / c;
        if low <= high {
            last = Some(join(&mut list, last, (low, high))?);
        }
    }
    close(list, last)
}

/// The least number of the intervals that is at least `n`.
pub(crate) fn next_from(spans: &[(u32, u32)], n: u32) -> Option<u32>
    requires { IsSpans 0 INFINITY spans.now }
    ensures none { IfNone result ((k : ℕ) → n ≤ k → within spans.now k ≡ false) }
    ensures from { IfSome result (λ m. n ≤ m) }
    ensures there { IfSome result (λ m. IsTrue (within spans.now m)) }
    ensures least { IfSome result (λ m. (k : ℕ) → n ≤ k → IsTrue (within spans.now k) → m ≤ k) }
{
    let place = place_from(spans, n);
    if place < spans.len() {
        Some(spans[place].0.max(n))
    } else {
        None
    }
}
