//! Ranges whose set one look at a variable or two tells, with the variables in hand.

ghost use Rattle.std.specs.Prelude.{◌≡◌, ◌<◌, ◌≤◌, ◌^◌, ◌+◌, ◌-◌, pos, ◌+ℤ◌, ◌-ℤ◌, ◌*ℤ◌, ◌/◌, min, nat_abs, List, [], ◌∷◌, ℕ, length, IfSome, IsTrue};
ghost use Rattle.fd_language.specs.Range.{Range, div_down, div_up, greatest, least};
ghost use Rattle.fd_language.specs.PostfixRanges.{nodes_of};
ghost use Rattle.fd_language.specs.RangeVerdict.{is_accepted};
ghost use Rattle.range_code.specs.Frames.{slot_variable, slot_integer};
ghost use Rattle.range_code.specs.Forms.{IsEvaluation, IsException, IsInterval, IsNumber};
ghost use Rattle.range_code.specs.ValSlots.{val_slots};
ghost use Rattle.range_code.specs.Slots.{in_slots};
ghost use Rattle.range_code.specs.QuickForms.{IsLessOf, IsPairOf, IsQuick, IsSmall, IsWithin, between_parameters, counted_reach as counted_in, counter_greatest, counter_least, reached};

use crate::form::{
    Bound, End, Evaluation, Product, Shift, add_end, end_of, is_same_end, is_span, is_whole,
    shift_of,
};
use crate::frame::{Arg, is_open};
use crate::told_forms::{Pairing, from, may_be, must_be, up_to};
use crate::{RangeCode, Reach};
use domain_ranges::{Domain, Membership, View};
use fd_language::{INFINITY, RangeNode};

/// The set of a range with its arguments, where one look at a variable or two tells it.
#[derive(Clone, Copy)]
pub enum Quick {
    /// Such a look doesn't tell it.
    Other,
    /// From a number to a number.
    Within(i64, i64),
    /// All numbers but the value of a variable plus a constant, and all while it has several.
    Differs(usize, i64),
    /// From the least member of a variable plus a constant up to the number behind.
    Above(usize, i64, i64),
    /// From the number behind up to the greatest member of a variable plus a constant.
    Below(usize, i64, i64),
    /// From the least member of a variable to its greatest, both plus a constant.
    Moved(usize, i64),
    /// From the least members of two variables to their greatest, both plus a constant.
    Plus(usize, usize, i64),
    /// All that a variable less another may be, plus a constant.
    Minus(usize, usize, i64),
    /// 1 alone where the variable has the number alone, 0 alone where it doesn't have it, and else both.
    Counter(usize, i64),
    /// The number alone where the variable, its counter, is 1, all but the number where it is 0, and all where it may be both.
    Counted(usize, i64),
    /// From the product of the least members of two variables to that of their greatest.
    Products(usize, usize),
    /// All numbers whose product with a member of the second variable may be one of the first.
    Quotients(usize, usize),
    /// From 0 to the greatest that the sum may be.
    UpTo(Pairing),
    /// From the least that the sum may be.
    From(Pairing),
    /// From 0, to 1 where the sum may be 0 or more, and else to 0.
    MayBe(Pairing),
    /// From 1 where the sum is always 0 or more, and else from 0.
    MustBe(Pairing),
    /// From the number less the greatest member of the variable to the number less the least.
    Turned(usize, i64),
    /// From the least member of the first variable to its greatest and 1, less the least of the second.
    Conjunct(usize, usize),
    /// From the least member of the first variable less the greatest of the second to the greatest of the first.
    Disjunct(usize, usize),
    /// In 0 to 1, from half the sum of the least members, rounded up, to the sum of the greatest.
    Disjunction(usize, usize),
}

/// The sum of a constant and an end of the domain in a slot, and another end in a second slot.
#[derive(Clone, Copy)]
pub(crate) struct Pair {
    pub constant: i64,
    pub first: usize,
    pub second: usize,
}

/// The variable in the slot, if there is one.
pub(crate) fn variable_at(args: &[Arg], slot: usize) -> Option<usize>
    ensures { IfSome result (λ k. slot_variable args.now slot ≡ k) }
{
    match args.get(slot) {
        Some(Arg::Var(number)) => Some(*number),
        _ => None,
    }
}

/// The integer in the slot, if there is one.
fn integer_at(args: &[Arg], slot: usize) -> Option<i64>
    ensures { IfSome result (λ z. slot_integer args.now slot ≡ z) }
{
    match args.get(slot) {
        Some(Arg::Int(value)) => Some(*value),
        _ => None,
    }
}

/// The slots of two parameters, where the nodes spell the interval from the one to the other.
fn parameters_of(nodes: &[RangeNode]) -> Option<(usize, usize)>
    ensures { IfSome result (λ slots. nodes.now
        ≡ nodes_of (between_parameters slots.0 slots.1)) }
{
    let [one, other, last] = nodes else {
        return None;
    };
    if !is_span(*last) {
        return None;
    }
    let RangeNode::Param(low) = one else {
        return None;
    };
    let RangeNode::Param(high) = other else {
        return None;
    };
    Some((*low as usize, *high as usize))
}

/// The interval between two parameters.
fn quick_within(nodes: &[RangeNode], args: &[Arg]) -> Option<Quick>
    ensures { IfSome result (λ quick. (r : Range) → IsTrue (is_accepted INFINITY r)
        → nodes.now ≡ nodes_of (in_slots r) → IsQuick r args.now quick) }
{
    let slots = parameters_of(nodes)?;
    let low = integer_at(args, slots.0)?;
    let high = integer_at(args, slots.1)?;
    Some(Quick::Within(low, high))
}

/// Whether the product has this weight and this end.
fn is_product(product: Product, weight: i64, end: End) -> bool
    ensures weight { IsTrue result → product.weight ≡ weight }
    ensures end { IsTrue result → product.end ≡ end }
{
    product.weight == weight && is_same_end(product.end, end)
}

/// The constant and the slots of a bound that adds an end in one slot to a number times an end in another, and isn't divided.
fn pair_of(bound: &Bound, end: End, weight: i64, other: End) -> Option<Pair>
    ensures { IfSome result (IsPairOf bound.now end weight other) }
{
    if !is_whole(bound.division) {
        return None;
    }
    let [one, two] = bound.products.as_slice() else {
        return None;
    };
    let constant = bound.constant;
    if is_product(*one, 1, end) && is_product(*two, weight, other) {
        let (first, second) = (one.slot, two.slot);
        return Some(Pair {
            constant,
            first,
            second,
        });
    }
    if is_product(*two, 1, end) && is_product(*one, weight, other) {
        let (first, second) = (two.slot, one.slot);
        return Some(Pair {
            constant,
            first,
            second,
        });
    }
    None
}

/// The number and the slot of a bound that is a number less an end in the slot, and isn't divided.
fn less_of(bound: &Bound, end: End) -> Option<Shift>
    ensures { IfSome result (IsLessOf bound.now end) }
{
    if !is_whole(bound.division) {
        return None;
    }
    let [only] = bound.products.as_slice() else {
        return None;
    };
    if !is_product(*only, -1, end) {
        return None;
    }
    Some(Shift {
        constant: bound.constant,
        slot: only.slot,
    })
}

fn is_same_pair(a: Pair, b: Pair) -> bool
    ensures { IsTrue result → a ≡ b }
{
    a.constant == b.constant && a.first == b.first && a.second == b.second
}

/// The interval between two bounds that are the ends of one variable.
fn moved(low: &Bound, high: &Bound, args: &[Arg]) -> Option<Quick>
    ensures { IfSome result (λ quick. (r : Range) → IsTrue (is_accepted INFINITY r)
        → val_slots r ≡ [] → IsInterval (in_slots r) low.now high.now
        → IsQuick r args.now quick) }
{
    let least = shift_of(low, End::Least)?;
    let greatest = shift_of(high, End::Greatest)?;
    if least.slot != greatest.slot || least.constant != greatest.constant {
        return None;
    }
    let variable = variable_at(args, least.slot)?;
    Some(Quick::Moved(variable, least.constant))
}

/// The interval between two bounds that are the ends of two variables added.
fn plus(low: &Bound, high: &Bound, args: &[Arg]) -> Option<Quick>
    ensures { IfSome result (λ quick. (r : Range) → IsTrue (is_accepted INFINITY r)
        → val_slots r ≡ [] → IsInterval (in_slots r) low.now high.now
        → IsQuick r args.now quick) }
{
    let least = pair_of(low, End::Least, 1, End::Least)?;
    let greatest = pair_of(high, End::Greatest, 1, End::Greatest)?;
    if !is_same_pair(least, greatest) {
        return None;
    }
    let one = variable_at(args, least.first)?;
    let other = variable_at(args, least.second)?;
    Some(Quick::Plus(one, other, least.constant))
}

/// The interval between two bounds that are the ends of a variable less another.
fn minus(low: &Bound, high: &Bound, args: &[Arg]) -> Option<Quick>
    ensures { IfSome result (λ quick. (r : Range) → IsTrue (is_accepted INFINITY r)
        → val_slots r ≡ [] → IsInterval (in_slots r) low.now high.now
        → IsQuick r args.now quick) }
{
    let least = pair_of(low, End::Least, -1, End::Greatest)?;
    let greatest = pair_of(high, End::Greatest, -1, End::Least)?;
    if !is_same_pair(least, greatest) {
        return None;
    }
    let one = variable_at(args, least.first)?;
    let other = variable_at(args, least.second)?;
    Some(Quick::Minus(one, other, least.constant))
}

/// The interval between two bounds, where nothing is read by val.
fn quick_row(low: &Bound, high: &Bound, args: &[Arg]) -> Option<Quick>
    ensures { IfSome result (λ quick. (r : Range) → IsTrue (is_accepted INFINITY r)
        → val_slots r ≡ [] → IsInterval (in_slots r) low.now high.now
        → IsQuick r args.now quick) }
{
    if let Some(quick) = moved(low, high, args) {
        return Some(quick);
    }
    if let Some(quick) = plus(low, high, args) {
        return Some(quick);
    }
    if let Some(quick) = minus(low, high, args) {
        return Some(quick);
    }
    turned(low, high, args)
}

/// The interval between two bounds that are a number less the ends of one variable.
fn turned(low: &Bound, high: &Bound, args: &[Arg]) -> Option<Quick>
    ensures { IfSome result (λ quick. (r : Range) → IsTrue (is_accepted INFINITY r)
        → val_slots r ≡ [] → IsInterval (in_slots r) low.now high.now
        → IsQuick r args.now quick) }
{
    let greatest = less_of(low, End::Greatest)?;
    let least = less_of(high, End::Least)?;
    if least.slot != greatest.slot || least.constant != greatest.constant {
        return None;
    }
    let variable = variable_at(args, least.slot)?;
    Some(Quick::Turned(variable, least.constant))
}

/// The interval of a side of a conjunction.
fn conjunct(low: &Bound, high: &Bound, args: &[Arg]) -> Option<Quick>
    ensures { IfSome result (λ quick. (r : Range) → IsTrue (is_accepted INFINITY r)
        → val_slots r ≡ [] → IsInterval (in_slots r) low.now high.now
        → IsQuick r args.now quick) }
{
    let least = shift_of(low, End::Least)?;
    let rest = pair_of(high, End::Greatest, -1, End::Least)?;
    if least.constant != 0 || rest.constant != 1 || least.slot != rest.first {
        return None;
    }
    let one = variable_at(args, rest.first)?;
    let other = variable_at(args, rest.second)?;
    Some(Quick::Conjunct(one, other))
}

/// The interval of a side of a disjunction.
fn disjunct(low: &Bound, high: &Bound, args: &[Arg]) -> Option<Quick>
    ensures { IfSome result (λ quick. (r : Range) → IsTrue (is_accepted INFINITY r)
        → val_slots r ≡ [] → IsInterval (in_slots r) low.now high.now
        → IsQuick r args.now quick) }
{
    let greatest = shift_of(high, End::Greatest)?;
    let rest = pair_of(low, End::Least, -1, End::Greatest)?;
    if greatest.constant != 0 || rest.constant != 0 || greatest.slot != rest.first {
        return None;
    }
    let one = variable_at(args, rest.first)?;
    let other = variable_at(args, rest.second)?;
    Some(Quick::Disjunct(one, other))
}

/// The interval between two bounds of a comparison that a variable tells, or of a gate.
fn quick_between(low: &Bound, high: &Bound, args: &[Arg]) -> Option<Quick>
    ensures { IfSome result (λ quick. (r : Range) → IsTrue (is_accepted INFINITY r)
        → val_slots r ≡ [] → IsInterval (in_slots r) low.now high.now
        → IsQuick r args.now quick) }
{
    if let Some(sum) = may_be(low, high, args) {
        return Some(Quick::MayBe(sum));
    }
    if let Some(sum) = must_be(low, high, args) {
        return Some(Quick::MustBe(sum));
    }
    if let Some(sum) = up_to(low, high, args) {
        return Some(Quick::UpTo(sum));
    }
    if let Some(sum) = from(low, high, args) {
        return Some(Quick::From(sum));
    }
    if let Some(quick) = conjunct(low, high, args) {
        return Some(quick);
    }
    disjunct(low, high, args)
}

/// All numbers but one, where that is a variable's value plus a constant.
fn quick_except(number: &Bound, vals: &[usize], args: &[Arg]) -> Option<Quick>
    ensures { IfSome result (λ quick. (r : Range) → IsTrue (is_accepted INFINITY r)
        → vals.now ≡ val_slots r → IsException (in_slots r) number.now
        → IsQuick r args.now quick) }
{
    let shift = shift_of(number, End::Least)?;
    let [only] = vals else {
        return None;
    };
    if *only != shift.slot {
        return None;
    }
    let variable = variable_at(args, shift.slot)?;
    Some(Quick::Differs(variable, shift.constant))
}

/// The quick form of the form, where nothing is read by val.
fn quick_without_val(form: &Evaluation, args: &[Arg]) -> Option<Quick>
    ensures { IfSome result (λ quick. (r : Range) → IsTrue (is_accepted INFINITY r)
        → val_slots r ≡ [] → IsEvaluation (in_slots r) form.now
        → IsQuick r args.now quick) }
{
    match form {
        Evaluation::Row(low, high) => quick_row(low, high, args),
        Evaluation::Between(low, high) => quick_between(low, high, args),
        Evaluation::Disjunction(one, other) => {
            let one = variable_at(args, *one)?;
            let other = variable_at(args, *other)?;
            Some(Quick::Disjunction(one, other))
        }
        Evaluation::Counter(value, slot) => {
            let variable = variable_at(args, *slot)?;
            Some(Quick::Counter(variable, *value))
        }
        Evaluation::Counted(value, slot) => {
            let variable = variable_at(args, *slot)?;
            Some(Quick::Counted(variable, *value))
        }
        Evaluation::Products(one, other) => {
            let one = variable_at(args, *one)?;
            let other = variable_at(args, *other)?;
            Some(Quick::Products(one, other))
        }
        Evaluation::Quotients(one, other) => {
            let one = variable_at(args, *one)?;
            let other = variable_at(args, *other)?;
            Some(Quick::Quotients(one, other))
        }
        _ => None,
    }
}

fn quick_form(code: &RangeCode, args: &[Arg]) -> Option<Quick>
    ensures { IfSome result (IsQuick code.now args.now) }
{
    match code.form() {
        Evaluation::Nodes => quick_within(code.nodes(), args),
        Evaluation::Differs(slot) => {
            let variable = variable_at(args, *slot)?;
            Some(Quick::Differs(variable, 0))
        }
        Evaluation::Above(low, high) => {
            let variable = variable_at(args, low.slot)?;
            Some(Quick::Above(variable, low.constant, *high))
        }
        Evaluation::Below(low, high) => {
            let variable = variable_at(args, high.slot)?;
            Some(Quick::Below(variable, high.constant, *low))
        }
        Evaluation::Except(number) => quick_except(number, code.vals(), args),
        form if code.reads_no_val() => quick_without_val(form, args),
        _ => None,
    }
}

/// What the set of the range with these arguments is, as far as one look at a variable or two tells it.
pub fn quick_of(code: &RangeCode, args: &[Arg]) -> Quick
    ensures { IsQuick code.now args.now result }
{
    match quick_form(code, args) {
        Some(quick) => quick,
        None => Quick::Other,
    }
}

/// A constant and the ends of two domains.
#[inline(always)]
fn add_ends(constant: i64, one: u32, other: u32) -> i64
    requires width { nat_abs constant + (INFINITY + INFINITY) ≤ 2 ^ 63 - 1 }
    requires one { one ≤ INFINITY }
    requires other { other ≤ INFINITY }
    ensures { result ≡ (constant +ℤ pos one) +ℤ pos other }
{
    add_end(add_end(constant, one), other)
}

/// A constant and the end of a domain, less the end of another.
#[inline(always)]
fn less_end(constant: i64, one: u32, other: u32) -> i64
    requires width { nat_abs constant + (INFINITY + INFINITY) ≤ 2 ^ 63 - 1 }
    requires one { one ≤ INFINITY }
    requires other { other ≤ INFINITY }
    ensures { result ≡ (constant +ℤ pos one) -ℤ pos other }
{
    add_end(constant, one) - other as i64
}

/// From the least members of two domains to their greatest, plus a constant.
#[inline(always)]
fn sums_between(constant: i64, one: &Domain, other: &Domain) -> Reach
    requires { nat_abs constant + (INFINITY + INFINITY) ≤ 2 ^ 63 - 1 }
    ensures { result ≡ Reach.Between
        ((constant +ℤ pos (least one.now)) +ℤ pos (least other.now))
        ((constant +ℤ pos (greatest one.now)) +ℤ pos (greatest other.now)) }
{
    let low = add_ends(constant, end_of(one, End::Least), end_of(other, End::Least));
    let high = add_ends(
        constant,
        end_of(one, End::Greatest),
        end_of(other, End::Greatest),
    );
    Reach::Between(low, high)
}

/// All that a member of a domain less one of another may be at most and at least, plus a constant.
#[inline(always)]
fn differences_between(constant: i64, one: &Domain, other: &Domain) -> Reach
    requires { nat_abs constant + (INFINITY + INFINITY) ≤ 2 ^ 63 - 1 }
    ensures { result ≡ Reach.Between
        ((constant +ℤ pos (least one.now)) -ℤ pos (greatest other.now))
        ((constant +ℤ pos (greatest one.now)) -ℤ pos (least other.now)) }
{
    let low = less_end(
        constant,
        end_of(one, End::Least),
        end_of(other, End::Greatest),
    );
    let high = less_end(
        constant,
        end_of(one, End::Greatest),
        end_of(other, End::Least),
    );
    Reach::Between(low, high)
}

/// What the counter of the number in the domain may be.
#[inline(always)]
fn counter_reach(domain: &Domain, value: i64) -> Reach
    ensures { result ≡ Reach.Between (counter_least domain.now value)
        (counter_greatest domain.now value) }
{
    match domain.membership(value) {
        Membership::Outside => Reach::Between(0, 0),
        Membership::Alone => Reach::Between(1, 1),
        Membership::Among(_) => Reach::Between(0, 1),
    }
}

/// What a variable may be whose number is counted by a counter with this domain.
#[inline(always)]
fn counted_reach(counter: &Domain, value: i64) -> Reach
    requires { IsNumber value }
    ensures { result ≡ counted_in counter.now value }
{
    let high = end_of(counter, End::Greatest);
    if end_of(counter, End::Least) != 0 {
        Reach::Between(value, value + (high as i64 - 1) * (INFINITY as i64 + 1))
    } else if high == 0 {
        Reach::Except(value)
    } else {
        Reach::All
    }
}

/// The product of two ends.
#[inline(always)]
fn product(a: u32, b: u32) -> i64
    requires one { a ≤ INFINITY }
    requires other { b ≤ INFINITY }
    ensures { result ≡ pos a *ℤ pos b }
{
    a as i64 * b as i64
}

/// The quotient of two ends, rounded up. By 0 it is 0 for 0, and else `INFINITY`.
#[inline(always)]
fn quotient_up(a: u32, b: u32) -> i64
    requires one { a ≤ INFINITY }
    requires other { b ≤ INFINITY }
    ensures { result ≡ div_up INFINITY (pos a) (pos b) }
{
    if b != 0 {
        ((a + (b - 1)) / b) as i64
    } else if a == 0 {
        0
    } else {
        INFINITY as i64
    }
}

/// The quotient of two ends, rounded down. By 0 it is `INFINITY`.
#[inline(always)]
fn quotient_down(a: u32, b: u32) -> i64
    requires { a ≤ INFINITY }
    ensures { result ≡ div_down INFINITY (pos a) (pos b) }
{
    if b != 0 {
        (a / b) as i64
    } else {
        INFINITY as i64
    }
}

/// From the product of the least members of two domains to that of their greatest.
#[inline(always)]
fn products_between(one: &Domain, other: &Domain) -> Reach
    ensures { result ≡ Reach.Between (pos (least one.now) *ℤ pos (least other.now))
        (pos (greatest one.now) *ℤ pos (greatest other.now)) }
{
    let low = product(end_of(one, End::Least), end_of(other, End::Least));
    let high = product(end_of(one, End::Greatest), end_of(other, End::Greatest));
    Reach::Between(low, high)
}

/// From the least member of a domain by the greatest of another to the greatest by the least.
#[inline(always)]
fn quotients_between(one: &Domain, other: &Domain) -> Reach
    ensures { result ≡ Reach.Between
        (div_up INFINITY (pos (least one.now)) (pos (greatest other.now)))
        (div_down INFINITY (pos (greatest one.now)) (pos (least other.now))) }
{
    let low = quotient_up(end_of(one, End::Least), end_of(other, End::Greatest));
    let high = quotient_down(end_of(one, End::Greatest), end_of(other, End::Least));
    Reach::Between(low, high)
}

/// From the number less the greatest member of the domain to the number less the least.
#[inline(always)]
fn turned_between(constant: i64, domain: &Domain) -> Reach
    requires { IsSmall constant }
    ensures { result ≡ Reach.Between (constant -ℤ pos (greatest domain.now))
        (constant -ℤ pos (least domain.now)) }
{
    let low = constant - end_of(domain, End::Greatest) as i64;
    let high = constant - end_of(domain, End::Least) as i64;
    Reach::Between(low, high)
}

/// From the least member of a domain to its greatest and 1, less the least of another.
#[inline(always)]
fn conjunct_between(one: &Domain, other: &Domain) -> Reach
    ensures { result ≡ Reach.Between (pos (least one.now))
        ((pos 1 +ℤ pos (greatest one.now)) -ℤ pos (least other.now)) }
{
    let high = less_end(1, end_of(one, End::Greatest), end_of(other, End::Least));
    Reach::Between(end_of(one, End::Least) as i64, high)
}

/// From the least member of a domain less the greatest of another to its greatest.
#[inline(always)]
fn disjunct_between(one: &Domain, other: &Domain) -> Reach
    ensures { result ≡ Reach.Between (pos (least one.now) -ℤ pos (greatest other.now))
        (pos (greatest one.now)) }
{
    let low = less_end(0, end_of(one, End::Least), end_of(other, End::Greatest));
    Reach::Between(low, end_of(one, End::Greatest) as i64)
}

/// In 0 to 1, from half the sum of the least members, rounded up, to the sum of the greatest.
#[inline(always)]
fn disjunction_between(one: &Domain, other: &Domain) -> Reach
    ensures { result ≡ Reach.Between
        (pos ((least one.now + least other.now + 1) / 2))
        (pos (min 1 (greatest one.now + greatest other.now))) }
{
    let least = end_of(one, End::Least) + end_of(other, End::Least);
    let greatest = end_of(one, End::Greatest) + end_of(other, End::Greatest);
    let high = if greatest > 1 { 1 } else { greatest };
    Reach::Between(((least + 1) / 2) as i64, high as i64)
}

/// The set that the quick form tells over the domains of a view. `quick_of` says of which range that is the set.
#[inline(always)]
pub fn quick_reach<V: View>(quick: Quick, view: &V) -> Reach
    requires { IsWithin (length (V.sets view.now)) quick }
    ensures { result ≡ reached (V.sets view.now) quick }
{
    match quick {
        Quick::Other => Reach::Other,
        Quick::Within(low, high) => Reach::Between(low, high),
        Quick::Differs(variable, constant) => {
            let domain = view.domain(variable);
            if is_open(domain) {
                Reach::All
            } else {
                Reach::Except(add_end(constant, end_of(domain, End::Least)))
            }
        }
        Quick::Above(variable, constant, high) => {
            let low = end_of(view.domain(variable), End::Least);
            Reach::Between(add_end(constant, low), high)
        }
        Quick::Below(variable, constant, low) => {
            let high = end_of(view.domain(variable), End::Greatest);
            Reach::Between(low, add_end(constant, high))
        }
        Quick::Moved(variable, constant) => {
            let domain = view.domain(variable);
            let low = add_end(constant, end_of(domain, End::Least));
            Reach::Between(low, add_end(constant, end_of(domain, End::Greatest)))
        }
        Quick::Plus(one, other, constant) => sums_between(
            constant,
            view.domain(one),
            view.domain(other),
        ),
        Quick::Minus(one, other, constant) => differences_between(
            constant,
            view.domain(one),
            view.domain(other),
        ),
        Quick::Counter(variable, value) => counter_reach(view.domain(variable), value),
        Quick::Counted(variable, value) => counted_reach(view.domain(variable), value),
        Quick::Products(one, other) => products_between(view.domain(one), view.domain(other)),
        Quick::Quotients(one, other) => quotients_between(view.domain(one), view.domain(other)),
        Quick::UpTo(sum) => Reach::Between(0, sum.extreme(End::Greatest, view)),
        Quick::From(sum) => Reach::Between(sum.extreme(End::Least, view), INFINITY as i64),
        Quick::MayBe(sum) => Reach::Between(0, sum.quotient_down(view)),
        Quick::MustBe(sum) => Reach::Between(sum.quotient_up(view), INFINITY as i64),
        Quick::Turned(variable, constant) => turned_between(constant, view.domain(variable)),
        Quick::Conjunct(one, other) => conjunct_between(view.domain(one), view.domain(other)),
        Quick::Disjunct(one, other) => disjunct_between(view.domain(one), view.domain(other)),
        Quick::Disjunction(one, other) => disjunction_between(view.domain(one), view.domain(other)),
    }
}
