//! Sums of one product or two with the variables in hand, as the ranges of comparisons that a variable tells read them.

ghost use Rattle.std.specs.Prelude.{◌≡◌, ◌<◌, ◌≤◌, ◌^◌, ◌-◌, ◌+ℤ◌, ◌*◌, pos, nat_abs, [], length, IfSome, IsTrue};
ghost use Rattle.fd_language.specs.Range.{Range, div_down, div_up};
ghost use Rattle.fd_language.specs.RangeVerdict.{is_accepted};
ghost use Rattle.domain_ranges.specs.Views.{family_of};
ghost use Rattle.range_code.specs.Forms.{IsInterval};
ghost use Rattle.range_code.specs.ValSlots.{val_slots};
ghost use Rattle.range_code.specs.Slots.{in_slots};
ghost use Rattle.range_code.specs.PairedSums.{IsPairingOf, IsPairingWithin, IsWeighted, end_toward as end_toward_of, extreme as extreme_of, extreme_sum, far_of, width_of_pairing};
ghost use Rattle.range_code.specs.QuickForms.{IsQuick};
ghost use Rattle.range_code.specs.declared.quick_forms.Quick.{Quick as Form};

use crate::form::{Bound, Division, End, Product, end_of, is_same_end, is_whole, number_of};
use crate::frame::Arg;
use crate::quick_forms::variable_at;
use domain_ranges::View;
use fd_language::INFINITY;

/// A variable, and an integer that it is multiplied by.
#[derive(Clone, Copy)]
pub struct Weighted {
    weight: i32,
    variable: u32,
}

/// The sum of a constant and two products.
#[derive(Clone, Copy)]
pub struct Pairing {
    constant: i64,
    one: Weighted,
    other: Weighted,
}

/// The end at which a product with the weight is greatest, or least.
#[inline(always)]
fn end_toward(toward: End, weight: i32) -> End
    ensures { result ≡ end_toward_of toward weight }
{
    match toward {
        End::Least => {
            if weight < 0 {
                End::Greatest
            } else {
                End::Least
            }
        }
        End::Greatest => {
            if weight < 0 {
                End::Least
            } else {
                End::Greatest
            }
        }
    }
}

impl Weighted {
    /// The greatest that the product may be over the domains of a view, or the least.
    #[inline(always)]
    fn extreme<V: View>(self, toward: End, view: &V) -> i64
        requires { self.variable < length (V.sets view.now) }
        ensures value { result ≡ extreme_of (family_of (V.sets view.now)) toward self }
        ensures limit { nat_abs result ≤ nat_abs self.weight * INFINITY }
    {
        let domain = view.domain(self.variable as usize);
        let end = end_of(domain, end_toward(toward, self.weight));
        self.weight as i64 * end as i64
    }
}

impl Pairing {
    /// How far from 0 the sum may be.
    fn width(self) -> u64
        ensures { result ≡ width_of_pairing self }
    {
        let one = self.one.weight.unsigned_abs() as u64 * INFINITY as u64;
        let other = self.other.weight.unsigned_abs() as u64 * INFINITY as u64;
        self.constant.unsigned_abs() + one + other
    }

    /// Whether the integer is the first that the sum can't reach.
    fn is_within(self, far: i64) -> bool
        ensures far { IsTrue result → far ≡ far_of self }
        ensures width { IsTrue result → width_of_pairing self ≤ 2 ^ 63 - 1 }
    {
        far > 0 && self.width() == (far - 1) as u64
    }

    /// The greatest that the sum may be over the domains of a view, or the least.
    #[inline(always)]
    pub(crate) fn extreme<V: View>(self, toward: End, view: &V) -> i64
        requires { IsPairingWithin (length (V.sets view.now)) self }
        ensures value { result ≡ extreme_sum (family_of (V.sets view.now)) toward self }
        ensures limit { nat_abs result ≤ width_of_pairing self }
    {
        let one = self.one.extreme(toward, view);
        let other = self.other.extreme(toward, view);
        self.constant + one + other
    }

    /// What the quotient of the sum and a number beyond it, by that number and rounded down, is at most.
    #[inline(always)]
    pub(crate) fn quotient_down<V: View>(self, view: &V) -> i64
        requires { IsPairingWithin (length (V.sets view.now)) self }
        ensures { result ≡ div_down INFINITY
            (extreme_sum (family_of (V.sets view.now)) End.Greatest self +ℤ far_of self)
            (far_of self) }
    {
        if self.extreme(End::Greatest, view) < 0 {
            0
        } else {
            1
        }
    }

    /// What the quotient of the sum and 1, by a number beyond the sum and rounded up, is at least.
    #[inline(always)]
    pub(crate) fn quotient_up<V: View>(self, view: &V) -> i64
        requires { IsPairingWithin (length (V.sets view.now)) self }
        ensures { result ≡ div_up INFINITY
            (extreme_sum (family_of (V.sets view.now)) End.Least self +ℤ pos 1)
            (far_of self) }
    {
        if self.extreme(End::Least, view) < 0 {
            0
        } else {
            1
        }
    }
}

/// The product with the variable in hand, where it reads the end at which it is greatest, or least.
fn with_variable(product: Product, toward: End, args: &[Arg]) -> Option<Weighted>
    ensures { IfSome result (IsWeighted product toward args.now) }
{
    if product.weight < i32::MIN as i64 || product.weight > i32::MAX as i64 {
        return None;
    }
    let weight = product.weight as i32;
    if !is_same_end(product.end, end_toward(toward, weight)) {
        return None;
    }
    let variable = variable_at(args, product.slot)?;
    if variable > u32::MAX as usize {
        return None;
    }
    Some(Weighted {
        weight,
        variable: variable as u32,
    })
}

/// The sum of a constant and one product or two, where each reads the end at which the sum is greatest, or least.
fn pairing_of(products: &[Product], constant: i64, toward: End, args: &[Arg]) -> Option<Pairing>
    ensures { IfSome result (IsPairingOf products.now constant toward args.now) }
{
    match products {
        [only] => {
            let one = with_variable(*only, toward, args)?;
            let other = Weighted {
                weight: 0,
                variable: one.variable,
            };
            Some(Pairing {
                constant,
                one,
                other,
            })
        }
        [first, second] => {
            let one = with_variable(*first, toward, args)?;
            let other = with_variable(*second, toward, args)?;
            Some(Pairing {
                constant,
                one,
                other,
            })
        }
        _ => None,
    }
}

/// The interval from 0 to a sum.
pub(crate) fn up_to(low: &Bound, high: &Bound, args: &[Arg]) -> Option<Pairing>
    ensures { IfSome result (λ sum. (r : Range) → IsTrue (is_accepted INFINITY r)
        → val_slots r ≡ [] → IsInterval (in_slots r) low.now high.now
        → IsQuick r args.now (Form.UpTo sum)) }
{
    let number = number_of(low)?;
    if number != 0 || !is_whole(high.division) {
        return None;
    }
    let sum = pairing_of(high.products.as_slice(), high.constant, End::Greatest, args)?;
    let width = sum.width();
    if width > i64::MAX as u64 {
        return None;
    }
    Some(sum)
}

/// The interval from a sum on.
pub(crate) fn from(low: &Bound, high: &Bound, args: &[Arg]) -> Option<Pairing>
    ensures { IfSome result (λ sum. (r : Range) → IsTrue (is_accepted INFINITY r)
        → val_slots r ≡ [] → IsInterval (in_slots r) low.now high.now
        → IsQuick r args.now (Form.From sum)) }
{
    let number = number_of(high)?;
    if number != INFINITY as i64 || !is_whole(low.division) {
        return None;
    }
    let sum = pairing_of(low.products.as_slice(), low.constant, End::Least, args)?;
    let width = sum.width();
    if width > i64::MAX as u64 {
        return None;
    }
    Some(sum)
}

/// The interval from 0 to the quotient of a sum by a number, which is 0 or 1 whatever the variables are.
pub(crate) fn may_be(low: &Bound, high: &Bound, args: &[Arg]) -> Option<Pairing>
    ensures { IfSome result (λ sum. (r : Range) → IsTrue (is_accepted INFINITY r)
        → val_slots r ≡ [] → IsInterval (in_slots r) low.now high.now
        → IsQuick r args.now (Form.MayBe sum)) }
{
    let Division::Down(divisor) = high.division else {
        return None;
    };
    let number = number_of(low)?;
    if number != 0 {
        return None;
    }
    let constant = high.constant.checked_sub(divisor)?;
    let sum = pairing_of(high.products.as_slice(), constant, End::Greatest, args)?;
    if !sum.is_within(divisor) {
        return None;
    }
    Some(sum)
}

/// The interval from the quotient of a sum by a number on, which is 0 or 1 whatever the variables are.
pub(crate) fn must_be(low: &Bound, high: &Bound, args: &[Arg]) -> Option<Pairing>
    ensures { IfSome result (λ sum. (r : Range) → IsTrue (is_accepted INFINITY r)
        → val_slots r ≡ [] → IsInterval (in_slots r) low.now high.now
        → IsQuick r args.now (Form.MustBe sum)) }
{
    let Division::Up(divisor) = low.division else {
        return None;
    };
    let number = number_of(high)?;
    if number != INFINITY as i64 {
        return None;
    }
    let constant = low.constant.checked_sub(1)?;
    let sum = pairing_of(low.products.as_slice(), constant, End::Least, args)?;
    if !sum.is_within(divisor) {
        return None;
    }
    Some(sum)
}
