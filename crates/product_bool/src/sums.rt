//! Sums by which a variable tells whether a sum is at most its constant.

ghost use Rattle.std.specs.Prelude.{◌≡◌, true, pos, nat_abs, MatchOption, IfOk};
ghost use Rattle.fd_model.specs.ReifiedRows.{magnitudes as magnitudes_of, reach as reach_of};
ghost use Rattle.fd_language.specs.declared.TheConstants.{INFINITY};
ghost use Rattle.linear_forms.specs.LinearForm.{form_of};
ghost use Rattle.fd_model.specs.Linear.{in_integers};
ghost use Rattle.linear_forms.specs.IntegerSums.{AreIntegers, IsInside};
ghost use Rattle.linear_forms.specs.Shares.{IsWithin};
ghost use Rattle.product_bool.specs.Reified.{IsFar};
ghost use Rattle.product_bool.specs.Sums.{IsNormal, FindsProduct, Exceeds, Adds, Tells};

use crate::faults::{SplitFault, or_overflow};
use fd_language::{INFINITY, NoMemory};
use linear_forms::{Linear, negated, product, sum};
use std::alloc::Global;

/// The magnitude of an integer.
fn magnitude(value: i64) -> i64
    requires { in_integers value ≡ true }
    ensures { result ≡ pos (nat_abs value) }
{
    if value < 0 { -value } else { value }
}

/// The magnitudes of the coefficients added up, where that is an integer of the language.
fn magnitudes(terms: &[(u64, i64)]) -> Option<i64>
    requires { AreIntegers terms.now }
    ensures { IsWithin (pos (magnitudes_of terms.now)) result }
{
    let mut total = 0;
    for term in terms {
        total = match sum(total, magnitude(term.1)) {
            Some(more) => more,
            None => return None,
        };
    }
    Some(total)
}

/// More than a sum over the universe is away from its constant, where that is an integer of the language.
pub(crate) fn reach(linear: &Linear) -> Option<i64>
    requires { IsInside (form_of linear.now) }
    ensures { IsWithin (pos (reach_of INFINITY (form_of linear.now))) result }
{
    let total = match magnitudes(&linear.terms) {
        Some(total) => total,
        None => return None,
    };
    let most = match product(INFINITY as i64, total) {
        Some(most) => most,
        None => return None,
    };
    let both = match sum(magnitude(linear.constant), most) {
        Some(both) => both,
        None => return None,
    };
    sum(both, 1)
}

/// The place of a variable's product, and the number of all products where there is none.
fn find_product(terms: &[(u64, i64)], variable: u64) -> usize
    ensures { FindsProduct terms.now variable result }
{
    for index in 0..terms.len() {
        if terms[index].0 == variable {
            return index;
        }
    }
    terms.len()
}

/// The products with one more, where its coefficient is then an integer of the language.
fn with_product(
    alloc: Global,
    terms: &[(u64, i64)],
    variable: u64,
    coefficient: i64,
) -> Result<Option<Vec<(u64, i64)>>, NoMemory>
    requires inside { AreIntegers terms.now }
    requires coefficient { in_integers coefficient ≡ true }
    ensures { IfOk result (λ o. MatchOption o (Exceeds terms.now variable coefficient)
        (λ more. Adds terms.now variable coefficient more.items)) }
{
    let index = find_product(terms, variable);
    let mut more = Vec::with_capacity(alloc, terms.len().saturating_add(1))?;
    more.extend_from_slice(&terms[..index])?;
    if index == terms.len() {
        more.push((variable, coefficient))?;
        return Ok(Some(more));
    }
    let whole = match sum(terms[index].1, coefficient) {
        Some(whole) => whole,
        None => return Ok(None),
    };
    more.push((variable, whole))?;
    more.extend_from_slice(&terms[index + 1..])?;
    Ok(Some(more))
}

/// Puts the two sums by which a variable tells whether a sum is at most its constant behind the others. `far` is more than the sum can
/// be away from its constant.
pub(crate) fn tell(
    alloc: Global,
    sums: &mut Vec<Linear>,
    teller: u64,
    far: i64,
    linear: &Linear,
) -> Result<(), SplitFault>
    requires normal { IsNormal (form_of linear.now) }
    requires far { IsFar far (form_of linear.now) }
    ensures { Tells teller far (form_of linear.now) sums.old.items sums.new.items result }
{
    let terms = or_overflow(with_product(alloc, &linear.terms, teller, far)?)?;
    let most = or_overflow(sum(linear.constant, far))?;
    let least = or_overflow(sum(-linear.constant, -1))?;
    let turned = negated(alloc, &terms)?;
    sums.push(Linear {
        terms,
        constant: most,
    })?;
    sums.push(Linear {
        terms: turned,
        constant: least,
    })?;
    Ok(())
}
