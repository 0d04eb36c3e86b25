//! Sums of products, found by their variables.

ghost use Rattle.std.specs.Prelude.{◌≡◌, ℕ, suc, ◌==◌, nat_lt, not, Ok, Err, IfErr, MatchResult};
ghost use Rattle.std.specs.Map.{values_of};
ghost use Rattle.fd_language.specs.Term.{Var, Int};
ghost use Rattle.fd_model.specs.Linear as linear;
ghost use Rattle.fd_model.specs.Linear.{nonzero, collect_term, sum_of, product_of, linear_of as linear_form};
ghost use Rattle.linear_forms.specs.declared.LinearFault.TheVariants as fault;
ghost use Rattle.linear_forms.specs.LinearForm.{form_of, IsOwnFault};
ghost use Rattle.linear_forms.specs.Shares.{IsShare, both, scaled_share, share_at, IsWhole, open_count, coefficients, OverflowsBy, IsOrOverflow, HasFew};
ghost use Rattle.linear_forms.specs.Sums.{Adds, Exceeds, HasFitting, IsSum, IsKept, Gives, AddsSum, ExceedsSum, Scales, ScalesOver, Multiplies, ExceedsTimes, signed};

use crate::integers::{product, sign, sum};
use crate::{Linear, LinearFault};
use indexmap::IndexMap;
use std::alloc::Global;

/// At most so many variables have a coefficient that is not 0.
const MOST_VARIABLES: usize = 2_147_483_648;

/// What a sum has of a variable: its coefficient, and the number of its first occurrence.
#[derive(Clone, Copy)]
pub(crate) struct Share {
    pub coefficient: i64,
    pub first: u64,
}

/// A sum of products and a constant. A coefficient may be 0.
#[derive(Drop)]
pub(crate) struct Sum {
    pub terms: IndexMap<u64, Share>,
    pub constant: i64,
}

impl Share {
    /// What two sums have of the same variable.
    fn with(self, other: Share) -> Option<Share>
        ensures { IsShare (both self other) result }
    {
        let coefficient = sum(self.coefficient, other.coefficient)?;
        let first = self.first.min(other.first);
        Some(Share { coefficient, first })
    }

    fn times(self, factor: i64) -> Option<Share>
        ensures { IsShare (scaled_share factor self) result }
    {
        let coefficient = product(factor, self.coefficient)?;
        Some(Share {
            coefficient,
            first: self.first,
        })
    }
}

/// An integer, negated at `true`. No memory.
pub(crate) fn constant_alone(alloc: Global, integer: i64, negated: bool) -> Result<Sum, LinearFault>
    ensures sum { (m : ℕ) → Gives (signed negated (collect_term (Int integer))) m m result }
    ensures memory { IfErr result IsOwnFault }
{
    match product(sign(negated), integer) {
        Some(constant) => Ok(Sum {
            terms: IndexMap::new(alloc),
            constant,
        }),
        None => Err(LinearFault::Overflow),
    }
}

/// A variable, negated at `true`, where `first` is the number of its occurrence.
pub(crate) fn variable_alone(
    alloc: Global,
    variable: u64,
    negated: bool,
    first: u64,
) -> Result<Sum, LinearFault>
    ensures { Gives (signed negated (collect_term (Var variable))) first (suc first) result }
{
    let share = Share {
        coefficient: sign(negated),
        first,
    };
    let mut terms = IndexMap::new(alloc);
    terms.insert(variable, share)?;
    Ok(Sum { terms, constant: 0 })
}

impl Sum {
    /// Whether no variable is left.
    pub(crate) fn is_constant(&self) -> bool
        ensures { result ≡ (open_count (values_of self.now.terms.entries) == 0) }
    {
        self.open_variables() == 0
    }

    fn open_variables(&self) -> usize
        ensures { result ≡ open_count (values_of self.now.terms.entries) }
    {
        let mut open = 0;
        for share in self.terms.values() {
            if share.coefficient != 0 {
                open += 1;
            }
        }
        open
    }

    /// Whether at most so many variables are left.
    fn has_few(&self, most: usize) -> bool
        ensures { result ≡ not (nat_lt most (open_count (values_of self.now.terms.entries))) }
    {
        self.terms.len() <= most || self.open_variables() <= most
    }

    /// An overflow where more variables are left. No memory.
    fn keep_to(&self, most: usize) -> Result<(), LinearFault>
        ensures { HasFew (nat_lt most (open_count (values_of self.now.terms.entries))) result }
    {
        if self.has_few(most) {
            Ok(())
        } else {
            Err(LinearFault::Overflow)
        }
    }
}

/// What there is, or an overflow where there is nothing. No memory.
#[inline]
fn or_overflow<T>(found: Option<T>) -> Result<T, LinearFault>
    ensures { IsOrOverflow found result }
{
    match found {
        Some(value) => Ok(value),
        None => Err(LinearFault::Overflow),
    }
}

/// The share of a variable with one more added.
fn whole_share(terms: &IndexMap<u64, Share>, variable: u64, share: Share) -> Option<Share>
    ensures { IsWhole (share_at terms.now.entries variable) share result }
{
    match terms.get(&variable) {
        Some(known) => known.with(share),
        None => Some(share),
    }
}

/// Adds the terms of another sum.
fn add_terms(
    terms: &mut IndexMap<u64, Share>,
    other: &IndexMap<u64, Share>,
) -> Result<(), LinearFault>
    ensures added { MatchResult result
        (λ _. Adds terms.old.entries other.now.entries terms.new.entries)
        (OverflowsBy (Exceeds terms.old.entries other.now.entries)) }
    ensures memory { IfErr result
        (λ f. f ≡ fault.NoMemory → HasFitting terms.new.entries other.now.entries) }
{
    for (variable, share) in other.iter() {
        let Some(whole) = whole_share(terms, *variable, *share) else {
            return Err(LinearFault::Overflow);
        };
        terms.insert(*variable, whole)?;
    }
    Ok(())
}

/// The terms of a sum times a constant.
fn scaled_terms(
    alloc: Global,
    terms: &IndexMap<u64, Share>,
    factor: i64,
) -> Result<IndexMap<u64, Share>, LinearFault>
    ensures { MatchResult result (λ scaled. Scales factor terms.now.entries scaled.entries)
        (OverflowsBy (ScalesOver factor terms.now.entries)) }
{
    let mut scaled = IndexMap::with_capacity(alloc, terms.len())?;
    for (variable, share) in terms.iter() {
        let product = or_overflow(share.times(factor))?;
        scaled.insert(*variable, product)?;
    }
    Ok(scaled)
}

/// A sum times a constant.
fn times(alloc: Global, sum: &Sum, factor: i64) -> Result<Sum, LinearFault>
    ensures { MatchResult result (Multiplies factor sum.now)
        (OverflowsBy (ExceedsTimes factor sum.now)) }
{
    let terms = scaled_terms(alloc, &sum.terms, factor)?;
    let constant = or_overflow(product(factor, sum.constant))?;
    Ok(Sum { terms, constant })
}

/// A sum with the terms of another one added. The constant is that of both, and at most so many
/// variables are left.
fn added(mut longer: Sum, shorter: &Sum, most: usize) -> Result<Sum, LinearFault>
    ensures { MatchResult result (AddsSum most longer shorter.now)
        (OverflowsBy (ExceedsSum most longer shorter.now)) }
{
    add_terms(&mut longer.terms, &shorter.terms)?;
    longer.constant = or_overflow(sum(longer.constant, shorter.constant))?;
    longer.keep_to(most)?;
    Ok(longer)
}

/// The sum of two, of which the shorter one is added to the longer one.
pub(crate) fn plus(left: Sum, right: Sum) -> Result<Sum, LinearFault>
    ensures { (s t : linear.Sum) (lo m hi : ℕ) → IsSum left s lo m → IsSum right t m hi
        → Gives (sum_of s t) lo hi result }
{
    if left.terms.len() < right.terms.len() {
        added(right, &left, MOST_VARIABLES)
    } else {
        added(left, &right, MOST_VARIABLES)
    }
}

/// The fault of a product of two sums with variables. No memory.
fn nonlinear() -> Result<Sum, LinearFault>
    ensures { result ≡ Err fault.Nonlinear }
{
    Err(LinearFault::Nonlinear)
}

/// The product of two, of which one has to be a constant.
pub(crate) fn multiply(alloc: Global, left: Sum, right: Sum) -> Result<Sum, LinearFault>
    ensures { (s t : linear.Sum) (lo m hi : ℕ) → IsSum left s lo m → IsSum right t m hi
        → Gives (product_of s t) lo hi result }
{
    if left.is_constant() {
        times(alloc, &right, left.constant)
    } else if right.is_constant() {
        times(alloc, &left, right.constant)
    } else {
        nonlinear()
    }
}

/// The terms whose coefficient is not 0.
fn open_terms(alloc: Global, terms: &IndexMap<u64, Share>) -> Result<Vec<(u64, i64)>, LinearFault>
    ensures { MatchResult result (λ left. left.items ≡ nonzero (coefficients terms.now.entries))
        (OverflowsBy ⊥) }
{
    let mut left = Vec::new(alloc);
    for (variable, share) in terms.iter() {
        let coefficient = share.coefficient;
        if coefficient != 0 {
            left.push((*variable, coefficient))?;
        }
    }
    Ok(left)
}

/// The sum against its constant, with its variables in the order of first occurrence.
pub(crate) fn linear_of(alloc: Global, mut sum: Sum) -> Result<Linear, LinearFault>
    requires { IsKept sum }
    ensures { (s : linear.Sum) (lo hi : ℕ) → IsSum sum s lo hi → MatchResult result
        (λ l. linear_form s ≡ Ok (form_of l)) (OverflowsBy ⊥) }
{
    sum.terms.sort_by_key(|_, share| share.first)?;
    let terms = open_terms(alloc, &sum.terms)?;
    Ok(Linear {
        terms,
        constant: -sum.constant,
    })
}

#[cfg(test)]
mod tests {
    use super::*;

    /// X and another variable, negated at `true`, added up within a limit.
    fn with_x(alloc: Global, other: u64, negated: bool, most: usize) -> Result<Sum, LinearFault> {
        let x = variable_alone(alloc, 0, false, 0)?;
        let other = variable_alone(alloc, other, negated, 1)?;
        added(x, &other, most)
    }

    /// X + Y within 2 variables and within 1, and X - X within none.
    #[test]
    fn a_sum_has_at_most_its_limit_of_variables(rt: HostRuntime) {
        for (other, negated, most, fits) in [
            (1, false, 2, true),
            (1, false, 1, false),
            (0, true, 0, true),
        ] {
            let found = with_x(rt.alloc(), other, negated, most).is_ok();
            assert_eq!(rt; found, fits, "at most {most}");
        }
    }
}
