//! Sums that are negated, and the normal forms of comparisons.

ghost use Rattle.std.specs.Prelude.{◌≡◌, negsuc, IfOk, IfErr};
ghost use Rattle.fd_model.specs.Linear.{scaled, turned, below, normal_form as normal_of};
ghost use Rattle.linear_forms.specs.LinearForm.{form_of, Answers, IsOwnFault};
ghost use Rattle.linear_forms.specs.IntegerSums.{AreIntegers, IsInside, checked_form};

use crate::{Linear, LinearFault};
use fd_language::NoMemory;
use fd_model::kinds::Relation;
use std::alloc::Global;

/// The products with their coefficients negated.
pub fn negated(alloc: Global, terms: &[(u64, i64)]) -> Result<Vec<(u64, i64)>, NoMemory>
    requires { AreIntegers terms.now }
    ensures { IfOk result (λ turned. turned.items ≡ scaled (negsuc 0) terms.now) }
{
    let mut turned = Vec::with_capacity(alloc, terms.len())?;
    for (variable, coefficient) in terms {
        turned.push((*variable, -*coefficient))?;
    }
    Ok(turned)
}

/// The form with all coefficients and the constant negated.
pub fn turn(alloc: Global, linear: &Linear) -> Result<Linear, NoMemory>
    requires { IsInside (form_of linear.now) }
    ensures { IfOk result (λ l. form_of l ≡ turned (form_of linear.now)) }
{
    Ok(Linear {
        terms: negated(alloc, &linear.terms)?,
        constant: -linear.constant,
    })
}

/// The form with its constant one less, where that is an integer of the language. No memory.
fn lessen(linear: Linear) -> Result<Linear, LinearFault>
    requires { IsInside (form_of linear) }
    ensures form { Answers (checked_form (below (form_of linear))) result }
    ensures memory { IfErr result IsOwnFault }
{
    let Linear { terms, constant } = linear;
    if constant == -i64::MAX {
        return Err(LinearFault::Overflow);
    }
    Ok(Linear {
        terms,
        constant: constant - 1,
    })
}

/// The normal form of left minus right.
pub fn normal_form(alloc: Global, relation: Relation, linear: Linear) -> Result<Linear, LinearFault>
    requires { IsInside (form_of linear) }
    ensures { Answers (normal_of relation (form_of linear)) result }
{
    match relation {
        Relation::Equal => Ok(linear),
        Relation::Differ => Ok(linear),
        Relation::AtMost => Ok(linear),
        Relation::Less => lessen(linear),
        Relation::AtLeast => {
            let side = turn(alloc, &linear)?;
            Ok(side)
        }
        Relation::Greater => {
            let side = turn(alloc, &linear)?;
            lessen(side)
        }
    }
}
