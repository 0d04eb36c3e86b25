//! Linear terms collected to sums: what a comparison of two terms says of its variables.
#![tactic(auto)]

ghost use Rattle.std.specs.Prelude.{◌≡◌, ◌<◌, length};
ghost use Rattle.fd_model.specs.Linear.{collect as collected};
ghost use Rattle.linear_forms.specs.declared.LinearFault.TheVariants.{NoMemory};
ghost use Rattle.term_pool.specs.Terms.{term_of};
ghost use Rattle.linear_forms.specs.LinearForm.{Answers};

mod integers;
mod normal_forms;
mod sums;
mod walk;

pub use crate::integers::{product, sum};
pub use crate::normal_forms::{negated, normal_form, turn};
use crate::sums::{Sum, linear_of};
use crate::walk::collect_difference;
use fd_language::NoMemory as Wanting;
use std::alloc::{AllocError, AllocFailed, Global};
use term_pool::{Pool, TermId};
use thiserror::Error;

/// A sum of products that stands against a constant.
#[derive(Drop)]
pub struct Linear {
    /// The variables with their coefficients, in the order of first occurrence. No coefficient is 0.
    pub terms: Vec<(u64, i64)>,
    /// The constant.
    pub constant: i64,
}

/// Why two sides are not collected to a sum.
#[derive(Debug, Drop, Error)]
pub enum LinearFault {
    /// A product with variables left in both operands.
    #[error("a product of variables")]
    Nonlinear,
    /// An atom or a compound that is no operator.
    #[error("not a number")]
    NotANumber,
    /// A coefficient or a constant whose magnitude is not below 2^63, or more than 2^31 variables.
    #[error("values over the limit")]
    Overflow,
    /// Memory was wanting.
    #[error("out of memory")]
    NoMemory,
}

impl From<Wanting> for LinearFault {
    ghost from_gives = { λ _ fault. fault ≡ NoMemory };

    fn from(_error: Wanting) -> LinearFault {
        LinearFault::NoMemory
    }
}

impl From<AllocError> for LinearFault {
    ghost from_gives = { λ _ fault. fault ≡ NoMemory };

    fn from(_error: AllocError) -> LinearFault {
        LinearFault::NoMemory
    }
}

impl<T: Drop> From<AllocFailed<T>> for LinearFault {
    ghost from_gives = { λ _ fault. fault ≡ NoMemory };

    fn from(_error: AllocFailed<T>) -> LinearFault {
        LinearFault::NoMemory
    }
}

/// Left minus right, as a sum of products less a constant. Both are terms of the pool. The operands of a term are looked at before the
/// term itself, the left one first, and the first fault is told.
pub fn collect(
    alloc: Global,
    pool: &Pool,
    left: TermId,
    right: TermId,
) -> Result<Linear, LinearFault>
    requires left { left.number < length pool.now.entries }
    requires right { right.number < length pool.now.entries }
    ensures { Answers (collected (term_of pool.now left) (term_of pool.now right)) result }
{
    let difference = collect_difference(alloc, pool, left, right)?;
    linear_of(alloc, difference)
}
