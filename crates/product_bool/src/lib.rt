//! Products of two variables and Boolean constraints: their ranges, and sums that are at most their constants.
#![tactic(auto)]

ghost use Rattle.std.specs.Prelude.{◌<◌, length, All};
ghost use Rattle.fd_language.specs.declared.TheConstants.{INFINITY};
ghost use Rattle.fd_model.specs.Splitting.{split as split_of};
ghost use Rattle.term_pool.specs.Terms.{term_of, terms_by};
ghost use Rattle.product_bool.specs.Views.{Splits};

mod booleans;
mod faults;
mod members;
mod parts;
mod posts;
mod products;
mod reified;
mod sums;

use crate::booleans::{Gate, gated, negation};
pub use crate::faults::SplitFault;
pub use crate::parts::Split;
use crate::products::product_parts;
use crate::reified::reified;
use fd_model::kinds::ConstraintKind;
use std::alloc::Global;
use term_pool::{Pool, TermId};

/// No memory holds so many variables.
const LIMIT: u64 = 1 << 63;

/// What a product or a Boolean constraint becomes, where `fresh` is the next fresh number, and none for the other goals. The arguments
/// are terms of the pool, seen as a whole. They are looked at from left to right, and the first fault is told.
pub fn split(
    alloc: Global,
    pool: &Pool,
    kind: ConstraintKind,
    args: &[TermId],
    fresh: u64,
) -> Result<Option<Split>, SplitFault>
    requires { All (λ t. t.number < length pool.now.entries) args.now }
    ensures { Splits (split_of INFINITY kind (terms_by (term_of pool.now) args.now) fresh) result }
{
    if fresh >= LIMIT {
        return Err(SplitFault::NoMemory);
    }
    match (kind, args) {
        (ConstraintKind::Compare(relation), [left, right]) => {
            product_parts(alloc, pool, relation, *left, *right, fresh)
        }
        (ConstraintKind::And, [left, right, told]) => {
            let parts = gated(alloc, pool, Gate::And, *left, *right, *told, fresh)?;
            Ok(Some(parts))
        }
        (ConstraintKind::Or, [left, right, told]) => {
            let parts = gated(alloc, pool, Gate::Or, *left, *right, *told, fresh)?;
            Ok(Some(parts))
        }
        (ConstraintKind::Not, [left, right]) => {
            let parts = negation(alloc, pool, *left, *right, fresh)?;
            Ok(Some(parts))
        }
        (ConstraintKind::Reified, [teller, comparison]) => {
            let parts = reified(alloc, pool, *teller, *comparison, fresh)?;
            Ok(Some(parts))
        }
        _ => Ok(None),
    }
}
