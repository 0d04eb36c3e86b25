//! Constraints as ranges: comparisons of linear terms, lists of different members, elements of
//! lists, members that are counted, products and Boolean constraints.
#![tactic(auto)]

ghost use Rattle.std.specs.Prelude.{◌^◌, ◌<◌, length, All, IfOk};
ghost use Rattle.fd_language.specs.declared.TheConstants.{INFINITY};
ghost use Rattle.fd_model.specs.ConstraintExpansion.{expand as expanded, basic as basic_of};
ghost use Rattle.term_pool.specs.Terms.{term_of, terms_by};
ghost use Rattle.constraint_expand.specs.Views.{Expands};

mod comparisons;
mod counts;
mod differences;
mod elements;
mod expansion;
mod faults;
mod members;
mod posts;
mod rows;
mod sums;

use crate::comparisons::compare;
use crate::counts::atmost;
use crate::differences::all_different;
use crate::elements::element;
pub use crate::expansion::Expansion;
pub use crate::faults::{ExpandFault, ListCause};
use fd_model::kinds::ConstraintKind;
use product_bool::split;
use std::alloc::Global;
use term_pool::{Pool, TermId};

/// The ranges of a comparison or of a constraint on a list.
fn basic(
    alloc: Global,
    pool: &Pool,
    kind: ConstraintKind,
    args: &[TermId],
    fresh: u64,
) -> Result<Expansion, ExpandFault>
    requires args { All (λ t. t.number < length pool.now.entries) args.now }
    requires ends { IfOk (basic_of kind (terms_by (term_of pool.now) args.now) fresh)
        (λ x. x.fresh < 2 ^ 64) }
    ensures { Expands (basic_of kind (terms_by (term_of pool.now) args.now) fresh) result }
{
    match (kind, args) {
        (ConstraintKind::Compare(relation), [left, right]) => {
            compare(alloc, pool, relation, *left, *right, fresh)
        }
        (ConstraintKind::AllDifferent, [list]) => all_different(alloc, pool, *list, fresh),
        (ConstraintKind::Element, [index, list, value]) => {
            element(alloc, pool, *index, *list, *value, fresh)
        }
        (ConstraintKind::Atmost, [most, list, value]) => {
            atmost(alloc, pool, *most, *list, *value, fresh)
        }
        _ => Err(ExpandFault::BadList(ListCause::Wrong)),
    }
}

/// The ranges of a constraint, where `fresh` is the next fresh number. The arguments are terms of
/// the pool, seen as a whole. They are looked at from left to right, and the first fault is told.
pub fn expand(
    alloc: Global,
    pool: &Pool,
    kind: ConstraintKind,
    args: &[TermId],
    fresh: u64,
) -> Result<Expansion, ExpandFault>
    requires args { All (λ t. t.number < length pool.now.entries) args.now }
    requires ends { IfOk (expanded INFINITY kind (terms_by (term_of pool.now) args.now) fresh)
        (λ x. x.fresh < 2 ^ 64) }
    ensures { Expands (expanded INFINITY kind (terms_by (term_of pool.now) args.now) fresh)
        result }
{
    match split(alloc, pool, kind, args, fresh)? {
        Some(parts) => Ok(Expansion::splitting(alloc, parts)),
        None => basic(alloc, pool, kind, args, fresh),
    }
}
