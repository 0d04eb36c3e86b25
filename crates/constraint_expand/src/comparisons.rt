//! Comparisons of linear terms.

ghost use Rattle.std.specs.Prelude.{◌≡◌, ◌^◌, ◌<◌, length, IfOk};
ghost use Rattle.fd_model.specs.ConstraintExpansion.{compare as compared};
ghost use Rattle.fd_model.specs.Linear.{comparison};
ghost use Rattle.term_pool.specs.Terms.{term_of};
ghost use Rattle.constraint_expand.specs.Nodes.{comparison_of};
ghost use Rattle.constraint_expand.specs.Views.{Expands};

use crate::expansion::Expansion;
use crate::faults::ExpandFault;
use crate::rows::{Comparison, linear_rows};
use fd_model::kinds::Relation;
use linear_forms::{collect, normal_form};
use std::alloc::Global;
use term_pool::{Pool, TermId};

fn comparison_for(relation: Relation) -> Comparison
    ensures { comparison_of result ≡ comparison relation }
{
    match relation {
        Relation::Equal => Comparison::Equal,
        Relation::Differ => Comparison::Other,
        Relation::Less => Comparison::AtMost,
        Relation::AtMost => Comparison::AtMost,
        Relation::Greater => Comparison::AtMost,
        Relation::AtLeast => Comparison::AtMost,
    }
}

/// The ranges of a comparison.
pub(crate) fn compare(
    alloc: Global,
    pool: &Pool,
    relation: Relation,
    left: TermId,
    right: TermId,
    fresh: u64,
) -> Result<Expansion, ExpandFault>
    requires left { left.number < length pool.now.entries }
    requires right { right.number < length pool.now.entries }
    requires ends { IfOk (compared relation (term_of pool.now left) (term_of pool.now right) fresh)
        (λ x. x.fresh < 2 ^ 64) }
    ensures { Expands (compared relation (term_of pool.now left) (term_of pool.now right) fresh)
        result }
{
    let difference = collect(alloc, pool, left, right)?;
    let form = normal_form(alloc, relation, difference)?;
    let linear = linear_rows(
        alloc,
        comparison_for(relation),
        &form.terms,
        form.constant,
        fresh,
    )?;
    Ok(Expansion::comparing(alloc, linear))
}
