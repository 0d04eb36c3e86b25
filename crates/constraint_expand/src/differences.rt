//! Lists of members that differ.

ghost use Rattle.std.specs.Prelude.{◌≡◌, ◌^◌, ◌<◌, ◌++◌, [], ◌∷◌, length, MatchOption, IfOk, OnOk, OnErr};
ghost use Rattle.fd_model.specs.ConstraintExpansion.{all_different as different};
ghost use Rattle.fd_model.specs.ListRows.{differs, against, pairwise, different_ranges as ranges_of};
ghost use Rattle.term_pool.specs.Terms.{term_of};
ghost use Rattle.constraint_expand.specs.Posts.{Posts, indexicals};
ghost use Rattle.constraint_expand.specs.Pieces.{IsPiece, IsOver, pairs_ahead};
ghost use Rattle.constraint_expand.specs.Views.{Expands};

use crate::expansion::Expansion;
use crate::faults::ExpandFault;
use crate::members::{members, place_all};
use crate::posts::post;
use fd_language::{NoMemory, RangeNode};
use monotone_check::Checked;
use std::alloc::Global;
use term_pool::{Pool, TermId};

/// Posts that a variable differs from another one, once that one has a value.
fn post_differs(
    alloc: Global,
    list: &mut Vec<(u64, Checked)>,
    target: u64,
    other: u64,
) -> Result<(), NoMemory>
    ensures { OnOk result (Posts (differs target other ∷ []) list.old.items list.new.items) }
{
    let nodes = Vec::from_slice(
        alloc,
        &[RangeNode::Val(other), RangeNode::One, RangeNode::Outside],
    )?;
    post(list, target, nodes)
}

/// Posts that a variable and each of the others differ.
fn post_against(
    alloc: Global,
    list: &mut Vec<(u64, Checked)>,
    variable: u64,
    others: &[u64],
) -> Result<(), NoMemory>
    ensures { OnOk result (Posts (against variable others.now) list.old.items list.new.items) }
{
    for other in others {
        post_differs(alloc, list, variable, *other)?;
        post_differs(alloc, list, *other, variable)?;
    }
    Ok(())
}

/// Variables that differ, each pair once in each direction, and the place of the first that has not
/// been posted against those behind it.
#[derive(Drop)]
pub(crate) struct Pairs {
    pub variables: Vec<u64>,
    pub next: usize,
}

impl Pairs {
    /// No variables.
    pub(crate) fn none(alloc: Global) -> Pairs
        ensures { pairs_ahead result ≡ [] }
    {
        Pairs {
            variables: Vec::new(alloc),
            next: 0,
        }
    }

    /// The ranges of the next variable against those behind it, and none where no pair is left.
    pub(crate) fn next_piece(
        &mut self,
        alloc: Global,
    ) -> Result<Option<Vec<(u64, Checked)>>, NoMemory>
        ensures piece { IfOk result (λ p. MatchOption p
            (IsOver (pairs_ahead self.old) (pairs_ahead self.new))
            (λ list. IsPiece (pairs_ahead self.old) (pairs_ahead self.new) list.items)) }
        ensures unchanged { OnErr result (self.new ≡ self.old) }
    {
        let behind = self.next.saturating_add(1);
        if behind >= self.variables.len() {
            return Ok(None);
        }
        let mut list = Vec::new(alloc);
        let variable = self.variables[self.next];
        post_against(alloc, &mut list, variable, &self.variables[behind..])?;
        self.next = behind;
        Ok(Some(list))
    }
}

/// Posts that a variable is in the universe.
fn post_universe(alloc: Global, list: &mut Vec<(u64, Checked)>, target: u64) -> Result<(), NoMemory>
    ensures { OnOk result (Posts (ranges_of (target ∷ [])) list.old.items list.new.items) }
{
    let nodes = Vec::from_slice(
        alloc,
        &[RangeNode::Int(0), RangeNode::Infinity, RangeNode::Span],
    )?;
    post(list, target, nodes)
}

/// The range of a variable that is alone, and none where there are others.
fn alone(alloc: Global, variables: &[u64]) -> Result<Vec<(u64, Checked)>, NoMemory>
    ensures { IfOk result (λ list. ranges_of variables.now
        ≡ pairwise variables.now ++ indexicals list.items) }
{
    let mut list = Vec::new(alloc);
    if let [only] = variables {
        post_universe(alloc, &mut list, *only)?;
    }
    Ok(list)
}

/// The ranges of a list of members that differ.
pub(crate) fn all_different(
    alloc: Global,
    pool: &Pool,
    list: TermId,
    fresh: u64,
) -> Result<Expansion, ExpandFault>
    requires list { list.number < length pool.now.entries }
    requires ends { IfOk (different (term_of pool.now list) fresh) (λ x. x.fresh < 2 ^ 64) }
    ensures { Expands (different (term_of pool.now list) fresh) result }
{
    let members = members(alloc, pool, list)?;
    let placed = place_all(alloc, &members, fresh)?;
    let rest = alone(alloc, &placed.variables)?;
    Ok(Expansion::differing(alloc, placed, rest))
}
