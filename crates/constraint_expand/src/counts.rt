//! Lists of which at most so many members are a value.

ghost use Rattle.std.specs.Prelude.{◌≡◌, ◌+◌, ◌^◌, ◌<◌, [], ◌∷◌, length, MatchOption, IfOk, OnOk, OnErr};
ghost use Rattle.fd_model.specs.ConstraintExpansion.{atmost as atmost_of};
ghost use Rattle.fd_model.specs.ListRows.{counter as counter_row, counted as counted_row};
ghost use Rattle.fd_model.specs.ListRows.{units as units_of};
ghost use Rattle.term_pool.specs.Terms.{term_of};
ghost use Rattle.constraint_expand.specs.Posts.{Posts};
ghost use Rattle.constraint_expand.specs.Pieces.{IsPiece, IsOver, counts_ahead, AreNumbers};
ghost use Rattle.constraint_expand.specs.Views.{Expands};

use crate::expansion::Expansion;
use crate::faults::ExpandFault;
use crate::members::{members, place_all, read_integer};
use crate::posts::post;
use crate::rows::{Comparison, linear_rows};
use fd_language::{NoMemory, RangeNode};
use monotone_check::Checked;
use std::alloc::Global;
use term_pool::{Pool, TermId};

/// Posts that the counter is 1 where the variable is the value, and else 0.
fn post_counter(
    alloc: Global,
    list: &mut Vec<(u64, Checked)>,
    value: i64,
    variable: u64,
    counter: u64,
) -> Result<(), NoMemory>
    ensures { OnOk result (Posts (counter_row value variable counter ∷ [])
        list.old.items list.new.items) }
{
    let nodes = Vec::from_slice(
        alloc,
        &[
            RangeNode::Int(value),
            RangeNode::One,
            RangeNode::Dom(variable),
            RangeNode::Inter,
            RangeNode::Int(0),
            RangeNode::Times,
            RangeNode::Int(1),
            RangeNode::Plus,
            RangeNode::Int(value),
            RangeNode::One,
            RangeNode::Outside,
            RangeNode::Dom(variable),
            RangeNode::Inter,
            RangeNode::Int(0),
            RangeNode::Times,
            RangeNode::Union,
        ],
    )?;
    post(list, counter, nodes)
}

/// Posts that the variable is the value where the counter has to be 1, and another where it has to
/// be 0.
fn post_counted(
    alloc: Global,
    list: &mut Vec<(u64, Checked)>,
    value: i64,
    variable: u64,
    counter: u64,
) -> Result<(), NoMemory>
    ensures { OnOk result (Posts (counted_row value variable counter ∷ [])
        list.old.items list.new.items) }
{
    let nodes = Vec::from_slice(
        alloc,
        &[
            // the value alone, up to the end of the universe where the counter may be 1
            RangeNode::Int(value),
            RangeNode::Int(value),
            RangeNode::Max(counter),
            RangeNode::Int(1),
            RangeNode::Sub,
            RangeNode::Infinity,
            RangeNode::Int(1),
            RangeNode::Add,
            RangeNode::Mul,
            RangeNode::Add,
            RangeNode::Span,
            // what is above it, unless the counter is 1
            RangeNode::Int(value),
            RangeNode::Int(1),
            RangeNode::Add,
            RangeNode::Min(counter),
            RangeNode::Infinity,
            RangeNode::Int(1),
            RangeNode::Add,
            RangeNode::Mul,
            RangeNode::Add,
            RangeNode::Infinity,
            RangeNode::Span,
            RangeNode::Union,
            // and what is below it
            RangeNode::Int(0),
            RangeNode::Int(value),
            RangeNode::Int(1),
            RangeNode::Sub,
            RangeNode::Min(counter),
            RangeNode::Infinity,
            RangeNode::Int(1),
            RangeNode::Add,
            RangeNode::Mul,
            RangeNode::Sub,
            RangeNode::Span,
            RangeNode::Union,
        ],
    )?;
    post(list, variable, nodes)
}

/// Variables that are counted, each by a counter of its own, where the counters are numbered from
/// `first` on; and the place of the first that has not been posted.
#[derive(Drop)]
pub(crate) struct Counters {
    pub value: i64,
    pub variables: Vec<u64>,
    pub first: u64,
    pub next: usize,
}

impl Counters {
    /// No variables.
    pub(crate) fn none(alloc: Global) -> Counters
        ensures none { counts_ahead result ≡ [] }
        ensures numbers { AreNumbers result }
    {
        Counters {
            value: 0,
            variables: Vec::new(alloc),
            first: 0,
            next: 0,
        }
    }

    /// The ranges of the next variable and its counter, and none where no variable is left.
    pub(crate) fn next_piece(
        &mut self,
        alloc: Global,
    ) -> Result<Option<Vec<(u64, Checked)>>, NoMemory>
        requires { AreNumbers self.old }
        ensures piece { IfOk result (λ p. MatchOption p
            (IsOver (counts_ahead self.old) (counts_ahead self.new))
            (λ list. IsPiece (counts_ahead self.old) (counts_ahead self.new) list.items)) }
        ensures unchanged { OnErr result (self.new ≡ self.old) }
        ensures numbers { AreNumbers self.new }
    {
        if self.next >= self.variables.len() {
            return Ok(None);
        }
        let mut list = Vec::new(alloc);
        let variable = self.variables[self.next];
        let counter = self.first + self.next as u64;
        post_counter(alloc, &mut list, self.value, variable, counter)?;
        post_counted(alloc, &mut list, self.value, variable, counter)?;
        self.next += 1;
        Ok(Some(list))
    }
}

/// The sum of counters, which are as many as the variables and are numbered from `first` on.
fn sum_of(alloc: Global, variables: &[u64], first: u64) -> Result<Vec<(u64, i64)>, NoMemory>
    requires { first + length variables.now < 2 ^ 64 }
    ensures { IfOk result (λ units. units.items ≡ units_of variables.now first) }
{
    let mut units = Vec::with_capacity(alloc, variables.len())?;
    for index in 0..variables.len() {
        units.push((first + index as u64, 1))?;
    }
    Ok(units)
}

/// The ranges of a list of which at most `most` members are the value.
pub(crate) fn atmost(
    alloc: Global,
    pool: &Pool,
    most: TermId,
    list: TermId,
    value: TermId,
    fresh: u64,
) -> Result<Expansion, ExpandFault>
    requires most { most.number < length pool.now.entries }
    requires list { list.number < length pool.now.entries }
    requires value { value.number < length pool.now.entries }
    requires ends { IfOk (atmost_of (term_of pool.now most) (term_of pool.now list)
        (term_of pool.now value) fresh) (λ x. x.fresh < 2 ^ 64) }
    ensures { Expands (atmost_of (term_of pool.now most) (term_of pool.now list)
        (term_of pool.now value) fresh) result }
{
    let most = read_integer(pool, most)?;
    let members = members(alloc, pool, list)?;
    let value = read_integer(pool, value)?;
    let placed = place_all(alloc, &members, fresh)?;
    let units = sum_of(alloc, &placed.variables, placed.fresh)?;
    let next = placed.fresh + units.len() as u64;
    let sum = linear_rows(alloc, Comparison::AtMost, &units, most, next)?;
    Ok(Expansion::counting(alloc, value, placed, sum))
}
