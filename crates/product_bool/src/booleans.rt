//! `fd_and`, `fd_or` and `fd_not`.

ghost use Rattle.std.specs.Prelude.{◌≡◌, ◌<◌, ◌+◌, ◌^◌, ◌∷◌, [], length, OnOk};
ghost use Rattle.fd_model.specs.BooleanRows.{and_ranges, or_ranges, not_ranges, conjunct as conjunct_row, disjunct as disjunct_row, disjunction as disjunction_row, negation as negation_row};
ghost use Rattle.fd_model.specs.Splitting.{of_two, of_three};
ghost use Rattle.term_pool.specs.Terms.{term_of};
ghost use Rattle.product_bool.specs.Gates.{gate_ranges};
ghost use Rattle.product_bool.specs.Posts.{Posts};
ghost use Rattle.product_bool.specs.Views.{Gives};

use crate::faults::SplitFault;
use crate::members::{Placed, read_member};
use crate::parts::Split;
use crate::posts::{post, post_bit, post_product};
use fd_language::{NoMemory, RangeNode};
use monotone_check::Checked;
use std::alloc::Global;
use term_pool::{Pool, TermId};

/// Posts one side of a conjunction.
fn post_conjunct(
    alloc: Global,
    list: &mut Vec<(u64, Checked)>,
    target: u64,
    told: u64,
    other: u64,
) -> Result<(), NoMemory>
    ensures { OnOk result (Posts
        (record { target = target; range = conjunct_row told other } ∷ [])
        list.old.items list.new.items) }
{
    let nodes = Vec::from_slice(
        alloc,
        &[
            RangeNode::Min(told),
            RangeNode::Max(told),
            RangeNode::Int(1),
            RangeNode::Add,
            RangeNode::Min(other),
            RangeNode::Sub,
            RangeNode::Span,
        ],
    )?;
    post(list, target, nodes)
}

/// The ranges of a conjunction.
pub(crate) fn post_and(
    alloc: Global,
    list: &mut Vec<(u64, Checked)>,
    left: u64,
    right: u64,
    told: u64,
) -> Result<(), NoMemory>
    ensures { OnOk result (Posts (and_ranges left right told) list.old.items list.new.items) }
{
    post_bit(alloc, list, left)?;
    post_bit(alloc, list, right)?;
    post_product(alloc, list, told, left, right)?;
    post_conjunct(alloc, list, left, told, right)?;
    post_conjunct(alloc, list, right, told, left)
}

/// Posts one side of a disjunction.
fn post_disjunct(
    alloc: Global,
    list: &mut Vec<(u64, Checked)>,
    target: u64,
    told: u64,
    other: u64,
) -> Result<(), NoMemory>
    ensures { OnOk result (Posts
        (record { target = target; range = disjunct_row told other } ∷ [])
        list.old.items list.new.items) }
{
    let nodes = Vec::from_slice(
        alloc,
        &[
            RangeNode::Min(told),
            RangeNode::Max(other),
            RangeNode::Sub,
            RangeNode::Max(told),
            RangeNode::Span,
        ],
    )?;
    post(list, target, nodes)
}

/// Posts what tells of a disjunction.
fn post_told(
    alloc: Global,
    list: &mut Vec<(u64, Checked)>,
    target: u64,
    left: u64,
    right: u64,
) -> Result<(), NoMemory>
    ensures { OnOk result (Posts
        (record { target = target; range = disjunction_row left right } ∷ [])
        list.old.items list.new.items) }
{
    let nodes = Vec::from_slice(
        alloc,
        &[
            RangeNode::Min(left),
            RangeNode::Min(right),
            RangeNode::Add,
            RangeNode::Int(2),
            RangeNode::DivUp,
            RangeNode::Max(left),
            RangeNode::Max(right),
            RangeNode::Add,
            RangeNode::Span,
            RangeNode::Int(0),
            RangeNode::Int(1),
            RangeNode::Span,
            RangeNode::Inter,
        ],
    )?;
    post(list, target, nodes)
}

/// The ranges of a disjunction.
fn post_or(
    alloc: Global,
    list: &mut Vec<(u64, Checked)>,
    left: u64,
    right: u64,
    told: u64,
) -> Result<(), NoMemory>
    ensures { OnOk result (Posts (or_ranges left right told) list.old.items list.new.items) }
{
    post_bit(alloc, list, left)?;
    post_bit(alloc, list, right)?;
    post_told(alloc, list, told, left, right)?;
    post_disjunct(alloc, list, left, told, right)?;
    post_disjunct(alloc, list, right, told, left)
}

/// Posts that a variable is 1 less another.
fn post_negation(
    alloc: Global,
    list: &mut Vec<(u64, Checked)>,
    target: u64,
    other: u64,
) -> Result<(), NoMemory>
    ensures { OnOk result (Posts (record { target = target; range = negation_row other } ∷ [])
        list.old.items list.new.items) }
{
    let nodes = Vec::from_slice(
        alloc,
        &[
            RangeNode::Int(1),
            RangeNode::Max(other),
            RangeNode::Sub,
            RangeNode::Int(1),
            RangeNode::Min(other),
            RangeNode::Sub,
            RangeNode::Span,
        ],
    )?;
    post(list, target, nodes)
}

/// The ranges of a negation.
pub(crate) fn post_not(
    alloc: Global,
    list: &mut Vec<(u64, Checked)>,
    left: u64,
    right: u64,
) -> Result<(), NoMemory>
    ensures { OnOk result (Posts (not_ranges left right) list.old.items list.new.items) }
{
    post_negation(alloc, list, left, right)?;
    post_negation(alloc, list, right, left)
}

/// What joins two arguments.
#[derive(Clone, Copy)]
pub(crate) enum Gate {
    And,
    Or,
}

/// The ranges of a gate.
fn post_gate(
    alloc: Global,
    list: &mut Vec<(u64, Checked)>,
    gate: Gate,
    left: u64,
    right: u64,
    told: u64,
) -> Result<(), NoMemory>
    ensures { OnOk result (Posts (gate_ranges gate left right told)
        list.old.items list.new.items) }
{
    match gate {
        Gate::And => post_and(alloc, list, left, right, told),
        Gate::Or => post_or(alloc, list, left, right, told),
    }
}

/// What `fd_and` or `fd_or` becomes.
pub(crate) fn gated(
    alloc: Global,
    pool: &Pool,
    gate: Gate,
    left: TermId,
    right: TermId,
    told: TermId,
    fresh: u64,
) -> Result<Split, SplitFault>
    requires left { left.number < length pool.now.entries }
    requires right { right.number < length pool.now.entries }
    requires told { told.number < length pool.now.entries }
    requires fresh { fresh + 3 < 2 ^ 64 }
    ensures { Gives (of_three (gate_ranges gate) (term_of pool.now left) (term_of pool.now right)
        (term_of pool.now told) fresh) result }
{
    let left = read_member(pool, left)?;
    let right = read_member(pool, right)?;
    let told = read_member(pool, told)?;
    let mut placed = Placed {
        equated: Vec::new(alloc),
        fresh,
    };
    let first = placed.place(left)?;
    let second = placed.place(right)?;
    let third = placed.place(told)?;
    let mut list = Vec::new(alloc);
    post_gate(alloc, &mut list, gate, first, second, third)?;
    Ok(Split {
        equated: placed.equated,
        added: placed.fresh,
        list,
        sums: Vec::new(alloc),
    })
}

/// What `fd_not` becomes.
pub(crate) fn negation(
    alloc: Global,
    pool: &Pool,
    left: TermId,
    right: TermId,
    fresh: u64,
) -> Result<Split, SplitFault>
    requires left { left.number < length pool.now.entries }
    requires right { right.number < length pool.now.entries }
    requires fresh { fresh + 2 < 2 ^ 64 }
    ensures { Gives (of_two not_ranges (term_of pool.now left) (term_of pool.now right) fresh)
        result }
{
    let left = read_member(pool, left)?;
    let right = read_member(pool, right)?;
    let mut placed = Placed {
        equated: Vec::new(alloc),
        fresh,
    };
    let first = placed.place(left)?;
    let second = placed.place(right)?;
    let mut list = Vec::new(alloc);
    post_not(alloc, &mut list, first, second)?;
    Ok(Split {
        equated: placed.equated,
        added: placed.fresh,
        list,
        sums: Vec::new(alloc),
    })
}
