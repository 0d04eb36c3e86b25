//! An element of a list of integers by its number.

ghost use Rattle.std.specs.Prelude.{◌≡◌, ◌+◌, ◌^◌, ◌<◌, ◌++◌, [], ◌∷◌, length, IfOk, OnOk};
ghost use Rattle.fd_language.specs.PostfixRanges.{nodes_of};
ghost use Rattle.fd_model.specs.ConstraintExpansion.{element as element_of};
ghost use Rattle.fd_model.specs.ListRows.{where_is, element_ranges as ranges_of};
ghost use Rattle.term_pool.specs.Terms.{term_of};
ghost use Rattle.constraint_expand.specs.Lists.{AreWords};
ghost use Rattle.constraint_expand.specs.Posts.{Posts, Accepted};
ghost use Rattle.constraint_expand.specs.Unions.{given_at, given_from, given_row, joined_nodes};
ghost use Rattle.constraint_expand.specs.Views.{Expands};

use crate::expansion::Expansion;
use crate::faults::ExpandFault;
use crate::members::{integers, place_all, read_member};
use crate::posts::{post, post_none};
use fd_language::{NoMemory, RangeNode};
use monotone_check::Checked;
use std::alloc::Global;
use term_pool::{Pool, TermId};

/// What an element's range reads, and what it gives.
#[derive(Clone, Copy)]
pub(crate) enum Direction {
    /// The element of each number.
    ElementAt,
    /// The number of each element.
    NumberOf,
}

/// Writes the range of `given` alone, where the variable may be `wanted`.
fn write_where(
    nodes: &mut Vec<RangeNode>,
    wanted: i64,
    variable: u64,
    given: i64,
) -> Result<(), NoMemory>
    ensures { OnOk result
        (nodes.new.items ≡ nodes.old.items ++ nodes_of (where_is wanted variable given)) }
{
    nodes.extend_from_slice(&[
        RangeNode::Int(wanted),
        RangeNode::One,
        RangeNode::Dom(variable),
        RangeNode::Inter,
        RangeNode::Int(0),
        RangeNode::Times,
        RangeNode::Int(given),
        RangeNode::Plus,
    ])?;
    Ok(())
}

/// Writes what an element and its number give of each other.
fn write_given(
    nodes: &mut Vec<RangeNode>,
    direction: Direction,
    variable: u64,
    number: usize,
    element: i64,
) -> Result<(), NoMemory>
    requires { number < 2 ^ 63 }
    ensures { OnOk result
        (nodes.new.items ≡ nodes.old.items ++ nodes_of
        (given_at direction variable number element)) }
{
    match direction {
        Direction::ElementAt => write_where(nodes, number as i64, variable, element),
        Direction::NumberOf => write_where(nodes, element, variable, number as i64),
    }
}

/// The nodes of the union over the elements, of which `first` is the first one.
fn union_nodes(
    alloc: Global,
    direction: Direction,
    variable: u64,
    first: i64,
    others: &[i64],
) -> Result<Vec<RangeNode>, NoMemory>
    ensures { IfOk result (λ nodes. nodes.items ≡ nodes_of (given_at direction variable 1 first)
        ++ joined_nodes (given_from direction variable 2 others.now)) }
{
    let mut nodes = Vec::new(alloc);
    write_given(&mut nodes, direction, variable, 1, first)?;
    for index in 0..others.len() {
        write_given(&mut nodes, direction, variable, index + 2, others[index])?;
        nodes.push(RangeNode::Union)?;
    }
    Ok(nodes)
}

/// Posts what a variable gives of the target.
fn post_union(
    alloc: Global,
    list: &mut Vec<(u64, Checked)>,
    target: u64,
    direction: Direction,
    variable: u64,
    elements: &[i64],
) -> Result<(), NoMemory>
    requires { Accepted (given_row target direction variable elements.now ∷ []) }
    ensures { OnOk result (Posts (given_row target direction variable elements.now ∷ [])
        list.old.items list.new.items) }
{
    match elements {
        [] => post_none(alloc, list, target),
        [first, others @ ..] => {
            let nodes = union_nodes(alloc, direction, variable, *first, others)?;
            post(list, target, nodes)
        }
    }
}

/// The ranges of an element and its number.
fn element_ranges(
    alloc: Global,
    index: u64,
    elements: &[i64],
    value: u64,
) -> Result<Vec<(u64, Checked)>, NoMemory>
    requires { AreWords elements.now }
    ensures { IfOk result (λ list. Posts (ranges_of index elements.now value) [] list.items) }
{
    let mut list = Vec::new(alloc);
    post_union(
        alloc,
        &mut list,
        value,
        Direction::ElementAt,
        index,
        elements,
    )?;
    post_union(
        alloc,
        &mut list,
        index,
        Direction::NumberOf,
        value,
        elements,
    )?;
    Ok(list)
}

/// The ranges of an element of a list of integers by its number, from 1.
pub(crate) fn element(
    alloc: Global,
    pool: &Pool,
    index: TermId,
    list: TermId,
    value: TermId,
    fresh: u64,
) -> Result<Expansion, ExpandFault>
    requires index { index.number < length pool.now.entries }
    requires list { list.number < length pool.now.entries }
    requires value { value.number < length pool.now.entries }
    requires ends { IfOk (element_of (term_of pool.now index) (term_of pool.now list)
        (term_of pool.now value) fresh) (λ x. x.fresh < 2 ^ 64) }
    ensures { Expands (element_of (term_of pool.now index) (term_of pool.now list)
        (term_of pool.now value) fresh) result }
{
    let index = read_member(pool, index)?;
    let elements = integers(alloc, pool, list)?;
    let value = read_member(pool, value)?;
    let placed = place_all(alloc, &[index, value], fresh)?;
    let list = element_ranges(alloc, placed.variables[0], &elements, placed.variables[1])?;
    Ok(Expansion::choosing(alloc, placed, list))
}
