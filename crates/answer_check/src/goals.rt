//! The goals of a flat query, read from the text's terms.

ghost use Rattle.std.specs.Prelude.{◌≡◌, ◌<◌, ◌&&◌, ◌∷◌, [], length, All, IfOk, MatchResult};
ghost use Rattle.std.specs.List.{list_all, list_any};
ghost use Rattle.fd_language.specs.Family.{count_up, has};
ghost use Rattle.fd_language.specs.PlacedTerm.{place};
ghost use Rattle.fd_language.specs.Spelling.{read_range as reading_of};
ghost use Rattle.fd_model.specs.FlatConstraints.{is_place};
ghost use Rattle.fd_model.specs.FlatQueries.{IsSatisfied};
ghost use Rattle.fd_model.specs.Queries.{goal_of};
ghost use Rattle.fd_model.specs.Satisfaction.{InRange};
ghost use Rattle.term_pool.specs.PlacedTerms.{placed_of};
ghost use Rattle.term_pool.specs.Terms.{term_of, terms_by};
ghost use Rattle.answer_check.specs.FlatForm.{conjuncts, flat_goals, is_flat_goal, is_flat_range};
ghost use Rattle.answer_check.specs.Goals.{FindsGoals, FindsLabelling, FindsLabels, Keeps, KeepsKind, KeepsRange, StopsAt, is_left_out};
ghost use Rattle.answer_check.specs.Members.{is_known, known_in, open_in};
ghost use Rattle.answer_check.specs.declared.outcome.Reason.TheVariants as reason;
ghost use Rattle.answer_check.specs.declared.outcome.Stop.TheVariants as stop;

use crate::forms::{GoalKind, form_named};
use crate::members::{Member, member_of, members_of};
use crate::outcome::{Reason, Stop};
use crate::sides::sides_of;
use crate::terms::{look, sides_of_comma};
use fd_language::{FlatRange, INFINITY, NoMemory, RangeNode};
use fd_model::kinds::{ConstraintKind, Order, Relation};
use monotone_check::{CheckFault, Checked, check};
use range_terms::{RangeFault, read_range};
use std::alloc::Global;
use term_pool::{Node, Pool, TermId};

/// A constraint, as it is checked.
#[derive(Drop)]
pub(crate) enum Constraint {
    /// A target in a range.
    Post(Member, Checked),
    /// A comparison, with the interval between its sides.
    Compare(Relation, FlatRange),
    AllDifferent(Vec<Member>),
    Element(Member, Vec<Member>, Member),
    Atmost(Member, Vec<Member>, Member),
}

/// The goals of a flat query.
#[derive(Drop)]
pub(crate) struct Goals {
    pub constraints: Vec<Constraint>,
    pub order: Order,
    /// The variables of the labelled list, each where it stands.
    pub labelled: Vec<u64>,
}

/// Whether the node is a pointwise form or a parameter.
fn is_left_out(node: RangeNode) -> bool
    ensures { result ≡ is_left_out node }
{
    matches!(
        node,
        RangeNode::Param(_)
            | RangeNode::Plus
            | RangeNode::Minus
            | RangeNode::Times
            | RangeNode::Over
    )
}

/// Whether some node is a pointwise form or a parameter.
fn has_left_out(nodes: &[RangeNode]) -> bool
    ensures { result ≡ list_any is_left_out nodes.now }
{
    nodes.iter().any(|node| is_left_out(*node))
}

/// The range that a term spells, where it is accepted and flat.
fn flat_range(alloc: Global, pool: &Pool, t: TermId) -> Result<Option<Checked>, NoMemory>
    requires { t.number < length pool.now.entries }
    ensures { IfOk result (KeepsRange (placed_of pool.now t)) }
{
    let source = match read_range(alloc, pool, t, INFINITY) {
        Ok(source) => source,
        Err(RangeFault::NotARange { .. }) => return Ok(None),
        Err(RangeFault::NoMemory) => return Err(NoMemory),
    };
    if has_left_out(source.range.nodes()) {
        return Ok(None);
    }
    match check(alloc, source.range, &source.places) {
        Ok(range) => Ok(Some(range)),
        Err(CheckFault::NoMemory) => Err(NoMemory),
        Err(_) => Ok(None),
    }
}

/// The integer that a term is.
fn integer_of(pool: &Pool, t: TermId) -> Option<Member>
    requires { t.number < length pool.now.entries }
    ensures { result ≡ known_in (term_of pool.now t) }
{
    match member_of(pool, t) {
        Some(member) if member.is_known() => Some(member),
        _ => None,
    }
}

/// Whether all members are integers.
fn are_known(members: &[Member]) -> bool
    ensures { result ≡ list_all is_known members.now }
{
    members.iter().all(|member| member.is_known())
}

/// The goal `T in R`.
fn posting(
    alloc: Global,
    pool: &Pool,
    target: TermId,
    range: TermId,
) -> Result<Option<Constraint>, NoMemory>
    requires target { target.number < length pool.now.entries }
    requires range { range.number < length pool.now.entries }
    ensures { let r = (reading_of INFINITY (placed_of pool.now range)).tree in IfOk result
        (Keeps (is_place (term_of pool.now target) && is_flat_range INFINITY
        (placed_of pool.now range) r)
        (λ a. InRange INFINITY INFINITY a (term_of pool.now target) r)) }
{
    let Some(target) = member_of(pool, target) else {
        return Ok(None);
    };
    match flat_range(alloc, pool, range)? {
        Some(range) => Ok(Some(Constraint::Post(target, range))),
        None => Ok(None),
    }
}

/// The comparison of two flat sides.
fn comparison(
    alloc: Global,
    pool: &Pool,
    relation: Relation,
    left: TermId,
    right: TermId,
) -> Result<Option<Constraint>, NoMemory>
    requires left { left.number < length pool.now.entries }
    requires right { right.number < length pool.now.entries }
    ensures { IfOk result (KeepsKind (ConstraintKind.Compare relation)
        (terms_by (term_of pool.now) (left ∷ right ∷ []))) }
{
    match sides_of(alloc, pool, left, right)? {
        Some(sides) => Ok(Some(Constraint::Compare(relation, sides))),
        None => Ok(None),
    }
}

/// A list whose members are pairwise different.
fn all_different(alloc: Global, pool: &Pool, list: TermId) -> Result<Option<Constraint>, NoMemory>
    requires { list.number < length pool.now.entries }
    ensures { IfOk result (KeepsKind ConstraintKind.AllDifferent
        (terms_by (term_of pool.now) (list ∷ []))) }
{
    match members_of(alloc, pool, list)? {
        Some(members) => Ok(Some(Constraint::AllDifferent(members))),
        None => Ok(None),
    }
}

/// An index, a list of integers, and the element with that index.
fn element(
    alloc: Global,
    pool: &Pool,
    index: TermId,
    list: TermId,
    element: TermId,
) -> Result<Option<Constraint>, NoMemory>
    requires index { index.number < length pool.now.entries }
    requires list { list.number < length pool.now.entries }
    requires element { element.number < length pool.now.entries }
    ensures { IfOk result (KeepsKind ConstraintKind.Element
        (terms_by (term_of pool.now) (index ∷ list ∷ element ∷ []))) }
{
    let Some(index) = member_of(pool, index) else {
        return Ok(None);
    };
    let Some(element) = member_of(pool, element) else {
        return Ok(None);
    };
    match members_of(alloc, pool, list)? {
        Some(members) if are_known(&members) => {
            Ok(Some(Constraint::Element(index, members, element)))
        }
        _ => Ok(None),
    }
}

/// A number, a list, and the value that at most so many members have.
fn atmost(
    alloc: Global,
    pool: &Pool,
    most: TermId,
    list: TermId,
    value: TermId,
) -> Result<Option<Constraint>, NoMemory>
    requires most { most.number < length pool.now.entries }
    requires list { list.number < length pool.now.entries }
    requires value { value.number < length pool.now.entries }
    ensures { IfOk result (KeepsKind ConstraintKind.Atmost
        (terms_by (term_of pool.now) (most ∷ list ∷ value ∷ []))) }
{
    let Some(most) = integer_of(pool, most) else {
        return Ok(None);
    };
    let Some(value) = integer_of(pool, value) else {
        return Ok(None);
    };
    match members_of(alloc, pool, list)? {
        Some(members) => Ok(Some(Constraint::Atmost(most, members, value))),
        None => Ok(None),
    }
}

/// The constraint of these arguments, where it is flat.
fn constraint_by(
    alloc: Global,
    pool: &Pool,
    kind: ConstraintKind,
    parts: &[TermId],
) -> Result<Option<Constraint>, NoMemory>
    requires { All (λ t. t.number < length pool.now.entries) parts.now }
    ensures { IfOk result (KeepsKind kind (terms_by (term_of pool.now) parts.now)) }
{
    match kind {
        ConstraintKind::Compare(relation) => match parts {
            &[left, right] => comparison(alloc, pool, relation, left, right),
            _ => Ok(None),
        },
        ConstraintKind::AllDifferent => match parts {
            &[list] => all_different(alloc, pool, list),
            _ => Ok(None),
        },
        ConstraintKind::Element => match parts {
            &[index, list, value] => element(alloc, pool, index, list, value),
            _ => Ok(None),
        },
        ConstraintKind::Atmost => match parts {
            &[most, list, value] => atmost(alloc, pool, most, list, value),
            _ => Ok(None),
        },
        ConstraintKind::And | ConstraintKind::Or | ConstraintKind::Not | ConstraintKind::Reified =>
            Ok(None),
    }
}

/// The constraint that a term is, where it is one of the flat form.
fn constraint_of(alloc: Global, pool: &Pool, t: TermId) -> Result<Option<Constraint>, NoMemory>
    requires { t.number < length pool.now.entries }
    ensures { let x = placed_of pool.now t in IfOk result (Keeps (is_flat_goal INFINITY x
        (goal_of INFINITY x)) (λ a. IsSatisfied INFINITY INFINITY a (goal_of INFINITY x))) }
{
    let Node::Comp(name, parts) = look(pool, t) else {
        return Ok(None);
    };
    match form_named(pool.name_of(name), parts.len()) {
        Some(GoalKind::Posting) => match parts {
            &[target, range] => posting(alloc, pool, target, range),
            _ => Ok(None),
        },
        Some(GoalKind::Constraint(kind)) => constraint_by(alloc, pool, kind, parts),
        Some(GoalKind::Labelling(_)) => Ok(None),
        None => Ok(None),
    }
}

/// The variables among the members, each where it stands.
fn open_ones(alloc: Global, members: &[Member]) -> Result<Vec<u64>, NoMemory>
    ensures { IfOk result (λ v. v.items ≡ open_in members.now) }
{
    let mut open = Vec::new(alloc);
    for member in members {
        if let Member::Open(variable) = *member {
            open.push(variable)?;
        }
    }
    Ok(open)
}

/// Whether all are true.
fn are_true(marks: &[bool]) -> bool
    ensures { result ≡ list_all (λ mark. mark) marks.now }
{
    marks.iter().all(|mark| *mark)
}

/// Whether each variable below `count` is among these.
fn has_below(alloc: Global, labelled: &[u64], count: usize) -> Result<bool, NoMemory>
    ensures { IfOk result (λ b. b ≡ list_all (has labelled.now) (count_up 0 count)) }
{
    let mut is_there = vec![in alloc; false; count]?;
    for variable in labelled {
        let at = *variable as usize;
        if at < count {
            is_there[at] = true;
        }
    }
    Ok(are_true(&is_there))
}

/// A labelling's order and the variables of its list, each where it stands.
#[derive(Drop)]
struct Labelling {
    order: Order,
    labelled: Vec<u64>,
}

/// The labelling of a list in which each variable below `count` stands.
fn labelling_by(
    alloc: Global,
    pool: &Pool,
    order: Order,
    list: TermId,
    count: usize,
) -> Result<Option<Labelling>, NoMemory>
    requires { list.number < length pool.now.entries }
    ensures { IfOk result (FindsLabels count order (term_of pool.now list)) }
{
    let Some(members) = members_of(alloc, pool, list)? else {
        return Ok(None);
    };
    let labelled = open_ones(alloc, &members)?;
    if has_below(alloc, &labelled, count)? {
        Ok(Some(Labelling { order, labelled }))
    } else {
        Ok(None)
    }
}

/// The labelling that a term is, of a list in which each variable below `count` stands.
fn labelling_of(
    alloc: Global,
    pool: &Pool,
    t: TermId,
    count: usize,
) -> Result<Option<Labelling>, NoMemory>
    requires { t.number < length pool.now.entries }
    ensures { IfOk result (FindsLabelling count (place (placed_of pool.now t))
        (goal_of INFINITY (placed_of pool.now t))) }
{
    let Node::Comp(name, parts) = look(pool, t) else {
        return Ok(None);
    };
    match form_named(pool.name_of(name), parts.len()) {
        Some(GoalKind::Labelling(order)) => match parts {
            &[list] => labelling_by(alloc, pool, order, list, count),
            _ => Ok(None),
        },
        Some(GoalKind::Posting) => Ok(None),
        Some(GoalKind::Constraint(_)) => Ok(None),
        None => Ok(None),
    }
}

/// The refusal of a goal that breaks the flat form.
fn not_flat(pool: &Pool, t: TermId) -> Stop
    requires { t.number < length pool.now.entries }
    ensures { result ≡ stop.Refused (place (placed_of pool.now t)) reason.NotFlat }
{
    Stop::Refused {
        place: pool.place(t),
        reason: Reason::NotFlat,
    }
}

/// The goals of a body with so many variables: constraints, and then a labelling of all of them.
pub(crate) fn read_goals(
    alloc: Global,
    pool: &Pool,
    body: TermId,
    count: usize,
) -> Result<Goals, Stop>
    requires { body.number < length pool.now.entries }
    ensures { let found = flat_goals INFINITY count (conjuncts (placed_of pool.now body)) in
        MatchResult result (FindsGoals found) (StopsAt found reason.NotFlat) }
{
    let mut constraints = Vec::new(alloc);
    let mut ahead = vec![in alloc; body]?;
    while let Some(t) = ahead.pop() {
        if let Some((left, right)) = sides_of_comma(pool, t) {
            ahead.push(right)?;
            ahead.push(left)?;
        } else if ahead.is_empty() {
            let Some(Labelling { order, labelled }) = labelling_of(alloc, pool, t, count)? else {
                return Err(not_flat(pool, t));
            };
            return Ok(Goals {
                constraints,
                order,
                labelled,
            });
        } else {
            let Some(constraint) = constraint_of(alloc, pool, t)? else {
                return Err(not_flat(pool, t));
            };
            constraints.push(constraint)?;
        }
    }
    Err(not_flat_text())
}

/// The refusal of a text that is not one query.
pub(crate) fn not_flat_text() -> Stop
    ensures { result ≡ stop.Refused 0 reason.NotFlat }
{
    Stop::Refused {
        place: 0,
        reason: Reason::NotFlat,
    }
}
