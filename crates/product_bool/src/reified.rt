//! Comparisons that a variable tells.

ghost use Rattle.std.specs.Prelude.{◌≡◌, ◌<◌, ◌+◌, ◌^◌, pos, length, OnOk};
ghost use Rattle.fd_language.specs.declared.TheConstants.{INFINITY};
ghost use Rattle.fd_model.specs.Linear.{comparison, IsEqual, IsOther, IsAtMost};
ghost use Rattle.fd_model.specs.ReifiedRows.{relation_named, reach as reach_of, equal_ranges};
ghost use Rattle.fd_model.specs.Splitting.{reified as reified_of};
ghost use Rattle.linear_forms.specs.LinearForm.{form_of};
ghost use Rattle.term_pool.specs.Terms.{term_of};
ghost use Rattle.product_bool.specs.Posts.{Posts};
ghost use Rattle.product_bool.specs.Reified.{FindsSides, IsFar, TellsBoth, told_parts};
ghost use Rattle.product_bool.specs.Sums.{IsNormal};
ghost use Rattle.product_bool.specs.Views.{Gives};

use crate::booleans::{post_and, post_not};
use crate::faults::{SplitFault, or_overflow};
use crate::members::{Placed, read_member};
use crate::parts::Split;
use crate::posts::post_bit;
use crate::sums::{reach, tell};
use fd_language::NoMemory;
use fd_model::kinds::{ListCause, Relation};
use linear_forms::{Linear, collect, normal_form, turn};
use monotone_check::Checked;
use std::alloc::Global;
use term_pool::{Node, Pool, TermId};

/// The relation that a name is.
fn relation_of(name: &str) -> Option<Relation>
    ensures { result ≡ relation_named name.now }
{
    if name == "#=" {
        return Some(Relation::Equal);
    }
    if name == "#\\=" {
        return Some(Relation::Differ);
    }
    if name == "#<" {
        return Some(Relation::Less);
    }
    if name == "#=<" {
        return Some(Relation::AtMost);
    }
    if name == "#>" {
        return Some(Relation::Greater);
    }
    if name == "#>=" {
        return Some(Relation::AtLeast);
    }
    None
}

/// The relation and the sides of a comparison.
fn sides(pool: &Pool, term: TermId) -> Result<(Relation, TermId, TermId), ListCause>
    requires { term.number < length pool.now.entries }
    ensures { FindsSides pool.now (term_of pool.now term) result }
{
    match pool.view(term) {
        Node::Var(_) => Err(ListCause::Unbound),
        Node::Int(_) => Err(ListCause::Wrong),
        Node::Atom(_) => Err(ListCause::Wrong),
        Node::Comp(name, parts) => match parts {
            [left, right] => match relation_of(pool.name_of(name)) {
                Some(relation) => Ok((relation, *left, *right)),
                None => Err(ListCause::Wrong),
            },
            [] => Err(ListCause::Wrong),
            [_] => Err(ListCause::Wrong),
            [_, _, _, ..] => Err(ListCause::Wrong),
        },
    }
}

/// The ranges of a variable that is 1 where two others are.
fn post_equal(
    alloc: Global,
    list: &mut Vec<(u64, Checked)>,
    told: u64,
    left: u64,
    right: u64,
) -> Result<(), NoMemory>
    ensures { OnOk result (Posts (equal_ranges told left right) list.old.items list.new.items) }
{
    post_bit(alloc, list, left)?;
    post_bit(alloc, list, right)?;
    post_and(alloc, list, left, right, told)
}

/// The sums by which one variable tells of at most, and another one of at least.
fn tell_both(
    alloc: Global,
    first: u64,
    second: u64,
    far: i64,
    linear: &Linear,
) -> Result<Vec<Linear>, SplitFault>
    requires normal { IsNormal (form_of linear.now) }
    requires far { IsFar far (form_of linear.now) }
    ensures { TellsBoth first second far (form_of linear.now) (λ v. v.items) result }
{
    let mut sums = Vec::new(alloc);
    tell(alloc, &mut sums, first, far, linear)?;
    let turned = turn(alloc, linear)?;
    tell(alloc, &mut sums, second, far, &turned)?;
    Ok(sums)
}

/// What is told by a variable of a sum at most its constant.
fn told_at_most(
    alloc: Global,
    told: u64,
    placed: Placed,
    far: i64,
    linear: &Linear,
) -> Result<Split, SplitFault>
    requires normal { IsNormal (form_of linear.now) }
    requires far { IsFar far (form_of linear.now) }
    ensures { Gives (told_parts IsAtMost told placed far (form_of linear.now)) result }
{
    let mut sums = Vec::new(alloc);
    tell(alloc, &mut sums, told, far, linear)?;
    let mut list = Vec::new(alloc);
    post_bit(alloc, &mut list, told)?;
    Ok(Split {
        equated: placed.equated,
        added: placed.fresh,
        list,
        sums,
    })
}

/// Of one that is equal to it.
fn told_equal(
    alloc: Global,
    told: u64,
    placed: Placed,
    far: i64,
    linear: &Linear,
) -> Result<Split, SplitFault>
    requires normal { IsNormal (form_of linear.now) }
    requires far { IsFar far (form_of linear.now) }
    requires fresh { placed.fresh + 2 < 2 ^ 64 }
    ensures { Gives (told_parts IsEqual told placed far (form_of linear.now)) result }
{
    let left = placed.fresh;
    let right = left + 1;
    let sums = tell_both(alloc, left, right, far, linear)?;
    let mut list = Vec::new(alloc);
    post_equal(alloc, &mut list, told, left, right)?;
    Ok(Split {
        equated: placed.equated,
        added: right + 1,
        list,
        sums,
    })
}

/// And of one that is another.
fn told_other(
    alloc: Global,
    told: u64,
    placed: Placed,
    far: i64,
    linear: &Linear,
) -> Result<Split, SplitFault>
    requires normal { IsNormal (form_of linear.now) }
    requires far { IsFar far (form_of linear.now) }
    requires fresh { placed.fresh + 3 < 2 ^ 64 }
    ensures { Gives (told_parts IsOther told placed far (form_of linear.now)) result }
{
    let same = placed.fresh;
    let left = same + 1;
    let right = left + 1;
    let sums = tell_both(alloc, left, right, far, linear)?;
    let mut list = Vec::new(alloc);
    post_equal(alloc, &mut list, same, left, right)?;
    post_not(alloc, &mut list, same, told)?;
    Ok(Split {
        equated: placed.equated,
        added: right + 1,
        list,
        sums,
    })
}

/// What is told of a normal form.
fn told_form(
    alloc: Global,
    relation: Relation,
    told: u64,
    placed: Placed,
    linear: &Linear,
) -> Result<Split, SplitFault>
    requires normal { IsNormal (form_of linear.now) }
    requires fresh { placed.fresh + 3 < 2 ^ 64 }
    ensures { Gives (told_parts (comparison relation) told placed
        (pos (reach_of INFINITY (form_of linear.now))) (form_of linear.now)) result }
{
    let far = or_overflow(reach(linear))?;
    match relation {
        Relation::Equal => told_equal(alloc, told, placed, far, linear),
        Relation::Differ => told_other(alloc, told, placed, far, linear),
        Relation::Less => told_at_most(alloc, told, placed, far, linear),
        Relation::AtMost => told_at_most(alloc, told, placed, far, linear),
        Relation::Greater => told_at_most(alloc, told, placed, far, linear),
        Relation::AtLeast => told_at_most(alloc, told, placed, far, linear),
    }
}

/// What a comparison that a variable tells becomes.
pub(crate) fn reified(
    alloc: Global,
    pool: &Pool,
    teller: TermId,
    comparison: TermId,
    fresh: u64,
) -> Result<Split, SplitFault>
    requires teller { teller.number < length pool.now.entries }
    requires comparison { comparison.number < length pool.now.entries }
    requires fresh { fresh + 4 < 2 ^ 64 }
    ensures { Gives (reified_of INFINITY (term_of pool.now teller) (term_of pool.now comparison) fresh) result }
{
    let member = read_member(pool, teller)?;
    let (relation, left, right) = sides(pool, comparison)?;
    let difference = collect(alloc, pool, left, right)?;
    let linear = normal_form(alloc, relation, difference)?;
    let mut placed = Placed {
        equated: Vec::new(alloc),
        fresh,
    };
    let told = placed.place(member)?;
    told_form(alloc, relation, told, placed, &linear)
}
