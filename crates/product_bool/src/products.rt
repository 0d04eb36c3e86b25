//! Products of two variables.

ghost use Rattle.std.specs.Prelude.{◌≡◌, ◌<◌, ◌+◌, ◌^◌, ◌∷◌, [], length, IfOk, OnOk};
ghost use Rattle.fd_model.specs.ProductRows.{factors as factors_of, with_result as with_result_of, product_form as form_of, product_ranges, quotient as quotient_row};
ghost use Rattle.fd_model.specs.Splitting.{product_of};
ghost use Rattle.term_pool.specs.Terms.{term_of};
ghost use Rattle.term_pool.specs.PoolInvariant.{IsPool};
ghost use Rattle.product_bool.specs.Posts.{Posts};
ghost use Rattle.product_bool.specs.Products.{variable_at, FindsForm};
ghost use Rattle.product_bool.specs.Views.{Splits};

use crate::faults::SplitFault;
use crate::members::{Member, Placed, read_member};
use crate::parts::Split;
use crate::posts::{post, post_product};
use fd_language::{NoMemory, RangeNode};
use fd_model::kinds::Relation;
use monotone_check::Checked;
use std::alloc::Global;
use term_pool::{Node, Pool, TermId};

/// The variable that a term is.
fn variable(pool: &Pool, term: TermId) -> Option<u64>
    requires { term.number < length pool.now.entries }
    ensures is { result ≡ variable_at (term_of pool.now term) }
    ensures valid { IsPool pool.now }
{
    match pool.view(term) {
        Node::Var(variable) => Some(variable),
        Node::Int(_) => None,
        Node::Atom(_) => None,
        Node::Comp(_, _) => None,
    }
}

/// The variables of a product of two.
#[tactic(auto, using(crate::proofs::Factors::both_found, crate::proofs::Factors::left_none, crate::proofs::Factors::right_none, crate::proofs::Factors::name_none))]
fn factors(pool: &Pool, term: TermId) -> Option<(u64, u64)>
    requires { term.number < length pool.now.entries }
    ensures { result ≡ factors_of (term_of pool.now term) }
{
    match pool.view(term) {
        Node::Var(_) => None,
        Node::Int(_) => None,
        Node::Atom(_) => None,
        Node::Comp(name, parts) => match parts {
            [left, right] => {
                if pool.name_of(name) != "*" {
                    return None;
                }
                let left = variable(pool, *left)?;
                let right = variable(pool, *right)?;
                Some((left, right))
            }
            [] => None,
            [_] => None,
            [_, _, _, ..] => None,
        },
    }
}

/// Two variables, and the variable or the integer that is their product.
#[derive(Clone, Copy)]
pub(crate) struct Product {
    pub left: u64,
    pub right: u64,
    pub result: Member,
}

/// The product of two variables that is a variable or an integer.
#[tactic(auto, using(crate::proofs::Factors::result_found, crate::proofs::Factors::result_none))]
fn with_result(pool: &Pool, factors: Option<(u64, u64)>, term: TermId) -> Option<Product>
    requires { term.number < length pool.now.entries }
    ensures { FindsForm (with_result_of factors (term_of pool.now term)) result }
{
    let (left, right) = factors?;
    match read_member(pool, term) {
        Ok(result) => Some(Product {
            left,
            right,
            result,
        }),
        Err(_) => None,
    }
}

/// The product form of two sides.
#[tactic(auto, using(crate::proofs::Factors::first_form, crate::proofs::Factors::second_form))]
fn product_form(pool: &Pool, relation: Relation, left: TermId, right: TermId) -> Option<Product>
    requires left { left.number < length pool.now.entries }
    requires right { right.number < length pool.now.entries }
    ensures { FindsForm (form_of relation (term_of pool.now left) (term_of pool.now right)) result }
{
    match relation {
        Relation::Equal => match with_result(pool, factors(pool, left), right) {
            Some(product) => Some(product),
            None => with_result(pool, factors(pool, right), left),
        },
        Relation::Differ => None,
        Relation::Less => None,
        Relation::AtMost => None,
        Relation::Greater => None,
        Relation::AtLeast => None,
    }
}

/// Posts that a variable is between quotients of a product and the other variable.
fn post_quotient(
    alloc: Global,
    list: &mut Vec<(u64, Checked)>,
    target: u64,
    product: u64,
    other: u64,
) -> Result<(), NoMemory>
    ensures { OnOk result (Posts
        (record { target = target; range = quotient_row product other } ∷ [])
        list.old.items list.new.items) }
{
    let nodes = Vec::from_slice(
        alloc,
        &[
            RangeNode::Min(product),
            RangeNode::Max(other),
            RangeNode::DivUp,
            RangeNode::Max(product),
            RangeNode::Min(other),
            RangeNode::DivDown,
            RangeNode::Span,
        ],
    )?;
    post(list, target, nodes)
}

/// The ranges of a product.
#[tactic(auto, using(crate::proofs::Gates::posts_both))]
fn post_products(
    alloc: Global,
    list: &mut Vec<(u64, Checked)>,
    left: u64,
    right: u64,
    product: u64,
) -> Result<(), NoMemory>
    ensures { OnOk result (Posts (product_ranges left right product)
        list.old.items list.new.items) }
{
    post_product(alloc, list, product, left, right)?;
    post_quotient(alloc, list, left, product, right)?;
    post_quotient(alloc, list, right, product, left)
}

/// What a product becomes, and none where the sides have no such form.
pub(crate) fn product_parts(
    alloc: Global,
    pool: &Pool,
    relation: Relation,
    left: TermId,
    right: TermId,
    fresh: u64,
) -> Result<Option<Split>, SplitFault>
    requires left { left.number < length pool.now.entries }
    requires right { right.number < length pool.now.entries }
    requires fresh { fresh + 1 < 2 ^ 64 }
    ensures { Splits (product_of fresh
        (form_of relation (term_of pool.now left) (term_of pool.now right))) result }
{
    let form = match product_form(pool, relation, left, right) {
        Some(form) => form,
        None => return Ok(None),
    };
    let mut placed = Placed {
        equated: Vec::new(alloc),
        fresh,
    };
    let product = placed.place(form.result)?;
    let mut list = Vec::new(alloc);
    post_products(alloc, &mut list, form.left, form.right, product)?;
    Ok(Some(Split {
        equated: placed.equated,
        added: placed.fresh,
        list,
        sums: Vec::new(alloc),
    }))
}
