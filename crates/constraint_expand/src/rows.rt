//! The ranges of a linear form.

ghost use Rattle.std.specs.Prelude.{◌≡◌, ℕ, ◌+◌, ◌*◌, ◌^◌, ◌<◌, ◌≤◌, ◌++◌, [], ◌∷◌, true, pos, negsuc, neg_ℤ, if◌then◌else◌, MatchOption, IfOk, OnOk, OnErr};
ghost use Rattle.fd_model.specs.Linear.{in_integers, scaled};
ghost use Rattle.fd_model.specs.LinearRows.{rows_behind, compares, linear_rows as rows_of};
ghost use Rattle.constraint_expand.specs.Pieces.{IsPiece, IsOver, rows_ahead, AreReady};
ghost use Rattle.constraint_expand.specs.Posts.{Posts, Accepted, indexicals};
ghost use Rattle.linear_forms.specs.IntegerSums.{AreIntegers};
ghost use Rattle.constraint_expand.specs.Nodes.{CanTurn, comparison_of, lower_reading, upper_reading, feature_of, product_nodes, bound_nodes, lower_nodes, upper_nodes, row_list, HasProduct, IsRowForm, AreSides, row_at};

use crate::posts::{post, post_none};
use fd_language::{NoMemory, RangeNode};
use linear_forms::negated;
use monotone_check::Checked;
use std::alloc::Global;

/// How the sum of a normal form compares to its constant.
#[derive(Clone, Copy)]
pub(crate) enum Comparison {
    Equal,
    Other,
    AtMost,
}

/// How the variables of a bound are read: for its least, its greatest or its known value.
#[derive(Clone, Copy)]
pub(crate) enum BoundReading {
    Low,
    High,
    Exact,
}

/// A form, at `true` turned, with the nodes of its products for the lower and for the upper ends of
/// rows. Each product is taken away from what is before it, and has four nodes.
#[derive(Drop)]
pub(crate) struct RowForm {
    pub turned: bool,
    pub terms: Vec<(u64, i64)>,
    pub constant: i64,
    pub lower: Vec<RangeNode>,
    pub upper: Vec<RangeNode>,
}

/// What is read of a product's variable.
fn feature(reading: BoundReading, term: (u64, i64)) -> RangeNode
    ensures { result ≡ feature_of reading term.0 term.1 }
{
    let (variable, coefficient) = term;
    match reading {
        BoundReading::Low => if coefficient < 0 {
            RangeNode::Min(variable)
        } else {
            RangeNode::Max(variable)
        },
        BoundReading::High => if coefficient < 0 {
            RangeNode::Max(variable)
        } else {
            RangeNode::Min(variable)
        },
        BoundReading::Exact => RangeNode::Val(variable),
    }
}

/// Writes a product that is taken away.
fn write_product(
    nodes: &mut Vec<RangeNode>,
    reading: BoundReading,
    term: (u64, i64),
) -> Result<(), NoMemory>
    ensures { OnOk result
        (nodes.new.items ≡ nodes.old.items ++ product_nodes reading (term ∷ [])) }
{
    nodes.extend_from_slice(&[
        RangeNode::Int(term.1),
        feature(reading, term),
        RangeNode::Mul,
        RangeNode::Sub,
    ])?;
    Ok(())
}

/// The nodes of the products.
fn write_products(
    alloc: Global,
    terms: &[(u64, i64)],
    reading: BoundReading,
) -> Result<Vec<RangeNode>, NoMemory>
    ensures { IfOk result (λ nodes. nodes.items ≡ product_nodes reading terms.now) }
{
    let mut nodes = Vec::with_capacity(alloc, terms.len().saturating_mul(4))?;
    for term in terms {
        write_product(&mut nodes, reading, *term)?;
    }
    Ok(nodes)
}

/// How the lower ends of rows are read.
fn lower_of(comparison: Comparison) -> BoundReading
    ensures { result ≡ lower_reading comparison }
{
    match comparison {
        Comparison::Equal => BoundReading::Low,
        Comparison::Other => BoundReading::Exact,
        Comparison::AtMost => BoundReading::Low,
    }
}

/// How the upper ends of rows are read.
fn upper_of(comparison: Comparison) -> BoundReading
    ensures { result ≡ upper_reading comparison }
{
    match comparison {
        Comparison::Equal => BoundReading::High,
        Comparison::Other => BoundReading::Exact,
        Comparison::AtMost => BoundReading::High,
    }
}

fn form_of(
    alloc: Global,
    comparison: Comparison,
    turned: bool,
    terms: Vec<(u64, i64)>,
    constant: i64,
) -> Result<RowForm, NoMemory>
    ensures { IfOk result (IsRowForm comparison turned terms.items constant) }
{
    let lower = write_products(alloc, &terms, lower_of(comparison))?;
    let upper = write_products(alloc, &terms, upper_of(comparison))?;
    Ok(RowForm {
        turned,
        terms,
        constant,
        lower,
        upper,
    })
}

/// Writes the form's constant less the products but the one at `index`, divided by the coefficient
/// of that one.
fn write_bound(
    nodes: &mut Vec<RangeNode>,
    form: &RowForm,
    products: &[RangeNode],
    index: usize,
    division: RangeNode,
) -> Result<(), NoMemory>
    requires product { HasProduct form.now index products.now }
    ensures { OnOk result (nodes.new.items
        ≡ nodes.old.items ++ bound_nodes form.now index products.now division) }
{
    let own = 4 * index;
    nodes.push(RangeNode::Int(form.constant))?;
    nodes.extend_from_slice(&products[..own])?;
    nodes.extend_from_slice(&products[own + 4..])?;
    nodes.push(RangeNode::Int(form.terms[index].1))?;
    nodes.push(division)?;
    Ok(())
}

/// Writes the lower end of a row.
fn write_lower(
    nodes: &mut Vec<RangeNode>,
    comparison: Comparison,
    form: &RowForm,
    index: usize,
) -> Result<(), NoMemory>
    requires { HasProduct form.now index form.now.lower.items }
    ensures { OnOk result
        (nodes.new.items ≡ nodes.old.items ++ lower_nodes comparison form.now index) }
{
    match comparison {
        Comparison::AtMost => if form.turned {
            write_bound(nodes, form, &form.lower, index, RangeNode::DivUp)
        } else {
            nodes.push(RangeNode::Int(0))?;
            Ok(())
        },
        Comparison::Equal | Comparison::Other => {
            write_bound(nodes, form, &form.lower, index, RangeNode::DivUp)
        }
    }
}

/// Writes the upper end of a row.
fn write_upper(
    nodes: &mut Vec<RangeNode>,
    comparison: Comparison,
    form: &RowForm,
    index: usize,
) -> Result<(), NoMemory>
    requires { HasProduct form.now index form.now.upper.items }
    ensures { OnOk result
        (nodes.new.items ≡ nodes.old.items ++ upper_nodes comparison form.now index) }
{
    match comparison {
        Comparison::AtMost => if form.turned {
            nodes.push(RangeNode::Infinity)?;
            Ok(())
        } else {
            write_bound(nodes, form, &form.upper, index, RangeNode::DivDown)
        },
        Comparison::Equal | Comparison::Other => {
            write_bound(nodes, form, &form.upper, index, RangeNode::DivDown)
        }
    }
}

/// The nodes of the row that the form is solved for at `index`.
fn row_nodes(
    alloc: Global,
    comparison: Comparison,
    form: &RowForm,
    index: usize,
) -> Result<Vec<RangeNode>, NoMemory>
    requires lower { HasProduct form.now index form.now.lower.items }
    requires upper { HasProduct form.now index form.now.upper.items }
    ensures { IfOk result (λ nodes. nodes.items ≡ row_list comparison form.now index) }
{
    let mut nodes = Vec::with_capacity(alloc, form.lower.len().saturating_add(form.upper.len()))?;
    write_lower(&mut nodes, comparison, form, index)?;
    write_upper(&mut nodes, comparison, form, index)?;
    nodes.push(RangeNode::Span)?;
    match comparison {
        Comparison::Other => nodes.push(RangeNode::Outside)?,
        Comparison::Equal | Comparison::AtMost => {}
    }
    Ok(nodes)
}

/// Posts the row of the variable at `index`. Where its coefficient is below 0, the form is turned.
fn post_row(
    alloc: Global,
    list: &mut Vec<(u64, Checked)>,
    comparison: Comparison,
    straight: &RowForm,
    turned: &RowForm,
    index: usize,
) -> Result<(), NoMemory>
    requires sides { AreSides comparison straight.now turned.now index }
    requires accepted { Accepted (row_at comparison straight.now index ∷ []) }
    ensures { OnOk result (Posts (row_at comparison straight.now index ∷ [])
        list.old.items list.new.items) }
{
    let (target, coefficient) = straight.terms[index];
    if coefficient < 0 {
        let nodes = row_nodes(alloc, comparison, turned, index)?;
        post(list, target, nodes)
    } else {
        let nodes = row_nodes(alloc, comparison, straight, index)?;
        post(list, target, nodes)
    }
}

/// The rows of a form, each for one of its variables, and the place of the first that has not been
/// given.
#[derive(Drop)]
pub(crate) struct Rows {
    pub comparison: Comparison,
    pub straight: RowForm,
    pub turned: RowForm,
    pub next: usize,
}

impl Rows {
    /// No rows.
    pub(crate) fn none(alloc: Global) -> Rows
        ensures none { rows_ahead result ≡ [] }
        ensures ready { AreReady result }
    {
        Rows {
            comparison: Comparison::Equal,
            straight: empty_form(alloc),
            turned: empty_form(alloc),
            next: 0,
        }
    }

    /// The next row, and none where no row is left.
    pub(crate) fn next_piece(
        &mut self,
        alloc: Global,
    ) -> Result<Option<Vec<(u64, Checked)>>, NoMemory>
        requires { AreReady self.old }
        ensures piece { IfOk result (λ p. MatchOption p
            (IsOver (rows_ahead self.old) (rows_ahead self.new))
            (λ list. IsPiece (rows_ahead self.old) (rows_ahead self.new) list.items)) }
        ensures unchanged { OnErr result (self.new ≡ self.old) }
        ensures ready { AreReady self.new }
    {
        if self.next >= self.straight.terms.len() {
            return Ok(None);
        }
        let mut list = Vec::new(alloc);
        post_row(
            alloc,
            &mut list,
            self.comparison,
            &self.straight,
            &self.turned,
            self.next,
        )?;
        self.next += 1;
        Ok(Some(list))
    }
}

/// A form without variables.
fn empty_form(alloc: Global) -> RowForm
    ensures { result.terms.items ≡ [] }
{
    RowForm {
        turned: false,
        terms: Vec::new(alloc),
        constant: 0,
        lower: Vec::new(alloc),
        upper: Vec::new(alloc),
    }
}

/// The constant of the turned form. The least integer of 64 bits stays as it is: no row is turned
/// where it stands.
fn turned_constant(constant: i64) -> i64
    ensures { in_integers constant ≡ true → result ≡ neg_ℤ constant }
{
    constant.wrapping_neg()
}

/// The rows of a form.
pub(crate) fn rows_of_form(
    alloc: Global,
    comparison: Comparison,
    terms: &[(u64, i64)],
    constant: i64,
) -> Result<Rows, NoMemory>
    requires integers { AreIntegers terms.now }
    requires constant { CanTurn terms.now constant }
    requires accepted { Accepted (rows_behind (comparison_of comparison) constant [] terms.now) }
    ensures rows { IfOk result (λ rows. rows_ahead rows
        ≡ rows_behind (comparison_of comparison) constant [] terms.now) }
    ensures ready { IfOk result AreReady }
{
    let straight_terms = Vec::from_slice(alloc, terms)?;
    let turned_terms = negated(alloc, terms)?;
    let straight = form_of(alloc, comparison, false, straight_terms, constant)?;
    let turned = form_of(
        alloc,
        comparison,
        true,
        turned_terms,
        turned_constant(constant),
    )?;
    Ok(Rows {
        comparison,
        straight,
        turned,
        next: 0,
    })
}

/// Whether a form without variables is true.
fn holds(comparison: Comparison, constant: i64) -> bool
    ensures { result ≡ compares (comparison_of comparison) (pos 0) constant }
{
    match comparison {
        Comparison::Equal => constant == 0,
        Comparison::Other => constant != 0,
        Comparison::AtMost => 0 <= constant,
    }
}

/// The ranges of a linear form, and the next fresh number.
#[derive(Drop)]
pub(crate) struct LinearRanges {
    pub rows: Rows,
    pub rest: Vec<(u64, Checked)>,
    pub added: u64,
}

/// The ranges of a linear form. A false form without variables takes a fresh variable that has no
/// value.
pub(crate) fn linear_rows(
    alloc: Global,
    comparison: Comparison,
    terms: &[(u64, i64)],
    constant: i64,
    fresh: u64,
) -> Result<LinearRanges, NoMemory>
    requires integers { AreIntegers terms.now }
    requires constant { CanTurn terms.now constant }
    requires accepted { Accepted
        (rows_of (comparison_of comparison) terms.now constant fresh).ranges }
    requires ends { (rows_of (comparison_of comparison) terms.now constant fresh).fresh < 2 ^ 64 }
    ensures ranges { IfOk result (λ linear. rows_ahead linear.rows ++ indexicals linear.rest.items
        ≡ (rows_of (comparison_of comparison) terms.now constant fresh).ranges) }
    ensures ready { IfOk result (λ linear. AreReady linear.rows) }
    ensures fresh { IfOk result
        (λ l. l.added ≡ (rows_of (comparison_of comparison) terms.now constant fresh).fresh) }
{
    if !terms.is_empty() {
        let rows = rows_of_form(alloc, comparison, terms, constant)?;
        return Ok(LinearRanges {
            rows,
            rest: Vec::new(alloc),
            added: fresh,
        });
    }
    if holds(comparison, constant) {
        return Ok(LinearRanges {
            rows: Rows::none(alloc),
            rest: Vec::new(alloc),
            added: fresh,
        });
    }
    let mut rest = Vec::new(alloc);
    post_none(alloc, &mut rest, fresh)?;
    Ok(LinearRanges {
        rows: Rows::none(alloc),
        rest,
        added: fresh + 1,
    })
}
