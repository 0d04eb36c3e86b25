//! What the goals of a text lose silently.

ghost use Rattle.std.specs.Prelude.{◌≡◌, ◌<◌, ◌++◌, length, OnOk};
ghost use Rattle.fd_model.specs.Forms.{is_named};
ghost use Rattle.fd_model.specs.Refusals.{form_of};
ghost use Rattle.term_pool.specs.PlacedTerms.{placed_of};
ghost use Rattle.term_reader.specs.Sentences.{sentences_of, AreOwn};
ghost use Rattle.text_warnings.specs.SilentLosses.{arithmetic_names, body_losses, bound_losses, bounding_names, goal_losses, is_arithmetic, losses, losses_by, losses_named, side_losses};
ghost use Rattle.text_warnings.specs.TermParts.{parts_of as parts_in};
ghost use Rattle.text_warnings.specs.WarningViews.{Adds};

use crate::parts::{Parts, integer_of, is_variable, parts_of};
use crate::ranges::{is_negative, put_range, warn_if};
use crate::terms::{Body, SentenceForm, body_form, sentence_form};
use crate::{Concern, Warning};
use fd_language::NoMemory;
use std::alloc::Global;
use term_pool::{Pool, TermId};
use term_reader::Sentences;

/// Whether a term of two parts with this name is arithmetic.
fn is_operation(name: &str) -> bool
    ensures { result ≡ is_named arithmetic_names name.now }
{
    matches!(name, "+" | "-" | "*" | "//" | "mod")
}

/// Whether the term is arithmetic that could be computed.
fn is_arithmetic(pool: &Pool, t: TermId) -> bool
    requires { t.number < length pool.now.entries }
    ensures { result ≡ is_arithmetic (parts_in (placed_of pool.now t)) }
{
    match parts_of(pool, t) {
        Parts::One(name, inner) => {
            pool.name_of(name) == "-" && integer_of(pool, inner).is_none()
        }
        Parts::Two(name, _, _) => is_operation(pool.name_of(name)),
        Parts::Other => false,
    }
}

/// Warns of the sides of `=` that are arithmetic.
fn put_sides(
    pool: &Pool,
    left: TermId,
    right: TermId,
    warnings: &mut Vec<Warning>,
) -> Result<(), NoMemory>
    requires left { left.number < length pool.now.entries }
    requires right { right.number < length pool.now.entries }
    ensures { OnOk result (Adds pool.now (side_losses (placed_of pool.now left) ++ side_losses
        (placed_of pool.now right)) warnings.old.items warnings.new.items) }
{
    let sum = is_arithmetic(pool, left);
    warn_if(pool, sum, left, Concern::Unevaluated, warnings)?;
    let sum = is_arithmetic(pool, right);
    warn_if(pool, sum, right, Concern::Unevaluated, warnings)
}

/// Warns of one side of a comparison: a number below 0, where a variable stands across.
fn put_bound(
    pool: &Pool,
    side: TermId,
    across: TermId,
    warnings: &mut Vec<Warning>,
) -> Result<(), NoMemory>
    requires side { side.number < length pool.now.entries }
    requires across { across.number < length pool.now.entries }
    ensures { OnOk result (Adds pool.now (bound_losses (placed_of pool.now side)
        (placed_of pool.now across)) warnings.old.items warnings.new.items) }
{
    let lost = is_variable(pool, across) && is_negative(pool, side);
    warn_if(pool, lost, side, Concern::BelowZero, warnings)
}

/// Warns of both sides of a comparison.
fn put_bounds(
    pool: &Pool,
    left: TermId,
    right: TermId,
    warnings: &mut Vec<Warning>,
) -> Result<(), NoMemory>
    requires left { left.number < length pool.now.entries }
    requires right { right.number < length pool.now.entries }
    ensures { OnOk result (Adds pool.now (bound_losses (placed_of pool.now left) (placed_of
        pool.now right) ++ bound_losses (placed_of pool.now right) (placed_of pool.now left))
        warnings.old.items warnings.new.items) }
{
    put_bound(pool, left, right, warnings)?;
    put_bound(pool, right, left, warnings)
}

/// Whether a goal of this name bounds a variable or gives it a value.
fn is_bounding(name: &str) -> bool
    ensures { result ≡ is_named bounding_names name.now }
{
    matches!(name, "#=" | "#<" | "#=<" | "#>" | "#>=")
}

/// Warns of a goal with this name and these two arguments. `ranges` is room.
fn put_named(
    pool: &Pool,
    name: &str,
    left: TermId,
    right: TermId,
    ranges: &mut Vec<TermId>,
    warnings: &mut Vec<Warning>,
) -> Result<(), NoMemory>
    requires left { left.number < length pool.now.entries }
    requires right { right.number < length pool.now.entries }
    ensures { OnOk result (Adds pool.now (losses_named name.now (placed_of pool.now left)
        (placed_of pool.now right)) warnings.old.items warnings.new.items) }
{
    if name == "in" {
        put_range(pool, right, ranges, warnings)
    } else if name == "=" {
        put_sides(pool, left, right, warnings)
    } else if is_bounding(name) {
        put_bounds(pool, left, right, warnings)
    } else {
        Ok(())
    }
}

/// Warns of what the goal loses. `ranges` is room.
fn put_goal(
    pool: &Pool,
    goal: TermId,
    ranges: &mut Vec<TermId>,
    warnings: &mut Vec<Warning>,
) -> Result<(), NoMemory>
    requires { goal.number < length pool.now.entries }
    ensures { OnOk result (Adds pool.now (goal_losses (parts_in (placed_of pool.now goal)))
        warnings.old.items warnings.new.items) }
{
    match parts_of(pool, goal) {
        Parts::Two(name, left, right) => {
            put_named(pool, pool.name_of(name), left, right, ranges, warnings)
        }
        Parts::One(..) | Parts::Other => Ok(()),
    }
}

/// Warns of what the goals of the body lose. `ahead` and `ranges` are room.
fn put_body(
    pool: &Pool,
    body: TermId,
    ahead: &mut Vec<TermId>,
    ranges: &mut Vec<TermId>,
    warnings: &mut Vec<Warning>,
) -> Result<(), NoMemory>
    requires { body.number < length pool.now.entries }
    ensures { OnOk result (Adds pool.now (body_losses (placed_of pool.now body))
        warnings.old.items warnings.new.items) }
{
    ahead.clear();
    ahead.push(body)?;
    while let Some(next) = ahead.pop() {
        match body_form(pool, next) {
            Body::Both(left, right) => {
                ahead.push(right)?;
                ahead.push(left)?;
            }
            Body::Inner(inner) => ahead.push(inner)?,
            Body::Goal => put_goal(pool, next, ranges, warnings)?,
        }
    }
    Ok(())
}

/// Warns of what the goals of the sentence lose. `ahead` and `ranges` are room.
fn put_losses_of(
    pool: &Pool,
    t: TermId,
    ahead: &mut Vec<TermId>,
    ranges: &mut Vec<TermId>,
    warnings: &mut Vec<Warning>,
) -> Result<(), NoMemory>
    requires { t.number < length pool.now.entries }
    ensures { OnOk result (Adds pool.now (losses_by (form_of (placed_of pool.now t)))
        warnings.old.items warnings.new.items) }
{
    match sentence_form(pool, t) {
        SentenceForm::Query(body) | SentenceForm::Clause(_, body) => {
            put_body(pool, body, ahead, ranges, warnings)
        }
        SentenceForm::Directive | SentenceForm::Fact(_) => Ok(()),
    }
}

/// Warns of what the goals of a text lose silently, in its order.
pub(crate) fn put_losses(
    alloc: Global,
    sentences: &Sentences,
    warnings: &mut Vec<Warning>,
) -> Result<(), NoMemory>
    requires { AreOwn sentences.now }
    ensures { OnOk result (Adds sentences.now.pool (losses (sentences_of sentences.now))
        warnings.old.items warnings.new.items) }
{
    let mut ahead = Vec::new(alloc);
    let mut ranges = Vec::new(alloc);
    for sentence in &sentences.list {
        let term = sentence.term;
        put_losses_of(&sentences.pool, term, &mut ahead, &mut ranges, warnings)?;
    }
    Ok(())
}
