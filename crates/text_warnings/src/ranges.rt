//! What the ranges of a text lose.

ghost use Rattle.std.specs.Prelude.{◌≡◌, ◌<◌, length, OnOk};
ghost use Rattle.fd_language.specs.PlacedTerm.{place as place_of};
ghost use Rattle.fd_model.specs.Forms.{is_named};
ghost use Rattle.term_pool.specs.PlacedTerms.{placed_of};
ghost use Rattle.text_warnings.specs.PartViews.{two_ranges, IsRange};
ghost use Rattle.text_warnings.specs.SilentLosses.{interval_losses, is_falling, is_negative, joined_ranges, plain_losses, range_losses, shifted_ranges, warned_if};
ghost use Rattle.text_warnings.specs.TermParts.{integer_of as integer_in, parts_of as parts_in};
ghost use Rattle.text_warnings.specs.WarningViews.{concern_in, Adds, IsConcernWithin};

use crate::parts::{Parts, integer_of, parts_of};
use crate::terms::Body;
use crate::{Concern, Warning};
use fd_language::NoMemory;
use term_pool::{Pool, TermId};

/// Warns of the term's place, where the test holds.
pub(crate) fn warn_if(
    pool: &Pool,
    test: bool,
    t: TermId,
    concern: Concern,
    warnings: &mut Vec<Warning>,
) -> Result<(), NoMemory>
    requires term { t.number < length pool.now.entries }
    requires concern { IsConcernWithin pool.now concern }
    ensures { OnOk result (Adds pool.now (warned_if test (place_of (placed_of pool.now t))
        (concern_in pool.now concern)) warnings.old.items warnings.new.items) }
{
    if test {
        let place = pool.place(t);
        warnings.push(Warning { place, concern })?;
    }
    Ok(())
}

/// Whether the term is an integer below 0.
pub(crate) fn is_negative(pool: &Pool, t: TermId) -> bool
    requires { t.number < length pool.now.entries }
    ensures { result ≡ is_negative (integer_in (placed_of pool.now t)) }
{
    match integer_of(pool, t) {
        Some(integer) => integer < 0,
        None => false,
    }
}

/// Whether both terms are integers, and the second one is below the first.
fn is_falling(pool: &Pool, low: TermId, high: TermId) -> bool
    requires low { low.number < length pool.now.entries }
    requires high { high.number < length pool.now.entries }
    ensures { result ≡ is_falling (integer_in (placed_of pool.now low)) (integer_in
        (placed_of pool.now high)) }
{
    match (integer_of(pool, low), integer_of(pool, high)) {
        (Some(first), Some(last)) => last < first,
        (_, _) => false,
    }
}

/// Warns of an interval with these ends.
fn put_interval(
    pool: &Pool,
    range: TermId,
    low: TermId,
    high: TermId,
    warnings: &mut Vec<Warning>,
) -> Result<(), NoMemory>
    requires range { range.number < length pool.now.entries }
    requires low { low.number < length pool.now.entries }
    requires high { high.number < length pool.now.entries }
    ensures { OnOk result (Adds pool.now (interval_losses (place_of (placed_of pool.now range))
        (placed_of pool.now low) (placed_of pool.now high)) warnings.old.items
        warnings.new.items) }
{
    let negative = Concern::BelowZero;
    warn_if(pool, is_negative(pool, low), low, negative, warnings)?;
    let falling = is_falling(pool, low, high);
    warn_if(pool, falling, range, Concern::EmptyRange, warnings)?;
    warn_if(pool, is_negative(pool, high), high, negative, warnings)
}

/// Warns of a range with no range in it.
fn put_plain(pool: &Pool, range: TermId, warnings: &mut Vec<Warning>) -> Result<(), NoMemory>
    requires { range.number < length pool.now.entries }
    ensures { OnOk result (Adds pool.now (plain_losses (place_of (placed_of pool.now range))
        (parts_in (placed_of pool.now range))) warnings.old.items warnings.new.items) }
{
    match parts_of(pool, range) {
        Parts::One(name, inner) => {
            let test = pool.name_of(name) == "{}" && is_negative(pool, inner);
            warn_if(pool, test, inner, Concern::BelowZero, warnings)
        }
        Parts::Two(name, low, high) => {
            if pool.name_of(name) == ".." {
                put_interval(pool, range, low, high, warnings)
            } else {
                Ok(())
            }
        }
        Parts::Other => Ok(()),
    }
}

/// Whether both parts of a range with this name are ranges.
fn is_joined(name: &str) -> bool
    ensures { result ≡ is_named joined_ranges name.now }
{
    matches!(name, ":" | "&")
}

/// Whether the first part of a range with this name is a range.
fn is_shifted(name: &str) -> bool
    ensures { result ≡ is_named shifted_ranges name.now }
{
    matches!(name, "+" | "-" | "*" | "/")
}

/// What a range of this name with two parts is.
fn two_ranges(name: &str, left: TermId, right: TermId) -> Body
    ensures { result ≡ two_ranges name.now left right }
{
    if is_joined(name) {
        Body::Both(left, right)
    } else if is_shifted(name) {
        Body::Inner(left)
    } else {
        Body::Goal
    }
}

/// What the range is: of two ranges, of one, or of none.
fn range_form(pool: &Pool, t: TermId) -> Body
    requires { t.number < length pool.now.entries }
    ensures { IsRange pool.now t result }
{
    match parts_of(pool, t) {
        Parts::Two(name, left, right) => two_ranges(pool.name_of(name), left, right),
        Parts::One(..) | Parts::Other => Body::Goal,
    }
}

/// Warns of what the range loses. `ahead` is room for terms that wait.
pub(crate) fn put_range(
    pool: &Pool,
    range: TermId,
    ahead: &mut Vec<TermId>,
    warnings: &mut Vec<Warning>,
) -> Result<(), NoMemory>
    requires { range.number < length pool.now.entries }
    ensures { OnOk result (Adds pool.now (range_losses (placed_of pool.now range))
        warnings.old.items warnings.new.items) }
{
    ahead.clear();
    ahead.push(range)?;
    while let Some(next) = ahead.pop() {
        match range_form(pool, next) {
            Body::Both(left, right) => {
                ahead.push(right)?;
                ahead.push(left)?;
            }
            Body::Inner(inner) => ahead.push(inner)?,
            Body::Goal => put_plain(pool, next, warnings)?,
        }
    }
    Ok(())
}
