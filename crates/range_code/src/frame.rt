//! The arguments of a range, and what they give.

ghost use Rattle.std.specs.Prelude.{◌≡◌, ◌<◌, length};
ghost use Rattle.std.specs.List.{All, list_any};
ghost use Rattle.range_code.specs.Frames.{variable_of, arg_integer, slot_integer, slot_set};
ghost use Rattle.range_code.specs.Nodes.{IsSeen};
ghost use Rattle.range_code.specs.Standings.{tested, IsTestSeen, TestRises};
ghost use Rattle.fd_language.specs.Range.{is_several};

use crate::instr::RangeInstr;
use domain_ranges::{Domain, View};
use fd_language::INFINITY;

/// What stands in a slot of a range.
#[derive(Clone, Copy)]
pub enum Arg {
    /// A variable, by its number in the view.
    Var(usize),
    /// A parameter's integer.
    Int(i64),
}

/// How the variables of a range stand: one has no value left, or one that is to have a single value has several, or neither.
#[derive(Clone, Copy)]
pub(crate) enum Standing {
    Empty,
    Open,
    Settled,
}

/// The variable that the argument is.
#[inline(always)]
fn variable(arg: Arg) -> usize
    requires { arg ≡ Arg.Var (variable_of arg) }
    ensures { result ≡ variable_of arg }
{
    match arg {
        Arg::Var(number) => number,
        Arg::Int(_) => unreachable!(),
    }
}

/// The integer, and 0 for a variable.
#[inline(always)]
fn integer(arg: Arg) -> i64
    ensures { result ≡ arg_integer arg }
{
    match arg {
        Arg::Var(_) => 0,
        Arg::Int(value) => value,
    }
}

/// The integer of the slot.
#[inline(always)]
pub(crate) fn slot_value(args: &[Arg], slot: usize) -> i64
    requires { slot < length args.now }
    ensures { result ≡ slot_integer args.now slot }
{
    integer(args[slot])
}

/// The domain of the slot's variable.
#[inline(always)]
pub(crate) fn slot_domain<'v, V: View>(args: &[Arg], slot: usize, view: &'v V) -> &'v Domain
    requires { IsSeen (length (V.sets view.now)) args.now slot }
    ensures { result.now ≡ slot_set (V.sets view.now) args.now slot }
{
    view.domain(variable(args[slot]))
}

/// Whether the domain has several members.
#[inline(always)]
pub(crate) fn is_open(domain: &Domain) -> bool
    ensures { result ≡ is_several domain.now }
{
    domain.least() != domain.greatest()
}

/// How the variables of a range stand by its tests: the first that doesn't pass decides.
pub(crate) fn find_standing<V: View>(tests: &[RangeInstr], args: &[Arg], view: &V) -> Standing
    requires { All (IsTestSeen (length (V.sets view.now)) args.now) tests.now }
    ensures value { result ≡ tested (slot_set (V.sets view.now) args.now) tests.now }
    ensures rising { result ≡ Standing.Settled
        → All (TestRises (slot_set (V.sets view.now) args.now)) tests.now }
{
    for test in tests {
        match test {
            RangeInstr::NeedSome(slot) => {
                if slot_domain(args, *slot, view).min().is_none() {
                    return Standing::Empty;
                }
            }
            RangeInstr::NeedFixed(slot) => {
                if is_open(slot_domain(args, *slot, view)) {
                    return Standing::Open;
                }
            }
            _ => {}
        }
    }
    Standing::Settled
}

/// Whether the domain of some slot has several members.
#[inline(always)]
pub(crate) fn is_some_open<V: View>(slots: &[usize], args: &[Arg], view: &V) -> bool
    requires { All (IsSeen (length (V.sets view.now)) args.now) slots.now }
    ensures { result ≡ list_any (λ s. is_several (slot_set (V.sets view.now) args.now s))
        slots.now }
{
    for slot in slots {
        if is_open(slot_domain(args, *slot, view)) {
            return true;
        }
    }
    false
}
