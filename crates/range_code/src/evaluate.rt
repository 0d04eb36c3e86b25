//! A range evaluated, instruction by instruction.

ghost use Rattle.std.specs.Prelude.{◌≡◌, ◌≤◌, ℕ, ℤ, pos, List, [], ◌∷◌, ◌++◌, length, filter, vec_capacity, IfOk, OnOk};
ghost use Rattle.std.specs.List.{All};
ghost use Rattle.fd_language.specs.Range.{least as least_of, greatest as greatest_of};
ghost use Rattle.fd_language.specs.PostfixRanges.{spelled_range, IsSpelled};
ghost use Rattle.range_code.specs.Frames.{slot_set, slot_integer};
ghost use Rattle.range_code.specs.Nodes.{IsReadable};
ghost use Rattle.range_code.specs.Work.{leaf_value, filled_set, RangeFits, CanTake, IsTaken};
ghost use Rattle.range_code.specs.Heights.{tallest, HasRoom, IsCounted, KeepsRoom};
ghost use Rattle.range_code.specs.Steps.{outside};
ghost use Rattle.fd_language.specs.declared.TheConstants.{INFINITY as TOP};
ghost use Rattle.fd_language.specs.Family.{universe};
ghost use Rattle.range_code.specs.Choices.{is_chosen, AreRising};
ghost use Rattle.range_code.specs.Forms.{IsEvaluation};
ghost use Rattle.range_code.specs.Instructions.{node_of, IsPlaced};
ghost use Rattle.range_code.specs.StepNodes.{steps_from, all_steps, ArePlaced, IsAt};
ghost use Rattle.domain_ranges.specs.Narrowing.{between, IsNarrowed};

use crate::choice::gather;
use crate::form::Evaluation;
use crate::frame::{Arg, slot_domain, slot_value};
use crate::instr::RangeInstr;
use crate::work::Work;
use domain_ranges::{Domain, Narrowed, View};
use fd_language::NoMemory;
use std::alloc::Global;

/// The instructions of a range: some tests, and behind them the others in postfix order, with the constants that they push.
#[derive(Drop)]
pub(crate) struct Steps {
    pub instrs: Vec<RangeInstr>,
    pub tests: usize,
    pub constants: Vec<i128>,
}

/// The least member, and 0 where there is none.
#[inline(always)]
fn least(domain: &Domain) -> i128
    ensures { result ≡ pos (least_of domain.now) }
{
    domain.min().unwrap_or(0) as i128
}

/// The greatest member, and 0 where there is none.
#[inline(always)]
fn greatest(domain: &Domain) -> i128
    ensures { result ≡ pos (greatest_of domain.now) }
{
    domain.max().unwrap_or(0) as i128
}

/// The number that an instruction pushes.
#[inline(always)]
fn pushed<V: View>(instr: RangeInstr, steps: &Steps, args: &[Arg], view: &V) -> i128
    requires placed { IsPlaced (length steps.now.constants.items) instr }
    requires readable { IsReadable (length (V.sets view.now)) args.now
        (node_of steps.now.constants.items instr) }
    ensures { result ≡ leaf_value (slot_set (V.sets view.now) args.now)
        (slot_integer args.now) (node_of steps.now.constants.items instr) }
{
    match instr {
        RangeInstr::PushConst(place) => steps.constants[place],
        RangeInstr::PushArg(slot) => slot_value(args, slot) as i128,
        RangeInstr::PushMin(slot) => least(slot_domain(args, slot, view)),
        RangeInstr::PushMax(slot) => greatest(slot_domain(args, slot, view)),
        RangeInstr::PushVal(slot) => least(slot_domain(args, slot, view)),
        _ => 0,
    }
}

/// Takes the operands of the instruction and puts its value or set in their place.
#[inline(always)]
fn take<V: View>(
    work: &mut Work,
    instr: RangeInstr,
    steps: &Steps,
    args: &[Arg],
    view: &V,
) -> Result<(), NoMemory>
    requires placed { IsPlaced (length steps.now.constants.items) instr }
    requires readable { IsReadable (length (V.sets view.now)) args.now
        (node_of steps.now.constants.items instr) }
    requires fits { CanTake (node_of steps.now.constants.items instr) work.old }
    requires room { HasRoom (node_of steps.now.constants.items instr ∷ []) work.old }
    ensures taken { OnOk result (IsTaken (slot_set (V.sets view.now) args.now)
        (slot_integer args.now) (node_of steps.now.constants.items instr) work.old work.new) }
    ensures counted { OnOk result
        (IsCounted (node_of steps.now.constants.items instr) work.old work.new) }
    ensures kept { KeepsRoom work.old work.new }
{
    match instr {
        RangeInstr::NeedSome(_) | RangeInstr::NeedFixed(_) => Ok(()),
        RangeInstr::PushConst(_)
        | RangeInstr::PushArg(_)
        | RangeInstr::PushMin(_)
        | RangeInstr::PushMax(_)
        | RangeInstr::PushVal(_) => {
            work.push_value(pushed(instr, steps, args, view));
            Ok(())
        }
        RangeInstr::Add
        | RangeInstr::Sub
        | RangeInstr::Mul
        | RangeInstr::DivDown
        | RangeInstr::DivUp => {
            work.take_terms(instr);
            Ok(())
        }
        RangeInstr::Span => work.take_span(),
        RangeInstr::One => work.take_single(),
        RangeInstr::PushDom(slot) => work.push_domain(slot_domain(args, slot, view)),
        RangeInstr::Union => {
            work.take_union();
            Ok(())
        }
        RangeInstr::Inter => work.take_both(),
        RangeInstr::Outside => work.take_outside(),
        RangeInstr::Plus | RangeInstr::Minus | RangeInstr::Times | RangeInstr::Over => {
            work.take_range(instr)
        }
    }
}

/// Takes the instructions behind the tests up to a place.
fn run<V: View>(
    work: &mut Work,
    steps: &Steps,
    end: usize,
    args: &[Arg],
    view: &V,
) -> Result<(), NoMemory>
    requires spelled { IsSpelled (all_steps steps.now) }
    requires placed { ArePlaced steps.now }
    requires start { steps.now.tests ≤ end }
    requires end { end ≤ length steps.now.instrs.items }
    requires readable { All (IsReadable (length (V.sets view.now)) args.now) (all_steps steps.now) }
    requires fits { RangeFits (slot_set (V.sets view.now) args.now) (slot_integer args.now)
        (spelled_range (all_steps steps.now)) }
    requires values { work.old.values.items ≡ [] }
    requires sets { work.old.sets.sets ≡ [] }
    requires room { HasRoom (all_steps steps.now) work.old }
    ensures walked { OnOk result (IsAt (slot_set (V.sets view.now) args.now)
        (slot_integer args.now) steps.now end work.new) }
    ensures room { OnOk result (HasRoom (steps_from steps.now end) work.new) }
    ensures kept { KeepsRoom work.old work.new }
{
    for place in steps.tests..end {
        take(work, steps.instrs[place], steps, args, view)?;
    }
    Ok(())
}

/// The set of the range, by the table of ranges alone.
pub(crate) fn evaluate<V: View>(
    work: &mut Work,
    steps: &Steps,
    args: &[Arg],
    view: &V,
) -> Result<Domain, NoMemory>
    requires spelled { IsSpelled (all_steps steps.now) }
    requires placed { ArePlaced steps.now }
    requires readable { All (IsReadable (length (V.sets view.now)) args.now) (all_steps steps.now) }
    requires fits { RangeFits (slot_set (V.sets view.now) args.now) (slot_integer args.now)
        (spelled_range (all_steps steps.now)) }
    requires values { work.old.values.items ≡ [] }
    requires sets { work.old.sets.sets ≡ [] }
    requires room { HasRoom (all_steps steps.now) work.old }
    ensures set { IfOk result (λ d. d ≡ filled_set (slot_set (V.sets view.now) args.now)
        (slot_integer args.now) (spelled_range (all_steps steps.now))) }
    ensures kept { KeepsRoom work.old work.new }
{
    run(work, steps, steps.instrs.len(), args, view)?;
    work.pop_set()
}

/// What the last two values leave of the domain, which are the ends of an interval.
#[inline(always)]
fn narrow_to_ends(work: &mut Work, target: &Domain) -> Result<Narrowed, NoMemory>
    ensures narrowed { (a b : ℤ) → work.old.values.items ≡ ([] ++ a ∷ []) ++ b ∷ []
        → IfOk result (IsNarrowed target.now (between a b)) }
    ensures kept { KeepsRoom work.old work.new }
{
    let high = work.pop_value();
    let low = work.pop_value();
    target.narrowed_to(low, high)
}

/// What the last set leaves of the domain.
#[inline(always)]
fn narrow_to_set(work: &mut Work, target: &Domain) -> Result<Narrowed, NoMemory>
    ensures narrowed { (r : List ℕ) (rest : List (List ℕ)) → work.old.sets.sets ≡ r ∷ rest
        → IfOk result (IsNarrowed target.now r) }
    ensures kept { KeepsRoom work.old work.new }
{
    let set = work.pop_set()?;
    target.narrowed_by(&set)
}

/// What the complement of the set leaves of the domain.
#[inline(always)]
fn narrow_to_others(inner: &Domain, target: &Domain) -> Result<Narrowed, NoMemory>
    ensures { IfOk result (IsNarrowed target.now (outside inner.now)) }
{
    let others = inner.complement()?;
    target.narrowed_by(&others)
}

/// What the complement of the last set leaves of the domain.
#[inline(always)]
fn narrow_to_outside(work: &mut Work, target: &Domain) -> Result<Narrowed, NoMemory>
    ensures narrowed { (r : List ℕ) (rest : List (List ℕ)) → work.old.sets.sets ≡ r ∷ rest
        → IfOk result (IsNarrowed target.now (outside r)) }
    ensures kept { KeepsRoom work.old work.new }
{
    let inner = work.pop_set()?;
    narrow_to_others(&inner, target)
}

/// What the range leaves of the domain, by the table of ranges alone. Where it is an interval, no set is made, and the complement of a
/// set doesn't wait on the stack.
#[inline(never)]
fn narrow_by_steps<V: View>(
    work: &mut Work,
    steps: &Steps,
    args: &[Arg],
    view: &V,
    target: &Domain,
) -> Result<Narrowed, NoMemory>
    requires spelled { IsSpelled (all_steps steps.now) }
    requires placed { ArePlaced steps.now }
    requires readable { All (IsReadable (length (V.sets view.now)) args.now) (all_steps steps.now) }
    requires fits { RangeFits (slot_set (V.sets view.now) args.now) (slot_integer args.now)
        (spelled_range (all_steps steps.now)) }
    requires values { work.old.values.items ≡ [] }
    requires sets { work.old.sets.sets ≡ [] }
    requires room { HasRoom (all_steps steps.now) work.old }
    ensures narrowed { IfOk result (IsNarrowed target.now
        (filled_set (slot_set (V.sets view.now) args.now) (slot_integer args.now)
        (spelled_range (all_steps steps.now)))) }
    ensures kept { KeepsRoom work.old work.new }
{
    let last = steps.instrs.len() - 1;
    run(work, steps, last, args, view)?;
    match steps.instrs[last] {
        RangeInstr::Span => narrow_to_ends(work, target),
        RangeInstr::Outside => narrow_to_outside(work, target),
        instr => {
            take(work, instr, steps, args, view)?;
            narrow_to_set(work, target)
        }
    }
}

/// What is left of the domain without the numbers from `low` to `high`.
#[inline(never)]
fn narrow_outside(alloc: Global, target: &Domain, low: i64, high: i64) -> Result<Narrowed, NoMemory>
    ensures { IfOk result (IsNarrowed target.now (outside (between low high))) }
{
    let inner = Domain::interval(alloc, low as i128, high as i128);
    narrow_to_others(&inner, target)
}

/// What is left of the domain among the numbers that are chosen.
#[inline(never)]
fn narrow_to_chosen(
    work: &mut Work,
    target: &Domain,
    pairs: &[(u32, u32)],
    keys: &Domain,
) -> Result<Narrowed, NoMemory>
    requires high { All (λ pair. pair.1 ≤ TOP) pairs.now }
    requires rising { AreRising pairs.now }
    requires room { 1 ≤ work.old.sets.room }
    ensures narrowed { IfOk result (IsNarrowed target.now
        (filter (is_chosen keys.now pairs.now) (universe TOP))) }
    ensures kept { KeepsRoom work.old work.new }
{
    let members = target.size();
    work.begin_set()?;
    let count = gather(&mut work.sets, pairs, keys, target)?;
    if count == 0 {
        return Ok(Narrowed::Empty);
    }
    if count == members {
        return Ok(Narrowed::Same);
    }
    Ok(Narrowed::Changed(work.pop_set()?))
}

/// What the range leaves of the domain, by the table of ranges alone.
#[inline(always)]
pub(crate) fn evaluate_narrowing<V: View>(
    work: &mut Work,
    steps: &Steps,
    form: &Evaluation,
    args: &[Arg],
    view: &V,
    target: &Domain,
) -> Result<Narrowed, NoMemory>
    requires spelled { IsSpelled (all_steps steps.now) }
    requires placed { ArePlaced steps.now }
    requires form { IsEvaluation (spelled_range (all_steps steps.now)) form.now }
    requires readable { All (IsReadable (length (V.sets view.now)) args.now) (all_steps steps.now) }
    requires fits { RangeFits (slot_set (V.sets view.now) args.now) (slot_integer args.now)
        (spelled_range (all_steps steps.now)) }
    requires values { tallest (all_steps steps.now) ≤ vec_capacity work.old.values }
    requires sets { tallest (all_steps steps.now) ≤ work.old.sets.room }
    ensures narrowed { IfOk result
        (IsNarrowed target.now (filled_set (slot_set (V.sets view.now) args.now)
        (slot_integer args.now) (spelled_range (all_steps steps.now)))) }
    ensures kept { KeepsRoom work.old work.new }
{
    match form {
        Evaluation::Without(low, high) => {
            let low = low.value(args, view);
            narrow_outside(work.alloc, target, low, high.value(args, view))
        }
        Evaluation::Chosen(choice) => {
            let keys = slot_domain(args, choice.slot, view);
            narrow_to_chosen(work, target, &choice.pairs, keys)
        }
        _ => {
            work.clear();
            narrow_by_steps(work, steps, args, view, target)
        }
    }
}
