//! Codes of ranges: their sets over given domains, as the table of ranges has them, and what they tell.

ghost use Rattle.std.specs.Prelude.{◌≡◌, ◌<◌, ℕ, IsTrue, false};
ghost use Rattle.fd_language.specs.declared.TheConstants.{INFINITY};
ghost use Rattle.fd_language.specs.Family.{IsFamily};
ghost use Rattle.fd_language.specs.Range.{is_none_left};
ghost use Rattle.range_code.specs.Frames.{IsArg, AreArgs, family_of};

use crate::assertions::same;
use crate::codes::code_of;
use domain_ranges::{Domain, View};
use fd_language::{Feature, Need, RangeNode};
use range_code::{Activations, Arg, Narrowed, RangeCode, RangeInstr, Stacks, narrow, run_range};
use std::alloc::Global;
use std::marker::Model;
use std::process::Abort;
use std::test::Fail;

/// The domains of some variables.
#[derive(Drop)]
struct Domains {
    list: Vec<Domain>,
}

impl Model for Domains {
    ghost use Rattle.std.specs.Prelude.{List, ℕ};

    ghost Value = { List (List ℕ) };

    ghost view = { λ d. d.list.items };
}

impl View for Domains {
    ghost sets = { λ d. d };

    fn domain(&self, k: usize) -> &Domain {
        &self.list[k]
    }
}

fn domains_of(alloc: Global, spans: &[(i128, i128)]) -> Result<Domains, Fail> {
    let mut list = Vec::new(alloc);
    for (low, high) in spans {
        list.push(Domain::interval(alloc, *low, *high))?;
    }
    Ok(Domains { list })
}

/// Whether an integer meets the need.
fn is_met(need: Need, value: i64) -> bool
    ensures { IsTrue result → IsArg 0 (Some need) (Arg.Int value) }
{
    let least = match need {
        Need::Whole => i64::MIN + 1,
        Need::Natural => 0,
        Need::Divisor => 1,
    };
    least <= value
}

fn is_arg(count: usize, need: Option<Need>, arg: Arg) -> bool
    ensures { IsTrue result → IsArg count need arg }
{
    match (need, arg) {
        (Some(need), Arg::Int(value)) => is_met(need, value),
        (None, Arg::Var(k)) => k < count,
        _ => false,
    }
}

/// Whether the arguments fit the range.
fn are_args(count: usize, needs: &[Option<Need>], args: &[Arg]) -> bool
    ensures { IsTrue result → AreArgs count needs.now args.now }
{
    match (needs, args) {
        ([], []) => true,
        ([need, needs @ ..], [arg, args @ ..]) => {
            is_arg(count, *need, *arg) && are_args(count, needs, args)
        }
        _ => false,
    }
}

/// Evaluates the code over the variables' domains, and compares the set's intervals.
fn set_is(
    rt: &impl Abort,
    alloc: Global,
    code: &RangeCode,
    args: &[Arg],
    view: &Domains,
    want: &[(u32, u32)],
) -> Result<(), Fail> {
    let fits = are_args(view.list.len(), code.needs(), args);
    assert!(rt; fits);
    let mut n = Activations::new();
    let set = run_range(alloc, code, args, view, &mut n)?;
    same(rt, set.spans(), want, "a set");
    same(rt, n.count, 1, "activations");
    Ok(())
}

/// Evaluates the range over the variables' domains, and compares the set's intervals.
fn gives(
    rt: &impl Abort,
    alloc: Global,
    nodes: &[RangeNode],
    args: &[Arg],
    spans: &[(i128, i128)],
    want: &[(u32, u32)],
) -> Result<(), Fail> {
    let code = code_of(alloc, nodes)?;
    let view = domains_of(alloc, spans)?;
    set_is(rt, alloc, &code, args, &view, want)
}

/// Whether each domain has a member, which `narrow` asks of the sets of its view.
fn are_some(domains: &[Domain]) -> bool
    ensures some { IsTrue result
        → (k : ℕ) → is_none_left (family_of domains.now k) ≡ false }
    ensures family { IsTrue result → IsFamily INFINITY (family_of domains.now) }
{
    for domain in domains {
        if domain.min().is_none() {
            return false;
        }
    }
    true
}

/// Narrows the target by the code over the variables' domains, with these stacks, and compares what is left.
fn left_is(
    rt: &impl Abort,
    code: &RangeCode,
    args: &[Arg],
    view: &Domains,
    target: &Domain,
    stacks: &mut Stacks,
    want: &[(u32, u32)],
) -> Result<(), Fail> {
    let fits = are_args(view.list.len(), code.needs(), args);
    assert!(rt; fits);
    let some = are_some(&view.list);
    assert!(rt; some);
    stacks.reserve(code)?;
    let mut n = Activations::new();
    let nothing: &[(u32, u32)] = &[];
    match narrow(code, args, view, target, stacks, &mut n)? {
        Narrowed::Same => same(rt, target.spans(), want, "the same"),
        Narrowed::Empty => same(rt, nothing, want, "nothing"),
        Narrowed::Changed(domain) => same(rt, domain.spans(), want, "what is left"),
    }
    same(rt, n.count, 1, "activations");
    Ok(())
}

/// What the range leaves of the target, over the variables' domains.
fn leaves(
    rt: &impl Abort,
    alloc: Global,
    nodes: &[RangeNode],
    args: &[Arg],
    spans: &[(i128, i128)],
    target: (i128, i128),
    want: &[(u32, u32)],
) -> Result<(), Fail> {
    let code = code_of(alloc, nodes)?;
    let view = domains_of(alloc, spans)?;
    let target = Domain::interval(alloc, target.0, target.1);
    let mut stacks = Stacks::new(alloc);
    left_is(rt, &code, args, &view, &target, &mut stacks, want)
}

/// What `min(Y)+1..infinity` and `-{val(Y)}` leave of a domain.
#[test]
fn interval_and_complement_narrow(rt: HostRuntime) -> Result<(), Fail> {
    use RangeNode::*;
    let alloc = rt.alloc();
    let y = [Arg::Var(0)];
    let above = [Min(7), Int(1), Add, Infinity, Span];
    leaves(&rt, alloc, &above, &y, &[(3, 5)], (0, 9), &[(4, 9)])?;
    let differs = [Val(7), One, Outside];
    leaves(
        &rt,
        alloc,
        &differs,
        &y,
        &[(4, 4)],
        (3, 5),
        &[(3, 3), (5, 5)],
    )?;
    Ok(())
}

/// The set of `(0..max(Y))&-{2}`.
#[test]
fn set_of_an_intersection(rt: HostRuntime) -> Result<(), Fail> {
    use RangeNode::*;
    let nodes = [Int(0), Max(7), Span, Int(2), One, Outside, Inter];
    let y = [Arg::Var(0)];
    gives(&rt, rt.alloc(), &nodes, &y, &[(1, 3)], &[(0, 1), (3, 3)])
}

/// `(Q*min(Y)..max(Y)):(P..9)&(0..max(Y)/<P)`
const NODES: &[RangeNode] = &[
    RangeNode::Param(8),
    RangeNode::Min(5),
    RangeNode::Mul,
    RangeNode::Max(5),
    RangeNode::Span,
    RangeNode::Param(2),
    RangeNode::Int(9),
    RangeNode::Span,
    RangeNode::Union,
    RangeNode::Int(0),
    RangeNode::Max(5),
    RangeNode::Param(2),
    RangeNode::DivDown,
    RangeNode::Span,
    RangeNode::Inter,
];

/// Its slots, what each needs, and what is read of them.
const SLOTS: &[u64] = &[8, 5, 2];

const NEEDS: &[Option<Need>] = &[Some(Need::Natural), None, Some(Need::Divisor)];

const FEATURES: &[(usize, Feature)] = &[(1, Feature::Min), (1, Feature::Max)];

#[test]
fn slots_needs_and_reads(rt: HostRuntime) -> Result<(), Fail> {
    let code = code_of(rt.alloc(), NODES)?;
    same(&rt, code.slots(), SLOTS, "the slots");
    same(&rt, code.needs(), NEEDS, "the needs");
    same(&rt, code.features(), FEATURES, "the features");
    same(&rt, code.range().nodes(), NODES, "the range");
    Ok(())
}

/// The instructions of `min(Y)+2*3..9`.
const INSTRUCTIONS: &[RangeInstr] = &[
    RangeInstr::NeedSome(0),
    RangeInstr::PushMin(0),
    RangeInstr::PushConst(0),
    RangeInstr::Add,
    RangeInstr::PushConst(1),
    RangeInstr::Span,
];

/// The instructions of `min(Y)+2*3..9`, and its set: so their constants are 6 and 9.
#[test]
fn instructions_with_folded_literals(rt: HostRuntime) -> Result<(), Fail> {
    use RangeNode::*;
    let nodes = [Min(7), Int(2), Int(3), Mul, Add, Int(9), Span];
    let code = code_of(rt.alloc(), &nodes)?;
    same(&rt, code.instrs(), INSTRUCTIONS, "the instructions");
    let y = [Arg::Var(0)];
    gives(&rt, rt.alloc(), &nodes, &y, &[(1, 3)], &[(7, 9)])
}
