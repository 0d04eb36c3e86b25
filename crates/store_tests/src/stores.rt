//! Posts on a store, and how many activations they take.

use crate::assertions::same;
use crate::codes::code_of;
use fd_language::RangeNode;
use propagate_queue::{Agenda, Cheapest, Fifo, Instance, Posted, Store};
use range_code::{Activations, Arg, RangeCode};
use std::alloc::Global;
use std::process::Abort;
use std::rc::Rc;
use std::test::Fail;

/// `0..9`
const DIGITS: [RangeNode; 3] = [RangeNode::Int(0), RangeNode::Int(9), RangeNode::Span];

/// `0..max(Y)-1`
const BELOW: [RangeNode; 5] = [
    RangeNode::Int(0),
    RangeNode::Max(0),
    RangeNode::Int(1),
    RangeNode::Sub,
    RangeNode::Span,
];

/// `min(Y)+1..infinity`
const ABOVE: [RangeNode; 5] = [
    RangeNode::Min(0),
    RangeNode::Int(1),
    RangeNode::Add,
    RangeNode::Infinity,
    RangeNode::Span,
];

/// `{4}`
const FOUR: [RangeNode; 2] = [RangeNode::Int(4), RangeNode::One];

pub(crate) fn shared_code(alloc: Global, nodes: &[RangeNode]) -> Result<Rc<RangeCode>, Fail> {
    Ok(Rc::new(alloc, code_of(alloc, nodes)?)?)
}

pub(crate) fn instance(
    alloc: Global,
    code: &Rc<RangeCode>,
    target: usize,
    args: &[Arg],
) -> Result<Instance, Fail> {
    let args = args.to_vec(alloc)?;
    let code = code.clone()?;
    Ok(Instance { code, target, args })
}

/// Posts the list, if each of it fits the store.
pub(crate) fn post_list<A: Agenda + Drop>(
    store: &mut Store<A>,
    list: Vec<Instance>,
    n: &mut Activations,
) -> Result<Posted, Fail> {
    let vars = store.vars();
    if !list.iter().all(|posted| posted.fits(vars)) {
        return Err(Fail::new("no instances of the store"));
    }
    Ok(store.post(list, n)?)
}

/// The ends of the variable's domain.
fn ends<A: Agenda + Drop>(store: &Store<A>, k: usize) -> Option<(u32, u32)> {
    if k >= store.vars() {
        return None;
    }
    let domain = store.domain(k);
    Some((domain.min()?, domain.max()?))
}

/// Posts a range.
pub(crate) fn post_range<A: Agenda + Drop>(
    alloc: Global,
    store: &mut Store<A>,
    nodes: &[RangeNode],
    target: usize,
    args: &[Arg],
    n: &mut Activations,
) -> Result<Posted, Fail> {
    let code = shared_code(alloc, nodes)?;
    let range = instance(alloc, &code, target, args)?;
    post_list(store, vec![in alloc; range]?, n)
}

/// Gives the store so many variables from 0 to 9.
fn add_digits<A: Agenda + Drop>(
    alloc: Global,
    store: &mut Store<A>,
    count: usize,
    n: &mut Activations,
) -> Result<(), Fail> {
    for _ in 0..count {
        let variable = store.new_var()?;
        post_range(alloc, store, &DIGITS, variable, &[], n)?;
    }
    Ok(())
}

/// Puts the ranges of `X #< Y` for each pair behind the list, by the codes of `0..max(Y)-1` and `min(X)+1..infinity`.
fn add_less(
    alloc: Global,
    below: &Rc<RangeCode>,
    above: &Rc<RangeCode>,
    pairs: &[(usize, usize)],
    list: &mut Vec<Instance>,
) -> Result<(), Fail> {
    for (x, y) in pairs {
        list.push(instance(alloc, below, *x, &[Arg::Var(*y)])?)?;
        list.push(instance(alloc, above, *y, &[Arg::Var(*x)])?)?;
    }
    Ok(())
}

/// The ranges of `X #< Y` for each pair.
fn less(alloc: Global, pairs: &[(usize, usize)]) -> Result<Vec<Instance>, Fail> {
    let below = shared_code(alloc, &BELOW)?;
    let above = shared_code(alloc, &ABOVE)?;
    let mut list = Vec::new(alloc);
    add_less(alloc, &below, &above, pairs, &mut list)?;
    Ok(list)
}

/// Says what is wanted of the ends of the first three domains.
fn ends_are<A: Agenda + Drop>(rt: &impl Abort, store: &Store<A>, want: [(u32, u32); 3], at: &str) {
    let found = [ends(store, 0), ends(store, 1), ends(store, 2)];
    same(rt, found, [Some(want[0]), Some(want[1]), Some(want[2])], at);
}

/// X is less than Y, and Y less than Z: four ranges whose variables lose two values each, so at most 4 + 8 activations. Then Y is 4.
fn three_in_order<A: Agenda + Drop>(
    rt: &impl Abort,
    alloc: Global,
    store: &mut Store<A>,
) -> Result<(), Fail> {
    add_digits(alloc, store, 3, &mut Activations::new())?;
    let mut n = Activations::new();
    let posted = post_list(store, less(alloc, &[(0, 1), (1, 2)])?, &mut n)?;
    same(rt, posted, Posted::Kept, "X #< Y, Y #< Z");
    ends_are(rt, store, [(0, 7), (1, 8), (2, 9)], "X #< Y, Y #< Z");
    same(rt, n.count <= 12, true, "at most 12 activations");
    let posted = post_range(alloc, store, &FOUR, 1, &[], &mut n)?;
    same(rt, posted, Posted::Kept, "Y = 4");
    ends_are(rt, store, [(0, 3), (4, 4), (5, 9)], "Y = 4");
    Ok(())
}

/// X is less than Y, and Y less than X: there is nothing left, and nothing more is posted until the mark's return.
fn each_less_than_the_other<A: Agenda + Drop>(
    rt: &impl Abort,
    alloc: Global,
    store: &mut Store<A>,
) -> Result<(), Fail> {
    let mut n = Activations::new();
    add_digits(alloc, store, 2, &mut n)?;
    if store.failed() {
        return Err(Fail::new("failed"));
    }
    store.push_mark()?;
    let posted = post_list(store, less(alloc, &[(0, 1), (1, 0)])?, &mut n)?;
    same(rt, posted, Posted::Failed, "X #< Y, Y #< X");
    let posted = post_range(alloc, store, &DIGITS, 0, &[], &mut n)?;
    same(rt, posted, Posted::Failed, "behind a failure");
    Ok(())
}

#[test]
fn posts_with_both_agendas(rt: HostRuntime) -> Result<(), Fail> {
    let alloc = rt.alloc();
    three_in_order(&rt, alloc, &mut Store::new(alloc, Fifo::new(alloc)))?;
    three_in_order(&rt, alloc, &mut Store::new(alloc, Cheapest::new(alloc)))?;
    each_less_than_the_other(&rt, alloc, &mut Store::new(alloc, Fifo::new(alloc)))?;
    each_less_than_the_other(&rt, alloc, &mut Store::new(alloc, Cheapest::new(alloc)))
}
