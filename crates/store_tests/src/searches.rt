//! Searches for the least and the greatest cost.

ghost use Rattle.std.specs.Prelude.{◌≡◌, IfOk};
ghost use Rattle.bound_search.specs.Posting.{exact_range};

use crate::assertions::same;
use crate::stores::post_range;
use bound_search::{Aim, best};
use fd_language::{FlatRange, NoMemory, RangeNode};
use fd_model::kinds::Order;
use label_search::Member;
use monotone_check::Checked;
use propagate_queue::{Agenda, Cheapest, Fifo, Posted, Store};
use range_code::{Activations, Arg, RangeCode, compile_range};
use std::alloc::Global;
use std::process::Abort;
use std::rc::Rc;
use std::test::Fail;

const X: usize = 0;

const Y: usize = 1;

const C: usize = 2;

/// `0..3`, `0..2`, `0..1`
const TO_THREE: [RangeNode; 3] = [RangeNode::Int(0), RangeNode::Int(3), RangeNode::Span];

const TO_TWO: [RangeNode; 3] = [RangeNode::Int(0), RangeNode::Int(2), RangeNode::Span];

const TO_ONE: [RangeNode; 3] = [RangeNode::Int(0), RangeNode::Int(1), RangeNode::Span];

/// `2..infinity`
const FROM_TWO: [RangeNode; 3] = [RangeNode::Int(2), RangeNode::Infinity, RangeNode::Span];

/// `3-max(Y)..infinity`, of `X + Y #>= 3`
const REST_OF_THREE: [RangeNode; 5] = [
    RangeNode::Int(3),
    RangeNode::Max(0),
    RangeNode::Sub,
    RangeNode::Infinity,
    RangeNode::Span,
];

/// `-{val(Y)}`, of `X #\= Y`
const OTHER: [RangeNode; 3] = [RangeNode::Val(0), RangeNode::One, RangeNode::Outside];

/// `min(X)+min(Y)..max(X)+max(Y)`, and `min(C)-max(Y)..max(C)-min(Y)`, of `C #= X + Y`
const SUM: [RangeNode; 7] = [
    RangeNode::Min(0),
    RangeNode::Min(1),
    RangeNode::Add,
    RangeNode::Max(0),
    RangeNode::Max(1),
    RangeNode::Add,
    RangeNode::Span,
];

const PART: [RangeNode; 7] = [
    RangeNode::Min(0),
    RangeNode::Max(1),
    RangeNode::Sub,
    RangeNode::Max(0),
    RangeNode::Min(1),
    RangeNode::Sub,
    RangeNode::Span,
];

/// `2*min(X)+3*min(Y)..2*max(X)+3*max(Y)`, of `C #= 2*X + 3*Y`
const WEIGHED_SUM: [RangeNode; 15] = [
    RangeNode::Int(2),
    RangeNode::Min(0),
    RangeNode::Mul,
    RangeNode::Int(3),
    RangeNode::Min(1),
    RangeNode::Mul,
    RangeNode::Add,
    RangeNode::Int(2),
    RangeNode::Max(0),
    RangeNode::Mul,
    RangeNode::Int(3),
    RangeNode::Max(1),
    RangeNode::Mul,
    RangeNode::Add,
    RangeNode::Span,
];

/// A search, and the values that it finds. The cost is C where no integer is given.
struct Search<'a> {
    rows: &'a [(usize, &'a [RangeNode], &'a [Arg])],
    order: Order,
    cost: Option<i64>,
    least: bool,
    want: Option<&'a [u32]>,
    at: &'a str,
}

/// The code of the range `P..P`.
fn exact_code(alloc: Global) -> Result<Rc<RangeCode>, NoMemory>
    ensures { IfOk result (λ code. code.value ≡ exact_range) }
{
    let nodes = vec![in alloc; RangeNode::Param(0), RangeNode::Param(0), RangeNode::Span]?;
    let range = FlatRange::from_nodes(nodes).unwrap();
    let checked = Checked::from_accepted(range);
    Ok(Rc::new(alloc, compile_range(alloc, &checked)?)?)
}

/// Posts the rows on a store of three variables.
fn post_rows<A: Agenda + Drop>(
    rt: &impl Abort,
    alloc: Global,
    store: &mut Store<A>,
    search: &Search<'_>,
    n: &mut Activations,
) -> Result<(), Fail> {
    for (target, nodes, args) in search.rows {
        let posted = post_range(alloc, store, nodes, *target, args, n)?;
        same(rt, posted, Posted::Kept, search.at);
    }
    Ok(())
}

/// Searches the store, which has three variables. `None`: the posted ranges leave some variable no value.
fn finds<A: Agenda + Drop>(
    rt: &impl Abort,
    alloc: Global,
    store: &mut Store<A>,
    search: &Search<'_>,
    n: &mut Activations,
) -> Result<(), Fail> {
    if store.failed() || store.vars() <= C {
        return Err(Fail::new("no search"));
    }
    let exact = exact_code(alloc)?;
    let list = [Member::Var(X), Member::Var(Y), Member::Var(C)];
    let cost = match search.cost {
        Some(z) => Member::Fixed(z),
        None => Member::Var(C),
    };
    let aim = Aim {
        order: search.order,
        cost,
        least: search.least,
    };
    let found = best(alloc, store, &exact, &list, aim, n)?;
    match &found {
        Some(values) => same(rt, Some(values.as_slice()), search.want, search.at),
        None => same(rt, None, search.want, search.at),
    }
    Ok(())
}

/// Posts the rows on the empty store, and searches it.
fn check_search<A: Agenda + Drop>(
    rt: &impl Abort,
    alloc: Global,
    store: &mut Store<A>,
    search: &Search<'_>,
) -> Result<(), Fail> {
    let mut n = Activations::new();
    for _ in 0..3 {
        let _ = store.new_var()?;
    }
    post_rows(rt, alloc, store, search, &mut n)?;
    finds(rt, alloc, store, search, &mut n)
}

/// `X + Y #>= 3, C #= 2*X + 3*Y`, both up to 3.
const WEIGHED: [(usize, &[RangeNode], &[Arg]); 5] = [
    (X, &TO_THREE, &[]),
    (Y, &TO_THREE, &[]),
    (X, &REST_OF_THREE, &[Arg::Var(Y)]),
    (Y, &REST_OF_THREE, &[Arg::Var(X)]),
    (C, &WEIGHED_SUM, &[Arg::Var(X), Arg::Var(Y)]),
];

/// `C #= X + Y, C #>= 2`, both up to 2.
const SUMS: [(usize, &[RangeNode], &[Arg]); 6] = [
    (X, &TO_TWO, &[]),
    (Y, &TO_TWO, &[]),
    (C, &SUM, &[Arg::Var(X), Arg::Var(Y)]),
    (X, &PART, &[Arg::Var(C), Arg::Var(Y)]),
    (Y, &PART, &[Arg::Var(C), Arg::Var(X)]),
    (C, &FROM_TWO, &[]),
];

/// `X #\= Y, C #= X + Y`, both up to 2.
const APART: [(usize, &[RangeNode], &[Arg]); 5] = [
    (X, &TO_TWO, &[]),
    (Y, &TO_TWO, &[]),
    (X, &OTHER, &[Arg::Var(Y)]),
    (Y, &OTHER, &[Arg::Var(X)]),
    (C, &SUM, &[Arg::Var(X), Arg::Var(Y)]),
];

/// Three variables from 0 to 1, no two of which are equal.
const CROWDED: [(usize, &[RangeNode], &[Arg]); 9] = [
    (X, &TO_ONE, &[]),
    (Y, &TO_ONE, &[]),
    (C, &TO_ONE, &[]),
    (X, &OTHER, &[Arg::Var(Y)]),
    (X, &OTHER, &[Arg::Var(C)]),
    (Y, &OTHER, &[Arg::Var(X)]),
    (Y, &OTHER, &[Arg::Var(C)]),
    (C, &OTHER, &[Arg::Var(X)]),
    (C, &OTHER, &[Arg::Var(Y)]),
];

/// `C #= X + Y`, X up to 3, Y up to 1, C from 2 to 3: Y has the fewest values.
const FEWER: [(usize, &[RangeNode], &[Arg]); 7] = [
    (X, &TO_THREE, &[]),
    (Y, &TO_ONE, &[]),
    (C, &SUM, &[Arg::Var(X), Arg::Var(Y)]),
    (X, &PART, &[Arg::Var(C), Arg::Var(Y)]),
    (Y, &PART, &[Arg::Var(C), Arg::Var(X)]),
    (C, &FROM_TWO, &[]),
    (C, &TO_THREE, &[]),
];

const SEARCHES: [Search<'static>; 7] = [
    Search {
        rows: &WEIGHED,
        order: Order::Leftmost,
        cost: None,
        least: true,
        want: Some(&[3, 0, 6]),
        at: "least of a weighed sum",
    },
    Search {
        rows: &WEIGHED,
        order: Order::Leftmost,
        cost: None,
        least: false,
        want: Some(&[3, 3, 15]),
        at: "greatest of a weighed sum",
    },
    Search {
        rows: &SUMS,
        order: Order::Leftmost,
        cost: None,
        least: true,
        want: Some(&[0, 2, 2]),
        at: "first of equal sums",
    },
    Search {
        rows: &APART,
        order: Order::Leftmost,
        cost: None,
        least: false,
        want: Some(&[1, 2, 3]),
        at: "first of the greatest",
    },
    Search {
        rows: &CROWDED,
        order: Order::Leftmost,
        cost: None,
        least: true,
        want: None,
        at: "no leaf",
    },
    Search {
        rows: &FEWER,
        order: Order::Leftmost,
        cost: Some(-7),
        least: true,
        want: Some(&[1, 1, 2]),
        at: "first leaf",
    },
    Search {
        rows: &FEWER,
        order: Order::FirstFail,
        cost: Some(-7),
        least: true,
        want: Some(&[2, 0, 2]),
        at: "first leaf by first-fail",
    },
];

#[test]
fn searches(rt: HostRuntime) -> Result<(), Fail> {
    let alloc = rt.alloc();
    for search in &SEARCHES {
        check_search(&rt, alloc, &mut Store::new(alloc, Fifo::new(alloc)), search)?;
        check_search(
            &rt,
            alloc,
            &mut Store::new(alloc, Cheapest::new(alloc)),
            search,
        )?;
    }
    Ok(())
}
