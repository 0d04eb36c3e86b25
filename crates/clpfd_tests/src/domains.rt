//! Sets that calls make of intervals, by hand.

ghost use Rattle.std.specs.Prelude.{◌≡◌, ◌<◌, [], length, slice_index_or, MatchOption};
ghost use Rattle.fd_language.specs.Family.{universe};
ghost use Rattle.fd_language.specs.Range.{least};

use crate::assertions::same;
use domain_ranges::{Domain, View};
use fd_language::{INFINITY, NoMemory};
use std::alloc::Global;
use std::marker::Model;
use std::process::Abort;

/// A call with a result of its own, at an interval where it takes a second set.
enum Call {
    Copy,
    Intersect(i128, i128),
    Union(i128, i128),
    Complement,
    Shift(i128),
    Scale(i128),
    Quotient(i128),
}

fn apply(rt: &impl Abort, alloc: Global, domain: &Domain, call: &Call) -> Result<Domain, NoMemory> {
    match *call {
        Call::Copy => domain.copy(),
        Call::Intersect(lo, hi) => domain.intersect(&Domain::interval(alloc, lo, hi)),
        Call::Union(lo, hi) => domain.union(&Domain::interval(alloc, lo, hi)),
        Call::Complement => domain.complement(),
        Call::Shift(c) => {
            assert!(rt; -(1 << 126) < c && c < 1 << 126);
            domain.shift(c)
        }
        Call::Scale(c) => domain.scale(c),
        Call::Quotient(c) => {
            assert!(rt; 1 <= c);
            domain.quotient(c)
        }
    }
}

/// The domains of some variables.
#[derive(Drop)]
struct Domains {
    list: Vec<Domain>,
}

impl Model for Domains {
    ghost use Rattle.std.specs.Prelude.{List, ℕ};

    ghost Value = { List (List ℕ) };

    ghost view = { λ d. d.list.items };
}

impl View for Domains {
    ghost sets = { λ d. d };

    fn domain(&self, k: usize) -> &Domain {
        &self.list[k]
    }
}

fn least_of<V: View>(view: &V, k: usize) -> Option<u32>
    requires { k < length (V.sets view.now) }
    ensures { MatchOption result (slice_index_or (V.sets view.now) k (universe INFINITY) ≡ [])
        (λ n. n ≡ least (slice_index_or (V.sets view.now) k (universe INFINITY))) }
{
    view.domain(k).min()
}

/// The set that the calls make of the interval, one after another.
fn made(
    rt: &impl Abort,
    alloc: Global,
    lo: i128,
    hi: i128,
    calls: &[Call],
) -> Result<Domain, NoMemory> {
    let mut domain = Domain::interval(alloc, lo, hi);
    for call in calls {
        domain = apply(rt, alloc, &domain, call)?;
    }
    Ok(domain)
}

const TOP: i128 = INFINITY as i128;

/// An interval, a number, and whether it is a member.
const MEMBERS: &[(i128, i128, i128, bool)] = &[
    (-9, 2, 0, true),
    (-9, 2, -1, false),
    (3, 5, 2, false),
    (3, 5, 3, true),
    (3, 5, 5, true),
    (3, 5, 6, false),
    (5, 4, 4, false),
    (9, i128::MAX, 268_435_455, true),
    (i128::MIN, i128::MAX, 268_435_456, false),
];

#[test]
fn intervals_at_the_ends(rt: HostRuntime) {
    let alloc = rt.alloc();
    for (lo, hi, n, want) in MEMBERS {
        let domain = Domain::interval(alloc, *lo, *hi);
        same(&rt, (*n, domain.contains(*n)), (*n, *want), "a number");
    }
}

/// An interval, the calls, and the intervals of the set that they make.
type Row = (i128, i128, &'static [Call], &'static [(u32, u32)]);

const ROWS: &[Row] = &[
    // 0 to 10 by 3; 1 and 4, times 3, plus 1; 0 to 3 without 2
    (0, 10, &[Call::Quotient(3)], &[(0, 3)]),
    (
        1,
        1,
        &[Call::Union(4, 4), Call::Scale(3), Call::Shift(1)],
        &[(4, 4), (13, 13)],
    ),
    (
        2,
        2,
        &[Call::Complement, Call::Intersect(0, 3)],
        &[(0, 1), (3, 3)],
    ),
    // moved
    (0, TOP, &[Call::Shift(1)], &[(1, INFINITY)]),
    (0, 5, &[Call::Shift(-3)], &[(0, 2)]),
    (0, TOP, &[Call::Shift((1 << 126) - 1)], &[]),
    (0, TOP, &[Call::Shift(1 - (1 << 126))], &[]),
    (0, 3, &[Call::Scale(-(1 << 98))], &[(0, 0)]),
    (0, 3, &[Call::Scale(1 << 98)], &[(0, 0)]),
    (1, 0, &[Call::Scale(0)], &[]),
    (5, TOP, &[Call::Scale(0)], &[(0, 0)]),
    (5, TOP, &[Call::Scale(1)], &[(5, INFINITY)]),
    // others
    (0, TOP, &[Call::Quotient(1 << 98)], &[(0, 0)]),
    (1, TOP, &[Call::Quotient(1 << 98)], &[]),
    (7, 11, &[Call::Quotient(3)], &[(3, 3)]),
    (3, 6, &[Call::Union(8, 9), Call::Quotient(3)], &[(1, 3)]),
    (3, 3, &[Call::Union(4, 4), Call::Copy], &[(3, 4)]),
    (0, TOP, &[Call::Complement], &[]),
    (1, 0, &[Call::Complement], &[(0, INFINITY)]),
    (TOP, TOP, &[Call::Complement], &[(0, INFINITY - 1)]),
];

#[test]
fn calls_make_sets(rt: HostRuntime) -> Result<(), NoMemory> {
    for (lo, hi, calls, want) in ROWS {
        let domain = made(&rt, rt.alloc(), *lo, *hi, calls)?;
        same(&rt, domain.spans(), *want, "a set");
    }
    Ok(())
}

#[test]
fn ends_and_next_numbers(rt: HostRuntime) -> Result<(), NoMemory> {
    let domain = made(&rt, rt.alloc(), 3, 5, &[Call::Union(9, 9)])?;
    for (found, want) in [
        (domain.min(), Some(3)),
        (domain.max(), Some(9)),
        (domain.next_from(6), Some(9)),
        (domain.next_from(10), None),
        (Domain::empty(rt.alloc()).max(), None),
    ] {
        same(&rt, found, want, "an end or the next number");
    }
    Ok(())
}

#[test]
fn sizes(rt: HostRuntime) -> Result<(), NoMemory> {
    let domain = made(&rt, rt.alloc(), 3, 5, &[Call::Union(9, 9)])?;
    same(&rt, domain.size(), 4, "the size");
    let full = Domain::full(rt.alloc()).size();
    same(&rt, full, 268_435_456, "the size");
    Ok(())
}

#[test]
fn a_view(rt: HostRuntime) -> Result<(), NoMemory> {
    let alloc = rt.alloc();
    let mut list = Vec::new(alloc);
    list.push(Domain::interval(alloc, 3, 5))?;
    assert!(rt; list.len() == 1);
    let domains = Domains { list };
    same(&rt, least_of(&domains, 0), Some(3), "the least");
    Ok(())
}
