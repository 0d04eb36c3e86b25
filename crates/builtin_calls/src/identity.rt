//! Identity of terms.

ghost use Rattle.std.specs.Prelude.{◌≡◌, ◌++◌, ℕ, List, length, reverse, option_to_list, All, IfOk, OnOk};
ghost use Rattle.domain_ranges.specs.Views.{family_of};
ghost use Rattle.fd_language.specs.Family.{Family};
ghost use Rattle.heap_cells.specs.Cells.{IsOf};
ghost use Rattle.heap_cells.specs.SeenTerms.{HasLinksBelow};
ghost use Rattle.builtin_calls.specs.Identity.{TellsIdentical, TellsShown, TellsPair, IsFlat, IsOwnPair, IsSettled, paired};

use crate::cell_views::look;
use domain_ranges::View;
use fd_language::NoMemory;
use heap_cells::{Cell, Heap, Seen};
use std::alloc::{AllocError, Global};

/// Two cells that are still to be compared.
#[derive(Clone, Copy)]
struct Pair {
    left: Cell,
    right: Cell,
}

/// Puts a pair, if there is one, behind the work. The error is want of memory.
fn put_off(later: Option<Pair>, work: &mut Vec<Pair>) -> Result<(), AllocError>
    ensures { OnOk result (work.new.items ≡ work.old.items ++ option_to_list later) }
{
    if let Some(pair) = later {
        work.push(pair)?;
    }
    Ok(())
}

/// The first pair of two lists of cells of one length, each at the ends of its bindings; the others go behind the work, so that the
/// second one is the next there. A pair of one cell is left out. The error is want of memory.
fn pair_up(
    heap: &Heap,
    left: &[Cell],
    right: &[Cell],
    work: &mut Vec<Pair>,
) -> Result<Option<Pair>, AllocError>
    requires count { length left.now ≡ length right.now }
    requires own_left { All (IsOf heap.now.now) left.now }
    requires own_right { All (IsOf heap.now.now) right.now }
    ensures { IfOk result (λ next. (G : Family) → IsSettled heap.now.now G
        (work.old.items ++ reverse (paired left.now right.now))
        (work.new.items ++ option_to_list next)) }
{
    let mut next = None;
    for i in (0..left.len()).rev() {
        let one = heap.root(left[i]);
        let other = heap.root(right[i]);
        if one != other {
            put_off(next, work)?;
            next = Some(Pair {
                left: one,
                right: other,
            });
        }
    }
    Ok(next)
}

/// Whether two terms are identical, of which the left one is no compound term.
fn is_same_flat(left: Seen<'_>, right: Seen<'_>) -> bool
    requires { IsFlat left }
    ensures { TellsShown left.entry right.entry result }
{
    match left {
        Seen::Open(i) | Seen::Constrained(i, _) => match right {
            Seen::Open(j) | Seen::Constrained(j, _) => i == j,
            _ => false,
        },
        Seen::Int(m) => match right {
            Seen::Int(n) => m == n,
            _ => false,
        },
        Seen::Atom(a) => match right {
            Seen::Atom(b) => a == b,
            _ => false,
        },
        Seen::Struct(_, _) => false,
    }
}

/// What a comparison of two cells at their tops tells.
#[derive(Clone, Copy)]
enum Told {
    Apart,
    Alike,
    /// They are alike where these are, and those behind them.
    Next(Pair),
}

/// Compares two cells at their tops, and puts the pairs of their arguments behind the work. The error is want of memory.
fn step<V: View>(heap: &Heap, view: &V, pair: Pair, work: &mut Vec<Pair>) -> Result<Told, NoMemory>
    requires own { IsOwnPair heap.now.now pair }
    requires links { HasLinksBelow (length (V.sets view.now)) heap.now.now }
    ensures { IfOk result (TellsPair heap.now.now (family_of (V.sets view.now)) work.old.items pair
        work.new.items) }
{
    match look(heap, view, pair.left) {
        Seen::Struct(f, some) => match look(heap, view, pair.right) {
            Seen::Struct(g, others) => {
                if f != g || some.len() != others.len() {
                    return Ok(Told::Apart);
                }
                match pair_up(heap, some, others, work)? {
                    Some(next) => Ok(Told::Next(next)),
                    None => Ok(Told::Alike),
                }
            }
            _ => Ok(Told::Apart),
        },
        flat => {
            if is_same_flat(flat, look(heap, view, pair.right)) {
                Ok(Told::Alike)
            } else {
                Ok(Told::Apart)
            }
        }
    }
}

/// Whether the terms of two cells are identical. The cells are of the heap, and the view's sets are those of the heap's variables of
/// the store. The heap stays as it is. Lists of constants take no memory. The error is want of memory, and says nothing of the terms.
pub fn same<V: View>(
    alloc: Global,
    heap: &Heap,
    view: &V,
    a: Cell,
    b: Cell,
) -> Result<bool, NoMemory>
    requires own_a { IsOf heap.now.now a }
    requires own_b { IsOf heap.now.now b }
    requires links { HasLinksBelow (length (V.sets view.now)) heap.now.now }
    ensures { IfOk result (TellsIdentical heap.now.now (family_of (V.sets view.now)) a b) }
{
    let left = heap.root(a);
    let right = heap.root(b);
    if left == right {
        return Ok(true);
    }
    let mut work = Vec::new(alloc);
    let mut pair = Pair { left, right };
    'pairs: loop {
        match step(heap, view, pair, &mut work)? {
            Told::Apart => return Ok(false),
            Told::Next(next) => pair = next,
            Told::Alike => match work.pop() {
                Some(next) => pair = next,
                None => return Ok(true),
            },
        }
    }
}
