//! A cell as the sets of a store show it.

ghost use Rattle.std.specs.Prelude.{◌≡◌, ℕ, List, length, IfSome};
ghost use Rattle.domain_ranges.specs.Views.{family_of};
ghost use Rattle.fd_language.specs.Family.{Family};
ghost use Rattle.fd_language.specs.Term.{Int};
ghost use Rattle.heap_cells.specs.Cells.{IsOf};
ghost use Rattle.heap_cells.specs.Terms.{Naming};
ghost use Rattle.heap_cells.specs.HeapInvariant.{IsHeap};
ghost use Rattle.heap_cells.specs.SeenTerms.{seen_term, HasLinksBelow};
ghost use Rattle.builtin_calls.specs.CellTops.{shown, IsHeld};

use domain_ranges::View;
use heap_cells::{Cell, Heap, Seen};

/// What a cell comes to, where a variable of the store with one value is that integer.
pub(crate) fn look<'h, V: View>(heap: &'h Heap, view: &V, c: Cell) -> Seen<'h>
    requires own { IsOf heap.now.now c }
    requires links { HasLinksBelow (length (V.sets view.now)) heap.now.now }
    ensures term { (name : Naming) → seen_term name heap.now.now (family_of (V.sets view.now)) c
        ≡ shown name (seen_term name heap.now.now (family_of (V.sets view.now))) result }
    ensures held { IsHeld heap.now.now result }
    ensures valid { IsHeap heap.now.now }
{
    let seen = heap.deref(c);
    if let Seen::Constrained(_, k) = seen {
        if let Some(value) = view.domain(k).only_value() {
            return Seen::Int(value as i64);
        }
    }
    seen
}

/// The integer that a look at a cell shows, and `None` at another term.
#[inline(always)]
pub(crate) fn glance(heap: &Heap, c: Cell) -> Option<i64>
    requires { IsOf heap.now.now c }
    ensures { IfSome result (λ z. (name : Naming) (G : Family) → seen_term name
        heap.now.now G c ≡ Int z) }
{
    heap.near_int(c)
}
