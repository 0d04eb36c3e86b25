//! Tests of types.

ghost use Rattle.std.specs.Prelude.{◌≡◌, length};
ghost use Rattle.domain_ranges.specs.Views.{family_of};
ghost use Rattle.heap_cells.specs.Cells.{IsOf};
ghost use Rattle.heap_cells.specs.Terms.{Naming};
ghost use Rattle.heap_cells.specs.SeenTerms.{seen_term, HasLinksBelow};
ghost use Rattle.builtin_calls.specs.TypeTests.{passes};

use crate::cell_views::look;
use domain_ranges::View;
use heap_cells::{Cell, Heap, Seen};

/// A test of what a term is.
#[derive(Clone, Copy)]
pub enum TypeTest {
    /// An open variable, also one of the store.
    Var,
    Nonvar,
    Integer,
    Atom,
    /// An integer or an atom.
    Atomic,
    Compound,
}

/// Whether a term passes a test of types. The cell is of the heap, and the view's sets are those of the heap's variables of the
/// store. It answers for every cell, has no error, changes nothing and takes no memory.
pub fn type_test<V: View>(test: TypeTest, heap: &Heap, view: &V, c: Cell) -> bool
    requires own { IsOf heap.now.now c }
    requires links { HasLinksBelow (length (V.sets view.now)) heap.now.now }
    ensures { (name : Naming) → result
        ≡ passes test (seen_term name heap.now.now (family_of (V.sets view.now)) c) }
{
    let seen = look(heap, view, c);
    match test {
        TypeTest::Var => matches!(seen, Seen::Open(_) | Seen::Constrained(_, _)),
        TypeTest::Nonvar => !matches!(seen, Seen::Open(_) | Seen::Constrained(_, _)),
        TypeTest::Integer => matches!(seen, Seen::Int(_)),
        TypeTest::Atom => matches!(seen, Seen::Atom(_)),
        TypeTest::Atomic => matches!(seen, Seen::Int(_) | Seen::Atom(_)),
        TypeTest::Compound => matches!(seen, Seen::Struct(_, _)),
    }
}
