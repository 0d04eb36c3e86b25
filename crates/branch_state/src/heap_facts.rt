//! What holds of every heap.

ghost use Rattle.heap_cells.specs.HeapInvariant.{IsHeap};

use heap_cells::{Cell, Heap};

/// What holds of the current heap.
pub(crate) fn know(heap: &Heap)
    ensures { IsHeap heap.now.now }
{
    let _ = heap.root(Cell::Int(0));
}
