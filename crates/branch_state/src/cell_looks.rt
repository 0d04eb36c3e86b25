//! What cells are seen as, through the sets of the store.

ghost use Rattle.std.specs.Prelude.{◌≡◌, ◌<◌, length, All};
ghost use Rattle.fd_language.specs.Needs as needs;
ghost use Rattle.fd_language.specs.Term.{Term};
ghost use Rattle.heap_cells.specs.Cells.{IsOf};
ghost use Rattle.heap_cells.specs.Terms.{Naming};
ghost use Rattle.range_code.specs.Slots.{slots_of};
ghost use Rattle.branch_state.specs.declared.cell_looks.Look.TheVariants as looks;
ghost use Rattle.heap_cells.specs.SeenTerms.{seen_term};
ghost use Rattle.branch_state.specs.CellVariables.{shown_slots, slots_offence};
ghost use Rattle.heap_cells.specs.SeenTerms.{HasLinksBelow};
ghost use Rattle.range_code.specs.Frames.{family_of};
ghost use Rattle.branch_state.specs.StoreVariables.{LooksAs, IsKind, offence};

use fd_language::Need;
use fd_model::kinds::QueryFault;
use heap_cells::{Cell, Heap, Seen};
use propagate_queue::{Agenda, Store};
use range_code::RangeCode;

/// What a cell is seen as.
#[derive(Clone, Copy)]
pub(crate) enum Look {
    /// A variable of the heap that isn't the store's, by its number.
    Open(usize),
    /// A variable of the store with several values, by its number there.
    Linked(usize),
    /// An integer, or a variable of the store with this value alone.
    Number(i64),
    /// An atom or a compound term.
    Symbol,
}

/// An integer, as it looks.
fn number(value: i64) -> Look
    ensures { result ≡ looks.Number value }
{
    Look::Number(value)
}

/// What a cell is seen as.
pub(crate) fn look_cell<A: Agenda + Drop>(heap: &Heap, store: &Store<A>, cell: Cell) -> Look
    requires linked { HasLinksBelow (length store.now.current.sets) heap.now.now }
    requires own { IsOf heap.now.now cell }
    ensures { (name : Naming) → LooksAs heap.now.now
        (seen_term name heap.now.now (family_of store.now.current.sets) cell) result }
{
    match heap.deref(cell) {
        Seen::Open(i) => Look::Open(i),
        Seen::Constrained(_, k) => match store.domain(k).only_value() {
            Some(value) => number(i64::from(value)),
            None => Look::Linked(k),
        },
        Seen::Int(z) => number(z),
        _ => Look::Symbol,
    }
}

/// Whether an integer meets the need of a parameter. Each need asks for a magnitude below 2 to the power of 63.
fn meets(need: Need, value: i64) -> bool
    ensures { result ≡ needs.meets need value }
{
    match need {
        Need::Whole => value > i64::MIN,
        Need::Natural => value >= 0,
        Need::Divisor => value >= 1,
    }
}

/// The offence of what stands in a slot with this need.
fn offence_of(need: Option<Need>, look: Look) -> Option<QueryFault>
    ensures { (t : Term) → IsKind t look → result ≡ offence need t }
{
    match (need, look) {
        (_, Look::Symbol) => Some(QueryFault::BadType),
        (None, _) => None,
        (Some(need), Look::Number(value)) => {
            if meets(need, value) {
                None
            } else {
                Some(QueryFault::Parameter)
            }
        }
        (Some(_), _) => Some(QueryFault::Instantiation),
    }
}

/// The first offence of a goal by cells: of its target, or of its range's slots in their order.
pub(crate) fn find_cells_offence<A: Agenda + Drop>(
    heap: &Heap,
    store: &Store<A>,
    code: &RangeCode,
    target: Look,
    cells: &[Cell],
) -> Option<QueryFault>
    requires linked { HasLinksBelow (length store.now.current.sets) heap.now.now }
    requires cells { All (IsOf heap.now.now) cells.now }
    requires counted { length cells.now ≡ length (slots_of code.now) }
    ensures { (name : Naming) (t : Term) → IsKind t target → result ≡ slots_offence t
        (shown_slots name heap.now.now store.now.current.sets code.now cells.now) code.now }
{
    let offence = offence_of(None, target);
    if offence.is_some() {
        return offence;
    }
    let needs = code.needs();
    for (index, need) in needs.iter().enumerate() {
        let offence = offence_of(*need, look_cell(heap, store, cells[index]));
        if offence.is_some() {
            return offence;
        }
    }
    None
}
