//! How the cells that a goal `T in R` names get variables of the store.

ghost use Rattle.std.specs.Ordering.{int_eq};
ghost use Rattle.std.specs.Prelude.{◌≡◌, [], None, ℤ, All, IfOk, OnOk, length};
ghost use Rattle.fd_language.specs.Term.{Term};
ghost use Rattle.heap_cells.specs.Cells.{IsOf};
ghost use Rattle.heap_cells.specs.Terms.{Naming};
ghost use Rattle.indexmap.specs.IndexMap.{get};
ghost use Rattle.range_code.specs.Slots.{slots_of, slot_needs};
ghost use Rattle.heap_cells.specs.SeenTerms.{seen_term};
ghost use Rattle.branch_state.specs.CellVariables.{shown_slots, AreCellsReady, IsFineGoal, IsFineSlot, TermStep, SlotStep, IsPrepared};
ghost use Rattle.heap_cells.specs.SeenTerms.{HasLinksBelow};
ghost use Rattle.range_code.specs.Frames.{family_of};
ghost use Rattle.branch_state.specs.StoreVariables.{LooksAs, CanName, OwnLinks, with_level_sets};

use crate::cell_looks::{Look, look_cell};
use crate::store_variables::{Prepared, integer_of, name_look, number_arg};
use fd_language::{Need, NoMemory};
use heap_cells::{Cell, Heap};
use indexmap::IndexMap;
use propagate_queue::{Agenda, Store};
use range_code::{Arg, RangeCode};
use std::alloc::Global;
use unify_core::Touch;

/// The integers that a goal names: each has a variable of the store, and a touch that tells it.
#[derive(Drop)]
pub(crate) struct Numbers {
    pub told: Vec<Touch>,
    pub variables: IndexMap<i64, usize>,
}

/// The variable of the store of what a goal names. An integer has a fresh one, unless it was met before.
fn name_term<A: Agenda + Drop>(
    heap: &mut Heap,
    store: &mut Store<A>,
    numbers: &mut Numbers,
    look: Look,
) -> Result<usize, NoMemory>
    requires { CanName heap.old.now look }
    ensures store { OnOk result (store.new ≡ with_level_sets store.old store.new.current.sets) }
    ensures below { heap.new.below ≡ heap.old.below }
    ensures named { IfOk result (TermStep look heap.old.now store.old.current.sets
        numbers.old.told.items (get int_eq numbers.old.variables) heap.new.now
        store.new.current.sets numbers.new.told.items (get int_eq numbers.new.variables)) }
{
    match look {
        Look::Number(value) => {
            if let Some(variable) = numbers.variables.get(&value) {
                return Ok(*variable);
            }
            let variable = name_look(heap, store, &mut numbers.told, look)?;
            numbers.variables.insert(value, variable)?;
            Ok(variable)
        }
        _ => name_look(heap, store, &mut numbers.told, look),
    }
}

/// What stands in a slot: a parameter's integer, or the variable of the store of another cell.
fn slot_argument<A: Agenda + Drop>(
    heap: &mut Heap,
    store: &mut Store<A>,
    numbers: &mut Numbers,
    need: Option<Need>,
    cell: Cell,
) -> Result<Arg, NoMemory>
    requires linked { HasLinksBelow (length store.old.current.sets) heap.old.now }
    requires own { IsOf heap.old.now cell }
    requires fine { IsFineSlot heap.old.now store.old.current.sets need cell }
    ensures store { OnOk result (store.new ≡ with_level_sets store.old store.new.current.sets) }
    ensures below { heap.new.below ≡ heap.old.below }
    ensures step { IfOk result (λ a. (name : Naming) → SlotStep
        (seen_term name heap.old.now (family_of store.old.current.sets) cell) need heap.old.now
        store.old.current.sets numbers.old.told.items (get int_eq numbers.old.variables)
        heap.new.now store.new.current.sets numbers.new.told.items
        (get int_eq numbers.new.variables) a) }
{
    let look = look_cell(heap, store, cell);
    if need.is_some() {
        return Ok(number_arg(integer_of(look)));
    }
    Ok(Arg::Var(name_term(heap, store, numbers, look)?))
}

/// Names the target and the cells of a goal without offence by variables of the store, and gives the target's and what stands in the slots.
/// `numbers` has no integer yet.
fn name_cells<A: Agenda + Drop>(
    alloc: Global,
    heap: &mut Heap,
    store: &mut Store<A>,
    numbers: &mut Numbers,
    code: &RangeCode,
    target: Look,
    cells: &[Cell],
) -> Result<(usize, Vec<Arg>), NoMemory>
    requires links { OwnLinks (length store.old.current.sets) heap.old.now }
    requires cells { All (IsOf heap.old.now) cells.now }
    requires counted { length cells.now ≡ length (slots_of code.now) }
    requires looks { (t : Term) × LooksAs heap.old.now t target }
    requires fine { IsFineGoal heap.old.now store.old.current.sets code.now target cells.now }
    requires told { numbers.old.told.items ≡ [] }
    requires none { (z : ℤ) → get int_eq numbers.old.variables z ≡ None }
    ensures store { OnOk result (store.new ≡ with_level_sets store.old store.new.current.sets) }
    ensures below { heap.new.below ≡ heap.old.below }
    ensures ready { IfOk result (λ named. (name : Naming) (t : Term)
        → LooksAs heap.old.now t target
        → AreCellsReady t (shown_slots name heap.old.now store.old.current.sets code.now cells.now)
        heap.old.now store.old.current.sets (slots_of code.now) (slot_needs code.now)
        heap.new.now store.new.current.sets numbers.new.told.items
        (get int_eq numbers.new.variables) named.0 named.1.items) }
{
    let needs = code.needs();
    let mut args = Vec::with_capacity(alloc, needs.len())?;
    let target = name_term(heap, store, numbers, target)?;
    for (index, need) in needs.iter().enumerate() {
        let arg = slot_argument(heap, store, numbers, *need, cells[index])?;
        args.push(arg)?;
    }
    Ok((target, args))
}

/// Names the cells of a goal without offence by variables of the store. Its target looks as `target`.
pub(crate) fn prepare_cells<A: Agenda + Drop>(
    alloc: Global,
    heap: &mut Heap,
    store: &mut Store<A>,
    code: &RangeCode,
    target: Look,
    cells: &[Cell],
) -> Result<Prepared, NoMemory>
    requires links { OwnLinks (length store.old.current.sets) heap.old.now }
    requires cells { All (IsOf heap.old.now) cells.now }
    requires counted { length cells.now ≡ length (slots_of code.now) }
    requires looks { (t : Term) × LooksAs heap.old.now t target }
    requires fine { IsFineGoal heap.old.now store.old.current.sets code.now target cells.now }
    ensures store { OnOk result (store.new ≡ with_level_sets store.old store.new.current.sets) }
    ensures below { heap.new.below ≡ heap.old.below }
    ensures ready { IfOk result (λ p. (name : Naming) (t : Term) → LooksAs heap.old.now t target
        → IsPrepared t (shown_slots name heap.old.now store.old.current.sets code.now cells.now)
        heap.old.now store.old.current.sets code.now heap.new.now store.new.current.sets
        p.fixed.items p.target p.args.items) }
{
    let mut numbers = Numbers {
        told: Vec::new(alloc),
        variables: IndexMap::new(alloc),
    };
    let (target, args) = name_cells(alloc, heap, store, &mut numbers, code, target, cells)?;
    Ok(Prepared {
        target,
        args,
        fixed: numbers.told,
    })
}
