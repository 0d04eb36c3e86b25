//! The ranges of a constraint as they are posted, where ranges that differ only in the names of their variables share one code.

ghost use Rattle.std.specs.Prelude.{◌≡◌, ◌∷◌, [], map, length, IfOk, IfSome, OnOk};
ghost use Rattle.fd_language.specs.Term.{Var as variable};
ghost use Rattle.fd_language.specs.Range.{Range};
ghost use Rattle.range_code.specs.declared.frame.Arg.TheVariants as arg;
ghost use Rattle.range_code.specs.CodeFields.{IsShapeOf};
ghost use Rattle.constraint_expand.specs.Posts.{indexicals};
ghost use Rattle.propagate_queue.specs.Instances.{posting};
ghost use Rattle.branch_state.specs.Constraints.{variables_in, store_variable, row_posting, IsUnbound, AreUnbound, AreLinked};
ghost use Rattle.branch_state.specs.PostingLists.{IsAlike, IsSamePosting, AreSamePostings, AreListed, LinksMore};
ghost use Rattle.branch_state.specs.StoreVariables.{IsNaming, OwnLinks, with_level_sets};

use constraint_expand::Expansion;
use fd_language::NoMemory;
use heap_cells::{Cell, Heap, Seen};
use monotone_check::Checked;
use propagate_queue::{Agenda, Instance, Store};
use range_code::{Arg, RangeCode, Shape, compile_shape};
use std::alloc::Global;
use std::rc::Rc;

/// How many codes are kept.
const KEPT: usize = 32;

/// The last codes that were made, the oldest first. A constraint's ranges are alike one after the other, or every second one, and those of
/// a clause's constraints are alike each time that the clause is called.
#[derive(Drop)]
pub(crate) struct Recent {
    codes: Vec<Rc<RangeCode>>,
}

impl Recent {
    /// No codes.
    pub(crate) fn new(alloc: Global) -> Recent {
        Recent {
            codes: Vec::new(alloc),
        }
    }

    /// One of the codes that has the shape.
    fn find(&self, shape: &Shape) -> Result<Option<Rc<RangeCode>>, NoMemory>
        ensures { IfOk result (λ found. IfSome found (λ code. (r : Range)
            → IsShapeOf r shape.now → IsAlike code.value r)) }
    {
        for code in self.codes.iter().rev() {
            if code.has_shape(shape) {
                return Ok(Some(Rc::clone(code)?));
            }
        }
        Ok(None)
    }

    /// The code, which is the last one now.
    fn keep(&mut self, alloc: Global, code: RangeCode) -> Result<Rc<RangeCode>, NoMemory>
        ensures { IfOk result (λ kept. kept.value ≡ code) }
    {
        let made = Rc::new(alloc, code)?;
        if self.codes.len() >= KEPT {
            self.codes.remove(0);
        }
        self.codes.push(Rc::clone(&made)?)?;
        Ok(made)
    }

    /// A recent code that is alike to the range of the shape. Where there is none the range is compiled, and its code then is the last.
    fn share(
        &mut self,
        alloc: Global,
        range: &Checked,
        shape: Shape,
    ) -> Result<Rc<RangeCode>, NoMemory>
        requires { IsShapeOf range.now shape }
        ensures { IfOk result (λ shared. IsAlike shared.value range.now) }
    {
        if let Some(found) = self.find(&shape)? {
            return Ok(found);
        }
        let code = compile_shape(alloc, range, shape)?;
        self.keep(alloc, code)
    }
}

/// Makes a variable of the heap one of the store, unless it is one.
fn link<A: Agenda + Drop>(heap: &mut Heap, store: &mut Store<A>, x: u64) -> Result<(), NoMemory>
    requires { IsUnbound heap.old.now x }
    ensures store { OnOk result (store.new ≡ with_level_sets store.old store.new.current.sets) }
    ensures below { heap.new.below ≡ heap.old.below }
    ensures linked { OnOk result (LinksMore heap.old.now store.old.current.sets (x ∷ [])
        heap.new.now store.new.current.sets) }
{
    if let Seen::Open(i) = heap.deref(Cell::Ref(x as usize)) {
        let k = store.new_var()?;
        heap.constrain(i, k)?;
    }
    Ok(())
}

/// Makes variables of the heap variables of the store.
fn link_all<A: Agenda + Drop>(
    heap: &mut Heap,
    store: &mut Store<A>,
    variables: &[u64],
) -> Result<(), NoMemory>
    requires unbound { AreUnbound heap.old.now variables.now }
    requires links { OwnLinks (length store.old.current.sets) heap.old.now }
    ensures store { OnOk result (store.new ≡ with_level_sets store.old store.new.current.sets) }
    ensures below { heap.new.below ≡ heap.old.below }
    ensures linked { OnOk result (LinksMore heap.old.now store.old.current.sets variables.now
        heap.new.now store.new.current.sets) }
{
    for x in variables {
        link(heap, store, *x)?;
    }
    Ok(())
}

/// The variable of the store that a variable of the heap is.
pub(crate) fn variable_of(heap: &Heap, x: u64) -> usize
    requires { AreLinked heap.now.now (x ∷ []) }
    ensures { result ≡ store_variable heap.now.now x }
{
    match heap.deref(Cell::Ref(x as usize)) {
        Seen::Constrained(_, k) => k,
        _ => 0,
    }
}

/// The variables of the store that variables of the heap are, as arguments.
fn arguments(alloc: Global, heap: &Heap, slots: &[u64]) -> Result<Vec<Arg>, NoMemory>
    requires { AreLinked heap.now.now slots.now }
    ensures { IfOk result (λ args. args.items
        ≡ map (λ y. arg.Var (store_variable heap.now.now y)) slots.now) }
{
    let mut args = Vec::with_capacity(alloc, slots.len())?;
    for x in slots {
        args.push(Arg::Var(variable_of(heap, *x)))?;
    }
    Ok(args)
}

/// A range as it is posted.
fn instance(
    alloc: Global,
    heap: &Heap,
    recent: &mut Recent,
    target: u64,
    range: &Checked,
    shape: Shape,
) -> Result<Instance, NoMemory>
    requires shape { IsShapeOf range.now shape }
    requires linked { AreLinked heap.now.now
        (variables_in (record { target = target; range = range.now } ∷ [])) }
    ensures { IfOk result (λ i. IsSamePosting (posting i)
        (row_posting (store_variable heap.now.now)
        (record { target = target; range = range.now }))) }
{
    let args = arguments(alloc, heap, shape.slots())?;
    let target = variable_of(heap, target);
    Ok(Instance {
        code: recent.share(alloc, range, shape)?,
        target,
        args,
    })
}

/// Links the variables of a range, and puts it behind the list.
fn list_range<A: Agenda + Drop>(
    alloc: Global,
    heap: &mut Heap,
    store: &mut Store<A>,
    recent: &mut Recent,
    list: &mut Vec<Instance>,
    target: u64,
    range: &Checked,
) -> Result<(), NoMemory>
    requires unbound { AreUnbound heap.old.now
        (variables_in (record { target = target; range = range.now } ∷ [])) }
    requires links { OwnLinks (length store.old.current.sets) heap.old.now }
    ensures store { OnOk result (store.new ≡ with_level_sets store.old store.new.current.sets) }
    ensures below { heap.new.below ≡ heap.old.below }
    ensures linked { OnOk result (LinksMore heap.old.now store.old.current.sets
        (variables_in (record { target = target; range = range.now } ∷ []))
        heap.new.now store.new.current.sets) }
    ensures listed { OnOk result (AreListed heap.new.now
        (record { target = target; range = range.now } ∷ [])
        list.old.items list.new.items) }
{
    let shape = Shape::new(alloc, range)?;
    link(heap, store, target)?;
    link_all(heap, store, shape.slots())?;
    let instance = instance(alloc, heap, recent, target, range, shape)?;
    list.push(instance)?;
    Ok(())
}

/// Links the variables of ranges, and puts these behind the list.
fn list_piece<A: Agenda + Drop>(
    alloc: Global,
    heap: &mut Heap,
    store: &mut Store<A>,
    recent: &mut Recent,
    list: &mut Vec<Instance>,
    piece: &[(u64, Checked)],
) -> Result<(), NoMemory>
    requires unbound { AreUnbound heap.old.now (variables_in (indexicals piece.now)) }
    requires links { OwnLinks (length store.old.current.sets) heap.old.now }
    ensures store { OnOk result (store.new ≡ with_level_sets store.old store.new.current.sets) }
    ensures below { heap.new.below ≡ heap.old.below }
    ensures linked { OnOk result (LinksMore heap.old.now store.old.current.sets
        (variables_in (indexicals piece.now)) heap.new.now store.new.current.sets) }
    ensures listed { OnOk result (AreListed heap.new.now (indexicals piece.now)
        list.old.items list.new.items) }
{
    for range in piece {
        list_range(alloc, heap, store, recent, list, range.0, &range.1)?;
    }
    Ok(())
}

/// Links the variables of what a constraint becomes, and lists its ranges as they are posted. Each piece of the ranges is let go once
/// it is listed.
pub(crate) fn list_ranges<A: Agenda + Drop>(
    alloc: Global,
    heap: &mut Heap,
    store: &mut Store<A>,
    recent: &mut Recent,
    expansion: &mut Expansion,
) -> Result<Vec<Instance>, NoMemory>
    requires unbound { AreUnbound heap.old.now (variables_in expansion.old.ranges) }
    requires links { OwnLinks (length store.old.current.sets) heap.old.now }
    ensures store { OnOk result (store.new ≡ with_level_sets store.old store.new.current.sets) }
    ensures below { heap.new.below ≡ heap.old.below }
    ensures equated { expansion.new.equated ≡ expansion.old.equated }
    ensures linked { OnOk result (IsNaming variable heap.old.now store.old.current.sets
        (variables_in expansion.old.ranges) heap.new.now store.new.current.sets [] []) }
    ensures listed { IfOk result (λ list. AreSamePostings (map posting list.items)
        (map (row_posting (store_variable heap.new.now)) expansion.old.ranges)) }
{
    let mut list = Vec::new(alloc);
    while let Some(piece) = expansion.next_piece()? {
        list_piece(alloc, heap, store, recent, &mut list, &piece)?;
    }
    Ok(list)
}
