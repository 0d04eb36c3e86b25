//! Unification of two cells of a heap.
#![tactic(auto)]

ghost use Rattle.std.specs.Prelude.{◌≡◌, ◌↔◌, ℕ, ◌<◌, ◌++◌, [], ◌∷◌, length, reverse, All, IfOk, OnOk, MatchOption, IsTrue};
ghost use Rattle.heap_cells.specs.declared.Cell.TheVariants as cell;
ghost use Rattle.heap_cells.specs.Cells.{free, linked, slot_at, IsOf};
ghost use Rattle.heap_cells.specs.SeenCells.{IsRoot};
ghost use Rattle.heap_cells.specs.Terms.{IsAbsent};
ghost use Rattle.heap_cells.specs.HeapInvariant.{IsHeap};
ghost use Rattle.unify_core.specs.PairReduction.{IsOwn, IsSameSize};
ghost use Rattle.unify_core.specs.Outcome.{IfTrue, IfFalse, IfYes, IfNo, IsDone, IsHopeless, IsBinding, IsInfinite, IsSymbolicCell, TellsOccurs, TellsTouch, paired};
ghost use Rattle.unify_core.specs.OccursCheck.{OccursAmong, LeavesAhead, IsOther, ComesToOther, ShowsOther, IsAbsentAmong};
ghost use Rattle.unify_core.specs.Unifications.{AreUnified, CannotUnify, KeepsAtoms, IsEqualled};

use fd_language::NoMemory;
use heap_cells::{Cell, Heap, Seen};
use std::alloc::{AllocError, Global};
use std::marker::Model;

/// What the store is to be told.
#[derive(Clone, Copy)]
pub enum Touch {
    /// A variable of the store, by its number there, became an integer.
    Value(usize, i64),
    /// Two variables of the store, by their numbers there, became one.
    Same(usize, usize),
}

/// Whether two cells could be made equal.
#[derive(Drop)]
pub enum Unified {
    No,
    /// They are equal now. What the store is to be told.
    Yes(Vec<Touch>),
}

/// Two cells that are still to be made equal.
#[derive(Clone, Copy)]
struct Pair {
    left: Cell,
    right: Cell,
}

/// Compound terms that are still to be looked into, by their numbers. The last one is kept apart, so that the walk along a list takes
/// no memory.
#[derive(Drop)]
struct Ahead {
    others: Vec<usize>,
    last: Option<usize>,
}

impl Model for Ahead {
    ghost use Rattle.std.specs.Prelude.{ℕ, List};

    ghost Value = { List ℕ };

    ghost use Rattle.unify_core.specs.OccursCheck.{with_last};

    ghost view = { λ a. with_last a.others.items a.last };
}

impl Ahead {
    /// Nothing yet. No memory.
    #[inline]
    fn new(alloc: Global) -> Ahead
        ensures { result ≡ [] }
    {
        Ahead {
            others: Vec::new(alloc),
            last: None,
        }
    }

    /// Puts a compound term behind the others. The error is want of memory.
    #[inline]
    fn push(&mut self, j: usize) -> Result<(), NoMemory>
        ensures { OnOk result (self.new ≡ self.old ++ j ∷ []) }
    {
        if let Some(last) = self.last {
            self.others.push(last)?;
        }
        self.last = Some(j);
        Ok(())
    }

    /// Takes the last one. No memory.
    #[inline]
    fn pop(&mut self) -> Option<usize>
        ensures { MatchOption result (self.old ≡ []) (λ j. self.old ≡ self.new ++ j ∷ []) }
    {
        match self.last.take() {
            Some(j) => Some(j),
            None => self.others.pop(),
        }
    }
}

/// Whether a variable that isn't bound is one of the cells. Compound terms among them are put behind those ahead. The error is want of
/// memory.
fn look_into(heap: &Heap, var: usize, cells: &[Cell], ahead: &mut Ahead) -> Result<bool, NoMemory>
    requires { All (IsOf heap.now.now) cells.now }
    ensures found { IfTrue result (OccursAmong heap.now.now var cells.now) }
    ensures further { IfFalse result (LeavesAhead heap.now.now var cells.now ahead.old ahead.new) }
{
    for c in cells {
        match heap.root(*c) {
            Cell::Ref(i) => {
                if i == var {
                    return Ok(true);
                }
            }
            Cell::Struct(j) => ahead.push(j)?,
            _ => {}
        }
    }
    Ok(false)
}

/// Whether a variable that isn't bound occurs in a compound term. The error is want of memory.
fn occurs_in(heap: &Heap, alloc: Global, var: usize, top: usize) -> Result<bool, NoMemory>
    requires { IsOf heap.now.now (cell.Struct top) }
    ensures { IfOk result (TellsOccurs heap.now.now var (cell.Struct top)) }
{
    let mut ahead = Ahead::new(alloc);
    let mut at = top;
    'compounds: loop {
        let Seen::Struct(_, args) = heap.deref(Cell::Struct(at)) else {
            return Ok(false);
        };
        if look_into(heap, var, args, &mut ahead)? {
            return Ok(true);
        }
        match ahead.pop() {
            Some(next) => at = next,
            None => return Ok(false),
        }
    }
}

/// The same, without a look where the variable is known to be in no compound term. The error is want of memory.
#[inline]
fn is_inside(heap: &Heap, alloc: Global, var: usize, top: usize) -> Result<bool, NoMemory>
    requires there { var < length heap.now.now.slots }
    requires own { IsOf heap.now.now (cell.Struct top) }
    ensures { IfOk result (TellsOccurs heap.now.now var (cell.Struct top)) }
{
    if heap.is_loose(var) {
        return Ok(false);
    }
    occurs_in(heap, alloc, var, top)
}

/// Whether the end of a cell's bindings is a constant, or a variable other than this one.
#[inline(always)]
fn is_other(var: usize, root: Cell) -> bool
    ensures { IsTrue result ↔ IsOther var root }
{
    match root {
        Cell::Ref(i) => i != var,
        Cell::Struct(_) => false,
        _ => true,
    }
}

/// Whether a look at a cell shows that it comes to a constant, or to a variable other than this one.
#[inline(always)]
fn is_soon_other(heap: &Heap, var: usize, c: Cell) -> bool
    requires { IsOf heap.now.now c }
    ensures shows { IsTrue result ↔ ShowsOther heap.now.now var c }
    ensures other { IsTrue result → ComesToOther heap.now.now var c }
    ensures valid { IsHeap heap.now.now }
{
    match heap.near_root(c) {
        Some(root) => is_other(var, root),
        None => false,
    }
}

/// Whether looks at these cells show that all come to constants, or to variables other than this one: then it occurs in none of them.
/// No memory.
#[inline(always)]
pub fn are_others(heap: &Heap, var: usize, cells: &[Cell]) -> bool
    requires { All (IsOf heap.now.now) cells.now }
    ensures shows { IsTrue result ↔ All (ShowsOther heap.now.now var) cells.now }
    ensures absent { IsTrue result → IsAbsentAmong heap.now.now var cells.now }
{
    for c in cells {
        if !is_soon_other(heap, var, *c) {
            return false;
        }
    }
    true
}

/// Whether a root is a compound term, and a variable is known to be in none.
#[inline(always)]
fn is_beyond(heap: &Heap, var: usize, root: Cell) -> bool
    requires { var < length heap.now.now.slots }
    ensures { IsTrue result → IsAbsent heap.now.now var root }
{
    match root {
        Cell::Struct(_) => heap.is_loose(var),
        _ => false,
    }
}

/// Whether a look at a cell and at its arguments shows that a variable doesn't occur in it.
#[inline(always)]
fn is_soon_apart(heap: &Heap, var: usize, root: Cell) -> bool
    requires own { IsOf heap.now.now root }
    requires root { IsRoot heap.now.now root }
    ensures { IsTrue result → IsAbsent heap.now.now var root }
{
    match heap.deref(root) {
        Seen::Struct(_, args) => are_others(heap, var, args),
        _ => is_other(var, root),
    }
}

/// Whether few looks show that a variable doesn't occur in a cell.
#[inline(always)]
fn is_apart(heap: &Heap, var: usize, root: Cell) -> bool
    requires there { var < length heap.now.now.slots }
    requires own { IsOf heap.now.now root }
    requires root { IsRoot heap.now.now root }
    ensures { IsTrue result → IsAbsent heap.now.now var root }
{
    is_beyond(heap, var, root) || is_soon_apart(heap, var, root)
}

/// Binds an open variable to another root, unless it occurs there. The error is want of memory.
#[inline]
fn bind_open(heap: &mut Heap, alloc: Global, var: usize, to: Cell) -> Result<bool, NoMemory>
    requires valid { IsHeap heap.old.now }
    requires there { var < length heap.old.now.slots }
    requires open { slot_at heap.old.now var ≡ free }
    requires own { IsOf heap.old.now to }
    requires root { IsRoot heap.old.now to }
    requires other { to ≡ cell.Ref var → ⊥ }
    ensures bound { IfTrue result (IsBinding heap.old.now var to heap.new.now) }
    ensures infinite { IfFalse result (IsInfinite heap.old.now var to) }
    ensures below { heap.new.below ≡ heap.old.below }
{
    if let Cell::Struct(j) = to {
        if is_inside(heap, alloc, var, j)? {
            return Ok(false);
        }
    }
    heap.bind(var, to)?;
    Ok(true)
}

/// Binds a variable of the store to another root that is no open variable, if that is an integer or a variable of the store. The
/// error is want of memory.
fn bind_constrained(
    heap: &mut Heap,
    var: usize,
    k: usize,
    to: Cell,
    touches: &mut Vec<Touch>,
) -> Result<bool, NoMemory>
    requires there { var < length heap.old.now.slots }
    requires linked { slot_at heap.old.now var ≡ linked k }
    requires own { IsOf heap.old.now to }
    requires root { IsRoot heap.old.now to }
    requires other { to ≡ cell.Ref var → ⊥ }
    requires closed { (i : ℕ) → to ≡ cell.Ref i → slot_at heap.old.now i ≡ free → ⊥ }
    ensures bound { IfTrue result (IsBinding heap.old.now var to heap.new.now
        × TellsTouch heap.old.now var k to touches.old.items touches.new.items) }
    ensures symbolic { IfFalse result (IsSymbolicCell heap.old.now to) }
    ensures below { heap.new.below ≡ heap.old.below }
{
    let touch = match heap.deref(to) {
        Seen::Int(z) => Touch::Value(k, z),
        Seen::Constrained(_, m) => Touch::Same(k, m),
        _ => return Ok(false),
    };
    touches.push(touch)?;
    heap.bind(var, to)?;
    Ok(true)
}

/// Puts the pairs of two lists of cells of one length behind the work, so that the first pair is the next. The error is want of
/// memory.
fn pair_up(work: &mut Vec<Pair>, left: &[Cell], right: &[Cell]) -> Result<(), AllocError>
    requires { length left.now ≡ length right.now }
    ensures { OnOk result (work.new.items ≡ work.old.items ++ reverse (paired left.now right.now)) }
{
    for i in (0..left.len()).rev() {
        work.push(Pair {
            left: left[i],
            right: right[i],
        })?;
    }
    Ok(())
}

/// Works off a pair of cells. The answer tells whether they may be equal. The error is want of memory.
#[inline]
fn step(
    heap: &mut Heap,
    alloc: Global,
    pair: Pair,
    work: &mut Vec<Pair>,
    touches: &mut Vec<Touch>,
) -> Result<bool, NoMemory>
    requires own { IsOwn heap.old.now pair }
    ensures done { IfTrue result (IsDone heap.old.now (work.old.items ++ pair ∷ [])
        touches.old.items heap.new.now work.new.items touches.new.items) }
    ensures hopeless { IfFalse result (IsHopeless heap.old.now (work.old.items ++ pair ∷ [])) }
    ensures below { heap.new.below ≡ heap.old.below }
{
    let left = heap.root(pair.left);
    let right = heap.root(pair.right);
    if left == right {
        return Ok(true);
    }
    match heap.deref(left) {
        Seen::Open(i) => bind_open(heap, alloc, i, right),
        Seen::Constrained(i, k) => match heap.deref(right) {
            Seen::Open(open) => bind_open(heap, alloc, open, left),
            _ => bind_constrained(heap, i, k, right, touches),
        },
        Seen::Struct(f, some) => match heap.deref(right) {
            Seen::Open(j) => bind_open(heap, alloc, j, left),
            Seen::Struct(g, others) => {
                if f != g || some.len() != others.len() {
                    return Ok(false);
                }
                pair_up(work, some, others)?;
                Ok(true)
            }
            _ => Ok(false),
        },
        _ => match heap.deref(right) {
            Seen::Open(j) => bind_open(heap, alloc, j, left),
            Seen::Constrained(j, k) => bind_constrained(heap, j, k, left, touches),
            _ => Ok(false),
        },
    }
}

/// What holds of the current heap.
#[inline]
fn know(heap: &Heap)
    ensures { IsHeap heap.now.now }
{
    let _ = heap.root(Cell::Int(0));
}

/// Makes two cells equal pair by pair, and puts what the store is to be told behind `touches`. `false` comes exactly where they can't be
/// equal. The error is want of memory.
#[inline(never)]
fn unify_pairs(
    heap: &mut Heap,
    alloc: Global,
    a: Cell,
    b: Cell,
    touches: &mut Vec<Touch>,
) -> Result<bool, NoMemory>
    requires marked { 0 < length heap.old.below }
    requires own_a { IsOf heap.old.now a }
    requires own_b { IsOf heap.old.now b }
    ensures equal { IfTrue result (IsEqualled heap.old.now a b heap.new.now touches.old.items
        touches.new.items) }
    ensures unequal { IfFalse result (CannotUnify heap.old.now a b) }
    ensures atoms { IfTrue result (KeepsAtoms heap.old.now a b heap.new.now) }
    ensures valid { IfTrue result (IsHeap heap.new.now) }
    ensures below { heap.new.below ≡ heap.old.below }
{
    let mut work = Vec::new(alloc);
    let mut pair = Pair { left: a, right: b };
    'pairs: loop {
        if !step(heap, alloc, pair, &mut work, touches)? {
            return Ok(false);
        }
        match work.pop() {
            Some(next) => pair = next,
            None => {
                know(heap);
                return Ok(true);
            }
        }
    }
}

/// Makes two cells of a heap equal as `unify` does, and puts what the store is to be told behind `touches`. `false` comes exactly where
/// `unify` says `No`. An open variable on the left and two constants are seen to at once.
#[inline(always)]
pub fn unify_into(
    heap: &mut Heap,
    alloc: Global,
    a: Cell,
    b: Cell,
    touches: &mut Vec<Touch>,
) -> Result<bool, NoMemory>
    requires marked { 0 < length heap.old.below }
    requires own_a { IsOf heap.old.now a }
    requires own_b { IsOf heap.old.now b }
    ensures equal { IfTrue result (IsEqualled heap.old.now a b heap.new.now touches.old.items
        touches.new.items) }
    ensures unequal { IfFalse result (CannotUnify heap.old.now a b) }
    ensures atoms { IfTrue result (KeepsAtoms heap.old.now a b heap.new.now) }
    ensures valid { IfTrue result (IsHeap heap.new.now) }
    ensures below { heap.new.below ≡ heap.old.below }
{
    let right = heap.root(b);
    if let Some(i) = heap.open_root(a) {
        if is_apart(heap, i, right) {
            heap.bind(i, right)?;
            return Ok(true);
        }
        return unify_pairs(heap, alloc, a, b, touches);
    }
    match heap.root(a) {
        Cell::Int(x) => {
            if let Cell::Int(y) = right {
                return Ok(x == y);
            }
        }
        Cell::Atom(x) => {
            if let Cell::Atom(y) = right {
                return Ok(x == y);
            }
        }
        _ => {}
    }
    unify_pairs(heap, alloc, a, b, touches)
}

/// Makes two cells of a heap equal, where that can be done: the unification of ISO/IEC 13211-1, 7.3, with its occurs check.
///
/// `No` comes exactly where their terms have no unifier, or each would make a variable of the store an atom or a compound term. The
/// error is want of memory. After both the heaps below are as before, and the current one is to be given up by `undo_to_mark`.
pub fn unify(heap: &mut Heap, alloc: Global, a: Cell, b: Cell) -> Result<Unified, NoMemory>
    requires marked { 0 < length heap.old.below }
    requires own_a { IsOf heap.old.now a }
    requires own_b { IsOf heap.old.now b }
    ensures yes { IfYes result (AreUnified heap.old.now a b heap.new.now) }
    ensures no { IfNo result (CannotUnify heap.old.now a b) }
    ensures size { IfYes result (λ ts. IsSameSize heap.old.now heap.new.now) }
    ensures atoms { IfYes result (λ ts. KeepsAtoms heap.old.now a b heap.new.now) }
    ensures below { heap.new.below ≡ heap.old.below }
{
    let mut touches = Vec::new(alloc);
    if unify_into(heap, alloc, a, b, &mut touches)? {
        Ok(Unified::Yes(touches))
    } else {
        Ok(Unified::No)
    }
}
