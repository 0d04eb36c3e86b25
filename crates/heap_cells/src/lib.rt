//! A heap of variables and compound terms, with marks to which it can be taken back.
//!
//! Variables and compound terms are numbered from 0. A binding is a cell in a variable's place. A mark is a record of lengths; a
//! variable that is older than the newest mark is saved on the trail before it changes.
#![tactic(auto)]

ghost use Rattle.std.specs.Vec.{vec_len, vec_capacity};
ghost use Rattle.std.specs.Prelude.{◌≡◌, ◌+◌, ◌<◌, ◌≤◌, [], ◌∷◌, ◌++◌, length, length as count, take, drop, slice_set, Ok, false, IfSome, IfOk, OnOk, OnErr, All, reverse, MatchOption, IsTrue, ◌↔◌, ℕ, None};
ghost use Rattle.heap_cells.specs.declared.Cell.TheVariants as cell;
ghost use Rattle.heap_cells.specs.declared.Seen.TheVariants as seen;
ghost use Rattle.heap_cells.specs.Cells.{Cells, free, linked, bound, is_bound, no_cells, slot_at, IsOf, with_slot, with_new_slot, with_now, with_mark, AddsCompound};
ghost use Rattle.heap_cells.specs.Terms.{KeepsTerms, Same, IsAbsent, Replaces};
ghost use Rattle.heap_cells.specs.HeapInvariant.{IsHeap};
ghost use Rattle.heap_cells.specs.HeapFields.{slot_of, trailed, saved_at, restored, held, held_all};
ghost use Rattle.heap_cells.specs.SeenCells.{IsSeen, IsTop, IsRoot, IsNeverOpen, IsBoundToVariable, one_step, integer_in};

use fd_language::NoMemory;
use std::alloc::Global;
use std::marker::Model;
use term_pool::AtomId;

/// A term of a heap at its top: a variable or a compound term by its number, or a constant.
#[derive(Clone, Copy, PartialEq, Eq)]
pub enum Cell {
    Ref(usize),
    Int(i64),
    Atom(AtomId),
    Struct(usize),
}

const _: () = prove!(size_of::<Cell>() == 16);

/// What a cell comes to once bindings are followed.
#[derive(Clone, Copy)]
pub enum Seen<'h> {
    /// A variable that is neither bound nor constrained, by its number.
    Open(usize),
    /// A variable of the store that isn't bound: its number in the heap, and in the store.
    Constrained(usize, usize),
    Int(i64),
    Atom(AtomId),
    /// A compound term: the atom that names it, and its arguments.
    Struct(AtomId, &'h [Cell]),
}

/// A variable, with what it is bound to where it is bound.
#[derive(Clone, Copy)]
enum Variable {
    Open,
    /// Open, no argument of a compound term, and no variable is bound to it.
    Loose,
    Constrained(usize),
    Ref(usize),
    Int(i64),
    Atom(AtomId),
    Struct(usize),
}

/// A compound term whose arguments are `count` cells from `first` on in the heap's list of arguments.
#[derive(Clone, Copy)]
struct Structure {
    name: AtomId,
    first: usize,
    count: usize,
}

/// What a variable was before it changed.
#[derive(Clone, Copy)]
struct Saved {
    at: usize,
    was: Variable,
}

/// The lengths of a heap's lists.
#[derive(Clone, Copy)]
struct Mark {
    variables: usize,
    args: usize,
    structures: usize,
    trail: usize,
}

/// Variables and compound terms, and the heaps at the marks below.
#[derive(Drop)]
pub struct Heap {
    variables: Vec<Variable>,
    args: Vec<Cell>,
    structures: Vec<Structure>,
    trail: Vec<Saved>,
    marks: Vec<Mark>,
}

impl Model for Heap {
    ghost use Rattle.heap_cells.specs.Cells.{Heaps};

    ghost Value = { Heaps };

    ghost use Rattle.heap_cells.specs.HeapFields.{heaps_of, AreSound};

    ghost view = { λ h. heaps_of h.variables.items h.args.items h.structures.items h.trail.items
        h.marks.items };

    ghost invariant = { λ h. AreSound h.variables.items h.args.items h.structures.items
        h.trail.items h.marks.items };
}

/// A variable bound to a cell.
#[inline]
fn bound_to(c: Cell) -> Variable
    ensures { slot_of result ≡ bound c }
{
    match c {
        Cell::Ref(i) => Variable::Ref(i),
        Cell::Int(z) => Variable::Int(z),
        Cell::Atom(a) => Variable::Atom(a),
        Cell::Struct(j) => Variable::Struct(j),
    }
}

/// The cell that a variable is bound to.
#[inline]
fn binding_of(v: Variable) -> Option<Cell>
    ensures { MatchOption result (is_bound (slot_of v) ≡ false) (λ c. slot_of v ≡ bound c) }
{
    match v {
        Variable::Open | Variable::Loose | Variable::Constrained(_) => None,
        Variable::Ref(i) => Some(Cell::Ref(i)),
        Variable::Int(z) => Some(Cell::Int(z)),
        Variable::Atom(a) => Some(Cell::Atom(a)),
        Variable::Struct(j) => Some(Cell::Struct(j)),
    }
}

/// A cell, if it is no variable.
#[inline(always)]
fn no_variable(c: Cell) -> Option<Cell>
    ensures root { (h : Cells) → IfSome result (λ r. (r ≡ c) × IsRoot h r) }
    ensures none { result ≡ None ↔ ((k : ℕ) × (c ≡ cell.Ref k)) }
{
    match c {
        Cell::Ref(_) => None,
        Cell::Int(_) | Cell::Atom(_) | Cell::Struct(_) => Some(c),
    }
}

/// Puts a variable on the trail.
#[inline(never)]
fn save(trail: &mut Vec<Saved>, at: usize, was: Variable) -> Result<(), NoMemory>
    ensures saved { OnOk result (trail.new.items
        ≡ trail.old.items ++ record { at = at; was = was } ∷ []) }
    ensures err { OnErr result (trail.new.items ≡ trail.old.items) }
{
    trail.push(Saved { at, was })?;
    Ok(())
}

/// Changes a variable, which is saved where it is older than the newest mark.
#[inline(always)]
fn change(
    variables: &mut Vec<Variable>,
    trail: &mut Vec<Saved>,
    marks: &Vec<Mark>,
    at: usize,
    to: Variable,
) -> Result<(), NoMemory>
    requires { at < length variables.old.items }
    ensures changed { OnOk result (variables.new.items ≡ slice_set variables.old.items at to) }
    ensures trailed { OnOk result (trail.new.items
        ≡ trailed (reverse marks.now.items) trail.old.items (saved_at variables.old.items at)) }
    ensures err { OnErr result ((variables.new.items ≡ variables.old.items) × (trail.new.items
        ≡ trail.old.items)) }
{
    let newest = match marks.last() {
        Some(m) => m.variables,
        None => 0,
    };
    if at < newest {
        save(trail, at, variables[at])?;
    }
    variables[at] = to;
    Ok(())
}

/// A cell becomes an argument, or a variable is bound to it: where it is a loose variable, it is loose no more.
#[inline(always)]
fn hold(variables: &mut Vec<Variable>, c: Cell)
    ensures { variables.new.items ≡ held variables.old.items c }
{
    if let Cell::Ref(i) = c {
        if i < variables.len() {
            if let Variable::Loose = variables[i] {
                variables[i] = Variable::Open;
            }
        }
    }
}

/// The same of each of the cells.
#[inline(always)]
fn hold_all(variables: &mut Vec<Variable>, cells: &[Cell])
    ensures { variables.new.items ≡ held_all variables.old.items cells.now }
{
    for c in cells {
        hold(variables, *c);
    }
}

/// Makes room for so many more behind a list. The error is want of memory.
#[inline(never)]
fn make_room<T>(list: &mut Vec<T>, count: usize) -> Result<(), NoMemory>
    ensures items { list.new.items ≡ list.old.items }
    ensures room { OnOk result (vec_len list.new + count ≤ vec_capacity list.new) }
{
    list.reserve(count)?;
    Ok(())
}

/// Puts copies of cells, which are few, behind the others. The error is want of memory.
#[inline(always)]
fn push_copies(cells: &mut Vec<Cell>, more: &[Cell]) -> Result<(), NoMemory>
    ensures copied { OnOk result (cells.new.items ≡ cells.old.items ++ more.now) }
    ensures err { OnErr result (cells.new.items ≡ cells.old.items) }
{
    if cells.capacity() - cells.len() < more.len() {
        make_room(cells, more.len())?;
    }
    for cell in more {
        cells.push_reserved(*cell);
    }
    Ok(())
}

/// Puts an item behind the others. The error is want of memory.
#[inline(always)]
fn append<T: Copy>(list: &mut Vec<T>, item: T) -> Result<(), NoMemory>
    ensures added { OnOk result (list.new.items ≡ list.old.items ++ item ∷ []) }
    ensures err { OnErr result (list.new.items ≡ list.old.items) }
{
    if list.len() == list.capacity() {
        make_room(list, 1)?;
    }
    list.push_reserved(item);
    Ok(())
}

/// Gives the variables back that were saved behind the first `length` entries of the trail, the newest first.
fn restore(variables: &mut Vec<Variable>, trail: &mut Vec<Saved>, length: usize)
    requires { length ≤ count trail.old.items }
    ensures variables { variables.new.items
        ≡ restored (drop length trail.old.items) variables.old.items }
    ensures trail { trail.new.items ≡ take length trail.old.items }
{
    while trail.len() > length {
        if let Some(saved) = trail.pop() {
            if saved.at < variables.len() {
                variables[saved.at] = saved.was;
            }
        }
    }
}

impl Heap {
    /// A heap with nothing in it, and none below. No memory.
    pub fn new(alloc: Global) -> Heap
        ensures { result ≡ record { now = no_cells; below = [] } }
    {
        Heap {
            variables: Vec::new(alloc),
            args: Vec::new(alloc),
            structures: Vec::new(alloc),
            trail: Vec::new(alloc),
            marks: Vec::new(alloc),
        }
    }

    /// How many variables there are. No memory.
    #[inline]
    pub fn variable_count(&self) -> usize
        ensures { result ≡ length self.now.now.slots }
    {
        self.variables.len()
    }

    /// Whether a cell is of this heap. No memory.
    #[inline]
    pub fn has(&self, c: Cell) -> bool
        ensures { IsTrue result ↔ IsOf self.now.now c }
    {
        match c {
            Cell::Ref(i) => i < self.variables.len(),
            Cell::Struct(j) => j < self.structures.len(),
            _ => true,
        }
    }

    /// The cell at the end of a cell's bindings: a variable that isn't bound, a constant or a compound term. No memory.
    #[inline]
    pub fn root(&self, c: Cell) -> Cell
        requires { IsOf self.now.now c }
        ensures root { IsRoot self.now.now result }
        ensures own { IsOf self.now.now result }
        ensures same { Same self.now.now c result }
        ensures stays { IsRoot self.now.now c → result ≡ c }
        ensures valid { IsHeap self.now.now }
    {
        let mut at = c;
        while let Cell::Ref(i) = at {
            match binding_of(self.variables[i]) {
                Some(next) => at = next,
                None => break,
            }
        }
        at
    }

    /// The cell at the end of a cell's bindings where one look finds it. `None` comes exactly at a variable that is bound to a variable. No
    /// memory.
    #[inline(always)]
    pub fn near_root(&self, c: Cell) -> Option<Cell>
        requires { IsOf self.now.now c }
        ensures root { IfSome result (IsRoot self.now.now) }
        ensures same { IfSome result (Same self.now.now c) }
        ensures own { IfSome result (IsOf self.now.now) }
        ensures near { IfSome result (λ r. r ≡ one_step self.now.now c) }
        ensures none { result ≡ None ↔ IsBoundToVariable self.now.now c }
        ensures valid { IsHeap self.now.now }
    {
        let variables = &self.variables;
        let Cell::Ref(i) = c else {
            return Some(c);
        };
        match binding_of(variables[i]) {
            Some(next) => no_variable(next),
            None => Some(c),
        }
    }

    /// The integer that a cell is, or that it is bound to without other bindings. `None` comes at all others, also at a variable that
    /// comes to an integer by way of another. No memory.
    #[inline(always)]
    pub fn near_int(&self, c: Cell) -> Option<i64>
        requires { IsOf self.now.now c }
        ensures same { IfSome result (λ z. Same self.now.now c (cell.Int z)) }
        ensures near { result ≡ integer_in (one_step self.now.now c) }
        ensures valid { IsHeap self.now.now }
    {
        let variables = &self.variables;
        match c {
            Cell::Int(z) => Some(z),
            Cell::Ref(i) => match variables[i] {
                Variable::Int(z) => Some(z),
                _ => None,
            },
            _ => None,
        }
    }

    /// The open variable that a cell comes to, if it comes to one. No memory.
    #[inline(always)]
    pub fn open_root(&self, c: Cell) -> Option<usize>
        requires { IsOf self.now.now c }
        ensures open { IfSome result (λ i. IsSeen self.now.now c (seen.Open i)) }
        ensures none { result ≡ None → IsNeverOpen self.now.now c }
        ensures valid { IsHeap self.now.now }
    {
        match self.root(c) {
            Cell::Ref(i) => match self.variables[i] {
                Variable::Open | Variable::Loose => Some(i),
                _ => None,
            },
            _ => None,
        }
    }

    /// Whether a variable is known to be in no compound term, so that no look is needed for where it occurs. `false` may come at others too.
    /// No memory.
    #[inline(always)]
    pub fn is_loose(&self, var: usize) -> bool
        requires { var < length self.now.now.slots }
        ensures absent { IsTrue result → (j : ℕ) → IsAbsent self.now.now var (cell.Struct j) }
        ensures valid { IsHeap self.now.now }
    {
        matches!(&self.variables[var], Variable::Loose)
    }

    /// What a cell of this heap comes to. No memory.
    #[inline]
    pub fn deref(&self, c: Cell) -> Seen<'_>
        requires { IsOf self.now.now c }
        ensures seen { IsSeen self.now.now c result }
        ensures at_root { IsRoot self.now.now c → IsTop self.now.now c result }
        ensures valid { IsHeap self.now.now }
    {
        match self.root(c) {
            Cell::Ref(i) => match self.variables[i] {
                Variable::Constrained(k) => Seen::Constrained(i, k),
                _ => Seen::Open(i),
            },
            Cell::Int(z) => Seen::Int(z),
            Cell::Atom(a) => Seen::Atom(a),
            Cell::Struct(j) => {
                let s = self.structures[j];
                Seen::Struct(s.name, &self.args[s.first..s.first + s.count])
            }
        }
    }

    /// A new variable, which is open. The error is want of memory, and the heap is then as before.
    #[inline(always)]
    pub fn new_var(&mut self) -> Result<Cell, NoMemory>
        ensures id { IfOk result (λ c. c ≡ cell.Ref (length self.old.now.slots)) }
        ensures added { OnOk result (self.new ≡ with_now self.old (with_new_slot self.old.now)) }
        ensures err { OnErr result (self.new ≡ self.old) }
        ensures kept { KeepsTerms self.old.now self.new.now }
        ensures valid { IsHeap self.new.now }
    {
        let i = self.variables.len();
        append(&mut self.variables, Variable::Loose)?;
        Ok(Cell::Ref(i))
    }

    /// A new compound term. The error is want of memory, and the heap is then as before.
    #[inline(always)]
    pub fn new_struct(&mut self, f: AtomId, args: &[Cell]) -> Result<Cell, NoMemory>
        requires { All (IsOf self.old.now) args.now }
        ensures id { IfOk result (λ c. c ≡ cell.Struct (length self.old.now.compounds)) }
        ensures added { OnOk result (AddsCompound f args.now self.old self.new) }
        ensures err { OnErr result (self.new ≡ self.old) }
        ensures kept { KeepsTerms self.old.now self.new.now }
        ensures valid { IsHeap self.new.now }
    {
        let j = self.structures.len();
        let first = self.args.len();
        push_copies(&mut self.args, args)?;
        let structure = Structure {
            name: f,
            first,
            count: args.len(),
        };
        append(&mut self.structures, structure)?;
        hold_all(&mut self.variables, args);
        Ok(Cell::Struct(j))
    }

    /// Binds a variable that isn't bound to a cell in which it doesn't occur. The error is want of memory, and the heap is then as
    /// before.
    #[inline(always)]
    pub fn bind(&mut self, var: usize, to: Cell) -> Result<(), NoMemory>
        requires there { var < length self.old.now.slots }
        requires unbound { is_bound (slot_at self.old.now var) ≡ false }
        requires own { IsOf self.old.now to }
        requires absent { IsAbsent self.old.now var to }
        ensures bound { OnOk result (self.new
            ≡ with_now self.old (with_slot self.old.now var (bound to))) }
        ensures err { OnErr result (self.new ≡ self.old) }
        ensures terms { OnOk result (Replaces self.old.now var to self.new.now) }
        ensures valid { IsHeap self.new.now }
    {
        change(
            &mut self.variables,
            &mut self.trail,
            &self.marks,
            var,
            bound_to(to),
        )?;
        hold(&mut self.variables, to);
        Ok(())
    }

    /// Makes an open variable one of the store. The error is want of memory, and the heap is then as before.
    #[inline]
    pub fn constrain(&mut self, var: usize, k: usize) -> Result<(), NoMemory>
        requires there { var < length self.old.now.slots }
        requires open { slot_at self.old.now var ≡ free }
        ensures linked { OnOk result (self.new
            ≡ with_now self.old (with_slot self.old.now var (linked k))) }
        ensures err { OnErr result (self.new ≡ self.old) }
        ensures kept { KeepsTerms self.old.now self.new.now }
        ensures valid { IsHeap self.new.now }
    {
        change(
            &mut self.variables,
            &mut self.trail,
            &self.marks,
            var,
            Variable::Constrained(k),
        )
    }

    /// Puts a copy of the current heap below it, at the cost of four numbers. The error is want of memory, and the heap is then as
    /// before.
    #[inline]
    pub fn mark(&mut self) -> Result<(), NoMemory>
        ensures marked { OnOk result (self.new ≡ with_mark self.old) }
        ensures err { OnErr result (self.new ≡ self.old) }
    {
        let here = Mark {
            variables: self.variables.len(),
            args: self.args.len(),
            structures: self.structures.len(),
            trail: self.trail.len(),
        };
        append(&mut self.marks, here)?;
        Ok(())
    }

    /// Gives the heap below back. No memory.
    pub fn undo_to_mark(&mut self)
        requires { 0 < length self.old.below }
        ensures { self.old.below ≡ self.new.now ∷ self.new.below }
    {
        self.reset_to_mark();
        self.drop_marks(1);
    }

    /// Gives the heap below back, which stays below as well. No memory.
    #[inline]
    pub fn reset_to_mark(&mut self)
        requires { 0 < length self.old.below }
        ensures back { self.old.below ≡ self.new.now ∷ drop 1 self.old.below }
        ensures below { self.new.below ≡ self.old.below }
    {
        if let Some(m) = self.marks.last().copied() {
            restore(&mut self.variables, &mut self.trail, m.trail);
            self.variables.truncate(m.variables);
            self.args.truncate(m.args);
            self.structures.truncate(m.structures);
        }
    }

    /// Takes away the n heaps directly below the current one. No memory.
    pub fn drop_marks(&mut self, n: usize)
        requires { n ≤ length self.old.below }
        ensures { self.new ≡ record self.old { below = drop n self.old.below } }
    {
        let left = self.marks.len() - n;
        self.marks.truncate(left);
    }
}
