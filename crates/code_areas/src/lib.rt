//! The argument registers, the frames and the choice points of a machine that runs code.
//!
//! The registers stay where they are: a choice point copies those that are held behind the ones
//! that older choice points have saved, and going back copies them from there.
//!
//! The slots of all frames lie in one vector. A call leaves a frame where it is, and coming back
//! uses it there. What a choice point keeps is never written: a write into such a frame copies it
//! behind all others first.
#![tactic(auto)]

ghost use Rattle.std.specs.Prelude.{ℕ, List, ◌≡◌, ◌+◌, ◌-◌, ◌<◌, ◌≤◌, [], ◌∷◌, ◌++◌, length, take, drop, reverse, replicate, slice_range, slice_set, Some, None, IfOk, OnOk, OnErr};
ghost use Rattle.std.specs.Vec.{vec_len, vec_capacity};
ghost use Rattle.code_areas.specs.Areas.{cell_at, level_at, holds, level, nothing_held, IsSet, IsLevelSet, IsPut, Point, nothing};
ghost use Rattle.code_areas.specs.AreaFields.{end_of, frames_kept, slots_kept};

use fd_language::NoMemory;
use heap_cells::Cell;
use std::alloc::Global;
use std::marker::Model;
use term_pool::AtomId;

/// What a register or a slot holds: a cell, or a level, which is a number of choice points, or
/// nothing as long as it is not set.
#[derive(Clone, Copy)]
enum Kept {
    Ref(usize),
    Int(i64),
    Atom(AtomId),
    Struct(usize),
    Level(usize),
    Unset,
}

/// A register or a slot. It takes no more memory than a cell.
#[derive(Clone, Copy)]
struct Place {
    kept: Kept,
}

const _: () = prove!(size_of::<Place>() == 16);

impl Model for Place {
    ghost use Rattle.code_areas.specs.Areas.{Held};

    ghost Value = { Held };

    ghost use Rattle.code_areas.specs.HeldCells.{held_by, kept_for};

    ghost view = { λ p. held_by p.kept };

    ghost inverse = { λ o. record { kept = kept_for o } };
}

/// What a call has left behind: where to go on, the slots from `start` to `end`, and the frame
/// behind it by its number.
#[derive(Clone, Copy)]
struct Frame {
    to: usize,
    start: usize,
    end: usize,
    behind: usize,
}

/// A choice point: the place to come back to, where its registers begin among the saved ones, where
/// the slots of its frame begin and how many these are, the lengths and the newest frame of then,
/// and what was noted.
#[derive(Clone, Copy)]
struct Mark {
    place: usize,
    first: usize,
    base: usize,
    size: usize,
    slots: usize,
    frames: usize,
    newest: usize,
    noted: usize,
}

/// Argument registers, the slots of the current frame, continuations and choice points, and a number
/// of choice points that was noted.
///
/// Registers and slots are numbered from 0. A number past the registers' end is one that is not
/// set.
#[derive(Drop)]
pub struct Areas {
    cells: Vec<Place>,
    held: usize,
    saved: Vec<Place>,
    slots: Vec<Place>,
    base: usize,
    size: usize,
    floor: usize,
    frames: Vec<Frame>,
    newest: usize,
    marks: Vec<Mark>,
    noted: usize,
}

impl Model for Areas {
    ghost use Rattle.code_areas.specs.Areas.{Contents};

    ghost Value = { Contents };

    ghost use Rattle.std.specs.Prelude.{length, take, reverse};
    ghost use Rattle.std.specs.Vec.{vec_capacity};
    ghost use Rattle.code_areas.specs.AreaFields.{seen, AreStored};

    ghost view = { λ a. seen a.noted (take a.held a.cells.items) a.saved.items
        (record {
          slots = a.slots.items;
          base = a.base;
          size = a.size;
          frames = a.frames.items;
          newest = a.newest;
        }) (reverse a.marks.items) };

    ghost invariant = { λ a. AreStored a.held (length a.cells.items) (vec_capacity a.slots)
        a.saved.items a.floor
        (record {
          slots = a.slots.items;
          base = a.base;
          size = a.size;
          frames = a.frames.items;
          newest = a.newest;
        }) (reverse a.marks.items) };
}

impl Areas {
    /// Nothing is set, and there is neither a frame nor a choice point.
    pub fn new(alloc: Global) -> Areas
        ensures { result ≡ nothing }
    {
        Areas {
            cells: Vec::new(alloc),
            held: 0,
            saved: Vec::new(alloc),
            slots: Vec::new(alloc),
            base: 0,
            size: 0,
            floor: 0,
            frames: Vec::new(alloc),
            newest: 0,
            marks: Vec::new(alloc),
            noted: 0,
        }
    }

    /// The cell in the register `n`.
    #[inline(always)]
    pub fn register(&self, n: usize) -> Cell
        requires { IsSet self.now.registers n }
        ensures { cell_at self.now.registers n ≡ Some result }
    {
        set_cell(&self.cells, n)
    }

    /// Puts a cell into the register `n`. The error is want of memory.
    #[inline(always)]
    pub fn set_register(&mut self, n: usize, cell: Cell) -> Result<(), NoMemory>
        ensures put { OnOk result (IsPut self.old.registers n cell self.new.registers) }
        ensures same { self.new ≡ record self.old { registers = self.new.registers } }
        ensures unchanged { OnErr result (self.new ≡ self.old) }
    {
        self.held = put_cell(&mut self.cells, self.held, n, cell)?;
        Ok(())
    }

    /// Forgets the registers from the number `n` on. No memory.
    #[inline]
    pub fn keep_registers(&mut self, n: usize)
        ensures { self.new ≡ record self.old { registers = take n self.old.registers } }
    {
        if n < self.held {
            self.held = n;
        }
    }

    /// The cell in the slot `n`.
    #[inline(always)]
    pub fn slot(&self, n: usize) -> Cell
        requires { IsSet self.now.slots n }
        ensures { cell_at self.now.slots n ≡ Some result }
    {
        set_cell(&self.slots, self.base + n)
    }

    /// How many slots the current frame has: none where there is no frame.
    pub fn slots(&self) -> usize
        ensures { result ≡ length self.now.slots }
    {
        self.size
    }

    /// Puts a cell into the slot `n` of the current frame. No memory.
    #[inline(always)]
    pub fn set_slot(&mut self, n: usize, cell: Cell)
        requires { n < length self.old.slots }
        ensures { self.new
            ≡ record self.old { slots = slice_set self.old.slots n (holds cell) } }
    {
        self.set_place(n, place_of(cell));
    }

    /// The level in the slot `n`.
    #[inline]
    pub fn level(&self, n: usize) -> usize
        requires { IsLevelSet self.now.slots n }
        ensures { level_at self.now.slots n ≡ Some result }
    {
        set_level_of(&self.slots, self.base + n)
    }

    /// Puts a level into the slot `n` of the current frame. No memory.
    #[inline]
    pub fn set_level(&mut self, n: usize, points: usize)
        requires { n < length self.old.slots }
        ensures { self.new
            ≡ record self.old { slots = slice_set self.old.slots n (level points) } }
    {
        self.set_place(n, level_place(points));
    }

    /// Puts a place into the slot `n` of the current frame, which is copied first where a choice
    /// point keeps it. No memory.
    #[inline(always)]
    fn set_place(&mut self, n: usize, place: Place)
        requires { n < length self.old.slots }
        ensures { self.new
            ≡ record self.old { slots = slice_set self.old.slots n place } }
    {
        self.base = put_place(&mut self.slots, self.base, self.size, self.floor, n, place);
    }

    /// Begins a frame of `n` slots, of which none is set. The error is want of memory.
    #[inline(always)]
    pub fn allocate(&mut self, n: usize) -> Result<(), NoMemory>
        requires none { length self.old.slots ≡ 0 }
        ensures slots { OnOk result (self.new ≡ record self.old { slots = replicate n nothing_held }) }
        ensures unchanged { OnErr result (self.new ≡ self.old) }
    {
        make_room(&mut self.slots, n)?;
        self.base = self.slots.len();
        self.size = n;
        put_unset(&mut self.slots, n);
        Ok(())
    }

    /// Ends the current frame. No memory.
    #[inline(always)]
    pub fn deallocate(&mut self)
        ensures { self.new ≡ record self.old { slots = [] } }
    {
        self.slots.truncate(greater(self.base, self.floor));
        self.size = 0;
    }

    /// Leaves the current frame to a call, which is to go on at the place `to`. The error is want
    /// of memory.
    #[inline(always)]
    pub fn call(&mut self, to: usize) -> Result<(), NoMemory>
        ensures called { OnOk result (self.new ≡ record self.old {
          slots = [];
          returns = record { to = to; slots = self.old.slots } ∷ self.old.returns;
        }) }
        ensures unchanged { OnErr result (self.new ≡ self.old) }
    {
        self.frames.push(Frame {
            to,
            start: self.base,
            end: self.base + self.size,
            behind: self.newest,
        })?;
        self.newest = self.frames.len();
        self.base = self.slots.len();
        self.size = 0;
        Ok(())
    }

    /// Goes back to the newest continuation: its slots are the current ones, and the result is its
    /// place. Where no choice point is newer, its memory is given back. The error is want of
    /// memory.
    #[inline(always)]
    pub fn proceed(&mut self) -> Result<usize, NoMemory>
        requires { 0 < length self.old.returns }
        ensures returned { IfOk result (λ to. self.old.returns
            ≡ record { to = to; slots = self.new.slots } ∷ self.new.returns) }
        ensures same { self.new
            ≡ record self.old { slots = self.new.slots; returns = self.new.returns } }
        ensures unchanged { OnErr result (self.new ≡ self.old) }
    {
        let k = self.newest - 1;
        let frame = self.frames[k];
        let size = frame.end - frame.start;
        room_to_copy(&mut self.slots, frame.start, size, self.floor)?;
        self.frames.truncate(greater(k, kept_frames(&self.marks)));
        self.slots.truncate(greater(frame.end, self.floor));
        self.base = frame.start;
        self.size = size;
        self.newest = frame.behind;
        Ok(frame.to)
    }

    /// How many choice points there are.
    pub fn points(&self) -> usize
        ensures { result ≡ length self.now.points }
    {
        self.marks.len()
    }

    /// Notes how many choice points there are. No memory.
    #[inline(always)]
    pub fn note(&mut self)
        ensures { self.new ≡ record self.old { noted = length self.old.points } }
    {
        self.noted = self.marks.len();
    }

    /// How many choice points there were when it was noted.
    #[inline]
    pub fn noted(&self) -> usize
        ensures { result ≡ self.now.noted }
    {
        self.noted
    }

    /// Gives back the frames and the slots that neither what is current nor a continuation nor a
    /// choice point needs. No memory.
    fn give_back(&mut self)
        ensures { self.new ≡ self.old }
    {
        self.frames
            .truncate(greater(self.newest, kept_frames(&self.marks)));
        self.slots
            .truncate(greater(self.base + self.size, self.floor));
    }

    /// Moves the current frame down to what a continuation or a choice point needs. No memory.
    fn lower_frame(&mut self)
        ensures { self.new ≡ self.old }
    {
        let end = greater(end_at(&self.frames, self.newest), self.floor);
        if end < self.base {
            move_down(&mut self.slots, end, self.base);
            self.base = end;
        }
    }

    /// Drops the choice points above the oldest `k`, and gives back what only they kept. What is
    /// current stays. No memory.
    pub fn drop_points(&mut self, k: usize)
        requires { k ≤ length self.old.points }
        ensures { self.new
            ≡ record self.old { points = drop (length self.old.points - k) self.old.points } }
    {
        if k == self.marks.len() {
            return;
        }
        let first = self.marks[k].first;
        self.saved.truncate(first);
        self.marks.truncate(k);
        self.floor = kept_slots(&self.marks);
        self.give_back();
        self.lower_frame();
    }

    /// Makes a choice point of all that is current, to come back to at `place`. The error is want
    /// of memory.
    pub fn push_point(&mut self, place: usize) -> Result<(), NoMemory>
        ensures pushed { OnOk result (self.new ≡ record self.old {
          points = record {
            place = place;
            registers = self.old.registers;
            slots = self.old.slots;
            returns = self.old.returns;
            noted = self.old.noted;
          } ∷ self.old.points;
        }) }
        ensures unchanged { OnErr result (self.new ≡ self.old) }
    {
        let mark = Mark {
            place,
            first: self.saved.len(),
            base: self.base,
            size: self.size,
            slots: self.slots.len(),
            frames: self.frames.len(),
            newest: self.newest,
            noted: self.noted,
        };
        self.marks.reserve(1)?;
        make_room(&mut self.slots, self.size)?;
        make_room(&mut self.saved, self.held)?;
        put_first(&mut self.saved, &self.cells, self.held);
        self.marks.push_reserved(mark);
        self.floor = mark.slots;
        Ok(())
    }

    /// The place of the newest choice point.
    #[inline]
    pub fn point_place(&self) -> usize
        requires { 0 < length self.now.points }
        ensures { (p : Point) (ps : List Point) → self.now.points ≡ p ∷ ps → result ≡ p.place }
    {
        match self.marks.last() {
            Some(mark) => mark.place,
            None => unreachable!(),
        }
    }

    /// Puts a place into the newest choice point, to come back to there. No memory.
    #[inline]
    pub fn set_point_place(&mut self, place: usize)
        requires { 0 < length self.old.points }
        ensures { (p : Point) (ps : List Point) → self.old.points ≡ p ∷ ps → self.new
            ≡ record self.old { points = record p { place = place } ∷ ps } }
    {
        let mark = self.marks.pop().unwrap();
        self.marks.push_reserved(Mark { place, ..mark });
    }

    /// Goes back to the newest choice point, which stays: what is current is what it has saved, and
    /// the result is its place. No memory.
    pub fn restore_point(&mut self) -> usize
        requires { 0 < length self.old.points }
        ensures back { self.new.points ≡ record {
          place = result;
          registers = self.new.registers;
          slots = self.new.slots;
          returns = self.new.returns;
          noted = self.new.noted;
        } ∷ drop 1 self.new.points }
        ensures same { self.new.points ≡ self.old.points }
    {
        let kept = self.marks.pop().unwrap();
        self.held = put_back(&mut self.cells, &self.saved, kept.first);
        self.slots.truncate(kept.slots);
        self.frames.truncate(kept.frames);
        self.base = kept.base;
        self.size = kept.size;
        self.newest = kept.newest;
        self.noted = kept.noted;
        self.marks.push_reserved(kept);
        kept.place
    }

    /// Goes back to the newest choice point, which is taken away: what is current is what it has
    /// saved, and the result is its place. No memory.
    pub fn pop_point(&mut self) -> usize
        requires { 0 < length self.old.points }
        ensures { self.old.points ≡ record {
          place = result;
          registers = self.new.registers;
          slots = self.new.slots;
          returns = self.new.returns;
          noted = self.new.noted;
        } ∷ self.new.points }
    {
        let mark = self.marks.pop().unwrap();
        self.held = put_back(&mut self.cells, &self.saved, mark.first);
        self.saved.truncate(mark.first);
        self.slots.truncate(mark.slots);
        self.frames.truncate(mark.frames);
        self.floor = kept_slots(&self.marks);
        self.base = mark.base;
        self.size = mark.size;
        self.newest = mark.newest;
        self.noted = mark.noted;
        mark.place
    }
}

/// A place that holds the cell.
#[inline(always)]
fn place_of(cell: Cell) -> Place
    ensures { result ≡ holds cell }
{
    let kept = match cell {
        Cell::Ref(variable) => Kept::Ref(variable),
        Cell::Int(number) => Kept::Int(number),
        Cell::Atom(atom) => Kept::Atom(atom),
        Cell::Struct(structure) => Kept::Struct(structure),
    };
    Place { kept }
}

/// A place that holds the level.
#[inline(always)]
fn level_place(points: usize) -> Place
    ensures { result ≡ level points }
{
    Place {
        kept: Kept::Level(points),
    }
}

/// A place where nothing is set.
#[inline(always)]
fn unset() -> Place
    ensures { result ≡ nothing_held }
{
    Place { kept: Kept::Unset }
}

/// The cell at a number where one is set.
#[inline(always)]
fn set_cell(cells: &[Place], at: usize) -> Cell
    requires { IsSet cells.now at }
    ensures { cell_at cells.now at ≡ Some result }
{
    let place = &cells[at];
    match place.kept {
        Kept::Ref(variable) => Cell::Ref(variable),
        Kept::Int(number) => Cell::Int(number),
        Kept::Atom(atom) => Cell::Atom(atom),
        Kept::Struct(structure) => Cell::Struct(structure),
        Kept::Level(_) | Kept::Unset => unreachable!(),
    }
}

/// The level at a number where one is set.
#[inline]
fn set_level_of(cells: &[Place], at: usize) -> usize
    requires { IsLevelSet cells.now at }
    ensures { level_at cells.now at ≡ Some result }
{
    let place = &cells[at];
    match place.kept {
        Kept::Level(points) => points,
        _ => unreachable!(),
    }
}

/// Makes room for so many more places. The error is want of memory.
#[inline(always)]
fn make_room(places: &mut Vec<Place>, count: usize) -> Result<(), NoMemory>
    ensures items { places.new.items ≡ places.old.items }
    ensures room { OnOk result (vec_len places.new + count ≤ vec_capacity places.new) }
    ensures more { vec_capacity places.old ≤ vec_capacity places.new }
{
    if places.capacity() - places.len() < count {
        return reserve(places, count);
    }
    Ok(())
}

/// Makes room for a copy of a frame that begins below the floor. The error is want of memory.
#[inline(always)]
fn room_to_copy(
    slots: &mut Vec<Place>,
    start: usize,
    size: usize,
    floor: usize,
) -> Result<(), NoMemory>
    ensures items { slots.new.items ≡ slots.old.items }
    ensures room { OnOk result (start < floor → vec_len slots.new + size
        ≤ vec_capacity slots.new) }
    ensures more { vec_capacity slots.old ≤ vec_capacity slots.new }
{
    if start < floor {
        return make_room(slots, size);
    }
    Ok(())
}

/// Makes room for so many more places, where there is none. The error is want of memory.
#[cold]
#[inline(never)]
fn reserve(places: &mut Vec<Place>, count: usize) -> Result<(), NoMemory>
    ensures items { places.new.items ≡ places.old.items }
    ensures room { OnOk result (vec_len places.new + count ≤ vec_capacity places.new) }
    ensures more { vec_capacity places.old ≤ vec_capacity places.new }
{
    places.reserve(count)?;
    Ok(())
}

/// Puts the first so many of some places behind the last one. There is room for them.
#[inline(always)]
fn put_first(places: &mut Vec<Place>, from: &[Place], count: usize)
    requires there { count ≤ length from.now }
    requires room { vec_len places.old + count ≤ vec_capacity places.old }
    ensures { places.new.items ≡ places.old.items ++ take count from.now }
{
    for at in 0..count {
        places.push_reserved(from[at]);
    }
}

/// Puts copies of the places from `start` to `end` behind the last one. There is room for them.
#[inline(always)]
fn put_copies(places: &mut Vec<Place>, start: usize, end: usize)
    requires order { start ≤ end }
    requires end { end ≤ length places.old.items }
    requires room { vec_len places.old + (end - start) ≤ vec_capacity places.old }
    ensures items { places.new.items
        ≡ places.old.items ++ slice_range places.old.items start end }
    ensures same { vec_capacity places.new ≡ vec_capacity places.old }
{
    for at in start..end {
        let place = places[at];
        places.push_reserved(place);
    }
}

/// Puts so many places behind the last one, of which none is set. There is room for them.
#[inline(always)]
fn put_unset(places: &mut Vec<Place>, count: usize)
    requires { vec_len places.old + count ≤ vec_capacity places.old }
    ensures items { places.new.items ≡ places.old.items ++ replicate count nothing_held }
    ensures room { vec_len places.new ≡ vec_len places.old + count }
    ensures same { vec_capacity places.new ≡ vec_capacity places.old }
{
    for _ in 0..count {
        places.push_reserved(unset());
    }
}

/// Puts a place into the slot `n` of the frame that begins at `base`: where that lies below the
/// floor, of a copy above all slots. There is room for that. The result is where the frame begins.
#[inline(always)]
fn put_place(
    slots: &mut Vec<Place>,
    base: usize,
    size: usize,
    floor: usize,
    n: usize,
    place: Place,
) -> usize
    requires there { base + size ≤ length slots.old.items }
    requires in_frame { n < size }
    requires room { base < floor → vec_len slots.old + size ≤ vec_capacity slots.old }
    ensures kept { floor ≤ base → (result ≡ base)
        × (slots.new.items ≡ slice_set slots.old.items (base + n) place) }
    ensures copied { base < floor → (result ≡ length slots.old.items)
        × (slots.new.items ≡ slice_set (slots.old.items
        ++ slice_range slots.old.items base (base + size)) (result + n) place) }
    ensures same { vec_capacity slots.new ≡ vec_capacity slots.old }
{
    if base < floor {
        let copy = copy_frame(slots, base, size);
        slots[copy + n] = place;
        return copy;
    }
    slots[base + n] = place;
    base
}

/// Copies the frame that begins at `base` behind the last place. There is room for it. The result is
/// where it begins.
#[inline(never)]
fn copy_frame(slots: &mut Vec<Place>, base: usize, size: usize) -> usize
    requires there { base + size ≤ length slots.old.items }
    requires room { vec_len slots.old + size ≤ vec_capacity slots.old }
    ensures items { slots.new.items
        ≡ slots.old.items ++ slice_range slots.old.items base (base + size) }
    ensures same { vec_capacity slots.new ≡ vec_capacity slots.old }
    ensures place { result ≡ length slots.old.items }
{
    let end = slots.len();
    put_copies(slots, base, base + size);
    end
}

/// Puts a cell into the register `n`, where so many are held. The result is how many are held now.
#[inline(always)]
fn put_cell(cells: &mut Vec<Place>, held: usize, n: usize, cell: Cell) -> Result<usize, NoMemory>
    requires { held ≤ length cells.old.items }
    ensures put { IfOk result (λ now. IsPut (take held cells.old.items) n cell
        (take now cells.new.items)) }
    ensures within { IfOk result (λ now. now ≤ length cells.new.items) }
    ensures longer { length cells.old.items ≤ length cells.new.items }
    ensures unchanged { OnErr result (cells.new.items ≡ cells.old.items) }
{
    if n < held {
        cells[n] = place_of(cell);
        return Ok(held);
    }
    if n == held && n < cells.len() {
        cells[n] = place_of(cell);
        return Ok(n + 1);
    }
    put_beyond(cells, held, n, cell)
}

/// Puts a cell into the register `n` past those that are held: those between are not set. The result
/// is how many are held now.
#[inline(never)]
fn put_beyond(cells: &mut Vec<Place>, held: usize, n: usize, cell: Cell) -> Result<usize, NoMemory>
    requires within { held ≤ length cells.old.items }
    requires beyond { held ≤ n }
    ensures put { IfOk result (λ now. IsPut (take held cells.old.items) n cell
        (take now cells.new.items)) }
    ensures within { IfOk result (λ now. now ≤ length cells.new.items) }
    ensures longer { length cells.old.items ≤ length cells.new.items }
    ensures unchanged { OnErr result (cells.new.items ≡ cells.old.items) }
{
    if n < cells.len() {
        put_further(cells, held, n, cell);
        return Ok(n + 1);
    }
    put_new(cells, held, n, cell)
}

/// Puts a cell into the register `n`, where fewer were ever held: those between are not set. The
/// result is how many are held now.
#[cold]
#[inline(never)]
fn put_new(cells: &mut Vec<Place>, held: usize, n: usize, cell: Cell) -> Result<usize, NoMemory>
    requires within { held ≤ length cells.old.items }
    requires beyond { held ≤ n }
    ensures put { IfOk result (λ now. IsPut (take held cells.old.items) n cell
        (take now cells.new.items)) }
    ensures within { IfOk result (λ now. now ≤ length cells.new.items) }
    ensures longer { length cells.old.items ≤ length cells.new.items }
    ensures unchanged { OnErr result (cells.new.items ≡ cells.old.items) }
{
    let now = n.checked_add(1).ok_or(NoMemory)?;
    fill_to(cells, now)?;
    put_further(cells, held, n, cell);
    Ok(now)
}

/// Puts a cell into the place `n`, and sets none of those from `held` on before it.
#[inline(always)]
fn put_further(places: &mut [Place], held: usize, n: usize, cell: Cell)
    requires order { held ≤ n }
    requires there { n < length places.old }
    ensures put { IsPut (take held places.old) n cell (take (n + 1) places.new) }
    ensures same { length places.new ≡ length places.old }
{
    forget(places, held, n);
    places[n] = place_of(cell);
}

/// Fills up to so many places at least: the further ones are not set. The error is want of memory.
#[cold]
#[inline(never)]
fn fill_to(places: &mut Vec<Place>, count: usize) -> Result<(), NoMemory>
    ensures kept { (k : ℕ) → k ≤ length places.old.items
        → take k places.new.items ≡ take k places.old.items }
    ensures filled { OnOk result (count ≤ length places.new.items) }
    ensures longer { length places.old.items ≤ length places.new.items }
    ensures unchanged { OnErr result (places.new.items ≡ places.old.items) }
{
    if places.len() < count {
        let missing = count - places.len();
        make_room(places, missing)?;
        put_unset(places, missing);
    }
    Ok(())
}

/// Sets none of the places from `start` to `end`.
#[inline(always)]
fn forget(places: &mut [Place], start: usize, end: usize)
    requires order { start ≤ end }
    requires there { end ≤ length places.old }
    ensures forgotten { take end places.new
        ≡ take start places.old ++ replicate (end - start) nothing_held }
    ensures same { length places.new ≡ length places.old }
{
    for at in start..end {
        places[at] = unset();
    }
}

/// Copies the saved places from the number `first` on to the front of the registers. The result is
/// how many these are.
#[inline(always)]
fn put_back(cells: &mut [Place], saved: &[Place], first: usize) -> usize
    requires order { first ≤ length saved.now }
    requires fitting { length saved.now ≤ first + length cells.old }
    ensures copied { take result cells.new ≡ drop first saved.now }
    ensures within { result ≤ length cells.new }
    ensures same { length cells.new ≡ length cells.old }
{
    let held = saved.len() - first;
    for at in 0..held {
        cells[at] = saved[first + at];
    }
    held
}

/// How many frames the newest choice point keeps.
fn kept_frames(marks: &[Mark]) -> usize
    ensures { result ≡ frames_kept (reverse marks.now) }
{
    match marks.last() {
        Some(mark) => mark.frames,
        None => 0,
    }
}

/// How many slots the newest choice point keeps.
fn kept_slots(marks: &[Mark]) -> usize
    ensures { result ≡ slots_kept (reverse marks.now) }
{
    match marks.last() {
        Some(mark) => mark.slots,
        None => 0,
    }
}

/// Where the slots of the frame with such a number end: 0 is none.
fn end_at(frames: &[Frame], newest: usize) -> usize
    requires { newest ≤ length frames.now }
    ensures { result ≡ end_of frames.now newest }
{
    if newest == 0 {
        return 0;
    }
    frames[newest - 1].end
}

/// The greater of two numbers.
#[inline]
fn greater(a: usize, b: usize) -> usize
    ensures first { a ≤ result }
    ensures second { b ≤ result }
    ensures least { (c : ℕ) → a ≤ c → b ≤ c → result ≤ c }
{
    if a < b { b } else { a }
}

/// Moves the places from the number `from` on down to the number `to`. No memory.
#[inline]
fn move_down(places: &mut Vec<Place>, to: usize, from: usize)
    requires order { to ≤ from }
    requires there { from ≤ length places.old.items }
    ensures items { places.new.items ≡ take to places.old.items ++ drop from places.old.items }
    ensures same { vec_capacity places.new ≡ vec_capacity places.old }
{
    let count = places.len() - from;
    places.copy_within(from.., to);
    places.truncate(to + count);
}

#[cfg(test)]
mod tests;
