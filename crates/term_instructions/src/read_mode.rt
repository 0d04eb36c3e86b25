//! Arguments of a structure that is there.

ghost use Rattle.std.specs.Prelude.{◌≡◌, ◌-◌, ◌<◌, ◌≤◌, length, [], All, IfOk, Some, None, if◌then◌else◌};
ghost use Rattle.heap_cells.specs.declared.Cell.TheVariants as cell;
ghost use Rattle.branch_state.specs.States.{IsCell};
ghost use Rattle.code_safety.specs.Safety.{IsSafe};
ghost use Rattle.term_instructions.specs.declared.read_mode.Look.TheVariants as look;
ghost use Rattle.branch_state.specs.Steps.{AreTouchesOf};
ghost use Rattle.term_instructions.specs.ReadMode.{IsNextPlace, ReadsOn, ReadsAll, TellsEqual, LooksOn, IsNextLook, TakesOne, StartsTo};

use crate::arguments::{Argument, argument_at};
use crate::registers::{read, write};
use branch_state::BranchState;
use code_areas::Areas;
use code_safety::behind;
use fd_language::NoMemory;
use heap_cells::Cell;
use propagate_queue::Agenda;
use term_pool::AtomId;
use unify_core::Touch;
use wam_code::{Code, CodeArea};

/// The place of the next instruction, and the number of the next argument.
#[derive(Clone, Copy)]
pub(crate) struct ReadPosition {
    pub at: usize,
    pub next: usize,
}

/// What a look at an argument comes to.
#[derive(Clone, Copy)]
pub(crate) enum Look {
    /// It is what the code gives.
    Read(ReadPosition),
    /// It can't be what the code gives.
    Refused,
    /// A look doesn't tell.
    Unclear,
}

/// How far a look at registers alone reads a structure's arguments.
#[derive(Clone, Copy)]
pub(crate) enum Start {
    /// All are read, up to the place.
    All(usize),
    /// Those before the position are read.
    Part(ReadPosition),
}

/// What it comes to that an argument and what the code gives are constants of one kind.
#[inline(always)]
fn look_if(equal: bool, to: ReadPosition) -> Look
    ensures { result ≡ (if equal then look.Read to else look.Refused) }
{
    if equal { Look::Read(to) } else { Look::Refused }
}

/// Whether the end of an argument's bindings is an atom.
#[inline(always)]
fn look_at_atom(root: Cell, c: AtomId, to: ReadPosition) -> Look
    ensures { TellsEqual root (cell.Atom c) to result }
{
    match root {
        Cell::Atom(a) => look_if(a == c, to),
        _ => Look::Unclear,
    }
}

/// Whether the end of an argument's bindings is an integer.
#[inline(always)]
fn look_at_integer(root: Cell, z: i64, to: ReadPosition) -> Look
    ensures { TellsEqual root (cell.Int z) to result }
{
    match root {
        Cell::Int(x) => look_if(x == z, to),
        _ => Look::Unclear,
    }
}

/// Reads the next argument, or those that one instruction leaves out, where a look at it is
/// enough. The error is want of memory.
#[inline(always)]
fn look_at_argument<A: Agenda + Drop>(
    code: &CodeArea,
    from: ReadPosition,
    branch: &BranchState<A>,
    areas: &mut Areas,
    cells: &[Cell],
) -> Result<Look, NoMemory>
    requires safe { IsSafe code.now branch.now from.at (length cells.now - from.next) areas.old }
    requires more { from.next < length cells.now }
    requires own { All (IsCell branch.now) cells.now }
    ensures looks { IfOk result (LooksOn code.now cells.now branch.now from areas.old areas.new) }
    ensures place { IfOk result (IsNextLook from.at) }
{
    let next = from.next;
    let cell = cells[next];
    let at = behind(code, from.at);
    let to = ReadPosition { at, next: next + 1 };
    match argument_at(code, from.at) {
        Argument::Variable(r) => {
            write(areas, r, cell)?;
            Ok(Look::Read(to))
        }
        Argument::Value(_) => Ok(Look::Unclear),
        Argument::Constant(c) => Ok(look_at_atom(branch.heap().root(cell), c, to)),
        Argument::Integer(z) => Ok(look_at_integer(branch.heap().root(cell), z, to)),
        Argument::Void(n) => Ok(Look::Read(ReadPosition { at, next: next + n })),
    }
}

/// Reads the next argument where the code gives a register for it that is met first, and tells
/// whether it does. The error is want of memory.
#[inline(always)]
fn look_at_register<A: Agenda + Drop>(
    code: &CodeArea,
    from: ReadPosition,
    branch: &BranchState<A>,
    areas: &mut Areas,
    cells: &[Cell],
) -> Result<bool, NoMemory>
    requires safe { IsSafe code.now branch.now from.at (length cells.now - from.next) areas.old }
    requires more { from.next < length cells.now }
    requires own { All (IsCell branch.now) cells.now }
    ensures { IfOk result (TakesOne code.now cells.now branch.now from areas.old areas.new) }
{
    let cell = cells[from.next];
    match *code.code_at(from.at) {
        Code::UnifyVariable(r) => {
            write(areas, r, cell)?;
            Ok(true)
        }
        _ => Ok(false),
    }
}

/// Reads a structure's arguments from the first on where they are two, as long as the code gives
/// registers for them that are met first. The error is want of memory.
#[inline(always)]
pub(crate) fn look_at_registers<A: Agenda + Drop>(
    code: &CodeArea,
    at: usize,
    branch: &BranchState<A>,
    areas: &mut Areas,
    cells: &[Cell],
) -> Result<Start, NoMemory>
    requires safe { IsSafe code.now branch.now at (length cells.now) areas.old }
    requires own { All (IsCell branch.now) cells.now }
    ensures { IfOk result (StartsTo code.now cells.now branch.now at areas.old areas.new) }
{
    let first = ReadPosition { at, next: 0 };
    if cells.len() != 2 {
        return Ok(Start::Part(first));
    }
    if !look_at_register(code, first, branch, areas, cells)? {
        return Ok(Start::Part(first));
    }
    let middle = behind(code, at);
    let second = ReadPosition {
        at: middle,
        next: 1,
    };
    if !look_at_register(code, second, branch, areas, cells)? {
        return Ok(Start::Part(second));
    }
    Ok(Start::All(behind(code, middle)))
}

/// Reads arguments as long as a look at each is enough: the heap stays as it is. The result is
/// the place behind them, and how many they are; `None` comes where one of them can't be what the
/// code gives. The error is want of memory.
#[inline(always)]
pub(crate) fn look_at_arguments<A: Agenda + Drop>(
    code: &CodeArea,
    from: ReadPosition,
    branch: &BranchState<A>,
    areas: &mut Areas,
    cells: &[Cell],
) -> Result<Option<ReadPosition>, NoMemory>
    requires safe { IsSafe code.now branch.now from.at (length cells.now - from.next) areas.old }
    requires within { from.next ≤ length cells.now }
    requires own { All (IsCell branch.now) cells.now }
    ensures { IfOk result (ReadsOn code.now cells.now branch.now [] from areas.old branch.now []
        areas.new) }
{
    let mut now = from;
    'arguments: while now.next < cells.len() {
        match look_at_argument(code, now, branch, areas, cells)? {
            Look::Read(to) => now = to,
            Look::Refused => return Ok(None),
            Look::Unclear => return Ok(Some(now)),
        }
    }
    Ok(Some(now))
}

/// Where reading goes on, if two cells were equal.
#[inline(always)]
fn reading_if(equal: bool, to: ReadPosition) -> Option<ReadPosition>
    ensures { result ≡ (if equal then Some to else None) }
{
    if equal { Some(to) } else { None }
}

/// Reads the next argument, or those that one instruction leaves out. `None` comes where it can't
/// be what the code gives. The error is want of memory.
#[inline(always)]
fn read_argument<A: Agenda + Drop>(
    code: &CodeArea,
    from: ReadPosition,
    branch: &mut BranchState<A>,
    areas: &mut Areas,
    cells: &[Cell],
    touches: &mut Vec<Touch>,
) -> Result<Option<ReadPosition>, NoMemory>
    requires safe { IsSafe code.now branch.old from.at (length cells.now - from.next) areas.old }
    requires more { from.next < length cells.now }
    requires own { All (IsCell branch.old) cells.now }
    requires told { AreTouchesOf branch.old touches.old.items }
    ensures reads { IfOk result (ReadsOn code.now cells.now branch.old touches.old.items from
        areas.old branch.new touches.new.items areas.new) }
    ensures place { IfOk result (IsNextPlace from.at) }
{
    let cell = cells[from.next];
    let at = behind(code, from.at);
    let to = ReadPosition {
        at,
        next: from.next + 1,
    };
    match argument_at(code, from.at) {
        Argument::Variable(r) => {
            write(areas, r, cell)?;
            Ok(Some(to))
        }
        Argument::Value(r) => {
            let held = read(areas, r);
            let equal = branch.unify(cell, held, touches)?;
            Ok(reading_if(equal, to))
        }
        Argument::Constant(c) => {
            let equal = branch.unify(cell, Cell::Atom(c), touches)?;
            Ok(reading_if(equal, to))
        }
        Argument::Integer(z) => {
            let equal = branch.unify(cell, Cell::Int(z), touches)?;
            Ok(reading_if(equal, to))
        }
        Argument::Void(n) => Ok(Some(ReadPosition {
            at,
            next: from.next + n,
        })),
    }
}

/// Reads all arguments, and gives the place behind their instructions. `None` comes where they
/// can't be what the code gives. The error is want of memory.
#[inline(always)]
pub(crate) fn read_arguments<A: Agenda + Drop>(
    code: &CodeArea,
    from: ReadPosition,
    branch: &mut BranchState<A>,
    areas: &mut Areas,
    cells: &[Cell],
    touches: &mut Vec<Touch>,
) -> Result<Option<usize>, NoMemory>
    requires safe { IsSafe code.now branch.old from.at (length cells.now - from.next) areas.old }
    requires within { from.next ≤ length cells.now }
    requires own { All (IsCell branch.old) cells.now }
    requires told { AreTouchesOf branch.old touches.old.items }
    ensures { IfOk result (ReadsAll code.now cells.now branch.old touches.old.items from areas.old
        branch.new touches.new.items areas.new) }
{
    let mut now = from;
    'arguments: while now.next < cells.len() {
        let Some(to) = read_argument(code, now, branch, areas, cells, touches)? else {
            return Ok(None);
        };
        now = to;
    }
    Ok(Some(now.at))
}
