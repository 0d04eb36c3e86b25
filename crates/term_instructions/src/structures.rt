//! Structures of a clause, with the unify group behind them.

ghost use Rattle.std.specs.Prelude.{◌≡◌, ◌-◌, ◌<◌, ◌≤◌, ◌++◌, [], length, drop, All, IfOk, OnOk};
ghost use Rattle.heap_cells.specs.Cells.{free, slot_at};
ghost use Rattle.branch_state.specs.States.{IsCell, IsSameBelow, IsSound};
ghost use Rattle.wam_code.specs.declared.instruction.Code.TheVariants as step;
ghost use Rattle.wam_code.specs.Area.{Holds};
ghost use Rattle.wam_code.specs.VerifiedCode.{IsAtom};
ghost use Rattle.code_areas.specs.Areas.{Contents};
ghost use Rattle.code_safety.specs.Machine.{IsSameBehind};
ghost use Rattle.code_safety.specs.Safety.{IsSafe, IsSafeThen};
ghost use Rattle.code_safety.specs.RepresentedBranch.{KeepsStanding};
ghost use Rattle.code_safety.specs.Work.{LeadsOn};
ghost use Rattle.branch_state.specs.Steps.{AreTouchesOf};
ghost use Rattle.term_instructions.specs.ReadMode.{ReadsThen};
ghost use Rattle.term_instructions.specs.WriteMode.{BuildsFor, BuildsOn, IsPutAt, PutsOn};

use crate::read_mode::{ReadPosition, Start, look_at_arguments, look_at_registers, read_arguments};
use crate::registers::write;
use crate::write_mode::{Gathered, gather_arguments, gather_two};
use branch_state::BranchState;
use code_areas::Areas;
use code_safety::{Went, behind, on_if};
use fd_language::NoMemory;
use heap_cells::{Cell, Seen};
use propagate_queue::Agenda;
use std::alloc::Global;
use term_pool::AtomId;
use unify_core::Touch;
use wam_code::{CodeArea, Register};

/// What instructions are lent: the cells of a structure's arguments, and what the store is to be
/// told.
#[derive(Drop)]
pub struct Scratch {
    pub cells: Vec<Cell>,
    pub touches: Vec<Touch>,
}

impl Scratch {
    /// Nothing yet.
    pub fn new(alloc: Global) -> Scratch
        ensures cells { result.cells.items ≡ [] }
        ensures touches { result.touches.items ≡ [] }
    {
        Scratch {
            cells: Vec::new(alloc),
            touches: Vec::new(alloc),
        }
    }
}

/// Puts copies of cells, which are few, behind the others. The error is want of memory.
fn push_copies(cells: &mut Vec<Cell>, more: &[Cell]) -> Result<(), NoMemory>
    ensures { OnOk result (cells.new.items ≡ cells.old.items ++ more.now) }
{
    cells.reserve(more.len())?;
    for cell in more {
        cells.push_reserved(*cell);
    }
    Ok(())
}

/// Reads the other arguments of a structure that is there, and tells the store. The result is the
/// place behind them, or back where they can't be what the code gives; the error is want of memory.
#[inline(never)]
fn match_arguments<A: Agenda + Drop>(
    code: &CodeArea,
    from: ReadPosition,
    branch: &mut BranchState<A>,
    areas: &mut Areas,
    cells: &[Cell],
    touches: &mut Vec<Touch>,
) -> Result<Went, NoMemory>
    requires safe { IsSafe code.now branch.old from.at (length cells.now - from.next) areas.old }
    requires within { from.next ≤ length cells.now }
    requires own { All (IsCell branch.old) cells.now }
    requires told { AreTouchesOf branch.old touches.old.items }
    ensures { IfOk result (ReadsThen code.now (drop from.next cells.now) branch.old
        touches.old.items from.at areas.old branch.new areas.new) }
{
    let Some(at) = read_arguments(code, from, branch, areas, cells, touches)? else {
        return Ok(Went::Back);
    };
    let posted = branch.post_touches(touches)?;
    Ok(on_if(at, posted))
}

/// Binds an open variable to the structure of the `n` arguments that were gathered up to the place
/// `next`, and tells the store. The result is that place, or back where the variable occurs among
/// them; the error is want of memory.
#[inline(always)]
fn bind_gathered<A: Agenda + Drop>(
    code: &CodeArea,
    next: usize,
    functor: (AtomId, u8),
    var: usize,
    branch: &mut BranchState<A>,
    args: &[Cell],
    touches: &mut Vec<Touch>,
) -> Result<Went, NoMemory>
    requires name { IsAtom code.now functor.0 }
    requires atoms { branch.old.atoms ≡ length code.now.pool.names }
    requires sound { IsSound branch.old }
    requires own { All (IsCell branch.old) args.now }
    requires all { length args.now ≡ functor.1 }
    requires there { var < length branch.old.heaps.now.slots }
    requires open { slot_at branch.old.heaps.now var ≡ free }
    requires untold { touches.old.items ≡ [] }
    ensures { (c : Contents) → IfOk result (BuildsOn code.now functor.0 functor.1 var branch.old
        next c args.now branch.new c) }
{
    if !branch.bind_compound(var, functor.0, args, touches)? {
        return Ok(Went::Back);
    }
    if touches.is_empty() {
        return Ok(Went::On(next));
    }
    let posted = branch.post_touches(touches)?;
    Ok(on_if(next, posted))
}

/// Gathers the arguments that are left of a structure, builds it for an open variable, and binds
/// that. The result is the place behind its arguments, or back where the variable occurs among
/// them; the error is want of memory.
#[inline(never)]
fn build_rest<A: Agenda + Drop>(
    code: &CodeArea,
    at: usize,
    functor: (AtomId, u8),
    var: usize,
    branch: &mut BranchState<A>,
    areas: &mut Areas,
    scratch: &mut Scratch,
) -> Result<Went, NoMemory>
    requires safe { IsSafe code.now branch.old at (functor.1 - length scratch.old.cells.items)
        areas.old }
    requires within { length scratch.old.cells.items ≤ functor.1 }
    requires own { All (IsCell branch.old) scratch.old.cells.items }
    requires name { IsAtom code.now functor.0 }
    requires there { var < length branch.old.heaps.now.slots }
    requires open { slot_at branch.old.heaps.now var ≡ free }
    requires untold { scratch.old.touches.items ≡ [] }
    ensures { IfOk result (BuildsOn code.now functor.0 functor.1 var branch.old at areas.old
        scratch.old.cells.items branch.new areas.new) }
{
    let n = functor.1 as usize;
    let next = gather_arguments(code, at, branch, areas, &mut scratch.cells, n)?;
    bind_gathered(
        code,
        next,
        functor,
        var,
        branch,
        &scratch.cells,
        &mut scratch.touches,
    )
}

/// Builds a structure of two arguments as `build_argument` does.
#[inline(always)]
fn build_two<A: Agenda + Drop>(
    code: &CodeArea,
    from: usize,
    functor: (AtomId, u8),
    var: usize,
    branch: &mut BranchState<A>,
    areas: &mut Areas,
    scratch: &mut Scratch,
) -> Result<Went, NoMemory>
    requires safe { IsSafe code.now branch.old from functor.1 areas.old }
    requires two { functor.1 ≡ 2 }
    requires name { IsAtom code.now functor.0 }
    requires there { var < length branch.old.heaps.now.slots }
    requires open { slot_at branch.old.heaps.now var ≡ free }
    requires empty { scratch.old.cells.items ≡ [] }
    requires untold { scratch.old.touches.items ≡ [] }
    ensures { IfOk result (BuildsFor code.now functor.0 functor.1 var branch.old from areas.old
        branch.new areas.new) }
{
    match gather_two(code, from, branch, areas, &mut scratch.cells)? {
        Gathered::Pair(a, b, next) => bind_gathered(
            code,
            next,
            functor,
            var,
            branch,
            &[a, b],
            &mut scratch.touches,
        ),
        Gathered::Listed(at) => build_rest(code, at, functor, var, branch, areas, scratch),
    }
}

/// Builds the structure for an open variable, and binds it. The result is the place behind its
/// arguments, or back where the variable occurs among them; the error is want of memory.
#[inline(always)]
fn build_argument<A: Agenda + Drop>(
    code: &CodeArea,
    from: usize,
    functor: (AtomId, u8),
    var: usize,
    branch: &mut BranchState<A>,
    areas: &mut Areas,
    scratch: &mut Scratch,
) -> Result<Went, NoMemory>
    requires safe { IsSafe code.now branch.old from functor.1 areas.old }
    requires name { IsAtom code.now functor.0 }
    requires there { var < length branch.old.heaps.now.slots }
    requires open { slot_at branch.old.heaps.now var ≡ free }
    requires empty { scratch.old.cells.items ≡ [] }
    requires untold { scratch.old.touches.items ≡ [] }
    ensures { IfOk result (BuildsFor code.now functor.0 functor.1 var branch.old from areas.old
        branch.new areas.new) }
{
    if functor.1 == 2 {
        build_two(code, from, functor, var, branch, areas, scratch)
    } else {
        build_rest(code, from, functor, var, branch, areas, scratch)
    }
}

/// Matches a head's argument with a structure, whose arguments come with the unify group behind: a
/// structure that is there is read, and for a variable one is built. `scratch` is lent. The result
/// is the place behind all, or back where they can't be equal; the error is want of memory.
#[inline(always)]
pub fn get_structure<A: Agenda + Drop>(
    code: &CodeArea,
    at: usize,
    functor: (AtomId, u8),
    a: usize,
    branch: &mut BranchState<A>,
    areas: &mut Areas,
    scratch: &mut Scratch,
) -> Result<Went, NoMemory>
    requires safe { IsSafe code.now branch.old at 0 areas.old }
    requires holds { Holds code.now at (step.GetStructure functor.0 functor.1 a) }
    ensures safe { IfOk result (IsSafeThen code.now branch.new areas.new) }
    ensures stands { IfOk result (KeepsStanding code.now branch.old at areas.old branch.new
        areas.new) }
    ensures leads { IfOk result (LeadsOn code.now at) }
    ensures behind { OnOk result (IsSameBehind areas.old areas.new) }
    ensures below { OnOk result (IsSameBelow branch.old branch.new) }
{
    let argument = areas.register(a);
    let from = behind(code, at);
    match branch.heap().deref(argument) {
        Seen::Open(var) => {
            scratch.cells.clear();
            scratch.touches.clear();
            build_argument(code, from, functor, var, branch, areas, scratch)
        }
        Seen::Struct(name, args) => {
            if name != functor.0 || args.len() != functor.1 as usize {
                return Ok(Went::Back);
            }
            let looked = look_at_registers(code, from, branch, areas, args)?;
            let start = match looked {
                Start::All(next) => return Ok(Went::On(next)),
                Start::Part(start) => start,
            };
            let Some(read) = look_at_arguments(code, start, branch, areas, args)? else {
                return Ok(Went::Back);
            };
            if read.next == args.len() {
                return Ok(Went::On(read.at));
            }
            scratch.cells.clear();
            scratch.touches.clear();
            push_copies(&mut scratch.cells, args)?;
            match_arguments(
                code,
                read,
                branch,
                areas,
                &scratch.cells,
                &mut scratch.touches,
            )
        }
        _ => Ok(Went::Back),
    }
}

/// Puts the structure of the arguments that were gathered up to the place `next` into the
/// register. The result is that place; the error is want of memory.
#[inline(always)]
fn put_gathered<A: Agenda + Drop>(
    next: usize,
    name: AtomId,
    a: usize,
    branch: &mut BranchState<A>,
    areas: &mut Areas,
    args: &[Cell],
) -> Result<Went, NoMemory>
    requires sound { IsSound branch.old }
    requires name { name.number < branch.old.atoms }
    requires own { All (IsCell branch.old) args.now }
    ensures { IfOk result (IsPutAt name args.now a next branch.old areas.old branch.new
        areas.new) }
{
    let built = branch.compound(name, args)?;
    write(areas, Register::X(a), built)?;
    Ok(Went::On(next))
}

/// Gathers the arguments that are left of a structure, and puts it into the register. The result
/// is the place behind its arguments; the error is want of memory.
#[inline(never)]
fn put_rest<A: Agenda + Drop>(
    code: &CodeArea,
    at: usize,
    functor: (AtomId, u8),
    a: usize,
    branch: &mut BranchState<A>,
    areas: &mut Areas,
    cells: &mut Vec<Cell>,
) -> Result<Went, NoMemory>
    requires safe { IsSafe code.now branch.old at (functor.1 - length cells.old.items) areas.old }
    requires within { length cells.old.items ≤ functor.1 }
    requires own { All (IsCell branch.old) cells.old.items }
    requires name { IsAtom code.now functor.0 }
    ensures { IfOk result (PutsOn code.now functor.0 functor.1 a branch.old at areas.old
        cells.old.items branch.new areas.new) }
{
    let n = functor.1 as usize;
    let next = gather_arguments(code, at, branch, areas, cells, n)?;
    put_gathered(next, functor.0, a, branch, areas, cells)
}

/// Puts a structure of two arguments as `put_arguments` does.
#[inline(always)]
fn put_two<A: Agenda + Drop>(
    code: &CodeArea,
    from: usize,
    functor: (AtomId, u8),
    a: usize,
    branch: &mut BranchState<A>,
    areas: &mut Areas,
    cells: &mut Vec<Cell>,
) -> Result<Went, NoMemory>
    requires safe { IsSafe code.now branch.old from functor.1 areas.old }
    requires two { functor.1 ≡ 2 }
    requires name { IsAtom code.now functor.0 }
    requires empty { cells.old.items ≡ [] }
    ensures { IfOk result (PutsOn code.now functor.0 functor.1 a branch.old from areas.old []
        branch.new areas.new) }
{
    match gather_two(code, from, branch, areas, cells)? {
        Gathered::Pair(first, second, next) => {
            put_gathered(next, functor.0, a, branch, areas, &[first, second])
        }
        Gathered::Listed(at) => put_rest(code, at, functor, a, branch, areas, cells),
    }
}

/// Puts a structure into the register, whose arguments the code gives from a place on. The result
/// is the place behind them; the error is want of memory.
#[inline(always)]
fn put_arguments<A: Agenda + Drop>(
    code: &CodeArea,
    from: usize,
    functor: (AtomId, u8),
    a: usize,
    branch: &mut BranchState<A>,
    areas: &mut Areas,
    cells: &mut Vec<Cell>,
) -> Result<Went, NoMemory>
    requires safe { IsSafe code.now branch.old from functor.1 areas.old }
    requires name { IsAtom code.now functor.0 }
    requires empty { cells.old.items ≡ [] }
    ensures { IfOk result (PutsOn code.now functor.0 functor.1 a branch.old from areas.old []
        branch.new areas.new) }
{
    if functor.1 == 2 {
        put_two(code, from, functor, a, branch, areas, cells)
    } else {
        put_rest(code, from, functor, a, branch, areas, cells)
    }
}

/// A goal's argument is a structure, which the register takes; its arguments come with the unify
/// group behind. `cells` is lent to gather them. The result is the place behind all; the error is
/// want of memory.
#[inline(always)]
pub fn put_structure<A: Agenda + Drop>(
    code: &CodeArea,
    at: usize,
    functor: (AtomId, u8),
    a: usize,
    branch: &mut BranchState<A>,
    areas: &mut Areas,
    cells: &mut Vec<Cell>,
) -> Result<Went, NoMemory>
    requires safe { IsSafe code.now branch.old at 0 areas.old }
    requires holds { Holds code.now at (step.PutStructure functor.0 functor.1 a) }
    ensures safe { IfOk result (IsSafeThen code.now branch.new areas.new) }
    ensures stands { IfOk result (KeepsStanding code.now branch.old at areas.old branch.new
        areas.new) }
    ensures leads { IfOk result (LeadsOn code.now at) }
    ensures behind { OnOk result (IsSameBehind areas.old areas.new) }
    ensures below { OnOk result (IsSameBelow branch.old branch.new) }
{
    write(areas, Register::X(a), Cell::Int(0))?;
    cells.clear();
    let from = behind(code, at);
    put_arguments(code, from, functor, a, branch, areas, cells)
}
