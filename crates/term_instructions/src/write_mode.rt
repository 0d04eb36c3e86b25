//! Arguments of a structure that is built.

ghost use Rattle.std.specs.Prelude.{◌≡◌, ◌-◌, ◌<◌, ◌≤◌, [], suc, length, All, IfOk, OnOk};
ghost use Rattle.branch_state.specs.States.{IsCell, IsSound};
ghost use Rattle.wam_code.specs.Area.{Holds};
ghost use Rattle.code_safety.specs.Safety.{IsSafe};
ghost use Rattle.term_instructions.specs.Arguments.{code_of, IsOne};
ghost use Rattle.term_instructions.specs.WriteMode.{IsGatheredTo, AreVariablesAdded, GivesOne, GathersTwo};

use crate::arguments::{Argument, argument_at, is_one};
use crate::registers::{read, write};
use branch_state::BranchState;
use code_areas::Areas;
use code_safety::behind;
use fd_language::NoMemory;
use heap_cells::Cell;
use propagate_queue::Agenda;
use wam_code::CodeArea;

/// Two arguments of a structure.
#[derive(Clone, Copy)]
pub(crate) enum Gathered {
    /// Both, with the place behind them.
    Pair(Cell, Cell, usize),
    /// They are gathered in a list, as far as the place.
    Listed(usize),
}

/// Puts so many new variables of the heap behind the cells. The error is want of memory.
#[inline(never)]
fn push_variables<A: Agenda + Drop>(
    branch: &mut BranchState<A>,
    cells: &mut Vec<Cell>,
    count: usize,
) -> Result<(), NoMemory>
    requires { IsSound branch.old }
    ensures { OnOk result (AreVariablesAdded count branch.old cells.old.items branch.new
        cells.new.items) }
{
    for i in 0..count {
        let cell = branch.new_var()?;
        cells.push(cell)?;
    }
    Ok(())
}

/// The next argument of a structure, which an instruction gives alone, with `left` to be given. The
/// error is want of memory.
#[inline(always)]
fn one_cell<A: Agenda + Drop>(
    code: &CodeArea,
    at: usize,
    argument: Argument,
    branch: &mut BranchState<A>,
    areas: &mut Areas,
    left: usize,
) -> Result<Cell, NoMemory>
    requires safe { IsSafe code.now branch.old at left areas.old }
    requires some { 0 < left }
    requires holds { Holds code.now at (code_of argument) }
    requires one { IsOne argument }
    ensures { IfOk result (GivesOne code.now left branch.old at areas.old branch.new areas.new) }
{
    match argument {
        Argument::Variable(r) => {
            let cell = branch.new_var()?;
            write(areas, r, cell)?;
            Ok(cell)
        }
        Argument::Value(r) => Ok(read(areas, r)),
        Argument::Constant(c) => Ok(Cell::Atom(c)),
        Argument::Integer(z) => Ok(Cell::Int(z)),
        Argument::Void(_) => {
            let cell = branch.new_var()?;
            Ok(cell)
        }
    }
}

/// Gathers the two arguments of a structure, which the code gives from a place on. The error is
/// want of memory.
#[inline(always)]
pub(crate) fn gather_two<A: Agenda + Drop>(
    code: &CodeArea,
    from: usize,
    branch: &mut BranchState<A>,
    areas: &mut Areas,
    cells: &mut Vec<Cell>,
) -> Result<Gathered, NoMemory>
    requires safe { IsSafe code.now branch.old from 2 areas.old }
    requires empty { cells.old.items ≡ [] }
    ensures { IfOk result (GathersTwo code.now branch.old from areas.old branch.new areas.new
        cells.new.items) }
{
    let first = argument_at(code, from);
    if !is_one(first) {
        return Ok(Gathered::Listed(from));
    }
    let a = one_cell(code, from, first, branch, areas, 2)?;
    let at = behind(code, from);
    let second = argument_at(code, at);
    if !is_one(second) {
        cells.push(a)?;
        return Ok(Gathered::Listed(at));
    }
    let b = one_cell(code, at, second, branch, areas, 1)?;
    Ok(Gathered::Pair(a, b, behind(code, at)))
}

/// Puts the next argument behind the others, or those of one instruction. The error is want of
/// memory.
#[inline(always)]
fn push_argument<A: Agenda + Drop>(
    code: &CodeArea,
    at: usize,
    branch: &mut BranchState<A>,
    areas: &mut Areas,
    cells: &mut Vec<Cell>,
    n: usize,
) -> Result<(), NoMemory>
    requires safe { IsSafe code.now branch.old at (n - length cells.old.items) areas.old }
    requires more { length cells.old.items < n }
    requires own { All (IsCell branch.old) cells.old.items }
    ensures { OnOk result (IsGatheredTo code.now n branch.old at areas.old cells.old.items
        branch.new (suc at) areas.new cells.new.items) }
{
    match argument_at(code, at) {
        Argument::Void(count) => push_variables(branch, cells, count),
        one => {
            let cell = one_cell(code, at, one, branch, areas, n - cells.len())?;
            Ok(cells.push(cell)?)
        }
    }
}

/// Gathers the `n` arguments of a structure, which the code gives from a place on. The result is
/// the place behind them; the error is want of memory.
#[inline(always)]
pub(crate) fn gather_arguments<A: Agenda + Drop>(
    code: &CodeArea,
    from: usize,
    branch: &mut BranchState<A>,
    areas: &mut Areas,
    cells: &mut Vec<Cell>,
    n: usize,
) -> Result<usize, NoMemory>
    requires safe { IsSafe code.now branch.old from (n - length cells.old.items) areas.old }
    requires within { length cells.old.items ≤ n }
    requires own { All (IsCell branch.old) cells.old.items }
    ensures gathered { IfOk result (λ at. IsGatheredTo code.now n branch.old from areas.old
        cells.old.items branch.new at areas.new cells.new.items) }
    ensures all { OnOk result (length cells.new.items ≡ n) }
{
    let mut at = from;
    'arguments: while cells.len() < n {
        push_argument(code, at, branch, areas, cells, n)?;
        at = behind(code, at);
    }
    Ok(at)
}
