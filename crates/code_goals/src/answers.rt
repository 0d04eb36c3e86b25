//! What an answer shows, and what a goal writes.

ghost use Rattle.std.specs.Prelude.{◌≡◌, ◌<◌, length, IfOk};
ghost use Rattle.wam_code.specs.declared.instruction.Code.TheVariants as step;
ghost use Rattle.wam_code.specs.Area.{Span, Holds, HasQuery};
ghost use Rattle.code_safety.specs.Queries.{IsInQuery};
ghost use Rattle.code_areas.specs.Areas.{IsSet};
ghost use Rattle.code_safety.specs.Safety.{IsSafe};
ghost use Rattle.code_goals.specs.Answers.{AreSlots, HasFirstSlots, ShowsAnswer};
ghost use Rattle.code_goals.specs.GoalTexts.{ShowsWritten};

use crate::goal_outcomes::pool_of;
use branch_state::BranchState;
use code_areas::Areas;
use fd_language::NoMemory;
use heap_cells::Cell;
use machine_events::Shown;
use propagate_queue::Agenda;
use std::alloc::Global;
use wam_code::CodeArea;

/// How many names the query with a number has.
fn shown_count(code: &CodeArea, query: usize) -> usize
    requires { query < length code.now.queries }
    ensures { (span : Span) → HasQuery code.now query span → result ≡ length span.names }
{
    code.parts().queries[query].names.len()
}

/// The cells of the first slots.
fn slot_cells(alloc: Global, areas: &Areas, count: usize) -> Result<Vec<Cell>, NoMemory>
    requires { HasFirstSlots count areas.now }
    ensures { IfOk result (λ v. AreSlots areas.now count v.items) }
{
    let mut cells = Vec::with_capacity(alloc, count)?;
    for i in 0..count {
        cells.push(areas.slot(i))?;
    }
    Ok(cells)
}

/// What the answer shows at a place of the query with a number. The error is want of memory.
pub fn show_answer<A: Agenda + Drop>(
    alloc: Global,
    code: &CodeArea,
    at: usize,
    query: usize,
    branch: &BranchState<A>,
    areas: &Areas,
) -> Result<Shown, NoMemory>
    requires safe { IsSafe code.now branch.now at 0 areas.now }
    requires holds { Holds code.now at step.AnswerNow }
    requires query { IsInQuery code.now query at }
    ensures { IfOk result (ShowsAnswer code.now branch.now at areas.now query) }
{
    let cells = slot_cells(alloc, areas, shown_count(code, query))?;
    branch.show(code.pool(), &cells)
}

/// The term that a goal writes which leads to the place: that of the first register. The error is want of memory.
pub fn show_written<A: Agenda + Drop>(
    code: &CodeArea,
    to: usize,
    branch: &BranchState<A>,
    areas: &Areas,
) -> Result<Shown, NoMemory>
    requires safe { IsSafe code.now branch.now to 0 areas.now }
    requires first { IsSet areas.now.registers 1 }
    ensures { IfOk result (ShowsWritten code.now branch.now areas.now) }
{
    let cell = areas.register(1);
    branch.show(pool_of(code), &[cell])
}
