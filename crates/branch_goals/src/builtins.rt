//! What any built-in goal comes to.

ghost use Rattle.std.specs.Prelude.{◌≡◌, length, IfOk, OnOk};
ghost use Rattle.heap_cells.specs.Terms.{Naming};
ghost use Rattle.branch_lemmas.specs.Frames.{IsGrown};
ghost use Rattle.branch_state.specs.States.{with_heap, IsSound, IsCell};
ghost use Rattle.branch_goals.specs.Findings.{Finds, IsNaming};

use crate::builtin_findings::{Found, find_told};
use crate::domains::find_domain;
use branch_state::BranchState;
use fd_language::NoMemory;
use fd_model::kinds::BuiltinKind;
use heap_cells::Cell;
use propagate_queue::Agenda;
use std::alloc::Global;
use term_pool::Pool;

/// What a built-in goal comes to whose arguments are in the cells `first` and `second`; of a goal with one argument both are its own.
/// `pool` has the names of the branch's atoms. The heap may get new compound terms. The error is want of memory.
pub fn find<A: Agenda + Drop>(
    alloc: Global,
    branch: &mut BranchState<A>,
    pool: &Pool,
    kind: BuiltinKind,
    first: Cell,
    second: Cell,
) -> Result<Found, NoMemory>
    requires sound { IsSound branch.old }
    requires atoms { length pool.now.names ≡ branch.old.atoms }
    requires first { IsCell branch.old first }
    requires second { IsCell branch.old second }
    ensures found { IfOk result (λ f. (name : Naming) → IsNaming pool.now.names name
        → Finds name branch.new kind first second f) }
    ensures grown { OnOk result (IsGrown branch.old.heaps.now branch.new.heaps.now) }
    ensures heap { OnOk result (branch.new ≡ with_heap branch.old branch.new.heaps.now) }
    ensures sound { OnOk result (IsSound branch.new) }
{
    let _ = pool.atoms();
    match kind {
        BuiltinKind::FdDom => find_domain(alloc, branch, first, second),
        _ => find_told(alloc, branch, pool, kind, first, second),
    }
}
