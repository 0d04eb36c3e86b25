//! Domains as lists of intervals.

ghost use Rattle.std.specs.Prelude.{◌≡◌, ◌<◌, IfOk, OnOk};
ghost use Rattle.fd_model.specs.declared.kinds.BuiltinKind.TheVariants.{FdDom};
ghost use Rattle.heap_cells.specs.Terms.{Naming};
ghost use Rattle.branch_lemmas.specs.Frames.{IsGrown};
ghost use Rattle.branch_state.specs.States.{with_heap, IsSound, IsCell};
ghost use Rattle.branch_goals.specs.Domains.{AreSpans, AreSpansOf, IsSpanList, IsSpanNaming};
ghost use Rattle.branch_goals.specs.Findings.{Finds, the_numbers};

use crate::builtin_findings::{Found, Numbers, numbers_at};
use branch_state::BranchState;
use domain_ranges::Domain;
use fd_language::NoMemory;
use heap_cells::Cell;
use propagate_queue::Agenda;
use std::alloc::Global;
use term_pool::{CONS, NIL, SPAN};

/// The intervals of a domain, rising. The error is want of memory.
fn spans_in(alloc: Global, domain: &Domain) -> Result<Vec<(i64, i64)>, NoMemory>
    ensures { IfOk result (λ v. AreSpansOf domain.now v.items) }
{
    let mut spans = Vec::new(alloc);
    for (low, high) in domain.spans() {
        spans.push((i64::from(*low), i64::from(*high)))?;
    }
    Ok(spans)
}

/// The spans of numbers, rising. The error is want of memory.
fn spans_of(alloc: Global, numbers: Numbers<'_>) -> Result<Vec<(i64, i64)>, NoMemory>
    ensures { IfOk result (λ v. AreSpans (the_numbers numbers.entry) v.items) }
{
    match numbers {
        Numbers::One(z) => Ok(vec![in alloc; (z, z)]?),
        Numbers::Those(domain) => spans_in(alloc, domain),
    }
}

/// The list of spans as a term of the heap. The error is want of memory.
fn list_spans<A: Agenda + Drop>(
    branch: &mut BranchState<A>,
    mut spans: Vec<(i64, i64)>,
) -> Result<Cell, NoMemory>
    requires sound { IsSound branch.old }
    requires atoms { 2 < branch.old.atoms }
    ensures { IfOk result (IsSpanList branch.old spans.items branch.new) }
{
    let mut list = Cell::Atom(NIL);
    while let Some((low, high)) = spans.pop() {
        let interval = branch.compound(SPAN, &[Cell::Int(low), Cell::Int(high)])?;
        list = branch.compound(CONS, &[interval, list])?;
    }
    Ok(list)
}

/// What `fd_dom` comes to for the term in the cell `of`: the cell `is` is to be the list of the intervals of its numbers, rising. The
/// error is want of memory.
pub(crate) fn find_domain<A: Agenda + Drop>(
    alloc: Global,
    branch: &mut BranchState<A>,
    of: Cell,
    is: Cell,
) -> Result<Found, NoMemory>
    requires sound { IsSound branch.old }
    requires atoms { 2 < branch.old.atoms }
    requires of { IsCell branch.old of }
    requires is { IsCell branch.old is }
    ensures found { IfOk result (λ f. (name : Naming) → IsSpanNaming name
        → Finds name branch.new FdDom of is f) }
    ensures grown { OnOk result (IsGrown branch.old.heaps.now branch.new.heaps.now) }
    ensures heap { OnOk result (branch.new ≡ with_heap branch.old branch.new.heaps.now) }
    ensures sound { OnOk result (IsSound branch.new) }
{
    let spans = match numbers_at(branch.heap(), branch.store(), of) {
        Err(fault) => return Ok(Found::Fault(fault)),
        Ok(numbers) => spans_of(alloc, numbers)?,
    };
    let list = list_spans(branch, spans)?;
    Ok(Found::Equal(is, list))
}
