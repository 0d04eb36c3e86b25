//! A run before its first step.

ghost use Rattle.std.specs.Prelude.{◌≡◌, ◌<◌, ◌≤◌, ◌∷◌, [], ℕ, List, false, length, IfOk};
ghost use Rattle.fd_language.specs.declared.TheConstants.{INFINITY as TOP};
ghost use Rattle.fd_model.specs.Goal.{Program, Query, Event, start_of};
ghost use Rattle.fd_model.specs.Run.{Run as Runs, IsLimit};
ghost use Rattle.wam_code.specs.Area.{Span, HasQuery};
ghost use Rattle.code_machine.specs.States.{state_of, state_within, AreCounted, IsMachine, IsWithin, MayRun, StandsFor};

use crate::run::{Run, Stage};
use branch_state::BranchState;
use code_areas::Areas;
use fd_language::NoMemory;
use machine_events::Limits;
use propagate_queue::Agenda;
use std::alloc::Global;
use term_instructions::Scratch;
use wam_code::CodeArea;

/// Where the code of the query with a number begins.
fn place_of(code: &CodeArea, query: usize) -> usize
    requires { query < length code.now.queries }
    ensures { (span : Span) → HasQuery code.now query span → result ≡ span.at }
{
    code.parts().queries[query].at
}

/// All answers that a limit allows, of which none is given.
fn all_of(answers: Option<u64>) -> Option<u64>
    ensures same { result ≡ answers }
    ensures counted { AreCounted answers 0 result }
{
    match answers {
        Some(most) => Some(most),
        None => None,
    }
}

/// The branch and the run at the beginning of a query. The error is want of memory.
pub(crate) fn start<A: Agenda + Drop>(
    alloc: Global,
    code: &CodeArea,
    query: usize,
    limits: Limits,
    agenda: A,
) -> Result<(BranchState<A>, Run), NoMemory>
    requires query { query < length code.now.queries }
    requires answers { IsLimit limits.answers }
    requires infinity { (1 ≤ limits.infinity) × (limits.infinity ≤ TOP) }
    ensures machine { IfOk result (λ w. IsMachine (state_of code.now w.0 w.1 false)) }
    ensures query { IfOk result (λ w. w.1.query ≡ query) }
    ensures spent { IfOk result (λ w. w.1.spent ≡ 0) }
    ensures within { IfOk result (λ w. IsWithin (state_within code.now w.0 w.1 false limits 0)) }
    ensures stands { IfOk result (λ w. (prog : Program) (q : Query) → MayRun code.now query prog q
        → (es : List Event) (r : ℕ)
        → Runs TOP limits.infinity prog q limits.steps limits.answers (start_of q ∷ []) es r
        → StandsFor (state_of code.now w.0 w.1 false) es r) }
{
    let at = place_of(code, query);
    code.parts();
    let branch = BranchState::new(alloc, agenda, code.pool().atoms(), limits.infinity)?;
    let run = Run {
        query,
        areas: Areas::new(alloc),
        labels: Vec::new(alloc),
        stage: Stage::Going(at),
        scratch: Scratch::new(alloc),
        budget: limits.steps,
        limit: all_of(limits.answers),
        spent: 0,
    };
    Ok((branch, run))
}
