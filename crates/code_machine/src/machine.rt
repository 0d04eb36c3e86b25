//! The machine.

ghost use Rattle.std.specs.Prelude.{◌≡◌, ◌<◌, ◌≤◌, ◌∷◌, [], ℕ, List, Some, true, false, length, IfOk, OnOk, OnErr, IsErr};
ghost use Rattle.fd_language.specs.declared.TheConstants.{INFINITY as TOP};
ghost use Rattle.fd_model.specs.Goal.{Program, Query, Event, start_of};
ghost use Rattle.fd_model.specs.Run.{Run as Runs, IsLimit};
ghost use Rattle.branch_meaning.specs.NextEvent.{is_final, IsNext};
ghost use Rattle.machine_events.specs.Events.{event_of, HasTerms};
ghost use Rattle.machine_events.specs.declared.MachineEvent.TheVariants as event;
ghost use Rattle.code_machine.specs.Instructions.{HasGoal};
ghost use Rattle.code_machine.specs.declared.run.Ending.{Ending};
ghost use Rattle.code_machine.specs.declared.run.Stage.TheVariants as stage;
ghost use Rattle.code_machine.specs.States.{State, counted, last_event, names_of, left, IsEndOf, IsOfGoal, MayRun, StandsFor, IsSame};

use crate::run::Run;
use crate::start::start;
use crate::steps::run_on;
use branch_state::BranchState;
use fd_language::NoMemory;
use machine_events::{Limits, MachineEvent};
use propagate_queue::Agenda;
use std::alloc::Global;
use std::marker::Model;
use std::rc::Rc;
use wam_code::CodeArea;

/// The run of a query: its events come one by one.
#[derive(Drop)]
pub struct Machine<A: Agenda + Drop> {
    alloc: Global,
    code: Rc<CodeArea>,
    branch: BranchState<A>,
    run: Run,
    limits: Limits,
    answers: u64,
    lost: bool,
}

/// How many answers were given, behind an event.
fn counted(event: &MachineEvent, answers: u64) -> u64
    ensures { result ≡ counted event.now answers }
{
    match event {
        MachineEvent::Answer(_) => answers.saturating_add(1),
        _ => answers,
    }
}

impl<A: Agenda + Drop> Model for Machine<A> {
    ghost use Rattle.code_machine.specs.States.{State};

    ghost Value = { State };

    ghost use Rattle.std.specs.Coded.{codes};
    ghost use Rattle.fd_model.specs.Levels.{levels_coded, range_coded};
    ghost use Rattle.heap_cells.specs.contracts.Cell as cells;
    ghost use Rattle.code_machine.specs.contracts.run.Label as label;
    ghost use Rattle.code_machine.specs.contracts.run.Stage as stage;

    ghost coded = { Prim.hlevel (
      codes,
      range_coded,
      levels_coded,
      cells.the_row.coded,
      label.the_row.coded,
      stage.the_row.coded,
    ) };

    ghost use Rattle.std.specs.Prelude.{◌≡◌, false};
    ghost use Rattle.code_machine.specs.States.{state_within, IsMachine, IsWithin};

    ghost view = { λ m. state_within m.code.value m.branch m.run m.lost m.limits m.answers };

    ghost invariant = { λ m. m.lost ≡ false
        → IsMachine (state_within m.code.value m.branch m.run m.lost m.limits m.answers)
        × IsWithin (state_within m.code.value m.branch m.run m.lost m.limits m.answers) };
}

impl<A: Agenda + Drop> Machine<A> {
    /// The machine for the query with a number, which has spent nothing. The error is want of memory; the agenda is gone then.
    pub fn new(
        alloc: Global,
        code: Rc<CodeArea>,
        query: usize,
        limits: Limits,
        agenda: A,
    ) -> Result<Machine<A>, NoMemory>
        requires query { query < length code.value.queries }
        requires answers { IsLimit limits.answers }
        requires infinity { (1 ≤ limits.infinity) × (limits.infinity ≤ TOP) }
        ensures code { IfOk result (λ m. (m.area ≡ code.value) × (m.query ≡ query)) }
        ensures limits { IfOk result (λ m. (m.limits ≡ limits) × (m.answers ≡ 0)) }
        ensures spent { IfOk result (λ m. m.spent ≡ 0) }
        ensures whole { IfOk result (λ m. m.lost ≡ false) }
        ensures stands { IfOk result (λ m. (prog : Program) (q : Query) → MayRun m.area query prog q
            → (es : List Event) (r : ℕ)
            → Runs TOP limits.infinity prog q limits.steps limits.answers (start_of q ∷ []) es r
            → StandsFor m es r) }
    {
        let (branch, run) = start(alloc, &code, query, limits, agenda)?;
        Ok(Machine {
            alloc,
            code,
            branch,
            run,
            limits,
            answers: 0,
            lost: false,
        })
    }

    /// The next event. After a final one it comes again, and after want of memory there is only that.
    pub fn next(&mut self) -> Result<MachineEvent, NoMemory>
        ensures same { OnOk result (IsSame self.old self.new) }
        ensures next { IfOk result (λ e. IsNext State StandsFor self.old
            (event_of (names_of self.old) e) self.new) }
        ensures last { IfOk result (λ e. is_final (event_of [] e) ≡ true
            → (es : List Event) (total : ℕ) → StandsFor self.old es total
            → es ≡ event_of [] e ∷ []) }
        ensures falls { IfOk result (λ e. is_final (event_of [] e) ≡ false
            → left self.new < left self.old) }
        ensures ended { IfOk result (λ e. is_final (event_of [] e) ≡ true → left self.new ≡ 0) }
        ensures stage { IfOk result (λ e. is_final (event_of [] e) ≡ true
            → IsEndOf e self.new.stage) }
        ensures again { IfOk result (λ e. (x : Ending) → self.old.stage ≡ stage.Ended x
            → (e ≡ last_event x) × (self.new.stage ≡ self.old.stage)
            × (self.new.spent ≡ self.old.spent)) }
        ensures shown { IfOk result (HasTerms (length (names_of self.old))) }
        ensures counted { IfOk result (λ e. self.new.answers ≡ counted e self.old.answers) }
        ensures budget { IfOk result (λ e. e ≡ event.Budget
            → self.new.spent ≡ self.new.limits.steps) }
        ensures limit { IfOk result (λ e. e ≡ event.Limit
            → self.new.limits.answers ≡ Some self.new.answers) }
        ensures goals { IfOk result (λ e. IsOfGoal e → HasGoal self.new.area) }
        ensures whole { OnOk result (self.new.lost ≡ false) }
        ensures lost { OnErr result (self.new.lost ≡ true) }
        ensures still_lost { self.old.lost ≡ true → IsErr result }
    {
        if self.lost {
            return Err(NoMemory);
        }
        self.lost = true;
        let event = run_on(self.alloc, &self.code, &mut self.branch, &mut self.run)?;
        self.answers = counted(&event, self.answers);
        self.lost = false;
        Ok(event)
    }

    /// The limits that it was made with.
    pub fn limits(&self) -> Limits
        ensures { result ≡ self.now.limits }
    {
        self.limits
    }

    /// How many answers it has given. The number stands still at 2^64 - 1.
    pub fn answers(&self) -> u64
        ensures { result ≡ self.now.answers }
    {
        self.answers
    }

    /// The reductions that were spent so far. Behind the last event these are all that the run takes.
    pub fn spent(&self) -> u64
        ensures number { result ≡ self.now.spent }
        ensures whole { left self.now ≡ 0 → (es : List Event) (total : ℕ)
            → StandsFor self.now es total → total ≡ result }
    {
        self.run.spent
    }
}
