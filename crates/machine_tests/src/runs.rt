//! Queries over clauses, and the events of their runs.

ghost use Rattle.std.specs.Prelude.{◌≤◌};
ghost use Rattle.fd_language.specs.declared.TheConstants.{INFINITY as TOP};
ghost use Rattle.fd_model.specs.Run.{IsLimit};

use crate::assertions::same;
use clause_check::{Program, check_program};
use clause_compiler::compile;
use code_machine::Machine;
use fd_language::{INFINITY, NoMemory};
use fd_model::kinds::QueryFault;
use machine_events::{Limits, MachineEvent};
use propagate_queue::{Agenda, Cheapest, Fifo};
use std::alloc::Global;
use std::process::Abort;
use std::rc::Rc;
use std::test::Fail;
use term_pool::Pool;
use term_reader::read_sentences;
use wam_code::{Code, CodeArea, CodeParts, QueryEntry};

/// The program of a text.
fn program_of(alloc: Global, text: &str) -> Result<Program, Fail> {
    let Ok(sentences) = read_sentences(alloc, text) else {
        return Err(Fail::new("no sentences"));
    };
    match check_program(alloc, sentences, INFINITY) {
        Ok(program) => Ok(program),
        Err(_) => Err(Fail::new("refused")),
    }
}

fn event_text(alloc: Global, event: &MachineEvent) -> Result<String, NoMemory> {
    match event {
        MachineEvent::Answer(shown) => {
            let count = shown.terms.len();
            Ok(format!(in alloc; "answer {count}")?)
        }
        MachineEvent::End => Ok(String::from_str(alloc, "end")?),
        MachineEvent::Budget => Ok(String::from_str(alloc, "budget")?),
        MachineEvent::Limit => Ok(String::from_str(alloc, "limit")?),
        MachineEvent::Fault(QueryFault::Instantiation) => {
            Ok(String::from_str(alloc, "instantiation")?)
        }
        MachineEvent::Fault(QueryFault::Parameter) => Ok(String::from_str(alloc, "parameter")?),
        _ => Ok(String::from_str(alloc, "other")?),
    }
}

/// What tells events one by one. The tests see a machine as this alone: each function that sees the machine itself takes half a minute to prove.
trait Events {
    fn next_event(&mut self) -> Result<MachineEvent, Fail>;

    fn reductions(&self) -> u64;
}

impl<A: Agenda + Drop> Events for Machine<A> {
    fn next_event(&mut self) -> Result<MachineEvent, Fail> {
        Ok(self.next()?)
    }

    fn reductions(&self) -> u64 {
        self.spent()
    }
}

/// Puts the event behind the others, and says whether it is the end.
fn put_event(alloc: Global, event: &MachineEvent, lines: &mut String) -> Result<bool, Fail> {
    lines.push_str(event_text(alloc, event)?.as_str())?;
    lines.push_str("; ")?;
    Ok(matches!(event, MachineEvent::End))
}

/// Puts the next event behind the others, and says whether it was the end.
fn put_next<E: Events>(alloc: Global, events: &mut E, lines: &mut String) -> Result<bool, Fail> {
    let event = events.next_event()?;
    put_event(alloc, &event, lines)
}

/// Puts the next events up to the end, then `again` more, and the reductions behind them.
fn put_events<E: Events>(
    alloc: Global,
    events: &mut E,
    count: usize,
    again: usize,
    lines: &mut String,
) -> Result<(), Fail> {
    for _ in 0..count {
        if put_next(alloc, events, lines)? {
            break;
        }
    }
    for _ in 0..again {
        let _ = put_next(alloc, events, lines)?;
    }
    let spent = events.reductions();
    lines.push_str(format!(in alloc; "{spent}")?.as_str())?;
    Ok(())
}

/// The next events up to the end, then `again` more, and the reductions behind them.
fn events_of<E: Events>(
    alloc: Global,
    events: &mut E,
    count: usize,
    again: usize,
) -> Result<String, Fail> {
    let mut lines = String::new(alloc);
    put_events(alloc, events, count, again, &mut lines)?;
    Ok(lines)
}

/// The first events of the code's first query up to the end, then `again` more, and the reductions behind them.
fn run_code<A: Agenda + Drop>(
    alloc: Global,
    code: CodeArea,
    limits: Limits,
    agenda: A,
    events: usize,
    again: usize,
) -> Result<String, Fail>
    requires answers { IsLimit limits.answers }
    requires infinity { (1 ≤ limits.infinity) × (limits.infinity ≤ TOP) }
{
    if code.queries() == 0 {
        return Err(Fail::new("no query"));
    }
    let mut machine = Machine::new(alloc, Rc::new(alloc, code)?, 0, limits, agenda)?;
    events_of(alloc, &mut machine, events, again)
}

/// Those of the text's first query.
fn run<A: Agenda + Drop>(
    alloc: Global,
    text: &str,
    limits: Limits,
    agenda: A,
    events: usize,
) -> Result<String, Fail>
    requires answers { IsLimit limits.answers }
    requires infinity { (1 ≤ limits.infinity) × (limits.infinity ≤ TOP) }
{
    let code = compile(alloc, program_of(alloc, text)?)?;
    run_code(alloc, code, limits, agenda, events, 0)
}

const ROWS: &str = "\
a fact | p. ?- p. | answer 0; end; 1
two facts | p(a). p(b). ?- p(X). | answer 1; answer 1; end; 1
no clause | p(a). ?- p(b). | end; 1
an equation | ?- X = f(Y), Y = 1. | answer 2; end; 2
occurs | ?- X = f(X). | end; 1
a choice | ?- ( X = 1 ; X = 2 ). | answer 1; answer 1; end; 3
a rule | q(1). q(2). q(3). p(X) :- q(X), X in 2..9. ?- p(X). | answer 1; answer 1; end; 5
append | app([],L,L). app([H|T],L,[H|R]) :- app(T,L,R). ?- app([1,2],[3],X). | answer 1; end; 3
append back | app([],L,L). app([H|T],L,[H|R]) :- app(T,L,R). ?- app(X,Y,[1,2]). | answer 2; answer 2; answer 2; end; 3
a constrained variable | p(a). p(1). p(f(X)). p(5). ?- X in 0..3, p(X). | answer 1; end; 2
nrev | app([],L,L). app([H|T],L,[H|R]) :- app(T,L,R). rev([],[]). rev([H|T],R) :- rev(T,S), app(S,[H],R). ?- rev([1,2,3,4],X). | answer 1; end; 15
fail in a body | p :- fail. p. ?- p. | answer 0; end; 2
true | ?- true, true. | answer 0; end; 2
nrev checked | app([],L,L). app([H|T],L,[H|R]) :- app(T,L,R). rev([],[]). rev([H|T],R) :- rev(T,S), app(S,[H],R). ?- rev([1,2,3,4],[4,3,2,1]). | answer 0; end; 15
nrev wrong | app([],L,L). app([H|T],L,[H|R]) :- app(T,L,R). rev([],[]). rev([H|T],R) :- rev(T,S), app(S,[H],R). ?- rev([1,2,3,4],[4,2,3,1]). | end; 13
renamed apart | p(X,Y) :- X = Y. ?- p(A,1), p(B,2), A = 1, B = 2. | answer 2; end; 6
undone domains | p(X) :- X in 1..3. p(X) :- X in 5..9. ?- X in 0..9, p(X), X in 4..6. | answer 1; end; 6
a cut in a query | p. p. ?- p, !. | answer 0; end; 2
a clause for good | q(X) :- X in 1..2, !. q(X) :- X in 8..9. ?- X in 0..8, q(X). | answer 1; end; 4
a cut not come to | q(X) :- X in 1..2, !. q(X) :- X in 8..9. ?- X in 3..8, q(X). | answer 1; end; 4
a test between choices | ?- X in 0..9, (true ; Y = 2), (X in 0..5 -> true ; true), (X in 0..3 ; X in 2..8). | answer 2; answer 2; answer 2; answer 2; end; 18
a cut in a test | r(1). r(2). ?- (r(X), ! -> true ; true), r(Y). | answer 2; answer 2; end; 6
a test that fails behind its cut | ?- (X = 1, !, fail -> Y = a ; Y = b). | answer 2; end; 5
a negation of what holds | ?- \\+ X = 1. | end; 4
a negation of what doesn't | ?- \\+ 1 = 2. | answer 0; end; 2
a test alone | r(1). r(2). ?- (r(X) -> true), r(Y). | answer 2; answer 2; end; 5
values dropped | ?- X in 0..3, fd_labeling([X]), !. | answer 1; end; 4
the newer values dropped | ?- X in 0..1, fd_labeling([X]), (Y in 0..3, fd_labeling([Y]) -> true ; true). | answer 2; answer 2; end; 16
the least cost | ?- X in 0..3, Y in 0..3, X + Y #>= 3, C #= 2*X + 3*Y, fd_minimize(fd_labeling([X,Y,C]), C). | answer 3; end; 5";

/// Refuses a text whose first query runs otherwise with one of the agendas.
fn gives(
    rt: &impl Abort,
    alloc: Global,
    text: &str,
    limits: Limits,
    events: usize,
    wanted: &str,
) -> Result<(), Fail>
    requires answers { IsLimit limits.answers }
    requires infinity { (1 ≤ limits.infinity) × (limits.infinity ≤ TOP) }
{
    let first = run(alloc, text, limits, Fifo::new(alloc), events)?;
    same(rt, first.as_str(), wanted, text);
    let second = run(alloc, text, limits, Cheapest::new(alloc), events)?;
    same(rt, second.as_str(), wanted, text);
    Ok(())
}

#[test]
fn runs_with_both_agendas(rt: HostRuntime) -> Result<(), Fail> {
    let limits = Limits {
        steps: 1000,
        answers: None,
        infinity: INFINITY,
    };
    for line in ROWS.lines() {
        let (_, rest) = line.split_once(" | ").expect(&rt, line);
        let (text, wanted) = rest.split_once(" | ").expect(&rt, line);
        gives(&rt, rt.alloc(), text, limits, 9, wanted)?;
    }
    Ok(())
}

#[test]
fn limits_end_a_run(rt: HostRuntime) -> Result<(), Fail> {
    let limits = Limits {
        steps: 5,
        answers: None,
        infinity: INFINITY,
    };
    let text = "loop :- loop. ?- loop.";
    gives(&rt, rt.alloc(), text, limits, 2, "budget; budget; 5")?;
    let limits = Limits {
        steps: 9,
        answers: Some(2),
        infinity: INFINITY,
    };
    let text = "p(1). p(2). p(3). ?- p(X).";
    let wanted = "answer 1; answer 1; limit; limit; 1";
    gives(&rt, rt.alloc(), text, limits, 4, wanted)?;
    let limits = Limits {
        steps: 3,
        answers: None,
        infinity: INFINITY,
    };
    let text = "?- ( true -> true ; fail ).";
    gives(&rt, rt.alloc(), text, limits, 2, "budget; budget; 3")
}

#[test]
fn variables_end_at_infinity(rt: HostRuntime) -> Result<(), Fail> {
    let limits = Limits {
        steps: 1000,
        answers: None,
        infinity: 1,
    };
    let text = "?- fd_labeling([X]).";
    gives(
        &rt,
        rt.alloc(),
        text,
        limits,
        9,
        "answer 1; answer 1; end; 3",
    )?;
    let text = "?- 2 in 0..9.";
    gives(&rt, rt.alloc(), text, limits, 9, "end; 1")?;
    let text = "?- X #> 1.";
    gives(&rt, rt.alloc(), text, limits, 9, "end; 1")
}

/// A query that switches on a register into which it has just put an integer: no program has such
/// code.
fn unmeant_code(alloc: Global) -> Result<CodeArea, Fail> {
    let pool = Pool::new(alloc)?;
    let code = vec![in alloc;
        Code::Allocate(0),
        Code::PutInteger(1, 1),
        Code::SwitchOnTerm(3, 3, 3, 3),
        Code::AnswerNow,
    ]?;
    let query = QueryEntry {
        at: 0,
        end: 4,
        names: Vec::new(alloc),
    };
    Ok(CodeArea::from_verified(CodeParts {
        pool,
        code,
        tables: Vec::new(alloc),
        ranges: Vec::new(alloc),
        entries: Vec::new(alloc),
        queries: vec![in alloc; query]?,
    }))
}

#[test]
fn verified_code_of_no_program(rt: HostRuntime) -> Result<(), Fail> {
    let alloc = rt.alloc();
    let limits = Limits {
        steps: 9,
        answers: None,
        infinity: INFINITY,
    };
    let code = unmeant_code(alloc)?;
    assert_eq!(rt; code.queries(), 1);
    assert_eq!(rt; code.pool().atoms(), 3);
    assert!(rt; code.parts().code.len() > 3 && matches!(*code.code_at(3), Code::AnswerNow));
    let lines = run_code(alloc, code, limits, Fifo::new(alloc), 2, 1)?;
    same(&rt, lines.as_str(), "answer 0; end; end; 0", "the code");
    Ok(())
}
