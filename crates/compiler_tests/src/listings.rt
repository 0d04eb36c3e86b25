//! The code of small texts, and what it shares.

use clause_check::check_program;
use clause_compiler::compile;
use fd_language::INFINITY;
use std::alloc::Global;
use std::rc::Rc;
use std::test::Fail;
use term_reader::read_sentences;
use wam_code::CodeArea;

/// The code of a text.
fn code_of(alloc: Global, text: &str) -> Result<CodeArea, Fail> {
    let Ok(sentences) = read_sentences(alloc, text) else {
        return Err(Fail::new("no sentences"));
    };
    let Ok(program) = check_program(alloc, sentences, INFINITY) else {
        return Err(Fail::new("refused"));
    };
    Ok(compile(alloc, program)?)
}

/// The instructions of a text's code, one a line, and then its tables.
fn listing(alloc: Global, text: &str) -> Result<String, Fail> {
    let code = code_of(alloc, text)?;
    let parts = code.parts();
    let mut lines = String::new(alloc);
    for instruction in &parts.code {
        lines.push_str(format!(in alloc; "{instruction:?}\n")?.as_str())?;
    }
    for table in &parts.tables {
        for row in table {
            lines.push_str(format!(in alloc; "{row:?}\n")?.as_str())?;
        }
    }
    Ok(lines)
}

/// One code after the other: the choices of app/3, its clauses, the query.
const APPEND: &str = "\
SwitchOnTerm(1, 3, 4, 5)
Try(6)
Trust(9)
Jump(6)
FailNow
Jump(9)
GetConstant(AtomId { number: 0 }, 1)
GetValue(X(2), 3)
Proceed
GetStructure(AtomId { number: 1 }, 2, 1)
UnifyVariable(X(4))
UnifyVariable(X(1))
GetStructure(AtomId { number: 1 }, 2, 3)
UnifyValue(X(4))
UnifyVariable(X(3))
Execute(0)
Allocate(2)
PutVariable(Y(1), 1)
PutVariable(Y(2), 1)
PutValue(Y(1), 1)
PutValue(Y(2), 2)
PutStructure(AtomId { number: 1 }, 2, 3)
UnifyInteger(1)
UnifyConstant(AtomId { number: 0 })
Call(0)
AnswerNow
";

/// The rows of a table stand in rising order.
const INTEGERS: &str = "\
SwitchOnTerm(1, 4, 5, 9)
Try(10)
Retry(12)
Trust(14)
FailNow
SwitchOnInteger(0)
Jump(10)
Jump(12)
Jump(14)
FailNow
GetInteger(3, 1)
Proceed
GetInteger(-1, 1)
Proceed
GetInteger(2, 1)
Proceed
Allocate(1)
PutVariable(Y(1), 1)
PutValue(Y(1), 1)
Call(0)
AnswerNow
(Int(-1), 7)
(Int(2), 8)
(Int(3), 6)
";

/// The choices of p/1, its clauses, the query: levels in slots behind those of the variables, two for a test.
const CUTS: &str = "\
Try(2)
Trust(11)
Allocate(2)
GetVariable(Y(1), 1)
Level(2)
PutValue(Y(1), 1)
PutInteger(1, 2)
Builtin(Unify)
CutTo(2)
Deallocate
Proceed
Allocate(1)
GetVariable(Y(1), 1)
PutValue(Y(1), 1)
PutInteger(2, 2)
Builtin(Unify)
Deallocate
Proceed
Allocate(4)
PutVariable(Y(1), 1)
Level(2)
Level(3)
Level(4)
EnterTest(3, 4, 29)
PutValue(Y(1), 1)
Call(0)
CutTo(3)
Builtin(True)
Jump(30)
Builtin(Fail)
EnterTest(3, 4, 36)
PutValue(Y(1), 1)
PutInteger(2, 2)
Builtin(Unify)
CutTo(3)
Builtin(Fail)
TestOnly(3)
Builtin(True)
CutTo(3)
Builtin(True)
AnswerNow
";

/// The choice of p/1, its clause, the query: a structure inside the head's is read in place.
const NESTED: &str = "\
Jump(1)
GetStructure(AtomId { number: 1 }, 2, 1)
UnifyVariable(X(2))
UnifyVariable(X(5))
GetStructure(AtomId { number: 1 }, 2, 5)
UnifyVariable(X(3))
UnifyVariable(X(1))
Execute(0)
Allocate(0)
PutConstant(AtomId { number: 0 }, 1)
Call(0)
AnswerNow
";

#[test]
fn listings_of_code(rt: HostRuntime) -> Result<(), Fail> {
    let alloc = rt.alloc();
    let text = "app([],L,L). app([X|Xs],L,[X|Zs]) :- app(Xs,L,Zs). ?- app(X,Y,[1]).";
    assert_eq!(rt; listing(alloc, text)?.as_str(), APPEND);
    let text = "r(3). r(-1). r(2). ?- r(X).";
    assert_eq!(rt; listing(alloc, text)?.as_str(), INTEGERS);
    let text = "p([X,Y|Zs]) :- p(Zs). ?- p([]).";
    assert_eq!(rt; listing(alloc, text)?.as_str(), NESTED);
    let text = "p(X) :- X = 1, !. p(X) :- X = 2. \
        ?- ( p(X) -> true ; fail ), \\+ X = 2, ( true -> true ).";
    assert_eq!(rt; listing(alloc, text)?.as_str(), CUTS);
    Ok(())
}

#[test]
fn equal_ranges_share_their_code(rt: HostRuntime) -> Result<(), Fail> {
    let alloc = rt.alloc();
    let text = "?- X in 0..9, Y in 0..8, Z in 0..9.";
    let code = code_of(alloc, text)?;
    let parts = code.parts();
    assert_eq!(rt; parts.ranges.len(), 3);
    if let [a, b, c] = parts.ranges.as_slice() {
        assert!(rt; Rc::ptr_eq(a, c) && !Rc::ptr_eq(a, b));
    }
    Ok(())
}
