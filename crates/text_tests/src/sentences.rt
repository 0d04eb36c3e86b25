//! Texts with their sentences or their fault, as the grammar states them.

ghost use Rattle.std.specs.Prelude.{◌<◌, length, All, OnOk};
ghost use Rattle.term_reader.specs.Sentences.{AreOwn};

use crate::assertions::{columns, same};
use char_tokens::TokenFault;
use std::alloc::{AllocError, Global};
use std::process::Abort;
use std::test::Fail;
use term_pool::{AtomId, Node, Pool, TermId};
use term_reader::{ReaderFault, Sentences, read_sentences};

/// Sentences and their variables, each text with what it is: each term with its parts before it, as a variable, an integer, an atom or a name with its arity, each with its place behind `@`; then the names of the sentence's variables; or the fault and its place.
const SENTENCES: &str = "\
a. | a@0
a. b. | a@0; b@3
foo(a,B). | a@4 V0@6 foo/2@0 [B]
f(X,_,Y,X,_). | V0@2 V1@4 V2@6 V0@8 V3@10 f/5@0 [X,_,Y,_]
p(X). q(X,Y). | V0@2 p/1@0 [X]; V0@8 V1@10 q/2@6 [X,Y]
__ = __. | V0@0 V0@5 =/2@3 [__]
!. | !@0
'a b'. | a b@0
9223372036854775807. | 9223372036854775807@0";

/// A minus and a tight integer are a number; prefix operators.
const PREFIX: &str = "\
-1. | -1@0
- 1. | 1@2 -/1@0
a-1. | a@0 1@2 -/2@1
a -1. | a@0 1@3 -/2@2
- -1. | -1@2 -/1@0
-9223372036854775807. | -9223372036854775807@0
-1*b. | -1@0 b@3 */2@2
--1. | Syntax 2
'-' 1. | Syntax 4
'-'(1). | 1@4 -/1@0
-(1). | 1@2 -/1@0
-a. | a@1 -/1@0
- (a). | a@3 -/1@0
-(3)*2. | 3@2 -/1@0 2@5 */2@4
- (3)*2. | 3@3 -/1@0 2@6 */2@5
-(a,b). | a@2 b@4 -/2@0
\\+(a,b). | a@3 b@5 \\+/2@0
\\+ - a. | a@5 -/1@3 \\+/1@0
\\+a = b. | a@2 b@6 =/2@4 \\+/1@0
-a*b. | a@1 -/1@0 b@3 */2@2
a- - -b. | a@0 b@6 -/1@5 -/1@3 -/2@1
- \\+ a. | Syntax 5
a = \\+b. | Syntax 6
- . | Syntax 2
= . | Syntax 2
:- . | Syntax 3
a :- :- b. | Syntax 8
X = - . | Syntax 6
X = mod. | Syntax 7";

/// Operator words alone; arguments, which are below the comma.
const ALONE: &str = "\
f(= a). | Syntax 4
[-]. | -@1 []@0 ./2@0
[-|T]. | -@1 V0@3 ./2@0 [T]
[a|-]. | a@1 -@3 ./2@0
f(+). | +@2 f/1@0
f(- , 1). | -@2 1@6 f/2@0
(-). | -@1
{-}. | Syntax 2
(- -). | Syntax 4
(,). | Syntax 1
f(,). | Syntax 2
[,]. | Syntax 1
f(:- a). | Syntax 5
f((:- a)). | a@6 :-/1@3 f/1@0
f(a :- b). | Syntax 4
f(a;b). | Syntax 3
f(a , b). | a@2 b@6 f/2@0
f((a , b)). | a@3 b@7 ,/2@5 f/1@0
f(). | Syntax 2";

/// A tight parenthesis makes a call behind a word or a quoted atom alone; lists and curly terms.
const BRACKETS: &str = "\
X(a). | Syntax 1
1(a). | Syntax 1
[](a). | Syntax 2
{}(a). | Syntax 2
(a)(b). | Syntax 3
f (x). | Syntax 2
'[]'(a). | a@5 []/1@0
mod(7,2). | 7@4 2@6 mod/2@0
[]. | []@0
[ ]. | []@0
{}. | {}@0
{ a }. | a@2 {}/1@0
{a:-b}. | a@1 b@4 :-/2@2 {}/1@0
[a,b]. | a@1 b@3 []@0 ./2@0 ./2@0
[a|(b:-c)]. | a@1 b@4 c@7 :-/2@5 ./2@0
[a|b:-c]. | Syntax 4
[a|b,c]. | Syntax 4
[a|b|c]. | Syntax 4
[|a]. | Syntax 1
[a,]. | Syntax 3";

/// Operators between operands.
const INFIX: &str = "\
a \\+ b. | Syntax 2
a ?- b. | Syntax 2
a = b = c. | Syntax 6
a :- b :- c. | Syntax 7
1 .. 2 .. 3. | Syntax 7
1-2-3. | 1@0 2@2 -/2@1 3@4 -/2@3
1+2*3. | 1@0 2@2 3@4 */2@3 +/2@1
a&b:c. | a@0 b@2 &/2@1 c@4 :/2@3
a:-b,c,d. | a@0 b@3 c@5 d@7 ,/2@6 ,/2@4 :-/2@1
a;b->c. | a@0 b@2 c@5 ->/2@3 ;/2@1
X in 0..5. | V0@0 0@5 5@8 ../2@6 in/2@2 [X]
7 mod 2. | 7@0 2@6 mod/2@2
X#=-1. | Syntax 1
?- X in 1..3:-{2}. | Syntax 12
?- X in 1..3: -{2}. | V0@3 1@8 3@11 ../2@9 2@16 {}/1@15 -/1@14 :/2@12 in/2@5 ?-/1@0 [X]";

/// Sentences that aren't ended; the fault of a token comes first.
const UNENDED: &str = "\
?- X in 1..3 | Syntax 12
a :- b | Syntax 6
f(a. | Syntax 3
). | Syntax 0
. | Syntax 0
a b. | Syntax 2
?- X = 'ab. | Token OpenQuote 7
) \" | Token StringOut 2";

/// A term's top, with its place.
fn piece(alloc: Global, pool: &Pool, t: TermId) -> Result<String, AllocError>
    requires { t.number < length pool.now.entries }
{
    let place = pool.place(t);
    match pool.view(t) {
        Node::Var(variable) => format!(in alloc; "V{variable}@{place}"),
        Node::Int(integer) => format!(in alloc; "{integer}@{place}"),
        Node::Atom(name) => format!(in alloc; "{}@{place}", pool.name_of(name)),
        Node::Comp(name, parts) => format!(in alloc;
            "{}/{}@{place}",
            pool.name_of(name),
            parts.len()
        ),
    }
}

/// Puts the parts of a term behind the others.
fn push_parts(pool: &Pool, t: TermId, ahead: &mut Vec<TermId>) -> Result<(), AllocError>
    requires term { t.number < length pool.now.entries }
    requires ahead { All (λ u. u.number < length pool.now.entries) ahead.old.items }
    ensures { OnOk result (All (λ u. u.number < length pool.now.entries) ahead.new.items) }
{
    if let Node::Comp(_, parts) = pool.view(t) {
        ahead.extend_from_slice(parts)?;
    }
    Ok(())
}

/// The pieces with a space between each two.
fn join(pieces: &[String], out: &mut String) -> Result<(), AllocError> {
    for (k, piece) in pieces.iter().enumerate() {
        if k > 0 {
            out.push(' ')?;
        }
        out.push_str(piece)?;
    }
    Ok(())
}

/// The piece of the last term ahead, in whose place its parts are put.
fn next_piece(
    alloc: Global,
    pool: &Pool,
    ahead: &mut Vec<TermId>,
) -> Result<Option<String>, AllocError>
    requires { All (λ u. u.number < length pool.now.entries) ahead.old.items }
    ensures { OnOk result (All (λ u. u.number < length pool.now.entries) ahead.new.items) }
{
    let Some(t) = ahead.pop() else {
        return Ok(None);
    };
    push_parts(pool, t, ahead)?;
    Ok(Some(piece(alloc, pool, t)?))
}

/// The pieces of a term of at most a hundred, each behind those of its parts.
fn show_term(alloc: Global, pool: &Pool, top: TermId, out: &mut String) -> Result<(), AllocError>
    requires { top.number < length pool.now.entries }
{
    let mut pieces = Vec::new(alloc);
    let mut ahead = Vec::new(alloc);
    ahead.push(top)?;
    for _ in 0..100 {
        let Some(piece) = next_piece(alloc, pool, &mut ahead)? else {
            break;
        };
        pieces.push(piece)?;
    }
    pieces.reverse();
    join(&pieces, out)
}

/// The names of a sentence's variables.
fn show_names(pool: &Pool, names: &[AtomId], out: &mut String) -> Result<(), AllocError>
    requires { All (λ a. a.number < length pool.now.names) names.now }
{
    if names.is_empty() {
        return Ok(());
    }
    out.push_str(" [")?;
    for (k, name) in names.iter().enumerate() {
        if k > 0 {
            out.push(',')?;
        }
        out.push_str(pool.name_of(*name))?;
    }
    out.push(']')
}

fn fault_text(alloc: Global, fault: ReaderFault) -> Result<String, AllocError> {
    match fault {
        ReaderFault::Token(TokenFault::At { place, cause }) => {
            format!(in alloc; "Token {cause:?} {place}")
        }
        ReaderFault::Syntax { place } => format!(in alloc; "Syntax {place}"),
        ReaderFault::TooDeep { place } => format!(in alloc; "TooDeep {place}"),
        _ => format!(in alloc; "no memory"),
    }
}

/// The terms of the sentences and the names of their variables.
fn listed(alloc: Global, sentences: &Sentences) -> Result<String, AllocError>
    requires { AreOwn sentences.now }
{
    let mut out = String::new(alloc);
    for (k, sentence) in sentences.list.iter().enumerate() {
        if k > 0 {
            out.push_str("; ")?;
        }
        show_term(alloc, &sentences.pool, sentence.term, &mut out)?;
        show_names(&sentences.pool, &sentence.names, &mut out)?;
    }
    Ok(out)
}

fn shown(alloc: Global, text: &str) -> Result<String, AllocError> {
    match read_sentences(alloc, text) {
        Ok(sentences) => listed(alloc, &sentences),
        Err(fault) => fault_text(alloc, fault),
    }
}

/// Refuses a text that is something else than is wanted.
fn compare(rt: &impl Abort, alloc: Global, text: &str, want: &str) -> Result<(), Fail> {
    let found = shown(alloc, text)?;
    same(rt, found.as_str(), want, text);
    Ok(())
}

fn compare_rows(rt: &impl Abort, alloc: Global, rows: &str) -> Result<(), Fail> {
    for row in rows.lines() {
        let (text, want) = columns(rt, row);
        compare(rt, alloc, text, want)?;
    }
    Ok(())
}

#[test]
fn texts_are_sentences_or_have_a_fault(rt: HostRuntime) -> Result<(), Fail> {
    for table in &[SENTENCES, PREFIX, ALONE, BRACKETS, INFIX, UNENDED] {
        compare_rows(&rt, rt.alloc(), table)?;
    }
    for text in &["", "% nothing"] {
        compare(&rt, rt.alloc(), text, "")?;
    }
    Ok(())
}

/// The text `inner` between brackets, as many times as is said.
fn nested(alloc: Global, count: usize, inner: &str) -> Result<String, AllocError> {
    let mut text = String::new(alloc);
    for _ in 0..count {
        text.push('(')?;
    }
    text.push_str(inner)?;
    for _ in 0..count {
        text.push(')')?;
    }
    text.push('.')?;
    Ok(text)
}

/// How many brackets stand around a text, and what that is.
const NESTED: &[(usize, &str, &str)] = &[
    (1000, "a", "a@1000"),
    (1001, "a", "TooDeep 1000"),
    (999, "[]", "[]@999"),
    (1000, "[]", "TooDeep 1000"),
    (1000, "-(a)", "TooDeep 1001"),
    (1000, "b )", "Syntax 2002"),
    (1001, ")", "TooDeep 1000"),
];

#[test]
fn a_thousand_brackets_may_be_open(rt: HostRuntime) -> Result<(), Fail> {
    for (count, inner, want) in NESTED {
        let text = nested(rt.alloc(), *count, inner)?;
        compare(&rt, rt.alloc(), &text, want)?;
    }
    Ok(())
}

/// The text of `first`, then `rest` as many times as is said, then `last`.
fn long(
    alloc: Global,
    first: &str,
    rest: &str,
    count: usize,
    last: &str,
) -> Result<String, AllocError> {
    let mut text = String::from_str(alloc, first)?;
    for _ in 0..count {
        text.push_str(rest)?;
    }
    text.push_str(last)?;
    Ok(text)
}

fn is_read(alloc: Global, text: &str) -> bool {
    read_sentences(alloc, text).is_ok()
}

/// How a text begins, what it goes on with and how often, and how it ends.
const LONG: &[(&str, &str, usize, &str)] = &[
    ("", "- ", 10_000, "a."),
    ("", "a:-b. ", 10_000, "c."),
    ("a", ",b", 100_000, "."),
    ("a", "-b", 100_000, "."),
    ("[a", ",b", 100_000, "]."),
    ("f(A", ",B", 100_000, ")."),
];

#[test]
fn what_is_no_bracket_may_be_as_deep_as_it_is_long(rt: HostRuntime) -> Result<(), Fail> {
    for (first, rest, count, last) in LONG {
        let text = long(rt.alloc(), first, rest, *count, last)?;
        same(&rt, is_read(rt.alloc(), &text), true, rest);
    }
    Ok(())
}
