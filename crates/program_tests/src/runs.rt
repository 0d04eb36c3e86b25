//! What runs write, over ends in memory.

use crate::assertions::same;
use byte_ports::{MemorySink, MemorySource, SmallSink, SmallSource};
use fd_model::Status;
use std::alloc::Global;
use std::process::Abort;
use std::test::Fail;
use top_level::run;

/// Bytes that a sink has room for.
const ROOM: usize = 1_000_000;

/// Runs a text with these words over memory, where the writes with these numbers fail. Compares how it ends and what it writes.
fn check_run(
    rt: &impl Abort,
    alloc: Global,
    words: &[String],
    text: &[u8],
    failing_writes: Vec<u64>,
    want: (Status, &[u8]),
    at: &str,
) -> Result<(), Fail> {
    let mut sink = MemorySink::new(alloc, ROOM, failing_writes)?;
    let mut source = MemorySource::new(text.to_vec(alloc)?, Vec::new(alloc));
    let status = run(alloc, words, &mut source, &mut sink);
    same(rt, (status, sink.bytes()), want, at);
    Ok(())
}

/// Runs a text without words over ends that never fail.
fn check_text(
    rt: &impl Abort,
    alloc: Global,
    text: &[u8],
    want: (Status, &[u8]),
    at: &str,
) -> Result<(), Fail> {
    check_run(rt, alloc, &[], text, Vec::new(alloc), want, at)
}

/// Runs a text with the words of a line over ends that never fail.
fn check_line(
    rt: &impl Abort,
    alloc: Global,
    line: &str,
    text: &str,
    want: (Status, &[u8]),
    at: &str,
) -> Result<(), Fail> {
    let words = words_of(alloc, line)?;
    check_run(
        rt,
        alloc,
        &words,
        text.as_bytes(),
        Vec::new(alloc),
        want,
        at,
    )
}

/// Runs texts without words, each of which ends with this status.
fn check_texts(
    rt: &impl Abort,
    alloc: Global,
    texts: &[(&str, &str)],
    status: Status,
) -> Result<(), Fail> {
    for (text, output) in texts {
        check_text(
            rt,
            alloc,
            text.as_bytes(),
            (status, output.as_bytes()),
            text,
        )?;
    }
    Ok(())
}

/// Texts with another layout, or none.
const LAYOUTS: [(&str, &str); 5] = [
    ("", ""),
    (
        "?- B in 2..2, A in 0..9, B in 0..5, A in 7..20.\n",
        "query 1\nB = 2, A = _1(7..9)\nend\n",
    ),
    (
        "?- X in 0..1.\n?- X in 5..6, Y in 0..999999999.\n",
        "query 1\nX = _1(0..1)\nend\nquery 2\nX = _1(5..6), Y = _2(0..268435455)\nend\n",
    ),
    (
        "% two goals in brackets\n?- (((X in -3..2),\n  _Y in 0..1), /* and one */ Z in 0x10..16, _ in 1..1).",
        "query 1\nX = _1(0..2), Z = 16\nend\n",
    ),
    (
        "'?-'(','(in(X, '..'(1, 2)), X in 2..9)).",
        "query 1\nX = 2\nend\n",
    ),
];

#[test]
fn layouts(rt: HostRuntime) -> Result<(), Fail> {
    check_texts(&rt, rt.alloc(), &LAYOUTS, Status::Done)
}

/// Queries of ranges, each with the lines of its output, where `; ` ends a line that isn't the last.
const SETS: &str = "\
?- X in 0..9, Y in 0..9, Z in 0..9, X in min(Y)+1..infinity, Y in min(Z)+1..infinity. | query 1; X = _1(2..9), Y = _2(1..9), Z = _3(0..9); end
?- X in 0..9, Y in X..9. ?- X in 0..3, X in -{2}. | query 1; error: instantiation; query 2; X = _1(0..1:3); end
?- 3 in 1..5. ?- 7 in 1..5. ?- f(X) in 1..5. | query 1; true; end; query 2; end; query 3; error: type
?- write(a), nl, X in C..9. ?- write(b). | query 1; a; error: instantiation; query 2; btrue; end
?- X in 0..3, Y in 4..4. | query 1; X = _1(0..3), Y = 4; end
?- X in 3..3, X in 4..5. | query 1; end
?- _X in 0..4. | query 1; true; end
?- X in {3}. | query 1; X = 3; end
?- X in 1..3:5..6. | query 1; X = _1(1..3:5..6); end
?- X in 1..9&4..20. | query 1; X = _1(4..9); end
?- X in -(1..268435454). | query 1; X = _1(0:268435455); end
?- X in (1..3)+2. | query 1; X = _1(3..5); end
?- X in (1..3)-2. | query 1; X = _1(0..1); end
?- X in (1..3)*4. | query 1; X = _1(4:8:12); end
?- X in (1..3)* -1. | query 1; end
?- X in (0..3)*0. | query 1; X = 0; end
?- X in (1..10)/3. | query 1; X = _1(1..3); end
?- X in 7/<2..7/>2. | query 1; X = _1(3..4); end
?- X in -7/< 2..3. | query 1; X = _1(0..3); end
?- X in infinity-2..infinity. | query 1; X = _1(268435453..268435455); end
?- X in 2*3+1..3*(4-1). | query 1; X = _1(7..9); end
?- X in {-1}. | query 1; end
?- X in 5/<1..5. | query 1; X = 5; end
?- X in (0..3)+(infinity-2). | query 1; X = _1(268435453..268435455); end
?- X in 268435455..infinity. | query 1; X = 268435455; end
?- X in -(-{2}). | query 1; X = 2; end
?- X in 1..2:4..5:2..3. | query 1; X = _1(1..5); end
?- X in (0..3)&(-{2}). | query 1; X = _1(0..1:3); end
?- Y in 3..5, X in min(Y)+1..infinity. | query 1; Y = _1(3..5), X = _2(4..268435455); end
?- Y in 3..5, X in 0..9, X in min(Y)+1..infinity. | query 1; Y = _1(3..5), X = _2(4..9); end
?- Y in 3..5, X in 4..9, X in min(Y)+1..infinity. | query 1; Y = _1(3..5), X = _2(4..9); end
?- Y in 9..9, X in 4..9, X in min(Y)+1..infinity. | query 1; end
?- Y in 4..4, X in 3..6, X in -{val(Y)}. | query 1; Y = 4, X = _1(3:5..6); end
?- Y in 4..5, X in 3..6, X in -{val(Y)}. | query 1; Y = _1(4..5), X = _2(3..6); end
?- Y in 4..4, X in 4..4, X in -{val(Y)}. | query 1; end
?- Y in 4..4, Z in 2..3, X in {val(Y)}:dom(Z). | query 1; Y = 4, Z = _1(2..3), X = _2(2..4); end
?- X in (5-12)/>2+10..20. | query 1; X = _1(7..20); end
?- X in (5-12)/<2+10..20. | query 1; X = _1(6..20); end
?- Y in 0..9, Z in 2..3, X in 0..max(Y)/<min(Z). | query 1; Y = _1(0..9), Z = _2(2..3), X = _3(0..4); end
?- Y in 0..9, Z in 0..3, X in 0..max(Y)/<min(Z). | query 1; Y = _1(0..9), Z = _2(0..3), X = _3(0..268435455); end
?- Y in 4..10, P = 3, Q = -2, X in dom(Y)/P-Q. | query 1; Y = _1(4..10), P = 3, Q = -2, X = _2(4..5); end
?- X in (6..8):(2..3):(4..4):{0}. | query 1; X = _1(0:2..4:6..8); end
?- X in {0}:((3..7):((2..4):(9..8))). | query 1; X = _1(0:2..7); end
?- X in ((5..9):(0..6))&((8..20):{3}). | query 1; X = _1(3:8..9); end";

/// Texts, each with the lines of its output, where `; ` ends a line that isn't the last.
const PROGRAMS: &str = "\
p. p. ?- p. | query 1; true; true; end
p(1). p(2). p(3). ?- p(X). | query 1; X = 1; X = 2; X = 3; end
p(1). p(2). ?- p(X), p(Y). | query 1; X = 1, Y = 1; X = 1, Y = 2; X = 2, Y = 1; X = 2, Y = 2; end
p(1). p(2). q(2). q(3). ?- p(X), q(X). | query 1; X = 2; end
?- p(X). p(1). q. p(2). | query 1; X = 1; X = 2; end
p :- q. q. ?- p. | query 1; true; end
p :- q. p. q :- fail. ?- p. | query 1; true; end
p :- fail. ?- p. | query 1; end
p(X) :- X = 1 ; X = 2. ?- p(X). | query 1; X = 1; X = 2; end
?- X = 1 ; X = 2 ; X = 3. | query 1; X = 1; X = 2; X = 3; end
?- (X = 1 ; X = 2), (Y = a ; Y = b). | query 1; X = 1, Y = a; X = 1, Y = b; X = 2, Y = a; X = 2, Y = b; end
?- (fail ; X = 2). | query 1; X = 2; end
?- (X = 1, fail ; X = 2). | query 1; X = 2; end
?- true ; true. | query 1; true; true; end
?- fail. ?- false. ?- true. | query 1; end; query 2; end; query 3; true; end
app([], L, L). app([H|T], L, [H|R]) :- app(T, L, R). ?- app([1,2], [3], X). | query 1; X = [1,2,3]; end
app([], L, L). app([H|T], L, [H|R]) :- app(T, L, R). ?- app(X, Y, [1,2]). | query 1; X = [], Y = [1,2]; X = [1], Y = [2]; X = [1,2], Y = []; end
app([], L, L). app([H|T], L, [H|R]) :- app(T, L, R). ?- app(X, [3], [1,2,3]). | query 1; X = [1,2]; end
app([], L, L). app([H|T], L, [H|R]) :- app(T, L, R). rev([], []). rev([H|T], R) :- rev(T, S), app(S, [H], R). ?- rev([1,2,3,4], X). | query 1; X = [4,3,2,1]; end
mem(X, [X|_]). mem(X, [_|T]) :- mem(X, T). ?- mem(X, [a,b,c]). | query 1; X = a; X = b; X = c; end
mem(X, [X|_]). mem(X, [_|T]) :- mem(X, T). ?- mem(b, [a,b,b]). | query 1; true; true; end
mem(X, [X|_]). mem(X, [_|T]) :- mem(X, T). ?- mem(d, [a,b,c]). | query 1; end
mem(X, [X|_]). mem(X, [_|T]) :- mem(X, T). ?- mem(f(X,1), [f(a,2),f(b,1),g(c),f(c,Y)]). | query 1; X = b, Y = _1; X = c, Y = 1; end
sel(X, [X|T], T). sel(X, [H|T], [H|R]) :- sel(X, T, R). perm([], []). perm(L, [H|T]) :- sel(H, L, R), perm(R, T). ?- perm([1,2,3], P). | query 1; P = [1,2,3]; P = [1,3,2]; P = [2,1,3]; P = [2,3,1]; P = [3,1,2]; P = [3,2,1]; end
len([], z). len([_|T], s(N)) :- len(T, N). ?- len([a,b,c], N). | query 1; N = s(s(s(z))); end
len([], z). len([_|T], s(N)) :- len(T, N). ?- len(L, s(s(z))). | query 1; L = [_1,_2]; end
add(z, X, X). add(s(X), Y, s(Z)) :- add(X, Y, Z). ?- add(X, Y, s(s(z))). | query 1; X = z, Y = s(s(z)); X = s(z), Y = s(z); X = s(s(z)), Y = z; end
add(z, X, X). add(s(X), Y, s(Z)) :- add(X, Y, Z). mul(z, _, z). mul(s(X), Y, Z) :- mul(X, Y, W), add(Y, W, Z). ?- mul(s(s(z)), s(s(s(z))), X). | query 1; X = s(s(s(s(s(s(z)))))); end
par(ann, bob). par(bob, cid). par(bob, dan). anc(X, Y) :- par(X, Y). anc(X, Z) :- par(X, Y), anc(Y, Z). ?- anc(ann, X). | query 1; X = bob; X = cid; X = dan; end
edge(a, b). edge(b, c). edge(a, c). path(X, X, [X]). path(X, Z, [X|P]) :- edge(X, Y), path(Y, Z, P). ?- path(a, c, P). | query 1; P = [a,b,c]; P = [a,c]; end
p(a, 1). p(b, 2). p(f(X), X). p([H|_], H). ?- p(f(q), X). ?- p(X, 2). ?- p([7,8], X). ?- p(c, X). | query 1; X = q; end; query 2; X = b; X = f(2); X = [2|_1]; end; query 3; X = 7; end; query 4; end
p(X, X). ?- p(A, f(B)), p(B, 1). | query 1; A = f(1), B = 1; end
p(X, X). ?- p(A, f(A)). | query 1; end
p(f(X,Y), Y, X). ?- p(A, 1, B). | query 1; A = f(_1,1), B = _1; end
p(f(X,X)). ?- p(f(1,Y)), p(f(Y,2)). | query 1; end
p(f(X,X)). ?- p(f(1,Y)). | query 1; Y = 1; end
p(X, Y) :- q(Y, X). q(1, 2). ?- p(A, B). | query 1; A = 2, B = 1; end
p(X) :- q(X, Y), r(Y). q(1, a). q(2, b). q(3, b). r(b). ?- p(X). | query 1; X = 2; X = 3; end
p([]). p([X|Xs]) :- X in 0..1, p(Xs). ?- L = [A,B], p(L). | query 1; L = [_1(0..1),_2(0..1)], A = _1(0..1), B = _2(0..1); end
p(X) :- X in 1..2. p(X) :- X in 8..9. ?- X in 0..8, p(X). | query 1; X = _1(1..2); X = 8; end
p(X) :- X in 1..2. p(X) :- X in 8..9. p(X) :- X in 4..5. ?- X in 0..8, p(X). | query 1; X = _1(1..2); X = 8; X = _1(4..5); end
q(1). q(2). ?- X in 1..2, q(X). | query 1; X = 1; X = 2; end
q(a). q(1). q(f(1)). q(2). q(X). ?- X in 1..2, q(X). | query 1; X = 1; X = 2; X = _1(1..2); end
q(a). q(1). q(f(1)). q(X). ?- q(X). | query 1; X = a; X = 1; X = f(1); X = _1; end
q(3, a). q(4, b). q(5, c). ?- X in 4..9, q(X, Y). | query 1; X = 4, Y = b; X = 5, Y = c; end
p(X, Y) :- X in 0..5, Y in min(X)+1..infinity. ?- Y in 0..9, p(X, Y), X = 3. | query 1; Y = _1(4..9), X = 3; end
p(X) :- X = Y, Y in 2..4. ?- p(X), (X = 2 ; X = 5 ; X = 4). | query 1; X = 2; X = 4; end
n(X) :- X in 0..1 ; X in 3..4. ?- n(X), n(Y), X = Y. | query 1; X = _1(0..1), Y = _1(0..1); X = _1(3..4), Y = _1(3..4); end
s(X) :- (X = 1 ; X = 2), t(X). t(2). ?- s(X). | query 1; X = 2; end
u(X) :- X = f(Y), v(Y) ; X = none. v(1). v(2). ?- u(X). | query 1; X = f(1); X = f(2); X = none; end
nat(z). nat(s(X)) :- nat(X). ?- X = s(s(z)), nat(X). | query 1; X = s(s(z)); end
q(X) :- r(X), s(X). r(1). r(2). s(2). s(1). ?- q(X). ?- r(X), q(X). | query 1; X = 1; X = 2; end; query 2; X = 1; X = 2; end
c(red). c(green). d(X, Y) :- c(X), c(Y). ?- d(X, X). ?- d(X, Y). | query 1; X = red; X = green; end; query 2; X = red, Y = red; X = red, Y = green; X = green, Y = red; X = green, Y = green; end
p(_, _). ?- p(X, Y), X = 1. ?- p(_, Z). | query 1; X = 1, Y = _1; end; query 2; Z = _1; end
?- _X = 1. ?- _X = Y. ?- X = _. | query 1; true; end; query 2; Y = _1; end; query 3; X = _1; end
a(X) :- b(X), c(X). b(X) :- X in 0..9. c(X) :- X in 5..20. ?- a(X). | query 1; X = _1(5..9); end
e([], 0). e([_|T], N) :- e(T, M), N = s(M). ?- e([a,b], N). | query 1; N = s(s(0)); end
right(X, Y, [X,Y|_]). right(X, Y, [_|T]) :- right(X, Y, T). ?- right(L, R, [1,2,3]). | query 1; L = 1, R = 2; L = 2, R = 3; end
?- X = Y. | query 1; X = _1, Y = _1; end
?- X = 1. | query 1; X = 1; end
?- X = a. | query 1; X = a; end
?- X = 'A b'. | query 1; X = 'A b'; end
?- X = f(Y). | query 1; X = f(_1), Y = _1; end
?- f(X) = f(Y). | query 1; X = _1, Y = _1; end
?- f(X,Y) = f(Y,1). | query 1; X = 1, Y = 1; end
?- f(X,X) = f(1,Y). | query 1; X = 1, Y = 1; end
?- f(X,X) = f(1,2). | query 1; end
?- f(X) = g(X). | query 1; end
?- f(X) = f(X,Y). | query 1; end
?- a = a. | query 1; true; end
?- a = b. | query 1; end
?- 1 = 1. | query 1; true; end
?- 1 = 2. | query 1; end
?- 1 = a. | query 1; end
?- 1 = f(1). | query 1; end
?- a = f(a). | query 1; end
?- f = f(X). | query 1; end
?- X = f(X). | query 1; end
?- f(X) = X. | query 1; end
?- X = f(Y), Y = g(X). | query 1; end
?- f(X,Y) = f(g(Y),g(X)). | query 1; end
?- X = f(Y), Y = f(Z), Z = f(a). | query 1; X = f(f(f(a))), Y = f(f(a)), Z = f(a); end
?- f(X,g(X)) = f(Y,Y). | query 1; end
?- f(X,Y,Z) = f(Y,Z,X). | query 1; X = _1, Y = _1, Z = _1; end
?- f(X,Y,Z) = f(Y,Z,a). | query 1; X = a, Y = a, Z = a; end
?- [] = []. | query 1; true; end
?- [X] = [a]. | query 1; X = a; end
?- [X|T] = [1,2,3]. | query 1; X = 1, T = [2,3]; end
?- [1,2|T] = [H|[2,3]]. | query 1; T = [3], H = 1; end
?- [X,Y|T] = [1]. | query 1; end
?- [X|Y] = []. | query 1; end
?- [X|X] = [[]]. | query 1; X = []; end
?- [X|X] = [[a]|Y]. | query 1; X = [a], Y = [a]; end
?- [A,B,C|T] = [1|R], R = [2,3,4]. | query 1; A = 1, B = 2, C = 3, T = [4], R = [2,3,4]; end
?- [a|T] = T. | query 1; end
?- '.'(X,Y) = [1,2]. | query 1; X = 1, Y = [2]; end
?- '[]' = []. | query 1; true; end
?- {} = {}. | query 1; true; end
?- {X} = {a,b}. | query 1; X = (a,b); end
?- X = -(1). | query 1; X = -(1); end
?- -(X) = -(1). | query 1; X = 1; end
?- -(1) = -1. | query 1; end
?- 1-2 = X-Y. | query 1; X = 1, Y = 2; end
?- 1-(2-3) = X-Y. | query 1; X = 1, Y = 2-3; end
?- 1-2-3 = X-Y. | query 1; X = 1-2, Y = 3; end
?- X = 'it''s'. | query 1; X = 'it\\'s'; end
?- f(A,B,C,D) = f(B,C,D,A), A = 7. | query 1; A = 7, B = 7, C = 7, D = 7; end
?- X in 0..3, X = Y. | query 1; X = _1(0..3), Y = _1(0..3); end
?- X in 0..3, X = 2. | query 1; X = 2; end
?- X in 0..3, X = 4. | query 1; end
?- X in 0..3, X = -1. | query 1; end
?- X in 0..3, X = a. | query 1; end
?- X in 0..3, X = f(Y). | query 1; end
?- X in 0..3, Y in 2..5, X = Y. | query 1; X = _1(2..3), Y = _1(2..3); end
?- X in 0..3, Y in 3..5, X = Y. | query 1; X = 3, Y = 3; end
?- X in 0..3, Y in 4..5, X = Y. | query 1; end
?- X in 0..3, f(X,X) = f(Y,2). | query 1; X = 2, Y = 2; end
?- X in 0..9, Y in 0..9, Z in 5..20, f(X,Y) = f(Y,Z). | query 1; X = _1(5..9), Y = _1(5..9), Z = _1(5..9); end
?- X in 0..9, L = [X,Y|T], L = [Y,3,4]. | query 1; X = 3, L = [3,3,4], Y = 3, T = [4]; end
?- X in 0..9, X = Y, Y in 3..12, Z = f(X,Y). | query 1; X = _1(3..9), Y = _1(3..9), Z = f(_1(3..9),_1(3..9)); end
?- X in 0..9, Y = f(X), Y = f(f(Z)). | query 1; end
?- X in 1..1, X = Y, Z = Y. | query 1; X = 1, Y = 1, Z = 1; end
?- X in 0..9, Y in 0..9, X in min(Y)+1..infinity, X = Y. | query 1; end
?- X in 0..9, Y in 0..9, X in min(Y)+1..infinity, f(X,Y) = f(A,3). | query 1; X = _1(4..9), Y = 3, A = _1(4..9); end
?- X = Y, Y = Z, Z in 2..4, X in 3..9. | query 1; X = _1(3..4), Y = _1(3..4), Z = _1(3..4); end
?- X = f(Y,-(1),1-(2-3)), Y = 'A b'. | query 1; X = f('A b',-(1),1-(2-3)), Y = 'A b'; end
?- X = [Y,Z|T], Y in 0..1, T = [Y]. | query 1; X = [_1(0..1),_2,_1(0..1)], Y = _1(0..1), Z = _2, T = [_1(0..1)]; end
?- X in 0..9, Y in 5..20, X = Y. | query 1; X = _1(5..9), Y = _1(5..9); end
?- Y in 0..3, X in 0..7/<min(Y), Y = 2. | query 1; Y = 2, X = _1(0..3); end
?- true. ?- X = f(Y,-(1),1-(2-3)), Y = 'A b'. | query 1; true; end; query 2; X = f('A b',-(1),1-(2-3)), Y = 'A b'; end
?- X in 1..2, write(X), nl, X = 1, write(X), nl. | query 1; _1(1..2); 1; X = 1; end
?- write(f(X,Y,X)), nl. | query 1; f(_1,_2,_1); X = _1, Y = _2; end
?- X = 'A b', write([X|Y]), nl, Y = (c:-d), write(Y), nl. | query 1; [A b|_1]; c:-d; X = 'A b', Y = (c:-d); end
?- (write(a), fail ; write(b), nl). | query 1; ab; true; end
?- (X = 1 ; X = 2), !. | query 1; X = 1; end
?- X = 1, ! ; X = 2. | query 1; X = 1; end
p(1). p(2). s(X, Y) :- p(X), p(Y), !. ?- s(X, Y). ?- p(Z), s(X, Y). | query 1; X = 1, Y = 1; end; query 2; Z = 1, X = 1, Y = 1; Z = 2, X = 1, Y = 1; end
p(1). p(2). s(X, Y) :- p(X), !, p(Y). s(3, 3). ?- s(X, Y). | query 1; X = 1, Y = 1; X = 1, Y = 2; end
c(X) :- (X = 1, ! ; X = 2). c(3). ?- c(X). ?- c(2). | query 1; X = 1; end; query 2; true; end
d(X) :- (true -> !, X = 1 ; X = 2). d(3). ?- d(X). | query 1; X = 1; end
e(X) :- \\+ (!, fail), X = 1. e(2). ?- e(X). | query 1; X = 1; X = 2; end
f(X) :- (! -> X = 1 ; X = 2). f(3). ?- f(X). | query 1; X = 1; X = 3; end
g(X) :- (fail -> X = 1 ; !, X = 2). g(3). ?- g(X). | query 1; X = 2; end
h(X) :- k(X), !. h(9). k(1) :- fail. k(2). k(3). ?- h(X). ?- h(9). | query 1; X = 2; end; query 2; true; end
k(a, 1) :- !. k(b, 2) :- !. k(c, 3). k(X, 9). ?- k(b, N). ?- k(c, N). ?- k(X, N). ?- k(f(1), N). | query 1; N = 2; end; query 2; N = 3; N = 9; end; query 3; X = a, N = 1; end; query 4; N = 9; end
m(a, 1). m(b, 5) :- !. m(a, 2) :- !. m(a, 3). m(b, 4). m(c, 6). ?- m(a, N). ?- m(b, N). ?- m(c, N). | query 1; N = 1; N = 2; end; query 2; N = 5; end; query 3; N = 6; end
m([], z) :- !. m([X|T], X) :- X = 1, !. m([X|T], N) :- m(T, N). ?- m([3,1,1], N). ?- m([3,2], N). | query 1; N = 1; end; query 2; N = z; end
t(X, Y) :- (X = 1 -> (Y = a ; Y = b) ; X = 2 -> Y = c ; Y = d). ?- t(1, Y). ?- t(2, Y). ?- t(3, Y). | query 1; Y = a; Y = b; end; query 2; Y = c; end; query 3; Y = d; end
?- ((X = 1 -> X = 2 ; X = 1) -> Y = a ; Y = b). | query 1; X = _1, Y = b; end
?- ((fail -> true ; X = 1) -> Y = a ; Y = b). | query 1; X = 1, Y = a; end
?- (true -> (fail -> X = a ; X = b) ; X = c). | query 1; X = b; end
?- (fail -> X = 1). ?- (true -> X = 1). | query 1; end; query 2; X = 1; end
?- ((true -> X = 1) ; X = 2). ?- ((true -> X = 1), true ; X = 2). | query 1; X = 1; end; query 2; X = 1; X = 2; end
?- (X = 1 ; X = 2), (X = 2 -> Y = a ; Y = b). | query 1; X = 1, Y = b; X = 2, Y = a; end
?- \\+ \\+ X = 1, Y = 2. | query 1; X = _1, Y = 2; end
?- \\+ (X = 1, \\+ X = 1). | query 1; X = _1; end
p(1). p(2). ?- \\+ p(3), p(X), \\+ X = 1. | query 1; X = 2; end
p(X) :- write(X), nl. p(X) :- X in 3..4. ?- X in 0..3, p(X). | query 1; _1(0..3); X = _1(0..3); X = 3; end";

/// Texts of constraints, labellings and built-ins, in the same form.
const GOALS: &str = "\
?- X in 0..9, X #= 3. | query 1; X = 3; end
?- X in 0..9, 3 #= X. | query 1; X = 3; end
?- X in 0..9, X + 2 #= 5. | query 1; X = 3; end
?- X in 0..9, 5 - X #= 2. | query 1; X = 3; end
?- X in 0..9, 2*X #= 6. | query 1; X = 3; end
?- X in 0..9, 2*X #= 7. | query 1; end
?- X in 0..9, X*2 #= 6. | query 1; X = 3; end
?- X in 0..9, (1+1)*X #= 6. | query 1; X = 3; end
?- X in 0..9, -X #= -4. | query 1; X = 4; end
?- X in 0..9, -(-(X)) #= 4. | query 1; X = 4; end
?- X in 0..9, X #\\= 3. | query 1; X = _1(0..2:4..9); end
?- X in 0..3, X #\\= 0, X #\\= 3. | query 1; X = _1(1..2); end
?- X in 0..9, X #< 4. | query 1; X = _1(0..3); end
?- X in 0..9, X #=< 4. | query 1; X = _1(0..4); end
?- X in 0..9, X #> 4. | query 1; X = _1(5..9); end
?- X in 0..9, X #>= 4. | query 1; X = _1(4..9); end
?- X in 0..9, 4 #< X. | query 1; X = _1(5..9); end
?- X in 0..9, 4 #> X. | query 1; X = _1(0..3); end
?- X in 0..9, 2*X #< 7. | query 1; X = _1(0..3); end
?- X in 0..9, 2*X #=< 7. | query 1; X = _1(0..3); end
?- X in 0..9, 2*X #> 7. | query 1; X = _1(4..9); end
?- X in 0..9, 3*X #>= 7. | query 1; X = _1(3..9); end
?- X in 0..9, 7 - 2*X #>= 0. | query 1; X = _1(0..3); end
?- X in 0..9, Y in 0..9, X #= Y. | query 1; X = _1(0..9), Y = _2(0..9); end
?- X in 0..9, Y in 5..20, X #= Y. | query 1; X = _1(5..9), Y = _2(5..9); end
?- X in 0..9, Y in 0..9, X #= Y + 3. | query 1; X = _1(3..9), Y = _2(0..6); end
?- X in 0..9, Y in 0..9, X + Y #= 3. | query 1; X = _1(0..3), Y = _2(0..3); end
?- X in 0..9, Y in 0..9, X + Y #= 18. | query 1; X = 9, Y = 9; end
?- X in 0..9, Y in 0..9, X + Y #= 19. | query 1; end
?- X in 0..9, Y in 0..9, X - Y #= 7. | query 1; X = _1(7..9), Y = _2(0..2); end
?- X in 0..9, Y in 0..9, 2*X + 3*Y #= 41. | query 1; X = 7, Y = 9; end
?- X in 0..9, Y in 0..9, 2*X - 3*Y #= 13. | query 1; X = 8, Y = 1; end
?- X in 0..9, Y in 0..9, X #< Y. | query 1; X = _1(0..8), Y = _2(1..9); end
?- X in 0..9, Y in 0..9, X #< Y, Y #< X. | query 1; end
?- X in 0..9, Y in 0..9, X #\\= Y, X = 4. | query 1; X = 4, Y = _1(0..3:5..9); end
?- X in 0..3, Y in 0..3, X #\\= Y, Y #>= 3, X #>= 2. | query 1; X = 2, Y = 3; end
?- X in 0..9, Y in 0..9, 2*X #\\= Y, Y = 6. | query 1; X = _1(0..2:4..9), Y = 6; end
?- X in 0..9, Y in 0..9, 2*X #\\= Y, Y = 7. | query 1; X = _1(0..9), Y = 7; end
?- X in 0..9, Y in 0..9, Z in 0..9, X + Y + Z #= 26. | query 1; X = _1(8..9), Y = _2(8..9), Z = _3(8..9); end
?- X in 0..9, Y in 0..9, Z in 0..9, X + Y #=< Z, Z #=< 1. | query 1; X = _1(0..1), Y = _2(0..1), Z = _3(0..1); end
?- X in 0..9, Y in 0..9, Z in 0..9, 100*X + 10*Y + Z #= 987. | query 1; X = 9, Y = 8, Z = 7; end
?- X in 0..9, X - X #= 0. | query 1; X = _1(0..9); end
?- X - X #= 1. | query 1; end
?- X - X + Y #= 2. | query 1; X = _1, Y = 2; end
?- 2 #= 2. | query 1; true; end
?- 2 #\\= 2. | query 1; end
?- 2 #\\= 3. | query 1; true; end
?- 1 #< 2. | query 1; true; end
?- 2 #< 2. | query 1; end
?- 2 #=< 2. | query 1; true; end
?- 3 #> 3. | query 1; end
?- 3 #>= 3. | query 1; true; end
?- X #= 5. | query 1; X = 5; end
?- X #>= 5, X #< 8. | query 1; X = _1(5..7); end
?- X #= Y. | query 1; X = _1(0..268435455), Y = _2(0..268435455); end
?- X #= Y + 1. | query 1; X = _1(1..268435455), Y = _2(0..268435454); end
?- X #< 0. | query 1; end
?- X #> -1. | query 1; X = _1(0..268435455); end
?- X #= -1. | query 1; end
?- X #= a. | query 1; error: type
?- X #= f(1). | query 1; error: type
?- X #= Y*Z. | query 1; X = _1(0..268435455), Y = _2(0..268435455), Z = _3(0..268435455); end
?- X in 2..2, X*Y #= 6. | query 1; X = 2, Y = 3; end
?- Y in 0..9, X = 3, X*Y #= 6. | query 1; Y = 2, X = 3; end
?- (X - X + 2)*Y #= 6. | query 1; X = _1, Y = 3; end
?- X*X #= 4. | query 1; X = _1(1..4); end
?- X*Y #= Z + 1. | query 1; error: nonlinear
?- X*Y #< 4. | query 1; error: nonlinear
?- X #= 3/2. | query 1; error: type
?- X #= Y, Y = a. | query 1; end
?- 9223372036854775807*X #= 0. | query 1; X = 0; end
?- 9223372036854775807*X + X - X #= 0. | query 1; error: evaluation
?- 9223372036854775807 + 1 #= X. | query 1; error: evaluation
?- 9223372036854775807 + X - 1 #= 9223372036854775807. | query 1; X = 1; end
?- X + 9223372036854775807 #= 9223372036854775807. | query 1; X = 0; end
?- X #< -9223372036854775807. | query 1; error: evaluation
?- -9223372036854775807 #> X. | query 1; error: evaluation
?- X - 9223372036854775807 #< 1. | query 1; error: evaluation
?- X #> 9223372036854775807. | query 1; error: evaluation
?- 9223372036854775807*9223372036854775807 #= X. | query 1; error: evaluation
?- X in 0..9, 9223372036854775807*X #= 9223372036854775807. | query 1; X = 1; end
?- a #= X*Y. | query 1; error: type
?- X*Y #= a. | query 1; error: nonlinear
?- X in 2..3, Y in 4..5, X*Y #= 10. | query 1; X = 2, Y = 5; end
?- X in 0..9, B #<=> X #>= 3. | query 1; X = _1(0..9), B = _2(0..1); end
?- X in 0..9, B #<=> X #>= 3, B = 1. | query 1; X = _1(3..9), B = 1; end
?- X in 0..9, B #<=> X #= 3, B = 0. | query 1; X = _1(0..9), B = 0; end
?- X in 0..9, 1 #<=> X #= 3. | query 1; X = 3; end
?- X #<=> Y. | query 1; error: instantiation
?- X #<=> a. | query 1; error: type
?- X #<=> (Y = 1). | query 1; error: type
?- X #<=> Y*Z #= 1. | query 1; error: nonlinear
?- X #<=> Y #= a. | query 1; error: type
?- 2 #<=> X #= 3. | query 1; end
?- fd_and(X, 1, Z). | query 1; X = _1(0..1), Z = _2(0..1); end
?- fd_and(X, Y, Z), Z = 1. | query 1; X = 1, Y = 1, Z = 1; end
?- fd_and(X, Y, Z), X = 0. | query 1; X = 0, Y = _1(0..1), Z = 0; end
?- fd_and(X, 2, Z). | query 1; end
?- fd_or(0, Y, 1). | query 1; Y = 1; end
?- fd_or(X, a, Z). | query 1; error: type
?- fd_not(X, Y). | query 1; X = _1(0..1), Y = _2(0..1); end
?- fd_not(X, 0). | query 1; X = 1; end
?- fd_not(X, X), fd_labeling([X]). | query 1; end
?- X is 1 + 2. | query 1; X = 3; end
?- X is 1 - 2. | query 1; X = -1; end
?- X is 2*3 - 4. | query 1; X = 2; end
?- X is 7//2. | query 1; X = 3; end
?- X is -7//2. | query 1; X = -3; end
?- X is 7// -2. | query 1; X = -3; end
?- X is -7// -2. | query 1; X = 3; end
?- X is 7 mod 2. | query 1; X = 1; end
?- X is -7 mod 2. | query 1; X = 1; end
?- X is 7 mod -2. | query 1; X = -1; end
?- X is -7 mod -2. | query 1; X = -1; end
?- X is 6 mod 3. | query 1; X = 0; end
?- X is -6 mod 4. | query 1; X = 2; end
?- X is 7//0. | query 1; error: evaluation
?- X is 7 mod 0. | query 1; error: evaluation
?- X is -(3). | query 1; X = -3; end
?- X is - (-(3)). | query 1; X = 3; end
?- X is 9223372036854775807. | query 1; X = 9223372036854775807; end
?- X is 9223372036854775807 + 1. | query 1; error: evaluation
?- X is -9223372036854775807 - 1. | query 1; error: evaluation
?- X is 9223372036854775807*1. | query 1; X = 9223372036854775807; end
?- X is 4611686018427387904*2. | query 1; error: evaluation
?- X is 3037000499*3037000499. | query 1; X = 9223372030926249001; end
?- X is -9223372036854775807// -1. | query 1; X = 9223372036854775807; end
?- X is Y. | query 1; error: instantiation
?- X is foo. | query 1; error: type
?- X is f(1). | query 1; error: type
?- X is foo + Y. | query 1; error: type
?- X is Y + foo. | query 1; error: instantiation
?- X is 1//0 + foo. | query 1; error: evaluation
?- X is foo//0. | query 1; error: type
?- X is [1]. | query 1; error: type
?- 3 is 1 + 2. | query 1; true; end
?- 4 is 1 + 2. | query 1; end
?- X = 2, Y is X*X. | query 1; X = 2, Y = 4; end
?- X in 3..3, Y is X + 1. | query 1; X = 3, Y = 4; end
?- X in 3..4, Y is X + 1. | query 1; error: instantiation
?- 1 + 1 =:= 2. | query 1; true; end
?- 1 =:= 2. | query 1; end
?- 1 =\\= 2. | query 1; true; end
?- 2 =\\= 1 + 1. | query 1; end
?- 1 < 2. | query 1; true; end
?- 2 < 2. | query 1; end
?- 2 =< 2. | query 1; true; end
?- 3 =< 2. | query 1; end
?- 2 > 1. | query 1; true; end
?- 2 > 2. | query 1; end
?- 2 >= 2. | query 1; true; end
?- 1 >= 2. | query 1; end
?- X < 1. | query 1; error: instantiation
?- 1 < a. | query 1; error: type
?- a < X. | query 1; error: type
?- a == a. | query 1; true; end
?- a == b. | query 1; end
?- X == X. | query 1; X = _1; end
?- X == Y. | query 1; end
?- f(X,Y) == f(X,Y). | query 1; X = _1, Y = _2; end
?- f(X,Y) == f(Y,X). | query 1; end
?- f(a) == g(a). | query 1; end
?- 1 == 1. | query 1; true; end
?- 1 == a. | query 1; end
?- [1,2] == [1|[2]]. | query 1; true; end
?- X \\== Y. | query 1; X = _1, Y = _2; end
?- X \\== X. | query 1; end
?- a \\== b. | query 1; true; end
?- X in 0..1, X == X. | query 1; X = _1(0..1); end
?- X in 0..1, Y in 0..1, X == Y. | query 1; end
?- X in 1..1, Y in 1..1, X == Y. | query 1; X = 1, Y = 1; end
?- X in 1..1, X == 1. | query 1; X = 1; end
?- var(X). | query 1; X = _1; end
?- var(a). | query 1; end
?- X in 0..1, var(X). | query 1; X = _1(0..1); end
?- X in 1..1, var(X). | query 1; end
?- X = a, var(X). | query 1; end
?- nonvar(X). | query 1; end
?- nonvar(f(X)). | query 1; X = _1; end
?- X in 0..1, nonvar(X). | query 1; end
?- X in 1..1, nonvar(X). | query 1; X = 1; end
?- integer(3). | query 1; true; end
?- integer(a). | query 1; end
?- integer(X). | query 1; end
?- X in 1..1, integer(X). | query 1; X = 1; end
?- X in 1..2, integer(X). | query 1; end
?- atom(a). | query 1; true; end
?- atom([]). | query 1; true; end
?- atom(3). | query 1; end
?- atom(f(a)). | query 1; end
?- atomic(3). | query 1; true; end
?- atomic(a). | query 1; true; end
?- atomic(f(a)). | query 1; end
?- atomic(X). | query 1; end
?- compound(f(a)). | query 1; true; end
?- compound([a]). | query 1; true; end
?- compound([]). | query 1; end
?- compound(X). | query 1; end
?- X in 0..9, X in -{4}, fd_min(X, A), fd_max(X, B), fd_size(X, C), fd_dom(X, D). | query 1; X = _1(0..3:5..9), A = 0, B = 9, C = 9, D = [0..3,5..9]; end
?- fd_min(5, A), fd_max(5, B), fd_size(5, C), fd_dom(5, D). | query 1; A = 5, B = 5, C = 1, D = [5..5]; end
?- fd_min(-5, A), fd_dom(-5, D). | query 1; A = -5, D = [-5.. -5]; end
?- fd_min(X, A). | query 1; error: instantiation
?- fd_size(a, A). | query 1; error: type
?- fd_dom(f(X), A). | query 1; error: type
?- X in 3..3, fd_size(X, S). | query 1; X = 3, S = 1; end
?- X in 0..infinity, fd_size(X, S), fd_dom(X, D). | query 1; X = _1(0..268435455), S = 268435456, D = [0..268435455]; end
?- X in 0..9, fd_min(X, 0). | query 1; X = _1(0..9); end
?- X in 0..9, fd_min(X, 1). | query 1; end
?- X in 0..3, fd_size(X, X). | query 1; end
?- X in 0..5, fd_max(X, Y), Y in 5..9. | query 1; X = _1(0..5), Y = 5; end
?- write(f(X,Y,X)), nl. | query 1; f(_1,_2,_1); X = _1, Y = _2; end
?- write('A b'), write(' '), write([1,2|T]), nl. | query 1; A b [1,2|_1]; T = _1; end
?- write(1-(2-3)), nl, write(- 1), nl, write(-(1)), nl. | query 1; 1-(2-3); -(1); -(1); true; end
?- X in 0..3, write(X-Y-X), nl. | query 1; _1(0..3)-_2-_1(0..3); X = _1(0..3), Y = _2; end
?- X in 0..3, Y in 0..3, X #< Y, fd_labeling([X,Y]). | query 1; X = 0, Y = 1; X = 0, Y = 2; X = 0, Y = 3; X = 1, Y = 2; X = 1, Y = 3; X = 2, Y = 3; end
?- X in 0..3, Y in 0..3, X #= Y, fd_labeling([X,Y]). | query 1; X = 0, Y = 0; X = 1, Y = 1; X = 2, Y = 2; X = 3, Y = 3; end
?- X in 0..3, Y in 0..3, X #\\= Y, fd_labeling([X,Y]). | query 1; X = 0, Y = 1; X = 0, Y = 2; X = 0, Y = 3; X = 1, Y = 0; X = 1, Y = 2; X = 1, Y = 3; X = 2, Y = 0; X = 2, Y = 1; X = 2, Y = 3; X = 3, Y = 0; X = 3, Y = 1; X = 3, Y = 2; end
?- X in 0..5, Y in 0..5, X + Y #= 5, fd_labeling([X,Y]). | query 1; X = 0, Y = 5; X = 1, Y = 4; X = 2, Y = 3; X = 3, Y = 2; X = 4, Y = 1; X = 5, Y = 0; end
?- X in 0..5, Y in 0..5, 2*X + 3*Y #= 12, fd_labeling([X,Y]). | query 1; X = 0, Y = 4; X = 3, Y = 2; end
?- X in 0..5, Y in 0..5, 2*X #=< Y, fd_labeling([Y,X]). | query 1; X = 0, Y = 0; X = 0, Y = 1; X = 0, Y = 2; X = 1, Y = 2; X = 0, Y = 3; X = 1, Y = 3; X = 0, Y = 4; X = 1, Y = 4; X = 2, Y = 4; X = 0, Y = 5; X = 1, Y = 5; X = 2, Y = 5; end
?- X in 0..3, fd_labeling([X]). | query 1; X = 0; X = 1; X = 2; X = 3; end
?- X in 0..9, X in (0..4)*2, fd_labeling([X]). | query 1; X = 0; X = 2; X = 4; X = 6; X = 8; end
?- X in 0..9, X in -(3..7), fd_labeling([X]). | query 1; X = 0; X = 1; X = 2; X = 8; X = 9; end
?- X in 0..9, X in (0..30)/4, fd_labeling([X]). | query 1; X = 0; X = 1; X = 2; X = 3; X = 4; X = 5; X = 6; X = 7; end
?- X in 0..4, Y in 0..4, Y in dom(X)+1, fd_labeling([X,Y]). | query 1; X = 0, Y = 1; X = 1, Y = 2; X = 2, Y = 3; X = 3, Y = 4; end
?- X in 0..4, Y in 0..4, Y in -{val(X)}, fd_labeling([X,Y]). | query 1; X = 0, Y = 1; X = 0, Y = 2; X = 0, Y = 3; X = 0, Y = 4; X = 1, Y = 0; X = 1, Y = 2; X = 1, Y = 3; X = 1, Y = 4; X = 2, Y = 0; X = 2, Y = 1; X = 2, Y = 3; X = 2, Y = 4; X = 3, Y = 0; X = 3, Y = 1; X = 3, Y = 2; X = 3, Y = 4; X = 4, Y = 0; X = 4, Y = 1; X = 4, Y = 2; X = 4, Y = 3; end
?- X in 0..4, Y in 0..4, X in min(Y)..max(Y), fd_labeling([X,Y]). | query 1; X = 0, Y = 0; X = 1, Y = 1; X = 2, Y = 2; X = 3, Y = 3; X = 4, Y = 4; end
?- X in 0..4, Y in 0..4, X in min(Y)+1..infinity, fd_labeling([X,Y]). | query 1; X = 1, Y = 0; X = 2, Y = 0; X = 2, Y = 1; X = 3, Y = 0; X = 3, Y = 1; X = 3, Y = 2; X = 4, Y = 0; X = 4, Y = 1; X = 4, Y = 2; X = 4, Y = 3; end
?- X in 0..4, Y in 1..4, X in 0..8/<min(Y), fd_labeling([X,Y]). | query 1; X = 0, Y = 1; X = 0, Y = 2; X = 0, Y = 3; X = 0, Y = 4; X = 1, Y = 1; X = 1, Y = 2; X = 1, Y = 3; X = 1, Y = 4; X = 2, Y = 1; X = 2, Y = 2; X = 2, Y = 3; X = 2, Y = 4; X = 3, Y = 1; X = 3, Y = 2; X = 4, Y = 1; X = 4, Y = 2; end
?- X in 1..3, Y in 1..3, Z in 1..3, fd_all_different([X,Y,Z]), fd_labeling([X,Y,Z]). | query 1; X = 1, Y = 2, Z = 3; X = 1, Y = 3, Z = 2; X = 2, Y = 1, Z = 3; X = 2, Y = 3, Z = 1; X = 3, Y = 1, Z = 2; X = 3, Y = 2, Z = 1; end
?- X in 1..2, Y in 1..2, Z in 1..2, fd_all_different([X,Y,Z]), fd_labeling([X,Y,Z]). | query 1; end
?- X in 1..3, Y in 1..3, fd_all_different([X,2,Y]), fd_labeling([X,Y]). | query 1; X = 1, Y = 3; X = 3, Y = 1; end
?- X in 1..3, Y in 1..3, fd_all_different([X,Y,X]), fd_labeling([X,Y]). | query 1; end
?- I in 0..9, X in 0..9, fd_element(I, [5,7,5], X), fd_labeling([I,X]). | query 1; I = 1, X = 5; I = 2, X = 7; I = 3, X = 5; end
?- I in 0..9, X in 0..9, fd_element(I, [5,7,5,12], X), fd_labeling([X,I]). | query 1; I = 1, X = 5; I = 3, X = 5; I = 2, X = 7; end
?- I in 0..9, fd_element(I, [3,1,3], 3), fd_labeling([I]). | query 1; I = 1; I = 3; end
?- X in 0..9, fd_element(2, [3,1,3], X), fd_labeling([X]). | query 1; X = 1; end
?- X in 0..2, Y in 0..2, Z in 0..2, fd_atmost(1, [X,Y,Z], 1), fd_labeling([X,Y,Z]). | query 1; X = 0, Y = 0, Z = 0; X = 0, Y = 0, Z = 1; X = 0, Y = 0, Z = 2; X = 0, Y = 1, Z = 0; X = 0, Y = 1, Z = 2; X = 0, Y = 2, Z = 0; X = 0, Y = 2, Z = 1; X = 0, Y = 2, Z = 2; X = 1, Y = 0, Z = 0; X = 1, Y = 0, Z = 2; X = 1, Y = 2, Z = 0; X = 1, Y = 2, Z = 2; X = 2, Y = 0, Z = 0; X = 2, Y = 0, Z = 1; X = 2, Y = 0, Z = 2; X = 2, Y = 1, Z = 0; X = 2, Y = 1, Z = 2; X = 2, Y = 2, Z = 0; X = 2, Y = 2, Z = 1; X = 2, Y = 2, Z = 2; end
?- X in 0..2, Y in 0..2, fd_atmost(0, [X,Y], 1), fd_labeling([X,Y]). | query 1; X = 0, Y = 0; X = 0, Y = 2; X = 2, Y = 0; X = 2, Y = 2; end
?- X in 0..1, Y in 0..1, fd_atmost(1, [X,1,Y], 1), fd_labeling([X,Y]). | query 1; X = 0, Y = 0; end
?- X in 0..1, Y in 0..1, fd_atmost(5, [X,Y], 1), fd_labeling([X,Y]). | query 1; X = 0, Y = 0; X = 0, Y = 1; X = 1, Y = 0; X = 1, Y = 1; end
?- X in 0..3, Y in 0..3, Z in 0..3, X + Y #= Z, X #\\= Y, fd_labeling([Z,X,Y]). | query 1; X = 0, Y = 1, Z = 1; X = 1, Y = 0, Z = 1; X = 0, Y = 2, Z = 2; X = 2, Y = 0, Z = 2; X = 0, Y = 3, Z = 3; X = 1, Y = 2, Z = 3; X = 2, Y = 1, Z = 3; X = 3, Y = 0, Z = 3; end
?- X in 0..3, Y in 0..3, Z in 0..3, X - Y #>= Z, fd_all_different([X,Y,Z]), fd_labeling([X,Y,Z]). | query 1; X = 2, Y = 0, Z = 1; X = 2, Y = 1, Z = 0; X = 3, Y = 0, Z = 1; X = 3, Y = 0, Z = 2; X = 3, Y = 1, Z = 0; X = 3, Y = 1, Z = 2; X = 3, Y = 2, Z = 0; X = 3, Y = 2, Z = 1; end
?- X in 0..2, Y in 0..2, Z in 0..2, X #=< Y, Y #=< Z, fd_labelingff([X,Y,Z]). | query 1; X = 0, Y = 0, Z = 0; X = 0, Y = 0, Z = 1; X = 0, Y = 0, Z = 2; X = 0, Y = 1, Z = 1; X = 0, Y = 1, Z = 2; X = 0, Y = 2, Z = 2; X = 1, Y = 1, Z = 1; X = 1, Y = 1, Z = 2; X = 1, Y = 2, Z = 2; X = 2, Y = 2, Z = 2; end
?- X in 0..2, Y in 0..5, X*3 #\\= Y, fd_labelingff([Y,X]). | query 1; X = 0, Y = 1; X = 0, Y = 2; X = 0, Y = 3; X = 0, Y = 4; X = 0, Y = 5; X = 1, Y = 0; X = 1, Y = 1; X = 1, Y = 2; X = 1, Y = 4; X = 1, Y = 5; X = 2, Y = 0; X = 2, Y = 1; X = 2, Y = 2; X = 2, Y = 3; X = 2, Y = 4; X = 2, Y = 5; end
?- X in 0..3, Y in 0..3, 3*X - 2*Y #> 4, fd_labeling([X,Y]). | query 1; X = 2, Y = 0; X = 3, Y = 0; X = 3, Y = 1; X = 3, Y = 2; end
?- X in 0..3, Y in 0..3, 5 - X #< Y, fd_labeling([X,Y]). | query 1; X = 3, Y = 3; end
?- X in 0..6, Y in 0..6, 7*X - 5*Y #= 3, fd_labeling([X,Y]). | query 1; X = 4, Y = 5; end
?- X in 0..3, fd_labeling([X]), X #> 1, !. | query 1; X = 2; end
p(X) :- X in 1..3, fd_labeling([X]), !. q(1). q(2). ?- p(X), q(Y). | query 1; X = 1, Y = 1; X = 1, Y = 2; end
p(X) :- X in 1..2, fd_labeling([X]). ?- p(X), (p(Y), Y #\\= X -> true ; true). | query 1; X = 1, Y = 2; X = 2, Y = 1; end
?- X in 0..9, ((X #< 5 ; X #> 7), X #> 2 -> true ; X = 0), fd_labeling([X]). | query 1; X = 3; X = 4; end
?- X in 0..9, ((X #< 3 ; X #> 5), X #> 4 -> true ; X = 0). | query 1; X = _1(6..9); end
?- X in 0..9, (X #> 4, X #< 3 -> Y = a ; Y = b), X #< 8. | query 1; X = _1(0..7), Y = b; end
?- X in 0..9, \\+ X #> 9. ?- X in 0..9, \\+ X #> 4. | query 1; X = _1(0..9); end; query 2; end
?- X in 0..3, \\+ (X #> 1, X #< 1), Y in min(X)..2. | query 1; X = _1(0..3), Y = _2(0..2); end
?- X in 0..3, (\\+ X = 5 -> X #> 1 ; true), fd_labeling([X]). | query 1; X = 2; X = 3; end
?- X in 0..3, \\+ (Y is X + 1). | query 1; error: instantiation
?- X in 0..9, (X in C..9 -> true ; true). | query 1; error: instantiation
?- X in 0..3, Y in 0..1, C #= X + Y, C #=< 3, fd_maximize(fd_labeling([X,Y,C]), C). | query 1; X = 2, Y = 1, C = 3; end
?- X in 0..3, Y in 0..1, C #= X + Y, C #=< 3, fd_maximize(fd_labelingff([X,Y,C]), C). | query 1; X = 3, Y = 0, C = 3; end
?- X in 2..3, fd_minimize(fd_labeling([X]), 7). ?- X in 2..3, fd_maximize(fd_labeling([X]), -7). | query 1; X = 2; end; query 2; X = 2; end
?- X in 0..3, X #\\= 3, fd_maximize(fd_labeling([X,5,X]), X), (Y = a ; Y = b). | query 1; X = 2, Y = a; X = 2, Y = b; end
?- X in 1..2, Y in 1..2, Z in 1..2, fd_all_different([X,Y,Z]), fd_minimize(fd_labeling([X,Y,Z]), X). | query 1; end
?- X = 3, Y in 0..2, fd_maximize(fd_labeling([X,Y]), X). | query 1; X = 3, Y = 0; end
?- fd_minimize(fd_labeling([a]), f(X)). ?- X in 0..3, fd_minimize(fd_labeling([X|_]), X). | query 1; error: type; query 2; error: instantiation
?- X in 0..1, fd_maximize(fd_labeling([X]), a). ?- X in 0..1, fd_maximize(fd_labeling([]), X). | query 1; error: type; query 2; error: parameter
best(X, C) :- X in 0..3, C #= 3 - X, fd_minimize(fd_labelingff([X,C]), C), !. best(9, 9). ?- best(X, C). ?- \\+ best(1, _), true. | query 1; X = 3, C = 0; end; query 2; end";

/// Texts of ranges over variables, in the same form: parameters, several intervals, open values, divisors and empty domains.
const RANGES: &str = "\
?- X in 1..5, X in 3..9. | query 1; X = _1(3..5); end
?- X in ({1}:{4})*3+1. | query 1; X = _1(4:13); end
?- X in 5..3. | query 1; end
?- X in 3..3, Y in X..9. | query 1; X = 3, Y = _1(3..9); end
?- X in 0..9, Y in X..9. | query 1; error: instantiation
?- X in 0..0, Y in 0..7/<X. | query 1; error: parameter
?- X in 0..9, Y in min(X)..9, X in 4..9. | query 1; X = _1(4..9), Y = _2(4..9); end
?- X in 0..5, Y in val(X)..9, X in 2..2. | query 1; X = 2, Y = _1(2..9); end
?- X in 3..3, Y in min(X)..5. | query 1; X = 3, Y = _1(3..5); end
?- X in 3..3, X in 2..4. | query 1; X = 3; end
?- X in 3..3, X in 4..9. | query 1; end
?- X in min(X)..5. | query 1; X = _1(0..5); end
?- Y in 0..9, Y in dom(X). | query 1; Y = _1(0..9), X = _2(0..268435455); end
?- X in 0..10, Y in 0..10, X in min(Y)+1..infinity, Y in 0..max(X)-1. | query 1; X = _1(1..10), Y = _2(0..9); end
?- X in 0..9, Y in 0..9, Z in 0..9, X in min(Y)+1..infinity, Y in min(Z)+1..infinity. | query 1; X = _1(2..9), Y = _2(1..9), Z = _3(0..9); end
?- Y in 0..3, X in 0..7/<min(Y). | query 1; Y = _1(0..3), X = _2(0..268435455); end
?- Y in 0..3, X in 0..7/<min(Y), Y in 2..9. | query 1; Y = _1(2..3), X = _2(0..3); end
?- X in 3..9, Y in min(X)/>2..9. | query 1; X = _1(3..9), Y = _2(2..9); end
?- X in 2..2, Y in 0..7/<X. | query 1; X = 2, Y = _1(0..3); end
?- X in 3..3, Y in (1..10)/X. | query 1; X = 3, Y = _1(1..3); end
?- X in 0..0, Y in (0..9)/X. | query 1; error: parameter
?- X in 2..2, Y in (1..3)*X. | query 1; X = 2, Y = _1(2:4:6); end
?- X in 0..0, Y in C..7/<X. | query 1; error: instantiation
?- X in 0..0, Y in 0..7/<X+C. | query 1; error: parameter
?- X in 0..3, Y in 0..3, X in -{val(Y)}. | query 1; X = _1(0..3), Y = _2(0..3); end
?- X in 0..3, Y in 0..3, X in -{val(Y)}, Y in 2..2. | query 1; X = _1(0..1:3), Y = 2; end
?- X in 0..1, Y in 0..1, X in -{val(Y)}, Y in -{val(X)}, X in 1..1. | query 1; X = 1, Y = 0; end
?- X in 0..9, Y in dom(X), X in 1..2:5..6. | query 1; X = _1(1..2:5..6), Y = _2(1..2:5..6); end
?- X in 1..2:5..6, Y in dom(X)+10. | query 1; X = _1(1..2:5..6), Y = _2(11..12:15..16); end
?- X in 1..2, Y in 5..6, Z in dom(X):dom(Y). | query 1; X = _1(1..2), Y = _2(5..6), Z = _3(1..2:5..6); end
?- X in 1..5, Y in 4..9, Z in dom(X)&dom(Y). | query 1; X = _1(1..5), Y = _2(4..9), Z = _3(4..5); end
?- X in 1..2, Y in 5..6, Z in dom(X)&dom(Y). | query 1; end
?- X in 0..9, Y in min(X)..5, X in 6..9, Z in C..2. | query 1; end
?- X in 1..3, Y in 2..4, Z in min(X)*min(Y)..max(X)*max(Y). | query 1; X = _1(1..3), Y = _2(2..4), Z = _3(2..12); end
?- X in 0..3, Y in 0..max(X)-5. | query 1; end
?- X in 16777215..infinity. | query 1; X = _1(16777215..268435455); end
?- X in 3..3, X in min(X)..9. | query 1; X = 3; end
?- X in 0..1, _ in 1..1. | query 1; X = _1(0..1); end
?- _X in 0..4. | query 1; true; end";

/// What it shows, the words, the text, and the lines of its output.
const WORKED: &str = "\
two intervals of one variable meet |  | ?- X in 1..5, X in 3..9. | query 1; X = _1(3..5); end
an empty interval fails |  | ?- X in 5..3. | query 1; end
two bounds at once |  | ?- X in 0..10, Y in 0..10, X in min(Y)+1..infinity, Y in 0..max(X)-1. | query 1; X = _1(1..10), Y = _2(0..9); end
a complement leaves two intervals |  | ?- X in 0..3, X in -{2}. | query 1; X = _1(0..1:3); end
a disequality takes the value away |  | ?- X in 1..3, Y in 1..3, X #\\= Y, Y = 2. | query 1; X = _1(1:3), Y = 2; end
two constrained variables become one |  | ?- X in 0..9, Y in 5..20, X = Y. | query 1; X = _1(5..9), Y = _1(5..9); end
one variable isn't less than itself |  | ?- X in 0..9, Y in 0..9, X in min(Y)+1..infinity, X = Y. | query 1; end
send more money |  | dig([]). dig([X|Xs]) :- X in 0..9, dig(Xs). ?- L = [S,E,N,D,M,O,R,Y], dig(L), S #>= 1, M #>= 1, 1000*S+100*E+10*N+D + 1000*M+100*O+10*R+E #= 10000*M+1000*O+100*N+10*E+Y, fd_all_different(L), fd_labeling(L). | query 1; L = [9,5,6,7,1,0,8,2], S = 9, E = 5, N = 6, D = 7, M = 1, O = 0, R = 8, Y = 2; end
send more money by the cheapest first | --agenda cheapest | dig([]). dig([X|Xs]) :- X in 0..9, dig(Xs). ?- L = [S,E,N,D,M,O,R,Y], dig(L), S #>= 1, M #>= 1, 1000*S+100*E+10*N+D + 1000*M+100*O+10*R+E #= 10000*M+1000*O+100*N+10*E+Y, fd_all_different(L), fd_labeling(L). | query 1; L = [9,5,6,7,1,0,8,2], S = 9, E = 5, N = 6, D = 7, M = 1, O = 0, R = 8, Y = 2; end
four queens |  | safe([]). safe([Q|Qs]) :- apart(Q, Qs, 1), safe(Qs). apart(Q, [], D). apart(Q, [R|Rs], D) :- Q #\\= R, Q #\\= R + D, Q #\\= R - D, E is D + 1, apart(Q, Rs, E). range([], N). range([Q|Qs], N) :- Q in 1..N, range(Qs, N). ?- L = [_Q1,_Q2,_Q3,_Q4], range(L, 4), safe(L), fd_labeling(L). | query 1; L = [2,4,1,3]; L = [3,1,4,2]; end
each branch has its own domains |  | p(X) :- X in 1..2. p(X) :- X in 8..9. ?- X in 0..8, p(X). | query 1; X = _1(1..2); X = 8; end
stamps are given back |  | p(X) :- X in 1..2. p(X) :- X in 8..9. p(X) :- X in 4..5. ?- X in 0..8, p(X). | query 1; X = _1(1..2); X = 8; X = _1(4..5); end
a loop spends five steps | --steps 5 | loop :- loop. ?- loop. | query 1; budget
no term holds itself |  | ?- X = f(X). | query 1; end
the numbers of an element |  | ?- fd_element(I, [5,7,5], 5). | query 1; I = _1(1:3); end
at most one member |  | ?- X = 3, Y in 3..4, fd_atmost(1, [X,Y], 3). | query 1; X = 3, Y = 4; end
a union with a complement |  | ?- X in 1..3: -{2}. | query 1; X = _1(0..268435455); end
first fail |  | ?- X in 1..3, Y in 1..2, fd_labelingff([X,Y]). | query 1; X = 1, Y = 1; X = 2, Y = 1; X = 3, Y = 1; X = 1, Y = 2; X = 2, Y = 2; X = 3, Y = 2; end
first fail takes the first of equals |  | ?- X in 1..2, Y in 1..2, fd_labelingff([X,Y]). | query 1; X = 1, Y = 1; X = 1, Y = 2; X = 2, Y = 1; X = 2, Y = 2; end
an open parameter |  | ?- X in C..9. | query 1; error: instantiation
the greatest numbers, and an equation without a solution |  | ?- X in 16777215..infinity. ?- X in 0..9, 2*X #= 7. | query 1; X = _1(16777215..268435455); end; query 2; end
a chain of inequalities |  | ?- X in 0..9, Y in 0..9, Z in 0..9, X #< Y, Y #< Z. | query 1; X = _1(0..7), Y = _2(1..8), Z = _3(2..9); end
both readers of two bounds are woken |  | ?- X in 0..9, Y in 0..9, Z in 0..9, X #< Y, Y #< Z, Y = 4. | query 1; X = _1(0..3), Y = 4, Z = _2(5..9); end
a divisor that may be zero |  | ?- Y in 0..3, X in 0..7/<min(Y). | query 1; Y = _1(0..3), X = _2(0..268435455); end
a divisor that gets a value |  | ?- Y in 0..3, X in 0..7/<min(Y), Y = 2. | query 1; Y = 2, X = _1(0..3); end
questions for a domain |  | ?- X in 0..3, X in -{2}, fd_dom(X, D), fd_size(X, S). | query 1; X = _1(0..1:3), D = [0..1,3..3], S = 3; end
written terms |  | ?- X in 1..2, write(X), nl, X = 1, write(X), nl. | query 1; _1(1..2); 1; X = 1; end
the faults of arithmetic |  | ?- X is 7//0. ?- X is foo. ?- X is 7//2. | query 1; error: evaluation; query 2; error: type; query 3; X = 3; end
a parameter below its need |  | ?- X in 1..5, N = -1, Y in min(X)*N..9. | query 1; error: parameter
a product of open variables |  | ?- X in 0..3, Y in 0..3, X*Y #= 4. | query 1; X = 2, Y = 2; end
whether a comparison is true |  | ?- X in 0..9, B #<=> X #< 5, X in 7..9. | query 1; X = _1(7..9), B = 0; end
both, and one of two |  | ?- fd_and(X,Y,1). ?- X in 0..1, Y in 0..1, fd_or(X,Y,Z), Z = 0. | query 1; X = 1, Y = 1; end; query 2; X = 0, Y = 0, Z = 0; end
an atom is neither 0 nor 1 |  | ?- fd_not(a, Y). | query 1; error: type
a cut behind the last way |  | p. ?- p, !. | query 1; true; end
a cut drops the other clauses |  | q(X) :- X in 1..2, !. q(X) :- X in 8..9. ?- X in 0..8, q(X). ?- X in 3..8, q(X). | query 1; X = _1(1..2); end; query 2; X = 8; end
stamps under an if |  | ?- X in 0..9, (true ; Y = 2), (X in 0..5 -> true ; true), (X in 0..3 ; X in 2..8). | query 1; X = _1(0..3), Y = _2; X = _1(2..5), Y = _2; X = _1(0..3), Y = 2; X = _1(2..5), Y = 2; end
a cut in a test is its own |  | r(1). r(2). ?- (r(X), ! -> true ; true), r(Y). | query 1; X = 1, Y = 1; X = 1, Y = 2; end
negations |  | ?- \\+ X = 1. ?- \\+ 1 = 2. | query 1; end; query 2; true; end
an if spends four steps | --steps 4 | ?- ( true -> true ; fail ). | query 1; true; end
an if has no fourth step | --steps 3 | ?- ( true -> true ; fail ). | query 1; budget
a negation spends two steps | --steps 2 | ?- \\+ fail. | query 1; true; end
a negation has no second step | --steps 1 | ?- \\+ fail. | query 1; budget
a cut spends a step | --steps 1 | ?- !. | query 1; true; end
a cut in a test that fails |  | ?- (X = 1, !, fail -> Y = a ; Y = b). | query 1; X = _1, Y = b; end
the least cost |  | ?- X in 0..3, Y in 0..3, X + Y #>= 3, C #= 2*X + 3*Y, fd_minimize(fd_labeling([X,Y,C]), C). | query 1; X = 3, Y = 0, C = 6; end
the first of the best |  | ?- X in 0..2, Y in 0..2, C #= X + Y, C #>= 2, fd_minimize(fd_labeling([X,Y,C]), C). | query 1; X = 0, Y = 2, C = 2; end
the greatest cost |  | ?- X in 0..2, Y in 0..2, X #\\= Y, C #= X + Y, fd_maximize(fd_labeling([X,Y,C]), C). | query 1; X = 1, Y = 2, C = 3; end
a cost that isn't labelled |  | ?- X in 1..2, fd_minimize(fd_labeling([X]), Y). | query 1; error: parameter
the greatest cost by the cheapest first | --agenda cheapest | ?- X in 0..2, Y in 0..2, X #\\= Y, C #= X + Y, fd_maximize(fd_labeling([X,Y,C]), C). | query 1; X = 1, Y = 2, C = 3; end
a search for a cost spends one step | --steps 2 | ?- X in 0..9, fd_maximize(fd_labeling([X]), X). | query 1; X = 9; end
and has to have it | --steps 1 | ?- X in 0..9, fd_maximize(fd_labeling([X]), X). | query 1; budget
a smaller universe | --infinity 9 | ?- X in 3..infinity, Y in -{0}. ?- X in 0..20. ?- 12 in 0..20. | query 1; X = _1(3..9), Y = _2(1..9); end; query 2; X = _1(0..9); end; query 3; end
infinity is a number of the text | --infinity 9 | ?- X in infinity-1..infinity+5. ?- X in (0..3)+(infinity-2). ?- X in 0..infinity, fd_size(X, S), fd_dom(X, D). | query 1; X = _1(8..9); end; query 2; X = _1(7..9); end; query 3; X = _1(0..9), S = 10, D = [0..9]; end
a free member of a labelling | --infinity 2 | ?- fd_labeling([X]). ?- Y in 1..5, fd_labeling([X,Y]). | query 1; X = 0; X = 1; X = 2; end; query 2; Y = 1, X = 0; Y = 2, X = 0; Y = 1, X = 1; Y = 2, X = 1; Y = 1, X = 2; Y = 2, X = 2; end
a sum past the greatest number | --infinity 9 | ?- X + Y #>= 17, fd_labeling([X,Y]). ?- X in 6..20, Y in 2..20, X + Y #= Z, fd_labeling([X,Y,Z]). ?- X in 6..9, Y in 5..9, X + Y #= Z. | query 1; X = 8, Y = 9; X = 9, Y = 8; X = 9, Y = 9; end; query 2; X = 6, Y = 2, Z = 8; X = 6, Y = 3, Z = 9; X = 7, Y = 2, Z = 9; end; query 3; end
a product past the greatest number | --infinity 9 | ?- X in 2..9, Y in 4..9, X*Y #= Z. ?- X in 2..6, Y in 2..6, X*Y #= 12. | query 1; X = 2, Y = 4, Z = 8; end; query 2; end
different numbers of few | --infinity 2 | ?- fd_all_different([X,Y,Z]), fd_labeling([X,Y,Z]). ?- fd_all_different([X,Y,Z,W]), fd_labeling([X,Y,Z,W]). ?- fd_all_different([3]). | query 1; X = 0, Y = 1, Z = 2; X = 0, Y = 2, Z = 1; X = 1, Y = 0, Z = 2; X = 1, Y = 2, Z = 0; X = 2, Y = 0, Z = 1; X = 2, Y = 1, Z = 0; end; query 2; end; query 3; end
costs of few numbers | --infinity 6 | ?- X + Y #>= 3, C #= 2*X + 3*Y, fd_minimize(fd_labeling([X,Y,C]), C). ?- X + Y #>= 4, C #= 2*X + 3*Y, fd_minimize(fd_labeling([X,Y,C]), C). ?- X #\\= Y, C #= X + Y, fd_maximize(fd_labeling([X,Y,C]), C). | query 1; X = 3, Y = 0, C = 6; end; query 2; end; query 3; X = 0, Y = 6, C = 6; end
two answers of first fail | --answers 2 | ?- X in 1..3, Y in 1..2, fd_labelingff([X,Y]). | query 1; X = 1, Y = 1; X = 2, Y = 1; limit
quoted atoms and operators |  | ?- true. ?- X = f(Y,-(1),1-(2-3)), Y = 'A b'. | query 1; true; end; query 2; X = f('A b',-(1),1-(2-3)), Y = 'A b'; end
an atom is no number |  | ?- X in 1..2, X = a. ?- X = a, X in 1..2. ?- X = -1, X in 0..9. | query 1; end; query 2; error: type; query 3; end
a repeated answer is told twice |  | p. p. ?- p. | query 1; true; true; end
a constrained variable meets two integers |  | q(1). q(2). ?- X in 1..2, q(X). | query 1; X = 1; X = 2; end
identical variables |  | ?- X = Y, X == Y. | query 1; X = _1, Y = _1; end
a coefficient past 63 bits |  | ?- 9223372036854775807*X - -1*X #= 0. | query 1; error: evaluation
a false form without variables |  | ?- 2 #= 3. | query 1; end
a true form without variables |  | ?- X - X #= 0. | query 1; X = _1; end
an open tail |  | ?- fd_all_different([X|_]). | query 1; error: instantiation
an element of no list |  | ?- fd_element(I, [], 5). | query 1; end
a single member lies in the universe |  | ?- fd_all_different([-1]). | query 1; end
a parameter that is a number |  | ?- X in 3..3, Y in X..9. | query 1; X = 3, Y = _1(3..9); end
a divisor that is zero |  | ?- X in 0..0, Y in 0..7/<X. | query 1; error: parameter
a scaled set |  | ?- X in ({1}:{4})*3+1. | query 1; X = _1(4:13); end
a set divided |  | ?- X in (0..10)/3. | query 1; X = _1(0..3); end
20,000 variables under 40,000 marks | --answers 1 | mk(0,[]). mk(N,[X|Xs]) :- N > 0, X in 0..1, M is N-1, mk(M,Xs). d. d. c(0). c(N) :- N > 0, d, M is N-1, c(M). ?- mk(20000,_L), c(40000). | query 1; true; limit";

/// Flat queries: what each shows, its text, and the lines of its output. They were counted outside the program by this, with a
/// condition written by hand for each row, and the answers sorted in the order of the labelling:
///
///     for values in itertools.product(range(13), repeat=len(variables)):
///         a = dict(zip(variables, values))
///         if eval(condition, dict(a)): found.append(a)
const FLATS: &str = "\
less | ?- X in 0..3, Y in 1..2, X #< Y, fd_labeling([X,Y]). | query 1; X = 0, Y = 1; X = 0, Y = 2; X = 1, Y = 2; end
at most, the second one first | ?- X in 1..3, Y in 0..2, X #=< Y, fd_labeling([Y,X]). | query 1; X = 1, Y = 1; X = 1, Y = 2; X = 2, Y = 2; end
greater | ?- X in 0..4, Y in 2..6, X #> Y, fd_labeling([X,Y]). | query 1; X = 3, Y = 2; X = 4, Y = 2; X = 4, Y = 3; end
at least | ?- X in 0..3, Y in 2..6, X #>= Y, fd_labeling([X,Y]). | query 1; X = 2, Y = 2; X = 3, Y = 2; X = 3, Y = 3; end
equal with a constant | ?- X in 0..9, Y in 3..5, X #= Y + 4, fd_labeling([X,Y]). | query 1; X = 7, Y = 3; X = 8, Y = 4; X = 9, Y = 5; end
different by a distance | ?- X in 0..2, Y in 0..2, X #\\= Y + 1, fd_labeling([X,Y]). | query 1; X = 0, Y = 0; X = 0, Y = 1; X = 0, Y = 2; X = 1, Y = 1; X = 1, Y = 2; X = 2, Y = 0; X = 2, Y = 2; end
coefficients on both sides | ?- X in 0..6, Y in 0..6, 3*X + 2 #= 2*Y + 5, fd_labeling([X,Y]). | query 1; X = 1, Y = 0; X = 3, Y = 3; X = 5, Y = 6; end
coefficients without an integer answer | ?- X in 0..6, Y in 0..6, 4*X + 6*Y #= 15, fd_labeling([X,Y]). | query 1; end
three terms with both signs | ?- X in 0..3, Y in 0..3, Z in 0..3, 2*X - 3*Y + Z #= 4, fd_labeling([X,Y,Z]). | query 1; X = 1, Y = 0, Z = 2; X = 2, Y = 0, Z = 0; X = 2, Y = 1, Z = 3; X = 3, Y = 1, Z = 1; end
a sum of three at most | ?- X in 1..3, Y in 1..3, Z in 1..3, X + Y + Z #=< 4, fd_labeling([X,Y,Z]). | query 1; X = 1, Y = 1, Z = 1; X = 1, Y = 1, Z = 2; X = 1, Y = 2, Z = 1; X = 2, Y = 1, Z = 1; end
a sum of three at least | ?- X in 0..2, Y in 0..2, Z in 0..2, X + 2*Y + 3*Z #>= 11, fd_labeling([X,Y,Z]). | query 1; X = 1, Y = 2, Z = 2; X = 2, Y = 2, Z = 2; end
a variable on both sides | ?- X in 0..4, Y in 0..4, 2*X + Y #< X + 2, fd_labeling([X,Y]). | query 1; X = 0, Y = 0; X = 0, Y = 1; X = 1, Y = 0; end
a variable that falls out | ?- X in 0..1, Y in 0..9, X + Y - X #= 7, fd_labeling([X,Y]). | query 1; X = 0, Y = 7; X = 1, Y = 7; end
a negative side | ?- X in 0..5, Y in 0..5, -X - Y #>= -2, fd_labeling([X,Y]). | query 1; X = 0, Y = 0; X = 0, Y = 1; X = 0, Y = 2; X = 1, Y = 0; X = 1, Y = 1; X = 2, Y = 0; end
a chain of doubles | ?- X in 0..9, Y in 0..9, Z in 0..9, Y #= 2*X, Z #= 2*Y, Z #> 0, fd_labeling([X,Y,Z]). | query 1; X = 1, Y = 2, Z = 4; X = 2, Y = 4, Z = 8; end
a circle of less | ?- X in 0..9, Y in 0..9, Z in 0..9, X #< Y, Y #< Z, Z #< X, fd_labeling([X,Y,Z]). | query 1; end
a comparison of numbers that is false | ?- X in 0..2, 3 #< 2, fd_labeling([X]). | query 1; end
a comparison of numbers that is true | ?- X in 0..2, 2*3 #>= 6, fd_labeling([X]). | query 1; X = 0; X = 1; X = 2; end
a domain with a hole | ?- X in 0..2:6..7, Y in 1..9, X + Y #= 9, fd_labeling([X,Y]). | query 1; X = 0, Y = 9; X = 1, Y = 8; X = 2, Y = 7; X = 6, Y = 3; X = 7, Y = 2; end
a complement within an interval | ?- X in 0..6, X in -(2..4), Y in 0..1, X #> 3*Y, fd_labeling([X,Y]). | query 1; X = 1, Y = 0; X = 5, Y = 0; X = 5, Y = 1; X = 6, Y = 0; X = 6, Y = 1; end
single numbers | ?- X in {2}:{5}:{9}, Y in {1}:{4}, X #< 2*Y, fd_labeling([X,Y]). | query 1; X = 2, Y = 4; X = 5, Y = 4; end
even and odd numbers | ?- X in (0..4)*2, Y in (0..3)*2+1, X #= Y + 1, fd_labeling([X,Y]). | query 1; X = 2, Y = 1; X = 4, Y = 3; X = 6, Y = 5; X = 8, Y = 7; end
a set divided | ?- X in (1..20)/6, Y in 0..9, 2*X #= Y, fd_labeling([X,Y]). | query 1; X = 1, Y = 2; X = 2, Y = 4; X = 3, Y = 6; end
a set and its complement | ?- X in (3..9)&(-(5..7)), fd_labeling([X]). | query 1; X = 3; X = 4; X = 8; X = 9; end
a neighbour in either direction | ?- X in 0..4, Y in 1..3, X in dom(Y)+1:dom(Y)-1, Y in dom(X)+1:dom(X)-1, fd_labeling([X,Y]). | query 1; X = 0, Y = 1; X = 1, Y = 2; X = 2, Y = 1; X = 2, Y = 3; X = 3, Y = 2; X = 4, Y = 3; end
a range of both bounds | ?- X in 0..5, Y in 2..4, X in min(Y)..max(Y), Y in min(X)..max(X), fd_labeling([X,Y]). | query 1; X = 2, Y = 2; X = 3, Y = 3; X = 4, Y = 4; end
a bound that is a quotient | ?- X in 1..3, Y in 0..12, Y in 0..7/<min(X), Y #>= 3, fd_labeling([X,Y]). | query 1; X = 1, Y = 3; X = 1, Y = 4; X = 1, Y = 5; X = 1, Y = 6; X = 1, Y = 7; X = 2, Y = 3; end
a value that isn't another's | ?- X in 0..2, Y in 0..2, X in -{val(Y)+1}, X #\\= Y, fd_labeling([X,Y]). | query 1; X = 0, Y = 1; X = 0, Y = 2; X = 1, Y = 2; X = 2, Y = 0; end
no number is left | ?- X in 0..3, X in 5..9, fd_labeling([X]). | query 1; end
three different numbers | ?- X in 1..3, Y in 1..3, Z in 2..3, fd_all_different([X,Y,Z]), fd_labeling([X,Y,Z]). | query 1; X = 1, Y = 2, Z = 3; X = 1, Y = 3, Z = 2; X = 2, Y = 1, Z = 3; X = 3, Y = 1, Z = 2; end
three different of two numbers | ?- X in 4..5, Y in 4..5, Z in 4..5, fd_all_different([X,Y,Z]), fd_labeling([Z,Y,X]). | query 1; end
different from two numbers | ?- X in 0..3, Y in 0..3, fd_all_different([X,1,Y,3]), fd_labeling([X,Y]). | query 1; X = 0, Y = 2; X = 2, Y = 0; end
a member that stands twice is different from itself | ?- X in 0..2, fd_all_different([X,X]), fd_labeling([X]). | query 1; end
different with a sum | ?- X in 1..4, Y in 1..4, Z in 1..4, fd_all_different([X,Y,Z]), X + Y #= Z, fd_labeling([X,Y,Z]). | query 1; X = 1, Y = 2, Z = 3; X = 1, Y = 3, Z = 4; X = 2, Y = 1, Z = 3; X = 3, Y = 1, Z = 4; end
the places of an element | ?- I in 1..5, X in 3..9, fd_element(I, [2,4,4,8,1], X), fd_labeling([I,X]). | query 1; I = 2, X = 4; I = 3, X = 4; I = 4, X = 8; end
the elements first | ?- I in 0..9, X in 0..9, fd_element(I, [7,3,7], X), fd_labeling([X,I]). | query 1; I = 2, X = 3; I = 1, X = 7; I = 3, X = 7; end
a price that is bounded | ?- I in 1..4, X in 0..12, fd_element(I, [9,4,6,2], X), X + I #=< 9, fd_labeling([I,X]). | query 1; I = 2, X = 4; I = 3, X = 6; I = 4, X = 2; end
two places of one table | ?- I in 1..3, J in 1..3, X in 0..9, fd_element(I, [5,6,5], X), fd_element(J, [6,5,6], X), fd_labeling([I,J,X]). | query 1; I = 1, J = 2, X = 5; I = 2, J = 1, X = 6; I = 2, J = 3, X = 6; I = 3, J = 2, X = 5; end
an element that isn't there | ?- I in 0..9, X in 1..2, fd_element(I, [3,4,5], X), fd_labeling([I,X]). | query 1; end
at most one of three | ?- X in 0..1, Y in 0..1, Z in 0..1, fd_atmost(1, [X,Y,Z], 1), fd_labeling([X,Y,Z]). | query 1; X = 0, Y = 0, Z = 0; X = 0, Y = 0, Z = 1; X = 0, Y = 1, Z = 0; X = 1, Y = 0, Z = 0; end
at most none | ?- X in 2..3, Y in 2..4, fd_atmost(0, [X,Y], 3), fd_labeling([X,Y]). | query 1; X = 2, Y = 2; X = 2, Y = 4; end
at most with a number in the list | ?- X in 4..5, Y in 4..5, fd_atmost(2, [X,5,Y], 5), fd_labeling([X,Y]). | query 1; X = 4, Y = 4; X = 4, Y = 5; X = 5, Y = 4; end
at most with a member twice | ?- X in 0..1, Y in 0..1, fd_atmost(1, [X,Y,X], 0), fd_labeling([X,Y]). | query 1; X = 1, Y = 0; X = 1, Y = 1; end
exactly one of each | ?- X in 1..3, Y in 1..3, Z in 1..3, fd_atmost(1, [X,Y,Z], 1), fd_atmost(1, [X,Y,Z], 2), fd_atmost(1, [X,Y,Z], 3), fd_labeling([X,Y,Z]). | query 1; X = 1, Y = 2, Z = 3; X = 1, Y = 3, Z = 2; X = 2, Y = 1, Z = 3; X = 2, Y = 3, Z = 1; X = 3, Y = 1, Z = 2; X = 3, Y = 2, Z = 1; end
first fail takes the smaller domain | ?- X in 0..3, Y in 1..2, X #\\= Y, fd_labelingff([X,Y]). | query 1; X = 0, Y = 1; X = 2, Y = 1; X = 3, Y = 1; X = 0, Y = 2; X = 1, Y = 2; X = 3, Y = 2; end
first fail takes the first of equals | ?- X in 0..2, Y in 1..3, X #\\= Y, fd_labelingff([Y,X]). | query 1; X = 0, Y = 1; X = 2, Y = 1; X = 0, Y = 2; X = 1, Y = 2; X = 0, Y = 3; X = 1, Y = 3; X = 2, Y = 3; end
first fail with three | ?- X in 0..4, Y in 0..2, Z in 0..1, X + Y + Z #= 5, fd_labelingff([X,Y,Z]). | query 1; X = 3, Y = 2, Z = 0; X = 4, Y = 1, Z = 0; X = 2, Y = 2, Z = 1; X = 3, Y = 1, Z = 1; X = 4, Y = 0, Z = 1; end
a member labelled twice | ?- X in 0..2, Y in 0..2, X #< Y, fd_labeling([Y,X,Y,X]). | query 1; X = 0, Y = 1; X = 0, Y = 2; X = 1, Y = 2; end
numbers among the labelled | ?- X in 1..2, Y in 5..6, X + Y #\\= 7, fd_labeling([3,Y,7,X]). | query 1; X = 1, Y = 5; X = 2, Y = 6; end
first fail without an answer | ?- X in 0..2, Y in 0..2, Z in 0..1, X #< Y, Y #< Z, fd_labelingff([X,Y,Z]). | query 1; end
a product that is a number | ?- X in 1..6, Y in 1..6, X*Y #= 12, fd_labeling([X,Y]). | query 1; X = 2, Y = 6; X = 3, Y = 4; X = 4, Y = 3; X = 6, Y = 2; end
a product of three variables | ?- X in 0..3, Y in 2..4, Z in 5..9, Z #= X*Y, fd_labeling([Z,X,Y]). | query 1; X = 2, Y = 3, Z = 6; X = 3, Y = 2, Z = 6; X = 2, Y = 4, Z = 8; X = 3, Y = 3, Z = 9; end
a square | ?- X in 0..9, Z in 0..12, X*X #= Z, fd_labeling([X,Z]). | query 1; X = 0, Z = 0; X = 1, Z = 1; X = 2, Z = 4; X = 3, Z = 9; end
a product without an answer | ?- X in 2..3, Y in 2..3, X*Y #= 5, fd_labeling([X,Y]). | query 1; end
both | ?- fd_and(X, Y, Z), fd_labeling([X,Y,Z]). | query 1; X = 0, Y = 0, Z = 0; X = 0, Y = 1, Z = 0; X = 1, Y = 0, Z = 0; X = 1, Y = 1, Z = 1; end
one of two | ?- fd_or(X, Y, Z), fd_labeling([Z,Y,X]). | query 1; X = 0, Y = 0, Z = 0; X = 1, Y = 0, Z = 1; X = 0, Y = 1, Z = 1; X = 1, Y = 1, Z = 1; end
not | ?- fd_not(X, Y), fd_labeling([X,Y]). | query 1; X = 0, Y = 1; X = 1, Y = 0; end
neither of two | ?- fd_or(X, Y, Z), fd_not(Z, 1), fd_labeling([X,Y,Z]). | query 1; X = 0, Y = 0, Z = 0; end
whether it is at most | ?- X in 0..4, B #<=> 2*X #=< 5, fd_labeling([X,B]). | query 1; X = 0, B = 1; X = 1, B = 1; X = 2, B = 1; X = 3, B = 0; X = 4, B = 0; end
whether they are equal | ?- X in 0..2, Y in 1..2, B #<=> X #= Y, fd_labeling([B,X,Y]). | query 1; X = 0, Y = 1, B = 0; X = 0, Y = 2, B = 0; X = 1, Y = 2, B = 0; X = 2, Y = 1, B = 0; X = 1, Y = 1, B = 1; X = 2, Y = 2, B = 1; end
whether they differ | ?- X in 0..1, Y in 0..1, B #<=> X #\\= Y, fd_labelingff([X,Y,B]). | query 1; X = 0, Y = 0, B = 0; X = 0, Y = 1, B = 1; X = 1, Y = 0, B = 1; X = 1, Y = 1, B = 0; end
one of two comparisons | ?- X in 0..4, A #<=> X #< 2, B #<=> X #> 3, fd_or(A, B, 1), fd_labeling([X,A,B]). | query 1; X = 0, A = 1, B = 0; X = 1, A = 1, B = 0; X = 4, A = 0, B = 1; end";

/// Puts the lines, which `; ` parts, behind the output. The status is that of a stop where some line tells a fault or a spent budget.
fn add_lines(lines: &str, output: &mut String) -> Result<Status, Fail> {
    let mut status = Status::Done;
    for line in lines.split("; ") {
        output.push_str(line)?;
        output.push_str("\n")?;
        if line.starts_with("error: ") || line == "budget" {
            status = Status::Stopped;
        }
    }
    Ok(status)
}

/// Runs a text with the words of a line, which writes these lines.
fn check(rt: &impl Abort, alloc: Global, words: &str, text: &str, lines: &str) -> Result<(), Fail> {
    let mut output = String::new(alloc);
    let status = add_lines(lines, &mut output)?;
    check_line(rt, alloc, words, text, (status, output.as_bytes()), text)
}

/// Checks each row of a table with each of some words.
fn check_rows(rt: &impl Abort, alloc: Global, table: &str, words: &[&str]) -> Result<(), Fail> {
    for row in table.lines() {
        let (text, lines) = row.split_once(" | ").expect(rt, row);
        for words in words {
            check(rt, alloc, words, text, lines)?;
        }
    }
    Ok(())
}

#[test]
fn texts_have_their_lines(rt: HostRuntime) -> Result<(), Fail> {
    for table in [PROGRAMS, GOALS, SETS] {
        check_rows(&rt, rt.alloc(), table, &[""])?;
    }
    check_rows(&rt, rt.alloc(), RANGES, &["", "--agenda cheapest"])
}

#[test]
fn worked_rows(rt: HostRuntime) -> Result<(), Fail> {
    for row in WORKED.lines() {
        let (_, rest) = row.split_once(" | ").expect(&rt, row);
        let (words, rest) = rest.split_once(" | ").expect(&rt, row);
        let (text, lines) = rest.split_once(" | ").expect(&rt, row);
        check(&rt, rt.alloc(), words, text, lines)?;
    }
    Ok(())
}

#[test]
fn flat_queries_counted_by_brute_force(rt: HostRuntime) -> Result<(), Fail> {
    for row in FLATS.lines() {
        let (_, rest) = row.split_once(" | ").expect(&rt, row);
        let (text, lines) = rest.split_once(" | ").expect(&rt, row);
        check(&rt, rt.alloc(), "", text, lines)?;
        check(&rt, rt.alloc(), "--agenda cheapest", text, lines)?;
    }
    Ok(())
}

/// Texts, each with its one line.
const REFUSALS: [(&str, &str); 61] = [
    ("?- X in 0..3.\0", "refused at 13: bad character\n"),
    ("?- `x`.", "refused at 3: bad character\n"),
    ("?- X in 0'a'.", "refused at 9: bad character\n"),
    ("?- é = €.", "refused at 8: bad character\n"),
    ("?- X = 'ab.", "refused at 7: open quote\n"),
    (
        "?- X in 1..2.\n?- X = 'a\nb'.",
        "refused at 21: open quote\n",
    ),
    ("/* never closed", "refused at 0: open comment\n"),
    ("?- X in 1..2. /*/", "refused at 14: open comment\n"),
    ("?- X = '\\q'.", "refused at 8: bad escape\n"),
    ("?- X = 'é\\x110000\\'.", "refused at 10: bad escape\n"),
    (
        "?- X in 0..9223372036854775808.",
        "refused at 11: integer too wide\n",
    ),
    (
        "?- X in 0x8000000000000000..1.",
        "refused at 8: integer too wide\n",
    ),
    ("?- X in 1.5.", "refused at 8: float\n"),
    ("?- X in 1..2,\n   Y in 0..2.0.", "refused at 25: float\n"),
    ("?- X = \"a\".", "refused at 7: string\n"),
    ("'ä'. \"", "refused at 6: string\n"),
    ("?- X in 1..3", "refused at 12: syntax\n"),
    ("?- X in 1..3:-{2}.", "refused at 12: syntax\n"),
    ("?- X in 1..2\n   Y in 3..4.", "refused at 16: syntax\n"),
    ("?- é é.", "refused at 6: syntax\n"),
    ("?- X in 1..2).", "refused at 12: syntax\n"),
    ("?- .", "refused at 3: syntax\n"),
    ("?- X.", "refused at 3: bad goal\n"),
    ("?- X in 1..2, 3.", "refused at 14: bad goal\n"),
    ("?- [].", "refused at 3: bad goal\n"),
    ("?- X in 1..2,\n   {p}.", "refused at 17: bad goal\n"),
    ("?- [a].", "refused at 3: bad goal\n"),
    ("?- foo(1).", "refused at 3: unknown foo/1\n"),
    ("?- X in 1..2, 'a b'.", "refused at 14: unknown 'a b'/0\n"),
    ("?- 1+2.", "refused at 4: unknown +/2\n"),
    (
        "?- X in 1..2.\n?- é(X), X in 1..2.",
        "refused at 17: unknown é/1\n",
    ),
    ("?- (p -> q).", "refused at 4: unknown p/0\n"),
    ("p. ?- (p -> q ; 3).", "refused at 12: unknown q/0\n"),
    ("?- \\+ p.", "refused at 6: unknown p/0\n"),
    ("?- (true -> 3).", "refused at 12: bad goal\n"),
    ("!.", "refused at 0: redefines !/0\n"),
    ("p. '->'(_, _).", "refused at 3: redefines ->/2\n"),
    ("'\\\\+'(_).", "refused at 0: redefines \\+/1\n"),
    (
        "fd_minimize(_, _).",
        "refused at 0: redefines fd_minimize/2\n",
    ),
    ("?- fd_minimize(true, X).", "refused at 15: bad goal\n"),
    ("?- fd_maximize(L, 3).", "refused at 15: bad goal\n"),
    (
        "?- fd_maximize(fd_labeling(X,Y), Y).",
        "refused at 15: bad goal\n",
    ),
    ("p :- q.", "refused at 5: unknown q/0\n"),
    (":- p.", "refused at 0: bad head\n"),
    ("3.", "refused at 0: bad head\n"),
    ("p. write(_).", "refused at 3: redefines write/1\n"),
    ("?- X in 3.", "refused at 8: not a range\n"),
    ("?- X in 1..f(a).", "refused at 11: not a range\n"),
    ("?- X in dom(3).", "refused at 8: not a range\n"),
    ("?- X in (1..2)+min(Y).", "refused at 15: not a range\n"),
    ("?- X in\n   Y.", "refused at 11: not a range\n"),
    (
        "?- Y in 0..3, X in -dom(Y).",
        "refused at 20: not monotone\n",
    ),
    ("?- X in max(Y)..9.", "refused at 8: not monotone\n"),
    ("?- X in Y..max(Y).", "refused at 11: not monotone\n"),
    (
        "?- X in 0..(max(Y)-1)*max(Z).",
        "refused at 18: not natural\n",
    ),
    (
        "?- X in 0..(max(Y)+ -1)*max(Z).",
        "refused at 20: not natural\n",
    ),
    ("?- X in 0..max(Y)/<0.", "refused at 19: bad divisor\n"),
    ("?- X in (0..9)/0.", "refused at 15: bad divisor\n"),
    ("?- X in (0..9)/(A+B).", "refused at 17: bad divisor\n"),
    ("?- X in A*B*C..9.", "refused at 11: too wide\n"),
    (
        "?- X in 0..9223372036854775807*9223372036854775807*4.",
        "refused at 50: too wide\n",
    ),
];

#[test]
fn refusals_at_their_places(rt: HostRuntime) -> Result<(), Fail> {
    check_texts(&rt, rt.alloc(), &REFUSALS, Status::Refused)
}

#[test]
fn bytes_that_are_no_text(rt: HostRuntime) -> Result<(), Fail> {
    for (text, output) in [
        (b"\x3f\x2d\x20\xff".as_slice(), "refused at 3: not UTF-8\n"),
        (
            b"?- X in 1..2.\n% \xc3\xa9\xe2\x82".as_slice(),
            "refused at 18: not UTF-8\n",
        ),
    ] {
        let want = (Status::Refused, output.as_bytes());
        check_text(&rt, rt.alloc(), text, want, output)?;
    }
    Ok(())
}

/// Puts so many pieces behind the text, one after another.
fn push_pieces(text: &mut String, piece: &str, count: usize) -> Result<(), Fail> {
    for _ in 0..count {
        text.push_str(piece)?;
    }
    Ok(())
}

/// Puts so many pieces, one after another, between two others, behind the text.
fn push_repeated(text: &mut String, parts: [&str; 3], count: usize) -> Result<(), Fail> {
    let [front, piece, back] = parts;
    text.push_str(front)?;
    push_pieces(text, piece, count)?;
    text.push_str(back)?;
    Ok(())
}

/// So many pieces, one after another, between two others.
fn repeated(alloc: Global, parts: [&str; 3], count: usize) -> Result<String, Fail> {
    let mut text = String::new(alloc);
    push_repeated(&mut text, parts, count)?;
    Ok(text)
}

/// A text and then another so many times behind it, twice, and a last text.
fn nested(alloc: Global, parts: [&str; 5], count: usize) -> Result<String, Fail> {
    let [front, left, middle, right, back] = parts;
    let mut text = repeated(alloc, [front, left, middle], count)?;
    push_repeated(&mut text, ["", right, back], count)?;
    Ok(text)
}

/// Texts and outputs in which two pieces are repeated as often as the number in front says.
const DEEP_TEXTS: [(usize, [&str; 5], [&str; 5], Status); 10] = [
    (
        1_000,
        ["?- X = ", "(", "1", ")", "."],
        ["query 1\nX = 1\nend\n", "", "", "", ""],
        Status::Done,
    ),
    (
        1_001,
        ["?- X = ", "(", "1", ")", "."],
        ["refused at 1007: too deep\n", "", "", "", ""],
        Status::Refused,
    ),
    (
        1_001,
        ["", "(", "", "", ""],
        ["refused at 1000: too deep\n", "", "", "", ""],
        Status::Refused,
    ),
    (
        1_001,
        ["?- X in 1..2.\n", "[", "", "", ""],
        ["refused at 1014: too deep\n", "", "", "", ""],
        Status::Refused,
    ),
    (
        10_000,
        ["?- X = ", "- ", "a.", "", ""],
        ["query 1\nX = ", "-(", "a", ")", "\nend\n"],
        Status::Done,
    ),
    (
        99_999,
        ["?- L = [1", ",1", "].", "", ""],
        ["query 1\nL = [1", ",1", "]\nend\n", "", ""],
        Status::Done,
    ),
    (
        100_000,
        [
            "big(0,a). big(N,f(T)) :- N > 0, M is N-1, big(M,T). ?- big(100000,T).",
            "",
            "",
            "",
            "",
        ],
        ["query 1\nT = ", "f(", "a", ")", "\nend\n"],
        Status::Done,
    ),
    (
        255,
        ["?- f(a", ",a", ").", "", ""],
        ["refused at 3: arity over 255\n", "", "", "", ""],
        Status::Refused,
    ),
    (
        255,
        ["?- X in 1..g(f(a", ",a", ")).", "", ""],
        ["refused at 13: arity over 255\n", "", "", "", ""],
        Status::Refused,
    ),
    (
        254,
        ["?- f(a", ",a", ").", "", ""],
        ["refused at 3: unknown f/255\n", "", "", "", ""],
        Status::Refused,
    ),
];

/// Runs a nested text whose output is nested likewise.
fn check_nested(
    rt: &impl Abort,
    alloc: Global,
    count: usize,
    parts: [&str; 5],
    lines: [&str; 5],
    status: Status,
) -> Result<(), Fail> {
    let text = nested(alloc, parts, count)?;
    let output = nested(alloc, lines, count)?;
    check_text(
        rt,
        alloc,
        text.as_bytes(),
        (status, output.as_bytes()),
        parts[0],
    )
}

#[test]
fn deep_and_long_texts(rt: HostRuntime) -> Result<(), Fail> {
    for (count, parts, lines, status) in DEEP_TEXTS {
        check_nested(&rt, rt.alloc(), count, parts, lines, status)?;
    }
    Ok(())
}

/// Two clauses, of 8 bytes and of 34, and a query.
const SEND_MORE: &str = "\
dig([]).
dig([X|Xs]) :- X in 0..9, dig(Xs).
?- L = [S,E,N,D,M,O,R,Y], dig(L), S #>= 1, M #>= 1,
   1000*S+100*E+10*N+D + 1000*M+100*O+10*R+E
     #= 10000*M+1000*O+100*N+10*E+Y,
   fd_all_different(L), fd_labeling(L).";

/// What is written for the first bytes of the text, so many. A front that ends a sentence has no query. One that ends in another place
/// is refused there, or at a last word that is no operator: `i` and `#`. In `X in 0.` the range is a number.
fn front_output(alloc: Global, length: usize) -> Result<String, Fail> {
    let output = match length {
        0 | 8 | 9 | 43 | 44 => String::new(alloc),
        27 | 81 | 90 | 147 => format!(in alloc; "refused at {}: syntax\n", length - 1)?,
        31 => format!(in alloc; "refused at 29: not a range\n")?,
        _ => format!(in alloc; "refused at {length}: syntax\n")?,
    };
    Ok(output)
}

/// Runs the first bytes of the text.
fn check_front(rt: &impl Abort, alloc: Global, front: &[u8]) -> Result<(), Fail> {
    let output = front_output(alloc, front.len())?;
    let status = if output.is_empty() {
        Status::Done
    } else {
        Status::Refused
    };
    check_text(rt, alloc, front, (status, output.as_bytes()), "a front")
}

#[test]
fn each_front_of_a_text(rt: HostRuntime) -> Result<(), Fail> {
    for length in 0..SEND_MORE.len() {
        check_front(&rt, rt.alloc(), &SEND_MORE.as_bytes()[..length])?;
    }
    Ok(())
}

/// A text of 57 bytes, and its output of 31.
const CHOICE: &[u8] = b"p(X) :- X in 1..2. p(X) :- X in 8..9. ?- X in 0..8, p(X).";

const CHOICE_OUTPUT: &[u8] = b"query 1\nX = _1(1..2)\nX = 8\nend\n";

/// Runs the text where this read fails.
fn check_failing_read(rt: &impl Abort, alloc: Global, failing: u64) -> Result<(), Fail> {
    let mut sink = MemorySink::new(alloc, ROOM, Vec::new(alloc))?;
    let mut source = SmallSource::new(CHOICE.to_vec(alloc)?, vec![in alloc; failing]?);
    let ended = run(alloc, &[], &mut source, &mut sink);
    let want = (failing, Status::ReadFault, 0);
    same(rt, (failing, ended, sink.bytes().len()), want, "a read");
    Ok(())
}

/// A call for each byte, and one for the end.
#[test]
fn each_read_fails_in_turn(rt: HostRuntime) -> Result<(), Fail> {
    for failing in 1..=58 {
        check_failing_read(&rt, rt.alloc(), failing)?;
    }
    Ok(())
}

/// Runs the text where this write fails, behind so many others.
fn check_failing_write(
    rt: &impl Abort,
    alloc: Global,
    failing: u64,
    before: u64,
) -> Result<(), Fail> {
    let mut source = MemorySource::new(CHOICE.to_vec(alloc)?, Vec::new(alloc));
    let mut sink = SmallSink::new(alloc, 31, vec![in alloc; failing]?)?;
    let ended = run(alloc, &[], &mut source, &mut sink);
    let written = sink.bytes().len() as u64;
    let is_front = CHOICE_OUTPUT.starts_with(sink.bytes());
    let status = if failing < 32 {
        Status::WriteFault
    } else {
        Status::Done
    };
    let want = (before, status, true);
    same(rt, (written, ended, is_front), want, "a write");
    Ok(())
}

/// A call for each byte. The last one that is to fail isn't made.
#[test]
fn each_write_fails_in_turn(rt: HostRuntime) -> Result<(), Fail> {
    for failing in 1..=32 {
        check_failing_write(&rt, rt.alloc(), failing, failing - 1)?;
    }
    Ok(())
}

/// Runs a text in which a piece is repeated, so many times, in front of its last piece.
fn check_repeated(
    rt: &impl Abort,
    alloc: Global,
    parts: [&str; 3],
    count: usize,
    want: (Status, &[u8]),
) -> Result<(), Fail> {
    let text = repeated(alloc, parts, count)?;
    check_text(rt, alloc, text.as_bytes(), want, parts[0])
}

#[test]
fn texts_of_the_greatest_size_and_above(rt: HostRuntime) -> Result<(), Fail> {
    let refusal = "refused at 16777216: too large\n";
    for (size, output, status) in [
        (16_777_216, "", Status::Done),
        (16_777_217, refusal, Status::Refused),
        (20_000_000, refusal, Status::Refused),
    ] {
        let want = (status, output.as_bytes());
        check_repeated(&rt, rt.alloc(), ["", " ", ""], size, want)?;
    }
    Ok(())
}

#[test]
fn a_query_of_a_million_goals_and_one(rt: HostRuntime) -> Result<(), Fail> {
    for (front, output, status) in [
        ("?- X in 0..9", "query 1\nbudget\n", Status::Stopped),
        ("?- X in 5..9", "query 1\nend\n", Status::Done),
    ] {
        let want = (status, output.as_bytes());
        let parts = [front, ",X in 0..1", "."];
        check_repeated(&rt, rt.alloc(), parts, 1_000_000, want)?;
    }
    Ok(())
}

#[test]
fn a_failed_third_write(rt: HostRuntime) -> Result<(), Fail> {
    let failing = [3].to_vec(rt.alloc())?;
    let want = (Status::WriteFault, b"query 1\nX = _1(1..2)\n".as_slice());
    check_run(
        &rt,
        rt.alloc(),
        &[],
        CHOICE,
        failing,
        want,
        "the third write",
    )
}

/// Puts the words of a line behind others.
fn add_words(alloc: Global, line: &str, words: &mut Vec<String>) -> Result<(), Fail> {
    for word in line.split_whitespace() {
        words.push(String::from_str(alloc, word)?)?;
    }
    Ok(())
}

/// The words of a line.
pub(crate) fn words_of(alloc: Global, line: &str) -> Result<Vec<String>, Fail> {
    let mut words = Vec::new(alloc);
    add_words(alloc, line, &mut words)?;
    Ok(words)
}

#[test]
fn words_that_are_refused(rt: HostRuntime) -> Result<(), Fail> {
    let usage =
        "usage: clpfd [--steps N] [--answers K] [--agenda fifo|cheapest] [--infinity M] [--gen N]\n";
    let lines = [
        "--steps 0",
        "--agenda lifo",
        "--fast",
        "--steps",
        "--steps=5",
        "--steps 05",
        "--steps +5",
        "--steps 5 --steps 5",
        "--infinity 0",
        "--infinity 268435456",
        "--",
    ];
    for line in lines {
        let want = (Status::Usage, usage.as_bytes());
        check_line(&rt, rt.alloc(), line, "?- p.", want, line)?;
    }
    Ok(())
}

#[test]
fn words_that_are_accepted(rt: HostRuntime) -> Result<(), Fail> {
    let ranges = "?- X in 0..10, Y in 0..10, X in min(Y)+1..infinity, Y in 0..max(X)-1.";
    let rows = [
        (
            "--steps 5",
            "loop :- loop. ?- loop.",
            "query 1\nbudget\n",
            Status::Stopped,
        ),
        (
            "--answers 2",
            "p(1). p(2). p(3). ?- p(X).",
            "query 1\nX = 1\nX = 2\nlimit\n",
            Status::Done,
        ),
        (
            "--agenda cheapest",
            ranges,
            "query 1\nX = _1(1..10), Y = _2(0..9)\nend\n",
            Status::Done,
        ),
    ];
    for (line, text, output, status) in rows {
        let want = (status, output.as_bytes());
        check_line(&rt, rt.alloc(), line, text, want, line)?;
    }
    Ok(())
}

/// Words that ask for a generated text, and its summary. There are so many ways to place that many queens.
const SUMMARIES: [(&str, &str, Status); 8] = [
    (
        "--gen 4",
        "gen 4\nanswers 2\nreductions 54\nend\n",
        Status::Done,
    ),
    (
        "--gen 5",
        "gen 5\nanswers 10\nreductions 91\nend\n",
        Status::Done,
    ),
    (
        "--gen 6",
        "gen 6\nanswers 4\nreductions 133\nend\n",
        Status::Done,
    ),
    (
        "--gen 7",
        "gen 7\nanswers 40\nreductions 246\nend\n",
        Status::Done,
    ),
    (
        "--gen 8 --agenda cheapest --infinity 8",
        "gen 8\nanswers 92\nreductions 524\nend\n",
        Status::Done,
    ),
    (
        "--gen 4 --answers 1",
        "gen 4\nanswers 1\nreductions 52\nlimit\n",
        Status::Done,
    ),
    (
        "--gen 4 --steps 10",
        "gen 4\nanswers 0\nreductions 10\nbudget\n",
        Status::Stopped,
    ),
    (
        "--steps 10 --gen 4",
        "gen 4\nanswers 0\nreductions 10\nbudget\n",
        Status::Stopped,
    ),
];

#[test]
fn generated_texts_are_summed_up(rt: HostRuntime) -> Result<(), Fail> {
    for (line, output, status) in SUMMARIES {
        let want = (status, output.as_bytes());
        check_line(&rt, rt.alloc(), line, "?- p.", want, line)?;
    }
    Ok(())
}

#[test]
fn a_summary_reads_nothing_and_is_written_by_lines(rt: HostRuntime) -> Result<(), Fail> {
    let words = words_of(rt.alloc(), "--gen 4")?;
    let mut sink = MemorySink::new(rt.alloc(), ROOM, [3].to_vec(rt.alloc())?)?;
    let mut source = MemorySource::new(Vec::new(rt.alloc()), [1].to_vec(rt.alloc())?);
    let status = run(rt.alloc(), &words, &mut source, &mut sink);
    let want = (Status::WriteFault, b"gen 4\nanswers 2\n".as_slice());
    same(&rt, (status, sink.bytes()), want, "the third write");
    Ok(())
}
