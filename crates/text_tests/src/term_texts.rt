//! Texts of terms, from the rules of the syntax.

ghost use Rattle.term_reader.specs.Sentences.{AreOwn};

use crate::assertions::{columns, same};
use std::alloc::Global;
use std::process::Abort;
use std::test::Fail;
use term_reader::{Sentences, read_sentences};
use term_writer::{Mode, VarText, write_atom, write_term};

/// Terms in the functional notation, each with its text in mode `Quoted` and in mode `Plain`.
const OPERATORS: &str = "\
'-'(1,-1). | 1- -1 | 1- -1
'-'(1,'-'(2,3)). | 1-(2-3) | 1-(2-3)
'-'('-'(1,2),3). | 1-2-3 | 1-2-3
'..'(0,1). | 0..1 | 0..1
'..'(0,-1). | 0.. -1 | 0.. -1
':-'(a,b). | a:-b | a:-b
mod(7,2). | 7 mod 2 | 7 mod 2
-(a). | -(a) | -(a)
-(1). | -(1) | -(1)
-(-(1)). | -(-(1)) | -(-(1))
'-'(1,-(1)). | 1- -(1) | 1- -(1)
':'(3,-('{}'(2))). | 3: -({2}) | 3: -({2})
':-'(':-'(a,b),c). | (a:-b):-c | (a:-b):-c
';'(a,';'(b,c)). | a;b;c | a;b;c
';'(';'(a,b),c). | (a;b);c | (a;b);c
';'('->'(a,b),c). | a->b;c | a->b;c
','(a,b). | a,b | a,b
f(','(a,b),c). | f((a,b),c) | f((a,b),c)
'+'(a,'*'(b,c)). | a+b*c | a+b*c
'*'('+'(a,b),c). | (a+b)*c | (a+b)*c
'='(1,'='(2,3)). | 1=(2=3) | 1=(2=3)
'='('='(1,2),3). | (1=2)=3 | (1=2)=3
'#='(X,-1). | _1#= -1 | _1#= -1
is(X,mod(7,2)). | _1 is 7 mod 2 | _1 is 7 mod 2
in(X,'..'(0,3)). | _1 in 0..3 | _1 in 0..3
'='(a,\\+(b)). | a= \\+(b) | a= \\+(b)
'-'('-'(1,''),2). | 1-''-2 | 1- -2
'+'('',-1). | ''+ -1 | + -1
':'(1,'&'(2,3)). | 1:2&3 | 1:2&3";

const OTHERS: &str = "\
'.'(a,b). | [a|b] | [a|b]
'.'(a,':-'(b,c)). | [a|(b:-c)] | [a|(b:-c)]
'.'(1,'.'(2,'.'(3,[]))). | [1,2,3] | [1,2,3]
'.'(1,X). | [1|_1] | [1|_1]
'.'(','(a,b),[]). | [(a,b)] | [(a,b)]
'{}'(a). | {a} | {a}
'{}'(':-'(a,b)). | {a:-b} | {a:-b}
'{}'(a,b). | {}(a,b) | {}(a,b)
'.'(a). | '.'(a) | .(a)
'[]'(a). | [](a) | [](a)
';'(a). | ;(a) | ;(a)
','(a). | ','(a) | ,(a)
':-'(a). | :-(a) | :-(a)
is(a). | is(a) | is(a)
f(-1). | f(-1) | f(-1)
f(X,Y). | f(_1,_2(0..3)) | f(_1,_2(0..3))
9223372036854775807. | 9223372036854775807 | 9223372036854775807
-9223372036854775807. | -9223372036854775807 | -9223372036854775807
'A b'. | 'A b' | A b
[]. | [] | []
{}. | {} | {}
!. | ! | !
';'. | ';' | ;
','. | ',' | ,
'+'. | '+' | +
'mod'. | 'mod' | mod
'.'. | '.' | .
'^'. | ^ | ^
'/*'. | '/*' | /*
'it''s'. | 'it\\'s' | it's
'\\x1\\\\x1f\\\\x7f\\'. | '\\x1\\\\x1f\\\\x7f\\' | \u{1}\u{1f}\u{7f}
été. | été | été
'_x'. | '_x' | _x";

/// Terms as arguments and elements are written.
const ARGUMENTS: &str = "\
'='(X,b). | (_1=b) | (_1=b)
'.'('..'(0,1),'.'('..'(3,3),[])). | [0..1,3..3] | [0..1,3..3]
f('A b',-(1),'-'(1,'-'(2,3))). | f('A b',-(1),1-(2-3)) | f(A b,-(1),1-(2-3))";

/// The texts of the variables `X` and `Y`, in the order in which they come.
fn variables(alloc: Global) -> Result<[VarText; 2], Fail> {
    Ok([
        VarText {
            var: 1,
            text: Vec::from_slice(alloc, b"_2(0..3)")?,
        },
        VarText {
            var: 0,
            text: Vec::from_slice(alloc, b"_1")?,
        },
    ])
}

/// The texts of the sentences' terms.
fn written(
    alloc: Global,
    sentences: &Sentences,
    mode: Mode,
    vars: &[VarText],
    limit: u32,
) -> Result<Vec<u8>, Fail>
    requires { AreOwn sentences.now }
{
    let mut out = Vec::new(alloc);
    for sentence in &sentences.list {
        let term = sentence.term;
        write_term(alloc, &sentences.pool, term, mode, vars, limit, &mut out)?;
    }
    Ok(out)
}

/// The text of a term that is given in the functional notation.
fn text_of(
    alloc: Global,
    term: &str,
    mode: Mode,
    vars: &[VarText],
    limit: u32,
) -> Result<Vec<u8>, Fail> {
    match read_sentences(alloc, term) {
        Ok(sentences) => written(alloc, &sentences, mode, vars, limit),
        Err(_) => Err(Fail::new("no term")),
    }
}

/// Refuses a term that is written otherwise than is wanted.
fn compare(
    rt: &impl Abort,
    alloc: Global,
    term: &str,
    mode: Mode,
    vars: &[VarText],
    limit: u32,
    want: &str,
) -> Result<(), Fail> {
    let found = text_of(alloc, term, mode, vars, limit)?;
    same(rt, found.as_slice(), want.as_bytes(), term);
    Ok(())
}

/// Refuses a row whose term is written otherwise, where `limit` is the greatest priority without parentheses.
fn compare_rows(
    rt: &impl Abort,
    alloc: Global,
    rows: &str,
    vars: &[VarText],
    limit: u32,
) -> Result<(), Fail> {
    for row in rows.lines() {
        let (term, texts) = columns(rt, row);
        let (quoted, plain) = columns(rt, texts);
        compare(rt, alloc, term, Mode::Quoted, vars, limit, quoted)?;
        compare(rt, alloc, term, Mode::Plain, vars, limit, plain)?;
    }
    Ok(())
}

fn compare_all(rt: &impl Abort, alloc: Global, vars: &[VarText]) -> Result<(), Fail> {
    compare_rows(rt, alloc, OPERATORS, vars, 1200)?;
    compare_rows(rt, alloc, OTHERS, vars, 1200)?;
    compare_rows(rt, alloc, ARGUMENTS, vars, 699)?;
    compare_rows(rt, alloc, "'='(X,b). | _1=b | _1=b", vars, 700)
}

#[test]
fn writes_terms(rt: HostRuntime) -> Result<(), Fail> {
    let vars = variables(rt.alloc())?;
    compare_all(&rt, rt.alloc(), &vars)
}

/// Quoted atoms whose text in mode `Plain` is no column of a row, with both texts.
const ATOMS: &[(&str, &str, &str)] = &[
    ("''.", "''", ""),
    (
        "'a\\nb\\tc\\rd\\\\'.",
        "'a\\nb\\tc\\rd\\\\'",
        "a\nb\tc\rd\\",
    ),
];

#[test]
fn writes_the_empty_atom_and_layout(rt: HostRuntime) -> Result<(), Fail> {
    for (term, quoted, plain) in ATOMS {
        compare(&rt, rt.alloc(), term, Mode::Quoted, &[], 1200, quoted)?;
        compare(&rt, rt.alloc(), term, Mode::Plain, &[], 1200, plain)?;
    }
    Ok(())
}

/// A name, and whether an operand may stand before it.
const NAMES: &[(&str, bool)] = &[
    ("foo", true),
    ("!", true),
    (",", true),
    (",", false),
    ("-", true),
    ("-", false),
    ("A b", true),
];

#[test]
fn writes_names(rt: HostRuntime) -> Result<(), Fail> {
    let mut out = Vec::from_slice(rt.alloc(), b"unknown ")?;
    for (name, before) in NAMES {
        write_atom(rt.alloc(), name, *before, &mut out)?;
    }
    same(
        &rt,
        out.as_slice(),
        b"unknown foo!','','-'-''A b'".as_slice(),
        "names",
    );
    Ok(())
}
