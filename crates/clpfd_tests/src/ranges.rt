//! Texts read as ranges and then checked, as the rules of ranges state it.

ghost use Rattle.std.specs.Prelude.{◌<◌, All, length};
ghost use Rattle.term_reader.specs.Sentences.{IsSentence};

use crate::assertions::same;
use crate::verdicts::told;
use fd_language::{Feature, INFINITY, RangeNode};
use monotone_check::check;
use range_terms::{RangeFault, SourceRange, features, read_range};
use std::alloc::{AllocError, Global};
use std::process::Abort;
use std::test::Fail;
use term_pool::{Node, Pool, TermId};
use term_reader::{Sentence, read_sentences};

/// Each form of a range, and what is said of it: it is accepted, it is no range, or the check refuses it, each with the place. Of a query the range is that of its last goal.
const FORMS: &str = "\
1..3. | accepted
{5}. | accepted
dom(Y). | accepted
-{2}. | accepted
1..3:dom(Y). | accepted
dom(Y)&1..3. | accepted
dom(Y)+P. | accepted
dom(Y)-P*Q. | accepted
dom(Y)*(P-1). | accepted
dom(Y)/P. | accepted
'..'(1,3). | accepted
'dom'(Y). | accepted
268435455..infinity. | accepted
?- X in 0..3, X in -{2}. | accepted
?- X in 1..3: -{2}. | accepted
?- Y in 0..3, X in 0..7/<min(Y). | accepted";

/// No range, no range under a range, and no number.
const NO_RANGES: &str = "\
Y. | not a range 0
3. | not a range 0
-3. | not a range 0
infinity. | not a range 0
dom. | not a range 0
{}. | not a range 0
min(Y). | not a range 0
dom(3). | not a range 0
dom(X,Y). | not a range 0
range(X,Y,Z). | not a range 0
[1,2]. | not a range 0
+(1..3). | not a range 0
3*dom(X). | not a range 0
1..3=dom(X). | not a range 4
-X. | not a range 1
- 3. | not a range 2
{1}:3. | not a range 4
3&{1}. | not a range 0
1..a. | not a range 3
a..b. | not a range 0
1..dom(X). | not a range 3
1..min(3). | not a range 3
1..max(X,Y). | not a range 3
1..val(f(X)). | not a range 3
1..foo(a,b). | not a range 3
1..foo(a,b,c). | not a range 3
1..infinity(X). | not a range 3
1..3/2. | not a range 4
1..7//2. | not a range 4
1..7 mod 2. | not a range 5
1.. -X. | not a range 4
1.. - 3. | not a range 4
{1,2}. | not a range 2
(1..2)..3. | not a range 2
(1..a)&(b..2). | not a range 4";

/// `min`, `max` and `val` where no domain may change the number; directions.
const DIRECTIONS: &str = "\
dom(X)+min(Y). | not a range 7
dom(X)-(1-max(Y)). | not a range 10
dom(X)*val(Y). | not a range 7
dom(X)/(2*min(Y)/<3). | not a range 10
dom(X)+dom(Y). | not a range 7
min(Y)+1..infinity. | accepted
0..max(X)-1. | accepted
-dom(Y). | not monotone 1
-(-dom(Y)). | accepted
max(Y)..9. | not monotone 0
0..min(Y). | not monotone 3
-(min(Y)..9). | not monotone 2
-(max(Y)..min(Z)). | accepted
{min(Y)}. | not monotone 1
{val(Y)+P}. | accepted
1..3& -dom(Y). | not monotone 7
(-dom(Y))*2. | not monotone 2
0-max(Y)..9. | accepted
0-min(Y)..9. | not monotone 2
-2*max(Y)..9. | accepted
-2*min(Y)..9. | not monotone 3
min(Y)* -2..9. | not monotone 0
(3-5)*max(Y)..9. | accepted
0*max(Y)..9. | not monotone 2
0..max(Y)*max(Z). | accepted
0..max(Y)*min(Z). | not monotone 10
0..max(Y)/<max(Z). | not monotone 11
0..max(Y)/<min(Z). | accepted
?- Y in 0..3, X in -dom(Y). | not monotone 20";

/// Two uses of one variable, natural terms, divisors, width.
const TERMS: &str = "\
Y..max(Y). | not monotone 3
min(Y)..Y. | not monotone 8
{P}:dom(P). | not monotone 4
{val(P)}+P. | not monotone 9
0..(max(Y)-1)*max(Z). | not natural 10
0..(3-5+P)*max(Y). | not natural 5
0..(2-1+P)*max(Y). | accepted
0..(P+ -1)*max(Y). | not natural 7
0..9/<(P-1). | not natural 8
0..(max(Y)-1)/<P. | accepted
?- X in 0..(max(Y)-1)*max(Z). | not natural 18
min(Y)/>2..9. | accepted
0..max(Y)/< -1. | bad divisor 12
0..max(Y)/>(1-1). | bad divisor 13
dom(Y)/(1+1). | accepted
dom(Y)/0. | bad divisor 7
dom(Y)/(P+1). | bad divisor 9
?- X in 0..max(Y)/<0. | bad divisor 19
A*B..9. | accepted
max(Y)..A*B*C. | too wide 11
A*(B*C*D)..9. | too wide 1
dom(Y)*(9223372036854775807*9223372036854775807). | too wide 6
dom(Y)+A*B*(1+1). | too wide 6
?- X in A*B*C..9. | too wide 11";

/// The last part of a term with this name, and another term itself.
fn last_part(pool: &Pool, t: TermId, name: &str) -> TermId
    requires { t.number < length pool.now.entries }
    ensures { result.number < length pool.now.entries }
{
    match pool.view(t) {
        Node::Comp(atom, [.., last]) if pool.name_of(atom) == name => *last,
        _ => t,
    }
}

/// The range in a text's one term.
fn range_in(pool: &Pool, t: TermId) -> TermId
    requires { t.number < length pool.now.entries }
    ensures { result.number < length pool.now.entries }
{
    let goals = last_part(pool, t, "?-");
    last_part(pool, last_part(pool, goals, ","), "in")
}

fn said_of(alloc: Global, pool: &Pool, t: TermId) -> Result<String, AllocError>
    requires { t.number < length pool.now.entries }
{
    match read_range(alloc, pool, t, INFINITY) {
        Ok(SourceRange { range, places }) => told(alloc, check(alloc, range, &places)),
        Err(RangeFault::NotARange { place }) => format!(in alloc; "not a range {place}"),
        Err(RangeFault::NoMemory) => String::from_str(alloc, "out of memory"),
    }
}

/// What is said of the range in each sentence.
fn said_of_all(alloc: Global, pool: &Pool, list: &[Sentence]) -> Result<String, Fail>
    requires { All (IsSentence pool.now) list.now }
{
    let mut out = String::new(alloc);
    for sentence in list {
        let range = range_in(pool, sentence.term);
        out.push_str(said_of(alloc, pool, range)?.as_str())?;
    }
    Ok(out)
}

/// What is said of the range in each sentence of a text.
fn said(alloc: Global, text: &str) -> Result<String, Fail> {
    match read_sentences(alloc, text) {
        Ok(sentences) => said_of_all(alloc, &sentences.pool, &sentences.list),
        Err(_) => Err(Fail::new("no sentence")),
    }
}

/// Refuses a text of which something else is said than is wanted.
fn compare(rt: &impl Abort, alloc: Global, text: &str, want: &str) -> Result<(), Fail> {
    let found = said(alloc, text)?;
    same(rt, found.as_str(), want, text);
    Ok(())
}

fn compare_rows(rt: &impl Abort, alloc: Global, rows: &str) -> Result<(), Fail> {
    for row in rows.lines() {
        let (text, want) = row.split_once(" | ").expect(rt, row);
        compare(rt, alloc, text, want)?;
    }
    Ok(())
}

#[test]
fn ranges_are_read_and_checked(rt: HostRuntime) -> Result<(), Fail> {
    for table in &[FORMS, NO_RANGES, DIRECTIONS, TERMS] {
        compare_rows(&rt, rt.alloc(), table)?;
    }
    Ok(())
}

/// The range that a text spells, whose word `infinity` is a number.
fn source(alloc: Global, text: &str, infinity: u32) -> Result<SourceRange, Fail> {
    match read_sentences(alloc, text) {
        Ok(sentences) => first_range(alloc, &sentences.pool, &sentences.list, infinity),
        Err(_) => Err(Fail::new("no sentence")),
    }
}

/// The range of the first sentence.
fn first_range(
    alloc: Global,
    pool: &Pool,
    list: &[Sentence],
    infinity: u32,
) -> Result<SourceRange, Fail>
    requires { All (IsSentence pool.now) list.now }
{
    for sentence in list {
        return match read_range(alloc, pool, sentence.term, infinity) {
            Ok(range) => Ok(range),
            Err(_) => Err(Fail::new("no range")),
        };
    }
    Err(Fail::new("no sentence"))
}

/// A range of each kind of node.
const ALL_NODES: &str = "(1+min(A)-max(B)*val(C)/<D/>E..infinity:{2}& -dom(F))*2/4+1-G.";

/// Its nodes in postfix order, each with its place behind `@`.
const NODES: &str = "\
Int(1)@1
Min(0)@3
Add@2
Max(1)@10
Val(2)@17
Mul@16
Param(3)@25
DivDown@23
Param(4)@28
DivUp@26
Sub@9
Int(268435455)@31
Span@29
Int(2)@41
One@40
Dom(5)@46
Outside@45
Inter@43
Union@39
Int(2)@54
Times@53
Int(4)@56
Over@55
Int(1)@58
Plus@57
Param(6)@60
Minus@59
";

/// The nodes of a range with their places, one a line.
fn listed(alloc: Global, nodes: &[RangeNode], places: &[usize]) -> Result<String, AllocError> {
    let mut lines = String::new(alloc);
    for (node, place) in nodes.iter().zip(places) {
        lines.push_str(format!(in alloc; "{node:?}@{place}\n")?.as_str())?;
    }
    Ok(lines)
}

#[test]
fn nodes_have_the_places_of_their_names(rt: HostRuntime) -> Result<(), Fail> {
    let found = source(rt.alloc(), ALL_NODES, INFINITY)?;
    let lines = listed(rt.alloc(), found.range.nodes(), &found.places)?;
    same(&rt, lines.as_str(), NODES, "the nodes");
    Ok(())
}

#[test]
fn infinity_is_the_number_that_is_passed(rt: HostRuntime) -> Result<(), Fail> {
    let found = source(rt.alloc(), "3..infinity.", 9)?;
    let lines = listed(rt.alloc(), found.range.nodes(), &found.places)?;
    let want = "Int(3)@0\nInt(9)@3\nSpan@1\n";
    same(&rt, lines.as_str(), want, "the nodes");
    Ok(())
}

/// The features of the range below.
const FEATURES: &[(u64, Feature)] = &[
    (0, Feature::Max),
    (1, Feature::Min),
    (1, Feature::Max),
    (1, Feature::Dom),
    (0, Feature::Val),
];

#[test]
fn each_feature_comes_once(rt: HostRuntime) -> Result<(), Fail> {
    let found = source(
        rt.alloc(),
        "max(B)+min(A)..max(A)-min(A):dom(A)&{max(B)+val(B)+P}.",
        INFINITY,
    )?;
    let found = features(rt.alloc(), &found.range)?;
    same(&rt, found.as_slice(), FEATURES, "the features");
    Ok(())
}

/// The part 100,000 times, and then the last part.
fn repeated(alloc: Global, part: &str, last: &str) -> Result<String, AllocError> {
    let mut text = String::new(alloc);
    for _ in 0..100_000 {
        text.push_str(part)?;
    }
    text.push_str(last)?;
    Ok(text)
}

#[test]
fn a_range_may_be_as_deep_as_it_is_long(rt: HostRuntime) -> Result<(), Fail> {
    for (part, last) in [("- ", "dom(X)."), ("1+", "1..9.")] {
        let text = repeated(rt.alloc(), part, last)?;
        let found = source(rt.alloc(), &text, INFINITY)?;
        assert!(rt; found.places.len() > 100_000);
    }
    Ok(())
}
