//! Words and texts, each with all that is written for it.

use crate::run::run_code;
use byte_ports::{MemorySink, MemorySource};
use std::alloc::Global;
use std::process::Abort;
use std::test::Fail;

/// What is written for words and a text, and behind it the number of the status.
fn output(alloc: Global, words: &str, text: &[u8]) -> Result<String, Fail> {
    let mut given = Vec::new(alloc);
    for word in words.split_whitespace() {
        given.push(String::from_str(alloc, word)?)?;
    }
    let mut source = MemorySource::new(Vec::from_slice(alloc, text)?, Vec::new(alloc));
    let mut sink = MemorySink::new(alloc, 1_000_000, Vec::new(alloc))?;
    let status = run_code(alloc, &given, &mut source, &mut sink);
    let number = status.number();
    let Ok(written) = std::str::from_utf8(sink.bytes()) else {
        return Err(Fail::new("no text"));
    };
    Ok(format!(in alloc; "{written}{number}")?)
}

/// A text with a line break in the place of each `; `.
fn lines_of(alloc: Global, row: &str) -> Result<String, Fail> {
    let mut text = String::new(alloc);
    for line in row.split("; ") {
        if !text.is_empty() {
            text.push('\n')?;
        }
        text.push_str(line)?;
    }
    Ok(text)
}

/// Refuses what differs from what is wanted, and says where.
fn same(rt: &impl Abort, found: &str, want: &str, at: &str) {
    assert!(rt; found == want, "{found} is not {want}, at {at}");
}

/// Listings without their first line, and what is written for them.
const LISTINGS: &str = "\
atoms 0; ranges 0; entries 0; queries 1; 0 1; code 1; - - 0 AnswerNow | query 1; true; end; 0
atoms 0; ranges 0; entries 0; queries 1; 0 1; code 1; - - 0 FailNow | refused at line 8: not verified; 3
atoms 0; ranges 0; entries 0; queries 1; 0 1; code 1 | refused at line 8: bad line; 3
atoms 2; p; 'X'; ranges 0; entries 1; 3 1 0; queries 1; 4 10 4; code 10; x1 - 0 Jump 2; - - 0 FailNow; x1 - 0 GetInteger 1 x1; - - 0 Proceed; - - 0 Allocate 1; - u 0 PutVariable y1 x1; x1 c 0 Call 0; - c 0 Jump 9; - c 0 FailNow; - c 0 AnswerNow | query 1; X = 1; end; 0
atoms 0; ranges 0; entries 0; queries 0; code 0 | 0
atoms 00; ranges 0; entries 0; queries 0; code 0 | refused at line 2: bad line; 3
atoms 1; 'p'; ranges 0; entries 0; queries 0; code 0 | refused at line 3: bad line; 3
atoms 0; ranges 0; entries 0; queries 0; code 0; x | refused at line 7: bad line; 3
atoms 0; ranges 0; entries 0; queries 0; code 1; - - 0 Level x1 | refused at line 7: bad line; 3
atoms 0; ranges 1; min  0; entries 0; queries 0; code 0 | refused at line 4: bad line; 3
atoms 18446744073709551615 | refused at line 3: bad line; 3
atoms 18446744073709551616 | refused at line 2: bad line; 3
atoms 2; p; p; ranges 0; entries 0; queries 0; code 0 | refused at line 4: bad number; 3
atoms 1; '..'; ranges 0; entries 0; queries 0; code 0 | refused at line 3: bad number; 3
atoms 0; ranges 1; min 1 one; entries 0; queries 0; code 0 | refused at line 4: bad number; 3
atoms 0; ranges 1; i 1 i 2; entries 0; queries 0; code 0 | refused at line 4: bad range; 3
atoms 0; ranges 1; dom 0 outside; entries 0; queries 0; code 0 | refused at line 4: bad range; 3
";

#[test]
fn listings_are_run(rt: HostRuntime) -> Result<(), Fail> {
    let alloc = rt.alloc();
    for row in LISTINGS.lines() {
        let (listing, want) = row.split_once(" | ").expect(&rt, row);
        let body = lines_of(alloc, listing)?;
        let text = format!(in alloc; "clpfd code 1\n{body}\n")?;
        let found = output(alloc, "load", text.as_bytes())?;
        same(&rt, found.as_str(), lines_of(alloc, want)?.as_str(), row);
    }
    Ok(())
}

/// Texts, and the listings of their code, made by hand.
const CODES: &str = "\
p(1). ?- p(X). | clpfd code 1; atoms 4; '_'; p; '?-'; 'X'; ranges 0; entries 1; 4 1 0; queries 1; 3 8 6; code 8; x1 - 0 Jump 1; x1 - 0 GetInteger 1 x1; - - 0 Proceed; - - 0 Allocate 1; - u 0 PutVariable y1 x1; - c 0 PutValue y1 x1; x1 c 0 Call 0; - c 0 AnswerNow; 0
r(3). r(-1). r(2). ?- r(X). | clpfd code 1; atoms 5; '_'; r; '-'; '?-'; 'X'; ranges 0; entries 1; 4 1 0; queries 1; 16 21 7; code 21; x1 - 0 SwitchOnTerm 1 4 5 9; x1 - 0 Try 10; x1 - 0 Retry 12; x1 - 0 Trust 14; - - 0 FailNow; x1 - 0 SwitchOnInteger -1:7 2:8 3:6; x1 - 0 Jump 10; x1 - 0 Jump 12; x1 - 0 Jump 14; - - 0 FailNow; x1 - 0 GetInteger 3 x1; - - 0 Proceed; x1 - 0 GetInteger -1 x1; - - 0 Proceed; x1 - 0 GetInteger 2 x1; - - 0 Proceed; - - 0 Allocate 1; - u 0 PutVariable y1 x1; - c 0 PutValue y1 x1; x1 c 0 Call 0; - c 0 AnswerNow; 0
";

#[test]
fn code_is_listed(rt: HostRuntime) -> Result<(), Fail> {
    let alloc = rt.alloc();
    for row in CODES.lines() {
        let (text, want) = row.split_once(" | ").expect(&rt, row);
        let found = output(alloc, "list", text.as_bytes())?;
        same(&rt, found.as_str(), lines_of(alloc, want)?.as_str(), row);
    }
    Ok(())
}

/// Texts, and what is written for the listings of their code.
const TEXTS: &str = "\
p(X) :- X in 1..2. p(X) :- X in 8..9. ?- X in 0..8, p(X). | query 1; X = _1(1..2); X = 8; end; 0
app([],Y,Y). app([X|Xs],Y,[X|Z]) :- app(Xs,Y,Z). ?- app(X,Y,[a]). | query 1; X = [], Y = [a]; X = [a], Y = []; end; 0
k(a,1). k(f(X),3). k(7,4). ?- k(f(Z),N). ?- (k(7,N), ! ; N = 0). | query 1; Z = _1, N = 3; end; query 2; N = 4; end; 0
?- (X = 1, !, fail -> Y = a ; Y = b). ?- \\+ fail. | query 1; X = _1, Y = b; end; query 2; true; end; 0
?- X in 0..3, Y in 0..3, X + Y #>= 3, C #= 2*X + 3*Y, fd_minimize(fd_labeling([X,Y,C]), C). | query 1; X = 3, Y = 0, C = 6; end; 0
?- write('A b'), nl, X is 2 + Y. | query 1; A b; error: instantiation; 4
";

#[test]
fn listed_code_is_run(rt: HostRuntime) -> Result<(), Fail> {
    let alloc = rt.alloc();
    for row in TEXTS.lines() {
        let (text, want) = row.split_once(" | ").expect(&rt, row);
        let listing = output(alloc, "list", text.as_bytes())?;
        let code = listing.as_str().strip_suffix("0").expect(&rt, row);
        let found = output(alloc, "load", code.as_bytes())?;
        same(&rt, found.as_str(), lines_of(alloc, want)?.as_str(), row);
    }
    Ok(())
}

/// Words with a text, and what is written for them.
const WORDS: &str = "\
lists | usage: clpcode list|load; 2
 | usage: clpcode list|load; 2
list load | usage: clpcode list|load; 2
list | refused at 3: unknown p/0; 3
load | refused at line 1: bad line; 3
";

#[test]
fn words_are_read(rt: HostRuntime) -> Result<(), Fail> {
    let alloc = rt.alloc();
    for row in WORDS.lines() {
        let (words, want) = row.split_once(" | ").expect(&rt, row);
        let found = output(alloc, words, b"?- p.")?;
        same(&rt, found.as_str(), lines_of(alloc, want)?.as_str(), row);
    }
    Ok(())
}

#[test]
fn large_texts_are_refused(rt: HostRuntime) -> Result<(), Fail> {
    let alloc = rt.alloc();
    let text = vec![in alloc; b' '; 16_777_217]?;
    for word in ["list", "load"] {
        let found = output(alloc, word, &text)?;
        same(
            &rt,
            found.as_str(),
            "refused at 16777216: too large\n3",
            word,
        );
    }
    Ok(())
}
