//! What runs write, over ends in memory.

use crate::{Asked, NamedText, QueriedText, Status, run, warn, with_queries};
use byte_ports::{MemorySink, MemorySource};
use std::alloc::Global;
use std::process::Abort;
use std::test::Fail;

/// The status of a run over memory, and the bytes that it wrote.
fn written_for(
    alloc: Global,
    asked: &Asked,
    input: &[u8],
    failing_reads: Vec<u64>,
) -> Result<(Status, Vec<u8>), Fail> {
    let mut source = MemorySource::new(input.to_vec(alloc)?, failing_reads);
    let mut sink = MemorySink::new(alloc, 1000, Vec::new(alloc))?;
    let status = run(alloc, asked, &mut source, &mut sink);
    Ok((status, sink.bytes().to_vec(alloc)?))
}

/// A text that lies in the file `t.pl`.
fn text_of(alloc: Global, text: &[u8]) -> Result<NamedText, Fail> {
    let name = String::from_str(alloc, "t.pl")?;
    Ok(NamedText::new(name, text.to_vec(alloc)?))
}

/// Those where refusals are explained by a text.
fn written(
    alloc: Global,
    text: &[u8],
    input: &[u8],
    failing_reads: Vec<u64>,
) -> Result<(Status, Vec<u8>), Fail> {
    let text = text_of(alloc, text)?;
    let asked = Asked::Text(QueriedText::new(text, Vec::new(alloc)));
    written_for(alloc, &asked, input, failing_reads)
}

fn gives(
    rt: &impl Abort,
    alloc: Global,
    text: &str,
    input: &str,
    output: &str,
    status: Status,
) -> Result<(), Fail> {
    let (ended, bytes) = written(alloc, text.as_bytes(), input.as_bytes(), Vec::new(alloc))?;
    assert_eq!(rt; bytes.as_slice(), output.as_bytes(), "at {input}");
    assert_eq!(rt; ended, status);
    Ok(())
}

#[test]
fn answers_pass_through(rt: HostRuntime) -> Result<(), Fail> {
    let input =
        "query 1\nX = _1(0..3)\nend\nrefused at 007: syntax\nrefused at 3: unknown foo bar\nrefused at 3: unknown X/1\nrefused at 3: redefines nl/00\nno newline";
    gives(&rt, rt.alloc(), "", input, input, Status::Done)
}

#[test]
fn a_refusal_has_its_line_and_its_caret(rt: HostRuntime) -> Result<(), Fail> {
    gives(
        &rt,
        rt.alloc(),
        "p(1).\r\n\n?- X in 0..max(Y)/<0.\r\n",
        "refused at 27: bad divisor\n",
        "t.pl:3:20: bad divisor\n?- X in 0..max(Y)/<0. \n                   ^\nA literal divisor is at least 1, and that of a whole range is a literal or one parameter.\n",
        Status::Refused,
    )
}

#[test]
fn a_wide_character_moves_the_caret_by_two(rt: HostRuntime) -> Result<(), Fail> {
    gives(
        &rt,
        rt.alloc(),
        "'漢'(1).\n\t?- é(2).",
        "refused at 14: unknown é/1\n",
        "t.pl:2:5: unknown é/1\n ?- é(2).\n    ^\nNo clause of the text has this name with this number of arguments, and the language has no such form.\n",
        Status::Refused,
    )?;
    gives(
        &rt,
        rt.alloc(),
        "'漢' :- $.",
        "refused at 9: syntax",
        "t.pl:1:8: syntax\n'漢' :- $.\n        ^\nBehind an operator this place wants a term, and behind a whole term an operator, a comma, a bar, a closing bracket or the full stop. Often a comma or the full stop is missing just before it.\n",
        Status::Refused,
    )
}

#[test]
fn a_place_at_the_end_is_behind_the_last_token(rt: HostRuntime) -> Result<(), Fail> {
    gives(
        &rt,
        rt.alloc(),
        "p(1).\n?- p(X), /* and */ q(X % none\n\n",
        "refused at 37: syntax\n",
        "t.pl:2:23: syntax\n?- p(X), /* and */ q(X % none\n                      ^\nThe text ends here, and its last sentence doesn't: often a closing bracket or the full stop is missing.\n",
        Status::Refused,
    )
}

/// A text, the line that `clpfd` writes for it, and words of the sentence that explains it.
const EXPLAINED: [(&str, &str, &str); 24] = [
    (
        "?- X in 0..3, X #==> 1.",
        "refused at 16: syntax",
        "write A #=< B",
    ),
    (
        "?- B #<==> X #> 5.",
        "refused at 5: syntax",
        "written #<=>,",
    ),
    (
        "?- X #> 1 #\\/ X #< 5.",
        "refused at 10: syntax",
        "fd_or(A, B, 1)",
    ),
    ("?- X #/\\ Y.", "refused at 5: syntax", "fd_and(A, B, 1)"),
    ("?- X = 1, #\\ X.", "refused at 13: syntax", "fd_not(A, 1)"),
    ("?- X \\= Y.", "refused at 5: syntax", "\\+ X = Y"),
    (
        "?- [X,Y] ins 0..9.",
        "refused at 9: syntax",
        "X in R for each member",
    ),
    ("?- X <> Y.", "refused at 5: syntax", "written #\\= for"),
    ("?- X!=Y.", "refused at 4: syntax", "written #\\= for"),
    ("?- X #<= Y.", "refused at 5: syntax", "written #=<."),
    ("?- X <= Y.", "refused at 5: syntax", "written =< between"),
    ("?- X ==> Y.", "refused at 5: syntax", "C -> A ; B"),
    (
        "?- X in 1..3 \\/ 5..7.",
        "refused at 13: syntax",
        "written with :",
    ),
    (
        "p(1).\n# the second\n",
        "refused at 8: syntax",
        "a comment begins with %",
    ),
    (
        "// the first\n",
        "refused at 3: syntax",
        "a comment begins with %",
    ),
    ("?- X #<=> #<=> B.", "refused at 15: syntax", "wants a term"),
    ("p :- q(1) !.", "refused at 10: syntax", "A whole term ends"),
    (
        "\u{feff}p(1).",
        "refused at 0: bad character",
        "byte order mark",
    ),
    (
        "?- X in {1,2,3}.",
        "refused at 10: not a range",
        "{1}:{2}:{5}",
    ),
    (
        "?- X in [1,2,3].",
        "refused at 8: not a range",
        "{1}:{2}:{5}",
    ),
    ("?- X in foo.", "refused at 8: not a range", "fits nowhere"),
    (
        "?- all_different([X]).",
        "refused at 3: unknown all_different/1",
        "fd_all_different(L)",
    ),
    (
        "?- 'fd domain'(X).",
        "refused at 3: unknown 'fd domain'/1",
        "No clause of the text",
    ),
    (
        "?- X / Y.",
        "refused at 5: unknown //2",
        "No clause of the text",
    ),
];

#[test]
fn what_other_systems_write_has_its_sentence(rt: HostRuntime) -> Result<(), Fail> {
    for (text, input, words) in EXPLAINED {
        let (status, bytes) = written(
            rt.alloc(),
            text.as_bytes(),
            input.as_bytes(),
            Vec::new(rt.alloc()),
        )?;
        let output = String::from_utf8_lossy(rt.alloc(), &bytes)?;
        assert!(rt; output.as_str().contains(words), "at {text}");
        assert_eq!(rt; status, Status::Refused);
    }
    Ok(())
}

/// A text that is refused as `syntax` at a place has these three lines and the sentence.
fn tells_syntax(
    rt: &impl Abort,
    alloc: Global,
    text: &str,
    place: usize,
    lines: &str,
    sentence: &str,
) -> Result<(), Fail> {
    let input = format!(in alloc; "refused at {place}: syntax\n")?;
    let output = format!(in alloc; "{lines}{sentence}\n")?;
    gives(
        rt,
        alloc,
        text,
        input.as_str(),
        output.as_str(),
        Status::Refused,
    )
}

#[test]
fn behind_a_whole_term_the_sentence_names_what_may_follow(rt: HostRuntime) -> Result<(), Fail> {
    tells_syntax(
        &rt,
        rt.alloc(),
        "p(X) :- q([X]) /* and */\n    r(X).\n",
        29,
        "t.pl:2:5: syntax\n    r(X).\n    ^\n",
        "A whole term ends just before this place, which wants an operator, a comma, a bar, a closing bracket or the full stop that fits there. Often a comma or the full stop is missing just before it.",
    )
}

#[test]
fn behind_a_comma_the_sentence_wants_a_term(rt: HostRuntime) -> Result<(), Fail> {
    tells_syntax(
        &rt,
        rt.alloc(),
        "p(1, ).\n",
        5,
        "t.pl:1:6: syntax\np(1, ).\n     ^\n",
        "This place wants a term: a name, a variable, a number or an opening bracket.",
    )
}

#[test]
fn behind_a_name_and_inside_a_token_the_sentence_names_both(rt: HostRuntime) -> Result<(), Fail> {
    let both =
        "Behind an operator this place wants a term, and behind a whole term an operator, a comma, a bar, a closing bracket or the full stop. Often a comma or the full stop is missing just before it.";
    tells_syntax(
        &rt,
        rt.alloc(),
        "p :- q r.\n",
        7,
        "t.pl:1:8: syntax\np :- q r.\n       ^\n",
        both,
    )?;
    tells_syntax(
        &rt,
        rt.alloc(),
        "p(12).\n",
        3,
        "t.pl:1:4: syntax\np(12).\n   ^\n",
        both,
    )
}

/// A text, what `clpfd` wrote for it, and what becomes of that where faults are explained too.
const FAULTS: [(&[u8], &[u8], &[u8]); 5] = [
    (
        b"p(1).\n?- p(X).\n?- X is Y + 1.\n  ?- X = a, X in 1..2.\n",
        b"query 1\nX = 1\nend\nquery 2\nerror: instantiation\nquery 3\nX = 1\nerror: type\n",
        b"query 1\nX = 1\nend\nquery 2\nerror: instantiation\nt.pl:3:1: error: instantiation in query 2\n?- X is Y + 1.\n^\nA goal of this query, or of a clause that it calls, met an open variable where it needs a value: in arithmetic, as a parameter of a range, as the end of a list, among the numbers of fd_element and fd_atmost, or right of #<=>. Or fd_min, fd_max, fd_size or fd_dom met a variable without a domain.\nquery 3\nX = 1\nerror: type\nt.pl:4:3: error: type in query 3\n  ?- X = a, X in 1..2.\n  ^\nA goal of this query, or of a clause that it calls, met an atom or a compound term where it needs a variable, an integer, a list or a comparison. Constraints have +, - and * alone, and is has // and mod too.\n",
    ),
    (
        b"p :- X #< Y*Z. ?- p. ?- X is 1//0.",
        b"query 1\nquery 01\nquery 1st\nquery\nerror: nonlinear\nquery 2\nerror: evaluation",
        b"query 1\nquery 01\nquery 1st\nquery\nerror: nonlinear\nt.pl:1:16: error: nonlinear in query 1\np :- X #< Y*Z. ?- p. ?- X is 1//0.\n               ^\nA goal of this query, or of a clause that it calls, has a product with variables on both sides. Such a product may only be one side of #=, with a variable or an integer on the other.\nquery 2\nerror: evaluation\nt.pl:1:22: error: evaluation in query 2\np :- X #< Y*Z. ?- p. ?- X is 1//0.\n                     ^\nA goal of this query, or of a clause that it calls, divides by 0, or has a number of more than 63 bits as a result, a coefficient or a constant.\n",
    ),
    (
        b"?- fd_minimize(fd_labeling([X]), Y).",
        b"error: parameter\nquery 0\nerror: parameter\nquery 2\nerror: parameter\nquery 1\nerror: parameters\n",
        b"error: parameter\nquery 0\nerror: parameter\nquery 2\nerror: parameter\nquery 1\nerror: parameters\n",
    ),
    (
        b"?- fd_minimize(fd_labeling([X]), Y).",
        b"query 1\nerror: parameter\n",
        b"query 1\nerror: parameter\nt.pl:1:1: error: parameter in query 1\n?- fd_minimize(fd_labeling([X]), Y).\n^\nA goal of this query, or of a clause that it calls, met a parameter of a range that is below 0 or, as a divisor, below 1; or the cost of fd_minimize or fd_maximize is a variable that is no open member of the list.\n",
    ),
    (
        b"p(1)\n?- p(X).",
        b"query 1\nerror: type\nrefused at 5: syntax\n",
        b"query 1\nerror: type\nt.pl:2:1: syntax\n?- p(X).\n^\nA whole term ends just before this place, which wants an operator, a comma, a bar, a closing bracket or the full stop that fits there. Often a comma or the full stop is missing just before it.\n",
    ),
];

#[test]
fn a_fault_has_the_place_of_its_query(rt: HostRuntime) -> Result<(), Fail> {
    let alloc = rt.alloc();
    for (text, input, output) in FAULTS {
        let asked = Asked::Text(with_queries(alloc, text_of(alloc, text)?)?);
        let (ended, bytes) = written_for(alloc, &asked, input, Vec::new(alloc))?;
        assert_eq!(rt; bytes.as_slice(), output);
        assert_eq!(rt; ended == Status::Done, input == output);
    }
    Ok(())
}

#[test]
fn a_failed_read_is_told(rt: HostRuntime) -> Result<(), Fail> {
    let (ended, bytes) = written(rt.alloc(), b"", b"end\n", vec![in rt.alloc(); 2]?)?;
    assert_eq!(rt; ended, Status::ReadFault);
    assert_eq!(rt; bytes.as_slice(), b"end\n".as_slice());
    Ok(())
}

/// The status of a run that looks for warnings in files with these names and texts, and the bytes that it wrote.
fn warned(alloc: Global, texts: &[(&str, &str)]) -> Result<(Status, Vec<u8>), Fail> {
    let mut files = Vec::new(alloc);
    for (name, text) in texts {
        let name = String::from_str(alloc, name)?;
        files.push(NamedText::new(name, text.as_bytes().to_vec(alloc)?))?;
    }
    let mut sink = MemorySink::new(alloc, 4000, Vec::new(alloc))?;
    let status = warn(alloc, &files, &mut sink);
    Ok((status, sink.bytes().to_vec(alloc)?))
}

fn warns(
    rt: &impl Abort,
    alloc: Global,
    texts: &[(&str, &str)],
    output: &str,
    status: Status,
) -> Result<(), Fail> {
    let (ended, bytes) = warned(alloc, texts)?;
    assert_eq!(rt; bytes.as_slice(), output.as_bytes());
    assert_eq!(rt; ended, status);
    Ok(())
}

/// A text in a file `t.pl`, the first line that is written of its warning, and words of the sentence that explains it.
const WARNED: [(&str, &str, &str); 6] = [
    (
        "?- X in -3..5.",
        "t.pl:1:9: warning: a number below 0\n",
        "are lost here",
    ),
    (
        "?- X in 0..9, X #= -2.",
        "t.pl:1:20: warning: a number below 0\n",
        "no answer",
    ),
    (
        "?- X in 5..3.",
        "t.pl:1:10: warning: an empty range\n",
        "no number at all",
    ),
    (
        "?- X + Y = 10.",
        "t.pl:1:6: warning: = doesn't compute\n",
        "computes nothing",
    ),
    (
        "?- X in 0..9, X > 3.",
        "t.pl:1:15: warning: X has only a domain here\n",
        "or label first",
    ),
    (
        "?- X in 0..9, \\+ X in 10..12.",
        "t.pl:1:18: warning: \\+ over X, which has only a domain\n",
        "opposite constraint",
    ),
];

#[test]
fn what_is_lost_silently_is_warned_of(rt: HostRuntime) -> Result<(), Fail> {
    for (text, line, words) in WARNED {
        let (status, bytes) = warned(rt.alloc(), &[("t.pl", text)])?;
        let output = String::from_utf8_lossy(rt.alloc(), &bytes)?;
        assert!(rt; output.as_str().starts_with(line), "at {text}");
        assert!(rt; output.as_str().contains(words), "at {text}");
        assert_eq!(rt; status, Status::Warned);
    }
    Ok(())
}

#[test]
fn warnings_stand_in_the_order_of_their_places(rt: HostRuntime) -> Result<(), Fail> {
    let once =
        "This variable stands in no other place of its clause: is it spelled right? A name that begins with _ may occur once.";
    let apart =
        "This clause belongs to those of its predicate above, and clauses of other predicates stand between them.";
    let unreached =
        "No query of the text calls this predicate, and no clause that a query reaches does.";
    let alloc = rt.alloc();
    let output = format!(in alloc;
        "t.pl:1:1: warning: no query reaches f/1\nf(X) :- g.\n^\n{unreached}\nt.pl:1:3: warning: X occurs once\nf(X) :- g.\n  ^\n{once}\nt.pl:2:1: warning: no query reaches g/0\ng.\n^\n{unreached}\nt.pl:3:1: warning: the clauses of f/1 don't stand together\nf(a).\n^\n{apart}\n"
    )?;
    warns(
        &rt,
        alloc,
        &[("t.pl", "f(X) :- g.\ng.\nf(a).\nf(b).\n")],
        output.as_str(),
        Status::Warned,
    )?;
    let chain = format!(in alloc;
        "t.pl:2:1: warning: no query reaches q/0\nq :- r.\n^\n{unreached}\nt.pl:3:1: warning: no query reaches r/0\nr.\n^\n{unreached}\n"
    )?;
    warns(
        &rt,
        alloc,
        &[("t.pl", "p.\nq :- r.\nr.\n?- \\+ (fail ; true -> p).")],
        chain.as_str(),
        Status::Warned,
    )
}

#[test]
fn what_is_no_mistake_is_no_warning(rt: HostRuntime) -> Result<(), Fail> {
    let alloc = rt.alloc();
    let names = "p(_, _A, B, B).\n?- p(X, Y, Z, Z).\np(1, 2, 3, 3).\n";
    warns(&rt, alloc, &[("t.pl", names)], "", Status::Done)?;
    let reached = "p :- q, \\+ r.\nq.\nr :- p.\nl.\n?- p, fd_minimize(l, X).\n";
    warns(&rt, alloc, &[("t.pl", reached)], "", Status::Done)?;
    warns(&rt, alloc, &[("t.pl", "")], "", Status::Done)
}

#[test]
fn an_unread_text_has_one_line(rt: HostRuntime) -> Result<(), Fail> {
    warns(
        &rt,
        rt.alloc(),
        &[("t.pl", "p(X).\nq(.\n")],
        "t.pl:2:3: refused: syntax\n",
        Status::Refused,
    )?;
    warns(
        &rt,
        rt.alloc(),
        &[("t.pl", "p(\"a\").\n")],
        "t.pl:1:3: refused: string\n",
        Status::Refused,
    )
}

#[test]
fn each_place_is_told_by_its_file(rt: HostRuntime) -> Result<(), Fail> {
    let once =
        "This variable stands in no other place of its clause: is it spelled right? A name that begins with _ may occur once.";
    let unreached =
        "No query of the text calls this predicate, and no clause that a query reaches does.";
    let alloc = rt.alloc();
    let output = format!(in alloc;
        "a.pl:1:3: warning: X occurs once\np(X).\n  ^\n{once}\nc.pl:3:1: warning: no query reaches r/1\nr(Y) :- q(Y, Y).\n^\n{unreached}\n"
    )?;
    warns(
        &rt,
        alloc,
        &[
            ("a.pl", "p(X).\nq(1,"),
            ("b.pl", ""),
            ("c.pl", "2).\n?- q(Y, Z), p(_).\nr(Y) :- q(Y, Y).\n"),
        ],
        output.as_str(),
        Status::Warned,
    )?;
    warns(
        &rt,
        alloc,
        &[("a.pl", "p(1).\n"), ("b.pl", "p(2).\n?- p(X).\n")],
        "b.pl:1:1: warning: p/1 has clauses in two files\np(2).\n^\nAn earlier file has clauses of this predicate too: those of both belong to it, in the order of the files.\n",
        Status::Warned,
    )?;
    warns(
        &rt,
        alloc,
        &[("a.pl", "p(1).\n"), ("b.pl", "\n)"), ("c.pl", "")],
        "b.pl:2:1: refused: syntax\n",
        Status::Refused,
    )
}
