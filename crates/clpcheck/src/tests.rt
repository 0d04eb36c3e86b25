//! Inputs, each with all that a check writes for it, and the status.

use answer_check::{CheckStatus, check_answers};
use byte_ports::{MemorySink, MemorySource};
use std::alloc::Global;
use std::process::Abort;
use std::test::Fail;

/// The status of a check over memory, and the bytes that it wrote.
fn written(
    alloc: Global,
    words: &[String],
    input: &[u8],
    failing_reads: Vec<u64>,
    failing_writes: Vec<u64>,
) -> Result<(CheckStatus, Vec<u8>), Fail> {
    let mut source = MemorySource::new(input.to_vec(alloc)?, failing_reads);
    let mut sink = MemorySink::new(alloc, 1000, failing_writes)?;
    let status = check_answers(alloc, words, &mut source, &mut sink);
    Ok((status, sink.bytes().to_vec(alloc)?))
}

/// The status and the output that are wanted.
fn same(rt: &impl Abort, found: (CheckStatus, &[u8]), wanted: (CheckStatus, &str), about: &str) {
    assert_eq!(rt; found.1, wanted.1.as_bytes(), "for {about}");
    assert_eq!(rt; found.0, wanted.0, "for {about}");
}

/// A check of an input without words.
fn bytes_give(
    rt: &impl Abort,
    alloc: Global,
    input: &[u8],
    status: CheckStatus,
    output: &str,
) -> Result<(), Fail> {
    let (ended, bytes) = written(alloc, &[], input, Vec::new(alloc), Vec::new(alloc))?;
    same(rt, (ended, bytes.as_slice()), (status, output), output);
    Ok(())
}

/// A check of a query's text with the lines behind `query 1`.
fn gives(
    rt: &impl Abort,
    alloc: Global,
    text: &str,
    lines: &str,
    status: CheckStatus,
    output: &str,
) -> Result<(), Fail> {
    let input = format!(in alloc; "{text}\nquery 1\n{lines}")?;
    let (ended, bytes) = written(
        alloc,
        &[],
        input.as_bytes(),
        Vec::new(alloc),
        Vec::new(alloc),
    )?;
    same(
        rt,
        (ended, bytes.as_slice()),
        (status, output),
        input.as_str(),
    );
    Ok(())
}

/// A query whose third goal orders two variables.
const PAIR: &str = "?- X in 1..2, Y in 1..2, X #< Y, fd_labeling([X,Y]).";

/// Answers to it, with what is written of them.
const JUDGED: [(&str, CheckStatus, &str); 6] = [
    (
        "X = 1, Y = 2\nend\n",
        CheckStatus::Good,
        "answer 1: yes\norder: rising\n",
    ),
    (
        "X = 2, Y = 2\nend\n",
        CheckStatus::Bad,
        "answer 1: no 3\norder: rising\n",
    ),
    (
        "X = 3, Y = 4\nend\n",
        CheckStatus::Bad,
        "answer 1: no 1\norder: rising\n",
    ),
    (
        "X = 1, Y = 2\nbudget\n",
        CheckStatus::Good,
        "answer 1: yes\norder: rising\n",
    ),
    (
        "X = 1, Y = 2\nlimit\n",
        CheckStatus::Good,
        "answer 1: yes\norder: rising\n",
    ),
    ("end\n", CheckStatus::Good, "order: rising\n"),
];

#[test]
fn an_answer_breaks_the_first_goal_that_it_does_not_satisfy(rt: HostRuntime) -> Result<(), Fail> {
    for (lines, status, output) in JUDGED {
        gives(&rt, rt.alloc(), PAIR, lines, status, output)?;
    }
    Ok(())
}

/// Lines behind that query that break the form, with the places.
const BROKEN: [(&str, &str); 14] = [
    ("X = 1\nend\n", "61"),
    ("X = 01, Y = 2\nend\n", "61"),
    ("X = 1, Y = 268435456\nend\n", "61"),
    ("X = 1, Y = 99999999999999999999\nend\n", "61"),
    ("X = 1,Y = 2\nend\n", "61"),
    ("Y = 2, X = 1\nend\n", "61"),
    ("X = 1, Y = 2 \nend\n", "61"),
    ("X = 1, Y = _1(2..3)\nend\n", "61"),
    ("X = 1, Y = -2\nend\n", "61"),
    ("true\nend\n", "61"),
    ("X = 1, Y = 2\nend", "74"),
    ("X = 1, Y = 2\n", "74"),
    ("X = 1, Y = 2\nend\nquery 2\nend\n", "78"),
    ("", "61"),
];

#[test]
fn a_line_that_is_no_answer_is_refused_at_its_start(rt: HostRuntime) -> Result<(), Fail> {
    for (lines, place) in BROKEN {
        let output = format!(in rt.alloc(); "refused at {place}: bad answer\n")?;
        gives(
            &rt,
            rt.alloc(),
            PAIR,
            lines,
            CheckStatus::Refused,
            output.as_str(),
        )?;
    }
    Ok(())
}

/// Queries with answers that satisfy them, and what is said of the order.
const ORDERED: [(&str, &str, CheckStatus, &str); 8] = [
    (
        "?- fd_labeling([3,Y,X]).",
        "Y = 1, X = 2\nY = 2, X = 1\nend\n",
        CheckStatus::Good,
        "rising",
    ),
    (
        "?- fd_labeling([3,Y,X]).",
        "Y = 2, X = 1\nY = 1, X = 2\nend\n",
        CheckStatus::Bad,
        "not rising at 2",
    ),
    (
        "?- X in 1..2, fd_labeling([Y,X]).",
        "X = 2, Y = 1\nX = 1, Y = 2\nend\n",
        CheckStatus::Good,
        "rising",
    ),
    (
        "?- fd_labeling([Y,X]).",
        "Y = 1, X = 2\nY = 1, X = 2\nend\n",
        CheckStatus::Bad,
        "not rising at 2",
    ),
    (
        "?- fd_labelingff([Y,X]).",
        "Y = 2, X = 1\nY = 1, X = 2\nend\n",
        CheckStatus::Good,
        "free",
    ),
    (
        "?- fd_labeling([X]).",
        "X = 0\nX = 268435455\nend\n",
        CheckStatus::Good,
        "rising",
    ),
    (
        "?- fd_labeling([Xé]).",
        "Xé = 9\nXé = 10\nend\n",
        CheckStatus::Good,
        "rising",
    ),
    (
        "?- 1 #< 2, fd_labeling([]).",
        "true\ntrue\nend\n",
        CheckStatus::Bad,
        "not rising at 2",
    ),
];

#[test]
fn answers_rise_by_the_labelled_list(rt: HostRuntime) -> Result<(), Fail> {
    for (text, lines, status, order) in ORDERED {
        let output = format!(in rt.alloc(); "answer 1: yes\nanswer 2: yes\norder: {order}\n")?;
        gives(&rt, rt.alloc(), text, lines, status, output.as_str())?;
    }
    Ok(())
}

/// Constraints, and whether X = 3 and Y = 5 satisfy them.
const RANGES: [(&str, bool); 24] = [
    ("X in 1..max(Y)", true),
    ("X in 4..max(Y)", false),
    ("X in min(Y)-2..max(Y)", true),
    ("X in {val(Y)-2}", true),
    ("X in {val(Y)}", false),
    ("X in -{val(Y)}", true),
    ("X in -(max(Y)-2..5)", false),
    ("X in dom(Y)", false),
    ("Y in dom(X):5..5", true),
    ("Y in dom(X)&(5..5)", false),
    ("X in 7/>max(Y)+1..infinity", true),
    ("X in 7/>max(Y)+2..infinity", false),
    ("X in 7/<max(Y)+2..infinity", true),
    ("X in 7/<max(Y)+3..infinity", false),
    ("X in (0-7)/<2+7..infinity", true),
    ("X in (0-7)/>2+7..infinity", false),
    ("Y in min(X)*min(X)-4..9", true),
    ("Y in min(X)*min(X)-3..9", false),
    (
        "Y in min(X)*9223372036854775807-9223372036854775807*3+5..9",
        true,
    ),
    (
        "Y in min(X)*9223372036854775807-9223372036854775807*3+6..9",
        false,
    ),
    ("X in 5..3", false),
    ("3 in 1..max(Y)", true),
    ("-1 in -1..max(Y)", false),
    ("268435456 in 0..268435456", false),
];

/// More of them: comparisons.
const COMPARISONS: [(&str, bool); 18] = [
    ("X+2 #= Y", true),
    ("X+2 #= 4", false),
    ("X #\\= Y", true),
    ("X #\\= 3", false),
    ("X #< Y", true),
    ("X #< 3", false),
    ("X #=< 3", true),
    ("Y #=< X", false),
    ("Y #> X", true),
    ("X #> 3", false),
    ("X #>= 3", true),
    ("X #>= Y", false),
    ("-X #= 2-Y", true),
    ("-(X-Y) #= 2", true),
    ("X*(2-5) #< -8", true),
    ("(1-2)*(X-Y)*2 #= 4", true),
    ("17179869184*X #= 51539607552", true),
    ("9223372036854775806 #\\= 0*X", true),
];

/// And constraints on lists.
const LISTS: [(&str, bool); 18] = [
    ("fd_all_different([X,Y,4])", true),
    ("fd_all_different([X,Y,3])", false),
    ("fd_all_different([X,Y,X])", false),
    ("fd_all_different([])", true),
    ("fd_all_different([-1,X])", false),
    ("fd_all_different([268435456])", false),
    ("fd_element(X,[9,8,5],Y)", true),
    ("fd_element(X,[9,8,4],Y)", false),
    ("fd_element(X,[5,5],Y)", false),
    ("fd_element(0,[3],X)", false),
    ("fd_element(1,[3],X)", true),
    ("fd_element(1,[-3],-3)", false),
    ("fd_element(1,[268435456],268435456)", false),
    ("fd_atmost(1,[X,Y,3],3)", false),
    ("fd_atmost(2,[X,Y,3],3)", true),
    ("fd_atmost(-1,[X],9)", false),
    ("fd_atmost(0,[X],-3)", true),
    ("fd_atmost(9,[-1],3)", false),
];

/// X = 3 and Y = 5 satisfy the constraint, or break it.
fn says(rt: &impl Abort, alloc: Global, constraint: &str, is_met: bool) -> Result<(), Fail> {
    let text = format!(in alloc; "?- X in 0..9, {constraint}, fd_labeling([X,Y]).")?;
    let (status, output) = if is_met {
        (CheckStatus::Good, "answer 1: yes\norder: rising\n")
    } else {
        (CheckStatus::Bad, "answer 1: no 2\norder: rising\n")
    };
    gives(
        rt,
        alloc,
        text.as_str(),
        "X = 3, Y = 5\nend\n",
        status,
        output,
    )
}

fn say(rt: &impl Abort, alloc: Global, rows: &[(&str, bool)]) -> Result<(), Fail> {
    for (constraint, is_met) in rows {
        says(rt, alloc, constraint, *is_met)?;
    }
    Ok(())
}

#[test]
fn each_constraint_is_plain_arithmetic(rt: HostRuntime) -> Result<(), Fail> {
    say(&rt, rt.alloc(), &RANGES)?;
    say(&rt, rt.alloc(), &COMPARISONS)?;
    say(&rt, rt.alloc(), &LISTS)
}

#[test]
fn a_quotient_by_zero_is_at_least_the_greatest_number(rt: HostRuntime) -> Result<(), Fail> {
    let text = "?- Y in 5/<max(X)..infinity, Y in 5/>max(X)..infinity, fd_labeling([Y,X]).";
    let no = "answer 1: no 1\norder: rising\n";
    let yes = "answer 1: yes\norder: rising\n";
    gives(
        &rt,
        rt.alloc(),
        text,
        "Y = 5, X = 0\nend\n",
        CheckStatus::Bad,
        no,
    )?;
    gives(
        &rt,
        rt.alloc(),
        text,
        "Y = 268435455, X = 0\nend\n",
        CheckStatus::Good,
        yes,
    )
}

/// Texts of which no query is checked, and why.
const REFUSED: [(&str, &str); 27] = [
    ("", "0: not flat"),
    ("p.", "0: not flat"),
    (":- p.", "0: not flat"),
    ("p. ?- X in 1..2, fd_labeling([X]).", "0: not flat"),
    ("?- fd_labeling([X]). ?- fd_labeling([X]).", "0: not flat"),
    ("?- X = 1, fd_labeling([X]).", "5: not flat"),
    (
        "?- (X in 1..2 ; X in 3..4), fd_labeling([X]).",
        "14: not flat",
    ),
    (
        "?- X in dom(Y)+1, Y in 1..2, fd_labeling([X,Y]).",
        "5: not flat",
    ),
    ("?- X in N..9, fd_labeling([X,N]).", "5: not flat"),
    ("?- f(X) in 1..9, fd_labeling([X]).", "8: not flat"),
    ("?- X in a, fd_labeling([X]).", "5: not flat"),
    (
        "?- Y in 0..3, X in -dom(Y), fd_labeling([X,Y]).",
        "16: not flat",
    ),
    ("?- X*Y #= 4, fd_labeling([X,Y]).", "7: not flat"),
    ("?- X #= a, fd_labeling([X]).", "5: not flat"),
    (
        "?- 9223372036854775807 #= X, fd_labeling([X]).",
        "23: not flat",
    ),
    ("?- fd_element(X,[Y],Y), fd_labeling([X,Y]).", "3: not flat"),
    ("?- fd_atmost(N,[X],1), fd_labeling([X,N]).", "3: not flat"),
    ("?- foo(X), fd_labeling([X]).", "3: not flat"),
    ("?- X in 1..2.", "5: not flat"),
    ("?- X in 1..2, fd_labeling([X]), Y in 1..2.", "14: not flat"),
    ("?- X in 1..2, Y in 1..2, fd_labeling([X]).", "25: not flat"),
    ("?- X in 1..2, fd_labeling([X|T]).", "14: not flat"),
    (
        "?- X in 1..2, _Y in 1..2, fd_labeling([X,_Y]).",
        "14: not flat",
    ),
    ("?- _Y in 1..2, X = 1, fd_labeling([X,_Y]).", "17: not flat"),
    ("?- X in 1.5, fd_labeling([X]).", "8: float"),
    ("?- X in 1..3", "13: syntax"),
    ("?- X = 'ab.", "7: open quote"),
];

#[test]
fn a_text_is_refused_at_its_first_offence(rt: HostRuntime) -> Result<(), Fail> {
    for (text, refusal) in REFUSED {
        let output = format!(in rt.alloc(); "refused at {refusal}\n")?;
        gives(
            &rt,
            rt.alloc(),
            text,
            "end\n",
            CheckStatus::Refused,
            output.as_str(),
        )?;
    }
    Ok(())
}

/// Inputs that have no two parts, and why.
const WHOLE: [(&[u8], &str); 4] = [
    (
        b"?- X in 1..2, fd_labeling([X]).\nend\n",
        "refused at 36: no answers\n",
    ),
    (
        b"?- X in 1..2, fd_labeling([X]).\nquery 1",
        "refused at 39: no answers\n",
    ),
    (b"?- \xff\nquery 1\nend\n", "refused at 3: not UTF-8\n"),
    (b"query 1\nend\n", "refused at 0: not flat\n"),
];

#[test]
fn an_input_has_two_parts(rt: HostRuntime) -> Result<(), Fail> {
    for (input, output) in WHOLE {
        bytes_give(&rt, rt.alloc(), input, CheckStatus::Refused, output)?;
    }
    Ok(())
}

#[test]
fn an_input_has_a_greatest_size(rt: HostRuntime) -> Result<(), Fail> {
    let input = vec![in rt.alloc(); b' '; 16_777_217]?;
    let output = "refused at 16777216: too large\n";
    bytes_give(&rt, rt.alloc(), &input, CheckStatus::Refused, output)
}

#[test]
fn any_word_has_the_usage_line(rt: HostRuntime) -> Result<(), Fail> {
    let alloc = rt.alloc();
    let words = vec![in alloc; String::from_str(alloc, "--help")?]?;
    let (ended, bytes) = written(alloc, &words, b"", vec![in alloc; 1]?, Vec::new(alloc))?;
    let wanted = (CheckStatus::Usage, "usage: clpcheck\n");
    same(&rt, (ended, bytes.as_slice()), wanted, "a word");
    Ok(())
}

#[test]
fn a_failed_end_is_told(rt: HostRuntime) -> Result<(), Fail> {
    let alloc = rt.alloc();
    let input = b"?- fd_labeling([X]).\nquery 1\nend\n";
    let (ended, bytes) = written(alloc, &[], input, vec![in alloc; 1]?, Vec::new(alloc))?;
    same(
        &rt,
        (ended, bytes.as_slice()),
        (CheckStatus::ReadFault, ""),
        "a read",
    );
    let (ended, bytes) = written(alloc, &[], input, Vec::new(alloc), vec![in alloc; 1]?)?;
    same(
        &rt,
        (ended, bytes.as_slice()),
        (CheckStatus::WriteFault, ""),
        "a write",
    );
    Ok(())
}
