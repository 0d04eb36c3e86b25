//! What words that are accepted ask for.

use crate::runs::words_of;
use command_words::{AgendaName, Options, WordsFault, read_words};
use fd_language::INFINITY;
use std::alloc::Global;
use std::test::Fail;

/// What the words of a line ask for.
fn read(alloc: Global, line: &str) -> Result<Result<Options, WordsFault>, Fail> {
    let words = words_of(alloc, line)?;
    Ok(read_words(alloc, &words))
}

#[test]
fn options_in_any_order(rt: HostRuntime) -> Result<(), Fail> {
    let all = Options {
        steps: 10,
        answers: Some(1_000_000_000_000),
        agenda: AgendaName::Cheapest,
        infinity: 9,
        generate: Some(4),
    };
    let none = Options {
        steps: 1_000_000,
        answers: None,
        agenda: AgendaName::Fifo,
        infinity: INFINITY,
        generate: None,
    };
    let lines = [
        ("", none),
        (
            "--gen 4 --steps 10 --answers 1000000000000 --infinity 9 --agenda cheapest",
            all,
        ),
        (
            "--agenda cheapest --answers 1000000000000 --steps 10 --gen 4 --infinity 9",
            all,
        ),
    ];
    for (line, options) in lines {
        assert!(rt; read(rt.alloc(), line)? == Ok(options), "at {line}");
    }
    Ok(())
}
