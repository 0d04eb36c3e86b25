//! Texts with their tokens or their fault, as the format states them.

use crate::assertions::{columns, same};
use char_tokens::{Kind, Scanner, Token, TokenFault, tokens, unquote};
use std::alloc::{AllocError, Global};
use std::process::Abort;
use std::test::Fail;

/// Words and variables, each text with what it gives: each token as its kind's letter, its place behind `@`, an integer's value and its text behind `:`, all behind `_` where it is not tight; or the fault and its place. A word of symbol characters is their longest run.
const WORDS: &str = "\
a b | W@0:a _W@2:b
a /* b */c | W@0:a _W@9:c
a/***/b | W@0:a _W@6:b
abc | W@0:abc
aB_9z | W@0:aB_9z
Éa | W@0:Éa
αβ γ | W@0:αβ _W@5:γ
_ | V@0:_
_x1 Y2z | V@0:_x1 _V@4:Y2z
AÉ | V@0:AÉ
3:-{2} | I@0=3:3 W@1::- P@3:{ I@4=2:2 P@5:}
0..-1 | I@0=0:0 W@1:..- I@4=1:1
X#=-1 | V@0:X W@1:#=- I@4=1:1
-/**/1 | W@0:-/**/ I@5=1:1
//* | W@0://*
#$&*+-./:<=>?@^~\\ | W@0:#$&*+-./:<=>?@^~\\
!; | W@0:! W@1:;
!. | W@0:! S@1:.";

/// Quoted atoms.
const QUOTED: &str = "\
'' | Q@0:''
'''' | Q@0:''''
'it''s'x | Q@0:'it''s' W@7:x
'%/*'(b) | Q@0:'%/*' P@5:( W@6:b P@7:)
'\\\\ \\' \\\" \\n \\t \\r' | Q@0:'\\\\ \\' \\\" \\n \\t \\r'
'\\x41\\b'. | Q@0:'\\x41\\b' S@8:.
'\\x10FFFF\\' '\\x0\\' | Q@0:'\\x10FFFF\\' _Q@12:'\\x0\\'";

/// Integers, and quotes behind them.
const INTEGERS: &str = "\
0 007 | I@0=0:0 _I@2=7:007
0x1fF | I@0=511:0x1fF
0o17,0b101 | I@0=15:0o17 P@4:, I@5=5:0b101
0b12 | I@0=1:0b1 I@3=2:2
0xg | I@0=0:0 W@1:xg
0o8 | I@0=0:0 W@1:o8
0b | I@0=0:0 W@1:b
0X1 | I@0=0:0 V@1:X1
1e5 | I@0=1:1 W@1:e5
0x1.5 | I@0=1:0x1 W@3:. I@4=5:5
1..5 | I@0=1:1 W@1:.. I@3=5:5
1.a | I@0=1:1 W@1:. W@2:a
9223372036854775807 | I@0=9223372036854775807:9223372036854775807
0x7fffffffffffffff | I@0=9223372036854775807:0x7fffffffffffffff
00'a' | I@0=0:00 Q@2:'a'
0x0'a' | I@0=0:0x0 Q@3:'a'
10'a' | I@0=10:10 Q@2:'a'
0 'a' | I@0=0:0 _Q@2:'a'";

/// Punctuation, and stops.
const PUNCTUATION: &str = "\
()[]{},| | P@0:( P@1:) P@2:[ P@3:] P@4:{ P@5:} P@6:, P@7:|
f(X,[a|T]). | W@0:f P@1:( V@2:X P@3:, P@4:[ W@5:a P@6:| V@7:T P@8:] P@9:) S@10:.
f (X) | W@0:f _P@2:( V@3:X P@4:)
a. | W@0:a S@1:.
a.%b | W@0:a S@1:.
a.b | W@0:a W@1:. W@2:b
.( | W@0:. P@1:(";

/// Characters with which no token can start, double quotes, quoted atoms that aren't closed on their line, comments that aren't closed, and texts whose first fault decides.
const CHARACTERS: &str = "\
` | BadCharacter 0
é1 € | BadCharacter 4
0'a' | BadCharacter 1
x 0'' | BadCharacter 3
\"a\" | StringOut 0
a. \" | StringOut 3
'abc | OpenQuote 0
''' | OpenQuote 0
/* | OpenComment 0
a /*/ | OpenComment 2
/* * | OpenComment 0
1.5 \" | FloatOut 0
\" 1.5 | StringOut 0";

/// Backslashes that start no escape; integers that are too wide; decimal digits, a dot and a digit.
const FAULTS: &str = "\
'a\\q' | BadEscape 2
'\\ | BadEscape 1
'\\x41' | BadEscape 1
'\\x\\' | BadEscape 1
'\\x1234567\\' | BadEscape 1
'ab\\xD800\\' | BadEscape 3
'\\x110000\\' | BadEscape 1
9223372036854775808 | IntegerTooWide 0
a 0x8000000000000000 | IntegerTooWide 2
1.5 | FloatOut 0
a 00.0 | FloatOut 2
99999999999999999999.9 | FloatOut 0";

/// Texts that are no column of a row: without a token, with layout, or with a character that a reader can't see.
const LAYOUT: &[(&str, &str)] = &[
    ("", ""),
    (" \t\r\n\x0c\x0b", ""),
    ("% only a comment", ""),
    ("/* closed */", ""),
    ("a%b\nc", "W@0:a _W@4:c"),
    ("a. b.\n", "W@0:a S@1:. _W@3:b S@4:."),
    ("a..\n", "W@0:a W@1:.."),
    ("a \0", "BadCharacter 2"),
    ("a\u{a0}b", "BadCharacter 1"),
    ("\u{663}", "BadCharacter 0"),
    ("a 'b\n'", "OpenQuote 2"),
    ("'\\\n'", "BadEscape 1"),
    ("'\\q\n", "BadEscape 1"),
    ("'\n\\q'", "OpenQuote 0"),
];

/// Quoted atoms, and the characters that they spell.
const SPELLINGS: &[(&str, &str)] = &[
    ("''", ""),
    ("'it''s'", "it's"),
    ("''''", "'"),
    ("'\\x41\\b'", "Ab"),
    ("'\\x1F600\\é'", "\u{1f600}é"),
    ("'\\n\\t\\r\\\\\\'\\\"'", "\n\t\r\\'\""),
];

/// A token as its kind's letter, its place, and an integer's value.
fn head(alloc: Global, token: &Token<'_>) -> Result<String, AllocError> {
    let place = token.place;
    match token.kind {
        Kind::Word => format!(in alloc; "W@{place}"),
        Kind::Quoted => format!(in alloc; "Q@{place}"),
        Kind::Variable => format!(in alloc; "V@{place}"),
        Kind::Integer(value) => format!(in alloc; "I@{place}={value}"),
        Kind::Punct => format!(in alloc; "P@{place}"),
        Kind::Stop => format!(in alloc; "S@{place}"),
    }
}

/// Appends a token, behind a space if it isn't the first.
fn push_token(alloc: Global, token: &Token<'_>, out: &mut String) -> Result<(), AllocError> {
    if !out.is_empty() {
        out.push(' ')?;
    }
    let tight = if token.tight { "" } else { "_" };
    let head = head(alloc, token)?;
    out.push_str(&format!(in alloc; "{tight}{head}:{}", token.text)?)
}

fn listed(alloc: Global, tokens: &[Token<'_>]) -> Result<String, AllocError> {
    let mut out = String::new(alloc);
    for token in tokens {
        push_token(alloc, token, &mut out)?;
    }
    Ok(out)
}

fn shown(alloc: Global, text: &str) -> Result<String, AllocError> {
    match tokens(alloc, text) {
        Ok(list) => listed(alloc, &list),
        Err(TokenFault::At { place, cause }) => format!(in alloc; "{cause:?} {place}"),
        Err(TokenFault::NoMemory) => format!(in alloc; "no memory"),
    }
}

/// Refuses a text that gives something else than is wanted.
fn compare(rt: &impl Abort, alloc: Global, text: &str, want: &str) -> Result<(), Fail> {
    let found = shown(alloc, text)?;
    same(rt, found.as_str(), want, text);
    Ok(())
}

fn compare_rows(rt: &impl Abort, alloc: Global, rows: &str) -> Result<(), Fail> {
    for row in rows.lines() {
        let (text, want) = columns(rt, row);
        compare(rt, alloc, text, want)?;
    }
    Ok(())
}

#[test]
fn texts_give_their_tokens_or_their_first_fault(rt: HostRuntime) -> Result<(), Fail> {
    for table in &[WORDS, QUOTED, INTEGERS, PUNCTUATION, CHARACTERS, FAULTS] {
        compare_rows(&rt, rt.alloc(), table)?;
    }
    Ok(())
}

#[test]
fn texts_with_layout_or_without_a_token(rt: HostRuntime) -> Result<(), Fail> {
    for (text, want) in LAYOUT {
        compare(&rt, rt.alloc(), text, want)?;
    }
    Ok(())
}

#[test]
fn quoted_atoms_spell_their_characters(rt: HostRuntime) -> Result<(), Fail> {
    for (text, want) in SPELLINGS {
        let found = unquote(rt.alloc(), text)?;
        same(&rt, found.as_str(), *want, text);
    }
    Ok(())
}

/// The text, the place and the tightness of each token of `X% b`, a new line and ` in.`
const SCANNED: &[(&str, usize, bool)] = &[("X", 0, true), ("in", 6, false), (".", 8, true)];

#[test]
fn a_scanner_gives_token_by_token(rt: HostRuntime) -> Result<(), Fail> {
    let mut scanner = Scanner::new("X% b\n in.");
    for (text, place, tight) in SCANNED {
        let next = scanner.next_token();
        assert!(rt;
            matches!(&next, Ok(Some(token)) if token.text == *text && token.place == *place && token.tight == *tight),
            "{text} at {place}"
        );
    }
    assert!(rt; matches!(scanner.next_token(), Ok(None)));
    assert!(rt; scanner.finish().is_ok());
    Ok(())
}
