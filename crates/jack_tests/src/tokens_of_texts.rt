use crate::checks::{holds, is_told};
use grammar::ReadError;
use jack_lexer::*;
use jack_tree::{Keyword, Kind, Token};
use scan_text::Place;
use std::alloc::Global;
use std::process::Abort;
use std::test::Fail;

// a text, and its tokens: kinds, slices and places
const TEXT: &[u8] = b"let /* a */ x1=\"a /* \";// b\r\n32767/_^#";

const TOKENS: &[(Kind, &[u8], (u32, u32))] = &[
    (Kind::Keyword(Keyword::Let), b"let", (1, 1)),
    (Kind::Identifier, b"x1", (1, 13)),
    (Kind::Symbol(b'='), b"=", (1, 15)),
    (Kind::Text, b"\"a /* \"", (1, 16)),
    (Kind::Symbol(b';'), b";", (1, 23)),
    (Kind::Integer(32767), b"32767", (2, 1)),
    (Kind::Symbol(b'/'), b"/", (2, 6)),
    (Kind::Identifier, b"_", (2, 7)),
    (Kind::Symbol(b'^'), b"^", (2, 8)),
    (Kind::Symbol(b'#'), b"#", (2, 9)),
];

// texts, and their faults, or nothing where they have none
const FAULTS: &[(&[u8], &str)] = &[
    (b"/* a", "1:1: Grammar"),
    (b"x\n 32768", "2:2: Range 32768"),
    (b"00032767", ""),
    (b"99999999999", "1:1: Range 1000000000"),
    (b"let \"a\n\"", "1:5: Grammar"),
    (b"\"\xe4\"", "1:1: Grammar"),
    (b"\"\t\"", ""),
    (b"a @", "1:3: Grammar"),
    (b"/* \xe4 **/ //\xe4", ""),
];

fn cut<'a>(alloc: Global, text: &'a [u8]) -> Result<(Vec<Token<'a>>, Place), ReadError> {
    tokens(alloc, text)
}

// The fault of a text, or nothing.
fn told(alloc: Global, text: &[u8]) -> Result<String, Fail> {
    match cut(alloc, text) {
        Ok(_) => Ok(String::new(alloc)),
        Err(fault) => Ok(format!(in alloc; "{fault}")?),
    }
}

fn tokens_table() -> &'static [(Kind, &'static [u8], (u32, u32))] {
    TOKENS
}

fn faults_table() -> &'static [(&'static [u8], &'static str)] {
    FAULTS
}

fn is_token(rt: &impl Abort, row: usize, token: &Token<'_>) {
    let place = (token.place.line, token.place.column);
    let found = (token.kind, token.text, place);
    let wanted = tokens_table().get(row).copied();
    holds(rt, "tokens", row, Some(found) == wanted);
}

fn tells(
    rt: &impl Abort,
    alloc: Global,
    table: &str,
    row: usize,
    (text, wanted): (&[u8], &str),
) -> Result<(), Fail> {
    let found = told(alloc, text)?;
    is_told(rt, table, row, &found, wanted);
    Ok(())
}

#[test]
fn texts(rt: HostRuntime) -> Result<(), Fail> {
    let (tokens, end) = cut(rt.alloc(), TEXT)?;
    holds(&rt, "count", 0, tokens.len() == tokens_table().len());
    holds(&rt, "end", 0, (end.line, end.column) == (2, 10));
    for (row, token) in tokens.iter().enumerate() {
        is_token(&rt, row, token);
    }
    Ok(())
}

#[test]
fn faults(rt: HostRuntime) -> Result<(), Fail> {
    for (row, fault) in faults_table().iter().enumerate() {
        tells(&rt, rt.alloc(), "faults", row, *fault)?;
    }
    Ok(())
}

#[test]
fn the_longest_text(rt: HostRuntime) -> Result<(), Fail> {
    let alloc = rt.alloc();
    let blanks = vec![in alloc; b' '; 1048577]?;
    tells(&rt, alloc, "blanks", 0, (&blanks, "0:0: Range 1048577"))?;
    tells(&rt, alloc, "blanks", 1, (&blanks[1..], ""))
}
