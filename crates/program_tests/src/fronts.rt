//! Fronts of texts: a text of each of the seven languages is broken off after each of its bytes.
//!
//! Under each line of a text stands where its tokens and comments begin (`^`). Under that stands what is reported of
//! the fronts that end in this line, from the one that has nothing of it on. The signs are `+` that they are taken, `<`
//! Grammar at their last token, and `>` Grammar at their end. A program in Python made them, by the grammars of
//! docs/FORMATS.md; it shares nothing with the readers.
use crate::checks::{ended, has_status, holds};
use crate::nand::Nand;
use line_trials::{Fails, Outcome, outcome_over};
use nand_cli::Status;
use outer_world::Name;
use std::alloc::{AllocError, Global};
use std::process::Abort;
use std::test::Fail;

/// The path of a text, a line that reads it, the file beside it, and the lines of the text.
#[derive(Clone, Copy)]
struct Fronts<'a> {
    path: &'a str,
    call: &'a str,
    beside: (&'a str, &'a str),
    lines: &'a [(&'a str, &'a str, &'a str)],
}

const ASSEMBLY: Fronts<'static> = Fronts {
    path: "Add.asm",
    call: "asm Add.asm",
    beside: ("none", ""),
    lines: &[
        ("@2", "^^", "+>+"),
        ("D=A", "^^^", "++>+"),
        ("@3", "^^", "+>+"),
        ("D=D+A", "^^^^^", "++>+>+"),
        ("@0", "^^", "+>+"),
        ("M=D", "^^^", "++>+"),
        ("", "", "+"),
    ],
};

const IMAGE: Fronts<'static> = Fronts {
    path: "Add.hack",
    call: "exec Add.hack --cycles 0 --from 1 --to 0",
    beside: ("none", ""),
    lines: &[
        ("0000000000000010", "^^^^^^^^^^^^^^^^", "+>>>>>>>>>>>>>>>+"),
        ("1110110000010000", "^^^^^^^^^^^^^^^^", "+>>>>>>>>>>>>>>>+"),
        ("0000000000000011", "^^^^^^^^^^^^^^^^", "+>>>>>>>>>>>>>>>+"),
        ("1110000010010000", "^^^^^^^^^^^^^^^^", "+>>>>>>>>>>>>>>>+"),
        ("0000000000000000", "^^^^^^^^^^^^^^^^", "+>>>>>>>>>>>>>>>+"),
        ("1110001100001000", "^^^^^^^^^^^^^^^^", "+>>>>>>>>>>>>>>>+"),
        ("", "", "+"),
    ],
};

const VM: Fronts<'static> = Fronts {
    path: "v/Sys.vm",
    call: "show v/Sys.vm",
    beside: ("none", ""),
    lines: &[
        (
            "function Sys.init 0",
            "^        ^        ^",
            "+<<<<<<<>>>>>>>>>>>+",
        ),
        ("call Sys.seven 0", "^    ^         ^", "+<<<>>>>>>>>>>>>+"),
        ("pop temp 0", "^   ^    ^", "+<<>><<<>>+"),
        ("label END", "^     ^  ", "+<<<<>>+++"),
        ("goto END", "^    ^  ", "+<<<>>+++"),
        (
            "function Sys.seven 0",
            "^        ^         ^",
            "+<<<<<<<>>>>>>>>>>>>+",
        ),
        ("push constant 7", "^    ^        ^", "+<<<>><<<<<<<>>+"),
        ("return", "^     ", "+<<<<<+"),
        ("", "", "+"),
    ],
};

const JACK: Fronts<'static> = Fronts {
    path: "Main.jack",
    call: "show Main.jack",
    beside: ("none", ""),
    lines: &[(
        "class Main { function void main() { } }",
        "^     ^    ^ ^        ^    ^   ^^ ^ ^ ^",
        "><<<<>>>>>>>>><<<<<<<>>>>>>>>>>>>>>>>>>+",
    )],
};

const CHIP: Fronts<'static> = Fronts {
    path: "And.hdl",
    call: "show And.hdl",
    beside: ("none", ""),
    lines: &[(
        "CHIP And { IN a, b; OUT out; PARTS: Nand(a=a, b=b, out=n); Nand(a=n, b=n, out=out); }",
        "^    ^   ^ ^  ^^ ^^ ^   ^  ^ ^    ^ ^   ^^^^^ ^^^^ ^  ^^^^ ^   ^^^^^ ^^^^ ^  ^^  ^^ ^",
        "><<<>>>>>>>><>>>>>>>><<>>>>>>><<<<>>>>>>>>>>>>>>>>>>>>>>>>>>>>>>>>>>>>>>>>>>>>>>>>>>>+",
    )],
};

const SCRIPT: Fronts<'static> = Fronts {
    path: "And.tst",
    call: "test And.tst",
    beside: ("none", ""),
    lines: &[
        (
            "load And.hdl, output-list a%B3.1.3 out;",
            "^    ^      ^ ^           ^        ^  ^",
            "+<<<>><<<<<<>++<<<<<><<<<>>><<<<<<>>>>>+",
        ),
        (
            "repeat 2 { set a -1, eval; }",
            "^      ^ ^ ^   ^ ^ ^ ^   ^ ^",
            "+<<<<<>>>>>><<>>>><>>><<<>>>+",
        ),
        (
            "output! /* b */ echo \"to b\";",
            "^     ^ ^       ^    ^     ^",
            "+<<<<<>++<<<<<<++<<<>><<<<<>+",
        ),
        ("", "", "+"),
    ],
};

const KEYS: Fronts<'static> = Fronts {
    path: "k.txt",
    call: "run prog --level jack --cycles 0 --keys k.txt",
    beside: ("prog/Main.jack", "class Main { function void main() { } }"),
    lines: &[
        ("5 65", "^ ^ ", "+>>++"),
        ("60 0", "^  ^", "+>>>+"),
        ("", "", "+"),
    ],
};

// The column of the last token that begins in the first bytes of a line.
fn last_column(marks: &str, length: usize) -> usize {
    let mut column = 0usize;
    for (at, mark) in marks.as_bytes().iter().enumerate() {
        if at < length && *mark == b'^' {
            column = at.saturating_add(1);
        }
    }
    column
}

// The text of these lines, and of the front of the next.
fn text_of(alloc: Global, before: &[u8], front: &[u8]) -> Result<Vec<u8>, AllocError> {
    let mut text = before.to_vec(alloc)?;
    text.extend_from_slice(front)?;
    Ok(text)
}

fn file_of(alloc: Global, path: &str, text: Vec<u8>) -> Result<(Name, Vec<u8>), AllocError> {
    Ok((Name::new(alloc, path)?, text))
}

// What the line does that reads such a text.
fn outcome_at(
    alloc: Global,
    fronts: &Fronts<'_>,
    before: &[u8],
    front: &[u8],
) -> Result<Outcome, AllocError> {
    let (path, text) = fronts.beside;
    let mut files = Vec::new(alloc);
    files.push(file_of(alloc, path, text.as_bytes().to_vec(alloc)?)?)?;
    files.push(file_of(alloc, fronts.path, text_of(alloc, before, front)?)?)?;
    outcome_over(&Nand, alloc, files, fronts.call, Fails::never())
}

// A text is taken, or reported to have the fault Grammar at this place.
fn is_told(
    rt: &impl Abort,
    alloc: Global,
    fronts: &Fronts<'_>,
    outcome: &Outcome,
    place: Option<(usize, usize)>,
) -> Result<(), Fail> {
    let Fronts { path, call, .. } = fronts;
    match place {
        None => has_status(rt, 0, call, outcome.status, Status::Done),
        Some((line, column)) => {
            let err = format!(in alloc; "{path}:{line}:{column}: Grammar\n")?;
            ended(
                rt,
                line,
                call,
                outcome,
                (Status::Refused, b"", err.as_bytes()),
            );
        }
    }
    Ok(())
}

// Where the fault of a front is that ends in this line, by its sign.
fn place_of(sign: u8, line: usize, marks: &str, length: usize) -> Option<(usize, usize)> {
    match sign {
        b'+' => None,
        b'<' => Some((line, last_column(marks, length))),
        _ => Some((line, length.saturating_add(1))),
    }
}

// This is reported of the fronts that end in a line, where this text stands before it.
fn each_front_of_a_line(
    rt: &impl Abort,
    alloc: Global,
    fronts: &Fronts<'_>,
    before: &[u8],
    (number, (line, marks, signs)): (usize, (&str, &str, &str)),
) -> Result<(), Fail> {
    holds(rt, number, line, marks.len() == line.len());
    holds(
        rt,
        number,
        line,
        signs.len() == line.len().saturating_add(1),
    );
    for (length, sign) in signs.as_bytes().iter().enumerate() {
        let front = line.as_bytes().get(..length).unwrap_or(b"");
        let outcome = outcome_at(alloc, fronts, before, front)?;
        let place = place_of(*sign, number, marks, length);
        is_told(rt, alloc, fronts, &outcome, place)?;
    }
    Ok(())
}

fn each_front(rt: &impl Abort, alloc: Global, fronts: &Fronts<'_>) -> Result<(), Fail> {
    let mut before = Vec::new(alloc);
    for (number, row) in fronts.lines.iter().enumerate() {
        let numbered = (number.saturating_add(1), *row);
        each_front_of_a_line(rt, alloc, fronts, &before, numbered)?;
        before.extend_from_slice(row.0.as_bytes())?;
        before.push(b'\n')?;
    }
    Ok(())
}

#[test]
fn each_front_of_a_text(rt: HostRuntime) -> Result<(), Fail> {
    for fronts in [&ASSEMBLY, &IMAGE, &VM, &JACK, &CHIP, &SCRIPT, &KEYS] {
        each_front(&rt, rt.alloc(), fronts)?;
    }
    Ok(())
}

// These bytes alone are reported at the first of them.
fn is_no_text(
    rt: &impl Abort,
    alloc: Global,
    fronts: &Fronts<'_>,
    bytes: &[u8],
) -> Result<(), Fail> {
    let outcome = outcome_at(alloc, fronts, bytes, b"")?;
    is_told(rt, alloc, fronts, &outcome, Some((1, 1)))
}

// A zero byte, one that is no letter, bytes of no UTF-8, and a byte order mark.
fn none_is_a_text(rt: &impl Abort, alloc: Global, fronts: &Fronts<'_>) -> Result<(), Fail> {
    for bytes in [b"\0".as_slice(), b"\x7f", b"\x80", b"\xff", b"\xef\xbb\xbf"] {
        is_no_text(rt, alloc, fronts, bytes)?;
    }
    Ok(())
}

// Bytes that begin no text of any language are reported at once.
#[test]
fn bytes_that_begin_no_text(rt: HostRuntime) -> Result<(), Fail> {
    for fronts in [&ASSEMBLY, &IMAGE, &VM, &JACK, &CHIP, &SCRIPT, &KEYS] {
        none_is_a_text(&rt, rt.alloc(), fronts)?;
    }
    Ok(())
}
