//! Tables, tried.
use crate::checking::difference;
use crate::numbers::{number_of, parts};
use crate::outside::{Fails, Outcome, Program, called, fails_of, made, stands_twice, words_of};
use crate::statuses::{status_of, statuses_told};
use crate::tables::{behind, is_doubled, misplaced, paragraph, without_text};
use std::alloc::{AllocError, Global};

// The exit statuses of a read and of a write that failed.
const READ_FAULT: u8 = 3;

const WRITE_FAULT: u8 = 4;

// A paragraph, and the one that has its files: it or one before.
#[derive(Clone, Copy)]
struct Trial<'a> {
    files: &'a [&'a [u8]],
    lines: &'a [&'a [u8]],
}

fn put_text(told: &mut String, alloc: Global, text: &[u8]) -> Result<(), AllocError> {
    let text = String::from_utf8_lossy(alloc, text)?;
    told.push_str(text.as_str())
}

// A line, what is not as told of it, and what was found.
fn tell(
    told: &mut String,
    alloc: Global,
    line: &[u8],
    what: &str,
    outcome: &Outcome,
) -> Result<(), AllocError> {
    let (err, out) = (outcome.err.bytes(), outcome.out.bytes());
    for text in [line, b": another ", what.as_bytes(), b"\n", err, out] {
        put_text(told, alloc, text)?;
    }
    Ok(())
}

// Whether a line whose second put takes ten bytes alone has put this many bytes, the first of what it puts else.
fn is_cut<P: Program>(
    program: &P,
    alloc: Global,
    trial: Trial<'_>,
    words: &[String],
    whole: &Outcome,
) -> Result<bool, AllocError> {
    let Some(size) = behind(trial.lines, b"cut ").and_then(number_of) else {
        return Ok(true);
    };
    let Some(files) = made(program, alloc, trial.files)? else {
        return Ok(false);
    };
    let fails = Fails {
        out: Some((2, 10)),
        ..Fails::never()
    };
    let cut = called(program, alloc, files, words, fails)?;
    let out = cut.out.bytes();
    Ok(
        cut.status == WRITE_FAULT
            && cut.err.bytes().is_empty()
            && out.len() as u64 == u64::from(size)
            && whole.out.bytes().starts_with(out),
    )
}

fn try_line<P: Program>(
    program: &P,
    alloc: Global,
    trial: Trial<'_>,
    (line, further): (&[u8], &[u8]),
    told: &mut String,
) -> Result<(), AllocError> {
    let words = words_of(alloc, line, further)?;
    let Some(files) = made(program, alloc, trial.files)? else {
        return told.push_str("nothing is made\n");
    };
    if stands_twice(&files) {
        told.push_str("a file stands twice\n")?;
    }
    let outcome = called(program, alloc, files, &words, fails_of(trial.lines))?;
    if let Some(what) = difference(alloc, trial.lines, &outcome)? {
        tell(told, alloc, line, what, &outcome)?;
    }
    if !is_cut(program, alloc, trial, &words, &outcome)? {
        tell(told, alloc, line, "piece", &outcome)?;
    }
    Ok(())
}

fn try_lines<P: Program>(
    program: &P,
    alloc: Global,
    trial: Trial<'_>,
    further: &[u8],
    told: &mut String,
) -> Result<(), AllocError> {
    for line in trial.lines {
        if let Some(words) = line.strip_prefix(b"$ ") {
            try_line(program, alloc, trial, (words, further), told)?;
        }
    }
    Ok(())
}

// Whether a paragraph has files of its own, or none.
fn has_files(lines: &[&[u8]]) -> bool {
    behind(lines, b"file").is_some()
        || behind(lines, b"made ").is_some()
        || behind(lines, b"no file").is_some()
}

// Whether a call is to fail, and the status told is none that comes of it.
fn fails_in_vain(lines: &[&[u8]]) -> bool {
    let puts = behind(lines, b"fails out ").is_some() || behind(lines, b"fails err ").is_some();
    let status = status_of(lines);
    behind(lines, b"fails shelf ").is_some() && status != usize::from(READ_FAULT)
        || puts && status != usize::from(WRITE_FAULT)
}

// What is wrong with a paragraph, if anything is. It tries a line, or is empty.
fn fault_of(lines: &[&[u8]]) -> Option<&'static str> {
    if !lines.is_empty() && behind(lines, b"$ ").is_none() {
        return Some("nothing is tried in a paragraph\n");
    }
    if statuses_told(lines) > 1 {
        return Some("two statuses in a paragraph\n");
    }
    if is_doubled(lines) {
        return Some("a word stands twice in a paragraph\n");
    }
    if fails_in_vain(lines) {
        return Some("a call fails, and no fault is told\n");
    }
    None
}

fn tell_paragraph(told: &mut String, lines: &[&[u8]]) -> Result<(), AllocError> {
    match fault_of(lines) {
        None => Ok(()),
        Some(fault) => told.push_str(fault),
    }
}

fn try_paragraphs<'a, P: Program>(
    program: &P,
    alloc: Global,
    table: &'a [&'a [u8]],
    further: &[u8],
    told: &mut String,
) -> Result<(), AllocError> {
    let none = &table[..0];
    let mut files = none;
    let mut rest = table;
    for _ in table {
        let lines = paragraph(rest);
        rest = rest.get(lines.len().saturating_add(1)..).unwrap_or(none);
        files = if has_files(lines) { lines } else { files };
        tell_paragraph(told, lines)?;
        try_lines(program, alloc, Trial { files, lines }, further, told)?;
    }
    Ok(())
}

// What is wrong with a table itself.
fn tell_table(told: &mut String, alloc: Global, table: &[&[u8]]) -> Result<(), AllocError> {
    if let Some(line) = misplaced(table) {
        told.push_str("no line of a table: ")?;
        put_text(told, alloc, line)?;
    }
    if let Some(line) = without_text(table) {
        told.push_str("no text below: ")?;
        put_text(told, alloc, line)?;
    }
    if behind(table, b"$ ").is_none() {
        told.push_str("nothing is tried")?;
    }
    Ok(())
}

/// What is not as a table tells, where each of its lines has a further word. It is empty where all is.
pub fn trials_with<P: Program>(
    program: &P,
    alloc: Global,
    table: &str,
    further: &str,
) -> Result<String, AllocError> {
    let table = parts(alloc, table.as_bytes(), b'\n')?;
    let mut told = String::new(alloc);
    tell_table(&mut told, alloc, &table)?;
    try_paragraphs(program, alloc, &table, further.as_bytes(), &mut told)?;
    Ok(told)
}

/// What is not as a table tells. It is empty where all is.
pub fn trials<P: Program>(program: &P, alloc: Global, table: &str) -> Result<String, AllocError> {
    trials_with(program, alloc, table, "")
}
