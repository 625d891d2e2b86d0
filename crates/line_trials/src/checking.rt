//! What is told of a line.

ghost use Rattle.std.specs.Prelude.{◌≡◌, IfOk, IfNone, map};
ghost use Rattle.line_trials.specs.Statuses.{status_of};

use crate::numbers::{number_of, parts};
use crate::outside::Outcome;
use crate::pieces::text_of;
use crate::statuses::status_of;
use crate::tables::below_of;
use std::alloc::{AllocError, Global};

// What a text is told to be, by the text below.
#[derive(Clone, Copy)]
enum Check {
    Is,
    Begins,
    Ends,
    Fourth,
    Holds,
    Lacks,
    Once,
    Never,
    Screen,
}

const CHECKS: [(&str, Check); 9] = [
    ("out", Check::Is),
    ("begins", Check::Begins),
    ("ends", Check::Ends),
    ("fourth", Check::Fourth),
    ("holds", Check::Holds),
    ("lacks", Check::Lacks),
    ("once", Check::Once),
    ("never", Check::Never),
    ("screen", Check::Screen),
];

fn check_of(line: &[u8]) -> Option<Check> {
    for (word, check) in &CHECKS {
        if line == word.as_bytes() {
            return Some(*check);
        }
    }
    None
}

// What stands behind the third line feed.
fn from_fourth(text: &[u8]) -> &[u8] {
    let mut feeds = 0u32;
    for (at, byte) in text.iter().enumerate() {
        if feeds == 3 {
            return &text[at..];
        }
        if *byte == b'\n' {
            feeds = feeds.saturating_add(1);
        }
    }
    b""
}

// How many lines are this one, and how many end with it.
fn counts(lines: &[&[u8]], wanted: &[u8]) -> (u32, u32) {
    let mut same = 0u32;
    let mut ends = 0u32;
    for line in lines {
        if *line == wanted {
            same = same.saturating_add(1);
        }
        if line.ends_with(wanted) {
            ends = ends.saturating_add(1);
        }
    }
    (same, ends)
}

// Whether this line is there as it is told.
fn has_line(check: Check, lines: &[&[u8]], wanted: &[u8]) -> bool {
    let (same, ends) = counts(lines, wanted);
    match check {
        Check::Holds => same > 0,
        Check::Lacks => same == 0,
        Check::Once => ends == 1,
        _ => ends == 0,
    }
}

fn has_lines(check: Check, lines: &[&[u8]], wanted: &[&[u8]]) -> bool {
    for line in wanted {
        if !line.is_empty() && !has_line(check, lines, line) {
            return false;
        }
    }
    true
}

// Whether a line begins with one of these words.
fn is_of(line: &[u8], words: &[&[u8]]) -> bool {
    for word in words {
        if line.starts_with(word) {
            return true;
        }
    }
    false
}

// The lines that begin with one of these words.
fn lines_of(alloc: Global, lines: &[&[u8]], words: &[&[u8]]) -> Result<Vec<u8>, AllocError> {
    let mut all = Vec::new(alloc);
    for line in lines {
        if is_of(line, words) {
            all.extend_from_slice(line)?;
            all.push(b'\n')?;
        }
    }
    Ok(all)
}

// The same of a text, with the words between commas.
fn lines_with(alloc: Global, text: &[u8], words: &[u8]) -> Result<Vec<u8>, AllocError> {
    let lines = parts(alloc, text, b'\n')?;
    let words = parts(alloc, words, b',')?;
    lines_of(alloc, &lines, &words)
}

fn is_there(alloc: Global, check: Check, text: &[u8], wanted: &[u8]) -> Result<bool, AllocError> {
    let lines = parts(alloc, text, b'\n')?;
    let wanted = parts(alloc, wanted, b'\n')?;
    Ok(has_lines(check, &lines, &wanted))
}

fn feeds(text: &[u8]) -> u32 {
    let mut feeds = 0u32;
    for byte in text {
        if *byte == b'\n' {
            feeds = feeds.saturating_add(1);
        }
    }
    feeds
}

// A row of a screen that begins so.
fn put_row(text: &mut Vec<u8>, row: &[u8]) -> Result<(), AllocError> {
    text.extend_from_slice(row)?;
    for _ in row.len()..512 {
        text.push(b'.')?;
    }
    text.push(b'\n')?;
    Ok(())
}

// The text of a screen whose first rows begin so, and which is white after that.
fn screen_of(alloc: Global, rows: &[u8]) -> Result<Vec<u8>, AllocError> {
    let mut text = Vec::new(alloc);
    let rows = parts(alloc, rows, b'\n')?;
    for number in 0..256usize {
        put_row(&mut text, rows.get(number).copied().unwrap_or(b""))?;
    }
    Ok(text)
}

fn is_so(alloc: Global, check: Check, found: &[u8], text: &[u8]) -> Result<bool, AllocError> {
    Ok(match check {
        Check::Is => found == text,
        Check::Begins => found.starts_with(text),
        Check::Ends => found.ends_with(text),
        Check::Fourth => from_fourth(found).starts_with(text),
        Check::Screen => found.ends_with(&screen_of(alloc, text)?),
        _ => is_there(alloc, check, found, text)?,
    })
}

// Whether out is as a line tells, with the text below; nothing, where the line tells nothing of out.
fn is_as(
    alloc: Global,
    line: &[u8],
    below: &[&[u8]],
    out: &[u8],
) -> Result<Option<bool>, AllocError> {
    if let Some(size) = line.strip_prefix(b"size ") {
        return Ok(Some(number_of(size).map(u64::from) == Some(out.len() as u64)));
    }
    if let Some(count) = line.strip_prefix(b"lines ") {
        return Ok(Some(number_of(count) == Some(feeds(out))));
    }
    if let Some(words) = line.strip_prefix(b"those ") {
        let found = lines_with(alloc, out, words)?;
        return Ok(Some(found == text_of(alloc, below)?));
    }
    if line.starts_with(b"cut ") {
        return Ok(Some(true));
    }
    match check_of(line) {
        Some(check) => Ok(Some(is_so(alloc, check, out, &text_of(alloc, below)?)?)),
        None => Ok(None),
    }
}

// Whether out is as the lines tell. Where they tell nothing of it, nothing is there.
fn is_out(alloc: Global, lines: &[&[u8]], out: &[u8]) -> Result<bool, AllocError> {
    let mut told = false;
    for (at, line) in lines.iter().enumerate() {
        if let Some(holds) = is_as(alloc, line, &lines[at..][1..], out)? {
            if !holds {
                return Ok(false);
            }
            told = true;
        }
    }
    Ok(told || out.is_empty())
}

// Whether err is as the lines tell.
fn is_err(alloc: Global, lines: &[&[u8]], err: &[u8]) -> Result<bool, AllocError> {
    let text = text_of(alloc, below_of(lines, b"err"))?;
    Ok(text.as_slice() == err)
}

/// What is not as the lines tell, if anything is not. Where nothing is told, the status is theirs.
pub(crate) fn difference(
    alloc: Global,
    lines: &[&[u8]],
    outcome: &Outcome,
) -> Result<Option<&'static str>, AllocError>
    ensures { IfOk result (λ d. IfNone d
        (outcome.now.status ≡ status_of (map (λ l. l.now) lines.now))) }
{
    if !is_err(alloc, lines, outcome.err.bytes())? {
        return Ok(Some("err"));
    }
    if usize::from(outcome.status) != status_of(lines) {
        return Ok(Some("status"));
    }
    if !is_out(alloc, lines, outcome.out.bytes())? {
        return Ok(Some("out"));
    }
    Ok(None)
}
