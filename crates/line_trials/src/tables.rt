//! The lines of a table, and its paragraphs.
use crate::numbers::{number_of, two_numbers, two_parts};
use crate::pieces::piece_of;
use crate::statuses::status_by;

/// The lines from the first on up to an empty one.
pub(crate) fn paragraph<'a>(lines: &'a [&'a [u8]]) -> &'a [&'a [u8]] {
    for (at, line) in lines.iter().enumerate() {
        if line.is_empty() {
            return &lines[..at];
        }
    }
    lines
}

/// What is behind this word in the first line that begins with it.
pub(crate) fn behind<'a>(lines: &[&'a [u8]], word: &[u8]) -> Option<&'a [u8]> {
    for line in lines {
        if let Some(rest) = line.strip_prefix(word) {
            return Some(rest);
        }
    }
    None
}

// Lines with a text below them. Where a word ends with a space, a value stands behind it.
const HEADS: [&str; 13] = [
    "file ", "files ", "out", "err", "begins", "ends", "fourth", "holds", "lacks", "once", "never",
    "those ", "screen",
];

// Lines without one, beside the words for statuses.
const OTHERS: [&str; 11] = [
    "",
    "$ ",
    "# ",
    "no file",
    "made ",
    "size ",
    "lines ",
    "cut ",
    "fails shelf ",
    "fails out ",
    "fails err ",
];

fn is_one_of(line: &[u8], words: &[&str]) -> bool {
    for word in words {
        let word = word.as_bytes();
        if line == word || word.ends_with(b" ") && line.starts_with(word) {
            return true;
        }
    }
    false
}

// Whether a line says something without a text below it.
fn is_other(line: &[u8]) -> bool {
    status_by(line).is_some() || is_one_of(line, &OTHERS)
}

// What is behind the first of these words that a line begins with.
fn value_of<'a>(line: &'a [u8], words: &[&str]) -> Option<&'a [u8]> {
    for word in words {
        if let Some(value) = line.strip_prefix(word.as_bytes()) {
            return Some(value);
        }
    }
    None
}

// Whether what stands behind `files ` is a number and a path.
fn is_count_of(value: &[u8]) -> bool {
    match two_parts(value) {
        Some((count, _)) => number_of(count).is_some(),
        None => false,
    }
}

// Whether what is behind a word is of its form.
fn has_value(line: &[u8]) -> bool {
    if let Some(value) = value_of(line, &["size ", "lines ", "cut ", "fails shelf "]) {
        return number_of(value).is_some();
    }
    if let Some(value) = value_of(line, &["fails out ", "fails err "]) {
        return two_numbers(value).is_some();
    }
    if let Some(value) = value_of(line, &["files "]) {
        return is_count_of(value);
    }
    match value_of(line, &["made "]) {
        Some(value) => two_parts(value).is_some(),
        None => true,
    }
}

// Lines that say nothing without a text below.
const WANTING: [&str; 7] = [
    "begins", "ends", "fourth", "holds", "lacks", "once", "never",
];

// Whether the text of the first lines has anything but line ends.
fn has_text(lines: &[&[u8]]) -> bool {
    for line in lines {
        match piece_of(line) {
            None => return false,
            Some(piece) => {
                if piece.says_something() {
                    return true;
                }
            }
        }
    }
    false
}

/// The first line that says nothing without a text below it, and has none but line ends.
pub(crate) fn without_text<'a>(lines: &[&'a [u8]]) -> Option<&'a [u8]> {
    for (at, line) in lines.iter().enumerate() {
        if is_one_of(line, &WANTING) && !has_text(&lines[at..][1..]) {
            return Some(*line);
        }
    }
    None
}

// Words that stand in a paragraph once at most.
const SINGLE: [&str; 7] = [
    "err",
    "no file",
    "made ",
    "cut ",
    "fails shelf ",
    "fails out ",
    "fails err ",
];

// How many lines are this word, or begin with it.
fn times_of(lines: &[&[u8]], word: &str) -> u32 {
    let mut times = 0u32;
    for line in lines {
        if is_one_of(line, &[word]) {
            times = times.saturating_add(1);
        }
    }
    times
}

/// Whether a word stands twice that counts once, or files stand beside `no file`.
pub(crate) fn is_doubled(lines: &[&[u8]]) -> bool {
    for word in &SINGLE {
        if times_of(lines, word) > 1 {
            return true;
        }
    }
    times_of(lines, "no file") > 0 && behind(lines, b"file").is_some()
}

/// The first line that says nothing, or has a text at a place where none is wanted.
pub(crate) fn misplaced<'a>(lines: &[&'a [u8]]) -> Option<&'a [u8]> {
    let mut open = false;
    for line in lines {
        if piece_of(line).is_some() {
            if !open {
                return Some(*line);
            }
        } else {
            open = is_one_of(line, &HEADS);
            if !has_value(line) || !open && !is_other(line) {
                return Some(*line);
            }
        }
    }
    None
}

/// The lines below the first that is this word.
pub(crate) fn below_of<'a>(lines: &'a [&'a [u8]], word: &[u8]) -> &'a [&'a [u8]] {
    for (at, line) in lines.iter().enumerate() {
        if *line == word {
            return &lines[at..][1..];
        }
    }
    &lines[..0]
}
