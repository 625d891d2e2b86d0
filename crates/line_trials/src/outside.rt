//! Files and sinks in memory, and what a program does over them.
use crate::numbers::{number_of, parts, two_numbers, two_parts};
use crate::pieces::{put_numbered, text_of};
use crate::tables::{behind, misplaced};
use outer_world::{MemoryShelf, MemorySink, Name, Sink};
use std::alloc::{AllocError, Global};

/// A program that is tried.
pub trait Program {
    /// Does what these words ask for, and answers the exit status.
    fn call(
        &self,
        alloc: Global,
        words: &[String],
        shelf: &mut MemoryShelf,
        out: &mut MemorySink,
        err: &mut MemorySink,
    ) -> u8;
}

/// The call of the shelf that fails, and the puts on out and on err, with how many bytes they still take.
#[derive(Clone, Copy)]
pub struct Fails {
    /// The number of the call of the shelf.
    pub shelf: Option<u64>,
    /// The put on out.
    pub out: Option<(u64, u32)>,
    /// The put on err.
    pub err: Option<(u64, u32)>,
}

impl Fails {
    /// No call fails.
    pub fn never() -> Fails {
        Fails {
            shelf: None,
            out: None,
            err: None,
        }
    }
}

/// How a line ends, and what it puts.
#[derive(Drop)]
pub struct Outcome {
    /// The exit status.
    pub status: u8,
    /// What stands on out.
    pub out: MemorySink,
    /// What stands on err.
    pub err: MemorySink,
}

// The calls that fail by the lines of a trial.
pub(crate) fn fails_of(lines: &[&[u8]]) -> Fails {
    Fails {
        shelf: behind(lines, b"fails shelf ")
            .and_then(number_of)
            .map(u64::from),
        out: behind(lines, b"fails out ").and_then(two_numbers),
        err: behind(lines, b"fails err ").and_then(two_numbers),
    }
}

fn sink_of(alloc: Global, room: u32, fails: Option<(u64, u32)>) -> Result<MemorySink, AllocError> {
    let mut plan = Vec::new(alloc);
    if let Some(put) = fails {
        plan.push(put)?;
    }
    MemorySink::new(alloc, room, plan)
}

fn sinks_of(alloc: Global, fails: Fails) -> Result<(MemorySink, MemorySink), AllocError> {
    let out = sink_of(alloc, 300_000, fails.out)?;
    let err = sink_of(alloc, 20_000, fails.err)?;
    Ok((out, err))
}

fn add_file(
    alloc: Global,
    files: &mut Vec<(Name, Vec<u8>)>,
    path: &[u8],
    text: Vec<u8>,
) -> Result<(), AllocError> {
    let path = String::from_utf8_lossy(alloc, path)?;
    files.push((Name::new(alloc, path.as_str())?, text))?;
    Ok(())
}

fn numbered(alloc: Global, text: &[u8], number: u32) -> Result<Vec<u8>, AllocError> {
    let mut all = Vec::new(alloc);
    put_numbered(&mut all, text, number)?;
    Ok(all)
}

// This many files with this path and this text, each with its number in them.
fn add_files(
    alloc: Global,
    files: &mut Vec<(Name, Vec<u8>)>,
    count: u32,
    path: &[u8],
    text: &[u8],
) -> Result<(), AllocError> {
    for number in 0..count {
        let path = numbered(alloc, path, number)?;
        let text = numbered(alloc, text, number)?;
        add_file(alloc, files, &path, text)?;
    }
    Ok(())
}

// How many files a line speaks of, and their path.
fn count_and_path(rest: &[u8]) -> Option<(u32, &[u8])> {
    let (count, path) = two_parts(rest)?;
    Some((number_of(count)?, path))
}

// The files that one line speaks of, whose text is below it.
fn add_files_at(
    alloc: Global,
    files: &mut Vec<(Name, Vec<u8>)>,
    line: &[u8],
    below: &[&[u8]],
) -> Result<(), AllocError> {
    if let Some(path) = line.strip_prefix(b"file ") {
        return add_file(alloc, files, path, text_of(alloc, below)?);
    }
    let several = line.strip_prefix(b"files ").and_then(count_and_path);
    if let Some((count, path)) = several {
        let text = text_of(alloc, below)?;
        add_files(alloc, files, count, path, &text)?;
    }
    Ok(())
}

// The files that these lines speak of.
fn files_of(alloc: Global, lines: &[&[u8]]) -> Result<Vec<(Name, Vec<u8>)>, AllocError> {
    let mut files = Vec::new(alloc);
    for (at, line) in lines.iter().enumerate() {
        add_files_at(alloc, &mut files, line, &lines[at..][1..])?;
    }
    Ok(files)
}

// The words of a line, which stand apart by single spaces, and a further word.
pub(crate) fn words_of(
    alloc: Global,
    line: &[u8],
    further: &[u8],
) -> Result<Vec<String>, AllocError> {
    let mut words = Vec::new(alloc);
    for word in parts(alloc, line, b' ')? {
        words.push(String::from_utf8_lossy(alloc, word)?)?;
    }
    if !further.is_empty() {
        words.push(String::from_utf8_lossy(alloc, further)?)?;
    }
    Ok(words)
}

fn plan_of(alloc: Global, fails: Option<u64>) -> Result<Vec<u64>, AllocError> {
    let mut plan = Vec::new(alloc);
    if let Some(call) = fails {
        plan.push(call)?;
    }
    Ok(plan)
}

/// What words do over these files.
pub(crate) fn called<P: Program>(
    program: &P,
    alloc: Global,
    files: Vec<(Name, Vec<u8>)>,
    words: &[String],
    fails: Fails,
) -> Result<Outcome, AllocError> {
    let mut shelf = MemoryShelf::new(files, plan_of(alloc, fails.shelf)?);
    let (mut out, mut err) = sinks_of(alloc, fails)?;
    let status = program.call(alloc, words, &mut shelf, &mut out, &mut err);
    Ok(Outcome { status, out, err })
}

/// Whether two of these files have one path.
pub(crate) fn stands_twice(files: &[(Name, Vec<u8>)]) -> bool {
    for (at, file) in files.iter().enumerate() {
        for other in &files[..at] {
            if other.0 == file.0 {
                return true;
            }
        }
    }
    false
}

/// The files that these lines speak of, and one more that a line over them makes; none where that line isn't done.
pub(crate) fn made<P: Program>(
    program: &P,
    alloc: Global,
    files: &[&[u8]],
) -> Result<Option<Vec<(Name, Vec<u8>)>>, AllocError> {
    let mut all = files_of(alloc, files)?;
    let Some((path, line)) = behind(files, b"made ").and_then(two_parts) else {
        return Ok(Some(all));
    };
    let words = words_of(alloc, line, b"")?;
    let outcome = called(
        program,
        alloc,
        files_of(alloc, files)?,
        &words,
        Fails::never(),
    )?;
    if outcome.status != 0 || !outcome.err.bytes().is_empty() {
        return Ok(None);
    }
    add_file(alloc, &mut all, path, outcome.out.bytes().to_vec(alloc)?)?;
    Ok(Some(all))
}

/// What a line does over these files.
pub fn outcome_over<P: Program>(
    program: &P,
    alloc: Global,
    files: Vec<(Name, Vec<u8>)>,
    line: &str,
    fails: Fails,
) -> Result<Outcome, AllocError> {
    let words = words_of(alloc, line.as_bytes(), b"")?;
    called(program, alloc, files, &words, fails)
}

// What is said of files that are no files of a table: this status, which no program has, and the line on err.
fn no_outcome(alloc: Global, line: &[u8]) -> Result<Outcome, AllocError> {
    let (out, mut err) = sinks_of(alloc, Fails::never())?;
    let _ = err.put(line);
    Ok(Outcome {
        status: 255,
        out,
        err,
    })
}

/// What a line does over the files of a table. Where a line there says nothing, the status is 255.
pub fn outcome_of<P: Program>(
    program: &P,
    alloc: Global,
    files: &str,
    line: &str,
    fails: Fails,
) -> Result<Outcome, AllocError> {
    let lines = parts(alloc, files.as_bytes(), b'\n')?;
    if let Some(line) = misplaced(&lines) {
        return no_outcome(alloc, line);
    }
    outcome_over(program, alloc, files_of(alloc, &lines)?, line, fails)
}
