//! The static words of files.
ghost use Rattle.std.specs.Prelude.{◌≡◌, ◌-◌, ◌^◌, [], List, IfOk, length, min};
ghost use Rattle.vm_link.specs.Sections.{Section};
ghost use Rattle.vm_link.specs.Faults.{static_words, words_at, words_of_lines, file_words, words_before};
ghost use Rattle.vm_link.specs.Inner.Words.{AreWords, AreBases};
ghost use Rattle.vm_link.specs.Inner.Maps.{all_seen};

use crate::section::Part;
use std::alloc::{AllocError, Global};
use vm_tree::{Command, Line, Segment};

fn words_at(segment: Segment, index: u16) -> u32
    ensures { result ≡ words_at segment index }
{
    match segment {
        Segment::Static => index as u32 + 1,
        _ => 0,
    }
}

fn static_words(command: &Command) -> u32
    ensures { result ≡ static_words command.now }
{
    match command {
        Command::Push(segment, index) | Command::Pop(segment, index) => words_at(*segment, *index),
        _ => 0,
    }
}

// One more than the greatest static index that lines name.
fn words_of_lines(lines: &[Line]) -> u32
    ensures { result ≡ words_of_lines lines.now }
{
    let mut words = 0;
    for line in lines {
        words = words.max(static_words(&line.command));
    }
    words
}

// As many files without static words.
fn no_words(alloc: Global, files: usize) -> Result<Vec<u32>, AllocError>
    ensures { IfOk result (λ words. AreWords [] files words.items) }
{
    let mut words = Vec::new(alloc);
    for _ in 0..files {
        words.push(0)?;
    }
    Ok(words)
}

/// The static words of each of this many files, of the sections that are kept.
pub fn file_words(alloc: Global, kept: &[Part<'_>], files: usize) -> Result<Vec<u32>, AllocError>
    ensures { IfOk result (λ words. AreWords (all_seen kept.now) files words.items) }
{
    let mut words = no_words(alloc, files)?;
    for part in kept {
        if part.file < words.len() {
            let more = words_of_lines(part.lines);
            words[part.file] = words[part.file].max(more);
        }
    }
    Ok(words)
}

/// The static words of all files, or 2^64 - 1 where they are more.
pub fn all_words(words: &[u32]) -> u64
    ensures { (kept : List Section) → AreWords kept (length words.now) words.now
        → result ≡ min (words_before kept (length words.now)) (2 ^ 64 - 1) }
{
    let mut all: u64 = 0;
    for more in words {
        all = all.saturating_add(*more as u64);
    }
    all
}

/// The static words of the files before each file, or 2^64 - 1 where they are more.
pub fn bases(alloc: Global, words: &[u32]) -> Result<Vec<u64>, AllocError>
    ensures { IfOk result
        (λ bases. (kept : List Section) → AreWords kept (length words.now) words.now
        → AreBases kept (length words.now) bases.items) }
{
    let mut bases = Vec::new(alloc);
    let mut before: u64 = 0;
    for more in words {
        bases.push(before)?;
        before = before.saturating_add(*more as u64);
    }
    Ok(bases)
}
