//! Words and the lines that they are.
mod tables;

use crate::checks::{holds, is_told};
use command_line::{ClassWork, Exec, FileWork, LineError, Request, Run, RunLevel, read};
use std::alloc::{AllocError, Global};
use std::process::Abort;
use std::test::Fail;
use tables::{PROG, execs, no_lines, read_lines, runs};

// The words of a text.
fn words_of(alloc: Global, text: &str) -> Result<Vec<String>, AllocError> {
    let mut words = Vec::new(alloc);
    for word in text.split(' ') {
        words.push(String::from_str(alloc, word)?)?;
    }
    Ok(words)
}

// Whether `read` answers this to these words.
fn answers(alloc: Global, words: Vec<String>, expected: Result<Request<'_>, LineError>) -> bool {
    read(alloc, &words) == expected
}

fn is_line(alloc: Global, text: &str, request: Request<'_>) -> Result<bool, AllocError> {
    Ok(answers(alloc, words_of(alloc, text)?, Ok(request)))
}

// The first of these lines for which `read` answers something else.
fn first_misread_exec(
    alloc: Global,
    lines: &[(&'static str, &str, u32, u16, u16)],
) -> Result<Option<&'static str>, AllocError> {
    for (text, path, cycles, from, to) in lines {
        let exec = Exec {
            cycles: *cycles,
            from: *from,
            to: *to,
        };
        let request = Request::File {
            path,
            work: FileWork::Exec(exec),
        };
        if !is_line(alloc, text, request)? {
            return Ok(Some(*text));
        }
    }
    Ok(None)
}

// The same, of lines that run the folder `prog`.
fn first_misread_run(
    alloc: Global,
    lines: &[(&'static str, RunLevel, u32, Option<&str>)],
) -> Result<Option<&'static str>, AllocError> {
    for (text, level, cycles, keys) in lines {
        let run = Run {
            level: *level,
            cycles: *cycles,
            keys: *keys,
        };
        let request = Request::Classes {
            source: PROG,
            work: ClassWork::Run(run),
        };
        if !is_line(alloc, text, request)? {
            return Ok(Some(*text));
        }
    }
    Ok(None)
}

fn first_misread(
    alloc: Global,
    lines: &[(&'static str, Request<'_>)],
) -> Result<Option<&'static str>, AllocError> {
    for (text, request) in lines {
        if !is_line(alloc, text, *request)? {
            return Ok(Some(*text));
        }
    }
    Ok(None)
}

// The first of the texts that are no lines for which `read` does not answer so.
fn first_accepted(
    alloc: Global,
    texts: &[&'static str],
) -> Result<Option<&'static str>, AllocError> {
    for text in texts {
        if !answers(alloc, words_of(alloc, text)?, Err(LineError::Usage)) {
            return Ok(Some(*text));
        }
    }
    Ok(None)
}

fn none_is_misread(rt: &impl Abort, misread: Option<&str>) {
    assert_eq!(rt; misread, None);
}

#[test]
fn lines_are_read(rt: HostRuntime) -> Result<(), Fail> {
    none_is_misread(&rt, first_misread_exec(rt.alloc(), execs())?);
    none_is_misread(&rt, first_misread_run(rt.alloc(), runs())?);
    none_is_misread(&rt, first_misread(rt.alloc(), read_lines())?);
    none_is_misread(&rt, first_accepted(rt.alloc(), no_lines())?);
    Ok(())
}

#[test]
fn no_words_are_no_line(rt: HostRuntime) -> Result<(), Fail> {
    let alloc = rt.alloc();
    let refused = answers(alloc, Vec::new(alloc), Err(LineError::Usage));
    holds(&rt, "no words", refused);
    let text = format!(in alloc; "{}", LineError::Usage)?;
    is_told(&rt, "usage", &text, "usage: nand COMMAND ARGUMENTS");
    Ok(())
}
