//! Commands with numbers and places.
ghost use Rattle.std.specs.Prelude.{◌≡◌, ◌≤◌, ◌+◌, ◌++◌, [], List, IfOk, OnOk, unwrap_or};
ghost use Rattle.std.specs.List.{filter_map};
ghost use Rattle.vm_link.specs.Sections.{Section};
ghost use Rattle.vm_link.specs.Faults.{static_words, words_at, words_before, words_of_lines};
ghost use Rattle.vm_link.specs.Resolved.{code_of, entry_of, first_statement, function_of, index_in, step_of};
ghost use Rattle.vm_link.specs.Inner.Maps.{AreNumbers, Tells, number, seen_section};

use crate::numbers::{Numbers, label_places};
use crate::section::Part;
use crate::{Code, LinkedFunction, Step};
use outer_world::{List, Name};
use std::alloc::{AllocError, Global};
use vm_tree::{Command, Line, Segment};

// The number of a name, 0 where it has none.
fn number_or_zero(numbers: &Numbers<'_>, name: &Name) -> usize
    ensures { result ≡ unwrap_or (number numbers.now name.now) 0 }
{
    match numbers.get(name.as_str()) {
        Some(number) => *number,
        None => 0,
    }
}

// The index in a segment, where statics are numbered after those of the files before.
fn index_in(before: u16, segment: Segment, index: u16) -> u16
    requires { before + words_at segment index ≤ 240 }
    ensures { result ≡ index_in before segment index }
{
    match segment {
        Segment::Static => before + index,
        _ => index,
    }
}

// A label is no step.
fn step_of(
    command: &Command,
    functions: &Numbers<'_>,
    places: &Numbers<'_>,
    before: u16,
) -> Option<Step>
    requires { before + static_words command.now ≤ 240 }
    ensures { (kept : List Section) (s : Section) → Tells kept s functions.now places.now before
        → result ≡ step_of kept s command.now }
{
    match command {
        Command::Operate(operation) => Some(Step::Operate(*operation)),
        Command::Push(segment, index) => Some(Step::Push(
            *segment,
            index_in(before, *segment, *index),
        )),
        Command::Pop(segment, index) => Some(Step::Pop(
            *segment,
            index_in(before, *segment, *index),
        )),
        Command::Label(_) => None,
        Command::Goto(label) => Some(Step::Goto(number_or_zero(places, label))),
        Command::IfGoto(label) => Some(Step::IfGoto(number_or_zero(places, label))),
        Command::Call(name, arguments) => Some(Step::Call(
            number_or_zero(functions, name),
            *arguments,
        )),
        Command::Return => Some(Step::Return),
    }
}

fn code_of(line: &Line, functions: &Numbers<'_>, places: &Numbers<'_>, before: u16) -> Option<Code>
    requires { before + static_words line.now.command ≤ 240 }
    ensures { (kept : List Section) (s : Section) → Tells kept s functions.now places.now before
        → result ≡ code_of kept s line.now }
{
    let step = step_of(&line.command, functions, places, before)?;
    Some(Code {
        step,
        statement: line.statement,
        commit: line.commit,
    })
}

fn first_statement(lines: &[Line]) -> u32
    ensures { result ≡ first_statement lines.now }
{
    match lines.first() {
        Some(line) => line.statement,
        None => 0,
    }
}

// The `function` line, where there is one.
fn entry(alloc: Global, part: &Part<'_>) -> Result<Vec<Code>, AllocError>
    ensures { IfOk result (λ code. code.items ≡ entry_of (seen_section part.now).name
        (seen_section part.now).locals (seen_section part.now).lines) }
{
    let mut code = Vec::new(alloc);
    if part.name.is_some() {
        code.push(Code {
            step: Step::Function(part.locals),
            statement: first_statement(part.lines),
            commit: false,
        })?;
    }
    Ok(code)
}

fn add_lines(
    code: &mut Vec<Code>,
    lines: &[Line],
    functions: &Numbers<'_>,
    places: &Numbers<'_>,
    before: u16,
) -> Result<(), AllocError>
    requires { before + words_of_lines lines.now ≤ 240 }
    ensures { OnOk result
        ((kept : List Section) (s : Section) → Tells kept s functions.now places.now before
        → code.new.items ≡ code.old.items ++ filter_map (code_of kept s) lines.now) }
{
    for line in lines {
        if let Some(more) = code_of(line, functions, places, before) {
            code.push(more)?;
        }
    }
    Ok(())
}

// An opening text has an empty name.
fn name_of(alloc: Global, part: &Part<'_>) -> Result<Name, AllocError>
    ensures { IfOk result (λ name. name ≡ unwrap_or (seen_section part.now).name []) }
{
    match part.name {
        Some(name) => Name::new(alloc, name),
        None => Name::new(alloc, ""),
    }
}

/// The code of a section.
pub fn function_of(
    alloc: Global,
    part: &Part<'_>,
    functions: &Numbers<'_>,
    before: u16,
) -> Result<LinkedFunction, AllocError>
    requires { before + words_of_lines (seen_section part.now).lines ≤ 240 }
    ensures { IfOk result (λ f. (kept : List Section) → AreNumbers functions.now kept
        → before ≡ words_before kept part.now.file → f ≡ function_of kept (seen_section part.now)) }
{
    let places = label_places(alloc, part)?;
    let mut code = entry(alloc, part)?;
    add_lines(&mut code, part.lines, functions, &places, before)?;
    let name = name_of(alloc, part)?;
    Ok(LinkedFunction {
        name,
        file: part.file,
        number: part.number,
        code: List::of(code),
    })
}
