//! Programs as rows of tables.

ghost use Rattle.std.specs.Prelude.{IfOk};
ghost use Rattle.vm_link.specs.Sound.{IsSound};

use outer_world::{List, MemorySink, Name, Put};
use std::alloc::{AllocError, Global};
use std::test::Fail;
use vm_link::{LinkFault, Linked, link};
use vm_tree::{Command, File, Function, Line, Operation, Program, Segment, print};

/// A command as it is written.
#[derive(Clone, Copy)]
pub(super) enum Written {
    Operate(Operation),
    Push(Segment, u16),
    Pop(Segment, u16),
    Label(&'static str),
    Goto(&'static str),
    IfGoto(&'static str),
    Call(&'static str, u16),
    Return,
}

/// A function: its name, its number of locals, its lines, and for the first of them their statements and whether they
/// commit.
pub(super) type FunctionRow<'a> = (&'a str, u16, &'a [Written], &'a [(u32, bool)]);

/// A file: its name, what stands before its first function, and its functions.
pub(super) type FileRow<'a> = (&'a str, &'a [Written], &'a [FunctionRow<'a>]);

fn command(alloc: Global, written: Written) -> Result<Command, AllocError> {
    match written {
        Written::Operate(operation) => Ok(Command::Operate(operation)),
        Written::Push(segment, index) => Ok(Command::Push(segment, index)),
        Written::Pop(segment, index) => Ok(Command::Pop(segment, index)),
        Written::Label(label) => Ok(Command::Label(Name::new(alloc, label)?)),
        Written::Goto(label) => Ok(Command::Goto(Name::new(alloc, label)?)),
        Written::IfGoto(label) => Ok(Command::IfGoto(Name::new(alloc, label)?)),
        Written::Call(name, arguments) => Ok(Command::Call(Name::new(alloc, name)?, arguments)),
        Written::Return => Ok(Command::Return),
    }
}

fn lines(
    alloc: Global,
    written: &[Written],
    marks: &[(u32, bool)],
) -> Result<List<Line>, AllocError> {
    let mut lines = List::new(alloc);
    for (place, command_there) in written.iter().enumerate() {
        let (statement, commit) = marks.get(place).copied().unwrap_or((0, false));
        lines.push(Line {
            command: command(alloc, *command_there)?,
            statement,
            commit,
        })?;
    }
    Ok(lines)
}

fn functions(alloc: Global, rows: &[FunctionRow<'_>]) -> Result<List<Function>, AllocError> {
    let mut functions = List::new(alloc);
    for (name, locals, written, marks) in rows {
        functions.push(Function {
            name: Name::new(alloc, name)?,
            locals: *locals,
            lines: lines(alloc, written, marks)?,
        })?;
    }
    Ok(functions)
}

/// The program of these files.
pub(super) fn program(alloc: Global, rows: &[FileRow<'_>]) -> Result<Program, AllocError> {
    let mut files = List::new(alloc);
    for (name, opening, functions_there) in rows {
        files.push(File {
            name: Name::new(alloc, name)?,
            opening: lines(alloc, opening, &[])?,
            functions: functions(alloc, functions_there)?,
        })?;
    }
    Ok(files)
}

/// The text that a program is printed as.
pub(super) fn shown(alloc: Global, program: &Program) -> Result<String, AllocError> {
    let mut sink = MemorySink::new(alloc, 1000, Vec::new(alloc))?;
    match print(program, &mut sink) {
        Put::Done => String::from_utf8_lossy(alloc, sink.bytes()),
        Put::Failed => String::from_str(alloc, "not printed"),
    }
}

/// The linked program of these files.
pub(super) fn linked(alloc: Global, rows: &[FileRow<'_>], bare: bool) -> Result<Linked, LinkFault>
    ensures { IfOk result IsSound }
{
    let program = program(alloc, rows)?;
    link(alloc, program, bare)
}

/// The linked program of one file with these functions, of the row of this number.
pub(super) fn sound(
    alloc: Global,
    number: usize,
    functions: &[FunctionRow<'_>],
) -> Result<Linked, Fail>
    ensures { IfOk result IsSound }
{
    match linked(alloc, &[("Sys", &[], functions)], false) {
        Ok(linked) => Ok(linked),
        Err(fault) => Err(Fail::new(format!(in alloc; "row {number}: {fault}")?)),
    }
}

/// Every operation, and every segment, a call, and jumps that are taken and that are not; what each makes goes to a
/// word of `that`. Sys.sum adds its two arguments over a local, and puts the sum over an argument.
pub(super) const EVERY_COMMAND: &[FunctionRow<'static>] = &[
    (
        "Sys.init",
        0,
        &[
            Written::Push(Segment::Constant, 2048),
            Written::Pop(Segment::Pointer, 1),
            Written::Push(Segment::Constant, 7),
            Written::Push(Segment::Constant, 5),
            Written::Operate(Operation::Add),
            Written::Pop(Segment::That, 0),
            Written::Push(Segment::Constant, 7),
            Written::Push(Segment::Constant, 5),
            Written::Operate(Operation::Sub),
            Written::Pop(Segment::That, 1),
            Written::Push(Segment::Constant, 7),
            Written::Operate(Operation::Neg),
            Written::Pop(Segment::That, 2),
            Written::Push(Segment::Constant, 5),
            Written::Push(Segment::Constant, 5),
            Written::Operate(Operation::Eq),
            Written::Pop(Segment::That, 3),
            Written::Push(Segment::Constant, 7),
            Written::Push(Segment::Constant, 5),
            Written::Operate(Operation::Gt),
            Written::Pop(Segment::That, 4),
            Written::Push(Segment::Constant, 7),
            Written::Push(Segment::Constant, 5),
            Written::Operate(Operation::Lt),
            Written::Pop(Segment::That, 5),
            Written::Push(Segment::Constant, 12),
            Written::Push(Segment::Constant, 10),
            Written::Operate(Operation::And),
            Written::Pop(Segment::That, 6),
            Written::Push(Segment::Constant, 12),
            Written::Push(Segment::Constant, 10),
            Written::Operate(Operation::Or),
            Written::Pop(Segment::That, 7),
            Written::Push(Segment::Constant, 12),
            Written::Operate(Operation::Not),
            Written::Pop(Segment::That, 8),
            Written::Push(Segment::Constant, 3),
            Written::Pop(Segment::Temp, 6),
            Written::Push(Segment::Temp, 6),
            Written::Pop(Segment::That, 9),
            Written::Push(Segment::Constant, 4),
            Written::Pop(Segment::Static, 2),
            Written::Push(Segment::Static, 2),
            Written::Pop(Segment::That, 10),
            Written::Push(Segment::Constant, 2060),
            Written::Pop(Segment::Pointer, 0),
            Written::Push(Segment::Pointer, 0),
            Written::Pop(Segment::That, 11),
            // the word 2061
            Written::Push(Segment::Constant, 9),
            Written::Pop(Segment::This, 1),
            Written::Push(Segment::This, 1),
            Written::Pop(Segment::That, 12),
            Written::Push(Segment::Constant, 20),
            Written::Push(Segment::Constant, 22),
            Written::Call("Sys.sum", 2),
            Written::Pop(Segment::That, 14),
            Written::Push(Segment::Constant, 0),
            Written::IfGoto("PASSED"),
            Written::Push(Segment::Constant, 1),
            Written::Pop(Segment::That, 15),
            Written::Label("PASSED"),
            Written::Push(Segment::Constant, 2),
            Written::IfGoto("TAKEN"),
            Written::Push(Segment::Constant, 1),
            Written::Pop(Segment::That, 16),
            Written::Label("TAKEN"),
            Written::Push(Segment::Constant, 20000),
            Written::Operate(Operation::ShiftLeft),
            Written::Pop(Segment::That, 17),
            Written::Push(Segment::Constant, 5),
            Written::Operate(Operation::Neg),
            Written::Operate(Operation::ShiftRight),
            Written::Pop(Segment::That, 18),
            Written::Label("END"),
            Written::Goto("END"),
        ],
        &[],
    ),
    (
        "Sys.sum",
        1,
        &[
            Written::Push(Segment::Argument, 0),
            Written::Push(Segment::Argument, 1),
            Written::Operate(Operation::Add),
            Written::Pop(Segment::Local, 0),
            Written::Push(Segment::Local, 0),
            Written::Pop(Segment::Argument, 1),
            Written::Push(Segment::Argument, 1),
            Written::Return,
        ],
        &[],
    ),
];

/// The words of `that` at their addresses.
pub(super) const EVERY_COMMAND_WORDS: &[(u16, u16)] = &[
    (2048, 12),
    (2049, 2),
    (2050, 65529),
    (2051, 65535),
    (2052, 65535),
    (2053, 0),
    (2054, 8),
    (2055, 14),
    (2056, 65523),
    (2057, 3),
    (2058, 4),
    (2059, 2060),
    (2060, 9),
    (2061, 9),
    (2062, 42),
    (2063, 1),
    (2064, 0),
    (2065, 40000),
    (2066, 65533),
];
