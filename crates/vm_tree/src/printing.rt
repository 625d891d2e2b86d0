//! The printed form of programs.
ghost use Rattle.std.specs.Prelude.{◌≡◌, ◌++◌, ◌∷◌, []};
ghost use Rattle.outer_world.specs.Held.{Buffers, HaveSameSink, pending, sink_of};
ghost use Rattle.outer_world.specs.Written.{Puts};
ghost use Rattle.vm_tree.specs.Printed.{command_text, file_line, file_text, files_text, function_text, functions_text, lines_text, named_text, operation_text, program_text, segment_text, with_number};

use crate::{Command, File, Function, Line, Operation, Program, Segment};
use itoa::Buffer;
use outer_world::{Pieces, Put, Sink};

fn operation_text(operation: Operation) -> &'static str
    ensures { result.now ≡ operation_text operation }
{
    match operation {
        Operation::Add => "add",
        Operation::Sub => "sub",
        Operation::Neg => "neg",
        Operation::Eq => "eq",
        Operation::Gt => "gt",
        Operation::Lt => "lt",
        Operation::And => "and",
        Operation::Or => "or",
        Operation::Not => "not",
        Operation::ShiftLeft => "shiftleft",
        Operation::ShiftRight => "shiftright",
    }
}

fn segment_text(segment: Segment) -> &'static str
    ensures { result.now ≡ segment_text segment }
{
    match segment {
        Segment::Argument => "argument",
        Segment::Local => "local",
        Segment::Static => "static",
        Segment::Constant => "constant",
        Segment::This => "this",
        Segment::That => "that",
        Segment::Pointer => "pointer",
        Segment::Temp => "temp",
    }
}

// Two words and a number, with the end of the line.
fn put_with_number<S: Sink>(first: &[u8], second: &str, number: u16, out: &mut Pieces<'_, S>) -> Put
    ensures same_sink { HaveSameSink out.old out.new }
    ensures passes { Buffers out.old out.new (with_number first.now second.now number) result }
{
    let mut digits = Buffer::new();
    out.put_all(&[
        first,
        second.as_bytes(),
        b" ",
        digits.format(number).as_bytes(),
        b"\n",
    ])
}

// A word after another, with the end of the line.
fn put_word<S: Sink>(first: &[u8], second: &str, out: &mut Pieces<'_, S>) -> Put
    ensures same_sink { HaveSameSink out.old out.new }
    ensures passes { Buffers out.old out.new (first.now ++ (second.now ++ 10 ∷ [])) result }
{
    out.put_all(&[first, second.as_bytes(), b"\n"])
}

fn put_command<S: Sink>(command: &Command, out: &mut Pieces<'_, S>) -> Put
    ensures same_sink { HaveSameSink out.old out.new }
    ensures passes { Buffers out.old out.new (command_text command.now) result }
{
    match command {
        Command::Operate(operation) => put_word(b"", operation_text(*operation), out),
        Command::Push(segment, index) => put_with_number(
            b"push ",
            segment_text(*segment),
            *index,
            out,
        ),
        Command::Pop(segment, index) => put_with_number(
            b"pop ",
            segment_text(*segment),
            *index,
            out,
        ),
        Command::Label(label) => put_word(b"label ", label.as_str(), out),
        Command::Goto(label) => put_word(b"goto ", label.as_str(), out),
        Command::IfGoto(label) => put_word(b"if-goto ", label.as_str(), out),
        Command::Call(name, arguments) => put_with_number(b"call ", name.as_str(), *arguments, out),
        Command::Return => out.put_all(&[b"return\n"]),
    }
}

fn put_line<S: Sink>(line: &Line, out: &mut Pieces<'_, S>) -> Put
    ensures same_sink { HaveSameSink out.old out.new }
    ensures passes { Buffers out.old out.new (command_text line.now.command) result }
{
    put_command(&line.command, out)
}

fn put_lines<S: Sink>(lines: &[Line], out: &mut Pieces<'_, S>) -> Put
    ensures same_sink { HaveSameSink out.old out.new }
    ensures passes { Buffers out.old out.new (lines_text lines.now) result }
{
    for line in lines {
        match put_line(line, out) {
            Put::Done => {}
            Put::Failed => return Put::Failed,
        }
    }
    Put::Done
}

fn put_function<S: Sink>(function: &Function, out: &mut Pieces<'_, S>) -> Put
    ensures same_sink { HaveSameSink out.old out.new }
    ensures passes { Buffers out.old out.new (function_text function.now) result }
{
    match put_with_number(b"function ", function.name.as_str(), function.locals, out) {
        Put::Done => put_lines(function.lines.as_slice(), out),
        Put::Failed => Put::Failed,
    }
}

fn put_functions<S: Sink>(functions: &[Function], out: &mut Pieces<'_, S>) -> Put
    ensures same_sink { HaveSameSink out.old out.new }
    ensures passes { Buffers out.old out.new (functions_text functions.now) result }
{
    for function in functions {
        match put_function(function, out) {
            Put::Done => {}
            Put::Failed => return Put::Failed,
        }
    }
    Put::Done
}

fn put_file<S: Sink>(file: &File, out: &mut Pieces<'_, S>) -> Put
    ensures same_sink { HaveSameSink out.old out.new }
    ensures passes { Buffers out.old out.new (file_text file.now) result }
{
    match put_lines(file.opening.as_slice(), out) {
        Put::Done => put_functions(file.functions.as_slice(), out),
        Put::Failed => Put::Failed,
    }
}

fn put_files<S: Sink>(files: &[File], out: &mut Pieces<'_, S>) -> Put
    ensures same_sink { HaveSameSink out.old out.new }
    ensures passes { Buffers out.old out.new (program_text files.now) result }
{
    for file in files {
        match put_file(file, out) {
            Put::Done => {}
            Put::Failed => return Put::Failed,
        }
    }
    Put::Done
}

// The same with an empty buffer before, and after.
fn put_program<S: Sink>(program: &Program, out: &mut Pieces<'_, S>) -> Put
    requires { pending out.old ≡ [] }
    ensures same_sink { HaveSameSink out.old out.new }
    ensures put { Puts (S.state (sink_of out.old)) (S.state (sink_of out.new))
        (program_text program.now) result }
{
    match put_files(program.as_slice(), out) {
        Put::Done => out.finish(),
        Put::Failed => Put::Failed,
    }
}

/// Prints a program: one command a line, its words with one space between them.
pub fn print<S: Sink>(program: &Program, out: &mut S) -> Put
    ensures put { Puts (S.state out.old) (S.state out.new) (program_text program.now) result }
{
    let mut pieces = Pieces::new(out);
    put_program(program, &mut pieces)
}

// The line that names a file.
fn put_file_line<S: Sink>(name: &str, out: &mut Pieces<'_, S>) -> Put
    ensures same_sink { HaveSameSink out.old out.new }
    ensures passes { Buffers out.old out.new (file_line name.now) result }
{
    out.put_all(&[b"// file ", name.as_bytes(), b".vm\n"])
}

// A file after its line.
fn put_named<S: Sink>(file: &File, out: &mut Pieces<'_, S>) -> Put
    ensures same_sink { HaveSameSink out.old out.new }
    ensures passes { Buffers out.old out.new (named_text file.now) result }
{
    match put_file_line(file.name.as_str(), out) {
        Put::Done => put_file(file, out),
        Put::Failed => Put::Failed,
    }
}

fn put_all_named<S: Sink>(files: &[File], out: &mut Pieces<'_, S>) -> Put
    ensures same_sink { HaveSameSink out.old out.new }
    ensures passes { Buffers out.old out.new (files_text files.now) result }
{
    for file in files {
        match put_named(file, out) {
            Put::Done => {}
            Put::Failed => return Put::Failed,
        }
    }
    Put::Done
}

// The same with an empty buffer before, and after.
fn put_listing<S: Sink>(files: &[File], pieces: &mut Pieces<'_, S>) -> Put
    requires { pending pieces.old ≡ [] }
    ensures same_sink { HaveSameSink pieces.old pieces.new }
    ensures put { Puts (S.state (sink_of pieces.old)) (S.state (sink_of pieces.new))
        (files_text files.now) result }
{
    match put_all_named(files, pieces) {
        Put::Done => pieces.finish(),
        Put::Failed => Put::Failed,
    }
}

/// Prints files in this order, each after a line `// file NAME.vm`.
pub fn print_files<S: Sink>(files: &[File], out: &mut S) -> Put
    ensures put { Puts (S.state out.old) (S.state out.new) (files_text files.now) result }
{
    let mut pieces = Pieces::new(out);
    put_listing(files, &mut pieces)
}
