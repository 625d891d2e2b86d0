//! Puts a view.
ghost use Rattle.std.specs.Prelude.{◌≡◌, ◌++◌, [], codes};
ghost use Rattle.std.specs.List.{flat_map};
ghost use Rattle.outer_world.specs.Held.{Buffers, HaveSameSink, pending, sink_of};
ghost use Rattle.outer_world.specs.Written.{Puts};
ghost use Rattle.jack_debug.specs.Text.{caller_line, lost_line, variable_line, this_line, this_lines, variables_text, callers_text, view_text};

use crate::seen::{Caller, Variable, View};
use itoa::Buffer;
use outer_world::{Pieces, Put, Sink};

// The line of `this`.
fn put_this<S: Sink>(word: u16, out: &mut Pieces<'_, S>) -> Put
    ensures same_sink { HaveSameSink out.old out.new }
    ensures passes { Buffers out.old out.new (this_line word) result }
{
    let mut digits = Buffer::new();
    if word < 0x8000 {
        let value = digits.format(word).as_bytes();
        return out.put_all(&[b"this ", value, b"\n"]);
    }
    let value = digits.format(0x1_0000 - word as u32).as_bytes();
    out.put_all(&[b"this -", value, b"\n"])
}

// The same where there is one.
fn put_this_lines<S: Sink>(this: Option<u16>, out: &mut Pieces<'_, S>) -> Put
    ensures same_sink { HaveSameSink out.old out.new }
    ensures passes { Buffers out.old out.new (this_lines this) result }
{
    match this {
        Some(word) => put_this(word, out),
        None => Put::Done,
    }
}

// The line of a variable.
fn put_variable<S: Sink>(what: &[u8], variable: &Variable, out: &mut Pieces<'_, S>) -> Put
    ensures same_sink { HaveSameSink out.old out.new }
    ensures passes { Buffers out.old out.new (variable_line what.now variable.now) result }
{
    let mut digits = Buffer::new();
    let name = variable.name.as_bytes();
    let word = variable.word;
    if word < 0x8000 {
        let value = digits.format(word).as_bytes();
        return out.put_all(&[what, b" ", name, b" ", value, b"\n"]);
    }
    let value = digits.format(0x1_0000 - word as u32).as_bytes();
    out.put_all(&[what, b" ", name, b" -", value, b"\n"])
}

// The lines of variables.
fn put_variables<S: Sink>(what: &[u8], variables: &[Variable], out: &mut Pieces<'_, S>) -> Put
    ensures same_sink { HaveSameSink out.old out.new }
    ensures passes { Buffers out.old out.new
        (flat_map (variable_line what.now) variables.now) result }
{
    for variable in variables {
        match put_variable(what, variable, out) {
            Put::Done => {}
            Put::Failed => return Put::Failed,
        }
    }
    Put::Done
}

// The line of a caller.
fn put_caller<S: Sink>(caller: &Caller, out: &mut Pieces<'_, S>) -> Put
    ensures same_sink { HaveSameSink out.old out.new }
    ensures passes { Buffers out.old out.new (caller_line caller.now) result }
{
    let mut digits = Buffer::new();
    out.put_all(&[
        b"from ",
        caller.sub.as_bytes(),
        b" ",
        digits.format(caller.number).as_bytes(),
        b"\n",
    ])
}

// The lines of callers.
fn put_callers<S: Sink>(callers: &[Caller], out: &mut Pieces<'_, S>) -> Put
    ensures same_sink { HaveSameSink out.old out.new }
    ensures passes { Buffers out.old out.new (flat_map caller_line callers.now) result }
{
    for caller in callers {
        match put_caller(caller, out) {
            Put::Done => {}
            Put::Failed => return Put::Failed,
        }
    }
    Put::Done
}

// The last line, where the stack did not lead down to `start`.
fn put_lost<S: Sink>(lost: bool, out: &mut Pieces<'_, S>) -> Put
    ensures same_sink { HaveSameSink out.old out.new }
    ensures passes { Buffers out.old out.new (lost_line lost) result }
{
    if lost {
        out.put(b"from ?\n")
    } else {
        Put::Done
    }
}

// `this` and the variables.
fn put_named<S: Sink>(view: &View, out: &mut Pieces<'_, S>) -> Put
    ensures same_sink { HaveSameSink out.old out.new }
    ensures passes { Buffers out.old out.new (variables_text view.now) result }
{
    match put_this_lines(view.this, out) {
        Put::Done => {}
        Put::Failed => return Put::Failed,
    }
    match put_variables(b"argument", view.arguments.as_slice(), out) {
        Put::Done => {}
        Put::Failed => return Put::Failed,
    }
    match put_variables(b"local", view.locals.as_slice(), out) {
        Put::Done => put_variables(b"static", view.statics.as_slice(), out),
        Put::Failed => Put::Failed,
    }
}

// The callers and the last line.
fn put_called<S: Sink>(view: &View, out: &mut Pieces<'_, S>) -> Put
    ensures same_sink { HaveSameSink out.old out.new }
    ensures passes { Buffers out.old out.new (callers_text view.now) result }
{
    match put_callers(view.callers.as_slice(), out) {
        Put::Done => put_lost(view.lost, out),
        Put::Failed => Put::Failed,
    }
}

// All lines.
fn put_lines<S: Sink>(view: &View, out: &mut Pieces<'_, S>) -> Put
    ensures same_sink { HaveSameSink out.old out.new }
    ensures passes { Buffers out.old out.new (view_text view.now) result }
{
    match put_named(view, out) {
        Put::Done => put_called(view, out),
        Put::Failed => Put::Failed,
    }
}

// The same from an empty buffer, which is empty again after it.
fn put_view<S: Sink>(view: &View, out: &mut Pieces<'_, S>) -> Put
    requires { pending out.old ≡ [] }
    ensures same_sink { HaveSameSink out.old out.new }
    ensures put { Puts (S.state (sink_of out.old)) (S.state (sink_of out.new))
        (view_text view.now) result }
{
    match put_lines(view, out) {
        Put::Done => out.finish(),
        Put::Failed => Put::Failed,
    }
}

/// Puts a view: a line for `this`, for each variable and for each caller.
pub fn print_view<S: Sink>(view: &View, out: &mut S) -> Put
    ensures put { Puts (S.state out.old) (S.state out.new) (view_text view.now) result }
{
    let mut pieces = Pieces::new(out);
    put_view(view, &mut pieces)
}
