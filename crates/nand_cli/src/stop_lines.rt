//! The lines that say where the computer of gates stopped.
ghost use Rattle.std.specs.Prelude.{◌≡◌, [], codes, decimal, ◌++◌, ◌∷◌};
ghost use Rattle.machine_io.specs.Report.{said_line};
ghost use Rattle.outer_world.specs.Held.{Buffers, HaveSameSink, pending, sink_of};
ghost use Rattle.outer_world.specs.Written.{Puts};
ghost use Rattle.nand_cli.specs.Commands.Debug.{made_text, none_text, stop_text};

use itoa::Buffer;
use outer_world::{Pieces, Put, Sink};

// The line of the moves or of the steps.
fn put_count<S: Sink>(word: &[u8], n: u64, out: &mut Pieces<'_, S>) -> Put
    ensures same_sink { HaveSameSink out.old out.new }
    ensures passes { Buffers out.old out.new (said_line word.now (decimal n)) result }
{
    let mut buffer = Buffer::new();
    out.put_all(&[word, b" ", buffer.format(n).as_bytes(), b"\n"])
}

// The lines of the moves and of the steps.
fn put_made<S: Sink>(moves: u64, steps: u64, out: &mut Pieces<'_, S>) -> Put
    ensures same_sink { HaveSameSink out.old out.new }
    ensures passes { Buffers out.old out.new (made_text moves steps) result }
{
    match put_count(b"moves", moves, out) {
        Put::Done => put_count(b"steps", steps, out),
        Put::Failed => Put::Failed,
    }
}

// The line of a statement.
fn put_break<S: Sink>(sub: &str, number: u32, out: &mut Pieces<'_, S>) -> Put
    ensures same_sink { HaveSameSink out.old out.new }
    ensures passes { Buffers out.old out.new
        (said_line (codes "break") (sub.now ++ 32 ∷ decimal number)) result }
{
    let mut buffer = Buffer::new();
    let number = buffer.format(number).as_bytes();
    out.put_all(&[b"break ", sub.as_bytes(), b" ", number, b"\n"])
}

// The three lines, where the computer stopped at a statement.
fn put_stop<S: Sink>(sub: &str, number: u32, moves: u64, steps: u64, out: &mut Pieces<'_, S>) -> Put
    ensures same_sink { HaveSameSink out.old out.new }
    ensures passes { Buffers out.old out.new (stop_text sub.now number moves steps) result }
{
    match put_break(sub, number, out) {
        Put::Done => put_made(moves, steps, out),
        Put::Failed => Put::Failed,
    }
}

// The three lines, where it did not stop.
fn put_none<S: Sink>(moves: u64, steps: u64, out: &mut Pieces<'_, S>) -> Put
    ensures same_sink { HaveSameSink out.old out.new }
    ensures passes { Buffers out.old out.new (none_text moves steps) result }
{
    match out.put(b"break none\n") {
        Put::Done => put_made(moves, steps, out),
        Put::Failed => Put::Failed,
    }
}

// The same from an empty buffer, which is empty again after it.
fn put_stop_lines<S: Sink>(
    sub: &str,
    number: u32,
    moves: u64,
    steps: u64,
    out: &mut Pieces<'_, S>,
) -> Put
    requires { pending out.old ≡ [] }
    ensures same_sink { HaveSameSink out.old out.new }
    ensures put { Puts (S.state (sink_of out.old)) (S.state (sink_of out.new))
        (stop_text sub.now number moves steps) result }
{
    match put_stop(sub, number, moves, steps, out) {
        Put::Done => out.finish(),
        Put::Failed => Put::Failed,
    }
}

fn put_none_lines<S: Sink>(moves: u64, steps: u64, out: &mut Pieces<'_, S>) -> Put
    requires { pending out.old ≡ [] }
    ensures same_sink { HaveSameSink out.old out.new }
    ensures put { Puts (S.state (sink_of out.old)) (S.state (sink_of out.new))
        (none_text moves steps) result }
{
    match put_none(moves, steps, out) {
        Put::Done => out.finish(),
        Put::Failed => Put::Failed,
    }
}

/// Puts three lines: the statement at which the computer stopped, its moves and its steps.
pub fn print_stop<S: Sink>(sub: &str, number: u32, moves: u64, steps: u64, out: &mut S) -> Put
    ensures put { Puts (S.state out.old) (S.state out.new)
        (stop_text sub.now number moves steps) result }
{
    let mut pieces = Pieces::new(out);
    put_stop_lines(sub, number, moves, steps, &mut pieces)
}

/// Puts three lines: that it stopped at none, its moves and its steps.
pub fn print_none<S: Sink>(moves: u64, steps: u64, out: &mut S) -> Put
    ensures put { Puts (S.state out.old) (S.state out.new) (none_text moves steps) result }
{
    let mut pieces = Pieces::new(out);
    put_none_lines(moves, steps, &mut pieces)
}
