//! The report of a run.
ghost use Rattle.std.specs.Prelude.{◌≡◌, ◌+◌, ◌-◌, ◌<◌, ◌≤◌, ◌++◌, ◌∷◌, [], ℕ, decimal, codes};
ghost use Rattle.word16.specs.Memory.{heap, keyboard};
ghost use Rattle.outer_world.specs.Held.{Buffers, HaveSameSink, pending, sink_of};
ghost use Rattle.outer_world.specs.Written.{CountsPut, Puts};
ghost use Rattle.machine_io.specs.Words.{IsCallable, Gives};
ghost use Rattle.machine_io.specs.Report.{level_name, end_text, said_line, counts_text, head_text, shown_text, report_text};

use crate::driving::End;
use crate::machine::Stray;
use crate::screen::put_screen;
use crate::words::put_words;
use itoa::Buffer;
use outer_world::{Pieces, Put, Sink};
use word16::{HEAP, SCREEN};

/// The level at which a program is run: by its meaning, on the stack machine, on the instruction machine, or
/// on the computer built of gates.
#[derive(Clone, Copy)]
pub enum LevelName {
    Jack,
    Vm,
    Hack,
    Gates,
}

/// What of the words is shown after a report: nothing, the words of the heap that aren't 0, or the screen.
#[derive(Clone, Copy, PartialEq, Eq)]
pub enum Show {
    Nothing,
    Heap,
    Screen,
}

/// What each report begins with: the level, and the numbers of moves and of steps. Then come the control
/// point by the name of its subroutine and the number of its statement, and the end.
#[derive(Clone, Copy)]
pub struct Head<'a> {
    pub level: LevelName,
    pub moves: u64,
    pub steps: u64,
    pub subroutine: &'a str,
    pub statement: u32,
    pub end: End,
}

impl LevelName {
    pub fn name(self) -> &'static str
        ensures { result.now ≡ level_name self }
    {
        match self {
            LevelName::Jack => "jack",
            LevelName::Vm => "vm",
            LevelName::Hack => "hack",
            LevelName::Gates => "gates",
        }
    }
}

// A line of a word, a space and what is said of it.
fn put_said<S: Sink>(word: &[u8], text: &[u8], out: &mut Pieces<'_, S>) -> Put
    ensures same_sink { HaveSameSink out.old out.new }
    ensures passes { Buffers out.old out.new (said_line word.now text.now) result }
{
    out.put_all(&[word, b" ", text, b"\n"])
}

fn put_number<S: Sink>(word: &[u8], n: u64, out: &mut Pieces<'_, S>) -> Put
    ensures same_sink { HaveSameSink out.old out.new }
    ensures passes { Buffers out.old out.new (said_line word.now (decimal n)) result }
{
    let mut buffer = Buffer::new();
    put_said(word, buffer.format(n).as_bytes(), out)
}

fn put_level<S: Sink>(level: LevelName, out: &mut Pieces<'_, S>) -> Put
    ensures same_sink { HaveSameSink out.old out.new }
    ensures passes { Buffers out.old out.new (said_line (codes "level") (level_name level)) result }
{
    put_said(b"level", level.name().as_bytes(), out)
}

// The lines of the level and the counts.
fn put_counts<S: Sink>(level: LevelName, moves: u64, steps: u64, out: &mut Pieces<'_, S>) -> Put
    ensures same_sink { HaveSameSink out.old out.new }
    ensures passes { Buffers out.old out.new (counts_text level moves steps) result }
{
    match put_level(level, out) {
        Put::Done => {}
        Put::Failed => return Put::Failed,
    }
    match put_number(b"moves", moves, out) {
        Put::Done => {}
        Put::Failed => return Put::Failed,
    }
    put_number(b"steps", steps, out)
}

// The line of the control point.
fn put_point<S: Sink>(subroutine: &str, statement: u32, out: &mut Pieces<'_, S>) -> Put
    ensures same_sink { HaveSameSink out.old out.new }
    ensures passes { Buffers out.old out.new
        (said_line (codes "point") (subroutine.now ++ 32 ∷ decimal statement)) result }
{
    let mut buffer = Buffer::new();
    let statement = buffer.format(statement).as_bytes();
    out.put_all(&[b"point ", subroutine.as_bytes(), b" ", statement, b"\n"])
}

// The line of the end.
fn put_end<S: Sink>(end: End, out: &mut Pieces<'_, S>) -> Put
    ensures same_sink { HaveSameSink out.old out.new }
    ensures passes { Buffers out.old out.new (said_line (codes "end") (end_text end)) result }
{
    match end {
        End::Bound => put_said(b"end", b"bound", out),
        End::Done => put_said(b"end", b"done", out),
        End::Stray(Stray::Address(a)) => put_number(b"end stray", a as u64, out),
        End::Stray(Stray::Values) => put_said(b"end", b"stray values", out),
        End::Stray(Stray::Argument) => put_said(b"end", b"stray argument", out),
        End::Stray(Stray::Local) => put_said(b"end", b"stray local", out),
        End::Stray(Stray::Code) => put_said(b"end", b"stray code", out),
        End::Full(w) => put_number(b"end full", w as u64, out),
    }
}

/// Puts the five lines that each report begins with.
pub fn put_head<S: Sink>(head: &Head<'_>, out: &mut Pieces<'_, S>) -> Put
    ensures same_sink { HaveSameSink out.old out.new }
    ensures passes { Buffers out.old out.new (head_text head.now.level head.now.moves head.now.steps
        head.now.subroutine.now head.now.statement head.now.end) result }
{
    match put_counts(head.level, head.moves, head.steps, out) {
        Put::Done => {}
        Put::Failed => return Put::Failed,
    }
    match put_point(head.subroutine, head.statement, out) {
        Put::Done => {}
        Put::Failed => return Put::Failed,
    }
    put_end(head.end, out)
}

/// Puts what is shown of the words of heap and screen.
pub fn put_shown<W: Fn(u16) -> u16, S: Sink>(show: Show, word: &W, out: &mut Pieces<'_, S>) -> Put
    requires { IsCallable (W.pre word.now) heap (keyboard - 1) }
    ensures same_sink { HaveSameSink out.old out.new }
    ensures passes { (words : ℕ → ℕ) → Gives (W.post word.now) heap (keyboard - 1) words
        → Buffers out.old out.new (shown_text show words) result }
    ensures counts { CountsPut (S.state (sink_of out.old)).faults
        (S.state (sink_of out.new)).faults result }
{
    match show {
        Show::Nothing => Put::Done,
        Show::Heap => put_words(word, HEAP, SCREEN - 1, false, out),
        Show::Screen => put_screen(word, out),
    }
}

// Puts a report.
fn put_report<W: Fn(u16) -> u16, S: Sink>(
    head: &Head<'_>,
    show: Show,
    word: &W,
    out: &mut Pieces<'_, S>,
) -> Put
    requires { IsCallable (W.pre word.now) heap (keyboard - 1) }
    ensures same_sink { HaveSameSink out.old out.new }
    ensures passes { (words : ℕ → ℕ) → Gives (W.post word.now) heap (keyboard - 1) words
        → Buffers out.old out.new (report_text head.now.level head.now.moves head.now.steps
        head.now.subroutine.now head.now.statement head.now.end show words) result }
    ensures counts { CountsPut (S.state (sink_of out.old)).faults
        (S.state (sink_of out.new)).faults result }
{
    match put_head(head, out) {
        Put::Done => put_shown(show, word, out),
        Put::Failed => Put::Failed,
    }
}

// The same from an empty buffer, which is empty again after it.
fn put_all<W: Fn(u16) -> u16, S: Sink>(
    head: &Head<'_>,
    show: Show,
    word: &W,
    out: &mut Pieces<'_, S>,
) -> Put
    requires callable { IsCallable (W.pre word.now) heap (keyboard - 1) }
    requires empty { pending out.old ≡ [] }
    ensures same_sink { HaveSameSink out.old out.new }
    ensures put { (words : ℕ → ℕ) → Gives (W.post word.now) heap (keyboard - 1) words
        → Puts (S.state (sink_of out.old)) (S.state (sink_of out.new))
        (report_text head.now.level head.now.moves head.now.steps head.now.subroutine.now
        head.now.statement head.now.end show words) result }
    ensures counts { CountsPut (S.state (sink_of out.old)).faults
        (S.state (sink_of out.new)).faults result }
{
    match put_report(head, show, word, out) {
        Put::Done => out.finish(),
        Put::Failed => Put::Failed,
    }
}

/// Puts the report of a run: its five lines, and what is shown of the words of heap and screen.
pub fn show_report<W: Fn(u16) -> u16, S: Sink>(
    head: &Head<'_>,
    show: Show,
    word: W,
    out: &mut S,
) -> Put
    requires { IsCallable (W.pre word) heap (keyboard - 1) }
    ensures put { (words : ℕ → ℕ) → Gives (W.post word) heap (keyboard - 1) words
        → Puts (S.state out.old) (S.state out.new) (report_text head.now.level head.now.moves
        head.now.steps head.now.subroutine.now head.now.statement head.now.end show words) result }
    ensures counts { CountsPut (S.state out.old).faults (S.state out.new).faults result }
{
    let mut pieces = Pieces::new(out);
    put_all(head, show, &word, &mut pieces)
}
