//! The diagnostic of a fault, and its message.
ghost use Rattle.std.specs.Prelude.{◌≡◌, ◌++◌, ◌∷◌, [], length};
ghost use Rattle.outer_world.specs.Held.{Buffers, HaveSameSink, pending, sink_of};
ghost use Rattle.outer_world.specs.Inner.Parts.{front_of, rest_of};
ghost use Rattle.outer_world.specs.Refusals.{detail_text, message, message_line};
ghost use Rattle.outer_world.specs.Written.{Puts};

use crate::{Pieces, Put, Sink};
use itoa::Buffer;
use std::marker::Model;

/// What is reported of a fault beside its word.
#[derive(Drop)]
pub enum Detail {
    Nothing,
    Number(u64),
    Name(Vec<u8>),
}

/// The diagnostic of a fault: the line and column of its place, both 0 where it has no place, its
/// word, and its detail. The path of the file is not part of it.
#[derive(Drop)]
pub struct Diagnostic {
    line: u32,
    column: u32,
    word: &'static str,
    detail: Detail,
}

impl Model for Diagnostic {
    ghost use Rattle.outer_world.specs.Refusals.{Message, detail_text, message};

    ghost Value = { Message };

    ghost view = { λ t. message t.line t.column t.word.now (detail_text t.detail) };
}

impl Diagnostic {
    /// The diagnostic of a fault at a place.
    pub fn at(line: u32, column: u32, word: &'static str, detail: Detail) -> Diagnostic
        ensures { result ≡ message line column word.now (detail_text detail) }
    {
        Diagnostic {
            line,
            column,
            word,
            detail,
        }
    }

    /// The diagnostic of a fault that has no place.
    pub fn nowhere(word: &'static str, detail: Detail) -> Diagnostic
        ensures { result ≡ message 0 0 word.now (detail_text detail) }
    {
        Diagnostic::at(0, 0, word, detail)
    }

    /// Puts the line that reports it of the file at a path.
    pub fn put<S: Sink>(&self, path: &str, sink: &mut S) -> Put
        ensures put { Puts (S.state sink.old) (S.state sink.new)
            (message_line path.now self.now) result }
    {
        let mut pieces = Pieces::new(sink);
        put_whole(self, path, &mut pieces)
    }
}

// Puts the line through a buffer that is empty before.
fn put_whole<S: Sink>(told: &Diagnostic, path: &str, pieces: &mut Pieces<'_, S>) -> Put
    requires empty { pending pieces.old ≡ [] }
    ensures same_sink { HaveSameSink pieces.old pieces.new }
    ensures put { Puts (S.state (sink_of pieces.old)) (S.state (sink_of pieces.new))
        (message_line path.now told.now) result }
{
    match put_line(told, path, pieces) {
        Put::Done => pieces.finish(),
        Put::Failed => Put::Failed,
    }
}

// Hands the line to a buffer.
fn put_line<S: Sink>(told: &Diagnostic, path: &str, pieces: &mut Pieces<'_, S>) -> Put
    ensures same_sink { HaveSameSink pieces.old pieces.new }
    ensures passes { Buffers pieces.old pieces.new (message_line path.now told.now) result }
{
    match put_front(told, path, pieces) {
        Put::Done => put_detail(&told.detail, pieces),
        Put::Failed => Put::Failed,
    }
}

// Hands the front of the line to a buffer, up to the word.
fn put_front<S: Sink>(told: &Diagnostic, path: &str, pieces: &mut Pieces<'_, S>) -> Put
    ensures same_sink { HaveSameSink pieces.old pieces.new }
    ensures passes { Buffers pieces.old pieces.new (front_of path.now told.now) result }
{
    let mut first = Buffer::new();
    let mut second = Buffer::new();
    put_place(
        path,
        first.format(told.line),
        second.format(told.column),
        told.word,
        pieces,
    )
}

fn put_place<S: Sink>(
    path: &str,
    line: &str,
    column: &str,
    word: &str,
    pieces: &mut Pieces<'_, S>,
) -> Put
    ensures same_sink { HaveSameSink pieces.old pieces.new }
    ensures passes { Buffers pieces.old pieces.new
        (path.now ++ 58 ∷ (line.now ++ 58 ∷ (column.now ++ 58 ∷ 32 ∷ word.now))) result }
{
    pieces.put_all(&[
        path.as_bytes(),
        b":",
        line.as_bytes(),
        b":",
        column.as_bytes(),
        b": ",
        word.as_bytes(),
    ])
}

// Hands the rest of the line to a buffer.
fn put_detail<S: Sink>(detail: &Detail, pieces: &mut Pieces<'_, S>) -> Put
    ensures same_sink { HaveSameSink pieces.old pieces.new }
    ensures passes { Buffers pieces.old pieces.new (rest_of (detail_text detail.now)) result }
{
    match detail {
        Detail::Nothing => pieces.put(b"\n"),
        Detail::Number(value) => {
            let mut buffer = Buffer::new();
            let value = buffer.format(*value).as_bytes();
            pieces.put_all(&[b" ", value, b"\n"])
        }
        Detail::Name(name) => {
            if name.is_empty() {
                return pieces.put(b"\n");
            }
            pieces.put_all(&[b" ", name.as_slice(), b"\n"])
        }
    }
}
