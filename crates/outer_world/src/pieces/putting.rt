//! What a buffer before a sink does.
ghost use Rattle.std.specs.Prelude.{◌≡◌, ◌≤◌, ◌+◌, ◌%◌, [], length, take};
ghost use Rattle.std.specs.List.{flat_map};
ghost use Rattle.outer_world.specs.Held.{Buffers, HaveSameSink, held_count, pending, sink_of};
ghost use Rattle.outer_world.specs.Written.{Puts};

use super::Pieces;
use crate::{Put, Sink};

const PIECE: usize = 4096;

impl<'a, S: Sink> Pieces<'a, S> {
    pub fn new(sink: &'a mut S) -> Pieces<'a, S>
        ensures same_sink { result.sink.ghost_name ≡ sink.entry.ghost_name }
        ensures sink { sink_of result ≡ sink.old }
        ensures empty { pending result ≡ [] }
    {
        Pieces {
            sink,
            buffer: [0; 4096],
            len: 0,
        }
    }

    // Puts the pending bytes with more that fit.
    fn fill(&mut self, part: &[u8]) -> Put
        requires { held_count self.old + length part.now ≤ 4096 }
        ensures same_sink { HaveSameSink self.old self.new }
        ensures passes { Buffers self.old self.new part.now result }
        ensures pieces { result ≡ Put.Done
            → held_count self.new ≡ (held_count self.old + length part.now) % 4096 }
    {
        let end = self.len + part.len();
        self.buffer[self.len..end].copy_from_slice(part);
        if end < PIECE {
            self.len = end;
            return Put::Done;
        }
        self.len = 0;
        self.sink.put(&self.buffer)
    }

    /// Puts a piece after what is pending. What does not fill the buffer is pending afterwards.
    pub fn put(&mut self, piece: &[u8]) -> Put
        ensures same_sink { HaveSameSink self.old self.new }
        ensures passes { Buffers self.old self.new piece.now result }
        ensures pieces { result ≡ Put.Done
            → held_count self.new ≡ (held_count self.old + length piece.now) % 4096 }
    {
        let mut from = 0;
        while from < piece.len() {
            let end = piece.len().min(from + (PIECE - self.len));
            match self.fill(&piece[from..end]) {
                Put::Done => from = end,
                Put::Failed => return Put::Failed,
            }
        }
        Put::Done
    }

    /// Puts these parts, one after another.
    pub fn put_all(&mut self, parts: &[&[u8]]) -> Put
        ensures same_sink { HaveSameSink self.old self.new }
        ensures passes { Buffers self.old self.new (flat_map (λ part. part.now) parts.now) result }
        ensures pieces { result ≡ Put.Done → held_count self.new
            ≡ (held_count self.old + length (flat_map (λ part. part.now) parts.now)) % 4096 }
    {
        for part in parts {
            match self.put(part) {
                Put::Done => {}
                Put::Failed => return Put::Failed,
            }
        }
        Put::Done
    }

    /// Puts what is pending.
    pub fn finish(&mut self) -> Put
        ensures same_sink { HaveSameSink self.old self.new }
        ensures put { Puts (S.state (sink_of self.old)) (S.state (sink_of self.new))
            (pending self.old) result }
        ensures empty { pending self.new ≡ [] }
    {
        if self.len == 0 {
            return Put::Done;
        }
        let len = self.len;
        self.len = 0;
        put_front(self.sink, &self.buffer, len)
    }
}

fn put_front<S: Sink>(sink: &mut S, buffer: &[u8], len: usize) -> Put
    requires { len ≤ length buffer.now }
    ensures put { Puts (S.state sink.old) (S.state sink.new) (take len buffer.now) result }
{
    sink.put(&buffer[..len])
}
