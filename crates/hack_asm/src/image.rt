//! The text of an image.

ghost use Rattle.std.specs.Prelude.{◌≡◌, []};
ghost use Rattle.outer_world.specs.Held.{Buffers, HaveSameSink, pending, sink_of};
ghost use Rattle.outer_world.specs.Written.{Puts};
ghost use Rattle.hack_asm.specs.Image.{word_line, image_text};

use outer_world::{Pieces, Put, Sink};
use word16::binary_digits;

// The line of a word.
fn put_word<S: Sink>(word: u16, out: &mut Pieces<'_, S>) -> Put
    ensures same_sink { HaveSameSink out.old out.new }
    ensures passes { Buffers out.old out.new (word_line word) result }
{
    match out.put(&binary_digits(word)) {
        Put::Done => out.put(b"\n"),
        Put::Failed => Put::Failed,
    }
}

/// Puts a line of sixteen binary digits for each word, the highest bit first.
pub fn put_hack<S: Sink>(words: &[u16], out: &mut Pieces<'_, S>) -> Put
    ensures same_sink { HaveSameSink out.old out.new }
    ensures passes { Buffers out.old out.new (image_text words.now) result }
{
    for word in words {
        match put_word(*word, out) {
            Put::Done => {}
            Put::Failed => return Put::Failed,
        }
    }
    Put::Done
}

// The same from an empty buffer, which is empty again after it.
fn put_all_hack<S: Sink>(words: &[u16], out: &mut Pieces<'_, S>) -> Put
    requires { pending out.old ≡ [] }
    ensures same_sink { HaveSameSink out.old out.new }
    ensures put { Puts (S.state (sink_of out.old)) (S.state (sink_of out.new))
        (image_text words.now) result }
{
    match put_hack(words, out) {
        Put::Done => out.finish(),
        Put::Failed => Put::Failed,
    }
}

/// Writes the text of an image: a line of sixteen binary digits for each word, the highest bit first.
pub fn write_hack<S: Sink>(words: &[u16], out: &mut S) -> Put
    ensures put { Puts (S.state out.old) (S.state out.new) (image_text words.now) result }
{
    let mut pieces = Pieces::new(out);
    put_all_hack(words, &mut pieces)
}
