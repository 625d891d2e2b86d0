//! The lines of words and their addresses.
ghost use Rattle.std.specs.Prelude.{◌≡◌, ◌+◌, ◌-◌, ◌<◌, ◌≤◌, ◌++◌, ◌∷◌, [], ℕ, Bool};
ghost use Rattle.outer_world.specs.Held.{Buffers, HaveSameSink, pending, sink_of};
ghost use Rattle.outer_world.specs.Texts.{word_line};
ghost use Rattle.outer_world.specs.Written.{CountsPut, Puts};
ghost use Rattle.machine_io.specs.Words.{IsCallable, Gives, shown_line, words_text};

use itoa::Buffer;
use outer_world::{Pieces, Put, Sink};

// The line `address word` with the word's signed reading.
fn put_line<S: Sink>(address: u16, word: u16, out: &mut Pieces<'_, S>) -> Put
    ensures same_sink { HaveSameSink out.old out.new }
    ensures passes { Buffers out.old out.new (word_line address word) result }
{
    let mut first = Buffer::new();
    let mut second = Buffer::new();
    let address = first.format(address).as_bytes();
    if word < 0x8000 {
        let value = second.format(word).as_bytes();
        return out.put_all(&[address, b" ", value, b"\n"]);
    }
    let value = second.format(0x1_0000 - word as u32).as_bytes();
    out.put_all(&[address, b" -", value, b"\n"])
}

// The same, but nothing for a word 0 where zeros are left out.
fn put_shown_line<S: Sink>(address: u16, word: u16, zeros: bool, out: &mut Pieces<'_, S>) -> Put
    ensures same_sink { HaveSameSink out.old out.new }
    ensures passes { Buffers out.old out.new (shown_line zeros address word) result }
{
    if zeros || word != 0 {
        put_line(address, word, out)
    } else {
        Put::Done
    }
}

/// Puts the lines `address word` of the addresses `from` to `to`, both included, with the words' signed
/// readings. Where `zeros` is false, words that are 0 have no line.
pub fn put_words<W: Fn(u16) -> u16, S: Sink>(
    word: &W,
    from: u16,
    to: u16,
    zeros: bool,
    out: &mut Pieces<'_, S>,
) -> Put
    requires { IsCallable (W.pre word.now) from to }
    ensures same_sink { HaveSameSink out.old out.new }
    ensures passes { (words : ℕ → ℕ) → Gives (W.post word.now) from to words
        → Buffers out.old out.new (words_text words zeros from to) result }
    ensures counts { CountsPut (S.state (sink_of out.old)).faults
        (S.state (sink_of out.new)).faults result }
{
    let end = to as u32 + 1;
    for address in from as u32..end {
        let address = address as u16;
        match put_shown_line(address, word(address), zeros, out) {
            Put::Done => {}
            Put::Failed => return Put::Failed,
        }
    }
    Put::Done
}

// The same from an empty buffer, which is empty again after it.
fn put_all_words<W: Fn(u16) -> u16, S: Sink>(
    word: &W,
    from: u16,
    to: u16,
    zeros: bool,
    out: &mut Pieces<'_, S>,
) -> Put
    requires callable { IsCallable (W.pre word.now) from to }
    requires empty { pending out.old ≡ [] }
    ensures same_sink { HaveSameSink out.old out.new }
    ensures put { (words : ℕ → ℕ) → Gives (W.post word.now) from to words
        → Puts (S.state (sink_of out.old)) (S.state (sink_of out.new))
        (words_text words zeros from to) result }
    ensures counts { CountsPut (S.state (sink_of out.old)).faults
        (S.state (sink_of out.new)).faults result }
{
    match put_words(word, from, to, zeros, out) {
        Put::Done => out.finish(),
        Put::Failed => Put::Failed,
    }
}

/// Puts the lines `address word` of the addresses `from` to `to`, both included, with the words' signed
/// readings. Where `zeros` is false, words that are 0 have no line.
pub fn show_words<W: Fn(u16) -> u16, S: Sink>(
    word: W,
    from: u16,
    to: u16,
    zeros: bool,
    out: &mut S,
) -> Put
    requires { IsCallable (W.pre word) from to }
    ensures put { (words : ℕ → ℕ) → Gives (W.post word) from to words
        → Puts (S.state out.old) (S.state out.new) (words_text words zeros from to) result }
    ensures counts { CountsPut (S.state out.old).faults (S.state out.new).faults result }
{
    let mut pieces = Pieces::new(out);
    put_all_words(&word, from, to, zeros, &mut pieces)
}
