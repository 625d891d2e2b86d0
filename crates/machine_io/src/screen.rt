//! The screen, as lines of characters.
ghost use Rattle.std.specs.Prelude.{◌≡◌, ◌+◌, ◌-◌, ◌*◌, ◌<◌, ◌≤◌, ◌++◌, ◌∷◌, [], ℕ};
ghost use Rattle.word16.specs.Memory.{keyboard, screen};
ghost use Rattle.outer_world.specs.Held.{Buffers, HaveSameSink, pending, sink_of};
ghost use Rattle.outer_world.specs.Written.{CountsPut, Puts};
ghost use Rattle.machine_io.specs.Words.{IsCallable, Gives};
ghost use Rattle.machine_io.specs.Screen.{shade, pixels_of, row_text, screen_text};

use outer_world::{Pieces, Put, Sink};
use word16::SCREEN;

const ROWS: u16 = 256;

const WORDS_OF_ROW: u16 = 32;

fn shade_of(word: u16, bit: usize) -> u8
    requires { bit < 16 }
    ensures { result ≡ shade word bit }
{
    if word >> bit & 1 == 1 { b'#' } else { b'.' }
}

// The pixels of a word, the lowest bit leftmost.
fn pixels(word: u16) -> [u8; 16]
    ensures { result ≡ pixels_of word }
{
    let mut pixels = [b'.'; 16];
    for bit in 0..16 {
        pixels[bit] = shade_of(word, bit);
    }
    pixels
}

// The line of a row.
fn put_row<W: Fn(u16) -> u16, S: Sink>(word: &W, row: u16, out: &mut Pieces<'_, S>) -> Put
    requires callable { IsCallable (W.pre word.now) screen (keyboard - 1) }
    requires row { row < 256 }
    ensures same_sink { HaveSameSink out.old out.new }
    ensures passes { (words : ℕ → ℕ) → Gives (W.post word.now) screen (keyboard - 1) words
        → Buffers out.old out.new (row_text words row) result }
    ensures counts { CountsPut (S.state (sink_of out.old)).faults
        (S.state (sink_of out.new)).faults result }
{
    let start = SCREEN + WORDS_OF_ROW * row;
    for k in 0..WORDS_OF_ROW {
        match out.put(&pixels(word(start + k))) {
            Put::Done => {}
            Put::Failed => return Put::Failed,
        }
    }
    out.put(b"\n")
}

/// Puts the screen as 256 lines of 512 characters, `#` for a pixel that is 1 and `.` for 0.
pub fn put_screen<W: Fn(u16) -> u16, S: Sink>(word: &W, out: &mut Pieces<'_, S>) -> Put
    requires { IsCallable (W.pre word.now) screen (keyboard - 1) }
    ensures same_sink { HaveSameSink out.old out.new }
    ensures passes { (words : ℕ → ℕ) → Gives (W.post word.now) screen (keyboard - 1) words
        → Buffers out.old out.new (screen_text words) result }
    ensures counts { CountsPut (S.state (sink_of out.old)).faults
        (S.state (sink_of out.new)).faults result }
{
    for row in 0..ROWS {
        match put_row(word, row, out) {
            Put::Done => {}
            Put::Failed => return Put::Failed,
        }
    }
    Put::Done
}

// The same from an empty buffer, which is empty again after it.
fn put_all_screen<W: Fn(u16) -> u16, S: Sink>(word: &W, out: &mut Pieces<'_, S>) -> Put
    requires callable { IsCallable (W.pre word.now) screen (keyboard - 1) }
    requires empty { pending out.old ≡ [] }
    ensures same_sink { HaveSameSink out.old out.new }
    ensures put { (words : ℕ → ℕ) → Gives (W.post word.now) screen (keyboard - 1) words
        → Puts (S.state (sink_of out.old)) (S.state (sink_of out.new)) (screen_text words) result }
    ensures counts { CountsPut (S.state (sink_of out.old)).faults
        (S.state (sink_of out.new)).faults result }
{
    match put_screen(word, out) {
        Put::Done => out.finish(),
        Put::Failed => Put::Failed,
    }
}

/// Puts the screen as 256 lines of 512 characters, `#` for a pixel that is 1 and `.` for 0.
pub fn show_screen<W: Fn(u16) -> u16, S: Sink>(word: W, out: &mut S) -> Put
    requires { IsCallable (W.pre word) screen (keyboard - 1) }
    ensures put { (words : ℕ → ℕ) → Gives (W.post word) screen (keyboard - 1) words
        → Puts (S.state out.old) (S.state out.new) (screen_text words) result }
    ensures counts { CountsPut (S.state out.old).faults (S.state out.new).faults result }
{
    let mut pieces = Pieces::new(out);
    put_all_screen(&word, &mut pieces)
}
