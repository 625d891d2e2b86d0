//! The drive, on a machine that counts; and the printed texts.
ghost use Rattle.std.specs.Prelude.{◌≡◌, ◌+◌, ◌*◌, ◌%◌, ◌<◌, ◌≤◌, ◌^◌, ℕ, sum_by, true, false, nat_eq, nat_lt, if◌then◌else◌, IfOk};
ghost use Rattle.std.proofs.Common.{rules};
ghost use Rattle.machine_io.specs.History.{moves_in, OnStop};
ghost use Rattle.machine_io.specs.Words.{words_text};
ghost use Rattle.outer_world.specs.Written.{Puts};

use crate::checks::{holds, is_number, is_put, is_written};
use machine_io::{
    End, Head, Keyboard, Level, LevelName, Moved, Show, Stop, Stray, Until, drive, drive_until,
    show_report, show_screen, show_words,
};
use outer_world::{MemorySink, Put, Sink};
use std::alloc::{AllocError, Global};
use std::process::Abort;
use std::test::Fail;

// Makes this many moves, and then is full. Key 0 leads it astray, key 9 to its end.
#[derive(Drop)]
struct Counter {
    room: u64,
    moves: u64,
    last_key: u16,
}

impl Level for Counter {
    ghost use Rattle.machine_io.specs.declared.machine.Moved.TheVariants.{Acted, Done, Full, Stray};
    ghost use Rattle.machine_io.specs.declared.machine.Stray.TheVariants.{Values};

    type Point = u16;

    ghost stands = { λ r turns. r.moves ≡ sum_by (λ t. moves_in t.answer) turns };

    ghost reading = { λ r. record {
      moves = r.moves;
      steps = r.moves;
      point = r.last_key;
      word = λ a. r.last_key;
    } };

    ghost reply = { λ r k. if nat_eq k 0 then Stray Values
        else (if nat_eq k 9 then Done else (if nat_lt r.moves r.room then Acted else Full 5)) };

    ghost sure = { true };

    ghost Program = { ℕ };

    ghost program = { λ r. r.room };

    fn step(&mut self, key: u16) -> Result<Moved, AllocError> {
        if key == 0 {
            return Ok(Moved::Stray(Stray::Values));
        }
        if key == 9 {
            return Ok(Moved::Done);
        }
        if self.moves >= self.room {
            return Ok(Moved::Full(5));
        }
        self.moves += 1;
        self.last_key = key;
        Ok(Moved::Acted)
    }

    fn moves(&self) -> u64 {
        self.moves
    }

    fn word_at(&self, _a: u16) -> u16 {
        self.last_key
    }

    fn steps(&self) -> u64 {
        self.moves
    }

    fn point(&self) -> u16 {
        self.last_key
    }
}

// The key is 4, 5, 6 .. 13 and 4 again.
struct Turning;

impl Keyboard for Turning {
    ghost code = { λ _ c. 4 + c % 10 };

    fn at(&self, c: u64) -> u16 {
        4 + (c % 10) as u16
    }
}

// The last key is this one, and the last move was a step.
struct LastKey(u16);

impl Until<Counter> for LastKey {
    ghost use Rattle.std.specs.Prelude.{◌&&◌};

    ghost test = { λ key steps reading. nat_eq reading.point key.0 && nat_lt steps reading.steps };

    fn holds(&self, steps: u64, level: &Counter) -> bool {
        level.point() == self.0 && steps < level.steps()
    }
}

// A level has made this many moves, and this is its last key.
fn stands_at(rt: &impl Abort, level: &Counter, moves: u64, key: u16)
    ensures { level.now.moves ≡ moves }
{
    assert_eq!(rt; level.moves(), moves);
    is_number(rt, "key", moves, u64::from(level.point()), u64::from(key));
}

fn new_counter(room: u64) -> Counter
    ensures { result.moves ≡ 0 }
{
    Counter {
        room,
        moves: 0,
        last_key: 0,
    }
}

// What a machine that can't move answers, it answers again.
fn asked_twice<L: Level>(level: &mut L, key: u16) -> Result<(Moved, Moved), AllocError>
    requires { (L.reading level.old).moves + 1 < 2 ^ 63 }
    ensures { IfOk result (λ answers. OnStop answers.0 (answers.1 ≡ answers.0)) }
{
    let first = level.step(key)?;
    let second = level.step(key)?;
    Ok((first, second))
}

#[test]
fn the_same_key_gets_the_same_answer(rt: HostRuntime) -> Result<(), Fail> {
    let mut level = new_counter(1);
    let gone = asked_twice(&mut level, 0)?;
    let strayed = Moved::Stray(Stray::Values);
    holds(&rt, "key 0", gone == (strayed, strayed));
    // The second call wants to know it.
    assert!(rt; level.moves() == 0);
    let full = asked_twice(&mut level, 3)?;
    holds(&rt, "key 3", full == (Moved::Acted, Moved::Full(5)));
    Ok(())
}

// The move that the test stops at is made, and none after it; at the next drive the test is asked before the first.
#[test]
fn drive_stops_where_the_test_holds(rt: HostRuntime) -> Result<(), Fail> {
    let mut level = new_counter(100);
    let first = drive_until(&mut level, &Turning, 5, &LastKey(6))?;
    stands_at(&rt, &level, 3, 6);
    let second = drive_until(&mut level, &Turning, 1, &LastKey(6))?;
    let third = drive_until(&mut level, &Turning, 1, &LastKey(8))?;
    stands_at(&rt, &level, 5, 8);
    let last = drive_until(&mut level, &Turning, 9, &LastKey(4))?;
    holds(&rt, "key 6", first == Stop::Found);
    holds(&rt, "key 6 again", second == Stop::Ended(End::Bound));
    holds(&rt, "key 8", third == Stop::Found);
    holds(&rt, "key 4", last == Stop::Ended(End::Done));
    Ok(())
}

#[test]
fn drive_goes_on_where_it_was(rt: HostRuntime) -> Result<(), Fail> {
    let mut level = new_counter(100);
    let first = drive(&mut level, &Turning, 3)?;
    stands_at(&rt, &level, 3, 6);
    let second = drive(&mut level, &Turning, 30)?;
    stands_at(&rt, &level, 5, 8);
    holds(&rt, "the bound", first == End::Bound);
    holds(&rt, "the end", second == End::Done);
    Ok(())
}

#[test]
fn drive_stops_at_a_full_machine(rt: HostRuntime) -> Result<(), Fail> {
    let mut level = new_counter(2);
    let end = drive(&mut level, &Turning, 3)?;
    holds(&rt, "full", end == End::Full(5));
    is_number(&rt, "moves", 0, level.moves(), 2);
    Ok(())
}

fn word_of(a: u16) -> u16 {
    match a {
        16 => 3,
        18 => 0xffff,
        19 => 0x8000,
        16384 => 1,
        16385 => 0x8000,
        24575 => 2,
        _ => 0,
    }
}

// Words from an address to another, with or without those that are 0, and their lines.
const WORDS: &[(u16, u16, bool, &str)] = &[
    (16, 19, true, "16 3\n17 0\n18 -1\n19 -32768\n"),
    (16, 18, false, "16 3\n18 -1\n"),
    // from later to earlier there are no moves
    (18, 16, true, ""),
];

fn sink_of(alloc: Global, room: u32) -> Result<MemorySink, AllocError> {
    MemorySink::new(alloc, room, Vec::new(alloc))
}

#[test]
fn words_have_their_lines(rt: HostRuntime) -> Result<(), Fail> {
    for (from, to, with_zeros, text) in WORDS {
        let mut sink = sink_of(rt.alloc(), 1000)?;
        let put = show_words(word_of, *from, *to, *with_zeros, &mut sink);
        is_put(&rt, text, put, Put::Done);
        is_written(&rt, text, sink.bytes(), text.as_bytes());
    }
    Ok(())
}

fn pixel_at(place: usize) -> u8 {
    match place {
        0 | 31 | 131_312 => b'#',
        _ if place % 513 == 512 => b'\n',
        _ => b'.',
    }
}

fn has_its_pixels(rt: &impl Abort, text: &[u8]) {
    for (place, byte) in text.iter().enumerate() {
        let expected = u64::from(pixel_at(place));
        is_number(rt, "the screen", place as u64, u64::from(*byte), expected);
    }
}

#[test]
fn the_screen_has_its_pixels(rt: HostRuntime) -> Result<(), Fail> {
    // a sink that fails ends the screen
    for (room, expected, length) in [(5000, Put::Failed, 5000), (200_000, Put::Done, 256 * 513)] {
        let mut sink = sink_of(rt.alloc(), room)?;
        let put = show_screen(word_of, &mut sink);
        is_put(&rt, "the screen", put, expected);
        is_number(&rt, "length", 0, sink.bytes().len() as u64, length);
        has_its_pixels(&rt, sink.bytes());
    }
    Ok(())
}

// What is shown, the end that is reported, whether a sink of 1,000 bytes takes it all, and what it has then, or has at
// first.
const REPORTS: &[(Show, End, Put, &str)] = &[
    (
        Show::Heap,
        End::Stray(Stray::Address(40000)),
        Put::Failed,
        "level vm\nmoves 120\nsteps 7\npoint Main.main 2\nend stray 40000\n8191 1\n8192 1\n",
    ),
    (
        Show::Nothing,
        End::Full(2000),
        Put::Done,
        "level vm\nmoves 120\nsteps 7\npoint Main.main 2\nend full 2000\n",
    ),
];

fn report_is_put(
    rt: &impl Abort,
    alloc: Global,
    (show, end, expected, text): (Show, End, Put, &str),
) -> Result<(), Fail> {
    let head = Head {
        level: LevelName::Vm,
        moves: 120,
        steps: 7,
        subroutine: "Main.main",
        statement: 2,
        end,
    };
    let word = |a| match show {
        Show::Heap => a / 8191 % 2,
        _ => word_of(a),
    };
    let mut sink = sink_of(alloc, 1000)?;
    let put = show_report(&head, show, word, &mut sink);
    is_put(rt, text, put, expected);
    holds(rt, text, sink.bytes().starts_with(text.as_bytes()));
    let length = if expected == Put::Done {
        text.len()
    } else {
        1000
    };
    is_number(rt, text, 0, sink.bytes().len() as u64, length as u64);
    Ok(())
}

#[test]
fn a_report_has_its_lines(rt: HostRuntime) -> Result<(), Fail> {
    for row in REPORTS {
        report_is_put(&rt, rt.alloc(), *row)?;
    }
    Ok(())
}

// Any level can be shown.
fn show_level<L: Level, S: Sink>(level: &L, out: &mut S) -> Put
    ensures { Puts (S.state out.old) (S.state out.new)
        (words_text (L.reading level.now).word false 2048 16383) result }
{
    show_words(|a| level.word_at(a), 2048, 16383, false, out)
}

#[test]
fn a_level_at_its_start_shows_nothing(rt: HostRuntime) -> Result<(), Fail> {
    let level = new_counter(100);
    let mut sink = sink_of(rt.alloc(), 1000)?;
    let put = show_level(&level, &mut sink);
    is_put(&rt, "at the start", put, Put::Done);
    is_written(&rt, "at the start", sink.bytes(), b"");
    Ok(())
}

// After the third move each word is 6.
#[test]
fn a_level_shows_its_words(rt: HostRuntime) -> Result<(), Fail> {
    let mut level = new_counter(100);
    let end = drive(&mut level, &Turning, 3)?;
    holds(&rt, "three moves", end == End::Bound);
    let mut sink = sink_of(rt.alloc(), 200_000)?;
    let put = show_level(&level, &mut sink);
    is_put(&rt, "the words", put, Put::Done);
    let text = sink.bytes();
    holds(&rt, "first", text.starts_with(b"2048 6\n2049 6\n"));
    holds(&rt, "last", text.ends_with(b"\n16382 6\n16383 6\n"));
    is_number(&rt, "length", 0, text.len() as u64, 7952 * 7 + 6384 * 8);
    Ok(())
}
