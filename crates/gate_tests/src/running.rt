//! Images on the Computer made of gates.

ghost use Rattle.std.specs.Prelude.{◌≡◌, ◌<◌, ◌≤◌, false, IfOk, IsSome, length};

use crate::checks::holds;
use gate_computer::{GateComputer, build_computer, prepare_gates};
use image_map::{Image, ImageMap, PointRange};
use outer_world::{List, MemorySink, Pieces, Point, Put};
use std::alloc::{AllocError, Global};
use std::process::Abort;
use std::test::*;

// The computer at its start with an image, each address of which has one point; simplified or not.
fn computer_of(alloc: Global, words: &[u16], simplify: bool) -> Result<GateComputer, AllocError>
    requires some { 0 < length words.now }
    requires few { length words.now ≤ 100 }
    ensures moves { IfOk result (λ computer. computer.moves ≡ 0) }
    ensures parts { IfOk result (λ computer. simplify ≡ false → IsSome computer.wiring.parts) }
{
    let mut points = List::new(alloc);
    points.push(PointRange {
        from: 0,
        to: words.len() as u32,
        point: Point { sub: 0, number: 0 },
    })?;
    let map = ImageMap {
        points,
        commits: List::new(alloc),
        shared: List::new(alloc),
        entries: List::new(alloc),
        statics: List::new(alloc),
    };
    let words = List::of(Vec::from_slice(alloc, words)?);
    prepare_gates(alloc, Image { words, map }, simplify)
}

// One cycle for each key.
fn press(computer: &mut GateComputer, keys: &[u16])
    requires start { computer.old.moves ≡ 0 }
    requires few { length keys.now ≤ 100 }
    ensures { computer.new.moves ≤ 100 }
{
    for key in keys {
        computer.cycle(*key);
    }
}

// What a test looks at after a run: a word of main memory, a word of the screen, and the numbers of cycles and of keys
// heard.
#[derive(Clone, Copy)]
struct Seen {
    main: u16,
    screen: u16,
    moves: u64,
    heard: u64,
}

fn seen_in(computer: &GateComputer) -> Seen {
    Seen {
        main: computer.word_at(0),
        screen: computer.word_at(16384),
        moves: computer.moves(),
        heard: computer.heard(),
    }
}

// What is seen after one cycle for each key, from the start with an image.
fn seen_after(
    alloc: Global,
    words: &[u16],
    simplify: bool,
    keys: &[u16],
) -> Result<Seen, AllocError>
    requires some { 0 < length words.now }
    requires few { length words.now ≤ 100 }
    requires keys { length keys.now ≤ 100 }
{
    let mut computer = computer_of(alloc, words, simplify)?;
    press(&mut computer, keys);
    Ok(seen_in(&computer))
}

// The input bit, the output bits of the ends and the constants, and the instruction memory, main memory and the screen.
#[test]
fn has_its_nodes_and_blocks(rt: HostRuntime) -> Result<(), Fail> {
    let wired = build_computer(rt.alloc())?;
    assert!(rt; wired.net.nodes().len() == 2004);
    assert!(rt; wired.net.blocks().len() == 3);
    Ok(())
}

// `@21`, `D=A`, `@0`, `M=D`, `@4`, `0;JMP`.
const WORD_TO_MAIN: &[u16] = &[21, 0xEC10, 0, 0xE308, 4, 0xEA87];

// The word stands there after the fourth cycle.
#[test]
fn puts_a_word_into_main_memory(rt: HostRuntime) -> Result<(), Fail> {
    let before = seen_after(rt.alloc(), WORD_TO_MAIN, false, &[0, 0, 0])?;
    holds(&rt, "before", before.main == 0);
    let after = seen_after(rt.alloc(), WORD_TO_MAIN, false, &[0, 0, 0, 0])?;
    holds(&rt, "after", (after.main, after.moves) == (21, 4));
    Ok(())
}

// `@24576`, `D=M`, `@16384`, `M=D`, `@0`, `0;JMP`.
const KEY_TO_SCREEN: &[u16] = &[24576, 0xFC10, 16384, 0xE308, 0, 0xEA87];

const KEYS: &[u16] = &[65, 66, 67, 68, 69, 70, 71, 72, 73, 74];

// The key of the eighth cycle stands on the screen after the tenth.
fn key_is_on_the_screen(rt: &impl Abort, alloc: Global, simplify: bool) -> Result<(), Fail> {
    let seen = seen_after(alloc, KEY_TO_SCREEN, simplify, KEYS)?;
    holds(rt, "the screen", (seen.screen, seen.main) == (72, 0));
    holds(rt, "the keys", seen.heard == 2);
    Ok(())
}

#[test]
fn puts_a_key_on_the_screen(rt: HostRuntime) -> Result<(), Fail> {
    key_is_on_the_screen(&rt, rt.alloc(), false)
}

// The same on the computer whose netlist is simplified.
#[test]
fn puts_a_key_on_the_screen_simplified(rt: HostRuntime) -> Result<(), Fail> {
    key_is_on_the_screen(&rt, rt.alloc(), true)
}

fn contains(text: &[u8], line: &[u8]) -> bool
    requires { 0 < length line.now }
{
    text.windows(line.len()).any(|part| part == line)
}

// Puts the outputs of all parts before the next cycle, and tells whether all was put.
fn put_parts(computer: &mut GateComputer, key: u16, out: &mut MemorySink) -> bool
    requires { IsSome computer.old.wiring.parts }
{
    let mut pieces = Pieces::new(out);
    let put = computer.put_nets(key, &mut pieces);
    let end = pieces.finish();
    put == Put::Done && end == Put::Done
}

// The same of a computer at its start with an image.
fn parts_at_start(
    alloc: Global,
    words: &[u16],
    key: u16,
    out: &mut MemorySink,
) -> Result<bool, AllocError>
    requires some { 0 < length words.now }
    requires few { length words.now ≤ 100 }
{
    let mut computer = computer_of(alloc, words, false)?;
    Ok(put_parts(&mut computer, key, out))
}

// Before the first cycle the instruction memory gives the word at address 0, and the keyboard the key.
#[test]
fn shows_the_outputs_of_its_parts(rt: HostRuntime) -> Result<(), Fail> {
    let mut out = MemorySink::new(rt.alloc(), 200_000, Vec::new(rt.alloc()))?;
    let put = parts_at_start(rt.alloc(), &[21, 0xEC10], 65, &mut out)?;
    holds(&rt, "put", put);
    let rom = contains(out.bytes(), b"\nROM32K 0000000000010101\n");
    holds(&rt, "ROM32K", rom);
    let keyboard = contains(out.bytes(), b"\nKeyboard 0000000001000001\n");
    holds(&rt, "Keyboard", keyboard);
    Ok(())
}
