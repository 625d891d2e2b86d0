//! What programs draw, by their meaning and on the computer.
//!
//! The rows of a screen that are not white stand as `FIRST..END: A..B ..`: rows that are alike, and in each of them the
//! columns of its black pixels. What is expected is worked out by a model in Python (tools/drawings). It sets pixels
//! and cells by the rules of docs/SYSTEM.md, and shares nothing with the texts of the system.
ghost use Rattle.std.specs.Prelude.{◌<◌};
ghost use Rattle.jack_core.specs.Texts.{the_program};
ghost use Rattle.jack_compiler.specs.Resolved.{IsResolvedCore};
ghost use Rattle.jack_machine.specs.Calls.{CallsAreThere};

use crate::checks::is_told;
use crate::programs::program_of;
use jack_core::Core;
use jack_machine::Jack;
use key_script::{Keys, read_keys};
use machine_io::{End, Level, drive};
use outer_world::Point;
use std::alloc::{AllocError, Global};
use std::process::Abort;
use std::test::Fail;
use tower::{build, prepare_hack};

/// The statements of a program, within how many moves each machine halts, its key script, and the rows of the screen at
/// the end.
pub struct Program {
    pub body: &'static str,
    pub moves: u32,
    pub keys: &'static str,
    pub rows: &'static str,
}

// How many moves are made between two looks at the control point.
const STRIDE: u64 = 1000;

fn is_black<L: Level>(level: &L, row: u16, column: u16) -> bool
    requires row { row < 256 }
    requires column { column < 512 }
{
    let word = level.word_at(16384 + 32 * row + column / 16);
    (word >> (column % 16)) & 1 == 1
}

// The columns of the black pixels of a row of the screen.
fn columns<L: Level>(alloc: Global, level: &L, row: u16) -> Result<String, AllocError>
    requires { row < 256 }
{
    let mut text = String::new(alloc);
    let mut begun = None;
    for column in 0..512u16 {
        if is_black(level, row, column) {
            begun = begun.or(Some(column));
        } else if let Some(first) = begun.take() {
            text.push_str(&format!(in alloc; " {first}..{column}")?)?;
        }
    }
    if let Some(first) = begun {
        text.push_str(&format!(in alloc; " {first}..512")?)?;
    }
    Ok(text)
}

// The rows of the screen that are not white.
fn rows_of<L: Level>(alloc: Global, level: &L) -> Result<String, AllocError> {
    let mut text = String::new(alloc);
    let mut alike = String::new(alloc);
    let mut first = 0u16;
    for row in 0..256u16 {
        let here = columns(alloc, level, row)?;
        if here != alike {
            if !alike.is_empty() {
                text.push_str(&format!(in alloc; "{first}..{row}:{alike}\n")?)?;
            }
            alike = here;
            first = row;
        }
    }
    if !alike.is_empty() {
        text.push_str(&format!(in alloc; "{first}..256:{alike}\n")?)?;
    }
    Ok(text)
}

// Whether a control point is in `Sys.halt`, where every program ends.
fn is_halt(core: &Core, point: Point) -> bool {
    match core.subroutines.get(point.sub as usize) {
        Some(subroutine) => subroutine.name.as_str() == "Sys.halt",
        None => false,
    }
}

// Moves a machine until it has halted, which it does within this many moves.
fn halts<L: Level<Point = Point>>(
    level: &mut L,
    core: &Core,
    keys: &Keys,
    moves: u32,
) -> Result<(), Fail> {
    for _stride in 0..moves {
        if level.moves() >= u64::from(moves) {
            break;
        }
        if drive(level, keys, STRIDE)? != End::Bound {
            return Err(Fail::from("a machine goes on until it halts"));
        }
        if is_halt(core, level.point()) {
            return Ok(());
        }
    }
    Err(Fail::from("the program halts"))
}

// The rows of the screen once a machine has halted.
fn screen_at_end<L: Level<Point = Point>>(
    alloc: Global,
    level: &mut L,
    core: &Core,
    keys: &Keys,
    moves: u32,
) -> Result<String, Fail> {
    halts(level, core, keys, moves)?;
    Ok(rows_of(alloc, level)?)
}

fn drawn_by_meaning(alloc: Global, core: &Core, keys: &Keys, moves: u32) -> Result<String, Fail>
    requires { CallsAreThere (the_program core.now) }
{
    let mut jack = Jack::new(alloc, core)?;
    screen_at_end(alloc, &mut jack, core, keys, moves)
}

fn drawn_on_computer(alloc: Global, core: &Core, keys: &Keys, moves: u32) -> Result<String, Fail>
    requires { IsResolvedCore core.now }
{
    let Ok(image) = build(alloc, core) else {
        return Err(Fail::from("the program has no image"));
    };
    let mut hack = prepare_hack(alloc, image)?;
    screen_at_end(alloc, &mut hack, core, keys, moves)
}

/// A program with these statements draws these rows at both levels.
pub fn draws(
    rt: &impl Abort,
    alloc: Global,
    body: &str,
    moves: u32,
    keys: &str,
    rows: &str,
) -> Result<(), Fail> {
    let main = format!(in alloc;
        "class Main {{ function void main() {{ var Array s, a, b, c, d, e; var String t, u; var int k; let s = 16384; {body} return; }} }}"
    )?;
    let core = program_of(alloc, main.as_bytes())?;
    let Ok(keys) = read_keys(alloc, keys.as_bytes()) else {
        return Err(Fail::from("the script has no fault"));
    };
    let by_meaning = drawn_by_meaning(alloc, &core, &keys, moves)?;
    is_told(rt, body, &by_meaning, rows);
    let on_computer = drawn_on_computer(alloc, &core, &keys, moves)?;
    is_told(rt, body, &on_computer, rows);
    Ok(())
}

/// Each of the programs draws its rows.
pub fn all_draw(rt: &impl Abort, alloc: Global, programs: &[Program]) -> Result<(), Fail> {
    for program in programs {
        draws(
            rt,
            alloc,
            program.body,
            program.moves,
            program.keys,
            program.rows,
        )?;
    }
    Ok(())
}
