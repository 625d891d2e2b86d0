//! The report of a run, at whatever level.
ghost use Rattle.std.specs.Prelude.{◌≡◌, ℕ, List, true};
ghost use Rattle.jack_core.specs.Texts.{names_of};
ghost use Rattle.key_script.specs.Codes.{code_at};
ghost use Rattle.machine_io.specs.Driven.{IsDriven};
ghost use Rattle.machine_io.specs.Report.{head_text};
ghost use Rattle.machine_io.specs.declared.driving.End.{End};
ghost use Rattle.outer_world.specs.Written.{Puts};
ghost use Rattle.nand_cli.specs.Commands.Run.{name_of};
ghost use Rattle.nand_cli.specs.Inner.Reports.{CountsReport, IsPut, Reports, machine_head, machine_text};

use crate::failure::{Failure, finished};
use jack_core::Core;
use key_script::Keys;
use machine_io::{End, Head, Level, LevelName, Show, drive, show_report};
use outer_world::{Point, Put, Sink};

// The name of a subroutine by its number.
fn name_at(core: &Core, sub: u32) -> &str
    ensures { result.now ≡ name_of (names_of core.now) sub }
{
    match core.subroutines.get(sub as usize) {
        Some(subroutine) => subroutine.name.as_str(),
        None => "",
    }
}

/// What the report of a machine begins with.
pub fn head_of<'a, L: Level<Point = Point>>(
    level: &L,
    name: LevelName,
    core: &'a Core,
    end: End,
) -> Head<'a>
    ensures { head_text result.level result.moves result.steps result.subroutine.now
        result.statement result.end ≡ machine_head name (names_of core.now) (L.reading level.now)
        end }
{
    let point = level.point();
    Head {
        level: name,
        moves: level.moves(),
        steps: level.steps(),
        subroutine: name_at(core, point.sub),
        statement: point.number,
        end,
    }
}

// Puts the report of what a machine shows.
fn put_report<L: Level<Point = Point>, O: Sink>(
    level: &L,
    name: LevelName,
    core: &Core,
    end: End,
    show: Show,
    out: &mut O,
) -> Put
    ensures put { Puts (O.state out.old) (O.state out.new)
        (machine_text name (names_of core.now) (L.reading level.now) end show) result }
{
    let head = head_of(level, name, core, end);
    show_report(&head, show, |a| level.word_at(a), out)
}

/// Moves a machine from its start, each move under its key, and puts the report of what it shows then.
///
/// Otherwise memory is wanted for a move, and nothing is put, but not at a level that never wants any; or out failed.
pub fn report<L: Level<Point = Point>, O: Sink>(
    level: &mut L,
    name: LevelName,
    core: &Core,
    keys: &Keys,
    cycles: u32,
    show: Show,
    out: &mut O,
) -> Result<(), Failure>
    requires first { (L.reading level.old).moves ≡ 0 }
    ensures reports { Reports
        (λ text. (end : End) × IsDriven (code_at keys.now) (L.stands level.old)
        (L.reading level.old).moves cycles end (L.stands level.new) (L.reading level.new).moves
        × (text ≡ machine_text name (names_of core.now) (L.reading level.new) end show))
        (O.state out.old) (O.state out.new) result }
    ensures counts { CountsReport (O.state out.old) (O.state out.new) result }
    ensures sure { L.sure ≡ true → IsPut result }
    ensures program { L.program level.new ≡ L.program level.old }
{
    let end = drive(level, keys, u64::from(cycles))?;
    finished(put_report(level, name, core, end, show, out))
}
