//! Level hack: the instruction machine with the image of a program.
ghost use Rattle.std.specs.Prelude.{ℕ, IfOk};
ghost use Rattle.jack_compiler.specs.Resolved.{IsResolvedCore};
ghost use Rattle.key_script.specs.Codes.{code_at};
ghost use Rattle.simulation.specs.System.{IsKey};
ghost use Rattle.image_map.specs.Map.{IsMapped};
ghost use Rattle.tower.specs.Image.{IsImageOf};
ghost use Rattle.nand_cli.specs.Commands.Run.{IsHackReport};
ghost use Rattle.nand_cli.specs.Inner.Reports.{CountsReport, IsHackAtStart, IsPut, Reports};

use crate::failure::Failure;
use crate::report::report;
use image_map::Image;
use jack_core::Core;
use key_script::Keys;
use machine_io::{LevelName, Show};
use outer_world::Sink;
use std::alloc::{AllocError, Global};
use tower::{HackLevel, prepare_hack};

/// The instruction machine at its start, with the image of a program.
pub fn hack_at_start(alloc: Global, core: &Core, image: Image) -> Result<HackLevel, AllocError>
    requires image { IsImageOf core.now image }
    requires mapped { IsMapped image }
    ensures { IfOk result (IsHackAtStart core.now) }
{
    prepare_hack(alloc, image)
}

/// Moves the machine from its start, and puts its report. It wants no memory.
pub fn report_hack<O: Sink>(
    machine: &mut HackLevel,
    core: &Core,
    keys: &Keys,
    cycles: u32,
    show: Show,
    out: &mut O,
) -> Result<(), Failure>
    requires resolved { IsResolvedCore core.now }
    requires words { (c : ℕ) → IsKey (code_at keys.now c) }
    requires start { IsHackAtStart core.now machine.old }
    ensures reports { Reports (IsHackReport core.now (code_at keys.now) cycles show)
        (O.state out.old) (O.state out.new) result }
    ensures counts { CountsReport (O.state out.old) (O.state out.new) result }
    ensures put { IsPut result }
{
    report(machine, LevelName::Hack, core, keys, cycles, show, out)
}
