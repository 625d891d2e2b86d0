//! Level jack: a program by its meaning.
ghost use Rattle.jack_compiler.specs.Resolved.{IsResolvedCore};
ghost use Rattle.key_script.specs.Codes.{code_at};
ghost use Rattle.nand_cli.specs.Commands.Run.{IsJackReport};
ghost use Rattle.nand_cli.specs.Inner.Reports.{CountsReport, Reports};

use crate::failure::Failure;
use crate::report::report;
use jack_core::Core;
use jack_machine::Jack;
use key_script::Keys;
use machine_io::{LevelName, Show};
use outer_world::Sink;
use std::alloc::Global;

/// Makes the machine of a program's meaning, moves it, and puts its report. It may want memory for any call of the
/// program.
pub fn report_jack<O: Sink>(
    alloc: Global,
    core: &Core,
    keys: &Keys,
    cycles: u32,
    show: Show,
    out: &mut O,
) -> Result<(), Failure>
    requires { IsResolvedCore core.now }
    ensures reports { Reports (IsJackReport core.now (code_at keys.now) cycles show)
        (O.state out.old) (O.state out.new) result }
    ensures counts { CountsReport (O.state out.old) (O.state out.new) result }
{
    let mut jack = Jack::new(alloc, core)?;
    report(&mut jack, LevelName::Jack, core, keys, cycles, show, out)
}
