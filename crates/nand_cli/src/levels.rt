//! The levels of `run`. At each there is a machine, which is put at its start with an allocator; and a report, which is
//! put without one.
ghost use Rattle.std.specs.Prelude.{◌≡◌, IfOk};
ghost use Rattle.jack_compiler.specs.Resolved.{IsResolvedCore};
ghost use Rattle.image_map.specs.Map.{IsMapped};
ghost use Rattle.tower.specs.Image.{IsImageOf};
ghost use Rattle.nand_cli.specs.Inner.Prepared.{IsAtItsStart, level_of};

pub mod gates;
pub mod hack;
pub mod jack;
pub mod stop;
pub mod vm;

use crate::levels::gates::{gates_at_start, simple_at_start};
use crate::levels::hack::hack_at_start;
use crate::levels::vm::vm_at_start;
use command_line::{RunLevel, Shown};
use gate_computer::GateComputer;
use image_map::Image;
use jack_core::Core;
use machine_io::Show;
use std::alloc::{AllocError, Global};
use tower::HackLevel;
use vm_machine::Vm;

/// The machine of a level at its start, and what is shown of it. At level jack the machine points into the program, so
/// it is made where it is shown.
#[derive(Drop)]
pub enum Machine {
    Jack(Global, Show),
    Vm(Vm, Show),
    Hack(HackLevel, Show),
    Gates(GateComputer, Shown),
    Simplified(GateComputer, Show),
}

/// The machine of a level at its start, with a program that is built.
pub fn machine_at_start(
    alloc: Global,
    core: &Core,
    image: Image,
    level: RunLevel,
) -> Result<Machine, AllocError>
    requires resolved { IsResolvedCore core.now }
    requires image { IsImageOf core.now image }
    requires mapped { IsMapped image }
    ensures start { IfOk result (IsAtItsStart core.now) }
    ensures level { IfOk result (λ machine. level_of machine ≡ level) }
{
    match level {
        RunLevel::Jack(show) => Ok(Machine::Jack(alloc, show)),
        RunLevel::Vm(show) => Ok(Machine::Vm(vm_at_start(alloc, core, image)?, show)),
        RunLevel::Hack(show) => Ok(Machine::Hack(hack_at_start(alloc, core, image)?, show)),
        RunLevel::Simplified(show) => {
            Ok(Machine::Simplified(simple_at_start(alloc, core, image)?, show))
        }
        RunLevel::Gates(shown) => Ok(Machine::Gates(gates_at_start(alloc, core, image)?, shown)),
    }
}
