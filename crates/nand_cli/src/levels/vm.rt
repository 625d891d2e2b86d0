//! Level vm: the virtual machine with the code of a program.
ghost use Rattle.std.specs.Prelude.{ℕ, IfOk};
ghost use Rattle.jack_compiler.specs.Resolved.{IsResolvedCore};
ghost use Rattle.key_script.specs.Codes.{code_at};
ghost use Rattle.simulation.specs.System.{IsKey};
ghost use Rattle.tower.specs.Image.{IsImageOf};
ghost use Rattle.nand_cli.specs.Commands.RunVm.{IsVmReport};
ghost use Rattle.nand_cli.specs.Inner.Reports.{CountsReport, IsPut, IsVmAtStart, Reports};

use crate::failure::Failure;
use crate::report::report;
use image_map::Image;
use jack_core::Core;
use key_script::Keys;
use machine_io::{LevelName, Show};
use outer_world::Sink;
use std::alloc::{AllocError, Global};
use tower::prepare_vm;
use vm_machine::Vm;

/// The virtual machine at its start, with the code of a program that is built. It links the code itself.
pub fn vm_at_start(alloc: Global, core: &Core, image: Image) -> Result<Vm, AllocError>
    requires resolved { IsResolvedCore core.now }
    requires image { IsImageOf core.now image }
    ensures { IfOk result (IsVmAtStart core.now) }
{
    drop(image);
    prepare_vm(alloc, core)
}

/// Moves the machine from its start, and puts its report. It wants no memory.
pub fn report_vm<O: Sink>(
    vm: &mut Vm,
    core: &Core,
    keys: &Keys,
    cycles: u32,
    show: Show,
    out: &mut O,
) -> Result<(), Failure>
    requires resolved { IsResolvedCore core.now }
    requires words { (c : ℕ) → IsKey (code_at keys.now c) }
    requires start { IsVmAtStart core.now vm.old }
    ensures reports { Reports (IsVmReport core.now (code_at keys.now) cycles show) (O.state out.old)
        (O.state out.new) result }
    ensures counts { CountsReport (O.state out.old) (O.state out.new) result }
    ensures put { IsPut result }
{
    report(vm, LevelName::Vm, core, keys, cycles, show, out)
}
