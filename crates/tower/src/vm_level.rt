//! The virtual machine with the code of a program, as a level of the tower.
ghost use Rattle.std.specs.Prelude.{◌≡◌, [], IfOk};
ghost use Rattle.jack_compiler.specs.Resolved.{IsResolvedCore};
ghost use Rattle.vm_machine.specs.Loaded.{HasTaken};
ghost use Rattle.image_map.specs.declared.map.Image.{Image};
ghost use Rattle.tower.specs.Image.{IsImageOf};
ghost use Rattle.tower.specs.VmRun.{IsVmCodeOf};

use jack_compiler::link_core;
use jack_core::Core;
use std::alloc::{AllocError, Global};
use vm_link::LinkFault;
use vm_machine::Vm;

/// The virtual machine at its start, with the code of a program that is built. It has all its memory from here on.
pub fn prepare_vm(alloc: Global, core: &Core) -> Result<Vm, AllocError>
    requires resolved { IsResolvedCore core.now }
    requires built { (image : Image) × IsImageOf core.now image }
    ensures program { IfOk result (λ vm. IsVmCodeOf core.now vm.linked) }
    ensures moves { IfOk result (λ vm. vm.moves ≡ 0) }
    ensures stands { IfOk result (λ vm. HasTaken vm []) }
{
    match link_core(alloc, core) {
        Ok(linked) => Vm::new(alloc, linked),
        // What is built was linked.
        Err(LinkFault::TooManyStatics(_)) => unreachable!(),
        Err(LinkFault::Memory) => Err(AllocError),
        // Where names are resolved there is no other fault.
        Err(_) => unreachable!(),
    }
}
