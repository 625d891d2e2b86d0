//! The wiring of the Computer, from the directory of its netlist.

ghost use Rattle.std.specs.Prelude.{◌≡◌, ◌-◌, ◌<◌, ◌^◌, IfOk, IsSome, length};
ghost use Rattle.hack_cpu.specs.Library.{shipped_chips};
ghost use Rattle.hdl_elab.specs.Elaborated.{IsElaborated};
ghost use Rattle.gate_computer.specs.Computer.{chips, computer};
ghost use Rattle.gate_computer.specs.Wiring.{IsWired};
ghost use Rattle.gate_computer.specs.Inner.Directory.{CanTell, IsToldBy};

use crate::directory::{block_named, outs_named, wire_parts};
use crate::wiring::{WiredComputer, Wiring};
use hack_cpu::library;
use hdl_elab::{Elab, build_net};
use hdl_flatten::PartAt;
use hdl_tree::{Library, List, Memories, Name};
use std::alloc::{AllocError, Global};

// The outputs of the CPU are outM, writeM, addressM and pc: this many bits stand before those of the
// pc.
const BEFORE_PC: usize = 32;

pub(crate) fn list_from(alloc: Global, nodes: &[u32]) -> Result<List<u32>, AllocError>
    ensures { IfOk result (λ list. list ≡ nodes.now) }
{
    Ok(List::of(Vec::from_slice(alloc, nodes)?))
}

fn wiring_of(alloc: Global, library: &Library, parts: &[PartAt]) -> Result<Wiring, AllocError>
    requires { CanTell library.now.entries parts.now }
    ensures { IfOk result (λ w. IsToldBy library.now.entries parts.now w) }
{
    let keyboard = list_from(alloc, outs_named(parts, b"Keyboard"))?;
    let outputs = outs_named(parts, b"CPU");
    let pc = list_from(alloc, &outputs[BEFORE_PC..])?;
    let a = list_from(alloc, outs_named(parts, b"ARegister"))?;
    Ok(Wiring {
        keyboard,
        pc,
        a,
        rom: block_named(parts, b"ROM32K"),
        main: block_named(parts, b"RAM16K"),
        screen: block_named(parts, b"Screen"),
        parts: Some(wire_parts(alloc, library, parts)?),
    })
}

/// The Computer with its wiring, from its netlist with the directory; the library is that of the shipped chips.
pub fn wire_computer(
    alloc: Global,
    library: &Library,
    elab: Elab,
) -> Result<WiredComputer, AllocError>
    requires library { library.now.entries ≡ shipped_chips }
    requires elaborated { IsElaborated chips computer elab }
    ensures net { IfOk result (λ wired. wired.net ≡ elab.net) }
    ensures wired { IfOk result (λ wired. IsWired wired.net wired.wiring) }
    ensures parts { IfOk result (λ wired. IsSome wired.wiring.parts) }
    ensures few { IfOk result (λ wired. length wired.net.nodes < 2 ^ 32 - 1) }
{
    let parts = elab.parts.to_vec(alloc)?;
    let wiring = wiring_of(alloc, library, &parts)?;
    Ok(WiredComputer {
        net: elab.net,
        wiring,
    })
}

/// The Computer of the shipped chips as a netlist, its memories as blocks, with its wiring.
pub fn build_computer(alloc: Global) -> Result<WiredComputer, AllocError>
    ensures wired { IfOk result (λ wired. IsWired wired.net wired.wiring) }
    ensures parts { IfOk result (λ wired. IsSome wired.wiring.parts) }
    ensures few { IfOk result (λ wired. length wired.net.nodes < 2 ^ 32 - 1) }
{
    let library = library(alloc)?;
    let name = Name::from_bytes(alloc, b"Computer")?;
    let elab = build_net(alloc, &library, &name, Memories::Blocks)?;
    wire_computer(alloc, &library, elab)
}
