//! Elaboration: a chip's netlist, or why it has none.

ghost use Rattle.std.specs.Prelude.{IfOk, IfErr, IsSome};
ghost use Rattle.hdl_tree.specs.Chips.{find_entry};
ghost use Rattle.hdl_check.specs.Whole.{AreDistinct, chips_in, TopIsFaultless};
ghost use Rattle.hdl_flatten.specs.Ends.{EndsHavePins};
ghost use Rattle.hdl_flatten.specs.Flat.{NeedsFew};
ghost use Rattle.hdl_elab.specs.Sound.{TopHasNoLoop};
ghost use Rattle.hdl_elab.specs.Faults.{TopIsFaulty, TopIsFine};
ghost use Rattle.hdl_elab.specs.Elaborated.{TopIsElaborated};

use crate::build::build_net;
use crate::fault::ElaborationFault;
use crate::put::Elab;
use hdl_check::{ElabFault, check_library};
use hdl_flatten::count;
use hdl_loops::find_loop;
use hdl_tree::{Library, List, Memories, Name};
use std::alloc::Global;

/// How many nodes a netlist may have.
const MOST_NODES: u32 = 16_777_216;

/// A directory of more parts is not begun: no memory is taken to hold one.
const MOST_PARTS: u32 = 100_000_000;

fn check_texts(
    alloc: Global,
    library: &Library,
    top: &Name,
    memories: Memories,
) -> Result<(), ElaborationFault>
    requires distinct { AreDistinct library.now.entries }
    requires there { IsSome (find_entry library.now.entries top.now) }
    ensures fine { IfOk result
        (λ _. TopIsFaultless (chips_in library.now.entries memories) top.now) }
    ensures fault { IfErr result (TopIsFaulty (chips_in library.now.entries memories) top.now) }
{
    match check_library(alloc, library, top, memories) {
        Ok(()) => Ok(()),
        Err(ElabFault::Memory) => Err(ElaborationFault::Memory),
        Err(ElabFault::Named(fault)) => Err(ElaborationFault::Named(fault)),
    }
}

fn check_loops(
    alloc: Global,
    library: &Library,
    top: &Name,
    memories: Memories,
) -> Result<(), ElaborationFault>
    requires fine { TopIsFaultless (chips_in library.now.entries memories) top.now }
    ensures fine { IfOk result (λ _. TopHasNoLoop (chips_in library.now.entries memories) top.now) }
    ensures fault { IfErr result (TopIsFaulty (chips_in library.now.entries memories) top.now) }
{
    match find_loop(alloc, library, top, memories) {
        Ok(None) => Ok(()),
        Ok(Some(nets)) => Err(ElaborationFault::Loop(List::of(nets))),
        Err(_) => Err(ElaborationFault::Memory),
    }
}

fn check_size(
    alloc: Global,
    library: &Library,
    top: &Name,
    memories: Memories,
) -> Result<(), ElaborationFault>
    requires distinct { AreDistinct library.now.entries }
    requires there { IsSome (find_entry library.now.entries top.now) }
    requires fine { TopIsFaultless (chips_in library.now.entries memories) top.now }
    requires ends { EndsHavePins (chips_in library.now.entries memories) }
    requires no_loop { TopHasNoLoop (chips_in library.now.entries memories) top.now }
    ensures fine { IfOk result (λ _. NeedsFew (chips_in library.now.entries memories) top.now) }
    ensures fault { IfErr result (TopIsFaulty (chips_in library.now.entries memories) top.now) }
{
    let size = count(alloc, library, top, memories)?;
    if size.nodes > MOST_NODES {
        return Err(ElaborationFault::TooManyNodes(size.nodes));
    }
    if size.parts > MOST_PARTS {
        return Err(ElaborationFault::Memory);
    }
    Ok(())
}

/// The chip of this name as a netlist, with its directory, or why it has none. That is the first fault of the texts, in text order, depth
/// first. If there is none, it is a loop, and if there is none, that it needs more than 16,777,216 nodes. No chip is expanded before that
/// is known.
pub fn elaborate(
    alloc: Global,
    library: &Library,
    top: &Name,
    memories: Memories,
) -> Result<Elab, ElaborationFault>
    requires distinct { AreDistinct library.now.entries }
    requires there { IsSome (find_entry library.now.entries top.now) }
    requires ends { EndsHavePins (chips_in library.now.entries memories) }
    ensures elaborated { IfOk result
        (λ e. TopIsElaborated (chips_in library.now.entries memories) top.now e) }
    ensures fine { IfOk result (λ _. TopIsFine (chips_in library.now.entries memories) top.now) }
    ensures fault { IfErr result (TopIsFaulty (chips_in library.now.entries memories) top.now) }
{
    check_texts(alloc, library, top, memories)?;
    check_loops(alloc, library, top, memories)?;
    check_size(alloc, library, top, memories)?;
    Ok(build_net(alloc, library, top, memories)?)
}
