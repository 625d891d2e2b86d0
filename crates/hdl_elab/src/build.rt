//! From a chip of a library to its netlist.

ghost use Rattle.std.specs.Prelude.{IfOk, IsSome};
ghost use Rattle.hdl_tree.specs.Chips.{find_entry};
ghost use Rattle.hdl_check.specs.Whole.{AreDistinct, chips_in, TopIsFaultless};
ghost use Rattle.hdl_flatten.specs.Ends.{EndsHavePins};
ghost use Rattle.hdl_flatten.specs.Flat.{NeedsFew};
ghost use Rattle.hdl_elab.specs.Sound.{TopHasNoLoop};
ghost use Rattle.hdl_elab.specs.Elaborated.{TopIsElaborated};

use crate::put::{Elab, put_in_net};
use hdl_flatten::flatten;
use hdl_tree::{Library, Memories, Name};
use std::alloc::{AllocError, Global};

/// The chip of this name as a netlist, with its directory, where it has no fault and no loop and needs few nodes.
pub fn build_net(
    alloc: Global,
    library: &Library,
    top: &Name,
    memories: Memories,
) -> Result<Elab, AllocError>
    requires distinct { AreDistinct library.now.entries }
    requires there { IsSome (find_entry library.now.entries top.now) }
    requires fine { TopIsFaultless (chips_in library.now.entries memories) top.now }
    requires ends { EndsHavePins (chips_in library.now.entries memories) }
    requires few { NeedsFew (chips_in library.now.entries memories) top.now }
    requires no_loop { TopHasNoLoop (chips_in library.now.entries memories) top.now }
    ensures { IfOk result (λ e. TopIsElaborated (chips_in library.now.entries memories) top.now e) }
{
    let flat = flatten(alloc, library, top, memories)?;
    put_in_net(alloc, flat)
}
