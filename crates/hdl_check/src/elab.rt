//! The faults of a chip of a library.

ghost use Rattle.std.specs.Prelude.{◌≡◌, ◌∷◌, [], IfOk, IfErr, IsSome, Some};
ghost use Rattle.hdl_tree.specs.Chips.{find_entry, find_chip};
ghost use Rattle.hdl_tree.specs.declared.library.Entry.{Entry};
ghost use Rattle.hdl_check.specs.Locations.{OrderLaw, IsFirstFault};
ghost use Rattle.hdl_check.specs.declared.fault.NamedFault.{NamedFault};
ghost use Rattle.hdl_check.specs.Whole.{AreDistinct, chips_in, Tells, TopIsFaultless, TopFails, IsToldBy};

use crate::catalog::Catalog;
use crate::fault::ElabFault;
use crate::walk::check_all;
use hdl_tree::{Library, Memories, Name};
use std::alloc::Global;

/// At most one fault is the first.
pub fn order_law()
    ensures { OrderLaw }
{}

/// The first fault of a chip of a library, in text order, depth first.
pub fn check_library(
    alloc: Global,
    library: &Library,
    top: &Name,
    memories: Memories,
) -> Result<(), ElabFault>
    requires distinct { AreDistinct library.now.entries }
    requires there { IsSome (find_entry library.now.entries top.now) }
    ensures fine { IfOk result
        (λ _. TopIsFaultless (chips_in library.now.entries memories) top.now) }
    ensures fault { IfErr result
        (Tells (TopFails (chips_in library.now.entries memories) top.now)) }
    ensures exact { (entry : Entry) (f : NamedFault)
        → find_chip (chips_in library.now.entries memories) top.now ≡ Some entry
        → IsFirstFault (chips_in library.now.entries memories) (entry.name ∷ []) entry f
        → IsToldBy f result }
{
    let catalog = Catalog::new(alloc, library, memories)?;
    match catalog.place(top.as_bytes()) {
        None => unreachable!(),
        Some(k) => {
            check_all(alloc, &catalog, k)?;
            Ok(())
        }
    }
}
