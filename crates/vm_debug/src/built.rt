//! The places of a program that is built.
ghost use Rattle.std.specs.Prelude.{◌+◌, ◌≤◌, ◌<◌, ◌^◌, false, Ok, IfOk, length, sum_by};
ghost use Rattle.jack_compiler.specs.Files.{files_of};
ghost use Rattle.jack_compiler.specs.Resolved.{IsResolvedCore};
ghost use Rattle.vm_link.specs.Links.{Links};
ghost use Rattle.vm_link.specs.declared.linked.Linked.{Linked};
ghost use Rattle.vm_debug.specs.Program.{ArePlacesOfClasses};

use crate::places::places_of;
use image_map::ImageMap;
use jack_compiler::link_core;
use jack_core::Core;
use jack_debug::Places;
use jack_tree::Class;
use std::alloc::{AllocError, Global};
use vm_link::{LinkFault, Linked};

// The linked code of a program that was linked before.
fn linked_again(alloc: Global, core: &Core) -> Result<Linked, AllocError>
    requires resolved { IsResolvedCore core.now }
    requires linked { (linked : Linked) × Links false (files_of core.now) (Ok linked) }
    ensures links { IfOk result (λ linked. Links false (files_of core.now) (Ok linked)) }
    ensures few { IfOk result (λ linked. sum_by (λ f. f.statics) linked.files ≤ 240) }
{
    match link_core(alloc, core) {
        Ok(linked) => Ok(linked),
        // What was linked has no fault.
        Err(LinkFault::TooManyStatics(_)) => unreachable!(),
        Err(LinkFault::Memory) => Err(AllocError),
        // Where names are resolved there is no other fault.
        Err(_) => unreachable!(),
    }
}

/// The places of a program that is built: of a folder's own classes and of those of the operating system, whose program is
/// `core`, and whose image has this map. Its code is linked once more for them.
pub fn program_places(
    alloc: Global,
    own: &[Class],
    system: &[Class],
    core: &Core,
    map: &ImageMap,
) -> Result<Places, AllocError>
    requires few { length own.now + length system.now < 2 ^ 32 }
    requires resolved { IsResolvedCore core.now }
    requires linked { (linked : Linked) × Links false (files_of core.now) (Ok linked) }
    ensures { IfOk result (ArePlacesOfClasses own.now system.now core.now map.now) }
{
    let linked = linked_again(alloc, core)?;
    places_of(alloc, own, system, &linked, map)
}
