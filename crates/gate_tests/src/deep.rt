//! Chips that nest fifty thousand deep. What goes through them keeps a stack in the heap: the machine's has no room for so many.

ghost use Rattle.std.specs.Prelude.{◌≡◌, ◌⊎◌, None, IfOk, OnOk};
ghost use Rattle.hdl_names.specs.Names.{IsIndexed};
ghost use Rattle.hack_cpu.specs.Libraries.{IsLibrary, IsShippedAs};

use crate::checks::is_told;
use crate::chips::{read, shipped_nand};
use crate::refusals::why_not;
use hdl_names::NamedChips;
use hdl_tree::{Entry, Library, Memories};
use std::alloc::Global;
use std::test::Fail;

fn no_chips(alloc: Global) -> NamedChips
    ensures library { IsLibrary result.entries.items }
    ensures indexed { IsIndexed result }
{
    NamedChips::new(alloc)
}

// Adds a chip under a name that no other has.
fn add_chip(alloc: Global, chips: &mut NamedChips, entry: Entry) -> Result<(), Fail>
    requires library { IsLibrary chips.old.entries.items }
    requires indexed { IsIndexed chips.old }
    requires known { (entry.shipped ≡ None) ⊎ IsShippedAs entry }
    ensures library { OnOk result (IsLibrary chips.new.entries.items) }
    ensures indexed { OnOk result (IsIndexed chips.new) }
{
    if chips.has(entry.name.as_bytes()) {
        return Err(Fail::from("no chip has this name"));
    }
    chips.push(alloc, entry)?;
    Ok(())
}

// Adds the chip that a text spells.
fn add_text(alloc: Global, chips: &mut NamedChips, text: &[u8]) -> Result<(), Fail>
    requires library { IsLibrary chips.old.entries.items }
    requires indexed { IsIndexed chips.old }
    ensures library { OnOk result (IsLibrary chips.new.entries.items) }
    ensures indexed { OnOk result (IsIndexed chips.new) }
{
    let chip = read(alloc, text)?;
    let name = chip.name.clone()?;
    add_chip(
        alloc,
        chips,
        Entry {
            name,
            chip,
            shipped: None,
        },
    )
}

// Chip number `k` is made of the one before.
fn add_next(alloc: Global, chips: &mut NamedChips, k: u32) -> Result<(), Fail>
    requires library { IsLibrary chips.old.entries.items }
    requires indexed { IsIndexed chips.old }
    ensures library { OnOk result (IsLibrary chips.new.entries.items) }
    ensures indexed { OnOk result (IsIndexed chips.new) }
{
    let before = k.saturating_sub(1);
    let text = format!(in alloc;
        "CHIP C{k} {{ IN in; OUT out; PARTS: C{before}(in=in, out=out); }}"
    )?;
    add_text(alloc, chips, text.as_bytes())
}

// Nand, the first chip, and further ones, of which each is made of the one before; fifty thousand in all, behind Nand.
fn stack(alloc: Global, chips: &mut NamedChips, first: &[u8]) -> Result<(), Fail>
    requires library { IsLibrary chips.old.entries.items }
    requires indexed { IsIndexed chips.old }
    ensures { OnOk result (IsLibrary chips.new.entries.items) }
{
    add_chip(alloc, chips, shipped_nand(alloc)?)?;
    add_text(alloc, chips, first)?;
    for k in 1..50_000u32 {
        add_next(alloc, chips, k)?;
    }
    Ok(())
}

fn stacked(alloc: Global, first: &[u8]) -> Result<Library, Fail>
    ensures { IfOk result (λ library. IsLibrary library.entries) }
{
    let mut chips = no_chips(alloc);
    stack(alloc, &mut chips, first)?;
    Ok(Library {
        entries: chips.into_entries(),
    })
}

// What is reported of the last chip.
fn fault_of_last(alloc: Global, first: &[u8]) -> Result<String, Fail> {
    let library = stacked(alloc, first)?;
    why_not(alloc, &library, b"C49999", Memories::Gates)
}

const BOTTOM: &[u8] = b"CHIP C0 { IN in; OUT out; PARTS: Nand(a=in, b=in, out=out); }";

#[test]
fn deep_chain(rt: HostRuntime) -> Result<(), Fail> {
    let fault = fault_of_last(rt.alloc(), BOTTOM)?;
    is_told(&rt, "C49999", &fault, "");
    Ok(())
}

const CIRCLE: &[u8] = b"CHIP C0 { IN in; OUT out; PARTS: C49999(in=in, out=out); }";

#[test]
fn deep_circle(rt: HostRuntime) -> Result<(), Fail> {
    let fault = fault_of_last(rt.alloc(), CIRCLE)?;
    is_told(&rt, "C49999", &fault, "C0: Recursive C49999");
    Ok(())
}

// A fault in the last chip that is come to.
const UNKNOWN: &[u8] = b"CHIP C0 { IN in; OUT out; PARTS: Foo(in=in, out=out); }";

#[test]
fn deep_fault(rt: HostRuntime) -> Result<(), Fail> {
    let fault = fault_of_last(rt.alloc(), UNKNOWN)?;
    is_told(&rt, "C49999", &fault, "C0: UnknownChip Foo");
    Ok(())
}
