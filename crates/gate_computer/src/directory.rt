//! What the wiring of the Computer takes from the directory of its netlist.

ghost use Rattle.std.specs.Prelude.{◌≡◌, ℕ, ◌≤◌, ◌++◌, IfOk, IsSome, OnOk, Some, length, map, reverse, slice_get};
ghost use Rattle.hdl_tree.specs.Chips.{find_entry};
ghost use Rattle.hdl_flatten.specs.declared.flat.PartAt.{PartAt};
ghost use Rattle.hdl_flatten.specs.Trees.{bit_count};
ghost use Rattle.gate_computer.specs.Inner.Directory.{AreTold, IsTold, block_named, first_named, outputs_of, outs_named, turned_nodes, wired_part};

use crate::wiring::WiredPart;
use hdl_flatten::PartAt;
use hdl_tree::{Library, List, Name, Pin};
use std::alloc::{AllocError, Global};

/// The first part of this chip, which is there.
fn part_named<'a>(parts: &'a [PartAt], chip: &[u8]) -> &'a PartAt
    requires { IsSome (first_named chip.now parts.now) }
    ensures { first_named chip.now parts.now ≡ Some result.now }
{
    for part in parts {
        if chip == part.chip.as_bytes() {
            return part;
        }
    }
    unreachable!()
}

/// The nodes of the outputs of the first part of this chip.
pub(crate) fn outs_named<'a>(parts: &'a [PartAt], chip: &[u8]) -> &'a [u32]
    requires { IsSome (first_named chip.now parts.now) }
    ensures { result.now ≡ outs_named chip.now parts.now }
{
    part_named(parts, chip).outs.as_slice()
}

/// The block of the first part of this chip, which has one.
pub(crate) fn block_named(parts: &[PartAt], chip: &[u8]) -> u32
    requires { IsSome (block_named chip.now parts.now) }
    ensures { block_named chip.now parts.now ≡ Some result }
{
    match part_named(parts, chip).block {
        Some(block) => block,
        None => unreachable!(),
    }
}

/// The outputs of the chip of this name, which is there.
fn outputs_of<'a>(library: &'a Library, chip: &Name) -> &'a [Pin]
    requires { IsSome (find_entry library.now.entries chip.now) }
    ensures { result.now ≡ outputs_of (find_entry library.now.entries chip.now) }
{
    for entry in library.entries.as_slice() {
        if chip.as_bytes() == entry.name.as_bytes() {
            return entry.chip.outputs.as_slice();
        }
    }
    unreachable!()
}

// These nodes, the last first.
fn push_back(turned: &mut Vec<u32>, nodes: &[u32]) -> Result<(), AllocError>
    ensures { OnOk result (turned.new.items ≡ turned.old.items ++ reverse nodes.now) }
{
    for k in (0..nodes.len()).rev() {
        turned.push(nodes[k])?;
    }
    Ok(())
}

/// The nodes of the bits of pins, in order of declaration, of each pin the highest first; they are given with the lowest
/// first.
fn turn(alloc: Global, pins: &[Pin], nodes: &[u32]) -> Result<Vec<u32>, AllocError>
    requires { bit_count pins.now ≤ length nodes.now }
    ensures { IfOk result (λ v. v.items ≡ turned_nodes pins.now nodes.now) }
{
    let mut turned = Vec::new(alloc);
    let mut rest = nodes;
    for pin in pins {
        let (own, others) = rest.split_at(usize::from(pin.width.unwrap_or(1)));
        push_back(&mut turned, own)?;
        rest = others;
    }
    Ok(turned)
}

fn wire_part(alloc: Global, library: &Library, part: &PartAt) -> Result<WiredPart, AllocError>
    requires { IsTold library.now.entries part.now }
    ensures { IfOk result (λ wired. wired ≡ wired_part library.now.entries part.now) }
{
    let pins = outputs_of(library, &part.chip);
    Ok(WiredPart {
        chip: part.chip.clone()?,
        outputs: List::of(turn(alloc, pins, part.outs.as_slice())?),
    })
}

/// The parts of the directory, each with the nodes of its outputs, of each pin the highest first.
pub(crate) fn wire_parts(
    alloc: Global,
    library: &Library,
    parts: &[PartAt],
) -> Result<List<WiredPart>, AllocError>
    requires { AreTold library.now.entries parts.now }
    ensures { IfOk result (λ wired. wired ≡ map (wired_part library.now.entries) parts.now) }
{
    let mut wired = Vec::new(alloc);
    for part in parts {
        wired.push(wire_part(alloc, library, part)?)?;
    }
    Ok(List::of(wired))
}
