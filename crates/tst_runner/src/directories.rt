//! What of an elaborated chip has a name in a script.

ghost use Rattle.std.specs.Prelude.{◌≡◌, ℕ, List, None, Some, IfOk, MatchOption, drop, map, take};
ghost use Rattle.std.specs.List.{All, Contains};
ghost use Rattle.hdl_tree.specs.Chips.{find_entry, pin_width};
ghost use Rattle.hdl_check.specs.Inner.Progress.{IsCatalog};
ghost use Rattle.hdl_check.specs.Whole.{AreDistinct};
ghost use Rattle.hdl_flatten.specs.Kept.{part_listed};
ghost use Rattle.script_device.specs.Directory.{part_named};
ghost use Rattle.tst_runner.specs.Directories.{IsDirectory, first_part, out_among, part_nodes, pin_nodes};

use hdl_check::Catalog;
use hdl_elab::Elab;
use hdl_flatten::{ListedPart, Parts, PinAt};
use hdl_tree::{Entry, Library, List, Memories, Pin};
use name_table::Table;
use script_device::{Directory, PartNodes, PinNodes};
use std::alloc::{AllocError, Global};

fn copied(alloc: Global, nodes: &[u32]) -> Result<List<u32>, AllocError>
    ensures { IfOk result (λ l. l ≡ nodes.now) }
{
    Ok(List::of(Vec::from_slice(alloc, nodes)?))
}

fn pin_nodes(alloc: Global, pin: &PinAt) -> Result<PinNodes, AllocError>
    ensures { IfOk result (λ p. p ≡ pin_nodes pin.now) }
{
    Ok(PinNodes {
        name: pin.name.clone()?,
        nodes: copied(alloc, pin.nodes.as_slice())?,
    })
}

/// Pins that are listed, with the nodes of their bits.
pub fn all_pins(alloc: Global, pins: &[PinAt]) -> Result<List<PinNodes>, AllocError>
    ensures { IfOk result (λ l. l ≡ map pin_nodes pins.now) }
{
    let mut named = Vec::new(alloc);
    for pin in pins {
        named.push(pin_nodes(alloc, pin)?)?;
    }
    Ok(List::of(named))
}

fn width(pin: &Pin) -> usize
    ensures { result ≡ pin_width pin.now }
{
    pin.width.unwrap_or(1) as usize
}

// The first n of these items, and the others.
fn cut<T>(items: &[T], n: usize) -> (&[T], &[T])
    ensures own { result.0.now ≡ take n items.now }
    ensures others { result.1.now ≡ drop n items.now }
{
    if n < items.len() {
        items.split_at(n)
    } else {
        (items, &[])
    }
}

// The nodes of the pin `out` among these pins, whose nodes stand one after the other.
fn out_among<'a>(pins: &[Pin], nodes: &'a [u32]) -> Option<&'a [u32]>
    ensures { MatchOption result (out_among pins.now nodes.now ≡ None)
        (λ out. out_among pins.now nodes.now ≡ Some out.now) }
{
    let mut rest = nodes;
    for pin in pins {
        let (own, others) = cut(rest, width(pin));
        if pin.name.as_bytes() == b"out".as_slice() {
            return Some(own);
        }
        rest = others;
    }
    None
}

/// The chip of this name.
pub fn entry_named<'a>(entries: &'a [Entry], name: &[u8]) -> Option<&'a Entry>
    ensures { MatchOption result (find_entry entries.now name.now ≡ None)
        (λ entry. find_entry entries.now name.now ≡ Some entry.now) }
{
    for entry in entries {
        if name == entry.name.as_bytes() {
            return Some(entry);
        }
    }
    None
}

fn out_of<'a>(
    alloc: Global,
    catalog: &Catalog<'a>,
    part: ListedPart<'a>,
) -> Result<Option<List<u32>>, AllocError>
    requires { IsCatalog catalog.now }
    ensures { IfOk result
        (λ out. out ≡ (part_nodes catalog.now.entries.now (part_listed part.entry)).out) }
{
    let Some(k) = catalog.place(part.chip.as_bytes()) else {
        return Ok(None);
    };
    let entry = &catalog.entries[k];
    match out_among(entry.chip.outputs.as_slice(), part.outs) {
        None => Ok(None),
        Some(nodes) => Ok(Some(copied(alloc, nodes)?)),
    }
}

/// A part that is listed, with the nodes of its pin `out`.
pub fn part_nodes<'a>(
    alloc: Global,
    catalog: &Catalog<'a>,
    part: ListedPart<'a>,
) -> Result<PartNodes, AllocError>
    requires { IsCatalog catalog.now }
    ensures { IfOk result (λ p. p ≡ part_nodes catalog.now.entries.now (part_listed part.entry)) }
{
    Ok(PartNodes {
        chip: part.chip.clone()?,
        out: out_of(alloc, catalog, part)?,
        block: part.block,
    })
}

/// Of each chip in it the first part, of parts depth first in text order.
pub fn first_parts<'a>(
    alloc: Global,
    catalog: &Catalog<'a>,
    parts: &'a Parts,
) -> Result<List<PartNodes>, AllocError>
    requires { IsCatalog catalog.now }
    ensures first { IfOk result (λ l. (name : List ℕ)
        → part_named l name ≡ first_part catalog.now.entries.now parts.now name) }
    ensures among { IfOk result
        (λ l. All (Contains (map (part_nodes catalog.now.entries.now) parts.now)) l) }
{
    let mut named = Vec::new(alloc);
    let mut seen = Table::new(alloc);
    for k in 0..parts.len() {
        let part = parts.get(k);
        let new = seen.enter(part.chip.as_bytes(), ())?;
        if new {
            named.push(part_nodes(alloc, catalog, part)?)?;
        }
    }
    Ok(List::of(named))
}

// The same among the chips of a library, which have different names.
fn parts_named<'a>(
    alloc: Global,
    library: &'a Library,
    parts: &'a Parts,
) -> Result<List<PartNodes>, AllocError>
    requires { AreDistinct library.now.entries }
    ensures first { IfOk result
        (λ l. (name : List ℕ) → part_named l name ≡ first_part library.now.entries parts.now name) }
    ensures among { IfOk result
        (λ l. All (Contains (map (part_nodes library.now.entries) parts.now)) l) }
{
    let catalog = Catalog::new(alloc, library, Memories::Gates)?;
    first_parts(alloc, &catalog, parts)
}

/// What of an elaborated chip has a name. The chips of the library have different names.
pub fn directory_of(
    alloc: Global,
    library: &Library,
    top: &Entry,
    e: &Elab,
) -> Result<Directory, AllocError>
    requires { AreDistinct library.now.entries }
    ensures directory { IfOk result (λ d. IsDirectory library.now.entries top.now e.now d) }
    ensures among { IfOk result
        (λ d. All (Contains (map (part_nodes library.now.entries) e.now.parts)) d.parts) }
{
    let (inputs, outputs) = cut(e.pins.as_slice(), top.chip.inputs.as_slice().len());
    Ok(Directory {
        inputs: all_pins(alloc, inputs)?,
        outputs: all_pins(alloc, outputs)?,
        parts: parts_named(alloc, library, &e.parts)?,
    })
}
