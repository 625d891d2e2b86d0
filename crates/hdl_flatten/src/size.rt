//! How many nodes and parts a tree has.

ghost use Rattle.std.specs.Prelude.{◌≡◌, ℕ, ◌+◌, ◌≤◌, ◌<◌, List, IfOk, IsSome, Some, length, slice_get};
ghost use Rattle.hdl_tree.specs.Chips.{end_of, find_chip, find_entry};
ghost use Rattle.hdl_tree.specs.declared.library.Entry.{Entry};
ghost use Rattle.hdl_check.specs.Inner.Progress.{IsCatalog, chips_of};
ghost use Rattle.hdl_check.specs.Whole.{AreDistinct, chips_in, TopIsFaultless};
ghost use Rattle.hdl_flatten.specs.Trees.{end_nodes, bit_count, capped_count, HasSize};
ghost use Rattle.hdl_flatten.specs.Ends.{EndsHavePins};
ghost use Rattle.hdl_flatten.specs.Inner.Nests.{IsNest};
ghost use Rattle.hdl_flatten.specs.Inner.Sizes.{joined_size, all_joined, AreSizes, IsSizeAt, IsSmall};

use crate::nest::{Nest, Nested, entry_at, nest_of};
use hdl_check::Catalog;
use hdl_tree::{End, Library, Memories, Name, Pin, find_end};
use std::alloc::{AllocError, Global};

/// How large a tree is: how many nodes it needs, and how many parts it has. A number past 1,000,000,000 stays as that.
#[derive(Clone, Copy, Debug, PartialEq, Eq)]
pub struct Size {
    pub nodes: u32,
    pub parts: u32,
}

/// Past this a number stays as it is.
const MANY: u32 = 1_000_000_000;

/// The sum, if it is not past that.
pub(crate) fn add(a: u32, b: u32) -> u32
    requires { a ≤ 1000000000 }
    ensures { result ≡ capped_count (a + b) }
{
    a.saturating_add(b).min(MANY)
}

/// How many nodes an end has.
pub(crate) fn count_nodes(end: Option<End>) -> u32
    ensures { result ≡ end_nodes end }
{
    match end {
        None => 0,
        Some(End::Nand) | Some(End::Dff) => 1,
        Some(End::Keyboard) | Some(End::Rom) | Some(End::Block(_)) => 16,
    }
}

/// A tree with one more part of this size.
pub(crate) fn join(size: Size, inner: Size) -> Size
    requires { IsSmall size }
    ensures { result ≡ joined_size size inner }
{
    Size {
        nodes: add(size.nodes, inner.nodes),
        parts: add(add(size.parts, 1), inner.parts),
    }
}

/// The size of a chip, whose parts have these sizes, without its pins.
fn size_of(catalog: &Catalog, nested: &Nested, sizes: &[Size]) -> Size
    requires catalog { IsCatalog catalog.now }
    requires nest { IsSizeAt (chips_of catalog.now) nested.now sizes.now }
    ensures { (chip : Entry) → slice_get catalog.now.entries.now nested.now.number ≡ Some chip
        → result ≡ all_joined sizes.now
        (record { nodes = end_nodes (end_of catalog.now.memories chip); parts = 0 })
        nested.now.parts.items }
{
    let entry = entry_at(catalog, nested.number);
    let mut size = Size {
        nodes: count_nodes(find_end(catalog.memories, entry)),
        parts: 0,
    };
    let mut rest = nested.parts.as_slice();
    while let Some((place, others)) = rest.split_first() {
        size = join(size, sizes[*place]);
        rest = others;
    }
    size
}

/// The sizes of the chips of a tree, without their pins.
pub(crate) fn sizes_of(
    alloc: Global,
    catalog: &Catalog,
    nest: &[Nested],
) -> Result<Vec<Size>, AllocError>
    requires catalog { IsCatalog catalog.now }
    requires nest { IsNest (chips_of catalog.now) nest.now }
    ensures { IfOk result (λ v. AreSizes (chips_of catalog.now) nest.now v.items) }
{
    let mut sizes = Vec::new(alloc);
    for nested in nest {
        let size = size_of(catalog, nested, &sizes);
        sizes.push(size)?;
    }
    Ok(sizes)
}

/// How many bits pins have.
fn count_bits(pins: &[Pin]) -> u32
    ensures { result ≡ capped_count (bit_count pins.now) }
{
    let mut bits = 0;
    let mut rest = pins;
    while let Some((pin, others)) = rest.split_first() {
        bits = add(bits, u32::from(pin.width.unwrap_or(1)));
        rest = others;
    }
    bits
}

/// How many nodes a chip without faults needs and how many parts it has. No chip is expanded, so that a tree of more parts than can be
/// listed is reported at once.
pub fn count(
    alloc: Global,
    library: &Library,
    top: &Name,
    memories: Memories,
) -> Result<Size, AllocError>
    requires distinct { AreDistinct library.now.entries }
    requires there { IsSome (find_entry library.now.entries top.now) }
    requires fine { TopIsFaultless (chips_in library.now.entries memories) top.now }
    requires ends { EndsHavePins (chips_in library.now.entries memories) }
    ensures { IfOk result (λ size. (chip : Entry)
        → find_chip (chips_in library.now.entries memories) top.now ≡ Some chip
        → HasSize (chips_in library.now.entries memories) chip size) }
{
    let catalog = Catalog::new(alloc, library, memories)?;
    let nest = nest_of(alloc, &catalog, top.as_bytes())?;
    let sizes = sizes_of(alloc, &catalog, &nest.chips)?;
    let size = sizes[nest.top];
    let entry = entry_at(&catalog, nest.chips[nest.top].number);
    let nodes = add(count_bits(entry.chip.inputs.as_slice()), size.nodes);
    Ok(Size {
        nodes: add(nodes, 2),
        parts: size.parts,
    })
}
