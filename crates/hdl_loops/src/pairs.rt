//! Which bits of some pins lead to which bits of others. A search goes out from each bit of the ones, and takes time by what it reaches.

ghost use Rattle.std.specs.Prelude.{◌≡◌, ℕ, true, List, [], OnOk, IfOk};
ghost use Rattle.hdl_plans.specs.Loops.{bit_at};
ghost use Rattle.hdl_plans.specs.Ways.{Way, HasBit};
ghost use Rattle.hdl_loops.specs.Inner.Hops.{bit, HasHop};
ghost use Rattle.hdl_loops.specs.Inner.Bundles.{AreDoors, hops_in};
ghost use Rattle.hdl_loops.specs.Inner.Pairs.{has_pair, has_name, AreWays, KeepsPairs, KeepsNames, IsOnlyMore, PinLeads, BitLeads};

use crate::bundle::Bundle;
use crate::doors::Doors;
use crate::hops::BitOf;
use crate::tree::{Node, Tree};
use hdl_tree::Pin;
use indexmap::IndexSet;
use std::alloc::{AllocError, Global};

/// A bit, and one that it leads to.
#[derive(Clone, Copy, PartialEq, Eq, Hash)]
pub struct Pair<'a> {
    pub from: BitOf<'a>,
    pub to: BitOf<'a>,
}

/// The names of pins.
#[derive(Drop)]
pub struct PinNames<'a> {
    names: IndexSet<&'a [u8]>,
}

/// Adds the pair of a bit and one that it reaches, if that is of a pin of these names.
fn add_pair<'a>(
    ends: &PinNames<'a>,
    from: BitOf<'a>,
    node: &Node<'a>,
    pairs: &mut IndexSet<Pair<'a>>,
) -> Result<(), AllocError>
    ensures kept { OnOk result (KeepsPairs pairs.old.keys pairs.new.keys) }
    ensures only { OnOk result
        (IsOnlyMore pairs.old.keys pairs.new.keys (bit from.entry) (bit node.now.hop.to)) }
    ensures there { OnOk result (has_name ends.now node.now.hop.to.name.now ≡ true
        → has_pair pairs.new.keys (bit from.entry) (bit node.now.hop.to) ≡ true) }
{
    let to = node.hop.to;
    if !ends.names.contains(&to.name) {
        return Ok(());
    }
    match pairs.insert(Pair { from, to }) {
        Err(_) => Err(AllocError),
        Ok(_) => Ok(()),
    }
}

/// Adds the pairs of a bit and what it leads to.
fn add_bit<'a>(
    alloc: Global,
    graph: &[Bundle<'a>],
    doors: &Doors<'a>,
    from: BitOf<'a>,
    ends: &PinNames<'a>,
    pairs: &mut IndexSet<Pair<'a>>,
) -> Result<(), AllocError>
    requires linked { AreDoors graph.now doors.now }
    requires right { AreWays (hops_in graph.now) pairs.old.keys }
    ensures right { OnOk result (AreWays (hops_in graph.now) pairs.new.keys) }
    ensures kept { OnOk result (KeepsPairs pairs.old.keys pairs.new.keys) }
    ensures there { OnOk result (BitLeads (hops_in graph.now) ends.now pairs.new.keys (bit from.entry)) }
{
    let tree = Tree::of(alloc, graph, doors, from)?;
    let nodes = tree.reached();
    for node in nodes {
        add_pair(ends, from, node, pairs)?;
    }
    Ok(())
}

/// Adds the pairs of the bits of a pin and what they lead to.
fn add_pin<'a>(
    alloc: Global,
    graph: &[Bundle<'a>],
    doors: &Doors<'a>,
    pin: &'a Pin,
    ends: &PinNames<'a>,
    pairs: &mut IndexSet<Pair<'a>>,
) -> Result<(), AllocError>
    requires linked { AreDoors graph.now doors.now }
    requires right { AreWays (hops_in graph.now) pairs.old.keys }
    ensures right { OnOk result (AreWays (hops_in graph.now) pairs.new.keys) }
    ensures kept { OnOk result (KeepsPairs pairs.old.keys pairs.new.keys) }
    ensures there { OnOk result (PinLeads (hops_in graph.now) ends.now pairs.new.keys pin.now) }
{
    let width = u32::from(pin.width.unwrap_or(1));
    for b in 0..width {
        let from = BitOf {
            name: pin.name.as_bytes(),
            bit: b,
        };
        add_bit(alloc, graph, doors, from, ends, pairs)?;
    }
    Ok(())
}

fn add_name<'a>(pin: &'a Pin, ends: &mut PinNames<'a>) -> Result<(), AllocError>
    ensures kept { OnOk result (KeepsNames ends.old ends.new) }
    ensures there { OnOk result (has_name ends.new pin.now.name ≡ true) }
{
    match ends.names.insert(pin.name.as_bytes()) {
        Err(_) => Err(AllocError),
        Ok(_) => Ok(()),
    }
}

/// The names of these pins.
fn ends_of<'a>(alloc: Global, pins: &'a [Pin]) -> Result<PinNames<'a>, AllocError>
    ensures { IfOk result
        (λ ends. (m : List ℕ) (k : ℕ) → HasBit pins.now m k → has_name ends m ≡ true) }
{
    let mut ends = PinNames {
        names: IndexSet::new(alloc),
    };
    for pin in pins {
        add_name(pin, &mut ends)?;
    }
    Ok(ends)
}

/// The pairs of a bit of the first pins and a bit of the second to which it leads.
pub(crate) fn pairs_of<'a>(
    alloc: Global,
    graph: &[Bundle<'a>],
    doors: &Doors<'a>,
    first: &'a [Pin],
    second: &'a [Pin],
) -> Result<IndexSet<Pair<'a>>, AllocError>
    requires linked { AreDoors graph.now doors.now }
    ensures right { IfOk result (λ s. AreWays (hops_in graph.now) s.keys) }
    ensures there { IfOk result (λ s. (n m : List ℕ) (b k : ℕ) → HasBit first.now n b
        → HasBit second.now m k → Way (HasHop (hops_in graph.now)) (bit_at [] n b) (bit_at [] m k)
        → has_pair s.keys (bit_at [] n b) (bit_at [] m k) ≡ true) }
{
    let ends = ends_of(alloc, second)?;
    let mut pairs = IndexSet::new(alloc);
    for pin in first {
        add_pin(alloc, graph, doors, pin, &ends, &mut pairs)?;
    }
    Ok(pairs)
}
