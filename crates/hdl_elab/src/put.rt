//! A flat chip put in order.

ghost use Rattle.std.specs.Prelude.{ℕ, ◌<◌, ◌^◌, List, IfOk, length};
ghost use Rattle.std.specs.List.{All};
ghost use Rattle.netlist.specs.Order.{AreOrdered};
ghost use Rattle.netlist.specs.Renamed.{IsRenamed};
ghost use Rattle.net_order.specs.Reads.{AreClosed, IsCircle};
ghost use Rattle.hdl_elab.specs.Moved.{IsMoved};

use crate::moving::moved_pins;
use hdl_flatten::{Flat, Parts, PinAt};
use hdl_tree::List;
use net_order::{OrderError, Ordered, put_in_order};
use netlist::{Block, Netlist, Node};
use std::alloc::{AllocError, Global};

/// A chip as a netlist, with a directory: its pins, inputs first, and the parts in it, depth first in text order, each with its nodes.
#[derive(Drop)]
pub struct Elab {
    pub net: Netlist,
    pub pins: List<PinAt>,
    pub parts: Parts,
}

fn ordered(alloc: Global, nodes: &[Node], blocks: &[Block]) -> Result<Ordered, AllocError>
    requires nodes { length nodes.now < 2 ^ 32 }
    requires blocks { length blocks.now < 2 ^ 32 }
    requires closed { AreClosed nodes.now blocks.now }
    requires no_circle { (circle : List ℕ) → IsCircle nodes.now blocks.now circle → ⊥ }
    ensures { IfOk result (λ o. IsRenamed (record { nodes = nodes.now; blocks = blocks.now })
        o.net o.places.items) }
{
    match put_in_order(alloc, nodes, blocks) {
        Ok(ordered) => Ok(ordered),
        Err(OrderError::Memory) => Err(AllocError),
        Err(OrderError::Circle(_)) => unreachable!(),
    }
}

/// Puts the nodes of a flat chip in order, where no circle of them read each other within a cycle.
pub fn put_in_net(alloc: Global, flat: Flat) -> Result<Elab, AllocError>
    requires nodes { length flat.nodes < 2 ^ 32 }
    requires blocks { length flat.blocks < 2 ^ 32 }
    requires closed { AreClosed flat.nodes flat.blocks }
    requires pins { All (λ p. All (λ node. node < length flat.nodes) p.nodes) flat.pins }
    requires parts { All (λ p. All (λ node. node < length flat.nodes) p.outs) flat.parts }
    requires no_circle { (circle : List ℕ) → IsCircle flat.nodes flat.blocks circle → ⊥ }
    ensures moved { IfOk result (λ e. IsMoved flat e) }
    ensures ordered { IfOk result (λ e. AreOrdered e.net.nodes e.net.blocks) }
{
    let Flat {
        nodes,
        blocks,
        pins,
        mut parts,
    } = flat;
    let Ordered { net, places } = ordered(alloc, nodes.as_slice(), blocks.as_slice())?;
    let pins = moved_pins(alloc, pins.as_slice(), &places)?;
    parts.renumber(&places);
    net.ordered_law();
    Ok(Elab { net, pins, parts })
}
