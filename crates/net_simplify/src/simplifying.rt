//! The simplifier.

ghost use Rattle.std.specs.Prelude.{◌≡◌, ℕ, ◌-◌, ◌<◌, ◌^◌, IfOk, List, length};
ghost use Rattle.std.specs.List.{All};
ghost use Rattle.netlist.specs.Order.{AreOrdered};
ghost use Rattle.net_simplify.specs.Inner.Reach.{AreReached};
ghost use Rattle.net_simplify.specs.Inner.Trim.{ArePlaces};
ghost use Rattle.net_simplify.specs.Inner.Last.{HasMarked, HasReached};
ghost use Rattle.net_simplify.specs.Inner.Twice.{IsWhole};
ghost use Rattle.net_simplify.specs.Twice.{IsFoldedTwice};
ghost use Rattle.net_simplify.specs.Simplified.{IsSimplified};

use crate::middle::folded_net;
use crate::moving::{moved_blocks, moved_numbers};
use crate::reach::reach;
use crate::trim::{places_of, trimmed_nodes};
use netlist::{Block, Netlist, Node};
use std::alloc::{AllocError, Global};

/// A netlist in normal form, and the place in it of each node that was to be kept.
#[derive(Drop)]
pub struct Simple {
    pub net: Netlist,
    pub place: Vec<u32>,
}

// The marked nodes alone.
fn marked_net(
    alloc: Global,
    nodes: &[Node],
    blocks: &[Block],
    marks: &[bool],
    places: &[u32],
) -> Result<Netlist, AllocError>
    requires ordered { AreOrdered nodes.now blocks.now }
    requires reached { (kept : List ℕ)
        × AreReached (record { nodes = nodes.now; blocks = blocks.now }) kept marks.now }
    requires places { ArePlaces marks.now places.now }
    ensures { IfOk result (λ net. HasMarked (record { nodes = nodes.now; blocks = blocks.now })
        marks.now places.now net) }
{
    let trimmed = trimmed_nodes(alloc, nodes, marks, places)?;
    let moved = moved_blocks(alloc, blocks, places)?;
    match Netlist::new(trimmed, moved) {
        Ok(net) => Ok(net),
        Err(_) => unreachable!(),
    }
}

// What is reached alone.
fn reached_net(
    alloc: Global,
    nodes: &[Node],
    blocks: &[Block],
    kept: &[u32],
) -> Result<Simple, AllocError>
    requires ordered { AreOrdered nodes.now blocks.now }
    requires kept { All (λ k. k < length nodes.now) kept.now }
    ensures { IfOk result (λ s. HasReached (record { nodes = nodes.now; blocks = blocks.now }) s.net
        kept.now s.place.items) }
{
    let marks = reach(alloc, nodes, blocks, kept)?;
    let places = places_of(alloc, &marks)?;
    let place = moved_numbers(alloc, kept, &places)?;
    let net = marked_net(alloc, nodes, blocks, &marks, &places)?;
    Ok(Simple { net, place })
}

// The same of nodes and blocks.
fn simplified(
    alloc: Global,
    nodes: &[Node],
    blocks: &[Block],
    keep: &[u32],
) -> Result<Simple, AllocError>
    requires ordered { AreOrdered nodes.now blocks.now }
    requires kept { All (λ k. k < length nodes.now) keep.now }
    requires few { length nodes.now < 2 ^ 32 - 1 }
    ensures { IfOk result (λ s. IsWhole (record { nodes = nodes.now; blocks = blocks.now }) s.net
        keep.now s.place.items) }
{
    let middle = folded_net(alloc, nodes, blocks)?;
    let kept = moved_numbers(alloc, keep, &middle.to)?;
    reached_net(alloc, middle.net.nodes(), middle.net.blocks(), &kept)
}

/// A netlist that shows the same of the kept nodes, in normal form. It has no two Nands alike, one Zero at most, no double negation, no
/// constant that a gate reads but in a One, and no dead node. Fails only where memory is wanted.
pub fn simplify(alloc: Global, net: &Netlist, keep: &[u32]) -> Result<Simple, AllocError>
    requires kept { All (λ k. k < length net.now.nodes) keep.now }
    requires few { length net.now.nodes < 2 ^ 32 - 1 }
    ensures simplified { IfOk result (λ s. IsSimplified net.now s.net keep.now s.place.items) }
    ensures folded { IfOk result (λ s. IsFoldedTwice net.now s.net keep.now s.place.items) }
{
    simplified(alloc, net.nodes(), net.blocks(), keep)
}
