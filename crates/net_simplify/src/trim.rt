//! The nodes that are reached, alone: dead nodes go.

ghost use Rattle.std.specs.Prelude.{◌≡◌, ℕ, ◌<◌, ◌^◌, IfOk, List, Some, length, map, slice_get, slice_index};
ghost use Rattle.std.specs.List.{All};
ghost use Rattle.netlist.specs.declared.node.Node.TheVariants.{Flip, Nand, Pin};
ghost use Rattle.netlist.specs.declared.node.Block.{Block};
ghost use Rattle.netlist.specs.Order.{AreOrdered};
ghost use Rattle.netlist.specs.Renamed.{renamed_node};
ghost use Rattle.netlist.specs.Folded.{moved_block};
ghost use Rattle.net_simplify.specs.Inner.Reach.{AreReached, IsMarked};
ghost use Rattle.net_simplify.specs.Inner.Trim.{ArePlaces, AreTrimmed};

use crate::moving::moved_blocks;
use hdl_tree::List;
use netlist::{Block, Netlist, Node};
use std::alloc::{AllocError, Global};

/// The places of nodes: each marked one comes after those before it.
pub(crate) fn places_of(alloc: Global, marks: &[bool]) -> Result<Vec<u32>, AllocError>
    requires { length marks.now < 2 ^ 32 }
    ensures { IfOk result (λ v. ArePlaces marks.now v.items) }
{
    let mut places = Vec::new(alloc);
    let mut next = 0;
    for mark in marks {
        places.push(next)?;
        if *mark {
            next += 1;
        }
    }
    Ok(places)
}

fn trimmed_node(node: Node, places: &[u32]) -> Node
    requires nand { (i j : ℕ) → node ≡ Nand i j
        → (i < length places.now) × (j < length places.now) }
    requires flip { (i : ℕ) → node ≡ Flip i → i < length places.now }
    ensures { result ≡ renamed_node places.now node }
{
    match node {
        Node::Nand(i, j) => Node::Nand(places[i as usize], places[j as usize]),
        Node::Flip(i) => Node::Flip(places[i as usize]),
        _ => node,
    }
}

/// The marked nodes at their places.
pub(crate) fn trimmed_nodes(
    alloc: Global,
    nodes: &[Node],
    marks: &[bool],
    places: &[u32],
) -> Result<List<Node>, AllocError>
    requires ordered { (blocks : List Block) × AreOrdered nodes.now blocks }
    requires marks { length marks.now ≡ length nodes.now }
    requires pins { (k : ℕ) → slice_get nodes.now k ≡ Some Pin → IsMarked marks.now k }
    requires places { ArePlaces marks.now places.now }
    ensures { IfOk result (λ l. AreTrimmed nodes.now marks.now places.now l (length nodes.now)) }
{
    let mut kept = Vec::new(alloc);
    for k in 0..nodes.len() {
        if marks[k] {
            kept.push(trimmed_node(nodes[k], places))?;
        }
    }
    Ok(List::of(kept))
}
