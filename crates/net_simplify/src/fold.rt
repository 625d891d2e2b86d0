//! Nodes folded in one pass: equal gates become one (structural hashing), and constants that gates read and double negations go.

ghost use Rattle.std.specs.Prelude.{◌≡◌, ℕ, ◌-◌, ◌<◌, ◌^◌, IfOk, List, OnOk, Some, length, map, slice_get, slice_index};
ghost use Rattle.netlist.specs.Order.{AreOrdered, FitsAt};
ghost use Rattle.netlist.specs.declared.node.Block.{Block};
ghost use Rattle.net_simplify.specs.Normal.{HasNoTwins};
ghost use Rattle.net_simplify.specs.Inner.Gates.{AreNormal, IsMade};
ghost use Rattle.net_simplify.specs.Inner.Folding.{AreFolded, IsPut};

use crate::gates::Made;
use netlist::{Block, Node};
use std::alloc::{AllocError, Global};

// Puts what stands for a node, where `to` has the places of the nodes before it.
fn put_node(made: &mut Made, node: Node, to: &[u32]) -> Result<u32, AllocError>
    requires made { IsMade made.old }
    requires fits { (n : ℕ) × (blocks : List Block) × FitsAt (length to.now) n blocks node }
    requires to { (i : ℕ) → i < length to.now → slice_index to.now i < length made.old.nodes.items }
    requires few { length made.old.nodes.items < 2 ^ 32 - 1 }
    ensures put { IfOk result
        (λ k. IsPut made.old.nodes.items made.new.nodes.items node (slice_index to.now) k) }
    ensures made { OnOk result (IsMade made.new) }
{
    match node {
        Node::Zero => made.put_zero(),
        Node::Nand(i, j) => made.put_nand(to[i as usize], to[j as usize]),
        _ => made.put_source(node),
    }
}

/// Nodes, and the place of each old node among them.
#[derive(Drop)]
pub(crate) struct Folded {
    pub nodes: Vec<Node>,
    pub to: Vec<u32>,
}

/// Folds nodes. Flip-flops read the numbers of old nodes as yet.
pub(crate) fn fold(alloc: Global, nodes: &[Node], blocks: &[Block]) -> Result<Folded, AllocError>
    requires ordered { AreOrdered nodes.now blocks.now }
    requires few { length nodes.now < 2 ^ 32 - 1 }
    ensures folded { IfOk result
        (λ f. AreFolded nodes.now f.nodes.items f.to.items (length nodes.now)) }
    ensures normal { IfOk result (λ f. AreNormal f.nodes.items) }
    ensures twins { IfOk result (λ f. HasNoTwins f.nodes.items) }
{
    let mut made = Made::new(alloc);
    let mut to = Vec::new(alloc);
    for k in 0..nodes.len() {
        let place = put_node(&mut made, nodes[k], &to)?;
        to.push(place)?;
    }
    let nodes = made.into_nodes();
    Ok(Folded { nodes, to })
}
