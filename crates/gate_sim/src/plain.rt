//! The plain plan: a slot for each node, in the order of the nodes.

ghost use Rattle.std.specs.Prelude.{◌≡◌, ℕ, ◌+◌, ◌<◌, ◌^◌, length, true, IfOk, OnOk, Some, nat_eq, slice_get, slice_index, if◌then◌else◌};
ghost use Rattle.netlist.specs.declared.node.Node.{Node};
ghost use Rattle.netlist.specs.declared.node.Block.{Block};
ghost use Rattle.netlist.specs.declared.node.Node.TheVariants.{Nand, Flip, Word};
ghost use Rattle.netlist.specs.Order.{AreOrdered};
ghost use Rattle.gate_sim.specs.Inner.Plain.{placed_op, plain_lane, plain_node, plain_op, plain_place, plain_take};
ghost use Rattle.gate_sim.specs.Inner.Plans.{IsPlan, place_of};
ghost use Rattle.gate_sim.specs.Inner.Takes.{AreTakes};

use crate::packing::packed_plan;
use crate::plan::{Lane, NONE, Op, Plan, Take, is_plan, lone_of};
use crate::takes::are_takes;
use netlist::{Block, Node};
use std::alloc::{AllocError, Global};

// The lane in which a node has its place.
fn lane_of(node: Node) -> u8
    ensures { result ≡ plain_lane node }
{
    match node {
        Node::Word { bit, .. } => bit,
        Node::Pin => 0,
        Node::Nand(_, _) => 0,
        Node::Flip(_) => 0,
        Node::Zero => 0,
    }
}

// What a lane of the slot of node k stands for.
fn lane_node(node: Node, k: u32, l: u8) -> u32
    ensures { result ≡ plain_node k node l }
{
    match node {
        Node::Word { bit, .. } => { if l == bit { k } else { NONE } }
        Node::Pin => first_alone(k, l),
        Node::Flip(_) => first_alone(k, l),
        Node::Nand(_, _) => k,
        Node::Zero => k,
    }
}

// A node in the first lane alone.
fn first_alone(k: u32, l: u8) -> u32
    ensures { result ≡ (if nat_eq l 0 then k else 4294967295) }
{
    if l == 0 { k } else { NONE }
}

// The operation of a node, where the nodes that it reads have places.
fn node_op(node: Node, places: &[Lane]) -> Op
    requires inputs { (i j : ℕ) → node ≡ Nand i j
        → (i < length places.now) × (j < length places.now) }
    requires bit { (b at : ℕ) → node ≡ Word b at → at < 16 }
    ensures { result ≡ placed_op places.now node }
{
    match node {
        Node::Nand(i, j) => lone_of(places[i as usize], places[j as usize]),
        Node::Word { block, bit } => Op::Read {
            block,
            mask: 1 << bit,
            address: None,
        },
        Node::Pin => Op::Held,
        Node::Flip(_) => Op::Held,
        Node::Zero => Op::Zeros,
    }
}

fn op_of(nodes: &[Node], k: usize, blocks: &[Block], places: &[Lane]) -> Op
    requires node { k < length nodes.now }
    requires ordered { AreOrdered nodes.now blocks.now }
    requires long { length places.now ≡ k }
    requires places { (i : ℕ) → i < k → place_of places.now i ≡ plain_place nodes.now i }
    ensures { (node : Node) → slice_get nodes.now k ≡ Some node → result ≡ plain_op nodes.now node }
{
    node_op(nodes[k], places)
}

// No lane takes anything.
fn no_take(slot: u32) -> Take
    ensures { result ≡ record { slot = slot; source = slot; down = 0; mask = 0 } }
{
    Take {
        slot,
        source: slot,
        down: 0,
        mask: 0,
    }
}

// What a node takes, where it is a flip-flop.
fn node_take(node: Node, k: u32, nodes: &[Node]) -> Take
    requires { (i : ℕ) → node ≡ Flip i → i < length nodes.now }
    ensures { result ≡ plain_take nodes.now k node }
{
    match node {
        Node::Flip(i) => Take {
            slot: k,
            source: i,
            down: lane_of(nodes[i as usize]),
            mask: 1,
        },
        Node::Pin => no_take(k),
        Node::Nand(_, _) => no_take(k),
        Node::Word { .. } => no_take(k),
        Node::Zero => no_take(k),
    }
}

// What node k takes, where it is a flip-flop.
fn take_of(nodes: &[Node], k: usize, blocks: &[Block]) -> Take
    requires node { k < length nodes.now }
    requires ordered { AreOrdered nodes.now blocks.now }
    ensures { (node : Node) → slice_get nodes.now k ≡ Some node
        → result ≡ plain_take nodes.now k node }
{
    node_take(nodes[k], k as u32, nodes)
}

fn push_lanes(lanes: &mut Vec<u32>, node: Node, k: u32) -> Result<(), AllocError>
    ensures long { OnOk result (length lanes.new.items ≡ length lanes.old.items + 16) }
    ensures kept { OnOk result ((m : ℕ) → m < length lanes.old.items → slice_index lanes.new.items m
        ≡ slice_index lanes.old.items m) }
    ensures more { OnOk result ((l : ℕ) → l < 16
        → slice_index lanes.new.items (length lanes.old.items + l) ≡ plain_node k node l) }
{
    for l in 0..16u8 {
        lanes.push(lane_node(node, k, l))?;
    }
    Ok(())
}

/// A slot for each node.
fn plain_plan(alloc: Global, nodes: &[Node], blocks: &[Block]) -> Result<Plan, AllocError>
    requires { AreOrdered nodes.now blocks.now }
    ensures plan { IfOk result (λ plan. IsPlan nodes.now blocks.now plan.ops.items plan.lanes.items
        plan.places.items) }
    ensures takes { IfOk result (λ plan. AreTakes nodes.now (length plan.ops.items) plan.lanes.items
        plan.places.items plan.takes.items) }
{
    let mut ops = Vec::new(alloc);
    let mut lanes = Vec::new(alloc);
    let mut places: Vec<Lane> = Vec::new(alloc);
    let mut takes = Vec::new(alloc);
    for k in 0..nodes.len() {
        let op = op_of(nodes, k, blocks, &places);
        ops.push(op)?;
        push_lanes(&mut lanes, nodes[k], k as u32)?;
        let at = lane_of(nodes[k]);
        places.push(Lane { slot: k as u32, at })?;
        takes.push(take_of(nodes, k, blocks))?;
    }
    Ok(Plan {
        ops,
        lanes,
        places,
        takes,
        taken: Vec::new(alloc),
    })
}

// Whether a plan is one of these nodes.
fn is_right(nodes: &[Node], blocks: &[Block], plan: &Plan) -> bool
    ensures plan { result ≡ true → IsPlan nodes.now blocks.now plan.now.ops.items
        plan.now.lanes.items plan.now.places.items }
    ensures takes { result ≡ true → AreTakes nodes.now (length plan.now.ops.items)
        plan.now.lanes.items plan.now.places.items plan.now.takes.items }
{
    if !is_plan(nodes, blocks, &plan.ops, &plan.lanes, &plan.places) {
        return false;
    }
    are_takes(
        plan.ops.len(),
        nodes,
        &plan.lanes,
        &plan.places,
        &plan.takes,
        &plan.taken,
    )
}

/// A plan of the nodes: that in which equal gates stand side by side, where it is one.
pub(crate) fn plan_of(alloc: Global, nodes: &[Node], blocks: &[Block]) -> Result<Plan, AllocError>
    requires { AreOrdered nodes.now blocks.now }
    ensures plan { IfOk result (λ plan. IsPlan nodes.now blocks.now plan.ops.items plan.lanes.items
        plan.places.items) }
    ensures takes { IfOk result (λ plan. AreTakes nodes.now (length plan.ops.items) plan.lanes.items
        plan.places.items plan.takes.items) }
{
    let plan = packed_plan(alloc, nodes, blocks)?;
    if is_right(nodes, blocks, &plan) {
        Ok(plan)
    } else {
        plain_plan(alloc, nodes, blocks)
    }
}
