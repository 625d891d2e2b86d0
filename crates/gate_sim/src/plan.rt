//! Plans: where the values of nodes stand, and which operations give them.

ghost use Rattle.std.specs.Prelude.{◌≡◌, ℕ, ◌+◌, ◌*◌, ◌<◌, ◌≤◌, ◌^◌, Bool, true, length, Some, slice_get, MatchOption};
ghost use Rattle.std.specs.List.{All};
ghost use Rattle.netlist.specs.declared.node.Node.TheVariants.{Nand, Word, Zero};
ghost use Rattle.netlist.specs.Order.{AreOrdered};
ghost use Rattle.netlist.specs.Reads.{address_in};
ghost use Rattle.gate_sim.specs.Inner.Plans.{node_at, place_of, lane_mask, lone_of, StandsAt, IsEarlier, IsHeld, IsHeldLane, IsGate, IsSuch, ArePair, IsPackedGate, IsGatesLane, IsLoneLane, IsSpreadLane, IsMoveLane, IsPlacedBefore, AreSideBySide, IsReadBit, IsReadLane, IsLane, IsPlaced, IsPlan};

use netlist::{Block, Node};
use word16::bit;

/// A lane of a slot.
#[derive(Clone, Copy)]
pub(crate) struct Lane {
    pub(crate) slot: u32,
    pub(crate) at: u8,
}

/// Sixteen lanes side by side: their values, and which of them are other ones than at the evaluation before.
#[derive(Clone, Copy)]
pub(crate) struct Slot {
    pub(crate) value: u16,
    pub(crate) change: u16,
}

/// An operation, which gives one slot its values. They are those of pins and flip-flops; zeros; gates of the lanes of two slots, where the
/// mask has its bit. Or one gate of two lanes, in all sixteen, with the masks of the two; one lane in all sixteen. Or lanes of a slot
/// moved up and then down, where the mask has its bit, and lanes of another slot elsewhere. Or the bits of a block's word, where the mask
/// has its bit. Where the address of the block stands side by side in one slot, that says from which lane on.
#[derive(Clone, Copy)]
pub(crate) enum Op {
    Held,
    Zeros,
    Gates {
        a: u32,
        b: u32,
        mask: u16,
    },
    Lone {
        a: Lane,
        b: Lane,
        mask_a: u16,
        mask_b: u16,
    },
    Spread {
        a: Lane,
    },
    Move {
        below: u32,
        a: u32,
        up: u8,
        down: u8,
        mask: u16,
    },
    Read {
        block: u32,
        mask: u16,
        address: Option<Lane>,
    },
}

/// What flip-flops of a slot take in at a tick: where the mask has its bit, the one in a lane takes what stands `down` lanes higher in the
/// source.
#[derive(Clone, Copy)]
pub(crate) struct Take {
    pub(crate) slot: u32,
    pub(crate) source: u32,
    pub(crate) down: u8,
    pub(crate) mask: u16,
}

/// Operations, one for each slot. For each lane of each slot the node that it stands for, sixteen a slot, and the place of each node.
/// What flip-flops take, and for each flip-flop's node which of these gives it what it takes.
#[derive(Drop)]
pub(crate) struct Plan {
    pub(crate) ops: Vec<Op>,
    pub(crate) lanes: Vec<u32>,
    pub(crate) places: Vec<Lane>,
    pub(crate) takes: Vec<Take>,
    pub(crate) taken: Vec<u32>,
}

/// The number of no node.
pub(crate) const NONE: u32 = 4294967295;

// The node that a lane stands for.
#[inline(always)]
pub(crate) fn node_at(lanes: &[u32], q: usize, l: usize) -> u32
    requires lane { l < 16 }
    requires slot { 16 * q + 16 ≤ length lanes.now }
    ensures { result ≡ node_at lanes.now q l }
{
    lanes[16 * q + l]
}

/// The word that has the bit of a lane alone.
pub(crate) fn lane_mask(at: u8) -> u16
    ensures { result ≡ lane_mask at }
{
    if at < 16 { 1u16 << at } else { 0 }
}

/// One gate of two lanes.
pub(crate) fn lone_of(a: Lane, b: Lane) -> Op
    ensures { result ≡ lone_of a b }
{
    Op::Lone {
        a,
        b,
        mask_a: lane_mask(a.at),
        mask_b: lane_mask(b.at),
    }
}

/// Whether the place of a node is lane l of slot q.
pub(crate) fn stands_at(places: &[Lane], k: usize, q: usize, l: usize) -> bool
    requires { k < length places.now }
    ensures { result ≡ true → StandsAt places.now k q l }
{
    let place = places[k];
    place.slot as usize == q && usize::from(place.at) == l
}

// Whether a lane is one of an earlier slot and stands for a node.
fn is_earlier(lanes: &[u32], q: usize, lane: Lane, k: u32) -> bool
    requires { 16 * q ≤ length lanes.now }
    ensures { result ≡ true → IsEarlier lanes.now q lane k }
{
    (lane.slot as usize) < q
        && lane.at < 16
        && node_at(lanes, lane.slot as usize, usize::from(lane.at)) == k
}

fn is_held(node: Node) -> bool
    ensures { result ≡ true → IsHeld node }
{
    match node {
        Node::Pin => true,
        Node::Flip(_) => true,
        Node::Nand(_, _) => false,
        Node::Word { .. } => false,
        Node::Zero => false,
    }
}

fn is_held_lane(nodes: &[Node], lanes: &[u32], places: &[Lane], q: usize, l: usize) -> bool
    requires lane { l < 16 }
    requires slot { 16 * q + 16 ≤ length lanes.now }
    requires places { length places.now ≡ length nodes.now }
    ensures { result ≡ true → IsHeldLane nodes.now lanes.now places.now q l }
{
    let k = node_at(lanes, q, l) as usize;
    k >= nodes.len() || is_held(nodes[k]) && stands_at(places, k, q, l)
}

fn is_zero(node: Node) -> bool
    ensures { result ≡ true → node ≡ Zero }
{
    match node {
        Node::Zero => true,
        Node::Pin => false,
        Node::Flip(_) => false,
        Node::Nand(_, _) => false,
        Node::Word { .. } => false,
    }
}

fn is_pair(x: u32, y: u32, i: u32, j: u32) -> bool
    ensures { result ≡ true → ArePair x y i j }
{
    if x == i && y == j {
        true
    } else {
        x == j && y == i
    }
}

// Whether a node is a gate of these two nodes, in one order or the other.
fn is_gate_of(node: Node, x: u32, y: u32) -> bool
    ensures { result ≡ true → IsGate (ArePair x y) node }
{
    match node {
        Node::Nand(i, j) => is_pair(x, y, i, j),
        Node::Zero => false,
        Node::Pin => false,
        Node::Flip(_) => false,
        Node::Word { .. } => false,
    }
}

fn is_gates_lane(
    nodes: &[Node],
    lanes: &[u32],
    places: &[Lane],
    q: usize,
    l: usize,
    a: u32,
    b: u32,
    mask: u16,
) -> bool
    requires lane { l < 16 }
    requires slot { 16 * q + 16 ≤ length lanes.now }
    requires places { length places.now ≡ length nodes.now }
    ensures { result ≡ true → IsGatesLane nodes.now lanes.now places.now q l a b mask }
{
    let k = node_at(lanes, q, l) as usize;
    if a as usize >= q || b as usize >= q {
        return false;
    }
    if bit(mask, l as u16) {
        k < nodes.len()
            && stands_at(places, k, q, l)
            && is_gate_of(
                nodes[k],
                node_at(lanes, a as usize, l),
                node_at(lanes, b as usize, l),
            )
    } else {
        k >= nodes.len()
    }
}

// Whether a node is a gate whose inputs these lanes stand for.
fn is_gate_over(node: Node, lanes: &[u32], q: usize, a: Lane, b: Lane) -> bool
    requires { 16 * q ≤ length lanes.now }
    ensures { result ≡ true → IsGate (λ i j. IsEarlier lanes.now q a i × IsEarlier lanes.now q b j)
        node }
{
    match node {
        Node::Nand(i, j) => is_earlier(lanes, q, a, i) && is_earlier(lanes, q, b, j),
        Node::Zero => false,
        Node::Pin => false,
        Node::Flip(_) => false,
        Node::Word { .. } => false,
    }
}

fn is_lone_lane(
    nodes: &[Node],
    lanes: &[u32],
    places: &[Lane],
    q: usize,
    l: usize,
    a: Lane,
    b: Lane,
) -> bool
    requires lane { l < 16 }
    requires slot { 16 * q + 16 ≤ length lanes.now }
    requires places { length places.now ≡ length nodes.now }
    ensures { result ≡ true → IsLoneLane nodes.now lanes.now places.now q l a b }
{
    let k = node_at(lanes, q, l);
    let first = node_at(lanes, q, 0);
    (k as usize) < nodes.len()
        && stands_at(places, k as usize, q, 0)
        && k == first
        && is_gate_over(nodes[k as usize], lanes, q, a, b)
}

fn is_spread_lane(nodes: &[Node], lanes: &[u32], q: usize, l: usize, a: Lane) -> bool
    requires lane { l < 16 }
    requires slot { 16 * q + 16 ≤ length lanes.now }
    ensures { result ≡ true → IsSpreadLane nodes.now lanes.now q l a }
{
    let k = node_at(lanes, q, l);
    (a.slot as usize) < q
        && a.at < 16
        && (k as usize >= nodes.len() || node_at(lanes, a.slot as usize, usize::from(a.at)) == k)
}

fn is_move_lane(
    nodes: &[Node],
    lanes: &[u32],
    q: usize,
    l: usize,
    below: u32,
    a: u32,
    up: u8,
    down: u8,
    mask: u16,
) -> bool
    requires lane { l < 16 }
    requires slot { 16 * q + 16 ≤ length lanes.now }
    ensures { result ≡ true → IsMoveLane nodes.now lanes.now q l below a up down mask }
{
    let k = node_at(lanes, q, l);
    if below as usize >= q || a as usize >= q || up >= 16 || down >= 16 {
        return false;
    }
    if bit(mask, l as u16) {
        let high = l + usize::from(down);
        let up = usize::from(up);
        up <= high && high < 16 && node_at(lanes, a as usize, high - up) == k
    } else {
        k as usize >= nodes.len() || node_at(lanes, below as usize, l) == k
    }
}

// Whether these nodes have their places in earlier slots.
fn are_placed_before(places: &[Lane], q: usize, nodes: &[u32]) -> bool
    ensures { result ≡ true → All (IsPlacedBefore (length places.now) places.now q) nodes.now }
{
    for k in 0..nodes.len() {
        let i = nodes[k] as usize;
        if i >= places.len() || places[i].slot as usize >= q {
            return false;
        }
    }
    true
}

/// Whether these nodes have their places side by side in a slot before slot q, from a lane on.
pub(crate) fn are_side_by_side(places: &[Lane], q: usize, nodes: &[u32], first: Lane) -> bool
    ensures { result ≡ true → AreSideBySide places.now q nodes.now first }
{
    if first.slot as usize >= q
        || first.at >= 16
        || nodes.len() > 16
        || usize::from(first.at) + nodes.len() > 16
    {
        return false;
    }
    for i in 0..nodes.len() {
        let k = nodes[i] as usize;
        if k >= places.len()
            || !stands_at(places, k, first.slot as usize, usize::from(first.at) + i)
        {
            return false;
        }
    }
    true
}

// Whether these nodes do, where a lane is told.
fn is_address(places: &[Lane], q: usize, nodes: &[u32], address: Option<Lane>) -> bool
    ensures { result ≡ true → MatchOption address (Unit {0})
        (AreSideBySide places.now q nodes.now) }
{
    match address {
        None => true,
        Some(first) => are_side_by_side(places, q, nodes, first),
    }
}

fn is_bit_of(node: Node, b: u32, l: usize) -> bool
    ensures { result ≡ true → node ≡ Word b l }
{
    match node {
        Node::Word { block, bit: at } => block == b && usize::from(at) == l,
        Node::Nand(_, _) => false,
        Node::Zero => false,
        Node::Pin => false,
        Node::Flip(_) => false,
    }
}

fn is_read_lane(
    nodes: &[Node],
    blocks: &[Block],
    lanes: &[u32],
    places: &[Lane],
    q: usize,
    l: usize,
    b: u32,
    mask: u16,
    address: Option<Lane>,
) -> bool
    requires lane { l < 16 }
    requires slot { 16 * q + 16 ≤ length lanes.now }
    requires places { length places.now ≡ length nodes.now }
    ensures { result ≡ true → IsReadLane nodes.now blocks.now lanes.now places.now q l b mask
        address }
{
    let k = node_at(lanes, q, l) as usize;
    if b as usize >= blocks.len()
        || !is_address(places, q, blocks[b as usize].address.as_slice(), address)
    {
        return false;
    }
    if bit(mask, l as u16) {
        k < nodes.len()
            && stands_at(places, k, q, l)
            && is_bit_of(nodes[k], b, l)
            && are_placed_before(places, q, blocks[b as usize].address.as_slice())
    } else {
        k >= nodes.len()
    }
}

// Whether a lane is right under its slot's operation.
fn is_lane(
    nodes: &[Node],
    blocks: &[Block],
    lanes: &[u32],
    places: &[Lane],
    q: usize,
    l: usize,
    op: Op,
) -> bool
    requires lane { l < 16 }
    requires slot { 16 * q + 16 ≤ length lanes.now }
    requires places { length places.now ≡ length nodes.now }
    ensures { result ≡ true → IsLane nodes.now blocks.now lanes.now places.now q l op }
{
    let k = node_at(lanes, q, l) as usize;
    match op {
        Op::Held => is_held_lane(nodes, lanes, places, q, l),
        Op::Zeros => k >= nodes.len() || is_zero(nodes[k]),
        Op::Gates { a, b, mask } => is_gates_lane(nodes, lanes, places, q, l, a, b, mask),
        Op::Lone {
            a,
            b,
            mask_a,
            mask_b,
        } => {
            is_lone_lane(nodes, lanes, places, q, l, a, b)
                && mask_a == lane_mask(a.at)
                && mask_b == lane_mask(b.at)
        }
        Op::Spread { a } => is_spread_lane(nodes, lanes, q, l, a),
        Op::Move {
            below,
            a,
            up,
            down,
            mask,
        } => { is_move_lane(nodes, lanes, q, l, below, a, up, down, mask) }
        Op::Read {
            block,
            mask,
            address,
        } => { is_read_lane(nodes, blocks, lanes, places, q, l, block, mask, address) }
    }
}

// Whether each lane of a slot is right.
fn are_lanes(
    nodes: &[Node],
    blocks: &[Block],
    lanes: &[u32],
    places: &[Lane],
    q: usize,
    op: Op,
) -> bool
    requires slot { 16 * q + 16 ≤ length lanes.now }
    requires places { length places.now ≡ length nodes.now }
    ensures { result ≡ true → (l : ℕ) → l < 16
        → IsLane nodes.now blocks.now lanes.now places.now q l op }
{
    for l in 0..16usize {
        if !is_lane(nodes, blocks, lanes, places, q, l, op) {
            return false;
        }
    }
    true
}

// Whether the lanes of all operations are right.
fn are_ops(nodes: &[Node], blocks: &[Block], ops: &[Op], lanes: &[u32], places: &[Lane]) -> bool
    requires lanes { length lanes.now ≡ 16 * length ops.now }
    requires places { length places.now ≡ length nodes.now }
    ensures { result ≡ true → (q : ℕ) (op : Op) → slice_get ops.now q ≡ Some op → (l : ℕ) → l < 16
        → IsLane nodes.now blocks.now lanes.now places.now q l op }
{
    for q in 0..ops.len() {
        if !are_lanes(nodes, blocks, lanes, places, q, ops[q]) {
            return false;
        }
    }
    true
}

// Whether the place of a node stands for it.
fn is_placed(n: usize, lanes: &[u32], places: &[Lane], k: usize) -> bool
    requires lanes { length lanes.now ≡ 16 * n }
    requires place { k < length places.now }
    ensures { result ≡ true → IsPlaced n lanes.now places.now k }
{
    let place = places[k];
    (place.slot as usize) < n
        && place.at < 16
        && node_at(lanes, place.slot as usize, usize::from(place.at)) as usize == k
}

// Whether each node has a place.
fn are_placed(n: usize, lanes: &[u32], places: &[Lane]) -> bool
    requires { length lanes.now ≡ 16 * n }
    ensures { result ≡ true → (k : ℕ) → k < length places.now → IsPlaced n lanes.now places.now k }
{
    for k in 0..places.len() {
        if !is_placed(n, lanes, places, k) {
            return false;
        }
    }
    true
}

/// Whether operations, lanes and places are a plan of the nodes.
pub(crate) fn is_plan(
    nodes: &[Node],
    blocks: &[Block],
    ops: &[Op],
    lanes: &[u32],
    places: &[Lane],
) -> bool
    ensures { result ≡ true → IsPlan nodes.now blocks.now ops.now lanes.now places.now }
{
    ops.len() < 4294967296
        && lanes.len() % 16 == 0
        && lanes.len() / 16 == ops.len()
        && places.len() == nodes.len()
        && are_ops(nodes, blocks, ops, lanes, places)
        && are_placed(ops.len(), lanes, places)
}
