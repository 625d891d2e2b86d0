//! What flip-flops take in: whether it is what they read.

ghost use Rattle.std.specs.Prelude.{◌≡◌, ℕ, ◌+◌, ◌*◌, ◌<◌, ◌≤◌, true, length, Some, slice_get};
ghost use Rattle.word16.specs.Words.{has_bit};
ghost use Rattle.netlist.specs.declared.node.Node.TheVariants.{Flip};
ghost use Rattle.gate_sim.specs.Inner.Plans.{node_at, place_of, IsFlip};
ghost use Rattle.gate_sim.specs.Inner.Takes.{IsTakeLane, IsTake, IsServed, AreTakes};

use crate::plan::{Lane, Take, node_at, stands_at};
use netlist::Node;
use word16::bit;

// Whether a node is a flip-flop that takes what a lane stands for.
fn is_flip_of(node: Node, lanes: &[u32], source: usize, l: usize) -> bool
    requires lane { l < 16 }
    requires slot { 16 * source + 16 ≤ length lanes.now }
    ensures { result ≡ true → IsFlip (λ i. node_at lanes.now source l ≡ i) node }
{
    match node {
        Node::Flip(i) => node_at(lanes, source, l) == i,
        Node::Nand(_, _) => false,
        Node::Zero => false,
        Node::Pin => false,
        Node::Word { .. } => false,
    }
}

// Whether a lane takes what it is to take, where it takes anything.
fn is_take_lane(nodes: &[Node], lanes: &[u32], places: &[Lane], take: Take, l: usize) -> bool
    requires lane { l < 16 }
    requires slot { 16 * take.slot + 16 ≤ length lanes.now }
    requires source { 16 * take.source + 16 ≤ length lanes.now }
    requires places { length places.now ≡ length nodes.now }
    ensures { result ≡ true → has_bit take.mask l ≡ true
        → IsTakeLane nodes.now lanes.now places.now take l }
{
    if !bit(take.mask, l as u16) {
        return true;
    }
    let k = node_at(lanes, take.slot as usize, l) as usize;
    let high = l + usize::from(take.down);
    high < 16
        && k < nodes.len()
        && stands_at(places, k, take.slot as usize, l)
        && is_flip_of(nodes[k], lanes, take.source as usize, high)
}

fn is_take(n: usize, nodes: &[Node], lanes: &[u32], places: &[Lane], take: Take) -> bool
    requires lanes { length lanes.now ≡ 16 * n }
    requires places { length places.now ≡ length nodes.now }
    ensures { result ≡ true → IsTake nodes.now n lanes.now places.now take }
{
    if take.slot as usize >= n || take.source as usize >= n || take.down >= 16 {
        return false;
    }
    for l in 0..16usize {
        if !is_take_lane(nodes, lanes, places, take, l) {
            return false;
        }
    }
    true
}

fn are_each_takes(n: usize, nodes: &[Node], lanes: &[u32], places: &[Lane], takes: &[Take]) -> bool
    requires lanes { length lanes.now ≡ 16 * n }
    requires places { length places.now ≡ length nodes.now }
    ensures { result ≡ true → (j : ℕ) (take : Take) → slice_get takes.now j ≡ Some take
        → IsTake nodes.now n lanes.now places.now take }
{
    for j in 0..takes.len() {
        if !is_take(n, nodes, lanes, places, takes[j]) {
            return false;
        }
    }
    true
}

fn serves(take: Take, place: Lane) -> bool
    ensures { result ≡ true → (take.slot ≡ place.slot) × (has_bit take.mask place.at ≡ true) }
{
    take.slot == place.slot && place.at < 16 && bit(take.mask, u16::from(place.at))
}

// Whether one of these gives a node what it takes.
fn is_served_by(places: &[Lane], takes: &[Take], k: usize, j: usize) -> bool
    requires { k < length places.now }
    ensures { result ≡ true → IsServed places.now takes.now k }
{
    if j >= takes.len() {
        return false;
    }
    serves(takes[j], places[k])
}

// Whether a node is given what it takes, where it is a flip-flop.
fn is_served(node: Node, places: &[Lane], takes: &[Take], k: usize, j: usize) -> bool
    requires { k < length places.now }
    ensures { result ≡ true → (i : ℕ) → node ≡ Flip i → IsServed places.now takes.now k }
{
    match node {
        Node::Flip(_) => is_served_by(places, takes, k, j),
        Node::Nand(_, _) => true,
        Node::Zero => true,
        Node::Pin => true,
        Node::Word { .. } => true,
    }
}

fn are_served(nodes: &[Node], places: &[Lane], takes: &[Take], taken: &[u32]) -> bool
    requires places { length places.now ≡ length nodes.now }
    requires taken { length taken.now ≡ length nodes.now }
    ensures { result ≡ true → (k i : ℕ) → slice_get nodes.now k ≡ Some (Flip i)
        → IsServed places.now takes.now k }
{
    for k in 0..nodes.len() {
        if !is_served(nodes[k], places, takes, k, taken[k] as usize) {
            return false;
        }
    }
    true
}

/// Whether these give all flip-flops what they take, where `taken` says which gives it to which node.
pub(crate) fn are_takes(
    n: usize,
    nodes: &[Node],
    lanes: &[u32],
    places: &[Lane],
    takes: &[Take],
    taken: &[u32],
) -> bool
    ensures { result ≡ true → AreTakes nodes.now n lanes.now places.now takes.now }
{
    lanes.len() % 16 == 0
        && lanes.len() / 16 == n
        && places.len() == nodes.len()
        && taken.len() == nodes.len()
        && are_each_takes(n, nodes, lanes, places, takes)
        && are_served(nodes, places, takes, taken)
}
