//! What feeds the input bits of a part, and the nodes that do so once it is put. Where few bits are fed, those alone are kept.

ghost use Rattle.std.specs.Prelude.{◌≡◌, ℕ, ◌<◌, ◌≤◌, List, [], IfOk, length, map, slice_index};
ghost use Rattle.std.specs.List.{All};
ghost use Rattle.hdl_flatten.specs.Inner.Wired.{bit_of, wires_of, origin_at, origins_at};
ghost use Rattle.hdl_flatten.specs.Inner.Feeds.{feed_origins, FewAre};
ghost use Rattle.hdl_flatten.specs.Inner.Puts.{node_of};
ghost use Rattle.hdl_flatten.specs.Inner.Putting.{IsWithin, AreWithin};
ghost use Rattle.hdl_flatten.specs.Inner.Fed.{nodes_in, MayFeed};
ghost use Rattle.hdl_flatten.specs.Trees.{all_bits};

use crate::wires::{Bit, Origin, Wires, origins_of};
use hdl_tree::Pin;
use std::alloc::{AllocError, Global};

/// What feeds the input bits of a part, one after another. Where few of them are fed, by their bits, with the pins.
#[derive(Drop)]
pub(crate) enum Feeds<'a> {
    All(Vec<Origin>),
    Few(&'a [Pin], Wires<'a>),
}

/// The nodes of the input bits of a chip that is put, one after another. Where few of them are fed, each is found by its bit, as an origin
/// that is counted from the first of all nodes.
#[derive(Drop)]
pub(crate) enum Inputs<'a, 'b> {
    All(Vec<u32>),
    Few(&'b [Bit<'a>], Wires<'a>),
}

/// The nodes of the constants.
pub(crate) const LOW: u32 = 0;

const HIGH: u32 = 1;

/// A list is kept whole where fewer than this many bits stand in it for each that is fed and one more.
const SPARSE: usize = 16;

/// The node of an origin that is counted from the first of all nodes.
fn whole_node(origin: Origin) -> u32
    ensures { result ≡ node_of 0 [] origin }
{
    match origin {
        Origin::Low | Origin::Input(_) => LOW,
        Origin::High => HIGH,
        Origin::Gate(k) => k,
    }
}

/// The node of bit k of these, where wires have their nodes.
fn node_at<'a>(bits: &[Bit<'a>], wires: &Wires<'a>, k: usize) -> u32
    requires { k < length bits.now }
    ensures { result ≡ slice_index
        (map (node_of 0 []) (origins_at (wires_of wires.now) (map bit_of bits.now))) k }
{
    whole_node(wires.origin(bits[k]))
}

impl<'a, 'b> Inputs<'a, 'b> {
    /// The node of input bit k.
    pub(crate) fn node(&self, k: usize) -> u32
        requires { k < length (nodes_in self.now) }
        ensures { result ≡ slice_index (nodes_in self.now) k }
    {
        match self {
            Inputs::All(nodes) => nodes[k],
            Inputs::Few(bits, wires) => node_at(bits, wires, k),
        }
    }

    /// The nodes of all input bits, one after another.
    pub(crate) fn all(&self, alloc: Global) -> Result<Vec<u32>, AllocError>
        ensures { IfOk result (λ v. v.items ≡ nodes_in self.now) }
    {
        match self {
            Inputs::All(nodes) => Ok(Vec::from_slice(alloc, nodes)?),
            Inputs::Few(bits, wires) => whole_nodes(alloc, bits, wires),
        }
    }
}

fn whole_nodes<'a>(
    alloc: Global,
    bits: &[Bit<'a>],
    wires: &Wires<'a>,
) -> Result<Vec<u32>, AllocError>
    ensures { IfOk result
        (λ v. v.items ≡ map (node_of 0 [])
        (origins_at (wires_of wires.now) (map bit_of bits.now))) }
{
    let mut nodes = Vec::new(alloc);
    for bit in bits {
        nodes.push(whole_node(wires.origin(*bit)))?;
    }
    Ok(nodes)
}

/// The node of a bit of a chip whose nodes begin at base.
pub(crate) fn node_of<'a, 'b>(origin: Origin, base: usize, inputs: &Inputs<'a, 'b>) -> u32
    requires base { base ≤ 16777216 }
    requires within { IsWithin (length (nodes_in inputs.now)) 16777216 origin }
    ensures { result ≡ node_of base (nodes_in inputs.now) origin }
{
    match origin {
        Origin::Low => LOW,
        Origin::High => HIGH,
        Origin::Input(k) => inputs.node(k),
        Origin::Gate(k) => base as u32 + k,
    }
}

pub(crate) fn nodes_of<'a, 'b>(
    alloc: Global,
    origins: &[Origin],
    base: usize,
    inputs: &Inputs<'a, 'b>,
) -> Result<Vec<u32>, AllocError>
    requires base { base ≤ 16777216 }
    requires within { All (IsWithin (length (nodes_in inputs.now)) 16777216) origins.now }
    ensures { IfOk result (λ v. v.items ≡ map (node_of base (nodes_in inputs.now)) origins.now) }
{
    let mut nodes = Vec::new(alloc);
    for origin in origins {
        nodes.push(node_of(*origin, base, inputs))?;
    }
    Ok(nodes)
}

/// The nodes of the bits that are fed in a chip whose nodes begin at base, counted from the first of all nodes.
fn nodes_at<'a, 'b>(
    alloc: Global,
    wires: &Wires<'a>,
    base: usize,
    inputs: &Inputs<'a, 'b>,
) -> Result<Wires<'a>, AllocError>
    requires base { base ≤ 16777216 }
    requires within { AreWithin (length (nodes_in inputs.now)) 16777216 (wires_of wires.now) }
    ensures { IfOk result
        (λ w. (name : List ℕ) (bit : ℕ) → node_of 0 [] (origin_at (wires_of w) name bit)
        ≡ node_of base (nodes_in inputs.now) (origin_at (wires_of wires.now) name bit)) }
{
    let mut nodes = Wires::new(alloc);
    for k in 0..wires.len() {
        let (bit, origin) = wires.entry(k);
        nodes.enter(bit, Origin::Gate(node_of(origin, base, inputs)))?;
    }
    Ok(nodes)
}

impl<'a> Feeds<'a> {
    /// What feeds these bits, which are those of the pins.
    pub(crate) fn of(
        alloc: Global,
        fed: Wires<'a>,
        pins: &'a [Pin],
        bits: &[Bit<'a>],
    ) -> Result<Feeds<'a>, AllocError>
        requires { map bit_of bits.now ≡ all_bits pins.now }
        ensures origins { IfOk result
            (λ f. feed_origins f ≡ origins_at (wires_of fed.entry) (map bit_of bits.now)) }
        ensures few { IfOk result (λ f. FewAre f (map bit_of bits.now) (wires_of fed.entry)) }
    {
        if bits.len() / SPARSE > fed.len() {
            Ok(Feeds::Few(pins, fed))
        } else {
            Ok(Feeds::All(origins_of(alloc, &fed, bits)?))
        }
    }

    /// The nodes that feed these bits of a part of a chip whose nodes begin at base.
    pub(crate) fn nodes<'b>(
        &self,
        alloc: Global,
        bits: &'b [Bit<'a>],
        base: usize,
        inputs: &Inputs<'a, 'b>,
    ) -> Result<Inputs<'a, 'b>, AllocError>
        requires base { base ≤ 16777216 }
        requires may { MayFeed (length (nodes_in inputs.now)) self.now (map bit_of bits.now) }
        ensures { IfOk result
            (λ r. nodes_in r ≡ map (node_of base (nodes_in inputs.now)) (feed_origins self.now)) }
    {
        match self {
            Feeds::All(origins) => Ok(Inputs::All(nodes_of(alloc, origins, base, inputs)?)),
            Feeds::Few(_, wires) => Ok(Inputs::Few(bits, nodes_at(alloc, wires, base, inputs)?)),
        }
    }
}
