//! What is known of chips: which bits of a chip lead to which.

ghost use Rattle.std.specs.Prelude.{◌≡◌, ◌<◌, ℕ, true, List, [], IfOk, OnOk, length, map, slice_get};
ghost use Rattle.hdl_check.specs.Whole.{chips_in};
ghost use Rattle.hdl_plans.specs.Loops.{reaches_out, bit_at};
ghost use Rattle.hdl_plans.specs.Ways.{Way, HasBit};
ghost use Rattle.hdl_loops.specs.Inner.Hops.{bit, HasHop, IsWay};
ghost use Rattle.hdl_loops.specs.Inner.Bundles.{AreDoors, hops_in, turn};
ghost use Rattle.hdl_loops.specs.Inner.Pairs.{AreWays, has_pair};
ghost use Rattle.hdl_loops.specs.Inner.Knowing.{leads, leads_in, crosses, end_crosses};

use crate::bundle::Bundle;
use crate::doors::Doors;
use crate::hops::{BitOf, Hop};
use crate::pairs::{Pair, pairs_of};
use crate::tree::Tree;
use hdl_tree::{End, Entry, Memories, Pin, find_end};
use indexmap::IndexSet;
use std::alloc::{AllocError, Global};
use std::mem;

/// What is known of a chip that is no end: the hops of its own graph, and which inputs lead to which outputs. Where it has fewer outputs
/// these are searched for against the hops, and the pairs are turned.
pub struct Known<'a> {
    pub graph: Vec<Bundle<'a>>,
    pub doors: Doors<'a>,
    pub turned: bool,
    pub pairs: IndexSet<Pair<'a>>,
}

// By hand, so that whoever drops one calls this.
impl Drop for Known<'_> {
    fn drop(self) {
        let Known {
            graph: _,
            doors: _,
            turned: _,
            pairs: _,
        } = self;
    }
}

impl<'a> Known<'a> {
    /// Whether there is a way from the input bit to the output bit.
    fn leads(&self, input: &BitOf<'a>, to: &BitOf<'a>) -> bool
        ensures { result ≡ leads self.now (bit input.now) (bit to.now) }
    {
        if self.turned {
            return self.pairs.contains(&Pair {
                from: *to,
                to: *input,
            });
        }
        self.pairs.contains(&Pair {
            from: *input,
            to: *to,
        })
    }

    /// A way from the input bit to the bit, to which it leads.
    pub(crate) fn way(
        &self,
        alloc: Global,
        input: &BitOf<'a>,
        to: &BitOf<'a>,
    ) -> Result<Vec<Hop<'a>>, AllocError>
        requires linked { AreDoors self.now.graph.items self.now.doors }
        requires leads { Way (HasHop (hops_in self.now.graph.items)) (bit input.now) (bit to.now) }
        ensures { IfOk result
            (λ v. IsWay (hops_in self.now.graph.items) (bit input.now) v.items (bit to.now)) }
    {
        let graph = self.graph.as_slice();
        let tree = Tree::of(alloc, graph, &self.doors, *input)?;
        match tree.way_to(alloc, graph, to)? {
            None => unreachable!(),
            Some(way) => Ok(way),
        }
    }
}

/// Whether the pin of an end reaches its out within the cycle.
fn reaches(end: End, name: &[u8]) -> bool
    ensures { result ≡ reaches_out end name.now }
{
    match end {
        End::Nand => name == b"a".as_slice() || name == b"b".as_slice(),
        End::Dff => false,
        End::Keyboard => false,
        End::Rom => name == b"address".as_slice(),
        End::Block(_) => name == b"address".as_slice(),
    }
}

/// Whether an end leads from the input bit to the output bit within the cycle.
fn end_leads(end: End, input: &BitOf, output: &BitOf) -> bool
    ensures { result ≡ end_crosses end (bit input.now) (bit output.now) }
{
    reaches(end, input.name) && output.name == b"out".as_slice()
}

/// Whether what is known of chip k, which is no end, leads from the input bit to the bit.
fn known_leads<'a>(known: &[Option<Known<'a>>], k: usize, input: &BitOf<'a>, to: &BitOf<'a>) -> bool
    ensures { result ≡ leads_in (slice_get known.now k) (bit input.now) (bit to.now) }
{
    match known.get(k) {
        Some(Some(inside)) => inside.leads(input, to),
        _ => false,
    }
}

/// Whether the output bit of chip k depends on the input bit within the cycle, as far as is known.
pub(crate) fn crosses<'a>(
    entries: &[Entry],
    memories: Memories,
    known: &[Option<Known<'a>>],
    k: usize,
    input: &BitOf<'a>,
    output: &BitOf<'a>,
) -> bool
    requires { k < length entries.now }
    ensures { result
        ≡ crosses (chips_in entries.now memories) known.now k (bit input.now) (bit output.now) }
{
    match find_end(memories, &entries[k]) {
        Some(end) => end_leads(end, input, output),
        None => known_leads(known, k, input, output),
    }
}

/// Turns the hops of a bundle the other way.
fn turn<'a>(bundle: &mut Bundle<'a>)
    ensures { bundle.new ≡ turn bundle.old }
{
    mem::swap(&mut bundle.enters, &mut bundle.leaves);
}

/// Turns each hop the other way.
fn turn_all<'a>(graph: &mut Vec<Bundle<'a>>)
    ensures { graph.new.items ≡ map turn graph.old.items }
{
    for k in 0..graph.len() {
        turn(&mut graph[k]);
    }
}

/// How many bits these pins have; past the greatest number it is fewer, which does not matter.
fn count_bits(pins: &[Pin]) -> u64 {
    let mut count: u64 = 0;
    for pin in pins {
        count = count.saturating_add(u64::from(pin.width.unwrap_or(1)));
    }
    count
}

/// The pairs of a bit of the first pins and a bit of the second to which it leads, the doors being found here.
fn linked_pairs<'a>(
    alloc: Global,
    graph: &[Bundle<'a>],
    first: &'a [Pin],
    second: &'a [Pin],
) -> Result<IndexSet<Pair<'a>>, AllocError>
    ensures right { IfOk result (λ s. AreWays (hops_in graph.now) s.keys) }
    ensures there { IfOk result (λ s. (n m : List ℕ) (b k : ℕ) → HasBit first.now n b
        → HasBit second.now m k
        → Way (HasHop (hops_in graph.now)) (bit_at [] n b) (bit_at [] m k)
        → has_pair s.keys (bit_at [] n b) (bit_at [] m k) ≡ true) }
{
    let doors = Doors::of(alloc, graph)?;
    pairs_of(alloc, graph, &doors, first, second)
}

/// The pairs of a bit of the first pins and a bit of the second that leads to it. The hops are turned for it and turned back, so that they
/// stand once in memory.
fn turned_pairs<'a>(
    alloc: Global,
    graph: &mut Vec<Bundle<'a>>,
    first: &'a [Pin],
    second: &'a [Pin],
) -> Result<IndexSet<Pair<'a>>, AllocError>
    ensures same { OnOk result (graph.new.items ≡ graph.old.items) }
    ensures right { IfOk result
        (λ s. (n m : List ℕ) (b k : ℕ) → has_pair s.keys (bit_at [] n b) (bit_at [] m k) ≡ true
        → Way (HasHop (hops_in graph.old.items)) (bit_at [] m k) (bit_at [] n b)) }
    ensures there { IfOk result (λ s. (n m : List ℕ) (b k : ℕ) → HasBit first.now n b
        → HasBit second.now m k
        → Way (HasHop (hops_in graph.old.items)) (bit_at [] m k) (bit_at [] n b)
        → has_pair s.keys (bit_at [] n b) (bit_at [] m k) ≡ true) }
{
    turn_all(graph);
    let pairs = linked_pairs(alloc, graph.as_slice(), first, second)?;
    turn_all(graph);
    Ok(pairs)
}

/// What is known of a chip that is no end and has this graph.
pub(crate) fn known_of<'a>(
    alloc: Global,
    entry: &'a Entry,
    graph: Vec<Bundle<'a>>,
) -> Result<Known<'a>, AllocError>
    ensures graph { IfOk result (λ inside. inside.graph.items ≡ graph.entry.items) }
    ensures linked { IfOk result (λ inside. AreDoors inside.graph.items inside.doors) }
    ensures right { IfOk result
        (λ inside. (n m : List ℕ) (b k : ℕ) → leads inside (bit_at [] n b) (bit_at [] m k) ≡ true
        → Way (HasHop (hops_in inside.graph.items)) (bit_at [] n b) (bit_at [] m k)) }
    ensures there { IfOk result (λ inside. (n m : List ℕ) (b k : ℕ)
        → HasBit entry.now.chip.inputs n b → HasBit entry.now.chip.outputs m k
        → Way (HasHop (hops_in inside.graph.items)) (bit_at [] n b) (bit_at [] m k)
        → leads inside (bit_at [] n b) (bit_at [] m k) ≡ true) }
{
    let inputs = entry.chip.inputs.as_slice();
    let outputs = entry.chip.outputs.as_slice();
    if count_bits(outputs) < count_bits(inputs) {
        let mut graph = graph;
        let pairs = turned_pairs(alloc, &mut graph, outputs, inputs)?;
        let doors = Doors::of(alloc, graph.as_slice())?;
        return Ok(Known {
            graph,
            doors,
            turned: true,
            pairs,
        });
    }
    let list = graph.as_slice();
    let doors = Doors::of(alloc, list)?;
    let pairs = pairs_of(alloc, list, &doors, inputs, outputs)?;
    Ok(Known {
        graph,
        doors,
        turned: false,
        pairs,
    })
}
