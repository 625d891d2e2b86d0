//! A simulator of a chip, whose netlist may be a simplified one. It is set and read by the nodes of the chip.

ghost use Rattle.std.specs.Prelude.{◌≡◌, ◌<◌, ◌≤◌, ◌+◌, ◌-◌, ◌^◌, ℕ, Bool, List, [], ◌∷◌, Some, None, IfOk, OnOk, MatchOption, true, false, length, slice_get, slice_index};
ghost use Rattle.std.specs.List.{All, Contains};
ghost use Rattle.netlist.specs.Histories.{rank};
ghost use Rattle.netlist.specs.declared.node.Node.TheVariants.{Pin};
ghost use Rattle.gate_sim.specs.Calls.{Call, cycle_of, evaluated_calls};
ghost use Rattle.gate_sim.specs.Calls.Call.{Eval, Load, Set, Tick, Tock};
ghost use Rattle.gate_sim.specs.Values.{AreValues, words_of};
ghost use Rattle.script_device.specs.Inner.Naming.{with_pin};
ghost use Rattle.script_device.specs.Simulated.{IsPlaced, IsSeen, IsSimple, IsWanted, ReadsAs, WasTold, net_of, place_in, stored_at};

use gate_sim::Sim;
use net_simplify::{Simple, simplify};
use netlist::{Netlist, Node};
use std::alloc::{AllocError, Global};
use std::marker::Model;

/// The netlist of a chip whose simulator has it simplified: the nodes that are kept, and for each node its place, where it is kept.
pub struct WholeNet {
    net: Netlist,
    kept: Vec<u32>,
    places: Vec<u32>,
}

// By hand, so that whoever drops one calls this.
impl Drop for WholeNet {
    fn drop(self) {
        let WholeNet {
            net: _,
            kept: _,
            places: _,
        } = self;
    }
}

/// A simulator of a chip.
pub struct ChipSim {
    sim: Sim,
    whole: Option<WholeNet>,
}

// By hand, so that whoever drops one calls this.
impl Drop for ChipSim {
    fn drop(self) {
        let ChipSim { sim: _, whole: _ } = self;
    }
}

impl Model for ChipSim {
    ghost use Rattle.script_device.specs.Simulated.{ChipState, StandsIn};

    ghost Value = { ChipState };

    ghost view = { λ s.
        record { sim = s.sim; frame = record { whole = s.whole; net = s.sim.net } } };

    ghost invariant = { λ s. StandsIn s.whole s.sim.net };
}

// The number of a node, after these, where it is a pin.
fn push_pin(kept: &mut Vec<u32>, k: u32, node: Node) -> Result<(), AllocError>
    ensures { OnOk result (kept.new.items ≡ with_pin kept.old.items k node) }
{
    match node {
        Node::Pin => Ok(kept.push(k)?),
        Node::Nand(_, _) => Ok(()),
        Node::Flip(_) => Ok(()),
        Node::Word { .. } => Ok(()),
        Node::Zero => Ok(()),
    }
}

// These nodes, and all pins.
fn with_pins(alloc: Global, nodes: &[Node], named: &[u32]) -> Result<Vec<u32>, AllocError>
    requires few { length nodes.now < 2 ^ 32 }
    requires there { All (λ k. k < length nodes.now) named.now }
    ensures there { IfOk result (λ v. All (λ k. k < length nodes.now) v.items) }
    ensures only { IfOk result (λ v. All (IsWanted nodes.now named.now) v.items) }
    ensures pins { IfOk result
        (λ v. (k : ℕ) → slice_get nodes.now k ≡ Some Pin → Contains v.items k) }
    ensures named { IfOk result (λ v. (k : ℕ) → Contains named.now k → Contains v.items k) }
{
    let mut kept = Vec::from_slice(alloc, named)?;
    for (k, node) in nodes.iter().enumerate() {
        push_pin(&mut kept, k as u32, *node)?;
    }
    Ok(kept)
}

// For each node its place, where it is kept.
fn places_by_node(
    alloc: Global,
    count: usize,
    kept: &[u32],
    place: &[u32],
) -> Result<Vec<u32>, AllocError>
    requires there { All (λ k. k < count) kept.now }
    requires number { length place.now ≡ length kept.now }
    requires single { (on : ℕ → ℕ)
        × ((i : ℕ) → i < length kept.now → slice_index place.now i ≡ on (slice_index kept.now i)) }
    ensures { IfOk result (λ v. (i : ℕ) → i < length kept.now
        → slice_index v.items (slice_index kept.now i) ≡ slice_index place.now i) }
{
    let mut places = vec![in alloc; 0; count]?;
    for i in 0..kept.len() {
        places[kept[i] as usize] = place[i];
    }
    Ok(places)
}

// The place of a node.
fn place_of(whole: &Option<WholeNet>, node: u32) -> u32
    ensures { result ≡ place_in whole.now node }
{
    match whole {
        None => node,
        Some(whole) => match whole.places.get(node as usize) {
            Some(place) => *place,
            None => 0,
        },
    }
}

impl ChipSim {
    /// A simulator of a netlist that got no calls. Each node can be read.
    pub fn new(alloc: Global, net: Netlist) -> Result<ChipSim, AllocError>
        ensures net { IfOk result (λ s. net_of s.frame ≡ net) }
        ensures stands { IfOk result (λ s. WasTold s []) }
        ensures seen { IfOk result (λ s. (k : ℕ) → k < length net.nodes → IsSeen s.frame k) }
        ensures whole { IfOk result (λ s. s.frame.whole ≡ None) }
    {
        net.ordered_law();
        Ok(ChipSim {
            sim: Sim::new(alloc, net)?,
            whole: None,
        })
    }

    /// The same with the netlist simplified. These nodes can be read.
    pub fn simplified(alloc: Global, net: Netlist, named: &[u32]) -> Result<ChipSim, AllocError>
        requires few { length net.nodes < 2 ^ 32 - 1 }
        requires there { All (λ k. k < length net.nodes) named.now }
        ensures net { IfOk result (λ s. net_of s.frame ≡ net) }
        ensures stands { IfOk result (λ s. WasTold s []) }
        ensures seen { IfOk result (λ s. (k : ℕ) → Contains named.now k → IsSeen s.frame k) }
        ensures simple { IfOk result (λ s. IsSimple named.now s.frame) }
    {
        let kept = with_pins(alloc, net.nodes(), named)?;
        let Simple { net: simple, place } = simplify(alloc, &net, &kept)?;
        let places = places_by_node(alloc, net.nodes().len(), &kept, &place)?;
        simple.ordered_law();
        Ok(ChipSim {
            sim: Sim::new(alloc, simple)?,
            whole: Some(WholeNet { net, kept, places }),
        })
    }

    /// Puts it back to its start: it got no calls.
    pub fn reset(&mut self)
        ensures frame { self.new.frame ≡ self.old.frame }
        ensures stands { WasTold self.new [] }
    {
        self.sim.reset();
    }

    /// Whether its netlist is a simplified one.
    pub fn is_simplified(&self) -> bool
        ensures simple { result ≡ true → MatchOption self.now.frame.whole ⊥
            (λ whole. IsPlaced whole self.now.frame.net) }
        ensures own { result ≡ false → self.now.frame.whole ≡ None }
    {
        self.whole.is_some()
    }

    /// Puts words into a block from an address on.
    pub fn load_block(&mut self, block: u32, from: u32, words: &[u16])
        requires { MatchOption (slice_get (net_of self.old.frame).blocks block) ⊥
            (λ b. from + length words.now ≤ b.words) }
        ensures frame { self.new.frame ≡ self.old.frame }
        ensures stands { (calls : List Call) → WasTold self.old calls
            → WasTold self.new (Load block from words.now ∷ calls) }
    {
        self.sim.load_block(block, from, words);
    }

    /// Sets an input.
    pub fn set(&mut self, node: u32, bit: bool)
        requires { slice_get (net_of self.old.frame).nodes node ≡ Some Pin }
        ensures frame { self.new.frame ≡ self.old.frame }
        ensures stands { (calls : List Call) → WasTold self.old calls
            → WasTold self.new (Set (rank (net_of self.old.frame).nodes node) bit ∷ calls) }
    {
        let place = place_of(&self.whole, node);
        self.sim.set(place, bit);
    }

    /// Evaluates the chip.
    pub fn eval(&mut self)
        ensures frame { self.new.frame ≡ self.old.frame }
        ensures stands { (calls : List Call) → WasTold self.old calls
            → WasTold self.new (Eval ∷ calls) }
    {
        self.sim.eval();
    }

    /// Evaluates the chip and fixes the next states.
    pub fn tick(&mut self)
        ensures frame { self.new.frame ≡ self.old.frame }
        ensures stands { (calls : List Call) → WasTold self.old calls
            → WasTold self.new (Tick ∷ calls) }
    {
        self.sim.tick();
    }

    /// Takes the states that were fixed and evaluates.
    pub fn tock(&mut self)
        ensures frame { self.new.frame ≡ self.old.frame }
        ensures stands { (calls : List Call) → WasTold self.old calls
            → WasTold self.new (Tock ∷ calls) }
    {
        self.sim.tock();
    }

    /// The value of a node at the last evaluation.
    pub fn get(&self, node: u32) -> bool
        requires { IsSeen self.now.frame node }
        ensures { result ≡ stored_at self.now node }
    {
        self.sim.get(place_of(&self.whole, node))
    }

    /// The word at an address of a block now.
    pub fn block_word(&self, block: u32, a: u32) -> u16
        requires { MatchOption (slice_get (net_of self.now.frame).blocks block) ⊥
            (λ b. a < b.words) }
        ensures { (calls told : List Call) (v : ℕ → ℕ → Bool) → WasTold self.now calls
            → evaluated_calls calls ≡ Some told → AreValues (net_of self.now.frame) told v
            → result ≡ words_of (net_of self.now.frame).blocks v calls block a }
    {
        self.sim.block_word(block, a)
    }

    /// What is stored of a node is its value at the last evaluation.
    pub fn stored_law(&self)
        ensures { (calls told : List Call) (v : ℕ → ℕ → Bool) → WasTold self.now calls
            → evaluated_calls calls ≡ Some told → AreValues (net_of self.now.frame) told v → (k : ℕ)
            → IsSeen self.now.frame k → stored_at self.now k ≡ v k (cycle_of told) }
    {
        let _ = &self.sim;
    }

    /// The netlist that runs reads as that of the chip.
    pub fn reads_law(&self)
        ensures { ReadsAs self.now.frame }
    {
        let _ = &self.sim;
    }

    /// Every list of calls has its values.
    pub fn values_law(&self)
        ensures { (calls : List Call)
            → (v : ℕ → ℕ → Bool) × AreValues (net_of self.now.frame) calls v }
    {
        let _ = &self.sim;
    }
}
