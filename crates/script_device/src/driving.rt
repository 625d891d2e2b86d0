//! What a script does to a chip, and what it sees of it.

ghost use Rattle.std.specs.Prelude.{◌≡◌, ◌<◌, ◌≤◌, ◌+◌, ◌-◌, ◌^◌, ℕ, suc, Bool, true, false, cond, List, [], ◌∷◌, IfOk, MatchOption, length, slice_get};
ghost use Rattle.gate_sim.specs.Calls.{Call};
ghost use Rattle.gate_sim.specs.Calls.Call.{Eval, Load, Tick, Tock};
ghost use Rattle.gate_sim.specs.Values.{AreValues};
ghost use Rattle.script_device.specs.Directory.{AreSizes, IsBus, IsInput, OfNamed, loaded_chip};
ghost use Rattle.script_device.specs.Driven.{Sees, ChipRuns, IsDriven, bus_value, chip_of, value_seen, set_source, time_after, time_of};
ghost use Rattle.script_device.specs.Inner.Numbers.{AreTables};
ghost use Rattle.script_device.specs.Simulated.{ReadsAs};
ghost use Rattle.script_device.specs.Variables.{Denotes};
ghost use Rattle.script_device.specs.Variables.Source.{BlockWord, Nodes};

use crate::bus::{bus_word, set_bus};
use crate::chip::DrivenChip;
use crate::chip_sim::ChipSim;
use crate::directory::Directory;
use crate::naming::named_nodes;
use crate::tables::Tables;
use netlist::Netlist;
use script_columns::Value;
use std::alloc::{AllocError, Global};

// The cycle after a tock.
fn next_cycle(cycle: u64, ticked: bool) -> u64
    requires { cycle + 1 < 2 ^ 64 }
    ensures value { result ≡ cond ticked (suc cycle) cycle }
    ensures near { result ≤ cycle + 1 }
{
    if ticked { cycle + 1 } else { cycle }
}

// The number of a bus of this many bits.
fn bus_value(bits: usize, word: u16) -> Value
    ensures { result ≡ bus_value bits word }
{
    if bits == 16 {
        Value::Wide(word)
    } else {
        Value::Narrow(word)
    }
}

// How many words each block of a netlist has.
fn sizes_of(alloc: Global, net: &Netlist) -> Result<Vec<u32>, AllocError>
    ensures { IfOk result (λ sizes. AreSizes sizes.items net.now) }
{
    let mut sizes = Vec::new(alloc);
    for block in net.blocks() {
        sizes.push(block.words)?;
    }
    Ok(sizes)
}

impl DrivenChip {
    /// A chip that got no calls: inputs, states and words are 0, and the time is 0.
    pub fn new(alloc: Global, net: Netlist, directory: Directory) -> Result<DrivenChip, AllocError>
        requires { OfNamed (λ k. k < length net.nodes) directory }
        ensures chip { IfOk result (λ chip. chip_of chip ≡ loaded_chip net directory) }
        ensures driven { IfOk result (λ chip. IsDriven chip []) }
        ensures runs { IfOk result (ChipRuns false) }
    {
        let sizes = sizes_of(alloc, &net)?;
        let tables = Tables::new(alloc, &directory)?;
        Ok(DrivenChip {
            sim: ChipSim::new(alloc, net)?,
            sizes,
            cycle: 0,
            ticked: false,
            directory,
            tables,
        })
    }

    /// The same with a simulator whose netlist is simplified, and that shows the same.
    pub fn simplified(
        alloc: Global,
        net: Netlist,
        directory: Directory,
    ) -> Result<DrivenChip, AllocError>
        requires there { OfNamed (λ k. k < length net.nodes) directory }
        requires few { length net.nodes < 2 ^ 32 - 1 }
        ensures chip { IfOk result (λ chip. chip_of chip ≡ loaded_chip net directory) }
        ensures driven { IfOk result (λ chip. IsDriven chip []) }
        ensures runs { IfOk result (ChipRuns true) }
    {
        let sizes = sizes_of(alloc, &net)?;
        let tables = Tables::new(alloc, &directory)?;
        let named = named_nodes(alloc, &directory)?;
        Ok(DrivenChip {
            sim: ChipSim::simplified(alloc, net, &named)?,
            sizes,
            cycle: 0,
            ticked: false,
            directory,
            tables,
        })
    }

    /// Puts it back to its start: it got no calls, and the time is 0.
    pub fn reset(&mut self)
        ensures kept { chip_of self.new ≡ chip_of self.old }
        ensures time { time_of self.new ≡ 0 }
        ensures runs { (simplify : Bool) → ChipRuns simplify self.old → ChipRuns simplify self.new }
        ensures driven { IsDriven self.new [] }
    {
        self.sim.reset();
        self.cycle = 0;
        self.ticked = false;
    }

    /// Whether its netlist is a simplified one.
    pub fn is_simplified(&self) -> bool
        ensures { ChipRuns result self.now }
    {
        self.sim.is_simplified()
    }

    /// Sets an input's nodes to the low bits of a word. It shows only after an evaluation.
    pub fn set_bus(&mut self, nodes: &[u32], word: u16)
        requires { IsInput (chip_of self.old).net nodes.now }
        ensures kept { chip_of self.new ≡ chip_of self.old }
        ensures time { time_of self.new ≡ time_of self.old }
        ensures runs { (simplify : Bool) → ChipRuns simplify self.old → ChipRuns simplify self.new }
        ensures driven { (calls : List Call) → IsDriven self.old calls → IsDriven self.new
            (set_source (chip_of self.old).net.nodes (Nodes nodes.now) word calls) }
    {
        set_bus(&mut self.sim, nodes, word);
    }

    /// Puts a word into a block.
    pub fn set_word(&mut self, block: u32, address: u32, word: u16)
        requires { MatchOption (slice_get (chip_of self.old).net.blocks block) ⊥
            (λ b. address < b.words) }
        ensures kept { chip_of self.new ≡ chip_of self.old }
        ensures time { time_of self.new ≡ time_of self.old }
        ensures runs { (simplify : Bool) → ChipRuns simplify self.old → ChipRuns simplify self.new }
        ensures driven { (calls : List Call) → IsDriven self.old calls → IsDriven self.new
            (set_source (chip_of self.old).net.nodes (BlockWord block address) word calls) }
    {
        self.sim.load_block(block, address, &[word]);
    }

    /// Puts words into a block, from its first word on.
    pub fn load_words(&mut self, block: u32, words: &[u16])
        requires { MatchOption (slice_get (chip_of self.old).net.blocks block) ⊥
            (λ b. length words.now ≤ b.words) }
        ensures kept { chip_of self.new ≡ chip_of self.old }
        ensures time { time_of self.new ≡ time_of self.old }
        ensures runs { (simplify : Bool) → ChipRuns simplify self.old → ChipRuns simplify self.new }
        ensures driven { (calls : List Call) → IsDriven self.old calls
            → IsDriven self.new (Load block 0 words.now ∷ calls) }
    {
        self.sim.load_block(block, 0, words);
    }

    /// How many words each block has.
    pub fn sizes(&self) -> &[u32]
        ensures { AreSizes result.now (chip_of self.now).net }
    {
        &self.sizes
    }

    /// Evaluates the chip.
    pub fn eval(&mut self)
        ensures kept { chip_of self.new ≡ chip_of self.old }
        ensures runs { (simplify : Bool) → ChipRuns simplify self.old → ChipRuns simplify self.new }
        ensures time { time_of self.new ≡ time_of self.old }
        ensures driven { (calls : List Call) → IsDriven self.old calls
            → IsDriven self.new (Eval ∷ calls) }
    {
        self.sim.eval();
    }

    /// Evaluates the chip and fixes the next states.
    pub fn tick(&mut self)
        ensures kept { chip_of self.new ≡ chip_of self.old }
        ensures time { time_of self.new ≡ time_of self.old }
        ensures runs { (simplify : Bool) → ChipRuns simplify self.old → ChipRuns simplify self.new }
        ensures driven { (calls : List Call) → IsDriven self.old calls
            → IsDriven self.new (Tick ∷ calls) }
    {
        self.sim.tick();
        self.ticked = true;
    }

    /// Takes the states that were fixed and evaluates. The time goes on where a tick came before.
    pub fn tock(&mut self)
        requires { time_of self.old + 1 < 2 ^ 64 }
        ensures kept { chip_of self.new ≡ chip_of self.old }
        ensures time { time_of self.new ≤ time_of self.old + 1 }
        ensures runs { (simplify : Bool) → ChipRuns simplify self.old → ChipRuns simplify self.new }
        ensures driven { (calls : List Call) → IsDriven self.old calls
            → IsDriven self.new (Tock ∷ calls) }
    {
        self.sim.tock();
        self.cycle = next_cycle(self.cycle, self.ticked);
        self.ticked = false;
    }

    /// The time.
    pub fn time(&self) -> Value
        ensures { (calls : List Call) → IsDriven self.now calls → result ≡ time_after calls }
    {
        Value::Time(self.cycle, self.ticked)
    }

    /// How many cycles are over.
    pub fn cycles(&self) -> u64
        ensures { result ≡ time_of self.now }
    {
        self.cycle
    }

    /// What stood on nodes at the last evaluation.
    pub fn bus(&self, nodes: &[u32]) -> Value
        requires bus { IsBus (chip_of self.now).net nodes.now }
        requires named { (text : List ℕ) × Denotes (chip_of self.now) text (Nodes nodes.now) }
        ensures { (calls told : List Call) (v : ℕ → ℕ → Bool) → IsDriven self.now calls
            → Sees (chip_of self.now) calls told v
            → result ≡ value_seen (chip_of self.now) calls told v (Nodes nodes.now) }
    {
        bus_value(nodes.len(), bus_word(&self.sim, nodes))
    }

    /// The word that stands in a block now.
    pub fn word(&self, block: u32, address: u32) -> Value
        requires { MatchOption (slice_get (chip_of self.now).net.blocks block) ⊥
            (λ b. address < b.words) }
        ensures { (calls told : List Call) (v : ℕ → ℕ → Bool) → IsDriven self.now calls
            → Sees (chip_of self.now) calls told v
            → result ≡ value_seen (chip_of self.now) calls told v (BlockWord block address) }
    {
        Value::Wide(self.sim.block_word(block, address))
    }

    /// The netlist that runs reads as that of the chip.
    pub fn reads_law(&self)
        ensures { ReadsAs self.now.sim.frame }
    {
        self.sim.reads_law();
    }

    /// Every list of calls has its values.
    pub fn values_law(&self)
        ensures { (calls : List Call)
            → (v : ℕ → ℕ → Bool) × AreValues (chip_of self.now).net calls v }
    {
        self.sim.values_law();
    }

    /// What has a name.
    pub fn directory(&self) -> &Directory
        ensures { result.now ≡ (chip_of self.now).directory }
    {
        &self.directory
    }

    /// The tables of what has a name.
    pub(crate) fn tables(&self) -> &Tables
        ensures { AreTables result.now (chip_of self.now).directory }
    {
        &self.tables
    }
}
