//! The simulator.

ghost use Rattle.std.specs.Prelude.{◌≡◌, ◌≤◌, ◌+◌, ◌-◌, ◌||◌, ℕ, ◌<◌, ◌∷◌, [], Bool, true, false, List, length, IfOk, Some, None, is_some, slice_get, MatchOption};
ghost use Rattle.netlist.specs.Histories.{rank};
ghost use Rattle.netlist.specs.Present.{value_in};
ghost use Rattle.netlist.specs.Words.{row_of, word_at};
ghost use Rattle.netlist.specs.Steps.{write_at};
ghost use Rattle.netlist.specs.declared.node.Node.TheVariants.{Pin};
ghost use Rattle.netlist.specs.declared.node.Block.{Block};
ghost use Rattle.gate_sim.specs.Calls.{Call, cycle_of, evaluated_calls};
ghost use Rattle.gate_sim.specs.Calls.Call.{Load, Set, Eval, Tick, Tock};
ghost use Rattle.gate_sim.specs.Values.{ArePast, AreValues, words_of};
ghost use Rattle.gate_sim.specs.Cycles.{CyclesLaw, StartLaw};
ghost use Rattle.gate_sim.specs.Rows.{RowsLaw};
ghost use Rattle.gate_sim.specs.Touched.{AreFewSteps};
ghost use Rattle.gate_sim.specs.Stands.{Keeps, IsFresh, StandsFor};
ghost use Rattle.gate_sim.specs.Inner.Evaluated.{IsEvaluated, taken_by};

use crate::packed::Packed;
use netlist::{BlockWrite, Netlist, Steps, put_all, store, zeros};
use std::alloc::{AllocError, Global};
use std::marker::{Brand, Model};
use std::sync::ledger::{Blank, Ledger};

/// A netlist with its present state: inputs and states, the values of the last evaluation, what the next tock takes, and the words in the
/// blocks. So that an evaluation takes only what is touched: whether the values are those of now, which blocks were written since, and
/// whether nothing was evaluated yet.
pub struct Sim {
    packed: Packed,
    writes: Vec<Option<BlockWrite>>,
    memory: Vec<Vec<u16>>,
    fresh: bool,
    written: Vec<bool>,
    whole: bool,
}

// By hand, so that whoever drops one calls this.
impl Drop for Sim {
    fn drop(self) {
        let Sim {
            packed: _,
            writes: _,
            memory: _,
            fresh: _,
            written: _,
            whole: _,
        } = self;
    }
}

impl Model for Sim {
    ghost use Rattle.gate_sim.specs.State.{SimState};
    ghost use Rattle.gate_sim.specs.Inner.Fits.{SimFits};

    ghost Value = { SimState };

    ghost view = { λ sim. record {
      net = sim.packed.net;
      start = sim.packed.start;
      values = sim.packed.values;
      fixed = sim.packed.fixed;
      writes = sim.writes.items;
      memory = sim.memory.items;
      fresh = sim.fresh;
      written = sim.written.items;
      whole = sim.whole;
    } };

    ghost invariant = { λ sim. SimFits sim.packed.net sim.packed.start sim.packed.values
        sim.writes.items sim.memory.items sim.fresh sim.written.items sim.whole };
}

fn all_false(alloc: Global, n: usize) -> Result<Vec<bool>, AllocError>
    ensures length { IfOk result (λ v. length v.items ≡ n) }
    ensures value { IfOk result (λ v. (k : ℕ) → value_in v.items k ≡ false) }
{
    vec![in alloc; false; n]
}

fn no_writes(alloc: Global, n: usize) -> Result<Vec<Option<BlockWrite>>, AllocError>
    ensures length { IfOk result (λ v. length v.items ≡ n) }
    ensures value { IfOk result (λ v. (b : ℕ) → write_at v.items b ≡ None) }
{
    vec![in alloc; None; n]
}

// The blocks that are written at a tock.
fn mark_writes(writes: &[Option<BlockWrite>], written: &mut [bool])
    requires { length written.old ≡ length writes.now }
    ensures { (b : ℕ)
        → value_in written.new b ≡ (value_in written.old b || is_some (write_at writes.now b)) }
{
    for b in 0..writes.len() {
        written[b] = written[b] | writes[b].is_some();
    }
}

// No block was written.
fn clear(written: &mut [bool])
    ensures { (b : ℕ) → value_in written.new b ≡ false }
{
    for b in 0..written.len() {
        written[b] = false;
    }
}

// No block takes in a word.
fn clear_writes(writes: &mut [Option<BlockWrite>])
    ensures { (b : ℕ) → write_at writes.new b ≡ None }
{
    for b in 0..writes.len() {
        writes[b] = None;
    }
}

// All words are 0.
fn clear_words(memory: &mut [Vec<u16>])
    ensures sizes { (b : ℕ) → length (row_of memory.new b) ≡ length (row_of memory.old b) }
    ensures zeros { (b a : ℕ) → word_at memory.new b a ≡ 0 }
{
    for b in 0..memory.len() {
        memory[b].fill(0);
    }
}

impl Sim {
    /// A simulator that got no calls: inputs, states and words are 0. Fails only where memory is wanted.
    pub fn new(alloc: Global, net: Netlist) -> Result<Sim, AllocError>
        ensures net { IfOk result (λ sim. sim.net ≡ net) }
        ensures stands { IfOk result (λ sim. StandsFor sim []) }
    {
        let writes = no_writes(alloc, net.blocks().len())?;
        let memory = zeros(alloc, net.blocks())?;
        let written = all_false(alloc, net.blocks().len())?;
        let packed = Packed::new(alloc, net)?;
        Ok(Sim {
            packed,
            writes,
            memory,
            fresh: false,
            written,
            whole: true,
        })
    }

    /// Puts it back to what `new` gives for its netlist: it got no calls. It wants no memory.
    pub fn reset(&mut self)
        ensures net { self.new.net ≡ self.old.net }
        ensures stands { StandsFor self.new [] }
    {
        self.packed.reset();
        clear_writes(&mut self.writes);
        clear_words(&mut self.memory);
        clear(&mut self.written);
        self.fresh = false;
        self.whole = true;
    }

    /// Puts words into a block from an address on.
    pub fn load_block(&mut self, block: u32, from: u32, words: &[u16])
        requires { MatchOption (slice_get self.old.net.blocks block) ⊥
            (λ b. from + length words.now ≤ b.words) }
        ensures net { self.new.net ≡ self.old.net }
        ensures stands { (calls : List Call) → StandsFor self.old calls
            → StandsFor self.new (Load block from words.now ∷ calls) }
    {
        put_all(&mut self.memory, block as usize, from as usize, words);
        let written = self.written[block as usize] | !words.is_empty();
        self.written[block as usize] = written;
        self.fresh = false;
    }

    /// Sets an input.
    pub fn set(&mut self, node: u32, bit: bool)
        requires { slice_get self.old.net.nodes node ≡ Some Pin }
        ensures net { self.new.net ≡ self.old.net }
        ensures stands { (calls : List Call) → StandsFor self.old calls
            → StandsFor self.new (Set (rank self.old.net.nodes node) bit ∷ calls) }
    {
        self.packed.set(node, bit);
        self.fresh = false;
    }

    // Evaluates what is touched, where the values aren't those of an evaluation now.
    fn refresh<L: Ledger>(&mut self, steps: &mut Steps<L>)
        ensures net { self.new.net ≡ self.old.net }
        ensures fresh { self.new.fresh ≡ true }
        ensures evaluated { IsEvaluated self.new }
        ensures keeps { (calls : List Call) → Keeps self.old calls → Keeps self.new calls }
        ensures values { (calls : List Call) → Keeps self.old calls
            → (self.old.fresh ≡ true → IsFresh self.old calls) → IsFresh self.new calls }
        ensures counted { steps.old ≤ steps.new }
        ensures few { steps.new ≤ steps.old + taken_by self.old self.new.values }
    {
        if !self.fresh {
            self.packed
                .follow(&self.memory, &self.written, self.whole, steps);
            clear(&mut self.written);
            self.whole = false;
            self.fresh = true;
        }
    }

    // Fixes what the next tock takes.
    fn fix(&mut self)
        ensures net { self.new.net ≡ self.old.net }
        ensures keeps { (calls : List Call) → Keeps self.old calls → IsFresh self.old calls
            → Keeps self.new (Tick ∷ calls) }
        ensures values { (calls : List Call) → IsFresh self.old calls
            → IsFresh self.new (Tick ∷ calls) }
        ensures evaluated { IsEvaluated self.old → IsEvaluated self.new }
    {
        self.packed.fix_writes(&mut self.writes);
        self.packed.fix_states();
    }

    // Takes what was fixed.
    fn take(&mut self)
        ensures net { self.new.net ≡ self.old.net }
        ensures fresh { self.new.fresh ≡ false }
        ensures keeps { (calls : List Call) → Keeps self.old calls → Keeps self.new (Tock ∷ calls) }
        ensures values { self.new.values ≡ self.old.values }
        ensures whole { self.new.whole ≡ self.old.whole }
        ensures written { (b : ℕ) → value_in self.new.written b
            ≡ (value_in self.old.written b || is_some (write_at self.old.writes b)) }
    {
        store(self.packed.net().blocks(), &self.writes, &mut self.memory);
        mark_writes(&self.writes, &mut self.written);
        self.packed.take_states();
        self.fresh = false;
    }

    /// Evaluates the chip.
    pub fn eval(&mut self)
        ensures net { self.new.net ≡ self.old.net }
        ensures stands { (calls : List Call) → StandsFor self.old calls
            → StandsFor self.new (Eval ∷ calls) }
    {
        self.eval_uncounted::<Brand>(Blank::new(1));
    }

    /// Evaluates the chip, and counts the gates and bits of words that it evaluates.
    pub fn eval_steps<L: Ledger>(&mut self, steps: &mut Steps<L>)
        ensures net { self.new.net ≡ self.old.net }
        ensures stands { (calls : List Call) → StandsFor self.old calls
            → StandsFor self.new (Eval ∷ calls) }
        ensures counted { steps.old ≤ steps.new }
        ensures few { (calls : List Call) → StandsFor self.old calls
            → AreFewSteps self.old.net calls Eval (steps.new - steps.old) }
    {
        self.refresh(steps);
    }

    fn eval_uncounted<L: Ledger>(&mut self, blank: Blank)
        requires name { blank.name ≡ L.name }
        requires parts { blank.parts ≡ L.parts }
        requires some { 0 < blank.parts }
        ensures net { self.new.net ≡ self.old.net }
        ensures stands { (calls : List Call) → StandsFor self.old calls
            → StandsFor self.new (Eval ∷ calls) }
    {
        let mut steps = Steps::<L>::new(blank);
        self.eval_steps(&mut steps);
    }

    /// Evaluates the chip and fixes the next states.
    pub fn tick(&mut self)
        ensures net { self.new.net ≡ self.old.net }
        ensures stands { (calls : List Call) → StandsFor self.old calls
            → StandsFor self.new (Tick ∷ calls) }
    {
        self.tick_uncounted::<Brand>(Blank::new(1));
    }

    /// Evaluates the chip and fixes the next states, and counts the gates and bits of words that it evaluates.
    pub fn tick_steps<L: Ledger>(&mut self, steps: &mut Steps<L>)
        ensures net { self.new.net ≡ self.old.net }
        ensures stands { (calls : List Call) → StandsFor self.old calls
            → StandsFor self.new (Tick ∷ calls) }
        ensures counted { steps.old ≤ steps.new }
        ensures few { (calls : List Call) → StandsFor self.old calls
            → AreFewSteps self.old.net calls Tick (steps.new - steps.old) }
    {
        self.refresh(steps);
        self.fix();
    }

    fn tick_uncounted<L: Ledger>(&mut self, blank: Blank)
        requires name { blank.name ≡ L.name }
        requires parts { blank.parts ≡ L.parts }
        requires some { 0 < blank.parts }
        ensures net { self.new.net ≡ self.old.net }
        ensures stands { (calls : List Call) → StandsFor self.old calls
            → StandsFor self.new (Tick ∷ calls) }
    {
        let mut steps = Steps::<L>::new(blank);
        self.tick_steps(&mut steps);
    }

    /// Takes the states that were fixed and evaluates.
    pub fn tock(&mut self)
        ensures net { self.new.net ≡ self.old.net }
        ensures stands { (calls : List Call) → StandsFor self.old calls
            → StandsFor self.new (Tock ∷ calls) }
    {
        self.tock_uncounted::<Brand>(Blank::new(1));
    }

    /// Takes the states that were fixed and evaluates, and counts the gates and bits of words that it evaluates.
    pub fn tock_steps<L: Ledger>(&mut self, steps: &mut Steps<L>)
        ensures net { self.new.net ≡ self.old.net }
        ensures stands { (calls : List Call) → StandsFor self.old calls
            → StandsFor self.new (Tock ∷ calls) }
        ensures counted { steps.old ≤ steps.new }
        ensures few { (calls : List Call) → StandsFor self.old calls
            → AreFewSteps self.old.net calls Tock (steps.new - steps.old) }
    {
        self.take();
        self.refresh(steps);
    }

    fn tock_uncounted<L: Ledger>(&mut self, blank: Blank)
        requires name { blank.name ≡ L.name }
        requires parts { blank.parts ≡ L.parts }
        requires some { 0 < blank.parts }
        ensures net { self.new.net ≡ self.old.net }
        ensures stands { (calls : List Call) → StandsFor self.old calls
            → StandsFor self.new (Tock ∷ calls) }
    {
        let mut steps = Steps::<L>::new(blank);
        self.tock_steps(&mut steps);
    }

    /// A tick and a tock.
    pub fn cycle(&mut self)
        ensures net { self.new.net ≡ self.old.net }
        ensures stands { (calls : List Call) → StandsFor self.old calls
            → StandsFor self.new (Tock ∷ Tick ∷ calls) }
    {
        self.tick();
        self.tock();
    }

    /// A tick and a tock, and counts the gates and bits of words that they evaluate.
    pub fn cycle_steps<L: Ledger>(&mut self, steps: &mut Steps<L>)
        ensures net { self.new.net ≡ self.old.net }
        ensures stands { (calls : List Call) → StandsFor self.old calls
            → StandsFor self.new (Tock ∷ Tick ∷ calls) }
        ensures few { (calls : List Call) → StandsFor self.old calls → (a : ℕ)
            × (b : ℕ) × (steps.new ≡ steps.old + (a + b)) × AreFewSteps self.old.net calls Tick a
            × AreFewSteps self.old.net (Tick ∷ calls) Tock b }
    {
        self.tick_steps(steps);
        self.tock_steps(steps);
    }

    /// The value of a node at the last evaluation.
    pub fn get(&self, node: u32) -> bool
        requires { node < length self.now.net.nodes }
        ensures stored { result ≡ value_in self.now.values node }
        ensures told { (calls earlier : List Call) (v : ℕ → ℕ → Bool) → StandsFor self.now calls
            → evaluated_calls calls ≡ Some earlier → AreValues self.now.net earlier v
            → result ≡ v node (cycle_of earlier) }
    {
        self.packed.value(node)
    }

    /// The word at an address of a block now.
    pub fn block_word(&self, block: u32, a: u32) -> u16
        requires { MatchOption (slice_get self.now.net.blocks block) ⊥ (λ b. a < b.words) }
        ensures stored { result ≡ word_at self.now.memory block a }
        ensures told { (calls : List Call) (v : ℕ → ℕ → Bool)
            → StandsFor self.now calls → ArePast self.now.net calls (cycle_of calls) v
            → result ≡ words_of self.now.net.blocks v calls block a }
    {
        self.memory[block as usize][a as usize]
    }

    /// Every list of calls has its values.
    pub fn values_law(&self)
        ensures { (calls : List Call) → (v : ℕ → ℕ → Bool) × AreValues self.now.net calls v }
    {
        self.packed.net().ordered_law();
    }
}

/// Calls that go through whole cycles, with words put before the first alone, have the values of a history.
pub fn cycles_law()
    ensures start { StartLaw }
    ensures cycles { CyclesLaw }
{}

/// What is touched in small netlists.
pub fn touched_law()
    ensures { RowsLaw }
{}
