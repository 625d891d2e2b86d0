//! A netlist with the values of its nodes, sixteen side by side.

ghost use Rattle.std.specs.Prelude.{◌≡◌, ◌≢◌, ◌≤◌, ◌+◌, ℕ, ◌<◌, Bool, true, false, length, IfOk, Some, slice_get, slice_index, slice_set, vec_len};
ghost use Rattle.std.specs.List.{count_by};
ghost use Rattle.netlist.specs.Present.{IsRow, value_in};
ghost use Rattle.netlist.specs.Settled.{AreSettled};
ghost use Rattle.netlist.specs.Steps.{AreWrites, after_write, write_at};
ghost use Rattle.netlist.specs.Touched.{is_other};
ghost use Rattle.netlist.specs.Value.{written_in};
ghost use Rattle.netlist.specs.Words.{HasWords, word_at};
ghost use Rattle.netlist.specs.Inner.Taken.{is_taken};
ghost use Rattle.netlist.specs.declared.node.Node.TheVariants.{Flip, Pin};
ghost use Rattle.gate_sim.specs.Inner.Pieces.{piece_of, pieces_in, AreReaders};
ghost use Rattle.gate_sim.specs.Inner.Plans.{IsPlan, place_of};
ghost use Rattle.gate_sim.specs.Inner.Slots.{slot_at};
ghost use Rattle.gate_sim.specs.Inner.Takes.{AreTakes};

use crate::leaving::{fix_states, fix_writes, set_bit, take_states};
use crate::marked::follow_all;
use crate::pass::value_of;
use crate::pieces::{PIECE, Readers, are_readers, pieces_of, readers_of};
use crate::plain::plan_of;
use crate::plan::{Lane, Op, Plan, Slot, Take};
use crate::stretches::{Stretch, stretches_of};
use netlist::{BlockWrite, Netlist, Steps};
use std::alloc::{AllocError, Global};
use std::marker::Model;
use std::sync::ledger::Ledger;

/// A netlist with the values of its nodes, the inputs and the states of its flip-flops, and the states that the next tock takes.
pub(crate) struct Packed {
    net: Netlist,
    ops: Vec<Op>,
    lanes: Vec<u32>,
    places: Vec<Lane>,
    takes: Vec<Take>,
    stretches: Vec<Stretch>,
    slots: Vec<Slot>,
    start: Vec<u16>,
    fixed: Vec<u16>,
    readers: Readers,
    marks: Vec<bool>,
    due: Vec<bool>,
    is_small: bool,
}

// By hand, so that whoever drops one calls this.
impl Drop for Packed {
    fn drop(self) {
        let Packed {
            net: _,
            ops: _,
            lanes: _,
            places: _,
            takes: _,
            stretches: _,
            slots: _,
            start: _,
            fixed: _,
            readers: _,
            marks: _,
            due: _,
            is_small: _,
        } = self;
    }
}

impl Model for Packed {
    ghost use Rattle.gate_sim.specs.Inner.PackedState.{PackedState, PackedFits};
    ghost use Rattle.gate_sim.specs.Inner.Slots.{bits_of, values_of};

    ghost Value = { PackedState };

    ghost view = { λ p. record {
      net = p.net;
      values = values_of p.places.items p.slots.items;
      start = bits_of p.places.items p.start.items;
      fixed = bits_of p.places.items p.fixed.items;
    } };

    ghost invariant = { λ p. PackedFits p.net p.ops.items p.lanes.items p.places.items p.takes.items
        p.slots.items p.start.items p.fixed.items p.readers.spans.items p.readers.list.items
        p.readers.always.items p.marks.items p.due.items p.is_small };
}

fn blank_slots(alloc: Global, n: usize) -> Result<Vec<Slot>, AllocError>
    ensures length { IfOk result (λ v. length v.items ≡ n) }
    ensures value { IfOk result (λ v. (q : ℕ) → slot_at v.items q
        ≡ record { value = 0; change = 0 }) }
{
    vec![in alloc; Slot {
        value: 0,
        change: 0
    }; n]
}

fn no_words(alloc: Global, n: usize) -> Result<Vec<u16>, AllocError>
    ensures length { IfOk result (λ v. length v.items ≡ n) }
    ensures value { IfOk result (λ v. (q : ℕ) → slice_index v.items q ≡ 0) }
{
    vec![in alloc; 0u16; n]
}

// What a netlist keeps beside its plan, where all values are 0.
#[derive(Drop)]
struct Blank {
    slots: Vec<Slot>,
    start: Vec<u16>,
    fixed: Vec<u16>,
}

fn blank_of(alloc: Global, n: usize) -> Result<Blank, AllocError>
    ensures slots { IfOk result (λ blank. length blank.slots.items ≡ n) }
    ensures blank { IfOk result (λ blank. (q : ℕ) → slot_at blank.slots.items q
        ≡ record { value = 0; change = 0 }) }
    ensures start { IfOk result (λ blank. length blank.start.items ≡ n) }
    ensures no_start { IfOk result (λ blank. (q : ℕ) → slice_index blank.start.items q ≡ 0) }
    ensures fixed { IfOk result (λ blank. length blank.fixed.items ≡ n) }
    ensures no_fixed { IfOk result (λ blank. (q : ℕ) → slice_index blank.fixed.items q ≡ 0) }
{
    let slots = blank_slots(alloc, n)?;
    let start = no_words(alloc, n)?;
    let fixed = no_words(alloc, n)?;
    Ok(Blank {
        slots,
        start,
        fixed,
    })
}

fn all_on(alloc: Global, n: usize) -> Result<Vec<bool>, AllocError>
    ensures length { IfOk result (λ v. length v.items ≡ n) }
    ensures value { IfOk result (λ v. (m : ℕ) → m < n → value_in v.items m ≡ true) }
{
    vec![in alloc; true; n]
}

// Whether a plan is passed whole: it has few operations, or its readers are not right.
fn is_passed_whole(readers: &Readers, plan: &Plan) -> bool
    ensures { result ≡ false → AreReaders plan.now.ops.items plan.now.takes.items
        readers.now.spans.items readers.now.list.items readers.now.always.items }
{
    if plan.ops.len() <= 4096 {
        return true;
    }
    !are_readers(
        &readers.spans,
        &readers.list,
        &readers.always,
        &plan.ops,
        &plan.takes,
    )
}

// Which pieces of a plan are to be passed, and which takes are due: all of them at first.
#[derive(Drop)]
struct Marking {
    readers: Readers,
    marks: Vec<bool>,
    due: Vec<bool>,
    is_small: bool,
}

fn marking_of(alloc: Global, plan: &Plan) -> Result<Marking, AllocError>
    ensures readers { IfOk result (λ m. m.is_small ≡ false
        → AreReaders plan.now.ops.items plan.now.takes.items
        m.readers.spans.items m.readers.list.items m.readers.always.items) }
    ensures marks { IfOk result (λ m. length m.marks.items
        ≡ pieces_in (length plan.now.ops.items) + pieces_in (length plan.now.takes.items)) }
    ensures on { IfOk result (λ m. (k : ℕ) → k < length m.marks.items
        → value_in m.marks.items k ≡ true) }
    ensures due { IfOk result (λ m. length m.due.items
        ≡ pieces_in (length plan.now.takes.items)) }
    ensures all_due { IfOk result (λ m. (c : ℕ) → c < length m.due.items
        → value_in m.due.items c ≡ true) }
{
    let readers = readers_of(alloc, &plan.ops, &plan.takes)?;
    let is_small = is_passed_whole(&readers, plan);
    let parts = pieces_of(plan.takes.len());
    let marks = all_on(alloc, pieces_of(plan.ops.len()) + parts)?;
    let due = all_on(alloc, parts)?;
    Ok(Marking {
        readers,
        marks,
        due,
        is_small,
    })
}

// A netlist over a plan, where all values are 0.
fn packed_of(
    net: Netlist,
    plan: Plan,
    stretches: Vec<Stretch>,
    blank: Blank,
    marking: Marking,
) -> Packed
    requires plan { IsPlan net.nodes net.blocks plan.ops.items plan.lanes.items plan.places.items }
    requires takes { AreTakes net.nodes (length plan.ops.items) plan.lanes.items plan.places.items
        plan.takes.items }
    requires slots { length blank.slots.items ≡ vec_len plan.ops }
    requires blank { (q : ℕ) → slot_at blank.slots.items q ≡ record { value = 0; change = 0 } }
    requires start { length blank.start.items ≡ vec_len plan.ops }
    requires no_start { (q : ℕ) → slice_index blank.start.items q ≡ 0 }
    requires fixed { length blank.fixed.items ≡ vec_len plan.ops }
    requires no_fixed { (q : ℕ) → slice_index blank.fixed.items q ≡ 0 }
    requires readers { marking.is_small ≡ false → AreReaders plan.ops.items plan.takes.items
        marking.readers.spans.items marking.readers.list.items marking.readers.always.items }
    requires marks { length marking.marks.items
        ≡ pieces_in (length plan.ops.items) + pieces_in (length plan.takes.items) }
    requires on { (m : ℕ) → m < length marking.marks.items
        → value_in marking.marks.items m ≡ true }
    requires due { length marking.due.items ≡ pieces_in (length plan.takes.items) }
    requires all_due { (c : ℕ) → c < length marking.due.items
        → value_in marking.due.items c ≡ true }
    ensures net { result.net ≡ net }
    ensures start { (k : ℕ) → value_in result.start k ≡ false }
    ensures fixed { (k : ℕ) → value_in result.fixed k ≡ false }
{
    Packed {
        net,
        ops: plan.ops,
        lanes: plan.lanes,
        places: plan.places,
        takes: plan.takes,
        stretches,
        slots: blank.slots,
        start: blank.start,
        fixed: blank.fixed,
        readers: marking.readers,
        marks: marking.marks,
        due: marking.due,
        is_small: marking.is_small,
    }
}

// Marks the piece in which a node has its place.
fn mark_node(places: &[Lane], k: u32, marks: &mut [bool])
    requires node { k < length places.now }
    requires piece { piece_of (place_of places.now k).slot < length marks.old }
    ensures grows { (m : ℕ) → value_in marks.new m ≡ false → value_in marks.old m ≡ false }
    ensures on { value_in marks.new (piece_of (place_of places.now k).slot) ≡ true }
    ensures others { (m : ℕ) → m ≢ piece_of (place_of places.now k).slot
        → value_in marks.new m ≡ value_in marks.old m }
{
    marks[places[k as usize].slot as usize / PIECE] = true;
}

impl Packed {
    /// A netlist whose nodes all have the value 0. Fails only where memory is wanted.
    pub(crate) fn new(alloc: Global, net: Netlist) -> Result<Packed, AllocError>
        ensures net { IfOk result (λ packed. packed.net ≡ net) }
        ensures start { IfOk result (λ packed. (k : ℕ) → value_in packed.start k ≡ false) }
        ensures fixed { IfOk result (λ packed. (k : ℕ) → value_in packed.fixed k ≡ false) }
    {
        let plan = plan_of(alloc, net.nodes(), net.blocks())?;
        let stretches = stretches_of(alloc, &plan.ops)?;
        let blank = blank_of(alloc, plan.ops.len())?;
        let marking = marking_of(alloc, &plan)?;
        Ok(packed_of(net, plan, stretches, blank, marking))
    }

    /// Gives all nodes the value 0, as they have it at first.
    pub(crate) fn reset(&mut self)
        ensures net { self.new.net ≡ self.old.net }
        ensures start { (k : ℕ) → value_in self.new.start k ≡ false }
        ensures fixed { (k : ℕ) → value_in self.new.fixed k ≡ false }
    {
        self.slots.fill(Slot {
            value: 0,
            change: 0,
        });
        self.start.fill(0);
        self.fixed.fill(0);
        self.marks.fill(true);
        self.due.fill(true);
    }

    /// The netlist.
    pub(crate) fn net(&self) -> &Netlist
        ensures { result.now ≡ self.now.net }
    {
        &self.net
    }

    /// Gives each node its value. Only the gates and bits of words are evaluated of which an input, or the block, changed; all of them where
    /// `whole` says that nothing was evaluated before.
    pub(crate) fn follow<L: Ledger>(
        &mut self,
        memory: &[Vec<u16>],
        written: &[bool],
        whole: bool,
        steps: &mut Steps<L>,
    )
        requires written { length written.now ≡ length self.old.net.blocks }
        requires words { HasWords self.old.net.blocks memory.now }
        requires settled { whole ≡ false → AreSettled self.old.net.nodes self.old.net.blocks
            (value_in written.now) (word_at memory.now) (value_in self.old.values) }
        ensures state { self.new ≡ record self.old { values = self.new.values } }
        ensures row { IsRow self.old.net.nodes self.old.net.blocks (value_in self.old.start)
            (word_at memory.now) (value_in self.new.values) }
        ensures more { steps.old ≤ steps.new }
        ensures counted { steps.new ≤ steps.old
            + count_by (is_taken whole self.old.net.blocks
            (λ k. is_other (value_in self.old.values k) (value_in self.new.values k))
            (value_in written.now)) self.old.net.nodes }
    {
        let nodes = self.net.nodes();
        follow_all(
            self.is_small,
            nodes,
            self.net.blocks(),
            &self.ops,
            &self.lanes,
            &self.places,
            &self.takes,
            &self.stretches,
            &self.readers.spans,
            &self.readers.list,
            &self.readers.always,
            &self.start,
            memory,
            written,
            whole,
            &mut self.slots,
            &mut self.marks,
            steps,
        );
    }

    /// The value of a node.
    pub(crate) fn value(&self, node: u32) -> bool
        requires { node < length self.now.net.nodes }
        ensures { result ≡ value_in self.now.values node }
    {
        value_of(&self.places, &self.slots, node)
    }

    /// Sets an input.
    pub(crate) fn set(&mut self, node: u32, bit: bool)
        requires { slice_get self.old.net.nodes node ≡ Some Pin }
        ensures state { self.new ≡ record self.old { start = self.new.start } }
        ensures start { self.new.start ≡ slice_set self.old.start node bit }
        ensures inside { node < length self.old.start }
    {
        set_bit(&self.places, &mut self.start, node, bit);
        mark_node(&self.places, node, &mut self.marks);
    }

    /// Fixes for each flip-flop the value of its input.
    pub(crate) fn fix_states(&mut self)
        ensures state { self.new ≡ record self.old { fixed = self.new.fixed } }
        ensures flips { (k i : ℕ) → slice_get self.old.net.nodes k ≡ Some (Flip i)
            → value_in self.new.fixed k ≡ value_in self.old.values i }
    {
        fix_states(
            self.net.nodes(),
            &self.lanes,
            &self.places,
            &self.takes,
            &self.slots,
            &mut self.fixed,
            &mut self.marks,
            &mut self.due,
        );
    }

    /// Takes the states that were fixed.
    pub(crate) fn take_states(&mut self)
        ensures state { self.new ≡ record self.old { start = self.new.start } }
        ensures pins { (k : ℕ) → slice_get self.old.net.nodes k ≡ Some Pin
            → value_in self.new.start k ≡ value_in self.old.start k }
        ensures flips { (k i : ℕ) → slice_get self.old.net.nodes k ≡ Some (Flip i)
            → value_in self.new.start k ≡ value_in self.old.fixed k }
    {
        take_states(
            self.net.nodes(),
            &self.lanes,
            &self.places,
            &self.takes,
            &self.fixed,
            &mut self.start,
            &mut self.marks,
            &mut self.due,
        );
    }

    /// What each block takes in.
    pub(crate) fn fix_writes(&self, writes: &mut [Option<BlockWrite>])
        requires { length writes.old ≡ length self.now.net.blocks }
        ensures inside { AreWrites self.now.net.blocks writes.new }
        ensures words { (b a old : ℕ) → after_write (write_at writes.new b) a old
            ≡ written_in (slice_get self.now.net.blocks b) (value_in self.now.values) a old }
    {
        fix_writes(self.net.blocks(), &self.places, &self.slots, writes);
    }
}
