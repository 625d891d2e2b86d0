//! What a cycle leaves for the next, read from lanes.

ghost use Rattle.std.specs.Prelude.{◌≡◌, ℕ, ◌+◌, ◌*◌, ◌<◌, ◌≤◌, false, true, length, IfSome, Some, slice_get, slice_index, slice_set, ◌≢◌};
ghost use Rattle.netlist.specs.declared.node.Block.{Block};
ghost use Rattle.netlist.specs.declared.node.Node.TheVariants.{Flip, Pin};
ghost use Rattle.netlist.specs.Order.{HasInputs};
ghost use Rattle.netlist.specs.Value.{spelled_number, written_in};
ghost use Rattle.netlist.specs.Present.{value_in};
ghost use Rattle.netlist.specs.Steps.{AreWrites, after_write, write_at};
ghost use Rattle.word16.specs.Words.{has_bit};
ghost use Rattle.gate_sim.specs.declared.plan.Take.{Take};
ghost use Rattle.gate_sim.specs.Inner.Pieces.{piece_of, pieces_in, IsGiven, AreGiven, take_mark};
ghost use Rattle.gate_sim.specs.Inner.Plans.{place_of, IsPlaced};
ghost use Rattle.gate_sim.specs.Inner.Slots.{value_at, values_of, word_lane, bits_of, AreStored, ArePlacedIn};
ghost use Rattle.gate_sim.specs.Inner.Takes.{AreTakes};

use crate::marked::end_of;
use crate::pass::{chosen, number, value_of};
use crate::pieces::PIECE;
use crate::plan::{Lane, Slot, Take};
use netlist::{Block, BlockWrite, Node};

fn data_word(block: &Block, places: &[Lane], slots: &[Slot]) -> u16
    requires block { HasInputs (length places.now) block.now }
    requires places { ArePlacedIn (length slots.now) places.now }
    ensures { result ≡ spelled_number (value_at places.now slots.now) block.now.data }
{
    number(block.data.as_slice(), places, slots) as u16
}

// What a block takes in.
fn write_of(block: &Block, places: &[Lane], slots: &[Slot]) -> Option<BlockWrite>
    requires block { HasInputs (length places.now) block.now }
    requires places { ArePlacedIn (length slots.now) places.now }
    ensures inside { IfSome result (λ w. w.address < block.now.words) }
    ensures word { (a old : ℕ) → after_write result a old
        ≡ written_in (Some block.now) (value_at places.now slots.now) a old }
{
    if !value_of(places, slots, block.load) {
        return None;
    }
    let a = number(block.address.as_slice(), places, slots);
    if a < u64::from(block.words) {
        Some(BlockWrite {
            address: a as u32,
            word: data_word(block, places, slots),
        })
    } else {
        None
    }
}

/// What each block takes in.
pub(crate) fn fix_writes(
    blocks: &[Block],
    places: &[Lane],
    slots: &[Slot],
    writes: &mut [Option<BlockWrite>],
)
    requires inputs { (b : ℕ) (block : Block) → slice_get blocks.now b ≡ Some block
        → HasInputs (length places.now) block }
    requires writes { length writes.old ≡ length blocks.now }
    requires places { ArePlacedIn (length slots.now) places.now }
    ensures inside { AreWrites blocks.now writes.new }
    ensures words { (b a old : ℕ) → after_write (write_at writes.new b) a old
        ≡ written_in (slice_get blocks.now b) (value_at places.now slots.now) a old }
{
    for b in 0..blocks.len() {
        writes[b] = write_of(&blocks[b], places, slots);
    }
}

// The bits that flip-flops take, in their lanes.
#[inline(always)]
fn lower(value: u16, down: u8) -> u16
    requires { down < 16 }
    ensures { (l : ℕ) → has_bit result l ≡ has_bit value (l + down) }
{
    value >> down
}

// Fixes what the takes from one up to another give. What was right stays so.
fn fix_some(
    from: usize,
    end: usize,
    nodes: &[Node],
    lanes: &[u32],
    places: &[Lane],
    takes: &[Take],
    slots: &[Slot],
    fixed: &mut [u16],
)
    requires end { end ≤ length takes.now }
    requires takes { AreTakes nodes.now (length slots.now) lanes.now places.now takes.now }
    requires placed { (k : ℕ) → k < length nodes.now
        → IsPlaced (length slots.now) lanes.now places.now k }
    requires nodes { length places.now ≡ length nodes.now }
    requires inputs { (k i : ℕ) → slice_get nodes.now k ≡ Some (Flip i) → i < length nodes.now }
    requires stored { AreStored (length nodes.now) lanes.now
        (value_in (values_of places.now slots.now)) slots.now }
    requires fixed { length fixed.old ≡ length slots.now }
    ensures given { (k i t : ℕ) (take : Take) → from ≤ t → t < end
        → slice_get nodes.now k ≡ Some (Flip i) → IsGiven places.now takes.now k t take
        → word_lane fixed.new (place_of places.now k)
        ≡ value_in (values_of places.now slots.now) i }
    ensures kept { (k i : ℕ) → slice_get nodes.now k ≡ Some (Flip i)
        → word_lane fixed.old (place_of places.now k)
        ≡ value_in (values_of places.now slots.now) i
        → word_lane fixed.new (place_of places.now k)
        ≡ value_in (values_of places.now slots.now) i }
{
    for t in from..end {
        let take = takes[t];
        let value = lower(slots[take.source as usize].value, take.down);
        let word = chosen(fixed[take.slot as usize], value, take.mask);
        fixed[take.slot as usize] = word;
    }
}

// Fixes what piece c of the takes gives, where it is marked; where not, it is right.
fn fix_piece(
    c: usize,
    is_on: bool,
    nodes: &[Node],
    lanes: &[u32],
    places: &[Lane],
    takes: &[Take],
    slots: &[Slot],
    fixed: &mut [u16],
)
    requires piece { c < pieces_in (length takes.now) }
    requires takes { AreTakes nodes.now (length slots.now) lanes.now places.now takes.now }
    requires placed { (k : ℕ) → k < length nodes.now
        → IsPlaced (length slots.now) lanes.now places.now k }
    requires nodes { length places.now ≡ length nodes.now }
    requires inputs { (k i : ℕ) → slice_get nodes.now k ≡ Some (Flip i) → i < length nodes.now }
    requires stored { AreStored (length nodes.now) lanes.now
        (value_in (values_of places.now slots.now)) slots.now }
    requires fixed { length fixed.old ≡ length slots.now }
    requires given { is_on ≡ false → (k i t : ℕ) (take : Take) → piece_of t ≡ c
        → slice_get nodes.now k ≡ Some (Flip i) → IsGiven places.now takes.now k t take
        → word_lane fixed.old (place_of places.now k)
        ≡ value_in (values_of places.now slots.now) i }
    ensures given { (k i t : ℕ) (take : Take) → piece_of t ≡ c
        → slice_get nodes.now k ≡ Some (Flip i) → IsGiven places.now takes.now k t take
        → word_lane fixed.new (place_of places.now k)
        ≡ value_in (values_of places.now slots.now) i }
    ensures kept { (k i : ℕ) → slice_get nodes.now k ≡ Some (Flip i)
        → word_lane fixed.old (place_of places.now k)
        ≡ value_in (values_of places.now slots.now) i
        → word_lane fixed.new (place_of places.now k)
        ≡ value_in (values_of places.now slots.now) i }
{
    if !is_on {
        return;
    }
    fix_some(
        PIECE * c,
        end_of(c, takes.len()),
        nodes,
        lanes,
        places,
        takes,
        slots,
        fixed,
    );
}

/// Fixes for each flip-flop the value of its input. Takes are passed whose mark is on; then it is off, and they are due at the next tock.
pub(crate) fn fix_states(
    nodes: &[Node],
    lanes: &[u32],
    places: &[Lane],
    takes: &[Take],
    slots: &[Slot],
    fixed: &mut [u16],
    marks: &mut [bool],
    due: &mut [bool],
)
    requires takes { AreTakes nodes.now (length slots.now) lanes.now places.now takes.now }
    requires placed { (k : ℕ) → k < length nodes.now
        → IsPlaced (length slots.now) lanes.now places.now k }
    requires nodes { length places.now ≡ length nodes.now }
    requires inputs { (k i : ℕ) → slice_get nodes.now k ≡ Some (Flip i) → i < length nodes.now }
    requires stored { AreStored (length nodes.now) lanes.now
        (value_in (values_of places.now slots.now)) slots.now }
    requires fixed { length fixed.old ≡ length slots.now }
    requires marks { pieces_in (length slots.now) + pieces_in (length takes.now)
        ≤ length marks.old }
    requires due { length due.old ≡ pieces_in (length takes.now) }
    requires given { AreGiven nodes.now places.now takes.now
        (take_mark (pieces_in (length slots.now)) marks.old)
        (λ k i. value_in (values_of places.now slots.now) i) fixed.old }
    ensures flips { (k i : ℕ) → slice_get nodes.now k ≡ Some (Flip i)
        → word_lane fixed.new (place_of places.now k)
        ≡ value_in (values_of places.now slots.now) i }
    ensures pieces { (m : ℕ) → m < pieces_in (length slots.now)
        → value_in marks.new m ≡ value_in marks.old m }
    ensures due { (c : ℕ) → c < pieces_in (length takes.now) → value_in due.new c ≡ false
        → (value_in due.old c ≡ false)
        × (value_in marks.old (pieces_in (length slots.now) + c) ≡ false) }
{
    let before = slots.len() / PIECE + 1;
    for c in 0..due.len() {
        let is_on = marks[before + c];
        fix_piece(c, is_on, nodes, lanes, places, takes, slots, fixed);
        due[c] = due[c] | is_on;
        marks[before + c] = false;
    }
}

// Marks the piece of a slot.
#[inline(always)]
fn mark_slot(q: usize, marks: &mut [bool])
    requires { piece_of q < length marks.old }
    ensures grows { (m : ℕ) → value_in marks.new m ≡ false → value_in marks.old m ≡ false }
    ensures on { value_in marks.new (piece_of q) ≡ true }
{
    marks[q / PIECE] = true;
}

// Takes the states that the takes from one up to another give, and marks the pieces that get them.
fn take_some(
    from: usize,
    end: usize,
    nodes: &[Node],
    lanes: &[u32],
    places: &[Lane],
    takes: &[Take],
    fixed: &[u16],
    start: &mut [u16],
    marks: &mut [bool],
)
    requires end { end ≤ length takes.now }
    requires takes { AreTakes nodes.now (length start.old) lanes.now places.now takes.now }
    requires placed { (k : ℕ) → k < length nodes.now
        → IsPlaced (length start.old) lanes.now places.now k }
    requires fixed { length fixed.now ≡ length start.old }
    requires marks { pieces_in (length start.old) ≤ length marks.old }
    ensures pins { (k : ℕ) → slice_get nodes.now k ≡ Some Pin
        → word_lane start.new (place_of places.now k)
        ≡ word_lane start.old (place_of places.now k) }
    ensures given { (k i t : ℕ) (take : Take) → from ≤ t → t < end
        → slice_get nodes.now k ≡ Some (Flip i) → IsGiven places.now takes.now k t take
        → word_lane start.new (place_of places.now k)
        ≡ word_lane fixed.now (place_of places.now k) }
    ensures kept { (k i : ℕ) → slice_get nodes.now k ≡ Some (Flip i)
        → word_lane start.old (place_of places.now k)
        ≡ word_lane fixed.now (place_of places.now k)
        → word_lane start.new (place_of places.now k)
        ≡ word_lane fixed.now (place_of places.now k) }
    ensures grows { (m : ℕ) → value_in marks.new m ≡ false → value_in marks.old m ≡ false }
    ensures same { (q : ℕ) → value_in marks.new (piece_of q) ≡ false
        → slice_index start.new q ≡ slice_index start.old q }
{
    for t in from..end {
        let take = takes[t];
        let word = chosen(
            start[take.slot as usize],
            fixed[take.slot as usize],
            take.mask,
        );
        start[take.slot as usize] = word;
        mark_slot(take.slot as usize, marks);
    }
}

// Takes the states that piece c of the takes gives, where it is due; where not, they are right.
fn take_piece(
    c: usize,
    is_due: bool,
    nodes: &[Node],
    lanes: &[u32],
    places: &[Lane],
    takes: &[Take],
    fixed: &[u16],
    start: &mut [u16],
    marks: &mut [bool],
)
    requires piece { c < pieces_in (length takes.now) }
    requires takes { AreTakes nodes.now (length start.old) lanes.now places.now takes.now }
    requires placed { (k : ℕ) → k < length nodes.now
        → IsPlaced (length start.old) lanes.now places.now k }
    requires fixed { length fixed.now ≡ length start.old }
    requires marks { pieces_in (length start.old) ≤ length marks.old }
    requires given { is_due ≡ false → (k i t : ℕ) (take : Take) → piece_of t ≡ c
        → slice_get nodes.now k ≡ Some (Flip i) → IsGiven places.now takes.now k t take
        → word_lane start.old (place_of places.now k)
        ≡ word_lane fixed.now (place_of places.now k) }
    ensures pins { (k : ℕ) → slice_get nodes.now k ≡ Some Pin
        → word_lane start.new (place_of places.now k)
        ≡ word_lane start.old (place_of places.now k) }
    ensures given { (k i t : ℕ) (take : Take) → piece_of t ≡ c
        → slice_get nodes.now k ≡ Some (Flip i) → IsGiven places.now takes.now k t take
        → word_lane start.new (place_of places.now k)
        ≡ word_lane fixed.now (place_of places.now k) }
    ensures kept { (k i : ℕ) → slice_get nodes.now k ≡ Some (Flip i)
        → word_lane start.old (place_of places.now k)
        ≡ word_lane fixed.now (place_of places.now k)
        → word_lane start.new (place_of places.now k)
        ≡ word_lane fixed.now (place_of places.now k) }
    ensures grows { (m : ℕ) → value_in marks.new m ≡ false → value_in marks.old m ≡ false }
    ensures same { (q : ℕ) → value_in marks.new (piece_of q) ≡ false
        → slice_index start.new q ≡ slice_index start.old q }
{
    if !is_due {
        return;
    }
    take_some(
        PIECE * c,
        end_of(c, takes.len()),
        nodes,
        lanes,
        places,
        takes,
        fixed,
        start,
        marks,
    );
}

/// Takes the states that were fixed: those that are due.
pub(crate) fn take_states(
    nodes: &[Node],
    lanes: &[u32],
    places: &[Lane],
    takes: &[Take],
    fixed: &[u16],
    start: &mut [u16],
    marks: &mut [bool],
    due: &mut [bool],
)
    requires takes { AreTakes nodes.now (length start.old) lanes.now places.now takes.now }
    requires placed { (k : ℕ) → k < length nodes.now
        → IsPlaced (length start.old) lanes.now places.now k }
    requires fixed { length fixed.now ≡ length start.old }
    requires marks { pieces_in (length start.old) ≤ length marks.old }
    requires due { length due.old ≡ pieces_in (length takes.now) }
    requires given { AreGiven nodes.now places.now takes.now (λ t. value_in due.old (piece_of t))
        (λ k i. word_lane fixed.now (place_of places.now k)) start.old }
    ensures pins { (k : ℕ) → slice_get nodes.now k ≡ Some Pin
        → word_lane start.new (place_of places.now k)
        ≡ word_lane start.old (place_of places.now k) }
    ensures flips { (k i : ℕ) → slice_get nodes.now k ≡ Some (Flip i)
        → word_lane start.new (place_of places.now k)
        ≡ word_lane fixed.now (place_of places.now k) }
    ensures grows { (m : ℕ) → value_in marks.new m ≡ false → value_in marks.old m ≡ false }
    ensures same { (q : ℕ) → value_in marks.new (piece_of q) ≡ false
        → slice_index start.new q ≡ slice_index start.old q }
{
    for c in 0..due.len() {
        take_piece(c, due[c], nodes, lanes, places, takes, fixed, start, marks);
        due[c] = false;
    }
}

// The word with one of its bits.
fn with_bit(word: u16, l: u8, bit: bool) -> u16
    requires { l < 16 }
    ensures here { has_bit result l ≡ bit }
    ensures others { (m : ℕ) → m < 16 → m ≢ l → has_bit result m ≡ has_bit word m }
{
    let mask = 1u16 << l;
    if bit {
        word | mask
    } else {
        word & (mask ^ 65535)
    }
}

/// Sets the bit of a node.
pub(crate) fn set_bit(places: &[Lane], words: &mut [u16], k: u32, bit: bool)
    requires node { k < length places.now }
    requires places { ArePlacedIn (length words.old) places.now }
    requires apart { (i j : ℕ) → i < length places.now → j < length places.now
        → (place_of places.now i).slot ≡ (place_of places.now j).slot → (place_of places.now i).at
        ≡ (place_of places.now j).at → i ≡ j }
    ensures bits { bits_of places.now words.new ≡ slice_set (bits_of places.now words.old) k bit }
    ensures others { (q : ℕ) → q ≢ (place_of places.now k).slot
        → slice_index words.new q ≡ slice_index words.old q }
{
    let place = places[k as usize];
    let word = with_bit(words[place.slot as usize], place.at, bit);
    words[place.slot as usize] = word;
}
