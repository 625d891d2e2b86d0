//! Evaluation that follows changes, by a plan: slot after slot, in which only what is touched is evaluated.

ghost use Rattle.std.specs.Prelude.{◌≡◌, ℕ, ◌+◌, ◌-◌, ◌*◌, ◌/◌, ◌%◌, ◌<◌, ◌≤◌, ◌≢◌, ◌^◌, Bool, true, false, not, ◌&&◌, ◌||◌, if◌then◌else◌, List, length, min, Some, slice_get, slice_index, slice_set, MatchOption};
ghost use Rattle.std.specs.List.{All, list_any, count_by};
ghost use Rattle.word16.specs.Words.{has_bit};
ghost use Rattle.netlist.specs.declared.node.Block.{Block};
ghost use Rattle.netlist.specs.Order.{AreOrdered, HasInputs};
ghost use Rattle.netlist.specs.Value.{spelled_number, shown_value};
ghost use Rattle.netlist.specs.Present.{IsRow, value_in};
ghost use Rattle.netlist.specs.Reads.{address_in};
ghost use Rattle.netlist.specs.Settled.{AreSettled};
ghost use Rattle.netlist.specs.Touched.{is_other};
ghost use Rattle.netlist.specs.Words.{HasWords, word_at};
ghost use Rattle.netlist.specs.Inner.Taken.{is_taken};
ghost use Rattle.gate_sim.specs.Inner.Plans.{node_at, place_of, lane_mask, AreSideBySide, IsLane, IsPlaced, IsPlan};
ghost use Rattle.gate_sim.specs.Inner.Slots.{slot_at, lane_value, value_at, change_at, values_of, bits_of, HasValues, IsPassedSlot, AreStored, ArePassed, ArePlacedIn, Evaluates, count_below, is_taken_before, PassesOp, Passes};

use crate::plan::{Lane, Op, Slot, node_at};
use crate::stretches::{OpKind, Stretch, is_of_kind};
use netlist::{Block, Node, Steps};
use std::sync::ledger::Ledger;
use word16::{bit, truth};

// Slot q.
#[inline(always)]
fn slot_at(slots: &[Slot], q: u32) -> Slot
    requires { q < length slots.now }
    ensures { result ≡ slot_at slots.now q }
{
    Slot {
        value: slots[q as usize].value,
        change: slots[q as usize].change,
    }
}

// Slot q, by its index.
#[inline(always)]
fn slot_in(slots: &[Slot], q: usize) -> Slot
    requires { q < length slots.now }
    ensures { result ≡ slot_at slots.now q }
{
    Slot {
        value: slots[q].value,
        change: slots[q].change,
    }
}

// The place of a node.
#[inline(always)]
fn place_at(places: &[Lane], k: u32) -> Lane
    requires { k < length places.now }
    ensures { result ≡ place_of places.now k }
{
    Lane {
        slot: places[k as usize].slot,
        at: places[k as usize].at,
    }
}

/// The value in a lane.
#[inline(always)]
pub(crate) fn lane_value(slots: &[Slot], lane: Lane) -> bool
    requires slot { lane.slot < length slots.now }
    requires lane { lane.at < 16 }
    ensures { result ≡ lane_value slots.now lane }
{
    bit(slot_at(slots, lane.slot).value, u16::from(lane.at))
}

// The value in a lane, by the lane's mask.
#[inline(always)]
fn masked_value(slots: &[Slot], lane: Lane, mask: u16) -> bool
    requires slot { lane.slot < length slots.now }
    requires lane { lane.at < 16 }
    requires mask { mask ≡ lane_mask lane.at }
    ensures { result ≡ lane_value slots.now lane }
{
    slot_at(slots, lane.slot).value & mask != 0
}

// Whether the value in a lane is another one than before, by the lane's mask.
#[inline(always)]
fn masked_change(slots: &[Slot], lane: Lane, mask: u16) -> bool
    requires slot { lane.slot < length slots.now }
    requires lane { lane.at < 16 }
    requires mask { mask ≡ lane_mask lane.at }
    ensures { result ≡ has_bit (slot_at slots.now lane.slot).change lane.at }
{
    slot_at(slots, lane.slot).change & mask != 0
}

// Whether the value in a lane is another one than before.
#[inline(always)]
fn lane_changed(slots: &[Slot], lane: Lane) -> bool
    requires slot { lane.slot < length slots.now }
    requires lane { lane.at < 16 }
    ensures { result ≡ has_bit (slot_at slots.now lane.slot).change lane.at }
{
    bit(slot_at(slots, lane.slot).change, u16::from(lane.at))
}

// New values beside the old ones.
#[inline(always)]
fn told(old: u16, value: u16) -> Slot
    ensures value { result.value ≡ value }
    ensures change { (l : ℕ) → has_bit result.change l
        ≡ is_other (has_bit old l) (has_bit value l) }
{
    Slot {
        value,
        change: old ^ value,
    }
}

// The old values: none is another one.
#[inline(always)]
fn kept(old: u16) -> Slot
    ensures value { result.value ≡ old }
    ensures change { (l : ℕ) → has_bit result.change l ≡ is_other (has_bit old l) (has_bit old l) }
{
    Slot {
        value: old,
        change: 0,
    }
}

// A step for each lane that is taken.
#[inline(always)]
fn tick_lanes<L: Ledger>(taken: u16, steps: &mut Steps<L>)
    ensures { steps.new ≡ steps.old + count_below (has_bit taken) 16 }
{
    for l in 0..16 {
        if bit(taken, l) {
            steps.tick();
        }
    }
}

// Nands side by side.
#[inline(always)]
fn nands(a: u16, b: u16) -> u16
    ensures { (l : ℕ) → l < 16 → has_bit result l ≡ not (has_bit a l && has_bit b l) }
{
    (a & b) ^ 65535
}

/// The bits of one word where the mask has its bit, and of another one elsewhere.
#[inline(always)]
pub(crate) fn chosen(below: u16, above: u16, mask: u16) -> u16
    ensures { (l : ℕ) → has_bit result l ≡ (if has_bit mask l then has_bit above l
        else has_bit below l) }
{
    below ^ ((below ^ above) & mask)
}

// The lanes that are evaluated: all at the first evaluation, and later those that changed.
#[inline(always)]
fn touched_lanes(whole: bool, changed: u16, mask: u16) -> u16
    ensures { (l : ℕ) → l < 16 → has_bit result l
        ≡ (has_bit mask l && (whole || has_bit changed l)) }
{
    if whole { mask } else { changed & mask }
}

// Gates side by side, in the lanes of the mask of which an input changed; the others keep what they had. Where there is no such lane, none
// is evaluated.
#[inline(always)]
fn pass_gates<L: Ledger>(
    a: Slot,
    b: Slot,
    mask: u16,
    whole: bool,
    old: u16,
    steps: &mut Steps<L>,
) -> Slot
    ensures value { (l : ℕ) → l < 16 → has_bit result.value l
        ≡ (if has_bit mask l && (whole || (has_bit a.change l || has_bit b.change l))
        then not (has_bit a.value l && has_bit b.value l) else has_bit old l) }
    ensures change { (l : ℕ) → l < 16 → has_bit result.change l
        ≡ is_other (has_bit old l) (has_bit result.value l) }
    ensures counted { steps.new ≡ steps.old + count_below
        (λ l. has_bit mask l && (whole || (has_bit a.change l || has_bit b.change l))) 16 }
{
    let touched = touched_lanes(whole, a.change | b.change, mask);
    if touched == 0 {
        kept(old)
    } else {
        tick_lanes(touched, steps);
        let value = chosen(old, nands(a.value, b.value), touched);
        told(old, value)
    }
}

// One gate in all lanes, where an input changed.
#[inline(always)]
fn pass_lone<L: Ledger>(
    slots: &[Slot],
    a: Lane,
    b: Lane,
    mask_a: u16,
    mask_b: u16,
    whole: bool,
    old: u16,
    steps: &mut Steps<L>,
) -> Slot
    requires slot_a { a.slot < length slots.now }
    requires lane_a { a.at < 16 }
    requires mask_a { mask_a ≡ lane_mask a.at }
    requires slot_b { b.slot < length slots.now }
    requires lane_b { b.at < 16 }
    requires mask_b { mask_b ≡ lane_mask b.at }
    ensures value { (l : ℕ) → l < 16 → has_bit result.value l
        ≡ (if whole || (has_bit (slot_at slots.now a.slot).change a.at
        || has_bit (slot_at slots.now b.slot).change b.at)
        then not (lane_value slots.now a && lane_value slots.now b) else has_bit old l) }
    ensures change { (l : ℕ) → l < 16 → has_bit result.change l
        ≡ is_other (has_bit old l) (has_bit result.value l) }
    ensures counted { steps.new ≡ steps.old + (if whole
        || (has_bit (slot_at slots.now a.slot).change a.at
        || has_bit (slot_at slots.now b.slot).change b.at) then 1 else 0) }
{
    if whole | (masked_change(slots, a, mask_a) | masked_change(slots, b, mask_b)) {
        steps.tick();
        let bit = !(masked_value(slots, a, mask_a) & masked_value(slots, b, mask_b));
        told(old, truth(bit))
    } else {
        kept(old)
    }
}

// One gate in all lanes, put in its slot where an input changed. Else it is written alone that nothing changed there. Tells the slot.
#[inline(always)]
fn put_lone<L: Ledger>(
    slots: &mut [Slot],
    q: usize,
    a: Lane,
    b: Lane,
    mask_a: u16,
    mask_b: u16,
    whole: bool,
    steps: &mut Steps<L>,
) -> Slot
    requires place { q < length slots.old }
    requires slot_a { a.slot < length slots.old }
    requires lane_a { a.at < 16 }
    requires mask_a { mask_a ≡ lane_mask a.at }
    requires slot_b { b.slot < length slots.old }
    requires lane_b { b.at < 16 }
    requires mask_b { mask_b ≡ lane_mask b.at }
    ensures put { slots.new ≡ slice_set slots.old q result }
    ensures value { (l : ℕ) → l < 16 → has_bit result.value l
        ≡ (if whole || (has_bit (slot_at slots.old a.slot).change a.at
        || has_bit (slot_at slots.old b.slot).change b.at)
        then not (lane_value slots.old a && lane_value slots.old b)
        else has_bit (slot_at slots.old q).value l) }
    ensures change { (l : ℕ) → l < 16 → has_bit result.change l
        ≡ is_other (has_bit (slot_at slots.old q).value l) (has_bit result.value l) }
    ensures counted { steps.new ≡ steps.old + (if whole
        || (has_bit (slot_at slots.old a.slot).change a.at
        || has_bit (slot_at slots.old b.slot).change b.at) then 1 else 0) }
{
    if whole | (masked_change(slots, a, mask_a) | masked_change(slots, b, mask_b)) {
        steps.tick();
        let bit = !(masked_value(slots, a, mask_a) & masked_value(slots, b, mask_b));
        let slot = told(slots[q].value, truth(bit));
        slots[q] = slot;
        slot
    } else {
        slots[q].change = 0;
        slot_in(slots, q)
    }
}

// One lane in all lanes.
#[inline(always)]
fn spread(slot: Slot, at: u8) -> Slot
    requires { at < 16 }
    ensures value { (l : ℕ) → l < 16 → has_bit result.value l ≡ has_bit slot.value at }
    ensures change { (l : ℕ) → l < 16 → has_bit result.change l ≡ has_bit slot.change at }
{
    Slot {
        value: truth(bit(slot.value, u16::from(at))),
        change: truth(bit(slot.change, u16::from(at))),
    }
}

// The values and, above them, the changes.
#[inline(always)]
fn both(slot: Slot) -> u32
    ensures word { result ≡ slot.change * 65536 + slot.value }
    ensures fits { slot.value < 65536 }
{
    u32::from(slot.change) * 65536 + u32::from(slot.value)
}

// Lanes moved up and then down, where the mask has its bit, and others elsewhere: values and changes at once.
#[inline(always)]
fn moved_slot(below: Slot, a: Slot, up: u8, down: u8, mask: u16) -> Slot
    requires up { up < 16 }
    requires down { down < 16 }
    ensures moved { (l : ℕ) → l < 16 → has_bit mask l ≡ true → up ≤ l + down → l + down < 16
        → (has_bit result.value l ≡ has_bit a.value (l + down - up))
        × (has_bit result.change l ≡ has_bit a.change (l + down - up)) }
    ensures kept { (l : ℕ) → l < 16 → has_bit mask l ≡ false
        → (has_bit result.value l ≡ has_bit below.value l)
        × (has_bit result.change l ≡ has_bit below.change l) }
{
    let under = both(below);
    let over = both(a) << up >> down;
    let lanes = both(Slot {
        value: mask,
        change: mask,
    });
    let word = under ^ ((under ^ over) & lanes);
    Slot {
        value: (word & 65535) as u16,
        change: (word >> 16) as u16,
    }
}

/// The value of a node.
#[inline(always)]
pub(crate) fn value_of(places: &[Lane], slots: &[Slot], k: u32) -> bool
    requires node { k < length places.now }
    requires places { ArePlacedIn (length slots.now) places.now }
    ensures { result ≡ value_at places.now slots.now k }
{
    lane_value(slots, place_at(places, k))
}

// Whether the value of a node is another one than before.
#[inline(always)]
fn is_changed(places: &[Lane], slots: &[Slot], k: u32) -> bool
    requires node { k < length places.now }
    requires places { ArePlacedIn (length slots.now) places.now }
    ensures { result ≡ change_at places.now slots.now k }
{
    lane_changed(slots, place_at(places, k))
}

// The bits of pins and flip-flops, and which are other ones.
fn pass_held(start: u16, old: u16) -> Slot
    ensures value { result.value ≡ start }
    ensures change { (l : ℕ) → has_bit result.change l
        ≡ is_other (has_bit old l) (has_bit result.value l) }
{
    told(old, start)
}

// Zeros.
fn pass_zeros(old: u16) -> Slot
    ensures value { (l : ℕ) → has_bit result.value l ≡ false }
    ensures change { (l : ℕ) → has_bit result.change l
        ≡ is_other (has_bit old l) (has_bit result.value l) }
{
    told(old, 0)
}

// Twice the number and one more bit; from 2^32 on a number stays what it is.
#[inline(always)]
fn doubled(number: u64, bit: bool) -> u64
    requires { number < 2 ^ 33 }
    ensures below { result < 2 ^ 33 }
    ensures value { (s : ℕ) → min number 4294967296 ≡ min s 4294967296 → min result 4294967296
        ≡ min ((if bit then 1 else 0) + 2 * s) 4294967296 }
{
    if number < 4294967296 {
        2 * number + u64::from(bit)
    } else {
        number
    }
}

/// The number that nodes spell, where it is below 2^32; else a number that isn't.
pub(crate) fn number(nodes: &[u32], places: &[Lane], slots: &[Slot]) -> u64
    requires nodes { All (λ i. i < length places.now) nodes.now }
    requires places { ArePlacedIn (length slots.now) places.now }
    ensures { min result 4294967296 ≡ min (spelled_number (value_at places.now slots.now) nodes.now)
        4294967296 }
{
    let mut number = 0;
    for k in (0..nodes.len()).rev() {
        number = doubled(number, value_of(places, slots, nodes[k]));
    }
    number
}

// Whether one of these nodes changed.
fn any_changed(nodes: &[u32], places: &[Lane], slots: &[Slot]) -> bool
    requires nodes { All (λ i. i < length places.now) nodes.now }
    requires places { ArePlacedIn (length slots.now) places.now }
    ensures { result ≡ list_any (change_at places.now slots.now) nodes.now }
{
    for k in 0..nodes.len() {
        if is_changed(places, slots, nodes[k]) {
            return true;
        }
    }
    false
}

// The word that a block shows.
fn shown_word(block: &Block, row: &[u16], places: &[Lane], slots: &[Slot]) -> u16
    requires address { All (λ i. i < length places.now) block.now.address }
    requires places { ArePlacedIn (length slots.now) places.now }
    requires row { length row.now ≡ block.now.words }
    ensures { result ≡ shown_value (Some block.now) (slice_index row.now)
        (value_at places.now slots.now) }
{
    let a = number(block.address.as_slice(), places, slots);
    if a < u64::from(block.words) {
        row[a as usize]
    } else {
        0
    }
}

// Whether the address of a block changed.
fn is_moved(blocks: &[Block], b: usize, places: &[Lane], slots: &[Slot]) -> bool
    requires address { MatchOption (slice_get blocks.now b) ⊥
        (λ block. All (λ i. i < length places.now) block.address) }
    requires places { ArePlacedIn (length slots.now) places.now }
    ensures { result ≡ list_any (change_at places.now slots.now)
        (address_in (slice_get blocks.now b)) }
{
    any_changed(blocks[b].address.as_slice(), places, slots)
}

// The word that block b shows.
fn word_of(blocks: &[Block], b: usize, memory: &[Vec<u16>], places: &[Lane], slots: &[Slot]) -> u16
    requires address { MatchOption (slice_get blocks.now b) ⊥
        (λ block. All (λ i. i < length places.now) block.address) }
    requires places { ArePlacedIn (length slots.now) places.now }
    requires words { HasWords blocks.now memory.now }
    ensures { result ≡ shown_value (slice_get blocks.now b) (word_at memory.now b)
        (value_at places.now slots.now) }
{
    shown_word(&blocks[b], &memory[b], places, slots)
}

// As many bits of a word as this, from one on.
#[inline(always)]
fn bits_from(word: u16, at: u8, n: usize) -> u16
    requires inside { at < 16 }
    requires fits { at + n ≤ 16 }
    ensures { result ≡ word / 2 ^ at % 2 ^ n }
{
    let low = ((1u32 << n) - 1) as u16;
    word >> at & low
}

// Whether one of these nodes changed, which stand side by side.
#[inline(always)]
fn any_in_row(nodes: &[u32], places: &[Lane], q: usize, slots: &[Slot], first: Lane) -> bool
    requires slot { q < length slots.now }
    requires side { AreSideBySide places.now q nodes.now first }
    ensures { result ≡ list_any (change_at places.now slots.now) nodes.now }
{
    bits_from(slot_at(slots, first.slot).change, first.at, nodes.len()) != 0
}

// The number that nodes spell, which stand side by side.
#[inline(always)]
fn number_in_row(nodes: &[u32], places: &[Lane], q: usize, slots: &[Slot], first: Lane) -> u16
    requires slot { q < length slots.now }
    requires side { AreSideBySide places.now q nodes.now first }
    ensures { result ≡ spelled_number (value_at places.now slots.now) nodes.now }
{
    bits_from(slot_at(slots, first.slot).value, first.at, nodes.len())
}

// The word that a block shows, whose address stands side by side.
#[inline(always)]
fn shown_in_row(
    block: &Block,
    row: &[u16],
    places: &[Lane],
    q: usize,
    slots: &[Slot],
    first: Lane,
) -> u16
    requires slot { q < length slots.now }
    requires side { AreSideBySide places.now q block.now.address first }
    requires row { length row.now ≡ block.now.words }
    ensures { result ≡ shown_value (Some block.now) (slice_index row.now)
        (value_at places.now slots.now) }
{
    let a = number_in_row(block.address.as_slice(), places, q, slots, first);
    if u32::from(a) < block.words {
        row[usize::from(a)]
    } else {
        0
    }
}

// Whether the address of a block changed, which stands side by side.
#[inline(always)]
fn is_row_moved(
    blocks: &[Block],
    b: usize,
    places: &[Lane],
    q: usize,
    slots: &[Slot],
    first: Lane,
) -> bool
    requires slot { q < length slots.now }
    requires side { MatchOption (slice_get blocks.now b) ⊥
        (λ block. AreSideBySide places.now q block.address first) }
    ensures { result ≡ list_any (change_at places.now slots.now)
        (address_in (slice_get blocks.now b)) }
{
    any_in_row(blocks[b].address.as_slice(), places, q, slots, first)
}

// The word that block b shows, whose address stands side by side.
#[inline(always)]
fn word_in_row(
    blocks: &[Block],
    b: usize,
    memory: &[Vec<u16>],
    places: &[Lane],
    q: usize,
    slots: &[Slot],
    first: Lane,
) -> u16
    requires slot { q < length slots.now }
    requires side { MatchOption (slice_get blocks.now b) ⊥
        (λ block. AreSideBySide places.now q block.address first) }
    requires words { HasWords blocks.now memory.now }
    ensures { result ≡ shown_value (slice_get blocks.now b) (word_at memory.now b)
        (value_at places.now slots.now) }
{
    shown_in_row(&blocks[b], &memory[b], places, q, slots, first)
}

// The bits of a block's word as below, where the address of the block stands side by side from a lane on.
#[inline(always)]
fn pass_row<L: Ledger>(
    blocks: &[Block],
    b: usize,
    memory: &[Vec<u16>],
    places: &[Lane],
    q: usize,
    slots: &[Slot],
    first: Lane,
    mask: u16,
    written: bool,
    old: u16,
    steps: &mut Steps<L>,
) -> Slot
    requires block { b < length blocks.now }
    requires slot { q < length slots.now }
    requires side { AreSideBySide places.now q (address_in (slice_get blocks.now b)) first }
    requires words { HasWords blocks.now memory.now }
    ensures value { (l : ℕ) → l < 16 → has_bit result.value l
        ≡ (if written || list_any (change_at places.now slots.now)
        (address_in (slice_get blocks.now b)) then has_bit
        (shown_value (slice_get blocks.now b) (word_at memory.now b)
        (value_at places.now slots.now)) l else has_bit old l) }
    ensures change { (l : ℕ) → l < 16 → has_bit result.change l
        ≡ is_other (has_bit old l) (has_bit result.value l) }
    ensures counted { steps.new ≡ steps.old + (if written
        || list_any (change_at places.now slots.now) (address_in (slice_get blocks.now b))
        then count_below (has_bit mask) 16 else 0) }
{
    if written | is_row_moved(blocks, b, places, q, slots, first) {
        tick_lanes(mask, steps);
        let word = word_in_row(blocks, b, memory, places, q, slots, first);
        told(old, word)
    } else {
        kept(old)
    }
}

// The bits of a block's word, where the block was written or its address changed; else they keep what they had. The address is read bit by
// bit.
#[inline(never)]
fn pass_placed<L: Ledger>(
    blocks: &[Block],
    b: usize,
    memory: &[Vec<u16>],
    places: &[Lane],
    slots: &[Slot],
    mask: u16,
    written: bool,
    old: u16,
    steps: &mut Steps<L>,
) -> Slot
    requires address { MatchOption (slice_get blocks.now b) ⊥
        (λ block. All (λ i. i < length places.now) block.address) }
    requires places { ArePlacedIn (length slots.now) places.now }
    requires words { HasWords blocks.now memory.now }
    ensures value { (l : ℕ) → l < 16 → has_bit result.value l
        ≡ (if written || list_any (change_at places.now slots.now)
        (address_in (slice_get blocks.now b)) then has_bit
        (shown_value (slice_get blocks.now b) (word_at memory.now b)
        (value_at places.now slots.now)) l else has_bit old l) }
    ensures change { (l : ℕ) → l < 16 → has_bit result.change l
        ≡ is_other (has_bit old l) (has_bit result.value l) }
    ensures counted { steps.new ≡ steps.old + (if written
        || list_any (change_at places.now slots.now) (address_in (slice_get blocks.now b))
        then count_below (has_bit mask) 16 else 0) }
{
    if written | is_moved(blocks, b, places, slots) {
        tick_lanes(mask, steps);
        let word = word_of(blocks, b, memory, places, slots);
        told(old, word)
    } else {
        kept(old)
    }
}

// The same, wherever the address stands.
#[inline(always)]
fn pass_read<L: Ledger>(
    blocks: &[Block],
    b: usize,
    memory: &[Vec<u16>],
    places: &[Lane],
    q: usize,
    slots: &[Slot],
    address: Option<Lane>,
    mask: u16,
    written: bool,
    old: u16,
    steps: &mut Steps<L>,
) -> Slot
    requires block { b < length blocks.now }
    requires slot { q < length slots.now }
    requires side { MatchOption address (Unit {0})
        (AreSideBySide places.now q (address_in (slice_get blocks.now b))) }
    requires address { MatchOption (slice_get blocks.now b) ⊥
        (λ block. All (λ i. i < length places.now) block.address) }
    requires places { ArePlacedIn (length slots.now) places.now }
    requires words { HasWords blocks.now memory.now }
    ensures value { (l : ℕ) → l < 16 → has_bit result.value l
        ≡ (if written || list_any (change_at places.now slots.now)
        (address_in (slice_get blocks.now b)) then has_bit
        (shown_value (slice_get blocks.now b) (word_at memory.now b)
        (value_at places.now slots.now)) l else has_bit old l) }
    ensures change { (l : ℕ) → l < 16 → has_bit result.change l
        ≡ is_other (has_bit old l) (has_bit result.value l) }
    ensures counted { steps.new ≡ steps.old + (if written
        || list_any (change_at places.now slots.now) (address_in (slice_get blocks.now b))
        then count_below (has_bit mask) 16 else 0) }
{
    match address {
        Some(first) => {
            pass_row(
                blocks, b, memory, places, q, slots, first, mask, written, old, steps,
            )
        }
        None => pass_placed(blocks, b, memory, places, slots, mask, written, old, steps),
    }
}

/// The slot of an operation, from the slots before it.
#[inline(always)]
pub(crate) fn pass_op<L: Ledger>(
    nodes: &[Node],
    blocks: &[Block],
    op: &Op,
    lanes: &[u32],
    places: &[Lane],
    q: usize,
    start: &[u16],
    memory: &[Vec<u16>],
    written: &[bool],
    whole: bool,
    slots: &[Slot],
    steps: &mut Steps<L>,
) -> Slot
    requires ordered { AreOrdered nodes.now blocks.now }
    requires place { q < length slots.now }
    requires few { length slots.now < 2 ^ 32 }
    requires lanes { length lanes.now ≡ 16 * length slots.now }
    requires places { length places.now ≡ length nodes.now }
    requires start { length start.now ≡ length slots.now }
    requires written { length written.now ≡ length blocks.now }
    requires words { HasWords blocks.now memory.now }
    requires placed { (k : ℕ) → k < length nodes.now
        → IsPlaced (length slots.now) lanes.now places.now k }
    requires right { (l : ℕ) → l < 16
        → IsLane nodes.now blocks.now lanes.now places.now q l op.now }
    ensures more { steps.old ≤ steps.new }
    ensures passes { PassesOp nodes.now blocks.now lanes.now places.now
        (value_in (bits_of places.now start.now)) (word_at memory.now) (value_in written.now) whole
        q slots.now result steps.old steps.new }
{
    let here = slot_in(slots, q);
    let old = here.value;
    match *op {
        Op::Held => pass_held(start[q], old),
        Op::Zeros => pass_zeros(old),
        Op::Gates { a, b, mask } => {
            let first = slot_at(slots, a);
            let second = slot_at(slots, b);
            pass_gates(first, second, mask, whole, old, steps)
        }
        Op::Lone {
            a,
            b,
            mask_a,
            mask_b,
        } => { pass_lone(slots, a, b, mask_a, mask_b, whole, old, steps) }
        Op::Spread { a } => {
            let from = slot_at(slots, a.slot);
            spread(from, a.at)
        }
        Op::Move {
            below,
            a,
            up,
            down,
            mask,
        } => {
            let under = slot_at(slots, below);
            let over = slot_at(slots, a);
            moved_slot(under, over, up, down, mask)
        }
        Op::Read {
            block,
            mask,
            address,
        } => {
            let b = block as usize;
            let read = whole | written[b];
            pass_read(
                blocks, b, memory, places, q, slots, address, mask, read, old, steps,
            )
        }
    }
}

// Gives a slot its values by its operation. Tells the slot.
#[inline(always)]
fn put_op<L: Ledger>(
    nodes: &[Node],
    blocks: &[Block],
    op: &Op,
    lanes: &[u32],
    places: &[Lane],
    q: usize,
    start: &[u16],
    memory: &[Vec<u16>],
    written: &[bool],
    whole: bool,
    slots: &mut [Slot],
    steps: &mut Steps<L>,
) -> Slot
    requires ordered { AreOrdered nodes.now blocks.now }
    requires place { q < length slots.old }
    requires few { length slots.old < 2 ^ 32 }
    requires lanes { length lanes.now ≡ 16 * length slots.old }
    requires places { length places.now ≡ length nodes.now }
    requires start { length start.now ≡ length slots.old }
    requires written { length written.now ≡ length blocks.now }
    requires words { HasWords blocks.now memory.now }
    requires placed { (k : ℕ) → k < length nodes.now
        → IsPlaced (length slots.old) lanes.now places.now k }
    requires right { (l : ℕ) → l < 16
        → IsLane nodes.now blocks.now lanes.now places.now q l op.now }
    ensures put { slots.new ≡ slice_set slots.old q result }
    ensures more { steps.old ≤ steps.new }
    ensures passes { PassesOp nodes.now blocks.now lanes.now places.now
        (value_in (bits_of places.now start.now)) (word_at memory.now) (value_in written.now) whole
        q slots.old result steps.old steps.new }
{
    match *op {
        Op::Lone {
            a,
            b,
            mask_a,
            mask_b,
        } => put_lone(slots, q, a, b, mask_a, mask_b, whole, steps),
        _ => {
            let slot = pass_op(
                nodes, blocks, op, lanes, places, q, start, memory, written, whole, slots, steps,
            );
            slots[q] = slot;
            slot
        }
    }
}

// Gives the slots from one up to another their values.
#[inline(never)]
fn pass_rest<L: Ledger>(
    from: usize,
    end: usize,
    nodes: &[Node],
    blocks: &[Block],
    ops: &[Op],
    lanes: &[u32],
    places: &[Lane],
    start: &[u16],
    memory: &[Vec<u16>],
    written: &[bool],
    whole: bool,
    slots: &mut [Slot],
    steps: &mut Steps<L>,
)
    requires from { from ≤ end }
    requires end { end ≤ length ops.now }
    requires ordered { AreOrdered nodes.now blocks.now }
    requires plan { IsPlan nodes.now blocks.now ops.now lanes.now places.now }
    requires slots { length slots.old ≡ length ops.now }
    requires start { length start.now ≡ length ops.now }
    requires written { length written.now ≡ length blocks.now }
    requires words { HasWords blocks.now memory.now }
    ensures more { steps.old ≤ steps.new }
    ensures passes { Passes nodes.now blocks.now lanes.now places.now
        (value_in (bits_of places.now start.now)) (word_at memory.now) (value_in written.now) whole
        from end slots.old slots.new steps.old steps.new }
{
    for q in from..end {
        let slot = pass_op(
            nodes, blocks, &ops[q], lanes, places, q, start, memory, written, whole, slots, steps,
        );
        slots[q] = slot;
    }
}

// Gives the slots of operations of one kind their values, from one on up to another, or up to the first of another kind. Tells where it ends.
#[inline(always)]
fn pass_run<L: Ledger>(
    kind: OpKind,
    from: usize,
    end: usize,
    nodes: &[Node],
    blocks: &[Block],
    ops: &[Op],
    lanes: &[u32],
    places: &[Lane],
    start: &[u16],
    memory: &[Vec<u16>],
    written: &[bool],
    whole: bool,
    slots: &mut [Slot],
    steps: &mut Steps<L>,
) -> usize
    requires from { from ≤ end }
    requires end { end ≤ length ops.now }
    requires ordered { AreOrdered nodes.now blocks.now }
    requires plan { IsPlan nodes.now blocks.now ops.now lanes.now places.now }
    requires slots { length slots.old ≡ length ops.now }
    requires start { length start.now ≡ length ops.now }
    requires written { length written.now ≡ length blocks.now }
    requires words { HasWords blocks.now memory.now }
    ensures from { from ≤ result }
    ensures end { result ≤ end }
    ensures more { steps.old ≤ steps.new }
    ensures passes { Passes nodes.now blocks.now lanes.now places.now
        (value_in (bits_of places.now start.now)) (word_at memory.now) (value_in written.now) whole
        from result slots.old slots.new steps.old steps.new }
{
    for q in from..end {
        let op = &ops[q];
        if !is_of_kind(*op, kind) {
            return q;
        }
        put_op(
            nodes, blocks, op, lanes, places, q, start, memory, written, whole, slots, steps,
        );
    }
    end
}

// The same, by a loop for each kind; the first evaluation, of all that there is, needs none.
#[inline(always)]
fn pass_stretch<L: Ledger>(
    kind: OpKind,
    from: usize,
    end: usize,
    nodes: &[Node],
    blocks: &[Block],
    ops: &[Op],
    lanes: &[u32],
    places: &[Lane],
    start: &[u16],
    memory: &[Vec<u16>],
    written: &[bool],
    whole: bool,
    slots: &mut [Slot],
    steps: &mut Steps<L>,
) -> usize
    requires from { from ≤ end }
    requires end { end ≤ length ops.now }
    requires ordered { AreOrdered nodes.now blocks.now }
    requires plan { IsPlan nodes.now blocks.now ops.now lanes.now places.now }
    requires slots { length slots.old ≡ length ops.now }
    requires start { length start.now ≡ length ops.now }
    requires written { length written.now ≡ length blocks.now }
    requires words { HasWords blocks.now memory.now }
    ensures from { from ≤ result }
    ensures end { result ≤ end }
    ensures more { steps.old ≤ steps.new }
    ensures passes { Passes nodes.now blocks.now lanes.now places.now
        (value_in (bits_of places.now start.now)) (word_at memory.now) (value_in written.now) whole
        from result slots.old slots.new steps.old steps.new }
{
    if whole {
        pass_rest(
            from, end, nodes, blocks, ops, lanes, places, start, memory, written, whole, slots,
            steps,
        );
        return end;
    }
    match kind {
        OpKind::Gates => pass_run(
            OpKind::Gates,
            from,
            end,
            nodes,
            blocks,
            ops,
            lanes,
            places,
            start,
            memory,
            written,
            whole,
            slots,
            steps,
        ),
        OpKind::Lone => pass_run(
            OpKind::Lone,
            from,
            end,
            nodes,
            blocks,
            ops,
            lanes,
            places,
            start,
            memory,
            written,
            whole,
            slots,
            steps,
        ),
        OpKind::Move => pass_run(
            OpKind::Move,
            from,
            end,
            nodes,
            blocks,
            ops,
            lanes,
            places,
            start,
            memory,
            written,
            whole,
            slots,
            steps,
        ),
        OpKind::Other => {
            pass_rest(
                from, end, nodes, blocks, ops, lanes, places, start, memory, written, whole, slots,
                steps,
            );
            end
        }
    }
}

// Where a stretch ends that begins at a place.
fn stretch_end(end: usize, from: usize, n: usize) -> usize
    requires { from ≤ n }
    ensures from { from ≤ result }
    ensures end { result ≤ n }
{
    if end < from {
        from
    } else if n < end {
        n
    } else {
        end
    }
}

/// Gives each slot its values, where `start` has the inputs at the pins and the states at the flip-flops. Only the gates and bits of words are
/// evaluated of which an input, or the block, changed; all of them where `whole` says that nothing was evaluated before.
pub(crate) fn pass_all<L: Ledger>(
    nodes: &[Node],
    blocks: &[Block],
    ops: &[Op],
    lanes: &[u32],
    places: &[Lane],
    stretches: &[Stretch],
    start: &[u16],
    memory: &[Vec<u16>],
    written: &[bool],
    whole: bool,
    slots: &mut [Slot],
    steps: &mut Steps<L>,
)
    requires ordered { AreOrdered nodes.now blocks.now }
    requires plan { IsPlan nodes.now blocks.now ops.now lanes.now places.now }
    requires slots { length slots.old ≡ length ops.now }
    requires start { length start.now ≡ length ops.now }
    requires written { length written.now ≡ length blocks.now }
    requires words { HasWords blocks.now memory.now }
    requires stored { AreStored (length nodes.now) lanes.now
        (value_in (values_of places.now slots.old)) slots.old }
    requires settled { whole ≡ false → AreSettled nodes.now blocks.now (value_in written.now)
        (word_at memory.now) (value_in (values_of places.now slots.old)) }
    ensures stored { AreStored (length nodes.now) lanes.now
        (value_in (values_of places.now slots.new)) slots.new }
    ensures row { IsRow nodes.now blocks.now (value_in (bits_of places.now start.now))
        (word_at memory.now) (value_in (values_of places.now slots.new)) }
    ensures more { steps.old ≤ steps.new }
    ensures counted { steps.new ≤ steps.old + count_by
        (is_taken whole blocks.now (λ k. is_other (value_in (values_of places.now slots.old) k)
        (value_in (values_of places.now slots.new) k)) (value_in written.now)) nodes.now }
{
    let mut from = 0usize;
    for s in 0..stretches.len() {
        let stretch = stretches[s];
        let end = stretch_end(stretch.end, from, ops.len());
        from = pass_stretch(
            stretch.kind,
            from,
            end,
            nodes,
            blocks,
            ops,
            lanes,
            places,
            start,
            memory,
            written,
            whole,
            slots,
            steps,
        );
    }
    pass_rest(
        from,
        ops.len(),
        nodes,
        blocks,
        ops,
        lanes,
        places,
        start,
        memory,
        written,
        whole,
        slots,
        steps,
    );
}
