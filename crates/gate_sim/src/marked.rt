//! Evaluation piece by piece: of a large plan only the pieces are passed that are marked.

ghost use Rattle.std.specs.Prelude.{◌≡◌, ℕ, ◌+◌, ◌*◌, ◌<◌, ◌≤◌, ◌≢◌, ◌^◌, Bool, true, false, List, length, min, slice_index};
ghost use Rattle.std.specs.List.{count_by};
ghost use Rattle.netlist.specs.Order.{AreOrdered};
ghost use Rattle.netlist.specs.Present.{IsRow, value_in};
ghost use Rattle.netlist.specs.Settled.{AreSettled};
ghost use Rattle.netlist.specs.Touched.{is_other};
ghost use Rattle.netlist.specs.Words.{HasWords, word_at};
ghost use Rattle.netlist.specs.Inner.Taken.{is_taken};
ghost use Rattle.gate_sim.specs.Inner.Pieces.{piece_of, pieces_in, AreReaders, AreIdle, AreIdleTakes, AreStill, AreGiven, take_mark};
ghost use Rattle.gate_sim.specs.Inner.Plans.{IsPlan};
ghost use Rattle.gate_sim.specs.Inner.Slots.{slot_at, values_of, bits_of, AreStored, ArePassed, Passes};
ghost use Rattle.gate_sim.specs.Inner.Takes.{AreTakes};

use crate::pass::{pass_all, pass_op};
use crate::pieces::{PIECE, Span};
use crate::plan::{Lane, Op, Slot, Take};
use crate::stretches::Stretch;
use netlist::{Block, Node, Steps};
use std::sync::ledger::Ledger;

// Marks a reader.
#[inline(always)]
fn mark_reader(list: &[u32], i: usize, marks: &mut [bool])
    ensures grows { (m : ℕ) → value_in marks.new m ≡ false → value_in marks.old m ≡ false }
    ensures told { i < length list.now → slice_index list.now i < length marks.new
        → value_in marks.new (slice_index list.now i) ≡ true }
{
    if i >= list.len() {
        return;
    }
    let m = list[i] as usize;
    if m >= marks.len() {
        return;
    }
    marks[m] = true;
}

// Marks the readers of a slot, where it changed.
#[inline(always)]
fn mark_readers(change: u16, from: u32, end: u32, list: &[u32], marks: &mut [bool])
    ensures grows { (m : ℕ) → value_in marks.new m ≡ false → value_in marks.old m ≡ false }
    ensures told { change ≢ 0 → (i : ℕ) → from ≤ i → i < end → i < length list.now
        → slice_index list.now i < length marks.new
        → value_in marks.new (slice_index list.now i) ≡ true }
{
    if change == 0 {
        return;
    }
    for i in from..end {
        mark_reader(list, i as usize, marks);
    }
}

// Gives the slots of marked pieces from one up to another their values, and marks the readers of those that changed.
#[inline(never)]
fn pass_piece<L: Ledger>(
    from: usize,
    end: usize,
    nodes: &[Node],
    blocks: &[Block],
    ops: &[Op],
    lanes: &[u32],
    places: &[Lane],
    takes: &[Take],
    spans: &[Span],
    list: &[u32],
    always: &[bool],
    start: &[u16],
    memory: &[Vec<u16>],
    written: &[bool],
    whole: bool,
    slots: &mut [Slot],
    marks: &mut [bool],
    steps: &mut Steps<L>,
)
    requires from { from ≤ end }
    requires end { end ≤ length ops.now }
    requires ordered { AreOrdered nodes.now blocks.now }
    requires plan { IsPlan nodes.now blocks.now ops.now lanes.now places.now }
    requires readers { AreReaders ops.now takes.now spans.now list.now always.now }
    requires slots { length slots.old ≡ length ops.now }
    requires marks { pieces_in (length ops.now) + pieces_in (length takes.now)
        ≤ length marks.old }
    requires start { length start.now ≡ length ops.now }
    requires written { length written.now ≡ length blocks.now }
    requires words { HasWords blocks.now memory.now }
    requires idle { AreIdle (length nodes.now) lanes.now
        (value_in (bits_of places.now start.now)) ops.now slots.old marks.old }
    requires takes { AreIdleTakes (pieces_in (length ops.now)) takes.now slots.old marks.old }
    requires on { (q : ℕ) → from ≤ q → q < end → value_in marks.old (piece_of q) ≡ true }
    ensures more { steps.old ≤ steps.new }
    ensures passes { Passes nodes.now blocks.now lanes.now places.now
        (value_in (bits_of places.now start.now)) (word_at memory.now) (value_in written.now) whole
        from end slots.old slots.new steps.old steps.new }
    ensures grows { (m : ℕ) → value_in marks.new m ≡ false → value_in marks.old m ≡ false }
    ensures idle { AreIdle (length nodes.now) lanes.now
        (value_in (bits_of places.now start.now)) ops.now slots.new marks.new }
    ensures takes { AreIdleTakes (pieces_in (length ops.now)) takes.now slots.new marks.new }
{
    for q in from..end {
        let slot = pass_op(
            nodes, blocks, &ops[q], lanes, places, q, start, memory, written, whole, slots, steps,
        );
        slots[q] = slot;
        mark_readers(slot.change, spans[q].from, spans[q].end, list, marks);
    }
}

// Where piece p ends.
#[inline(always)]
pub(crate) fn end_of(p: usize, n: usize) -> usize
    requires { 64 * p ≤ n }
    ensures { result ≡ min (64 * p + 64) n }
{
    if n - PIECE * p < PIECE {
        n
    } else {
        PIECE * p + PIECE
    }
}

// Whether a piece need not be passed.
#[inline(always)]
fn is_left(whole: bool, is_on: bool) -> bool
    ensures { result ≡ true → (whole ≡ false) × (is_on ≡ false) }
{
    !(whole | is_on)
}

// Passes piece p, where it is marked; where not, its slots have what it gives.
#[inline(always)]
fn pass_marked<L: Ledger>(
    p: usize,
    nodes: &[Node],
    blocks: &[Block],
    ops: &[Op],
    lanes: &[u32],
    places: &[Lane],
    takes: &[Take],
    spans: &[Span],
    list: &[u32],
    always: &[bool],
    start: &[u16],
    memory: &[Vec<u16>],
    written: &[bool],
    whole: bool,
    slots: &mut [Slot],
    marks: &mut [bool],
    steps: &mut Steps<L>,
)
    requires piece { p < pieces_in (length ops.now) }
    requires ordered { AreOrdered nodes.now blocks.now }
    requires plan { IsPlan nodes.now blocks.now ops.now lanes.now places.now }
    requires readers { AreReaders ops.now takes.now spans.now list.now always.now }
    requires slots { length slots.old ≡ length ops.now }
    requires marks { pieces_in (length ops.now) + pieces_in (length takes.now)
        ≤ length marks.old }
    requires start { length start.now ≡ length ops.now }
    requires written { length written.now ≡ length blocks.now }
    requires words { HasWords blocks.now memory.now }
    requires idle { AreIdle (length nodes.now) lanes.now
        (value_in (bits_of places.now start.now)) ops.now slots.old marks.old }
    requires takes { AreIdleTakes (pieces_in (length ops.now)) takes.now slots.old marks.old }
    ensures more { steps.old ≤ steps.new }
    ensures passes { Passes nodes.now blocks.now lanes.now places.now
        (value_in (bits_of places.now start.now)) (word_at memory.now) (value_in written.now) whole
        (64 * p) (min (64 * p + 64) (length ops.now)) slots.old slots.new steps.old steps.new }
    ensures grows { (m : ℕ) → value_in marks.new m ≡ false → value_in marks.old m ≡ false }
    ensures idle { AreIdle (length nodes.now) lanes.now
        (value_in (bits_of places.now start.now)) ops.now slots.new marks.new }
    ensures takes { AreIdleTakes (pieces_in (length ops.now)) takes.now slots.new marks.new }
{
    if is_left(whole, marks[p]) {
        return;
    }
    marks[p] = true;
    pass_piece(
        PIECE * p,
        end_of(p, ops.len()),
        nodes,
        blocks,
        ops,
        lanes,
        places,
        takes,
        spans,
        list,
        always,
        start,
        memory,
        written,
        whole,
        slots,
        marks,
        steps,
    );
}

// Gives each slot its values, where pieces whose mark is off are not passed.
fn pass_pieces<L: Ledger>(
    nodes: &[Node],
    blocks: &[Block],
    ops: &[Op],
    lanes: &[u32],
    places: &[Lane],
    takes: &[Take],
    spans: &[Span],
    list: &[u32],
    always: &[bool],
    start: &[u16],
    memory: &[Vec<u16>],
    written: &[bool],
    whole: bool,
    slots: &mut [Slot],
    marks: &mut [bool],
    steps: &mut Steps<L>,
)
    requires ordered { AreOrdered nodes.now blocks.now }
    requires plan { IsPlan nodes.now blocks.now ops.now lanes.now places.now }
    requires readers { AreReaders ops.now takes.now spans.now list.now always.now }
    requires slots { length slots.old ≡ length ops.now }
    requires marks { pieces_in (length ops.now) + pieces_in (length takes.now)
        ≤ length marks.old }
    requires start { length start.now ≡ length ops.now }
    requires written { length written.now ≡ length blocks.now }
    requires words { HasWords blocks.now memory.now }
    requires stored { AreStored (length nodes.now) lanes.now
        (value_in (values_of places.now slots.old)) slots.old }
    requires settled { whole ≡ false → AreSettled nodes.now blocks.now (value_in written.now)
        (word_at memory.now) (value_in (values_of places.now slots.old)) }
    requires idle { AreIdle (length nodes.now) lanes.now
        (value_in (bits_of places.now start.now)) ops.now slots.old marks.old }
    requires takes { AreIdleTakes (pieces_in (length ops.now)) takes.now slots.old marks.old }
    ensures passed { ArePassed (length nodes.now) lanes.now
        (value_in (values_of places.now slots.old)) (value_in (values_of places.now slots.new))
        (length ops.now) slots.new }
    ensures row { IsRow nodes.now blocks.now (value_in (bits_of places.now start.now))
        (word_at memory.now) (value_in (values_of places.now slots.new)) }
    ensures more { steps.old ≤ steps.new }
    ensures counted { steps.new ≤ steps.old + count_by
        (is_taken whole blocks.now (λ k. is_other (value_in (values_of places.now slots.old) k)
        (value_in (values_of places.now slots.new) k)) (value_in written.now)) nodes.now }
    ensures grows { (m : ℕ) → value_in marks.new m ≡ false → value_in marks.old m ≡ false }
    ensures idle { AreIdle (length nodes.now) lanes.now
        (value_in (bits_of places.now start.now)) ops.now slots.new marks.new }
    ensures takes { AreIdleTakes (pieces_in (length ops.now)) takes.now slots.new marks.new }
{
    for p in 0..ops.len() / PIECE + 1 {
        pass_marked(
            p, nodes, blocks, ops, lanes, places, takes, spans, list, always, start, memory,
            written, whole, slots, marks, steps,
        );
    }
}

// The slots from one up to another changed nowhere.
fn calm(from: usize, end: usize, slots: &mut [Slot])
    requires { end ≤ length slots.old }
    ensures values { (q : ℕ) → (slot_at slots.new q).value ≡ (slot_at slots.old q).value }
    ensures still { (q : ℕ) → from ≤ q → q < end → (slot_at slots.new q).change ≡ 0 }
    ensures kept { (q : ℕ) → (slot_at slots.old q).change ≡ 0
        → (slot_at slots.new q).change ≡ 0 }
{
    for q in from..end {
        let value = slots[q].value;
        slots[q] = Slot { value, change: 0 };
    }
}

// The slots of piece p changed nowhere.
fn calm_marked(p: usize, is_on: bool, slots: &mut [Slot])
    requires { p < pieces_in (length slots.old) }
    ensures values { (q : ℕ) → (slot_at slots.new q).value ≡ (slot_at slots.old q).value }
    ensures still { is_on ≡ true → (q : ℕ) → piece_of q ≡ p
        → (slot_at slots.new q).change ≡ 0 }
    ensures kept { (q : ℕ) → (slot_at slots.old q).change ≡ 0
        → (slot_at slots.new q).change ≡ 0 }
{
    if !is_on {
        return;
    }
    calm(PIECE * p, end_of(p, slots.len()), slots);
}

// No slot changed, and only the marks of pieces are on that are always passed.
fn calm_pieces(always: &[bool], slots: &mut [Slot], marks: &mut [bool])
    requires always { length always.now ≡ pieces_in (length slots.old) }
    requires marks { pieces_in (length slots.old) ≤ length marks.old }
    requires still { (q : ℕ) → value_in marks.old (piece_of q) ≡ false
        → (slot_at slots.old q).change ≡ 0 }
    ensures values { (q : ℕ) → (slot_at slots.new q).value ≡ (slot_at slots.old q).value }
    ensures still { AreStill slots.new }
    ensures pieces { (m : ℕ) → m < pieces_in (length slots.old)
        → value_in marks.new m ≡ value_in always.now m }
    ensures takes { (m : ℕ) → pieces_in (length slots.old) ≤ m
        → value_in marks.new m ≡ value_in marks.old m }
{
    for p in 0..always.len() {
        calm_marked(p, marks[p], slots);
        marks[p] = always[p];
    }
}

// Gives each slot its values piece by piece, and leaves no change.
fn follow_pieces<L: Ledger>(
    nodes: &[Node],
    blocks: &[Block],
    ops: &[Op],
    lanes: &[u32],
    places: &[Lane],
    takes: &[Take],
    spans: &[Span],
    list: &[u32],
    always: &[bool],
    start: &[u16],
    memory: &[Vec<u16>],
    written: &[bool],
    whole: bool,
    slots: &mut [Slot],
    marks: &mut [bool],
    steps: &mut Steps<L>,
)
    requires ordered { AreOrdered nodes.now blocks.now }
    requires plan { IsPlan nodes.now blocks.now ops.now lanes.now places.now }
    requires readers { AreReaders ops.now takes.now spans.now list.now always.now }
    requires are_takes { AreTakes nodes.now (length ops.now) lanes.now places.now takes.now }
    requires slots { length slots.old ≡ length ops.now }
    requires marks { pieces_in (length ops.now) + pieces_in (length takes.now)
        ≤ length marks.old }
    requires start { length start.now ≡ length ops.now }
    requires written { length written.now ≡ length blocks.now }
    requires words { HasWords blocks.now memory.now }
    requires stored { AreStored (length nodes.now) lanes.now
        (value_in (values_of places.now slots.old)) slots.old }
    requires settled { whole ≡ false → AreSettled nodes.now blocks.now (value_in written.now)
        (word_at memory.now) (value_in (values_of places.now slots.old)) }
    requires idle { AreIdle (length nodes.now) lanes.now
        (value_in (bits_of places.now start.now)) ops.now slots.old marks.old }
    requires still { AreStill slots.old }
    ensures stored { AreStored (length nodes.now) lanes.now
        (value_in (values_of places.now slots.new)) slots.new }
    ensures row { IsRow nodes.now blocks.now (value_in (bits_of places.now start.now))
        (word_at memory.now) (value_in (values_of places.now slots.new)) }
    ensures more { steps.old ≤ steps.new }
    ensures counted { steps.new ≤ steps.old + count_by
        (is_taken whole blocks.now (λ k. is_other (value_in (values_of places.now slots.old) k)
        (value_in (values_of places.now slots.new) k)) (value_in written.now)) nodes.now }
    ensures idle { AreIdle (length nodes.now) lanes.now
        (value_in (bits_of places.now start.now)) ops.now slots.new marks.new }
    ensures still { AreStill slots.new }
    ensures given { (fixed : List ℕ) → AreGiven nodes.now places.now takes.now
        (take_mark (pieces_in (length ops.now)) marks.old)
        (λ k i. value_in (values_of places.now slots.old) i) fixed
        → AreGiven nodes.now places.now takes.now
        (take_mark (pieces_in (length ops.now)) marks.new)
        (λ k i. value_in (values_of places.now slots.new) i) fixed }
{
    pass_pieces(
        nodes, blocks, ops, lanes, places, takes, spans, list, always, start, memory, written,
        whole, slots, marks, steps,
    );
    calm_pieces(always, slots, marks);
}

// All marks are on.
fn mark_all(marks: &mut [bool])
    ensures { (m : ℕ) → m < length marks.old → value_in marks.new m ≡ true }
{
    for m in 0..marks.len() {
        marks[m] = true;
    }
}

/// Gives each slot its values. A small plan is passed whole, a large one piece by piece.
pub(crate) fn follow_all<L: Ledger>(
    is_small: bool,
    nodes: &[Node],
    blocks: &[Block],
    ops: &[Op],
    lanes: &[u32],
    places: &[Lane],
    takes: &[Take],
    stretches: &[Stretch],
    spans: &[Span],
    list: &[u32],
    always: &[bool],
    start: &[u16],
    memory: &[Vec<u16>],
    written: &[bool],
    whole: bool,
    slots: &mut [Slot],
    marks: &mut [bool],
    steps: &mut Steps<L>,
)
    requires ordered { AreOrdered nodes.now blocks.now }
    requires plan { IsPlan nodes.now blocks.now ops.now lanes.now places.now }
    requires readers { is_small ≡ false
        → AreReaders ops.now takes.now spans.now list.now always.now }
    requires are_takes { AreTakes nodes.now (length ops.now) lanes.now places.now takes.now }
    requires slots { length slots.old ≡ length ops.now }
    requires marks { pieces_in (length ops.now) + pieces_in (length takes.now)
        ≤ length marks.old }
    requires start { length start.now ≡ length ops.now }
    requires written { length written.now ≡ length blocks.now }
    requires words { HasWords blocks.now memory.now }
    requires stored { AreStored (length nodes.now) lanes.now
        (value_in (values_of places.now slots.old)) slots.old }
    requires settled { whole ≡ false → AreSettled nodes.now blocks.now (value_in written.now)
        (word_at memory.now) (value_in (values_of places.now slots.old)) }
    requires idle { is_small ≡ false → AreIdle (length nodes.now) lanes.now
        (value_in (bits_of places.now start.now)) ops.now slots.old marks.old }
    requires still { is_small ≡ false → AreStill slots.old }
    ensures stored { AreStored (length nodes.now) lanes.now
        (value_in (values_of places.now slots.new)) slots.new }
    ensures row { IsRow nodes.now blocks.now (value_in (bits_of places.now start.now))
        (word_at memory.now) (value_in (values_of places.now slots.new)) }
    ensures more { steps.old ≤ steps.new }
    ensures counted { steps.new ≤ steps.old + count_by
        (is_taken whole blocks.now (λ k. is_other (value_in (values_of places.now slots.old) k)
        (value_in (values_of places.now slots.new) k)) (value_in written.now)) nodes.now }
    ensures idle { is_small ≡ false → AreIdle (length nodes.now) lanes.now
        (value_in (bits_of places.now start.now)) ops.now slots.new marks.new }
    ensures still { is_small ≡ false → AreStill slots.new }
    ensures given { (fixed : List ℕ) → AreGiven nodes.now places.now takes.now
        (take_mark (pieces_in (length ops.now)) marks.old)
        (λ k i. value_in (values_of places.now slots.old) i) fixed
        → AreGiven nodes.now places.now takes.now
        (take_mark (pieces_in (length ops.now)) marks.new)
        (λ k i. value_in (values_of places.now slots.new) i) fixed }
{
    if is_small {
        mark_all(marks);
        pass_all(
            nodes, blocks, ops, lanes, places, stretches, start, memory, written, whole, slots,
            steps,
        );
        return;
    }
    follow_pieces(
        nodes, blocks, ops, lanes, places, takes, spans, list, always, start, memory, written,
        whole, slots, marks, steps,
    );
}
