//! Pieces of large plans: sixty-four operations each, and sixty-four takes each. A piece whose mark is off is not passed.
//! For each slot stands which pieces read it. It is found here, and checked when it is made.

ghost use Rattle.std.specs.Prelude.{◌≡◌, ℕ, ◌+◌, ◌<◌, ◌≤◌, ◌^◌, true, length, Some, slice_get, slice_index};
ghost use Rattle.netlist.specs.Present.{value_in};
ghost use Rattle.gate_sim.specs.Inner.Pieces.{piece_of, pieces_in, IsReader, IsToldOp, AreReaders};

use crate::plan::{NONE, Op, Take};
use crate::rows::{read, short, write};
use std::alloc::{AllocError, Global};

/// How many operations, or takes, a piece has.
pub(crate) const PIECE: usize = 64;

/// Where the readers of a slot stand in the list of readers.
#[derive(Clone, Copy, Debug, PartialEq, Eq)]
pub(crate) struct Span {
    pub(crate) from: u32,
    pub(crate) end: u32,
}

/// For each slot its span in the list of readers. A reader is a piece of operations, or a piece of takes, which come after those.
/// And for each piece of operations whether it is passed at each evaluation.
#[derive(Drop)]
pub(crate) struct Readers {
    pub(crate) spans: Vec<Span>,
    pub(crate) list: Vec<u32>,
    pub(crate) always: Vec<bool>,
}

/// How many pieces so many operations, or takes, have.
pub(crate) fn pieces_of(n: usize) -> usize
    ensures { result ≡ pieces_in n }
{
    n / PIECE + 1
}

// The slots that an operation reads: two or one or none. What a read of a block reads is not told.
fn slots_read(op: Op) -> (u32, u32) {
    match op {
        Op::Held => (NONE, NONE),
        Op::Zeros => (NONE, NONE),
        Op::Gates { a, b, .. } => (a, b),
        Op::Lone { a, b, .. } => (a.slot, b.slot),
        Op::Spread { a } => (a.slot, NONE),
        Op::Move { below, a, .. } => (below, a),
        Op::Read { .. } => (NONE, NONE),
    }
}

// Readers in the making: for each slot the one that was told last, and how many it has.
#[derive(Drop)]
struct Making {
    last: Vec<u32>,
    count: Vec<u32>,
    list: Vec<u32>,
    is_put: bool,
}

impl Making {
    // A piece reads a slot.
    fn tell(&mut self, slot: u32, piece: u32) {
        let q = slot as usize;
        if q >= self.last.len() || read(&self.last, q) == piece {
            return;
        }
        write(&mut self.last, q, piece);
        let n = read(&self.count, q);
        if self.is_put {
            write(&mut self.list, n as usize, piece);
        }
        write(&mut self.count, q, n.wrapping_add(1));
    }

    fn tell_all(&mut self, ops: &[Op], takes: &[Take]) {
        for q in 0..ops.len() {
            let (a, b) = slots_read(ops[q]);
            self.tell(a, short(q / PIECE));
            self.tell(b, short(q / PIECE));
        }
        let pieces = pieces_of(ops.len());
        for t in 0..takes.len() {
            self.tell(takes[t].source, short(pieces.wrapping_add(t / PIECE)));
        }
    }

    // Where the readers of each slot begin; those that were told are told anew.
    fn put(&mut self, alloc: Global) -> Result<(), AllocError> {
        let mut sum = 0u32;
        for q in 0..self.count.len() {
            let n = self.count[q];
            self.count[q] = sum;
            sum = sum.wrapping_add(n);
        }
        for q in 0..self.last.len() {
            self.last[q] = NONE;
        }
        self.list = vec![in alloc; NONE; sum as usize]?;
        self.is_put = true;
        Ok(())
    }
}

// The spans, where each ends.
fn spans_of(alloc: Global, ends: &[u32]) -> Result<Vec<Span>, AllocError> {
    let mut spans = Vec::new(alloc);
    let mut from = 0u32;
    for q in 0..ends.len() {
        spans.push(Span { from, end: ends[q] })?;
        from = ends[q];
    }
    Ok(spans)
}

fn is_open(op: Op) -> bool {
    match op {
        Op::Zeros => true,
        Op::Read { .. } => true,
        Op::Held => false,
        Op::Gates { .. } => false,
        Op::Lone { .. } => false,
        Op::Spread { .. } => false,
        Op::Move { .. } => false,
    }
}

/// The readers of operations and takes. Nothing rests on them, since they are checked.
pub(crate) fn readers_of(alloc: Global, ops: &[Op], takes: &[Take]) -> Result<Readers, AllocError> {
    let mut making = Making {
        last: vec![in alloc; NONE; ops.len()]?,
        count: vec![in alloc; 0u32; ops.len()]?,
        list: Vec::new(alloc),
        is_put: false,
    };
    making.tell_all(ops, takes);
    making.put(alloc)?;
    making.tell_all(ops, takes);
    let mut always = vec![in alloc; false; pieces_of(ops.len())]?;
    for q in 0..ops.len() {
        if is_open(ops[q]) && q / PIECE < always.len() {
            always[q / PIECE] = true;
        }
    }
    let spans = spans_of(alloc, &making.count)?;
    Ok(Readers {
        spans,
        list: making.list,
        always,
    })
}

// The lower end of a search, where what stands in the middle is too low.
fn raised(is_low: bool, mid: u32, from: u32) -> u32
    requires from { from ≤ mid }
    requires mid { mid < 4294967295 }
    ensures { from ≤ result }
{
    if is_low { mid + 1 } else { from }
}

// The upper end of a search, where what stands in the middle is not too low.
fn lowered(is_low: bool, mid: u32, end: u32) -> u32
    requires { mid ≤ end }
    ensures { result ≤ end }
{
    if is_low { end } else { mid }
}

// Whether a piece stands in a list between two places. From one to the other the list rises.
fn is_between(list: &[u32], first: u32, last: u32, piece: u32) -> bool
    ensures { result ≡ true → (i : ℕ) × (first ≤ i) × (i < last) × (i < length list.now)
        × (slice_index list.now i ≡ piece) }
{
    let mut from = first;
    let mut end = last;
    for _ in 0..32u32 {
        if from >= end {
            return false;
        }
        let mid = from + (end - from) / 2;
        if mid as usize >= list.len() {
            return false;
        }
        let there = list[mid as usize];
        if there == piece {
            return true;
        }
        from = raised(there < piece, mid, from);
        end = lowered(there < piece, mid, end);
    }
    false
}

// Whether a piece is among the readers of a slot.
fn is_told(spans: &[Span], list: &[u32], slot: u32, piece: u32) -> bool
    ensures { result ≡ true → IsReader spans.now list.now slot piece }
{
    if slot as usize >= spans.len() {
        return false;
    }
    let span = spans[slot as usize];
    is_between(list, span.from, span.end, piece)
}

// Whether a piece is always passed.
fn is_always(always: &[bool], piece: u32) -> bool
    ensures { result ≡ true → value_in always.now piece ≡ true }
{
    (piece as usize) < always.len() && always[piece as usize]
}

// Whether a piece is told of the changes of what its operation reads.
fn is_told_op(spans: &[Span], list: &[u32], always: &[bool], op: Op, piece: u32) -> bool
    ensures { result ≡ true → IsToldOp spans.now list.now always.now piece op }
{
    match op {
        Op::Held => true,
        Op::Zeros => is_always(always, piece),
        Op::Gates { a, b, .. } => is_told(spans, list, a, piece) && is_told(spans, list, b, piece),
        Op::Lone { a, b, .. } => {
            is_told(spans, list, a.slot, piece) && is_told(spans, list, b.slot, piece)
        }
        Op::Spread { a } => is_told(spans, list, a.slot, piece),
        Op::Move { below, a, .. } => {
            is_told(spans, list, below, piece) && is_told(spans, list, a, piece)
        }
        Op::Read { .. } => is_always(always, piece),
    }
}

// Whether each piece of operations is told of what it reads.
fn are_ops_told(spans: &[Span], list: &[u32], always: &[bool], ops: &[Op]) -> bool
    requires { length ops.now < 2 ^ 32 }
    ensures { result ≡ true → (q : ℕ) (op : Op) → slice_get ops.now q ≡ Some op
        → IsToldOp spans.now list.now always.now (piece_of q) op }
{
    for q in 0..ops.len() {
        if !is_told_op(spans, list, always, ops[q], (q / PIECE) as u32) {
            return false;
        }
    }
    true
}

// Whether each piece of takes is told of what it reads, where so many pieces come before.
fn are_takes_told(spans: &[Span], list: &[u32], before: usize, takes: &[Take]) -> bool
    ensures { result ≡ true → (t : ℕ) (take : Take) → slice_get takes.now t ≡ Some take
        → IsReader spans.now list.now take.source (before + piece_of t) }
{
    if before >= 2147483648 || takes.len() >= 2147483648 {
        return false;
    }
    for t in 0..takes.len() {
        if !is_told(spans, list, takes[t].source, (before + t / PIECE) as u32) {
            return false;
        }
    }
    true
}

/// Whether each piece is told of all that it reads.
pub(crate) fn are_readers(
    spans: &[Span],
    list: &[u32],
    always: &[bool],
    ops: &[Op],
    takes: &[Take],
) -> bool
    ensures { result ≡ true → AreReaders ops.now takes.now spans.now list.now always.now }
{
    ops.len() < 4294967296
        && spans.len() == ops.len()
        && always.len() == ops.len() / PIECE + 1
        && are_ops_told(spans, list, always, ops)
        && are_takes_told(spans, list, ops.len() / PIECE + 1, takes)
}
