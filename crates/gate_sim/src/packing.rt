//! Plans of rows. Nothing rests on them, since a plan is checked.

ghost use Rattle.std.specs.Prelude.{◌<◌};

use crate::plan::{Lane, NONE, Op, Plan, Take, are_side_by_side, lone_of};
use crate::rows::{Kind, Row, Rows, push_row, read, row_at, rows_of, short, write};
use crate::sorting::sorted;
use netlist::{Block, Node};
use std::alloc::{AllocError, Global};

// A plan in the making. It has for each node also the slot in which it stands in all lanes, and the slot that was made last for lanes that
// begin with it.
#[derive(Drop)]
struct Making {
    plan: Plan,
    spread: Vec<u32>,
    gathered: Vec<u32>,
}

fn place(places: &[Lane], k: u32) -> Lane {
    if (k as usize) < places.len() {
        places[k as usize]
    } else {
        Lane { slot: NONE, at: 0 }
    }
}

fn put_place(places: &mut [Lane], k: u32, lane: Lane) {
    if (k as usize) < places.len() {
        places[k as usize] = lane;
    }
}

fn lane_bit(l: usize) -> u16 {
    if l < 16 { 1u16 << l } else { 0 }
}

fn byte(n: usize) -> u8 {
    if n < 16 { n as u8 } else { 0 }
}

// The first lane that has a node.
fn first_lane(row: Row) -> usize
    ensures { result < 16 }
{
    for l in 0..16usize {
        if row[l] != NONE {
            return l;
        }
    }
    0
}

fn mask_of(row: Row) -> u16 {
    let mut mask = 0u16;
    for l in 0..16usize {
        if row[l] != NONE {
            mask |= lane_bit(l);
        }
    }
    mask
}

// What these nodes take, where they are flip-flops.
fn taken_by(nodes: &[Node], row: Row) -> Row {
    let mut inputs = [NONE; 16];
    for l in 0..16usize {
        let k = row[l] as usize;
        if k < nodes.len() {
            if let Node::Flip(i) = nodes[k] {
                inputs[l] = i;
            }
        }
    }
    inputs
}

// Tells for each flip-flop of a row which of the takes gives it what it takes.
fn mark_taken(taken: &mut [u32], row: Row, inputs: Row, index: u32) {
    for l in 0..16usize {
        if inputs[l] != NONE {
            write(taken, row[l] as usize, index);
        }
    }
}

// Whether the lanes of a slot stand for these nodes, where they are nodes.
fn stand_for(lanes: &[u32], slot: u32, row: Row) -> bool {
    let there = row_at(lanes, slot as usize);
    for l in 0..16usize {
        if row[l] != NONE && there[l] != row[l] {
            return false;
        }
    }
    true
}

// The lanes that are nodes, moved up and then down.
fn shifted(there: Row, up: usize, down: usize) -> Row {
    let mut row = [NONE; 16];
    for l in 0..16usize {
        let high = l.wrapping_add(down);
        let from = high.wrapping_sub(up);
        if high < 16 && from < 16 {
            row[l] = there[from];
        }
    }
    row
}

// The lanes with those from there that the row has and that were missing, and the mask of these.
fn joined_with(joined: Row, row: Row, there: Row) -> (Row, u16) {
    let mut next = joined;
    let mut mask = 0u16;
    for m in 0..16usize {
        if row[m] != NONE && next[m] == NONE && there[m] == row[m] {
            next[m] = row[m];
            mask |= lane_bit(m);
        }
    }
    (next, mask)
}

impl Making {
    fn is_placed(&self, k: u32) -> bool {
        k == NONE || place(&self.plan.places, k).slot != NONE
    }

    fn are_placed(&self, row: Row) -> bool {
        for l in 0..16usize {
            if !self.is_placed(row[l]) {
                return false;
            }
        }
        true
    }

    fn push(&mut self, op: Op, lanes: Row) -> Result<u32, AllocError> {
        let slot = short(self.plan.ops.len());
        self.plan.ops.push(op)?;
        push_row(&mut self.plan.lanes, lanes)?;
        Ok(slot)
    }

    // The slot in which a node stands in all lanes.
    fn spread_of(&mut self, k: u32) -> Result<u32, AllocError> {
        let known = read(&self.spread, k as usize);
        if known != NONE {
            return Ok(known);
        }
        let a = place(&self.plan.places, k);
        let slot = self.push(Op::Spread { a }, [k; 16])?;
        write(&mut self.spread, k as usize, slot);
        Ok(slot)
    }

    // The slot from which lane l of other lanes takes the node, and its lane there.
    fn origin_of(&self, k: u32, l: usize) -> (u32, usize) {
        let known = read(&self.spread, k as usize);
        if known != NONE {
            return (known, l);
        }
        let own = place(&self.plan.places, k);
        (own.slot, usize::from(own.at))
    }

    // Puts lanes of one slot to others: those of which one is lane l.
    fn join(
        &mut self,
        below: u32,
        joined: Row,
        row: Row,
        l: usize,
    ) -> Result<(u32, Row), AllocError> {
        let k = if l < 16 { row[l] } else { NONE };
        let (a, at) = self.origin_of(k, l);
        let up = l.saturating_sub(at);
        let down = at.saturating_sub(l);
        let there = shifted(row_at(&self.plan.lanes, a as usize), up, down);
        let (next, mask) = joined_with(joined, row, there);
        let op = Op::Move {
            below: if below == NONE { a } else { below },
            a,
            up: byte(up),
            down: byte(down),
            mask,
        };
        let slot = self.push(op, next)?;
        Ok((slot, next))
    }

    // A new slot whose lanes stand for these nodes, put together from others.
    fn join_all(&mut self, row: Row) -> Result<u32, AllocError> {
        let mut slot = NONE;
        let mut joined = [NONE; 16];
        for l in 0..16usize {
            if row[l] != NONE && joined[l] == NONE {
                let (next, more) = self.join(slot, joined, row, l)?;
                slot = next;
                joined = more;
            }
        }
        Ok(slot)
    }

    // A slot whose lanes stand for these nodes, where they are nodes.
    fn gather(&mut self, row: Row) -> Result<u32, AllocError> {
        let head = row[first_lane(row)];
        if stand_for(&[head; 16], 0, row) {
            return self.spread_of(head);
        }
        let own = place(&self.plan.places, head).slot;
        if stand_for(&self.plan.lanes, own, row) {
            return Ok(own);
        }
        let known = read(&self.gathered, head as usize);
        if stand_for(&self.plan.lanes, known, row) {
            return Ok(known);
        }
        let slot = self.join_all(row)?;
        write(&mut self.gathered, head as usize, slot);
        Ok(slot)
    }

    fn place_all(&mut self, row: Row, slot: u32) {
        for l in 0..16usize {
            put_place(&mut self.plan.places, row[l], Lane { slot, at: byte(l) });
        }
    }

    // Whether what a row reads has its places.
    fn is_ready(&self, rows: &Rows, blocks: &[Block], r: usize) -> bool {
        let row = row_at(&rows.members, r);
        match kind_at(rows, r) {
            Kind::Held => true,
            Kind::Gates => {
                self.are_placed(rows.inputs(row, false)) && self.are_placed(rows.inputs(row, true))
            }
            Kind::Word(b) => self.is_readable(blocks, b),
        }
    }

    fn is_readable(&self, blocks: &[Block], b: u32) -> bool {
        if b as usize >= blocks.len() {
            return false;
        }
        let address = blocks[b as usize].address.as_slice();
        for k in 0..address.len() {
            if !self.is_placed(address[k]) {
                return false;
            }
        }
        true
    }

    fn emit(&mut self, rows: &Rows, r: usize) -> Result<(), AllocError> {
        let row = row_at(&rows.members, r);
        let op = match kind_at(rows, r) {
            Kind::Held => Op::Held,
            Kind::Gates => {
                let a = self.gather(rows.inputs(row, false))?;
                let b = self.gather(rows.inputs(row, true))?;
                Op::Gates {
                    a,
                    b,
                    mask: mask_of(row),
                }
            }
            Kind::Word(block) => Op::Read {
                block,
                mask: mask_of(row),
                address: None,
            },
        };
        let slot = self.push(op, row)?;
        self.place_all(row, slot);
        Ok(())
    }

    // Gives the flip-flops of a row what they take.
    fn take(&mut self, rows: &Rows, nodes: &[Node], r: usize) -> Result<(), AllocError> {
        let row = row_at(&rows.members, r);
        let inputs = taken_by(nodes, row);
        let mask = mask_of(inputs);
        if mask == 0 || !self.are_placed(inputs) {
            return Ok(());
        }
        let source = self.gather(inputs)?;
        let slot = place(&self.plan.places, row[first_lane(inputs)]).slot;
        let index = short(self.plan.takes.len());
        self.plan.takes.push(Take {
            slot,
            source,
            down: 0,
            mask,
        })?;
        mark_taken(&mut self.plan.taken, row, inputs, index);
        Ok(())
    }

    fn is_lone_ready(&self, nodes: &[Node], blocks: &[Block], k: usize) -> bool {
        if k >= nodes.len() {
            return false;
        }
        match nodes[k] {
            Node::Nand(i, j) => self.is_placed(i) && self.is_placed(j),
            Node::Word { block, .. } => self.is_readable(blocks, block),
            _ => true,
        }
    }

    // A node by itself.
    fn emit_lone(&mut self, nodes: &[Node], k: usize) -> Result<(), AllocError> {
        if k >= nodes.len() {
            return Ok(());
        }
        let number = short(k);
        let op = match nodes[k] {
            Node::Nand(i, j) => {
                lone_of(place(&self.plan.places, i), place(&self.plan.places, j))
            }
            Node::Zero => Op::Zeros,
            Node::Word { block, bit } => return self.emit_bit(number, block, bit),
            _ => Op::Held,
        };
        let slot = self.push(op, [number; 16])?;
        put_place(&mut self.plan.places, number, Lane { slot, at: 0 });
        write(&mut self.spread, k, slot);
        Ok(())
    }

    fn emit_bit(&mut self, k: u32, block: u32, bit: u8) -> Result<(), AllocError> {
        let mut row = [NONE; 16];
        if bit < 16 {
            row[bit as usize] = k;
        }
        let slot = self.push(
            Op::Read {
                block,
                mask: mask_of(row),
                address: None,
            },
            row,
        )?;
        self.place_all(row, slot);
        Ok(())
    }

    // An input that has no place yet.
    fn missing(&self, row: Row) -> u32 {
        for l in 0..16usize {
            if !self.is_placed(row[l]) {
                return row[l];
            }
        }
        NONE
    }

    // A node without a place that a row waits for.
    fn awaited(&self, rows: &Rows, blocks: &[Block], r: usize) -> u32 {
        let row = row_at(&rows.members, r);
        if let Kind::Word(b) = kind_at(rows, r) {
            return self.awaited_address(blocks, b);
        }
        let first = self.missing(rows.inputs(row, false));
        if first != NONE {
            first
        } else {
            self.missing(rows.inputs(row, true))
        }
    }

    fn awaited_address(&self, blocks: &[Block], b: u32) -> u32 {
        if b as usize >= blocks.len() {
            return NONE;
        }
        let address = blocks[b as usize].address.as_slice();
        for k in 0..address.len() {
            if !self.is_placed(address[k]) {
                return address[k];
            }
        }
        NONE
    }

    // A node without a place that a node by itself waits for.
    fn awaited_lone(&self, nodes: &[Node], blocks: &[Block], k: u32) -> u32 {
        if k as usize >= nodes.len() {
            return NONE;
        }
        match nodes[k as usize] {
            Node::Nand(i, j) => { if self.is_placed(i) { j } else { i } }
            Node::Word { block, .. } => self.awaited_address(blocks, block),
            _ => NONE,
        }
    }

    // A row that waits for itself: one at which a walk of many steps from row to row ends.
    fn circle(
        &self,
        rows: &Rows,
        nodes: &[Node],
        blocks: &[Block],
        start: u32,
        steps: usize,
    ) -> u32 {
        let mut row = start;
        let mut k = self.awaited(rows, blocks, start as usize);
        for _ in 0..steps {
            let r = read(&rows.row_of, k as usize);
            if r != NONE {
                row = r;
                k = self.awaited(rows, blocks, r as usize);
            } else {
                k = self.awaited_lone(nodes, blocks, k);
            }
        }
        row
    }
}

fn kind_at(rows: &Rows, r: usize) -> Kind {
    if r < rows.kinds.len() {
        rows.kinds[r]
    } else {
        Kind::Held
    }
}

// The rows that wait, and the nodes by themselves.
#[derive(Drop)]
struct Waiting {
    rows: Vec<u32>,
    lone: Vec<u32>,
}

// Makes the operations of what is ready, and answers what still waits.
fn turn(
    alloc: Global,
    making: &mut Making,
    rows: &Rows,
    nodes: &[Node],
    blocks: &[Block],
    waiting: &Waiting,
) -> Result<Waiting, AllocError> {
    let mut next = Waiting {
        rows: Vec::new(alloc),
        lone: Vec::new(alloc),
    };
    for n in 0..waiting.lone.len() {
        let k = waiting.lone[n];
        if making.is_lone_ready(nodes, blocks, k as usize) {
            making.emit_lone(nodes, k as usize)?;
        } else {
            next.lone.push(k)?;
        }
    }
    for n in 0..waiting.rows.len() {
        let r = waiting.rows[n];
        if making.is_ready(rows, blocks, r as usize) {
            making.emit(rows, r as usize)?;
        } else {
            next.rows.push(r)?;
        }
    }
    Ok(next)
}

// Takes a row apart that waits for itself.
fn split(
    alloc: Global,
    making: &Making,
    rows: &mut Rows,
    nodes: &[Node],
    blocks: &[Block],
    mut waiting: Waiting,
) -> Result<Waiting, AllocError> {
    let steps = waiting.rows.len().wrapping_add(waiting.lone.len());
    let start = if waiting.rows.len() > 0 {
        waiting.rows[0]
    } else {
        NONE
    };
    let bad = making.circle(rows, nodes, blocks, start, steps);
    let mut left = Vec::new(alloc);
    for n in 0..waiting.rows.len() {
        if waiting.rows[n] != bad {
            left.push(waiting.rows[n])?;
        }
    }
    let row = row_at(&rows.members, bad as usize);
    for l in 0..16usize {
        if row[l] != NONE {
            write(&mut rows.row_of, row[l] as usize, NONE);
            waiting.lone.push(row[l])?;
        }
    }
    Ok(Waiting {
        rows: left,
        lone: waiting.lone,
    })
}

fn all_waiting(alloc: Global, rows: &Rows) -> Result<Waiting, AllocError> {
    let mut waiting = Waiting {
        rows: Vec::new(alloc),
        lone: Vec::new(alloc),
    };
    for r in 0..rows.kinds.len() {
        waiting.rows.push(short(r))?;
    }
    for k in 0..rows.row_of.len() {
        if rows.row_of[k] == NONE {
            waiting.lone.push(short(k))?;
        }
    }
    Ok(waiting)
}

// A plan of n nodes, none of which has a place.
fn blank_plan(alloc: Global, n: usize) -> Result<Plan, AllocError> {
    let places = vec![in alloc; Lane { slot: NONE, at: 0 }; n]?;
    let taken = vec![in alloc; NONE; n]?;
    Ok(Plan {
        ops: Vec::new(alloc),
        lanes: Vec::new(alloc),
        places,
        takes: Vec::new(alloc),
        taken,
    })
}

fn blank_making(alloc: Global, n: usize) -> Result<Making, AllocError> {
    let spread = vec![in alloc; NONE; n]?;
    let gathered = vec![in alloc; NONE; n]?;
    Ok(Making {
        plan: blank_plan(alloc, n)?,
        spread,
        gathered,
    })
}

// Gives each node its place.
fn place_all(
    alloc: Global,
    making: &mut Making,
    rows: &mut Rows,
    nodes: &[Node],
    blocks: &[Block],
) -> Result<(), AllocError> {
    let mut waiting = all_waiting(alloc, rows)?;
    for _ in 0..nodes.len() {
        if waiting.rows.len() == 0 && waiting.lone.len() == 0 {
            break;
        }
        let before = making.plan.ops.len();
        waiting = turn(alloc, making, rows, nodes, blocks, &waiting)?;
        if making.plan.ops.len() == before {
            waiting = split(alloc, making, rows, nodes, blocks, waiting)?;
        }
    }
    Ok(())
}

fn take_all(making: &mut Making, rows: &Rows, nodes: &[Node]) -> Result<(), AllocError> {
    for r in 0..rows.kinds.len() {
        making.take(rows, nodes, r)?;
    }
    Ok(())
}

// A plan whose operations stand in the order in which they were made.
fn made_plan(alloc: Global, nodes: &[Node], blocks: &[Block]) -> Result<Plan, AllocError> {
    let mut rows = rows_of(alloc, nodes, blocks)?;
    let mut making = blank_making(alloc, nodes.len())?;
    place_all(alloc, &mut making, &mut rows, nodes, blocks)?;
    take_all(&mut making, &rows, nodes)?;
    Ok(making.plan)
}

// From which lane on these nodes stand side by side before slot q.
fn address_lane(places: &[Lane], q: usize, nodes: &[u32]) -> Option<Lane> {
    if nodes.len() == 0 || nodes[0] as usize >= places.len() {
        return None;
    }
    let first = places[nodes[0] as usize];
    if are_side_by_side(places, q, nodes, first) {
        Some(first)
    } else {
        None
    }
}

// The operation of slot q, which says from which lane on its block's address stands.
fn addressed(op: Op, q: usize, places: &[Lane], blocks: &[Block]) -> Op {
    match op {
        Op::Read { block, mask, .. } => {
            let address = if (block as usize) < blocks.len() {
                address_lane(places, q, blocks[block as usize].address.as_slice())
            } else {
                None
            };
            Op::Read {
                block,
                mask,
                address,
            }
        }
        _ => op,
    }
}

fn find_addresses(ops: &mut [Op], places: &[Lane], blocks: &[Block]) {
    for q in 0..ops.len() {
        ops[q] = addressed(ops[q], q, places, blocks);
    }
}

/// A plan in which equal gates stand side by side.
pub(crate) fn packed_plan(
    alloc: Global,
    nodes: &[Node],
    blocks: &[Block],
) -> Result<Plan, AllocError> {
    let plan = made_plan(alloc, nodes, blocks)?;
    let mut plan = sorted(alloc, plan, blocks)?;
    find_addresses(&mut plan.ops, &plan.places, blocks);
    Ok(plan)
}
