//! Rows: which nodes stand side by side. Nothing rests on what is found here, since a plan is checked.

ghost use Rattle.std.specs.Prelude.{◌<◌};

use crate::plan::NONE;
use netlist::{Block, Node};
use std::alloc::{AllocError, Global};

/// What a row has: pins or flip-flops, gates, or the bits of a block's word.
#[derive(Clone, Copy)]
pub(crate) enum Kind {
    Held,
    Gates,
    Word(u32),
}

/// Sixteen places for nodes.
pub(crate) type Row = [u32; 16];

/// The nodes of each row, sixteen a row, and its kind. For each node its row and its lane there, and where it is a gate its inputs.
/// Inputs that stand side by side are the first inputs, or the second ones, of nodes that stand side by side. For a node that all gates of
/// a row read it stands itself in a list.
#[derive(Drop)]
pub(crate) struct Rows {
    pub(crate) members: Vec<u32>,
    pub(crate) kinds: Vec<Kind>,
    pub(crate) row_of: Vec<u32>,
    pub(crate) first: Vec<u32>,
    pub(crate) second: Vec<u32>,
    wanted: Vec<u32>,
    shared: Vec<u32>,
}

/// The number at a place of a list, and `NONE` where it has no such place.
pub(crate) fn read(list: &[u32], k: usize) -> u32 {
    if k < list.len() { list[k] } else { NONE }
}

/// Puts a number at a place of a list, where it has such a place.
pub(crate) fn write(list: &mut [u32], k: usize, n: u32) {
    if k < list.len() {
        list[k] = n;
    }
}

/// The number, where it is below `NONE`.
pub(crate) fn short(n: usize) -> u32 {
    if n < 4294967295 { n as u32 } else { NONE }
}

/// The sixteen numbers at place q of a list.
pub(crate) fn row_at(list: &[u32], q: usize) -> Row {
    let mut row = [NONE; 16];
    for l in 0..16usize {
        row[l] = read(list, q.wrapping_mul(16).wrapping_add(l));
    }
    row
}

/// Puts sixteen numbers at the end of a list.
pub(crate) fn push_row(list: &mut Vec<u32>, row: Row) -> Result<(), AllocError> {
    for l in 0..16usize {
        list.push(row[l])?;
    }
    Ok(())
}

/// How many lanes have a node.
fn count(row: Row) -> u32 {
    let mut n = 0u32;
    for l in 0..16usize {
        if row[l] != NONE {
            n = n.wrapping_add(1);
        }
    }
    n
}

// Whether a node stands in one lane alone.
fn is_once(row: Row, k: u32) -> bool {
    let mut n = 0u32;
    for l in 0..16usize {
        if row[l] == k {
            n = n.wrapping_add(1);
        }
    }
    n == 1
}

// The lane in which a node stands.
fn lane_in(row: Row, k: u32) -> usize
    ensures { result < 16 }
{
    for l in 0..16usize {
        if row[l] == k {
            return l;
        }
    }
    0
}

// How a gate reads lanes of rows: the lane of its first input, the row of its second one, and how many lanes on that one stands.
#[derive(Clone, Copy)]
struct Reading {
    lane: usize,
    row: u32,
    on: usize,
}

/// The nodes of a list from a place on, up to sixteen.
pub(crate) fn row_from(list: &[u32], from: usize) -> Row {
    let mut row = [NONE; 16];
    for l in 0..16usize {
        row[l] = read(list, from.wrapping_add(l));
    }
    row
}

impl Rows {
    fn put(&mut self, row: Row, kind: Kind) -> Result<(), AllocError> {
        let r = short(self.kinds.len());
        push_row(&mut self.members, row)?;
        self.kinds.push(kind)?;
        for l in 0..16usize {
            write(&mut self.row_of, row[l] as usize, r);
        }
        Ok(())
    }

    // The gates among these nodes that stand in no row yet, and once here.
    fn picked(&self, wanted: Row) -> Row {
        let mut row = [NONE; 16];
        for l in 0..16usize {
            let k = wanted[l] as usize;
            if read(&self.first, k) != NONE
                && read(&self.row_of, k) == NONE
                && is_once(wanted, wanted[l])
            {
                row[l] = wanted[l];
            }
        }
        row
    }

    // Whether each of these gates has the node among its inputs.
    fn all_read(&self, row: Row, k: u32) -> bool {
        for l in 0..16usize {
            let g = row[l] as usize;
            if row[l] != NONE && read(&self.first, g) != k && read(&self.second, g) != k {
                return false;
            }
        }
        true
    }

    fn swap(&mut self, g: usize) {
        let a = read(&self.first, g);
        let b = read(&self.second, g);
        write(&mut self.first, g, b);
        write(&mut self.second, g, a);
    }

    // An input that all of them share goes second.
    fn share(&mut self, row: Row, common: u32) {
        write(&mut self.shared, common as usize, common);
        for l in 0..16usize {
            let g = row[l] as usize;
            if read(&self.first, g) == common {
                self.swap(g);
            }
        }
    }

    // Inputs of the same rows as those of the gate in lane `head` go together.
    fn pair(&mut self, row: Row, head: u32) {
        let a = read(&self.row_of, read(&self.first, head as usize) as usize);
        let b = read(&self.row_of, read(&self.second, head as usize) as usize);
        for l in 0..16usize {
            let g = row[l] as usize;
            let x = read(&self.row_of, read(&self.first, g) as usize);
            let y = read(&self.row_of, read(&self.second, g) as usize);
            if a != NONE && x != a && y == a || b != NONE && y != b && x == b {
                self.swap(g);
            }
        }
    }

    // Puts the inputs of gates that stand side by side where they go together.
    fn align(&mut self, row: Row) {
        let mut head = NONE;
        for l in 0..16usize {
            if head == NONE {
                head = row[l];
            }
        }
        let a = read(&self.first, head as usize);
        let b = read(&self.second, head as usize);
        if self.all_read(row, b) {
            self.share(row, b);
        } else if self.all_read(row, a) {
            self.share(row, a);
        } else {
            self.pair(row, head);
        }
    }

    // What these gates read: their first inputs, or their second ones.
    pub(crate) fn inputs(&self, row: Row, second: bool) -> Row {
        let mut inputs = [NONE; 16];
        for l in 0..16usize {
            let g = row[l] as usize;
            inputs[l] = if second {
                read(&self.second, g)
            } else {
                read(&self.first, g)
            };
        }
        inputs
    }

    // Makes a row of these nodes, where at least four of them can stand in one, and asks for rows of what they read.
    fn work(&mut self, wanted: Row) -> Result<(), AllocError> {
        let row = self.picked(wanted);
        if count(row) < 4 {
            return Ok(());
        }
        self.put(row, Kind::Gates)?;
        self.align(row);
        let first = self.inputs(row, false);
        let second = self.inputs(row, true);
        push_row(&mut self.wanted, first)?;
        push_row(&mut self.wanted, second)
    }

    // Rows of nodes that follow one another in a list.
    fn put_all(&mut self, list: &[u32]) -> Result<(), AllocError> {
        let mut from = 0usize;
        for _ in 0..list.len() {
            if from < list.len() {
                self.put(row_from(list, from), Kind::Held)?;
                from = from.wrapping_add(16);
            }
        }
        Ok(())
    }

    // Asks for rows of nodes that follow one another in a list.
    fn want_all(&mut self, list: &[u32]) -> Result<(), AllocError> {
        let mut from = 0usize;
        for _ in 0..list.len() {
            if from < list.len() {
                push_row(&mut self.wanted, row_from(list, from))?;
                from = from.wrapping_add(16);
            }
        }
        Ok(())
    }

    // Rows of the bits of the blocks' words. Asks for rows of what comes into the blocks.
    fn put_words(
        &mut self,
        alloc: Global,
        nodes: &[Node],
        blocks: &[Block],
    ) -> Result<(), AllocError> {
        let words = words_of(alloc, nodes, blocks.len())?;
        for b in 0..blocks.len() {
            self.put(row_at(&words, b), Kind::Word(short(b)))?;
            self.want_all(blocks[b].address.as_slice())?;
            self.want_all(blocks[b].data.as_slice())?;
        }
        Ok(())
    }

    // Rows of the pins, or of the flip-flops.
    fn put_listed(&mut self, alloc: Global, nodes: &[Node], wish: &Wish) -> Result<(), AllocError> {
        let list = list_of(alloc, nodes, wish)?;
        self.put_all(&list)
    }

    // Asks for rows of what the flip-flops take.
    fn want_taken(&mut self, alloc: Global, nodes: &[Node]) -> Result<(), AllocError> {
        let taken = list_of(alloc, nodes, &Wish::Taken)?;
        self.want_all(&taken)
    }

    // How a gate reads a row, where it stands in none itself. A gate that all gates of a row read stays by itself, in all lanes.
    fn reading(&self, r: u32, gate: u32) -> Option<Reading> {
        let first = read(&self.first, gate as usize);
        let second = read(&self.second, gate as usize);
        let row = read(&self.row_of, second as usize);
        if read(&self.row_of, first as usize) != r || row == NONE {
            return None;
        }
        if read(&self.row_of, gate as usize) != NONE || read(&self.shared, gate as usize) != NONE {
            return None;
        }
        let lane = lane_in(row_at(&self.members, r as usize), first);
        let there = lane_in(row_at(&self.members, row as usize), second);
        Some(Reading {
            lane,
            row,
            on: there.wrapping_sub(lane),
        })
    }

    // The gates of a list, from a place on, that read a row as the head does, each in the lane that it reads.
    fn gates_like(&self, head: Reading, r: u32, lone: &[u32], from: usize) -> Row {
        let mut row = [NONE; 16];
        for n in from..lone.len() {
            if let Some(found) = self.reading(r, lone[n]) {
                let is_like = found.row == head.row && found.on == head.on;
                if is_like && found.lane < 16 && row[found.lane] == NONE {
                    row[found.lane] = lone[n];
                }
            }
        }
        row
    }

    // Makes rows of the gates by themselves that read row r alike, where they are four at least.
    fn grow(&mut self, r: u32, lone: &[u32]) -> Result<(), AllocError> {
        for n in 0..lone.len() {
            if let Some(head) = self.reading(r, lone[n]) {
                let row = self.gates_like(head, r, lone, n);
                if count(row) >= 4 {
                    self.put(row, Kind::Gates)?;
                }
            }
        }
        Ok(())
    }

    fn lone_gates(&self, alloc: Global) -> Result<Vec<u32>, AllocError> {
        let mut lone = Vec::new(alloc);
        for k in 0..self.row_of.len() {
            if self.row_of[k] == NONE && read(&self.first, k) != NONE {
                lone.push(short(k))?;
            }
        }
        Ok(lone)
    }

    // Makes rows forwards of the gates by themselves that read rows. It looks at each gate for each row, so it is for small netlists alone.
    fn grow_all(&mut self, alloc: Global) -> Result<(), AllocError> {
        if self.row_of.len() > 4096 {
            return Ok(());
        }
        let lone = self.lone_gates(alloc)?;
        for r in 0..self.row_of.len() {
            if r < self.kinds.len() {
                self.grow(short(r), &lone)?;
            }
        }
        Ok(())
    }

    // Makes the rows that are asked for, in turn; n is the number of the nodes.
    fn work_all(&mut self, n: usize) -> Result<(), AllocError> {
        let limit = (self.wanted.len() / 16).wrapping_add(n);
        for q in 0..limit {
            if q >= self.wanted.len() / 16 {
                break;
            }
            let wanted = row_at(&self.wanted, q);
            self.work(wanted)?;
        }
        Ok(())
    }
}

// The pins, or the flip-flops, or what the flip-flops take.
enum Wish {
    Pins,
    Flips,
    Taken,
}

fn wished(node: Node, k: u32, wish: &Wish) -> u32 {
    match (node, wish) {
        (Node::Pin, Wish::Pins) => k,
        (Node::Flip(_), Wish::Flips) => k,
        (Node::Flip(i), Wish::Taken) => i,
        _ => NONE,
    }
}

fn list_of(alloc: Global, nodes: &[Node], wish: &Wish) -> Result<Vec<u32>, AllocError> {
    let mut list = Vec::new(alloc);
    for k in 0..nodes.len() {
        let n = wished(nodes[k], short(k), wish);
        if n != NONE {
            list.push(n)?;
        }
    }
    Ok(list)
}

// The bits of the blocks' words, sixteen a block.
fn words_of(alloc: Global, nodes: &[Node], n: usize) -> Result<Vec<u32>, AllocError> {
    let mut bits = Vec::new(alloc);
    for _ in 0..n {
        push_row(&mut bits, [NONE; 16])?;
    }
    for k in (0..nodes.len()).rev() {
        if let Node::Word { block, bit } = nodes[k] {
            let at = (block as usize)
                .wrapping_mul(16)
                .wrapping_add(usize::from(bit));
            write(&mut bits, at, short(k));
        }
    }
    Ok(bits)
}

fn gates_of(alloc: Global, nodes: &[Node], second: bool) -> Result<Vec<u32>, AllocError> {
    let mut list = Vec::new(alloc);
    for k in 0..nodes.len() {
        let n = match nodes[k] {
            Node::Nand(i, j) => { if second { j } else { i } }
            _ => NONE,
        };
        list.push(n)?;
    }
    Ok(list)
}

// Rows that hold no node yet.
fn no_rows(alloc: Global, nodes: &[Node]) -> Result<Rows, AllocError> {
    let row_of = vec![in alloc; NONE; nodes.len()]?;
    let first = gates_of(alloc, nodes, false)?;
    let second = gates_of(alloc, nodes, true)?;
    let shared = vec![in alloc; NONE; nodes.len()]?;
    Ok(Rows {
        members: Vec::new(alloc),
        kinds: Vec::new(alloc),
        row_of,
        first,
        second,
        wanted: Vec::new(alloc),
        shared,
    })
}

/// Rows of the nodes, found backwards from the flip-flops, sixteen that follow one another, and from what comes into blocks. Then forwards
/// from these rows.
pub(crate) fn rows_of(alloc: Global, nodes: &[Node], blocks: &[Block]) -> Result<Rows, AllocError> {
    let mut rows = no_rows(alloc, nodes)?;
    rows.put_words(alloc, nodes, blocks)?;
    rows.put_listed(alloc, nodes, &Wish::Pins)?;
    rows.put_listed(alloc, nodes, &Wish::Flips)?;
    rows.want_taken(alloc, nodes)?;
    rows.work_all(nodes.len())?;
    rows.grow_all(alloc)?;
    Ok(rows)
}
