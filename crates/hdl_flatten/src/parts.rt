//! The parts that are listed, of which none owns anything.

ghost use Rattle.std.specs.Prelude.{◌≡◌, ◌<◌, ◌^◌, ℕ, true, [], ◌∷◌, ◌++◌, IfOk, OnOk, IfSome, Some, length, map, slice_get, slice_index};
ghost use Rattle.hdl_flatten.specs.Kept.{part_listed, renumbered};
ghost use Rattle.hdl_flatten.specs.Inner.Heads.{HasMore};

use crate::flat::PartAt;
use hdl_tree::{List, Name};
use std::alloc::{AllocError, Global};
use std::marker::Model;

/// What parts of one kind have in common: their chip, how many output bits they have, and a block. Each part that is a block is
/// of a kind of its own.
#[derive(Drop)]
pub struct Kind {
    pub(crate) chip: Name,
    pub(crate) outs: u32,
    pub(crate) block: Option<u32>,
}

/// A part as it is kept: the number of its kind, and where its nodes begin among those of all parts.
#[derive(Clone, Copy)]
pub struct Head {
    pub(crate) kind: u32,
    pub(crate) from: u32,
}

const _: () = prove!(size_of::<Head>() == 8);

/// A part that is listed: its chip, the nodes of its output bits, and its block if it is one.
#[derive(Clone, Copy)]
pub struct ListedPart<'a> {
    pub chip: &'a Name,
    pub outs: &'a [u32],
    pub block: Option<u32>,
}

/// Parts, which contracts see as a list. A kind stands once for all its parts, and the nodes of all parts stand in one list.
/// For each hint stands the number of the kind that it was given with last.
pub struct Parts {
    kinds: Vec<Kind>,
    nodes: Vec<u32>,
    heads: Vec<Head>,
    numbers: Vec<u32>,
}

// By hand, so that whoever drops one calls this.
impl Drop for Parts {
    fn drop(self) {
        let Parts {
            kinds: _,
            nodes: _,
            heads: _,
            numbers: _,
        } = self;
    }
}

impl Model for Parts {
    ghost use Rattle.std.specs.Prelude as std;
    ghost use Rattle.std.specs.Prelude.{length, map};
    ghost use Rattle.std.specs.List.{All};
    ghost use Rattle.hdl_flatten.specs.declared.flat.PartAt.{PartAt};
    ghost use Rattle.hdl_flatten.specs.Inner.Heads.{IsHead, part_of};

    ghost Value = { std.List PartAt };

    ghost view = { λ p. map (part_of p.kinds.items p.nodes.items) p.heads.items };

    ghost invariant = { λ p. All (IsHead p.kinds.items (length p.nodes.items)) p.heads.items };
}

fn are_same_blocks(a: Option<u32>, b: Option<u32>) -> bool
    ensures { result ≡ true → a ≡ b }
{
    match (a, b) {
        (Some(a), Some(b)) => a == b,
        (None, None) => true,
        (Some(_), None) | (None, Some(_)) => false,
    }
}

fn are_same_kinds(a: &Kind, b: &Kind) -> bool
    ensures { result ≡ true → a.now ≡ b.now }
{
    a.outs == b.outs && are_same_blocks(a.block, b.block) && a.chip == b.chip
}

// The number of a kind, where a hint tells it.
fn told_number(kinds: &[Kind], numbers: &[u32], kind: &Kind, hint: usize) -> Option<u32>
    ensures { IfSome result (λ n. slice_get kinds.now n ≡ Some kind.now) }
{
    if hint >= numbers.len() {
        return None;
    }
    let number = numbers[hint];
    if number as usize >= kinds.len() {
        return None;
    }
    if are_same_kinds(&kinds[number as usize], kind) {
        Some(number)
    } else {
        None
    }
}

// The number, if it is below 2^32. A list of more is want of memory.
fn short(n: usize) -> Result<u32, AllocError>
    ensures { IfOk result (λ k. k ≡ n) }
{
    if n < 4294967296 {
        Ok(n as u32)
    } else {
        Err(AllocError)
    }
}

// A kind at the end, and its number for the hint.
fn add_kind(
    kinds: &mut Vec<Kind>,
    numbers: &mut Vec<u32>,
    kind: Kind,
    hint: usize,
) -> Result<u32, AllocError>
    ensures more { HasMore kinds.old.items kinds.new.items }
    ensures there { IfOk result (λ n. slice_get kinds.new.items n ≡ Some kind) }
{
    let number = short(kinds.len())?;
    kinds.push(kind)?;
    if hint < numbers.len() {
        numbers[hint] = number;
    }
    Ok(number)
}

// The number of a kind, which is put at the end where the hint does not tell it.
fn number_of(
    kinds: &mut Vec<Kind>,
    numbers: &mut Vec<u32>,
    kind: Kind,
    hint: usize,
) -> Result<u32, AllocError>
    ensures more { HasMore kinds.old.items kinds.new.items }
    ensures there { IfOk result (λ n. slice_get kinds.new.items n ≡ Some kind) }
{
    match told_number(kinds, numbers, &kind, hint) {
        Some(number) => Ok(number),
        None => add_kind(kinds, numbers, kind, hint),
    }
}

// The place of a node.
fn place_of(places: &[u32], node: u32) -> u32
    ensures { result ≡ slice_index places.now node }
{
    match places.get(node as usize) {
        Some(place) => *place,
        None => 0,
    }
}

// In place of each node its place.
fn renumber(nodes: &mut [u32], places: &[u32])
    ensures { nodes.new ≡ map (slice_index places.now) nodes.old }
{
    for node in nodes.iter_mut() {
        *node = place_of(places, *node);
    }
}

fn list_from(alloc: Global, nodes: &[u32]) -> Result<List<u32>, AllocError>
    ensures { IfOk result (λ l. l ≡ nodes.now) }
{
    Ok(List::of(Vec::from_slice(alloc, nodes)?))
}

fn copied(alloc: Global, part: ListedPart<'_>) -> Result<PartAt, AllocError>
    ensures { IfOk result (λ p. p ≡ part_listed part.entry) }
{
    Ok(PartAt {
        chip: part.chip.clone()?,
        outs: list_from(alloc, part.outs)?,
        block: part.block,
    })
}

impl Parts {
    /// No parts, for so many hints.
    pub(crate) fn new(alloc: Global, hints: usize) -> Result<Parts, AllocError>
        ensures { IfOk result (λ parts. parts ≡ []) }
    {
        Ok(Parts {
            kinds: Vec::new(alloc),
            nodes: Vec::new(alloc),
            heads: Vec::new(alloc),
            numbers: vec![in alloc; 0u32; hints]?,
        })
    }

    /// One more part at the end. A kind stands once where all parts of a chip have a hint of their own.
    pub(crate) fn push(&mut self, part: PartAt, hint: usize) -> Result<(), AllocError>
        ensures { OnOk result (self.new ≡ self.old ++ part ∷ []) }
    {
        let PartAt { chip, outs, block } = part;
        let from = short(self.nodes.len())?;
        let width = short(outs.as_slice().len())?;
        let kind = Kind {
            chip,
            outs: width,
            block,
        };
        let kind = number_of(&mut self.kinds, &mut self.numbers, kind, hint)?;
        self.nodes.extend_from_slice(outs.as_slice())?;
        self.heads.push(Head { kind, from })?;
        Ok(())
    }

    /// How many parts there are.
    pub fn len(&self) -> usize
        ensures { result ≡ length self.now }
    {
        self.heads.len()
    }

    /// The part in a place.
    pub fn get(&self, k: usize) -> ListedPart<'_>
        requires { k < length self.now }
        ensures { slice_get self.now k ≡ Some (part_listed result) }
    {
        let head = self.heads[k];
        let kind = &self.kinds[head.kind as usize];
        let from = head.from as usize;
        ListedPart {
            chip: &kind.chip,
            outs: &self.nodes[from..from + kind.outs as usize],
            block: kind.block,
        }
    }

    /// The parts, each with a name and a list of its own.
    pub fn to_vec(&self, alloc: Global) -> Result<Vec<PartAt>, AllocError>
        ensures { IfOk result (λ v. v.items ≡ self.now) }
    {
        let mut parts = Vec::new(alloc);
        for k in 0..self.len() {
            parts.push(copied(alloc, self.get(k))?)?;
        }
        Ok(parts)
    }

    /// Puts in place of each node its place.
    pub fn renumber(&mut self, places: &[u32])
        ensures { self.new ≡ map (renumbered places.now) self.old }
    {
        renumber(&mut self.nodes, places);
    }
}
