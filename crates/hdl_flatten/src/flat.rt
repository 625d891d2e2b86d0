//! A chip as nodes and blocks.

ghost use Rattle.std.specs.Prelude.{IsSome, ◌≡◌, ℕ, ◌+◌, ◌<◌, ◌≤◌, ◌++◌, [], ◌∷◌, OnOk, IfOk, Some, length, map, slice_get};
ghost use Rattle.std.specs.List.{All};
ghost use Rattle.hdl_tree.specs.declared.library.Entry.{Entry};
ghost use Rattle.hdl_check.specs.Inner.Progress.{IsCatalog, chips_of};
ghost use Rattle.hdl_flatten.specs.declared.plan.Plan.{Plan};
ghost use Rattle.hdl_flatten.specs.Ends.{EndsHavePins};
ghost use Rattle.hdl_tree.specs.Chips.{pin_width};
ghost use Rattle.hdl_check.specs.Tables.{bits_of};
ghost use Rattle.hdl_flatten.specs.Flat.{block_at, nodes_at, NeedsFew, IsFlat};
ghost use Rattle.hdl_check.specs.Whole.{AreDistinct, chips_in, TopIsFaultless};
ghost use Rattle.hdl_tree.specs.Chips.{find_chip, find_entry};
ghost use Rattle.hdl_flatten.specs.Flat as Listed;
ghost use Rattle.hdl_flatten.specs.Inner.Wired.{wires_of};
ghost use Rattle.hdl_flatten.specs.Inner.Plans.{ArePlans};
ghost use Rattle.hdl_flatten.specs.Inner.Puts.{node_of};
ghost use Rattle.hdl_flatten.specs.Inner.Unfinished.{Task, ArePending, CanBegin, IsBegun, all_steps};
ghost use Rattle.hdl_flatten.specs.Inner.Fed.{nodes_in};
ghost use Rattle.hdl_flatten.specs.Inner.Putting.{IsWithin, AreWithin, own_nodes, from_two, constants, pins, words, end_puts, end_blocks, rom_of, memory_of, IsEndFed, MayPut, IsPut};

use crate::feeds::{Inputs, LOW, node_of, nodes_of};
use crate::nest::{entry_at, nest_of};
use crate::parts::Parts;
use crate::plan::{PartPlan, Plan, plans_of};
use crate::wires::{Bit, Wires};
use hdl_check::Catalog;
use hdl_tree::{End, Library, List, Memories, Name, Pin};
use netlist::{Block, Node};
use std::alloc::{AllocError, Global};

/// A pin of a chip, and the nodes of its bits, the lowest first.
#[derive(Drop)]
pub struct PinAt {
    pub name: Name,
    pub nodes: List<u32>,
}

/// A part of a chip: its chip, the nodes of its output bits, and its block if it is one.
#[derive(Drop)]
pub struct PartAt {
    pub chip: Name,
    pub outs: List<u32>,
    pub block: Option<u32>,
}

/// The nodes and blocks of a chip, with a directory: the chip's pins, inputs first, and all parts in it, depth first in text order.
#[derive(Drop)]
pub struct Flat {
    pub nodes: List<Node>,
    pub blocks: List<Block>,
    pub pins: List<PinAt>,
    pub parts: Parts,
}

/// The nodes and blocks so far, and the parts.
pub(crate) struct Growing {
    pub nodes: Vec<Node>,
    pub blocks: Vec<Block>,
    pub parts: Parts,
}

// By hand, so that whoever drops one calls this.
impl Drop for Growing {
    fn drop(self) {
        let Growing {
            nodes: _,
            blocks: _,
            parts: _,
        } = self;
    }
}

impl Growing {
    /// The chip that has grown, with its directory of pins.
    fn with_pins(self, listed: Vec<PinAt>) -> Flat
        ensures nodes { result.nodes ≡ self.nodes.items }
        ensures blocks { result.blocks ≡ self.blocks.items }
        ensures pins { result.pins ≡ listed.items }
        ensures parts { result.parts ≡ self.parts }
    {
        let Growing {
            nodes,
            blocks,
            parts,
        } = self;
        Flat {
            nodes: List::of(nodes),
            blocks: List::of(blocks),
            pins: List::of(listed),
            parts,
        }
    }
}

fn push_node(nodes: &mut Vec<Node>, node: Node) -> Result<(), AllocError>
    ensures { OnOk result (nodes.new.items ≡ nodes.old.items ++ node ∷ []) }
{
    nodes.push(node)?;
    Ok(())
}

/// The keyboard's pins.
fn put_pins(nodes: &mut Vec<Node>, n: usize) -> Result<(), AllocError>
    ensures { OnOk result (nodes.new.items ≡ nodes.old.items ++ pins n) }
{
    for k in 0..n {
        push_node(nodes, Node::Pin)?;
    }
    Ok(())
}

/// The nodes of a block's word.
fn put_words(nodes: &mut Vec<Node>, block: u32) -> Result<(), AllocError>
    ensures { OnOk result (nodes.new.items ≡ nodes.old.items ++ words block 16) }
{
    for bit in 0..16u8 {
        push_node(nodes, Node::Word { block, bit })?;
    }
    Ok(())
}

/// A block, and the nodes of its word.
fn put_block(flat: &mut Growing, block: Block) -> Result<(), AllocError>
    requires { length flat.old.blocks.items ≤ 16777216 }
    ensures nodes { OnOk result
        (flat.new.nodes.items ≡ flat.old.nodes.items ++ words (length flat.old.blocks.items) 16) }
    ensures blocks { OnOk result (flat.new.blocks.items ≡ flat.old.blocks.items ++ block ∷ []) }
    ensures parts { flat.new.parts ≡ flat.old.parts }
{
    put_words(&mut flat.nodes, flat.blocks.as_slice().len() as u32)?;
    flat.blocks.push(block)?;
    Ok(())
}

fn list_from(alloc: Global, nodes: &[u32]) -> Result<List<u32>, AllocError>
    ensures { IfOk result (λ l. l ≡ nodes.now) }
{
    Ok(List::of(Vec::from_slice(alloc, nodes)?))
}

/// The memory of 2^bits words that reads these nodes.
fn memory_block(alloc: Global, bits: u8, inputs: &[u32]) -> Result<Block, AllocError>
    requires long { length inputs.now ≡ 17 + bits }
    requires bits { bits ≤ 14 }
    ensures { IfOk result (λ block. block ≡ memory_of bits inputs.now) }
{
    Ok(Block {
        words: 1 << bits,
        data: list_from(alloc, &inputs[..16])?,
        load: inputs[16],
        address: list_from(alloc, &inputs[17..])?,
    })
}

fn rom_block(alloc: Global, inputs: &[u32]) -> Result<Block, AllocError>
    ensures { IfOk result (λ block. block ≡ rom_of inputs.now) }
{
    Ok(Block {
        words: 32768,
        data: List::of(Vec::new(alloc)),
        load: LOW,
        address: list_from(alloc, inputs)?,
    })
}

/// Puts an end after what is there; the nodes of its input bits are given.
fn put_end<'a, 'b>(
    alloc: Global,
    end: End,
    inputs: &Inputs<'a, 'b>,
    flat: &mut Growing,
) -> Result<(), AllocError>
    requires fed { IsEndFed end (length (nodes_in inputs.now)) }
    requires few { length flat.old.blocks.items ≤ 16777216 }
    ensures nodes { OnOk result (flat.new.nodes.items
        ≡ flat.old.nodes.items
        ++ end_puts end (nodes_in inputs.now) (length flat.old.blocks.items)) }
    ensures blocks { OnOk result
        (flat.new.blocks.items ≡ flat.old.blocks.items ++ end_blocks end (nodes_in inputs.now)) }
    ensures parts { flat.new.parts ≡ flat.old.parts }
{
    match end {
        End::Nand => push_node(&mut flat.nodes, Node::Nand(inputs.node(0), inputs.node(1))),
        End::Dff => push_node(&mut flat.nodes, Node::Flip(inputs.node(0))),
        End::Keyboard => put_pins(&mut flat.nodes, 16),
        End::Rom => put_block(flat, rom_block(alloc, &inputs.all(alloc)?)?),
        End::Block(bits) => put_block(flat, memory_block(alloc, bits, &inputs.all(alloc)?)?),
    }
}

/// The block of an end that is put next.
fn block_of(end: Option<End>, number: usize) -> Option<u32>
    requires { number ≤ 16777216 }
    ensures { result ≡ block_at end number }
{
    match end {
        Some(End::Rom) | Some(End::Block(_)) => Some(number as u32),
        _ => None,
    }
}

/// A part that is put next, where this many nodes and blocks are there.
fn part_at<'a, 'b>(
    alloc: Global,
    catalog: &Catalog<'a>,
    plan: &Plan<'a>,
    inputs: &Inputs<'a, 'b>,
    base: usize,
    number: usize,
) -> Result<PartAt, AllocError>
    requires there { plan.now.number < length catalog.now.entries.now }
    requires base { base ≤ 16777216 }
    requires within { All (IsWithin (length (nodes_in inputs.now)) 16777216) plan.now.outs.items }
    requires number { number ≤ 16777216 }
    ensures chip { IfOk result (λ part. (chip : Entry)
        → slice_get catalog.now.entries.now plan.now.number ≡ Some chip → part.chip ≡ chip.name) }
    ensures outs { IfOk result
        (λ part. part.outs ≡ map (node_of base (nodes_in inputs.now)) plan.now.outs.items) }
    ensures block { IfOk result (λ part. part.block ≡ block_at plan.now.end number) }
{
    Ok(PartAt {
        chip: entry_at(catalog, plan.number).name.clone()?,
        outs: List::of(nodes_of(alloc, &plan.outs, base, inputs)?),
        block: block_of(plan.end, number),
    })
}

/// A chip with some of its parts put: where its nodes begin, the nodes of its input bits, and the parts that are to come.
#[derive(Drop)]
pub(crate) struct Unfinished<'a, 'b> {
    pub base: usize,
    pub inputs: Inputs<'a, 'b>,
    pub rest: &'b [PartPlan<'a>],
}

fn push<'a, 'b>(
    stack: &mut Vec<Unfinished<'a, 'b>>,
    chip: Unfinished<'a, 'b>,
) -> Result<(), AllocError>
    ensures { OnOk result (stack.new.items ≡ stack.old.items ++ chip.entry ∷ []) }
{
    stack.push(chip)?;
    Ok(())
}

/// Puts an end after what is there, or begins a chip that has parts; the nodes of its input bits are given.
fn enter<'a, 'b>(
    alloc: Global,
    plan: &'b Plan<'a>,
    inputs: Inputs<'a, 'b>,
    flat: &mut Growing,
    stack: &mut Vec<Unfinished<'a, 'b>>,
) -> Result<(), AllocError>
    requires { CanBegin plan.now (nodes_in inputs) flat.old }
    ensures { OnOk result
        (IsBegun plan.now (nodes_in inputs.entry) flat.old flat.new
        stack.old.items stack.new.items) }
{
    match plan.end {
        Some(end) => put_end(alloc, end, &inputs, flat),
        None => push(
            stack,
            Unfinished {
                base: flat.nodes.as_slice().len(),
                inputs,
                rest: plan.parts.as_slice(),
            },
        ),
    }
}

/// Puts the next part of the chip on top of the stack.
fn step<'a, 'b>(
    alloc: Global,
    catalog: &Catalog<'a>,
    plans: &'b [Plan<'a>],
    flat: &mut Growing,
    stack: &mut Vec<Unfinished<'a, 'b>>,
    chip: Unfinished<'a, 'b>,
) -> Result<(), AllocError>
    requires catalog { IsCatalog catalog.now }
    requires ends { EndsHavePins (chips_of catalog.now) }
    requires plans { ArePlans (chips_of catalog.now) plans.now }
    requires pending { (task : Task)
        × ArePending (chips_of catalog.now) plans.now task (stack.old.items ++ chip ∷ []) flat.old }
    ensures pending { OnOk result ((task : Task) → ArePending
        (chips_of catalog.now) plans.now task (stack.old.items ++ chip.entry ∷ []) flat.old
        → ArePending (chips_of catalog.now) plans.now task stack.new.items flat.new) }
    ensures less { OnOk result (all_steps plans.now stack.new.items
        < all_steps plans.now (stack.old.items ++ chip.entry ∷ [])) }
{
    let Some((part, others)) = chip.rest.split_first() else {
        return Ok(());
    };
    let plan = &plans[part.place];
    let nodes = part
        .feeds
        .nodes(alloc, &plan.inputs, chip.base, &chip.inputs)?;
    let listed = part_at(
        alloc,
        catalog,
        plan,
        &nodes,
        flat.nodes.as_slice().len(),
        flat.blocks.as_slice().len(),
    )?;
    flat.parts.push(listed, part.place)?;
    push(
        stack,
        Unfinished {
            base: chip.base,
            inputs: chip.inputs,
            rest: others,
        },
    )?;
    enter(alloc, plan, nodes, flat, stack)
}

/// Puts a chip after what is there; the nodes of its input bits are given.
fn put<'a>(
    alloc: Global,
    catalog: &Catalog<'a>,
    plans: &[Plan<'a>],
    place: usize,
    inputs: &[u32],
    flat: &mut Growing,
) -> Result<(), AllocError>
    requires catalog { IsCatalog catalog.now }
    requires ends { EndsHavePins (chips_of catalog.now) }
    requires plans { ArePlans (chips_of catalog.now) plans.now }
    requires put { MayPut plans.now place inputs.now flat.old }
    ensures { OnOk result ((plan : Plan) → slice_get plans.now place ≡ Some plan
        → IsPut (chips_of catalog.now) plan inputs.now flat.old flat.new) }
{
    let mut stack = Vec::new(alloc);
    let nodes = Vec::from_slice(alloc, inputs)?;
    enter(alloc, &plans[place], Inputs::All(nodes), flat, &mut stack)?;
    'chips: while let Some(chip) = stack.pop() {
        step(alloc, catalog, plans, flat, &mut stack, chip)?;
    }
    Ok(())
}

/// A pin in the directory of the chip whose nodes begin at base.
fn pin_at<'a, 'b>(
    alloc: Global,
    wires: &Wires<'a>,
    base: usize,
    inputs: &Inputs<'a, 'b>,
    pin: &'a Pin,
) -> Result<PinAt, AllocError>
    requires base { base ≤ 16777216 }
    requires within { AreWithin (length (nodes_in inputs.now)) 16777216 (wires_of wires.now) }
    ensures name { IfOk result (λ at. at.name ≡ pin.now.name) }
    ensures nodes { IfOk result
        (λ at. at.nodes ≡ nodes_at (own_nodes (wires_of wires.now) base (nodes_in inputs.now))
        (bits_of pin.now.name 0 (pin_width pin.now))) }
{
    let mut nodes = Vec::new(alloc);
    for bit in 0..u32::from(pin.width.unwrap_or(1)) {
        let origin = wires.origin(Bit {
            name: pin.name.as_bytes(),
            bit,
        });
        nodes.push(node_of(origin, base, inputs))?;
    }
    Ok(PinAt {
        name: pin.name.clone()?,
        nodes: List::of(nodes),
    })
}

/// The directory of pins of the chip whose nodes begin at base.
fn list_pins<'a, 'b>(
    alloc: Global,
    wires: &Wires<'a>,
    base: usize,
    inputs: &Inputs<'a, 'b>,
    pins: &'a [Pin],
    listed: &mut Vec<PinAt>,
) -> Result<(), AllocError>
    requires base { base ≤ 16777216 }
    requires within { AreWithin (length (nodes_in inputs.now)) 16777216 (wires_of wires.now) }
    ensures { OnOk result (listed.new.items ≡ listed.old.items
        ++ map (Listed.pin_at
        (own_nodes (wires_of wires.now) base (nodes_in inputs.now))) pins.now) }
{
    for pin in pins {
        listed.push(pin_at(alloc, wires, base, inputs, pin)?)?;
    }
    Ok(())
}

/// The directory of all pins of the chip of this plan, whose nodes begin at base.
fn directory<'a, 'b>(
    alloc: Global,
    plan: &Plan<'a>,
    base: usize,
    inputs: &Inputs<'a, 'b>,
) -> Result<Vec<PinAt>, AllocError>
    requires base { base ≤ 16777216 }
    requires within { AreWithin (length (nodes_in inputs.now)) 16777216 (wires_of plan.now.wires) }
    ensures { IfOk result
        (λ v. v.items ≡ map (Listed.pin_at
        (own_nodes (wires_of plan.now.wires) base (nodes_in inputs.now)))
        plan.now.entry.now.chip.inputs ++ map (Listed.pin_at
        (own_nodes (wires_of plan.now.wires) base (nodes_in inputs.now)))
        plan.now.entry.now.chip.outputs) }
{
    let chip = &plan.entry.chip;
    let mut listed = Vec::new(alloc);
    let pins = chip.inputs.as_slice();
    list_pins(alloc, &plan.wires, base, inputs, pins, &mut listed)?;
    let pins = chip.outputs.as_slice();
    list_pins(alloc, &plan.wires, base, inputs, pins, &mut listed)?;
    Ok(listed)
}

/// The nodes of n pins after the constants.
fn input_nodes(alloc: Global, n: usize) -> Result<Vec<u32>, AllocError>
    requires { n ≤ 16777216 }
    ensures { IfOk result (λ v. v.items ≡ from_two n) }
{
    let mut inputs = Vec::new(alloc);
    for k in 0..n {
        inputs.push(k as u32 + 2)?;
    }
    Ok(inputs)
}

/// The constants, and a pin for each input bit.
fn begin(nodes: &mut Vec<Node>, n: usize) -> Result<(), AllocError>
    ensures { OnOk result (nodes.new.items ≡ nodes.old.items ++ (constants ++ pins n)) }
{
    push_node(nodes, Node::Zero)?;
    push_node(nodes, Node::Nand(LOW, LOW))?;
    put_pins(nodes, n)
}

/// The constants, a pin for each input bit, and nothing after them; parts of so many chips are to come.
fn begun(alloc: Global, n: usize, chips: usize) -> Result<Growing, AllocError>
    ensures nodes { IfOk result (λ flat. flat.nodes.items ≡ constants ++ pins n) }
    ensures blocks { IfOk result (λ flat. flat.blocks.items ≡ []) }
    ensures parts { IfOk result (λ flat. flat.parts ≡ []) }
{
    let mut nodes = Vec::new(alloc);
    begin(&mut nodes, n)?;
    Ok(Growing {
        nodes,
        blocks: Vec::new(alloc),
        parts: Parts::new(alloc, chips)?,
    })
}

/// The nodes and blocks of a chip without faults, in the order of the text.
pub fn flatten(
    alloc: Global,
    library: &Library,
    top: &Name,
    memories: Memories,
) -> Result<Flat, AllocError>
    requires distinct { AreDistinct library.now.entries }
    requires there { IsSome (find_entry library.now.entries top.now) }
    requires fine { TopIsFaultless (chips_in library.now.entries memories) top.now }
    requires ends { EndsHavePins (chips_in library.now.entries memories) }
    requires few { NeedsFew (chips_in library.now.entries memories) top.now }
    ensures { IfOk result (λ flat. (chip : Entry)
        → find_chip (chips_in library.now.entries memories) top.now ≡ Some chip
        → IsFlat (chips_in library.now.entries memories) chip flat) }
{
    let catalog = Catalog::new(alloc, library, memories)?;
    let nest = nest_of(alloc, &catalog, top.as_bytes())?;
    let plans = plans_of(alloc, &catalog, &nest.chips)?;
    let plan = &plans[nest.top];
    let inputs = input_nodes(alloc, plan.inputs.len())?;
    let mut flat = begun(alloc, inputs.len(), plans.len())?;
    let base = flat.nodes.len();
    put(alloc, &catalog, &plans, nest.top, &inputs, &mut flat)?;
    let pins = directory(alloc, plan, base, &Inputs::All(inputs))?;
    Ok(flat.with_pins(pins))
}
