//! Small netlists.

ghost use Rattle.std.specs.Prelude.{◌≡◌, ◌<◌, [], ◌∷◌, length, IfOk, Some, slice_get};
ghost use Rattle.std.specs.List.{All};
ghost use Rattle.netlist.specs.declared.node.Node.TheVariants.{Pin, Nand, Flip, Word};
ghost use Rattle.netlist.specs.Histories.{HasBits, pin_count};

use crate::checks::holds;
use gate_sim::Sim;
use hdl_tree::List;
use netlist::{Block, History, NetFault, Netlist, Node};
use std::alloc::{AllocError, Global};
use std::test::Fail;

#[test]
fn nand_of_itself(rt: HostRuntime) -> Result<(), Fail> {
    let nodes = vec![in rt.alloc(); Node::Nand(0, 0)]?;
    let blocks: List<Block> = List::of(Vec::new(rt.alloc()));
    let is_refused = match Netlist::new(List::of(nodes), blocks) {
        Err(fault) => fault == NetFault::NotOrdered(0),
        Ok(_) => false,
    };
    holds(&rt, "not in order", is_refused);
    Ok(())
}

// The second Nand after one pin is set, the second pin before the next evaluation, and the second Nand after it.
fn seen_at_two_nands(alloc: Global, net: Netlist) -> Result<(bool, bool, bool), AllocError>
    requires { net.nodes ≡ Pin ∷ Pin ∷ Nand 0 1 ∷ Nand 2 2 ∷ [] }
{
    let mut sim = Sim::new(alloc, net)?;
    sim.set(0, true);
    sim.eval();
    let one = sim.get(3);
    sim.set(1, true);
    let early = sim.get(1);
    sim.eval();
    Ok((one, early, sim.get(3)))
}

#[test]
fn two_nands(rt: HostRuntime) -> Result<(), Fail> {
    let nodes = vec![in rt.alloc(); Node::Pin, Node::Pin, Node::Nand(0, 1), Node::Nand(2, 2)]?;
    let blocks: List<Block> = List::of(Vec::new(rt.alloc()));
    match Netlist::new(List::of(nodes), blocks) {
        Err(_) => holds(&rt, "two Nands", false),
        Ok(net) => {
            let seen = seen_at_two_nands(rt.alloc(), net)?;
            holds(&rt, "two Nands", seen == (false, false, true));
        }
    }
    Ok(())
}

// Pins 0 and 1 are the word that comes into a block of two words, pin 2 is its load and pin 3 its address. Nodes 4 and
// 5 are the bits of its word, 6 is a flip-flop, and 7, its input, is a Nand.
fn mixed_nodes(alloc: Global) -> Result<List<Node>, AllocError>
    ensures { IfOk result
        (λ nodes. nodes ≡ Pin ∷ Pin ∷ Pin ∷ Pin ∷ Word 0 0 ∷ Word 0 1 ∷ Flip 7 ∷ Nand 4 6 ∷ []) }
{
    let nodes = vec![in alloc;
        Node::Pin,
        Node::Pin,
        Node::Pin,
        Node::Pin,
        Node::Word { block: 0, bit: 0 },
        Node::Word { block: 0, bit: 1 },
        Node::Flip(7),
        Node::Nand(4, 6),
    ]?;
    Ok(List::of(nodes))
}

fn mixed_blocks(alloc: Global) -> Result<List<Block>, AllocError>
    ensures { IfOk result (λ blocks. blocks
        ≡ record { words = 2; «data» = 0 ∷ 1 ∷ []; load = 2; address = 3 ∷ [] } ∷ []) }
{
    let data = vec![in alloc; 0, 1]?;
    let address = vec![in alloc; 3]?;
    let blocks = vec![in alloc;
        Block {
            words: 2,
            data: List::of(data),
            load: 2,
            address: List::of(address),
        },
    ]?;
    Ok(List::of(blocks))
}

// The pins of cycle `c`.
fn pins_in(c: u64) -> (bool, bool, bool, bool) {
    (c % 5 < 2, c / 2 % 2 == 1, c % 3 != 0, c % 4 < 2)
}

fn bits_in(alloc: Global, c: u64) -> Result<List<bool>, AllocError>
    ensures { IfOk result (λ bits. length bits ≡ 4) }
{
    let (first, second, load, address) = pins_in(c);
    let bits = vec![in alloc; first, second, load, address]?;
    Ok(List::of(bits))
}

fn bits_in_each(alloc: Global) -> Result<List<List<bool>>, AllocError>
    ensures cycles { IfOk result (λ pins. length pins ≡ 20) }
    ensures bits { IfOk result (λ pins. All (λ bits. length bits ≡ 4) pins) }
{
    let mut pins = Vec::new(alloc);
    for c in 0..20 {
        let bits = bits_in(alloc, c)?;
        pins.push(bits)?;
    }
    Ok(List::of(pins))
}

// Of the words that are loaded at an address the last counts, and one past the words of the block does
// not.
fn history(alloc: Global) -> Result<History, AllocError>
    ensures cycles { IfOk result (λ history. length history.pins ≡ 20) }
    ensures bits { IfOk result (λ history. All (λ bits. length bits ≡ 4) history.pins) }
{
    let pins = bits_in_each(alloc)?;
    let loads = vec![in alloc; (0, 1, 1), (0, 1, 2), (0, 2, 3)]?;
    Ok(History {
        pins,
        loads: List::of(loads),
    })
}

fn push_read(
    alloc: Global,
    net: &Netlist,
    history: &History,
    c: u64,
    values: &mut Vec<bool>,
) -> Result<(), AllocError>
    requires nodes { length net.now.nodes ≡ 8 }
    requires cycle { c < length history.now.pins }
    requires bits { HasBits net.now.nodes history.now.pins }
{
    for node in 0..8 {
        let value = net.value(alloc, history, node, c)?;
        values.push(value)?;
    }
    Ok(())
}

// The values of all nodes in each cycle, as a history gives them.
fn read_values(alloc: Global, net: &Netlist, history: &History) -> Result<Vec<bool>, AllocError>
    requires nodes { length net.now.nodes ≡ 8 }
    requires pins { pin_count net.now.nodes ≡ 4 }
    requires cycles { length history.now.pins ≡ 20 }
    requires bits { All (λ bits. length bits ≡ 4) history.now.pins }
{
    let mut values = Vec::new(alloc);
    for c in 0..20 {
        push_read(alloc, net, history, c, &mut values)?;
    }
    Ok(values)
}

fn set_pins(sim: &mut Sim, c: u64)
    requires first { slice_get sim.old.net.nodes 0 ≡ Some Pin }
    requires second { slice_get sim.old.net.nodes 1 ≡ Some Pin }
    requires load { slice_get sim.old.net.nodes 2 ≡ Some Pin }
    requires address { slice_get sim.old.net.nodes 3 ≡ Some Pin }
    ensures { sim.new.net ≡ sim.old.net }
{
    let (first, second, load, address) = pins_in(c);
    sim.set(0, first);
    sim.set(1, second);
    sim.set(2, load);
    sim.set(3, address);
}

fn push_simulated(sim: &Sim, values: &mut Vec<bool>) -> Result<(), AllocError>
    requires { length sim.now.net.nodes ≡ 8 }
{
    for node in 0..8 {
        values.push(sim.get(node))?;
    }
    Ok(())
}

// The values of all nodes in each cycle, as a simulator has them.
fn simulated_values(alloc: Global, sim: &mut Sim) -> Result<Vec<bool>, AllocError>
    requires nodes { length sim.old.net.nodes ≡ 8 }
    requires first { slice_get sim.old.net.nodes 0 ≡ Some Pin }
    requires second { slice_get sim.old.net.nodes 1 ≡ Some Pin }
    requires load { slice_get sim.old.net.nodes 2 ≡ Some Pin }
    requires address { slice_get sim.old.net.nodes 3 ≡ Some Pin }
{
    let mut values = Vec::new(alloc);
    for c in 0..20 {
        set_pins(sim, c);
        sim.eval();
        push_simulated(sim, &mut values)?;
        sim.cycle();
    }
    Ok(values)
}

// Whether a simulator has the values that a history gives.
fn agrees(alloc: Global) -> Result<bool, AllocError> {
    let history = history(alloc)?;
    let nodes = mixed_nodes(alloc)?;
    let blocks = mixed_blocks(alloc)?;
    match Netlist::new(nodes, blocks) {
        Err(_) => Ok(false),
        Ok(net) => {
            let read = read_values(alloc, &net, &history)?;
            let mut sim = Sim::new(alloc, net)?;
            sim.load_block(0, 1, &[2]);
            let simulated = simulated_values(alloc, &mut sim)?;
            Ok(read == simulated)
        }
    }
}

#[test]
fn twenty_cycles(rt: HostRuntime) -> Result<(), Fail> {
    let agrees = agrees(rt.alloc())?;
    holds(&rt, "twenty cycles", agrees);
    Ok(())
}

// The high bit of the word that is shown, and the word at address 0.
type SeenWord = (bool, u16);

// What is seen after a tick and a tock with a word to load. Then the word after it is put anew, and after another tock,
// and the bit that is shown at another address.
#[derive(Clone, Copy)]
struct Seen {
    ticked: SeenWord,
    tocked: SeenWord,
    put: u16,
    again: u16,
    elsewhere: bool,
}

fn word_seen(sim: &Sim) -> SeenWord
    requires nodes { length sim.now.net.nodes ≡ 8 }
    requires block { sim.now.net.blocks
        ≡ record { words = 2; «data» = 0 ∷ 1 ∷ []; load = 2; address = 3 ∷ [] } ∷ [] }
{
    (sim.get(5), sim.block_word(0, 0))
}

// Pins 1 and 2 are set for the first tick, and pin 3 at the end.
fn words_seen(alloc: Global, net: Netlist) -> Result<Seen, AllocError>
    requires nodes { net.nodes
        ≡ Pin ∷ Pin ∷ Pin ∷ Pin ∷ Word 0 0 ∷ Word 0 1 ∷ Flip 7 ∷ Nand 4 6 ∷ [] }
    requires block { net.blocks
        ≡ record { words = 2; «data» = 0 ∷ 1 ∷ []; load = 2; address = 3 ∷ [] } ∷ [] }
{
    let mut sim = Sim::new(alloc, net)?;
    sim.set(1, true);
    sim.set(2, true);
    sim.tick();
    let ticked = word_seen(&sim);
    sim.tock();
    let tocked = word_seen(&sim);
    sim.load_block(0, 0, &[1]);
    let put = sim.block_word(0, 0);
    sim.tock();
    let again = sim.block_word(0, 0);
    sim.set(3, true);
    sim.eval();
    Ok(Seen {
        ticked,
        tocked,
        put,
        again,
        elsewhere: sim.get(5),
    })
}

// A word of two bits at an address of one bit.
#[test]
fn words(rt: HostRuntime) -> Result<(), Fail> {
    let nodes = mixed_nodes(rt.alloc())?;
    let blocks = mixed_blocks(rt.alloc())?;
    match Netlist::new(nodes, blocks) {
        Err(_) => holds(&rt, "words", false),
        Ok(net) => {
            let seen = words_seen(rt.alloc(), net)?;
            // What is written shows from the next cycle on.
            holds(&rt, "tick", seen.ticked == (false, 0));
            holds(&rt, "tock", seen.tocked == (true, 2));
            // A tock without a tick writes the same word again, after one that was put.
            holds(&rt, "put", (seen.put, seen.again) == (1, 2));
            holds(&rt, "elsewhere", !seen.elsewhere);
        }
    }
    Ok(())
}

// Four lanes side by side: pins 0 to 7, flip-flops 8 to 11, two rows of Nands, 12 to 15 and 16 to 19, and two Nands by
// themselves.
fn row_nodes(alloc: Global) -> Result<List<Node>, AllocError>
    ensures { IfOk result (λ nodes. nodes ≡ Pin ∷ Pin ∷ Pin ∷ Pin ∷ Pin ∷ Pin ∷ Pin ∷ Pin ∷ Flip 16
        ∷ Flip 17 ∷ Flip 18 ∷ Flip 19 ∷ Nand 0 8 ∷ Nand 1 9 ∷ Nand 2 10 ∷ Nand 3 11 ∷ Nand 12 4
        ∷ Nand 13 5 ∷ Nand 14 6 ∷ Nand 15 7 ∷ Nand 16 17 ∷ Nand 20 18 ∷ []) }
{
    let nodes = vec![in alloc;
        Node::Pin,
        Node::Pin,
        Node::Pin,
        Node::Pin,
        Node::Pin,
        Node::Pin,
        Node::Pin,
        Node::Pin,
        Node::Flip(16),
        Node::Flip(17),
        Node::Flip(18),
        Node::Flip(19),
        Node::Nand(0, 8),
        Node::Nand(1, 9),
        Node::Nand(2, 10),
        Node::Nand(3, 11),
        Node::Nand(12, 4),
        Node::Nand(13, 5),
        Node::Nand(14, 6),
        Node::Nand(15, 7),
        Node::Nand(16, 17),
        Node::Nand(20, 18),
    ]?;
    Ok(List::of(nodes))
}

// The bits of pins and flip-flops, and what the next tock takes.
#[derive(Clone, Copy)]
struct RowState {
    pins: u8,
    flips: u8,
    fixed: u8,
}

fn is_on(bits: u8, k: u8) -> bool {
    k < 8 && bits >> k & 1 == 1
}

// The rows of Nands: of the lower pins and the flip-flops, and of these and the higher pins.
fn first_row(state: RowState) -> u8 {
    !(state.pins & state.flips) & 15
}

fn second_row(state: RowState) -> u8 {
    !(first_row(state) & (state.pins / 16)) & 15
}

fn push_bits(bits: u8, n: u8, values: &mut Vec<bool>) -> Result<(), AllocError> {
    for k in 0..n {
        values.push(is_on(bits, k))?;
    }
    Ok(())
}

// The values of all nodes.
fn row_values(state: RowState, values: &mut Vec<bool>) -> Result<(), AllocError> {
    let second = second_row(state);
    let alone = !(is_on(second, 0) & is_on(second, 1));
    push_bits(state.pins, 8, values)?;
    push_bits(state.flips, 4, values)?;
    push_bits(first_row(state), 4, values)?;
    push_bits(second, 4, values)?;
    values.push(alone)?;
    values.push(!(alone & is_on(second, 2)))?;
    Ok(())
}

fn set_row_pins(sim: &mut Sim, pins: u8)
    requires pin_0 { slice_get sim.old.net.nodes 0 ≡ Some Pin }
    requires pin_1 { slice_get sim.old.net.nodes 1 ≡ Some Pin }
    requires pin_2 { slice_get sim.old.net.nodes 2 ≡ Some Pin }
    requires pin_3 { slice_get sim.old.net.nodes 3 ≡ Some Pin }
    requires pin_4 { slice_get sim.old.net.nodes 4 ≡ Some Pin }
    requires pin_5 { slice_get sim.old.net.nodes 5 ≡ Some Pin }
    requires pin_6 { slice_get sim.old.net.nodes 6 ≡ Some Pin }
    requires pin_7 { slice_get sim.old.net.nodes 7 ≡ Some Pin }
    ensures { sim.new.net ≡ sim.old.net }
{
    sim.set(0, is_on(pins, 0));
    sim.set(1, is_on(pins, 1));
    sim.set(2, is_on(pins, 2));
    sim.set(3, is_on(pins, 3));
    sim.set(4, is_on(pins, 4));
    sim.set(5, is_on(pins, 5));
    sim.set(6, is_on(pins, 6));
    sim.set(7, is_on(pins, 7));
}

// One of four calls that evaluate.
fn call(sim: &mut Sim, state: RowState, which: u8) -> RowState
    ensures { sim.new.net ≡ sim.old.net }
{
    let taken = RowState {
        flips: state.fixed,
        ..state
    };
    let fixed = RowState {
        fixed: second_row(state),
        ..state
    };
    if which == 0 {
        sim.eval();
        state
    } else if which == 1 {
        sim.tick();
        fixed
    } else if which == 2 {
        sim.tock();
        taken
    } else {
        sim.cycle();
        RowState {
            flips: fixed.fixed,
            ..fixed
        }
    }
}

fn push_all_values(sim: &Sim, values: &mut Vec<bool>) -> Result<(), AllocError>
    requires { length sim.now.net.nodes ≡ 22 }
{
    for node in 0..22 {
        values.push(sim.get(node))?;
    }
    Ok(())
}

// Whether after each of many calls all nodes have the values that the rows have.
fn rows_agree(alloc: Global, sim: &mut Sim) -> Result<bool, AllocError>
    requires nodes { length sim.old.net.nodes ≡ 22 }
    requires pin_0 { slice_get sim.old.net.nodes 0 ≡ Some Pin }
    requires pin_1 { slice_get sim.old.net.nodes 1 ≡ Some Pin }
    requires pin_2 { slice_get sim.old.net.nodes 2 ≡ Some Pin }
    requires pin_3 { slice_get sim.old.net.nodes 3 ≡ Some Pin }
    requires pin_4 { slice_get sim.old.net.nodes 4 ≡ Some Pin }
    requires pin_5 { slice_get sim.old.net.nodes 5 ≡ Some Pin }
    requires pin_6 { slice_get sim.old.net.nodes 6 ≡ Some Pin }
    requires pin_7 { slice_get sim.old.net.nodes 7 ≡ Some Pin }
{
    let mut state = RowState {
        pins: 0,
        flips: 0,
        fixed: 0,
    };
    let mut random = 1u32;
    for _ in 0..500u32 {
        random = random.wrapping_mul(1664525).wrapping_add(1013904223);
        if random / 65536 % 4 != 0 {
            let flipped = 1u8 << (random / 1048576 % 8);
            state.pins = state.pins ^ flipped;
        }
        set_row_pins(sim, state.pins);
        state = call(sim, state, (random / 16777216 % 4) as u8);
        let mut simulated = Vec::new(alloc);
        let mut expected = Vec::new(alloc);
        push_all_values(sim, &mut simulated)?;
        row_values(state, &mut expected)?;
        if simulated != expected {
            return Ok(false);
        }
    }
    Ok(true)
}

// Rows are evaluated lane by lane right where some of their lanes are touched.
#[test]
fn rows(rt: HostRuntime) -> Result<(), Fail> {
    let nodes = row_nodes(rt.alloc())?;
    let blocks: List<Block> = List::of(Vec::new(rt.alloc()));
    match Netlist::new(nodes, blocks) {
        Err(_) => holds(&rt, "rows", false),
        Ok(net) => {
            let mut sim = Sim::new(rt.alloc(), net)?;
            let agree = rows_agree(rt.alloc(), &mut sim)?;
            holds(&rt, "rows", agree);
        }
    }
    Ok(())
}
