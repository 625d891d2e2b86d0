//! Small netlists, simplified.

ghost use Rattle.std.specs.Prelude.{◌≡◌, ◌<◌, ◌^◌, length, IfOk};

use hdl_tree::List;
use net_simplify::simplify;
use netlist::{Block, Netlist, Node};
use std::alloc::{AllocError, Global};
use std::process::Abort;

// What is left of a netlist: how many nodes, how many of them Nands, and the places of the first two kept nodes.
#[derive(Clone, Copy, Debug, PartialEq, Eq)]
struct Rest {
    nodes: usize,
    nands: usize,
    first: Option<u32>,
    second: Option<u32>,
}

fn count_nands(nodes: &[Node]) -> usize {
    nodes
        .iter()
        .filter(|node| matches!(**node, Node::Nand(_, _)))
        .count()
}

// What is left of nodes and blocks; nothing where they are no netlist, or a kept node isn't there.
fn left_of(
    alloc: Global,
    nodes: Vec<Node>,
    blocks: List<Block>,
    keep: &[u32],
) -> Result<Option<Rest>, AllocError>
    requires { length blocks < 2 ^ 32 }
{
    let count = nodes.len();
    if count > 1000 || !keep.iter().all(|k| (*k as usize) < count) {
        return Ok(None);
    }
    match Netlist::new(List::of(nodes), blocks) {
        Err(_) => Ok(None),
        Ok(net) => {
            let simple = simplify(alloc, &net, keep)?;
            Ok(Some(Rest {
                nodes: simple.net.nodes().len(),
                nands: count_nands(simple.net.nodes()),
                first: simple.place.first().copied(),
                second: simple.place.get(1).copied(),
            }))
        }
    }
}

// The same without blocks.
fn left(alloc: Global, nodes: Vec<Node>, keep: &[u32]) -> Result<Option<Rest>, AllocError> {
    left_of(alloc, nodes, List::of(Vec::new(alloc)), keep)
}

fn found(nodes: usize, nands: usize, first: Option<u32>, second: Option<u32>) -> Option<Rest> {
    Some(Rest {
        nodes,
        nands,
        first,
        second,
    })
}

fn is_left(rt: &impl Abort, left: Option<Rest>, expected: Option<Rest>) {
    assert_eq!(rt; left, expected);
}

// A double negation is the pin itself.
#[test]
fn double_negation(rt: HostRuntime) -> Result<(), AllocError> {
    let nodes = vec![in rt.alloc(); Node::Pin, Node::Nand(0, 0), Node::Nand(1, 1)]?;
    is_left(
        &rt,
        left(rt.alloc(), nodes, &[2])?,
        found(1, 0, Some(0), None),
    );
    Ok(())
}

// Equal gates become one, whatever the order of their inputs.
#[test]
fn equal_gates(rt: HostRuntime) -> Result<(), AllocError> {
    let nodes = vec![in rt.alloc();
        Node::Pin,
        Node::Pin,
        Node::Nand(0, 1),
        Node::Nand(2, 2),
        Node::Nand(1, 0),
        Node::Nand(4, 4),
    ]?;
    is_left(
        &rt,
        left(rt.alloc(), nodes, &[3, 5])?,
        found(4, 2, Some(3), Some(3)),
    );
    Ok(())
}

// A pin, the two constants, a Nand of the pin with each, and one of constants.
fn with_constants(alloc: Global) -> Result<Vec<Node>, AllocError> {
    let nodes = vec![in alloc;
        Node::Pin,
        Node::Zero,
        Node::Nand(1, 1),
        Node::Nand(0, 2),
        Node::Nand(0, 1),
        Node::Nand(4, 2),
    ]?;
    Ok(nodes)
}

// A Nand with 1 negates, and one with 0 is 1; of what is left no gate but the 1 reads a constant.
#[test]
fn constants(rt: HostRuntime) -> Result<(), AllocError> {
    let nodes = with_constants(rt.alloc())?;
    is_left(
        &rt,
        left(rt.alloc(), nodes, &[3, 4])?,
        found(4, 2, Some(3), Some(2)),
    );
    let nodes = with_constants(rt.alloc())?;
    is_left(
        &rt,
        left(rt.alloc(), nodes, &[5])?,
        found(2, 0, Some(1), None),
    );
    Ok(())
}

// Two flip-flops whose input is the negation of the first.
fn with_flip_flops(alloc: Global) -> Result<Vec<Node>, AllocError> {
    let nodes = vec![in alloc; Node::Flip(2), Node::Pin, Node::Nand(0, 0), Node::Flip(2)]?;
    Ok(nodes)
}

// A flip-flop that feeds itself through a gate stays where it is kept, and goes where it isn't.
#[test]
fn flip_flops(rt: HostRuntime) -> Result<(), AllocError> {
    let nodes = with_flip_flops(rt.alloc())?;
    is_left(
        &rt,
        left(rt.alloc(), nodes, &[0, 3])?,
        found(4, 1, Some(0), Some(3)),
    );
    let nodes = with_flip_flops(rt.alloc())?;
    is_left(
        &rt,
        left(rt.alloc(), nodes, &[1])?,
        found(1, 0, Some(0), None),
    );
    Ok(())
}

// A block of two words: node 2 comes in, node 1 is its load and node 0 its address.
fn one_block(alloc: Global) -> Result<List<Block>, AllocError>
    ensures { IfOk result (λ blocks. length blocks ≡ 1) }
{
    let data = vec![in alloc; 2]?;
    let address = vec![in alloc; 0]?;
    let blocks = vec![in alloc;
        Block {
            words: 2,
            data: List::of(data),
            load: 1,
            address: List::of(address),
        },
    ]?;
    Ok(List::of(blocks))
}

// Two pins, the negation of the first, which comes into the block, and the lowest bit of its word.
fn with_a_word(alloc: Global) -> Result<Vec<Node>, AllocError> {
    let nodes = vec![in alloc;
        Node::Pin,
        Node::Pin,
        Node::Nand(0, 0),
        Node::Word { block: 0, bit: 0 },
    ]?;
    Ok(nodes)
}

// What comes into a block stays, also where the block's word goes.
#[test]
fn words_that_come_in(rt: HostRuntime) -> Result<(), AllocError> {
    let nodes = with_a_word(rt.alloc())?;
    let blocks = one_block(rt.alloc())?;
    is_left(
        &rt,
        left_of(rt.alloc(), nodes, blocks, &[3])?,
        found(4, 1, Some(3), None),
    );
    let nodes = with_a_word(rt.alloc())?;
    let blocks = one_block(rt.alloc())?;
    is_left(
        &rt,
        left_of(rt.alloc(), nodes, blocks, &[])?,
        found(3, 1, None, None),
    );
    Ok(())
}
