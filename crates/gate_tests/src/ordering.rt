use net_order::{OrderError, Ordered, put_in_order};
use netlist::{Block, Node};
use std::alloc::Global;
use std::test::*;

// The places of the first four nodes, and the last of them in order.
fn found_in(ordered: &Ordered) -> Option<([u32; 4], Node)> {
    match (ordered.places.as_slice(), ordered.net.nodes().get(3)) {
        ([first, second, third, fourth, ..], Some(last)) => {
            Some(([*first, *second, *third, *fourth], *last))
        }
        _ => None,
    }
}

// An inverter of a pin, a gate of both, and a flip-flop of that: numbered backwards.
#[test]
fn gates_come_behind_what_they_read(rt: HostRuntime) -> Result<(), Fail> {
    let nodes = [Node::Flip(1), Node::Nand(2, 3), Node::Nand(3, 3), Node::Pin];
    let blocks: [Block; 0] = [];
    let found = match put_in_order(rt.alloc(), &nodes, &blocks) {
        Err(_) => None,
        Ok(ordered) => found_in(&ordered),
    };
    assert_eq!(rt; found, Some(([0, 3, 2, 1], Node::Nand(2, 1))));
    Ok(())
}

#[test]
fn two_gates_feed_each_other(rt: HostRuntime) -> Result<(), Fail> {
    let nodes = [Node::Pin, Node::Nand(0, 2), Node::Nand(1, 0), Node::Flip(3)];
    let blocks: [Block; 0] = [];
    match put_in_order(rt.alloc(), &nodes, &blocks) {
        Err(error) => match error {
            OrderError::Circle(circle) => assert_eq!(rt; circle.len(), 2),
            OrderError::Memory => assert!(rt; false),
        },
        Ok(_ordered) => assert!(rt; false),
    }
    Ok(())
}
