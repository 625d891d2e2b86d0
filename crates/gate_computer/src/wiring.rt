//! The Computer as a netlist, and where its pins are in it.

use hdl_tree::{List, Name};
use netlist::Netlist;

/// A part of the Computer: the name of its chip, and the nodes of the bits of its outputs. Pins are in order of declaration, of each pin the highest
/// bit first.
#[derive(Drop)]
pub struct WiredPart {
    pub chip: Name,
    pub outputs: List<u32>,
}

/// Where the Computer's pins, memories and parts are in its netlist.
#[derive(Drop)]
pub struct Wiring {
    /// The pins of the keyboard, the lowest bit first.
    pub keyboard: List<u32>,
    /// The nodes of the pins `pc` of the CPU, the lowest bit first.
    pub pc: List<u32>,
    /// The nodes of what A holds, the lowest bit first.
    pub a: List<u32>,
    /// The block of the instruction memory.
    pub rom: u32,
    /// The block of main memory.
    pub main: u32,
    /// The block of the screen.
    pub screen: u32,
    /// The parts, depth first in the order of the texts; where the netlist is simplified, none are
    /// listed.
    pub parts: Option<List<WiredPart>>,
}

/// The Computer as a netlist.
#[derive(Drop)]
pub struct WiredComputer {
    pub net: Netlist,
    pub wiring: Wiring,
}
