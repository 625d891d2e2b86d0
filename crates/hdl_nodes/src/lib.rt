//! The bits of a chip as nodes of a netlist (book, chapters 1 to 3).
//!
//! A numbering assigns a node to each bit of each pin and net of a chip, and of all parts in it. What connections join is one node, and
//! each end's nodes and block stand in the netlist. The values of the netlist at these nodes are then a behaviour of the chip. The
//! definitions are in `specs/Numbering`.
#![tactic(auto)]

mod laws;

pub use laws::{numbering_law, renaming_law};
