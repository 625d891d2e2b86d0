//! The Computer made of gates (book, chapter 5), moved by keys, one cycle a key, and what is seen of it.
//!
//! The definitions are in `specs/`: `Computer` has its behaviours, with an image and keys, and what is seen of one, and `Laws` says that it is seen
//! as the instruction machine is. `Wiring` has the Computer as a netlist, and where its pins are in it, and `Simple` the same, simplified. `Parts`
//! has the lines of its parts, and `Elaborated` what elaboration asks of the Computer. `Nodes` says how many nodes it needs, and `Followed` which
//! behaviours a `GateComputer` stands for.
#![tactic(auto)]

mod computer;
mod directory;
mod laws;
mod level;
mod prepare;
mod reading;
mod showing;
mod simplified;
mod wire;
mod wiring;
mod words;

pub use computer::GateComputer;
pub use laws::{buildable_law, gates_law, nodes_law, seen_law};
pub use prepare::prepare_gates;
pub use wire::{build_computer, wire_computer};
pub use wiring::{WiredComputer, WiredPart, Wiring};
