//! Elaboration (book, chapters 1 to 3 and appendix 2): a chip as a netlist in order, with a directory of its pins and parts.
//!
//! `elaboration` asks whether anything is wrong with the chip, and else has `build` make it flat and put its nodes in order: `put`, with
//! `moving` for the directory. The definitions are in `specs/`: `Elaborated` says what a chip's netlist and directory are, and `Behaviour`
//! that the values of the netlist are a behaviour of the chip. `Hearing` says what comes in at its ends, by the directory, and `Directory`
//! that what the directory names is there. `Faults` says why a chip has no netlist, and `Sound` what a chip must not have. `Orderly` says
//! what can be put in order, and `Moved` has a flat chip whose nodes have other numbers.
#![tactic(auto)]

mod build;
mod elaboration;
mod fault;
mod laws;
mod moving;
mod put;

pub use build::build_net;
pub use elaboration::elaborate;
pub use fault::ElaborationFault;
pub use laws::{
    behaviour_law, directory_law, elaborated_law, end_alone_law, hearing_law, orderly_law,
    there_law,
};
pub use put::{Elab, put_in_net};
