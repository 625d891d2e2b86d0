//! What a test script drives, a chip or the instruction machine: what its variables stand for, and each command that moves it. (The book,
//! appendix 3.)
#![tactic(auto)]

mod brackets;
mod bus;
mod chip;
mod chip_sim;
mod device;
mod directory;
mod driving;
mod machine;
mod naming;
mod numbering;
mod probe;
mod registers;
mod running;
mod tables;
mod variables;

pub use chip::DrivenChip;
pub use device::Device;
pub use directory::{Directory, PartNodes, PinNodes};
pub use machine::ScriptMachine;
pub use probe::Probe;
