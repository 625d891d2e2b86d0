//! The Computer (book, chapter 5): the CPU, Memory and the Computer as trees, and the library of all shipped chips. There is the law that
//! each of them has a behaviour, and the law that one cycle of the Computer is one step of the instruction machine.
#![tactic(auto)]

mod laws;
mod shipped;
mod trees;

pub use laws::{
    computer_texts_law, cpu_law, cycle_law, existence_law, faultless_law, libraries_law,
    library_law, loopless_law, pins_law, registers_law, runs_law, texts_law,
};
pub use shipped::{find_shipped, library, take_shipped};
pub use trees::{computer_tree, cpu_tree, keyboard_tree, memory_tree, rom_tree};
