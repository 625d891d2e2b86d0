//! The chips from HalfAdder to the ALU (book, chapter 2), and Shift: their trees, each with the law that it is its function.
#![tactic(auto)]

mod laws;
mod trees;

pub use laws::{
    add16_law, alu_law, alu_texts_law, full_adder_law, half_adder_law, inc16_law, shift_law,
};
pub use trees::{
    SOME_BIT, SOME_HIGH_BIT, SOME_LOW_BIT, add16_tree, alu_tree, full_adder_tree, half_adder_tree,
    inc16_tree, shift_tree,
};
