//! The chips that keep words (book, chapter 3): their trees, each with the law that it is its function over every history.
#![tactic(auto)]

mod laws;
mod trees;

pub use laws::{
    a_register_law, bit_law, d_register_law, memory_texts_law, pc_law, ram4k_law, ram8_law,
    ram16k_law, ram64_law, ram512_law, register_law, screen_law,
};
pub use trees::{
    a_register_tree, bit_tree, d_register_tree, dff_tree, pc_tree, ram4k_tree, ram8_tree,
    ram16k_tree, ram64_tree, ram512_tree, register_tree, screen_tree,
};
