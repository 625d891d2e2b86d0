//! The generator of programs: from a seed and a number to the text of a Jack class, whose statements are drawn.
#![tactic(auto)]

mod generator;
mod laws;

pub use generator::program;
pub use laws::{length_law, one_text_law, rows_law};
