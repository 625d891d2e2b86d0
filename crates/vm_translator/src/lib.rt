//! The VM translator: linked VM programs as Hack instructions. (The book, chapters 7 and 8.)
#![tactic(auto)]

mod blocks;
mod coded;
mod emit;
mod ends;
mod laws;
mod layout;
mod map;
mod shapes;
mod shared;
mod statics;
mod translating;

pub use coded::{CodeFault, Coded};
pub use laws::{pieces_law, seen_law, steps_carry_law, translated_law};
pub use translating::{size_law, translate};
