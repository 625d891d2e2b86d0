//! The machine that steps Jack programs by their meaning: its frames point into the program.
#![tactic(auto)]

mod calling;
mod effects;
mod frames;
mod fronts;
mod jack;
mod looking;
mod parts;
mod texts;
mod words;

pub use jack::Jack;
