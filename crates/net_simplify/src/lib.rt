//! A netlist simplifier (book, chapter 1). Equal gates become one (structural hashing), double negations and constants that gates read go
//! (constant propagation), and so does each node that nothing reads (dead nodes).
//!
//! The definitions are in `specs/`: `Same` (what the new netlist shows of the old one), `Normal` (the normal form) and `Simplified`. One pass
//! folds the nodes (`fold`, over `gates` and `table`); what is reached is marked (`reach`) and put alone (`trim`).
#![tactic(auto)]

mod fold;
mod gates;
mod laws;
mod middle;
mod moving;
mod reach;
mod simplifying;
mod table;
mod trim;

pub use laws::itself_law;
pub use simplifying::{Simple, simplify};
