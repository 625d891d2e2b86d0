//! Which chips have a behaviour (book, chapters 1 to 3 and appendix 2): each chip without faults and without a loop, whatever comes in.
//! Two tests that compute show of a library that no chip of it has a fault, and none a loop.
//!
//! The tests are in `specs/Clean` (a chip's text) and `specs/Levels` (levels that rise along the nets of a chip), what they show in
//! `specs/Laws`. The laws of behaviours and loops are in `specs/Existence`, `specs/Loopless`, `specs/Reads` and `specs/Rows`. Those in
//! `specs/Inner` serve the proofs alone.
#![tactic(auto)]

mod laws;

pub use laws::{clean_law, exist_law, level_law, loopless_law, reads_law, rows_law};
