//! Elaboration: the faults of a library of chips (book, appendix 2).
//!
//! Pass by pass: `catalog` makes tables of the names of chips and pins. `walk` goes through a chip's text and those of the chips in
//! it, each once, depth first, by a stack of its own. `search` looks at pins and at a part's connections, and `check` at one of
//! these. The definitions are in `specs/`: `Faults` (what can be wrong with a pin, a part's chip or a connection), `Locations`
//! (their order, and the first fault) and `Whole`.
#![tactic(auto)]

mod catalog;
mod check;
mod elab;
mod fault;
mod marks;
mod search;
mod stage;
mod walk;

// The passes after this one go through the chips by the same tables.
pub use catalog::{Catalog, port_tables};
pub use check::{count_bits, first_bit};
// What the definitions of faults speak of.
pub use check::{Port, RightSide};
pub use elab::{check_library, order_law};
pub use fault::{ElabFault, FaultKind, NamedFault};
