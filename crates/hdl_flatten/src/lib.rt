//! Chips as nodes and blocks (book, chapters 1 to 3 and appendix 2).
//!
//! Pass by pass: `nest` lists the chips of a tree, each once, after those in it. `size` counts the nodes and the parts of the tree, expanding no
//! chip. `plan` finds out for each chip once what feeds its bits, which `wires` keeps, and those of its parts, which `feeds` keeps. `flat` puts
//! the nodes, and `parts` keeps the directory of parts.
//!
//! The definitions are in `specs/`: `Trees` (the parts of a tree, and how many nodes it needs), `Ends` (the pins of the chips that have no
//! parts), `Flat`, and `Kept` (a part that is listed).
#![tactic(auto)]

mod feeds;
mod flat;
mod nest;
mod parts;
mod plan;
mod size;
mod wires;

pub use flat::{Flat, PartAt, PinAt, flatten};
pub use parts::{ListedPart, Parts};
pub use size::{Size, count};
