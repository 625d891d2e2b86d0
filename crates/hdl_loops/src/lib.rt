//! Loops of bits (book, chapter 3 and appendix 2), found chip by chip: no chip is made flat.
//!
//! Each chip is looked at once, after the chips of its parts. `graph` makes its own graph, whose hops lead from a bit of the chip through
//! one part to a bit of the chip. They stand in bundles (`bundle`), one for each output bit of a part: what leads to it, and what it drives.
//! `joint` lists what the part's connections join, and `places` has the pins of each chip for that. `pins` finds what a bit of a pin is
//! joined to, and `known` says which outputs of its chip depend on which inputs. `circle` finds a circle of hops, or sees that there is no
//! circle: `ranks` that rise along each hop show that. `tree` lists what is reached from a bit, and by which ways, through the `doors` by
//! which what is reached leads into bundles; `pairs` does so for each bit of some pins. `leaving` finds the places of a bit in a list.
//! `search` only proposes a circle, so that it is found quickly. `find` goes through the chips. `names` goes along a circle and
//! through the parts, and `report` keeps the nets that it passes. What is proved is each answer: that there is no loop, or that the nets are a
//! loop's. There is no other but want of memory.
#![tactic(auto)]

mod bundle;
mod circle;
mod doors;
mod find;
mod graph;
mod hops;
mod joint;
mod known;
mod leaving;
mod names;
mod pairs;
mod pins;
mod places;
mod ranks;
mod report;
mod search;
mod tree;

pub use find::find_loop;
// What the definitions speak of.
pub use bundle::Bundle;
pub use circle::Circle;
pub use doors::{Door, Doors};
pub use find::Frame;
pub use graph::By;
pub use hops::{BitOf, Dependency, Hop};
pub use joint::Joint;
pub use known::Known;
pub use leaving::Leaving;
pub use names::Task;
pub use pairs::{Pair, PinNames};
pub use pins::Sides;
pub use places::Places;
pub use ranks::Ranks;
pub use report::{Passage, Report};
pub use tree::{Node, Tree};
