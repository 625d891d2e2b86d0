//! The map of an image: what its addresses mean in the program, what is counted by it of a run, and its text.
//! (The book, chapters 4, 8 and 11.)
#![tactic(auto)]

mod map;
mod printing;
mod tally;

pub use map::{Image, ImageMap, PointRange, StaticWord};
pub use printing::{put_commits, put_shared, show_map};
pub use tally::Tally;
