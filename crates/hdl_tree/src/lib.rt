//! HDL texts as trees (book, chapter 1 and appendix 2), chips by name, and what a chip does: its behaviour, as a definition.
//!
//! The definitions are in `specs/`: `Writable` (the chips that texts can have), `Chips` (libraries, ends, bits of pins), `Memory` (what
//! stands in memory, cycle by cycle) and `Behaviour`.
#![tactic(auto)]

mod ends;
mod library;
mod list;
mod name;
mod tree;

pub use ends::{End, Memories, find_end};
pub use library::{Entry, Library};
pub use list::List;
pub use name::Name;
pub use tree::{Body, Chip, Connection, Part, Pin, Selection, Source, Subscript};
