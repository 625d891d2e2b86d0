//! The names of Jack programs: what each stands for, what can be wrong with one, and the program that is meant.
#![tactic(auto)]

mod bodies;
mod checks;
mod classes;
mod fault;
mod kinds;
mod laws;
mod meant;
mod names;
mod program;
mod scope;
mod subroutine;
mod twice;
mod variables;

pub use fault::{NameError, NameFault, NameKind};
pub use laws::{existence_law, meant_law, names_law};
pub use program::resolve;
// What the definitions of resolved names speak of.
pub use scope::{Declared, Signature, Slot, Way};
