//! Jack programs whose names are resolved: what a compiler translates and a machine steps.
#![tactic(auto)]

mod parts;
mod program;
mod tree;

pub use parts::Parts;
pub use program::{Class, Core, Kind, Statement, Subroutine};
pub use tree::{Expression, Operator, Part, Sign, Variable};
