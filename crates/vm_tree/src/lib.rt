//! VM text as a tree: programs, files, functions and commands.
#![tactic(auto)]

mod command;
mod printing;
mod program;

pub use command::{Command, Line, Operation, Segment};
pub use printing::{print, print_files};
pub use program::{File, Function, Program};
