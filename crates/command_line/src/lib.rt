//! The command lines of `nand`, read with `clap` by one table of commands.
//!
//! `specs/Table.antt` is the table and `specs/Line.antt` says which words are a line by it; `read`
//! gives the line of words.
#![tactic(auto)]

mod commands;
mod number;
mod point;
mod reader;
mod request;

pub use reader::{LineError, one_line_law, read};
pub use request::{
    ClassWork, DebugRun, Exec, FileWork, MapFormat, Request, Run, RunLevel, Shown, Source,
    SourceKind,
};
