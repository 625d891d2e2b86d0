//! Functions, files and programs.
use crate::Line;
use outer_world::{List, Name};

/// A function: its `function` line, and the lines up to the next one.
#[derive(Drop)]
pub struct Function {
    pub name: Name,
    pub locals: u16,
    pub lines: List<Line>,
}

/// A file: its name, what stands before its first function, and its functions.
#[derive(Drop)]
pub struct File {
    pub name: Name,
    pub opening: List<Line>,
    pub functions: List<Function>,
}

/// The files of a program, in order of name.
pub type Program = List<File>;
