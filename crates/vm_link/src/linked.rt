//! Linked code.
use outer_world::{List, Name};
use vm_tree::{Operation, Segment};

/// A command of linked code. A static has its number among the static words of all files.
#[derive(Clone, Copy, PartialEq, Eq)]
pub enum Step {
    Operate(Operation),
    Push(Segment, u16),
    Pop(Segment, u16),
    /// The place in the function.
    Goto(usize),
    IfGoto(usize),
    /// The start of a function, with its number of locals.
    Function(u16),
    /// The number of the function, and how many values are its arguments.
    Call(usize, u16),
    Return,
}

/// A step with the number of its statement, and whether it is a commit.
#[derive(Clone, Copy)]
pub struct Code {
    pub step: Step,
    pub statement: u32,
    pub commit: bool,
}

/// A function that is kept, or the opening text of a file, which has an empty name.
#[derive(Drop)]
pub struct LinkedFunction {
    pub name: Name,
    /// The number of its file, from 0.
    pub file: usize,
    /// Its number among all functions of the program, also those that are not kept, in order of file and text from
    /// 1. (With `bare` the opening texts are counted too.)
    pub number: u32,
    pub code: List<Code>,
}

/// A file, and how many static words it has.
#[derive(Drop)]
pub struct LinkedFile {
    pub name: Name,
    pub statics: u32,
}

/// A linked program.
pub struct Linked {
    /// The functions in order of file and text; a function's number is its place here, from 0.
    pub functions: List<LinkedFunction>,
    pub files: List<LinkedFile>,
    /// The number of Sys.init, where it is there.
    pub start: Option<usize>,
    /// Whether all is kept, the opening texts too.
    pub bare: bool,
    /// Whether some command is a commit. In a program that is read from text none is.
    pub marked: bool,
}

// By hand, so that whoever drops one calls this.
impl Drop for Linked {
    fn drop(self) {
        let Linked {
            functions: _,
            files: _,
            start: _,
            bare: _,
            marked: _,
        } = self;
    }
}
