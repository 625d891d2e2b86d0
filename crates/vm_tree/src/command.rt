//! Commands.
use outer_world::Name;

/// An operation on the topmost values.
#[derive(Clone, Copy, Debug, PartialEq, Eq)]
pub enum Operation {
    Add,
    Sub,
    Neg,
    Eq,
    Gt,
    Lt,
    And,
    Or,
    Not,
    ShiftLeft,
    ShiftRight,
}

/// Where a value is pushed from or popped to.
#[derive(Clone, Copy, Debug, PartialEq, Eq)]
pub enum Segment {
    Argument,
    Local,
    Static,
    Constant,
    This,
    That,
    Pointer,
    Temp,
}

/// A command of a function's body; a label belongs to its function.
#[derive(Drop)]
pub enum Command {
    Operate(Operation),
    Push(Segment, u16),
    Pop(Segment, u16),
    Label(Name),
    Goto(Name),
    IfGoto(Name),
    /// The function's name, and how many of the topmost values are its arguments.
    Call(Name, u16),
    Return,
}

/// A command with its place in the meaning that it was made from: the number of its statement, and
/// whether it ends a step of that meaning. A command that is read from text has 0 and false.
#[derive(Drop)]
pub struct Line {
    pub command: Command,
    pub statement: u32,
    pub commit: bool,
}
