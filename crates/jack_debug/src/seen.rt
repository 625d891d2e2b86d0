//! What a debugger shows of a stopped computer.
use outer_world::{List, Name, Point};

/// A variable and its word.
#[derive(Drop)]
pub struct Variable {
    pub name: Name,
    pub word: u16,
}

/// A caller: its subroutine, and the statement at which it goes on when the call returns.
#[derive(Drop)]
pub struct Caller {
    pub sub: Name,
    pub number: u32,
}

/// What is shown of the innermost call: its point, `this` where it has one, its variables, the statics of its class, and its
/// callers from the innermost. `lost` says that the frames on the stack did not lead down to `start`.
#[derive(Drop)]
pub struct View {
    pub point: Point,
    pub this: Option<u16>,
    pub arguments: List<Variable>,
    pub locals: List<Variable>,
    pub statics: List<Variable>,
    pub callers: List<Caller>,
    pub lost: bool,
}
