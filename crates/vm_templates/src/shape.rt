// What the instructions of a command depend on.

use vm_tree::Operation;

/// The shape of a command of the stack machine, with the numbers that its instructions have.
#[derive(Clone, Copy, PartialEq, Eq, Debug)]
pub enum Shape {
    /// `push constant n`, where `n` is below 32,768.
    PushConstant(u16),
    /// A push from argument, local, this or that: the register `base` holds where the segment begins.
    PushAt { base: u16, index: u16 },
    /// A push of such a segment's first word, to which the register points.
    PushFirst { base: u16 },
    /// A push from static, pointer or temp: of the word at this address.
    PushWord(u16),
    /// A pop to argument, local, this or that.
    PopAt { base: u16, index: u16 },
    /// A pop to such a segment's first word.
    PopFirst { base: u16 },
    /// A pop to static, pointer or temp.
    PopWord(u16),
    /// An operation on the topmost values.
    Operate(Operation),
    /// `goto`, with the address of the label.
    Goto(u16),
    /// `if-goto`, with the address of the label.
    IfGoto(u16),
    /// `call`, with the address of the function.
    Call { target: u16, arguments: u16 },
    /// `function`, with the number of its locals.
    Function { locals: u16 },
    Return,
}
