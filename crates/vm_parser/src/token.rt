//! Tokens of VM texts.
use scan_text::Place;
use vm_tree::{Operation, Segment};

/// What a token is: a word of the bytes of names, `if-goto`, a number of at most 32,767, or the end of a line.
#[derive(Clone, Copy)]
pub enum Kind {
    Name,
    IfGoto,
    Number(u16),
    LineEnd,
}

/// What a word can be in a command, beside a name.
#[derive(Clone, Copy)]
pub enum Role {
    Push,
    Pop,
    Label,
    Goto,
    IfGoto,
    Call,
    Function,
    Return,
    Operation(Operation),
    Segment(Segment),
    Plain,
}

/// A token: a word's text, and the place where the token begins. Other tokens keep no text.
#[derive(Clone, Copy)]
pub struct Token<'a> {
    pub kind: Kind,
    pub role: Role,
    pub text: &'a str,
    pub place: Place,
}
