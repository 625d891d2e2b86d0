use crate::token::{Letter, Operator};
use scan_text::Place;

/// `-` or `!` before a letter.
#[derive(Clone, Copy)]
pub enum Prefix {
    Minus,
    Not,
}

/// A computation as it is written.
#[derive(Clone, Copy)]
pub enum Comp {
    Alone(Letter),
    Pair(Letter, Operator, Letter),
    Under(Prefix, Letter),
    /// A register, one place to the left or else to the right.
    Shifted(Letter, bool),
}

/// What stands after the first letter of a computation, if anything does.
#[derive(Clone, Copy)]
pub enum Behind {
    Operation(Operator, Letter),
    Shift(bool),
}

/// Where a computation goes: to one register at most, or to several, given by their bits.
#[derive(Clone, Copy)]
pub enum Dest {
    Register(Option<Letter>),
    Several(u8),
}

/// A computation with its destination and the bits of its jump.
#[derive(Clone, Copy)]
pub struct Compute {
    pub dest: Dest,
    pub comp: Comp,
    pub jump: Option<u8>,
}

/// A symbol, and the place where it stands.
#[derive(Clone, Copy)]
pub struct Symbol<'a> {
    pub name: &'a [u8],
    pub place: Place,
}

/// What stands after `@`.
#[derive(Clone, Copy)]
pub enum Address<'a> {
    Number(u16),
    Symbol(Symbol<'a>),
}

/// What stands on a line that is not blank.
#[derive(Clone, Copy)]
pub enum Item<'a> {
    Label(Symbol<'a>),
    Address(Address<'a>),
    Compute(Compute),
}
