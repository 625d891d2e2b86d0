//! Expressions whose names are resolved to numbers.

ghost use Rattle.std.specs.Prelude.{◌≡◌, Some};
ghost use Rattle.jack_core.specs.Heights.{height};

use crate::parts::Parts;

/// A variable, by its number among those of its kind. A method's object is argument 0; the statics are numbered
/// through all classes.
#[derive(Clone, Copy, PartialEq, Eq, Debug)]
pub enum Variable {
    Argument(u32),
    Local(u32),
    Static(u32),
}

/// The operators before a term: `-` and `~`, and `^` and `#`.
#[derive(Clone, Copy, PartialEq, Eq, Debug)]
pub enum Sign {
    Minus,
    Complement,
    ShiftLeft,
    ShiftRight,
}

/// The operators between terms: `+ - & | < > =`.
#[derive(Clone, Copy, PartialEq, Eq, Debug)]
pub enum Operator {
    Plus,
    Subtract,
    And,
    Or,
    Less,
    Greater,
    Equal,
}

/// A part of an expression, which becomes a value in its turn.
#[derive(Clone, Copy, PartialEq, Eq, Debug)]
pub enum Part {
    Literal(u16),
    /// An argument, by its number.
    Argument(u32),
    /// A local, by its number.
    Local(u32),
    /// A static, by its number.
    Static(u32),
    This,
    /// A field of `this`, by its number.
    Field(u16),
    /// An operator before the value of the part that precedes it.
    Unary(Sign),
    /// An operator between the two values that precede it.
    Binary(Operator),
    /// The word at base plus index, the two values that precede it.
    Load,
    /// A call of the subroutine of this number with this many arguments, which precede it.
    Call { arguments: u16, number: u32 },
}

// A program has more parts than anything else.
const _: () = prove!(size_of::<Part>() == 8);

/// An expression in postfix order, as `x 1 +` for `x + 1`: its parts in the order in which they become values. So it is as
/// flat as it is long, however it is nested in the text.
#[derive(Drop)]
pub struct Expression {
    pub parts: Parts,
    // Each part finds its operands, and one value is left.
    pub ghost one: { height 0 parts ≡ Some 1 },
}
