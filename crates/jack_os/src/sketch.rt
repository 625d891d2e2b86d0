//! Subroutines as plain data: sketches, of which `making` makes trees.

use jack_tree::{Operator, Sign};

/// A term of an expression.
#[derive(Clone, Copy)]
#[cycle(sketches)]
pub enum TermSketch {
    Number(u16),
    Variable(&'static str),
    /// `name[index]`
    Element(&'static str, &'static ExpressionSketch),
    /// `(inside)`
    Group(&'static ExpressionSketch),
    Unary(Sign, &'static TermSketch),
}

/// One term, or two or three with operators between them, which are taken from left to right.
#[derive(Clone, Copy)]
#[cycle(sketches)]
pub enum ExpressionSketch {
    One(TermSketch),
    Two(TermSketch, Operator, TermSketch),
    Three(TermSketch, Operator, TermSketch, Operator, TermSketch),
}

/// A statement.
#[derive(Clone, Copy)]
pub enum StatementSketch {
    /// `let name = value;`
    Let(&'static str, ExpressionSketch),
    /// `let name[index] = value;`
    LetElement(&'static str, ExpressionSketch, ExpressionSketch),
    /// `if (condition) { body }`
    If(ExpressionSketch, &'static [StatementSketch]),
    /// `if (condition) { body } else { other }`
    IfElse(ExpressionSketch, &'static [StatementSketch], &'static [StatementSketch]),
    /// `while (condition) { body }`
    While(ExpressionSketch, &'static [StatementSketch]),
    /// `do class.name(argument);`
    Do(&'static str, &'static str, ExpressionSketch),
    /// `return value;`
    Return(ExpressionSketch),
    /// `return;`
    ReturnNothing,
}

/// A type: `int` or `Array`.
#[derive(Clone, Copy)]
pub enum TypeSketch {
    Int,
    Array,
}

/// A parameter: its type and its name.
#[derive(Clone, Copy)]
pub struct ParameterSketch(pub TypeSketch, pub &'static str);

/// `var kind first, ..;`: a type, the first name, and the others.
#[derive(Clone, Copy)]
pub struct LocalsSketch(
    pub TypeSketch,
    pub &'static str,
    pub &'static [&'static str],
);

/// A function of a class; without a result it is `void`.
#[derive(Clone, Copy)]
pub struct Sketch {
    pub result: Option<TypeSketch>,
    pub name: &'static str,
    pub parameters: &'static [ParameterSketch],
    pub locals: &'static [LocalsSketch],
    pub statements: &'static [StatementSketch],
}
