//! Trees, with the places of names, strings, `this` and statements.

use crate::boxed_expression::BoxedExpression;
use crate::boxed_name::BoxedName;
use crate::text::Text;
use outer_world::Name as FileName;
use scan_text::Place;

/// A text of the source, and the place where its token begins: a name, or what is between the quotes of a string.
#[derive(Debug, Drop)]
pub struct Name {
    pub text: Text,
    pub place: Place,
}

/// The operators between terms: `+ - * / & | < > =`.
#[derive(Clone, Copy, Debug, PartialEq, Eq)]
pub enum Operator {
    Plus,
    Minus,
    Times,
    Divide,
    And,
    Or,
    Less,
    Greater,
    Equal,
}

/// The operators before a term: `-` and `~`, and `^` and `#`.
#[derive(Clone, Copy, Debug, PartialEq, Eq)]
pub enum Sign {
    Minus,
    Not,
    ShiftLeft,
    ShiftRight,
}

/// A term of one token that is no name.
#[derive(Debug, Drop)]
pub enum Constant {
    Integer(u16),
    Text(BoxedName),
    True,
    False,
    Null,
    This(Place),
}

/// A call, through a class or a variable where one is named.
#[derive(Drop)]
#[cycle(expressions)]
pub struct Call {
    pub object: Option<Name>,
    pub name: Name,
    pub arguments: Vec<Expression>,
}

#[derive(Drop)]
#[cycle(expressions)]
pub enum Term {
    Constant(Constant),
    Variable(Name),
    /// `name[index]`
    Element(BoxedName, Box<Expression>),
    Call(Box<Call>),
    /// An expression in parentheses.
    Group(Box<Expression>),
    Unary(Sign, Box<Term>),
}

/// An operator, its place, and the term that follows it.
#[derive(Drop)]
#[cycle(expressions)]
pub struct Operation {
    pub operator: Operator,
    pub place: Place,
    pub term: Term,
}

/// A term, and operators with further terms, which are taken from left to right.
#[derive(Drop)]
#[cycle(expressions)]
pub struct Expression {
    pub first: Term,
    pub rest: Vec<Operation>,
}

/// A statement, with the place of its first token.
#[derive(Drop)]
pub enum Statement {
    /// `let name = value;` and `let name[index] = value;`
    Let(Place, Name, Option<Box<Expression>>, Expression),
    /// The condition, and the statements of both ways; an `else` may be absent.
    If(Place, BoxedExpression, Vec<Statement>, Option<Vec<Statement>>),
    While(Place, Expression, Vec<Statement>),
    Do(Place, Call),
    Return(Place, Option<Expression>),
}

// All statements of a folder stand at once, and most of them are a `let` of a variable: that is the largest one.
const _: () = prove!(size_of::<Statement>() == 112);

/// What a value is said to be.
#[derive(Debug, Drop)]
pub enum Type {
    Int,
    Char,
    Boolean,
    Class(Name),
}

/// One name or more, separated by commas.
#[derive(Debug, Drop)]
pub struct Names {
    pub first: Name,
    pub more: Vec<Name>,
}

/// Whether a class has a variable once, or each of its objects has one.
#[derive(Clone, Copy, Debug, PartialEq, Eq)]
pub enum Scope {
    Static,
    Field,
}

/// `static` or `field`, a type and names.
#[derive(Debug, Drop)]
pub struct ClassVariables {
    pub scope: Scope,
    pub kind: Type,
    pub names: Names,
}

/// `var`, a type and names.
#[derive(Debug, Drop)]
pub struct Locals {
    pub kind: Type,
    pub names: Names,
}

#[derive(Debug, Drop)]
pub struct Parameter {
    pub kind: Type,
    pub name: Name,
}

#[derive(Clone, Copy, Debug, PartialEq, Eq)]
pub enum Form {
    Constructor,
    Function,
    Method,
}

/// A subroutine; without a result it is `void`.
#[derive(Drop)]
pub struct Subroutine {
    pub form: Form,
    pub result: Option<Type>,
    pub name: Name,
    pub parameters: Vec<Parameter>,
    pub locals: Vec<Locals>,
    pub statements: Vec<Statement>,
    /// The place of the brace that closes the body; 0:0 of a subroutine that no text has.
    pub close: Place,
}

/// A class, with the name of its file.
#[derive(Drop)]
pub struct Class {
    pub file: FileName,
    pub name: Name,
    pub variables: Vec<ClassVariables>,
    pub subroutines: Vec<Subroutine>,
}
