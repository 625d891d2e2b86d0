//! Jack texts as tokens and as trees (book, chapters 9 and 10).
#![tactic(auto)]

mod boxed_expression;
mod boxed_name;
mod short;
mod spelling;
mod text;
mod token;
mod tree;

pub use boxed_expression::BoxedExpression;
pub use boxed_name::BoxedName;
pub use text::Text;
pub use token::{Keyword, Kind, Token};
pub use tree::{
    Call, Class, ClassVariables, Constant, Expression, Form, Locals, Name, Names, Operation,
    Operator, Parameter, Scope, Sign, Statement, Subroutine, Term, Type,
};
