//! Trees that are made of sketches and not read. What stands in no text has the place 0:0.

ghost use Rattle.std.specs.Prelude.{◌≡◌, IfOk, Some, map};
ghost use Rattle.grammar.specs.Rules.{Leaf, Node, Pair};
ghost use Rattle.jack_parser.specs.Trees.{name_leaf, name_said, term_tree, exp_tree, operation_tree, operations_tree, args_tree, call_said, invoked_tree, invoked_by};
ghost use Rattle.jack_parser.specs.StatementTrees.{statement_tree};
ghost use Rattle.jack_parser.specs.ClassTrees.{type_leaf_said, result_said, locals_tree, parameter_tree, subroutine_tree};
ghost use Rattle.jack_os.specs.Inner.Made as made;
ghost use Rattle.jack_os.specs.Inner.Sketched as sketched;

use crate::sketch::{
    ExpressionSketch, LocalsSketch, ParameterSketch, Sketch, StatementSketch, TermSketch,
    TypeSketch,
};
use jack_tree::{
    BoxedExpression, BoxedName, Call, Constant, Expression, Form, Locals, Name, Names, Operation,
    Operator, Parameter, Statement, Subroutine, Term, Text, Type,
};
use scan_text::Place;
use std::alloc::{AllocError, Global};

const NOWHERE: Place = Place { line: 0, column: 0 };

fn name(alloc: Global, text: &str) -> Result<Name, AllocError>
    ensures { IfOk result (λ n. name_leaf n ≡ made.name_of text.now) }
{
    let text = Text::new(alloc, text)?;
    Ok(Name {
        text,
        place: NOWHERE,
    })
}

fn boxed_name(alloc: Global, text: &str) -> Result<BoxedName, AllocError>
    ensures { IfOk result (λ n. name_leaf n ≡ made.name_of text.now) }
{
    let name = name(alloc, text)?;
    BoxedName::new(alloc, name)
}

#[cycle(making)]
fn term(alloc: Global, sketch: &TermSketch) -> Result<Term, AllocError>
    ensures { IfOk result (λ t. term_tree t ≡ sketched.term sketch.now) }
{
    match sketch {
        TermSketch::Number(value) => Ok(Term::Constant(Constant::Integer(*value))),
        TermSketch::Variable(text) => Ok(Term::Variable(name(alloc, text)?)),
        TermSketch::Element(text, index) => {
            let name = boxed_name(alloc, text)?;
            let index = expression(alloc, index)?;
            Ok(Term::Element(name, Box::new(alloc, index)?))
        }
        TermSketch::Group(inside) => {
            let inside = expression(alloc, inside)?;
            Ok(Term::Group(Box::new(alloc, inside)?))
        }
        TermSketch::Unary(sign, behind) => {
            let behind = term(alloc, behind)?;
            Ok(Term::Unary(*sign, Box::new(alloc, behind)?))
        }
    }
}

fn operation(operator: Operator, term: Term) -> Operation
    ensures { operation_tree result ≡ made.with_operator operator (term_tree term) }
{
    Operation {
        operator,
        place: NOWHERE,
        term,
    }
}

// A term, and operators with further terms.
fn chain(first: Term, rest: Vec<Operation>) -> Expression
    ensures { exp_tree result ≡ Node (Pair (term_tree first) (operations_tree rest.items)) }
{
    Expression { first, rest }
}

#[cycle(making)]
fn expression(alloc: Global, sketch: &ExpressionSketch) -> Result<Expression, AllocError>
    ensures { IfOk result (λ e. exp_tree e ≡ sketched.expression sketch.now) }
{
    match sketch {
        ExpressionSketch::One(only) => {
            let only = term(alloc, only)?;
            Ok(chain(only, Vec::new(alloc)))
        }
        ExpressionSketch::Two(left, operator, right) => {
            let left = term(alloc, left)?;
            let right = term(alloc, right)?;
            let more = operation(*operator, right);
            Ok(chain(left, vec![in alloc; more]?))
        }
        ExpressionSketch::Three(left, operator, middle, next_operator, right) => {
            let left = term(alloc, left)?;
            let middle = term(alloc, middle)?;
            let right = term(alloc, right)?;
            let more = operation(*operator, middle);
            let last = operation(*next_operator, right);
            Ok(chain(left, vec![in alloc; more, last]?))
        }
    }
}

fn boxed(alloc: Global, sketch: &ExpressionSketch) -> Result<BoxedExpression, AllocError>
    ensures { IfOk result (λ e. exp_tree e ≡ sketched.expression sketch.now) }
{
    let expression = expression(alloc, sketch)?;
    BoxedExpression::new(alloc, expression)
}

// A call through a name.
fn call_through(object: Name, name: Name, arguments: Vec<Expression>) -> Call
    ensures front { call_said result ≡ name_said object }
    ensures behind { invoked_tree result
        ≡ invoked_by (Some object) name (args_tree arguments.items) }
{
    Call {
        object: Some(object),
        name,
        arguments,
    }
}

// `do class.text(argument);`
fn do_call(
    alloc: Global,
    class: &str,
    text: &str,
    argument: &ExpressionSketch,
) -> Result<Statement, AllocError>
    ensures { IfOk result (λ s. statement_tree s
        ≡ made.do_call class.now text.now (sketched.expression argument.now)) }
{
    let front = name(alloc, class)?;
    let called = name(alloc, text)?;
    let argument = expression(alloc, argument)?;
    let arguments = vec![in alloc; argument]?;
    let call = call_through(front, called, arguments);
    Ok(Statement::Do(NOWHERE, call))
}

// `let text = value;`
fn let_variable(
    alloc: Global,
    text: &str,
    value: &ExpressionSketch,
) -> Result<Statement, AllocError>
    ensures { IfOk result (λ s. statement_tree s
        ≡ made.let_variable text.now (sketched.expression value.now)) }
{
    let name = name(alloc, text)?;
    let value = expression(alloc, value)?;
    Ok(Statement::Let(NOWHERE, name, None, value))
}

// `let text[index] = value;`
fn let_element(
    alloc: Global,
    text: &str,
    index: &ExpressionSketch,
    value: &ExpressionSketch,
) -> Result<Statement, AllocError>
    ensures { IfOk result (λ s. statement_tree s
        ≡ made.let_element text.now (sketched.expression index.now)
        (sketched.expression value.now)) }
{
    let name = name(alloc, text)?;
    let index = expression(alloc, index)?;
    let value = expression(alloc, value)?;
    Ok(Statement::Let(NOWHERE, name, Some(Box::new(alloc, index)?), value))
}

// `return value;`
fn return_value(alloc: Global, value: &ExpressionSketch) -> Result<Statement, AllocError>
    ensures { IfOk result
        (λ s. statement_tree s ≡ made.return_value (sketched.expression value.now)) }
{
    let value = expression(alloc, value)?;
    Ok(Statement::Return(NOWHERE, Some(value)))
}

#[cycle(making_statements)]
fn statement(alloc: Global, sketch: &StatementSketch) -> Result<Statement, AllocError>
    ensures { IfOk result (λ s. statement_tree s ≡ sketched.statement sketch.now) }
{
    match sketch {
        StatementSketch::Let(text, value) => let_variable(alloc, text, value),
        StatementSketch::LetElement(text, index, value) => let_element(alloc, text, index, value),
        StatementSketch::If(condition, body) => {
            let condition = boxed(alloc, condition)?;
            let body = statements(alloc, body)?;
            Ok(Statement::If(NOWHERE, condition, body, None))
        }
        StatementSketch::IfElse(condition, body, other) => {
            let condition = boxed(alloc, condition)?;
            let body = statements(alloc, body)?;
            let other = statements(alloc, other)?;
            Ok(Statement::If(NOWHERE, condition, body, Some(other)))
        }
        StatementSketch::While(condition, body) => {
            let condition = expression(alloc, condition)?;
            let body = statements(alloc, body)?;
            Ok(Statement::While(NOWHERE, condition, body))
        }
        StatementSketch::Do(class, text, argument) => do_call(alloc, class, text, argument),
        StatementSketch::Return(value) => return_value(alloc, value),
        StatementSketch::ReturnNothing => Ok(Statement::Return(NOWHERE, None)),
    }
}

#[cycle(making_statements)]
fn statements(alloc: Global, sketches: &[StatementSketch]) -> Result<Vec<Statement>, AllocError>
    ensures { IfOk result (λ v. map statement_tree v.items ≡ map sketched.statement sketches.now) }
{
    let mut all = Vec::new(alloc);
    for one in sketches {
        all.push(statement(alloc, one)?)?;
    }
    Ok(all)
}

fn type_of(alloc: Global, sketch: TypeSketch) -> Result<Type, AllocError>
    ensures { IfOk result (λ t. Leaf (type_leaf_said t) ≡ sketched.type_of sketch) }
{
    match sketch {
        TypeSketch::Int => Ok(Type::Int),
        TypeSketch::Array => Ok(Type::Class(name(alloc, "Array")?)),
    }
}

fn result_of(alloc: Global, sketch: Option<TypeSketch>) -> Result<Option<Type>, AllocError>
    ensures { IfOk result (λ t. Leaf (result_said t) ≡ sketched.result_of sketch) }
{
    match sketch {
        None => Ok(None),
        Some(kind) => Ok(Some(type_of(alloc, kind)?)),
    }
}

fn parameter(alloc: Global, sketch: &ParameterSketch) -> Result<Parameter, AllocError>
    ensures { IfOk result (λ p. parameter_tree p ≡ sketched.parameter sketch.now) }
{
    let kind = type_of(alloc, sketch.0)?;
    let name = name(alloc, sketch.1)?;
    Ok(Parameter { kind, name })
}

fn parameters(alloc: Global, sketches: &[ParameterSketch]) -> Result<Vec<Parameter>, AllocError>
    ensures { IfOk result (λ v. map parameter_tree v.items ≡ map sketched.parameter sketches.now) }
{
    let mut all = Vec::new(alloc);
    for one in sketches {
        all.push(parameter(alloc, one)?)?;
    }
    Ok(all)
}

fn names(alloc: Global, texts: &[&str]) -> Result<Vec<Name>, AllocError>
    ensures { IfOk result (λ v. map name_leaf v.items ≡ map (λ t. made.name_of t.now) texts.now) }
{
    let mut all = Vec::new(alloc);
    for text in texts {
        all.push(name(alloc, text)?)?;
    }
    Ok(all)
}

#[tactic(auto, using(crate::proofs::Sketched::names_are))]
fn locals(alloc: Global, sketch: &LocalsSketch) -> Result<Locals, AllocError>
    ensures { IfOk result (λ l. locals_tree l ≡ sketched.locals sketch.now) }
{
    let kind = type_of(alloc, sketch.0)?;
    let first = name(alloc, sketch.1)?;
    let more = names(alloc, sketch.2)?;
    let names = Names { first, more };
    Ok(Locals { kind, names })
}

fn all_locals(alloc: Global, sketches: &[LocalsSketch]) -> Result<Vec<Locals>, AllocError>
    ensures { IfOk result (λ v. map locals_tree v.items ≡ map sketched.locals sketches.now) }
{
    let mut all = Vec::new(alloc);
    for one in sketches {
        all.push(locals(alloc, one)?)?;
    }
    Ok(all)
}

/// The subroutine of a sketch.
#[tactic(auto, using(crate::proofs::Sketched::row_is, crate::proofs::Sketched::parameters_are))]
pub fn subroutine(alloc: Global, sketch: &Sketch) -> Result<Subroutine, AllocError>
    ensures { IfOk result (λ s. subroutine_tree s ≡ sketched.subroutine sketch.now) }
{
    let kind = result_of(alloc, sketch.result)?;
    let name = name(alloc, sketch.name)?;
    let parameters = parameters(alloc, sketch.parameters)?;
    let locals = all_locals(alloc, sketch.locals)?;
    let statements = statements(alloc, sketch.statements)?;
    Ok(Subroutine {
        form: Form::Function,
        result: kind,
        name,
        parameters,
        locals,
        statements,
        close: NOWHERE,
    })
}
