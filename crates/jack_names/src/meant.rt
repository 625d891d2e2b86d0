//! The expressions that trees mean. Their parts are pushed onto one vector, in postfix order.

ghost use Rattle.std.specs.Prelude.{◌≡◌, ◌≤◌, ◌^◌, ◌∷◌, [], length, map, IfOk, MatchResult, OnOk};
ghost use Rattle.jack_meaning.specs.Text.{Expression as AnExpression, Call as CallOf, Literal as LiteralOf};
ghost use Rattle.jack_core.specs.Heights.{takes};
ghost use Rattle.jack_core.specs.Reading.{make_expression, the_expression, the_sign};
ghost use Rattle.jack_names.specs.Made.{slot_meant, declared_meant, one, filled_characters, length_word};
ghost use Rattle.jack_names.specs.Inner.Meant.{variable_meant, number_by, called_number, made_number, string_meant, constant_meant, sign_meant, binary_meant, term_meant, exp_meant, operation_meant, grouped_operations, call_meant, value_meant};
ghost use Rattle.jack_names.specs.Inner.Pushed.{Adds, AddsAll, Turns, Joins, Puts, object_meant};
ghost use Rattle.jack_names.specs.Inner.Scoped.{the_scope};

use crate::kinds::callee;
use crate::scope::{Callee, Declared, Scope, Signature, Slot};
use jack_core::{
    Expression as CoreExpression, Operator as CoreOperator, Part, Parts, Sign as CoreSign,
};
use jack_tree::{Call, Constant, Expression, Name, Operation, Operator, Sign, Term};
use std::alloc::{AllocError, Global};

fn slot_part(slot: Slot) -> Part
    ensures takes { takes result ≡ 0 }
    ensures made { make_expression result [] ≡ slot_meant slot }
{
    match slot {
        Slot::Argument(k) => Part::Argument(k),
        Slot::Local(k) => Part::Local(k),
        Slot::Field(k) => Part::Field(k),
        Slot::Static(k) => Part::Static(k),
    }
}

fn declared_part(variable: Option<Declared>) -> Part
    ensures takes { takes result ≡ 0 }
    ensures made { make_expression result [] ≡ declared_meant variable }
{
    match variable {
        None => Part::Literal(0),
        Some(variable) => slot_part(variable.slot),
    }
}

fn variable_part<'a>(scope: &Scope<'a, '_>, name: &'a Name) -> Part
    ensures takes { takes result ≡ 0 }
    ensures made { make_expression result [] ≡ variable_meant (the_scope scope.now) name.now }
{
    declared_part(scope.variable(name.text.as_bytes()))
}

pub(crate) fn number_by(signature: Option<Signature>) -> u32
    ensures { result ≡ number_by signature }
{
    match signature {
        None => 0,
        Some(signature) => signature.number,
    }
}

fn called_number<'a>(scope: &Scope<'a, '_>, name: &'a [u8], callee: Option<Callee>) -> u32
    ensures { result ≡ called_number (the_scope scope.now) name.now callee }
{
    match callee {
        None => 0,
        Some(callee) => number_by(scope.subroutine(callee.class, name)),
    }
}

/// The number of the subroutine in a call that the text does not name.
pub(crate) fn made_number<'a>(scope: &Scope<'a, '_>, class: &'a [u8], name: &'a [u8]) -> u32
    ensures { result ≡ made_number (the_scope scope.now) class.now name.now }
{
    match scope.class(class) {
        None => 0,
        Some(class) => number_by(scope.subroutine(class, name)),
    }
}

// A part after those of its operands.
fn push_part(parts: &mut Vec<Part>, part: Part) -> Result<(), AllocError>
    ensures { OnOk result (Puts part parts.old.items parts.new.items) }
{
    parts.push(part)?;
    Ok(())
}

// A part that has no operands.
fn push_value(parts: &mut Vec<Part>, part: Part) -> Result<(), AllocError>
    requires { takes part ≡ 0 }
    ensures { OnOk result (Adds (make_expression part []) parts.old.items parts.new.items) }
{
    push_part(parts, part)
}

// The object of a call, where there is one, and how many that makes.
fn push_object<'a>(
    parts: &mut Vec<Part>,
    scope: &Scope<'a, '_>,
    object: &'a Option<Name>,
) -> Result<usize, AllocError>
    ensures few { IfOk result (λ n. n ≤ 1) }
    ensures count { IfOk result (λ n. n ≡ length (object_meant (the_scope scope.now) object.now)) }
    ensures parts { OnOk result
        (AddsAll (object_meant (the_scope scope.now) object.now) parts.old.items parts.new.items) }
{
    let part = match object {
        None => Part::This,
        Some(name) => match scope.variable(name.text.as_bytes()) {
            None => return Ok(0),
            Some(variable) => slot_part(variable.slot),
        },
    };
    push_value(parts, part)?;
    Ok(1)
}

// A string is filled byte by byte.
fn push_bytes(parts: &mut Vec<Part>, append: u32, text: &[u8]) -> Result<(), AllocError>
    ensures { OnOk result
        (Turns (λ e. filled_characters append e text.now) parts.old.items parts.new.items) }
{
    for byte in text {
        push_value(parts, Part::Literal(*byte as u16))?;
        push_part(
            parts,
            Part::Call {
                arguments: 2,
                number: append,
            },
        )?;
    }
    Ok(())
}

fn length_word(text: &[u8]) -> u16
    ensures { result ≡ length_word text.now }
{
    (text.len() % 65536) as u16
}

fn push_string(parts: &mut Vec<Part>, scope: &Scope, text: &[u8]) -> Result<(), AllocError>
    ensures { OnOk result
        (Adds (string_meant (the_scope scope.now) text.now) parts.old.items parts.new.items) }
{
    let class = b"String".as_slice();
    let new = made_number(scope, class, b"new".as_slice());
    let append = made_number(scope, class, b"appendChar".as_slice());
    push_value(parts, Part::Literal(length_word(text)))?;
    push_part(
        parts,
        Part::Call {
            arguments: 1,
            number: new,
        },
    )?;
    push_bytes(parts, append, text)
}

fn push_constant(
    parts: &mut Vec<Part>,
    scope: &Scope,
    constant: &Constant,
) -> Result<(), AllocError>
    ensures { OnOk result
        (Adds (constant_meant (the_scope scope.now) constant.now) parts.old.items parts.new.items) }
{
    match constant {
        Constant::Integer(n) => push_value(parts, Part::Literal(*n)),
        Constant::Text(text) => push_string(parts, scope, text.get().text.as_bytes()),
        Constant::True => push_value(parts, Part::Literal(65535)),
        Constant::False | Constant::Null => push_value(parts, Part::Literal(0)),
        Constant::This(_) => push_value(parts, Part::This),
    }
}

fn sign_meant(sign: Sign) -> CoreSign
    ensures { the_sign result ≡ sign_meant sign }
{
    match sign {
        Sign::Minus => CoreSign::Minus,
        Sign::Not => CoreSign::Complement,
        Sign::ShiftLeft => CoreSign::ShiftLeft,
        Sign::ShiftRight => CoreSign::ShiftRight,
    }
}

fn operator_part(scope: &Scope, operator: Operator) -> Part
    ensures takes { takes result ≡ 2 }
    ensures made { (a b : AnExpression)
        → make_expression result (a ∷ b ∷ []) ≡ binary_meant (the_scope scope.now) operator a b }
{
    match operator {
        Operator::Plus => Part::Binary(CoreOperator::Plus),
        Operator::Minus => Part::Binary(CoreOperator::Subtract),
        Operator::Times => Part::Call {
            arguments: 2,
            number: made_number(scope, b"Math".as_slice(), b"multiply".as_slice()),
        },
        Operator::Divide => Part::Call {
            arguments: 2,
            number: made_number(scope, b"Math".as_slice(), b"divide".as_slice()),
        },
        Operator::And => Part::Binary(CoreOperator::And),
        Operator::Or => Part::Binary(CoreOperator::Or),
        Operator::Less => Part::Binary(CoreOperator::Less),
        Operator::Greater => Part::Binary(CoreOperator::Greater),
        Operator::Equal => Part::Binary(CoreOperator::Equal),
    }
}

// An operator after the two values that it stands between.
fn push_operator(parts: &mut Vec<Part>, scope: &Scope, operator: Operator) -> Result<(), AllocError>
    ensures { OnOk result
        (Joins (binary_meant (the_scope scope.now) operator) parts.old.items parts.new.items) }
{
    push_part(parts, operator_part(scope, operator))
}

#[cycle(meant)]
fn push_term<'a>(
    parts: &mut Vec<Part>,
    scope: &Scope<'a, '_>,
    term: &'a Term,
) -> Result<(), AllocError>
    ensures { OnOk result
        (Adds (term_meant (the_scope scope.now) term.now) parts.old.items parts.new.items) }
{
    match term {
        Term::Constant(constant) => push_constant(parts, scope, constant),
        Term::Variable(name) => push_value(parts, variable_part(scope, name)),
        Term::Element(name, index) => {
            push_value(parts, variable_part(scope, name.get()))?;
            push_expression(parts, scope, index)?;
            push_part(parts, Part::Load)
        }
        Term::Call(call) => push_call(parts, scope, call),
        Term::Group(inside) => push_expression(parts, scope, inside),
        Term::Unary(sign, term) => {
            push_term(parts, scope, term)?;
            push_part(parts, Part::Unary(sign_meant(*sign)))
        }
    }
}

// How many arguments a call passes. A call without faults passes what its subroutine takes, which is never more than 16 bits
// can count. Memory is wanted only where they cannot.
fn passed(arguments: usize) -> Result<u16, AllocError>
    ensures { MatchResult result (λ n. n ≡ arguments) (λ _. 2 ^ 16 ≤ arguments) }
{
    if arguments > 65_535 {
        return Err(AllocError);
    }
    Ok(arguments as u16)
}

#[cycle(meant)]
fn push_call<'a>(
    parts: &mut Vec<Part>,
    scope: &Scope<'a, '_>,
    call: &'a Call,
) -> Result<(), AllocError>
    ensures { OnOk result
        (Adds (call_meant (the_scope scope.now) call.now) parts.old.items parts.new.items) }
{
    let objects = push_object(parts, scope, &call.object)?;
    push_arguments(parts, scope, &call.arguments)?;
    let number = called_number(
        scope,
        call.name.text.as_bytes(),
        callee(scope, &call.object),
    );
    let arguments = passed(objects + call.arguments.len())?;
    push_part(parts, Part::Call { arguments, number })
}

#[cycle(meant)]
fn push_arguments<'a>(
    parts: &mut Vec<Part>,
    scope: &Scope<'a, '_>,
    arguments: &'a [Expression],
) -> Result<(), AllocError>
    ensures { OnOk result (AddsAll (map (exp_meant (the_scope scope.now)) arguments.now)
        parts.old.items parts.new.items) }
{
    for e in arguments {
        push_expression(parts, scope, e)?;
    }
    Ok(())
}

#[cycle(meant)]
fn push_expression<'a>(
    parts: &mut Vec<Part>,
    scope: &Scope<'a, '_>,
    e: &'a Expression,
) -> Result<(), AllocError>
    ensures { OnOk result
        (Adds (exp_meant (the_scope scope.now) e.now) parts.old.items parts.new.items) }
{
    push_term(parts, scope, &e.first)?;
    push_operations(parts, scope, &e.rest)
}

// Operators bind from left to right.
#[cycle(meant)]
fn push_operations<'a>(
    parts: &mut Vec<Part>,
    scope: &Scope<'a, '_>,
    operations: &'a [Operation],
) -> Result<(), AllocError>
    ensures { OnOk result (Turns (λ e. grouped_operations (the_scope scope.now) e operations.now)
        parts.old.items parts.new.items) }
{
    for operation in operations {
        push_operation(parts, scope, operation)?;
    }
    Ok(())
}

#[cycle(meant)]
fn push_operation<'a>(
    parts: &mut Vec<Part>,
    scope: &Scope<'a, '_>,
    operation: &'a Operation,
) -> Result<(), AllocError>
    ensures { OnOk result (Turns (λ e. operation_meant (the_scope scope.now) e operation.now)
        parts.old.items parts.new.items) }
{
    push_term(parts, scope, &operation.term)?;
    push_operator(parts, scope, operation.operator)
}

pub(crate) fn expression_meant<'a>(
    alloc: Global,
    scope: &Scope<'a, '_>,
    e: &'a Expression,
) -> Result<CoreExpression, AllocError>
    ensures { IfOk result (λ r. the_expression r ≡ exp_meant (the_scope scope.now) e.now) }
{
    // A part for each term and each operator. Terms of more parts make room for them.
    let mut parts = Vec::with_capacity(alloc, e.rest.len().saturating_mul(2).saturating_add(1))?;
    push_expression(&mut parts, scope, e)?;
    let kept = Parts::new(alloc, parts)?;
    Ok(CoreExpression { parts: kept })
}

pub(crate) fn call_meant<'a>(
    alloc: Global,
    scope: &Scope<'a, '_>,
    call: &'a Call,
) -> Result<CoreExpression, AllocError>
    ensures { IfOk result (λ r. the_expression r ≡ call_meant (the_scope scope.now) call.now) }
{
    let mut parts = Vec::with_capacity(alloc, call.arguments.len().saturating_add(2))?;
    push_call(&mut parts, scope, call)?;
    let kept = Parts::new(alloc, parts)?;
    Ok(CoreExpression { parts: kept })
}

// An expression of one part.
fn single(part: Part) -> CoreExpression
    requires { takes part ≡ 0 }
    ensures { the_expression result ≡ make_expression part [] }
{
    CoreExpression {
        parts: Parts::one(part),
    }
}

pub(crate) fn literal(n: u16) -> CoreExpression
    ensures { the_expression result ≡ LiteralOf n }
{
    single(Part::Literal(n))
}

pub(crate) fn variable_meant<'a>(scope: &Scope<'a, '_>, name: &'a Name) -> CoreExpression
    ensures { the_expression result ≡ variable_meant (the_scope scope.now) name.now }
{
    single(variable_part(scope, name))
}

/// A call with one argument.
pub(crate) fn call_one(
    alloc: Global,
    number: u32,
    argument: &CoreExpression,
) -> Result<CoreExpression, AllocError>
    ensures { IfOk result
        (λ r. the_expression r ≡ CallOf number (one (the_expression argument.now))) }
{
    let mut parts = Vec::from_slice(alloc, argument.parts.as_slice())?;
    push_part(
        &mut parts,
        Part::Call {
            arguments: 1,
            number,
        },
    )?;
    let kept = Parts::new(alloc, parts)?;
    Ok(CoreExpression { parts: kept })
}

/// The value of a `return`.
pub(crate) fn value_meant<'a>(
    alloc: Global,
    scope: &Scope<'a, '_>,
    value: &'a Option<Expression>,
) -> Result<CoreExpression, AllocError>
    ensures { IfOk result (λ r. the_expression r ≡ value_meant (the_scope scope.now) value.now) }
{
    match value {
        None => Ok(literal(0)),
        Some(e) => expression_meant(alloc, scope, e),
    }
}
