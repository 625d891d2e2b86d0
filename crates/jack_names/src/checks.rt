//! The first fault in the uses of names.

ghost use Rattle.std.specs.Prelude.{◌≡◌, Some, [], ◌∷◌, length};
ghost use Rattle.jack_tree.specs.Seen.{unbox};
ghost use Rattle.jack_names.specs.Faults.{Checks, diagnostic_if};
ghost use Rattle.jack_names.specs.Inner.Uses.{Variable, This, Calls, Makes, Text, Use, constant_uses, operator_uses, term_uses, operation_uses, operations_uses, exp_uses, arguments_uses, call_uses, optional_uses, statement_uses, statements_uses, form_uses, subroutine_uses};
ghost use Rattle.jack_names.specs.Inner.Scopes.{made_diagnostic, front_fault, call_fault, string_fault, first_fault, use_fault};
ghost use Rattle.jack_names.specs.Inner.Scopes.{callee as callee_of};
ghost use Rattle.jack_names.specs.Inner.Scoped.{the_scope};

use crate::fault::{NameError, NameKind, tell};
use crate::kinds::{
    append_kind, called_kind, callee, front_by, is_lesser, made_kind, new_kind, this_kind,
    variable_kind,
};
use crate::scope::{Callee, Scope, Way};
use jack_tree::{
    Call, Constant, Expression, Form, Name, Operation, Operator, Statement, Subroutine, Term,
};
use scan_text::Place;
use std::alloc::Global;

fn tell_if(
    alloc: Global,
    scope: &Scope,
    name: &[u8],
    place: Place,
    kind: Option<NameKind>,
) -> Result<(), NameError>
    ensures { Checks (diagnostic_if (the_scope scope.now).source name.now place kind) result }
{
    match kind {
        None => Ok(()),
        Some(kind) => tell(alloc, scope.file, name, place, kind),
    }
}

fn tell_made(
    alloc: Global,
    scope: &Scope,
    class: &[u8],
    name: &[u8],
    place: Place,
    kind: Option<NameKind>,
) -> Result<(), NameError>
    ensures { Checks
        (made_diagnostic (the_scope scope.now).source class.now name.now place kind) result }
{
    match kind {
        None => Ok(()),
        Some(NameKind::UnknownClass) => tell(
            alloc,
            scope.file,
            class,
            place,
            NameKind::UnknownClass,
        ),
        Some(kind) => tell(alloc, scope.file, name, place, kind),
    }
}

fn check_variable<'a>(alloc: Global, scope: &Scope<'a, '_>, name: &'a Name) -> Result<(), NameError>
    ensures { Checks (use_fault (the_scope scope.now) (Variable name.now)) result }
{
    let text = name.text.as_bytes();
    let kind = variable_kind(scope.form, scope.variable(text));
    tell_if(alloc, scope, text, name.place, kind)
}

fn check_this(alloc: Global, scope: &Scope, place: Place) -> Result<(), NameError>
    ensures { Checks (use_fault (the_scope scope.now) (This place)) result }
{
    tell_if(
        alloc,
        scope,
        b"this".as_slice(),
        place,
        this_kind(scope.form),
    )
}

pub(crate) fn check_made<'a>(
    alloc: Global,
    scope: &Scope<'a, '_>,
    class: &'a [u8],
    name: &'a [u8],
    n: usize,
    place: Place,
) -> Result<(), NameError>
    ensures { Checks (use_fault (the_scope scope.now) (Makes class.now name.now n place)) result }
{
    let kind = made_kind(scope, Way::ByClass, name, n, scope.class(class));
    tell_made(alloc, scope, class, name, place, kind)
}

fn check_string(alloc: Global, scope: &Scope, text: &Name) -> Result<(), NameError>
    ensures { Checks (use_fault (the_scope scope.now) (Text text.now)) result }
{
    let first = new_kind(scope);
    let second = append_kind(scope, text.text.as_bytes());
    let class = b"String".as_slice();
    if is_lesser(first, second) {
        tell_made(
            alloc,
            scope,
            class,
            b"appendChar".as_slice(),
            text.place,
            second,
        )
    } else {
        tell_made(alloc, scope, class, b"new".as_slice(), text.place, first)
    }
}

fn check_front<'a>(
    alloc: Global,
    scope: &Scope<'a, '_>,
    object: &'a Option<Name>,
    callee: Option<Callee>,
) -> Result<(), NameError>
    requires { callee ≡ callee_of (the_scope scope.now) object.now }
    ensures { Checks (front_fault (the_scope scope.now) object.now) result }
{
    match object {
        None => Ok(()),
        Some(name) => {
            let text = name.text.as_bytes();
            let kind = front_by(scope.form, scope.variable(text), callee);
            tell_if(alloc, scope, text, name.place, kind)
        }
    }
}

fn check_call<'a>(
    alloc: Global,
    scope: &Scope<'a, '_>,
    object: &'a Option<Name>,
    name: &'a Name,
    n: usize,
) -> Result<(), NameError>
    ensures { Checks (use_fault (the_scope scope.now) (Calls object.now name.now n)) result }
{
    let callee = callee(scope, object);
    check_front(alloc, scope, object, callee)?;
    let text = name.text.as_bytes();
    let kind = called_kind(scope, text, n, callee);
    tell_if(alloc, scope, text, name.place, kind)
}

fn check_constant(alloc: Global, scope: &Scope, constant: &Constant) -> Result<(), NameError>
    ensures { Checks (first_fault (the_scope scope.now) (constant_uses constant.now)) result }
{
    match constant {
        Constant::Text(text) => check_string(alloc, scope, text.get()),
        Constant::This(place) => check_this(alloc, scope, *place),
        _ => Ok(()),
    }
}

fn check_operator(
    alloc: Global,
    scope: &Scope,
    operator: Operator,
    place: Place,
) -> Result<(), NameError>
    ensures { Checks (first_fault (the_scope scope.now) (operator_uses operator place)) result }
{
    let name = match operator {
        Operator::Times => b"multiply".as_slice(),
        Operator::Divide => b"divide".as_slice(),
        _ => return Ok(()),
    };
    check_made(alloc, scope, b"Math".as_slice(), name, 2, place)
}

#[cycle(expressions)]
fn check_term<'a>(alloc: Global, scope: &Scope<'a, '_>, term: &'a Term) -> Result<(), NameError>
    ensures { Checks (first_fault (the_scope scope.now) (term_uses term.now)) result }
{
    match term {
        Term::Constant(constant) => check_constant(alloc, scope, constant),
        Term::Variable(name) => check_variable(alloc, scope, name),
        Term::Element(name, index) => {
            check_variable(alloc, scope, name.get())?;
            check_expression(alloc, scope, index)
        }
        Term::Call(call) => check_whole_call(alloc, scope, call),
        Term::Group(inside) => check_expression(alloc, scope, inside),
        Term::Unary(_, term) => check_term(alloc, scope, term),
    }
}

#[cycle(expressions)]
fn check_whole_call<'a>(
    alloc: Global,
    scope: &Scope<'a, '_>,
    call: &'a Call,
) -> Result<(), NameError>
    ensures { Checks (first_fault (the_scope scope.now) (call_uses call.now)) result }
{
    check_call(alloc, scope, &call.object, &call.name, call.arguments.len())?;
    check_arguments(alloc, scope, &call.arguments)
}

#[cycle(expressions)]
fn check_arguments<'a>(
    alloc: Global,
    scope: &Scope<'a, '_>,
    arguments: &'a [Expression],
) -> Result<(), NameError>
    ensures { Checks (first_fault (the_scope scope.now) (arguments_uses arguments.now)) result }
{
    for e in arguments {
        check_expression(alloc, scope, e)?;
    }
    Ok(())
}

#[cycle(expressions)]
fn check_expression<'a>(
    alloc: Global,
    scope: &Scope<'a, '_>,
    e: &'a Expression,
) -> Result<(), NameError>
    ensures { Checks (first_fault (the_scope scope.now) (exp_uses e.now)) result }
{
    check_term(alloc, scope, &e.first)?;
    check_operations(alloc, scope, &e.rest)
}

#[cycle(expressions)]
fn check_operations<'a>(
    alloc: Global,
    scope: &Scope<'a, '_>,
    operations: &'a [Operation],
) -> Result<(), NameError>
    ensures { Checks (first_fault (the_scope scope.now) (operations_uses operations.now)) result }
{
    for operation in operations {
        check_operation(alloc, scope, operation)?;
    }
    Ok(())
}

#[cycle(expressions)]
fn check_operation<'a>(
    alloc: Global,
    scope: &Scope<'a, '_>,
    operation: &'a Operation,
) -> Result<(), NameError>
    ensures { Checks (first_fault (the_scope scope.now) (operation_uses operation.now)) result }
{
    check_operator(alloc, scope, operation.operator, operation.place)?;
    check_term(alloc, scope, &operation.term)
}

fn check_optional<'a>(
    alloc: Global,
    scope: &Scope<'a, '_>,
    e: &'a Option<Expression>,
) -> Result<(), NameError>
    ensures { Checks (first_fault (the_scope scope.now) (optional_uses e.now)) result }
{
    match e {
        None => Ok(()),
        Some(e) => check_expression(alloc, scope, e),
    }
}

// The index of an element, where one is written.
fn check_index<'a>(
    alloc: Global,
    scope: &Scope<'a, '_>,
    index: &'a Option<Box<Expression>>,
) -> Result<(), NameError>
    ensures { Checks (first_fault (the_scope scope.now) (optional_uses (unbox index.now))) result }
{
    match index {
        None => Ok(()),
        Some(index) => check_expression(alloc, scope, index),
    }
}

#[cycle(statements)]
fn check_statement<'a>(
    alloc: Global,
    scope: &Scope<'a, '_>,
    s: &'a Statement,
) -> Result<(), NameError>
    ensures { Checks (first_fault (the_scope scope.now) (statement_uses s.now)) result }
{
    match s {
        Statement::Let(_, name, index, value) => {
            check_variable(alloc, scope, name)?;
            check_index(alloc, scope, index)?;
            check_expression(alloc, scope, value)
        }
        Statement::If(_, condition, holds, fails) => {
            check_expression(alloc, scope, condition.get())?;
            check_statements(alloc, scope, holds)?;
            match fails {
                None => Ok(()),
                Some(fails) => check_statements(alloc, scope, fails),
            }
        }
        Statement::While(_, condition, body) => {
            check_expression(alloc, scope, condition)?;
            check_statements(alloc, scope, body)
        }
        Statement::Do(_, call) => check_whole_call(alloc, scope, call),
        Statement::Return(_, value) => check_optional(alloc, scope, value),
    }
}

#[cycle(statements)]
fn check_statements<'a>(
    alloc: Global,
    scope: &Scope<'a, '_>,
    ss: &'a [Statement],
) -> Result<(), NameError>
    ensures { Checks (first_fault (the_scope scope.now) (statements_uses ss.now)) result }
{
    for s in ss {
        check_statement(alloc, scope, s)?;
    }
    Ok(())
}

fn check_form(alloc: Global, scope: &Scope, form: Form, place: Place) -> Result<(), NameError>
    ensures { Checks (first_fault (the_scope scope.now) (form_uses form place)) result }
{
    match form {
        Form::Constructor => {
            let class = b"Memory".as_slice();
            check_made(alloc, scope, class, b"alloc".as_slice(), 1, place)
        }
        _ => Ok(()),
    }
}

/// The first fault in the uses of a subroutine.
pub(crate) fn check_subroutine<'a>(
    alloc: Global,
    scope: &Scope<'a, '_>,
    s: &'a Subroutine,
) -> Result<(), NameError>
    ensures { Checks (first_fault (the_scope scope.now) (subroutine_uses s.now)) result }
{
    check_form(alloc, scope, s.form, s.name.place)?;
    check_statements(alloc, scope, &s.statements)
}
