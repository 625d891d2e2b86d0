//! The statements that trees mean.

ghost use Rattle.std.specs.Prelude.{◌≡◌, ◌+◌, ◌≤◌, ◌^◌, map, is_some, IfOk};
ghost use Rattle.jack_meaning.specs.Text.{text_of, If as IfOf, While as WhileOf};
ghost use Rattle.jack_tree.specs.Seen.{unbox};
ghost use Rattle.jack_core.specs.Texts.{the_statement, the_block};
ghost use Rattle.jack_core.specs.Reading.{the_expression};
ghost use Rattle.jack_names.specs.Sizes.{size, sizes, else_size};
ghost use Rattle.jack_names.specs.Made.{assignment, let_by};
ghost use Rattle.jack_names.specs.Inner.Meant.{exp_meant, let_meant, statement_meant, statements_meant, else_meant};
ghost use Rattle.jack_names.specs.Inner.Scoped.{the_scope};

use crate::meant::{call_meant, expression_meant, value_meant, variable_meant};
use crate::scope::{Declared, Scope, Slot};
use jack_core::{Expression as CoreExpression, Statement as CoreStatement, Variable};
use jack_tree::{Expression, Name, Statement};
use std::alloc::{AllocError, Global};

fn assigned(number: u32, slot: Slot, value: CoreExpression) -> CoreStatement
    ensures { the_statement result ≡ assignment slot number (the_expression value) }
{
    let variable = match slot {
        Slot::Argument(k) => Variable::Argument(k),
        Slot::Local(k) => Variable::Local(k),
        Slot::Static(k) => Variable::Static(k),
        Slot::Field(field) => {
            return CoreStatement::LetField {
                number,
                field,
                value,
            };
        }
    };
    CoreStatement::Let {
        number,
        variable,
        value,
    }
}

fn let_by(number: u32, variable: Option<Declared>, value: CoreExpression) -> CoreStatement
    ensures { the_statement result ≡ let_by variable number (the_expression value) }
{
    match variable {
        None => CoreStatement::Let {
            number,
            variable: Variable::Local(0),
            value,
        },
        Some(variable) => assigned(number, variable.slot, value),
    }
}

fn let_meant<'a>(
    alloc: Global,
    scope: &Scope<'a, '_>,
    number: u32,
    name: &'a Name,
    index: &'a Option<Box<Expression>>,
    value: &'a Expression,
) -> Result<CoreStatement, AllocError>
    ensures { IfOk result (λ r. the_statement r
        ≡ let_meant (the_scope scope.now) number name.now (unbox index.now) value.now) }
{
    match index {
        None => {
            let value = expression_meant(alloc, scope, value)?;
            Ok(let_by(number, scope.variable(name.text.as_bytes()), value))
        }
        Some(index) => {
            let index = expression_meant(alloc, scope, index)?;
            let value = expression_meant(alloc, scope, value)?;
            Ok(CoreStatement::Store {
                number,
                base: variable_meant(scope, name),
                index,
                value,
            })
        }
    }
}

// A statement whose number is given, and the number after it and all statements in it.
#[cycle(bodies)]
fn statement_meant<'a>(
    alloc: Global,
    scope: &Scope<'a, '_>,
    number: u32,
    s: &'a Statement,
) -> Result<(CoreStatement, u32), AllocError>
    requires { number + size s.now ≤ 2 ^ 31 }
    ensures text { IfOk result
        (λ r. the_statement r.0 ≡ statement_meant (the_scope scope.now) number s.now) }
    ensures next { IfOk result (λ r. r.1 ≡ number + size s.now) }
{
    match s {
        Statement::Let(_, name, index, value) => {
            let text = let_meant(alloc, scope, number, name, index, value)?;
            Ok((text, number + 1))
        }
        Statement::If(_, condition, holds, fails) => {
            if_meant(alloc, scope, number, condition.get(), holds, fails)
        }
        Statement::While(_, condition, body) => {
            while_meant(alloc, scope, number, condition, body)
        }
        Statement::Do(_, call) => {
            let call = call_meant(alloc, scope, call)?;
            Ok((CoreStatement::Do { number, call }, number + 1))
        }
        Statement::Return(_, value) => {
            let value = value_meant(alloc, scope, value)?;
            Ok((CoreStatement::Return { number, value }, number + 1))
        }
    }
}

// An `if`, and the number after all statements in it.
#[cycle(bodies)]
fn if_meant<'a>(
    alloc: Global,
    scope: &Scope<'a, '_>,
    number: u32,
    condition: &'a Expression,
    holds: &'a [Statement],
    fails: &'a Option<Vec<Statement>>,
) -> Result<(CoreStatement, u32), AllocError>
    requires { number + 1 + sizes holds.now + else_size fails.now ≤ 2 ^ 31 }
    ensures text { IfOk result (λ r. the_statement r.0
        ≡ IfOf number (is_some fails.now) (exp_meant (the_scope scope.now) condition.now)
        (text_of (statements_meant (the_scope scope.now) (number + 1) holds.now))
        (else_meant (the_scope scope.now) (number + 1 + sizes holds.now) fails.now)) }
    ensures next { IfOk result (λ r. r.1 ≡ number + 1 + sizes holds.now + else_size fails.now) }
{
    let condition = expression_meant(alloc, scope, condition)?;
    let (holds, middle) = statements_meant(alloc, scope, number + 1, holds)?;
    let has_else = fails.is_some();
    let (fails, next) = else_meant(alloc, scope, middle, fails)?;
    let text = CoreStatement::If {
        number,
        has_else,
        condition,
        holds,
        fails,
    };
    Ok((text, next))
}

// A `while`, and the number after all statements in it.
#[cycle(bodies)]
fn while_meant<'a>(
    alloc: Global,
    scope: &Scope<'a, '_>,
    number: u32,
    condition: &'a Expression,
    body: &'a [Statement],
) -> Result<(CoreStatement, u32), AllocError>
    requires { number + 1 + sizes body.now ≤ 2 ^ 31 }
    ensures text { IfOk result
        (λ r. the_statement r.0 ≡ WhileOf number (exp_meant (the_scope scope.now) condition.now)
        (text_of (statements_meant (the_scope scope.now) (number + 1) body.now))) }
    ensures next { IfOk result (λ r. r.1 ≡ number + 1 + sizes body.now) }
{
    let condition = expression_meant(alloc, scope, condition)?;
    let (body, next) = statements_meant(alloc, scope, number + 1, body)?;
    let text = CoreStatement::While {
        number,
        condition,
        body,
    };
    Ok((text, next))
}

#[cycle(bodies)]
fn else_meant<'a>(
    alloc: Global,
    scope: &Scope<'a, '_>,
    first: u32,
    fails: &'a Option<Vec<Statement>>,
) -> Result<(Vec<CoreStatement>, u32), AllocError>
    requires { first + else_size fails.now ≤ 2 ^ 31 }
    ensures text { IfOk result
        (λ r. the_block r.0.items ≡ else_meant (the_scope scope.now) first fails.now) }
    ensures next { IfOk result (λ r. r.1 ≡ first + else_size fails.now) }
{
    match fails {
        None => Ok((Vec::new(alloc), first)),
        Some(fails) => statements_meant(alloc, scope, first, fails),
    }
}

/// Statements from the one whose number is given, and the number after all of them.
#[cycle(bodies)]
pub(crate) fn statements_meant<'a>(
    alloc: Global,
    scope: &Scope<'a, '_>,
    first: u32,
    ss: &'a [Statement],
) -> Result<(Vec<CoreStatement>, u32), AllocError>
    requires { first + sizes ss.now ≤ 2 ^ 31 }
    ensures text { IfOk result
        (λ r. map the_statement r.0.items ≡ statements_meant (the_scope scope.now) first ss.now) }
    ensures next { IfOk result (λ r. r.1 ≡ first + sizes ss.now) }
{
    let mut texts = Vec::with_capacity(alloc, ss.len())?;
    let mut number = first;
    for s in ss {
        let (text, next) = statement_meant(alloc, scope, number, s)?;
        texts.push(text)?;
        number = next;
    }
    Ok((texts, number))
}
