//! Expressions, from left to right.

ghost use Rattle.std.specs.Prelude.{◌≡◌, ◌<◌, ◌≤◌, ◌-◌, ◌+◌, ◌^◌, length, Some, None, Result, Ok, List, ℕ, IfOk, map};
ghost use Rattle.grammar.specs.Reading.{ParsesBy, PassesBy, Halt};
ghost use Rattle.grammar.specs.Rules.{name, Node};
ghost use Rattle.jack_tree.specs.Tokens.{view};
ghost use Rattle.jack_parser.specs.Grammar.{jack, expression, term, nested_rule, arguments, argument, group, call, invocation_rule};
ghost use Rattle.jack_parser.specs.Inner.Starts.{start_of};
ghost use Rattle.jack_parser.specs.Trees.{term_tree, exp_tree, args_tree, argument_tree, called_tree, invoked_tree, group_tree, call_said, name_said};

use crate::counts::{Counted, Counts, count, deeper};
use crate::words::{
    Start, call_begins, constant, here, identifier, operates, operator, stands, start_at, symbol,
    term_begins, unary,
};
use grammar::{Fault, ReadError};
use jack_tree::{BoxedName, Call, Expression, Name, Operation, Term, Token};
use scan_text::Place;
use std::alloc::Global;

#[cycle(reading)]
#[tactic(auto, using(crate::proofs::Exits::jack_exits))]
pub fn expression<'a>(
    alloc: Global,
    tokens: &'a [Token<'a>],
    end: Place,
    counts: Counts,
) -> Result<(Expression, &'a [Token<'a>]), ReadError>
    ensures reads { ParsesBy view (jack end) (name expression) exp_tree
        (λ _. counts) counts tokens.now result }
    ensures shorter { IfOk result (λ r. length r.1.now < length tokens.now) }
{
    let (first, after_first) = term(alloc, tokens, end, counts)?;
    let mut operations = Vec::new(alloc);
    let mut rest = after_first;
    'operators: while operates(rest) {
        let ((operator, place), after_operator) = operator(rest, end, counts)?;
        let (right, after) = term(alloc, after_operator, end, counts)?;
        operations.push(Operation {
            operator,
            place,
            term: right,
        })?;
        rest = after;
    }
    operations.shrink_to_fit();
    let expression = Expression {
        first,
        rest: operations,
    };
    Ok((expression, rest))
}

#[cycle(reading)]
#[tactic(auto, using(crate::proofs::Exits::jack_exits))]
fn term<'a>(
    alloc: Global,
    tokens: &'a [Token<'a>],
    end: Place,
    counts: Counts,
) -> Result<(Term, &'a [Token<'a>]), ReadError>
    ensures reads { ParsesBy view (jack end) (name term) term_tree
        (λ _. counts) counts tokens.now result }
    ensures shorter { IfOk result (λ r. length r.1.now < length tokens.now) }
{
    match start_at(tokens) {
        Start::Constant => {
            let (constant, rest) = constant(alloc, tokens, end, counts)?;
            Ok((Term::Constant(constant), rest))
        }
        Start::Name => variable(alloc, tokens, end, counts),
        Start::Group => {
            let (inside, rest) = grouped(alloc, tokens, end, counts)?;
            Ok((Term::Group(Box::new(alloc, inside)?), rest))
        }
        Start::Negation => negation(alloc, tokens, end, counts),
        Start::Other => Err(ReadError::Fault(Fault::Grammar(here(tokens, end)))),
    }
}

#[cycle(reading)]
#[tactic(auto, using(crate::proofs::Exits::jack_exits))]
fn variable<'a>(
    alloc: Global,
    tokens: &'a [Token<'a>],
    end: Place,
    counts: Counts,
) -> Result<(Term, &'a [Token<'a>]), ReadError>
    requires begun { start_of (map view tokens.now) ≡ Start.Name }
    ensures reads { ParsesBy view (jack end) (name term) term_tree
        (λ _. counts) counts tokens.now result }
    ensures shorter { IfOk result (λ r. length r.1.now < length tokens.now) }
{
    let (name, rest) = identifier(alloc, tokens, end, counts)?;
    if stands(rest, b'[') {
        let rest = symbol(rest, end, counts, b'[')?;
        let (index, rest) = nested(alloc, rest, end, counts)?;
        let rest = symbol(rest, end, counts, b']')?;
        let array = BoxedName::new(alloc, name)?;
        return Ok((Term::Element(array, Box::new(alloc, index)?), rest));
    }
    if call_begins(rest) {
        let (call, after) = call_of(alloc, name, rest, end, counts)?;
        return Ok((Term::Call(Box::new(alloc, call)?), after));
    }
    Ok((Term::Variable(name), rest))
}

// What makes the name a call.
#[cycle(reading)]
#[tactic(auto, using(crate::proofs::Exits::jack_exits))]
pub fn call_of<'a>(
    alloc: Global,
    first: Name,
    tokens: &'a [Token<'a>],
    end: Place,
    counts: Counts,
) -> Result<(Call, &'a [Token<'a>]), ReadError>
    ensures reads { ParsesBy view (jack end) invocation_rule invoked_tree
        (λ _. counts) counts tokens.now result }
    ensures shorter { IfOk result (λ r. length r.1.now < length tokens.now) }
    ensures front { IfOk result (λ r. call_said r.0 ≡ name_said first) }
{
    if stands(tokens, b'(') {
        let (arguments, rest) = called(alloc, tokens, end, counts)?;
        let call = Call {
            object: None,
            name: first,
            arguments,
        };
        return Ok((call, rest));
    }
    if !stands(tokens, b'.') {
        return Err(ReadError::Fault(Fault::Grammar(here(tokens, end))));
    }
    let rest = symbol(tokens, end, counts, b'.')?;
    let (name, rest) = identifier(alloc, rest, end, counts)?;
    let (arguments, rest) = called(alloc, rest, end, counts)?;
    let call = Call {
        object: Some(first),
        name,
        arguments,
    };
    Ok((call, rest))
}

// The arguments of a call in their parentheses.
#[cycle(reading)]
#[tactic(auto, using(crate::proofs::Exits::jack_exits))]
fn called<'a>(
    alloc: Global,
    tokens: &'a [Token<'a>],
    end: Place,
    counts: Counts,
) -> Result<(Vec<Expression>, &'a [Token<'a>]), ReadError>
    ensures reads { ParsesBy view (jack end) call (λ v. called_tree v.items)
        (λ _. counts) counts tokens.now result }
    ensures shorter { IfOk result (λ r. length r.1.now < length tokens.now) }
{
    let rest = symbol(tokens, end, counts, b'(')?;
    let (arguments, rest) = arguments(alloc, rest, end, counts)?;
    let rest = symbol(rest, end, counts, b')')?;
    Ok((arguments, rest))
}

// Arguments, one level deeper.
#[cycle(reading)]
#[tactic(auto, using(crate::proofs::Exits::jack_exits))]
fn arguments<'a>(
    alloc: Global,
    tokens: &'a [Token<'a>],
    end: Place,
    counts: Counts,
) -> Result<(Vec<Expression>, &'a [Token<'a>]), ReadError>
    ensures reads { ParsesBy view (jack end) arguments (λ v. args_tree v.items)
        (λ _. counts) counts tokens.now result }
    ensures no_longer { IfOk result (λ r. length r.1.now ≤ length tokens.now) }
{
    let mut arguments = Vec::new(alloc);
    if !term_begins(tokens) {
        return Ok((arguments, tokens));
    }
    let inner = deeper(counts, here(tokens, end))?;
    let ((first, after_one), after_first) = argument(alloc, tokens, end, inner)?;
    arguments.push(first)?;
    let mut so_far = after_one;
    let mut rest = after_first;
    'more: while stands(rest, b',') {
        let after_comma = symbol(rest, end, so_far, b',')?;
        let ((one, with_it), after) = argument(alloc, after_comma, end, so_far)?;
        arguments.push(one)?;
        so_far = with_it;
        rest = after;
    }
    arguments.shrink_to_fit();
    Ok((arguments, rest))
}

// An argument, and the counts with it.
#[cycle(reading)]
#[tactic(auto, using(crate::proofs::Exits::jack_exits))]
fn argument<'a>(
    alloc: Global,
    tokens: &'a [Token<'a>],
    end: Place,
    counts: Counts,
) -> Result<((Expression, Counts), &'a [Token<'a>]), ReadError>
    ensures reads { ParsesBy view (jack end) argument (λ x. argument_tree x.0)
        (λ x. x.1) counts tokens.now result }
    ensures shorter { IfOk result (λ r. length r.1.now < length tokens.now) }
{
    if !term_begins(tokens) {
        return Err(ReadError::Fault(Fault::Grammar(here(tokens, end))));
    }
    let with_it = count(Counted::Argument, counts, here(tokens, end))?;
    let (exp, rest) = expression(alloc, tokens, end, with_it)?;
    Ok(((exp, with_it), rest))
}

// An expression in parentheses.
#[cycle(reading)]
#[tactic(auto, using(crate::proofs::Exits::jack_exits))]
pub fn grouped<'a>(
    alloc: Global,
    tokens: &'a [Token<'a>],
    end: Place,
    counts: Counts,
) -> Result<(Expression, &'a [Token<'a>]), ReadError>
    ensures reads { ParsesBy view (jack end) group group_tree
        (λ _. counts) counts tokens.now result }
    ensures shorter { IfOk result (λ r. length r.1.now < length tokens.now) }
{
    let rest = symbol(tokens, end, counts, b'(')?;
    let (inside, rest) = nested(alloc, rest, end, counts)?;
    let rest = symbol(rest, end, counts, b')')?;
    Ok((inside, rest))
}

#[cycle(reading)]
#[tactic(auto, using(crate::proofs::Exits::jack_exits))]
fn negation<'a>(
    alloc: Global,
    tokens: &'a [Token<'a>],
    end: Place,
    counts: Counts,
) -> Result<(Term, &'a [Token<'a>]), ReadError>
    requires begun { start_of (map view tokens.now) ≡ Start.Negation }
    ensures reads { ParsesBy view (jack end) (name term) term_tree
        (λ _. counts) counts tokens.now result }
    ensures shorter { IfOk result (λ r. length r.1.now < length tokens.now) }
{
    let (sign, rest) = unary(tokens, end, counts)?;
    if !term_begins(rest) {
        return Err(ReadError::Fault(Fault::Grammar(here(rest, end))));
    }
    let inner = deeper(counts, here(rest, end))?;
    let (term, rest) = term(alloc, rest, end, inner)?;
    Ok((Term::Unary(sign, Box::new(alloc, term)?), rest))
}

// An expression one level deeper.
#[cycle(reading)]
#[tactic(auto, using(crate::proofs::Exits::jack_exits))]
pub fn nested<'a>(
    alloc: Global,
    tokens: &'a [Token<'a>],
    end: Place,
    counts: Counts,
) -> Result<(Expression, &'a [Token<'a>]), ReadError>
    ensures reads { ParsesBy view (jack end) (nested_rule (name expression))
        (λ e. Node (exp_tree e)) (λ _. counts) counts tokens.now result }
    ensures shorter { IfOk result (λ r. length r.1.now < length tokens.now) }
{
    if !term_begins(tokens) {
        return Err(ReadError::Fault(Fault::Grammar(here(tokens, end))));
    }
    let inner = deeper(counts, here(tokens, end))?;
    let (exp, rest) = expression(alloc, tokens, end, inner)?;
    Ok((exp, rest))
}
