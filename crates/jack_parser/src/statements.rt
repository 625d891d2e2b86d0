//! Statements.

ghost use Rattle.std.specs.Prelude.{◌≡◌, ◌<◌, ◌≤◌, ◌-◌, ◌+◌, ◌^◌, length, Some, None, Result, Ok, List, ℕ, IfOk, map};
ghost use Rattle.grammar.specs.Reading.{ParsesBy, PassesBy, Halt};
ghost use Rattle.grammar.specs.Rules.{name, option, repeat};
ghost use Rattle.jack_tree.specs.Tokens.{view};
ghost use Rattle.jack_parser.specs.Grammar.{jack, expression, statement, subscript, block, any_statement, else_rule};
ghost use Rattle.jack_parser.specs.Inner.Starts.{Lets, Ifs, Whiles, Does, Returns};
ghost use Rattle.jack_parser.specs.StatementTrees.{index_tree, value_tree, any_tree, statement_tree, statements_tree, block_tree, else_tree};

use crate::counts::{Counts, deeper};
use crate::expressions::{call_of, expression, grouped, nested};
use crate::words::{
    here, identifier, key, keyword, keyword_stands, stands, statement_begins, symbol, term_begins,
};
use grammar::{Fault, ReadError};
use jack_tree::{BoxedExpression, Expression, Keyword, Statement, Token};
use scan_text::Place;
use std::alloc::Global;

// The index of an element, where one is written.

#[tactic(auto, using(crate::proofs::Exits::statement_exits))]
fn index<'a>(
    alloc: Global,
    tokens: &'a [Token<'a>],
    end: Place,
    counts: Counts,
) -> Result<(Option<Box<Expression>>, &'a [Token<'a>]), ReadError>
    ensures reads { ParsesBy view (jack end) (option subscript) index_tree
        (λ _. counts) counts tokens.now result }
    ensures no_longer { IfOk result (λ r. length r.1.now ≤ length tokens.now) }
{
    if !stands(tokens, b'[') {
        return Ok((None, tokens));
    }
    let rest = symbol(tokens, end, counts, b'[')?;
    let (index, rest) = nested(alloc, rest, end, counts)?;
    let rest = symbol(rest, end, counts, b']')?;
    Ok((Some(Box::new(alloc, index)?), rest))
}

#[tactic(auto, using(crate::proofs::Exits::statement_exits))]
fn let_statement<'a>(
    alloc: Global,
    tokens: &'a [Token<'a>],
    end: Place,
    counts: Counts,
) -> Result<(Statement, &'a [Token<'a>]), ReadError>
    requires begun { Lets (map view tokens.now) }
    ensures reads { ParsesBy view (jack end) any_statement any_tree
        (λ _. counts) counts tokens.now result }
    ensures shorter { IfOk result (λ r. length r.1.now < length tokens.now) }
{
    let (place, rest) = key(tokens, end, counts, Keyword::Let)?;
    let (name, rest) = identifier(alloc, rest, end, counts)?;
    let (index, rest) = index(alloc, rest, end, counts)?;
    let rest = symbol(rest, end, counts, b'=')?;
    let (value, rest) = expression(alloc, rest, end, counts)?;
    let rest = symbol(rest, end, counts, b';')?;
    Ok((Statement::Let(place, name, index, value), rest))
}

#[tactic(auto, using(crate::proofs::Exits::statement_exits))]
fn do_statement<'a>(
    alloc: Global,
    tokens: &'a [Token<'a>],
    end: Place,
    counts: Counts,
) -> Result<(Statement, &'a [Token<'a>]), ReadError>
    requires begun { Does (map view tokens.now) }
    ensures reads { ParsesBy view (jack end) any_statement any_tree
        (λ _. counts) counts tokens.now result }
    ensures shorter { IfOk result (λ r. length r.1.now < length tokens.now) }
{
    let (place, rest) = key(tokens, end, counts, Keyword::Do)?;
    let (name, rest) = identifier(alloc, rest, end, counts)?;
    let (call, rest) = call_of(alloc, name, rest, end, counts)?;
    let rest = symbol(rest, end, counts, b';')?;
    Ok((Statement::Do(place, call), rest))
}

// The value that is returned, where one is written.

#[tactic(auto, using(crate::proofs::Exits::statement_exits))]
fn value<'a>(
    alloc: Global,
    tokens: &'a [Token<'a>],
    end: Place,
    counts: Counts,
) -> Result<(Option<Expression>, &'a [Token<'a>]), ReadError>
    ensures reads { ParsesBy view (jack end) (option (name expression)) value_tree
        (λ _. counts) counts tokens.now result }
    ensures no_longer { IfOk result (λ r. length r.1.now ≤ length tokens.now) }
{
    if !term_begins(tokens) {
        return Ok((None, tokens));
    }
    let (value, rest) = expression(alloc, tokens, end, counts)?;
    Ok((Some(value), rest))
}

#[tactic(auto, using(crate::proofs::Exits::statement_exits))]
fn return_statement<'a>(
    alloc: Global,
    tokens: &'a [Token<'a>],
    end: Place,
    counts: Counts,
) -> Result<(Statement, &'a [Token<'a>]), ReadError>
    requires begun { Returns (map view tokens.now) }
    ensures reads { ParsesBy view (jack end) any_statement any_tree
        (λ _. counts) counts tokens.now result }
    ensures shorter { IfOk result (λ r. length r.1.now < length tokens.now) }
{
    let (place, rest) = key(tokens, end, counts, Keyword::Return)?;
    let (value, rest) = value(alloc, rest, end, counts)?;
    let rest = symbol(rest, end, counts, b';')?;
    Ok((Statement::Return(place, value), rest))
}

#[cycle(statements)]
#[tactic(auto, using(crate::proofs::Exits::statement_exits))]
fn while_statement<'a>(
    alloc: Global,
    tokens: &'a [Token<'a>],
    end: Place,
    counts: Counts,
) -> Result<(Statement, &'a [Token<'a>]), ReadError>
    requires begun { Whiles (map view tokens.now) }
    ensures reads { ParsesBy view (jack end) any_statement any_tree
        (λ _. counts) counts tokens.now result }
    ensures shorter { IfOk result (λ r. length r.1.now < length tokens.now) }
{
    let (place, rest) = key(tokens, end, counts, Keyword::While)?;
    let (condition, rest) = grouped(alloc, rest, end, counts)?;
    let (body, rest) = block(alloc, rest, end, counts)?;
    Ok((Statement::While(place, condition, body), rest))
}

#[cycle(statements)]
#[tactic(auto, using(crate::proofs::Exits::statement_exits))]
fn if_statement<'a>(
    alloc: Global,
    tokens: &'a [Token<'a>],
    end: Place,
    counts: Counts,
) -> Result<(Statement, &'a [Token<'a>]), ReadError>
    requires begun { Ifs (map view tokens.now) }
    ensures reads { ParsesBy view (jack end) any_statement any_tree
        (λ _. counts) counts tokens.now result }
    ensures shorter { IfOk result (λ r. length r.1.now < length tokens.now) }
{
    let (place, rest) = key(tokens, end, counts, Keyword::If)?;
    let (condition, rest) = grouped(alloc, rest, end, counts)?;
    let (body, rest) = block(alloc, rest, end, counts)?;
    let (other, rest) = else_block(alloc, rest, end, counts)?;
    let asked = BoxedExpression::new(alloc, condition)?;
    Ok((Statement::If(place, asked, body, other), rest))
}

// The other way of an `if`, where one is written.
#[cycle(statements)]
#[tactic(auto, using(crate::proofs::Exits::statement_exits))]
fn else_block<'a>(
    alloc: Global,
    tokens: &'a [Token<'a>],
    end: Place,
    counts: Counts,
) -> Result<(Option<Vec<Statement>>, &'a [Token<'a>]), ReadError>
    ensures reads { ParsesBy view (jack end) (option else_rule) else_tree
        (λ _. counts) counts tokens.now result }
    ensures no_longer { IfOk result (λ r. length r.1.now ≤ length tokens.now) }
{
    if !keyword_stands(tokens, Keyword::Else) {
        return Ok((None, tokens));
    }
    let rest = keyword(tokens, end, counts, Keyword::Else)?;
    let (body, rest) = block(alloc, rest, end, counts)?;
    Ok((Some(body), rest))
}

// Statements in braces.
#[cycle(statements)]
#[tactic(auto, using(crate::proofs::Exits::statement_exits))]
fn block<'a>(
    alloc: Global,
    tokens: &'a [Token<'a>],
    end: Place,
    counts: Counts,
) -> Result<(Vec<Statement>, &'a [Token<'a>]), ReadError>
    ensures reads { ParsesBy view (jack end) block (λ v. block_tree v.items)
        (λ _. counts) counts tokens.now result }
    ensures shorter { IfOk result (λ r. length r.1.now < length tokens.now) }
{
    let rest = symbol(tokens, end, counts, b'{')?;
    let (statements, rest) = statements(alloc, rest, end, counts)?;
    let rest = symbol(rest, end, counts, b'}')?;
    Ok((statements, rest))
}

#[cycle(statements)]
#[tactic(auto, using(crate::proofs::Exits::statement_exits))]
pub fn statements<'a>(
    alloc: Global,
    tokens: &'a [Token<'a>],
    end: Place,
    counts: Counts,
) -> Result<(Vec<Statement>, &'a [Token<'a>]), ReadError>
    ensures reads { ParsesBy view (jack end) (repeat (name statement))
        (λ v. statements_tree v.items) (λ _. counts) counts tokens.now result }
    ensures no_longer { IfOk result (λ r. length r.1.now ≤ length tokens.now) }
{
    let mut statements = Vec::new(alloc);
    if !statement_begins(tokens) {
        return Ok((statements, tokens));
    }
    let (first, after_first) = statement(alloc, tokens, end, counts)?;
    statements.push(first)?;
    let mut rest = after_first;
    'statements: while statement_begins(rest) {
        let (statement, after) = statement(alloc, rest, end, counts)?;
        statements.push(statement)?;
        rest = after;
    }
    statements.shrink_to_fit();
    Ok((statements, rest))
}

// A statement, one level deeper.
#[cycle(statements)]
#[tactic(auto, using(crate::proofs::Exits::statement_exits))]
fn statement<'a>(
    alloc: Global,
    tokens: &'a [Token<'a>],
    end: Place,
    counts: Counts,
) -> Result<(Statement, &'a [Token<'a>]), ReadError>
    ensures reads { ParsesBy view (jack end) (name statement) statement_tree
        (λ _. counts) counts tokens.now result }
    ensures shorter { IfOk result (λ r. length r.1.now < length tokens.now) }
{
    if !statement_begins(tokens) {
        return Err(ReadError::Fault(Fault::Grammar(here(tokens, end))));
    }
    let inner = deeper(counts, here(tokens, end))?;
    let (statement, rest) = any_statement(alloc, tokens, end, inner)?;
    Ok((statement, rest))
}

#[cycle(statements)]
#[tactic(auto, using(crate::proofs::Exits::statement_exits))]
fn any_statement<'a>(
    alloc: Global,
    tokens: &'a [Token<'a>],
    end: Place,
    counts: Counts,
) -> Result<(Statement, &'a [Token<'a>]), ReadError>
    ensures reads { ParsesBy view (jack end) any_statement any_tree
        (λ _. counts) counts tokens.now result }
    ensures shorter { IfOk result (λ r. length r.1.now < length tokens.now) }
{
    if keyword_stands(tokens, Keyword::Let) {
        return let_statement(alloc, tokens, end, counts);
    }
    if keyword_stands(tokens, Keyword::If) {
        return if_statement(alloc, tokens, end, counts);
    }
    if keyword_stands(tokens, Keyword::While) {
        return while_statement(alloc, tokens, end, counts);
    }
    if keyword_stands(tokens, Keyword::Do) {
        return do_statement(alloc, tokens, end, counts);
    }
    if keyword_stands(tokens, Keyword::Return) {
        return return_statement(alloc, tokens, end, counts);
    }
    Err(ReadError::Fault(Fault::Grammar(here(tokens, end))))
}
