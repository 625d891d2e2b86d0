//! Readers of one token of a declaration.
#![tactic(auto, using(grammar::proofs::OneToken::one_token))]

ghost use Rattle.jack_tree.specs.Tokens.{view};
ghost use Rattle.std.specs.Prelude.{map, ◌≡◌, ◌<◌, ◌≤◌, ◌-◌, ◌+◌, ◌^◌, length, Some, None, Result, Ok, List, IfOk, ℕ};
ghost use Rattle.grammar.specs.Reading.{ParsesBy};
ghost use Rattle.grammar.specs.Rules.{Leaf, next, here};
ghost use Rattle.jack_parser.specs.Grammar.{jack, free, fixed_word, type_said, is_type, is_result, is_scope, is_form, type_rule, result_rule, form_rule};
ghost use Rattle.jack_parser.specs.ClassTrees.{type_leaf_said, result_said, form_said};

use crate::counts::Counts;
use crate::names::name_of;
use crate::words::grammar_fault;
use grammar::ReadError;
use jack_tree::{Form, Keyword, Kind, Token, Type};
use scan_text::Place;
use std::alloc::Global;

pub fn type_name<'a>(
    alloc: Global,
    tokens: &'a [Token<'a>],
    end: Place,
    counts: Counts,
) -> Result<(Type, &'a [Token<'a>]), ReadError>
    ensures reads { ParsesBy view (jack end) type_rule (λ x. Leaf (type_leaf_said x))
        (λ _. counts) counts tokens.now result }
    ensures shorter { IfOk result (λ r. length r.1.now < length tokens.now) }
{
    let Some((token, rest)) = tokens.split_first() else {
        return Err(grammar_fault(end));
    };
    match token.kind {
        Kind::Keyword(Keyword::Int) => Ok((Type::Int, rest)),
        Kind::Keyword(Keyword::Char) => Ok((Type::Char, rest)),
        Kind::Keyword(Keyword::Boolean) => Ok((Type::Boolean, rest)),
        Kind::Identifier => { Ok((Type::Class(name_of(alloc, token)?), rest)) }
        _ => Err(grammar_fault(token.place)),
    }
}

pub fn result_type<'a>(
    alloc: Global,
    tokens: &'a [Token<'a>],
    end: Place,
    counts: Counts,
) -> Result<(Option<Type>, &'a [Token<'a>]), ReadError>
    ensures reads { ParsesBy view (jack end) result_rule (λ x. Leaf (result_said x))
        (λ _. counts) counts tokens.now result }
    ensures shorter { IfOk result (λ r. length r.1.now < length tokens.now) }
{
    let Some((token, rest)) = tokens.split_first() else {
        return Err(grammar_fault(end));
    };
    match token.kind {
        Kind::Keyword(Keyword::Void) => Ok((None, rest)),
        Kind::Keyword(Keyword::Int) => Ok((Some(Type::Int), rest)),
        Kind::Keyword(Keyword::Char) => Ok((Some(Type::Char), rest)),
        Kind::Keyword(Keyword::Boolean) => Ok((Some(Type::Boolean), rest)),
        Kind::Identifier => { Ok((Some(Type::Class(name_of(alloc, token)?)), rest)) }
        _ => Err(grammar_fault(token.place)),
    }
}

pub fn form<'a>(
    tokens: &'a [Token<'a>],
    end: Place,
    counts: Counts,
) -> Result<(Form, &'a [Token<'a>]), ReadError>
    ensures reads { ParsesBy view (jack end) form_rule (λ x. Leaf (form_said x))
        (λ _. counts) counts tokens.now result }
    ensures shorter { IfOk result (λ r. length r.1.now < length tokens.now) }
{
    let Some((token, rest)) = tokens.split_first() else {
        return Err(grammar_fault(end));
    };
    match token.kind {
        Kind::Keyword(Keyword::Constructor) => Ok((Form::Constructor, rest)),
        Kind::Keyword(Keyword::Function) => Ok((Form::Function, rest)),
        Kind::Keyword(Keyword::Method) => Ok((Form::Method, rest)),
        _ => Err(grammar_fault(token.place)),
    }
}

/// A type comes next.
pub fn type_begins(tokens: &[Token]) -> bool
    ensures { result ≡ next is_type (map view tokens.now) }
{
    let Some(token) = tokens.first() else {
        return false;
    };
    match token.kind {
        Kind::Keyword(Keyword::Int | Keyword::Char | Keyword::Boolean) | Kind::Identifier => true,
        _ => false,
    }
}

/// `static` or `field` comes next.
pub fn scope_begins(tokens: &[Token]) -> bool
    ensures { result ≡ next is_scope (map view tokens.now) }
{
    let Some(token) = tokens.first() else {
        return false;
    };
    match token.kind {
        Kind::Keyword(Keyword::Static | Keyword::Field) => true,
        _ => false,
    }
}

/// A subroutine can begin here.
pub fn form_begins(tokens: &[Token]) -> bool
    ensures { result ≡ next is_form (map view tokens.now) }
{
    let Some(token) = tokens.first() else {
        return false;
    };
    match token.kind {
        Kind::Keyword(Keyword::Constructor | Keyword::Function | Keyword::Method) => true,
        _ => false,
    }
}
