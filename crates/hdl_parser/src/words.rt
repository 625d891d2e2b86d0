//! Readers of one token.
#![tactic(auto, using(grammar::proofs::OneToken::one_token))]

ghost use Rattle.std.specs.Prelude.{map, ◌≡◌, ◌<◌, ◌≤◌, ◌-◌, ◌+◌, ◌^◌, length, Some, None, Result, Ok, IfOk, [], ℕ, nat_lt};
ghost use Rattle.grammar.specs.Reading.{ParsesBy, PassesBy};
ghost use Rattle.grammar.specs.Rules.{Leaf, next, here};
ghost use Rattle.hdl_parser.specs.Tokens.{view};
ghost use Rattle.hdl_parser.specs.Grammar.{hdl, Said, is_symbol, symbol_of, is_keyword, keyword_of, is_dots, dots, is_name, free, named_word, name, is_number, fixed_word, check_width, width, check_index, index, check_last, last_index, is_constant, constant, too_large};
ghost use Rattle.hdl_parser.specs.Trees.{name_said, number_said, constant_said};

use crate::token::{Keyword, Kind, Token};
use grammar::{Fault, ReadError};
use hdl_tree::Name;
use scan_text::Place;
use std::alloc::Global;

const WIDEST: u32 = 16;

const LAST_BIT: u32 = 15;

pub fn grammar_fault(place: Place) -> ReadError
    ensures { result ≡ ReadError.Fault (Fault.Grammar place) }
{
    ReadError::Fault(Fault::Grammar(place))
}

// The number at this place is past its limit.
fn too_large(place: Place, number: u32) -> ReadError
    ensures { result ≡ ReadError.Fault (too_large place number) }
{
    ReadError::Fault(Fault::Range(place, number.min(1_000_000_000)))
}

pub fn symbol<'a>(
    tokens: &'a [Token<'a>],
    end: Place,
    sign: u8,
) -> Result<&'a [Token<'a>], ReadError>
    ensures reads { PassesBy view (hdl end) (symbol_of sign) 0 tokens.now result }
    ensures shorter { IfOk result (λ r. length r.now < length tokens.now) }
{
    let Some((token, rest)) = tokens.split_first() else {
        return Err(grammar_fault(end));
    };
    match token.kind {
        Kind::Symbol(other) if other == sign => Ok(rest),
        _ => Err(grammar_fault(token.place)),
    }
}

pub fn keyword<'a>(
    tokens: &'a [Token<'a>],
    end: Place,
    keyword: Keyword,
) -> Result<&'a [Token<'a>], ReadError>
    ensures reads { PassesBy view (hdl end) (keyword_of keyword) 0 tokens.now result }
    ensures shorter { IfOk result (λ r. length r.now < length tokens.now) }
{
    let Some((token, rest)) = tokens.split_first() else {
        return Err(grammar_fault(end));
    };
    match token.kind {
        Kind::Keyword(other) if other == keyword => Ok(rest),
        _ => Err(grammar_fault(token.place)),
    }
}

/// `..` after the index `first`.
pub fn dots<'a>(
    tokens: &'a [Token<'a>],
    end: Place,
    first: u8,
) -> Result<&'a [Token<'a>], ReadError>
    ensures reads { PassesBy view (hdl end) dots first tokens.now result }
    ensures shorter { IfOk result (λ r. length r.now < length tokens.now) }
{
    let Some((token, rest)) = tokens.split_first() else {
        return Err(grammar_fault(end));
    };
    let Kind::Dots = token.kind else {
        return Err(grammar_fault(token.place));
    };
    Ok(rest)
}

pub fn name<'a>(
    alloc: Global,
    tokens: &'a [Token<'a>],
    end: Place,
) -> Result<(Name, &'a [Token<'a>]), ReadError>
    ensures reads { ParsesBy view (hdl end) name (λ x. Leaf (name_said x))
        (λ _. 0) 0 tokens.now result }
    ensures shorter { IfOk result (λ r. length r.1.now < length tokens.now) }
{
    let Some((token, rest)) = tokens.split_first() else {
        return Err(grammar_fault(end));
    };
    let Kind::Name = token.kind else {
        return Err(grammar_fault(token.place));
    };
    Ok((Name::from_bytes(alloc, token.text)?, rest))
}

/// A width, at most 16.
pub fn width<'a>(tokens: &'a [Token<'a>], end: Place) -> Result<(u8, &'a [Token<'a>]), ReadError>
    ensures reads { ParsesBy view (hdl end) width (λ n. Leaf (number_said n))
        (λ _. 0) 0 tokens.now result }
    ensures shorter { IfOk result (λ r. length r.1.now < length tokens.now) }
{
    let Some((token, rest)) = tokens.split_first() else {
        return Err(grammar_fault(end));
    };
    let Kind::Number(n) = token.kind else {
        return Err(grammar_fault(token.place));
    };
    if n > WIDEST {
        return Err(too_large(token.place, n));
    }
    Ok((n as u8, rest))
}

/// An index, at most 15.
pub fn index<'a>(tokens: &'a [Token<'a>], end: Place) -> Result<(u8, &'a [Token<'a>]), ReadError>
    ensures reads { ParsesBy view (hdl end) index (λ n. Leaf (number_said n))
        (λ n. n) 0 tokens.now result }
    ensures shorter { IfOk result (λ r. length r.1.now < length tokens.now) }
{
    let Some((token, rest)) = tokens.split_first() else {
        return Err(grammar_fault(end));
    };
    let Kind::Number(n) = token.kind else {
        return Err(grammar_fault(token.place));
    };
    if n > LAST_BIT {
        return Err(too_large(token.place, n));
    }
    Ok((n as u8, rest))
}

/// An index after `..`, at most 15 and at least `first`.
pub fn last_index<'a>(
    tokens: &'a [Token<'a>],
    end: Place,
    first: u8,
) -> Result<(u8, &'a [Token<'a>]), ReadError>
    ensures reads { ParsesBy view (hdl end) last_index (λ n. Leaf (number_said n))
        (λ _. first) first tokens.now result }
    ensures shorter { IfOk result (λ r. length r.1.now < length tokens.now) }
{
    let Some((token, rest)) = tokens.split_first() else {
        return Err(grammar_fault(end));
    };
    let Kind::Number(n) = token.kind else {
        return Err(grammar_fault(token.place));
    };
    if n > LAST_BIT {
        return Err(too_large(token.place, n));
    }
    if n < first as u32 {
        return Err(grammar_fault(token.place));
    }
    Ok((n as u8, rest))
}

/// `true` or `false`.
pub fn constant<'a>(
    tokens: &'a [Token<'a>],
    end: Place,
) -> Result<(bool, &'a [Token<'a>]), ReadError>
    ensures reads { ParsesBy view (hdl end) constant (λ b. Leaf (constant_said b))
        (λ _. 0) 0 tokens.now result }
    ensures shorter { IfOk result (λ r. length r.1.now < length tokens.now) }
{
    let Some((token, rest)) = tokens.split_first() else {
        return Err(grammar_fault(end));
    };
    match token.kind {
        Kind::Keyword(Keyword::True) => Ok((true, rest)),
        Kind::Keyword(Keyword::False) => Ok((false, rest)),
        _ => Err(grammar_fault(token.place)),
    }
}

/// A certain symbol comes next.
pub fn stands(tokens: &[Token], sign: u8) -> bool
    ensures { result ≡ next (is_symbol sign) (map view tokens.now) }
{
    tokens.first().is_some_and(|token| matches!(token.kind, Kind::Symbol(other) if other == sign))
}

/// A certain keyword comes next.
pub fn keyword_stands(tokens: &[Token], keyword: Keyword) -> bool
    ensures { result ≡ next (is_keyword keyword) (map view tokens.now) }
{
    tokens.first().is_some_and(
        |token| matches!(token.kind, Kind::Keyword(other) if other == keyword),
    )
}

/// `..` comes next.
pub fn dots_stand(tokens: &[Token]) -> bool
    ensures { result ≡ next is_dots (map view tokens.now) }
{
    match tokens.first() {
        None => false,
        Some(token) => matches!(token.kind, Kind::Dots),
    }
}

/// A name comes next.
pub fn name_stands(tokens: &[Token]) -> bool
    ensures { result ≡ next is_name (map view tokens.now) }
{
    match tokens.first() {
        None => false,
        Some(token) => matches!(token.kind, Kind::Name),
    }
}

/// A number comes next.
pub fn number_stands(tokens: &[Token]) -> bool
    ensures { result ≡ next is_number (map view tokens.now) }
{
    match tokens.first() {
        None => false,
        Some(token) => matches!(token.kind, Kind::Number(_)),
    }
}

/// `true` or `false` comes next.
pub fn constant_stands(tokens: &[Token]) -> bool
    ensures { result ≡ next is_constant (map view tokens.now) }
{
    let Some(token) = tokens.first() else {
        return false;
    };
    match token.kind {
        Kind::Keyword(Keyword::True | Keyword::False) => true,
        _ => false,
    }
}

/// The place of the next token, or of the end of the text.
pub fn here(tokens: &[Token], end: Place) -> Place
    ensures { result ≡ here (hdl end) (map view tokens.now) }
{
    match tokens.first() {
        None => end,
        Some(token) => token.place,
    }
}
