//! Readers of one token.
#![tactic(auto, using(grammar::proofs::OneToken::one_token))]

ghost use Rattle.jack_tree.specs.Tokens.{view};
ghost use Rattle.jack_tree.specs.declared.token.Kind.TheVariants as kind;
ghost use Rattle.std.specs.Prelude.{map, ◌≡◌, ◌<◌, ◌≤◌, ◌-◌, ◌+◌, ◌^◌, take, drop, length, Some, None, Result, Ok, List, IfOk, ℕ, IfSome, is_some, [], ◌||◌};
ghost use Rattle.std.specs.Str.{IsAscii};
ghost use Rattle.grammar.specs.Reading.{ParsesBy, PassesBy};
ghost use Rattle.grammar.specs.Rules.{Leaf, next, here};
ghost use Rattle.jack_parser.specs.Grammar.{jack, is_symbol, is_keyword, is_identifier, is_constant, free, check_constant, named_word, placed_word, fixed_word, constant_said, identifier, constant, operator, unary, key, symbol_at, Placed, operates, negates, term_opens, statement_opens, count, counted_name, Said, symbol_of, keyword_of, is_operator, is_unary, without_quotes};
ghost use Rattle.jack_parser.specs.Inner.Starts.{start_of};
ghost use Rattle.jack_parser.specs.Trees.{name_said, operator_said, operator_byte, sign_said, sign_byte, constant_leaf_said, IsString};

use crate::counts::{Counted, Counts, count};
use crate::names::{name_of, text_of};
use grammar::{Fault, ReadError};
use jack_tree::{BoxedName, Constant, Keyword, Kind, Name, Operator, Sign, Token};
use scan_text::Place;
use std::alloc::Global;

pub fn grammar_fault(place: Place) -> ReadError
    ensures { result ≡ ReadError.Fault (Fault.Grammar place) }
{
    ReadError::Fault(Fault::Grammar(place))
}

pub fn symbol<'a>(
    tokens: &'a [Token<'a>],
    end: Place,
    counts: Counts,
    sign: u8,
) -> Result<&'a [Token<'a>], ReadError>
    ensures reads { PassesBy view (jack end) (symbol_of sign) counts tokens.now result }
    ensures shorter { IfOk result (λ r. length r.now < length tokens.now) }
{
    let Some((token, rest)) = tokens.split_first() else {
        return Err(grammar_fault(end));
    };
    let Kind::Symbol(other) = token.kind else {
        return Err(grammar_fault(token.place));
    };
    if other != sign {
        return Err(grammar_fault(token.place));
    }
    Ok(rest)
}

/// A symbol, whose place is kept.
pub fn symbol_at<'a>(
    tokens: &'a [Token<'a>],
    end: Place,
    counts: Counts,
    sign: u8,
) -> Result<(Place, &'a [Token<'a>]), ReadError>
    ensures reads { ParsesBy view (jack end) (symbol_at sign)
        (λ at. Leaf (Placed (kind.Symbol sign) [] at)) (λ _. counts) counts tokens.now result }
    ensures shorter { IfOk result (λ r. length r.1.now < length tokens.now) }
{
    let Some((token, rest)) = tokens.split_first() else {
        return Err(grammar_fault(end));
    };
    let Kind::Symbol(other) = token.kind else {
        return Err(grammar_fault(token.place));
    };
    if other != sign {
        return Err(grammar_fault(token.place));
    }
    Ok((token.place, rest))
}

pub fn keyword<'a>(
    tokens: &'a [Token<'a>],
    end: Place,
    counts: Counts,
    keyword: Keyword,
) -> Result<&'a [Token<'a>], ReadError>
    ensures reads { PassesBy view (jack end) (keyword_of keyword) counts tokens.now result }
    ensures shorter { IfOk result (λ r. length r.now < length tokens.now) }
{
    let Some((token, rest)) = tokens.split_first() else {
        return Err(grammar_fault(end));
    };
    let Kind::Keyword(other) = token.kind else {
        return Err(grammar_fault(token.place));
    };
    if other == keyword {
        Ok(rest)
    } else {
        Err(grammar_fault(token.place))
    }
}

/// A keyword, whose place is kept.
pub fn key<'a>(
    tokens: &'a [Token<'a>],
    end: Place,
    counts: Counts,
    keyword: Keyword,
) -> Result<(Place, &'a [Token<'a>]), ReadError>
    ensures reads { ParsesBy view
        (jack end) (key keyword) (λ at. Leaf (Said.Placed (Kind.Keyword keyword) [] at))
        (λ _. counts) counts tokens.now result }
    ensures shorter { IfOk result (λ r. length r.1.now < length tokens.now) }
{
    let Some((token, rest)) = tokens.split_first() else {
        return Err(grammar_fault(end));
    };
    let Kind::Keyword(other) = token.kind else {
        return Err(grammar_fault(token.place));
    };
    if other == keyword {
        Ok((token.place, rest))
    } else {
        Err(grammar_fault(token.place))
    }
}

pub fn identifier<'a>(
    alloc: Global,
    tokens: &'a [Token<'a>],
    end: Place,
    counts: Counts,
) -> Result<(Name, &'a [Token<'a>]), ReadError>
    ensures reads { ParsesBy view (jack end) identifier (λ x. Leaf (name_said x))
        (λ _. counts) counts tokens.now result }
    ensures shorter { IfOk result (λ r. length r.1.now < length tokens.now) }
{
    let Some((token, rest)) = tokens.split_first() else {
        return Err(grammar_fault(end));
    };
    let Kind::Identifier = token.kind else {
        return Err(grammar_fault(token.place));
    };
    Ok((name_of(alloc, token)?, rest))
}

/// A name that is one more of what is counted.
pub fn counted_name<'a>(
    alloc: Global,
    tokens: &'a [Token<'a>],
    end: Place,
    counts: Counts,
    counted: Counted,
) -> Result<((Name, Counts), &'a [Token<'a>]), ReadError>
    ensures reads { ParsesBy view (jack end) (counted_name counted) (λ x. Leaf (name_said x.0))
        (λ x. x.1) counts tokens.now result }
    ensures shorter { IfOk result (λ r. length r.1.now < length tokens.now) }
{
    let Some((token, rest)) = tokens.split_first() else {
        return Err(grammar_fault(end));
    };
    let Kind::Identifier = token.kind else {
        return Err(grammar_fault(token.place));
    };
    let counts = count(counted, counts, token.place)?;
    Ok(((name_of(alloc, token)?, counts), rest))
}

fn operator_of(byte: u8) -> Option<Operator>
    ensures some { IfSome result (λ o. operator_byte o ≡ byte) }
    ensures is { is_some result ≡ is_operator byte }
{
    match byte {
        b'+' => Some(Operator::Plus),
        b'-' => Some(Operator::Minus),
        b'*' => Some(Operator::Times),
        b'/' => Some(Operator::Divide),
        b'&' => Some(Operator::And),
        b'|' => Some(Operator::Or),
        b'<' => Some(Operator::Less),
        b'>' => Some(Operator::Greater),
        b'=' => Some(Operator::Equal),
        _ => None,
    }
}

fn sign_of(byte: u8) -> Option<Sign>
    ensures some { IfSome result (λ s. sign_byte s ≡ byte) }
    ensures is { is_some result ≡ is_unary byte }
{
    match byte {
        b'-' => Some(Sign::Minus),
        b'~' => Some(Sign::Not),
        b'^' => Some(Sign::ShiftLeft),
        b'#' => Some(Sign::ShiftRight),
        _ => None,
    }
}

/// An operator and its place.
pub fn operator<'a>(
    tokens: &'a [Token<'a>],
    end: Place,
    counts: Counts,
) -> Result<((Operator, Place), &'a [Token<'a>]), ReadError>
    ensures reads { ParsesBy view (jack end) operator (λ x. Leaf (operator_said x.0 x.1))
        (λ _. counts) counts tokens.now result }
    ensures shorter { IfOk result (λ r. length r.1.now < length tokens.now) }
{
    let Some((token, rest)) = tokens.split_first() else {
        return Err(grammar_fault(end));
    };
    let Kind::Symbol(byte) = token.kind else {
        return Err(grammar_fault(token.place));
    };
    let Some(operator) = operator_of(byte) else {
        return Err(grammar_fault(token.place));
    };
    Ok(((operator, token.place), rest))
}

pub fn unary<'a>(
    tokens: &'a [Token<'a>],
    end: Place,
    counts: Counts,
) -> Result<(Sign, &'a [Token<'a>]), ReadError>
    ensures reads { ParsesBy view (jack end) unary (λ x. Leaf (sign_said x))
        (λ _. counts) counts tokens.now result }
    ensures shorter { IfOk result (λ r. length r.1.now < length tokens.now) }
{
    let Some((token, rest)) = tokens.split_first() else {
        return Err(grammar_fault(end));
    };
    let Kind::Symbol(byte) = token.kind else {
        return Err(grammar_fault(token.place));
    };
    let Some(sign) = sign_of(byte) else {
        return Err(grammar_fault(token.place));
    };
    Ok((sign, rest))
}

fn unquoted(text: &[u8]) -> &[u8]
    ensures { result.now ≡ without_quotes text.now }
{
    let inside = text.len().saturating_sub(2);
    let from = text.len().min(1);
    &text[from..from + inside]
}

// A string, at most 16,384 bytes.
fn string(alloc: Global, text: &[u8], place: Place) -> Result<Constant, ReadError>
    requires { IsAscii text.now }
    ensures { IsString text.now place result }
{
    let inside = unquoted(text);
    if inside.len() > 16_384 {
        return Err(ReadError::Fault(Fault::Range(place, inside.len().min(1_000_000_000) as u32)));
    }
    let text = text_of(alloc, inside)?;
    Ok(Constant::Text(BoxedName::new(alloc, Name { text, place })?))
}

pub fn constant<'a>(
    alloc: Global,
    tokens: &'a [Token<'a>],
    end: Place,
    counts: Counts,
) -> Result<(Constant, &'a [Token<'a>]), ReadError>
    ensures reads { ParsesBy view (jack end) constant (λ x. Leaf (constant_leaf_said x))
        (λ _. counts) counts tokens.now result }
    ensures shorter { IfOk result (λ r. length r.1.now < length tokens.now) }
{
    let Some((token, rest)) = tokens.split_first() else {
        return Err(grammar_fault(end));
    };
    match token.kind {
        Kind::Integer(n) => Ok((Constant::Integer(n), rest)),
        Kind::Text => Ok((string(alloc, token.text, token.place)?, rest)),
        Kind::Keyword(Keyword::True) => Ok((Constant::True, rest)),
        Kind::Keyword(Keyword::False) => Ok((Constant::False, rest)),
        Kind::Keyword(Keyword::Null) => Ok((Constant::Null, rest)),
        Kind::Keyword(Keyword::This) => Ok((Constant::This(token.place), rest)),
        _ => Err(grammar_fault(token.place)),
    }
}

/// An operator comes next.
pub fn operates(tokens: &[Token]) -> bool
    ensures { result ≡ next operates (map view tokens.now) }
{
    let Some(token) = tokens.first() else {
        return false;
    };
    let Kind::Symbol(byte) = token.kind else {
        return false;
    };
    operator_of(byte).is_some()
}

/// A certain symbol comes next.
pub fn stands(tokens: &[Token], sign: u8) -> bool
    ensures { result ≡ next (is_symbol sign) (map view tokens.now) }
{
    let Some(token) = tokens.first() else {
        return false;
    };
    let Kind::Symbol(other) = token.kind else {
        return false;
    };
    other == sign
}

/// A certain keyword comes next.
pub fn keyword_stands(tokens: &[Token], keyword: Keyword) -> bool
    ensures { result ≡ next (is_keyword keyword) (map view tokens.now) }
{
    let Some(token) = tokens.first() else {
        return false;
    };
    let Kind::Keyword(other) = token.kind else {
        return false;
    };
    other == keyword
}

/// What makes a name a call comes next.
pub fn call_begins(tokens: &[Token]) -> bool
    ensures { result ≡ next (λ t. is_symbol 40 t || is_symbol 46 t) (map view tokens.now) }
{
    let Some(token) = tokens.first() else {
        return false;
    };
    let Kind::Symbol(byte) = token.kind else {
        return false;
    };
    byte == b'(' || byte == b'.'
}

/// The kinds of terms, by their first token.
#[derive(Clone, Copy)]
pub enum Start {
    Constant,
    Name,
    Group,
    Negation,
    Other,
}

pub fn start_at(tokens: &[Token]) -> Start
    ensures { result ≡ start_of (map view tokens.now) }
{
    let Some(token) = tokens.first() else {
        return Start::Other;
    };
    match token.kind {
        Kind::Keyword(Keyword::True | Keyword::False | Keyword::Null | Keyword::This) =>
            Start::Constant,
        Kind::Integer(_) | Kind::Text => Start::Constant,
        Kind::Identifier => Start::Name,
        Kind::Symbol(b'(') => Start::Group,
        Kind::Symbol(b'-' | b'~' | b'^' | b'#') => Start::Negation,
        _ => Start::Other,
    }
}

/// A term can begin here.
pub fn term_begins(tokens: &[Token]) -> bool
    ensures { result ≡ next term_opens (map view tokens.now) }
{
    let Some(token) = tokens.first() else {
        return false;
    };
    match token.kind {
        Kind::Keyword(Keyword::True | Keyword::False | Keyword::Null | Keyword::This) => true,
        Kind::Integer(_) | Kind::Text | Kind::Identifier => true,
        Kind::Symbol(b'(' | b'-' | b'~' | b'^' | b'#') => true,
        _ => false,
    }
}

/// A statement can begin here.
pub fn statement_begins(tokens: &[Token]) -> bool
    ensures { result ≡ next statement_opens (map view tokens.now) }
{
    let Some(token) = tokens.first() else {
        return false;
    };
    let Kind::Keyword(keyword) = token.kind else {
        return false;
    };
    if keyword == Keyword::Let {
        return true;
    }
    if keyword == Keyword::If {
        return true;
    }
    if keyword == Keyword::While {
        return true;
    }
    if keyword == Keyword::Do {
        return true;
    }
    keyword == Keyword::Return
}

/// The place of the next token.
pub fn here(tokens: &[Token], end: Place) -> Place
    ensures { result ≡ here (jack end) (map view tokens.now) }
{
    match tokens.first() {
        None => end,
        Some(token) => token.place,
    }
}
