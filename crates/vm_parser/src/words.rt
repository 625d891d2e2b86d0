//! Readers of one token of a VM text.
#![tactic(auto, using(grammar::proofs::OneToken::one_token))]

ghost use Rattle.std.specs.Prelude.{◌≡◌, map};
ghost use Rattle.grammar.specs.Reading.{ParsesBy, PassesBy};
ghost use Rattle.grammar.specs.Rules.{Leaf, next, here};
ghost use Rattle.vm_parser.specs.Tokens.{view};
ghost use Rattle.vm_parser.specs.Grammar.{vm, Operation', Segment', Name', Number, same_word, keyword, is_line_end, line_end, name, number, operation, may_come, segment_rule, most_of, index, greatest};
ghost use Rattle.vm_parser.specs.Inner.Reading.{role_next};

use crate::token::{Kind, Role, Token};
use grammar::{Fault, ReadError};
use outer_world::Name;
use scan_text::Place;
use std::alloc::Global;
use vm_tree::{Operation, Segment};

pub fn grammar_fault(place: Place) -> ReadError
    ensures { result ≡ ReadError.Fault (Fault.Grammar place) }
{
    ReadError::Fault(Fault::Grammar(place))
}

fn same_word(a: Role, b: Role) -> bool
    ensures { result ≡ same_word a b }
{
    match (a, b) {
        (Role::Push, Role::Push) => true,
        (Role::Pop, Role::Pop) => true,
        (Role::Label, Role::Label) => true,
        (Role::Goto, Role::Goto) => true,
        (Role::IfGoto, Role::IfGoto) => true,
        (Role::Call, Role::Call) => true,
        (Role::Function, Role::Function) => true,
        (Role::Return, Role::Return) => true,
        _ => false,
    }
}

/// The word of a command.
pub fn keyword<'a>(
    tokens: &'a [Token<'a>],
    end: Place,
    role: Role,
) -> Result<&'a [Token<'a>], ReadError>
    ensures { PassesBy view (vm end) (keyword role) greatest tokens.now result }
{
    let Some((token, rest)) = tokens.split_first() else {
        return Err(grammar_fault(end));
    };
    if !same_word(role, token.role) {
        return Err(grammar_fault(token.place));
    }
    Ok(rest)
}

pub fn line_end<'a>(tokens: &'a [Token<'a>], end: Place) -> Result<&'a [Token<'a>], ReadError>
    ensures { PassesBy view (vm end) line_end greatest tokens.now result }
{
    let Some((token, rest)) = tokens.split_first() else {
        return Err(grammar_fault(end));
    };
    let Kind::LineEnd = token.kind else {
        return Err(grammar_fault(token.place));
    };
    Ok(rest)
}

/// A name.
pub fn name<'a>(
    alloc: Global,
    tokens: &'a [Token<'a>],
    end: Place,
) -> Result<(Name, &'a [Token<'a>]), ReadError>
    ensures { ParsesBy view (vm end) name (λ n. Leaf (Name' n))
        (λ _. greatest) greatest tokens.now result }
{
    let Some((token, rest)) = tokens.split_first() else {
        return Err(grammar_fault(end));
    };
    let Kind::Name = token.kind else {
        return Err(grammar_fault(token.place));
    };
    Ok((Name::new(alloc, token.text)?, rest))
}

pub fn number<'a>(tokens: &'a [Token<'a>], end: Place) -> Result<(u16, &'a [Token<'a>]), ReadError>
    ensures { ParsesBy view (vm end) number (λ n. Leaf (Number n))
        (λ _. greatest) greatest tokens.now result }
{
    let Some((token, rest)) = tokens.split_first() else {
        return Err(grammar_fault(end));
    };
    let Kind::Number(n) = token.kind else {
        return Err(grammar_fault(token.place));
    };
    Ok((n, rest))
}

pub fn operation<'a>(
    tokens: &'a [Token<'a>],
    end: Place,
) -> Result<(Operation, &'a [Token<'a>]), ReadError>
    ensures { ParsesBy view (vm end) operation (λ o. Leaf (Operation' o))
        (λ _. greatest) greatest tokens.now result }
{
    let Some((token, rest)) = tokens.split_first() else {
        return Err(grammar_fault(end));
    };
    let Role::Operation(operation) = token.role else {
        return Err(grammar_fault(token.place));
    };
    Ok((operation, rest))
}

fn may_come(constant: bool, segment: Segment) -> bool
    ensures { result ≡ may_come constant segment }
{
    match segment {
        Segment::Constant => constant,
        _ => true,
    }
}

/// A segment, `constant` only where it may come.
pub fn segment<'a>(
    tokens: &'a [Token<'a>],
    end: Place,
    constant: bool,
) -> Result<(Segment, &'a [Token<'a>]), ReadError>
    ensures { ParsesBy view (vm end) (segment_rule constant)
        (λ g. Leaf (Segment' g)) most_of greatest tokens.now result }
{
    let Some((token, rest)) = tokens.split_first() else {
        return Err(grammar_fault(end));
    };
    let Role::Segment(segment) = token.role else {
        return Err(grammar_fault(token.place));
    };
    if !may_come(constant, segment) {
        return Err(grammar_fault(token.place));
    }
    Ok((segment, rest))
}

/// The greatest index of a segment.
pub fn most_of(segment: Segment) -> u16
    ensures { result ≡ most_of segment }
{
    match segment {
        Segment::Pointer => 1,
        Segment::Temp => 7,
        _ => 32_767,
    }
}

/// An index of at most `most`.
pub fn index<'a>(
    tokens: &'a [Token<'a>],
    end: Place,
    most: u16,
) -> Result<(u16, &'a [Token<'a>]), ReadError>
    ensures { ParsesBy view (vm end) index (λ n. Leaf (Number n))
        (λ _. greatest) most tokens.now result }
{
    let Some((token, rest)) = tokens.split_first() else {
        return Err(grammar_fault(end));
    };
    let Kind::Number(n) = token.kind else {
        return Err(grammar_fault(token.place));
    };
    if n > most {
        return Err(ReadError::Fault(Fault::Range(token.place, n as u32)));
    }
    Ok((n, rest))
}

/// What the next token can be in a command.
pub fn role_next(tokens: &[Token]) -> Role
    ensures { result ≡ role_next (map view tokens.now) }
{
    match tokens.first() {
        None => Role::Plain,
        Some(token) => token.role,
    }
}

/// The place of the next token, or of the end of the text.
pub fn place_next(tokens: &[Token], end: Place) -> Place
    ensures { result ≡ here (vm end) (map view tokens.now) }
{
    match tokens.first() {
        None => end,
        Some(token) => token.place,
    }
}

/// A line end comes next.
pub fn ends(tokens: &[Token]) -> bool
    ensures { result ≡ next is_line_end (map view tokens.now) }
{
    match tokens.first() {
        None => false,
        Some(token) => matches!(token.kind, Kind::LineEnd),
    }
}
