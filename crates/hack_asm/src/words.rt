//! Readers of one token of assembly.
#![tactic(auto, using(grammar::proofs::OneToken::one_token))]

ghost use Rattle.std.specs.Prelude.{◌≡◌, map, option_map};
ghost use Rattle.grammar.specs.Reading.{ParsesBy, PassesBy};
ghost use Rattle.grammar.specs.Rules.{Leaf, next, word};
ghost use Rattle.hack_asm.specs.Tokens.{view};
ghost use Rattle.hack_asm.specs.Grammar.{assembly, Letter', Jump, Number, Name, is_sign, sign, is_line_end, line_end, symbol, is_number, number, is_jump, some_letter, free, word_meaning, is_register, adds, meets};
ghost use Rattle.hack_asm.specs.Inner.Before.{suits, letter_next, several_next, operator_next, shift_next, assigns_next};

use crate::lines::Symbol;
use crate::token::{Kind, Letter, Operator, Role, Token};
use grammar::{Fault, ReadError};
use scan_text::Place;

/// What stands before a letter that is to come: a letter and `+` or `-`, a letter and `&` or `|`, `-`, or `!`.
#[derive(Clone, Copy)]
pub enum Before {
    Sum(Letter),
    Join(Letter),
    Negation,
    Inversion,
}

fn grammar_fault(place: Place) -> ReadError
    ensures { result ≡ ReadError.Fault (Fault.Grammar place) }
{
    ReadError::Fault(Fault::Grammar(place))
}

pub fn sign<'a>(tokens: &'a [Token<'a>], end: Place, byte: u8) -> Result<&'a [Token<'a>], ReadError>
    ensures { PassesBy view (assembly end) (sign byte) tt tokens.now result }
{
    let Some((token, rest)) = tokens.split_first() else {
        return Err(grammar_fault(end));
    };
    let Kind::Sign(other) = token.kind else {
        return Err(grammar_fault(token.place));
    };
    if other != byte {
        return Err(grammar_fault(token.place));
    }
    Ok(rest)
}

pub fn line_end<'a>(tokens: &'a [Token<'a>], end: Place) -> Result<&'a [Token<'a>], ReadError>
    ensures { PassesBy view (assembly end) line_end tt tokens.now result }
{
    let Some((token, rest)) = tokens.split_first() else {
        return Err(grammar_fault(end));
    };
    let Kind::LineEnd = token.kind else {
        return Err(grammar_fault(token.place));
    };
    Ok(rest)
}

pub fn symbol<'a>(
    tokens: &'a [Token<'a>],
    end: Place,
) -> Result<(Symbol<'a>, &'a [Token<'a>]), ReadError>
    ensures { ParsesBy view (assembly end) symbol (λ s. Leaf (Name s.name.now s.place))
        (λ _. tt) tt tokens.now result }
{
    let Some((token, rest)) = tokens.split_first() else {
        return Err(grammar_fault(end));
    };
    let Kind::Symbol = token.kind else {
        return Err(grammar_fault(token.place));
    };
    Ok((
        Symbol {
            name: token.text,
            place: token.place,
        },
        rest,
    ))
}

fn suits(before: Before, letter: Letter) -> bool
    ensures { result ≡ suits before letter }
{
    match before {
        Before::Sum(Letter::One) | Before::Inversion => {
            matches!(letter, Letter::A | Letter::D | Letter::M)
        }
        Before::Sum(Letter::D) => matches!(letter, Letter::One | Letter::A | Letter::M),
        Before::Sum(Letter::A | Letter::M) => matches!(letter, Letter::One | Letter::D),
        Before::Join(Letter::D) => matches!(letter, Letter::A | Letter::M),
        Before::Join(Letter::A | Letter::M) => matches!(letter, Letter::D),
        Before::Negation => !matches!(letter, Letter::Zero),
        _ => false,
    }
}

pub fn letter<'a>(
    tokens: &'a [Token<'a>],
    end: Place,
    before: Before,
) -> Result<(Letter, &'a [Token<'a>]), ReadError>
    ensures { ParsesBy view (assembly end) (some_letter (suits before)) (λ x. Leaf (Letter' x))
        (λ _. tt) tt tokens.now result }
{
    let Some((token, rest)) = tokens.split_first() else {
        return Err(grammar_fault(end));
    };
    let Role::Letter(letter) = token.role else {
        return Err(grammar_fault(token.place));
    };
    if !suits(before, letter) {
        return Err(grammar_fault(token.place));
    }
    Ok((letter, rest))
}

pub fn number<'a>(tokens: &'a [Token<'a>], end: Place) -> Result<(u16, &'a [Token<'a>]), ReadError>
    ensures { ParsesBy view (assembly end) (word is_number free number) (λ n. Leaf (Number n))
        (λ _. tt) tt tokens.now result }
{
    let Some((token, rest)) = tokens.split_first() else {
        return Err(grammar_fault(end));
    };
    let Kind::Number(n) = token.kind else {
        return Err(grammar_fault(token.place));
    };
    Ok((n, rest))
}

pub fn jump<'a>(tokens: &'a [Token<'a>], end: Place) -> Result<(u8, &'a [Token<'a>]), ReadError>
    ensures { ParsesBy view (assembly end) (word is_jump free word_meaning) (λ n. Leaf (Jump n))
        (λ _. tt) tt tokens.now result }
{
    let Some((token, rest)) = tokens.split_first() else {
        return Err(grammar_fault(end));
    };
    let Role::Jump(bits) = token.role else {
        return Err(grammar_fault(token.place));
    };
    Ok((bits, rest))
}

/// A certain sign comes next.
pub fn stands(tokens: &[Token], byte: u8) -> bool
    ensures { result ≡ next (is_sign byte) (map view tokens.now) }
{
    match tokens.first() {
        None => false,
        Some(token) => match token.kind {
            Kind::Sign(other) => other == byte,
            _ => false,
        },
    }
}

/// A number comes next.
pub fn counts(tokens: &[Token]) -> bool
    ensures { result ≡ next is_number (map view tokens.now) }
{
    match tokens.first() {
        None => false,
        Some(token) => matches!(token.kind, Kind::Number(_)),
    }
}

/// A line end comes next.
pub fn ends(tokens: &[Token]) -> bool
    ensures { result ≡ next is_line_end (map view tokens.now) }
{
    match tokens.first() {
        None => false,
        Some(token) => matches!(token.kind, Kind::LineEnd),
    }
}

/// The letter that comes next, and what is left after it.
pub fn first_letter<'a>(tokens: &'a [Token<'a>]) -> Option<(Letter, &'a [Token<'a>])>
    ensures { option_map (λ r. (r.0, map view r.1.now)) result ≡ letter_next (map view tokens.now) }
{
    let Some((token, rest)) = tokens.split_first() else {
        return None;
    };
    match token.role {
        Role::Letter(letter) => Some((letter, rest)),
        _ => None,
    }
}

/// Several letters of a destination, given by their bits, and what is left after them.
pub fn several<'a>(tokens: &'a [Token<'a>]) -> Option<(u8, &'a [Token<'a>])>
    ensures { option_map (λ r. (r.0, map view r.1.now)) result
        ≡ several_next (map view tokens.now) }
{
    let Some((token, rest)) = tokens.split_first() else {
        return None;
    };
    match token.role {
        Role::Several(bits) => Some((bits, rest)),
        _ => None,
    }
}

fn adds(first: Letter, op: Operator) -> bool
    ensures { result ≡ adds first op }
{
    match first {
        Letter::Zero => false,
        Letter::One => matches!(op, Operator::Plus),
        _ => matches!(op, Operator::Plus | Operator::Minus),
    }
}

fn meets(first: Letter, op: Operator) -> bool
    ensures { result ≡ meets first op }
{
    match first {
        Letter::Zero | Letter::One => false,
        _ => matches!(op, Operator::And | Operator::Or),
    }
}

/// The operator that comes after a letter, what it is for the letter to come, and what is left after it.
pub fn operator<'a>(
    tokens: &'a [Token<'a>],
    first: Letter,
) -> Option<(Operator, Before, &'a [Token<'a>])>
    ensures { option_map (λ r. (r.0, r.1, map view r.2.now)) result
        ≡ operator_next first (map view tokens.now) }
{
    let Some((token, rest)) = tokens.split_first() else {
        return None;
    };
    let Role::Operator(op) = token.role else {
        return None;
    };
    if adds(first, op) {
        return Some((op, Before::Sum(first), rest));
    }
    if meets(first, op) {
        return Some((op, Before::Join(first), rest));
    }
    None
}

fn is_register(letter: Letter) -> bool
    ensures { result ≡ is_register letter }
{
    matches!(letter, Letter::A | Letter::D | Letter::M)
}

/// The shift that comes after a register, and what is left after it.
pub fn shift<'a>(tokens: &'a [Token<'a>], first: Letter) -> Option<(bool, &'a [Token<'a>])>
    ensures { option_map (λ r. (r.0, map view r.1.now)) result
        ≡ shift_next first (map view tokens.now) }
{
    let Some((token, rest)) = tokens.split_first() else {
        return None;
    };
    let Role::Shift(left) = token.role else {
        return None;
    };
    if is_register(first) {
        Some((left, rest))
    } else {
        None
    }
}

/// What is left after `=`, where that comes after a register.
pub fn assigns<'a>(tokens: &'a [Token<'a>], first: Letter) -> Option<&'a [Token<'a>]>
    ensures { option_map (λ r. map view r.now) result ≡ assigns_next first (map view tokens.now) }
{
    let Some((token, rest)) = tokens.split_first() else {
        return None;
    };
    if !is_register(first) {
        return None;
    }
    match token.kind {
        Kind::Sign(b'=') => Some(rest),
        _ => None,
    }
}
