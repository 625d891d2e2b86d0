//! The rules of a key script: numbers, lines, and the whole.

ghost use Rattle.std.specs.Prelude.{◌≡◌, ◌<◌, ◌≤◌, true, ◌-◌, ◌+◌, ◌^◌, length, Some, None, Result, Ok, List, IfOk, IfErr, Err, ℕ};
ghost use Rattle.grammar.specs.Reading.{Parses, Passes, Halt, Gives, word_at, mark_at, end_at, Ends, ParsesAll};
ghost use Rattle.grammar.specs.Rules.{Leaf, next};
ghost use Rattle.grammar.specs.declared.Fault.{Fault};
ghost use Rattle.key_script.specs.Codes.{are_rising};
ghost use Rattle.key_script.specs.Tokens.{ends_line};
ghost use Rattle.key_script.specs.Grammar.{has_number, check_moment, check_code, said_kind, script, moment, code, line_end, line, line_tree, after_line, lines, lines_tree, after_lines, whole, script_tree};

use crate::lexer::tokens;
use crate::token::{Kind, Token};
use grammar::{Fault, ReadError};
use scan_text::Place;
use std::alloc::Global;

/// From the moment on, the key with this code is held; 0 is no key.
#[derive(Clone, Copy, Debug, PartialEq, Eq)]
pub struct Line {
    pub moment: u32,
    pub code: u16,
}

fn grammar_fault(place: Place) -> ReadError
    ensures { result ≡ ReadError.Fault (Fault.Grammar place) }
{
    ReadError::Fault(Fault::Grammar(place))
}

// A moment, not below the least one: one below it is past a limit of 0 (`KeyFault::of_grammar`).
fn moment_at(tokens: &[Token], end: Place, least: u32) -> Result<(u32, &[Token]), ReadError>
    ensures reads { Gives (λ x. (Kind.Number x.0, x.0 + 1, x.1.now)) result
        (word_at (script end) has_number check_moment said_kind least tokens.now) }
    ensures rising { IfOk result (λ x. least ≤ x.0) }
{
    let Some((token, rest)) = tokens.split_first() else {
        return Err(grammar_fault(end));
    };
    let Kind::Number(n) = token.kind else {
        return Err(grammar_fault(token.place));
    };
    if n > 1_000_000_000 {
        return Err(ReadError::Fault(Fault::Range(token.place, 1_000_000_000)));
    }
    if n < least {
        return Err(ReadError::Fault(Fault::Range(token.place, 0)));
    }
    Ok((n, rest))
}

// A code.
fn code_at(tokens: &[Token], end: Place) -> Result<(u16, &[Token]), ReadError>
    ensures { (least : ℕ) → Gives (λ x. (Kind.Number x.0, least, x.1.now)) result
        (word_at (script end) has_number check_code said_kind least tokens.now) }
{
    let Some((token, rest)) = tokens.split_first() else {
        return Err(grammar_fault(end));
    };
    let Kind::Number(n) = token.kind else {
        return Err(grammar_fault(token.place));
    };
    if n > 65_535 {
        return Err(ReadError::Fault(Fault::Range(token.place, n.min(1_000_000_000))));
    }
    Ok((n as u16, rest))
}

fn line_end_at(tokens: &[Token], end: Place) -> Result<&[Token], ReadError>
    ensures { Gives (λ x. x.now) result (mark_at (script end) ends_line tokens.now) }
{
    let Some((token, rest)) = tokens.split_first() else {
        return Err(grammar_fault(end));
    };
    let Kind::LineEnd = token.kind else {
        return Err(grammar_fault(token.place));
    };
    Ok(rest)
}

fn moment(tokens: &[Token], end: Place, least: u32) -> Result<(u32, &[Token]), ReadError>
    ensures reads { Parses (script end) moment (λ m. Leaf (Kind.Number m))
        (λ m. m + 1) least tokens.now result }
    ensures rising { IfOk result (λ x. least ≤ x.0) }
{
    moment_at(tokens, end, least)
}

fn code(tokens: &[Token], end: Place, least: u32) -> Result<(u16, &[Token]), ReadError>
    ensures { Parses (script end) code (λ n. Leaf (Kind.Number n))
        (λ _. least) least tokens.now result }
{
    code_at(tokens, end)
}

fn line_end(tokens: &[Token], end: Place, least: u32) -> Result<&[Token], ReadError>
    ensures { Passes (script end) line_end least tokens.now result }
{
    line_end_at(tokens, end)
}

#[tactic(auto, using(crate::proofs::Exits::key_exits))]
fn line_at(tokens: &[Token], end: Place, least: u32) -> Result<(Line, &[Token]), ReadError>
    ensures reads { Parses (script end) line line_tree after_line least tokens.now result }
    ensures rising { IfOk result (λ x. least ≤ x.0.moment) }
{
    let (moment, rest) = moment(tokens, end, least)?;
    let (code, rest) = code(rest, end, moment + 1)?;
    let rest = line_end(rest, end, moment + 1)?;
    Ok((Line { moment, code }, rest))
}

#[tactic(auto, using(crate::proofs::Exits::key_exits))]
fn lines(alloc: Global, tokens: &[Token], end: Place) -> Result<(Vec<Line>, &[Token]), ReadError>
    ensures reads { Parses (script end) lines (λ v. lines_tree v.items)
        (λ v. after_lines 0 v.items) 0 tokens.now result }
    ensures rising { IfOk result (λ x. are_rising 0 x.0.items ≡ true) }
{
    let mut lines = Vec::new(alloc);
    let mut rest = tokens;
    let mut least = 0;
    'lines: while begins(rest) {
        let (line, after) = line_at(rest, end, least)?;
        least = line.moment + 1;
        lines.push(line)?;
        rest = after;
    }
    Ok((lines, rest))
}

fn begins(tokens: &[Token]) -> bool
    ensures { result ≡ next has_number tokens.now }
{
    match tokens.first() {
        None => false,
        Some(token) => matches!(token.kind, Kind::Number(_)),
    }
}

fn at_end(tokens: &[Token], end: Place) -> Result<(), ReadError>
    ensures { Gives (λ _. tt) result (end_at (script end) tokens.now) }
{
    match tokens.split_first() {
        None => Ok(()),
        Some((token, _)) => Err(grammar_fault(token.place)),
    }
}

fn finish(tokens: &[Token], end: Place) -> Result<(), ReadError>
    ensures { (least : ℕ) → Ends (script end) least tokens.now result }
{
    at_end(tokens, end)
}

pub fn all_lines(alloc: Global, tokens: &[Token], end: Place) -> Result<Vec<Line>, ReadError>
    ensures reads { ParsesAll (script end) whole (λ v. script_tree v.items)
        (λ v. after_lines 0 v.items) 0 tokens.now result }
    ensures rising { IfOk result (λ v. are_rising 0 v.items ≡ true) }
{
    let (lines, rest) = lines(alloc, tokens, end)?;
    finish(rest, end)?;
    Ok(lines)
}
