//! The rules of a `.hack` text: digits, words, lines, and the whole.

ghost use Rattle.std.specs.Prelude.{◌≡◌, ◌<◌, length, IfOk};
ghost use Rattle.grammar.specs.Reading.{Parses, Passes, Gives, word_at, mark_at, end_at, Ends, ParsesAll};
ghost use Rattle.grammar.specs.Rules.{Pair, next};
ghost use Rattle.hack_asm.specs.HackTokens.{ends_line};
ghost use Rattle.hack_asm.specs.HackText.{has_digit, begins_line, free, said_kind, hack, digit, line_end, four, sixteen, line, lines, whole, digit_tree, four_tree, word_tree, line_tree, lines_tree, text_tree, IsLine, AreLines};

use crate::hack_tokens::{Kind, Token};
use grammar::{Fault, ReadError};
use scan_text::Place;
use std::alloc::Global;
use word16::word_of;

/// Four digits, in the order in which they are written.
type Four = (bool, bool, bool, bool);

fn grammar_fault(place: Place) -> ReadError
    ensures { result ≡ ReadError.Fault (Fault.Grammar place) }
{
    ReadError::Fault(Fault::Grammar(place))
}

fn digit_at(tokens: &[Token], end: Place) -> Result<(bool, &[Token]), ReadError>
    ensures { Gives (λ x. (Kind.Digit x.0, tt, x.1.now)) result
        (word_at (hack end) has_digit free said_kind tt tokens.now) }
{
    let Some((token, rest)) = tokens.split_first() else {
        return Err(grammar_fault(end));
    };
    let Kind::Digit(bit) = token.kind else {
        return Err(grammar_fault(token.place));
    };
    Ok((bit, rest))
}

fn line_end_at(tokens: &[Token], end: Place) -> Result<&[Token], ReadError>
    ensures { Gives (λ x. x.now) result (mark_at (hack end) ends_line tokens.now) }
{
    let Some((token, rest)) = tokens.split_first() else {
        return Err(grammar_fault(end));
    };
    let Kind::LineEnd = token.kind else {
        return Err(grammar_fault(token.place));
    };
    Ok(rest)
}

fn digit(tokens: &[Token], end: Place) -> Result<(bool, &[Token]), ReadError>
    ensures { Parses (hack end) digit digit_tree (λ _. tt) tt tokens.now result }
{
    digit_at(tokens, end)
}

fn line_end(tokens: &[Token], end: Place) -> Result<&[Token], ReadError>
    ensures { Passes (hack end) line_end tt tokens.now result }
{
    line_end_at(tokens, end)
}

#[tactic(auto, using(crate::proofs::Exits::asm_exits))]
fn four(tokens: &[Token], end: Place) -> Result<(Four, &[Token]), ReadError>
    ensures { Parses (hack end) four (λ q. four_tree q.0 q.1 q.2 q.3)
        (λ _. tt) tt tokens.now result }
{
    let (a, rest) = digit(tokens, end)?;
    let (b, rest) = digit(rest, end)?;
    let (c, rest) = digit(rest, end)?;
    let (d, rest) = digit(rest, end)?;
    Ok(((a, b, c, d), rest))
}

// The word of sixteen digits, the highest first.
fn word(p: Four, q: Four, r: Four, s: Four) -> u16
    ensures { word_tree result ≡ Pair (four_tree p.0 p.1 p.2 p.3) (Pair (four_tree q.0 q.1 q.2 q.3)
        (Pair (four_tree r.0 r.1 r.2 r.3) (four_tree s.0 s.1 s.2 s.3))) }
{
    word_of([
        s.3, s.2, s.1, s.0, r.3, r.2, r.1, r.0, q.3, q.2, q.1, q.0, p.3, p.2, p.1, p.0,
    ])
}

#[tactic(auto, using(crate::proofs::Exits::asm_exits))]
fn sixteen(tokens: &[Token], end: Place) -> Result<(u16, &[Token]), ReadError>
    ensures reads { Parses (hack end) sixteen word_tree (λ _. tt) tt tokens.now result }
    ensures word { IfOk result (λ x. x.0 < 65536) }
{
    let (p, rest) = four(tokens, end)?;
    let (q, rest) = four(rest, end)?;
    let (r, rest) = four(rest, end)?;
    let (s, rest) = four(rest, end)?;
    Ok((word(p, q, r, s), rest))
}

fn ends(tokens: &[Token]) -> bool
    ensures { result ≡ next ends_line tokens.now }
{
    match tokens.first() {
        None => false,
        Some(token) => matches!(token.kind, Kind::LineEnd),
    }
}

fn begins(tokens: &[Token]) -> bool
    ensures { result ≡ next begins_line tokens.now }
{
    match tokens.first() {
        None => false,
        Some(token) => matches!(token.kind, Kind::LineEnd | Kind::Digit(_)),
    }
}

// A word, or none on an empty line.
fn line_at(tokens: &[Token], end: Place) -> Result<(Option<u16>, &[Token]), ReadError>
    ensures reads { Parses (hack end) line line_tree (λ _. tt) tt tokens.now result }
    ensures word { IfOk result (λ x. IsLine x.0) }
{
    if ends(tokens) {
        let rest = line_end(tokens, end)?;
        return Ok((None, rest));
    }
    let (word, rest) = sixteen(tokens, end)?;
    let rest = line_end(rest, end)?;
    Ok((Some(word), rest))
}

#[tactic(auto, using(crate::proofs::Exits::asm_exits))]
fn lines(
    alloc: Global,
    tokens: &[Token],
    end: Place,
) -> Result<(Vec<Option<u16>>, &[Token]), ReadError>
    ensures reads { Parses (hack end) lines (λ v. lines_tree v.items)
        (λ _. tt) tt tokens.now result }
    ensures words { IfOk result (λ x. AreLines x.0.items) }
{
    let mut lines = Vec::new(alloc);
    let mut rest = tokens;
    'lines: while begins(rest) {
        let (line, after) = line_at(rest, end)?;
        lines.push(line)?;
        rest = after;
    }
    Ok((lines, rest))
}

fn at_end(tokens: &[Token], end: Place) -> Result<(), ReadError>
    ensures { Gives (λ _. tt) result (end_at (hack end) tokens.now) }
{
    match tokens.split_first() {
        None => Ok(()),
        Some((token, _)) => Err(grammar_fault(token.place)),
    }
}

fn finish(tokens: &[Token], end: Place) -> Result<(), ReadError>
    ensures { Ends (hack end) tt tokens.now result }
{
    at_end(tokens, end)
}

/// The lines that these tokens spell: a word, or none where a line is empty.
pub fn all_lines(alloc: Global, tokens: &[Token], end: Place) -> Result<Vec<Option<u16>>, ReadError>
    ensures reads { ParsesAll (hack end) whole (λ v. text_tree v.items)
        (λ _. tt) tt tokens.now result }
    ensures words { IfOk result (λ v. AreLines v.items) }
{
    let (lines, rest) = lines(alloc, tokens, end)?;
    finish(rest, end)?;
    Ok(lines)
}
