//! The rules of assembly.

ghost use Rattle.std.specs.Prelude.{◌≡◌, map};
ghost use Rattle.grammar.specs.Reading.{ParsesBy};
ghost use Rattle.hack_asm.specs.Tokens.{view};
ghost use Rattle.hack_asm.specs.Grammar.{assembly, unary, comp, by_letter, after_letter, assignment_part, compute, label, address, content, line};
ghost use Rattle.hack_asm.specs.Trees.{unary_tree, comp_of, comp_tree, bare_tree, assigned_tree, compute_tree, symbol_of, address_of, address_tree, item_of, item_tree, line_of, line_tree};
ghost use Rattle.hack_asm.specs.Inner.Before.{Operates, Continues};
ghost use Rattle.grammar.specs.Rules.{Leaf, Pair, Skip};
ghost use Rattle.hack_asm.specs.Grammar.{Name};

use crate::lines::{Address, Behind, Comp, Compute, Dest, Item, Prefix, Symbol};
use crate::token::{Letter, Operator, Token};
use crate::words::{
    Before, assigns, counts, ends, first_letter, jump, letter, line_end, number, operator, several,
    shift, sign, stands, symbol,
};
use grammar::ReadError;
use scan_text::Place;

// An operator and a letter after a letter, if an operator comes that may stand there.
fn operation<'a>(
    tokens: &'a [Token<'a>],
    end: Place,
    first: Letter,
) -> Result<Option<(Operator, Letter, &'a [Token<'a>])>, ReadError>
    ensures { Operates end first tokens.now result }
{
    let Some((op, before, rest)) = operator(tokens, first) else {
        return Ok(None);
    };
    let (second, rest) = letter(rest, end, before)?;
    Ok(Some((op, second, rest)))
}

// What stands after a letter, if an operator or a shift comes that may stand there.
fn behind<'a>(
    tokens: &'a [Token<'a>],
    end: Place,
    first: Letter,
) -> Result<Option<(Behind, &'a [Token<'a>])>, ReadError>
    ensures { Continues end first tokens.now result }
{
    if let Some((op, second, rest)) = operation(tokens, end, first)? {
        return Ok(Some((Behind::Operation(op, second), rest)));
    }
    let Some((left, rest)) = shift(tokens, first) else {
        return Ok(None);
    };
    Ok(Some((Behind::Shift(left), rest)))
}

fn comp_of(first: Letter, behind: Behind) -> Comp
    ensures { result ≡ comp_of first behind }
{
    match behind {
        Behind::Operation(op, second) => Comp::Pair(first, op, second),
        Behind::Shift(left) => Comp::Shifted(first, left),
    }
}

fn unary<'a>(
    tokens: &'a [Token<'a>],
    end: Place,
) -> Result<((Prefix, Letter), &'a [Token<'a>]), ReadError>
    ensures { ParsesBy view (assembly end) unary (λ u. unary_tree u.0 u.1)
        (λ _. tt) tt tokens.now result }
{
    if stands(tokens, b'-') {
        let rest = sign(tokens, end, b'-')?;
        let (second, rest) = letter(rest, end, Before::Negation)?;
        return Ok(((Prefix::Minus, second), rest));
    }
    let rest = sign(tokens, end, b'!')?;
    let (second, rest) = letter(rest, end, Before::Inversion)?;
    Ok(((Prefix::Not, second), rest))
}

fn comp<'a>(tokens: &'a [Token<'a>], end: Place) -> Result<(Comp, &'a [Token<'a>]), ReadError>
    ensures { ParsesBy view (assembly end) comp comp_tree (λ _. tt) tt tokens.now result }
{
    let Some((first, rest)) = first_letter(tokens) else {
        let ((prefix, second), rest) = unary(tokens, end)?;
        return Ok((Comp::Under(prefix, second), rest));
    };
    match behind(rest, end, first)? {
        Some((behind, rest)) => Ok((comp_of(first, behind), rest)),
        None => Ok((Comp::Alone(first), rest)),
    }
}

// A computation that may have one register as its destination.
fn bare<'a>(
    tokens: &'a [Token<'a>],
    end: Place,
) -> Result<((Option<Letter>, Comp), &'a [Token<'a>]), ReadError>
    ensures { ParsesBy view (assembly end) (by_letter after_letter unary) (λ x. bare_tree x.0 x.1)
        (λ _. tt) tt tokens.now result }
{
    let Some((first, rest)) = first_letter(tokens) else {
        let ((prefix, second), rest) = unary(tokens, end)?;
        return Ok(((None, Comp::Under(prefix, second)), rest));
    };
    if let Some(rest) = assigns(rest, first) {
        let (comp, rest) = comp(rest, end)?;
        return Ok(((Some(first), comp), rest));
    }
    match behind(rest, end, first)? {
        Some((behind, rest)) => Ok(((None, comp_of(first, behind)), rest)),
        None => Ok(((None, Comp::Alone(first)), rest)),
    }
}

fn assigned<'a>(
    tokens: &'a [Token<'a>],
    end: Place,
) -> Result<((Dest, Comp), &'a [Token<'a>]), ReadError>
    ensures { ParsesBy view (assembly end) assignment_part (λ x. assigned_tree x.0 x.1)
        (λ _. tt) tt tokens.now result }
{
    if let Some((bits, rest)) = several(tokens) {
        let rest = sign(rest, end, b'=')?;
        let (comp, rest) = comp(rest, end)?;
        return Ok(((Dest::Several(bits), comp), rest));
    }
    let ((register, comp), rest) = bare(tokens, end)?;
    Ok(((Dest::Register(register), comp), rest))
}

fn compute<'a>(tokens: &'a [Token<'a>], end: Place) -> Result<(Compute, &'a [Token<'a>]), ReadError>
    ensures { ParsesBy view (assembly end) compute compute_tree (λ _. tt) tt tokens.now result }
{
    let ((dest, comp), rest) = assigned(tokens, end)?;
    if stands(rest, b';') {
        let rest = sign(rest, end, b';')?;
        let (bits, rest) = jump(rest, end)?;
        let jump = Some(bits);
        return Ok((Compute { dest, comp, jump }, rest));
    }
    let jump = None;
    Ok((Compute { dest, comp, jump }, rest))
}

#[tactic(auto, using(crate::proofs::Exits::asm_exits))]
fn label<'a>(
    tokens: &'a [Token<'a>],
    end: Place,
) -> Result<(Symbol<'a>, &'a [Token<'a>]), ReadError>
    ensures { ParsesBy view
        (assembly end) label (λ s. Pair Skip (Pair (Leaf (Name s.name.now s.place)) Skip))
        (λ _. tt) tt tokens.now result }
{
    let rest = sign(tokens, end, b'(')?;
    let (symbol, rest) = symbol(rest, end)?;
    let rest = sign(rest, end, b')')?;
    Ok((symbol, rest))
}

fn address<'a>(
    tokens: &'a [Token<'a>],
    end: Place,
) -> Result<(Address<'a>, &'a [Token<'a>]), ReadError>
    ensures { ParsesBy view (assembly end) address (λ a. address_tree (address_of a))
        (λ _. tt) tt tokens.now result }
{
    let rest = sign(tokens, end, b'@')?;
    if counts(rest) {
        let (n, rest) = number(rest, end)?;
        return Ok((Address::Number(n), rest));
    }
    let (symbol, rest) = symbol(rest, end)?;
    Ok((Address::Symbol(symbol), rest))
}

// What a line says that is not blank.
fn item<'a>(tokens: &'a [Token<'a>], end: Place) -> Result<(Item<'a>, &'a [Token<'a>]), ReadError>
    ensures { ParsesBy view (assembly end) content (λ i. item_tree (item_of i))
        (λ _. tt) tt tokens.now result }
{
    if stands(tokens, b'(') {
        let (symbol, rest) = label(tokens, end)?;
        return Ok((Item::Label(symbol), rest));
    }
    if stands(tokens, b'@') {
        let (address, rest) = address(tokens, end)?;
        return Ok((Item::Address(address), rest));
    }
    let (compute, rest) = compute(tokens, end)?;
    Ok((Item::Compute(compute), rest))
}

/// A line, and what is left after it.
pub fn line<'a>(
    tokens: &'a [Token<'a>],
    end: Place,
) -> Result<(Option<Item<'a>>, &'a [Token<'a>]), ReadError>
    ensures { ParsesBy view (assembly end) line (λ l. line_tree (line_of l))
        (λ _. tt) tt tokens.now result }
{
    if ends(tokens) {
        let rest = line_end(tokens, end)?;
        return Ok((None, rest));
    }
    let (item, rest) = item(tokens, end)?;
    let rest = line_end(rest, end)?;
    Ok((Some(item), rest))
}
