//! A whole text.

ghost use Rattle.std.specs.Prelude.{◌≡◌, ◌≤◌, length, map, true, Ok, Err, IfOk, IfErr, ℕ, Result};
ghost use Rattle.grammar.specs.declared.Fault.{Fault};
ghost use Rattle.grammar.specs.Reading.{ParsesAllBy, Halt, Gives, Ends};
ghost use Rattle.hdl_parser.specs.Tokens.{view};
ghost use Rattle.hdl_tree.specs.declared.tree.Chip.{Chip};
ghost use Rattle.hdl_tree.specs.Writable.{chip_can};
ghost use Rattle.hdl_parser.specs.Grammar.{hdl, whole};
ghost use Rattle.hdl_parser.specs.Spells.{whole_tree, Spells, Refuses};
ghost use Rattle.hdl_parser.specs.Printed.{chip_text};

use crate::lexer::tokens;
use crate::rules::chip;
use crate::token::Token;
use crate::words::grammar_fault;
use grammar::ReadError;
use hdl_tree::Chip;
use scan_text::Place;
use std::alloc::Global;

/// Why an HDL text is not read: memory ran out, or the text has a fault, which is Grammar or Range.
pub type HdlFault = ReadError;

#[tactic(auto, using(grammar::proofs::OneToken::one_token))]
fn finish(tokens: &[Token], end: Place) -> Result<(), ReadError>
    ensures { Ends (hdl end) 0 (map view tokens.now) result }
{
    match tokens.split_first() {
        None => Ok(()),
        Some((token, _)) => Err(grammar_fault(token.place)),
    }
}

#[tactic(auto, using(crate::proofs::Exits::hdl_exits))]
fn all(alloc: Global, tokens: &[Token], end: Place) -> Result<Chip, ReadError>
    ensures { ParsesAllBy view (hdl end) whole whole_tree (λ _. 0) 0 tokens.now result }
{
    let (chip, rest) = chip(alloc, tokens, end)?;
    finish(rest, end)?;
    Ok(chip)
}

#[tactic(auto, using(crate::proofs::Exits::hdl_exits))]
fn read(alloc: Global, text: &[u8]) -> Result<Chip, ReadError>
    ensures found { IfOk result (Spells text.now) }
    ensures fault { IfErr result (Halt (Refuses text.now)) }
{
    let (tokens, end) = tokens(alloc, text)?;
    all(alloc, &tokens, end)
}

/// The chip that a text spells.
///
/// Grammar where a byte begins no token, where a comment is not closed, and where a rule of the grammar stops. Grammar, too, at the
/// second number of a subscript that is below the first. Range past a limit: a width over 16, an index over 15, a text of more than
/// 1,048,576 bytes (at 0:0).
pub fn parse(alloc: Global, text: &[u8]) -> Result<Chip, HdlFault>
    // What is read is spelled so, and what is spelled is read, unless memory runs out.
    ensures found { IfOk result (Spells text.now) }
    ensures only { (c : Chip) → Spells text.now c → Gives (λ d. d) result (Ok c) }
    // A fault is the text's first one, and each text with a fault gets it.
    ensures fault { IfErr result (Halt (Refuses text.now)) }
    ensures exact { (f : Fault) → Refuses text.now f → Gives (λ d. d) result (Err f) }
    // What is read is a chip that texts can have: the law of the printed form holds of it, and its printed text spells it again.
    ensures printable { IfOk result (λ c. chip_can c ≡ true) }
    ensures again { IfOk result (λ c. length (chip_text c) ≤ 1048576 → Spells (chip_text c) c) }
{
    read(alloc, text)
}
