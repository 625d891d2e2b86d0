//! A whole script.

ghost use Rattle.std.specs.Prelude.{◌≡◌, length, map, Ok, Err, IfOk, IfErr, ℕ, Result};
ghost use Rattle.grammar.specs.declared.Fault.{Fault};
ghost use Rattle.grammar.specs.Reading.{ParsesAllBy, Halt, Gives, Ends};
ghost use Rattle.script_parser.specs.Tokens.{view};
ghost use Rattle.script_parser.specs.Grammar.{script, outermost, whole};
ghost use Rattle.script_parser.specs.Trees.{Commands, Refuses, Spells, commands_of, whole_tree};

use crate::lexer::tokens;
use crate::nesting::outermost;
use crate::rules::commands;
use crate::token::Token;
use crate::tree::Command;
use crate::words::grammar_fault;
use grammar::ReadError;
use scan_text::Place;
use std::alloc::Global;

/// What a script says: its commands in order.
pub type Script = Vec<Command>;

/// Why a script is not read: memory ran out, or the text has a fault, which is Grammar or Range.
pub type ScriptFault = ReadError;

#[tactic(auto, using(grammar::proofs::OneToken::one_token))]
fn finish(tokens: &[Token], end: Place) -> Result<(), ReadError>
    ensures { Ends (script end) outermost (map view tokens.now) result }
{
    match tokens.split_first() {
        None => Ok(()),
        Some((token, _)) => Err(grammar_fault(token.place)),
    }
}

#[tactic(auto, using(crate::proofs::Exits::script_exits))]
fn all(alloc: Global, tokens: &[Token], end: Place) -> Result<Vec<Command>, ReadError>
    ensures { ParsesAllBy view (script end) whole (λ v. whole_tree (commands_of v.items))
        (λ _. outermost) outermost tokens.now result }
{
    let (commands, rest) = commands(alloc, tokens, end, outermost())?;
    finish(rest, end)?;
    Ok(commands)
}

fn read(alloc: Global, text: &[u8]) -> Result<Vec<Command>, ReadError>
    ensures found { IfOk result (λ v. Spells text.now (commands_of v.items)) }
    ensures fault { IfErr result (Halt (Refuses text.now)) }
{
    let (tokens, end) = tokens(alloc, text)?;
    all(alloc, &tokens, end)
}

/// The commands that a test script spells.
///
/// Grammar where a text in quotes or a comment is not closed and where a rule of the grammar stops. Range past a limit, which is a count
/// that comes, times those round it, to more than 1,000,000,000, or the 257th level of repetitions. So is a decimal of a `set` over 65,535,
/// or over 32,768 after `-`, and a number of an item over 255. So is a text of more than 1,048,576 bytes (at 0:0).
pub fn parse_script(alloc: Global, text: &[u8]) -> Result<Script, ScriptFault>
    // What is read is spelled so, and what is spelled is read, unless memory runs out.
    ensures found { IfOk result (λ v. Spells text.now (commands_of v.items)) }
    ensures only { (s : Commands) → Spells text.now s
        → Gives (λ v. commands_of v.items) result (Ok s) }
    // A fault is the text's first one, and each text with a fault gets it.
    ensures fault { IfErr result (Halt (Refuses text.now)) }
    ensures exact { (f : Fault) → Refuses text.now f
        → Gives (λ v. commands_of v.items) result (Err f) }
{
    read(alloc, text)
}
