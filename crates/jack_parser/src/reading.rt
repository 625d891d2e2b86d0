//! A whole text.

ghost use Rattle.std.specs.Prelude.{◌≡◌, length, map, Ok, Err, IfOk, IfErr, ℕ, Result};
ghost use Rattle.scan_text.specs.declared.Place.{Place};
ghost use Rattle.grammar.specs.Rules.{Tree};
ghost use Rattle.grammar.specs.declared.Fault.{Fault};
ghost use Rattle.grammar.specs.Reading.{ParsesAllBy, Halt, Gives, end_at, Ends};
ghost use Rattle.jack_tree.specs.Syntax as syntax;
ghost use Rattle.jack_tree.specs.Seen.{the_class};
ghost use Rattle.jack_tree.specs.Tokens.{view};
ghost use Rattle.jack_parser.specs.Grammar.{jack, Said, fresh, whole};
ghost use Rattle.jack_parser.specs.Spelled.{SpellsClass};
ghost use Rattle.jack_parser.specs.Spells.{whole_tree, Spells, Refuses};

use crate::classes::class;
use crate::counts::{Counts, fresh};
use crate::words::grammar_fault;
use grammar::ReadError;
use jack_lexer::tokens;
use jack_tree::{Class, Token};
use outer_world::Name as FileName;
use scan_text::Place;
use std::alloc::Global;

fn at_end(tokens: &[Token]) -> Result<(), ReadError>
    ensures { (end : Place) → Gives (λ _. tt) result (end_at (jack end) (map view tokens.now)) }
{
    match tokens.split_first() {
        None => Ok(()),
        Some((token, _)) => Err(grammar_fault(token.place)),
    }
}

fn finish(tokens: &[Token]) -> Result<(), ReadError>
    ensures { (end : Place) (counts : Counts)
        → Ends (jack end) counts (map view tokens.now) result }
{
    at_end(tokens)
}

fn all(
    alloc: Global,
    file: FileName,
    tokens: &[Token],
    end: Place,
) -> Result<(Class, Counts), ReadError>
    ensures reads { ParsesAllBy view (jack end) whole (λ x. whole_tree x.0) (λ x. x.1)
        (fresh 0) tokens.now result }
    ensures file { IfOk result (λ x. x.0.file ≡ file) }
{
    let ((class, counts), rest) = class(alloc, file, tokens, end, fresh(0))?;
    finish(rest)?;
    Ok((class, counts))
}

fn read(alloc: Global, file: &FileName, text: &[u8]) -> Result<Class, ReadError>
    ensures found { IfOk result (λ c. Spells text.now (whole_tree c)) }
    ensures fault { IfErr result (Halt (Refuses text.now)) }
    ensures file { IfOk result (λ c. c.file ≡ file.now) }
{
    let (tokens, end) = tokens(alloc, text)?;
    let file = file.clone()?;
    let (class, _) = all(alloc, file, &tokens, end)?;
    Ok(class)
}

/// The class that a text spells, with the name of its file.
///
/// Grammar where no token begins, at a string or a comment that is not closed, and where a rule of the grammar stops; Range past a limit, which is an
/// integer over 32,767, the 257th level of statements, `(`, `[` and operators before a term, or a string of more than 16,384 bytes. So is the
/// 16,385th field or static of the class, parameter or local of a subroutine (at its name) and argument of a call (at its first token). So is a text
/// of more than 1,048,576 bytes (at 0:0).
pub fn parse_class(alloc: Global, file: &FileName, text: &[u8]) -> Result<Class, ReadError>
    // What is read is spelled so, and the class that is spelled is read, unless memory runs out.
    ensures spelled { IfOk result (λ c. SpellsClass text.now (the_class c)) }
    ensures read { (c : syntax.Class) → SpellsClass text.now c → Gives the_class result (Ok c) }
    // The same, of trees of the grammar.
    ensures found { IfOk result (λ c. Spells text.now (whole_tree c)) }
    ensures only { (t : Tree Said) → Spells text.now t → Gives whole_tree result (Ok t) }
    // A fault is the text's first one, and each text with a fault gets it.
    ensures fault { IfErr result (Halt (Refuses text.now)) }
    ensures exact { (f : Fault) → Refuses text.now f → Gives whole_tree result (Err f) }
    ensures file { IfOk result (λ c. c.file ≡ file.now) }
{
    read(alloc, file, text)
}
