//! Whole VM texts.

ghost use Rattle.std.specs.Prelude.{◌≡◌, ◌≤◌, ◌∷◌, [], List, length, map, true, Ok, Err, IfOk, IfErr};
ghost use Rattle.grammar.specs.declared.Fault.{Fault};
ghost use Rattle.grammar.specs.Reading.{Gives, Halt, end_at, Ends};
ghost use Rattle.vm_tree.specs.declared.program.File.{File};
ghost use Rattle.vm_tree.specs.Printed.{program_text};
ghost use Rattle.vm_parser.specs.Tokens.{view};
ghost use Rattle.vm_parser.specs.Grammar.{vm, whole, greatest};
ghost use Rattle.vm_parser.specs.Trees.{file_tree, file_of, Spells, Refuses};
ghost use Rattle.vm_parser.specs.Inner.Reading.{ReadsAllAs};
ghost use Rattle.vm_parser.specs.Printed.{all, file_can};

use crate::lexer::tokens;
use crate::rules::{functions, opening};
use crate::token::Token;
use crate::words::grammar_fault;
use grammar::ReadError;
use outer_world::{List, Name};
use scan_text::Place;
use std::alloc::Global;
use vm_tree::{File, Program};

/// Why a VM text is not read: memory ran out, or the text has a fault, which is Grammar or Range.
pub type VmFault = ReadError;

fn at_end(tokens: &[Token], end: Place) -> Result<(), ReadError>
    ensures { Gives (λ _. tt) result (end_at (vm end) (map view tokens.now)) }
{
    match tokens.split_first() {
        None => Ok(()),
        Some((token, _)) => Err(grammar_fault(token.place)),
    }
}

fn finish(tokens: &[Token], end: Place) -> Result<(), ReadError>
    ensures { Ends (vm end) greatest (map view tokens.now) result }
{
    at_end(tokens, end)
}

// The file of this name that the tokens spell.
#[tactic(auto, using(crate::proofs::Exits::vm_exits))]
fn file(
    alloc: Global,
    name: Name,
    tokens: &[Token],
    end: Place,
    bare: bool,
) -> Result<File, ReadError>
    ensures { ReadsAllAs (file_tree bare) (file_of bare name) end (whole bare)
        (map view tokens.now) result }
{
    let (opening, rest) = opening(alloc, tokens, end, bare)?;
    let (functions, rest) = functions(alloc, rest, end)?;
    finish(rest, end)?;
    Ok(File {
        name,
        opening,
        functions,
    })
}

/// The file of this name that a text spells, and otherwise the text's first fault, as `parse` has them.
#[tactic(auto, using(crate::proofs::Exits::vm_exits))]
pub fn parse_file(alloc: Global, name: &Name, text: &[u8], bare: bool) -> Result<File, VmFault>
    ensures found { IfOk result (λ f. Spells bare name.now text.now (f ∷ [])) }
    ensures fault { IfErr result (Halt (Refuses bare text.now)) }
{
    let (tokens, end) = tokens(alloc, text)?;
    let name = name.clone()?;
    file(alloc, name, &tokens, end, bare)
}

#[tactic(auto, using(crate::proofs::Exits::vm_exits))]
fn read(alloc: Global, name: &Name, text: &[u8], bare: bool) -> Result<Program, ReadError>
    ensures found { IfOk result (Spells bare name.now text.now) }
    ensures fault { IfErr result (Halt (Refuses bare text.now)) }
{
    let file = parse_file(alloc, name, text, bare)?;
    let mut program = List::new(alloc);
    program.push(file)?;
    Ok(program)
}

/// The program of the one file of this name that a text spells. Its lines have statement 0 and are no commits.
///
/// Grammar where a rule of the grammar stops, also at a command before the first function without `bare`; Range past a limit: a
/// number over 32,767, an index of `pointer` over 1 or of `temp` over 7, a text of more than 1,048,576 bytes (at 0:0).
pub fn parse(alloc: Global, name: &Name, text: &[u8], bare: bool) -> Result<Program, VmFault>
    // What is read is spelled so, and what is spelled is read, unless memory runs out.
    ensures found { IfOk result (Spells bare name.now text.now) }
    ensures only { (p : List File) → Spells bare name.now text.now p
        → Gives (λ q. q) result (Ok p) }
    // A fault is the text's first one, and each text with a fault gets it.
    ensures fault { IfErr result (Halt (Refuses bare text.now)) }
    ensures exact { (f : Fault) → Refuses bare text.now f → Gives (λ q. q) result (Err f) }
    // What is read can be written: the law of the printed form holds of it, and its printed text is read as the same program again.
    ensures printable { IfOk result (λ p. all (file_can bare) p ≡ true) }
    ensures again { IfOk result
        (λ p. length (program_text p) ≤ 1048576 → Spells bare name.now (program_text p) p) }
{
    read(alloc, name, text, bare)
}
