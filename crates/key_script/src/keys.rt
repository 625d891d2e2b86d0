//! The keys of a run: which key is held at each moment.

ghost use Rattle.std.specs.Prelude.{◌≡◌, ◌<◌, ◌^◌, true, List, [], Ok, Err, IfOk, IfErr};
ghost use Rattle.grammar.specs.declared.Fault.{Fault};
ghost use Rattle.grammar.specs.Reading.{Gives, Halt};
ghost use Rattle.key_script.specs.Codes.{are_rising, code_at};
ghost use Rattle.key_script.specs.Faults.{Because, Gives as GivesKeys};
ghost use Rattle.key_script.specs.Grammar.{Spells, Stopped, Refuses};
ghost use Rattle.key_script.specs.declared.fault.KeyFault.{KeyFault};

use crate::fault::KeyError;
use crate::lexer::tokens;
use crate::lines::{Line, all_lines};
use grammar::ReadError;
use std::alloc::Global;
use std::marker::Model;

/// The lines of a key script, with rising moments.
#[derive(Drop)]
pub struct Keys {
    lines: Vec<Line>,
}

impl Model for Keys {
    ghost use Rattle.std.specs.Prelude.{◌≡◌, List, true};
    ghost use Rattle.key_script.specs.declared.lines.Line.{Line};
    ghost use Rattle.key_script.specs.Codes.{are_rising};

    ghost Value = { List Line };

    ghost view = { λ keys. keys.lines.items };

    ghost invariant = { λ keys. are_rising 0 keys.lines.items ≡ true };
}

impl Keys {
    /// No key at any moment, for a run without a script. It takes no memory.
    pub fn none(alloc: Global) -> Keys
        ensures { result ≡ [] }
    {
        Keys {
            lines: Vec::new(alloc),
        }
    }

    /// The key that is held at moment `c`: the code of the last line whose moment is at most `c`, or 0 before the first.
    pub fn at(&self, c: u64) -> u16
        ensures { result ≡ code_at self.now c }
    {
        let lines = self.lines.as_slice();
        let come = lines.partition_point(|line| line.moment as u64 <= c);
        match lines[..come].last() {
            Some(line) => line.code,
            None => 0,
        }
    }
}

fn read(alloc: Global, text: &[u8]) -> Result<Vec<Line>, ReadError>
    ensures found { IfOk result (λ v. Spells text.now v.items) }
    ensures fault { IfErr result (Halt (Stopped text.now)) }
    ensures rising { IfOk result (λ v. are_rising 0 v.items ≡ true) }
{
    let (tokens, end) = tokens(alloc, text)?;
    all_lines(alloc, &tokens, end)
}

// The lines of a text, or its first fault by the grammar.
fn read_lines(alloc: Global, text: &[u8]) -> Result<Vec<Line>, ReadError>
    ensures found { IfOk result (λ v. Spells text.now v.items) }
    ensures only { (ls : List Line) → Spells text.now ls → Gives (λ v. v.items) result (Ok ls) }
    ensures fault { IfErr result (Halt (Stopped text.now)) }
    ensures exact { (f : Fault) → Stopped text.now f → Gives (λ v. v.items) result (Err f) }
    ensures rising { IfOk result (λ v. are_rising 0 v.items ≡ true) }
{
    read(alloc, text)
}

/// The keys of a key script.
///
/// Grammar where a line is not two numbers, Range past a limit, NotRising where a moment is not above the one before.
pub fn read_keys(alloc: Global, text: &[u8]) -> Result<Keys, KeyError>
    // What is read is spelled so, and all that is spelled is read, unless memory runs out.
    ensures found { IfOk result (λ k. Spells text.now k) }
    ensures only { (ls : List Line) → Spells text.now ls → GivesKeys result (Ok ls) }
    // A fault is the text's first one, and each text with a fault gets it.
    ensures fault { IfErr result (Because (Refuses text.now)) }
    ensures exact { (f : KeyFault) → Refuses text.now f → GivesKeys result (Err f) }
{
    let lines = read_lines(alloc, text)?;
    Ok(Keys { lines })
}
