//! Whole assembly texts.

ghost use Rattle.std.specs.Prelude.{◌≡◌, ◌<◌, ◌≤◌, map, length, IfOk};
ghost use Rattle.grammar.specs.Reading.{ParsesAllBy};
ghost use Rattle.hack_asm.specs.Tokens.{view};
ghost use Rattle.hack_asm.specs.Grammar.{assembly, whole};
ghost use Rattle.hack_asm.specs.Inner.Rest.{ReadsLine};
ghost use Rattle.hack_asm.specs.Trees.{line_of, text_tree};

use crate::lines::Item;
use crate::rules::line;
use crate::token::Token;
use grammar::ReadError;
use scan_text::Place;
use std::alloc::Global;

// The line at a token, and where the next one begins.
fn line_at<'a>(
    tokens: &'a [Token<'a>],
    at: usize,
    end: Place,
) -> Result<(Option<Item<'a>>, usize), ReadError>
    requires { at ≤ length tokens.now }
    ensures reads { ReadsLine end tokens.now at result }
    ensures further { IfOk result (λ x. at < x.1) }
    ensures within { IfOk result (λ x. x.1 ≤ length tokens.now) }
{
    let (line, rest) = line(&tokens[at..], end)?;
    Ok((line, tokens.len() - rest.len()))
}

/// The lines that these tokens spell.
pub fn all_lines<'a>(
    alloc: Global,
    tokens: &'a [Token<'a>],
    end: Place,
) -> Result<Vec<Option<Item<'a>>>, ReadError>
    ensures { ParsesAllBy view (assembly end) whole (λ v. text_tree (map line_of v.items))
        (λ _. tt) tt tokens.now result }
{
    let mut lines = Vec::new(alloc);
    let mut at = 0;
    'lines: while at < tokens.len() {
        let (line, next) = line_at(tokens, at, end)?;
        lines.push(line)?;
        at = next;
    }
    Ok(lines)
}
