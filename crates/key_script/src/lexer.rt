//! The tokens of a key script.

ghost use Rattle.std.specs.Prelude.{◌≡◌, true, Some, Result, IfOk};
ghost use Rattle.scan_text.specs.Text.{first, is_digit};
ghost use Rattle.scan_text.specs.View.{left_bytes};
ghost use Rattle.grammar.specs.Cutting.{NextBy};
ghost use Rattle.grammar.specs.Reading.{Gives};
ghost use Rattle.key_script.specs.Tokens.{tokens_of, finish, number_piece};

use crate::token::{Kind, Token};
use grammar::{Fault, KindCutter, Placed, ReadError, cut_lines, line_end};
use scan_text::{Place, Scan};
use std::alloc::Global;

fn number(scan: &mut Scan, byte: u8) -> Result<Option<Token>, Fault>
    requires begun { first (left_bytes scan.old) ≡ Some byte }
    requires digit { is_digit byte ≡ true }
    ensures { NextBy (λ t. t) (number_piece (left_bytes scan.old)) scan.old result scan.new }
{
    let place = scan.place();
    match scan.number() {
        Some(n) => Ok(Some(Placed {
            kind: Kind::Number(n),
            place,
        })),
        None => Ok(None),
    }
}

impl KindCutter for Kind {
    fn next(scan: &mut Scan, byte: u8) -> Result<Option<Token>, Fault> {
        match byte {
            b' ' | b'\t' => {
                scan.skip(1);
                Ok(None)
            }
            b'0'..=b'9' => number(scan, byte),
            _ => line_end(scan),
        }
    }
}

/// The tokens of a key script, and the place of its end.
pub fn tokens(alloc: Global, text: &[u8]) -> Result<(Vec<Token>, Place), ReadError>
    ensures tokens { Gives (λ x. x.0.items) result (tokens_of text.now) }
    ensures end { IfOk result (λ x. x.1 ≡ finish text.now) }
{
    cut_lines(alloc, text)
}
