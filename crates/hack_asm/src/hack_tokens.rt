//! The tokens of a `.hack` text.

ghost use Rattle.std.specs.Prelude.{◌≡◌, Some, Result, IfOk};
ghost use Rattle.scan_text.specs.Text.{first};
ghost use Rattle.scan_text.specs.View.{left_bytes};
ghost use Rattle.grammar.specs.Cutting.{NextBy};
ghost use Rattle.grammar.specs.Cutting.{Token as Cut};
ghost use Rattle.grammar.specs.Placed.{token_at};
ghost use Rattle.grammar.specs.Reading.{Gives};
ghost use Rattle.hack_asm.specs.HackTokens.{tokens_of, finish};

use grammar::{Fault, KindCutter, LineKind, Placed, ReadError, cut_lines, line_end};
use scan_text::{Place, Scan};
use std::alloc::Global;

/// What a token is: a binary digit or a line end.
#[derive(Clone, Copy)]
pub enum Kind {
    Digit(bool),
    LineEnd,
}

impl LineKind for Kind {
    ghost use Rattle.hack_asm.specs.HackTokens.{piece, is_line_end};
    ghost use Rattle.hack_asm.specs.declared.hack_tokens.Kind.TheVariants.{LineEnd};

    ghost piece = { piece };

    ghost line_end_kind = { LineEnd };

    ghost is_line_end = { is_line_end };

    fn line_end() -> Kind {
        Kind::LineEnd
    }

    fn is_line_end(self) -> bool {
        matches!(self, Kind::LineEnd)
    }
}

/// A token, and the place where it begins.
pub type Token = Placed<Kind>;

fn digit(scan: &mut Scan, byte: u8, bit: bool) -> Result<Option<Token>, Fault>
    requires { first (left_bytes scan.old) ≡ Some byte }
    ensures { NextBy (λ t. t) (Cut (token_at (Kind.Digit bit)) 0) scan.old result scan.new }
{
    let place = scan.place();
    scan.skip(1);
    Ok(Some(Placed {
        kind: Kind::Digit(bit),
        place,
    }))
}

impl KindCutter for Kind {
    fn next(scan: &mut Scan, byte: u8) -> Result<Option<Token>, Fault> {
        if byte == b'0' {
            return digit(scan, byte, false);
        }
        if byte == b'1' {
            return digit(scan, byte, true);
        }
        line_end(scan)
    }
}

/// The tokens of a `.hack` text, and the place of its end.
pub fn tokens(alloc: Global, text: &[u8]) -> Result<(Vec<Token>, Place), ReadError>
    ensures tokens { Gives (λ x. x.0.items) result (tokens_of text.now) }
    ensures end { IfOk result (λ x. x.1 ≡ finish text.now) }
{
    cut_lines(alloc, text)
}
