//! The loop that cuts a text into tokens.

ghost use Rattle.std.specs.Prelude.{◌≡◌, ◌<◌, ◌-◌, ◌^◌, List, ℕ, length, map, Some, None, IfOk};
ghost use Rattle.scan_text.specs.Text.{first, start, walk};
ghost use Rattle.scan_text.specs.View.{left_bytes};
ghost use Rattle.grammar.specs.Cutting.{Piece, TokenBy, cut, past_blanks, closes_with_nothing, too_long, tokens_between_blanks};
ghost use Rattle.grammar.specs.Reading.{Gives};

use crate::{Fault, ReadError, skip_blank};
use scan_text::{Place, Scan};
use std::alloc::Global;

/// The longest text that is read has this many bytes.
pub const MOST_BYTES: usize = 1_048_576;

/// The fault of a longer text: Range at 0:0.
pub fn too_long() -> Fault
    ensures { result ≡ too_long }
{
    Fault::Range(Place { line: 0, column: 0 }, 1_048_577)
}

/// The tokens of a language in which blanks and comments may stand between them.
pub trait Cutter<'a> {
    type Token: Drop;

    /// A token as the definition sees it.
    ghost Word: { Type 0 };

    ghost view: { Self.Token → Word };

    /// What begins at the front of some bytes.
    ghost piece: { List ℕ → Piece Word };

    /// The token that begins at the next byte.
    fn token(&self, scan: &mut Scan<'a>, byte: u8) -> Result<Self::Token, Fault>
        requires { first (left_bytes scan.old) ≡ Some byte }
        ensures { TokenBy view (piece (left_bytes scan.old)) scan.old result scan.new };
}

/// The tokens of a text, and the place of its end.
///
/// The fault of the first token that has one, Grammar where a comment is not closed, Range at 0:0 where the text has more than
/// 1,048,576 bytes.
pub fn cut_between_blanks<'a, C: Cutter<'a>>(
    alloc: Global,
    cutter: &C,
    text: &'a [u8],
) -> Result<(Vec<C::Token>, Place), ReadError>
    ensures tokens { Gives (λ x. map C.view x.0.items) result
        (tokens_between_blanks C.piece text.now) }
    ensures end { IfOk result (λ x. x.1 ≡ walk start text.now) }
{
    if text.len() > MOST_BYTES {
        return Err(ReadError::Fault(too_long()));
    }
    cut(alloc, cutter, text)
}

fn cut<'a, C: Cutter<'a>>(
    alloc: Global,
    cutter: &C,
    text: &'a [u8],
) -> Result<(Vec<C::Token>, Place), ReadError>
    requires { length text.now < 2 ^ 32 - 1 }
    ensures tokens { Gives (λ x. map C.view x.0.items) result
        (cut (past_blanks C.piece) closes_with_nothing None 0 start text.now) }
    ensures end { IfOk result (λ x. x.1 ≡ walk start text.now) }
{
    let mut tokens = Vec::new(alloc);
    let mut scan = Scan::new(text);
    skip_blank(&mut scan)?;
    while let Some(byte) = scan.peek() {
        let token = cutter.token(&mut scan, byte)?;
        tokens.push(token)?;
        skip_blank(&mut scan)?;
    }
    Ok((tokens, scan.place()))
}
