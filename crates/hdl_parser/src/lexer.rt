//! The tokens of an HDL text.

ghost use Rattle.std.specs.Prelude.{◌≡◌, true, map, Some, IfOk};
ghost use Rattle.scan_text.specs.Text.{first, is_digit};
ghost use Rattle.scan_text.specs.View.{left_bytes, place};
ghost use Rattle.grammar.specs.Cutting.{TokenBy};
ghost use Rattle.grammar.specs.Reading.{Gives};
ghost use Rattle.hdl_parser.specs.Tokens.{view, tokens_of, finish, number_piece, word_piece, dots_piece, symbol_piece, begins_dots, is_sign};
ghost use Rattle.hdl_tree.specs.Writable.{is_letter};

use crate::token::{Keyword, Kind, Token};
use grammar::{Cutter, Fault, ReadError, cut_between_blanks, is_letter, is_name_byte};
use scan_text::{Place, Scan};
use std::alloc::Global;

fn is_sign(byte: u8) -> bool
    ensures { result ≡ is_sign byte }
{
    matches!(
        byte,
        b'{' | b'}' | b'(' | b')' | b'[' | b']' | b',' | b';' | b':' | b'='
    )
}

fn number<'a>(scan: &mut Scan<'a>, byte: u8) -> Result<Token<'a>, Fault>
    requires begun { first (left_bytes scan.old) ≡ Some byte }
    requires digit { is_digit byte ≡ true }
    ensures { TokenBy view (number_piece (left_bytes scan.old)) scan.old result scan.new }
{
    let place = scan.place();
    let mut ahead = *scan;
    let n = ahead.number().unwrap_or(0);
    let text = scan.take_while(|b| b.is_ascii_digit());
    let kind = Kind::Number(n);
    Ok(Token { kind, text, place })
}

// A keyword or a name.
fn word<'a>(scan: &mut Scan<'a>, byte: u8) -> Result<Token<'a>, Fault>
    requires begun { first (left_bytes scan.old) ≡ Some byte }
    requires letter { is_letter byte ≡ true }
    ensures { TokenBy view (word_piece (left_bytes scan.old)) scan.old result scan.new }
{
    let place = scan.place();
    let text = scan.take_while(|b| is_name_byte(b));
    let kind = Keyword::of(text).map_or(Kind::Name, Kind::Keyword);
    Ok(Token { kind, text, place })
}

fn symbol<'a>(scan: &mut Scan<'a>, byte: u8) -> Result<Token<'a>, Fault>
    requires { first (left_bytes scan.old) ≡ Some byte }
    ensures { TokenBy view (symbol_piece byte (left_bytes scan.old)) scan.old result scan.new }
{
    let place = scan.place();
    let text = scan.skip(1);
    Ok(Token {
        kind: Kind::Symbol(byte),
        text,
        place,
    })
}

fn begins_dots(bytes: &[u8]) -> bool
    ensures { result ≡ begins_dots bytes.now }
{
    bytes.starts_with(b"..")
}

// Two dots, the only token that begins with a dot.
fn dots<'a>(scan: &mut Scan<'a>) -> Result<Token<'a>, Fault>
    ensures { TokenBy view (dots_piece (left_bytes scan.old)) scan.old result scan.new }
{
    let place = scan.place();
    if begins_dots(scan.rest()) {
        let text = scan.skip(2);
        Ok(Token {
            kind: Kind::Dots,
            text,
            place,
        })
    } else {
        Err(Fault::Grammar(place))
    }
}

/// The tokens of an HDL text, and the place of its end.
///
/// Grammar where a byte begins no token and where a comment is not closed, Range at 0:0 where the text has more than 1,048,576 bytes.
pub fn tokens<'a>(alloc: Global, text: &'a [u8]) -> Result<(Vec<Token<'a>>, Place), ReadError>
    ensures tokens { Gives (λ x. map view x.0.items) result (tokens_of text.now) }
    ensures end { IfOk result (λ x. x.1 ≡ finish text.now) }
{
    cut_between_blanks(alloc, &HdlTokens, text)
}

struct HdlTokens;

impl<'a> Cutter<'a> for HdlTokens {
    ghost use Rattle.hdl_parser.specs.Tokens.{view, piece, Word};

    type Token = Token<'a>;

    ghost Word = { Word };

    ghost view = { view };

    ghost piece = { piece };

    fn token(&self, scan: &mut Scan<'a>, byte: u8) -> Result<Token<'a>, Fault> {
        if is_letter(byte) {
            return word(scan, byte);
        }
        if is_sign(byte) {
            return symbol(scan, byte);
        }
        if byte.is_ascii_digit() {
            return number(scan, byte);
        }
        dots(scan)
    }
}
