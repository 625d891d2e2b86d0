//! The tokens of a Jack text.

ghost use Rattle.std.specs.Prelude.{◌≡◌, ◌≤◌, true, length, map, Some, IfOk};
ghost use Rattle.scan_text.specs.Text.{first, front, start, is_digit};
ghost use Rattle.scan_text.specs.View.{left_bytes, place};
ghost use Rattle.grammar.specs.Cutting.{TokenBy};
ghost use Rattle.grammar.specs.Reading.{Gives};
ghost use Rattle.jack_tree.specs.Tokens.{view, StandIn};
ghost use Rattle.grammar.specs.Words.{is_letter};
ghost use Rattle.jack_lexer.specs.Tokens.{tokens_of, finish, number_piece, word_piece, text_piece, symbol_piece, is_text_byte, is_sign};

use grammar::{Cutter, Fault, ReadError, cut_between_blanks, is_letter, is_name_byte};
use jack_tree::{Keyword, Kind, Token};
use scan_text::{Place, Scan};
use std::alloc::Global;

// A byte that may stand in a string.
fn is_text_byte(byte: u8) -> bool
    ensures { result ≡ is_text_byte byte }
{
    (byte == b'\t' || (b' ' <= byte && byte <= b'~')) && byte != b'"'
}

fn is_sign(byte: u8) -> bool
    ensures { result ≡ is_sign byte }
{
    matches!(
        byte,
        b'{' | b'}'
            | b'('
            | b')'
            | b'['
            | b']'
            | b'.'
            | b','
            | b';'
            | b'+'
            | b'-'
            | b'*'
            | b'/'
            | b'&'
            | b'|'
            | b'<'
            | b'>'
            | b'='
            | b'~'
            | b'^'
            | b'#'
    )
}

// An integer, at most 32,767.
fn number<'a>(scan: &mut Scan<'a>, byte: u8) -> Result<Token<'a>, Fault>
    requires begun { first (left_bytes scan.old) ≡ Some byte }
    requires digit { is_digit byte ≡ true }
    ensures { TokenBy view (number_piece (left_bytes scan.old)) scan.old result scan.new }
{
    let place = scan.place();
    let mut ahead = *scan;
    let n = ahead.number().unwrap_or(0);
    if n > 32_767 {
        return Err(Fault::Range(place, n.min(1_000_000_000)));
    }
    let text = scan.take_while(|b| b.is_ascii_digit());
    let kind = Kind::Integer(n as u16);
    Ok(Token { kind, text, place })
}

// A keyword or an identifier.
fn word<'a>(scan: &mut Scan<'a>, byte: u8) -> Result<Token<'a>, Fault>
    requires begun { first (left_bytes scan.old) ≡ Some byte }
    requires letter { is_letter byte ≡ true }
    ensures { TokenBy view (word_piece (left_bytes scan.old)) scan.old result scan.new }
{
    let place = scan.place();
    let text = scan.take_while(|b| is_name_byte(b));
    let kind = Keyword::of(text).map_or(Kind::Identifier, Kind::Keyword);
    Ok(Token { kind, text, place })
}

fn symbol<'a>(scan: &mut Scan<'a>, byte: u8) -> Result<Token<'a>, Fault>
    requires begun { first (left_bytes scan.old) ≡ Some byte }
    requires sign { is_sign byte ≡ true }
    ensures { TokenBy view (symbol_piece byte (left_bytes scan.old)) scan.old result scan.new }
{
    let place = scan.place();
    let text = scan.skip(1);
    Ok(Token {
        kind: Kind::Symbol(byte),
        text,
        place,
    })
}

// A text in double quotes, which is closed.
fn quoted<'a>(scan: &mut Scan<'a>) -> Result<Token<'a>, Fault>
    requires { first (left_bytes scan.old) ≡ Some 34 }
    ensures { TokenBy view (text_piece (left_bytes scan.old)) scan.old result scan.new }
{
    let place = scan.place();
    let from = scan.rest();
    let run = text_len(&from[1..]);
    if run + 1 < from.len() && from[run + 1] == b'"' {
        let text = scan.skip(run + 2);
        Ok(Token {
            kind: Kind::Text,
            text,
            place,
        })
    } else {
        Err(Fault::Grammar(place))
    }
}

fn text_len(bytes: &[u8]) -> usize
    ensures length { result ≡ length (front is_text_byte bytes.now) }
    ensures within { result ≤ length bytes.now }
{
    let mut n = 0;
    let mut rest = bytes;
    while let Some((byte, tail)) = rest.split_first() {
        if !is_text_byte(*byte) {
            return n;
        }
        n += 1;
        rest = tail;
    }
    n
}

/// The tokens of a Jack text, and the place of its end.
///
/// Grammar where a byte begins no token and where a string or a comment is not closed. Range at an integer over 32,767, and at 0:0
/// where the text has more than 1,048,576 bytes.
pub fn tokens<'a>(alloc: Global, text: &'a [u8]) -> Result<(Vec<Token<'a>>, Place), ReadError>
    ensures tokens { Gives (λ x. map view x.0.items) result (tokens_of text.now) }
    ensures end { IfOk result (λ x. x.1 ≡ finish text.now) }
    // Each token's text is a slice of the source, at the token's place, and they follow each other in order.
    ensures slices { IfOk result (λ x. StandIn start text.now (map view x.0.items)) }
{
    cut_between_blanks(alloc, &JackTokens, text)
}

struct JackTokens;

impl<'a> Cutter<'a> for JackTokens {
    ghost use Rattle.jack_tree.specs.Tokens.{view, Word};
    ghost use Rattle.jack_lexer.specs.Tokens.{piece};

    type Token = Token<'a>;

    ghost Word = { Word };

    ghost view = { view };

    ghost piece = { piece };

    fn token(&self, scan: &mut Scan<'a>, byte: u8) -> Result<Token<'a>, Fault> {
        if is_letter(byte) {
            return word(scan, byte);
        }
        if is_sign(byte) {
            return symbol(scan, byte);
        }
        match byte {
            b'0'..=b'9' => number(scan, byte),
            b'"' => quoted(scan),
            _ => Err(Fault::Grammar(scan.place())),
        }
    }
}
