//! The tokens of an assembly text.

ghost use Rattle.std.specs.Prelude.{◌≡◌, ◌≤◌, true, length, map, Some, Result, IfOk};
ghost use Rattle.scan_text.specs.Text.{first, is_digit};
ghost use Rattle.scan_text.specs.View.{left_bytes};
ghost use Rattle.grammar.specs.Cutting.{NextBy};
ghost use Rattle.grammar.specs.Reading.{Gives};
ghost use Rattle.hack_asm.specs.Roles.{role_among, role_of};
ghost use Rattle.hack_asm.specs.Tokens.{view, tokens_of, finish, is_letter, is_symbol_byte, is_sign, begins_left_shift, begins_right_shift, shift_piece, word_of, number_piece, symbol_piece};

use crate::token::{Kind, Letter, Operator, Role, Token};
use grammar::{Fault, LineCutter, LineToken, ReadError, comment, cut_lines, line_end};
use scan_text::{Place, Scan};
use std::alloc::Global;

// The texts that mean something in an instruction.
const ROLES: &[(&'static [u8], Role)] = &[
    (b"0", Role::Letter(Letter::Zero)),
    (b"1", Role::Letter(Letter::One)),
    (b"A", Role::Letter(Letter::A)),
    (b"D", Role::Letter(Letter::D)),
    (b"M", Role::Letter(Letter::M)),
    (b"+", Role::Operator(Operator::Plus)),
    (b"-", Role::Operator(Operator::Minus)),
    (b"&", Role::Operator(Operator::And)),
    (b"|", Role::Operator(Operator::Or)),
    (b"AD", Role::Several(0b110)),
    (b"DA", Role::Several(0b110)),
    (b"AM", Role::Several(0b101)),
    (b"MA", Role::Several(0b101)),
    (b"DM", Role::Several(0b011)),
    (b"MD", Role::Several(0b011)),
    (b"ADM", Role::Several(0b111)),
    (b"AMD", Role::Several(0b111)),
    (b"DAM", Role::Several(0b111)),
    (b"DMA", Role::Several(0b111)),
    (b"MAD", Role::Several(0b111)),
    (b"MDA", Role::Several(0b111)),
    (b"JGT", Role::Jump(0b001)),
    (b"JEQ", Role::Jump(0b010)),
    (b"JGE", Role::Jump(0b011)),
    (b"JLT", Role::Jump(0b100)),
    (b"JNE", Role::Jump(0b101)),
    (b"JLE", Role::Jump(0b110)),
    (b"JMP", Role::Jump(0b111)),
    (b"<<", Role::Shift(true)),
    (b">>", Role::Shift(false)),
];

// What the first row of this text has.
fn role_among(rows: &[(&[u8], Role)], text: &[u8]) -> Role
    ensures { result ≡ role_among (map (λ r. (r.0.now, r.1)) rows.now) text.now }
{
    for row in rows {
        if row.0 == text {
            return row.1;
        }
    }
    Role::Plain
}

fn role_of(text: &[u8]) -> Role
    ensures { result ≡ role_of text.now }
{
    role_among(ROLES, text)
}

fn is_letter(b: u8) -> bool
    ensures { result ≡ is_letter b }
{
    b.is_ascii_alphabetic() || b == b'_' || b == b'.' || b == b'$' || b == b':'
}

fn is_symbol_byte(b: u8) -> bool
    ensures { result ≡ is_symbol_byte b }
{
    is_letter(b) || b.is_ascii_digit()
}

fn is_sign(b: u8) -> bool
    ensures { result ≡ is_sign b }
{
    matches!(
        b,
        b'@' | b'(' | b')' | b'=' | b';' | b'+' | b'-' | b'!' | b'&' | b'|'
    )
}

// A number, which is at most 32,767.
fn number<'a>(scan: &mut Scan<'a>, byte: u8) -> Result<Option<Token<'a>>, Fault>
    requires begun { first (left_bytes scan.old) ≡ Some byte }
    requires digit { is_digit byte ≡ true }
    ensures { NextBy view (number_piece (left_bytes scan.old)) scan.old result scan.new }
{
    let place = scan.place();
    let mut ahead = *scan;
    match ahead.number() {
        Some(n) => {
            if n > 32_767 {
                return Err(Fault::Range(place, n.min(1_000_000_000)));
            }
            let text = scan.take_while(|b| b.is_ascii_digit());
            Ok(Some(Token {
                kind: Kind::Number(n as u16),
                role: role_of(text),
                text,
                place,
            }))
        }
        None => Ok(None),
    }
}

fn symbol<'a>(scan: &mut Scan<'a>, byte: u8) -> Result<Option<Token<'a>>, Fault>
    requires begun { first (left_bytes scan.old) ≡ Some byte }
    requires letter { is_letter byte ≡ true }
    ensures { NextBy view (symbol_piece (left_bytes scan.old)) scan.old result scan.new }
{
    let place = scan.place();
    let text = scan.take_while(|b| is_symbol_byte(b));
    let role = role_of(text);
    Ok(Some(Token {
        kind: Kind::Symbol,
        role,
        text,
        place,
    }))
}

fn sign<'a>(scan: &mut Scan<'a>, byte: u8) -> Result<Option<Token<'a>>, Fault>
    requires { first (left_bytes scan.old) ≡ Some byte }
    ensures { NextBy view
        (word_of (Kind.Sign byte) 0 (left_bytes scan.old)) scan.old result scan.new }
{
    let place = scan.place();
    let text = scan.skip(1);
    let role = role_of(text);
    Ok(Some(Token {
        kind: Kind::Sign(byte),
        role,
        text,
        place,
    }))
}

fn begins_left_shift(bytes: &[u8]) -> bool
    ensures { result ≡ begins_left_shift bytes.now }
{
    bytes.starts_with(b"<<")
}

fn begins_right_shift(bytes: &[u8]) -> bool
    ensures { result ≡ begins_right_shift bytes.now }
{
    bytes.starts_with(b">>")
}

// A token of two bytes, of which both are this one.
fn shift<'a>(scan: &mut Scan<'a>, byte: u8) -> Result<Option<Token<'a>>, Fault>
    requires { 2 ≤ length (left_bytes scan.old) }
    ensures { NextBy view
        (word_of (Kind.Sign byte) 1 (left_bytes scan.old)) scan.old result scan.new }
{
    let place = scan.place();
    let text = scan.skip(2);
    let role = role_of(text);
    Ok(Some(Token {
        kind: Kind::Sign(byte),
        role,
        text,
        place,
    }))
}

// A shift, or else a line end.
fn shift_or_line_end<'a>(scan: &mut Scan<'a>) -> Result<Option<Token<'a>>, Fault>
    ensures { NextBy view (shift_piece (left_bytes scan.old)) scan.old result scan.new }
{
    if begins_left_shift(scan.rest()) {
        return shift(scan, b'<');
    }
    if begins_right_shift(scan.rest()) {
        return shift(scan, b'>');
    }
    line_end(scan)
}

impl<'a> LineToken for Token<'a> {
    ghost use Rattle.hack_asm.specs.Tokens.{Word, view, piece, line_end_token, ends};

    ghost Word = { Word };

    ghost view = { view };

    ghost piece = { piece };

    ghost line_end_token = { line_end_token };

    ghost ends = { ends };

    fn line_end(place: Place) -> Token<'a> {
        Token {
            kind: Kind::LineEnd,
            role: Role::Plain,
            text: &[],
            place,
        }
    }

    fn ends_line(&self) -> bool {
        matches!(self.kind, Kind::LineEnd)
    }
}

impl<'a> LineCutter<'a> for Token<'a> {
    fn next(scan: &mut Scan<'a>, byte: u8) -> Result<Option<Token<'a>>, Fault> {
        if byte == b' ' || byte == b'\t' {
            scan.skip(1);
            return Ok(None);
        }
        if byte.is_ascii_digit() {
            return number(scan, byte);
        }
        if is_letter(byte) {
            return symbol(scan, byte);
        }
        if is_sign(byte) {
            return sign(scan, byte);
        }
        if byte == b'/' {
            return comment(scan);
        }
        shift_or_line_end(scan)
    }
}

/// The tokens of an assembly text, and the place of its end.
pub fn tokens<'a>(alloc: Global, text: &'a [u8]) -> Result<(Vec<Token<'a>>, Place), ReadError>
    ensures tokens { Gives (λ x. map view x.0.items) result (tokens_of text.now) }
    ensures end { IfOk result (λ x. x.1 ≡ finish text.now) }
{
    cut_lines(alloc, text)
}
