//! The tokens of a VM text.

ghost use Rattle.std.specs.Prelude.{◌≡◌, true, map, Some, Result, IfOk};
ghost use Rattle.scan_text.specs.Text.{first, is_digit};
ghost use Rattle.scan_text.specs.View.{left_bytes};
ghost use Rattle.grammar.specs.Cutting.{NextBy};
ghost use Rattle.grammar.specs.Reading.{Gives};
ghost use Rattle.vm_parser.specs.Roles.{segment_role_of, operation_role_of, role_of};
ghost use Rattle.vm_parser.specs.Tokens.{view, tokens_of, finish, begins_name, is_name_byte, begins_if_goto, number_piece, name_piece, word_piece, if_goto_piece};

use crate::token::{Kind, Role, Token};
use grammar::{Fault, LineCutter, LineToken, ReadError, comment, cut_lines, line_end};
use scan_text::{Place, Scan};
use std::alloc::Global;
use std::str::from_utf8;
use vm_tree::{Operation, Segment};

fn segment_role_of(text: &[u8]) -> Role
    ensures { result ≡ segment_role_of text.now }
{
    if text == b"argument".as_slice() {
        return Role::Segment(Segment::Argument);
    }
    if text == b"local".as_slice() {
        return Role::Segment(Segment::Local);
    }
    if text == b"static".as_slice() {
        return Role::Segment(Segment::Static);
    }
    if text == b"constant".as_slice() {
        return Role::Segment(Segment::Constant);
    }
    if text == b"this".as_slice() {
        return Role::Segment(Segment::This);
    }
    if text == b"that".as_slice() {
        return Role::Segment(Segment::That);
    }
    if text == b"pointer".as_slice() {
        return Role::Segment(Segment::Pointer);
    }
    if text == b"temp".as_slice() {
        return Role::Segment(Segment::Temp);
    }
    Role::Plain
}

fn operation_role_of(text: &[u8]) -> Role
    ensures { result ≡ operation_role_of text.now }
{
    if text == b"add".as_slice() {
        return Role::Operation(Operation::Add);
    }
    if text == b"sub".as_slice() {
        return Role::Operation(Operation::Sub);
    }
    if text == b"neg".as_slice() {
        return Role::Operation(Operation::Neg);
    }
    if text == b"eq".as_slice() {
        return Role::Operation(Operation::Eq);
    }
    if text == b"gt".as_slice() {
        return Role::Operation(Operation::Gt);
    }
    if text == b"lt".as_slice() {
        return Role::Operation(Operation::Lt);
    }
    if text == b"and".as_slice() {
        return Role::Operation(Operation::And);
    }
    if text == b"or".as_slice() {
        return Role::Operation(Operation::Or);
    }
    if text == b"not".as_slice() {
        return Role::Operation(Operation::Not);
    }
    if text == b"shiftleft".as_slice() {
        return Role::Operation(Operation::ShiftLeft);
    }
    if text == b"shiftright".as_slice() {
        return Role::Operation(Operation::ShiftRight);
    }
    segment_role_of(text)
}

fn role_of(text: &[u8]) -> Role
    ensures { result ≡ role_of text.now }
{
    if text == b"push".as_slice() {
        return Role::Push;
    }
    if text == b"pop".as_slice() {
        return Role::Pop;
    }
    if text == b"label".as_slice() {
        return Role::Label;
    }
    if text == b"goto".as_slice() {
        return Role::Goto;
    }
    if text == b"if-goto".as_slice() {
        return Role::IfGoto;
    }
    if text == b"call".as_slice() {
        return Role::Call;
    }
    if text == b"function".as_slice() {
        return Role::Function;
    }
    if text == b"return".as_slice() {
        return Role::Return;
    }
    operation_role_of(text)
}

fn begins_name(b: u8) -> bool
    ensures { result ≡ begins_name b }
{
    b.is_ascii_alphabetic() || b == b'_' || b == b'.' || b == b'$' || b == b':'
}

fn is_name_byte(b: u8) -> bool
    ensures { result ≡ is_name_byte b }
{
    begins_name(b) || b.is_ascii_digit()
}

fn begins_if_goto(bytes: &[u8]) -> bool
    ensures { result ≡ begins_if_goto bytes.now }
{
    bytes.starts_with(b"if-goto")
}

// A number, which is at most 32,767.
fn number<'a>(scan: &mut Scan<'a>, byte: u8) -> Result<Option<Token<'a>>, Fault>
    requires begun { first (left_bytes scan.old) ≡ Some byte }
    requires digit { is_digit byte ≡ true }
    ensures { NextBy view (number_piece (left_bytes scan.old)) scan.old result scan.new }
{
    let place = scan.place();
    match scan.number() {
        Some(n) => {
            if n > 32_767 {
                return Err(Fault::Range(place, n.min(1_000_000_000)));
            }
            Ok(Some(Token {
                kind: Kind::Number(n as u16),
                role: Role::Plain,
                text: "",
                place,
            }))
        }
        None => Ok(None),
    }
}

// A run of the bytes of names.
fn name<'a>(scan: &mut Scan<'a>, byte: u8) -> Result<Option<Token<'a>>, Fault>
    requires begun { first (left_bytes scan.old) ≡ Some byte }
    requires letter { begins_name byte ≡ true }
    ensures { NextBy view (name_piece (left_bytes scan.old)) scan.old result scan.new }
{
    let place = scan.place();
    let bytes = scan.take_while(|b| is_name_byte(b));
    let role = role_of(bytes);
    match from_utf8(bytes) {
        Ok(text) => Ok(Some(Token {
            kind: Kind::Name,
            role,
            text,
            place,
        })),
        // The bytes of names are ASCII, so this does not come.
        Err(_) => Err(Fault::Grammar(place)),
    }
}

fn if_goto<'a>(scan: &mut Scan<'a>) -> Result<Option<Token<'a>>, Fault>
    requires { begins_if_goto (left_bytes scan.old) ≡ true }
    ensures { NextBy view if_goto_piece scan.old result scan.new }
{
    let place = scan.place();
    scan.skip(7);
    Ok(Some(Token {
        kind: Kind::IfGoto,
        role: Role::IfGoto,
        text: "if-goto",
        place,
    }))
}

// A name, or `if-goto`, which is longer than the name `if`.
fn word<'a>(scan: &mut Scan<'a>, byte: u8) -> Result<Option<Token<'a>>, Fault>
    requires begun { first (left_bytes scan.old) ≡ Some byte }
    requires letter { begins_name byte ≡ true }
    ensures { NextBy view (word_piece (left_bytes scan.old)) scan.old result scan.new }
{
    if begins_if_goto(scan.rest()) {
        if_goto(scan)
    } else {
        name(scan, byte)
    }
}

impl<'a> LineToken for Token<'a> {
    ghost use Rattle.vm_parser.specs.Tokens.{Word, view, piece, line_end_token, ends};

    ghost Word = { Word };

    ghost view = { view };

    ghost piece = { piece };

    ghost line_end_token = { line_end_token };

    ghost ends = { ends };

    fn line_end(place: Place) -> Token<'a> {
        Token {
            kind: Kind::LineEnd,
            role: Role::Plain,
            text: "",
            place,
        }
    }

    fn ends_line(&self) -> bool {
        matches!(self.kind, Kind::LineEnd)
    }
}

impl<'a> LineCutter<'a> for Token<'a> {
    fn next(scan: &mut Scan<'a>, byte: u8) -> Result<Option<Token<'a>>, Fault> {
        match byte {
            b' ' | b'\t' => {
                scan.skip(1);
                Ok(None)
            }
            b'0'..=b'9' => number(scan, byte),
            _ if begins_name(byte) => word(scan, byte),
            b'/' => comment(scan),
            _ => line_end(scan),
        }
    }
}

/// The tokens of a VM text, and the place of its end.
pub fn tokens<'a>(alloc: Global, text: &'a [u8]) -> Result<(Vec<Token<'a>>, Place), ReadError>
    ensures tokens { Gives (λ x. map view x.0.items) result (tokens_of text.now) }
    ensures end { IfOk result (λ x. x.1 ≡ finish text.now) }
{
    cut_lines(alloc, text)
}
