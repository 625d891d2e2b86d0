//! The tokens of a test script.

ghost use Rattle.std.specs.Prelude.{◌≡◌, ◌+◌, ◌≤◌, ◌^◌, drop, length, map, Some, IfOk};
ghost use Rattle.scan_text.specs.Blanks.{is_blank};
ghost use Rattle.scan_text.specs.Text.{first};
ghost use Rattle.scan_text.specs.View.{left_bytes, place};
ghost use Rattle.grammar.specs.Cutting.{TokenBy};
ghost use Rattle.grammar.specs.Reading.{Gives};
ghost use Rattle.script_parser.specs.Tokens.{view, tokens_of, finish, role_of, is_sign, is_text_byte, begins_comment, ends_word, word_front, sign_piece, word_piece, text_piece};

use crate::token::{Kind, Role, Token};
use grammar::{Cutter, Fault, ReadError, cut_between_blanks};
use scan_text::{Place, Scan};
use std::alloc::Global;

fn role_of(text: &[u8]) -> Role
    ensures { result ≡ role_of text.now }
{
    if text == b"eval".as_slice() {
        return Role::Eval;
    }
    if text == b"tick".as_slice() {
        return Role::Tick;
    }
    if text == b"tock".as_slice() {
        return Role::Tock;
    }
    if text == b"ticktock".as_slice() {
        return Role::TickTock;
    }
    if text == b"output".as_slice() {
        return Role::Output;
    }
    if text == b"load".as_slice() {
        return Role::Load;
    }
    if text == b"output-file".as_slice() {
        return Role::OutputFile;
    }
    if text == b"compare-to".as_slice() {
        return Role::CompareTo;
    }
    if text == b"output-list".as_slice() {
        return Role::OutputList;
    }
    if text == b"set".as_slice() {
        return Role::Set;
    }
    if text == b"echo".as_slice() {
        return Role::Echo;
    }
    if text == b"ROM32K".as_slice() {
        return Role::Rom;
    }
    if text == b"repeat".as_slice() {
        return Role::Repeat;
    }
    Role::Plain
}

fn is_blank(byte: u8) -> bool
    ensures { result ≡ is_blank byte }
{
    matches!(byte, b' ' | b'\t' | b'\n' | b'\r')
}

fn is_sign(byte: u8) -> bool
    ensures { result ≡ is_sign byte }
{
    matches!(byte, b',' | b';' | b'!' | b'{' | b'}')
}

fn is_text_byte(byte: u8) -> bool
    ensures { result ≡ is_text_byte byte }
{
    !matches!(byte, b'"' | b'\n' | b'\r')
}

// A comment begins at a byte, with these bytes after it.
fn begins_comment(byte: u8, behind: &[u8]) -> bool
    ensures { result ≡ begins_comment byte behind.now }
{
    let Some(next) = behind.first() else {
        return false;
    };
    byte == b'/' && (*next == b'/' || *next == b'*')
}

fn ends_word(byte: u8, behind: &[u8]) -> bool
    ensures { result ≡ ends_word byte behind.now }
{
    is_blank(byte) || is_sign(byte) || byte == b'"' || begins_comment(byte, behind)
}

// How many bytes a word that has begun goes on.
fn word_len(bytes: &[u8]) -> usize
    ensures value { result ≡ length (word_front bytes.now) }
    ensures within { result ≤ length bytes.now }
{
    let mut n = 0;
    let mut rest = bytes;
    while let Some((byte, tail)) = rest.split_first() {
        if ends_word(*byte, tail) {
            return n;
        }
        n += 1;
        rest = tail;
    }
    n
}

fn word<'a>(scan: &mut Scan<'a>, byte: u8) -> Result<Token<'a>, Fault>
    requires { first (left_bytes scan.old) ≡ Some byte }
    ensures { TokenBy view (word_piece (left_bytes scan.old)) scan.old result scan.new }
{
    let place = scan.place();
    let mut ahead = *scan;
    ahead.skip(1);
    let more = word_len(ahead.rest());
    let text = scan.skip(more + 1);
    let role = role_of(text);
    Ok(Token {
        kind: Kind::Word(role),
        text,
        place,
    })
}

fn sign<'a>(scan: &mut Scan<'a>, byte: u8) -> Result<Token<'a>, Fault>
    requires { first (left_bytes scan.old) ≡ Some byte }
    ensures { TokenBy view (sign_piece byte (left_bytes scan.old)) scan.old result scan.new }
{
    let place = scan.place();
    let text = scan.skip(1);
    Ok(Token {
        kind: Kind::Sign(byte),
        text,
        place,
    })
}

// A text in quotes, which is closed on its line.
fn quoted<'a>(scan: &mut Scan<'a>, byte: u8) -> Result<Token<'a>, Fault>
    requires { first (left_bytes scan.old) ≡ Some byte }
    ensures { TokenBy view (text_piece (left_bytes scan.old)) scan.old result scan.new }
{
    let place = scan.place();
    let mut ahead = *scan;
    ahead.skip(1);
    let text = ahead.take_while(|b| is_text_byte(b));
    let Some(b'"') = ahead.peek() else {
        return Err(Fault::Grammar(place));
    };
    scan.skip(text.len() + 2);
    Ok(Token {
        kind: Kind::Text,
        text,
        place,
    })
}

/// The tokens of a test script, and the place of its end.
///
/// Grammar where a text in quotes or a comment is not closed, Range at 0:0 where the script has more than 1,048,576 bytes.
pub fn tokens<'a>(alloc: Global, text: &'a [u8]) -> Result<(Vec<Token<'a>>, Place), ReadError>
    ensures tokens { Gives (λ x. map view x.0.items) result (tokens_of text.now) }
    ensures end { IfOk result (λ x. x.1 ≡ finish text.now) }
{
    cut_between_blanks(alloc, &ScriptTokens, text)
}

struct ScriptTokens;

impl<'a> Cutter<'a> for ScriptTokens {
    ghost use Rattle.script_parser.specs.Tokens.{view, piece, Word};

    type Token = Token<'a>;

    ghost Word = { Word };

    ghost view = { view };

    ghost piece = { piece };

    fn token(&self, scan: &mut Scan<'a>, byte: u8) -> Result<Token<'a>, Fault> {
        if byte == b'"' {
            return quoted(scan, byte);
        }
        if is_sign(byte) {
            return sign(scan, byte);
        }
        word(scan, byte)
    }
}
