//! The loop that cuts a text whose line ends are tokens.

ghost use Rattle.std.specs.Prelude.{◌≡◌, ◌<◌, ◌-◌, ◌^◌, ◌++◌, Bool, List, ℕ, length, map, Some, None, OnOk, IfOk};
ghost use Rattle.scan_text.specs.declared.Place.{Place};
ghost use Rattle.scan_text.specs.Text.{first, start, walk};
ghost use Rattle.scan_text.specs.View.{left_bytes};
ghost use Rattle.grammar.specs.Cutting.{Piece, NextBy, cut, cut_text, last_of};
ghost use Rattle.grammar.specs.Lines.{comment_piece, line_end_piece, is_open, close};
ghost use Rattle.grammar.specs.Placed.{token_at};
ghost use Rattle.grammar.specs.Reading.{Gives};
ghost use Rattle.grammar.specs.declared.lines.Placed.{Placed};

use crate::cutting::{MOST_BYTES, too_long};
use crate::{Fault, ReadError};
use scan_text::{Place, Scan};
use std::alloc::{AllocError, Global};

/// A token of a language that is read by lines: some are line ends. (A language in which line ends say nothing has a `Cutter`.)
pub trait LineToken: Drop {
    /// A token as the definition sees it.
    ghost Word: { Type 0 };

    ghost view: { Self → Word };

    /// What begins at the front of some bytes.
    ghost piece: { List ℕ → Piece Word };

    /// The line end at a place, and which tokens are line ends.
    ghost line_end_token: { Place → Word };

    ghost ends: { Word → Bool };

    /// The line end at this place.
    fn line_end(place: Place) -> Self
        ensures { view result ≡ line_end_token place };

    /// Is the token a line end?
    fn ends_line(&self) -> bool
        ensures { result ≡ ends (view self.now) };
}

/// A token that is read from a text.
pub trait LineCutter<'a>: LineToken {
    /// What begins at the next byte: a token, or something that is passed over.
    fn next(scan: &mut Scan<'a>, byte: u8) -> Result<Option<Self>, Fault>
        requires { first (left_bytes scan.old) ≡ Some byte }
        ensures { NextBy Self.view (Self.piece (left_bytes scan.old)) scan.old result scan.new };
}

/// What a token is in a language whose tokens are a kind and a place, and no more.
pub trait LineKind: Copy {
    /// What begins at the front of some bytes.
    ghost piece: { List ℕ → Piece (Placed Self) };

    /// The kind of a line end, and which kinds are line ends.
    ghost line_end_kind: { Self };

    ghost is_line_end: { Self → Bool };

    /// The kind of a line end.
    fn line_end() -> Self
        ensures { result ≡ line_end_kind };

    /// Is this the kind of a line end?
    fn is_line_end(self) -> bool
        ensures { result ≡ is_line_end self };
}

/// Such a kind, whose tokens are read from a text.
pub trait KindCutter: LineKind {
    /// What begins at the next byte: a token, or something that is passed over.
    fn next(scan: &mut Scan, byte: u8) -> Result<Option<Placed<Self>>, Fault>
        requires { first (left_bytes scan.old) ≡ Some byte }
        ensures { NextBy (λ t. t) (Self.piece (left_bytes scan.old)) scan.old result scan.new };
}

/// A token of a kind, and the place where it begins.
#[derive(Clone, Copy)]
pub struct Placed<K> {
    pub kind: K,
    pub place: Place,
}

impl<K: LineKind> LineToken for Placed<K> {
    ghost Word = { Placed K };

    ghost view = { λ t. t };

    ghost piece = { K.piece };

    ghost line_end_token = { token_at K.line_end_kind };

    ghost ends = { λ t. K.is_line_end t.kind };

    fn line_end(place: Place) -> Placed<K> {
        Placed {
            kind: K::line_end(),
            place,
        }
    }

    fn ends_line(&self) -> bool {
        self.kind.is_line_end()
    }
}

impl<'a, K: KindCutter> LineCutter<'a> for Placed<K> {
    fn next(scan: &mut Scan<'a>, byte: u8) -> Result<Option<Placed<K>>, Fault> {
        K::next(scan, byte)
    }
}

/// Goes over a comment of two slashes, up to the end of its line. Grammar, where the slash stands alone.
pub fn comment<T: LineToken>(scan: &mut Scan) -> Result<Option<T>, Fault>
    requires { first (left_bytes scan.old) ≡ Some 47 }
    ensures { NextBy T.view (comment_piece (left_bytes scan.old)) scan.old result scan.new }
{
    let mut ahead = *scan;
    ahead.skip(1);
    match ahead.peek() {
        Some(b'/') => {
            scan.line();
            Ok(None)
        }
        _ => Err(Fault::Grammar(scan.place())),
    }
}

/// The line end that begins here. Grammar, where none does.
pub fn line_end<T: LineToken>(scan: &mut Scan) -> Result<Option<T>, Fault>
    ensures { NextBy T.view (line_end_piece T.line_end_token (left_bytes scan.old)) scan.old
        result scan.new }
{
    let place = scan.place();
    if scan.line_end() {
        Ok(Some(T::line_end(place)))
    } else {
        Err(Fault::Grammar(place))
    }
}

// The last line has begun and has no line end.
fn is_open<T: LineToken>(tokens: &[T]) -> bool
    ensures { result ≡ is_open T.ends (last_of (map T.view tokens.now)) }
{
    match tokens.last() {
        Some(token) => !token.ends_line(),
        None => false,
    }
}

// What stands at the end of the text.
fn close<T: LineToken>(tokens: &mut Vec<T>, place: Place) -> Result<(), AllocError>
    ensures { OnOk result (map T.view tokens.new.items ≡ map T.view tokens.old.items
        ++ close T.line_end_token T.ends (last_of (map T.view tokens.old.items)) place) }
{
    if is_open(tokens) {
        tokens.push(T::line_end(place))?;
    }
    Ok(())
}

fn cut<'a, T: LineCutter<'a>>(alloc: Global, text: &'a [u8]) -> Result<(Vec<T>, Place), ReadError>
    requires { length text.now < 2 ^ 32 - 1 }
    ensures tokens { Gives (λ x. map T.view x.0.items) result
        (cut T.piece (close T.line_end_token T.ends) None 0 start text.now) }
    ensures end { IfOk result (λ x. x.1 ≡ walk start text.now) }
{
    let mut tokens = Vec::new(alloc);
    let mut scan = Scan::new(text);
    while let Some(byte) = scan.peek() {
        if let Some(token) = T::next(&mut scan, byte)? {
            tokens.push(token)?;
        }
    }
    let end = scan.place();
    close(&mut tokens, end)?;
    Ok((tokens, end))
}

/// The tokens of a text, the line end that its last line lacks with them, and the place of its end.
///
/// Range at 0:0 where the text has more than 1,048,576 bytes, else the first fault of a token.
pub fn cut_lines<'a, T: LineCutter<'a>>(
    alloc: Global,
    text: &'a [u8],
) -> Result<(Vec<T>, Place), ReadError>
    ensures tokens { Gives (λ x. map T.view x.0.items) result
        (cut_text T.piece (close T.line_end_token T.ends) text.now) }
    ensures end { IfOk result (λ x. x.1 ≡ walk start text.now) }
{
    if text.len() > MOST_BYTES {
        return Err(ReadError::Fault(too_long()));
    }
    cut(alloc, text)
}
