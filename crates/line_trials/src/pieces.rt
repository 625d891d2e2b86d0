//! The texts of a table: lines that begin with a bar or a colon, and how often each stands.
use crate::numbers::number_of;
use itoa::Buffer;
use std::alloc::{AllocError, Global};

/// A piece of a text, how often it stands, and whether its number stands in it and a line ends after it.
#[derive(Clone, Copy)]
pub(crate) struct Piece<'a> {
    times: u32,
    numbered: bool,
    ends: bool,
    text: &'a [u8],
}

// How often a piece stands, and whether it is numbered, by what is before its bar or colon.
fn head_of(head: &[u8]) -> Option<(u32, bool)> {
    if head.is_empty() {
        return Some((1, false));
    }
    match head.strip_suffix(b"#") {
        Some(digits) => Some((number_of(digits)?, true)),
        None => Some((number_of(head)?, false)),
    }
}

/// The piece that a line of a table is, if it is one.
pub(crate) fn piece_of(line: &[u8]) -> Option<Piece<'_>> {
    let at = line.iter().position(|byte| *byte == b'|' || *byte == b':')?;
    let (times, numbered) = head_of(line.get(..at)?)?;
    Some(Piece {
        times,
        numbered,
        ends: *line.get(at)? == b'|',
        text: line.get(at.saturating_add(1)..)?,
    })
}

impl Piece<'_> {
    /// Whether anything but line ends stands there.
    pub(crate) fn says_something(&self) -> bool {
        self.times > 0 && !self.text.is_empty()
    }
}

/// A text with a number in the place of each `%`, the next one in that of each `#`, and a line end in that of each `~`.
pub(crate) fn put_numbered(
    text: &mut Vec<u8>,
    piece: &[u8],
    number: u32,
) -> Result<(), AllocError> {
    for byte in piece {
        let mut digits = Buffer::new();
        match *byte {
            b'%' => text.extend_from_slice(digits.format(number).as_bytes())?,
            b'#' => text.extend_from_slice(digits.format(number.saturating_add(1)).as_bytes())?,
            b'~' => text.push(b'\n')?,
            _ => text.push(*byte)?,
        }
    }
    Ok(())
}

// A piece once, with this number.
fn put_once(text: &mut Vec<u8>, piece: &Piece<'_>, number: u32) -> Result<(), AllocError> {
    if piece.numbered {
        put_numbered(text, piece.text, number)?;
    } else {
        text.extend_from_slice(piece.text)?;
    }
    if piece.ends {
        text.push(b'\n')?;
    }
    Ok(())
}

fn put_piece(text: &mut Vec<u8>, piece: &Piece<'_>) -> Result<(), AllocError> {
    for number in 0..piece.times {
        put_once(text, piece, number)?;
    }
    Ok(())
}

/// The text of the pieces that the first lines are.
pub(crate) fn text_of(alloc: Global, lines: &[&[u8]]) -> Result<Vec<u8>, AllocError> {
    let mut text = Vec::new(alloc);
    for line in lines {
        let Some(piece) = piece_of(line) else {
            break;
        };
        put_piece(&mut text, &piece)?;
    }
    Ok(text)
}
