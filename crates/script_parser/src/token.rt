//! Tokens of test scripts.

ghost use Rattle.std.specs.Prelude.{◌+◌, ◌≤◌, ◌^◌, length};

use scan_text::Place;

/// What a word is at the begin of a command; `load` also after `ROM32K`. No word is reserved: anywhere else each is a plain one.
#[derive(Clone, Copy, PartialEq, Eq)]
pub enum Role {
    Plain,
    Eval,
    Tick,
    Tock,
    TickTock,
    Output,
    Load,
    OutputFile,
    CompareTo,
    OutputList,
    Set,
    Echo,
    Rom,
    Repeat,
}

/// What a token is: a text in quotes, a sign of one byte, or a word.
#[derive(Clone, Copy)]
pub enum Kind {
    Text,
    Sign(u8),
    Word(Role),
}

/// A token, with its slice of the source (of a text what stands between the quotes) and the place where it begins.
#[derive(Clone, Copy)]
pub struct Token<'a> {
    pub kind: Kind,
    pub text: &'a [u8],
    pub place: Place,
    ghost counted: { place.line + place.column + length text.now ≤ 2 ^ 32 },
    ghost line_from_one: { 1 ≤ place.line },
    ghost column_from_one: { 1 ≤ place.column },
}
