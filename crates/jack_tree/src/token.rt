//! Tokens.

ghost use Rattle.std.specs.Str.{IsAscii};

use scan_text::Place;

/// The words that no name may be.
#[derive(Clone, Copy, Debug, PartialEq, Eq)]
pub enum Keyword {
    Class,
    Constructor,
    Function,
    Method,
    Field,
    Static,
    Var,
    Int,
    Char,
    Boolean,
    Void,
    True,
    False,
    Null,
    This,
    Let,
    Do,
    If,
    Else,
    While,
    Return,
}

/// What a token is. A symbol is given by its byte, an integer by its value.
#[derive(Clone, Copy, Debug, PartialEq, Eq)]
pub enum Kind {
    Keyword(Keyword),
    Symbol(u8),
    Integer(u16),
    Text,
    Identifier,
}

/// A token, with its slice of the source and the place where it begins. The slice of a string has its quotes.
#[derive(Clone, Copy, Debug)]
pub struct Token<'a> {
    pub kind: Kind,
    pub text: &'a [u8],
    pub place: Place,
    // Comments alone hold other bytes.
    pub ghost ascii: { IsAscii text.now },
}
