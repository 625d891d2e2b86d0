//! Tokens of HDL texts.

ghost use Rattle.std.specs.Prelude.{◌≡◌};
ghost use Rattle.hdl_parser.specs.Tokens.{keyword_of, keyword_text};

use scan_text::Place;

/// The words that no name may be.
#[derive(Clone, Copy, PartialEq, Eq)]
pub enum Keyword {
    Chip,
    In,
    Out,
    Parts,
    Builtin,
    Clocked,
    True,
    False,
}

/// What a token is. A symbol of one byte is given by its byte, `..` is `Dots`, a number is given by its value, where one
/// over 1,000,000,000 is 1,000,000,001.
#[derive(Clone, Copy)]
pub enum Kind {
    Keyword(Keyword),
    Symbol(u8),
    Dots,
    Number(u32),
    Name,
}

/// A token, with its slice of the source and the place where it begins.
#[derive(Clone, Copy)]
pub struct Token<'a> {
    pub kind: Kind,
    pub text: &'a [u8],
    pub place: Place,
}

impl Keyword {
    /// What the keyword is written as.
    pub fn text(self) -> &'static str
        ensures { result.now ≡ keyword_text self }
    {
        match self {
            Keyword::Chip => "CHIP",
            Keyword::In => "IN",
            Keyword::Out => "OUT",
            Keyword::Parts => "PARTS",
            Keyword::Builtin => "BUILTIN",
            Keyword::Clocked => "CLOCKED",
            Keyword::True => "true",
            Keyword::False => "false",
        }
    }

    /// The keyword that is spelled so.
    pub fn of(text: &[u8]) -> Option<Keyword>
        ensures { result ≡ keyword_of text.now }
    {
        if text == b"CHIP".as_slice() {
            return Some(Keyword::Chip);
        }
        if text == b"IN".as_slice() {
            return Some(Keyword::In);
        }
        if text == b"OUT".as_slice() {
            return Some(Keyword::Out);
        }
        if text == b"PARTS".as_slice() {
            return Some(Keyword::Parts);
        }
        if text == b"BUILTIN".as_slice() {
            return Some(Keyword::Builtin);
        }
        if text == b"CLOCKED".as_slice() {
            return Some(Keyword::Clocked);
        }
        if text == b"true".as_slice() {
            return Some(Keyword::True);
        }
        if text == b"false".as_slice() {
            return Some(Keyword::False);
        }
        None
    }
}
