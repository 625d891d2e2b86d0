//! How keywords are written.

ghost use Rattle.std.specs.Prelude.{◌≡◌};
ghost use Rattle.jack_tree.specs.Tokens.{keyword_of, keyword_text, type_keyword_of, constant_keyword_of, statement_keyword_of};

use crate::token::Keyword;

impl Keyword {
    /// What the keyword is written as.
    pub fn text(self) -> &'static str
        ensures { result.now ≡ keyword_text self }
    {
        match self {
            Keyword::Class => "class",
            Keyword::Constructor => "constructor",
            Keyword::Function => "function",
            Keyword::Method => "method",
            Keyword::Field => "field",
            Keyword::Static => "static",
            Keyword::Var => "var",
            Keyword::Int => "int",
            Keyword::Char => "char",
            Keyword::Boolean => "boolean",
            Keyword::Void => "void",
            Keyword::True => "true",
            Keyword::False => "false",
            Keyword::Null => "null",
            Keyword::This => "this",
            Keyword::Let => "let",
            Keyword::Do => "do",
            Keyword::If => "if",
            Keyword::Else => "else",
            Keyword::While => "while",
            Keyword::Return => "return",
        }
    }

    /// The keyword that is spelled so.
    pub fn of(text: &[u8]) -> Option<Keyword>
        ensures { result ≡ keyword_of text.now }
    {
        if text == b"class".as_slice() {
            return Some(Keyword::Class);
        }
        if text == b"constructor".as_slice() {
            return Some(Keyword::Constructor);
        }
        if text == b"function".as_slice() {
            return Some(Keyword::Function);
        }
        if text == b"method".as_slice() {
            return Some(Keyword::Method);
        }
        if text == b"field".as_slice() {
            return Some(Keyword::Field);
        }
        if text == b"static".as_slice() {
            return Some(Keyword::Static);
        }
        if text == b"var".as_slice() {
            return Some(Keyword::Var);
        }
        type_keyword(text)
    }
}

fn type_keyword(text: &[u8]) -> Option<Keyword>
    ensures { result ≡ type_keyword_of text.now }
{
    if text == b"int".as_slice() {
        return Some(Keyword::Int);
    }
    if text == b"char".as_slice() {
        return Some(Keyword::Char);
    }
    if text == b"boolean".as_slice() {
        return Some(Keyword::Boolean);
    }
    if text == b"void".as_slice() {
        return Some(Keyword::Void);
    }
    constant_keyword(text)
}

fn constant_keyword(text: &[u8]) -> Option<Keyword>
    ensures { result ≡ constant_keyword_of text.now }
{
    if text == b"true".as_slice() {
        return Some(Keyword::True);
    }
    if text == b"false".as_slice() {
        return Some(Keyword::False);
    }
    if text == b"null".as_slice() {
        return Some(Keyword::Null);
    }
    if text == b"this".as_slice() {
        return Some(Keyword::This);
    }
    statement_keyword(text)
}

fn statement_keyword(text: &[u8]) -> Option<Keyword>
    ensures { result ≡ statement_keyword_of text.now }
{
    if text == b"let".as_slice() {
        return Some(Keyword::Let);
    }
    if text == b"do".as_slice() {
        return Some(Keyword::Do);
    }
    if text == b"if".as_slice() {
        return Some(Keyword::If);
    }
    if text == b"else".as_slice() {
        return Some(Keyword::Else);
    }
    if text == b"while".as_slice() {
        return Some(Keyword::While);
    }
    if text == b"return".as_slice() {
        return Some(Keyword::Return);
    }
    None
}
