//! Names, made of the bytes of tokens.

ghost use Rattle.std.specs.Prelude.{◌≡◌, IfOk};
ghost use Rattle.std.specs.Str.{IsAscii};

use jack_tree::{Name, Text, Token};
use std::alloc::{AllocError, Global};

/// Bytes of a token as a text: they are ASCII.
pub fn text_of(alloc: Global, bytes: &[u8]) -> Result<Text, AllocError>
    requires { IsAscii bytes.now }
    ensures { IfOk result (λ text. text ≡ bytes.now) }
{
    Text::new(alloc, str::from_utf8(bytes).unwrap())
}

/// The name that a token is.
pub fn name_of(alloc: Global, token: &Token<'_>) -> Result<Name, AllocError>
    ensures text { IfOk result (λ name. name.text ≡ token.now.text.now) }
    ensures place { IfOk result (λ name. name.place ≡ token.now.place) }
{
    Ok(Name {
        text: text_of(alloc, token.text)?,
        place: token.place,
    })
}
