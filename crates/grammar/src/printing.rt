//! Tokens that are put one after another. The answer so far is handed on: after a failure nothing more is put.

ghost use Rattle.std.specs.Prelude.{◌≡◌, ◌∷◌, []};
ghost use Rattle.grammar.specs.Printed.{Finishes, Writes, ends_line, set_off};

use outer_world::{Pieces, Put, Sink};

// A line feed stands after the token.
fn ends_line(token: &[u8]) -> bool
    ensures { result ≡ ends_line token.now }
{
    if token == b"{".as_slice() {
        return true;
    }
    if token == b"}".as_slice() {
        return true;
    }
    token == b";".as_slice()
}

/// Puts a token, and what sets it off from the next one: a line feed after `{`, `}` and `;`, a space after all others.
pub fn put_token<S: Sink>(token: &[u8], status: Put, out: &mut Pieces<'_, S>) -> Put
    ensures { Writes (set_off token.now) status out.old result out.new }
{
    if status == Put::Failed {
        return Put::Failed;
    }
    if ends_line(token) {
        return out.put_all(&[token, b"\n"]);
    }
    out.put_all(&[token, b" "])
}

/// Puts a token of one byte.
pub fn put_symbol<S: Sink>(byte: u8, status: Put, out: &mut Pieces<'_, S>) -> Put
    ensures { Writes (set_off (byte ∷ [])) status out.old result out.new }
{
    put_token(&[byte], status, out)
}

/// Puts what is pending when all tokens are put. The answer is that of all that was put.
pub fn put_rest<S: Sink>(status: Put, out: &mut Pieces<'_, S>) -> Put
    ensures { Finishes status out.old result out.new }
{
    match status {
        Put::Done => out.finish(),
        Put::Failed => Put::Failed,
    }
}
