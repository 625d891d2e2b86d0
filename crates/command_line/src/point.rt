//! The word of a statement.
ghost use Rattle.std.specs.Prelude.{◌≡◌, ◌↔◌, ◌<◌, ◌^◌, ℕ, List, IsTrue, MatchOption};
ghost use Rattle.std.specs.List.{All};
ghost use Rattle.command_line.specs.Line.{IsPointWord};
ghost use Rattle.command_line.specs.Point.{IsName, IsNameByte, IsSubroutine, before, behind};

use crate::number::number;

const MOST_NUMBER: u32 = 1_000_000_000;

fn is_name_byte(b: u8) -> bool
    ensures { IsTrue result ↔ IsNameByte b }
{
    b.is_ascii_alphanumeric() || b == b'_'
}

fn are_name_bytes(text: &[u8]) -> bool
    ensures { IsTrue result ↔ All IsNameByte text.now }
{
    text.iter().all(|b| is_name_byte(*b))
}

fn is_name(text: &[u8]) -> bool
    ensures { IsTrue result ↔ IsName text.now }
{
    if text.is_empty() {
        return false;
    }
    !text[0].is_ascii_digit() && are_name_bytes(text)
}

// What stands before the first `at`, and what stands after it.
fn cut(text: &str, at: char) -> (&str, &str)
    requires { at < 128 }
    ensures before { result.0.now ≡ before at text.now }
    ensures behind { result.1.now ≡ behind at text.now }
{
    match text.split_once(at) {
        Some((before, behind)) => (before, behind),
        None => (text, ""),
    }
}

fn is_subroutine(text: &str) -> bool
    ensures { IsTrue result ↔ IsSubroutine text.now }
{
    if text == "start" {
        return true;
    }
    let (class, name) = cut(text, '.');
    is_name(class.as_bytes()) && is_name(name.as_bytes())
}

/// The statement that a word names: the name of its subroutine, and its number.
pub fn point(word: &str) -> Option<(&str, u32)>
    ensures { MatchOption result ((sub : List ℕ) (k : ℕ) → ¬ IsPointWord word.now sub k)
        (λ p. IsPointWord word.now p.0.now p.1) }
{
    let (sub, digits) = cut(word, ':');
    if !is_subroutine(sub) {
        return None;
    }
    let Some(number) = number(digits.as_bytes(), MOST_NUMBER) else {
        return None;
    };
    Some((sub, number))
}
