//! Names with numbers in brackets.

ghost use Rattle.std.specs.Prelude.{◌≡◌, ◌↔◌, ℕ, List, IsTrue, MatchOption, min};
ghost use Rattle.std.specs.List.{All};
ghost use Rattle.script_device.specs.Variables.{IsDigit, number_after};
ghost use Rattle.script_device.specs.Inner.Brackets.{HasBrackets, IsClosed, NoBrackets, OpensLast, OpensNowhere};

/// No address is as high.
pub const CAP: u64 = 4_294_967_296;

fn is_digit(c: u8) -> bool
    ensures { IsTrue result ↔ IsDigit c }
{
    b'0' <= c && c <= b'9'
}

fn are_digits(text: &[u8]) -> bool
    ensures { IsTrue result ↔ All IsDigit text.now }
{
    text.iter().all(|c| is_digit(*c))
}

// Where the last bracket opens.
fn last_bracket(text: &[u8]) -> Option<usize>
    ensures { MatchOption result (OpensNowhere text.now) (OpensLast text.now) }
{
    for k in (0..text.len()).rev() {
        if text[k] == b'[' {
            return Some(k);
        }
    }
    None
}

// The digits before a closing bracket, which stands at the end.
fn digits_before_end(text: &[u8]) -> Option<&[u8]>
    ensures { MatchOption result ((inside : List ℕ) → IsClosed text.now inside → ⊥)
        (λ inside. IsClosed text.now inside.now) }
{
    let Some((last, inside)) = text.split_last() else {
        return None;
    };
    if *last == b']' && are_digits(inside) {
        Some(inside)
    } else {
        None
    }
}

/// The name before brackets, and the digits in them, of which there may be none.
pub fn brackets(text: &[u8]) -> Option<(&[u8], &[u8])>
    ensures { MatchOption result (NoBrackets text.now) (λ r. HasBrackets text.now r.0.now r.1.now) }
{
    let Some(at) = last_bracket(text) else {
        return None;
    };
    let Some(inside) = digits_before_end(&text[at + 1..]) else {
        return None;
    };
    Some((&text[..at], inside))
}

/// The number of decimal digits; one over 4,294,967,296 is given as that.
pub fn capped_number(digits: &[u8]) -> u64
    ensures { result ≡ min (number_after 0 digits.now) 4294967296 }
{
    let mut number: u64 = 0;
    for digit in digits {
        number = (10 * number + digit.saturating_sub(b'0') as u64).min(CAP);
    }
    number
}
