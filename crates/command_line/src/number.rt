//! Numbers of the command line.
ghost use Rattle.std.specs.Prelude.{◌≡◌, ◌≤◌, ℕ, MatchOption};
ghost use Rattle.command_line.specs.Line.{IsNumber};

/// The number that the text writes in decimal digits, without a sign and of at most `most`.
pub fn number(text: &[u8], most: u32) -> Option<u32>
    requires { most ≤ 1000000000 }
    ensures { MatchOption result ((n : ℕ) → ¬ IsNumber text.now most n) (IsNumber text.now most) }
{
    if text.is_empty() {
        return None;
    }
    let mut value: u32 = 0;
    for byte in text {
        let byte = *byte;
        if !byte.is_ascii_digit() {
            return None;
        }
        let more = value as u64 * 10 + (byte - b'0') as u64;
        if more > most as u64 {
            return None;
        }
        value = more as u32;
    }
    Some(value)
}
