//! A text of bytes, read from left to right, with the place of each byte.
#![tactic(auto)]

ghost use Rattle.std.specs.Prelude.{◌≡◌, ℕ, Bool, ◌+◌, ◌<◌, ◌≤◌, ◌^◌, length, IfSome};
ghost use Rattle.scan_text.specs.Blanks.{starts, line_end, line, is_blank, ends_block, IsWithin, block, comment, blank};
ghost use Rattle.scan_text.specs.Text.{step, walk, front, Computes, is_digit, decimal, capped_count};

mod reading;

/// A line and a column in bytes, both from 1.
#[derive(Clone, Copy, Debug, PartialEq, Eq)]
pub struct Place {
    pub line: u32,
    pub column: u32,
}

/// What begins at the front of a text: a blank or comment with this many bytes after its first, a comment that is not closed,
/// or something else.
#[derive(Clone, Copy, Debug, PartialEq, Eq)]
pub enum Blank {
    Over(usize),
    Unclosed,
    Other,
}

/// What is left of a text, and the place where it begins.
#[derive(Clone, Copy)]
pub struct Scan<'a> {
    rest: &'a [u8],
    place: Place,
    ghost counted: { place.line + place.column + length rest.now ≤ 2 ^ 32 },
    ghost line_from_one: { 1 ≤ place.line },
    ghost column_from_one: { 1 ≤ place.column },
}

fn step(place: Place, byte: u8) -> Place
    requires counted { place.line + place.column < 2 ^ 32 }
    requires line { 1 ≤ place.line }
    requires column { 1 ≤ place.column }
    ensures { result ≡ step place byte }
{
    if byte == b'\n' {
        Place {
            line: place.line + 1,
            column: 1,
        }
    } else {
        Place {
            line: place.line,
            column: place.column + 1,
        }
    }
}

fn walk(place: Place, bytes: &[u8]) -> Place
    requires counted { place.line + place.column + length bytes.now ≤ 2 ^ 32 }
    requires line { 1 ≤ place.line }
    requires column { 1 ≤ place.column }
    ensures { result ≡ walk place bytes.now }
{
    let mut place = place;
    let mut rest = bytes;
    while let Some((byte, tail)) = rest.split_first() {
        place = step(place, *byte);
        rest = tail;
    }
    place
}

fn run_len<P: Fn(u8) -> bool>(bytes: &[u8], keep: P) -> usize
    requires { P.IsAlwaysCallable keep }
    ensures within { result ≤ length bytes.now }
    ensures longest { (test : ℕ → Bool) → Computes (P.post keep) test
        → result ≡ length (front test bytes.now) }
{
    let mut n = 0;
    let mut rest = bytes;
    while let Some((byte, tail)) = rest.split_first() {
        if !keep(*byte) {
            return n;
        }
        n += 1;
        rest = tail;
    }
    n
}

// The number that the digits spell, one past 1,000,000,000 as 1,000,000,001.
fn value(digits: &[u8]) -> u32
    requires { front is_digit digits.now ≡ digits.now }
    ensures { result ≡ capped_count (decimal 0 digits.now) }
{
    let mut n: u32 = 0;
    let mut rest = digits;
    while let Some((digit, tail)) = rest.split_first() {
        let next = n as u64 * 10 + digit.saturating_sub(b'0') as u64;
        n = next.min(1_000_000_001) as u32;
        rest = tail;
    }
    n
}

fn starts(bytes: &[u8], byte: u8) -> bool
    ensures { result ≡ starts byte bytes.now }
{
    match bytes.first() {
        Some(first) => *first == byte,
        None => false,
    }
}

fn line_end_len(bytes: &[u8]) -> usize
    ensures value { result ≡ line_end bytes.now }
    ensures within { result ≤ length bytes.now }
{
    let Some((byte, tail)) = bytes.split_first() else {
        return 0;
    };
    if *byte == b'\n' {
        return 1;
    }
    if *byte == b'\r' && starts(tail, b'\n') {
        return 2;
    }
    0
}

fn line_len(bytes: &[u8]) -> usize
    ensures value { result ≡ length (line bytes.now) }
    ensures within { result ≤ length bytes.now }
{
    let mut n = 0;
    let mut rest = bytes;
    while let Some((_, tail)) = rest.split_first() {
        if line_end_len(rest) != 0 {
            return n;
        }
        n += 1;
        rest = tail;
    }
    n
}

/// A space, a tab, a line feed or a return.
fn is_blank(byte: u8) -> bool
    ensures { result ≡ is_blank byte }
{
    byte == b' ' || byte == b'\t' || byte == b'\n' || byte == b'\r'
}

fn ends_block(bytes: &[u8]) -> bool
    ensures { result ≡ ends_block bytes.now }
{
    match bytes {
        [b'*', b'/', ..] => true,
        _ => false,
    }
}

// The bytes up to the first `*/`, that with them.
fn block_len(bytes: &[u8]) -> Option<usize>
    ensures value { result ≡ block bytes.now }
    ensures within { IfSome result (λ n. n ≤ length bytes.now) }
{
    let mut n = 0;
    let mut rest = bytes;
    while let Some((_, tail)) = rest.split_first() {
        if ends_block(rest) {
            return Some(n + 2);
        }
        n += 1;
        rest = tail;
    }
    None
}

// What a slash begins that stands before these bytes.
fn comment_at(bytes: &[u8]) -> Blank
    ensures value { result ≡ comment bytes.now }
    ensures within { IsWithin result (length bytes.now + 1) }
{
    let Some((byte, tail)) = bytes.split_first() else {
        return Blank::Other;
    };
    if *byte == b'/' {
        return Blank::Over(run_len(bytes, |b| b != b'\n'));
    }
    if *byte != b'*' {
        return Blank::Other;
    }
    match block_len(tail) {
        Some(n) => Blank::Over(n + 1),
        None => Blank::Unclosed,
    }
}

fn blank_at(bytes: &[u8]) -> Blank
    ensures value { result ≡ blank bytes.now }
    ensures within { IsWithin result (length bytes.now) }
{
    let Some((byte, tail)) = bytes.split_first() else {
        return Blank::Other;
    };
    if is_blank(*byte) {
        return Blank::Over(0);
    }
    if *byte != b'/' {
        return Blank::Other;
    }
    comment_at(tail)
}
