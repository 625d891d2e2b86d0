//! Lines that are compared.

ghost use Rattle.std.specs.Prelude.{◌≡◌, ◌≤◌, drop, length, nat_eq};
ghost use Rattle.script_columns.specs.Comparison.{agrees, agrees_first, front, lines_of, stands_for};
ghost use Rattle.script_columns.specs.Inner.Cut.{ends_line, line_length};

// Whether a character of a compare file stands for one that is put.
fn stands_for(compared: u8, put: u8) -> bool
    ensures { result ≡ stands_for compared put }
{
    compared == b'*' || compared == put
}

/// Whether a line agrees with a line of a compare file: it is as long, and has its characters but where that has a star.
pub fn agrees(compared: &[u8], line: &[u8]) -> bool
    ensures { result ≡ agrees compared.now line.now }
{
    if compared.len() != line.len() {
        return false;
    }
    for k in 0..line.len() {
        if !stands_for(compared[k], line[k]) {
            return false;
        }
    }
    true
}

// Whether a line feed comes next.
fn feeds(rest: &[u8]) -> bool
    ensures { result ≡ nat_eq (front rest.now) 10 }
{
    match rest {
        [first, ..] => *first == b'\n',
        [] => false,
    }
}

// Whether a character ends its line: a line feed, or a return before one.
fn ends_line(c: u8, rest: &[u8]) -> bool
    ensures { result ≡ ends_line c rest.now }
{
    c == b'\n' || c == b'\r' && feeds(rest)
}

// How many characters the first line of a text has.
fn line_length(text: &[u8]) -> usize
    ensures { result ≡ line_length text.now }
{
    for (k, c) in text.iter().enumerate() {
        if ends_line(*c, &text[k + 1..]) {
            return k;
        }
    }
    text.len()
}

/// Whether a line agrees with the first line of a compare file; it does not where that has no more lines.
pub fn agrees_first(text: &[u8], line: &[u8]) -> bool
    ensures { result ≡ agrees_first (lines_of text.now) line.now }
{
    if text.is_empty() {
        return false;
    }
    let length = line_length(text);
    agrees(&text[..length], line)
}

/// Where the second line of a text begins, or its end where it has no more lines.
pub fn past_line(text: &[u8]) -> usize
    ensures within { result ≤ length text.now }
    ensures rest { lines_of (drop result text.now) ≡ drop 1 (lines_of text.now) }
{
    for (k, c) in text.iter().enumerate() {
        if *c == b'\n' {
            return k + 1;
        }
    }
    text.len()
}

/// Where the lines after this many of a text begin, or its end where it has no more lines.
pub fn past_lines(text: &[u8], count: u64) -> usize
    ensures within { result ≤ length text.now }
    ensures rest { lines_of (drop result text.now) ≡ drop count (lines_of text.now) }
{
    let mut at = 0;
    for _ in 0..count {
        if at == text.len() {
            return at;
        }
        at += past_line(&text[at..]);
    }
    at
}
