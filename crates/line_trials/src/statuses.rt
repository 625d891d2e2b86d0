//! The exit statuses that lines tell.

ghost use Rattle.std.specs.Prelude.{◌≡◌, length, map, position};
ghost use Rattle.std.specs.Str.{bytes_eq};
ghost use Rattle.line_trials.specs.Statuses.{status_by, status_of, told};

// The words for the exit statuses, from 0 on.
const STATUSES: &[&'static [u8]] = &[
    b"done",
    b"refused",
    b"usage",
    b"read fault",
    b"write fault",
    b"no memory",
    b"differs",
];

// The place of a line among words.
fn place_among(words: &[&[u8]], line: &[u8]) -> Option<usize>
    ensures { result ≡ position (λ w. bytes_eq line.now w.now) words.now }
{
    words.iter().position(|word| line == *word)
}

/// The status whose word a line is.
pub(crate) fn status_by(line: &[u8]) -> Option<usize>
    ensures { result ≡ status_by line.now }
{
    place_among(STATUSES, line)
}

/// The status that lines tell first, which is that of a line that is done where they tell none.
pub(crate) fn status_of(lines: &[&[u8]]) -> usize
    ensures { result ≡ status_of (map (λ l. l.now) lines.now) }
{
    for line in lines {
        if let Some(status) = status_by(line) {
            return status;
        }
    }
    0
}

/// How many statuses lines tell.
pub(crate) fn statuses_told(lines: &[&[u8]]) -> usize
    ensures { result ≡ length (told (map (λ l. l.now) lines.now)) }
{
    let mut n = 0;
    for line in lines {
        if status_by(line).is_some() {
            n += 1;
        }
    }
    n
}
