//! What a scan does.
ghost use Rattle.std.specs.Prelude.{◌≡◌, ℕ, Bool, ◌-◌, ◌<◌, ◌≤◌, ◌^◌, length, drop, take, nat_lt};
ghost use Rattle.scan_text.specs.Blanks.{line_end, line, blanks, StandsBehind};
ghost use Rattle.scan_text.specs.Text.{walk, front, rest_behind, Computes, first, is_digit, start, number_of};
ghost use Rattle.scan_text.specs.View.{left_bytes, place};

use crate::{Blank, Place, Scan, blank_at, is_blank, line_end_len, line_len, run_len, value, walk};

impl<'a> Scan<'a> {
    /// The whole text, from line 1, column 1.
    pub fn new(text: &'a [u8]) -> Scan<'a>
        requires { length text.now < 2 ^ 32 - 1 }
        ensures left { left_bytes result ≡ text.now }
        ensures place { place result ≡ start }
    {
        Scan {
            rest: text,
            place: Place { line: 1, column: 1 },
        }
    }

    /// The place of the next byte.
    pub fn place(&self) -> Place
        ensures { result ≡ place self.now }
    {
        self.place
    }

    /// The next byte, or None at the end of the text.
    pub fn peek(&self) -> Option<u8>
        ensures { result ≡ first (left_bytes self.now) }
    {
        self.rest.first().copied()
    }

    /// What is left of the text.
    pub fn rest(&self) -> &'a [u8]
        ensures { result.now ≡ left_bytes self.now }
    {
        self.rest
    }

    /// Goes over the next `n` bytes, and hands out their slice of the source.
    pub fn skip(&mut self, n: usize) -> &'a [u8]
        requires { n ≤ length (left_bytes self.old) }
        ensures text { result.now ≡ take n (left_bytes self.old) }
        ensures left { left_bytes self.new ≡ drop n (left_bytes self.old) }
        ensures place { place self.new ≡ walk (place self.old) (take n (left_bytes self.old)) }
    {
        let (front, rest) = self.rest.split_at(n);
        let place = walk(self.place, front);
        *self = Scan { rest, place };
        front
    }

    /// Goes over the longest run of bytes that `keep` keeps, and hands out its slice of the source.
    pub fn take_while<P: Fn(u8) -> bool>(&mut self, keep: P) -> &'a [u8]
        requires { P.IsAlwaysCallable keep }
        ensures text { (test : ℕ → Bool) → Computes (P.post keep) test
            → result.now ≡ front test (left_bytes self.old) }
        ensures left { (test : ℕ → Bool) → Computes (P.post keep) test
            → left_bytes self.new ≡ rest_behind test (left_bytes self.old) }
        ensures place { (test : ℕ → Bool) → Computes (P.post keep) test
            → place self.new ≡ walk (place self.old) (front test (left_bytes self.old)) }
    {
        let n = run_len(self.rest, keep);
        self.skip(n)
    }

    /// Goes over decimal digits, if one comes next: their number, where one over 1,000,000,000 is 1,000,000,001.
    pub fn number(&mut self) -> Option<u32>
        ensures value { result ≡ number_of (left_bytes self.old) }
        ensures left { left_bytes self.new ≡ rest_behind is_digit (left_bytes self.old) }
        ensures place { place self.new
            ≡ walk (place self.old) (front is_digit (left_bytes self.old)) }
    {
        let digits = self.take_while(|b| b.is_ascii_digit());
        if digits.is_empty() {
            None
        } else {
            Some(value(digits))
        }
    }

    /// Goes over a line end that begins here: a line feed, or a return and a line feed. Tells whether one did.
    pub fn line_end(&mut self) -> bool
        ensures found { result ≡ nat_lt 0 (line_end (left_bytes self.old)) }
        ensures left { left_bytes self.new
            ≡ drop (line_end (left_bytes self.old)) (left_bytes self.old) }
        ensures place { place self.new
            ≡ walk (place self.old) (take (line_end (left_bytes self.old)) (left_bytes self.old)) }
    {
        let n = line_end_len(self.rest);
        self.skip(n);
        n > 0
    }

    /// The bytes before the next line end, or before the end of the text.
    pub fn line(&mut self) -> &'a [u8]
        ensures text { result.now ≡ line (left_bytes self.old) }
        ensures left { left_bytes self.new
            ≡ drop (length (line (left_bytes self.old))) (left_bytes self.old) }
        ensures place { place self.new ≡ walk (place self.old) (line (left_bytes self.old)) }
    {
        let n = line_len(self.rest);
        self.skip(n)
    }

    /// Goes over blanks (space, tab, line feed, return) and comments, `//` to the line's end and `/*` to the next `*/`. A comment
    /// that is not closed is an error with the place where it begins, and the scan then stands there.
    pub fn skip_blank(&mut self) -> Result<(), Place>
        ensures { StandsBehind (blanks 0 (place self.old) (left_bytes self.old)) result
            (place self.new) (left_bytes self.new) }
    {
        let mut next = blank_at(self.rest);
        while let Blank::Over(n) = next {
            self.skip(n + 1);
            self.take_while(|b| is_blank(b));
            next = blank_at(self.rest);
        }
        match next {
            Blank::Unclosed => Err(self.place),
            _ => Ok(()),
        }
    }
}
