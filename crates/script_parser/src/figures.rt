//! The numbers and formats that words spell.

ghost use Rattle.std.specs.Prelude.{◌≡◌, ◌+◌, ◌≤◌, ◌<◌, ◌*◌, ◌-◌, ◌%◌, ◌^◌, true, false, Some, None, length};
ghost use Rattle.scan_text.specs.Text.{rest_behind, is_digit};
ghost use Rattle.scan_text.specs.View.{left_bytes};
ghost use Rattle.script_parser.specs.Numbers.{behind_byte, figure, whole_figure, number_of_word, decimal_number, binary_number, bits, is_binary, value_of, layout_of_word, layout, formatted_layout, format_of, plain_layout, no_percent, ends_in};

use scan_text::Scan;
use script_columns::Format;

/// A number in a word, where one over 1,000,000,000 is 1,000,000,001, and how many bytes there are from its first digit to the end of the
/// word.
#[derive(Clone, Copy)]
pub struct Figure {
    pub value: u32,
    pub from_end: usize,
}

/// The number of a `set`: a decimal, one after a `-`, or the word of some binary digits.
#[derive(Clone, Copy)]
pub enum Number {
    Plain(Figure),
    Negative(Figure),
    Bits(u16),
}

/// How an item is laid out, in figures that may be too large.
#[derive(Clone, Copy)]
pub struct WrittenLayout {
    pub format: Format,
    pub left: Figure,
    pub shown: Figure,
    pub right: Figure,
}

fn digits(scan: &mut Scan<'_>) -> Option<Figure>
    ensures value { result ≡ figure (left_bytes scan.old) }
    ensures left { left_bytes scan.new ≡ rest_behind is_digit (left_bytes scan.old) }
{
    let from_end = scan.rest().len();
    match scan.number() {
        Some(value) => Some(Figure { value, from_end }),
        None => None,
    }
}

// Goes over this byte, if it comes next.
fn skips(scan: &mut Scan<'_>, byte: u8) -> bool
    ensures yes { result ≡ true
        → behind_byte byte (left_bytes scan.old) ≡ Some (left_bytes scan.new) }
    ensures no { result ≡ false → behind_byte byte (left_bytes scan.old) ≡ None }
    ensures stays { result ≡ false → left_bytes scan.new ≡ left_bytes scan.old }
{
    let Some(next) = scan.peek() else {
        return false;
    };
    if next != byte {
        return false;
    }
    scan.skip(1);
    true
}

fn whole_figure_of(scan: &mut Scan<'_>) -> Option<Figure>
    ensures { result ≡ whole_figure (left_bytes scan.old) }
{
    let figure = digits(scan)?;
    if scan.rest().is_empty() {
        Some(figure)
    } else {
        None
    }
}

/// The decimal number that a word is.
pub fn whole_figure(text: &[u8]) -> Option<Figure>
    requires { length text.now < 2 ^ 32 - 1 }
    ensures { result ≡ whole_figure text.now }
{
    let mut scan = Scan::new(text);
    whole_figure_of(&mut scan)
}

fn decimal_number(scan: &mut Scan<'_>) -> Option<Number>
    ensures { result ≡ decimal_number (left_bytes scan.old) }
{
    if skips(scan, b'-') {
        return match whole_figure_of(scan) {
            Some(figure) => Some(Number::Negative(figure)),
            None => None,
        };
    }
    match whole_figure_of(scan) {
        Some(figure) => Some(Number::Plain(figure)),
        None => None,
    }
}

fn bits(digits: &[u8]) -> u16
    ensures { result ≡ bits 0 digits.now }
{
    let mut n: u32 = 0;
    let mut rest = digits;
    while let Some((digit, tail)) = rest.split_first() {
        n = (n * 2 + digit.saturating_sub(b'0') as u32) % 65_536;
        rest = tail;
    }
    n as u16
}

fn is_binary(byte: u8) -> bool
    ensures { result ≡ is_binary byte }
{
    byte == b'0' || byte == b'1'
}

fn binary_number(scan: &mut Scan<'_>) -> Option<Number>
    ensures { result ≡ binary_number (left_bytes scan.old) }
{
    let digits = scan.rest();
    if digits.is_empty() || digits.len() > 16 {
        return None;
    }
    scan.take_while(|b| is_binary(b));
    if scan.rest().is_empty() {
        Some(Number::Bits(bits(digits)))
    } else {
        None
    }
}

/// The number of a `set` that a word is.
pub fn number_of_word(text: &[u8]) -> Option<Number>
    requires { length text.now < 2 ^ 32 - 1 }
    ensures { result ≡ number_of_word text.now }
{
    let mut scan = Scan::new(text);
    if !skips(&mut scan, b'%') {
        return decimal_number(&mut scan);
    }
    if skips(&mut scan, b'D') {
        return decimal_number(&mut scan);
    }
    if skips(&mut scan, b'B') {
        return binary_number(&mut scan);
    }
    None
}

fn widths(scan: &mut Scan<'_>, format: Format) -> Option<WrittenLayout>
    ensures { result ≡ layout format (left_bytes scan.old) }
{
    let left = digits(scan)?;
    if !skips(scan, b'.') {
        return None;
    }
    let shown = digits(scan)?;
    if !skips(scan, b'.') {
        return None;
    }
    let right = digits(scan)?;
    if !scan.rest().is_empty() {
        return None;
    }
    Some(WrittenLayout {
        format,
        left,
        shown,
        right,
    })
}

fn format_of(byte: u8) -> Option<Format>
    ensures { result ≡ format_of byte }
{
    match byte {
        b'B' => Some(Format::Binary),
        b'D' => Some(Format::Decimal),
        b'S' => Some(Format::Text),
        _ => None,
    }
}

fn formatted(scan: &mut Scan<'_>) -> Option<WrittenLayout>
    ensures { result ≡ formatted_layout (left_bytes scan.old) }
{
    let byte = scan.peek()?;
    scan.skip(1);
    let format = format_of(byte)?;
    widths(scan, format)
}

fn plain_layout() -> WrittenLayout
    ensures { result ≡ plain_layout }
{
    let one = Figure {
        value: 1,
        from_end: 0,
    };
    WrittenLayout {
        format: Format::Binary,
        left: one,
        shown: one,
        right: one,
    }
}

/// How an item is laid out, if the word is one.
pub fn layout_of_word(text: &[u8]) -> Option<WrittenLayout>
    requires { length text.now < 2 ^ 32 - 1 }
    ensures { result ≡ layout_of_word text.now }
{
    let mut scan = Scan::new(text);
    let variable = scan.take_while(|b| b != b'%');
    if variable.is_empty() {
        return None;
    }
    if scan.peek().is_none() {
        return Some(plain_layout());
    }
    scan.skip(1);
    formatted(&mut scan)
}

/// The word ends so.
pub fn ends_in(text: &[u8], ending: &[u8]) -> bool
    ensures { result ≡ ends_in ending.now text.now }
{
    let (_, tail) = text.split_at(text.len().saturating_sub(ending.len()));
    tail == ending
}
