//! How a value is shown in its column.

/// How a value is shown: as sixteen binary digits, as a decimal, or as a text.
#[derive(Clone, Copy, Debug, PartialEq, Eq)]
pub enum Format {
    Binary,
    Decimal,
    Text,
}

/// A column: its format, and how many blanks, characters and blanks it takes.
#[derive(Clone, Copy, Debug, PartialEq, Eq)]
pub struct Layout {
    pub format: Format,
    pub left: u8,
    pub shown: u8,
    pub right: u8,
}

/// What is shown: the time (how many cycles are over, and whether a tick came after the last of them), a word of sixteen
/// bits, or one of fewer.
#[derive(Clone, Copy, Debug, PartialEq, Eq)]
pub enum Value {
    Time(u64, bool),
    Wide(u16),
    Narrow(u16),
}

/// A value in its column.
#[derive(Clone, Copy, Debug)]
pub struct Cell {
    pub layout: Layout,
    pub value: Value,
}

/// A name over its column.
#[derive(Clone, Copy, Debug)]
pub struct Head<'a> {
    pub layout: Layout,
    pub name: &'a [u8],
}
