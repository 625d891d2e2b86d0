//! Columns of values and of names.

ghost use Rattle.std.specs.Prelude.{◌≡◌, ◌++◌, IfOk, if◌then◌else◌};
ghost use Rattle.script_columns.specs.Columns.{blanks, cell_text, centred_text, column_text, head_column, head_text, line_text, placed_field, plain_text, time_text, value_text};
ghost use Rattle.outer_world.specs.Texts.{signed_text};

use crate::layout::{Cell, Format, Head, Layout, Value};
use itoa::Buffer;
use std::alloc::{AllocError, Global};
use word16::binary_digits;

fn push_blanks(line: &mut Vec<u8>, count: usize) -> Result<(), AllocError>
    ensures { IfOk result (λ _. line.new.items ≡ line.old.items ++ blanks count) }
{
    for _ in 0..count {
        line.push(b' ')?;
    }
    Ok(())
}

fn time_text(alloc: Global, cycle: u64, ticked: bool) -> Result<Vec<u8>, AllocError>
    ensures { IfOk result (λ text. text.items ≡ time_text cycle ticked) }
{
    let mut digits = Buffer::new();
    let mut text = Vec::from_slice(alloc, digits.format(cycle).as_bytes())?;
    if ticked {
        text.push(b'+')?;
    }
    Ok(text)
}

fn signed_text(alloc: Global, word: u16) -> Result<Vec<u8>, AllocError>
    ensures { IfOk result (λ text. text.items ≡ signed_text word) }
{
    let mut digits = Buffer::new();
    if word < 0x8000 {
        return Vec::from_slice(alloc, digits.format(word).as_bytes());
    }
    let mut text = Vec::from_slice(alloc, b"-")?;
    text.extend_from_slice(digits.format(0x1_0000 - word as u32).as_bytes())?;
    Ok(text)
}

fn plain_text(alloc: Global, value: Value) -> Result<Vec<u8>, AllocError>
    ensures { IfOk result (λ text. text.items ≡ plain_text value) }
{
    match value {
        Value::Time(cycle, ticked) => time_text(alloc, cycle, ticked),
        Value::Wide(word) => signed_text(alloc, word),
        Value::Narrow(word) => {
            let mut digits = Buffer::new();
            Vec::from_slice(alloc, digits.format(word).as_bytes())
        }
    }
}

/// The text of a value in a format.
pub fn value_text(alloc: Global, format: Format, value: Value) -> Result<Vec<u8>, AllocError>
    ensures { IfOk result (λ text. text.items ≡ value_text format value) }
{
    match (format, value) {
        (Format::Binary, Value::Wide(word) | Value::Narrow(word)) => {
            Vec::from_slice(alloc, &binary_digits(word))
        }
        (Format::Binary | Format::Decimal | Format::Text, _) => plain_text(alloc, value),
    }
}

// Appends a text in this many places: filled up with blanks, or its last characters.
fn push_placed(
    line: &mut Vec<u8>,
    format: Format,
    places: usize,
    text: &[u8],
) -> Result<(), AllocError>
    ensures { IfOk result
        (λ _. line.new.items ≡ line.old.items ++ placed_field format places text.now) }
{
    let gap = places.saturating_sub(text.len());
    let shown = &text[text.len().saturating_sub(places)..];
    if let Format::Text = format {
        line.extend_from_slice(shown)?;
        return push_blanks(line, gap);
    }
    push_blanks(line, gap)?;
    line.extend_from_slice(shown)
}

/// Appends a text in its column, and the bar that ends it.
pub fn push_column(line: &mut Vec<u8>, layout: Layout, text: &[u8]) -> Result<(), AllocError>
    ensures { IfOk result (λ _. line.new.items ≡ line.old.items ++ column_text layout text.now) }
{
    push_blanks(line, layout.left as usize)?;
    push_placed(line, layout.format, layout.shown as usize, text)?;
    push_blanks(line, layout.right as usize)?;
    line.push(b'|')?;
    Ok(())
}

/// Appends a value in its column, and the bar that ends it.
pub fn push_cell(alloc: Global, line: &mut Vec<u8>, cell: Cell) -> Result<(), AllocError>
    ensures { IfOk result (λ _. line.new.items ≡ line.old.items ++ cell_text cell) }
{
    let text = value_text(alloc, cell.layout.format, cell.value)?;
    push_column(line, cell.layout, &text)
}

fn push_centred(line: &mut Vec<u8>, places: usize, name: &[u8]) -> Result<(), AllocError>
    ensures { IfOk result (λ _. line.new.items ≡ line.old.items ++ centred_text places name.now) }
{
    let free = places.saturating_sub(name.len());
    push_blanks(line, free / 2)?;
    line.extend_from_slice(&name[..places.min(name.len())])?;
    push_blanks(line, free - free / 2)
}

/// Appends a name over its column, and the bar that ends it.
pub fn push_head(line: &mut Vec<u8>, layout: Layout, name: &[u8]) -> Result<(), AllocError>
    ensures { IfOk result (λ _. line.new.items ≡ line.old.items ++ head_column layout name.now) }
{
    let places = layout.left as usize + layout.shown as usize + layout.right as usize;
    push_centred(line, places, name)?;
    line.push(b'|')?;
    Ok(())
}

/// The line of these values, without its end.
pub fn value_line(alloc: Global, cells: &[Cell]) -> Result<Vec<u8>, AllocError>
    ensures { IfOk result (λ line. line.items ≡ line_text cells.now) }
{
    let mut line = Vec::from_slice(alloc, b"|")?;
    for cell in cells {
        push_cell(alloc, &mut line, *cell)?;
    }
    Ok(line)
}

/// The line of these names, without its end.
pub fn head_line(alloc: Global, heads: &[Head<'_>]) -> Result<Vec<u8>, AllocError>
    ensures { IfOk result (λ line. line.items ≡ head_text heads.now) }
{
    let mut line = Vec::from_slice(alloc, b"|")?;
    for head in heads {
        push_head(&mut line, head.layout, head.name)?;
    }
    Ok(line)
}
