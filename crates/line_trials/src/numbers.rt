//! Parts of a line, and numbers.
use std::alloc::{AllocError, Global};

/// The number of these digits, if there are any and nothing else.
pub(crate) fn number_of(digits: &[u8]) -> Option<u32> {
    if digits.is_empty() {
        return None;
    }
    let mut number = 0u32;
    for digit in digits {
        if !digit.is_ascii_digit() {
            return None;
        }
        let value = u32::from(digit.saturating_sub(b'0'));
        number = number.saturating_mul(10).saturating_add(value);
    }
    Some(number)
}

/// What stands before the first space, and behind it.
pub(crate) fn two_parts(text: &[u8]) -> Option<(&[u8], &[u8])> {
    let at = text.iter().position(|byte| *byte == b' ')?;
    Some((text.get(..at)?, text.get(at.saturating_add(1)..)?))
}

/// What stands between marks.
pub(crate) fn parts(alloc: Global, text: &[u8], mark: u8) -> Result<Vec<&[u8]>, AllocError> {
    let mut all = Vec::new(alloc);
    for part in text.split(|byte| *byte == mark) {
        all.push(part)?;
    }
    Ok(all)
}

/// Two numbers with a space between them.
pub(crate) fn two_numbers(text: &[u8]) -> Option<(u64, u32)> {
    let (first, second) = two_parts(text)?;
    Some((u64::from(number_of(first)?), number_of(second)?))
}
