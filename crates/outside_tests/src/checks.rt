//! Checks. A check that fails tells its row. An assertion that is written out costs a test some hundred steps to prove,
//! and the call of a check ten.
use outer_world::Put;
use std::process::Abort;

/// A text is the one that was expected.
pub fn is_told(rt: &impl Abort, row: &str, found: &str, told: &str) {
    assert_eq!(rt; found, told, "of {row}");
}

/// These bytes stand there.
pub fn is_written(rt: &impl Abort, row: &str, found: &[u8], expected: &[u8]) {
    assert_eq!(rt; found, expected, "of {row}");
}

/// A put ends so.
pub fn is_put(rt: &impl Abort, row: &str, found: Put, expected: Put) {
    assert_eq!(rt; found, expected, "of {row}");
}

/// A number at a place.
pub fn is_number(rt: &impl Abort, row: &str, at: u64, found: u64, expected: u64) {
    assert_eq!(rt; found, expected, "at {at} of {row}");
}

/// What a row says holds.
pub fn holds(rt: &impl Abort, row: &str, fact: bool) {
    assert!(rt; fact, "of {row}");
}
