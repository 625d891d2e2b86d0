//! Checks. A check that fails tells its row. An assertion that is written out costs a test some hundred steps to prove,
//! and the call of a check ten.
use std::process::Abort;

/// A text is the one that was expected.
pub fn is_told(rt: &impl Abort, table: &str, row: usize, found: &str, wanted: &str) {
    assert_eq!(rt; found, wanted, "row {row} of {table}");
}

/// A word at an address is the one that was expected.
pub fn is_word(rt: &impl Abort, row: usize, address: u16, found: u16, wanted: u16) {
    assert_eq!(rt; found, wanted, "row {row}, at {address}");
}

/// What a row says holds.
pub fn holds(rt: &impl Abort, table: &str, row: usize, fact: bool) {
    assert!(rt; fact, "row {row} of {table}");
}
