//! Checks. A check that fails tells its row. An assertion that is written out costs a test some hundred steps to prove,
//! and the call of a check ten.
use std::process::Abort;

/// A text is the one that was expected.
pub fn is_told(rt: &impl Abort, row: &str, found: &str, wanted: &str) {
    assert_eq!(rt; found, wanted, "of {row}");
}

/// What a row says holds.
pub fn holds(rt: &impl Abort, row: &str, fact: bool) {
    assert!(rt; fact, "of {row}");
}
