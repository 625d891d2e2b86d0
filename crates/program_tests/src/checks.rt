//! What is expected of a line. A check that fails tells the row of the table and the line. An assertion that is written
//! out costs a test some hundred steps to prove, and the call of a check ten.
use crate::nand::Nand;
use line_trials::{Outcome, trials, trials_with};
use nand_cli::Status;
use std::alloc::Global;
use std::process::Abort;
use std::test::Fail;

/// What the program says where a file could not be read.
pub const READ_FAULT: &str = "nand: read fault\n";

fn is_empty(rt: &impl Abort, differences: &str) {
    assert_eq!(rt; differences, "");
}

/// All is as a table tells.
pub fn tried(rt: &impl Abort, alloc: Global, table: &str) -> Result<(), Fail> {
    let differences = trials(&Nand, alloc, table)?;
    is_empty(rt, &differences);
    Ok(())
}

/// All is as a table tells, and so it is where netlists are simplified.
pub fn tried_both(rt: &impl Abort, alloc: Global, table: &str) -> Result<(), Fail> {
    tried(rt, alloc, table)?;
    let differences = trials_with(&Nand, alloc, table, "--simplify")?;
    is_empty(rt, &differences);
    Ok(())
}

/// What was found is what was expected.
pub fn is_equal(rt: &impl Abort, row: usize, line: &str, found: &[u8], expected: &[u8]) {
    assert_eq!(rt; found, expected, "row {row}, {line}");
}

/// What was found begins with what was expected.
pub fn begins_with(rt: &impl Abort, row: usize, line: &str, found: &[u8], front: &[u8]) {
    holds(rt, row, line, found.starts_with(front));
}

/// A line ends so.
pub fn has_status(rt: &impl Abort, row: usize, line: &str, found: u8, expected: Status) {
    assert_eq!(rt; found, expected.code(), "row {row}, {line}");
}

/// A fact holds of a line.
pub fn holds(rt: &impl Abort, row: usize, line: &str, fact: bool) {
    assert!(rt; fact, "row {row}, {line}");
}

/// A line ended by this status, with this on out and on err.
pub fn ended(
    rt: &impl Abort,
    row: usize,
    line: &str,
    outcome: &Outcome,
    (status, out, err): (Status, &[u8], &[u8]),
) {
    is_equal(rt, row, line, outcome.err.bytes(), err);
    is_equal(rt, row, line, outcome.out.bytes(), out);
    has_status(rt, row, line, outcome.status, status);
}
