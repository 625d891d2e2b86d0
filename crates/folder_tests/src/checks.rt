//! What is expected of a line. An assertion that is written out costs a test some hundred steps to prove, and the call of
//! a check ten.
use crate::nand::Nand;
use line_trials::trials;
use std::alloc::Global;
use std::process::Abort;
use std::test::Fail;

fn nothing_differs(rt: &impl Abort, differences: &str) {
    assert_eq!(rt; differences, "");
}

/// All is as a table tells.
pub fn tried(rt: &impl Abort, alloc: Global, table: &str) -> Result<(), Fail> {
    let differences = trials(&Nand, alloc, table)?;
    nothing_differs(rt, &differences);
    Ok(())
}

/// A fact holds of a line.
pub fn holds(rt: &impl Abort, line: &str, fact: bool) {
    assert!(rt; fact, "{line}");
}
