//! Checks. A check that fails tells its row. An assertion that is written out costs a test some hundred steps to prove,
//! and the call of a check ten.
use hdl_parser::print;
use hdl_tree::Chip;
use outer_world::{MemorySink, Put};
use std::alloc::Global;
use std::process::Abort;
use std::test::Fail;

/// A text is the one that was expected.
pub fn is_told(rt: &impl Abort, row: &str, found: &str, told: &str) {
    assert_eq!(rt; found, told, "of {row}");
}

/// What a row says holds.
pub fn holds(rt: &impl Abort, row: &str, fact: bool) {
    assert!(rt; fact, "of {row}");
}

// What was put, as a text.
fn text_put(alloc: Global, sink: &MemorySink, put: Put) -> Result<String, Fail> {
    if put != Put::Done {
        return Err(Fail::from("not printed"));
    }
    Ok(String::from_utf8_lossy(alloc, sink.bytes())?)
}

/// The text that a chip is printed as.
pub fn printed(alloc: Global, chip: &Chip) -> Result<String, Fail> {
    let mut sink = MemorySink::new(alloc, 4000, Vec::new(alloc))?;
    let put = print(chip, &mut sink);
    text_put(alloc, &sink, put)
}
