//! Tables that are wrong: each is told.
use crate::checks::holds;
use crate::nand::Nand;
use line_trials::trials;
use std::alloc::{AllocError, Global};
use std::test::Fail;

// What a table begins with: the line puts one line of sixteen digits.
const TRIED: &str = "\nfile a.asm\n|@2\n$ asm a.asm\n";

// What such a table goes on with, and is not so or says nothing.
const WRONG: &[&str] = &[
    "",
    "refused\nout\n|0000000000000010",
    "refussed\nout\n|0000000000000010",
    "done\nrefused\nout\n|0000000000000010",
    "out\n:0000000000000010",
    "out\n|0000000000000011",
    "out\n|0000000000000010\nerr\n|x",
    "begins\n:1",
    "begins",
    "ends\n|1",
    "fourth\n:0",
    "holds\n|0",
    "holds\nout\n|0000000000000010",
    "lacks\n|0000000000000010",
    "once\n|11",
    "never\n|10",
    "those 0\n|1",
    "screen\n|1",
    "size 16",
    "size x",
    "lines 2",
    "cut 4106",
    "cut x",
    "fails shelf 1\nout\n|0000000000000010",
    "fails shelf x\nout\n|0000000000000010",
    "fails out 1 3\nout\n|0000000000000010",
    "fails err x\nout\n|0000000000000010",
    // calls that never come, so that nothing fails
    "fails shelf 2\nout\n|0000000000000010",
    "fails out 2 0\nout\n|0000000000000010",
    // texts of line ends alone, which say nothing
    "begins\n:",
    "ends\n0|1",
    "holds\n|",
    // words that count once, files that stand there, and what is not made
    "err\n:\nerr\n|x\nout\n|0000000000000010",
    "no file\nout\n|0000000000000010",
    "file a.asm\n|@3\nout\n|0000000000000010",
    "made a.asm asm a.asm\nout\n|0000000000000010",
    "made b.asm asm c.asm\nout\n|0000000000000010",
    "out\n|0000000000000010\n\nout\n|x",
];

fn wrong_table() -> &'static [&'static str] {
    WRONG
}

// Whether a table that goes on so is told.
fn is_told(alloc: Global, row: &str) -> Result<bool, AllocError> {
    let mut table = String::from_str(alloc, TRIED)?;
    table.push_str(row)?;
    table.push_str("\n")?;
    let differences = trials(&Nand, alloc, table.as_str())?;
    Ok(!differences.is_empty())
}

#[test]
fn wrong_tables_are_told(rt: HostRuntime) -> Result<(), Fail> {
    let right = is_told(rt.alloc(), "out\n|0000000000000010")?;
    holds(&rt, 0, "right", !right);
    for (row, wrong) in wrong_table().iter().enumerate() {
        let told = is_told(rt.alloc(), wrong)?;
        holds(&rt, row, wrong, told);
    }
    Ok(())
}
