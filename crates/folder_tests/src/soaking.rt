//! Lines of `soak`.
use crate::checks::{holds, tried};
use crate::nand::Nand;
use line_trials::{Fails, Outcome, outcome_of};
use nand_cli::Status;
use std::alloc::{AllocError, Global};
use std::process::Abort;
use std::test::Fail;

const LINES: &str = "
# no file is read
$ soak 1 0
$ soak 01 00
out
|soak 1 0
|agree 0
|steps 0
|sum 0

# the greatest seed, and one more
$ soak 1000000 0
out
|soak 1000000 0
|agree 0
|steps 0
|sum 0

$ soak 1000001 0
$ soak 1001 1001
$ soak 1
$ soak 1 x
usage
err
|usage: nand COMMAND ARGUMENTS
";

#[test]
fn summaries_are_put(rt: HostRuntime) -> Result<(), Fail> {
    tried(&rt, rt.alloc(), LINES)
}

fn soaked(alloc: Global) -> Result<Outcome, AllocError> {
    outcome_of(&Nand, alloc, "", "soak 7 3", Fails::never())
}

// Once more the same is put.
fn is_put_again(rt: &impl Abort, alloc: Global, first: &Outcome) -> Result<(), AllocError> {
    let second = soaked(alloc)?;
    holds(rt, "again", second.out.bytes() == first.out.bytes());
    Ok(())
}

fn all_agree(rt: &impl Abort, alloc: Global) -> Result<(), AllocError> {
    let first = soaked(alloc)?;
    let begun = b"soak 7 3\nagree 3\nsteps ";
    holds(rt, "status", first.status == Status::Done.code());
    holds(rt, "summary", first.out.bytes().starts_with(begun));
    is_put_again(rt, alloc, &first)
}

#[test]
fn generated_programs_agree(rt: HostRuntime) -> Result<(), Fail> {
    Ok(all_agree(&rt, rt.alloc())?)
}
