//! Lines of `run` at level gates, beside the same at the level of the instruction machine.
use crate::checks::{holds, tried};
use crate::nand::Nand;
use line_trials::{Fails, Outcome, outcome_of};
use nand_cli::Status;
use std::alloc::{AllocError, Global};
use std::process::Abort;
use std::test::Fail;

// the gates start as the meaning
const START: &str = "
file prog/Main.jack
:class Main { function void main() { var Array s; let s = 16384; let s[0] = 1; return; } }
$ run prog --level gates --cycles 0
out
|level gates
|moves 0
|steps 0
|point start 1
|end bound

# at the start the first instruction, which is `@256`, comes out of the ROM, and every flip-flop is 0
$ run prog --level gates --cycles 0 --show nets
begins
|level gates
|moves 0
|steps 0
|point start 1
|end bound
:CPU 
holds
|ROM32K 0000000100000000
|Keyboard 0000000000000000
|DFF 0
lacks
|DFF 1
";

#[test]
fn runs_of_gates(rt: HostRuntime) -> Result<(), Fail> {
    tried(&rt, rt.alloc(), START)
}

// What `run` does at a level with these further words.
fn report_at(alloc: Global, files: &str, level: &str, further: &str) -> Result<Outcome, Fail> {
    let line = format!(in alloc; "run prog --level {level} {further}")?;
    Ok(outcome_of(&Nand, alloc, files, &line, Fails::never())?)
}

fn is_done(rt: &impl Abort, level: &str, outcome: &Outcome) {
    holds(rt, level, outcome.status == Status::Done.code());
}

// Reports of the levels gates and hack are the same behind their first lines.
fn are_alike(rt: &impl Abort, gates: &[u8], hack: &[u8]) {
    holds(rt, "hack", hack.starts_with(b"level hack\n"));
    holds(rt, "gates", gates.starts_with(b"level gates\n"));
    holds(rt, "both", gates.get(12..) == hack.get(11..));
}

// What the instruction machine reports is what the gates do.
fn hack_is_alike(
    rt: &impl Abort,
    alloc: Global,
    files: &str,
    further: &str,
    gates: &Outcome,
) -> Result<(), Fail> {
    let hack = report_at(alloc, files, "hack", further)?;
    is_done(rt, "hack", &hack);
    are_alike(rt, gates.out.bytes(), hack.out.bytes());
    Ok(())
}

// With a netlist that is simplified it is the same report.
fn simple_is_alike(
    rt: &impl Abort,
    alloc: Global,
    files: &str,
    further: &str,
    gates: &Outcome,
) -> Result<(), Fail> {
    let simple = report_at(alloc, files, "gates --simplify", further)?;
    is_done(rt, "simplified", &simple);
    holds(rt, "simplified", simple.out.bytes() == gates.out.bytes());
    Ok(())
}

// After the first line the reports of these files are the same at the two levels of the computer.
fn reports_alike(rt: &impl Abort, alloc: Global, files: &str, further: &str) -> Result<(), Fail> {
    let gates = report_at(alloc, files, "gates", further)?;
    is_done(rt, "gates", &gates);
    hack_is_alike(rt, alloc, files, further, &gates)?;
    simple_is_alike(rt, alloc, files, further, &gates)
}

const HEAP: &str = "
file prog/Main.jack
:class Main { function void main() { var Array s; let s = 2050; let s[1] = 7; return; } }
";

#[test]
fn the_gates_report_what_the_computer_does(rt: HostRuntime) -> Result<(), Fail> {
    reports_alike(&rt, rt.alloc(), HEAP, "--cycles 600 --show heap")
}

// A program that calls itself for ever runs past its stack.
const ENDLESS: &str = "
file prog/Main.jack
:class Main { function void main() { do Main.main(); return; } }
";

#[test]
fn the_gates_report_what_no_meaning_does(rt: HostRuntime) -> Result<(), Fail> {
    reports_alike(&rt, rt.alloc(), ENDLESS, "--cycles 300000")
}
