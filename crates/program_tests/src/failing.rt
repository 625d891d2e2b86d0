//! A failing outside: each call of the shelf in turn, each put on out, and each on err.
use crate::checks::{READ_FAULT, begins_with, ended, has_status, holds, is_equal};
use crate::nand::Nand;
use line_trials::{Fails, Outcome, outcome_of};
use nand_cli::Status;
use std::alloc::{AllocError, Global};
use std::process::Abort;
use std::test::Fail;

const FILES: &str = "
file Add.asm
|@2
|D=A
|@3
|D=D+A
|@0
|M=D
file bad.asm
|D=X
file big.asm
:@32768
file k.txt
|5 65
# a folder of three classes, and one of a class beside another file
file three/A.jack
:class A { function void f() { } }
file three/B.jack
:class B { }
file three/Main.jack
:class Main { function void main() { do A.f(); } }
file one/Main.jack
:class Main { function void main() { } }
file one/readme.txt
:class
# its first class is refused
file bad/A.jack
:class A {
file bad/B.jack
:class B { }
file v/Sys.vm
|function Sys.init 0
|label E
|goto E
# scripts, a chip of two others, and what their lines are compared with
file t/And.tst
:load And2.hdl, compare-to And.cmp, output-list a out; set a 1, set b 1, eval, output;
file t/And2.hdl
:CHIP And2 { IN a, b; OUT out; PARTS: And(a=a, b=b, out=out); }
file t/And.hdl
:CHIP And { IN a, b; OUT out; PARTS: Nand(a=a, b=b, out=n); Nand(a=n, b=n, out=out); }
file t/And.cmp
|| a |out|
|| 1 | 1 |
file t/Wrong.tst
:echo \"first\"; load And.hdl, compare-to And.cmp, output-list a out; echo \"second\"; output;
file t/None.tst
:echo \"first\"; load None.hdl;
file t/Ring.tst
:echo \"first\"; load Ring.hdl;
file t/Ring.hdl
:CHIP Ring { IN a; OUT out; PARTS: Not(in=x, out=y); Not(in=y, out=x); }
file t/Read.tst
:echo \"first\"; load t.asm;
file t/Deep.tst
:echo \"first\"; load C40.hdl;
file t/Two.tst
:load And2.hdl, load And.hdl, output-list a;
file t/Again.tst
:load And2.hdl, load And2.hdl, output-list a;
# scripts that load programs
file r/Asm.tst
:load Add.asm, output-list A;
file r/Rom.tst
:load Rom.hdl, ROM32K load Add.asm, output-list out;
file r/Rom.hdl
:CHIP Rom { IN a[15]; OUT out[16]; PARTS: ROM32K(address=a, out=out); }
file r/Add.asm
|@2
# chips, the last of which has more parts than memory can hold
file t/C0.hdl
:CHIP C0 { IN in; OUT out; PARTS:  }
files 40 t/C#.hdl
:CHIP C# { IN in; OUT out; PARTS: C%(in=in, out=n); C%(in=n, out=out); }
";

fn outcome(alloc: Global, line: &str, fails: Fails) -> Result<Outcome, AllocError> {
    outcome_of(&Nand, alloc, FILES, line, fails)
}

fn failing_shelf(call: u64) -> Fails {
    Fails {
        shelf: Some(call),
        ..Fails::never()
    }
}

fn failing_out(put: u64, taken: u32) -> Fails {
    Fails {
        out: Some((put, taken)),
        ..Fails::never()
    }
}

fn failing_err(put: u64, taken: u32) -> Fails {
    Fails {
        err: Some((put, taken)),
        ..Fails::never()
    }
}

// Lines, how many calls of the shelf each needs, and how it ends.
const CALLS: &[(&str, u64, Status)] = &[
    ("asm", 0, Status::Usage),
    ("chip Not", 0, Status::Done),
    ("soak 1 0", 0, Status::Done),
    ("asm Add.asm", 1, Status::Done),
    ("asm bad.asm", 1, Status::Refused),
    ("exec Add.asm --cycles 6 --from 0 --to 1", 1, Status::Done),
    ("show v/Sys.vm", 1, Status::Done),
    ("show one/Main.jack", 1, Status::Done),
    ("show t/And.hdl", 1, Status::Done),
    // the folder, and each text
    ("vm v", 2, Status::Done),
    ("vm v --bare", 2, Status::Done),
    ("compile three", 4, Status::Done),
    ("build three", 4, Status::Done),
    ("map three", 4, Status::Done),
    ("map three --format 1", 4, Status::Done),
    ("run three --level jack --cycles 0", 4, Status::Done),
    ("run three --level vm --cycles 0", 4, Status::Done),
    // the key script too
    (
        "run three --level hack --cycles 0 --keys k.txt",
        5,
        Status::Done,
    ),
    (
        "run three --level gates --cycles 0 --keys k.txt",
        5,
        Status::Done,
    ),
    (
        "debug three --break Main.main:1 --cycles 0 --keys k.txt",
        5,
        Status::Done,
    ),
    (
        "debug three --break Main.main:9 --cycles 0 --keys k.txt",
        4,
        Status::Refused,
    ),
    // a file with another ending is not read, nor what stands after a text that is refused
    ("build one", 2, Status::Done),
    ("build bad", 2, Status::Refused),
    (
        "run bad --level jack --cycles 0 --keys k.txt",
        2,
        Status::Refused,
    ),
    // the script, the folder, two chips, and the compare file
    ("test t/And.tst", 5, Status::Done),
    // the folder again, with the chip of the second load
    ("test t/Two.tst", 6, Status::Done),
    // nothing more for a chip that is loaded already
    ("test t/Again.tst", 4, Status::Done),
    // the script and the program; and between them the folder and a chip
    ("test r/Asm.tst", 2, Status::Done),
    ("test r/Rom.tst", 4, Status::Done),
];

fn calls_table() -> &'static [(&'static str, u64, Status)] {
    CALLS
}

// Where this call of the shelf fails, a line ends so.
fn call_fails(rt: &impl Abort, alloc: Global, line: &str, call: u64) -> Result<(), AllocError> {
    let found = outcome(alloc, line, failing_shelf(call))?;
    let ending = (Status::ReadFault, b"".as_slice(), READ_FAULT.as_bytes());
    ended(rt, call as usize, line, &found, ending);
    Ok(())
}

fn each_call_fails(
    rt: &impl Abort,
    alloc: Global,
    line: &str,
    calls: u64,
) -> Result<(), AllocError> {
    for call in 0..calls {
        call_fails(rt, alloc, line, call.saturating_add(1))?;
    }
    Ok(())
}

// Two lines end alike, and put the same.
fn are_alike(rt: &impl Abort, line: &str, found: &Outcome, plain: &Outcome) {
    holds(rt, 0, line, found.status == plain.status);
    is_equal(rt, 0, line, found.out.bytes(), plain.out.bytes());
    is_equal(rt, 0, line, found.err.bytes(), plain.err.bytes());
}

// Where a call would fail after those that a line needs, it ends as else.
fn ends_as_else(
    rt: &impl Abort,
    alloc: Global,
    line: &str,
    calls: u64,
    plain: &Outcome,
) -> Result<(), AllocError> {
    let behind = outcome(alloc, line, failing_shelf(calls.saturating_add(1)))?;
    are_alike(rt, line, &behind, plain);
    Ok(())
}

fn needs_calls(
    rt: &impl Abort,
    alloc: Global,
    (line, calls, status): (&str, u64, Status),
) -> Result<(), AllocError> {
    let plain = outcome(alloc, line, Fails::never())?;
    has_status(rt, 0, line, plain.status, status);
    ends_as_else(rt, alloc, line, calls, &plain)
}

// Where a call that a line needs fails, nothing is put on out. Where one after those would fail, the line ends as else.
#[test]
fn each_call_of_the_shelf_fails(rt: HostRuntime) -> Result<(), Fail> {
    for (line, calls, status) in calls_table() {
        needs_calls(&rt, rt.alloc(), (*line, *calls, *status))?;
        each_call_fails(&rt, rt.alloc(), line, *calls)?;
    }
    Ok(())
}

const PIECE: usize = 4096;

const BUILD: &str = "build three";

// A put on out fails that still takes this many bytes: these and the puts before it stand there, and nothing stands on
// err.
fn put_fails(
    rt: &impl Abort,
    alloc: Global,
    whole: &[u8],
    put: usize,
    taken: u32,
) -> Result<(), AllocError> {
    let found = outcome(
        alloc,
        BUILD,
        failing_out((put as u64).saturating_add(1), taken),
    )?;
    let length = PIECE.saturating_mul(put).saturating_add(taken as usize);
    has_status(rt, put, BUILD, found.status, Status::WriteFault);
    holds(rt, put, BUILD, found.err.bytes().is_empty());
    holds(rt, put, BUILD, found.out.bytes().len() == length);
    begins_with(rt, put, BUILD, whole, found.out.bytes());
    Ok(())
}

// Each put of an image fails in turn, after none of its bytes and after ten.
fn each_put_fails(rt: &impl Abort, alloc: Global, whole: &[u8]) -> Result<(), AllocError> {
    let puts = whole.len().div_ceil(PIECE);
    holds(rt, 0, "there are more than twenty puts", puts > 20);
    for put in 0..puts {
        put_fails(rt, alloc, whole, put, 0)?;
        put_fails(rt, alloc, whole, put, 10)?;
    }
    Ok(())
}

// One after them does not.
fn none_fails(rt: &impl Abort, alloc: Global, whole: &[u8]) -> Result<(), AllocError> {
    let puts = whole.len().div_ceil(PIECE) as u64;
    let behind = outcome(alloc, BUILD, failing_out(puts.saturating_add(1), 0))?;
    has_status(rt, 0, BUILD, behind.status, Status::Done);
    is_equal(rt, 0, BUILD, behind.out.bytes(), whole);
    Ok(())
}

fn puts_fail(rt: &impl Abort, alloc: Global) -> Result<(), AllocError> {
    let whole = outcome(alloc, BUILD, Fails::never())?;
    each_put_fails(rt, alloc, whole.out.bytes())?;
    none_fails(rt, alloc, whole.out.bytes())
}

#[test]
fn each_put_on_out_fails(rt: HostRuntime) -> Result<(), Fail> {
    Ok(puts_fail(&rt, rt.alloc())?)
}

// Lines that put something on err, how they end, and what stands there: a put for each line.
const TOLD: &[(&str, Status, &str)] = &[
    ("asm", Status::Usage, "usage: nand COMMAND ARGUMENTS\n"),
    ("asm bad.asm", Status::Refused, "bad.asm:1:3: Grammar\n"),
    ("build bad", Status::Refused, "bad/A.jack:1:10: Grammar\n"),
    // a number, and names
    ("asm big.asm", Status::Refused, "big.asm:1:2: Range 32768\n"),
    ("vm none", Status::Refused, "none:0:0: NoSysInit\n"),
    (
        "test t/Ring.tst",
        Status::Refused,
        "first\nt/Ring.hdl:0:0: Loop x,y\n",
    ),
    ("chip Nor", Status::Refused, "Nor:0:0: UnknownChip Nor\n"),
    ("asm none.asm", Status::ReadFault, "nand: read fault\n"),
    (
        "build none",
        Status::Refused,
        "none/Main.jack:0:0: NoMain Main.main\n",
    ),
    // after an echo
    (
        "test t/Wrong.tst",
        Status::Differs,
        "first\nsecond\nt/And.cmp:2:1: Differs\n",
    ),
    (
        "test t/None.tst",
        Status::Refused,
        "first\nt/None.tst:0:0: UnknownChip None\n",
    ),
    (
        "test t/Read.tst",
        Status::ReadFault,
        "first\nnand: read fault\n",
    ),
    (
        "test t/Deep.tst",
        Status::NoMemory,
        "first\nnand: want of memory\n",
    ),
];

fn told_table() -> &'static [(&'static str, Status, &'static str)] {
    TOLD
}

// A put on err fails that still takes this many bytes: these stand there after the lines before, and nothing more is
// put, nor on out.
fn line_fails(
    rt: &impl Abort,
    alloc: Global,
    line: &str,
    (put, taken): (u64, u32),
    (front, out): (&[u8], &[u8]),
) -> Result<(), AllocError> {
    let found = outcome(alloc, line, failing_err(put, taken))?;
    has_status(rt, put as usize, line, found.status, Status::WriteFault);
    is_equal(rt, put as usize, line, found.err.bytes(), front);
    begins_with(rt, put as usize, line, out, found.out.bytes());
    Ok(())
}

// The first bytes, which are there.
fn front_of<'a>(rt: &impl Abort, line: &str, told: &'a [u8], length: usize) -> &'a [u8] {
    holds(rt, length, line, length <= told.len());
    told.get(..length).unwrap_or(told)
}

// Each put on err fails in turn, after none of its bytes and after five.
fn each_line_fails(
    rt: &impl Abort,
    alloc: Global,
    line: &str,
    told: &[u8],
    out: &[u8],
) -> Result<(), AllocError> {
    let mut put = 1u64;
    let mut start = 0usize;
    for (place, byte) in told.iter().enumerate() {
        if *byte == b'\n' {
            let none = front_of(rt, line, told, start);
            let five = front_of(rt, line, told, start.saturating_add(5));
            line_fails(rt, alloc, line, (put, 0), (none, out))?;
            line_fails(rt, alloc, line, (put, 5), (five, out))?;
            put = put.saturating_add(1);
            start = place.saturating_add(1);
        }
    }
    Ok(())
}

fn tells(
    rt: &impl Abort,
    alloc: Global,
    line: &str,
    status: Status,
    told: &[u8],
) -> Result<(), AllocError> {
    let plain = outcome(alloc, line, Fails::never())?;
    has_status(rt, 0, line, plain.status, status);
    is_equal(rt, 0, line, plain.err.bytes(), told);
    each_line_fails(rt, alloc, line, told, plain.out.bytes())
}

#[test]
fn each_put_on_err_fails(rt: HostRuntime) -> Result<(), Fail> {
    for (line, status, told) in told_table() {
        tells(&rt, rt.alloc(), line, *status, told.as_bytes())?;
    }
    Ok(())
}

// A line that is refused so is put whole.
fn refusal_is_put(
    rt: &impl Abort,
    alloc: Global,
    line: &str,
    told: &[u8],
) -> Result<(), AllocError> {
    let whole = outcome(alloc, line, Fails::never())?;
    ended(rt, 0, "chip", &whole, (Status::Refused, b"", told));
    Ok(())
}

// Where the second put on err takes ten bytes alone, the first and these stand there.
fn refusal_is_cut(
    rt: &impl Abort,
    alloc: Global,
    line: &str,
    told: &[u8],
) -> Result<(), AllocError> {
    let cut = outcome(alloc, line, failing_err(2, 10))?;
    has_status(rt, 1, "chip", cut.status, Status::WriteFault);
    holds(rt, 1, "chip", cut.out.bytes().is_empty());
    holds(rt, 1, "chip", cut.err.bytes().len() == 4106);
    begins_with(rt, 1, "chip", told, cut.err.bytes());
    Ok(())
}

// The name of a chip that is longer than a piece.
fn long_name(alloc: Global) -> Result<String, Fail> {
    let mut name = String::new(alloc);
    for _ in 0..5000u32 {
        name.push('x')?;
    }
    Ok(name)
}

// A refusal that is longer than a piece is put in pieces.
#[test]
fn a_long_refusal_is_cut(rt: HostRuntime) -> Result<(), Fail> {
    let name = long_name(rt.alloc())?;
    let line = format!(in rt.alloc(); "chip {name}")?;
    let told = format!(in rt.alloc(); "{name}:0:0: UnknownChip {name}\n")?;
    refusal_is_put(&rt, rt.alloc(), &line, told.as_bytes())?;
    refusal_is_cut(&rt, rt.alloc(), &line, told.as_bytes())?;
    Ok(())
}
