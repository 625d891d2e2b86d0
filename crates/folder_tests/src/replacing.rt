//! Lines with `--replace`: classes of the folder in the place of those of the operating system.
use crate::checks::{holds, tried};
use crate::nand::Nand;
use line_trials::{Fails, Outcome, outcome_of};
use nand_cli::Status;
use std::alloc::{AllocError, Global};
use std::process::Abort;
use std::test::Fail;

const LINES: &str = "
file prog/Main.jack
:class Main { function void main() { } }
file prog/Array.jack
:class Array { function Array new(int size) { return Memory.alloc(size + 1); } method void dispose() { do Memory.deAlloc(this); return; } }
$ compile prog
$ build prog
$ map prog
$ run prog --level jack --cycles 100
refused
err
|prog/Array.jack:1:7: ClassTwice Array

# a call that the language makes is reported at the operator, and the folder's files come first
file prog/Main.jack
:class Main { function void main() { var int x; let x = 2 * 3; return; } }
file prog/Math.jack
:class Math { function void init() { return; } }
$ compile prog --replace
$ build --replace prog
$ map prog --replace
$ map prog --format 1 --replace
$ run prog --level jack --cycles 100 --replace
$ run prog --level gates --cycles 100 --replace
refused
err
|prog/Main.jack:1:58: UnknownSubroutine multiply

# a call of a text of the operating system is reported there
file prog/Main.jack
:class Main { function void main() { var int x; let x = 2 * 3; return; } }
file prog/Math.jack
:class Math { function void init() { return; } function int multiply(int x, int y) { return x + y; } function int divide(int x, int y) { return x; } }
$ compile prog --replace
$ build --replace prog
$ map prog --replace
$ map prog --format 1 --replace
$ run prog --level jack --cycles 100 --replace
$ run prog --level gates --cycles 100 --replace
refused
err
|os/Screen.jack:45:33: UnknownSubroutine min

file prog/Main.jack
:class Main { function void main() { } }
file prog/Sys.jack
:class Sys { }
$ compile prog --replace
$ build --replace prog
$ map prog --replace
$ map prog --format 1 --replace
$ run prog --level jack --cycles 100 --replace
$ run prog --level gates --cycles 100 --replace
refused
err
|prog/Sys.jack:1:7: ClassTwice Sys

# the name of the class decides, and not that of the file
file prog/Main.jack
:class Main { function void main() { } }
file prog/A.jack
:class Array { function Array new(int size) { return Memory.alloc(size + 1); } method void dispose() { do Memory.deAlloc(this); return; } }
$ compile prog --replace
$ build --replace prog
$ map prog --replace
$ map prog --format 1 --replace
$ run prog --level jack --cycles 100 --replace
$ run prog --level gates --cycles 100 --replace
refused
err
|prog/A.jack:1:7: FileName Array

file prog/Main.jack
:class Main { function void main() { } }
file prog/Array.jack
:class A { }
$ compile prog --replace
$ build --replace prog
$ map prog --replace
$ map prog --format 1 --replace
$ run prog --level jack --cycles 100 --replace
$ run prog --level gates --cycles 100 --replace
refused
err
|prog/Array.jack:1:7: FileName A

file prog/Main.jack
:class Main { function void main() { } }
file prog/Math.jack
:class Math { function void init() { return; } function int multiply(int x, int y) { return x + y; } function int divide(int x, int y) { return x; } function int min(int a, int b) { return a; } function int max(int a, int b) { return b; } }
$ compile prog --replace
out
|// file Main.vm
|function Main.main 0
|push constant 0
|return
|// file Math.vm
|function Math.init 0
|push constant 0
|return
|function Math.multiply 0
|push argument 0
|push argument 1
|add
|return
|function Math.divide 0
|push argument 0
|return
|function Math.min 0
|push argument 0
|return
|function Math.max 0
|push argument 1
|return
";

// an array of no words has one
const ARRAYS: &str = "
file prog/Main.jack
:class Main { function void main() { var Array s; let s = 16384; let s[0] = Array.new(0) > 0; return; } }
file prog/Array.jack
:class Array { function Array new(int size) { return Memory.alloc(size + 1); } method void dispose() { do Memory.deAlloc(this); return; } }
$ run prog --level jack --cycles 300000 --replace --show screen
$ run prog --level vm --cycles 300000 --replace --show screen
$ run prog --level hack --cycles 300000 --replace --show screen
$ run prog --level gates --cycles 100000 --replace --show screen
screen
:################
";

// a product is a sum
const PRODUCTS: &str = "
file prog/Main.jack
:class Main { function void main() { var Array s; let s = 16384; let s[0] = 2 * 3; return; } }
file prog/Math.jack
:class Math { function void init() { return; } function int multiply(int x, int y) { return x + y; } function int divide(int x, int y) { return x; } function int min(int a, int b) { return a; } function int max(int a, int b) { return b; } }
$ run prog --level jack --cycles 300000 --replace --show screen
$ run prog --level vm --cycles 300000 --replace --show screen
$ run prog --level hack --cycles 300000 --replace --show screen
$ run prog --level gates --cycles 100000 --replace --show screen
screen
:#.#
";

#[test]
fn replaced_classes_are_tried(rt: HostRuntime) -> Result<(), Fail> {
    tried(&rt, rt.alloc(), LINES)
}

#[test]
fn an_own_array_at_all_levels(rt: HostRuntime) -> Result<(), Fail> {
    tried(&rt, rt.alloc(), ARRAYS)
}

#[test]
fn own_products_at_all_levels(rt: HostRuntime) -> Result<(), Fail> {
    tried(&rt, rt.alloc(), PRODUCTS)
}

const PRODUCT: &str = "
file prog/Main.jack
:class Main { function void main() { var int x; let x = 2 * 3; return; } }
";

fn built(alloc: Global, line: &str) -> Result<Outcome, AllocError> {
    outcome_of(&Nand, alloc, PRODUCT, line, Fails::never())
}

fn is_built_so(rt: &impl Abort, alloc: Global, plain: &Outcome) -> Result<(), AllocError> {
    let replacing = built(alloc, "build prog --replace")?;
    let is_done = replacing.status == Status::Done.code();
    holds(rt, "build prog --replace", is_done);
    let is_same = replacing.out.bytes() == plain.out.bytes();
    holds(rt, "build prog --replace", is_same);
    Ok(())
}

fn nothing_changes(rt: &impl Abort, alloc: Global) -> Result<(), AllocError> {
    let plain = built(alloc, "build prog")?;
    is_built_so(rt, alloc, &plain)
}

// Where no class has a name of the operating system's, the option changes nothing.
#[test]
fn nothing_to_replace(rt: HostRuntime) -> Result<(), Fail> {
    Ok(nothing_changes(&rt, rt.alloc())?)
}
