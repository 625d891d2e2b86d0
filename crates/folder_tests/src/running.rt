//! Lines of `run` at the level of the meaning.
use crate::checks::{holds, tried};
use crate::nand::Nand;
use line_trials::{Fails, outcome_of};
use std::alloc::Global;
use std::test::Fail;

// the system makes 1,735 moves before `Main.main` begins, and halts for ever after it
const REPORTS: &str = "
file prog/Main.jack
:class Main { function void main() { var Array s; let s = 100; let s[0] = 1; return; } }
$ run prog --level jack --cycles 10000
$ run prog --level jack --cycles 1000000000
out
|level jack
|moves 1740
|steps 1740
|point Main.main 2
|end stray 100

file prog/Main.jack
:class Main { function void main() { var Array s; let s = 16384; let s[0] = 1; return; } }
$ run prog --level jack --cycles 10000
out
|level jack
|moves 10000
|steps 10000
|point Sys.halt 1
|end bound

$ run prog --level jack --cycles 10000 --show none
out
|level jack
|moves 10000
|steps 10000
|point Sys.halt 1
|end bound

# the moves that are made
$ run prog --level jack --cycles 0
out
|level jack
|moves 0
|steps 0
|point start 1
|end bound

$ run prog --level jack --cycles 1
out
|level jack
|moves 1
|steps 1
|point Sys.init 1
|end bound

$ run prog --level jack --cycles 2
out
|level jack
|moves 2
|steps 2
|point Memory.init 1
|end bound

$ run prog --level jack --cycles 9
out
|level jack
|moves 9
|steps 9
|point Memory.init 3
|end bound

$ run prog --level jack --cycles 10
out
|level jack
|moves 10
|steps 10
|point Memory.init 4
|end bound

# before the system has stored it, no word of the heap is there
file prog/Main.jack
:class Main { function void main() {  } }
$ run prog --level jack --cycles 9 --show heap
out
|level jack
|moves 9
|steps 9
|point Memory.init 3
|end bound

# the return that is added to a body is a statement after its last
$ run prog --level jack --cycles 1735
out
|level jack
|moves 1735
|steps 1735
|point Main.main 1
|end bound

# the heap begins with the length of the one free block
file prog/Main.jack
:class Main { function void main() { var Array s; let s = 16384; let s[0] = 1; return; } }
$ run prog --level jack --cycles 10 --show heap
out
|level jack
|moves 10
|steps 10
|point Memory.init 4
|end bound
|2048 14336
";

// texts of Main.jack, and their first fault, which is reported alike at both levels
const REFUSED: &str = "
file prog/Main.jack
:class Main { function void main() { let x = ; } }
$ run prog --level jack --cycles 100
$ run prog --level hack --cycles 100
refused
err
|prog/Main.jack:1:45: Grammar

file prog/Main.jack
|class Main {
|  function void main() {
|  var int x;
|  let x = 32768;
: } }
$ run prog --level jack --cycles 100
$ run prog --level hack --cycles 100
refused
err
|prog/Main.jack:4:11: Range 32768

file prog/Main.jack
$ run prog --level jack --cycles 100
$ run prog --level hack --cycles 100
refused
err
|prog/Main.jack:1:1: Grammar

file prog/Main.jack
:class A { function void main() { var int x, x; } }
$ run prog --level jack --cycles 100
$ run prog --level hack --cycles 100
refused
err
|prog/Main.jack:1:7: FileName A

file prog/Main.jack
:class Main { function void main() { var int x, x; let y = 1; } }
$ run prog --level jack --cycles 100
$ run prog --level hack --cycles 100
refused
err
|prog/Main.jack:1:48: VariableTwice x

file prog/Main.jack
:class Main { function void main() { var int x; let x = y; } }
$ run prog --level jack --cycles 100
$ run prog --level hack --cycles 100
refused
err
|prog/Main.jack:1:56: UnknownVariable y
";

// the folder is taken as it is
const FOLDERS: &str = "
file prog//Main.jack
:class Main { function void main() { var Array s; let s = 16384; let s[0] = 1; return; } }
$ run prog/ --level jack --cycles 0
out
|level jack
|moves 0
|steps 0
|point start 1
|end bound

file a/b/Main.jack
:class Main { function void main() { var Array s; let s = 16384; let s[0] = 1; return; } }
$ run a/b --level jack --cycles 0
out
|level jack
|moves 0
|steps 0
|point start 1
|end bound

file Main.jack
:class Main { function void main() { var Array s; let s = 16384; let s[0] = 1; return; } }
$ run  --level jack --cycles 0
out
|level jack
|moves 0
|steps 0
|point start 1
|end bound

# a key script that is not there
file prog/Main.jack
:class Main { function void main() { var Array s; let s = 16384; let s[0] = 1; return; } }
$ run prog --level jack --cycles 100 --show heap --keys k.txt
read fault
err
|nand: read fault

$ run prog --level jack --cycles 0
fails shelf 1
read fault
err
|nand: read fault

$ run prog --level jack --cycles 0
fails out 1 10
write fault
out
:level jack
";

#[test]
fn runs_of_the_meaning(rt: HostRuntime) -> Result<(), Fail> {
    tried(&rt, rt.alloc(), REPORTS)
}

#[test]
fn classes_are_refused(rt: HostRuntime) -> Result<(), Fail> {
    tried(&rt, rt.alloc(), REFUSED)
}

#[test]
fn folders_and_faults_outside(rt: HostRuntime) -> Result<(), Fail> {
    tried(&rt, rt.alloc(), FOLDERS)
}

// The number of moves in a report of a program that strays at the address 100.
fn moves_in(report: &[u8]) -> u32 {
    let mut moves = 0u32;
    for line in report.split(|byte| *byte == b'\n') {
        if let Some(digits) = line.strip_prefix(b"moves ") {
            for digit in digits {
                let digit = u32::from(digit.saturating_sub(b'0'));
                moves = moves.saturating_mul(10).saturating_add(digit);
            }
        }
    }
    moves
}

// How many moves a program makes that waits for so long and then strays.
fn moves_of_waiting(alloc: Global, duration: u32) -> Result<u32, Fail> {
    let files = format!(in alloc;
        "file prog/Main.jack\n:class Main {{ function void main() {{ var Array s; do Sys.wait({duration}); let s = 100; let s[0] = 1; }} }}"
    )?;
    let line = "run prog --level jack --cycles 20000";
    let outcome = outcome_of(&Nand, alloc, &files, line, Fails::never())?;
    if !outcome.out.bytes().ends_with(b"end stray 100\n") {
        return Err(Fail::from("the program strays"));
    }
    Ok(moves_in(outcome.out.bytes()))
}

// A wait counts its duration down by 1: each makes as many moves more than the one before.
#[test]
fn the_system_waits(rt: HostRuntime) -> Result<(), Fail> {
    let first = moves_of_waiting(rt.alloc(), 0)?;
    let turn = moves_of_waiting(rt.alloc(), 1)?.saturating_sub(first);
    holds(&rt, "a turn takes moves", turn > 0);
    for duration in [2u32, 3, 10] {
        let moves = first.saturating_add(duration.saturating_mul(turn));
        let waited = moves_of_waiting(rt.alloc(), duration)?;
        holds(&rt, "the moves of a wait", waited == moves);
    }
    Ok(())
}
