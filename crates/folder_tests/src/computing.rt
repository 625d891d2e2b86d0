//! Lines of `run` at the levels of the computer, beside the same at the level of the meaning.
use crate::checks::tried;
use std::test::Fail;

// the computer and the virtual machine start as the meaning
const RUNS: &str = "
file prog/Main.jack
:class Main { function void main() { var Array s; let s = 16384; let s[0] = 1; return; } }
$ run prog --level hack --cycles 0
out
|level hack
|moves 0
|steps 0
|point start 1
|end bound

$ run prog --level vm --cycles 0
out
|level vm
|moves 0
|steps 0
|point start 1
|end bound

file prog/Main.jack
:class Main { function void main() { var Array s; let s = 16384; let s[0] = 1; return; } }
file k.txt
|5 65
|5 66
$ run prog --level hack --cycles 100 --keys k.txt
refused
err
|k.txt:2:1: NotRising

# a fault of the class comes first
file prog/Main.jack
:class A { function void main() { return; } }
file k.txt
|5 65
|5 66
$ run prog --level hack --cycles 100 --keys k.txt
refused
err
|prog/Main.jack:1:7: FileName A

# and before a script that is not there
file prog/Main.jack
:class A { function void main() { return; } }
$ run prog --level hack --cycles 100 --keys k.txt
refused
err
|prog/Main.jack:1:7: FileName A

# the most cycles are a line, whose folder is looked at; one more is none
file prog/Main.jack
:class A { }
$ run prog --level vm --cycles 1000000000
$ run prog --level hack --cycles 1000000000
$ run prog --level gates --cycles 1000000000
$ debug prog --break Main.main:1 --cycles 1000000000
refused
err
|prog/Main.jack:1:7: FileName A

$ run prog --level vm --cycles 1000000001
$ run prog --level hack --cycles 1000000001
$ run prog --level gates --cycles 1000000001
$ debug prog --break Main.main:1 --cycles 1000000001
usage
err
|usage: nand COMMAND ARGUMENTS
";

const FULL: &str = "
# 358 frames of 5 words stand, and the next one needs 5 more
file prog/Main.jack
:class Main { function void main() { do Main.main(); return; } }
$ run prog --level vm --cycles 1000000
begins
|level vm
ends
|end full 1795

# two values beside these frames are as many words as there may be, and the next frame is too much
file prog/Main.jack
:class Main { static int n; function void main() { let n = n + 1; do Main.main(); return; } }
$ run prog --level vm --cycles 1000000
holds
|point Main.main 2
ends
|end full 1795

# three are one too many
file prog/Main.jack
:class Main { static int n; function void main() { let n = n + (1 + 1); do Main.main(); return; } }
$ run prog --level vm --cycles 1000000
holds
|point Main.main 1
ends
|end full 1793
";

// In 100,000 cycles each program ends, and at the gates each of them takes long: examples/levels makes 300,000 there too.
// A netlist that is simplified has the screens too (SIMPLIFIED).
const SCREENS: &str = "
file prog/Main.jack
:class Main { function void main() { var Array s; let s = 16384; let s[0] = ~32767; return; } }
$ run prog --level jack --cycles 300000 --show screen
$ run prog --level vm --cycles 300000 --show screen
$ run prog --level hack --cycles 300000 --show screen
$ run prog --level gates --cycles 100000 --show screen
screen
:...............#

file prog/Main.jack
:class Main { function void main() { var Array s; let s = 16384; let s[0] = 1; return; } }
$ run prog --level jack --cycles 300000 --show screen
$ run prog --level vm --cycles 300000 --show screen
$ run prog --level hack --cycles 300000 --show screen
$ run prog --level gates --cycles 100000 --show screen
screen
:#

# any value but 0 is true
file prog/Main.jack
:class Main { function void main() { var Array s; let s = 16384; if (2) { let s[0] = 1; } else { let s[0] = 2; } if (~2) { let s[1] = 1; } else { let s[1] = 2; } return; } }
$ run prog --level jack --cycles 300000 --show screen
$ run prog --level vm --cycles 300000 --show screen
$ run prog --level hack --cycles 300000 --show screen
$ run prog --level gates --cycles 100000 --show screen
screen
:#...............#
";

const SIMPLIFIED: &str = "
file prog/Main.jack
:class Main { function void main() { var Array s; let s = 16384; let s[0] = ~32767; return; } }
$ run prog --level gates --simplify --cycles 100000 --show screen
screen
:...............#

file prog/Main.jack
:class Main { function void main() { var Array s; let s = 16384; let s[0] = 1; return; } }
$ run prog --level gates --simplify --cycles 100000 --show screen
screen
:#

# any value but 0 is true
file prog/Main.jack
:class Main { function void main() { var Array s; let s = 16384; if (2) { let s[0] = 1; } else { let s[0] = 2; } if (~2) { let s[1] = 1; } else { let s[1] = 2; } return; } }
$ run prog --level gates --simplify --cycles 100000 --show screen
screen
:#...............#
";

const COMPUTED: &str = "
# operators bind from left to right
file prog/Main.jack
:class Main { function void main() { var Array s; let s = 16384; let s[0] = 2+3*4; let s[1] = 2+(3*4); return; } }
$ run prog --level jack --cycles 300000 --show screen
$ run prog --level vm --cycles 300000 --show screen
$ run prog --level hack --cycles 300000 --show screen
$ run prog --level gates --cycles 100000 --show screen
screen
:..#.#............###

# shifts: to the left and, rounded down, to the right
file prog/Main.jack
:class Main { function void main() { var Array s; let s = 16384; let s[0] = ^5; let s[1] = #(-5); return; } }
$ run prog --level jack --cycles 300000 --show screen
$ run prog --level vm --cycles 300000 --show screen
$ run prog --level hack --cycles 300000 --show screen
$ run prog --level gates --cycles 100000 --show screen
screen
:.#.#............#.##############

# a comparison is that of the numbers, also where their difference is no word
file prog/Main.jack
:class Main { function void main() { var Array s; let s = 16384; let s[0] = 20000 < (-20000); let s[1] = (-20000) < 20000; return; } }
$ run prog --level jack --cycles 300000 --show screen
$ run prog --level vm --cycles 300000 --show screen
$ run prog --level hack --cycles 300000 --show screen
$ run prog --level gates --cycles 100000 --show screen
screen
:................################
";

const KEYS: &str = "
# the code 65 has the bits 0 and 6
file prog/Main.jack
:class Main { function void main() { var Array s; let s = 16384; let s[0] = Keyboard.keyPressed(); return; } }
file k.txt
|0 65
|1000000 66
$ run prog --level jack --cycles 300000 --keys k.txt --show screen
$ run prog --level vm --cycles 300000 --keys k.txt --show screen
$ run prog --level hack --cycles 300000 --keys k.txt --show screen
$ run prog --level gates --cycles 100000 --keys k.txt --show screen
screen
:#.....#
";

const PICTURES: &str = "
# a square root, and the least of two numbers
file prog/Main.jack
:class Main { function void main() { var Array s; let s = 16384; let s[0] = Math.sqrt(32767); let s[1] = Math.min(-3, 2); return; } }
$ run prog --level hack --cycles 10000000 --show screen
screen
|#.#.##.#........#.##############

# a line and a circle
file prog/Main.jack
:class Main { function void main() { var Array s; let s = 16384; if (true) { do Screen.drawLine(0, 0, 3, 1); do Screen.drawCircle(34, 2, 2); } return; } }
$ run prog --level hack --cycles 10000000 --show screen
screen
|#.................................#
|####.............................###
|................................#####
|.................................###
|..................................#

# a negative number
file prog/Main.jack
:class Main { function void main() { var Array s; let s = 16384; if (true) { do Output.printInt(-7); } return; } }
$ run prog --level hack --cycles 10000000 --show screen
screen
|
|........#####
|............#
|...........#
|#####.....#
|.........#
|.........#
|.........#

# a division by 0 is an error of the system
file prog/Main.jack
:class Main { function void main() { var Array s; let s = 16384; let s = 1/0; return; } }
$ run prog --level hack --cycles 1000000 --show screen
screen
|
|#####...####....####....#####...
|#.......#...#...#...#......#....
|#.......#...#...#...#.....#.....
|####....####....####.......#....
|#.......#.#.....#.#.........#...
|#.......#..#....#..#....#...#...
|#####...#...#...#...#....###....
";

#[test]
fn runs_of_the_computer(rt: HostRuntime) -> Result<(), Fail> {
    tried(&rt, rt.alloc(), RUNS)
}

#[test]
fn the_stack_gets_full(rt: HostRuntime) -> Result<(), Fail> {
    tried(&rt, rt.alloc(), FULL)
}

#[test]
fn all_levels_have_one_screen(rt: HostRuntime) -> Result<(), Fail> {
    tried(&rt, rt.alloc(), SCREENS)
}

#[test]
fn simplified_gates_have_that_screen(rt: HostRuntime) -> Result<(), Fail> {
    tried(&rt, rt.alloc(), SIMPLIFIED)
}

#[test]
fn all_levels_compute_alike(rt: HostRuntime) -> Result<(), Fail> {
    tried(&rt, rt.alloc(), COMPUTED)
}

#[test]
fn all_levels_read_the_keyboard(rt: HostRuntime) -> Result<(), Fail> {
    tried(&rt, rt.alloc(), KEYS)
}

#[test]
fn the_computer_draws(rt: HostRuntime) -> Result<(), Fail> {
    tried(&rt, rt.alloc(), PICTURES)
}
