//! Lines of `run` over folders of several classes.
use crate::checks::tried;
use std::test::Fail;

const CLASSES: &str = "
# the order of the files is that of their names, whatever that of the shelf is; other files are not looked at. The bits
# are those of the words 0, 2, 4, 2, 3, 45, 2, 13, -1, 4, -1 and 0, one after the other
file prog/readme.txt
:class
file prog/Point.jack
:class Point { static int count; field int x, y; constructor Point new(int ax, int ay) { let x = ax; let y = ay; let count = count + 1; return this; } method int sum() { return x + y; } method void move(int dx) { let x = x + dx; do turn(); return; } method void turn() { let y = -y; } method boolean same(Point other) { return this = other; } function int total() { return count; } }
file prog/Main.jack
|class Main { function void main() { var Point p, q; var String s; var Array a; var int i;
|let a = 16384;
|let p = Point.new(3, 4);
|let q = Point.new(10 / 3, 6 * 7);
|do p.move(2);
|let s = \"ab\";
|let i = 0;
|while (i < 3) { let a[i] = i + i; let i = i + 1; }
|if (p.same(q)) { let a[3] = 1; } else { let a[3] = 2; }
|if (~p.same(p)) { let a[4] = 1; } else { let a[4] = 3; }
|let a[5] = q.sum();
|let a[6] = Point.total();
|let a[7] = (true & 12) | 1;
|let a[8] = -1 - false;
|let a[9] = a[a[1]];
|let a[10] = (i > 2) = true;
|let a[11] = null;
|while (true) { }
:} }
$ run prog --level jack --cycles 300000 --show screen
$ run prog --level vm --cycles 300000 --show screen
$ run prog --level hack --cycles 300000 --show screen
screen
:.................#................#..............#..............##..............#.##.#...........#..............#.##............################..#.............################
";

const EXPRESSIONS: &str = "
# the bits of 2,000
file prog/Main.jack
:class Main { function void main() { var Array a; let a = 16384; let a[0] = 0
2000: + 1
:; } }
$ run prog --level jack --cycles 300000 --show screen
$ run prog --level vm --cycles 300000 --show screen
$ run prog --level hack --cycles 300000 --show screen
screen
:....#.#####

# each product is a call in the first argument of the next
file prog/Main.jack
:class Main { function void main() { var Array a; let a = 16384; let a[0] = 3
400: * 1
:; } }
$ run prog --level jack --cycles 300000 --show screen
screen
:##
";

// the computer has 240 static words, of which the system takes 5, and 32,768 words of code
const FITTING: &str = "
file prog/Main.jack
:class Main { 
235#:static int s%; 
:function void main() { let s234 = 1; } }
$ run prog --level jack --cycles 0
out
|level jack
|moves 0
|steps 0
|point start 1
|end bound

$ run prog --level vm --cycles 0
out
|level vm
|moves 0
|steps 0
|point start 1
|end bound

$ run prog --level hack --cycles 0
out
|level hack
|moves 0
|steps 0
|point start 1
|end bound

# a store takes at most 28 words beside those of its parts, and a load 18
file prog/Main.jack
:class Main { function void main() { var Array a; var int i, j; 
400:let a[i] = j; 
:} }
$ run prog --level hack --cycles 0
out
|level hack
|moves 0
|steps 0
|point start 1
|end bound

file prog/Main.jack
:class Main { function void main() { var Array a; var int i, j; 
480:let i = a[j]; 
:} }
$ run prog --level hack --cycles 0
out
|level hack
|moves 0
|steps 0
|point start 1
|end bound

# each character of a string has 18 words
file prog/Main.jack
:class Main { function void main() { do Output.printString(\"
1000:a
:\"); } }
$ run prog --level hack --cycles 0
out
|level hack
|moves 0
|steps 0
|point start 1
|end bound
";

// what has no computer is run at no level; of the key script, whose moments do not rise or which is not there, nothing
// is reported
const TOO_LARGE: &str = "
file prog/k.txt
|5 65
|5 66
file prog/Main.jack
:class Main { 
236#:static int s%; 
:function void main() { let s235 = 1; } }
$ run prog --level jack --keys prog/k.txt --cycles 0
$ run prog --level vm --keys k.txt --cycles 0
$ run prog --level hack --keys k.txt --cycles 0
refused
err
|prog:0:0: TooManyStatics 241

# 46 words for each store
file prog/k.txt
|5 65
|5 66
file prog/Main.jack
:class Main { function void main() { var Array a; let a = 2048; 
3000:let a[0] = 1; 
:} }
$ run prog --level jack --keys prog/k.txt --cycles 0
$ run prog --level vm --keys k.txt --cycles 0
$ run prog --level hack --keys k.txt --cycles 0
refused
err
|prog:0:0: TooLarge 144104

# however many operators stand in a row, they are read, resolved and counted: 11 words for each sum, 18 for each
# product
file prog/k.txt
|5 65
|5 66
file prog/Main.jack
:class Main { function void main() { var Array a; let a = 16384; let a[0] = 0
100000: + 1
:; } }
$ run prog --level jack --keys prog/k.txt --cycles 0
$ run prog --level vm --keys k.txt --cycles 0
$ run prog --level hack --keys k.txt --cycles 0
refused
err
|prog:0:0: TooLarge 1106150

file prog/k.txt
|5 65
|5 66
file prog/Main.jack
:class Main { function void main() { var Array a; let a = 16384; let a[0] = 3
20000: * 1
:; } }
$ run prog --level jack --keys prog/k.txt --cycles 0
$ run prog --level vm --keys k.txt --cycles 0
$ run prog --level hack --keys k.txt --cycles 0
refused
err
|prog:0:0: TooLarge 366416
";

#[test]
fn a_folder_of_classes_runs(rt: HostRuntime) -> Result<(), Fail> {
    tried(&rt, rt.alloc(), CLASSES)
}

#[test]
fn a_long_expression_runs(rt: HostRuntime) -> Result<(), Fail> {
    tried(&rt, rt.alloc(), EXPRESSIONS)
}

#[test]
fn programs_fit_the_computer(rt: HostRuntime) -> Result<(), Fail> {
    tried(&rt, rt.alloc(), FITTING)
}

#[test]
fn the_computer_has_limits(rt: HostRuntime) -> Result<(), Fail> {
    tried(&rt, rt.alloc(), TOO_LARGE)
}
