//! Lines of `debug`.
use crate::checks::tried;
use std::test::Fail;

const LINES: &str = "
file prog/Main.jack
:class Main { static int t; function void main() { do Main.f(3); return; } function void f(int x) { var int y; let y = x + 1; let t = y; return; } }
$ debug prog --break Main.f:3 --cycles 300000
out
|break Main.f 3
|moves 19946
|steps 1743
|argument x 3
|local y 4
|static t 4
|from Main.main 1
|from Sys.init 6
|from start 1

# the start, at once
$ debug prog --break start:1 --cycles 0
out
|break start 1
|moves 0
|steps 0

# never reached in this many cycles
$ debug prog --break Main.f:3 --cycles 0
out
|break none
|moves 0
|steps 0

# no such statement: reported before the key script is read, and after the build
$ debug prog --break Main.g:1 --cycles 5
$ debug prog --break Main.g:001 --cycles 5
$ debug prog --break Main.g:1 --cycles 5 --keys none.txt
refused
err
|prog:0:0: NoPoint Main.g:1

$ debug prog --break Main.f:9 --cycles 5
refused
err
|prog:0:0: NoPoint Main.f:9

# the greatest number of a statement, and one more
$ debug prog --break Main.f:1000000000 --cycles 5
refused
err
|prog:0:0: NoPoint Main.f:1000000000

$ debug prog --break Main.f:1000000001 --cycles 5
usage
err
|usage: nand COMMAND ARGUMENTS

$ debug prog --break Main.f:1 --cycles 5 --keys none.txt
read fault
err
|nand: read fault

# while the entry code runs the local is 0
$ debug prog --break Main.f:1 --cycles 300000
fourth
|argument x 3
|local y 0
|static t 0
ends
|from Main.main 1
|from Sys.init 6
|from start 1

# three calls of one subroutine
file prog/Main.jack
|class Main {
|    function void main() {
|        var int got;
|        let got = Main.down(2);
|        return;
|    }
|    function int down(int n) {
|        var int more;
|        if (n = 0) { return 7; }
|        let more = Main.down(n - 1);
|        return more + 1;
|    }
|}
$ debug prog --break Main.down:2 --cycles 300000
fourth
|argument n 0
|local more 0
|from Main.down 3
|from Main.down 3
ends
|from Main.down 3
|from Main.main 1
|from Sys.init 6
|from start 1

# a constructor before it has its memory, and after
file prog/Main.jack
:class Main { function void main() { var Point p; let p = Point.new(5, -6); do p.move(1); return; } }
file prog/Point.jack
|class Point {
|    static int count, unused;
|    field int x, y;
|    constructor Point new(int ax, int ay) {
|        let x = ax;
|        let y = ay;
|        let count = count + 1;
|        return this;
|    }
|    method void move(int by) {
|        let x = x + by;
|        return;
|    }
|}
$ debug prog --break Point.new:0 --cycles 300000
fourth
|this 0
|argument ax 5
|argument ay -6
|static count 0
|static unused 0
ends
|from Main.main 1
|from Sys.init 6
|from start 1

$ debug prog --break Point.new:4 --cycles 300000
fourth
:this 1
ends
|
|argument ax 5
|argument ay -6
|static count 1
|static unused 0
|from Main.main 1
|from Sys.init 6
|from start 1

# a method, whose object has no name
$ debug prog --break Point.move:1 --cycles 300000
fourth
:this 1
ends
|
|argument by 1
|static count 1
|static unused 0
|from Main.main 2
|from Sys.init 6
|from start 1

# a stack that the program has overwritten
file prog/Main.jack
:class Main { function void main() { var Array a; let a = 1; let a[0] = 100; return; } }
$ debug prog --break Main.main:3 --cycles 300000
fourth
:local a 
ends
|
|from ?

file prog/Main.jack
:class Main { function void main() { var Array a; let a = 261; let a[0] = 32767; return; } }
$ debug prog --break Main.main:3 --cycles 300000
fourth
|local a 261
ends
|local a 261
|from ?
";

#[test]
fn statements_are_reached(rt: HostRuntime) -> Result<(), Fail> {
    tried(&rt, rt.alloc(), LINES)
}
