//! Lines of `compile`, `build`, `map` and `chip`.
use crate::checks::tried;
use std::test::Fail;

const LINES: &str = "
file prog/Main.jack
:class Main { function void main() { } }
$ compile prog
out
|// file Main.vm
|function Main.main 0
|push constant 0
|return

# a subroutine that nothing calls is there too
file prog/Main.jack
:class Main { function void main() { } function int f(int n) { return -n; } }
$ compile prog
out
|// file Main.vm
|function Main.main 0
|push constant 0
|return
|function Main.f 0
|push argument 0
|neg
|return

file prog/Main.jack
:class Main { function void main() { } function int f(int n) { return ^-#n; } }
$ compile prog
out
|// file Main.vm
|function Main.main 0
|push constant 0
|return
|function Main.f 0
|push argument 0
|shiftright
|neg
|shiftleft
|return

file a
$ chip Not
out
|CHIP Not {
|IN in ;
|OUT out ;
|PARTS : Nand ( a = in , b = in , out = out ) ;
|}

$ chip Nand
out
|CHIP Nand {
|IN a , b ;
|OUT out ;
|BUILTIN Nand ;
|}

$ chip Nor
refused
err
|Nor:0:0: UnknownChip Nor

$ chip not
refused
err
|not:0:0: UnknownChip not

$ chip a.hdl
refused
err
|a.hdl:0:0: UnknownChip a.hdl

# the classes stand in order of file name, each after its name, also one without subroutines
file prog/Main.jack
:class Main { function void main() { } }
file prog/A.jack
:class A { }
$ compile prog
out
|// file A.vm
|// file Main.vm
|function Main.main 0
|push constant 0
|return

file prog/Main.jack
:class Main { function void main() { } }
file prog/Math.jack
:class Math { }
$ compile prog
$ build prog
$ map prog
$ map prog --format 1
refused
err
|prog/Math.jack:1:7: ClassTwice Math

# the calls of the shelf are the listing, A and Main
file prog/Main.jack
:class Main { function void main() { } }
file prog/A.jack
:class A { }
$ build prog
fails shelf 3
read fault
err
|nand: read fault

# a line feed in a name parts the line of its fault in two
files 1 p/a~b.jack
:x
$ build p
refused
err
|p/a
|b.jack:1:1: Grammar
";

// the routines stand at the end of the image: call, return, and the comparisons by = > <
const IMAGES: &str = "
# the words of the image stand one a line
file prog/Main.jack
:class Main { function void main() { } }
file prog/A.jack
:class A { }
$ build prog
size 103496
begins
|0000000100000000
|1110110000010000
|0000000000000000
|1110001100001000
cut 4106

# the map begins with the points of the start code, and ends with the routines; no point is in them
$ map prog --format 1
begins
|map 1
|point 0 21 start 1
|point 21 23 start 2
:point 23 
ends
|shared 5922 5956
|shared 5956 5996
|shared 5996 6012
|shared 6012 6050
|shared 6050 6088

# the only statement of a body without one is the return that is added to it
file prog/Main.jack
:class Main { function void main() { } }
$ map prog --format 1
once
| Main.main 1
never
| Main.main 2
";

#[test]
fn lines_of_folders_and_chips(rt: HostRuntime) -> Result<(), Fail> {
    tried(&rt, rt.alloc(), LINES)
}

#[test]
fn a_program_is_built(rt: HostRuntime) -> Result<(), Fail> {
    tried(&rt, rt.alloc(), IMAGES)
}
