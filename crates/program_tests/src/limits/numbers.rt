//! Numbers of texts: the greatest, and one more.
use crate::checks::tried;
use std::test::Fail;

const NUMBERS: &str = "
# a label at the last word of the code, and one after it
file F.asm
|@E
|D=A
|@0
|M=D
32763|0
|(E)
|0
$ exec F.asm --cycles 4 --from 0 --to 0
out
|0 32767

file F.asm
|@E
32767|0
:(E)
$ asm F.asm
refused
err
|F.asm:1:2: Range 32768

# the last moment of a key, and one later
file p/Main.jack
:class Main { function void main() { } }
file k.txt
:1000000000 5
$ run p --level jack --cycles 0 --keys k.txt
out
|level jack
|moves 0
|steps 0
|point start 1
|end bound

file p/Main.jack
:class Main { function void main() { } }
file k.txt
:1000000001 5
$ run p --level jack --cycles 0 --keys k.txt
refused
err
|k.txt:1:1: Range 1000000000

# the greatest code of a key, whose bits are all 1, and one more
file p/Main.jack
:class Main { function void main() { var Array s; let s = 16384; let s[0] = Keyboard.keyPressed(); return; } }
file k.txt
:0 65535
$ run p --level jack --cycles 3000 --keys k.txt --show screen
screen
:################

file p/Main.jack
:class Main { function void main() { } }
file k.txt
:0 65536
$ run p --level jack --cycles 0 --keys k.txt
refused
err
|k.txt:1:3: Range 65536

# the greatest constant of a VM text, and one more
file v/Sys.vm
:push constant 32767
$ vm v --bare
out
|@32767
|D=A
|@0
|AM=M+1
|A=A-1
|M=D

file v/Sys.vm
:push constant 32768
$ vm v --bare
refused
err
|v/Sys.vm:1:15: Range 32768

# its other numbers
file A.vm
|push local 32767
|pop argument 32767
|push this 32767
|pop that 32767
|push static 32767
|pop pointer 1
|push temp 7
|function f 32767
|call f 32767
$ show A.vm
out
|push local 32767
|pop argument 32767
|push this 32767
|pop that 32767
|push static 32767
|pop pointer 1
|push temp 7
|function f 32767
|call f 32767

file A.vm
:push local 32768
$ show A.vm
refused
err
|A.vm:1:12: Range 32768

file A.vm
:function f 32768
$ show A.vm
refused
err
|A.vm:1:12: Range 32768

file A.vm
:call f 32768
$ show A.vm
refused
err
|A.vm:1:8: Range 32768

file A.vm
:push temp 8
$ show A.vm
refused
err
|A.vm:1:11: Range 8

# the last bit of a pin, and one past it
file F.hdl
:CHIP F { IN a[16]; OUT out; PARTS: Not(in=a[15], out=out); }
$ show F.hdl
out
|CHIP F {
|IN a [ 16 ] ;
|OUT out ;
|PARTS : Not ( in = a [ 15 ] , out = out ) ;
|}

file F.hdl
:CHIP F { IN a[16]; OUT out; PARTS: Not(in=a[16], out=out); }
$ show F.hdl
refused
err
|F.hdl:1:45: Range 16
";

#[test]
fn numbers_at_their_limits(rt: HostRuntime) -> Result<(), Fail> {
    tried(&rt, rt.alloc(), NUMBERS)
}
