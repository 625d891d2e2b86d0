//! The pieces in which lines put out: one whose second put takes ten bytes alone has put the first and these.
//! `chip` and `soak` put less than a piece: their one put fails.
use crate::checks::tried;
use std::test::Fail;

const LINES: &str = "
file a.asm
300|@7
$ asm a.asm
cut 4106

$ exec a.asm --cycles 1 --from 0 --to 2000
cut 4106

file v/A.vm
300|push constant 7
$ vm v --bare
cut 4106

$ show v/A.vm
cut 4106

file C.jack
:class C { function void f() { 
600:return; 
:} }
$ show C.jack
cut 4106

file F.hdl
:CHIP F { IN a; PARTS: 
300:Not(in=a); 
:}
$ show F.hdl
cut 4106

file p/Main.jack
:class Main { function void main() { 
300:do Main.main(); 
:} }
$ compile p
cut 4106

file p/Main.jack
:class Main { function void main() { } }
$ build p
cut 4106

$ map p
cut 4106

$ map p --format 1
cut 4106

$ run p --level jack --cycles 5 --show screen
cut 4106

$ run p --level vm --cycles 5 --show screen
cut 4106

$ run p --level hack --cycles 5 --show screen
cut 4106

$ run p --level gates --cycles 0 --show screen
cut 4106

file p/Main.jack
:class Main { function void main() { do Output.printString(\"
500:a
:\"); } }
$ run p --level jack --cycles 30000 --show heap
cut 4106

# what it prints before the variables is put first; a local's name is longer than a piece
file p/Main.jack
:class Main { function void main() { var int 
4200:a
:; } }
$ debug p --break Main.main:1 --cycles 30000
cut 51

file t/a.tst
3000:output, 
$ test t/a.tst
cut 4106

file p/Main.jack
:class Main { function void main() { } }
$ run p --level gates --cycles 0 --show nets
cut 4106

no file
$ chip Not
$ soak 1 0
fails out 1 0
write fault

$ chip Not
fails out 1 4
write fault
out
:CHIP

$ soak 1 0
fails out 1 6
write fault
out
:soak 1
";

#[test]
fn each_line_puts_pieces(rt: HostRuntime) -> Result<(), Fail> {
    tried(&rt, rt.alloc(), LINES)
}
