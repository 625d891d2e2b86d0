//! Bytes past ASCII, as those of a letter with an accent, in a text of each language.
use crate::checks::tried;
use std::test::Fail;

const TEXTS: &str = "
# a comment holds any bytes; in a symbol the first of them begins no token
file a.asm
:@2 // é
$ asm a.asm
out
|0000000000000010

file a.asm
|@2
:@aé
$ asm a.asm
refused
err
|a.asm:2:3: Grammar

file a.hack
:000000000000001é
$ exec a.hack --cycles 0 --from 1 --to 0
refused
err
|a.hack:1:16: Grammar

file a.vm
:add // é
$ show a.vm
out
|add

file a.vm
:label aé
$ show a.vm
refused
err
|a.vm:1:8: Grammar

file C.jack
|/* é */ class C { // é
:}
$ show C.jack
out
|class C {
|}

# of a string the place is that of its first quote
file C.jack
:class C { function void f() { do g(\"é\"); } }
$ show C.jack
refused
err
|C.jack:1:36: Grammar

file C.jack
:class Cé { }
$ show C.jack
refused
err
|C.jack:1:8: Grammar

file F.hdl
|/* é */ CHIP F { // é
:IN a; PARTS: Not(in=a); }
$ show F.hdl
out
|CHIP F {
|IN a ;
|PARTS : Not ( in = a ) ;
|}

file F.hdl
:CHIP Fé { PARTS: }
$ show F.hdl
refused
err
|F.hdl:1:7: Grammar

file p/Main.jack
:class Main { function void main() { } }
file k.txt
:5 é
$ run p --level jack --cycles 0 --keys k.txt
refused
err
|k.txt:1:3: Grammar

# a script takes them in a text and in a word; what it does not know is reported as it stands there
file t/a.tst
|// é
:echo \"é\"; load Not.hdl, set é 1;
$ test t/a.tst
refused
err
|é
|t/a.tst:2:30: Name é

file t/a.tst
:load é.hdl;
$ test t/a.tst
refused
err
|t/a.tst:0:0: UnknownChip é

file t/a.tst
:é;
$ test t/a.tst
refused
err
|t/a.tst:1:1: Grammar

# a line of a compare file is as long as its bytes
file t/a.tst
:load Not.hdl, compare-to a.cmp, output-list in;
file t/a.cmp
||é |
$ test t/a.tst
differs
out
||in |
err
|t/a.cmp:1:1: Differs

file t/a.tst
:load Not.hdl, output-list é;
$ test t/a.tst
refused
err
|t/a.tst:1:27: Name é

# the path and the name of a line
file é.asm
:@é
$ asm é.asm
refused
err
|é.asm:1:2: Grammar

$ chip é
refused
err
|é:0:0: UnknownChip é
";

#[test]
fn letters_with_accents(rt: HostRuntime) -> Result<(), Fail> {
    tried(&rt, rt.alloc(), TEXTS)
}
