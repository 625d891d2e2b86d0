//! Scripts and chips that are refused, words that are no line, and calls of the outside that fail.
use crate::checks::{tried, tried_both};
use std::test::Fail;

// scripts that stand alone, parts of a chip F with the inputs a and b[2] and the output out, and scripts with further files
const REFUSED: &str = "
# an output is not set
file t/a.tst
:load And.hdl, set out 1;
$ test t/a.tst
refused
err
|t/a.tst:1:19: Name out

# the chip that is loaded is no part
file t/a.tst
:load RAM64.hdl; output-list RAM64[0];
$ test t/a.tst
refused
err
|t/a.tst:1:29: Name RAM64[0]

# before the file is looked for
file t/a.tst
:load And.hdl; ROM32K load b.asm;
$ test t/a.tst
refused
err
|t/a.tst:1:15: Name ROM32K

# before anything is done
file t/a.tst
:load And.hdl, eval, set a 65536;
$ test t/a.tst
refused
err
|t/a.tst:1:27: Range 65536

file t/a.tst
:echo \"a\"; set a %D-32769;
$ test t/a.tst
refused
err
|t/a.tst:1:20: Range 32769

file t/a.tst
:output-list time%S1.2.256;
$ test t/a.tst
refused
err
|t/a.tst:1:23: Range 256

file t/a.tst
:repeat 1000000001 { }
$ test t/a.tst
refused
err
|t/a.tst:1:8: Range 1000000000

# a command does not end
file t/a.tst
|load And.hdl
:output-list a;
$ test t/a.tst
refused
err
|t/a.tst:2:1: Grammar

file t/a.tst
:load And.txt;
$ test t/a.tst
refused
err
|t/a.tst:1:6: Grammar

file t/a.tst
:eval; Eval;
$ test t/a.tst
refused
err
|t/a.tst:1:7: Grammar

file t/a.tst
:output-list a%X1.1.1;
$ test t/a.tst
refused
err
|t/a.tst:1:13: Grammar

file t/a.tst
:set a %B10000000000000001;
$ test t/a.tst
refused
err
|t/a.tst:1:7: Grammar

file t/a.tst
:repeat { tick; }
$ test t/a.tst
refused
err
|t/a.tst:1:8: Grammar

file t/a.tst
:output; echo \"a
$ test t/a.tst
refused
err
|t/a.tst:1:14: Grammar

file t/a.tst
:load F.hdl;
file t/F.hdl
:CHIP F { IN a, b[2]; OUT out; PARTS: Foo(in=a, out=out); }
$ test t/a.tst
refused
err
|t/F.hdl:0:0: UnknownChip Foo

file t/a.tst
:load F.hdl;
file t/F.hdl
:CHIP F { IN a, b[2]; OUT out; PARTS: Nand(a=a, q=a, out=out); }
$ test t/a.tst
refused
err
|t/F.hdl:0:0: UnknownPin q

file t/a.tst
:load F.hdl;
file t/F.hdl
:CHIP F { IN a, b[2]; OUT out; PARTS: Nand(a=a, b=b, out=out); }
$ test t/a.tst
refused
err
|t/F.hdl:0:0: Width b

file t/a.tst
:load F.hdl;
file t/F.hdl
:CHIP F { IN a, b[2]; OUT out; PARTS: Nand(a=a, b=a, out=out); Nand(a=a, b=a, out=out); }
$ test t/a.tst
refused
err
|t/F.hdl:0:0: Driven out

file t/a.tst
:load F.hdl;
file t/F.hdl
:CHIP F { IN a, b[2]; OUT out; PARTS: Nand(a=a, b=n, out=out); }
$ test t/a.tst
refused
err
|t/F.hdl:0:0: Undriven n

file t/a.tst
:load F.hdl;
file t/F.hdl
:CHIP F { IN a, b[2]; OUT out; PARTS: F(a=a, out=out); }
$ test t/a.tst
refused
err
|t/F.hdl:0:0: Recursive F

# a signal goes in a circle
file t/a.tst
:load L.hdl;
file t/L.hdl
:CHIP L { IN a; OUT out; PARTS: Not(in=x, out=x); }
$ test t/a.tst
refused
err
|t/L.hdl:0:0: Loop x

file t/a.tst
:load L.hdl;
file t/L.hdl
:CHIP L { IN a; OUT out; PARTS: Not(in=x, out=x); }
file t/Not.hdl
:CHIP Not { IN in; OUT out; PARTS: Nand(a=in, b=in, out=out); }
$ test t/a.tst --gates
refused
err
|t/L.hdl:0:0: Loop x

# the path is that of the text that has the fault
file t/a.tst
:load G.hdl;
file t/G.hdl
:CHIP G { IN a; OUT out; PARTS: F(a=a, out=out); }
file t/F.hdl
:CHIP F { IN a, b[2]; OUT out; PARTS: Nand(a=a, b=n, out=out); }
$ test t/a.tst
refused
err
|t/F.hdl:0:0: Undriven n

# all texts are read before
file t/a.tst
:load G.hdl;
file t/G.hdl
:CHIP G { IN a; OUT out; PARTS: F(a=q, out=out); }
file t/F.hdl
:CHIP F { IN a; OUT out; PARTS: Nand(a=a, b=a) }
$ test t/a.tst
refused
err
|t/F.hdl:1:47: Grammar

file t/a.tst
:load W.hdl;
file t/W.hdl
:CHIP W { IN a[17]; OUT out; PARTS: }
$ test t/a.tst
refused
err
|t/W.hdl:1:15: Range 17

file t/a.tst
:load B.hdl;
file t/B.hdl
:CHIP B { IN a; OUT out; BUILTIN Nor; }
$ test t/a.tst
refused
err
|t/B.hdl:0:0: UnknownChip Nor

# a chip that is nowhere
file t/a.tst
:echo \"a\"; load Foo.hdl;
$ test t/a.tst
refused
err
|a
|t/a.tst:0:0: UnknownChip Foo

# what was put stays
file t/a.tst
|echo \"one\";
|echo \"two\", load And.hdl, output-list a b;
|output;
:set q 1;
$ test t/a.tst
refused
out
|| a | b |
|| 0 | 0 |
err
|one
|two
|t/a.tst:4:5: Name q

file t/a.tst
:load And.hdl, output-list a, output-list a out q%D1.2.3;
$ test t/a.tst
refused
out
|| a |
err
|t/a.tst:1:48: Name q

# before the first load there is the time alone
file t/a.tst
:output-list time; set a 1;
$ test t/a.tst
refused
out
||tim|
err
|t/a.tst:1:23: Name a

file t/a.tst
:load W.hdl; output-list RAM8[7]; output-list RAM8[8];
file t/W.hdl
:CHIP W { IN in[16]; OUT out[16]; PARTS: RAM8(in=in, out=out); }
$ test t/a.tst
refused
out
||RAM|
err
|t/a.tst:1:46: Name RAM8[8]

# it has no out
file t/a.tst
:load W.hdl; output-list HalfAdder[];
file t/W.hdl
:CHIP W { IN a; OUT out; PARTS: HalfAdder(a=a, sum=out); }
$ test t/a.tst
refused
err
|t/a.tst:1:25: Name HalfAdder[]

# words that are no line
file t/a.tst
:output;
$ test
$ test --gates
$ test t/a.tst t/a.tst
$ test t/a.tst --gates --gates
$ test t/a.tst --gates=1
$ test t/a.tst --gate
$ test --simplify
$ test t/a.tst --simplify --simplify
$ test t/a.tst --simplify=1
$ test t/a.tst --simplified
$ test --cycles 1 t/a.tst
usage
err
|usage: nand COMMAND ARGUMENTS
";

const FAILING: &str = "
# the script is not read
file t/a.tst
:echo \"one\"; output; load And.hdl;
$ test t/a.tst
fails shelf 1
read fault
err
|nand: read fault

# the folder of its chip is not, and what was put before stays
$ test t/a.tst
fails shelf 2
read fault
out
||
err
|one
|nand: read fault

# out fails where the lines are put, and nothing is put after that
file t/a.tst
:output, output;
$ test t/a.tst
fails out 1 3
write fault
out
||
:|

# also where the first piece is put, and an echo would come after it
file t/a.tst
:repeat 3000 { output; } echo \"one\";
$ test t/a.tst
fails out 1 3
write fault
out
||
:|

# err fails at an echo
file t/a.tst
:output; echo \"one\";
$ test t/a.tst
fails err 1 2
write fault
err
:on

# err fails at the message of the end
file t/a.tst
:output; load Foo.hdl;
$ test t/a.tst
fails err 1 5
write fault
out
||
err
:t/a.t
";

#[test]
fn scripts_are_refused(rt: HostRuntime) -> Result<(), Fail> {
    tried_both(&rt, rt.alloc(), REFUSED)
}

#[test]
fn the_outside_of_a_script_fails(rt: HostRuntime) -> Result<(), Fail> {
    tried(&rt, rt.alloc(), FAILING)
}
