//! Scripts that drive the Computer and the instruction machine.
use crate::checks::tried_both;
use std::test::Fail;

const SCRIPTS: &str = "
file t/a.tst
:load Computer.hdl, ROM32K load Add.hack, output-list time%S1.4.1 RAM16K[0]%D1.6.1; repeat 6 { ticktock; } output;
file t/Add.hack
|0000000000000010
|1110110000010000
|0000000000000011
|1110000010010000
|0000000000000000
|1110001100001000
$ test t/a.tst
out
|| time |RAM16K[0|
|| 6    |      5 |

# memory of gates has no words
$ test t/a.tst --gates
refused
err
|t/a.tst:1:66: Name RAM16K[0]

# a shorter image sets the words past it to 0
file t/a.tst
:load Computer.hdl, ROM32K load Add.asm, output-list ROM32K[1]%D1.5.1 ROM32K[5]%D1.5.1; output; ROM32K load b.asm, output; set ROM32K[5] 3, output;
file t/Add.asm
|@2
|D=A
|@3
|D=D+A
|@0
|M=D
file t/b.asm
|@1
|@2
$ test t/a.tst
out
||ROM32K[|ROM32K[|
|| -5104 | -7416 |
||     2 |     0 |
||     2 |     3 |

# each tock is a step, and a tick only marks the time
file t/a.tst
:load Add.asm, output-list time%S1.3.1 A%D1.2.1 D%D1.2.1 PC%D1.2.1 RAM[0]%D1.2.1; output; tick, output; tick, tock, output; tock, output; repeat 4 { ticktock; } output;
file t/Add.asm
|@2
|D=A
|@3
|D=D+A
|@0
|M=D
$ test t/a.tst
out
||time | A  | D  | PC |RAM[|
|| 0   |  0 |  0 |  0 |  0 |
|| 0+  |  0 |  0 |  0 |  0 |
|| 1   |  2 |  0 |  1 |  0 |
|| 2   |  2 |  2 |  2 |  0 |
|| 6   |  0 |  5 |  6 |  5 |

# the low fifteen bits
file t/a.tst
:load Add.hack, output-list PC%D1.5.1 PC%B1.16.1; set PC 40000, output; tock, output; eval, set PC -1, output; tock, output;
file t/Add.hack
|0000000000000010
|1110110000010000
|0000000000000011
|1110000010010000
|0000000000000000
|1110001100001000
$ test t/a.tst
out
||  PC   |        PC        |
||  7232 | 0001110001000000 |
||  7233 | 0001110001000001 |
|| 32767 | 0111111111111111 |
||     0 | 0000000000000000 |

# the key that is held
file t/a.tst
:load Key.asm, output-list RAM[24576]%D1.3.1 RAM[0]%D1.4.1 time%B1.3.1; set RAM[24576] 65, output; repeat 4 { ticktock; } output; set RAM[24576] -1, set PC 0; repeat 4 { ticktock; } output;
file t/Key.asm
|@24576
|D=M
|@0
|M=D
$ test t/a.tst
out
||RAM[2|RAM[0]|time |
||  65 |    0 |   0 |
||  65 |   65 |   4 |
||  -1 |   -1 |   8 |

# each load starts anew
file t/a.tst
:load Add.hack, set A 5, set D -3, set RAM[16384] %B101, output-list A D RAM[16384]%D0.1.0 RAM[24575]; output; load Add.hack, output-list A D RAM[16384]; output;
file t/Add.hack
|0000000000000010
|1110110000010000
|0000000000000011
|1110000010010000
|0000000000000000
|1110001100001000
$ test t/a.tst
out
|| A | D |R|RAM|
|| 1 | 1 |5| 0 |
|| A | D |RAM|
|| 0 | 0 | 0 |

file t/a.tst
:load Add.asm, output-list A; set RAM[24577] 0;
file t/Add.asm
|@2
|D=A
|@3
|D=D+A
|@0
|M=D
$ test t/a.tst
refused
out
|| A |
err
|t/a.tst:1:34: Name RAM[24577]

file t/a.tst
:load Add.asm, output-list RAM[];
file t/Add.asm
|@2
|D=A
|@3
|D=D+A
|@0
|M=D
$ test t/a.tst
refused
err
|t/a.tst:1:27: Name RAM[]

file t/a.tst
:load Add.asm, set time 1;
file t/Add.asm
|@2
|D=A
|@3
|D=D+A
|@0
|M=D
$ test t/a.tst
refused
err
|t/a.tst:1:19: Name time

file t/a.tst
:load Add.asm; ROM32K load Add.asm;
file t/Add.asm
|@2
|D=A
|@3
|D=D+A
|@0
|M=D
$ test t/a.tst
refused
err
|t/a.tst:1:15: Name ROM32K

file t/a.tst
:load Add.asm;
$ test t/a.tst
read fault
err
|nand: read fault

file t/a.tst
:load b.asm;
file t/b.asm
:@32768
$ test t/a.tst
refused
err
|t/b.asm:1:2: Range 32768

file t/a.tst
:load Computer.hdl; ROM32K load b.hack;
file t/b.hack
:0000000000000002
$ test t/a.tst
refused
err
|t/b.hack:1:16: Grammar

# what `vm --bare` makes of commands is a program that a script loads
file v/Add.vm
|push constant 7
|push constant 8
|add
file t/a.tst
:load Add.asm, output-list RAM[0]%D2.6.2 RAM[256]%D2.6.2; set RAM[0] 256; repeat 60 { ticktock; } output;
made t/Add.asm vm v --bare
$ test t/a.tst
out
||  RAM[0]  | RAM[256] |
||     257  |      15  |
";

#[test]
fn machines_are_driven(rt: HostRuntime) -> Result<(), Fail> {
    tried_both(&rt, rt.alloc(), SCRIPTS)
}
