//! An assembly text as a whole: its words, its variables and its bytes, as many as there may be, and one more.
use crate::checks::tried;
use std::test::Fail;

const TEXTS: &str = "
# the last word of the code, and words past it
file Long.asm
32767|@7
|M=A
$ exec Long.asm --cycles 32768 --from 0 --to 7
out
|0 0
|1 0
|2 0
|3 0
|4 0
|5 0
|6 0
|7 7

file Long.asm
32767|@7
|M=A
:@7
$ asm Long.asm
$ exec Long.asm --cycles 1 --from 0 --to 0
refused
err
|Long.asm:0:0: TooLarge 32769

# the variables have the words from 16 up to the screen, at 16384
file a.asm
16369#|@a%
$ asm a.asm
$ exec a.asm --cycles 1 --from 0 --to 0
refused
err
|a.asm:0:0: TooManyVariables 16369

# the last of them has the last of these words
file a.asm
16368#|@a%
$ asm a.asm
size 278256
begins
|0000000000010000
|0000000000010001
ends
|0011111111111110
|0011111111111111

file a.asm
16368#|@a%
|D=A
|@0
:M=D
$ exec a.asm --cycles 16371 --from 0 --to 0
out
|0 16383

# the last byte of a file, and one past it
file Long.asm
1048576:/
$ exec Long.asm --cycles 1 --from 0 --to 0
out
|0 0

file Long.asm
1048577:/
$ asm Long.asm
$ exec Long.asm --cycles 1 --from 0 --to 0
refused
err
|Long.asm:0:0: Range 1048577
";

#[test]
fn assembly_at_its_limits(rt: HostRuntime) -> Result<(), Fail> {
    tried(&rt, rt.alloc(), TEXTS)
}
