//! Lines of `vm`.
use crate::checks::tried;
use std::test::Fail;

// programs that `vm` makes, run by `exec`, and what `vm` puts
const MADE: &str = "
# `call Sys.init 0` leaves SP at 261; 20,000 is not below -20,000, and -20,000 is below 20,000
file v/Sys.vm
|function Sys.init 0
|push constant 20000
|push constant 20000
|neg
|lt
|pop temp 0
|push constant 20000
|neg
|push constant 20000
|lt
|pop temp 1
|label END
|goto END
made a.asm vm v
$ exec a.asm --cycles 2000 --from 0 --to 6
out
|0 261
|1 261
|2 256
|3 0
|4 0
|5 0
|6 -1

file v/Sys.vm
|function Sys.init 0
|call Sys.seven 0
|pop temp 0
|label END
|goto END
|function Sys.seven 0
|push constant 7
|return
made a.asm vm v
$ exec a.asm --cycles 2000 --from 0 --to 5
out
|0 261
|1 261
|2 256
|3 0
|4 0
|5 7

# the last of the 240 static words
file v/Sys.vm
|function Sys.init 0
|push static 239
|pop temp 2
|label END
|goto END
made a.asm vm v
$ exec a.asm --cycles 2000 --from 0 --to 1
out
|0 261
|1 261

file v/Sys.vm
|function Sys.init 0
|push constant 2048
|pop pointer 1
|push constant 7
|push constant 5
|add
|pop that 0
|push constant 7
|push constant 5
|sub
|pop that 1
|push constant 7
|neg
|pop that 2
|push constant 5
|push constant 5
|eq
|pop that 3
|push constant 7
|push constant 5
|gt
|pop that 4
|push constant 7
|push constant 5
|lt
|pop that 5
|push constant 12
|push constant 10
|and
|pop that 6
|push constant 12
|push constant 10
|or
|pop that 7
|push constant 12
|not
|pop that 8
|push constant 3
|pop temp 6
|push temp 6
|pop that 9
|push constant 4
|pop static 2
|push static 2
|pop that 10
|push constant 2060
|pop pointer 0
|push pointer 0
|pop that 11
|push constant 9
|pop this 1
|push this 1
|pop that 12
|push constant 20
|push constant 22
|call Sys.sum 2
|pop that 14
|push constant 0
|if-goto PASSED
|push constant 1
|pop that 15
|label PASSED
|push constant 2
|if-goto TAKEN
|push constant 1
|pop that 16
|label TAKEN
|push constant 20000
|shiftleft
|pop that 17
|push constant 5
|neg
|shiftright
|pop that 18
|label END
|goto END
|function Sys.sum 1
|push argument 0
|push argument 1
|add
|pop local 0
|push local 0
|pop argument 1
|push argument 1
|return
made a.asm vm v
$ exec a.asm --cycles 3000 --from 2048 --to 2066
out
|2048 12
|2049 2
|2050 -7
|2051 -1
|2052 -1
|2053 0
|2054 8
|2055 14
|2056 -13
|2057 3
|2058 4
|2059 2060
|2060 9
|2061 9
|2062 42
|2063 1
|2064 0
|2065 -25536
|2066 -3

file v/Sys.vm
|function Sys.init 0
|push constant 5
|pop static 0
|call A.set 0
|pop temp 0
|push static 0
|pop temp 1
|label END
|goto END
file v/A.vm
|function A.set 0
|push constant 3
|pop static 0
|push static 0
|return
made a.asm vm v
$ exec a.asm --cycles 2000 --from 16 --to 17
out
|16 3
|17 5

$ exec a.asm --cycles 2000 --from 5 --to 6
out
|5 3
|6 5

# A comparison has 4 words of its own beside the 17 of its two pushes and its pop. Besides there are 23 words of the
# start, 1 of the function and 2 of the jump, and the routines of calls and of `lt` with 34 and 38.
file v/Sys.vm
|function Sys.init 0
950#:push constant 1~push constant 2~lt~pop temp 0~
|label E
|goto E
$ vm v
lines 20048

file v/Sum.vm
|push constant 7
|push constant 8
|add
$ vm v --bare
out
|@7
|D=A
|@0
|AM=M+1
|A=A-1
|M=D
|@8
|D=A
|@0
|AM=M+1
|A=A-1
|M=D
|@0
|AM=M-1
|D=M
|A=A-1
|M=D+M

# the text is one of assembly, an instruction on each line
file Sum.asm
|@7
|D=A
|@0
|AM=M+1
|A=A-1
|M=D
|@8
|D=A
|@0
|AM=M+1
|A=A-1
|M=D
|@0
|AM=M-1
|D=M
|A=A-1
|M=D+M
$ asm Sum.asm
out
|0000000000000111
|1110110000010000
|0000000000000000
|1111110111101000
|1110110010100000
|1110001100001000
|0000000000001000
|1110110000010000
|0000000000000000
|1111110111101000
|1110110010100000
|1110001100001000
|0000000000000000
|1111110010101000
|1111110000010000
|1110110010100000
|1111000010001000

file Sum.asm
|@256
|D=A
|@SP
|M=D
|@7
|D=A
|@0
|AM=M+1
|A=A-1
|M=D
|@8
|D=A
|@0
|AM=M+1
|A=A-1
|M=D
|@0
|AM=M-1
|D=M
|A=A-1
|M=D+M
$ exec Sum.asm --cycles 21 --from 256 --to 256
out
|256 15

file v/Sys.vm
$ vm v --bare

$ vm w --bare
";

const REFUSED: &str = "
file v/Sys.vm
$ vm v
refused
err
|v:0:0: NoSysInit

file v/Sys.vm
|function Sys.init 0
|push static 240
|label E
|goto E
$ vm v
refused
err
|v:0:0: TooManyStatics 241

file v/Sys.vm
|function Sys.init 0
|call A.f 0
$ vm v
refused
err
|v:0:0: NoFunction A.f

file v/Sys.vm
|function Sys.init 0
|goto X
$ vm v
refused
err
|v:0:0: NoLabel X

file v/Sys.vm
|function Sys.init 0
|label X
|label X
$ vm v
refused
err
|v:0:0: LabelTwice X

file v/Sys.vm
|function Sys.init 0
|function Sys.init 0
$ vm v
refused
err
|v:0:0: TwiceDefined Sys.init

file v/Sys.vm
|pop constant 1
$ vm v
refused
err
|v/Sys.vm:1:1: Grammar

$ vm v --bare
refused
err
|v/Sys.vm:1:5: Grammar

file v/Sys.vm
|push pointer 2
$ vm v --bare
refused
err
|v/Sys.vm:1:14: Range 2

file v/Sys.vm
|goto X
$ vm --bare v
refused
err
|v:0:0: NoLabel X

# the files are taken in order of name
file v/A.vm
:pop constant 1
file v/A-B.vm
:push constant 32768
$ vm v --bare
refused
err
|v/A-B.vm:1:15: Range 32768

# a file with another ending
file v/B.vm
:pop constant 1
file v/A.jack
:function
$ vm v --bare
refused
err
|v/B.vm:1:5: Grammar

# the listing, and the text
file v/Sys.vm
$ vm v --bare
fails shelf 1
read fault
err
|nand: read fault

$ vm v --bare
fails shelf 2
read fault
err
|nand: read fault

file v/Sum.vm
:push constant 7
$ vm v --bare
fails out 1 4
write fault
out
|@7
:D

file v/Sys.vm
|function Sys.init 0
6000|push constant 7
|label END
|goto END
$ vm v
refused
err
|v:0:0: TooLarge 36060

# a folder has at most 256 files
files 256 v/a%.vm
$ vm v --bare

files 257 v/a%.vm
$ vm v --bare
refused
err
|v:0:0: Range 257
";

#[test]
fn programs_are_made(rt: HostRuntime) -> Result<(), Fail> {
    tried(&rt, rt.alloc(), MADE)
}

#[test]
fn folders_are_not_translated(rt: HostRuntime) -> Result<(), Fail> {
    tried(&rt, rt.alloc(), REFUSED)
}
