//! Lines of `asm` and `exec`, and what is no line.
use crate::checks::{ended, tried};
use crate::nand::Nand;
use line_trials::{Outcome, Program};
use nand_cli::Status;
use outer_world::{MemoryShelf, MemorySink};
use std::alloc::{AllocError, Global};
use std::test::Fail;

// files, lines over them, and what they put
const ASSEMBLY: &str = "
# the sum is there in the sixth cycle
file Add.asm
|@2
|D=A
|@3
|D=D+A
|@0
|M=D
$ exec Add.asm --cycles 6 --from 0 --to 1
out
|0 5
|1 0

$ exec Add.asm --cycles 5 --from 0 --to 1
out
|0 0
|1 0

# shifts by one place, to the left and to the right, where the signed reading is halved and rounded down
file a.asm
|@5
|D=A
|D=D<<
|@0
|M=D
|M=M<<
|@5
|D=-A
|D=D>>
|@1
:M=D
$ exec a.asm --cycles 11 --from 0 --to 1
out
|0 20
|1 -3

# bits 9 to 6 of the word of D=D<< change nothing
file a.hack
|0000000000000101
|1110110000010000
|1010111111010000
|0000000000000000
|1110001100001000
$ exec a.hack --cycles 5 --from 0 --to 0
out
|0 10

# words are read as signed
file a.asm
|@32767
|D=A
|D=D+1
|@1
|M=D
|@0
:M=-1
$ exec a.asm --cycles 7 --from 0 --to 1
out
|0 -1
|1 -32768

# an empty file is a program
file Empty.asm
$ exec Empty.asm --cycles 3 --from 0 --to 0
out
|0 0

# the last address
$ exec Empty.asm --cycles 3 --from 32767 --to 32767
out
|32767 0

file Add.asm
|@2
|D=A
|@3
|D=D+A
|@0
|M=D
$ asm Add.asm
out
|0000000000000010
|1110110000010000
|0000000000000011
|1110000010010000
|0000000000000000
|1110001100001000

file Spin.hack
|@i
|M=1
|(LOOP)
|@LOOP
|0;JMP
$ asm Spin.hack
out
|0000000000010000
|1110111111001000
|0000000000000010
|1110101010000111

file a
:@32767
$ asm a
out
|0111111111111111

# nothing for no instruction
file Empty.asm
$ asm Empty.asm

file Empty.asm
|// a\r
|// b\r
$ asm Empty.asm

# the words that `asm` puts
file Add.hack
|0000000000000010
|1110110000010000
|0000000000000011
|1110000010010000
|0000000000000000
|1110001100001000
$ exec Add.hack --cycles 6 --from 0 --to 1
out
|0 5
|1 0

file Sum.asm
|@i
|M=1
|@sum
|M=0
|(LOOP)
|@i
|D=M
|@10
|D=D-A
|@END
|D;JGT // i > 10
|@i
|D=M
|@sum
|M=M+D
|@i
|M=M+1
|@LOOP
|0;JMP
|(END)
|@END
|0;JMP
$ exec Sum.asm --cycles 200 --from 16 --to 17
out
|16 11
|17 55

file x.asm
:0;JMP
$ exec x.asm --cycles 1 --from 0 --to 0
out
|0 0

# a path that ends in `.hack` is that of an image, and each other one that of assembly
file Add.hack
|0000000000000010\r
|\r
|1110110000010000
|0000000000000000
:1110001100001000
$ exec Add.hack --cycles 4 --from 0 --to 0
out
|0 2

file d/Add.hack
|0000000000000010\r
|\r
|1110110000010000
|0000000000000000
:1110001100001000
$ exec d/Add.hack --cycles 4 --from 0 --to 0
out
|0 2

file .hack
|0000000000000010\r
|\r
|1110110000010000
|0000000000000000
:1110001100001000
$ exec .hack --cycles 4 --from 0 --to 0
out
|0 2

file Add.hack.asm
|@2
|D=A
|@0
:M=D
$ exec Add.hack.asm --cycles 4 --from 0 --to 0
out
|0 2

file hack
|@2
|D=A
|@0
:M=D
$ exec hack --cycles 4 --from 0 --to 0
out
|0 2

file Add.hack
:@2
$ exec Add.hack --cycles 4 --from 0 --to 0
refused
err
|Add.hack:1:1: Grammar

file Add.asm
|0000000000000010\r
|\r
|1110110000010000
|0000000000000000
:1110001100001000
$ exec Add.asm --cycles 4 --from 0 --to 0
refused
err
|Add.asm:3:1: Range 1000000000

file Big.asm
:@32768
$ asm Big.asm
$ exec Big.asm --cycles 1 --from 0 --to 0
refused
err
|Big.asm:1:2: Range 32768

file x.asm
|(X)
|(X)
:@X
$ asm x.asm
$ exec x.asm --cycles 1 --from 0 --to 0
refused
err
|x.asm:2:2: LabelTwice X

file x.asm
|@1
:  (SP)
$ asm x.asm
$ exec x.asm --cycles 1 --from 0 --to 0
refused
err
|x.asm:2:4: LabelTwice SP

file x.asm
|@1
|D=D*A
$ asm x.asm
$ exec x.asm --cycles 1 --from 0 --to 0
refused
err
|x.asm:2:4: Grammar

file x.asm
:(A
$ asm x.asm
$ exec x.asm --cycles 1 --from 0 --to 0
refused
err
|x.asm:1:3: Grammar

file x.asm
:@1\r
$ asm x.asm
$ exec x.asm --cycles 1 --from 0 --to 0
refused
err
|x.asm:1:3: Grammar

file d/x.asm
|D;JXX
:@40000
$ asm d/x.asm
$ exec d/x.asm --cycles 1 --from 0 --to 0
refused
err
|d/x.asm:2:2: Range 40000

# options stand anywhere
file Add.asm
|@2
|D=A
|@3
|D=D+A
|@0
|M=D
$ exec Add.asm --cycles 6 --from 0 --to 1
$ exec --cycles 6 --from 0 --to 1 Add.asm
$ exec --to 1 Add.asm --from 0 --cycles 6
$ exec Add.asm --cycles=6 --from=0 --to=1
$ exec --to=01 --cycles 0006 Add.asm --from=00
$ exec --cycles 6 --from 0 --to 1 -- Add.asm
out
|0 5
|1 0

# other words, and options out of place, are no line
$ run prog
$ exec Add.asm --cycles 1000000001 --from 0 --to 1
$ run prog --level jack --cycles 1000000001
$ exec Add.asm --cycles 6 --from 0 --to 32768
$ run prog --level VM --cycles 1
$ 
$ exec
$ exec Add.asm
$ exec Add.asm --cycles 6 --from 0
$ exec Add.asm --cycles 6 --from 0 --to
$ exec Add.asm --cycles 6 --from 0 --to 1 --to=1
$ exec Add.asm --cycles 6 --from 0 --to 1 Add.asm
$ exec Add.asm --cycles +6 --from 0 --to 1
$ exec Add.asm --cycles -6 --from 0 --to 1
$ exec Add.asm --cycles= --from 0 --to 1
$ exec Add.asm --cyc 6 --from 0 --to 1
$ exec Add.asm --cycles 6 --from 0 -- --to 1
$ --cycles 6 exec Add.asm --from 0 --to 1
$ exec --help
$ --version
usage
err
|usage: nand COMMAND ARGUMENTS

file x.asm
:0;JMP
$ exec x.asm --cycles 1 --from 0
usage
err
|usage: nand COMMAND ARGUMENTS

# a file that is not there, whatever the cycles, and if they are the most
file Add.asm
|@2
|D=A
|@3
|D=D+A
|@0
|M=D
$ exec Sub.asm --cycles 6 --from 0 --to 1
$ exec Sub.asm --cycles 1000000000 --from 0 --to 1
read fault
err
|nand: read fault

$ exec Add.asm --cycles 6 --from 0 --to 1
fails shelf 1
read fault
err
|nand: read fault

# err takes five bytes
file x.asm
:0;JXX
$ exec x.asm --cycles 1 --from 0 --to 0
fails err 1 5
write fault
err
:x.asm

# out is put in pieces
file Add.asm
|@2
|D=A
|@3
|D=D+A
|@0
|M=D
$ exec Add.asm --cycles 6 --from 0 --to 2000
cut 4106
";

#[test]
fn lines_of_assembly(rt: HostRuntime) -> Result<(), Fail> {
    tried(&rt, rt.alloc(), ASSEMBLY)
}

// What no words at all do.
fn of_no_words(alloc: Global) -> Result<Outcome, AllocError> {
    let mut shelf = MemoryShelf::new(Vec::new(alloc), Vec::new(alloc));
    let mut out = MemorySink::new(alloc, 100, Vec::new(alloc))?;
    let mut err = MemorySink::new(alloc, 100, Vec::new(alloc))?;
    let status = Nand.call(alloc, &[], &mut shelf, &mut out, &mut err);
    Ok(Outcome { status, out, err })
}

#[test]
fn no_words_are_no_line(rt: HostRuntime) -> Result<(), Fail> {
    let outcome = of_no_words(rt.alloc())?;
    let usage = b"usage: nand COMMAND ARGUMENTS\n".as_slice();
    ended(
        &rt,
        0,
        "no words",
        &outcome,
        (Status::Usage, b"".as_slice(), usage),
    );
    Ok(())
}
