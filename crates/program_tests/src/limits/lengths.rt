//! How many bytes a file may have: the most, and one more. A file without any.
use crate::checks::tried;
use std::test::Fail;

const TEXTS: &str = "
# a class of a folder
file prog/Main.jack
1048576: 
$ build prog
refused
err
|prog/Main.jack:1:1048577: Grammar

file prog/Main.jack
1048577: 
$ build prog
$ run prog --level gates --cycles 1
refused
err
|prog/Main.jack:0:0: Range 1048577

# a chip
file x.hdl
1048576: 
$ show x.hdl
refused
err
|x.hdl:1:1048577: Grammar

file x.hdl
1048577: 
$ show x.hdl
refused
err
|x.hdl:0:0: Range 1048577

# an image, in which lines may be empty
file x.hack
1048576|
$ exec x.hack --cycles 1 --from 0 --to 0
out
|0 0

file x.hack
1048577|
$ exec x.hack --cycles 1 --from 0 --to 0
refused
err
|x.hack:0:0: Range 1048577

# a key script, whose moment has many zeros before it
file p/Main.jack
:class Main { function void main() { } }
file k.txt
1048573:0
:7 5
$ run p --level jack --cycles 0 --keys k.txt
out
|level jack
|moves 0
|steps 0
|point start 1
|end bound

file p/Main.jack
:class Main { function void main() { } }
file k.txt
1048574:0
:7 5
$ run p --level jack --cycles 0 --keys k.txt
refused
err
|k.txt:0:0: Range 1048577

# files without any byte
file x.asm
$ asm x.asm

file x.hack
$ exec x.hack --cycles 3 --from 0 --to 0
out
|0 0

file v/Sys.vm
$ show v/Sys.vm

file x.tst
$ test x.tst

file p/Main.jack
:class Main { function void main() { } }
file k.txt
$ run p --level jack --cycles 0 --keys k.txt
out
|level jack
|moves 0
|steps 0
|point start 1
|end bound

file x.hdl
$ show x.hdl
refused
err
|x.hdl:1:1: Grammar

file x.jack
$ show x.jack
refused
err
|x.jack:1:1: Grammar
";

#[test]
fn files_at_their_length(rt: HostRuntime) -> Result<(), Fail> {
    tried(&rt, rt.alloc(), TEXTS)
}
