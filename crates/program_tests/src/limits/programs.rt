//! Folders, chips and code: as many files, nodes and words as there may be, and more.
use crate::checks::tried;
use std::test::Fail;

// folders of this many empty classes
const FOLDERS: &str = "
files 256 prog/C%.jack
$ build prog
$ map prog
$ compile prog
$ run prog --level jack --cycles 1
refused
err
|prog/C0.jack:1:1: Grammar

files 257 prog/C%.jack
$ build prog
$ map prog
$ compile prog
$ run prog --level jack --cycles 1
refused
err
|prog:0:0: Range 257
";

// Chips that double, and scripts that load them. No chip is expanded before its nodes are counted, which are those of its
// parts, its input, and two constants.
const CHIPS: &str = "
# C0 is a Not, and each other chip two of the one before
file t/C0.hdl
:CHIP C0 { IN in; OUT out; PARTS: Nand(a=in, b=in, out=out); }
files 40 t/C#.hdl
:CHIP C# { IN in; OUT out; PARTS: C%(in=in, out=n); C%(in=n, out=out); }
file t/4.tst
:load C4.hdl;
file t/24.tst
:load C24.hdl;
file t/40.tst
:load C40.hdl;
$ test t/4.tst

$ test t/24.tst
refused
err
|t/C24.hdl:0:0: TooManyNodes 16777219

$ test t/40.tst
refused
err
|t/C40.hdl:0:0: TooManyNodes 1000000000

# 16,777,216 nodes are not too many: of At it is the parts without a node that are. One node more is told
file t/C0.hdl
:CHIP C0 { IN in; OUT out; PARTS: Nand(a=in, b=in, out=out); }
files 22 t/C#.hdl
:CHIP C# { IN in; OUT out; PARTS: C%(in=in, out=n); C%(in=n, out=out); }
file t/S0.hdl
:CHIP S0 { IN in; OUT out; PARTS: }
files 22 t/S#.hdl
:CHIP S# { IN in; OUT out; PARTS: S%(in=in); C#(in=in, out=out); }
file t/E0.hdl
:CHIP E0 { IN in; OUT out; PARTS: }
files 27 t/E#.hdl
:CHIP E# { IN in; OUT out; PARTS: E%(in=in, out=n); E%(in=n, out=out); }
file t/At.hdl
:CHIP At { IN in; OUT out; PARTS: S22(in=in); S22(in=in); C0(in=in); E27(in=in); }
file t/Past.hdl
:CHIP Past { IN in; OUT out; PARTS: S22(in=in); S22(in=in); C1(in=in); E27(in=in); }
file t/At.tst
:load At.hdl;
file t/Past.tst
:load Past.hdl;
$ test t/At.tst
no memory
err
|nand: want of memory

$ test t/Past.tst
refused
err
|t/Past.hdl:0:0: TooManyNodes 16777217
";

const CODE: &str = "
# Sys.init with a push and this many commands `neg`. The start has 23 words, the routine of calls 34, the function 1,
# the push 6, and each `neg` 3
file v/Sys.vm
|function Sys.init 0
|push constant 1
10901|neg
$ vm v
lines 32767

file v/Sys.vm
|function Sys.init 0
|push constant 1
10902|neg
$ vm v
refused
err
|v:0:0: TooLarge 32770
";

#[test]
fn folders_at_their_limit(rt: HostRuntime) -> Result<(), Fail> {
    tried(&rt, rt.alloc(), FOLDERS)
}

#[test]
fn chips_at_their_limit(rt: HostRuntime) -> Result<(), Fail> {
    tried(&rt, rt.alloc(), CHIPS)
}

#[test]
fn code_at_its_limit(rt: HostRuntime) -> Result<(), Fail> {
    tried(&rt, rt.alloc(), CODE)
}
