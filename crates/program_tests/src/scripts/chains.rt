//! Chips that are each made of the one before, each in a file of its own.
use crate::checks::tried;
use std::test::Fail;

const CHAINS: &str = "
# two hundred chips in a folder, of which each but the first is one of the one before; the last does what the first does
file t/a.tst
:load C199.hdl, output-list in out; eval, output;
file t/C0.hdl
:CHIP C0 { IN in; OUT out; PARTS: Not(in=in, out=out); }
files 199 t/C#.hdl
:CHIP C# { IN in; OUT out; PARTS: C%(in=in, out=out); }
$ test t/a.tst
out
||in |out|
|| 0 | 1 |

# the first is made of the last
file t/a.tst
:load C199.hdl, output-list in out; eval, output;
file t/C0.hdl
:CHIP C0 { IN in; OUT out; PARTS: C199(in=in, out=out); }
files 199 t/C#.hdl
:CHIP C# { IN in; OUT out; PARTS: C%(in=in, out=out); }
$ test t/a.tst
refused
err
|t/C0.hdl:0:0: Recursive C199
";

#[test]
fn chains_of_chips_are_gathered(rt: HostRuntime) -> Result<(), Fail> {
    tried(&rt, rt.alloc(), CHAINS)
}
