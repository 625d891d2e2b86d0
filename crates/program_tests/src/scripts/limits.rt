//! Limits of scripts, and of the files that they read: each at its number, and past it.
use crate::checks::tried;
use std::test::Fail;

const SCRIPTS: &str = "
# a script, which is a comment
file t/a.tst
1048576:/
$ test t/a.tst

file t/a.tst
1048577:/
$ test t/a.tst
refused
err
|t/a.tst:0:0: Range 1048577

# a compare file, of which one line is looked at; what was put before it stays
file t/a.tst
:compare-to a.cmp, output;
file t/a.cmp
||
1048574:*
$ test t/a.tst
out
||

file t/a.tst
:output, compare-to a.cmp, output;
file t/a.cmp
||
1048575:*
$ test t/a.tst
refused
out
||
err
|t/a.cmp:0:0: Range 1048577

# a chip, and a program
file t/a.tst
:output, load F.hdl;
file t/F.hdl
1048577: 
$ test t/a.tst
refused
out
||
err
|t/F.hdl:0:0: Range 1048577

file t/a.tst
:output, load a.asm;
file t/a.asm
1048577: 
$ test t/a.tst
refused
out
||
err
|t/a.asm:0:0: Range 1048577

# 256 repetitions, one in the other, and one more
file t/a.tst
256:repeat 1 {
:output;
256:}
$ test t/a.tst
out
||

file t/a.tst
257:repeat 1 {
:output;
257:}
$ test t/a.tst
refused
err
|t/a.tst:1:2561: Range 257

# the greatest count, which is done no times, and two that come to it, with a fault behind them; two that come to more
file t/a.tst
:repeat 0 { repeat 1000000000 { output; } } output;
$ test t/a.tst
out
||

file t/a.tst
:repeat 2 { repeat 500000000 { } } repeat 1000000001 { }
$ test t/a.tst
refused
err
|t/a.tst:1:42: Range 1000000000

file t/a.tst
:repeat 2 { repeat 500000001 { } }
$ test t/a.tst
refused
err
|t/a.tst:1:19: Range 1000000000

# the greatest number that is set, and the least
file t/a.tst
:load Inc16.hdl, output-list in%D1.6.1; set in 65535, eval, output; set in -32768, eval, output;
$ test t/a.tst
out
||   in   |
||     -1 |
|| -32768 |

# the widest column
file t/a.tst
:load Not.hdl, output-list in%B255.255.255; output;
$ test t/a.tst
out
:|
381: 
:in
382: 
||
:|
494: 
:0000000000000000
255: 
||
";

#[test]
fn scripts_at_their_limits(rt: HostRuntime) -> Result<(), Fail> {
    tried(&rt, rt.alloc(), SCRIPTS)
}
