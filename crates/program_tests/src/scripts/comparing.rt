//! Scripts with compare files.
use crate::checks::tried_both;
use std::test::Fail;

const SCRIPTS: &str = "
file t/And.tst
|load And.hdl,
|output-file And.out,
|compare-to And.cmp,
|output-list a%B3.1.3 b%B3.1.3 out%B3.1.3;
|set a 0, set b 0, eval, output;
|set a 0, set b 1, eval, output;
|set a 1, set b 0, eval, output;
|set a 1, set b 1, eval, output;
file t/And.hdl
:CHIP And { IN a, b; OUT out; PARTS: Nand(a=a, b=b, out=n); Nand(a=n, b=n, out=out); }
file t/And.cmp
||   a   |   b   |  out  |
||   0   |   0   |   0   |
||   0   |   1   |   0   |
||   1   |   0   |   0   |
||   1   |   1   |   1   |
$ test t/And.tst
out
||   a   |   b   |  out  |
||   0   |   0   |   0   |
||   0   |   1   |   0   |
||   1   |   0   |   0   |
||   1   |   1   |   1   |

# in the present folder
file And.tst
|load And.hdl,
|output-file And.out,
|compare-to And.cmp,
|output-list a%B3.1.3 b%B3.1.3 out%B3.1.3;
|set a 0, set b 0, eval, output;
|set a 0, set b 1, eval, output;
|set a 1, set b 0, eval, output;
|set a 1, set b 1, eval, output;
file And.hdl
:CHIP And { IN a, b; OUT out; PARTS: Nand(a=a, b=b, out=n); Nand(a=n, b=n, out=out); }
file And.cmp
||   a   |   b   |  out  |
||   0   |   0   |   0   |
||   0   |   1   |   0   |
||   1   |   0   |   0   |
||   1   |   1   |   1   |
$ test And.tst --gates
out
||   a   |   b   |  out  |
||   0   |   0   |   0   |
||   0   |   1   |   0   |
||   1   |   0   |   0   |
||   1   |   1   |   1   |

# a star stands for any character
file t/And.tst
|load And.hdl,
|output-file And.out,
|compare-to And.cmp,
|output-list a%B3.1.3 b%B3.1.3 out%B3.1.3;
|set a 0, set b 0, eval, output;
|set a 0, set b 1, eval, output;
|set a 1, set b 0, eval, output;
|set a 1, set b 1, eval, output;
file t/And.hdl
:CHIP And { IN a, b; OUT out; PARTS: Nand(a=a, b=b, out=n); Nand(a=n, b=n, out=out); }
file t/And.cmp
||   a   |   b   |  out  |
||   0   |   0   |   0   |
||   0   |   1   |   0   |
||   1   |   0   |   0   |
||   1   |   1   |   *   |
$ test t/And.tst
out
||   a   |   b   |  out  |
||   0   |   0   |   0   |
||   0   |   1   |   0   |
||   1   |   0   |   0   |
||   1   |   1   |   1   |

# the shipped And: its third line differs
file t/And.tst
|load And.hdl,
|output-file And.out,
|compare-to And.cmp,
|output-list a%B3.1.3 b%B3.1.3 out%B3.1.3;
|set a 0, set b 0, eval, output;
|set a 0, set b 1, eval, output;
|set a 1, set b 0, eval, output;
|set a 1, set b 1, eval, output;
file t/And.cmp
||   a   |   b   |  out  |
||   0   |   0   |   0   |
||   0   |   1   |   1   |
||   1   |   0   |   0   |
||   1   |   1   |   1   |
$ test --gates t/And.tst
differs
out
||   a   |   b   |  out  |
||   0   |   0   |   0   |
||   0   |   1   |   0   |
err
|t/And.cmp:3:1: Differs

# no compare file
file t/And.tst
|load And.hdl,
|output-file And.out,
|compare-to And.cmp,
|output-list a%B3.1.3 b%B3.1.3 out%B3.1.3;
|set a 0, set b 0, eval, output;
|set a 0, set b 1, eval, output;
|set a 1, set b 0, eval, output;
|set a 1, set b 1, eval, output;
$ test t/And.tst
read fault
err
|nand: read fault

# what was put before it stays
file t/a.tst
:load And.hdl, output-list a; echo \"here\"; compare-to b.cmp; output;
$ test t/a.tst
read fault
out
|| a |
err
|here
|nand: read fault

# no script
no file
$ test t/a.tst
read fault
err
|nand: read fault

# without an output list the bar alone; a line that is too long
file t/a.tst
:compare-to a.cmp, output, output, output;
file t/a.cmp
||
|||
||
$ test t/a.tst
differs
out
||
||
err
|t/a.cmp:2:1: Differs

# one that is too short
file t/a.tst
:load Not.hdl, compare-to a.cmp, output-list in; output;
file t/a.cmp
||in |
|| 0
$ test t/a.tst
differs
out
||in |
|| 0 |
err
|t/a.cmp:2:1: Differs

# one that is not there
file t/a.tst
:compare-to a.cmp, output, output;
file t/a.cmp
||
$ test t/a.tst
differs
out
||
||
err
|t/a.cmp:2:1: Differs

# lines that are left, and returns before line ends
file t/a.tst
:compare-to a.cmp, output, output;
file t/a.cmp
||\r
||\r
:more
$ test t/a.tst
out
||
||

# a last line without its end
file t/a.tst
:compare-to a.cmp, output, output;
file t/a.cmp
||
:*
$ test t/a.tst
out
||
||

# lines are compared from there on, and counted from the first
file t/a.tst
:output, compare-to a.cmp, output;
file t/a.cmp
|none
||
$ test t/a.tst
out
||
||

# the line of names is the first one
file t/a.tst
:load And.hdl, compare-to a.cmp, output-list a, set a 1, eval, output;
file t/a.cmp
|| b |
$ test t/a.tst
differs
out
|| a |
err
|t/a.cmp:1:1: Differs

# a load forgets the list
file t/a.tst
:load And.hdl, output-list a, load Or.hdl, output;
$ test t/a.tst
out
|| a |
||
";

#[test]
fn lines_are_compared(rt: HostRuntime) -> Result<(), Fail> {
    tried_both(&rt, rt.alloc(), SCRIPTS)
}
