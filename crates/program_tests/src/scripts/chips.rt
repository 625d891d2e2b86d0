//! Scripts that drive chips.
use crate::checks::tried_both;
use std::test::Fail;

const SCRIPTS: &str = "
file t/a.tst
:load RAM64.hdl, output-list time%S1.4.1 out%D1.4.1; set in 7, set load 1, set address 3, tick, output; tock, output;
$ test t/a.tst --gates
out
|| time | out  |
|| 0+   |    0 |
|| 1    |    7 |

# a Not of the folder is used inside the shipped And
file t/a.tst
:load And.hdl, output-list a b out; set a 1, eval, output; set b 1, eval, output;
file t/Not.hdl
:CHIP Not { IN in; OUT out; PARTS: Nand(a=in, b=true, out=n); Nand(a=n, b=true, out=out); }
$ test t/a.tst
out
|| a | b |out|
|| 1 | 0 | 1 |
|| 1 | 1 | 0 |

# a body that is built in is the shipped chip
file t/a.tst
:load And.hdl, output-list out; set a 1, eval, output;
file t/And.hdl
:CHIP And { IN x; OUT y; BUILTIN Or; CLOCKED x; }
$ test t/a.tst
out
||out|
|| 1 |

# a chip is known by its file
file t/a.tst
:load Two.hdl, output-list out; set a 1, set b 1, eval, output;
file t/Two.hdl
:CHIP One { IN a, b; OUT out; PARTS: And(a=a, b=b, out=out); }
file t/And.hdl
:CHIP And { IN a, b; OUT out; PARTS: Nand(a=a, b=b, out=n); Nand(a=n, b=n, out=out); }
$ test t/a.tst
out
||out|
|| 1 |

# a word of a block shows at once
file t/a.tst
:load W.hdl, output-list RAM8[2]%D1.3.1 RAM8[]%D1.4.1; set RAM8[2] 7, set address 2, output; eval, output; set RAM8[2] -5, tick, output; set in 9, set load 1, tick, tock, output;
file t/W.hdl
:CHIP W { IN in[16], load, address[3]; OUT out[16]; PARTS: RAM8(in=in, load=load, address=address, out=out); }
$ test t/a.tst
out
||RAM8[|RAM8[]|
||   7 |    0 |
||   7 |    7 |
||  -5 |   -5 |
||   9 |    9 |

# a chip that is loaded again is at its start: time, pins, words and what stands on its outputs; what a tick fixed is forgotten
file t/a.tst
|load W.hdl, output-list time%S1.4.1 in%D1.2.1 RAM8[2]%D1.3.1 out%D1.3.1;
|set in 7, set load 1, set address 2, ticktock, set in 9, tick, output;
|load W.hdl, output-list time%S1.4.1 in%D1.2.1 RAM8[2]%D1.3.1 out%D1.3.1;
|output; tock, set address 2, eval, output; set in 5, set load 1, ticktock, output;
file t/W.hdl
:CHIP W { IN in[16], load, address[3]; OUT out[16]; PARTS: RAM8(in=in, load=load, address=address, out=out); }
$ test t/a.tst
out
|| time | in |RAM8[| out |
|| 1+   |  9 |   7 |   7 |
|| time | in |RAM8[| out |
|| 0    |  0 |   0 |   0 |
|| 0    |  0 |   0 |   0 |
|| 1    |  5 |   5 |   5 |

# the states of flip-flops too, and with another chip between
file t/a.tst
|load W.hdl, output-list DFF[] out; eval, output; set in 1, ticktock, output;
|load W.hdl, output-list DFF[] out; output; set in 1, ticktock, output;
|load Or.hdl, output-list a out; set a 1, eval, output;
|load W.hdl, output-list DFF[] out; output;
file t/W.hdl
:CHIP W { IN in; OUT out; PARTS: DFF(in=in, out=m); Not(in=m, out=out); }
$ test t/a.tst
out
||DFF|out|
|| 0 | 1 |
|| 1 | 0 |
||DFF|out|
|| 0 | 1 |
|| 1 | 0 |
|| a |out|
|| 1 | 1 |
||DFF|out|
|| 0 | 1 |

# a chip that is refused after one that is loaded again
file t/a.tst
:load And.hdl, load And.hdl, load Nor.hdl;
$ test t/a.tst
refused
err
|t/a.tst:0:0: UnknownChip Nor

# few inputs of a part are joined
file t/a.tst
:load W.hdl, output-list in out; eval, output; set in 1, eval, output;
file t/W.hdl
:CHIP W { IN in; OUT out; PARTS: Mux4Way16(b[3]=true, sel[0]=in, out[3]=out); }
$ test t/a.tst
out
||in |out|
|| 0 | 0 |
|| 1 | 1 |

# the first part of a chip
file t/a.tst
:load W.hdl, output-list DFF[] Not[]; eval, output; ticktock, output; set in 1, eval, output;
file t/W.hdl
:CHIP W { IN in; OUT out; PARTS: Not(in=in, out=n); DFF(in=n, out=m); Not(in=m, out=out); DFF(in=in); }
$ test t/a.tst
out
||DFF|Not|
|| 0 | 1 |
|| 1 | 1 |
|| 1 | 0 |

# a flip-flop is no loop
file t/a.tst
:load L.hdl;
file t/L.hdl
:CHIP L { IN a; OUT out; PARTS: DFF(in=x, out=x); }
$ test t/a.tst

# no command at all
file t/a.tst
$ test t/a.tst

file t/a.tst
|// nothing
:/* here */
$ test t/a.tst

file t/a.tst
:repeat 0 { output; } repeat 2 { output; repeat 1 { eval; tick, tock! } }
$ test t/a.tst
out
||
||

# 0 - 1
file t/a.tst
:load ALU.hdl, output-list out%D1.6.1 zr%B1.1.1 ng%B1.1.1; set x 0, set y 1, set zx 0, set nx 1, set zy 0, set ny 0, set f 1, set no 1, eval, output;
$ test t/a.tst
out
||  out   |zr |ng |
||     -1 | 0 | 1 |

# reset before load before inc
file t/a.tst
:load PC.hdl, output-list time%S1.2.1 out%D1.6.1; set in 7, set load 1, ticktock, output; set in 9, set inc 1, set reset 1, ticktock, output; set in 7, set reset 0, ticktock; set in 9, ticktock, output; set in 7, ticktock; set load 0, ticktock, output; set inc 0, ticktock, output; set in 65535, set load 1, ticktock, output; set load 0, set inc 1, ticktock, output;
$ test t/a.tst
out
||time|  out   |
|| 1  |      7 |
|| 2  |      0 |
|| 4  |      9 |
|| 6  |      8 |
|| 7  |      8 |
|| 8  |     -1 |
|| 9  |      0 |

file t/a.tst
:load RAM64.hdl, output-list time%S1.4.1 out%D1.4.1; set in 7, set load 1, set address 3, tick, output; tock, output;
$ test t/a.tst
out
|| time | out  |
|| 0+   |    0 |
|| 1    |    7 |

# what is set shows after an evaluation, and a tock before the first tick is no more than that
file t/a.tst
:load And.hdl, output-list a out; set a 1, set b 1, output; eval, output; set b 0, output; tock, output;
$ test t/a.tst
out
|| a |out|
|| 0 | 0 |
|| 1 | 1 |
|| 1 | 1 |
|| 1 | 0 |

# the last tick counts, and a tock without one does not
file t/a.tst
:load DFF.hdl, output-list time%S1.3.1 in out; set in 1, tick, output; set in 0, tock, output; set in 1, tock, output; tick, set in 0, tick, output; tock, output;
$ test t/a.tst
out
||time |in |out|
|| 0+  | 1 | 0 |
|| 1   | 0 | 1 |
|| 1   | 1 | 1 |
|| 1+  | 0 | 1 |
|| 2   | 0 | 0 |

# a bus takes its low bits; the end of a text is shown
file t/a.tst
:load Mux4Way16.hdl, output-list sel%D1.2.0 sel%B0.3.0 sel%S1.2.0 d%D0.6.0 out%S1.3.1 out%B0.4.0; set sel 7, set d -300, eval, output;
$ test t/a.tst
out
||sel|sel|sel|  d   | out |out |
||  3|011| 3 |  -300| 300 |0100|
";

#[test]
fn chips_are_driven(rt: HostRuntime) -> Result<(), Fail> {
    tried_both(&rt, rt.alloc(), SCRIPTS)
}
