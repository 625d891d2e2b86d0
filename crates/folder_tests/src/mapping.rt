//! Lines of `map` in the second form.
use crate::checks::tried;
use std::test::Fail;

// Each point is at the first token of its statement. Number 0 of a constructor is at its name, and the added return of `grow`
// at the brace that closes the body. The folder's own subroutines that are linked stand in order of address: one of a
// class with a static of which nothing is linked is not there. A method's object is argument 0, which has no name. Zoo is
// the last class by name, after those of the operating system; no code names `unused` and `open`, which have no word.
const PLACES: &str = "
file prog/Main.jack
|class Main {
|    function void main() {
|        var Zoo zoo;
|        let zoo = Zoo.new(3);
|        do zoo.grow(2);
|        return;
|    }
|}
file prog/Never.jack
|class Never {
|    static int lost;
|    function void lose() { let lost = 1; return; }
|}
file prog/Zoo.jack
|class Zoo {
|    static int count, unused;
|    field int size, age;
|    static boolean open;
|    constructor Zoo new(int start) {
|        let size = start;
|        let count = count + 1;
|        return this;
|    }
|    method void grow(int by) {
|        var int k, left;
|        var boolean more;
|        while (k < by) {
|            if (size > 5) { let size = 0; }
|            else { let size = size + 1; }
|            let k = k + 1;
|        }
|    }
|    function void never() { return; }
|}
$ map prog
begins
|map 2
|point 0 21 start 1 start 0 0
|point 21 23 start 2 start 0 0
|point 23 52 Main.main 1 Main.jack 4 9
|point 52 82 Main.main 2 Main.jack 5 9
|point 82 90 Main.main 3 Main.jack 6 9
|point 90 114 Zoo.new 0 Zoo.jack 5 21
|point 114 127 Zoo.new 1 Zoo.jack 6 9
|point 127 149 Zoo.new 2 Zoo.jack 7 9
|point 149 157 Zoo.new 3 Zoo.jack 8 9
|point 157 207 Zoo.grow 1 Zoo.jack 13 9
|point 207 209 Zoo.grow 6 Zoo.jack 18 5
|point 209 231 Zoo.grow 2 Zoo.jack 14 13
|point 231 233 Zoo.grow 4 Zoo.jack 15 20
|point 233 245 Zoo.grow 3 Zoo.jack 14 29
|point 245 247 Zoo.grow 5 Zoo.jack 16 13
|point 247 271 Zoo.grow 4 Zoo.jack 15 20
|point 271 295 Zoo.grow 5 Zoo.jack 16 13
|point 295 297 Zoo.grow 1 Zoo.jack 13 9
|point 297 305 Zoo.grow 6 Zoo.jack 18 5
:point 305 
those sub Main.,var Main.,sub Zoo.,var Zoo.,sub Never.,var Never.,static Never
|sub Main.main function 0 1
|var Main.main zoo local 0
|sub Zoo.new constructor 1 0
|var Zoo.new start argument 0
|sub Zoo.grow method 2 3
|var Zoo.grow by argument 1
|var Zoo.grow k local 0
|var Zoo.grow left local 1
|var Zoo.grow more local 2
ends
|field Zoo size 0
|field Zoo age 1
|static Zoo count 16
";

// the body ends at column 37 with the return that is added to it; there is no third format
const EMPTY: &str = "
file prog/Main.jack
:class Main { function void main() { } }
$ map prog --format 2
begins
|map 2
|point 0 21 start 1 start 0 0
once
| Main.main 1 Main.jack 1 37
|sub Main.main function 0 0

$ map prog --format 3
usage
err
|usage: nand COMMAND ARGUMENTS
";

#[test]
fn places_of_a_program(rt: HostRuntime) -> Result<(), Fail> {
    tried(&rt, rt.alloc(), PLACES)
}

#[test]
fn places_of_an_empty_body(rt: HostRuntime) -> Result<(), Fail> {
    tried(&rt, rt.alloc(), EMPTY)
}
